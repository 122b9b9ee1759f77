//! Clients for all passes of an index.
ghost use Rattle.std.specs.Prelude.{◌≡◌, ◌++◌, [], ◌∷◌, map, All, IfOk, IfSome, MatchOption, Some};
ghost use Rattle.std.specs.Vec.{vec_capacity, vec_len};
ghost use Rattle.std.specs.List.{AllZip};
ghost use Rattle.segword.specs.Words.{Shape};
ghost use Rattle.segindex.specs.Words.{AreAllQuiet, board_of, IsNew};
ghost use Rattle.segstore.specs.Words.{IsQuiet};
ghost use Rattle.segclient.specs.Client.{Starts};
ghost use Rattle.segclient.specs.Clients.{AreAllClients};

use crate::client::Client;
use segindex::{Index, Pass};
use std::alloc::{AllocError, Global};

/// A client for each pass, in their order, as `Client::with_queues` makes it.
/// No later call of a client takes an allocator.
/// If memory is refused, the passes are gone.
///
/// Once they are done, `into_passes` has the passes back for a close with all of them.
/// A pass that was kept back can close the index by itself.
pub fn clients<'i>(
    alloc: Global,
    index: &'i Index,
    passes: Vec<Pass>,
) -> Result<Vec<Client<'i>>, AllocError>
    requires quiet { All (IsQuiet (board_of index.now)) passes.items }
    ensures each { IfOk result (λ clients.
        AllZip (Starts index.now (Some 0)) passes.items clients.items) }
    ensures all { (shape : Shape) → IsNew shape index.now passes.items
        → IfOk result (λ clients. AreAllClients index.now clients.items) }
    ensures room { IfOk result (λ clients. vec_capacity clients ≡ vec_len passes) }
{
    let mut clients = Vec::with_capacity(alloc, passes.len())?;
    for pass in passes {
        clients.push_reserved(Client::with_queues(alloc, index, pass)?);
    }
    Ok(clients)
}

/// Takes the last pass out of the list, so that it can close the index
/// once the clients of the others are gone.
pub fn keep_back(index: &Index, passes: &mut Vec<Pass>) -> Option<Pass>
    requires quiet { All (IsQuiet (board_of index.now)) passes.old.items }
    ensures taken { MatchOption result (passes.old.items ≡ [])
        (λ pass. passes.old.items ≡ passes.new.items ++ pass ∷ []) }
    ensures last { IfSome result (IsQuiet (board_of index.now)) }
    ensures others { All (IsQuiet (board_of index.now)) passes.new.items }
{
    passes.pop()
}

/// The passes of the clients, in their order, so that they can close the index.
/// The clients are of all passes of the index, in any order.
/// If the memory for the list is refused, the passes are gone.
pub fn into_passes(
    alloc: Global,
    index: &Index,
    clients: Vec<Client<'_>>,
) -> Result<Vec<Pass>, AllocError>
    requires all { AreAllClients index.now clients.items }
    ensures all { IfOk result (λ passes. AreAllQuiet (board_of index.now) passes.items) }
    ensures passes { IfOk result (λ passes.
        passes.items ≡ map (λ client. client.member.pass) clients.entry.items) }
    ensures room { IfOk result (λ passes. vec_capacity passes ≡ vec_len clients.entry) }
{
    let mut passes = Vec::with_capacity(alloc, clients.len())?;
    for client in clients {
        passes.push_reserved(client.into_pass());
    }
    Ok(passes)
}
