//! The callers of a round, which work on threads or in turn: passes, or a client of each pass.
//! Each kind has functions of its own: the closure of a thread isn't proved over one type for both.
ghost use Rattle.std.specs.Prelude.{All};
ghost use Rattle.segindex.specs.Words.{board_of};
ghost use Rattle.segstore.specs.Words.{IsQuiet};

use crate::client::ClientCaller;
use crate::pass::PassCaller;
use crate::session::{Desk, Notes};
use segindex::{Index, Pass};
use std::alloc::{AllocError, Global};
use std::thread;
use std::thread::{Threads, for_each_mut};

/// Lets passes make their calls. Returns what each noted.
pub fn work_of_passes<R: Threads + Sync>(
    rt: &R,
    alloc: Global,
    index: &Index,
    passes: Vec<Pass>,
    desk: Desk<'_>,
) -> Result<Vec<Notes>, AllocError>
    requires { All (IsQuiet (board_of index.now)) passes.items }
{
    let mut callers = passes_of(alloc, index, passes, desk)?;
    if !desk.is_in_turn {
        return thread::map_vec(rt, callers, &|caller: PassCaller| caller.work());
    }
    for caller in callers.iter_mut() {
        caller.refill();
    }
    for _ in 0..desk.turns {
        for caller in callers.iter_mut() {
            caller.turn();
            caller.look();
        }
    }
    let mut notes = Vec::new(alloc);
    for caller in callers {
        notes.push(caller.into_notes())?;
    }
    Ok(notes)
}

/// Lets a client of each pass make its calls. The first put of each refills a segment by itself.
pub fn work_of_clients<R: Threads + Sync>(
    rt: &R,
    alloc: Global,
    index: &Index,
    passes: Vec<Pass>,
    desk: Desk<'_>,
) -> Result<Vec<Notes>, AllocError>
    requires { All (IsQuiet (board_of index.now)) passes.items }
{
    let mut callers = clients_of(alloc, index, passes, desk)?;
    if desk.is_in_turn {
        clients_in_turn(&mut callers, desk.turns);
    } else {
        let threads = desk.passes.max(1) as usize;
        let work = |_number, caller: &mut ClientCaller<'_>| caller.work();
        for_each_mut(rt, callers.as_mut_slice(), threads, &work);
    }
    let mut notes = Vec::new(alloc);
    for caller in callers {
        notes.push(caller.into_notes())?;
    }
    Ok(notes)
}

fn passes_of<'a>(
    alloc: Global,
    index: &'a Index,
    passes: Vec<Pass>,
    desk: Desk<'a>,
) -> Result<Vec<PassCaller<'a>>, AllocError>
    requires { All (IsQuiet (board_of index.now)) passes.items }
{
    let mut callers = Vec::new(alloc);
    for pass in passes {
        callers.push(PassCaller::new(alloc, index, desk, pass))?;
    }
    Ok(callers)
}

fn clients_of<'a>(
    alloc: Global,
    index: &'a Index,
    passes: Vec<Pass>,
    desk: Desk<'a>,
) -> Result<Vec<ClientCaller<'a>>, AllocError>
    requires { All (IsQuiet (board_of index.now)) passes.items }
{
    let mut callers = Vec::new(alloc);
    let mut number = 0u32;
    for client in segclient::clients(alloc, index, passes)? {
        callers.push(ClientCaller::new(alloc, desk, client, number)?)?;
        number = number.saturating_add(1);
    }
    Ok(callers)
}

// Lets clients take so many turns each on this thread. After each the client looks at the keys.
fn clients_in_turn(callers: &mut Vec<ClientCaller<'_>>, turns: u32) {
    for _ in 0..turns {
        for caller in callers.iter_mut() {
            caller.turn();
            caller.look();
        }
    }
}
