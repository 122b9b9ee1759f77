//! The client of an index that has one pass.
ghost use Rattle.std.specs.Prelude.{All};
ghost use Rattle.segindex.specs.Words.{board_of, IsQuiet};

use segclient::{Client, Index, Pass, clients};
use std::alloc::AllocGlobal;
use std::process::Abort;

/// Its client. This function has no contract,
/// so that the proof of a test needn't read what a new client is.
pub fn only_client<'i, R: AllocGlobal + Abort>(
    rt: &R,
    index: &'i Index,
    passes: Vec<Pass>,
) -> Client<'i>
    requires { All (IsQuiet (board_of index.now)) passes.items }
{
    let mut all = clients(rt.alloc(), index, passes).expect(rt, "memory for clients");
    all.pop().expect(rt, "a client")
}
