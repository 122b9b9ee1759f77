//! What a thread does with its pass, turn after turn.
//! A test has only its turns: that the pass stays quiet over them is proved once, here.
ghost use Rattle.segindex.specs.Words.{board_of};
ghost use Rattle.segstore.specs.Words.{IsQuiet};

use segindex::{Index, Pass};
use std::thread::{Threads, join};

// How many turns a work may take that doesn't end by itself.
const TURNS: u32 = 1_000_000_000;

/// Work in turns.
pub trait Work: Send + Drop {
    /// Takes a turn, and returns whether there is another. The turns are numbered from 0.
    fn turn(&mut self, index: &Index, pass: &mut Pass, turn: u32) -> bool
        requires { IsQuiet (board_of index.now) pass.old }
        ensures { IsQuiet (board_of index.now) pass.new };
}

/// Takes turns until there is no other, and returns the pass and the work.
pub fn take_turns<W: Work>(index: &Index, mut pass: Pass, mut work: W) -> (Pass, W)
    requires { IsQuiet (board_of index.now) pass }
    ensures { IsQuiet (board_of index.now) result.0 }
{
    for turn in 0..TURNS {
        if !work.turn(index, &mut pass, turn) {
            break;
        }
    }
    (pass, work)
}

/// Two passes do their works on threads of their own.
pub fn at_once<R: Threads + Sync, A: Work, B: Work>(
    rt: &R,
    index: &Index,
    first: (Pass, A),
    second: (Pass, B),
) -> ((Pass, A), (Pass, B))
    requires { IsQuiet (board_of index.now) first.0 × IsQuiet (board_of index.now) second.0 }
    ensures { IsQuiet (board_of index.now) result.0.0 × IsQuiet (board_of index.now) result.1.0 }
{
    let (first, task) = first;
    let (second, other) = second;
    join(
        rt,
        || -> (Pass, A)
            requires { IsQuiet (board_of index.now) first }
            ensures { IsQuiet (board_of index.entry.now) result.0 }
        { take_turns(index, first, task) },
        || -> (Pass, B)
            requires { IsQuiet (board_of index.now) second }
            ensures { IsQuiet (board_of index.entry.now) result.0 }
        { take_turns(index, second, other) },
    )
}

/// Three passes do their works on threads of their own.
pub fn three_at_once<R: Threads + Sync, A: Work, B: Work, C: Work>(
    rt: &R,
    index: &Index,
    first: (Pass, A),
    second: (Pass, B),
    third: (Pass, C),
) -> ((Pass, A), (Pass, B), (Pass, C))
    requires { IsQuiet (board_of index.now) first.0 × IsQuiet (board_of index.now) second.0
        × IsQuiet (board_of index.now) third.0 }
    ensures { IsQuiet (board_of index.now) result.0.0 × IsQuiet (board_of index.now) result.1.0
        × IsQuiet (board_of index.now) result.2.0 }
{
    let (first, task) = first;
    let (first, (second, third)) = join(
        rt,
        || -> (Pass, A)
            requires { IsQuiet (board_of index.now) first }
            ensures { IsQuiet (board_of index.entry.now) result.0 }
        { take_turns(index, first, task) },
        || -> ((Pass, B), (Pass, C))
            requires { IsQuiet (board_of index.now) second.0
                × IsQuiet (board_of index.now) third.0 }
            ensures { IsQuiet (board_of index.entry.now) result.0.0
                × IsQuiet (board_of index.entry.now) result.1.0 }
        { at_once(rt, index, second, third) },
    );
    (first, second, third)
}

/// Four passes, in two pairs, do their works on threads of their own.
pub fn four_at_once<R: Threads + Sync, A: Work, B: Work, C: Work, D: Work>(
    rt: &R,
    index: &Index,
    pair: ((Pass, A), (Pass, B)),
    other: ((Pass, C), (Pass, D)),
) -> ((Pass, A), (Pass, B), (Pass, C), (Pass, D))
    requires { IsQuiet (board_of index.now) pair.0.0 × IsQuiet (board_of index.now) pair.1.0
        × IsQuiet (board_of index.now) other.0.0 × IsQuiet (board_of index.now) other.1.0 }
    ensures { IsQuiet (board_of index.now) result.0.0 × IsQuiet (board_of index.now) result.1.0
        × IsQuiet (board_of index.now) result.2.0 × IsQuiet (board_of index.now) result.3.0 }
{
    let (first, second) = pair;
    let (third, fourth) = other;
    let (first, task) = first;
    let (first, (second, third, fourth)) = join(
        rt,
        || -> (Pass, A)
            requires { IsQuiet (board_of index.now) first }
            ensures { IsQuiet (board_of index.entry.now) result.0 }
        { take_turns(index, first, task) },
        || -> ((Pass, B), (Pass, C), (Pass, D))
            requires { IsQuiet (board_of index.now) second.0
                × IsQuiet (board_of index.now) third.0
                × IsQuiet (board_of index.now) fourth.0 }
            ensures { IsQuiet (board_of index.entry.now) result.0.0
                × IsQuiet (board_of index.entry.now) result.1.0
                × IsQuiet (board_of index.entry.now) result.2.0 }
        { three_at_once(rt, index, second, third, fourth) },
    );
    (first, second, third, fourth)
}
