//! Who makes the commands of a load: a pass with its ring, which calls the index itself. It is no
//! client of `segclient`.
ghost use Rattle.std.specs.Prelude.{◌≡◌, ◌+◌, ◌≤◌, ◌<◌, ◌^◌};
ghost use Rattle.segload.specs.Calls.{command_of, tally_of, IsOfLoad};

use crate::totals::Recycled;
use segindex::{Index, Pass};
use segmodel::{Answer, Command, EvictAnswer, GetsAnswer, RefillAnswer, Request, WriteAnswer};
use segpolicy::{Kind, Load, Ring};
use segtally::{Tally, evicted_by, refilled_by};

// The deadline of each segment that a load refills: the last moment of all.
const DEADLINE: u32 = u32::MAX;

// The moment that each command of a load is made with.
const MOMENT: u32 = 0;

/// A pass, and what its next commands depend on.
#[derive(Drop)]
pub(crate) struct Caller {
    pub(crate) pass: Pass,
    // The segments of the pass, in the order in which they are given up for new keys.
    segments: Ring,
    // The version that the pass's last gets found.
    version: u32,
    // What the pass recycled so far.
    pub(crate) recycled: Recycled,
}

// The call of the index for a command of the load, at the load's moment. A cas expects the version.
fn command_of(load: Load, version: u32) -> Command
    ensures { result ≡ command_of version load }
{
    let Load {
        kind,
        key,
        value,
        draw: _,
    } = load;
    match kind {
        Kind::Get => Command::Get(key, MOMENT),
        Kind::Gets => Command::Gets(key, MOMENT),
        Kind::Set => Command::Write(Request::Set(key, value, MOMENT)),
        Kind::Add => Command::Write(Request::Add(key, value, MOMENT)),
        Kind::Replace => Command::Write(Request::Replace(key, value, MOMENT)),
        Kind::Cas => Command::Write(Request::Cas(key, value, version, MOMENT)),
        Kind::Delete => Command::Write(Request::Delete(key, MOMENT)),
    }
}

// How a command of a load that has this answer is counted.
fn tally_of(answer: &Answer) -> Tally
    requires { IsOfLoad answer.now }
    ensures { result ≡ tally_of answer.now }
{
    match answer {
        Answer::Get(told) => Tally::of_get(told),
        Answer::Gets(told) => Tally::of_gets(told),
        Answer::Write(told) => Tally::of_write(*told),
        Answer::Delete(told) => Tally::of_delete(*told),
        _ => unreachable!(),
    }
}

impl Caller {
    ghost use Rattle.segindex.specs.Words.{AnswersCommand, board_of};
    ghost use Rattle.segstore.specs.Words.{GoesOn, IsQuiet};
    ghost use Rattle.segpolicy.specs.Words.{next_of};
    ghost use Rattle.segevict.specs.Words.{EvictsSegment};
    ghost use Rattle.segindex.specs.Refilling.{RefillsSegment};
    ghost use Rattle.segload.specs.Counting.{CanCountMore, none_recycled, RecyclesFew};
    ghost use Rattle.segload.specs.Making.{load_deadline, turned_on};
    ghost use Rattle.segload.specs.Calls.{course_after, ServesLoad, TriesForRoom};
    ghost use Rattle.segload.specs.Working.{course_of, HasCounted};

    /// A caller whose pass made no command yet.
    pub(crate) fn new(pass: Pass, segments: Ring) -> Caller
        ensures pass { result.pass ≡ pass }
        ensures course { course_of result ≡ record { segments = segments; version = 0 } }
        ensures recycled { result.recycled ≡ none_recycled }
    {
        Caller {
            pass,
            segments,
            version: 0,
            recycled: Recycled::new(),
        }
    }

    /// The pass of the caller, which makes no more commands.
    pub(crate) fn into_pass(self) -> Pass
        ensures { result ≡ self.pass }
    {
        let Caller {
            pass,
            segments: _,
            version: _,
            recycled: _,
        } = self;
        pass
    }

    /// Makes a command, and returns how it is counted.
    /// A write that finds no room is made once more, if room could be made.
    pub(crate) fn serve(&mut self, index: &Index, load: Load) -> Tally
        requires quiet { IsQuiet (board_of index.now) self.old.pass }
        requires counts { HasCounted self.old }
        requires fits { CanCountMore self.old.recycled }
        ensures on { GoesOn (board_of index.now) self.old.pass self.new.pass }
        ensures serves { ServesLoad (AnswersCommand (board_of index.now)) load result
            (course_of self.old) (course_of self.new) self.old.pass self.new.pass }
        ensures counts { HasCounted self.new }
        ensures few { RecyclesFew self.old.recycled self.new.recycled }
    {
        let draw = load.draw;
        let command = command_of(load, self.version);
        let answer = self.ask(index, &command, draw);
        if answer != Answer::Write(WriteAnswer::NoRoom) {
            self.remember(&answer);
            return tally_of(&answer);
        }
        if !self.make_room(index) {
            return Tally::NoRoom;
        }
        tally_of(&self.ask(index, &command, draw))
    }

    // Makes one call of the index.
    fn ask(&mut self, index: &Index, command: &Command, draw: u32) -> Answer
        requires quiet { IsQuiet (board_of index.now) self.old.pass }
        ensures on { GoesOn (board_of index.now) self.old.pass self.new.pass }
        ensures answers { AnswersCommand (board_of index.now) command.now draw
            result self.old.pass self.new.pass }
        ensures course { course_of self.new ≡ course_of self.old }
        ensures recycled { self.new.recycled ≡ self.old.recycled }
    {
        index.serve(&mut self.pass, command, draw)
    }

    // Keeps, for the next cas, the version that a gets found.
    fn remember(&mut self, answer: &Answer)
        ensures pass { self.new.pass ≡ self.old.pass }
        ensures course { course_of self.new ≡ course_after answer.now (course_of self.old) }
        ensures recycled { self.new.recycled ≡ self.old.recycled }
    {
        if let Answer::Gets(GetsAnswer::Found(_, version)) = answer {
            self.version = *version;
        }
    }

    // Evicts and refills the next of the pass's segments, and returns whether there is room then.
    // If there is, the segment has the load's deadline.
    fn make_room(&mut self, index: &Index) -> bool
        requires quiet { IsQuiet (board_of index.now) self.old.pass }
        requires counts { HasCounted self.old }
        requires fits { CanCountMore self.old.recycled }
        ensures on { GoesOn (board_of index.now) self.old.pass self.new.pass }
        ensures room { TriesForRoom (AnswersCommand (board_of index.now))
            (next_of self.old.segments) result self.old.pass self.new.pass }
        ensures course { course_of self.new ≡ turned_on (course_of self.old) }
        ensures counts { HasCounted self.new }
        ensures few { RecyclesFew self.old.recycled self.new.recycled }
    {
        let segment = self.segments.next();
        let EvictAnswer::Evicted(_) = self.evict(index, segment) else {
            return false;
        };
        self.refill(index, segment) == RefillAnswer::Refilled
    }

    // Evicts a segment, and counts the keys that were taken out.
    fn evict(&mut self, index: &Index, segment: u32) -> EvictAnswer
        requires quiet { IsQuiet (board_of index.now) self.old.pass }
        requires counts { HasCounted self.old }
        requires fits { self.old.recycled.evictions + 2 ^ 32 ≤ 2 ^ 64 }
        ensures evicts { EvictsSegment (board_of index.now) segment result
            self.old.pass self.new.pass }
        ensures course { course_of self.new ≡ course_of self.old }
        ensures counts { HasCounted self.new }
        ensures few { self.new.recycled.evictions < self.old.recycled.evictions + 2 ^ 32 }
        ensures refillings { self.new.recycled.refillings ≡ self.old.recycled.refillings }
    {
        let answer = index.evict(&mut self.pass, segment);
        self.recycled.evictions += u64::from(evicted_by(answer));
        answer
    }

    // Refills a segment up to the load's deadline, and counts it.
    fn refill(&mut self, index: &Index, segment: u32) -> RefillAnswer
        requires quiet { IsQuiet (board_of index.now) self.old.pass }
        requires counts { HasCounted self.old }
        requires fits { self.old.recycled.refillings + 1 < 2 ^ 32 }
        ensures refills { RefillsSegment (board_of index.now) segment load_deadline result
            self.old.pass self.new.pass }
        ensures course { course_of self.new ≡ course_of self.old }
        ensures counts { HasCounted self.new }
        ensures evictions { self.new.recycled.evictions ≡ self.old.recycled.evictions }
        ensures few { self.new.recycled.refillings ≤ self.old.recycled.refillings + 1 }
    {
        let answer = index.refill(&mut self.pass, segment, DEADLINE);
        self.recycled.refillings += refilled_by(answer);
        answer
    }
}
