//! A pass that makes calls of the index at random, and notes what each returned.
ghost use Rattle.std.specs.Prelude.{◌≡◌};
ghost use Rattle.segbase.specs.Words.{holding};
ghost use Rattle.segindex.specs.Words.{board_of, shape_of};
ghost use Rattle.segstore.specs.Words.{IsQuiet, IsQuiet-prop};
ghost use Rattle.segread.specs.Words.{IsHoldOf};

use crate::keys::{Place, number_of};
use crate::session::{Asked, Desk, Notes, Session};
use segindex::{Hold, HoldAnswer, Index, LockAnswer, Pass, hold_stays};
use segmodel::{Answer, Command, EvictAnswer, RefillAnswer, WriteAnswer};
use std::alloc::Global;

/// How many turns are made while a bucket is locked.
const MEANWHILE: u32 = 2;

/// A pass, and what its next calls depend on.
#[derive(Drop)]
pub struct PassCaller<'a> {
    index: &'a Index,
    pass: Pass,
    session: Session<'a>,
    /// How many times the pass went on to its next segment.
    fillings: u32,
    /// The segment that the pass stores into, and the segment's deadline.
    segment: u32,
    deadline: u32,
    /// The bucket that the pass has locked, and after how many turns it unlocks the bucket.
    locked: Option<(usize, u32)>,
    /// Whether it wasn't told which keys were taken out or moved since the last look.
    is_unsure: bool,
    ghost quiet: { IsQuiet (board_of index.now) pass } by { IsQuiet-prop (board_of index.now) pass },
}

impl<'a> PassCaller<'a> {
    /// A caller whose pass has made no call.
    pub fn new(alloc: Global, index: &'a Index, desk: Desk<'a>, pass: Pass) -> PassCaller<'a>
        requires { IsQuiet (board_of index.now) pass }
    {
        let session = Session::new(alloc, desk, pass.number());
        PassCaller {
            index,
            pass,
            session,
            fillings: 0,
            segment: 0,
            deadline: 0,
            locked: None,
            is_unsure: false,
        }
    }

    /// Waits until all passes are there, and then makes its turns. Returns what it noted.
    pub fn work(mut self) -> Notes {
        self.session.meet();
        self.refill();
        for _ in 0..self.session.desk.turns {
            self.turn();
        }
        self.session.notes
    }

    /// What it noted of its calls.
    pub fn into_notes(self) -> Notes {
        self.session.notes
    }

    /// Makes one turn, drawn at random.
    pub fn turn(&mut self) {
        self.go_on_with_lock();
        match self.session.draws.below(64) {
            0 | 1 => {
                let place = self.session.draws.place();
                let now = self.session.draws.moment();
                self.hold_at(place, now, true);
            }
            2 | 3 => self.lock(),
            4 => self.refill(),
            5 => self.keep(),
            _ => self.command(),
        }
    }

    /// Looks which keys stand, at a moment before all deadlines, unless that is sure. A hold counts no hit.
    pub fn look(&mut self) {
        if self.is_unsure {
            self.is_unsure = false;
            for number in 0..self.session.desk.keys.len() {
                self.hold_at(Place::of_number(number), 0, false);
            }
        }
    }

    // A command on a key.
    fn command(&mut self)
        ensures index { self.new.index.now ≡ self.old.index.now }
        ensures held { holding self.new.pass ≡ holding self.old.pass }
    {
        let Some(asked) = self.session.ask(self.segment, self.deadline) else {
            return;
        };
        let draw = self.session.draws.below(u32::MAX);
        if self.serve(&asked, draw) == Answer::Write(WriteAnswer::NoRoom) {
            self.refill();
        }
    }

    // Makes a command, and notes its answer and what that tells of the segments.
    fn serve(&mut self, asked: &Asked, draw: u32) -> Answer
        ensures index { self.new.index.now ≡ self.old.index.now }
        ensures held { holding self.new.pass ≡ holding self.old.pass }
    {
        let called = self.session.stamp();
        let answer = serve(self.index, &mut self.pass, &asked.command, draw);
        self.session.note_answer(called, asked, &answer, "");
        match (&asked.command, &answer) {
            (_, Answer::Keep(_) | Answer::Evict(EvictAnswer::Busy(_))) => self.is_unsure = true,
            (Command::Refill(segment, deadline), Answer::Refill(RefillAnswer::Refilled)) => {
                self.segment = *segment;
                self.deadline = *deadline;
            }
            _ => {}
        }
        answer
    }

    // The same of a command on segments.
    fn serve_segment(&mut self, command: Command)
        ensures index { self.new.index.now ≡ self.old.index.now }
        ensures held { holding self.new.pass ≡ holding self.old.pass }
    {
        let asked = Asked {
            place: Place::of_number(0),
            value: 0,
            segment: self.segment,
            deadline: self.deadline,
            command,
        };
        self.serve(&asked, 0);
    }

    // Goes on to the next segment, moves items of the oldest one there that were read often enough,
    // and evicts what is left.
    fn keep(&mut self)
        ensures index { self.new.index.now ≡ self.old.index.now }
        ensures held { holding self.new.pass ≡ holding self.old.pass }
    {
        self.refill();
        let segment = self.next_segment();
        let cutoff = self.session.draws.cutoff();
        self.serve_segment(Command::Keep(segment, cutoff));
        self.serve_segment(Command::Evict(segment));
    }

    // The segment that the pass goes on to next. It is the one that was refilled first.
    fn next_segment(&self) -> u32 {
        let each = self.session.desk.segments.max(1);
        let first = self.pass.number().saturating_mul(each);
        first.saturating_add(self.fillings % each)
    }

    /// Evicts and refills the next segment. If that is done, the pass stores there from then on.
    pub fn refill(&mut self)
        ensures index { self.new.index.now ≡ self.old.index.now }
        ensures held { holding self.new.pass ≡ holding self.old.pass }
    {
        let segment = self.next_segment();
        self.fillings = self.fillings.wrapping_add(1);
        self.serve_segment(Command::Evict(segment));
        let deadline = self.session.draws.deadline();
        self.serve_segment(Command::Refill(segment, deadline));
    }

    // Holds an item, while two commands are made if that is wanted.
    fn hold_at(&mut self, place: Place, now: u32, has_commands: bool) {
        let Some(key) = self.session.key(place) else {
            return;
        };
        let index = self.index;
        let called = self.session.stamp();
        let answer = index.hold(&mut self.pass, key, now);
        let stamps = (called, self.session.stamp());
        let told = match answer {
            HoldAnswer::Holding(hold) => {
                hold_stays();
                let number = number_of(&index.held_value(&mut self.pass, &hold));
                let call = format_args!("hold {place} {now} Found {number}");
                self.session.notes.add(stamps, call);
                self.make_commands(has_commands);
                return self.end_hold(place.bucket, hold);
            }
            HoldAnswer::Miss => "Miss",
            HoldAnswer::Busy => "Busy",
            HoldAnswer::AlreadyHolding => "AlreadyHolding",
        };
        let notes = &mut self.session.notes;
        notes.add(stamps, format_args!("hold {place} {now} {told}"));
    }

    // The two commands that are made while an item is held, if there are any.
    fn make_commands(&mut self, has_commands: bool)
        ensures index { self.new.index.now ≡ self.old.index.now }
        ensures held { holding self.new.pass ≡ holding self.old.pass }
    {
        if has_commands {
            self.command();
            self.command();
        }
    }

    // Reads the held value once more, and releases the hold.
    fn end_hold(&mut self, bucket: usize, hold: Hold<'_>)
        requires { IsHoldOf (shape_of self.old.index.now) hold self.old.pass }
    {
        let called = self.session.stamp();
        let value = self.index.held_value(&mut self.pass, &hold);
        let stamps = (called, self.session.stamp());
        let number = number_of(&value);
        let notes = &mut self.session.notes;
        notes.add(stamps, format_args!("held {bucket} {number}"));
        let called = self.session.stamp();
        self.index.release(&mut self.pass, hold);
        self.session.note(called, format_args!("release {bucket}"));
    }

    // Locks a bucket for the next turns, unless the pass has one locked.
    fn lock(&mut self) {
        let place = self.session.draws.place();
        let bucket = place.bucket;
        let (None, Some(key)) = (self.locked, self.session.key(place)) else {
            return;
        };
        let called = self.session.stamp();
        let answer = self.index.lock_bucket(&mut self.pass, key);
        self.session
            .note(called, format_args!("lock {bucket} {answer:?}"));
        if answer == LockAnswer::Locked {
            self.locked = Some((bucket, MEANWHILE));
        }
    }

    // Unlocks the bucket that is locked, if enough turns were made since.
    fn go_on_with_lock(&mut self) {
        match self.locked {
            None => {}
            Some((bucket, 0)) => self.unlock(bucket),
            Some((bucket, turns)) => self.locked = Some((bucket, turns - 1)),
        }
    }

    fn unlock(&mut self, bucket: usize) {
        let called = self.session.stamp();
        let is_unlocked = self.index.unlock_bucket(&mut self.pass);
        let answer = if is_unlocked { "Unlocked" } else { "NotLocked" };
        self.session
            .note(called, format_args!("unlock {bucket} {answer}"));
        self.locked = None;
    }
}

// Serves a command. What the pass holds stays held.
fn serve(index: &Index, pass: &mut Pass, command: &Command, draw: u32) -> Answer
    requires { IsQuiet (board_of index.now) pass.old }
    ensures quiet { IsQuiet (board_of index.now) pass.new }
    ensures held { holding pass.new ≡ holding pass.old }
{
    index.serve(pass, command, draw)
}
