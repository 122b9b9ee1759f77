//! A client that makes calls at random, and notes what each returned.
//! No note of one client is learned by another: the checker demands the order of all stamps,
//! which is more than a note promises.
ghost use Rattle.std.specs.Prelude.{◌≡◌};
ghost use Rattle.segbase.specs.Words.{holding};
ghost use Rattle.segindex.specs.Words.{shape_of};
ghost use Rattle.segread.specs.Words.{IsHoldOf};

use crate::draws::MOMENTS;
use crate::keys::{BUCKETS, EACH, number_of};
use crate::session::{Asked, Desk, Found, Notes, Session};
use segclient::{Client, Hold, HoldAnswer, PutAnswer, Stats, hold_stays};
use segmodel::{Answer, Command, GetAnswer, Request, WriteAnswer};
use segword::{Key, Value};
use std::alloc::{AllocError, Global};
use std::fmt;
use std::fmt::{Display, Formatter, Write};

/// By queues a client needs so many segments.
const FOR_QUEUES: u32 = 4;

/// A client, and what its next calls depend on.
#[derive(Drop)]
pub struct ClientCaller<'a> {
    client: Client<'a>,
    /// The number of its pass, which stands for each of the segments.
    number: u32,
    session: Session<'a>,
    time_to_live: u32,
    has_queues: bool,
    /// So many rows are left, at least, of the segment that it stores into, and whether just so many.
    left: u32,
    is_sure: bool,
    /// Whether keys were evicted since the last look.
    has_evicted: bool,
    /// The answers to gets of all keys of a bucket.
    answers: Vec<GetAnswer>,
}

/// What a call recycled: the keys evicted, the items kept, and the segments refilled.
#[derive(Clone, Copy)]
struct Recycled {
    evicted: u64,
    kept: u64,
    refilled: u64,
}

impl Display for Recycled {
    fn fmt<W: Write>(&self, f: &mut Formatter<W>) -> fmt::Result {
        write!(f, " {} {} {}", self.evicted, self.kept, self.refilled)
    }
}

impl<'a> ClientCaller<'a> {
    /// A caller whose client has made no call. How it keeps what was read is drawn.
    pub fn new(
        alloc: Global,
        desk: Desk<'a>,
        mut client: Client<'a>,
        number: u32,
    ) -> Result<ClientCaller<'a>, AllocError> {
        let mut session = Session::new(alloc, desk, number);
        let draw = session.draws.below(3);
        let has_queues = draw == 0 && desk.segments >= FOR_QUEUES;
        if draw == 2 {
            client.keep_nothing();
        } else if !has_queues {
            client.keep_from(Some(session.draws.cutoff().saturating_add(1)));
        }
        let time_to_live = match session.draws.below(3) {
            0 => MOMENTS / 2,
            1 => MOMENTS,
            _ => u32::MAX,
        };
        client.set_time_to_live(time_to_live);
        session.notes.add_client(time_to_live, has_queues);
        let mut answers = Vec::new(alloc);
        for _ in 0..EACH {
            answers.push(GetAnswer::Busy)?;
        }
        Ok(ClientCaller {
            client,
            number,
            session,
            time_to_live,
            has_queues,
            left: 0,
            is_sure: true,
            has_evicted: false,
            answers,
        })
    }

    /// Waits until all callers are there, and then makes its turns.
    pub fn work(&mut self) {
        self.session.meet();
        for _ in 0..self.session.desk.turns {
            self.turn();
        }
    }

    /// What it noted of its calls.
    pub fn into_notes(self) -> Notes {
        self.session.notes
    }

    /// Makes one turn, drawn at random. If keys were evicted before, it looks first which still stand:
    /// else the checker would have to go on with too many cases.
    pub fn turn(&mut self) {
        if self.has_evicted {
            self.look();
        }
        match self.session.draws.below(64) {
            0 | 1 => self.hold(),
            2 => self.make_room(),
            3 | 4 => {
                let bucket = self.session.draws.place().bucket;
                let now = self.session.draws.moment();
                self.get_many(bucket, now);
            }
            _ => self.command(),
        }
    }

    /// Looks which keys stand, at a moment before all deadlines.
    pub fn look(&mut self) {
        self.has_evicted = false;
        for bucket in 0..BUCKETS as usize {
            self.get_many(bucket, 0);
        }
    }

    // A command on a key. Most sets are puts, unless a store has to tell first whether a row is left.
    fn command(&mut self)
        ensures index { self.new.client.index.now ≡ self.old.client.index.now }
        ensures held { holding self.new.client.member.pass ≡ holding self.old.client.member.pass }
    {
        let Some(asked) = self.session.ask(self.number, 0) else {
            return;
        };
        match &asked.command {
            Command::Write(Request::Set(key, value, now))
                if self.session.draws.below(8) > 0 && self.is_row_known() => {
                self.put(&asked, key, value, *now);
            }
            _ => self.serve(asked),
        }
    }

    // Whether it is known if a row is left. Only by queues items are moved into the segment unseen.
    fn is_row_known(&self) -> bool {
        self.left > 0 || self.is_sure || !self.has_queues || self.time_to_live < u32::MAX
    }

    fn put(&mut self, asked: &Asked, key: &Key, value: &Value, now: u32)
        ensures index { self.new.client.index.now ≡ self.old.client.index.now }
        ensures held { holding self.new.client.member.pass ≡ holding self.old.client.member.pass }
    {
        let before = self.client.stats();
        let called = self.session.stamp();
        let answer = put(&mut self.client, key, value, now);
        let recycled = self.recycled(before);
        let (place, number, until) = (asked.place, self.number, self.until());
        let stored = format_args!("{place} {now} {} {number} {until}", asked.value);
        self.session
            .note(called, format_args!("put {stored} {answer:?}{recycled}"));
        if self.left == 0 && recycled.refilled > 0 {
            self.left = self.session.desk.rows;
        }
        self.go_on(answer == PutAnswer::Stored, recycled);
    }

    // Makes a command as it is. What it stores comes into a segment that the client chooses then.
    // If there is no room for it, the client makes some.
    fn serve(&mut self, mut asked: Asked)
        ensures index { self.new.client.index.now ≡ self.old.client.index.now }
        ensures held { holding self.new.client.member.pass ≡ holding self.old.client.member.pass }
    {
        let before = self.client.stats();
        let called = self.session.stamp();
        let Some(answer) = serve(&mut self.client, &asked.command) else {
            return;
        };
        let recycled = self.recycled(before);
        asked.deadline = self.until();
        self.session.note_answer(called, &asked, &answer, recycled);
        self.go_on(answer == Answer::Write(WriteAnswer::Stored), recycled);
        if answer == Answer::Write(WriteAnswer::NoRoom) {
            (self.left, self.is_sure) = (0, true);
            self.make_room();
        }
    }

    fn make_room(&mut self)
        ensures index { self.new.client.index.now ≡ self.old.client.index.now }
        ensures held { holding self.new.client.member.pass ≡ holding self.old.client.member.pass }
    {
        let now = self.session.draws.moment();
        let before = self.client.stats();
        let called = self.session.stamp();
        let is_made = make_room(&mut self.client, now);
        let recycled = self.recycled(before);
        let answer = if is_made { "Made" } else { "NotMade" };
        let number = self.number;
        self.session.note(
            called,
            format_args!("make_room {number} {answer}{recycled}"),
        );
        self.is_sure = is_made && (self.is_sure || recycled.refilled > 0);
        if recycled.refilled > 0 {
            self.left = self.session.desk.rows;
        }
        self.go_on(false, recycled);
    }

    // Gets of all keys of a bucket.
    fn get_many(&mut self, bucket: usize, now: u32) {
        let first = bucket.saturating_mul(EACH);
        let all = self.session.desk.keys;
        let Some(keys) = all.get(first..first.saturating_add(EACH)) else {
            return;
        };
        let called = self.session.stamp();
        self.client.set_now(now);
        get_many(&mut self.client, keys, self.answers.as_mut_slice());
        let answers = Several(&self.answers);
        self.session
            .note(called, format_args!("get_many {bucket} {now}{answers}"));
    }

    // The deadline of what is stored now.
    fn until(&self) -> u32 {
        self.client.stores_until().unwrap_or(0)
    }

    // What a call recycled, by the counts before it.
    fn recycled(&self, before: Stats) -> Recycled {
        let after = self.client.stats();
        Recycled {
            evicted: after.keys_evicted.saturating_sub(before.keys_evicted),
            kept: after.items_kept.saturating_sub(before.items_kept),
            refilled: after
                .segments_refilled
                .saturating_sub(before.segments_refilled),
        }
    }

    // Goes on with what is known of rows by a call that stored or not. Items that were kept can have come
    // into the segment, or not.
    fn go_on(&mut self, is_stored: bool, recycled: Recycled)
        ensures index { self.new.client.index.now ≡ self.old.client.index.now }
        ensures held { holding self.new.client.member.pass ≡ holding self.old.client.member.pass }
    {
        let moved = u32::try_from(recycled.kept).unwrap_or(u32::MAX);
        self.left = self.left.saturating_sub(u32::from(is_stored));
        self.left = self.left.saturating_sub(moved);
        self.is_sure = self.is_sure && moved == 0;
        self.has_evicted = self.has_evicted || recycled.evicted > 0;
    }

    // Holds an item while other commands are made.
    fn hold(&mut self) {
        let place = self.session.draws.place();
        let now = self.session.draws.moment();
        let Some(key) = self.session.key(place) else {
            return;
        };
        self.client.set_now(now);
        let called = self.session.stamp();
        let answer = self.client.hold(key);
        let stamps = (called, self.session.stamp());
        let told = match answer {
            HoldAnswer::Holding(hold) => {
                hold_stays();
                let number = number_of(&self.client.held_value(&hold));
                let call = format_args!("hold {place} {now} Found {number}");
                self.session.notes.add(stamps, call);
                self.make_commands();
                return self.end_hold(place.bucket, hold);
            }
            HoldAnswer::Miss => "Miss",
            HoldAnswer::Busy => "Busy",
            HoldAnswer::AlreadyHolding => "AlreadyHolding",
        };
        let notes = &mut self.session.notes;
        notes.add(stamps, format_args!("hold {place} {now} {told}"));
    }

    // The two commands that are made while an item is held.
    fn make_commands(&mut self)
        ensures index { self.new.client.index.now ≡ self.old.client.index.now }
        ensures held { holding self.new.client.member.pass ≡ holding self.old.client.member.pass }
    {
        self.command();
        self.command();
    }

    // Reads the held value once more, and releases the hold.
    fn end_hold(&mut self, bucket: usize, hold: Hold<'_>)
        requires { IsHoldOf (shape_of self.old.client.index.now) hold self.old.client.member.pass }
    {
        let called = self.session.stamp();
        let value = self.client.held_value(&hold);
        let stamps = (called, self.session.stamp());
        let number = number_of(&value);
        let notes = &mut self.session.notes;
        notes.add(stamps, format_args!("held {bucket} {number}"));
        let called = self.session.stamp();
        self.client.release(hold);
        self.session.note(called, format_args!("release {bucket}"));
    }
}

// The answers to several gets.
#[derive(Clone, Copy)]
struct Several<'a>(&'a Vec<GetAnswer>);

impl Display for Several<'_> {
    fn fmt<W: Write>(&self, f: &mut Formatter<W>) -> fmt::Result {
        for answer in self.0.iter() {
            write!(f, " {}", Found(answer))?;
        }
        Ok(())
    }
}

// A put at a moment. What the client holds stays held.
fn put(client: &mut Client<'_>, key: &Key, value: &Value, now: u32) -> PutAnswer
    ensures index { client.new.index.now ≡ client.old.index.now }
    ensures held { holding client.new.member.pass ≡ holding client.old.member.pass }
{
    client.set_now(now);
    client.put(key, value)
}

// Makes room at a moment, and returns whether there is some. What the client holds stays held.
fn make_room(client: &mut Client<'_>, now: u32) -> bool
    ensures index { client.new.index.now ≡ client.old.index.now }
    ensures held { holding client.new.member.pass ≡ holding client.old.member.pass }
{
    client.set_now(now);
    client.make_room()
}

// Gets of these keys. There are as many answers.
fn get_many(client: &mut Client<'_>, keys: &[Key], answers: &mut [GetAnswer]) {
    if answers.len() == keys.len() {
        client.get_many(keys, answers);
    }
}

// Makes a command of a client at its moment. Moves and evictions by hand aren't among them.
fn serve(client: &mut Client<'_>, command: &Command) -> Option<Answer>
    ensures index { client.new.index.now ≡ client.old.index.now }
    ensures held { holding client.new.member.pass ≡ holding client.old.member.pass }
{
    let now = match command {
        Command::Get(_, now) | Command::Gets(_, now) => *now,
        Command::Write(request) => request.moment(),
        Command::Keep(_, _) | Command::Evict(_) | Command::Refill(_, _) => return None,
    };
    client.set_now(now);
    Some(match command {
        Command::Get(key, _) => Answer::Get(client.get(key)),
        Command::Gets(key, _) => Answer::Gets(client.gets(key)),
        Command::Write(Request::Set(key, value, _)) => Answer::Write(client.set(key, value)),
        Command::Write(Request::Add(key, value, _)) => Answer::Write(client.add(key, value)),
        Command::Write(Request::Replace(key, value, _)) => Answer::Write(client.replace(
            key, value,
        )),
        Command::Write(Request::Cas(key, value, expected, _)) => Answer::Write(client.cas(
            key, value, *expected,
        )),
        Command::Write(Request::Delete(key, _)) => Answer::Delete(client.delete(key)),
        _ => return None,
    })
}
