//! The names of answers, commands and faults, and of what each has beside it.
use crate::same::same;
use segindex::{HoldAnswer, LockAnswer, MakeFault, OutOfMemory};
use segload::LoadFault;
use segmodel::{
    Answer, Command, DeleteAnswer, EvictAnswer, GetAnswer, GetsAnswer, KeepAnswer, PlainFault,
    RefillAnswer, Reply, Request, SegState, WriteAnswer,
};
use segscript::{Failed, RunFault};
use segstore::{Linked, NoRoom};
use segword::{Key, ShapeFault, Value};

// The number of an answer among those of its call.
fn number_of_answer(answer: &Answer) -> u8 {
    match answer {
        Answer::Write(WriteAnswer::Stored) => 1,
        Answer::Write(WriteAnswer::NotStored) => 2,
        Answer::Write(WriteAnswer::Exists) => 3,
        Answer::Write(WriteAnswer::NotFound) => 4,
        Answer::Write(WriteAnswer::NoRoom) => 5,
        Answer::Write(WriteAnswer::BucketFull) => 6,
        Answer::Write(WriteAnswer::Busy) => 7,
        Answer::Delete(DeleteAnswer::Deleted) => 1,
        Answer::Delete(DeleteAnswer::NotFound) => 2,
        Answer::Delete(DeleteAnswer::Busy) => 3,
        Answer::Get(GetAnswer::Found(_)) => 1,
        Answer::Get(GetAnswer::Miss) => 2,
        Answer::Get(GetAnswer::Busy) => 3,
        Answer::Gets(GetsAnswer::Found(_, _)) => 1,
        Answer::Gets(GetsAnswer::Miss) => 2,
        Answer::Gets(GetsAnswer::Busy) => 3,
        Answer::Keep(KeepAnswer::Kept(_)) => 1,
        Answer::Keep(KeepAnswer::NotYours) => 2,
        Answer::Keep(KeepAnswer::NoRoom(_)) => 3,
        Answer::Keep(KeepAnswer::Busy(_)) => 4,
        Answer::Evict(EvictAnswer::Evicted(_)) => 1,
        Answer::Evict(EvictAnswer::NotYours) => 2,
        Answer::Evict(EvictAnswer::Busy(_)) => 3,
        Answer::Refill(RefillAnswer::Refilled) => 1,
        Answer::Refill(RefillAnswer::NotYours) => 2,
        Answer::Refill(RefillAnswer::NotEvicted) => 3,
        Answer::Refill(RefillAnswer::Held) => 4,
    }
}

// The number of a command, and the numbers that it has: deadline or moment last, or the cutoff.
fn numbers_of_command(command: &Command) -> (u8, u32, u32) {
    match command {
        Command::Write(Request::Set(_, _, now)) => (1, 0, *now),
        Command::Write(Request::Add(_, _, now)) => (2, 0, *now),
        Command::Write(Request::Replace(_, _, now)) => (3, 0, *now),
        Command::Write(Request::Cas(_, _, expected, now)) => (4, *expected, *now),
        Command::Write(Request::Delete(_, now)) => (5, 0, *now),
        Command::Get(_, now) => (6, 0, *now),
        Command::Gets(_, now) => (7, 0, *now),
        Command::Keep(segment, cutoff) => (8, *segment, u32::from(*cutoff)),
        Command::Evict(segment) => (9, *segment, 0),
        Command::Refill(segment, deadline) => (10, *segment, *deadline),
    }
}

// The numbers of what a hold, a lock and a second look return.
fn numbers_of_calls(hold: &HoldAnswer<'_>, lock: LockAnswer, linked: &Linked) -> [u8; 3] {
    let hold = match hold {
        HoldAnswer::Holding(_) => 1,
        HoldAnswer::Miss => 2,
        HoldAnswer::Busy => 3,
        HoldAnswer::AlreadyHolding => 4,
    };
    let lock = match lock {
        LockAnswer::Locked => 1,
        LockAnswer::Busy => 2,
        LockAnswer::AlreadyLocked => 3,
    };
    let linked = match linked {
        Linked::Same(_, _) => 1,
        Linked::Changed(_) => 2,
    };
    [hold, lock, linked]
}

// The numbers of a state and a reply.
fn numbers_of_model(state: SegState, reply: Reply) -> [u8; 2] {
    let state = match state {
        SegState::Empty => 1,
        SegState::InUse => 2,
        SegState::Evicted => 3,
    };
    let reply = match reply {
        Reply::Stored => 1,
        Reply::NotStored => 2,
        Reply::Exists => 3,
        Reply::NotFound => 4,
        Reply::Deleted => 5,
    };
    [state, reply]
}

// The numbers of faults: of a run with that of its shape, of a load, and of the plain cache.
fn numbers_of_faults(run: RunFault, load: LoadFault, plain: PlainFault) -> [u8; 3] {
    let run = match run {
        RunFault::Read => 1,
        RunFault::Write => 2,
        RunFault::Line(_) => 3,
        RunFault::Make(MakeFault::Shape(ShapeFault::BadBuckets)) => 41,
        RunFault::Make(MakeFault::Shape(ShapeFault::BadOverflow)) => 42,
        RunFault::Make(MakeFault::Shape(ShapeFault::BadPasses)) => 43,
        RunFault::Make(MakeFault::Shape(ShapeFault::BadSegments)) => 44,
        RunFault::Make(MakeFault::Shape(ShapeFault::BadRows)) => 45,
        RunFault::Make(MakeFault::Shape(ShapeFault::TooLarge)) => 46,
        RunFault::Make(MakeFault::OutOfMemory) => 40,
        RunFault::TooLong => 5,
    };
    let load = match load {
        LoadFault::Make(_) => 1,
        LoadFault::Stopped(_) => 2,
        LoadFault::OutOfMemory => 3,
    };
    let plain = match plain {
        PlainFault::OutOfMemory => 1,
    };
    [run, load, plain]
}

#[test]
fn answers_keep_their_names(rt: HostRuntime) {
    let busy = Answer::Write(WriteAnswer::Busy);
    same(&rt, &number_of_answer(&busy), &7);
    let key = Key::new(b"a").expect(&rt, "a key");
    let value = Value::new(b"1").expect(&rt, "a value");
    let cas = Command::Write(Request::Cas(key, value, 5, 9));
    same(&rt, &numbers_of_command(&cas), &(4, 5, 9));
    let linked = Linked::Changed(0);
    let calls = numbers_of_calls(
        &HoldAnswer::AlreadyHolding,
        LockAnswer::AlreadyLocked,
        &linked,
    );
    same(&rt, &calls, &[4, 3, 2]);
    let model = numbers_of_model(SegState::Evicted, Reply::Deleted);
    same(&rt, &model, &[3, 5]);
    let faults = numbers_of_faults(
        RunFault::TooLong,
        LoadFault::OutOfMemory,
        PlainFault::OutOfMemory,
    );
    same(&rt, &faults, &[5, 3, 1]);
    let _: (OutOfMemory, NoRoom, Failed) = (OutOfMemory, NoRoom, Failed);
}
