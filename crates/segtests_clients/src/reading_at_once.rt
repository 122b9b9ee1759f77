//! A client that reads beside one that puts: each value that is read was stored as a whole,
//! and none is older than one read before.
use crate::same::same;
use segclient::{Client, GetAnswer, Index, Key, PutAnswer, Shape, Value, clients};
use std::thread::join;

// The client that puts goes round its 4,096 rows sixteen times.
// The one that reads is in one segment at most, so that another one can be refilled.
const SHAPE: Shape = Shape {
    buckets: 1,
    overflow: 0,
    passes: 2,
    segments_each: 4,
    rows: 1_024,
    first_version: 0,
};

// The last number that is stored.
const LAST: u32 = 65_536;

// How often the key is read at most.
const READS: u32 = 1_000_000_000;

// The value of a number: its four bytes, eight times, so that each word of the row has them.
fn value_of(number: u32) -> Option<Value> {
    let [a, b, c, d] = number.to_le_bytes();
    let word = [a, b, c, d, a, b, c, d];
    Value::new([word; 4].as_flattened())
}

// The number of a value that is one.
fn number_of(value: &Value) -> Option<u32> {
    let bytes = value.as_bytes().first_chunk::<4>()?;
    let number = u32::from_le_bytes(*bytes);
    (value_of(number)? == *value).then_some(number)
}

// Stores the numbers from 1 on under the key, one after the other, and counts those that are stored.
fn put_all(client: &mut Client<'_>, key: &Key) -> u32 {
    let mut stored = 0u32;
    for number in 1..=LAST {
        let Some(value) = value_of(number) else {
            return stored;
        };
        if client.put(key, &value) == PutAnswer::Stored {
            stored = stored.saturating_add(1);
        }
    }
    stored
}

// Reads the key until it has the last number.
// Returns whether each value was a number, none was below an earlier one,
// and the key was never missed after the first.
fn read_all(client: &mut Client<'_>, key: &Key) -> bool {
    let mut last = 0;
    for _ in 0..READS {
        match client.get(key) {
            GetAnswer::Found(value) => match number_of(&value) {
                Some(LAST) => return last <= LAST,
                Some(number) if last <= number => last = number,
                Some(_) | None => return false,
            },
            GetAnswer::Miss if last > 0 => return false,
            GetAnswer::Miss | GetAnswer::Busy => {}
        }
    }
    false
}

#[test]
fn a_reader_beside_a_writer(rt: HostRuntime) {
    let (index, passes) = Index::new(rt.alloc(), SHAPE).expect(&rt, "an index");
    let mut both = clients(rt.alloc(), &index, passes).expect(&rt, "clients");
    let mut reader = both.pop().expect(&rt, "a reader");
    let mut writer = both.pop().expect(&rt, "a writer");
    let key = Key::new(b"a").expect(&rt, "a key");
    let (stored, is_well) = join(
        &rt,
        || put_all(&mut writer, &key),
        || read_all(&mut reader, &key),
    );
    same(&rt, &(stored, is_well), &(LAST, true));
    let last = value_of(LAST).expect(&rt, "a value");
    same(&rt, &reader.get(&key), &GetAnswer::Found(last));
}
