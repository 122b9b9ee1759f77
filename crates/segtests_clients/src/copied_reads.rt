//! Reads whose value goes into a buffer: the value's bytes are at the front, and no other byte is written.
use crate::only_client::only_client;
use crate::same::same;
use segclient::{HoldAnswer, Index, Key, PutAnswer, Shape, Value, hold_stays};

const SHAPE: Shape = Shape {
    buckets: 1,
    overflow: 4,
    passes: 1,
    segments_each: 2,
    rows: 1_024,
    first_version: 0,
};

// What is held is copied after a delete of its key, too, and reads of it count nothing.
#[test]
fn what_is_held_goes_to_a_buffer(rt: HostRuntime) {
    let (index, passes) = Index::new(rt.alloc(), SHAPE).expect(&rt, "an index");
    let mut client = only_client(&rt, &index, passes);
    let key = Key::new(b"a").expect(&rt, "a key");
    let value = Value::new(b"123456789").expect(&rt, "a value");
    same(&rt, &client.put(&key, &value), &PutAnswer::Stored);
    let hold = match client.hold(&key) {
        HoldAnswer::Holding(hold) => hold,
        HoldAnswer::Miss | HoldAnswer::Busy | HoldAnswer::AlreadyHolding => panic!(&rt; "no hold"),
    };
    hold_stays();
    client.delete(&key);
    let mut short = *b"........";
    let told = client.held_into(&hold, &mut short);
    same(&rt, &(told, short), &(Err(9), *b"........"));
    let mut buffer = *b"..........";
    let told = client.held_into(&hold, &mut buffer);
    same(&rt, &(told, buffer), &(Ok(9), *b"123456789."));
    client.release(hold);
    same(&rt, &client.stats().hits, &0);
}
