//! A cache server: four connections serve lines of a small text protocol, each on its own thread.
use crate::same::{check_that, same};
use segclient::{
    Client, DeleteAnswer, HoldAnswer, Index, Key, PutAnswer, Shape, Value, clients, keep_back,
};
use std::alloc::{AllocError, Global};
use std::sync::atomic::{AtomicU32, Ordering};
use std::thread::for_each_mut;

const SHAPE: Shape = Shape {
    buckets: 256,
    overflow: 32,
    // One more than connections: the last one closes the index.
    passes: 5,
    segments_each: 4,
    rows: 16,
    first_version: 0,
};

/// Appends the reply to a line.
fn serve(client: &mut Client<'_>, line: &str, reply: &mut Vec<u8>) -> Result<(), AllocError> {
    let mut words = line.split(' ');
    let verb = words.next();
    let key = words.next().and_then(|word| Key::new(word.as_bytes()));
    let value = words.next().and_then(|word| Value::new(word.as_bytes()));
    let text: &[u8] = match (verb, key, value) {
        (Some("get"), Some(key), None) => return get(client, &key, reply),
        (Some("set"), Some(key), Some(value)) => match client.put(&key, &value) {
            PutAnswer::Stored => b"STORED",
            PutAnswer::BucketFull => b"FULL",
            PutAnswer::NoRoom | PutAnswer::Busy => b"BUSY",
        },
        (Some("delete"), Some(key), None) => match client.delete(&key) {
            DeleteAnswer::Deleted => b"DELETED",
            DeleteAnswer::NotFound => b"MISS",
            DeleteAnswer::Busy => b"BUSY",
        },
        _ => b"ERROR",
    };
    reply.extend_from_slice(text)
}

// Writes the value to the reply from within a hold.
fn get(client: &mut Client<'_>, key: &Key, reply: &mut Vec<u8>) -> Result<(), AllocError> {
    match client.hold(key) {
        HoldAnswer::Holding(hold) => {
            let value = client.held_value(&hold);
            let written = reply.extend_from_slice(value.as_bytes());
            client.release(hold);
            written
        }
        HoldAnswer::Miss => reply.extend_from_slice(b"MISS"),
        HoldAnswer::Busy | HoldAnswer::AlreadyHolding => reply.extend_from_slice(b"BUSY"),
    }
}

// Sends a line, again while the reply is BUSY, and says whether the reply is the expected one.
fn send(
    client: &mut Client<'_>,
    alloc: Global,
    line: &str,
    expected: &str,
) -> Result<bool, AllocError> {
    let mut reply = Vec::new(alloc);
    for _ in 0..u32::MAX {
        reply.clear();
        serve(client, line, &mut reply)?;
        if reply.as_slice() != b"BUSY".as_slice() {
            break;
        }
    }
    Ok(reply.as_slice() == expected.as_bytes())
}

// Stores 200 keys that no other connection stores, deletes every second one,
// and says whether each reply is the expected one.
fn run(client: &mut Client<'_>, alloc: Global, name: usize) -> Result<bool, AllocError> {
    for number in 0..200 {
        let value = format!(in alloc; "value-{number}")?;
        let set = format!(in alloc; "set {name}-{number} {value}")?;
        let get = format!(in alloc; "get {name}-{number}")?;
        let delete = format!(in alloc; "delete {name}-{number}")?;
        let is_right = send(client, alloc, set.as_str(), "STORED")?
            && send(client, alloc, get.as_str(), value.as_str())?
            && (number % 2 == 0 || send(client, alloc, delete.as_str(), "DELETED")?);
        if !is_right {
            return Ok(false);
        }
    }
    Ok(true)
}

#[test]
fn four_connections(rt: HostRuntime) {
    let alloc = rt.alloc();
    let (index, mut passes) = Index::new(alloc, SHAPE).expect(&rt, "an index");
    let closer = keep_back(&index, &mut passes).expect(&rt, "a pass");
    let mut connections = clients(alloc, &index, passes).expect(&rt, "clients");
    let right = AtomicU32::new(0);
    let serve = |name, client: &mut Client<'_>| {
        if matches!(run(client, alloc, name), Ok(true)) {
            right.fetch_add(1, Ordering::SeqCst);
        }
    };
    for_each_mut(&rt, connections.as_mut_slice(), 4, &serve);
    same(&rt, &right.load(Ordering::SeqCst), &4);
    for client in connections.iter() {
        let stats = client.stats();
        same(&rt, &(stats.stored, stats.deleted), &(200, 100));
        // 200 keys take 13 segments of 16 rows. Others are refilled for what was read there.
        check_that(&rt, stats.segments_refilled >= 13);
    }
    drop(connections);
    let content = index.close(alloc, closer).expect(&rt, "memory for keys");
    // Of each connection 64 keys stand at most, and key 198 does.
    check_that(&rt, (4..=256).contains(&content.len()));
}
