//! A counter of visits that two threads raise at the same time.
use crate::same::{check_that, same};
use segclient::{
    Client, GetAnswer, GetsAnswer, Index, Key, PutAnswer, Shape, Value, WriteAnswer, clients,
};
use std::thread::join;

// Each thread stores 100 numbers, for which its segments have rows enough: none is given up.
const SHAPE: Shape = Shape {
    buckets: 8,
    overflow: 0,
    passes: 2,
    segments_each: 4,
    rows: 64,
    first_version: 0,
};

const VISITS: u32 = 100;

// How often a visit is tried.
const TRIES: u32 = 1_000_000;

// A number as a value.
fn value_of(number: u32) -> Option<Value> {
    Value::new(&number.to_le_bytes())
}

// The number of a value.
fn number_of(value: &Value) -> Option<u32> {
    let bytes = value.as_bytes().first_chunk::<4>()?;
    Some(u32::from_le_bytes(*bytes))
}

// The number that is one higher.
fn next_of(value: &Value) -> Option<Value> {
    value_of(number_of(value)?.checked_add(1)?)
}

/// Counts one visit, and returns whether it is counted.
fn count_visit(client: &mut Client<'_>, page: &Key) -> bool {
    for _ in 0..TRIES {
        let (value, version) = match client.gets(page) {
            GetsAnswer::Found(value, version) => (value, version),
            GetsAnswer::Miss => return false,
            GetsAnswer::Busy => continue,
        };
        let Some(next) = next_of(&value) else {
            return false;
        };
        match client.cas(page, &next, version) {
            WriteAnswer::Stored => return true,
            // Somebody stored since the number was read, or is at work: once more.
            WriteAnswer::Exists | WriteAnswer::Busy => {}
            WriteAnswer::NoRoom => {
                if !client.make_room() {
                    return false;
                }
            }
            WriteAnswer::NotStored | WriteAnswer::NotFound | WriteAnswer::BucketFull => {
                return false;
            }
        }
    }
    false
}

/// Counts all visits of one thread, and returns whether each is counted.
fn count_visits(client: &mut Client<'_>, page: &Key) -> bool {
    for _ in 0..VISITS {
        if !count_visit(client, page) {
            return false;
        }
    }
    true
}

// The number of visits.
fn visits_of(client: &mut Client<'_>, page: &Key) -> Option<u32> {
    match client.get(page) {
        GetAnswer::Found(value) => number_of(&value),
        GetAnswer::Miss | GetAnswer::Busy => None,
    }
}

// The number of visits, with its version.
fn versioned_visits_of(client: &mut Client<'_>, page: &Key) -> Option<(u32, u32)> {
    match client.gets(page) {
        GetsAnswer::Found(value, version) => Some((number_of(&value)?, version)),
        GetsAnswer::Miss | GetsAnswer::Busy => None,
    }
}

#[test]
fn no_visit_is_lost(rt: HostRuntime) {
    let (index, passes) = Index::new(rt.alloc(), SHAPE).expect(&rt, "an index");
    let mut both = clients(rt.alloc(), &index, passes).expect(&rt, "clients");
    let mut second = both.pop().expect(&rt, "a second client");
    let mut first = both.pop().expect(&rt, "a first client");
    let page = Key::new(b"/index.html").expect(&rt, "a key");
    let none = value_of(0).expect(&rt, "a value");
    check_that(&rt, first.put(&page, &none) == PutAnswer::Stored);
    let is_counted = join(
        &rt,
        || count_visits(&mut first, &page),
        || count_visits(&mut second, &page),
    );
    same(&rt, &is_counted, &(true, true));
    let all = 2 * VISITS;
    let visits = visits_of(&mut first, &page);
    let versioned = versioned_visits_of(&mut second, &page);
    // The version counts the put and each visit.
    same(
        &rt,
        &(visits, versioned),
        &(Some(all), Some((all, all + 1))),
    );
    same(
        &rt,
        &(first.stats().stored, second.stats().stored),
        &(101, 100),
    );
}
