//! Each caller once.
use crate::client_caller::client_caller;
use crate::first_cache::first_cache;
use crate::index_caller::index_caller;
use crate::readme_lines::readme_lines;
use crate::same::same;
use segclient::{DeleteAnswer, GetAnswer, Key, PutAnswer, Value};
use std::alloc::Global;

// The pairs a = 1, b = 2, c = 3 and d = 4.
fn pairs(alloc: Global) -> Option<Vec<(Key, Value)>> {
    let mut pairs = Vec::with_capacity(alloc, 4).ok()?;
    for (key, value) in [(b"a", b"1"), (b"b", b"2"), (b"c", b"3"), (b"d", b"4")] {
        pairs.push((Key::new(key)?, Value::new(value)?)).ok()?;
    }
    Some(pairs)
}

#[test]
fn clients_on_threads_store_every_pair(rt: HostRuntime) {
    let pairs = pairs(rt.alloc()).expect(&rt, "pairs");
    let listed = client_caller(&rt, rt.alloc(), &pairs, 0).expect(&rt, "memory");
    same(&rt, &listed, &pairs);
}

#[test]
fn an_index_gives_up_what_is_seldom_read(rt: HostRuntime) {
    let pairs = pairs(rt.alloc()).expect(&rt, "pairs");
    let listed = index_caller(rt.alloc(), 1, &pairs, 0).expect(&rt, "memory");
    same(&rt, &pairs.get(1..), &Some(listed.as_slice()));
}

#[test]
fn the_lines_of_the_readme_answer_as_they_say(rt: HostRuntime) {
    let key = Key::new(b"a").expect(&rt, "a key");
    let value = Value::new(b"1").expect(&rt, "a value");
    let answers = readme_lines(rt.alloc(), &key, &value, 0).expect(&rt, "memory");
    let wanted = (
        PutAnswer::Stored,
        GetAnswer::Found(value),
        DeleteAnswer::Deleted,
    );
    same(&rt, &answers, &Some(wanted));
}

#[test]
fn a_first_cache_serves_four_threads(rt: HostRuntime) {
    first_cache(&rt).expect(&rt, "memory");
}
