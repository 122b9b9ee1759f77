//! A rate limiter: each address may pass so often in each window. Four clients count together,
//! by gets and cas.
use crate::same::same;
use segclient::{Client, GetsAnswer, Index, Key, Shape, Value, WriteAnswer, clients};
use std::alloc::AllocGlobal;
use std::process::Abort;

const ADDRESSES: u32 = 1_000;

const CLIENTS: u32 = 4;

// So many requests of an address may pass in a window.
const MOST: u32 = 20;

const WINDOWS: u32 = 2;

// So many requests of each address come in a window.
const REQUESTS: u32 = 50;

// How often a request is tried.
const TRIES: u32 = 100;

/// How many requests of an address passed, and in which window.
#[derive(Clone, Copy)]
struct Passed {
    window: u32,
    count: u32,
}

fn value_of(passed: Passed) -> Option<Value> {
    let both = u64::from(passed.window) << 32 | u64::from(passed.count);
    Value::new(&both.to_le_bytes())
}

fn passed_of(value: &Value) -> Option<Passed> {
    let both = u64::from_le_bytes(*value.as_bytes().first_chunk::<8>()?);
    Some(Passed {
        window: (both >> 32) as u32,
        count: (both & 0xffff_ffff) as u32,
    })
}

// What is stored if one request more passes, or None if it may not.
fn with_one_more(passed: Passed, window: u32) -> Option<Passed> {
    if passed.window != window {
        return Some(Passed { window, count: 1 });
    }
    if passed.count >= MOST {
        return None;
    }
    Some(Passed {
        window,
        count: passed.count.saturating_add(1),
    })
}

/// Whether a request may pass. It is counted then.
fn may_pass(client: &mut Client<'_>, address: &Key, window: u32) -> Option<bool> {
    for _ in 0..TRIES {
        let told = match client.gets(address) {
            GetsAnswer::Busy => continue,
            GetsAnswer::Miss => {
                let first = value_of(Passed { window, count: 1 })?;
                client.add(address, &first)
            }
            GetsAnswer::Found(value, version) => {
                let Some(next) = with_one_more(passed_of(&value)?, window) else {
                    return Some(false);
                };
                client.cas(address, &value_of(next)?, version)
            }
        };
        match told {
            WriteAnswer::Stored => return Some(true),
            WriteAnswer::NoRoom => {
                if !client.make_room() {
                    return None;
                }
            }
            // Somebody stored meanwhile, or is at work: once more.
            WriteAnswer::NotStored
            | WriteAnswer::Exists
            | WriteAnswer::NotFound
            | WriteAnswer::Busy => {}
            WriteAnswer::BucketFull => return None,
        }
    }
    None
}

// How many requests pass in a window, of all addresses by all clients in turn.
fn pass_all(rt: &impl Abort, clients: &mut Vec<Client<'_>>, window: u32) -> u32 {
    let mut passed: u32 = 0;
    for request in 0..ADDRESSES.saturating_mul(REQUESTS) {
        let address = request.wrapping_mul(7_919) % ADDRESSES;
        let who = request.wrapping_mul(2_654_435_769) >> 30;
        let key = Key::new(&address.to_le_bytes()).expect(rt, "a key");
        if let Some(client) = clients.get_mut(who as usize) {
            let may = may_pass(client, &key, window).expect(rt, "an answer");
            passed = passed.saturating_add(u32::from(may));
        }
    }
    passed
}

#[test]
fn no_request_passes_over_the_limit(rt: HostRuntime) {
    let shape = Shape::for_keys(ADDRESSES, CLIENTS).expect(&rt, "a shape");
    let (index, passes) = Index::new(rt.alloc(), shape).expect(&rt, "an index");
    let mut clients = clients(rt.alloc(), &index, passes).expect(&rt, "memory for clients");
    for window in 0..WINDOWS {
        same(
            &rt,
            &pass_all(&rt, &mut clients, window),
            &(ADDRESSES * MOST),
        );
    }
    for client in clients.iter() {
        same(&rt, &client.stats().keys_evicted, &0);
    }
}
