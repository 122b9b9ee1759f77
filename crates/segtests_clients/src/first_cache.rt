//! A first cache: four threads look up squares, which a function makes.
use anyhow::Result;
use segclient::{Client, GetAnswer, Index, Key, Shape, Value, clients};
use std::alloc::AllocGlobal;
use std::io::Print;
use std::thread::{Threads, for_each_mut};
use std::time::{Clock, Instant};

const KEYS: u32 = 1_000;

const THREADS: u32 = 4;

const SECONDS_TO_LIVE: u32 = 60;

// What the cache is there for.
fn square(number: u32) -> u64 {
    u64::from(number).wrapping_mul(u64::from(number))
}

// The square of a number: from the cache, or made and put there.
fn look_up(client: &mut Client<'_>, number: u32) -> Option<Value> {
    let key = Key::new(&number.to_be_bytes())?;
    match client.get(&key) {
        GetAnswer::Found(value) => Some(value),
        GetAnswer::Miss | GetAnswer::Busy => {
            let value = Value::new(&square(number).to_be_bytes())?;
            let _ = client.put(&key, &value); // if not Stored, the next look makes it again
            Some(value)
        }
    }
}

// What each thread does: all numbers twice, each request at the second that the clock shows.
fn work<R: Clock>(rt: &R, start: Instant, client: &mut Client<'_>) {
    client.set_time_to_live(SECONDS_TO_LIVE);
    for _ in 0..2 {
        for number in 0..KEYS {
            if let Ok(time) = start.elapsed(rt) {
                client.set_now(u32::try_from(time.as_secs()).unwrap_or(u32::MAX));
            }
            look_up(client, number);
        }
    }
}

/// Serves on four threads, and prints how often each found its number. It is what `main` calls.
pub fn first_cache<R: Threads + Sync + AllocGlobal + Clock + Print>(rt: &R) -> Result<()> {
    let start = Instant::now(rt)?;
    let (index, passes) = Index::new(rt.alloc(), Shape::for_keys(KEYS, THREADS)?)?;
    let mut clients = clients(rt.alloc(), &index, passes)?;
    let each = |_number, client: &mut Client<'_>| work(rt, start, client);
    for_each_mut(rt, clients.as_mut_slice(), THREADS as usize, &each);
    for client in clients.iter() {
        let stats = client.stats();
        println!(rt; "{} hits, {} misses", stats.hits, stats.misses)?;
    }
    Ok(())
}
