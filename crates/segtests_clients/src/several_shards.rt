//! A cache of several shards: its calls by two clients in turn, whatever the shards of the keys.
ghost use Rattle.segshards.specs.Clients.{AreAllClients, IsSame};
ghost use Rattle.segshards.specs.Shards.{AreOfShards};

use crate::same::{check_that, same};
use segclient::Shape;
use segshards::{
    Cache, Client, DeleteAnswer, GetAnswer, GetsAnswer, HoldAnswer, Key, Pass, PutAnswer,
    ShardPlan, Value, WriteAnswer, clients_stay,
};
use std::alloc::AllocGlobal;
use std::process::Abort;

// Two clients, with room for more keys than a test stores.
const SHAPE: Shape = Shape {
    buckets: 16,
    overflow: 8,
    passes: 2,
    segments_each: 4,
    rows: 128,
    first_version: 0,
};

// How many shards the cache of a test has.
const SHARDS: u32 = 5;

// How many keys a test stores. They go to all shards.
const KEYS: u32 = 100;

// The key of a number.
fn key_of(rt: &impl Abort, number: u32) -> Key {
    Key::new(&number.to_le_bytes()).expect(rt, "a key")
}

// The value of a number.
fn value_of(rt: &impl Abort, number: u32) -> Value {
    Value::new(&number.to_be_bytes()).expect(rt, "a value")
}

// Two clients of the cache. This function has no contract,
// so that the proof of a test needn't read what a new client is.
fn two_clients<'c, R: AllocGlobal + Abort>(
    rt: &R,
    cache: &'c Cache,
    passes: Vec<Vec<Pass>>,
) -> (Client<'c>, Client<'c>)
    requires { AreOfShards cache.now.shards.items passes.items }
{
    let mut clients = cache.clients(rt.alloc(), passes).expect(rt, "clients");
    let first = clients.pop().expect(rt, "a client");
    let second = clients.pop().expect(rt, "a client");
    (first, second)
}

// Puts each number below the count under itself.
fn put_numbers(rt: &impl Abort, client: &mut Client<'_>, count: u32)
    ensures { IsSame client.old client.new }
{
    for number in 0..count {
        let told = client.put(&key_of(rt, number), &value_of(rt, number));
        same(rt, &told, &PutAnswer::Stored);
    }
}

// What the key of a number reads, if each number below the count stands under itself.
fn wanted(rt: &impl Abort, number: u32, count: u32) -> GetAnswer {
    if number < count {
        GetAnswer::Found(value_of(rt, number))
    } else {
        GetAnswer::Miss
    }
}

// Each client reads what the other put, one key after another and all at a time.
#[test]
fn each_key_is_found_in_its_shard(rt: HostRuntime) {
    let (cache, passes) = Cache::of_shards(rt.alloc(), SHAPE, SHARDS).expect(&rt, "a cache");
    let (mut first, mut second) = two_clients(&rt, &cache, passes);
    put_numbers(&rt, &mut first, KEYS);
    let mut keys = Vec::new(rt.alloc());
    let mut answers = Vec::new(rt.alloc());
    for number in 0..KEYS + 50 {
        let key = key_of(&rt, number);
        same(&rt, &second.get(&key), &wanted(&rt, number, KEYS));
        keys.push(key).expect(&rt, "memory");
        answers.push(GetAnswer::Busy).expect(&rt, "memory");
    }
    if keys.len() == answers.len() {
        second.get_many(keys.as_slice(), answers.as_mut_slice());
    }
    let mut number = 0;
    for answer in answers.iter() {
        same(&rt, answer, &wanted(&rt, number, KEYS));
        number = number.saturating_add(1);
    }
    let stats = second.stats();
    same(&rt, &(stats.hits, stats.misses), &(200, 100));
    same(&rt, &first.stats().stored, &100);
}

// Half of the keys live for 100, the others for good.
#[test]
fn each_shard_keeps_the_times_apart(rt: HostRuntime) {
    let (cache, passes) = Cache::of_shards(rt.alloc(), SHAPE, SHARDS).expect(&rt, "a cache");
    let (mut first, mut second) = two_clients(&rt, &cache, passes);
    for number in 0..KEYS {
        let key = key_of(&rt, number);
        let time = if number % 2 == 0 { 100 } else { u32::MAX };
        let told = first.put_for(&key, &value_of(&rt, number), time);
        same(&rt, &told, &PutAnswer::Stored);
    }
    for number in 0..KEYS {
        let key = key_of(&rt, number);
        second.set_now(87);
        same(&rt, &second.get(&key), &wanted(&rt, number, KEYS));
        second.set_now(100);
        let count = if number % 2 == 0 { 0 } else { KEYS };
        same(&rt, &second.get(&key), &wanted(&rt, number, count));
    }
}

// Writes and deletes of one client meet what the other wrote.
#[test]
fn writes_meet_in_the_shard_of_the_key(rt: HostRuntime) {
    let (cache, passes) = Cache::of_shards(rt.alloc(), SHAPE, SHARDS).expect(&rt, "a cache");
    let (mut first, mut second) = two_clients(&rt, &cache, passes);
    put_numbers(&rt, &mut first, KEYS);
    for number in 0..KEYS {
        let key = key_of(&rt, number);
        let value = value_of(&rt, number + 1);
        check_that(&rt, second.make_room(&key));
        same(&rt, &second.add(&key, &value), &WriteAnswer::NotStored);
        same(&rt, &second.replace(&key, &value), &WriteAnswer::Stored);
        if let GetsAnswer::Found(_, version) = first.gets(&key) {
            let told = second.cas(&key, &value, version);
            same(&rt, &told, &WriteAnswer::Stored);
            let again = second.cas(&key, &value, version);
            same(&rt, &again, &WriteAnswer::Exists);
        }
        same(&rt, &first.delete(&key), &DeleteAnswer::Deleted);
        same(&rt, &second.get(&key), &GetAnswer::Miss);
    }
    same(&rt, &second.stats().stored, &200);
}

// What is held is read after the key is gone, whatever its shard.
#[test]
fn held_items_are_read_in_each_shard(rt: HostRuntime) {
    let (cache, passes) = Cache::of_shards(rt.alloc(), SHAPE, SHARDS).expect(&rt, "a cache");
    let (mut first, mut second) = two_clients(&rt, &cache, passes);
    put_numbers(&rt, &mut first, KEYS);
    for number in 0..KEYS {
        match second.hold(&key_of(&rt, number)) {
            HoldAnswer::Holding(hold) => {
                let told = first.delete(&key_of(&rt, number));
                let value = second.held_value(&hold);
                second.release(hold);
                same(&rt, &told, &DeleteAnswer::Deleted);
                same(&rt, &value, &value_of(&rt, number));
            }
            HoldAnswer::Miss | HoldAnswer::Busy | HoldAnswer::AlreadyHolding => {}
        }
    }
    same(&rt, &first.stats().deleted, &100);
}

// The client at a place puts each number below the count under itself. All clients are that still.
fn put_by_one(rt: &impl Abort, cache: &Cache, clients: &mut [Client<'_>], place: usize, count: u32)
    requires { AreAllClients cache.now.shards.items clients.old }
    ensures { AreAllClients cache.now.shards.items clients.new }
{
    if place < clients.len() {
        clients_stay();
        put_numbers(rt, &mut clients[place], count);
    }
}

// What one client put is listed shard by shard.
#[test]
fn each_shard_is_closed(rt: HostRuntime) {
    let alloc = rt.alloc();
    let (cache, passes) = Cache::of_shards(alloc, SHAPE, SHARDS).expect(&rt, "a cache");
    let mut clients = cache.clients(alloc, passes).expect(&rt, "clients");
    put_by_one(&rt, &cache, clients.as_mut_slice(), 1, KEYS);
    let passes = cache.into_passes(alloc, clients).expect(&rt, "passes");
    let shards = cache.into_whole_shards(alloc, passes).expect(&rt, "shards");
    same(&rt, &shards.len(), &(SHARDS as usize));
    let mut listed = 0usize;
    for shard in shards {
        let content = shard.close(alloc).expect(&rt, "memory");
        listed = listed.saturating_add(content.len());
    }
    same(&rt, &listed, &(KEYS as usize));
}

// If all threads store, the plan is that of `for_keys`.
#[test]
fn as_many_writers_as_threads_have_the_plan_for_keys(rt: HostRuntime) {
    for threads in 0..66 {
        for keys in [0, 1, 7, 1_000, 262_144, 262_145, 1_000_003, u32::MAX] {
            let plan = ShardPlan::for_writers(keys, threads, threads);
            check_that(&rt, plan == ShardPlan::for_keys(keys, threads));
        }
    }
}
