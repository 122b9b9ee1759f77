//! A cache by its clients, each on a thread of its own.
ghost use Rattle.segclient.specs.Client.{IsSame};
ghost use Rattle.segclient.specs.Clients.{AreAllClients};

use anyhow::Result;
use segclient::{
    Client, GetAnswer, HoldAnswer, Index, Key, Shape, Value, clients, hold_stays, into_passes,
};
use std::alloc::Global;
use std::thread::{Threads, for_each_mut};

// The value that the cache has under a key. If it has none, this one is stored.
fn serve(client: &mut Client<'_>, key: &Key, value: &Value) -> Value
    ensures { IsSame client.old client.new }
{
    match client.get(key) {
        GetAnswer::Found(value) => value,
        GetAnswer::Miss | GetAnswer::Busy => {
            client.put(key, value);
            value.copy()
        }
    }
}

// Puts a value under a key. It gives the one that was there before, which is held meanwhile.
fn swap(client: &mut Client<'_>, key: &Key, value: &Value) -> Option<Value>
    ensures { IsSame client.old client.new }
{
    let hold = match client.hold(key) {
        HoldAnswer::Holding(hold) => hold,
        HoldAnswer::Miss | HoldAnswer::Busy | HoldAnswer::AlreadyHolding => return None,
    };
    hold_stays();
    client.put(key, value);
    let before = client.held_value(&hold);
    client.release(hold);
    Some(before)
}

// Serves each pair at a moment.
fn serve_all(client: &mut Client<'_>, pairs: &[(Key, Value)], now: u32)
    ensures { IsSame client.old client.new }
{
    client.set_now(now);
    for (key, value) in pairs {
        serve(client, key, value);
        swap(client, key, value);
    }
}

// Each client serves the pairs, on a thread of its own.
fn serve_each<R: Threads + Sync>(
    rt: &R,
    index: &Index,
    clients: &mut [Client<'_>],
    pairs: &[(Key, Value)],
    now: u32,
)
    requires { AreAllClients index.now clients.old }
    ensures { AreAllClients index.now clients.new }
{
    for_each_mut(
        rt,
        clients,
        2,
        &|_number, client: &mut Client<'_>|
            ensures { IsSame client.old client.new }
        { serve_all(client, pairs, now) },
    );
}

/// Two clients serve the pairs at the same time, and the cache lists what it has in the end.
pub fn client_caller<R: Threads + Sync>(
    rt: &R,
    alloc: Global,
    pairs: &[(Key, Value)],
    now: u32,
) -> Result<Vec<(Key, Value)>> {
    let shape = Shape::for_keys(1_000, 2)?;
    let (index, passes) = Index::new(alloc, shape)?;
    let mut clients = clients(alloc, &index, passes)?;
    serve_each(rt, &index, clients.as_mut_slice(), pairs, now);
    let passes = into_passes(alloc, &index, clients)?;
    Ok(index.close_all(alloc, passes)?)
}
