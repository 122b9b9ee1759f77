//! Eight gates store their tickets, and at the end of the day all tickets are listed.
ghost use Rattle.segclient.specs.Client.{IsSame};
ghost use Rattle.segclient.specs.Clients.{AreAllClients};

use crate::same::{check_that, same};
use segclient::{Client, Index, Key, PutAnswer, Shape, Value, clients, into_passes};
use std::process::Abort;
use std::thread::{Threads, for_each_mut};

// A gate fills two of its segments. The other two stay free, so that no ticket is evicted.
const SHAPE: Shape = Shape {
    buckets: 64,
    overflow: 8,
    passes: 8,
    segments_each: 4,
    rows: 4,
    first_version: 0,
};

// How many tickets each gate stores.
const TICKETS: u8 = 6;

// How often a gate tries to store its tickets.
const TRIES: u32 = 1_000_000;

/// The key of a ticket: the gate's letter and the ticket's digit.
fn key_of(gate: u8, ticket: u8) -> Option<Key> {
    Key::new(&[b'a'.saturating_add(gate), b'0'.saturating_add(ticket)])
}

/// Stores a ticket, and returns whether it is stored.
fn store(client: &mut Client<'_>, gate: u8, ticket: u8) -> bool
    ensures { IsSame client.old client.new }
{
    let (Some(key), Some(value)) = (key_of(gate, ticket), Value::new(&[gate, ticket])) else {
        return false;
    };
    client.put(&key, &value) == PutAnswer::Stored
}

/// Stores the tickets of a gate, each again until it is stored.
fn store_all(client: &mut Client<'_>, gate: u8)
    ensures { IsSame client.old client.new }
{
    let mut stored = 0;
    for _ in 0..TRIES {
        if stored >= TICKETS {
            break;
        }
        if store(client, gate, stored) {
            stored += 1;
        }
    }
}

/// Stores the tickets of all gates, on four threads.
fn store_each<R: Threads + Sync>(rt: &R, index: &Index, clients: &mut [Client<'_>])
    requires { AreAllClients index.now clients.old }
    ensures { AreAllClients index.now clients.new }
{
    for_each_mut(
        rt,
        clients,
        4,
        &|gate, client: &mut Client<'_>|
            ensures { IsSame client.old client.new }
        { store_all(client, (gate % 8) as u8) },
    );
}

// Checks that just the tickets of all gates are listed, in their order.
fn check_listed(rt: &impl Abort, content: &[(Key, Value)]) {
    let mut listed = content.iter();
    for gate in 0..8 {
        for ticket in 0..TICKETS {
            let (key, value) = listed.next().expect(rt, "a ticket");
            let is_ticket = key_of(gate, ticket).is_some_and(|expected| expected == *key);
            check_that(
                rt,
                is_ticket && value.as_bytes() == [gate, ticket].as_slice(),
            );
        }
    }
    check_that(rt, listed.next().is_none());
}

#[test]
fn all_tickets_are_listed(rt: HostRuntime) {
    let (index, passes) = Index::new(rt.alloc(), SHAPE).expect(&rt, "an index");
    let mut gates = clients(rt.alloc(), &index, passes).expect(&rt, "clients");
    store_each(&rt, &index, gates.as_mut_slice());
    for client in gates.iter() {
        same(&rt, &client.stats().stored, &u64::from(TICKETS));
    }
    let passes = into_passes(rt.alloc(), &index, gates).expect(&rt, "memory for passes");
    let content = index
        .close_all(rt.alloc(), passes)
        .expect(&rt, "memory for tickets");
    check_listed(&rt, &content);
}
