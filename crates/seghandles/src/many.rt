//! The calls that look up several keys at a time, so that their waits for memory overlap.
ghost use Rattle.std.specs.Prelude.{◌<◌, false, length, Some, true};
ghost use Rattle.seghandles.specs.Exports.{Answers};
ghost use Rattle.seghandles.specs.Many.{AreBytesAt, GotMany, InTurn, IsKeyOf, KeepsKey, LooksAhead};
ghost use Rattle.seghandles.specs.Many.{LooksBefore, LooksFor, LooksForSome, LooksUp, out_of, Reads};

use crate::client::SharedClient;
use crate::handle::Handle;
use crate::kept::Kept;
use crate::reading::{get_key, gets_key};
use crate::status::Status;
use segclient::{Index, Key};
use segindex::Seeker;
use segshards::{Batch, LEAST_AHEAD, ROUND, Shards, is_large};
use segword::VALUE_BYTES;

/// The place of a key among the bytes of a call, and what its lookup came to.
#[repr(C)]
#[derive(Clone, Copy, Drop)]
pub struct Lookup {
    pub key_at: usize,
    pub key_len: usize,
    pub value_len: usize,
    pub status: u32,
    pub version: u32,
    pub value: [u8; VALUE_BYTES],
}

/// The place of a key among the bytes of a call.
#[repr(C)]
#[derive(Clone, Copy, Drop)]
pub struct KeyPlace {
    pub key_at: usize,
    pub key_len: usize,
}

/// Looks up each key at a moment, one after another, and writes value and status into its lookup.
/// The call itself is Ok, whatever the lookups came to.
pub fn raw_get_many(client: &mut Handle, keys: &[u8], lookups: &mut [Lookup], now: u32) -> u32
    ensures { Answers result (GotMany false keys.now now lookups.old lookups.new
        client.old.value client.new.value) }
{
    get_many_by(client, keys, lookups, false, now)
}

/// The same, with the version of each key's bucket, for later compare-and-swaps.
pub fn raw_gets_many(client: &mut Handle, keys: &[u8], lookups: &mut [Lookup], now: u32) -> u32
    ensures { Answers result (GotMany true keys.now now lookups.old lookups.new
        client.old.value client.new.value) }
{
    get_many_by(client, keys, lookups, true, now)
}

/// Loads what gets of the first sixteen of the keys will read, so that their waits for memory overlap.
/// It takes one step for each key. No answer depends on what is found.
pub fn raw_look_ahead(client: &mut Handle, keys: &[u8], places: &[KeyPlace]) -> u32
    ensures { Answers result (LooksAhead client.old.value client.new.value) }
{
    let Some(kept) = client.kept() else {
        return Status::NoHandle.number();
    };
    ahead_of(kept, keys, places).number()
}

fn ahead_of(kept: &mut Kept, keys: &[u8], places: &[KeyPlace]) -> Status
    ensures { LooksAhead (Some kept.old) (Some kept.new) result }
{
    let Kept::Client(client) = kept else {
        return Status::NoHandle;
    };
    look_ahead_at(client, keys, places);
    Status::Ok
}

// Loads what gets of the first of these keys will read, where it can pay.
fn look_ahead_at(client: &mut SharedClient, keys: &[u8], places: &[KeyPlace])
    ensures { LooksForSome client.old client.new }
{
    if places.len() >= LEAST_AHEAD && client.is_large() {
        let ahead: [Key; ROUND] = std::array::from_fn(|number| place_or_any(keys, places, number));
        client.look_ahead(&ahead[..places.len().min(ROUND)]);
    }
}

// Looks up the keys by what a handle has, with their versions or without, and returns the status's
// number.
fn get_many_by(
    client: &mut Handle,
    keys: &[u8],
    lookups: &mut [Lookup],
    versioned: bool,
    now: u32,
) -> u32
    ensures { Answers result (GotMany versioned keys.now now lookups.old lookups.new
        client.old.value client.new.value) }
{
    let Some(kept) = client.kept() else {
        return Status::NoHandle.number();
    };
    get_many(kept, keys, lookups, versioned, now).number()
}

// Looks up the keys by a client.
fn get_many(
    kept: &mut Kept,
    keys: &[u8],
    lookups: &mut [Lookup],
    versioned: bool,
    now: u32,
) -> Status
    ensures { GotMany versioned keys.now now lookups.old lookups.new
        (Some kept.old) (Some kept.new) result }
{
    let Kept::Client(client) = kept else {
        return Status::NoHandle;
    };
    look_up_all(client, keys, lookups, versioned, now);
    Status::Ok
}

fn look_up_all(
    client: &mut SharedClient,
    keys: &[u8],
    lookups: &mut [Lookup],
    versioned: bool,
    now: u32,
)
    ensures { InTurn (LooksUp versioned keys.now now) lookups.old lookups.new
        client.old client.new }
{
    for place in 0..lookups.len() {
        look_ahead_from(client, keys, lookups, place);
        look_up(client, keys, &mut lookups[place], versioned, now);
    }
}

fn look_up(client: &mut SharedClient, keys: &[u8], lookup: &mut Lookup, versioned: bool, now: u32)
    ensures { LooksUp versioned keys.now now lookup.old lookup.new client.old client.new }
{
    let key = key_of(keys, lookup);
    let status = read_into(client, key, lookup, versioned, now);
    lookup.status = status.number();
}

fn read_into(
    client: &mut SharedClient,
    key: &[u8],
    lookup: &mut Lookup,
    versioned: bool,
    now: u32,
) -> Status
    ensures reads { Reads versioned key.now now (out_of lookup.old) (out_of lookup.new)
        lookup.old.version lookup.new.version result client.old client.new }
    ensures keeps { KeepsKey lookup.old lookup.new }
{
    let value = &mut lookup.value;
    let value_len = &mut lookup.value_len;
    if versioned {
        gets_key(client, key, value, value_len, &mut lookup.version, now)
    } else {
        get_key(client, key, value, value_len, now)
    }
}

// The key of a lookup: no bytes, unless all are among the bytes of the call.
fn key_of<'k>(keys: &'k [u8], lookup: &Lookup) -> &'k [u8]
    ensures { IsKeyOf keys.now lookup.now result.now }
{
    bytes_at(keys, lookup.key_at, lookup.key_len)
}

// So many bytes from this place on: none, unless all are among these bytes.
fn bytes_at(bytes: &[u8], at: usize, len: usize) -> &[u8]
    ensures { AreBytesAt bytes.now at len result.now }
{
    if at > bytes.len() || len > bytes.len() - at {
        return &[];
    }
    &bytes[at..at + len]
}

// Looks ahead for a piece of the keys, if one begins at this place.
fn look_ahead_from(client: &mut SharedClient, keys: &[u8], lookups: &[Lookup], place: usize)
    requires { place < length lookups.now }
    ensures { LooksBefore place client.old client.new }
{
    let end = lookups.len().min(place + ROUND);
    if place % ROUND == 0 && end - place >= LEAST_AHEAD && client.is_large() {
        look_ahead_piece(client, keys, &lookups[place..end]);
    }
}

// Loads what the gets of a piece will read. No answer depends on what is found.
fn look_ahead_piece(client: &mut SharedClient, keys: &[u8], piece: &[Lookup])
    ensures { LooksForSome client.old client.new }
{
    let ahead: [Key; ROUND] = std::array::from_fn(|number| key_or_any(keys, piece, number));
    client.look_ahead(&ahead[..piece.len().min(ROUND)]);
}

// The key of the lookup at this place, or any key where it has none.
fn key_or_any(keys: &[u8], piece: &[Lookup], number: usize) -> Key {
    match piece.get(number) {
        Some(lookup) => key_or_other(key_of(keys, lookup)),
        None => key_or_other(&[]),
    }
}

// The key at this place, or any key where there is none.
fn place_or_any(keys: &[u8], places: &[KeyPlace], number: usize) -> Key {
    match places.get(number) {
        Some(place) => key_or_other(bytes_at(keys, place.key_at, place.key_len)),
        None => key_or_other(&[]),
    }
}

// These bytes as a key, or another key.
fn key_or_other(bytes: &[u8]) -> Key {
    match Key::new(bytes) {
        Some(key) => key,
        None => Key::new(b"0").unwrap(),
    }
}

impl SharedClient {
    ghost use Rattle.segclient.specs.Many.{LooksAheadBy};
    ghost use Rattle.seghandles.specs.Calls.{MakesCall};

    // Whether a look ahead can pay.
    fn is_large(&self) -> bool {
        match self.guests.as_slice() {
            [guest] => is_large(guest.share.index()),
            _ => true,
        }
    }

    // Loads what gets of these keys will read, so that waits for memory overlap, whatever
    // their shards.
    fn look_ahead(&mut self, keys: &[Key])
        ensures { LooksFor keys.now self.old self.new }
    {
        let mut batch = Batch::new();
        for place in 0..keys.len() {
            if batch.is_full() {
                batch.follow(self);
            }
            let seeker = self.seek(&keys[place]);
            batch.push(self.place_of(&keys[place]), seeker);
        }
        batch.follow(self);
    }

    // Looks for the key in its shard.
    #[inline(always)]
    fn seek(&mut self, key: &Key) -> Seeker
        ensures { MakesCall key.now (LooksAheadBy 1) self.old self.new }
    {
        let place = self.place_of(key);
        let guest = &mut self.guests[place];
        guest.seek(key)
    }
}

impl Shards for SharedClient {
    #[inline(always)]
    fn index_at(&self, place: usize) -> Option<&Index> {
        match self.guests.get(place) {
            Some(guest) => Some(guest.share.index()),
            None => None,
        }
    }
}
