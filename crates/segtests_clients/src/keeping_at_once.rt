//! Clients whose puts keep what stands, beside clients that read:
//! no key is missed unless a put evicted one.
use crate::same::same;
use segclient::{Client, GetAnswer, GetsAnswer, Index, Key, PutAnswer, Shape, Value, clients};
use std::thread::{Threads, join, yield_now};

// The keys a and c stand in one bucket, and b and d in the other.
// So the two clients that put are never at work in the same bucket.
const SHAPE: Shape = Shape {
    buckets: 2,
    overflow: 0,
    passes: 4,
    segments_each: 4,
    rows: 8,
    first_version: 0,
};

// Each of these is put once, and stands from then on.
const KEPT: [&[u8]; 2] = [b"a", b"b"];

// Each of these is put again and again.
const CHANGED: [&[u8]; 2] = [b"c", b"d"];

// How often each client puts its key that changes.
const PUTS: u32 = 20_000;

// How often each client reads.
const READS: u32 = 20_000;

// Puts a number under a key, and says whether it is stored.
fn is_put(client: &mut Client<'_>, key: &[u8], number: u32) -> bool {
    let (Some(key), Some(value)) = (Key::new(key), Value::new(&number.to_le_bytes())) else {
        return false;
    };
    client.put(&key, &value) == PutAnswer::Stored
}

// Puts one of the keys that change, and counts how often it is stored.
fn put_all(client: &mut Client<'_>, key: &[u8]) -> u32 {
    let mut stored = 0u32;
    for number in 0..PUTS {
        if is_put(client, key, number) {
            stored = stored.saturating_add(1);
        } else {
            yield_now();
        }
    }
    stored
}

// Reads one of the keys that are kept, and one that changes, of the same bucket.
// Counts the misses, and says whether no version was below one that was read before.
fn read_all(client: &mut Client<'_>, kept: &[u8], changed: &[u8]) -> (u32, bool) {
    let (Some(kept), Some(changed)) = (Key::new(kept), Key::new(changed)) else {
        return (u32::MAX, false);
    };
    let mut missed = 0u32;
    let mut version = 0;
    let mut is_rising = true;
    for _ in 0..READS {
        match client.gets(&kept) {
            GetsAnswer::Found(_value, now) => {
                is_rising = is_rising && version <= now;
                version = now;
            }
            GetsAnswer::Miss => missed = missed.saturating_add(1),
            GetsAnswer::Busy => yield_now(),
        }
        match client.get(&changed) {
            GetAnswer::Found(_value) => {}
            GetAnswer::Miss => missed = missed.saturating_add(1),
            GetAnswer::Busy => yield_now(),
        }
    }
    (missed, is_rising)
}

// A client that puts and one that reads, with two keys of one bucket.
#[derive(Drop)]
struct Pair<'i> {
    writer: Client<'i>,
    reader: Client<'i>,
    kept: &'static [u8],
    changed: &'static [u8],
}

impl<'i> Pair<'i> {
    // Takes two clients, the first of which keeps what stands, and puts both keys once.
    fn new(all: &mut Vec<Client<'i>>, bucket: usize) -> Option<Pair<'i>> {
        let (kept, changed) = (*KEPT.get(bucket)?, *CHANGED.get(bucket)?);
        let mut writer = all.pop()?;
        let reader = all.pop()?;
        writer.keep_from(Some(1));
        let is_stored = is_put(&mut writer, kept, 0) && is_put(&mut writer, changed, 0);
        is_stored.then_some(Pair {
            writer,
            reader,
            kept,
            changed,
        })
    }

    // Puts and reads at the same time.
    // Returns whether each put is stored, the versions rose, items were kept,
    // and no key was missed unless a put evicted one.
    fn is_well<R: Threads + Sync>(&mut self, rt: &R) -> bool {
        let (writer, reader) = (&mut self.writer, &mut self.reader);
        let (kept, changed) = (self.kept, self.changed);
        let (stored, (missed, is_rising)) = join(
            rt,
            || put_all(writer, changed),
            || read_all(reader, kept, changed),
        );
        let puts = self.writer.stats();
        stored == PUTS && is_rising && puts.items_kept > 0 && (missed == 0 || puts.keys_evicted > 0)
    }
}

#[test]
fn no_key_is_missed_while_puts_keep(rt: HostRuntime) {
    let (index, passes) = Index::new(rt.alloc(), SHAPE).expect(&rt, "an index");
    let mut all = clients(rt.alloc(), &index, passes).expect(&rt, "clients");
    let mut first = Pair::new(&mut all, 0).expect(&rt, "a first pair");
    let mut second = Pair::new(&mut all, 1).expect(&rt, "a second pair");
    let are_well = join(&rt, || first.is_well(&rt), || second.is_well(&rt));
    same(&rt, &are_well, &(true, true));
}
