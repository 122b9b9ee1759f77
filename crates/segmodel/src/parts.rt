//! Changes of the plain cache's parts: its segments, its map, its numbers for each bucket.
ghost use Rattle.std.specs.Prelude.{◌≡◌, [], ◌<◌, ◌+◌, ◌-◌, ◌^◌, true, if◌then◌else◌, ℕ, length};
ghost use Rattle.std.specs.Prelude.{count_by, filter, map, not, IfOk, IsSome, vec_len};
ghost use Rattle.std.specs.Map.{lookup};
ghost use Rattle.std.specs.BTreeMap.{is_at};
ghost use Rattle.segmodel.specs.Cache.{key_cmp, with_at, in_segment, counted};
ghost use Rattle.segmodel.specs.State.{but_for, is_among, is_in};
ghost use Rattle.segmodel.specs.Serving.{with_key, with_rows, higher, raised, raised_in};
ghost use Rattle.segword.specs.Words.{span_of};
ghost use Rattle.segmodel.specs.declared.answer.SegState.TheVariants.{InUse, Evicted};
ghost use Rattle.segmodel.specs.Segments.{HasRow, HasRows, HasSpace, AreRoomy, KeepsRoom, AllEmpty};
ghost use Rattle.segmodel.specs.Segments.{fillings};
ghost use Rattle.segmodel.specs.Segments.{deadlines, by_bucket};

use crate::segment::Segment;
use crate::{Cached, PlainFault, SegState};
use segword::{Key, Value, span_of};
use std::alloc::Global;
use std::cmp::Ordering;
use std::collections::BTreeMap;

// How many rows of a segment are used.
pub fn used_rows(segments: &Vec<Segment>, segment: usize) -> usize
    requires { segment < vec_len segments.now }
    ensures { result ≡ length (fillings segments.now.items segment).keys }
{
    segments[segment].keys.len()
}

// Whether the two keys are one.
fn is_same(key: &Key, other: &Key) -> bool
    ensures { result ≡ is_at (key_cmp key.now) other.now }
{
    key.cmp(other) == Ordering::Equal
}

// Whether the key is among these.
pub fn is_among(keys: &[Key], key: &Key) -> bool
    ensures { result ≡ is_among keys.now key.now }
{
    keys.iter().any(|other| is_same(key, other))
}

// The frequency after one hit more.
pub fn higher(frequency: u8) -> u8
    ensures { result ≡ higher frequency }
{
    frequency.saturating_add(1)
}

// Raises the frequency of the last row that has the key, if one has it.
pub fn raise(keys: &[Key], frequencies: &mut [u8], key: &Key)
    requires { length frequencies.old ≡ length keys.now }
    ensures { frequencies.new ≡ raised key.now keys.now frequencies.old }
{
    for row in 0..keys.len() {
        if is_same(key, &keys[row]) && !is_among(&keys[row + 1..], key) {
            frequencies[row] = higher(frequencies[row]);
            return;
        }
    }
}

// Raises the frequency of the last row of a segment that has the key, if one has it.
pub fn raise_in(segments: &mut Vec<Segment>, segment: usize, key: &Key)
    requires in_range { segment < vec_len segments.old }
    requires each { length (fillings segments.old.items segment).frequencies
        ≡ length (fillings segments.old.items segment).keys }
    ensures len { vec_len segments.new ≡ vec_len segments.old }
    ensures raised { fillings segments.new.items
        ≡ with_at (fillings segments.old.items) segment
        (raised_in key.now (fillings segments.old.items segment)) }
    ensures deadlines { deadlines segments.new.items ≡ deadlines segments.old.items }
    ensures room { KeepsRoom segments.old.items segments.new.items }
{
    let found = &mut segments[segment];
    raise(&found.keys, &mut found.frequencies, key);
}

// Adds a key to a segment, once for each row of its item, with the frequency of the item.
pub fn add_row(segments: &mut Vec<Segment>, segment: usize, key: Key, value: &Value, frequency: u8)
    requires { HasRows segments.old.items segment (span_of key value.now) }
    ensures len { vec_len segments.new ≡ vec_len segments.old }
    ensures added { fillings segments.new.items
        ≡ with_at (fillings segments.old.items) segment
        (with_rows (span_of key value.now) key frequency (fillings segments.old.items segment)) }
    ensures deadlines { deadlines segments.new.items ≡ deadlines segments.old.items }
    ensures room { KeepsRoom segments.old.items segments.new.items }
{
    for _row in 0..span_of(&key, value) {
        push_row(segments, segment, key.copy(), frequency);
    }
}

// Adds a key to a segment, for one row, with the frequency of its item.
fn push_row(segments: &mut Vec<Segment>, segment: usize, key: Key, frequency: u8)
    requires { HasRow segments.old.items segment }
    ensures len { vec_len segments.new ≡ vec_len segments.old }
    ensures added { fillings segments.new.items ≡ with_at (fillings segments.old.items) segment
        (with_key key frequency (fillings segments.old.items segment)) }
    ensures deadlines { deadlines segments.new.items ≡ deadlines segments.old.items }
    ensures room { KeepsRoom segments.old.items segments.new.items }
    ensures left { (rows : ℕ) → HasSpace segments.old.items segment (rows + 1)
        → HasSpace segments.new.items segment rows }
{
    let found = &mut segments[segment];
    found.keys.push_reserved(key);
    found.frequencies.push_reserved(frequency);
}

// Counts one more write to a bucket.
pub fn count_write(versions: &mut Vec<u32>, bucket: usize)
    requires { bucket < vec_len versions.old }
    ensures len { vec_len versions.new ≡ vec_len versions.old }
    ensures counted { (first : ℕ)
        → by_bucket versions.new.items first ≡ counted (by_bucket versions.old.items first) bucket }
{
    versions[bucket] = versions[bucket].wrapping_add(1);
}

// Adds an overflow bucket to a bucket's chain, if the chain is to be longer.
pub fn chain(widths: &mut Vec<u8>, drawn: &mut u32, bucket: usize, longer: bool)
    requires bucket { bucket < vec_len widths.old }
    requires short { longer ≡ true → by_bucket widths.old.items 1 bucket < 4 }
    requires left { longer ≡ true → drawn.old < 2 ^ 32 - 1 }
    ensures len { vec_len widths.new ≡ vec_len widths.old }
    ensures wider { by_bucket widths.new.items 1 ≡ (if longer then
        with_at (by_bucket widths.old.items 1) bucket (by_bucket widths.old.items 1 bucket + 1)
        else by_bucket widths.old.items 1) }
    ensures drawn { drawn.new ≡ (if longer then drawn.old + 1 else drawn.old) }
{
    if longer {
        widths[bucket] += 1;
        *drawn += 1;
    }
}

// Marks a segment as evicted.
pub fn mark_evicted(segments: &mut Vec<Segment>, segment: usize)
    requires { segment < vec_len segments.old }
    ensures len { vec_len segments.new ≡ vec_len segments.old }
    ensures marked { fillings segments.new.items ≡ with_at (fillings segments.old.items) segment
        (record (fillings segments.old.items segment) { state = Evicted }) }
    ensures deadlines { deadlines segments.new.items ≡ deadlines segments.old.items }
    ensures room { KeepsRoom segments.old.items segments.new.items }
{
    segments[segment].state = SegState::Evicted;
}

// Begins to fill a segment, up to a deadline.
pub fn renew(segments: &mut Vec<Segment>, segment: usize, deadline: u32)
    requires { segment < vec_len segments.old }
    ensures len { vec_len segments.new ≡ vec_len segments.old }
    ensures renewed { fillings segments.new.items ≡ with_at (fillings segments.old.items) segment
        (record { state = InUse; keys = []; frequencies = [] }) }
    ensures deadline { deadlines segments.new.items
        ≡ with_at (deadlines segments.old.items) segment deadline }
    ensures room { KeepsRoom segments.old.items segments.new.items }
{
    segments[segment].keys.clear();
    segments[segment].frequencies.clear();
    segments[segment].state = SegState::InUse;
    segments[segment].deadline = deadline;
}

// Takes all items of a segment out of the map.
pub fn take_items(items: &mut BTreeMap<Key, Cached>, segment: u32) -> usize
    ensures count { result ≡ count_by (is_in segment) items.old.entries }
    ensures items { items.new.entries
        ≡ filter (λ entry. not (is_in segment entry)) items.old.entries }
{
    let before = items.len();
    items.retain(|_, item| item.segment != segment);
    before - items.len()
}

// The current segment, unless it is this one.
pub fn but_for(segment: u32, current: Option<u32>) -> Option<u32>
    ensures { result ≡ but_for segment current }
{
    if current == Some(segment) {
        None
    } else {
        current
    }
}

// This number of segments that were never filled, each with memory for this number of rows.
pub fn empty_segments(alloc: Global, count: u32, rows: u32) -> Result<Vec<Segment>, PlainFault>
    ensures len { IfOk result (λ segments. vec_len segments ≡ count) }
    ensures empty { IfOk result (λ segments. AllEmpty segments.items) }
    ensures room { IfOk result (λ segments. AreRoomy rows segments.items) }
{
    let mut segments = Vec::new(alloc);
    for _i in 0..count {
        let Ok(keys) = Vec::with_capacity(alloc, rows as usize) else {
            return Err(PlainFault::OutOfMemory);
        };
        let Ok(frequencies) = Vec::with_capacity(alloc, rows as usize) else {
            return Err(PlainFault::OutOfMemory);
        };
        let segment = Segment {
            state: SegState::Empty,
            keys,
            frequencies,
            deadline: 0,
        };
        if segments.push(segment).is_err() {
            return Err(PlainFault::OutOfMemory);
        }
    }
    Ok(segments)
}

// Takes the item of a key out of the map, if there is one.
pub fn remove_item(items: &mut BTreeMap<Key, Cached>, key: &Key)
    ensures { items.new.entries
        ≡ filter (λ entry. not (is_at (key_cmp key.now) entry.0)) items.old.entries }
{
    let _count = items.len();
    items.remove(key);
}

// Moves the item of a key to a segment. The key stands, so the map needs no memory for it.
pub fn move_item(items: &mut BTreeMap<Key, Cached>, key: &Key, segment: u32)
    requires { IsSome (lookup (is_at (key_cmp key.now)) items.old.entries) }
    ensures { items.new.entries ≡ map (in_segment key.now segment) items.old.entries }
{
    let Some(item) = items.get(key) else {
        unreachable!();
    };
    let moved = Cached {
        value: item.value.copy(),
        segment,
    };
    let Ok(_before) = items.insert(key.copy(), moved) else {
        unreachable!();
    };
}
