//! Writes of keys, each under the bit of its key's bucket.
ghost use Rattle.std.specs.Prelude.{◌≡◌, ◌+◌, ◌^◌, ◌<◌, is_some};
ghost use Rattle.segword.specs.Words.{IsKey, IsWithin};
ghost use Rattle.segmodel.specs.declared.request.Request.{Request};
ghost use Rattle.segmodel.specs.Words.{after, bucket_of, key_of, present, tag_of, value_of};
ghost use Rattle.segcore.specs.declared.event.Event.TheVariants.{Linked};
ghost use Rattle.segcore.specs.Words.{Fits, IsRefusal};
ghost use Rattle.segstore.specs.Words.{HasCleanBit, Idles, IsQuiet, IsSought, KeepsSegments};
ghost use Rattle.segstore.specs.Words.{MayEnterAny, memo, TakesAtMost};
ghost use Rattle.segbase.specs.Words.{AddsLink, IsPassOf, number, position_at, seen, trace};
ghost use Rattle.segwrite.specs.Presence.{PeeksFor};
ghost use Rattle.segwrite.specs.Spans.{rows_of};
ghost use Rattle.segwrite.specs.Writes.{UsesRows, IsSetAnswer, Writes};
ghost use Rattle.segwrite.specs.Writing.{Finds, IsTarget};
ghost use Rattle.segwrite.specs.Storing.{IsNextRow, Requests, StoresUnderBit, HasWritten};
ghost use Rattle.segwrite.specs.Refusing.{request_of, IsToldBy, reply_now, RefusesUnderBit};
ghost use Rattle.segwrite.specs.Steps.{most_looks_at_version, most_steps_of_row};
ghost use Rattle.segwrite.specs.Steps.{most_steps_to_tell, most_tries_to_exchange};
ghost use Rattle.segwrite.specs.declared.condition.Condition.TheVariants.{Always};

use crate::condition::Condition;
use crate::find::{Target, present_word, search};
use crate::grow::make_room;
use crate::spans::use_rows;
use segbase::{Board, Pass};
use segmodel::WriteAnswer;
use segstore::{RowRef, Sought, fill_row, next_row, take_to_write};
use segword::{Item, Key, ValueBytes};

// A write: under which key it stores, what, when, and by which clock.
#[derive(Drop)]
struct WriteCall<'v> {
    sought: Sought<'v>,
    value: &'v ValueBytes<'v>,
    condition: Condition,
    clock: u32,
}

/// Stores the value under the key, if that is to be, and tells which row the key had before.
/// No contract says what the second part is.
#[inline(always)]
pub fn write(
    board: &Board,
    pass: &mut Pass,
    key: &Key,
    value: &ValueBytes<'_>,
    condition: Condition,
    now: u32,
) -> (WriteAnswer, Option<RowRef>)
    requires quiet { IsQuiet board.now pass.old }
    requires within { IsWithin board.now.limits key.now value.now }
    ensures writes { Writes board.now (request_of condition key.now value.now now) result.0
        pass.old pass.new }
    ensures set { condition ≡ Always → IsSetAnswer result.0 }
{
    let call = WriteCall {
        sought: Sought::of(key, board),
        value,
        condition,
        clock: now,
    };
    write_sought(board, pass, &call)
}

// Stores the value under the key if the cache doesn't refuse it,
// and tells which row the key had before.
#[inline(always)]
fn write_sought(
    board: &Board,
    pass: &mut Pass,
    write: &WriteCall<'_>,
) -> (WriteAnswer, Option<RowRef>)
    ghost request: { Request }
    requires quiet { IsQuiet board.now pass.old }
    requires sought { IsSought board.now.shape write.now.sought }
    requires key { IsKey write.now.sought.key }
    requires versions { board.now.shape.first_version < 2 ^ 32 }
    requires request { request
        ≡ request_of write.now.condition write.now.sought.key write.now.value.now write.now.clock }
    requires within { IsWithin board.now.limits write.now.sought.key write.now.value.now }
    ensures writes { Writes board.now request result.0 pass.old pass.new }
{
    let Ok(row) = next_row(board, pass, &write.sought.key, write.value) else {
        return (WriteAnswer::NoRoom, None);
    };
    let bucket = write.sought.bucket;
    if !take_to_write(board, pass, bucket) {
        return (WriteAnswer::Busy, None);
    }
    let found = search(board, pass, &write.sought);
    if let Some(refusal) = refusal(board, pass, found.target(), write) {
        refuse(board, pass, bucket);
        return (refusal, None);
    }
    let Some(target) = make_room(board, pass, bucket, found) else {
        board.release(pass, bucket, false);
        return (WriteAnswer::BucketFull, None);
    };
    store(board, pass, target, row, write);
    board.release(pass, bucket, true);
    (WriteAnswer::Stored, target.row())
}

// What the cache answers in place of storing.
// A set is stored in any case. For any other write it depends on whether the key is present.
fn refusal(
    board: &Board,
    pass: &mut Pass,
    found: Option<Target>,
    write: &WriteCall<'_>,
) -> Option<WriteAnswer>
    ghost request: { Request }
    requires pass { IsPassOf board.now pass.old }
    requires versions { board.now.shape.first_version < 2 ^ 32 }
    requires clean { HasCleanBit board.now pass.old write.now.sought.bucket }
    requires bucket { write.now.sought.bucket ≡ bucket_of board.now.shape (key_of request) }
    requires enter { MayEnterAny pass.old }
    requires found { Finds board.now (key_of request) found pass.old }
    requires request { request
        ≡ request_of write.now.condition (key_of request) (value_of request) write.now.clock }
    ensures peeks { PeeksFor board.now request pass.old pass.new }
    ensures steps { TakesAtMost (most_steps_to_tell request) pass.old pass.new }
    ensures told { IsToldBy (reply_now board.now pass.new request) result }
{
    if let Condition::Always = write.condition {
        return None;
    }
    let is_present = present_word(board, pass, found, write.clock).is_some();
    refusal_where(board, pass, is_present, write)
}

// What the cache answers in place of storing, by whether the key is present.
// The version is looked at only if the write depends on it.
fn refusal_where(
    board: &Board,
    pass: &mut Pass,
    is_present: bool,
    write: &WriteCall<'_>,
) -> Option<WriteAnswer>
    ghost request: { Request }
    requires pass { IsPassOf board.now pass.old }
    requires versions { board.now.shape.first_version < 2 ^ 32 }
    requires clean { HasCleanBit board.now pass.old write.now.sought.bucket }
    requires bucket { write.now.sought.bucket ≡ bucket_of board.now.shape (key_of request) }
    requires present { is_present
        ≡ is_some (present (after board.now.shape (seen pass.old)) write.now.clock
        (key_of request)) }
    requires request { request
        ≡ request_of write.now.condition (key_of request) (value_of request) write.now.clock }
    ensures idles { Idles board.now pass.old pass.new }
    ensures steps { TakesAtMost (most_looks_at_version request) pass.old pass.new }
    ensures told { IsToldBy (reply_now board.now pass.new request) result }
{
    match write.condition {
        Condition::Always => None,
        Condition::IfAbsent => is_present.then_some(WriteAnswer::NotStored),
        Condition::IfPresent => (!is_present).then_some(WriteAnswer::NotStored),
        Condition::IfVersion(_) if !is_present => Some(WriteAnswer::NotFound),
        Condition::IfVersion(version) => {
            let info = board.info_look(pass, write.sought.bucket);
            (info.version != version).then_some(WriteAnswer::Exists)
        }
    }
}

// Gives back the bit of a write that the cache refuses. The refusal enters the history with this step.
pub(crate) fn refuse(board: &Board, pass: &mut Pass, bucket: u32)
    ghost request: { Request }
    requires pass { IsPassOf board.now pass.old }
    requires clean { HasCleanBit board.now pass.old bucket }
    requires bucket { bucket ≡ bucket_of board.now.shape (key_of request) }
    requires refused { IsRefusal (reply_now board.now pass.old request) }
    ensures refuses { RefusesUnderBit board.now request (reply_now board.now pass.old request)
        pass.old pass.new }
    ensures steps { TakesAtMost 1 pass.old pass.new }
{
    board.release(pass, bucket, false);
}

// Writes the pair into the next row, or from that one on into as many as it takes, and lets the key's word name it.
fn store(board: &Board, pass: &mut Pass, target: Target, row: RowRef, write: &WriteCall<'_>)
    ghost request: { Request }
    requires pass { IsPassOf board.now pass.old }
    requires segments { KeepsSegments board.now pass.old }
    requires next { IsNextRow board.now request row.segment row.row pass.old }
    requires request { Requests board.now request write.now.sought.key write.now.value.now
        pass.old }
    requires key { IsKey write.now.sought.key }
    requires tag { write.now.sought.tag ≡ tag_of write.now.sought.key }
    requires bit { HasCleanBit board.now pass.old (bucket_of board.now.shape (key_of request)) }
    requires target { IsTarget board.now (key_of request) target pass.old }
    requires within { IsWithin board.now.limits (key_of request) (value_of request) }
    ensures stores { StoresUnderBit board.now request row.segment row.row pass.old pass.new }
    ensures steps { TakesAtMost (most_steps_of_row + most_tries_to_exchange) pass.old pass.new }
    ensures segments { KeepsSegments board.now pass.new }
    ensures uses { UsesRows row.segment (rows_of request) pass.old pass.new }
    ensures bit { HasWritten board.now pass.new (bucket_of board.now.shape (key_of request)) }
{
    fill_row(board, pass, row, &write.sought.key, write.value);
    let item = Item {
        tag: write.sought.tag,
        freq: 1,
        seg: row.segment,
        row: row.row,
    };
    link(board, pass, target, item);
    use_rows(pass, row, write.sought.key.span(write.value));
}

// Puts the item of a stored write into the key's word. If that has an item of the key, and a hit
// raises its frequency meanwhile, the exchange is tried again.
fn link(board: &Board, pass: &mut Pass, target: Target, item: Item)
    ghost request: { Request }
    requires pass { IsPassOf board.now pass.old }
    requires item { (item.tag ≡ tag_of (key_of request)) × (item.freq ≡ 1) }
    requires target { IsTarget board.now (key_of request) target pass.old }
    requires fits { Fits board.now.shape (trace pass.old)
        (Linked (number pass.old) request item.seg item.row
        (position_at board.now target.place pass.old)) }
    requires within { IsWithin board.now.limits (key_of request) (value_of request) }
    ensures did { AddsLink board.now target.place request item pass.old pass.new }
    ensures steps { TakesAtMost most_tries_to_exchange pass.old pass.new }
    ensures same { (pass.new.plain ≡ pass.old.plain) × (memo pass.new ≡ memo pass.old) }
{
    if target.word == 0 {
        board.link(pass, target.place, item);
        return;
    }
    let mut old = target.word;
    while let Err(found) = board.replace(pass, target.place, old, item) {
        old = found;
    }
}
