//! The forms of a pass's plain facts, and of the steps of a board.
ghost use Rattle.std.specs.Prelude.{◌≡◌, List, Option, ℕ};
ghost use Rattle.segmodel.specs.Words.{key_of, tag_of};
ghost use Rattle.segmodel.specs.declared.request.Request.{Request};
ghost use Rattle.segmodel.specs.declared.request.Reply.{Reply};
ghost use Rattle.segcore.specs.Words.{Leaving, packed, release, Slot};
ghost use Rattle.segbase.specs.Passes.{IsPassOf};
ghost use Rattle.segbase.specs.Steps.{HasItemOf, IsFree, linking, MayTake, relinking, unlinking};

use segbase::{Board, MakeFault, Pass, Place};
use segmodel::SegState;
use segword::{Info, Item, Shape};
use std::alloc::Global;

#[test]
fn passes_keep_their_forms(_rt: HostRuntime) {
    let _: fn(Global, Shape) -> Result<(Board, Vec<Pass>), MakeFault> = Board::new;
    let _: fn(&Pass) -> u32 = Pass::number;
    let _: fn(&Pass) -> Option<u32> = Pass::current;
    let _: fn(&Pass, u32) -> Option<SegState> = Pass::state;
    let _: fn(&Pass, u32) -> Option<u32> = Pass::used;
    let _: fn(&Pass, u32) -> Option<u32> = Pass::deadline;
    let _: fn(&Pass) -> Option<u32> = Pass::locked;
    let _: fn(&Pass) -> bool = Pass::is_holding;
    let _: fn(&mut Pass, Option<u32>) = Pass::set_current;
    let _: fn(&mut Pass, u32, SegState) = Pass::set_state;
    let _: fn(&mut Pass, u32, u32) = Pass::set_used;
    let _: fn(&mut Pass, Option<u32>) = Pass::set_locked;
    let _: fn(&mut Pass, bool) = Pass::set_holding;
}

#[test]
fn steps_keep_their_forms(_rt: HostRuntime) {
    let _: fn(&Board, &mut Pass, u32) -> bool = Board::take;
    let _: fn(&Board, &mut Pass, u32) -> Info = Board::info_look;
    let _: fn(&Board, &mut Pass, Place) -> u64 = Board::look;
    let _: fn(&Board, &mut Pass, Place, Item, Item) -> bool = Board::bump;
    let _: fn(&Board, &mut Pass, u32, u32) -> Result<(), u32> = Board::draw_overflow;
    let _: fn(&Board, &mut Pass, u32, Item) = Board::fill_overflow;
    let _: fn(&Board, &mut Pass, Place, u64, u32) -> Result<(), u64> = Board::chain;
    let _: fn(&Board, &mut Pass, u32, u32, u8, u64) = Board::row_store;
    let _: fn(&Board, &mut Pass, u32, u32, u8) -> u64 = Board::row_load;
    let _: fn(&Board, &mut Pass, u32) -> u32 = Board::enter;
    let _: fn(&Board, &mut Pass, u32) = Board::leave;
    let _: fn(&Board, &mut Pass, u32, u32) -> bool = Board::none_reading;
    let place = Place { bucket: 0, word: 1 };
    let _: (u32, u8) = (place.bucket, place.word);
}

// A step with a ghost clause can't be a pointer. So each of these calls one, with its conditions.

fn give_back(board: &Board, pass: &mut Pass, bucket: u32, counted: bool)
    ghost said: { Option (Request × Reply) }
    requires pass { IsPassOf board.now pass.old }
    requires may { MayTake board.now pass.old (release bucket counted said) }
{
    board.release(pass, bucket, counted);
}

fn link_new(board: &Board, pass: &mut Pass, place: Place, item: Item)
    ghost request: { Request }
    requires pass { IsPassOf board.now pass.old }
    requires item { (item.tag ≡ tag_of (key_of request)) × (item.freq ≡ 1) }
    requires may { MayTake board.now pass.old (linking board.now pass.old place request item 0) }
    requires free { IsFree board.now (key_of request) place pass.old }
{
    board.link(pass, place, item);
}

fn link_over(board: &Board, pass: &mut Pass, place: Place, old: u64, item: Item) -> Result<(), u64>
    ghost request: { Request }
    requires pass { IsPassOf board.now pass.old }
    requires item { (item.tag ≡ tag_of (key_of request)) × (item.freq ≡ 1) }
    requires may { MayTake board.now pass.old (linking board.now pass.old place request item old) }
    requires present { HasItemOf board.now (key_of request) place pass.old }
{
    board.replace(pass, place, old, item)
}

fn link_moved(board: &Board, pass: &mut Pass, place: Place, old: u64, item: Item) -> Result<(), u64>
    ghost named: { Slot }
    requires pass { IsPassOf board.now pass.old }
    requires item { (item.tag ≡ tag_of named.key)
        × (old ≡ packed item.tag item.freq named.segment named.row) }
    requires may { MayTake board.now pass.old (relinking board.now pass.old place named item) }
{
    board.move_item(pass, place, old, item)
}

fn unlink(board: &Board, pass: &mut Pass, place: Place, old: u64) -> Result<(), u64>
    ghost left: { List ℕ × Leaving }
    requires pass { IsPassOf board.now pass.old }
    requires may { MayTake board.now pass.old (unlinking board.now pass.old place left old) }
{
    board.clear(pass, place, old)
}
