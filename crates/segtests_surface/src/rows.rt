//! The forms of the calls on rows and segments.
use segbase::{Board, Pass, Place};
use segmodel::RefillAnswer;
use segstore::{
    Linked, NoRoom, TRIES, enter_segment, has_room, leave_segment, read_linked, refill, write_row,
};
use segword::{Key, Value};

#[test]
fn calls_on_rows_keep_their_forms(_rt: HostRuntime) {
    let _: fn(&Pass) -> bool = has_room;
    let _: fn(&Board, &mut Pass, &Key, &Value) -> Result<(u32, u32), NoRoom> = write_row;
    let _: fn(&Board, &mut Pass, u32) -> u32 = enter_segment;
    let _: fn(&Board, &mut Pass, u32) = leave_segment;
    let _: fn(&Board, &mut Pass, Place, u64) -> Linked = read_linked;
    let _: fn(&Board, &mut Pass, u32, u32) -> RefillAnswer = refill;
    let _: [u8; 64] = [0; TRIES as usize];
}
