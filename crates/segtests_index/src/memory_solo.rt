//! The lone pass asks for no memory once its index is created.
use crate::commands::{command_of, is_reply};
use crate::hoard::{hoard, is_none_left, leave};
use crate::memory_tables::{LONGEST_CHAIN, MOVED_ITEMS, TWO_SEGMENTS, Table};
use crate::rows::Row;
use crate::same::{check_that, same};
use segsolo::Solo;
use std::alloc::AllocGlobal;
use std::process::Abort;

// The command of the first row that is answered otherwise, or that is no command.
fn first_wrong<'t>(solo: &mut Solo, rows: &[Row<'t>]) -> Option<&'t str> {
    for &(text, wanted) in rows {
        let is_right = match command_of(text) {
            Some(command) => is_reply(wanted, solo.answer(&command)),
            None => false,
        };
        if !is_right {
            return Some(text);
        }
    }
    None
}

fn answers_without_memory<R: AllocGlobal + Abort>(rt: &R, table: Table<'_>) {
    let (shape, rows) = table;
    assert!(rt; shape.passes == 1);
    let mut solo = Solo::new(rt.alloc(), shape).expect(rt, "an index");
    let all = hoard(rt.alloc()).expect(rt, "memory");
    let taken = leave(rt.alloc(), 0).expect(rt, "memory");
    let is_none_left = is_none_left(rt.alloc());
    let wrong = first_wrong(&mut solo, rows);
    drop(taken);
    drop(all);
    check_that(rt, is_none_left);
    same(rt, &wrong, &None);
}

#[test]
fn commands_of_a_lone_pass_need_no_memory(rt: HostRuntime) {
    for table in [LONGEST_CHAIN, TWO_SEGMENTS, MOVED_ITEMS] {
        answers_without_memory(&rt, table);
    }
}
