//! Tables that no contract has: frequencies by draws,
//! and commands of published words of the generator.
use crate::same::same;
use segpolicy::{Kind, Load, Workload, next_frequency};
use segword::{Key, Value};
use std::alloc::AllocGlobal;
use std::process::Abort;

// Checks the next command. Its value is its draw, in decimals.
fn check_next<R: AllocGlobal + Abort>(
    rt: &R,
    workload: &mut Workload,
    kind: Kind,
    key: &[u8],
    draw: u32,
) {
    let value = format!(in rt.alloc(); "{draw}").expect(rt, "memory for a text");
    let load = Load {
        kind,
        key: Key::new(key).expect(rt, "a key"),
        value: Value::new(value.as_bytes()).expect(rt, "a value"),
        draw,
    };
    same(rt, &workload.next(), &load);
}

#[test]
fn frequencies(rt: HostRuntime) {
    for frequency in 1..16 {
        for draw in [0, 1, 7, 9, u32::MAX] {
            same(&rt, &next_frequency(frequency, draw), &(frequency + 1));
        }
    }
    for (frequency, draw, next) in [
        (1, 9, 2),
        (15, 7, 16),
        (16, 16, 17),
        (16, 8, 16),
        (16, 0, 17),
        (17, 16, 17),
        (254, 508, 255),
        (254, 255, 254),
        (255, 0, 255),
        (255, 255, 255),
    ] {
        let found = (frequency, draw, next_frequency(frequency, draw));
        same(&rt, &found, &(frequency, draw, next));
    }
}

// The published words of the generator at state 42 and stream 54 are a15c02b7 7b47f409 ba1d3330
// 83d2f293 bfa4784b cbed606e.
#[test]
fn published_words_make_two_commands(rt: HostRuntime) {
    let mut small = Workload::new(42, 54);
    check_next(&rt, &mut small, Kind::Get, b"k55", 0xba1d_3330);
    check_next(&rt, &mut small, Kind::Get, b"k19", 0xcbed_606e);
    let mut large = Workload::with_keys(42, 54, 1_000_000);
    check_next(&rt, &mut large, Kind::Get, b"k161783", 0xba1d_3330);
    check_next(&rt, &mut large, Kind::Get, b"k639955", 0xcbed_606e);
}

// The commands were worked out from the published rule of the generator by another program, which
// gives the published words too.
#[test]
fn commands_of_each_kind(rt: HostRuntime) {
    let mut workload = Workload::new(7, 0);
    for (kind, key, draw) in [
        (Kind::Get, b"k17", 2740157135),
        (Kind::Gets, b"k63", 785995372),
        (Kind::Set, b"k37", 724092055),
        (Kind::Delete, b"k25", 1028066956),
        (Kind::Add, b"k51", 2581433859),
    ] {
        check_next(&rt, &mut workload, kind, key, draw);
    }
    let mut other = Workload::new(7, 1);
    check_next(&rt, &mut other, Kind::Replace, b"k10", 1954657312);
    let mut third = Workload::new(2, 0);
    for _ in 0..15 {
        let _earlier = third.next();
    }
    check_next(&rt, &mut third, Kind::Cas, b"k18", 257534981);
}
