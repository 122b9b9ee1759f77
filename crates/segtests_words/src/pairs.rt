//! Keys, values and their words: the limits, words and rows worked by hand, and words that no pair has.
//! They are the same in each build, but for lengths that only one of them has.
use crate::same::same;
use segword::{
    HEAD_WORDS, ITEM_WORDS, KEY_BYTES, Key, MOST_SPAN, ROW_WORDS, VALUE_BYTES, Value, read_key,
    read_row, row_words, span, span_of_header,
};
use std::process::Abort;

/// A key with these bytes, of which there aren't too many.
pub fn key(rt: &impl Abort, bytes: &[u8]) -> Key {
    Key::new(bytes).expect(rt, "a key")
}

fn value(rt: &impl Abort, bytes: &[u8]) -> Value {
    Value::new(bytes).expect(rt, "a value")
}

// The words of an item that has one row with these.
fn in_one_row(row: [u64; ROW_WORDS]) -> [u64; ITEM_WORDS] {
    let mut words = [0; ITEM_WORDS];
    words[..ROW_WORDS].copy_from_slice(&row);
    words
}

#[test]
fn keys_and_values_have_their_limits(rt: HostRuntime) {
    let limits = (KEY_BYTES, VALUE_BYTES);
    assert!(rt; limits == (24, 32) || MOST_SPAN > 1);
    let bytes = [b'x'; VALUE_BYTES + 1];
    for (length, is_key, is_value) in [
        (0, false, true),
        (1, true, true),
        (KEY_BYTES, true, true),
        (KEY_BYTES + 1, false, true),
        (VALUE_BYTES, false, true),
        (VALUE_BYTES + 1, false, false),
    ] {
        let part = bytes.get(..length).expect(&rt, "a part");
        let found = (Key::new(part).is_some(), Value::new(part).is_some());
        assert_eq!(rt; found, (is_key, is_value), "{length}");
    }
    let short = key(&rt, b"ab").copy();
    let empty = value(&rt, b"").copy();
    let copies = (short.as_bytes(), empty.as_bytes());
    same(&rt, &copies, &(b"ab".as_slice(), b"".as_slice()));
}

#[test]
fn rows_have_the_bytes_of_the_pair_in_order(rt: HostRuntime) {
    let two = row_words(&key(&rt, b"ab"), &value(&rt, b"xyz"));
    let row = [0x302, 0x6261, 0, 0, 0x7a_7978, 0, 0, 0];
    same(&rt, &two, &in_one_row(row));
    let full = row_words(
        &key(&rt, b"abcdefghijklmnopqrstuvwx"),
        &value(&rt, b"0123456789abcdef0123456789ABCDEF"),
    );
    let row = [
        0x2018,
        0x6867_6665_6463_6261,
        0x706f_6e6d_6c6b_6a69,
        0x7877_7675_7473_7271,
        0x3736_3534_3332_3130,
        0x6665_6463_6261_3938,
        0x3736_3534_3332_3130,
        0x4645_4443_4241_3938,
    ];
    same(&rt, &full, &in_one_row(row));
    let empty = row_words(&key(&rt, b"abcdefghi"), &value(&rt, b""));
    let row = [9, 0x6867_6665_6463_6261, 0x69, 0, 0, 0, 0, 0];
    same(&rt, &empty, &in_one_row(row));
}

#[test]
fn words_that_no_pair_has_are_no_row(rt: HostRuntime) {
    let last = 0xff00_0000_0000_0000;
    for row in [
        [0u64, 0, 0, 0, 0, 0, 0, 0],
        [KEY_BYTES as u64 + 1, 0, 0, 0, 0, 0, 0, 0],
        [(VALUE_BYTES as u64 + 1) << 8 | 1, 0, 0, 0, 0, 0, 0, 0],
        [0x100_0001, 0, 0, 0, 0, 0, 0, 0],
        [2, 0x63_6261, 0, 0, 0, 0, 0, 0],
        [0x17, 0, 0, last, 0, 0, 0, 0],
        [0x1f18, 0, 0, 0, 0, 0, 0, last],
        [1, 0x61, 0, 0, 1, 0, 0, 0],
    ] {
        assert!(rt; read_row(&in_one_row(row)).is_none(), "{row:?}");
    }
    // A length of 256 isn't taken as 0.
    let long = read_row(&in_one_row([0x1_0001, 0, 0, 0, 0, 0, 0, 0]));
    assert_eq!(rt; long.is_some(), VALUE_BYTES >= 256);
    // No length but 1 to `KEY_BYTES` is a key's.
    let mut head = [0; HEAD_WORDS];
    head[0] = KEY_BYTES as u64 + 1;
    assert!(rt; read_key(&head).is_none());
    let short = in_one_row([0x101, 0x61, 0, 0, 0x7a, 0, 0, 0]);
    let (read, stored) = read_row(&short).expect(&rt, "a row");
    let row = (read.as_bytes(), stored.as_bytes());
    same(&rt, &row, &(b"a".as_slice(), b"z".as_slice()));
    assert!(rt; read_row(&in_one_row([0x2018, 0, 0, last, 0, 0, 0, last])).is_some());
}

// An item's words are 1, at least 3 for the key, and those of the value: eight to a row.
#[test]
fn an_item_takes_the_rows_that_its_words_fill(rt: HostRuntime) {
    let values = [0u32, 31, 32, 33, 96, 97, 4064];
    for (key, rows) in [
        (24u32, [1, 1, 1, 2, 2, 3, 64]),
        (25, [1, 2, 2, 2, 3, 3, 65]),
        (250, [5, 5, 5, 5, 6, 6, 68]),
    ] {
        for (value, rows) in values.into_iter().zip(rows) {
            if key as usize <= KEY_BYTES {
                let header = u64::from(value) << 8 | u64::from(key);
                let found = (key, value, span(key, value), span_of_header(header));
                same(&rt, &found, &(key, value, rows, rows));
            }
        }
    }
    let longest = span(KEY_BYTES as u32, VALUE_BYTES as u32) as usize;
    same(
        &rt,
        &(longest, ITEM_WORDS),
        &(MOST_SPAN, MOST_SPAN * ROW_WORDS),
    );
}
