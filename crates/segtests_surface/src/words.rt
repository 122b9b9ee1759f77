//! The forms of keys, values, words and shapes, and of what a policy computes.
use crate::same::same;
use segpolicy::{Kind, Load, Ring, Workload, next_frequency};
use segword::{
    Chain, Info, Item, Key, Shape, ShapeFault, Value, bucket_of, hash, read_row, row_words,
    same_item, tag_of,
};

#[test]
fn calls_on_words_keep_their_forms(_rt: HostRuntime) {
    let _: fn(&[u8]) -> Option<Key> = Key::new;
    let _: fn(&[u8]) -> Option<Value> = Value::new;
    let _: fn(&Key) -> u64 = hash;
    let _: fn(u64) -> u16 = tag_of;
    let _: fn(u64, u32) -> u32 = bucket_of;
    let _: fn(Item) -> u64 = Item::pack;
    let _: fn(u64) -> Option<Item> = Item::unpack;
    let _: fn(u64, u64) -> bool = same_item;
    let _: fn(u32) -> u64 = Chain::pack;
    let _: fn(u64) -> Option<u32> = Chain::unpack;
    let _: fn(Info) -> u64 = Info::pack;
    let _: fn(u64) -> Option<Info> = Info::unpack;
    let _: fn(&Key, &Value) -> [u64; 8] = row_words;
    let _: fn(&[u64; 8]) -> Option<(Key, Value)> = read_row;
    let _: fn(&Shape) -> Result<(), ShapeFault> = Shape::check;
}

#[test]
fn calls_of_a_policy_keep_their_forms(_rt: HostRuntime) {
    let _: fn(u8, u32) -> u8 = next_frequency;
    let _: fn(u32, u32) -> Ring = Ring::new;
    let _: fn(&mut Ring) -> u32 = Ring::next;
    let _: fn(u64, u32) -> Workload = Workload::new;
    let _: fn(u64, u32, u32) -> Workload = Workload::with_keys;
    let _: fn(&mut Workload) -> Load = Workload::next;
}

// The number of a kind, from 0.
fn number_of_kind(kind: Kind) -> u8 {
    match kind {
        Kind::Get => 0,
        Kind::Gets => 1,
        Kind::Set => 2,
        Kind::Add => 3,
        Kind::Replace => 4,
        Kind::Cas => 5,
        Kind::Delete => 6,
    }
}

// The numbers of a shape, in their order.
fn numbers_of_shape(shape: Shape) -> [u32; 6] {
    let Shape {
        buckets,
        overflow,
        passes,
        segments_each,
        rows,
        first_version,
    } = shape;
    [
        buckets,
        overflow,
        passes,
        segments_each,
        rows,
        first_version,
    ]
}

#[test]
fn words_keep_their_fields(rt: HostRuntime) {
    let shape = Shape {
        buckets: 1,
        overflow: 2,
        passes: 3,
        segments_each: 4,
        rows: 5,
        first_version: 6,
    };
    same(&rt, &numbers_of_shape(shape), &[1, 2, 3, 4, 5, 6]);
    let Info { version, held } = Info {
        version: 5,
        held: true,
    };
    same(&rt, &(version, held), &(5u32, true));
    let item = Item::unpack(0xaf60_1000_0020_0003).expect(&rt, "an item");
    let fields: (u16, u8, u32, u32) = (item.tag, item.freq, item.seg, item.row);
    same(&rt, &fields, &(0xaf6, 1, 2, 3));
    let Load {
        kind,
        key,
        value,
        draw,
    } = Workload::new(7, 0).next();
    same(&rt, &(number_of_kind(kind), draw), &(0, 2_740_157_135u32));
    let pair: (&[u8], &[u8]) = (key.as_bytes(), value.as_bytes());
    same(&rt, &pair, &(b"k17".as_slice(), b"2740157135".as_slice()));
}
