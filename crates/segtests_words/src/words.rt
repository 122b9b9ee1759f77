//! Tables and texts that no contract has: hashes and words known from outside, and the limits.
use crate::pairs::key;
use crate::same::same;
use segword::{Chain, Info, Reading, Shape, ShapeFault, bucket_of, hash, same_item, tag_of};

#[test]
fn keys_have_their_published_hashes(rt: HostRuntime) {
    for (bytes, full, tag, bucket) in [
        (b"a".as_slice(), 0xaf63_dc4c_8601_ec8cu64, 0xaf6u16, 0u32),
        (b"b".as_slice(), 0xaf63_df4c_8601_f1a5, 0xaf6, 1),
        (b"c".as_slice(), 0xaf63_de4c_8601_eff2, 0xaf6, 2),
        (b"d".as_slice(), 0xaf63_d94c_8601_e773, 0xaf6, 3),
        (b"e".as_slice(), 0xaf63_d84c_8601_e5c0, 0xaf6, 0),
        (b"f".as_slice(), 0xaf63_db4c_8601_ead9, 0xaf6, 1),
        (b"foobar".as_slice(), 0x8594_4171_f739_67e8, 0x859, 0),
    ] {
        let found = hash(&key(&rt, bytes));
        same(
            &rt,
            &(found, tag_of(found), bucket_of(found, 4)),
            &(full, tag, bucket),
        );
    }
    // A hash with no top bits has the tag 1.
    let none = hash(&key(&rt, b"t94880"));
    let one = hash(&key(&rt, b"t39290"));
    same(&rt, &(none >> 52, one >> 52), &(0, 1));
    same(
        &rt,
        &[tag_of(none), tag_of(one), tag_of(u64::MAX)],
        &[1, 1, 4095],
    );
    // A bucket is what is left of the hash.
    let buckets = [
        bucket_of(u64::MAX, 65_536),
        bucket_of(u64::MAX, 1),
        bucket_of(10, 3),
    ];
    same(&rt, &buckets, &[65_535, 0, 1]);
}

// The other words and their readings are cases of `segrun word`, and the table's tests.
#[test]
fn words_have_their_parts(rt: HostRuntime) {
    // Items are told apart but for the frequency.
    let word = 0xaf60_1000_0020_0003;
    for (other, is_same) in [
        (0xaf6f_f000_0020_0003, true),
        (0xaf60_1000_0020_0004, false),
        (0xaf60_1000_0030_0003, false),
        (0xaf70_1000_0020_0003, false),
    ] {
        same(&rt, &(other, same_item(word, other)), &(other, is_same));
    }
    same(&rt, &same_item(1, 1), &false);
    // Information has no bit between.
    let held = Info {
        version: 5,
        held: true,
    };
    same(&rt, &held.pack(), &0x0000_0005_0000_0001);
    for word in [0x0000_0001_0000_0002, 0x0000_0001_8000_0000] {
        same(&rt, &Info::unpack(word), &None);
    }
    for word in [0x0001_0001, 0x000f_ffff_ffff_ffff] {
        same(
            &rt,
            &(Chain::unpack(word), Reading::unpack(word)),
            &(None, None),
        );
    }
}

#[test]
fn faults_have_texts_and_numbers(rt: HostRuntime) {
    let faults = [
        ShapeFault::BadBuckets,
        ShapeFault::BadOverflow,
        ShapeFault::BadPasses,
        ShapeFault::BadSegments,
        ShapeFault::BadRows,
        ShapeFault::TooLarge,
    ];
    let texts = [
        "the number of buckets is not a power of two, or is over 65536",
        "the number of overflow buckets is over 65536",
        "the number of passes is not 1 to 64",
        "the number of segments of a pass is not 1 to 1024",
        "the number of rows of a segment is not 1 to 4096",
        "the table would have over 67108864 words",
    ];
    for ((fault, text), number) in faults.into_iter().zip(texts).zip(1..=6u8) {
        let shown = format!(in rt.alloc(); "{fault}").expect(&rt, "memory");
        same(&rt, &(fault.number(), shown.as_str()), &(number, text));
    }
}

#[test]
fn a_shape_for_so_many_keys_has_room_to_spare(rt: HostRuntime) {
    for (keys, passes, buckets, segments_each, rows) in [
        (0, 1, 1, 64, 1),
        (64, 4, 32, 64, 1),
        (65, 1, 32, 64, 3),
        (51, 1, 16, 64, 2),
        (52, 1, 32, 64, 2),
        (100_000, 3, 32_768, 64, 1042),
        (425_984, 1, 65_536, 208, 4096),
        (425_984, 64, 65_536, 64, 208),
    ] {
        let shape = Shape {
            buckets,
            overflow: buckets,
            passes,
            segments_each,
            rows,
            first_version: 0,
        };
        same(&rt, &Shape::for_keys(keys, passes), &Ok(shape));
    }
    for (keys, passes, fault) in [
        (64, 0, ShapeFault::BadPasses),
        (64, 65, ShapeFault::BadPasses),
        (425_985, 64, ShapeFault::TooLarge),
    ] {
        same(&rt, &Shape::for_keys(keys, passes), &Err(fault));
    }
}
