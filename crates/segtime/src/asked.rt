//! The command line.
use crate::mix::{Mix, Way, mix_named};
use segclient::Shape;

/// What is measured. Its words have places, as those of the programs in bench/common.
#[derive(Clone, Copy)]
pub struct Asked {
    /// Whether only the numbers of a shape are told, as it is planned for so many keys and threads.
    pub is_plan: bool,
    pub mix: Mix,
    pub way: Way,
    pub is_zipf: bool,
    pub keys: u32,
    pub threads: u32,
    /// How many commands each thread makes in a round.
    pub times: u32,
    /// Each command is timed whose number is a multiple of this; none is where it is 0. None: only counts are told.
    pub sample: Option<u32>,
    /// Whether puts keep what was got again.
    pub keeps: bool,
    pub shape: Shape,
}

fn word(words: &[String], place: usize) -> &str {
    words.get(place).map_or("", |word| word.as_str())
}

fn number(words: &[String], place: usize) -> Option<u32> {
    word(words, place).parse::<u32>().ok()
}

/// What the words behind the program's name ask.
pub fn asked_of(words: &[String]) -> Option<Asked> {
    let (name, draw) = (word(words, 0), word(words, 1));
    if draw != "zipf" && draw != "uniform" {
        return None;
    }
    let keys = number(words, 2)?;
    let threads = number(words, 3)?;
    let (mix, way) = mix_named(name)?;
    let is_plan = name == "plan";
    Some(Asked {
        is_plan,
        mix,
        way,
        is_zipf: draw == "zipf",
        keys,
        threads,
        times: if is_plan { 0 } else { number(words, 4)? },
        sample: number(words, 5),
        keeps: word(words, 6) != "nothing",
        shape: if is_plan {
            Shape::for_keys(keys, threads).ok()?
        } else {
            shape_of(words, keys, threads)?
        },
    })
}

// As it is asked for. Else it has two keys for each bucket, of which there are 65,536 at most, and as many
// overflow buckets. So no write needs room for long.
fn shape_of(words: &[String], keys: u32, threads: u32) -> Option<Shape> {
    let large = (keys / 2).min(65_536).next_power_of_two();
    let is_large = words.len() <= 7;
    Some(Shape {
        buckets: if is_large { large } else { number(words, 7)? },
        overflow: if is_large { large } else { number(words, 8)? },
        passes: threads,
        segments_each: if is_large {
            1024 / threads.max(4)
        } else {
            number(words, 9)?
        },
        rows: if is_large { 4096 } else { number(words, 10)? },
        first_version: 0,
    })
}
