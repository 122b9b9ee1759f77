//! How many rows items take on the mean, and shapes with room for items of so many rows.
ghost use Rattle.std.specs.Prelude.{◌≡◌, ◌*◌, ◌≤◌};
ghost use Rattle.std.specs.Int.{IsInRange};
ghost use Rattle.segshards.specs.Items.{IsShapeForItems, mean_rows, most_of_item, rows_of_mean};

use segclient::Shape;
use segword::Limits;

// How many rows an item takes at most.
fn most_of_item() -> u32
    ensures { result ≡ most_of_item }
{
    Limits::longest().most_rows()
}

/// So many rows an item is taken to have where nobody says how long items are: four, where an
/// item can have as many.
pub(crate) fn mean_rows() -> u32
    ensures { result ≡ mean_rows }
{
    most_of_item().min(4)
}

/// How many rows an item takes whose key and value have so many bytes together, about: one for
/// each 64 bytes, of which eight have the lengths. It is 64 at most, and no more than the longest
/// item takes.
pub fn rows_of_mean(bytes: u32) -> u32
    ensures rows { result ≡ rows_of_mean bytes }
    ensures few { IsInRange 1 64 result }
{
    (bytes.min(4_088) + 8).div_ceil(64).min(most_of_item())
}

// A shape in which so many items have room to spare that take so many rows each.
pub(crate) fn shape_for_items(items: u32, rows_each: u32, threads: u32) -> Shape
    requires some { 1 ≤ rows_each }
    requires few { items * rows_each ≤ 262208 }
    requires threads { IsInRange 1 64 threads }
    ensures shape { IsShapeForItems items rows_each threads result }
{
    let rows = Shape::for_keys(items * rows_each, threads).unwrap();
    if rows_each == 1 {
        return rows;
    }
    let chains = Shape::for_keys(items, threads).unwrap();
    Shape {
        buckets: chains.buckets,
        overflow: chains.overflow,
        ..rows
    }
}
