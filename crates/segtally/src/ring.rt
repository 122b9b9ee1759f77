//! The ring of a pass's own segments, for clients and for loads.
ghost use Rattle.std.specs.Prelude.{◌≡◌};
ghost use Rattle.segbase.specs.Words.{number};
ghost use Rattle.segindex.specs.Words.{board_of, shape_of};
ghost use Rattle.segstore.specs.Words.{IsQuiet};
ghost use Rattle.segtally.specs.Rings.{first_ring, IsOwnRing};

use segindex::{Index, Pass};
use segpolicy::Ring;

/// The segments of the pass in turn. Its first one is given up first.
pub fn own_ring(index: &Index, pass: &Pass) -> Ring
    requires quiet { IsQuiet (board_of index.now) pass.now }
    ensures first { result ≡ first_ring (shape_of index.now) (number pass.now) }
    ensures own { IsOwnRing (shape_of index.now) (number pass.now) result }
{
    let segments = index.shape().segments_each;
    Ring::new(pass.number() * segments, segments)
}
