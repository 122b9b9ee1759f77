//! Numbers in turn, as those of the segments that a pass clears one after another.
ghost use Rattle.std.specs.Prelude.{◌≡◌, ℕ, ◌+◌, ◌%◌, ◌^◌, ◌<◌, ◌≤◌, ◌==◌, slice_index, count_by};
ghost use Rattle.segpolicy.specs.Cycle.{next_of, turned, answers};

use std::marker::Model;

/// The numbers `first`, `first + 1`, .. of which there are `count`, taken in turn and over again.
#[derive(Debug, Drop)]
pub struct Ring {
    first: u32,
    count: u32,
    given: u32,
}

impl Model for Ring {
    ghost use Rattle.std.specs.Prelude.{◌+◌, ◌^◌, ◌<◌};
    ghost use Rattle.segpolicy.specs.Cycle.{Cycle};

    ghost Value = { Cycle };

    ghost view = { λ ring. record { first = ring.first; count = ring.count; given = ring.given } };

    ghost invariant = { λ ring. (ring.given < ring.count) × (ring.first + ring.count < 2 ^ 32) };
}

impl Ring {
    /// The ring of `count` numbers from `first` on, which is returned first.
    pub fn new(first: u32, count: u32) -> Ring
        requires not_empty { 1 ≤ count }
        requires fits { first + count < 2 ^ 32 }
        ensures { result ≡ record { first = first; count = count; given = 0 } }
    {
        Ring {
            first,
            count,
            given: 0,
        }
    }

    /// The number that is next, which stays so.
    pub fn peek(&self) -> u32
        ensures value { result ≡ next_of self.now }
        ensures in_range { (self.now.first ≤ result)
            × (result < self.now.first + self.now.count) }
    {
        self.first + self.given
    }

    /// The next number.
    pub fn next(&mut self) -> u32
        ensures value { result ≡ next_of self.old }
        ensures turned { self.new ≡ turned self.old }
        ensures in_range { (self.old.first ≤ result)
            × (result < self.old.first + self.old.count) }
    {
        let number = self.first + self.given;
        self.given += 1;
        if self.given == self.count {
            self.given = 0;
        }
        number
    }
}

/// The law of rings.
/// Call `i` from now on, counted from 0, returns the number `i` places on,
/// and of as many calls in a row as the ring has numbers, exactly one returns each number.
pub fn each_number_comes_once(ring: &Ring)
    ensures in_order { (n i : ℕ) → i < n
        → slice_index (answers n ring.now) i
        ≡ ring.now.first + (ring.now.given + i) % ring.now.count }
    ensures once { (number : ℕ) → ring.now.first ≤ number
        → number < ring.now.first + ring.now.count
        → count_by (λ answer. answer == number) (answers ring.now.count ring.now) ≡ 1 }
{
    // Reading a field hands the proof what every ring keeps.
    let _given = ring.given;
}
