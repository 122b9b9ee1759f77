//! How an answer is counted, by clients and by loads.
ghost use Rattle.std.specs.Prelude.{◌≡◌};
ghost use Rattle.segtally.specs.Tallies.{delete_tally, get_tally, gets_into_tally, gets_tally};
ghost use Rattle.segtally.specs.Tallies.{into_tally, write_tally};

use segindex::{GetsIntoAnswer, IntoAnswer};
use segmodel::{DeleteAnswer, GetAnswer, GetsAnswer, WriteAnswer};

/// The outcome of a call.
#[derive(Clone, Copy, Debug, PartialEq, Eq)]
pub enum Tally {
    /// A get or a gets found its key.
    Hit,
    /// A get or a gets didn't find its key.
    Miss,
    Stored,
    NotStored,
    Exists,
    /// A cas or a delete didn't find its key.
    NotFound,
    Deleted,
    NoRoom,
    BucketFull,
    Busy,
}

impl Tally {
    /// How an answer to a get is counted.
    pub fn of_get(told: &GetAnswer) -> Tally
        ensures { result ≡ get_tally told.now }
    {
        match told {
            GetAnswer::Found(_) => Tally::Hit,
            GetAnswer::Miss => Tally::Miss,
            GetAnswer::Busy => Tally::Busy,
        }
    }

    /// How an answer to a get is counted whose value goes into a buffer.
    pub fn of_into(told: &IntoAnswer) -> Tally
        ensures { result ≡ into_tally told.now }
    {
        match told {
            IntoAnswer::Found(_) | IntoAnswer::Short(_) => Tally::Hit,
            IntoAnswer::Miss => Tally::Miss,
            IntoAnswer::Busy => Tally::Busy,
        }
    }

    /// How an answer to a gets is counted.
    pub fn of_gets(told: &GetsAnswer) -> Tally
        ensures { result ≡ gets_tally told.now }
    {
        match told {
            GetsAnswer::Found(_, _) => Tally::Hit,
            GetsAnswer::Miss => Tally::Miss,
            GetsAnswer::Busy => Tally::Busy,
        }
    }

    /// How an answer to a gets is counted whose value goes into a buffer.
    pub fn of_gets_into(told: &GetsIntoAnswer) -> Tally
        ensures { result ≡ gets_into_tally told.now }
    {
        match told {
            GetsIntoAnswer::Found(_, _) | GetsIntoAnswer::Short(_, _) => Tally::Hit,
            GetsIntoAnswer::Miss => Tally::Miss,
            GetsIntoAnswer::Busy => Tally::Busy,
        }
    }

    /// How an answer to a write is counted.
    pub fn of_write(told: WriteAnswer) -> Tally
        ensures { result ≡ write_tally told }
    {
        match told {
            WriteAnswer::Stored => Tally::Stored,
            WriteAnswer::NotStored => Tally::NotStored,
            WriteAnswer::Exists => Tally::Exists,
            WriteAnswer::NotFound => Tally::NotFound,
            WriteAnswer::NoRoom => Tally::NoRoom,
            WriteAnswer::BucketFull => Tally::BucketFull,
            WriteAnswer::Busy => Tally::Busy,
        }
    }

    /// How an answer to a delete is counted.
    pub fn of_delete(told: DeleteAnswer) -> Tally
        ensures { result ≡ delete_tally told }
    {
        match told {
            DeleteAnswer::Deleted => Tally::Deleted,
            DeleteAnswer::NotFound => Tally::NotFound,
            DeleteAnswer::Busy => Tally::Busy,
        }
    }
}
