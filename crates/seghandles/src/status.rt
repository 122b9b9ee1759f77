//! The statuses of the exports, and the number of each.
ghost use Rattle.std.specs.Prelude.{◌≡◌};
ghost use Rattle.seghandles.specs.Status.{number_of};

/// What an export returns.
#[derive(Clone, Copy, Debug, PartialEq, Eq)]
pub enum Status {
    Ok,
    /// The key is absent.
    Miss,
    Busy,
    NoRoom,
    BucketFull,
    NotStored,
    Exists,
    NotFound,
    /// A key has 1 to `KEY_BYTES` bytes.
    BadKey,
    /// A value has at most `VALUE_BYTES` bytes.
    BadValue,
    /// The value has more bytes than the buffer.
    ShortBuffer,
    BadShape,
    OutOfMemory,
    /// The handle is empty, or of another kind; or one that has to be empty is in use.
    NoHandle,
    AlreadyHolding,
    NotHolding,
    /// A client of the cache is not given back.
    ClientOut,
    /// The cache has no place for the client.
    Foreign,
    /// No pair is left.
    End,
}

impl Status {
    /// The number that C has for it.
    pub(crate) fn number(self) -> u32
        ensures { result ≡ number_of self }
    {
        match self {
            Status::Ok => 0,
            Status::Miss => 1,
            Status::Busy => 2,
            Status::NoRoom => 3,
            Status::BucketFull => 4,
            Status::NotStored => 5,
            Status::Exists => 6,
            Status::NotFound => 7,
            Status::BadKey => 8,
            Status::BadValue => 9,
            Status::ShortBuffer => 10,
            Status::BadShape => 11,
            Status::OutOfMemory => 12,
            Status::NoHandle => 13,
            Status::AlreadyHolding => 14,
            Status::NotHolding => 15,
            Status::ClientOut => 16,
            Status::Foreign => 17,
            Status::End => 18,
        }
    }
}
