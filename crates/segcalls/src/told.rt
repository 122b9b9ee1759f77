//! What calls answered, as words.
use segclient::{DeleteAnswer, PutAnswer, WriteAnswer};

/// All of them, in the order in which counts are written.
pub const WORDS: [&str; 12] = [
    "FOUND",
    "STORED",
    "NOT_STORED",
    "EXISTS",
    "NOT_FOUND",
    "DELETED",
    "MISS",
    "NO_ROOM",
    "BUCKET_FULL",
    "BUSY",
    "TOO_LONG",
    "NO_SUCH_CALL",
];

pub fn of_put(told: PutAnswer) -> &'static str {
    match told {
        PutAnswer::Stored => "STORED",
        PutAnswer::NoRoom => "NO_ROOM",
        PutAnswer::BucketFull => "BUCKET_FULL",
        PutAnswer::Busy => "BUSY",
    }
}

pub fn of_write(told: WriteAnswer) -> &'static str {
    match told {
        WriteAnswer::Stored => "STORED",
        WriteAnswer::NotStored => "NOT_STORED",
        WriteAnswer::Exists => "EXISTS",
        WriteAnswer::NotFound => "NOT_FOUND",
        WriteAnswer::NoRoom => "NO_ROOM",
        WriteAnswer::BucketFull => "BUCKET_FULL",
        WriteAnswer::Busy => "BUSY",
    }
}

pub fn of_delete(told: DeleteAnswer) -> &'static str {
    match told {
        DeleteAnswer::Deleted => "DELETED",
        DeleteAnswer::NotFound => "NOT_FOUND",
        DeleteAnswer::Busy => "BUSY",
    }
}
