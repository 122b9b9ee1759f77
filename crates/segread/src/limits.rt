//! What a reader may count on in a table with limits. The function does nothing: its contract is
//! the law.
ghost use Rattle.segread.specs.Limits.{GetIsNeverShort, GetsIsNeverShort, HeldIsNeverShort};

/// A buffer that has room for the longest value of the table is never too short.
pub fn never_short()
    ensures get { GetIsNeverShort }
    ensures gets { GetsIsNeverShort }
    ensures held { HeldIsNeverShort }
{}
