//! When a write stores.

/// When a write stores its value.
#[derive(Clone, Copy, Debug, Drop, PartialEq, Eq)]
pub enum Condition {
    /// In any case: a set.
    Always,
    /// If the key is absent: an add.
    IfAbsent,
    /// If the key is present: a replace.
    IfPresent,
    /// If the key is present and its bucket still has this version: a cas.
    IfVersion(u32),
}
