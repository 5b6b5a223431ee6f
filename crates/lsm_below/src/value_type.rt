// What an entry does to its key.

/// What an entry does to its key.
#[derive(Clone, Copy, Debug, PartialEq, Eq)]
pub enum ValueType {
    /// The key has the entry's value.
    Value,
    /// The key is removed.
    Tombstone,
    /// The key is removed, and at most one value of it was ever written.
    WeakTombstone,
}
