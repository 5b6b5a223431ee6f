// How long keys and values may be, and what an entry counts beside them.

/// The most bytes that a user key has: its length takes two bytes in a table's file.
pub const MAX_KEY_LEN: usize = 65_535;

/// The most bytes that a value has: its length takes four bytes in a table's file.
pub const MAX_VALUE_LEN: usize = 4_294_967_295;

/// The bytes that an entry of a memtable counts beside its key's and its value's.
///
/// It is the project's own constant, so that sizes are the same on every machine, and no
/// measurement of memory.
pub const ENTRY_OVERHEAD: u64 = 48;
