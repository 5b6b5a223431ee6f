// Where the fields of a record stand, how wide they are, and what marks them.

/// The letters `LSML`, with which a record begins, as a little-endian number.
pub(crate) const MAGIC: u32 = 0x4c4d_534c;

/// Where the sequence number begins: after the letters.
pub(crate) const NUMBER_PLACE: usize = 4;

/// Where the count of the operations begins.
pub(crate) const COUNT_PLACE: usize = 12;

/// The bytes before the first operation: the letters, the sequence number and the count.
pub(crate) const FRONT_LEN: usize = 16;

/// Where an operation's type stands: after the length of its key.
pub(crate) const TYPE_PLACE: usize = 2;

/// Where the length of an operation's value begins.
pub(crate) const VALUE_LEN_PLACE: usize = 3;

/// The bytes before an operation's key: the key's length, the type and the value's length.
pub(crate) const HEAD_LEN: usize = 7;

/// The type of an operation that sets a value.
pub(crate) const SET_CODE: u8 = 0;

/// The type of one that removes its key.
pub(crate) const DEL_CODE: u8 = 1;

/// The type of one that removes its key weakly.
pub(crate) const WEAK_CODE: u8 = 2;
