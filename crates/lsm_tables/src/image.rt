// The content of a table's file: entries as bytes, and back.
//
// It is the letters `LSMT`, made-at in nanoseconds (u64), the count of the entries (u64), and the
// entries: key length (u16), sequence number (u64), type (u8), value length (u32), key, value.
// Numbers are little endian. Nothing follows.

mod layout;
mod limits;
mod open;
mod reading;
mod writing;

pub(crate) use layout::{FRONT_LEN, HEAD_LEN};
pub(crate) use limits::may_stand_behind;
pub use limits::{fits_image, is_writable};
pub use open::OpenImage;
pub(crate) use reading::decode_headed;
pub use reading::{decode, no_image_begins_another};
pub use writing::{encode, encode_parts};
