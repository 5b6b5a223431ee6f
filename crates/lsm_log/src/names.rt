// The names of records, spelled without memory.
ghost use Rattle.std.specs.Prelude.{◌≡◌};
ghost use Rattle.lsm_log.specs.LogNames.{record_name};

use arrayvec::ArrayString;
use itoa::Buffer;
use lsm_below::SeqNo;

/// A name of at most 32 bytes: no growth is asked for it.
pub type RecordName = ArrayString<32>;

/// The name of a record's file, in the folder `log`.
///
/// ```text
/// store.remove(record_name(number).as_str())?;
/// ```
pub fn record_name(number: SeqNo) -> RecordName
    ensures { result.bytes ≡ record_name number }
{
    let mut digits = Buffer::new();
    let mut name = RecordName::new();
    name.push_str("log/");
    name.push_str(digits.format(number));
    name
}
