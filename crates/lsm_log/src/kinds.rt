// What a name of a store is to a log.
ghost use Rattle.std.specs.Prelude.{◌≡◌};
ghost use Rattle.lsm_log.specs.LogNames.{kind_in_log, kind_of, is_refused, number_in};

use lsm_below::parse_number;

/// From this number on there are no records.
const LIMIT: u64 = 9_223_372_036_854_775_808;

/// What a name of a store is to a log.
#[derive(Clone, Copy, Debug, PartialEq, Eq)]
pub enum LogName {
    /// The file of the record with this number.
    RecordFile(u64),
    /// In the folder of the log, and passed over.
    Skipped,
    /// In the folder of the log, and no name that a log gives.
    Refused,
    /// Another name.
    Other,
}

#[tactic(auto, unfolding(crate::specs::LogNames::kind_in_log))]
fn kind_in_log(text: &[u8]) -> LogName
    ensures { result ≡ kind_in_log text.now }
{
    if text == b".DS_Store".as_slice() || text.starts_with(b"._") {
        return LogName::Skipped;
    }
    match parse_number(text) {
        Some(number) if number < LIMIT => LogName::RecordFile(number),
        _ => LogName::Refused,
    }
}

/// What a name of a store is to a log.
#[tactic(auto, unfolding(crate::specs::LogNames::kind_of))]
pub fn kind_of(name: &[u8]) -> LogName
    ensures { result ≡ kind_of name.now }
{
    if name.starts_with(b"log/") {
        return kind_in_log(&name[4..]);
    }
    LogName::Other
}

/// Whether a log refuses the name.
pub(crate) fn is_refused(name: &[u8]) -> bool
    ensures { result ≡ is_refused name.now }
{
    match kind_of(name) {
        LogName::Refused => true,
        LogName::RecordFile(_) | LogName::Skipped | LogName::Other => false,
    }
}

/// The number of the record whose file has the name.
pub(crate) fn number_in(name: &[u8]) -> Option<u64>
    ensures { result ≡ number_in name.now }
{
    match kind_of(name) {
        LogName::RecordFile(number) => Some(number),
        LogName::Skipped | LogName::Refused | LogName::Other => None,
    }
}
