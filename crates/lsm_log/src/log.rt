// Which records a log has.

use lsm_below::SeqNo;

/// The numbers of a log's records, below a number and from it on.
#[derive(Drop)]
pub struct LogNumbers {
    /// The numbers of the records below it, rising. They aren't read.
    pub passed: Vec<SeqNo>,
    /// The numbers of the records from it on, rising. Each was read.
    pub numbers: Vec<SeqNo>,
}
