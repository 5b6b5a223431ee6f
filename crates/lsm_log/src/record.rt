// What a record of the log tells.

use lsm_below::SeqNo;
use lsm_model::Ops;

/// What a record of the log tells: a batch, and the sequence number of its writes.
#[derive(Drop, Debug)]
pub struct Record {
    /// The sequence number, which is also the record's name.
    pub number: SeqNo,
    /// The writes of the batch.
    pub ops: Ops,
}
