// The counter of sequence numbers, and which of them a snapshot sees.
ghost use Rattle.std.specs.Prelude.{◌≡◌, ◌+◌, ◌<◌, ◌≤◌, ◌↔◌, max, nat_lt, IfOk, IfErr, OnOk, OnErr, IsErrOf};

use crate::{Error, LIMIT};
use lsm_below::SeqNo;
use std::marker::Model;

/// A counter of sequence numbers: the next one that it gives.
///
/// # Examples
///
/// ```text
/// let mut counter = SequenceNumberCounter::new(5);
/// let number = counter.next()?; // 5, and the counter stands at 6
/// ```
#[derive(Drop, Debug)]
pub struct SequenceNumberCounter {
    next: SeqNo,
}

impl Model for SequenceNumberCounter {
    ghost use Rattle.std.specs.Prelude.{ℕ};

    ghost Value = { ℕ };

    ghost view = { λ c. c.next };
}

impl SequenceNumberCounter {
    /// A counter that starts at a sequence number.
    pub fn new(prev: SeqNo) -> SequenceNumberCounter
        ensures { result ≡ prev }
    {
        SequenceNumberCounter { next: prev }
    }

    /// The sequence number that `next` would give.
    pub fn get(&self) -> SeqNo
        ensures { result ≡ self.now }
    {
        self.next
    }

    /// The next number, which is used then. At 2^63 or above it is `OutOfNumbers`, and nothing changes.
    pub fn next(&mut self) -> Result<SeqNo, Error>
        ensures ok { IfOk result (λ n. n ≡ self.old) }
        ensures used { OnOk result (self.new ≡ self.old + 1) }

        ensures err { OnErr result (self.new ≡ self.old) }
        ensures out_of_numbers { IsErrOf result Error.OutOfNumbers ↔ LIMIT ≤ self.old }
        ensures only { IfErr result (λ e. e ≡ Error.OutOfNumbers) }
    {
        let number = self.next;
        if number >= LIMIT {
            return Err(Error::OutOfNumbers);
        }
        self.next = number + 1;
        Ok(number)
    }

    /// Goes on from a sequence number, which may be a lower one.
    pub fn set(&mut self, seqno: SeqNo)
        ensures { self.new ≡ seqno }
    {
        self.next = seqno;
    }

    /// Goes on from a sequence number, unless it stands at a greater one.
    pub fn fetch_max(&mut self, seqno: SeqNo)
        ensures { self.new ≡ max self.old seqno }
    {
        self.next = self.next.max(seqno);
    }
}

impl Default for SequenceNumberCounter {
    ghost is_default = { λ c. c ≡ 0 };

    fn default() -> SequenceNumberCounter {
        SequenceNumberCounter::new(0)
    }
}

/// Whether a snapshot sees what has this sequence number: it is below the snapshot.
pub fn seqno_filter(item_seqno: SeqNo, snapshot: SeqNo) -> bool
    ensures { result ≡ nat_lt item_seqno snapshot }
{
    item_seqno < snapshot
}
