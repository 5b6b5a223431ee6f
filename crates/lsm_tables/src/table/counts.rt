// What is counted of a table's entries.
ghost use Rattle.std.specs.Prelude.{◌≡◌, ◌+◌, ◌<◌, ◌^◌, ◌∷◌, length, cond};
ghost use Rattle.std.specs.List.{AllByRecursion};
ghost use Rattle.lsm_below.specs.Entries.{HasBytes, is_value, is_weak};
ghost use Rattle.lsm_tables.specs.Tables.{IsCountOf, stands_on_value};

use lsm_below::{InternalValue, SeqNo, ValueType, has_same_key, slices_hold_bytes};

/// What is counted of entries, in one walk over them.
#[derive(Clone, Copy)]
pub(super) struct Counts {
    /// The greatest sequence number, 0 where there is no entry.
    pub(super) highest: SeqNo,
    /// How many entries remove their key, weakly or not.
    pub(super) tombstones: usize,
    /// How many remove it weakly.
    pub(super) weak: usize,
    /// How many weak tombstones stand directly above a value of their key.
    pub(super) reclaimable: usize,
}

fn is_a_value(entry: &InternalValue) -> bool
    ensures { result ≡ is_value entry.now }
{
    matches!(entry.key.value_type, ValueType::Value)
}

fn is_weak_tombstone(entry: &InternalValue) -> bool
    ensures { result ≡ is_weak entry.now }
{
    matches!(entry.key.value_type, ValueType::WeakTombstone)
}

/// Whether an entry is a weak tombstone directly above a value of its key.
fn is_above_value(entry: &InternalValue, behind: &[InternalValue]) -> bool
    ensures { result ≡ stands_on_value entry.now behind.now }
{
    match behind.first() {
        Some(next) => is_weak_tombstone(entry) && has_same_key(entry, next) && is_a_value(next),
        None => false,
    }
}

fn one_if(counts: bool) -> usize
    ensures { result ≡ cond counts 1 0 }
{
    if counts { 1 } else { 0 }
}

/// The counts with one more entry, in front of those that were counted.
fn with_entry(entry: &InternalValue, behind: &[InternalValue], counts: Counts) -> Counts
    requires counts { IsCountOf behind.now counts }
    requires room { length behind.now + 1 < 2 ^ 64 }
    ensures { IsCountOf (entry.now ∷ behind.now) result }
{
    Counts {
        highest: entry.key.seqno.max(counts.highest),
        tombstones: counts.tombstones + one_if(entry.is_tombstone()),
        weak: counts.weak + one_if(is_weak_tombstone(entry)),
        reclaimable: counts.reclaimable + one_if(is_above_value(entry, behind)),
    }
}

/// The numbers of an entry's key are those of bytes.
fn see_bytes(entry: &InternalValue)
    ensures { HasBytes entry.now }
{
    slices_hold_bytes(entry.key.user_key.as_slice());
}

/// Counts entries, from the last one to the first.
pub(super) fn count(entries: &[InternalValue]) -> Counts
    ensures counts { IsCountOf entries.now result }
    ensures bytes { AllByRecursion HasBytes entries.now }
{
    let mut counts = Counts {
        highest: 0,
        tombstones: 0,
        weak: 0,
        reclaimable: 0,
    };
    let mut at = entries.len();
    while at > 0 {
        see_bytes(&entries[at - 1]);
        counts = with_entry(&entries[at - 1], &entries[at..], counts);
        at -= 1;
    }
    counts
}
