// The heads of a table's keys, by which look-ups go.
ghost use Rattle.std.specs.Prelude.{◌≡◌, ℕ, ◌-◌, ◌<◌, ◌≤◌, length, take, drop, not, true, false, option_copied, slice_index_or};
ghost use Rattle.lsm_below.specs.declared.value.InternalValue.{InternalValue};
ghost use Rattle.lsm_below.specs.Entries.{entry_cmp};
ghost use Rattle.std.specs.List.{AllByRecursion};
ghost use Rattle.std.specs.List.Sorted.{IsPartitionPoint};
ghost use Rattle.lsm_below.specs.Lookups.{is_visible, stands_before, is_from, is_to, within};
ghost use Rattle.lsm_tables.specs.Image.{Fits};
ghost use Rattle.lsm_below.specs.Sorted.{Rises, first};
ghost use Rattle.lsm_below.specs.Heads.{key_head, AreHeads};

use lsm_below::{Headed, InternalValue, SeqNo, UserKey, entries_are_parted, head_of};
use std::ops::Bound;

/// Above all sequence numbers: all entries of a key are below it.
const ABOVE_ALL: u128 = 18_446_744_073_709_551_616;

/// How many entries come before each entry of the key with a sequence number below this.
fn place_below(
    heads: &[u128],
    entries: &[InternalValue],
    head: u128,
    key: &[u8],
    number: u128,
) -> usize
    requires heads { AreHeads heads.now entries.now }
    requires rises { Rises entry_cmp entries.now }
    requires head { head ≡ key_head key.now }
    ensures bound { result ≤ length entries.now }
    ensures before { (j : ℕ) (d : InternalValue) → j < result → stands_before key.now number (slice_index_or entries.now j d) ≡ true }
    ensures behind { (j : ℕ) (d : InternalValue) → result ≤ j → j < length entries.now → stands_before key.now number (slice_index_or entries.now j d) ≡ false }
{
    entries_are_parted();
    let mut low = 0;
    let mut high = entries.len();
    while low < high {
        let mid = low + (high - low) / 2;
        if Headed::at(heads, entries, mid).is_ahead(head, key, number) {
            low = mid + 1;
        } else {
            high = mid;
        }
    }
    low
}

/// The first entry of a key below the snapshot.
pub(super) fn find<'a>(
    heads: &[u128],
    entries: &'a [InternalValue],
    key: &[u8],
    snapshot: SeqNo,
) -> Option<&'a InternalValue>
    requires heads { AreHeads heads.now entries.now }
    requires rises { Rises entry_cmp entries.now }
    ensures { option_copied result ≡ first (is_visible key.now snapshot) entries.now }
{
    entries_are_parted();
    let head = head_of(key);
    let at = place_below(heads, entries, head, key, snapshot as u128);
    if at == entries.len() {
        return None;
    }
    let entry = Headed::at(heads, entries, at);
    if entry.has_key(head, key) {
        Some(entry.entry())
    } else {
        None
    }
}

/// How many entries come before those within a lower bound.
fn lower_place(heads: &[u128], entries: &[InternalValue], bound: &Bound<UserKey>) -> usize
    requires heads { AreHeads heads.now entries.now }
    requires rises { Rises entry_cmp entries.now }
    requires each { AllByRecursion Fits entries.now }
    ensures bound { result ≤ length entries.now }
    ensures parts { IsPartitionPoint (λ e. not (is_from bound.now e.key.user_key) ≡ true) (λ e. not (is_from bound.now e.key.user_key) ≡ false) entries.now result }
{
    match bound {
        Bound::Included(low) => {
            let key = low.as_slice();
            place_below(heads, entries, head_of(key), key, ABOVE_ALL)
        }
        Bound::Excluded(low) => {
            let key = low.as_slice();
            place_below(heads, entries, head_of(key), key, 0)
        }
        Bound::Unbounded => 0,
    }
}

/// How many entries come before those past an upper bound.
fn upper_place(heads: &[u128], entries: &[InternalValue], bound: &Bound<UserKey>) -> usize
    requires heads { AreHeads heads.now entries.now }
    requires rises { Rises entry_cmp entries.now }
    requires each { AllByRecursion Fits entries.now }
    ensures bound { result ≤ length entries.now }
    ensures parts { IsPartitionPoint (λ e. is_to bound.now e.key.user_key ≡ true) (λ e. is_to bound.now e.key.user_key ≡ false) entries.now result }
{
    match bound {
        Bound::Included(high) => {
            let key = high.as_slice();
            place_below(heads, entries, head_of(key), key, 0)
        }
        Bound::Excluded(high) => {
            let key = high.as_slice();
            place_below(heads, entries, head_of(key), key, ABOVE_ALL)
        }
        Bound::Unbounded => entries.len(),
    }
}

/// From where, and up to where without it, the entries in the bounds stand.
pub(super) fn places(
    heads: &[u128],
    entries: &[InternalValue],
    lower: &Bound<UserKey>,
    upper: &Bound<UserKey>,
) -> (usize, usize)
    requires heads { AreHeads heads.now entries.now }
    requires rises { Rises entry_cmp entries.now }
    requires each { AllByRecursion Fits entries.now }
    ensures in_order { result.0 ≤ result.1 }
    ensures inside { result.1 ≤ length entries.now }
    ensures within { take (result.1 - result.0) (drop result.0 entries.now) ≡ within lower.now upper.now entries.now }
{
    entries_are_parted();
    let end = upper_place(heads, entries, upper);
    let start = lower_place(heads, entries, lower);
    (start.min(end), end)
}
