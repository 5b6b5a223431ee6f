// The indexes of slots, as a heap: the slot that stands first is at the top.

ghost use Rattle.std.specs.Prelude.{◌≡◌, ◌+◌, ◌*◌, ◌<◌, ◌≤◌, ℕ, false, length, map, slice_index, option_map};
ghost use Rattle.std.specs.List.{All};
ghost use Rattle.std.specs.List.Sorted.{IsPermutation};
ghost use Rattle.lsm_below.specs.Slots.{slot_before, IsHeapFrom};

use crate::slot::{Slot, goes_before};
use crate::source::Source;

/// Whether the slot at one index stands before that at another: by their heads, and where these tie, by the indexes.
fn stands_ahead<S: Source>(slots: &[Slot<S>], index: usize, other: usize) -> bool
    requires { (index < length slots.now) × (other < length slots.now) }
    ensures { result ≡ slot_before (map (λ s. option_map S.Item.shows s.head) slots.now) index other }
{
    if index < other {
        !goes_before(&slots[other].head, &slots[index].head)
    } else {
        goes_before(&slots[index].head, &slots[other].head)
    }
}

/// Of the two places below one, or of the one that there is, the one whose slot stands first.
fn first_below<S: Source>(slots: &[Slot<S>], order: &[usize], place: usize) -> usize
    requires inside { All (λ i. i < length slots.now) order.now }
    requires there { place * 2 + 1 < length order.now }
    ensures bounds { (place * 2 + 1 ≤ result) × (result ≤ place * 2 + 2) × (result < length order.now) }
    ensures first { (k : ℕ) → place * 2 + 1 ≤ k → k ≤ place * 2 + 2 → k < length order.now
        → slot_before (map (λ s. option_map S.Item.shows s.head) slots.now) (slice_index order.now k) (slice_index order.now result) ≡ false }
{
    let left = place * 2 + 1;
    let right = left + 1;
    if right < order.len() && stands_ahead(slots, order[right], order[left]) {
        right
    } else {
        left
    }
}

/// Moves the index at a place down, until none of those below it stands before it.
pub fn sink<S: Source>(slots: &[Slot<S>], order: &mut [usize], place: usize)
    requires { All (λ i. i < length slots.now) order.old }
    ensures same { IsPermutation order.old order.new }
    ensures above { (p : ℕ) → p < place → slice_index order.new p ≡ slice_index order.old p }
    ensures heap { IsHeapFrom (slot_before (map (λ s. option_map S.Item.shows s.head) slots.now)) (place + 1) order.old
        → IsHeapFrom (slot_before (map (λ s. option_map S.Item.shows s.head) slots.now)) place order.new }
{
    let mut at = place;
    while at < order.len() / 2 {
        let below = first_below(slots, order, at);
        if !stands_ahead(slots, order[below], order[at]) {
            return;
        }
        order.swap(at, below);
        at = below;
    }
}
