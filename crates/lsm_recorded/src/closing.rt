// Whether passes list a journal.
ghost use Rattle.std.specs.Prelude.{◌≡◌, ◌<◌, ◌+◌, length, Some, IfOk, IsTrue, slice_get, slice_set, true, false, slice_index_or};
ghost use Rattle.std.specs.List.{All};
ghost use Rattle.lsm_recorded.specs.Closing.{IsPassOf, ListTogether};
ghost use Rattle.lsm_recorded.specs.Ticks.{Finds, FindsAll};

use crate::pass::Pass;
use crate::shared_entry::SharedEntry;
use lsm_journal::same_entry;
use std::alloc::{AllocError, Global};

/// Ticks a place off where this entry stands, if it wasn't ticked before.
fn tick(journal: &[SharedEntry], ticked: &mut [bool], place: usize, entry: &SharedEntry) -> bool
    requires { length ticked.old ≡ length journal.now }
    ensures there { IsTrue result → slice_get journal.now place ≡ Some entry.now }
    ensures new { IsTrue result → slice_index_or ticked.old place true ≡ false }
    ensures ticked { IsTrue result → ticked.new ≡ slice_set ticked.old place true }
{
    let Some(stands) = journal.get(place) else {
        return false;
    };
    if ticked[place] || !same_entry(stands.as_entry(), entry.as_entry()) {
        return false;
    }
    ticked[place] = true;
    true
}

/// Ticks the places of a pass off, which rise and were not ticked before.
fn tick_pass(journal: &[SharedEntry], ticked: &mut [bool], pass: &[(u64, SharedEntry)]) -> bool
    requires { length ticked.old ≡ length journal.now }
    ensures pass { IsTrue result → IsPassOf journal.now pass.now }
    ensures ticked { IsTrue result → Finds pass.now ticked.old ticked.new }
{
    let mut next = 0;
    for (place, entry) in pass {
        let place = *place as usize;
        if place < next || !tick(journal, ticked, place, entry) {
            return false;
        }
        next = place + 1;
    }
    true
}

/// Ticks the places of passes off.
fn tick_passes(journal: &[SharedEntry], ticked: &mut [bool], passes: &[Pass]) -> bool
    requires { length ticked.old ≡ length journal.now }
    ensures each { IsTrue result → All (IsPassOf journal.now) passes.now }
    ensures ticked { IsTrue result → FindsAll passes.now ticked.old ticked.new }
{
    for pass in passes {
        if !tick_pass(journal, ticked, pass.entries()) {
            return false;
        }
    }
    true
}

fn are_all_ticked(ticked: &[bool]) -> bool
    ensures { IsTrue result → All (λ t. t ≡ true) ticked.now }
{
    ticked.iter().all(|found| *found)
}

/// Whether passes list a journal of which no place is ticked yet.
fn tick_all(journal: &[SharedEntry], ticked: &mut [bool], passes: &[Pass]) -> bool
    requires as_long { length ticked.old ≡ length journal.now }
    requires none { All (λ t. t ≡ false) ticked.old }
    ensures { IsTrue result → ListTogether journal.now passes.now }
{
    tick_passes(journal, ticked, passes) && are_all_ticked(ticked)
}

/// Whether passes list a journal: each of its places once, with the entry there, and nothing else,
/// each pass its own by rising places.
pub(crate) fn list_together(
    alloc: Global,
    journal: &[SharedEntry],
    passes: &[Pass],
) -> Result<bool, AllocError>
    ensures { IfOk result (λ yes. IsTrue yes → ListTogether journal.now passes.now) }
{
    let mut ticked = vec![in alloc; false; journal.len()]?;
    Ok(tick_all(journal, &mut ticked, passes))
}
