// Parts of a level's first run that overlap nothing below it.
ghost use Rattle.std.specs.Prelude.{◌≡◌, ◌<◌, ◌≤◌, length, MatchOption, IfOk};
ghost use Rattle.lsm_below.specs.Runs.{IsRun};
ghost use Rattle.lsm_versions.specs.Levels.{range};
ghost use Rattle.lsm_pick.specs.Leveled.{IsLongestFree, HasNoFree, is_free, IsFreeStart};

use crate::first_run::FirstRun;
use crate::tables::has_hidden;
use lsm_tables::Table;
use lsm_versions::HiddenSet;
use std::alloc::AllocError;

/// Tables of a run, one after the other.
#[derive(Drop, Clone, Copy, Debug)]
pub struct Window {
    pub place: usize,
    pub count: usize,
}

fn is_free(hidden: &HiddenSet, next: &FirstRun, tables: &[Table]) -> Result<bool, AllocError>
    requires run { IsRun range tables.now }
    requires some { 0 < length tables.now }
    ensures { IfOk result (λ b. b ≡ is_free hidden.now next.now tables.now) }
{
    if has_hidden(hidden, tables) {
        return Ok(false);
    }
    let meets = next.meets_part(tables)?;
    Ok(!meets)
}

/// The first place from which on the tables before an end are free, or the end.
fn free_start(
    hidden: &HiddenSet,
    run: &[Table],
    next: &FirstRun,
    start: usize,
    end: usize,
) -> Result<usize, AllocError>
    requires run { IsRun range run.now }
    requires end { end ≤ length run.now }
    requires start { start < end }
    ensures { IfOk result (IsFreeStart hidden.now run.now next.now start end) }
{
    for place in start..end {
        if is_free(hidden, next, &run[place..end])? {
            return Ok(place);
        }
    }
    Ok(end)
}

/// The longest free window of a run, the leftmost among equally long ones.
///
/// A part of a free window is free: so one sweep finds it, with a binary search in the next run for each table.
pub(crate) fn longest_free(
    hidden: &HiddenSet,
    run: &FirstRun,
    next: &FirstRun,
) -> Result<Option<Window>, AllocError>
    ensures { IfOk result (λ found. MatchOption found (HasNoFree hidden.now run.now next.now) (λ w. IsLongestFree hidden.now run.now next.now w.place w.count)) }
{
    run.facts();
    let tables = run.as_slice();
    let mut best = Window { place: 0, count: 0 };
    let mut start = 0;
    for end in 1..tables.len() + 1 {
        start = free_start(hidden, tables, next, start, end)?;
        if best.count < end - start {
            best = Window {
                place: start,
                count: end - start,
            };
        }
    }
    if best.count == 0 {
        return Ok(None);
    }
    Ok(Some(best))
}
