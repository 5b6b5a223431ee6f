// Runs are joined where their tables allow it.
ghost use Rattle.std.specs.Prelude.{◌≡◌, ◌+◌, ◌-◌, ◌<◌, ◌≤◌, true, false, [], length, IfOk, OnOk, slice_index_or, drop, fold};
ghost use Rattle.std.specs.List.{All};
ghost use Rattle.lsm_below.specs.Ranges.{IsRange};
ghost use Rattle.lsm_below.specs.Runs.{IsRun};
ghost use Rattle.lsm_below.specs.Optimizes.{Optimizes, IsRearranged, tables_of};
ghost use Rattle.lsm_below.specs.Greedy.{is_free, placed, IsPlaced};

use crate::{KeyRange, Ranged, Run};
use std::alloc::{AllocError, Global};

/// The place after the last run that has an overlapping table.
fn place_behind<T: Ranged>(runs: &[Run<T>], range: &KeyRange) -> usize
    ensures bound { result ≤ length runs.now }
    ensures behind { is_free T.range range.now (tables_of (drop result runs.now)) ≡ true }
    ensures before { 0 < result → is_free T.range range.now (slice_index_or runs.now (result - 1) []) ≡ false }
{
    let mut place = runs.len();
    while place > 0 {
        if !runs[place - 1].is_free_of(range) {
            return place;
        }
        place -= 1;
    }
    place
}

/// Adds a table to the earliest run that may have it.
fn place_table<T: Ranged + Drop>(
    alloc: Global,
    runs: &mut Vec<Run<T>>,
    table: T,
) -> Result<(), AllocError>
    ensures ok { OnOk result (runs.new.items ≡ placed T.range table runs.old.items) }
    ensures range { IsRange (T.range table) }
{
    table.key_range().facts();
    let place = place_behind(runs, table.key_range());
    if place < runs.len() {
        let run = &mut runs[place];
        run.put(table)?;
    } else {
        let run = Run::single(alloc, table)?;
        runs.push(run)?;
    }
    Ok(())
}

/// Places the tables one after another.
fn place_tables<T: Ranged + Drop>(
    alloc: Global,
    runs: &mut Vec<Run<T>>,
    tables: Vec<T>,
) -> Result<(), AllocError>
    ensures ok { OnOk result (runs.new.items ≡ fold (λ rs t. placed T.range t rs) runs.old.items tables.items) }
    ensures ranges { OnOk result (All (λ t. IsRange (T.range t)) tables.items) }
{
    for table in tables {
        place_table(alloc, runs, table)?;
    }
    Ok(())
}

/// Places the tables of all runs, from the first run on.
fn place_runs<T: Ranged + Drop>(alloc: Global, runs: Vec<Run<T>>) -> Result<Vec<Run<T>>, AllocError>
    ensures { IfOk result (λ new. IsPlaced T.range (tables_of runs.items) new.items) }
{
    let mut placed = Vec::with_capacity(alloc, runs.len())?;
    for run in runs {
        place_tables(alloc, &mut placed, run.into_tables())?;
    }
    Ok(placed)
}

/// What holds of every run holds of each of these.
fn facts_of_each<T: Ranged>(runs: &[Run<T>])
    ensures { All (λ r. IsRun T.range r × (0 < length r)) runs.now }
{
    for run in runs {
        run.facts();
    }
}

/// Joins runs where their tables allow it: each table goes into the earliest run that may have it.
///
/// Fewer than two runs come back as they are.
///
/// # Errors
///
/// Refused only for want of memory.
pub fn optimize_runs<T: Ranged + Drop>(
    alloc: Global,
    runs: Vec<Run<T>>,
) -> Result<Vec<Run<T>>, AllocError>
    ensures rules { IfOk result (λ new. Optimizes T.range runs.items new.items) }
    ensures keys { IfOk result (λ new. IsRearranged T.range (tables_of runs.items) (tables_of new.items)) }
{
    if runs.len() < 2 {
        facts_of_each(&runs);
        return Ok(runs);
    }
    let new = place_runs(alloc, runs)?;
    Ok(new)
}
