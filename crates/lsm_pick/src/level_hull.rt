// The range of a level, and what it overlaps.
ghost use Rattle.std.specs.Prelude.{◌≡◌, ◌++◌, not, filter, IfOk, OnOk};
ghost use Rattle.std.specs.List.{list_any};
ghost use Rattle.lsm_below.specs.Optimizes.{tables_of};
ghost use Rattle.lsm_below.specs.Ranges.{overlap};
ghost use Rattle.lsm_versions.specs.Levels.{range};
ghost use Rattle.lsm_checks.specs.Choices.{AreIdsOf};
ghost use Rattle.lsm_pick.specs.Tables.{meets, spans_meet, AddsIds};
ghost use Rattle.lsm_pick.specs.Hulls.{IsHullOf, overlap_of, is_met_of, met_of};

use crate::tables::push_ids;
use lsm_below::{KeyRange, Run, TableId};
use lsm_tables::Table;
use lsm_versions::Level;
use std::alloc::{AllocError, Global};
use std::collections::HashSet;

/// From the least key of a level to the greatest. None for an empty level, which overlaps nothing.
#[tactic(auto, using(crate::proofs::Ends::hull_of))]
fn level_hull(alloc: Global, level: &Level) -> Result<Option<KeyRange>, AllocError>
    ensures { IfOk result (IsHullOf (tables_of level.now)) }
{
    let hull = level.aggregate_key_range(alloc)?;
    Ok(hull)
}

/// Whether the ranges of two levels overlap.
fn hulls_meet(left: &Option<KeyRange>, right: &Option<KeyRange>) -> bool
    ensures { result ≡ overlap_of left.now right.now }
{
    match left {
        None => false,
        Some(left) => match right {
            None => false,
            Some(right) => left.overlaps_with_key_range(right),
        },
    }
}

/// Whether a table of a run shares a key with a range. A binary search.
#[tactic(auto, using(crate::proofs::Ends::some_left))]
pub(crate) fn run_meets(hull: &KeyRange, run: &Run<Table>) -> bool
    ensures { result ≡ list_any (λ t. overlap (range t) hull.now) run.now }
{
    !run.get_overlapping(hull).is_empty()
}

fn runs_meet(hull: &KeyRange, runs: &[Run<Table>]) -> bool
    ensures { result ≡ list_any (λ run. list_any (λ t. overlap (range t) hull.now) run) runs.now }
{
    runs.iter().any(|run| run_meets(hull, run))
}

/// Whether a table of a level overlaps a range. For each run it costs a binary search.
fn meets_level(hull: &Option<KeyRange>, level: &Level) -> bool
    ensures { result ≡ is_met_of hull.now (tables_of level.now) }
{
    match hull {
        Some(hull) => runs_meet(hull, level.as_slice()),
        None => false,
    }
}

fn push_overlapping(
    ids: &mut HashSet<TableId>,
    hull: &KeyRange,
    runs: &[Run<Table>],
) -> Result<(), AllocError>
    ensures { OnOk result (AddsIds (filter (λ t. overlap (range t) hull.now) (tables_of runs.now)) ids.old.keys ids.new.keys) }
{
    for run in runs {
        push_ids(ids, run.get_overlapping(hull))?;
    }
    Ok(())
}

/// Adds the ids of a level's tables that overlap a range.
fn push_met(
    ids: &mut HashSet<TableId>,
    hull: &Option<KeyRange>,
    level: &Level,
) -> Result<(), AllocError>
    ensures { OnOk result (AddsIds (met_of hull.now (tables_of level.now)) ids.old.keys ids.new.keys) }
{
    match hull {
        Some(hull) => push_overlapping(ids, hull, level.as_slice()),
        None => Ok(()),
    }
}

/// Whether the ranges of two levels don't overlap.
#[tactic(auto, using(crate::proofs::Ends::overlap_same))]
pub(crate) fn are_apart(alloc: Global, first: &Level, low: &Level) -> Result<bool, AllocError>
    ensures { IfOk result (λ b. b ≡ not (spans_meet (tables_of first.now) (tables_of low.now))) }
{
    let above = level_hull(alloc, first)?;
    let below = level_hull(alloc, low)?;
    let meet = hulls_meet(&above, &below);
    Ok(!meet)
}

/// Whether no table of a level overlaps the range of the first one.
#[tactic(auto, using(crate::proofs::Ends::met_same))]
pub(crate) fn is_clear(alloc: Global, first: &Level, low: &Level) -> Result<bool, AllocError>
    ensures { IfOk result (λ b. b ≡ not (list_any (meets (tables_of first.now)) (tables_of low.now))) }
{
    let hull = level_hull(alloc, first)?;
    let meets = meets_level(&hull, low);
    Ok(!meets)
}

/// The ids of the first level's tables, and of those of another that overlap its range.
pub(crate) fn ids_with_met(
    alloc: Global,
    first: &Level,
    low: &Level,
) -> Result<HashSet<TableId>, AllocError>
    ensures { IfOk result (λ ids. AreIdsOf ids.keys (tables_of first.now ++ filter (meets (tables_of first.now)) (tables_of low.now))) }
{
    let hull = level_hull(alloc, first)?;
    let mut ids = first.list_ids(alloc)?;
    push_met(&mut ids, &hull, low)?;
    Ok(ids)
}
