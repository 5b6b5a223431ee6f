// Runs, parted by a choice of tables.
ghost use Rattle.std.specs.Prelude.{◌≡◌, ◌++◌, ◌==◌, ◌&&◌, [], map, IfOk, OnOk, unwrap_or};
ghost use Rattle.std.specs.List.{list_any};
ghost use Rattle.lsm_below.specs.Ranges.{overlap};
ghost use Rattle.lsm_versions.specs.Levels.{range};
ghost use Rattle.lsm_checks.specs.Choices.{any_pair};
ghost use Rattle.lsm_checks.specs.Parted.{part_of, parted_from, meets, is_wrong};

use lsm_below::{Ranged, Run, TableId};
use lsm_tables::Table;
use lsm_versions::{Level, copies_chosen, copies_left};
use std::alloc::{AllocError, Global};
use std::collections::HashSet;
use std::marker::Model;

/// What may be wrong between a chosen table and one that isn't, where the two overlap.
#[derive(Clone, Copy)]
pub enum Fault {
    OutOfOrder,
    StandsBelow,
}

/// The tables of a run that a choice takes, and those that it leaves, which are a run as well.
#[derive(Drop)]
pub(crate) struct PartedRun {
    level: usize,
    chosen: Vec<Table>,
    left: Option<Run<Table>>,
}

impl Model for PartedRun {
    ghost use Rattle.std.specs.Prelude.{[], unwrap_or};
    ghost use Rattle.lsm_checks.specs.Parted.{Parted};

    ghost Value = { Parted };

    ghost view = { λ p. record { level = p.level; chosen = p.chosen.items; left = unwrap_or p.left [] } };
}

/// Whether a table overlaps one of a run: a binary search.
fn meets_run(table: &Table, run: &Run<Table>) -> bool
    ensures { result ≡ list_any (λ u. overlap (range table.now) (range u)) run.now }
{
    !run.get_overlapping(table.key_range()).is_empty()
}

fn meet(tables: &[Table], run: &Run<Table>) -> bool
    ensures { result ≡ meets tables.now run.now }
{
    tables.iter().any(|table| meets_run(table, run))
}

impl PartedRun {
    /// A run of a level, parted.
    fn new(
        alloc: Global,
        ids: &HashSet<TableId>,
        level: usize,
        run: &Run<Table>,
    ) -> Result<PartedRun, AllocError>
        ensures { IfOk result (λ p. p ≡ part_of ids.now.keys level run.now) }
    {
        run.facts();
        let chosen = copies_chosen(alloc, ids, run.as_slice())?;
        let left = Run::new(copies_left(alloc, ids, run.as_slice())?);
        Ok(PartedRun {
            level,
            chosen,
            left,
        })
    }

    /// Whether a chosen table of this run overlaps a table that another run keeps.
    fn meets_left_of(&self, other: &PartedRun) -> bool
        ensures { result ≡ meets self.now.chosen other.now.left }
    {
        match &other.left {
            Some(run) => meet(&self.chosen, run),
            None => false,
        }
    }

    /// Whether something is wrong between this run and one that stands after it.
    fn is_wrong_with(&self, fault: Fault, to: usize, behind: &PartedRun) -> bool
        ensures { result ≡ is_wrong fault to self.now behind.now }
    {
        match fault {
            Fault::OutOfOrder => {
                (to <= self.level && behind.meets_left_of(self))
                    || (behind.level < to && self.meets_left_of(behind))
            }
            Fault::StandsBelow => to == 6 && behind.level == 6 && self.meets_left_of(behind),
        }
    }
}

/// Appends the runs of a level, parted.
fn push_parted(
    alloc: Global,
    ids: &HashSet<TableId>,
    level: usize,
    runs: &[Run<Table>],
    parted: &mut Vec<PartedRun>,
) -> Result<(), AllocError>
    ensures { OnOk result (parted.new.items ≡ parted.old.items ++ map (part_of ids.now.keys level) runs.now) }
{
    for run in runs {
        parted.push(PartedRun::new(alloc, ids, level, run)?)?;
    }
    Ok(())
}

/// The runs of levels, parted.
pub(crate) fn part_levels(
    alloc: Global,
    ids: &HashSet<TableId>,
    levels: &[Level],
) -> Result<Vec<PartedRun>, AllocError>
    ensures { IfOk result (λ v. v.items ≡ parted_from ids.now.keys 0 levels.now) }
{
    let mut parted = Vec::new(alloc);
    for (i, level) in levels.iter().enumerate() {
        push_parted(alloc, ids, i, level.as_slice(), &mut parted)?;
    }
    Ok(parted)
}

fn is_wrong_behind(fault: Fault, to: usize, front: &PartedRun, behind: &[PartedRun]) -> bool
    ensures { result ≡ list_any (is_wrong fault to front.now) behind.now }
{
    behind.iter().any(|run| front.is_wrong_with(fault, to, run))
}

/// Whether something is wrong between two of the runs, which stand in their order.
/// For each pair of runs it costs a binary search for each chosen table of one.
pub(crate) fn any_wrong(fault: Fault, to: usize, runs: &[PartedRun]) -> bool
    ensures { result ≡ any_pair (is_wrong fault to) runs.now }
{
    let mut rest = runs;
    while let [front, behind @ ..] = rest {
        if is_wrong_behind(fault, to, front, behind) {
            return true;
        }
        rest = behind;
    }
    false
}
