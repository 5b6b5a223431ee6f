// How tests ask a strategy.
//
// What owns a table borrows it to a helper, and has no `?` after: a deep value that is dropped is long to prove.

use crate::samples::{ids, table};
use lsm_below::{Run, TableId, optimize_runs};
use lsm_pick::{Choice, ChooseError, CompactionStrategy, Input};
use lsm_versions::{CompactionState, Config, Level, Version, ids_are_own, levels_fit};
use std::alloc::{AllocError, Global};
use std::collections::HashSet;
use std::process::Abort;
use std::test::Fail;

/// A table of one entry, x under a key of one byte, so of 37 bytes: its level, its id, its key, when it was made.
pub type Row = (usize, TableId, &'static str, u64);

/// What a strategy is to answer: a choice by its ids, destination and canonical level.
#[derive(Clone, Copy)]
pub enum Wanted {
    Nothing,
    Move(&'static [TableId], u8, u8),
    Merge(&'static [TableId], u8, u8),
    Drop(&'static [TableId]),
    Refused(ChooseError),
}

/// The level of some rows: one run where no two share a key.
fn level(rt: &impl Abort, alloc: Global, n: usize, rows: &[Row]) -> Result<Level, Fail> {
    let mut runs = Vec::new(alloc);
    for row in rows {
        if row.0 == n {
            runs.push(Run::single(alloc, table(rt, alloc, row.1, row.2, (0, row.3))?)?)?;
        }
    }
    Ok(Level::from_runs(optimize_runs(alloc, runs)?))
}

fn levels(rt: &impl Abort, alloc: Global, rows: &[Row]) -> Result<Vec<Level>, Fail> {
    let mut levels = Vec::new(alloc);
    for n in 0..7 {
        levels.push(level(rt, alloc, n, rows)?)?;
    }
    Ok(levels)
}

fn version(rt: &impl Abort, alloc: Global, rows: &[Row]) -> Result<Version, Fail> {
    let levels = levels(rt, alloc, rows)?;
    let own = ids_are_own(alloc, &[], &levels)?;
    assert!(rt; own);
    assert!(rt; levels.len() == 7);
    assert!(rt; levels_fit(&levels));
    Ok(Version::from_levels(5, levels))
}

fn input(
    alloc: Global,
    list: &[TableId],
    to: u8,
    canonical: u8,
    target: u64,
) -> Result<Input, AllocError> {
    Ok(Input {
        table_ids: ids(alloc, list)?,
        dest_level: to,
        canonical_level: canonical,
        target_size: target,
    })
}

fn answer(
    alloc: Global,
    wanted: Wanted,
    target: u64,
) -> Result<Result<Choice, ChooseError>, AllocError> {
    Ok(match wanted {
        Wanted::Nothing => Ok(Choice::DoNothing),
        Wanted::Move(list, to, from) => Ok(Choice::Move(input(alloc, list, to, from, target)?)),
        Wanted::Merge(list, to, from) => Ok(Choice::Merge(input(alloc, list, to, from, target)?)),
        Wanted::Drop(list) => Ok(Choice::Drop(ids(alloc, list)?)),
        Wanted::Refused(error) => Err(error),
    })
}

fn answers(
    alloc: Global,
    strategy: &dyn CompactionStrategy,
    version: &Version,
    hidden: &[TableId],
    wanted: Wanted,
    target: u64,
) -> Result<bool, Fail> {
    let mut state = CompactionState::new(alloc);
    state.hidden_set_mut().hide(&ids(alloc, hidden)?)?;
    let given = strategy.choose(alloc, version, &Config::new(0, 0, 0), &state);
    Ok(given == answer(alloc, wanted, target)?)
}

/// Whether a strategy answers so for the version of some rows, where tables of some ids are hidden.
/// Inputs have the target.
pub fn chooses(
    rt: &impl Abort,
    alloc: Global,
    strategy: &dyn CompactionStrategy,
    target: u64,
    rows: &[Row],
    hidden: &[TableId],
    wanted: Wanted,
) -> Result<bool, Fail> {
    let version = version(rt, alloc, rows)?;
    let is_so = answers(alloc, strategy, &version, hidden, wanted, target);
    drop(version);
    is_so
}
