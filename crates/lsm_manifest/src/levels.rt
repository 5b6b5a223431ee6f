// The version that a store's files hold.
ghost use Rattle.std.specs.Prelude.{◌≡◌, ◌<◌, ◌^◌, ◌↔◌, length, IfOk, IfSome, IfNone, IsTrue};
ghost use Rattle.std.specs.List.{AllByRecursion};
ghost use Rattle.lsm_below.specs.Runs.{IsRun};
ghost use Rattle.lsm_store.specs.World.{Same};
ghost use Rattle.lsm_versions.specs.Levels.{range, all_of};
ghost use Rattle.lsm_manifest.specs.Versions.{after_all, log_from_in};
ghost use Rattle.lsm_manifest.specs.Spelling.{levels_in, ids_of, IsLayout, AreDistinct};
ghost use Rattle.lsm_manifest.specs.Recovery.{CountsStore};
ghost use Rattle.lsm_manifest.specs.Standing.{seen_runs, seen_levels, HasSmallNumbers, AreNamed};
ghost use Rattle.lsm_manifest.specs.Opening.{IsFilled, MakesRuns, MakesVersion, IsComplete, ChecksLevels};

use crate::RecoveredTable;
use crate::fault::{Fault, OpenError};
use crate::loading::load_levels;
use lsm_below::{Run, SeqNo, is_run};
use lsm_store::Store;
use lsm_tables::Table;
use lsm_versions::{Level, Version, VersionId};
use std::alloc::Global;

/// The run of these tables. None where they aren't sorted, or not disjoint.
fn run_of(tables: Vec<Table>) -> Option<Run<Table>>
    requires { 0 < length tables.items }
    ensures run { IfSome result (λ r. (r ≡ tables.items) × IsRun range tables.items) }
    ensures none { IfNone result (IsRun range tables.items → ⊥) }
{
    if !is_run(&tables) {
        return None;
    }
    Run::new(tables)
}

fn level_of(alloc: Global, runs: Vec<Vec<Table>>) -> Result<Level, OpenError>
    requires { AllByRecursion IsFilled (seen_runs runs.items) }
    ensures { MakesRuns (IsRun range) (seen_runs runs.items) (λ level. level) result }
{
    let mut made = Vec::with_capacity(alloc, runs.len())?;
    for tables in runs {
        match run_of(tables) {
            Some(run) => made.push(run)?,
            None => return Err(OpenError::Fault(Fault::Unrecoverable)),
        }
    }
    Ok(Level::new(made))
}

fn levels_of(alloc: Global, levels: Vec<Vec<Vec<Table>>>) -> Result<Vec<Level>, OpenError>
    requires { AllByRecursion (λ l. AllByRecursion IsFilled l) (seen_levels levels.items) }
    ensures { MakesRuns (λ l. AllByRecursion (IsRun range) l) (seen_levels levels.items) (λ v. v.items) result }
{
    let mut made = Vec::with_capacity(alloc, levels.len())?;
    for runs in levels {
        made.push(level_of(alloc, runs)?)?;
    }
    Ok(made)
}

pub(crate) fn table_is_small(table: &Table) -> bool
    ensures { IsTrue result ↔ AllByRecursion (λ e. e.key.seqno < 2 ^ 63) table.now.entries }
{
    table.get_highest_seqno() < 1 << 63
}

fn run_is_small(run: &[Table]) -> bool
    ensures { IsTrue result ↔ AllByRecursion (λ u. AllByRecursion (λ e. e.key.seqno < 2 ^ 63) u.entries) run.now }
{
    for table in run {
        if !table_is_small(table) {
            return false;
        }
    }
    true
}

fn level_is_small(level: &[Run<Table>]) -> bool
    ensures { IsTrue result ↔ AllByRecursion (λ r. AllByRecursion (λ u. AllByRecursion (λ e. e.key.seqno < 2 ^ 63) u.entries) r) level.now }
{
    for run in level {
        if !run_is_small(run.as_slice()) {
            return false;
        }
    }
    true
}

fn are_small(levels: &[Level]) -> bool
    ensures { IsTrue result ↔ HasSmallNumbers levels.now }
{
    for level in levels {
        if !level_is_small(level.as_slice()) {
            return false;
        }
    }
    true
}

/// The number after all that the tables hold, 0 where there is no table.
fn after_all(version: &Version) -> SeqNo
    ensures { result ≡ after_all (all_of version.now.levels) }
{
    if version.table_count() == 0 {
        return 0;
    }
    version.totals().highest.saturating_add(1)
}

/// The number from which a log is read: what the version's file tells, or the one after all that its tables hold.
fn log_from_in(from: Option<SeqNo>, version: &Version) -> SeqNo
    ensures { result ≡ log_from_in from version.now.levels }
{
    match from {
        Some(number) => number,
        None => after_all(version),
    }
}

/// The version of these tables.
fn version_of(
    alloc: Global,
    id: VersionId,
    from: Option<SeqNo>,
    tables: Vec<Vec<Vec<Table>>>,
) -> Result<Version, OpenError>
    requires { IsComplete (seen_levels tables.items) }
    ensures { MakesVersion id from (seen_levels tables.items) result }
{
    let levels = levels_of(alloc, tables)?;
    if !are_small(&levels) {
        return Err(OpenError::Fault(Fault::OutOfNumbers));
    }
    let version = Version::from_levels(id, levels);
    let log_from = log_from_in(from, &version);
    Ok(version.with_log_from(log_from))
}

/// The version of this id with the tables that its file names: each whole, in runs, and with numbers that may be
/// given.
pub(crate) fn load_version<S: Store>(
    alloc: Global,
    store: &mut S,
    id: VersionId,
    from: Option<SeqNo>,
    named: &[Vec<Vec<RecoveredTable>>],
) -> Result<Version, OpenError>
    requires laid_out { IsLayout (levels_in named.now) }
    requires distinct { AreDistinct (ids_of (levels_in named.now)) }
    ensures checks { S.tells → ChecksLevels (S.world store.old).gives (λ v. v.levels) (levels_in named.now) result }
    ensures id { IfOk result (λ v. v.id ≡ id) }
    ensures from { IfOk result (λ v. v.log_from ≡ log_from_in from v.levels) }
    ensures named { IfOk result (λ v. AreNamed (levels_in named.now) v.levels) }
    ensures small { IfOk result (λ v. HasSmallNumbers v.levels) }
    ensures same { S.tells → Same (S.world store.old) (S.world store.new) }
    ensures counts { CountsStore (S.world store.old) (S.world store.new) result }
{
    let tables = load_levels(alloc, store, named)?;
    version_of(alloc, id, from, tables)
}
