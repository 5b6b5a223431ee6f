// Versions of a tree's tables.
ghost use Rattle.std.specs.Prelude.{map, ◌≡◌, true, ◌+◌, ◌-◌, ◌^◌, ◌<◌, [], length, IfOk, IfErr, ◌⊎◌, ◌++◌, List, option_copied, slice_get, slice_index_or};
ghost use Rattle.std.specs.List.{AllByRecursion};
ghost use Rattle.lsm_below.specs.Entries.{entry_cmp};
ghost use Rattle.lsm_below.specs.Sorted.{Rises};
ghost use Rattle.lsm_below.specs.Runs.{IsRun};
ghost use Rattle.std.specs.Slice.Iter.{iter_rest};
ghost use Rattle.lsm_below.specs.Optimizes.{tables_of};
ghost use Rattle.lsm_below.specs.Sums.{capped};
ghost use Rattle.lsm_versions.specs.declared.version.TreeType.TheVariants.{Standard};
ghost use Rattle.lsm_tables.specs.Tables.{SeenTable};
ghost use Rattle.lsm_below.specs.Entries.{above};
ghost use Rattle.lsm_model.specs.Views.{IsLaidOut, IsRearranged, left_of, held};
ghost use Rattle.lsm_model.specs.Steps.{among, AllCover};
ghost use Rattle.lsm_versions.specs.Levels.{SeenVersion, empty_levels, range, placed_of, tables_shown, placed_in, AreApart, AreCovered, AreRising, AreRuns, HasOwnIds, AreNew, all_of, left_in, fits, IsVersion, IsNext, IsOneRun, chosen_from, PutBetween, Moves};
ghost use Rattle.lsm_versions.specs.Totals.{totals_of};
ghost use Rattle.lsm_versions.specs.Refusals.{IsRefusedFor};
ghost use Rattle.lsm_below.specs.declared.error.Error.TheVariants.{OutOfMemory};

use crate::level::see_run;
use crate::tables::tables_in;
use crate::totals::totals_in;
use crate::{Level, Tables, Totals, has_id};
use lsm_below::{Error, Run, SeqNo, TableId, optimize_runs};
use lsm_model::{levels_rise, tables_are_placed};
use lsm_tables::Table;
use std::alloc::{AllocError, Global};
use std::collections::HashSet;
use std::marker::Model;
use std::slice::Iter;

/// The id of a version.
pub type VersionId = u64;

/// What kind of tree a version is of.
#[derive(Clone, Copy, Debug, PartialEq, Eq)]
pub enum TreeType {
    /// Keys and values stand in tables.
    Standard,
}

/// How many levels a version has.
pub const DEFAULT_LEVEL_COUNT: u8 = 7;

/// The same, as a length.
const LEVELS: usize = DEFAULT_LEVEL_COUNT as usize;

/// Seven levels of runs of tables, with an id, and the sequence number from which a log above the tree is read.
///
/// Tables are shared between versions: a next version copies none of their entries.
///
/// ```text
/// let next = version.with_new_l0_run(alloc, &tables, from)?;
/// ```
#[derive(Drop)]
pub struct Version {
    id: VersionId,
    log_from: SeqNo,
    levels: [Level; LEVELS],
    totals: Totals,
}

impl Model for Version {
    ghost use Rattle.lsm_versions.specs.Levels.{SeenVersion};
    ghost use Rattle.lsm_versions.specs.Totals.{IsKeptVersion};

    ghost Value = { SeenVersion };

    ghost view = { λ v. record { id = v.id; log_from = v.log_from; levels = v.levels } };

    ghost invariant = { λ v. IsKeptVersion v.levels v.totals };
}

/// Tables of which no two overlap, as one run.
fn one_run(alloc: Global, runs: Vec<Run<Table>>) -> Result<Vec<Table>, AllocError>
    requires { AreApart (tables_of runs.items) }
    ensures { IfOk result (λ v. IsOneRun (tables_of runs.items) v.items) }
{
    let mut joined = optimize_runs(alloc, runs)?;
    match joined.pop() {
        Some(run) => Ok(run.into_tables()),
        None => Ok(Vec::new(alloc)),
    }
}

/// What every table and every run of several levels meets.
fn see_levels(levels: &[Level])
    ensures covered { AreCovered (all_of levels.now) }
    ensures rising { AreRising (all_of levels.now) }
    ensures runs { AreRuns levels.now }
{
    for level in levels {
        level.see_tables();
    }
}

/// The tables of these ids, each as a run of its own. Refused only for want of memory.
pub fn chosen_runs(
    alloc: Global,
    ids: &HashSet<TableId>,
    levels: &[Level],
) -> Result<Vec<Run<Table>>, AllocError>
    ensures { IfOk result (λ v. tables_of v.items ≡ chosen_from ids.now.keys levels.now) }
{
    let mut runs = Vec::new(alloc);
    for table in tables_in(levels) {
        if has_id(ids, table.id()) {
            runs.push(Run::single(alloc, table.copy()?)?)?;
        }
    }
    Ok(runs)
}

/// Whether a manifest can write the levels: at most 255 runs in each, of fewer than 2^32 tables.
pub fn levels_fit(levels: &[Level]) -> bool
    ensures { result ≡ fits levels.now }
{
    levels.iter().all(|level| level.fits())
}

/// Seven levels, off the list that they were collected in.
fn seven(levels: Vec<Level>) -> [Level; LEVELS]
    requires { length levels.items ≡ 7 }
    ensures { result ≡ levels.items }
{
    match <[Level; LEVELS]>::try_from(levels) {
        Ok(levels) => levels,
        Err(_) => unreachable!(),
    }
}

impl Version {
    /// A version of no tables, whose log is read from 0 on. It takes no memory.
    pub fn new(alloc: Global, id: VersionId) -> Version
        ensures { result ≡ record { id = id; log_from = 0; levels = empty_levels } }
    {
        Version {
            id,
            log_from: 0,
            levels: [
                Level::empty(alloc),
                Level::empty(alloc),
                Level::empty(alloc),
                Level::empty(alloc),
                Level::empty(alloc),
                Level::empty(alloc),
                Level::empty(alloc),
            ],
            totals: Totals::none(),
        }
    }

    /// The version's id.
    pub fn id(&self) -> VersionId
        ensures { result ≡ self.now.id }
    {
        self.id
    }

    /// The sequence number from which a log above the tree is read: the tables have what is written below it, or it is
    /// cleared.
    pub fn log_from(&self) -> SeqNo
        ensures { result ≡ self.now.log_from }
    {
        self.log_from
    }

    /// The same version, whose log is read from another number on.
    pub fn with_log_from(self, log_from: SeqNo) -> Version
        ensures { result ≡ record self { log_from = log_from } }
    {
        Version {
            id: self.id,
            log_from,
            levels: self.levels,
            totals: self.totals,
        }
    }

    /// A version of seven levels of at most 255 runs, each of fewer than 2^32 tables, no two of one id, whose log is read
    /// from 0 on.
    pub fn from_levels(id: VersionId, levels: Vec<Level>) -> Version
        requires seven { length levels.items ≡ 7 }
        requires fits { fits levels.items ≡ true }
        requires own_ids { HasOwnIds (all_of levels.items) }
        ensures { result ≡ record { id = id; log_from = 0; levels = levels.items } }
    {
        see_levels(&levels);
        let totals = totals_in(&levels);
        Version {
            id,
            log_from: 0,
            levels: seven(levels),
            totals,
        }
    }

    /// What every version meets, and that its tables stand as reads want them.
    pub fn facts(&self)
        ensures is { IsVersion self.now.levels }
        ensures laid { IsLaidOut (placed_of self.now.levels) }
        ensures rise { AllByRecursion (λ p. Rises entry_cmp p.table.entries) (placed_of self.now.levels) }
    {
        levels_rise();
        let _ = &self.levels;
    }

    /// The levels, from the first one on.
    pub fn levels(&self) -> &[Level]
        ensures { result.now ≡ self.now.levels }
    {
        &self.levels
    }

    /// A level by its index, from 0 on.
    pub fn level(&self, n: usize) -> Option<&Level>
        ensures { option_copied result ≡ slice_get self.now.levels n }
    {
        self.levels.get(n)
    }

    /// The first level, where new tables come.
    pub fn l0(&self) -> &Level
        ensures { result.now ≡ slice_index_or self.now.levels 0 [] }
    {
        &self.levels[0]
    }

    /// How many levels there are.
    pub fn level_count(&self) -> usize
        ensures { result ≡ 7 }
    {
        self.levels.len()
    }

    /// What kind of tree the version is of: always a standard one.
    pub fn tree_type(&self) -> TreeType
        ensures { result ≡ Standard }
    {
        TreeType::Standard
    }

    /// The levels, one after the other.
    pub fn iter_levels(&self) -> Iter<'_, Level>
        ensures { iter_rest result ≡ self.now.levels }
    {
        self.levels.iter()
    }

    /// The tables, level by level and run by run.
    pub fn iter_tables(&self) -> Tables<'_>
        ensures tables { result ≡ all_of self.now.levels }
        ensures shown { map (λ t. t.entries) result ≡ tables_shown self.now.levels }
    {
        tables_in(&self.levels)
    }

    /// How many tables there are; a count past 2^64 - 1 stands there. It takes constant time.
    pub fn table_count(&self) -> usize
        ensures { result ≡ capped (length (all_of self.now.levels)) }
    {
        self.totals.tables
    }

    /// What is counted of the tables together. It takes constant time.
    pub fn totals(&self) -> Totals
        ensures { result ≡ totals_of (all_of self.now.levels) }
    {
        self.totals
    }

    /// The least sequence number above those of all entries, 0 where there is no table; up to 2^64 - 1. It takes constant
    /// time.
    pub fn next_seqno(&self) -> SeqNo
        ensures { result ≡ capped (above (held (placed_of self.now.levels))) }
    {
        if self.totals.items == 0 {
            return 0;
        }
        self.totals.highest.saturating_add(1)
    }

    /// A copy, which shares the tables. Refused only for want of memory.
    pub fn copy(&self, alloc: Global) -> Result<Version, AllocError>
        ensures { IfOk result (λ v. v ≡ self.now) }
    {
        let mut levels = Vec::with_capacity(alloc, self.levels.len())?;
        for level in &self.levels {
            levels.push(level.copy(alloc)?)?;
        }
        Ok(Version {
            id: self.id,
            log_from: self.log_from,
            levels: seven(levels),
            totals: self.totals,
        })
    }

    /// The next version: the tables of these ids go, a run comes to the front of a level, and the log is read from this
    /// number on at least.
    fn changed(
        &self,
        alloc: Global,
        ids: &HashSet<TableId>,
        front: &[Table],
        to: usize,
        from: SeqNo,
    ) -> Result<Version, Error>
        requires run { IsRun range front.now }
        requires level { to < 7 }
        requires own_ids { HasOwnIds (front.now ++ left_in ids.now.keys (all_of self.now.levels)) }
        ensures ok { IfOk result (IsNext ids.now.keys front.now to from self.now) }
        ensures numbers { IfOk result (λ _. self.now.id < 2 ^ 64 - 1) }
        ensures err { IfErr result (IsRefusedFor ids.now.keys front.now to self.now) }
    {
        self.facts();
        let id = self.id();
        if id == u64::MAX {
            return Err(Error::OutOfNumbers);
        }
        let old = self.levels();
        let mut levels = Vec::with_capacity(alloc, old.len())?;
        for (i, level) in old.iter().enumerate() {
            let run = if i == to { front } else { &[] };
            levels.push(level.changed(alloc, ids, run)?)?;
        }
        if !levels_fit(&levels) {
            return Err(Error::TooManyRuns);
        }
        let log_from = self.log_from().max(from);
        Ok(Version::from_levels(id + 1, levels).with_log_from(log_from))
    }

    /// The next version with a new run before those of the first level, whose log is read from this number on, or from
    /// the old one's number where that is greater.
    pub fn with_new_l0_run(
        &self,
        alloc: Global,
        tables: &[Table],
        from: SeqNo,
    ) -> Result<Version, Error>
        requires run { IsRun range tables.now }
        requires new { AreNew tables.now self.now.levels }
        ensures ok { IfOk result (IsNext [] tables.now 0 from self.now) }
        ensures covers { IfOk result (λ _. AllCover (placed_in 0 tables.now)) }
        ensures placed { IfOk result (λ v. IsRearranged (placed_in 0 tables.now ++ placed_of self.now.levels) (placed_of v.levels)) }
        ensures laid { IfOk result (λ v. IsLaidOut (placed_of v.levels)) }
        ensures numbers { IfOk result (λ _. self.now.id < 2 ^ 64 - 1) }
        ensures err { IfErr result (IsRefusedFor [] tables.now 0 self.now) }
    {
        self.facts();
        let none = HashSet::new(alloc);
        let next = self.changed(alloc, &none, tables, 0, from)?;
        see_run(tables);
        next.facts();
        Ok(next)
    }

    /// The next version without these tables.
    pub fn with_dropped(&self, alloc: Global, ids: &HashSet<TableId>) -> Result<Version, Error>
        ensures ok { IfOk result (IsNext ids.now.keys [] 0 0 self.now) }
        ensures placed { IfOk result (λ v. IsRearranged (left_of (among ids.now.keys) (placed_of self.now.levels)) (placed_of v.levels)) }
        ensures laid { IfOk result (λ v. IsLaidOut (placed_of v.levels)) }
        ensures numbers { IfOk result (λ _. self.now.id < 2 ^ 64 - 1) }
        ensures err { IfErr result (IsRefusedFor ids.now.keys [] 0 self.now) }
    {
        self.facts();
        let next = self.changed(alloc, ids, &[], 0, 0)?;
        next.facts();
        Ok(next)
    }

    /// The next version, with a run in place of these tables.
    pub fn with_merge(
        &self,
        alloc: Global,
        ids: &HashSet<TableId>,
        tables: &[Table],
        to: usize,
    ) -> Result<Version, Error>
        requires run { IsRun range tables.now }
        requires new { AreNew tables.now self.now.levels }
        requires level { to < 7 }
        ensures ok { IfOk result (IsNext ids.now.keys tables.now to 0 self.now) }
        ensures covers { IfOk result (λ _. AllCover (placed_in to tables.now)) }
        ensures placed { IfOk result (λ v. PutBetween ids.now.keys tables.now to self.now.levels v.levels) }
        ensures laid { IfOk result (λ v. IsLaidOut (placed_of v.levels)) }
        ensures numbers { IfOk result (λ _. self.now.id < 2 ^ 64 - 1) }
        ensures err { IfErr result (IsRefusedFor ids.now.keys tables.now to self.now) }
    {
        self.facts();
        let next = self.changed(alloc, ids, tables, to, 0)?;
        see_run(tables);
        next.facts();
        Ok(next)
    }

    /// The next version, with these tables as one run of another level.
    pub fn with_moved(
        &self,
        alloc: Global,
        ids: &HashSet<TableId>,
        to: usize,
    ) -> Result<Version, Error>
        requires apart { AreApart (chosen_from ids.now.keys self.now.levels) }
        requires level { to < 7 }
        ensures ok { IfOk result (Moves ids.now.keys to self.now) }
        ensures laid { IfOk result (λ v. IsLaidOut (placed_of v.levels)) }
        ensures numbers { IfOk result (λ _. self.now.id < 2 ^ 64 - 1) }
        ensures err { IfErr result (λ e. ((run : List SeenTable) × IsOneRun (chosen_from ids.now.keys self.now.levels) run × IsRefusedFor ids.now.keys run to self.now e) ⊎ (e ≡ OutOfMemory)) }
    {
        self.facts();
        tables_are_placed();
        let chosen = chosen_runs(alloc, ids, self.levels())?;
        let run = one_run(alloc, chosen)?;
        let next = self.changed(alloc, ids, &run, to, 0)?;
        next.facts();
        see_run(&run);
        Ok(next)
    }
}
