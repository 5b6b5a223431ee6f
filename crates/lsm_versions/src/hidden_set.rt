// The tables that open jobs work on.
ghost use Rattle.std.specs.Prelude.{◌≡◌, ℕ, ◌&&◌, ◌||◌, not, [], IfOk, OnOk, OnErr, length, slice_index_or, ◌==◌};
ghost use Rattle.std.specs.List.{list_any};
ghost use Rattle.lsm_model.specs.Steps.{among};
ghost use Rattle.lsm_versions.specs.Levels.{is_busy};

use crate::Version;
use lsm_below::{Run, TableId};
use lsm_tables::Table;
use std::alloc::{AllocError, Global};
use std::collections::HashSet;
use std::marker::Model;

/// The ids of the tables that open jobs work on. No other job may take one of them.
///
/// ```text
/// hidden.hide(&input.table_ids)?; // when the job begins
/// hidden.show(&input.table_ids); // when it ends, however it does
/// ```
#[derive(Drop)]
pub struct HiddenSet {
    ids: HashSet<TableId>,
}

impl Model for HiddenSet {
    ghost use Rattle.std.specs.Prelude.{List, ℕ};

    ghost Value = { List ℕ };

    ghost view = { λ h. h.ids.keys };
}

impl HiddenSet {
    /// A set of no ids. It takes no memory.
    pub fn new(alloc: Global) -> HiddenSet
        ensures { result ≡ [] }
    {
        HiddenSet {
            ids: HashSet::new(alloc),
        }
    }

    /// Adds ids, those that are in the set already too. The cost is linear in their number.
    ///
    /// # Errors
    ///
    /// Refused only for want of memory, and then the set is as before.
    pub fn hide(&mut self, ids: &HashSet<TableId>) -> Result<(), AllocError>
        ensures ok { OnOk result ((i : ℕ) → among self.new i ≡ (among self.old i || among ids.now.keys i)) }
        ensures err { OnErr result (self.new ≡ self.old) }
    {
        self.ids.reserve(ids.len())?;
        for id in ids {
            self.ids.insert(*id)?;
        }
        Ok(())
    }

    /// Takes ids out, where they are in the set. The cost is linear in their number.
    pub fn show(&mut self, ids: &HashSet<TableId>)
        ensures { (i : ℕ) → among self.new i ≡ (among self.old i && not (among ids.now.keys i)) }
    {
        for id in ids {
            self.ids.remove(id);
        }
    }

    /// Whether the id is in the set.
    pub fn is_hidden(&self, id: TableId) -> bool
        ensures { result ≡ among self.now id }
    {
        self.ids.contains(&id)
    }

    /// Whether one of the ids is in the set.
    pub fn is_blocked(&self, ids: &HashSet<TableId>) -> bool
        ensures { result ≡ list_any (among self.now) ids.now.keys }
    {
        ids.iter().any(|id| self.is_hidden(*id))
    }

    /// Whether a compaction of these tables is to be declined: one of the ids is in the set.
    pub fn should_decline_compaction(&self, ids: &HashSet<TableId>) -> bool
        ensures { result ≡ list_any (among self.now) ids.now.keys }
    {
        self.is_blocked(ids)
    }

    /// Whether there is no id in the set.
    pub fn is_empty(&self) -> bool
        ensures { result ≡ (length self.now == 0) }
    {
        self.ids.is_empty()
    }

    /// A copy. Refused only for want of memory.
    pub fn copy(&self) -> Result<HiddenSet, AllocError>
        ensures { IfOk result (λ copy. copy ≡ self.now) }
    {
        Ok(HiddenSet {
            ids: self.ids.clone()?,
        })
    }
}

fn run_is_busy(tables: &[Table], hidden: &HiddenSet) -> bool
    ensures { result ≡ list_any (λ t. among hidden.now t.id) tables.now }
{
    tables.iter().any(|table| hidden.is_hidden(table.id()))
}

fn runs_are_busy(runs: &[Run<Table>], hidden: &HiddenSet) -> bool
    ensures { result ≡ is_busy hidden.now runs.now }
{
    runs.iter().any(|run| run_is_busy(run.as_slice(), hidden))
}

impl Version {
    /// Whether a table of a level is hidden; of no level from 7 on. The cost is linear in the level's tables.
    pub fn level_is_busy(&self, n: usize, hidden: &HiddenSet) -> bool
        ensures { result ≡ is_busy hidden.now (slice_index_or self.now.levels n []) }
    {
        match self.levels().get(n) {
            Some(level) => runs_are_busy(level.as_slice(), hidden),
            None => false,
        }
    }
}
