// Drops what is too old or too much.
ghost use Rattle.std.specs.Prelude.{◌≡◌, ◌-◌, ◌*◌, ◌^◌, ◌<◌, ◌≤◌, [], cond, not, eqb, ltb, length, IfOk, IfErr, OnOk, filter, true, codes};
ghost use Rattle.lsm_versions.specs.Levels.{bytes_of, is_busy};
ghost use Rattle.lsm_checks.specs.Choices.{AreIdsOf};
ghost use Rattle.lsm_pick.specs.Config.{fifo_config};
ghost use Rattle.lsm_pick.specs.Tables.{runs_at, size, bytes_below, AddsIds};
ghost use Rattle.lsm_pick.specs.Fifo.{MayFifo, MayRefuse, DropsJust, IsTurn, over_of, dropped, surplus, is_expired, is_due, fresh};

use crate::config::fifo_config;
use crate::first_run::FirstRun;
use crate::tables::{is_level_busy, push_if};
use crate::{Choice, ChooseError, CompactionStrategy};
use lsm_below::{KvPair, TableId};
use lsm_tables::Table;
use lsm_versions::{CompactionState, Config, HiddenSet, Version};
use std::alloc::{AllocError, Global};
use std::collections::HashSet;

/// The strategy's name.
pub const NAME: &str = "FifoCompaction";

/// Drops the tables of the first level that are older than a time to live, and the oldest ones of more bytes
/// than a limit. The first level has to be one run.
///
/// A table is expired where it was made at or before the moment `now` less the time to live, at least 0: so at
/// moment 0 any time to live from 1 second on expires the tables that were made at 0, all of a tree whose moment nobody set.
///
/// A table goes with the newest entries of its keys: an older value that a deeper level holds is read again.
///
/// # Examples
///
/// ```text
/// let fifo = Fifo::new(1 << 30, Some(3600), now); // a gibibyte, an hour
/// ```
#[derive(Drop, Clone, Copy, Debug)]
pub struct Fifo {
    /// The bytes that stay.
    pub limit: u64,
    /// The seconds to live; `None` and 0 for none.
    pub ttl_seconds: Option<u64>,
    /// The moment in nanoseconds, from which the seconds count.
    pub now: u64,
}

impl Fifo {
    /// With a limit in bytes, a time to live in seconds (`None` and 0 for none), and the moment in nanoseconds.
    pub fn new(limit: u64, ttl_seconds: Option<u64>, now: u64) -> Fifo
        ensures { result ≡ record { limit = limit; ttl_seconds = ttl_seconds; now = now } }
    {
        Fifo {
            limit,
            ttl_seconds,
            now,
        }
    }

    fn is_expired(&self, table: &Table) -> bool
        ensures { result ≡ is_expired self.entry.now table.now }
    {
        let seconds = self.ttl_seconds.unwrap_or(0);
        let life = u128::from(seconds) * 1_000_000_000;
        let cutoff = u128::from(self.now).saturating_sub(life);
        0 < seconds && u128::from(table.created_at()) <= cutoff
    }

    /// The bytes of a table's file, 0 where it is expired.
    fn fresh_size(&self, table: &Table) -> u64
        ensures { result ≡ cond (not (is_expired self.entry.now table.now)) (size table.now) 0 }
    {
        if self.is_expired(table) {
            0
        } else {
            table.file_size()
        }
    }

    /// The same, 0 also where it was made at a moment or later.
    fn size_below(&self, table: &Table, moment: u64) -> u64
        ensures { result ≡ cond (not (is_expired self.entry.now table.now)) (cond (ltb table.now.created_at moment) (size table.now) 0) 0 }
    {
        if table.created_at() < moment {
            self.fresh_size(table)
        } else {
            0
        }
    }

    /// The same, 0 also where it was made at another moment.
    fn size_at(&self, table: &Table, moment: u64) -> u64
        ensures fits { result < 2 ^ 64 }
        ensures bytes { result ≡ cond (not (is_expired self.entry.now table.now)) (cond (eqb table.now.created_at moment) (size table.now) 0) 0 }
    {
        if table.created_at() == moment {
            self.fresh_size(table)
        } else {
            0
        }
    }

    /// The bytes of the tables that aren't expired.
    #[tactic(auto, using(crate::proofs::FreshSteps::bytes_more))]
    fn fresh_bytes(&self, run: &[Table]) -> u128
        ensures sum { result ≡ bytes_of (fresh self.entry.now run.now) }
        ensures bound { result ≤ length run.now * (2 ^ 64 - 1) }
    {
        let mut total: u128 = 0;
        for table in run {
            total += u128::from(self.fresh_size(table));
        }
        total
    }

    /// The bytes of those that were made before a moment.
    #[tactic(auto, using(crate::proofs::FreshSteps::below_more))]
    fn fresh_below(&self, run: &[Table], moment: u64) -> u128
        ensures sum { result ≡ bytes_below moment (fresh self.entry.now run.now) }
        ensures bound { result ≤ length run.now * (2 ^ 64 - 1) }
    {
        let mut total: u128 = 0;
        for table in run {
            total += u128::from(self.size_below(table, moment));
        }
        total
    }

    /// The bytes above the limit.
    fn overshoot(&self, run: &[Table]) -> u128
        ensures { result ≡ over_of self.entry.now run.now }
    {
        self.fresh_bytes(run).saturating_sub(u128::from(self.limit))
    }

    /// The last moment before which tables of less bytes than the overshoot were made.
    fn turn(&self, run: &[Table], over: u128) -> u64
        requires { 0 < over }
        ensures { IsTurn over (fresh self.entry.now run.now) result }
    {
        let mut low: u64 = 0;
        let mut high = u64::MAX;
        while low < high {
            let mid = high - (high - low) / 2;
            if self.fresh_below(run, mid) < over {
                low = mid;
            } else {
                high = mid - 1;
            }
        }
        low
    }

    fn push_expired(&self, ids: &mut HashSet<TableId>, run: &[Table]) -> Result<(), AllocError>
        ensures { OnOk result (AddsIds (filter (is_expired self.entry.now) run.now) ids.old.keys ids.new.keys) }
    {
        for table in run {
            push_if(ids, table, self.is_expired(table))?;
        }
        Ok(())
    }

    fn is_due(&self, table: &Table, over: u128, turn: u64, older: u128) -> bool
        ensures due { result ≡ is_due self.entry.now over turn older table.now }
        ensures made { table.now.created_at < 2 ^ 64 }
    {
        let made = table.created_at();
        !self.is_expired(table) && (made < turn || (made == turn && older < over))
    }

    /// Adds the oldest of the others until they reach the overshoot.
    fn push_surplus(
        &self,
        ids: &mut HashSet<TableId>,
        run: &[Table],
        over: u128,
    ) -> Result<(), AllocError>
        requires { 0 < over }
        ensures { OnOk result (AddsIds (surplus over [] (fresh self.entry.now run.now)) ids.old.keys ids.new.keys) }
    {
        let turn = self.turn(run, over);
        let mut older = self.fresh_below(run, turn);
        for table in run {
            push_if(ids, table, self.is_due(table, over, turn, older))?;
            older += u128::from(self.size_at(table, turn));
        }
        Ok(())
    }

    /// The same where there may be none.
    fn push_over(&self, ids: &mut HashSet<TableId>, run: &[Table]) -> Result<(), AllocError>
        ensures { OnOk result (AddsIds (surplus (over_of self.entry.now run.now) [] (fresh self.entry.now run.now)) ids.old.keys ids.new.keys) }
    {
        let over = self.overshoot(run);
        if over == 0 {
            return Ok(());
        }
        self.push_surplus(ids, run, over)
    }

    fn expired_ids(&self, alloc: Global, run: &[Table]) -> Result<HashSet<TableId>, AllocError>
        ensures { IfOk result (λ ids. AreIdsOf ids.keys (filter (is_expired self.entry.now) run.now)) }
    {
        let mut ids = HashSet::new(alloc);
        self.push_expired(&mut ids, run)?;
        Ok(ids)
    }

    /// The tables to drop.
    fn dropped(&self, alloc: Global, run: &[Table]) -> Result<HashSet<TableId>, AllocError>
        ensures { IfOk result (λ ids. AreIdsOf ids.keys (dropped self.entry.now run.now)) }
    {
        let mut ids = self.expired_ids(alloc, run)?;
        self.push_over(&mut ids, run)?;
        Ok(ids)
    }

    /// What becomes of a run.
    fn drop_due(&self, alloc: Global, run: &[Table]) -> Result<Choice, AllocError>
        ensures { IfOk result (DropsJust (dropped self.entry.now run.now)) }
    {
        let ids = self.dropped(alloc, run)?;
        if ids.is_empty() {
            return Ok(Choice::DoNothing);
        }
        Ok(Choice::Drop(ids))
    }

    fn pick(
        &self,
        alloc: Global,
        version: &Version,
        hidden: &HiddenSet,
    ) -> Result<Choice, ChooseError>
        ensures ok { IfOk result (MayFifo self.entry.now hidden.now version.now.levels) }
        ensures err { IfErr result (MayRefuse hidden.now version.now.levels) }
        ensures runs { 1 < length (runs_at version.now.levels 0) → result ≡ Err ChooseError.NotDisjoint }
        ensures busy { length (runs_at version.now.levels 0) ≡ 1 → is_busy hidden.now (runs_at version.now.levels 0) ≡ true → result ≡ Err ChooseError.Busy }
    {
        let level = version.l0();
        if level.run_count() > 1 {
            return Err(ChooseError::NotDisjoint);
        }
        if is_level_busy(hidden, level) {
            return Err(ChooseError::Busy);
        }
        let run = FirstRun::of(level);
        let choice = self.drop_due(alloc, run.as_slice())?;
        Ok(choice)
    }
}

impl CompactionStrategy for Fifo {
    ghost use Rattle.lsm_pick.specs.Fifo.{MayFifo, MayRefuse};

    ghost may_choose = { λ s config hidden version choice. MayFifo s hidden version.levels choice };

    ghost may_refuse = { λ s config hidden version e. MayRefuse hidden version.levels e };

    ghost is_configured = { λ s. Unit {0} };

    fn get_name(&self) -> &'static str
        ensures { result.now ≡ codes "FifoCompaction" }
    {
        NAME
    }

    fn get_config(&self, alloc: Global) -> Result<Vec<KvPair>, AllocError>
        ensures { IfOk result (λ v. v.items ≡ fifo_config self.entry.now) }
    {
        fifo_config(alloc, self)
    }

    /// Drops the expired tables, and of the others the oldest until the rest fits the limit, in the order of the
    /// run where they were made at one moment. Nothing is done where that is no table. The cost is linear in the
    /// tables.
    ///
    /// # Errors
    ///
    /// `NotDisjoint` where the first level has several runs; `Busy` where it is one run with a hidden table; both
    /// always and only there. Else refused only for want of memory.
    fn choose(
        &self,
        alloc: Global,
        version: &Version,
        _config: &Config,
        state: &CompactionState,
    ) -> Result<Choice, ChooseError>
        ensures ok { IfOk result (MayFifo self.entry.now state.now version.now.levels) }
        ensures err { IfErr result (MayRefuse state.now version.now.levels) }
        ensures runs { 1 < length (runs_at version.now.levels 0) → result ≡ Err ChooseError.NotDisjoint }
        ensures busy { length (runs_at version.now.levels 0) ≡ 1 → is_busy state.now (runs_at version.now.levels 0) ≡ true → result ≡ Err ChooseError.Busy }
    {
        self.pick(alloc, version, state.hidden_set())
    }
}
