// The cheapest part of the next run to merge with what lies above it.
ghost use Rattle.std.specs.Prelude.{◌≡◌, ◌+◌, ◌<◌, ◌≤◌, length, true, false, MatchOption, MatchBool, IfOk};
ghost use Rattle.lsm_below.specs.Runs.{IsRun};
ghost use Rattle.lsm_versions.specs.Levels.{range};
ghost use Rattle.lsm_pick.specs.Leveled.{is_fit, cost, IsWindow, AreReached, IsBestBefore, IsFinal};

use crate::Leveled;
use crate::first_run::FirstRun;
use crate::tables::{has_hidden, total_bytes};
use lsm_tables::Table;
use lsm_versions::HiddenSet;
use std::alloc::AllocError;

/// A window of the next run, and what it would cost.
#[derive(Drop, Clone, Copy, Debug)]
pub struct Found {
    pub place: usize,
    pub count: usize,
    pub cost: u128,
}

/// The best window so far, and whether the search is over.
#[derive(Drop, Clone, Copy, Debug)]
struct Row {
    best: Option<Found>,
    is_done: bool,
}

/// The bytes of a window and of what it pulls, where nothing is hidden and something is pulled.
fn fit_cost(
    hidden: &HiddenSet,
    run: &FirstRun,
    tables: &[Table],
) -> Result<Option<u128>, AllocError>
    requires run { IsRun range tables.now }
    requires some { 0 < length tables.now }
    ensures { IfOk result (λ found. MatchOption found (is_fit hidden.now run.now tables.now ≡ false) (λ c. (is_fit hidden.now run.now tables.now ≡ true) × (c ≡ cost run.now tables.now))) }
{
    if has_hidden(hidden, tables) {
        return Ok(None);
    }
    let part = run.within_part(tables)?;
    if has_hidden(hidden, part) {
        return Ok(None);
    }
    let bytes = total_bytes(part);
    if bytes == 0 {
        return Ok(None);
    }
    Ok(Some(total_bytes(tables) + bytes))
}

impl Leveled {
    /// The best window up to a place, from the best before it.
    fn better(
        &self,
        hidden: &HiddenSet,
        run: &FirstRun,
        next: &[Table],
        place: usize,
        count: usize,
        best: Option<Found>,
    ) -> Result<Option<Found>, AllocError>
        requires next { IsRun range next.now }
        requires window { IsWindow next.now place count }
        requires reached { AreReached self.now next.now (place + 1) count }
        requires best { IsBestBefore self.now hidden.now run.now next.now place count best }
        ensures { IfOk result (IsBestBefore self.now hidden.now run.now next.now (place + 1) count) }
    {
        let found = fit_cost(hidden, run, &next[place..place + count])?;
        let Some(cost) = found else {
            return Ok(best);
        };
        if let Some(old) = best
            && old.cost <= cost
        {
            return Ok(best);
        }
        Ok(Some(Found { place, count, cost }))
    }

    /// The best window after those of one length.
    fn after_row(
        &self,
        hidden: &HiddenSet,
        run: &FirstRun,
        next: &[Table],
        count: usize,
        mut best: Option<Found>,
    ) -> Result<Row, AllocError>
        requires next { IsRun range next.now }
        requires count { (0 < count) × (count ≤ length next.now) }
        requires reached { AreReached self.now next.now 0 count }
        requires best { IsBestBefore self.now hidden.now run.now next.now 0 count best }
        ensures { IfOk result (λ row. MatchBool row.is_done (IsFinal self.now hidden.now run.now next.now row.best) (AreReached self.now next.now 0 (count + 1) × IsBestBefore self.now hidden.now run.now next.now 0 (count + 1) row.best)) }
    {
        for place in 0..next.len() - count + 1 {
            let bytes = total_bytes(&next[place..place + count]);
            if bytes > 50 * u128::from(self.target()) {
                return Ok(Row {
                    best,
                    is_done: true,
                });
            }
            best = self.better(hidden, run, next, place, count, best)?;
        }
        Ok(Row {
            best,
            is_done: false,
        })
    }

    /// The cheapest window of the next run.
    pub(crate) fn cheapest(
        &self,
        hidden: &HiddenSet,
        run: &FirstRun,
        next: &FirstRun,
    ) -> Result<Option<Found>, AllocError>
        ensures { IfOk result (IsFinal self.now hidden.now run.now next.now) }
    {
        next.facts();
        let tables = next.as_slice();
        let mut best = None;
        for count in 1..tables.len() + 1 {
            let row = self.after_row(hidden, run, tables, count, best)?;
            if row.is_done {
                return Ok(row.best);
            }
            best = row.best;
        }
        Ok(best)
    }
}
