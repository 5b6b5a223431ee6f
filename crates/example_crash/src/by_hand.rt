// Two lives of a tree over a store in memory, in which the caller chooses the numbers of his writes.
ghost use Rattle.std.specs.Prelude.{[], None, map, IfOk};
ghost use Rattle.std.specs.List.{AllByRecursion};
ghost use Rattle.lsm_runs.specs.Memory.{world_of};
ghost use Rattle.lsm_runs.specs.World.{Begins};
ghost use Rattle.lsm_runs.specs.Compacting.{strategies_of};
ghost use Rattle.lsm_runs.specs.Dropping.{Allowance, AllowsDrops, allowed};
ghost use Rattle.lsm_runs.specs.Rising.{At, highest};
ghost use Rattle.lsm_runs.specs.Drawing.{drawing_of};
ghost use Rattle.example_crash.specs.Single.{KeepsOrder, KeepsOrderAbove};
ghost use Rattle.example_crash.specs.Survival.{IsUsual, Goes, CrashesAsPicked};

use crate::lives::Course;
use crate::single::live_singly;
use lsm_manifest::{crashes_settle, images_stand_once};
use lsm_runs::Step;
use lsm_state::{CompactionStrategy, MemStore, Pick, SeqNo};
use std::alloc::{AllocError, Global};

/// As `crash_between`, where each step is taken by a run of its own, and the counter of each life starts at a number of the
/// caller's choice, or above what is found, if that is higher.
///
/// So a write may have a number of its own below the counter. Of the first life is asked that its numbers rise, and that a
/// key that it removes weakly was set once at most (`KeepsOrder`); of the second one that its counter starts above all
/// numbers of the first, that its own numbers rise over them, and that it removes nothing weakly (`KeepsOrderAbove`). Reads
/// have any snapshots, also below what was opened.
pub fn crash_by_hand(
    alloc: Global,
    store: MemStore,
    strategies: &[Box<dyn CompactionStrategy>],
    from: SeqNo,
    first: &[Step],
    picks: &[(&str, Pick<'_>)],
    again: SeqNo,
    second: &[Step],
) -> Result<Course, AllocError>
    requires new { Begins (λ _. None) (world_of store) }
    ensures by_hand { (may : Allowance) → AllowsDrops (allowed may) (strategies_of (λ b. may_choose b) (λ b. may_refuse b) strategies.now) → KeepsOrder [] from first.now → KeepsOrderAbove (highest (At from) (map drawing_of first.now)) again second.now → IfOk result (Goes (allowed may) from first.now picks.now again second.now) }
    // Usual steps are as good, wherever the counters start.
    ensures usual { (may : Allowance) → AllowsDrops (allowed may) (strategies_of (λ b. may_choose b) (λ b. may_refuse b) strategies.now) → AllByRecursion IsUsual first.now → AllByRecursion IsUsual second.now → IfOk result (Goes (allowed may) from first.now picks.now again second.now) }
    // No second life just where what is picked can't be left.
    ensures crashed { (may : Allowance) → AllowsDrops (allowed may) (strategies_of (λ b. may_choose b) (λ b. may_refuse b) strategies.now) → IfOk result (CrashesAsPicked (allowed may) from store first.now picks.now) }
{
    crashes_settle(&store);
    images_stand_once();
    let before = match live_singly(alloc, store, strategies, from, first) {
        Ok(life) => life,
        Err((error, store)) => return Ok(Course::NotOpened(error, store)),
    };
    let Some(left) = before.store.crash(picks)? else {
        return Ok(Course::NotSo(before));
    };
    match live_singly(alloc, left, strategies, again, second) {
        Ok(after) => Ok(Course::Lived(before, after)),
        Err((error, store)) => Ok(Course::NotReopened(before, error, store)),
    }
}
