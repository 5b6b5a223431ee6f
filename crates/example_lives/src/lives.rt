// Any number of lives of a logged tree over a store in memory.
ghost use Rattle.std.specs.Prelude.{◌≡◌, None, IfOk};
ghost use Rattle.std.specs.FinMap.{empty};
ghost use Rattle.std.specs.List.{AllByRecursion};
ghost use Rattle.lsm_log_runs.specs.Memory.{world_of};
ghost use Rattle.lsm_log_runs.specs.Picks.{picked, Crashes};
ghost use Rattle.lsm_log_runs.specs.World.{Begins};
ghost use Rattle.lsm_log_runs.specs.Images.{LogMayBeOpened};
ghost use Rattle.lsm_log_runs.specs.Lives.{IsUsualCall};
ghost use Rattle.lsm_runs.specs.Compacting.{strategies_of};
ghost use Rattle.lsm_runs.specs.Dropping.{Allowance, AllowsDrops, allowed};
ghost use Rattle.example_lives.specs.Remembering.{EachRemembers, EachCrashes, LivesSo, store_of};

use lsm_log_runs::{
    LogStep, TakenLogged, any_number_of_logged_lives, live_logged, new_logs_open,
    openings_are_logged_lives,
};
use lsm_pick::CompactionStrategy;
use lsm_state::{Config, Error, MemStore, Pick};
use std::alloc::{AllocError, Global};

/// A life that is to be lived: calls on a logged tree, and what of these names the crash after them is to leave.
#[derive(Drop)]
pub struct Life {
    pub steps: Vec<LogStep>,
    pub picks: Vec<(&'static str, Pick<'static>)>,
}

/// How a life went, and its store in the end, before the crash.
#[derive(Drop)]
pub enum Lived {
    /// The tree was opened, and took steps.
    Took(TakenLogged, MemStore),
    /// Its opening was refused, so the crash came after that.
    Refused(Error, MemStore),
}

/// How lives went, and whether each crash left what was picked: if not, no life follows the last one.
#[derive(Drop)]
pub struct AllLived {
    pub lived: Vec<Lived>,
    pub crashed: bool,
}

/// Opens the logged tree of a store, and takes the steps.
fn live_once(
    alloc: Global,
    store: MemStore,
    strategies: &[Box<dyn CompactionStrategy>],
    steps: &[LogStep],
) -> Lived
    ensures { (may : Allowance) → AllowsDrops (allowed may) (strategies_of (λ b. may_choose b) (λ b. may_refuse b) strategies.now) → LogMayBeOpened (world_of store) → LivesSo (allowed may) store steps.now result }
{
    match live_logged(alloc, Config::new(0, 0, 0), store, strategies, steps) {
        Ok((tree, taken)) => Lived::Took(taken, tree.into_store()),
        Err((error, store)) => Lived::Refused(error, store),
    }
}

/// What a crash after a life leaves. None where it can't leave what is picked.
fn crash_after(
    lived: &Lived,
    picks: &[(&'static str, Pick<'static>)],
) -> Result<Option<MemStore>, AllocError>
    ensures { IfOk result (Crashes (store_of lived.now).files (picked (store_of lived.now).files picks.now)) }
{
    match lived {
        Lived::Took(_, store) => store.crash(picks),
        Lived::Refused(_, store) => store.crash(picks),
    }
}

/// Lives a logged tree again and again, from a new store on: each life opens what the crash after the one before left,
/// takes its steps, and ends by a crash. It answers how each one went, up to one after which no crash can leave what is
/// picked. Faults may be planned in the store.
///
/// Of usual steps nothing else is asked, but that no batch removes a key weakly: each life begins with a beginning of the
/// calls of the last one before it that was opened, between batches, which holds all that was acknowledged; it takes all
/// its steps, unless memory runs out; and each read answers what the replay of its life's calls does over that, outside of
/// what strategies dropped, which is allowed.
pub fn live_again(
    alloc: Global,
    store: MemStore,
    strategies: &[Box<dyn CompactionStrategy>],
    lives: &[Life],
) -> Result<AllLived, AllocError>
    requires new { Begins (λ _. None) (world_of store) }
    ensures remembers { (may : Allowance) → AllowsDrops (allowed may) (strategies_of (λ b. may_choose b) (λ b. may_refuse b) strategies.now) → AllByRecursion (λ l. AllByRecursion IsUsualCall l.steps.items) lives.now → IfOk result (λ r. EachRemembers (allowed may) (λ m. m ≡ empty) 0 lives.now r.lived.items r.crashed) }
    ensures crashes { IfOk result (λ r. EachCrashes lives.now r.lived.items r.crashed) }
{
    new_logs_open(&store);
    any_number_of_logged_lives(&store);
    openings_are_logged_lives(&store);
    let mut store = store;
    let mut all = Vec::new(alloc);
    for life in lives {
        let lived = live_once(alloc, store, strategies, &life.steps);
        let left = crash_after(&lived, &life.picks)?;
        all.push(lived)?;
        let Some(next) = left else {
            return Ok(AllLived {
                lived: all,
                crashed: false,
            });
        };
        store = next;
    }
    Ok(AllLived {
        lived: all,
        crashed: true,
    })
}
