// A logged tree from its opening on.
ghost use Rattle.std.specs.Prelude.{◌≡◌, ℕ, ◌<◌, ◌≤◌, ◌^◌, Err, take, length, IfOk, IfErr, OnOk};
ghost use Rattle.lsm_manifest.specs.Finding.{RefusesFound};
ghost use Rattle.lsm_runs.specs.Compacting.{strategies_of};
ghost use Rattle.lsm_runs.specs.Dropping.{Allowance, AllowsDrops, allowed};
ghost use Rattle.lsm_logged.specs.Meanwhile.{LeavesAsBefore};
ghost use Rattle.lsm_logged.specs.Opening.{RefusesLogged};
ghost use Rattle.lsm_commit.specs.Stored.{CountsFaults};
ghost use Rattle.lsm_log_runs.specs.Images.{LogsOpenOnce, CanBeRead, LogMayBeOpened, IsWantOf};
ghost use Rattle.lsm_log_runs.specs.Lives.{AnyNumberOfLoggedLives, OpeningsAreLoggedLives, NewLogsOpen};
ghost use Rattle.lsm_log_runs.specs.Living.{LivesLogged, OpensAndRunsLogged, OpenedLogsStand, OpenedRunsAreLives, CrashedLogsOpen, StandingLogsAreTaken};

use crate::{LogStep, TakenLogged, run_logged};
use lsm_below::Error;
use lsm_log::no_record_begins_another;
use lsm_log_model::tables_alone_stand;
use lsm_logged::{Logged, logs_can_be_settled};
use lsm_manifest::{
    crashes_settle, found_tables_show, images_stand_once, opening_finds, unread_names_dont_matter,
};
use lsm_parts::Config;
use lsm_pick::CompactionStrategy;
use lsm_store::Store;
use std::alloc::Global;

/// What an opening reads in an image is one version, and beside it one list of records.
///
/// # Examples
///
/// ```text
/// logs_open_once();
/// ```
pub fn logs_open_once()
    ensures { LogsOpenOnce }
{
    images_stand_once();
    no_record_begins_another();
}

/// What is opened on a store that can be read stands beside free slots, as `run_from` and `run_logged` ask it, with nothing
/// called so far.
///
/// # Examples
///
/// ```text
/// opened_logs_stand(tree.store());
/// let taken = run_logged(alloc, &mut tree, &strategies, &steps);
/// ```
pub fn opened_logs_stand<S: Store>(_: &S)
    ensures { OpenedLogsStand S.tells S.world }
{}

/// What a crash left of a run on a logged tree can be read, and may be opened: all that was written is numbered below 2^63.
///
/// # Examples
///
/// ```text
/// crashed_logs_open(&store);
/// ```
pub fn crashed_logs_open<S: Store>(store: &S)
    ensures { CrashedLogsOpen S.world }
{
    crashes_settle(store);
    logs_can_be_settled(store);
    found_tables_show();
}

/// A new store may be opened.
///
/// # Examples
///
/// ```text
/// new_logs_open(&store);
/// ```
pub fn new_logs_open<S: Store>(store: &S)
    ensures { NewLogsOpen S.world }
{
    crashes_settle(store);
    logs_can_be_settled(store);
    tables_alone_stand();
}

/// A crash or a kill in the opening of a logged tree ends a life that is only this opening; so does an opening that gives
/// back its store. The next store can be read, and may be opened where the one before might; and of the calls before all is
/// kept that was: whatever stood for a beginning of them between batches that holds what was acknowledged still does.
/// `Logged::open` says so much of each moment of it, by `leaves`, whatever it answers.
///
/// # Examples
///
/// ```text
/// openings_are_logged_lives(&store);
/// ```
pub fn openings_are_logged_lives<S: Store>(store: &S)
    ensures { S.tells → OpeningsAreLoggedLives S.world }
{
    images_stand_once();
    unread_names_dont_matter();
    crashes_settle(store);
    logs_can_be_settled(store);
    found_tables_show();
}

/// A store that can be read is refused only for want of memory, a fault of the store, or a sequence number of 2^63 or more; one
/// that may be opened, never for a number.
///
/// # Examples
///
/// ```text
/// standing_logs_are_taken(&store);
/// ```
pub fn standing_logs_are_taken<S: Store>(store: &S)
    ensures { S.tells → StandingLogsAreTaken S.world }
{
    opening_finds(store);
    images_stand_once();
}

/// Over any number of lives of usual steps (no batch removes a key weakly), whose strategies drop just ranges that may be
/// dropped, each ended by a crash in its last step or after it, or as its process is killed there or ends: the next store
/// may be opened, and is kept of the life: it stands for a beginning of its calls between batches, which holds all that was
/// acknowledged, flushed or cleared before the last step, and where the end came after that one, what it acknowledged too. A
/// life may also end in its opening: then all is kept that was.
///
/// # Examples
///
/// ```text
/// any_number_of_logged_lives(&store);
/// ```
pub fn any_number_of_logged_lives<S: Store>(store: &S)
    ensures { S.tells → (may : Allowance) → AnyNumberOfLoggedLives (allowed may) S.world }
{
    images_stand_once();
    unread_names_dont_matter();
    crashed_logs_open(store);
    openings_are_logged_lives(store);
}

/// A run on what `Logged::open` makes of a store that can be read is a life, as its stores tell it, where the strategies drop
/// just ranges that may be dropped: so is a loop of one's own (`steps_lead`).
///
/// # Examples
///
/// ```text
/// let tree = Logged::open(alloc, config, store)?;
/// opened_runs_are_lives(tree.store(), &strategies);
/// ```
pub fn opened_runs_are_lives<S: Store>(store: &S, strategies: &[Box<dyn CompactionStrategy>])
    ensures { S.tells → (may : Allowance) → AllowsDrops (allowed may) (strategies_of (λ b. may_choose b) (λ b. may_refuse b) strategies.now) → OpenedRunsAreLives (allowed may) S.tells (strategies_of (λ b. may_choose b) (λ b. may_refuse b) strategies.now) S.world }
{
    opened_logs_stand(store);
}

/// The counter is below 2^64.
fn counter_fits<S: Store>(tree: &Logged<S>)
    ensures { tree.now.core.seqno < 2 ^ 64 }
{
    let _ = tree.tree().seqno().get();
}

/// Opens the logged tree of a store, as `Logged::open`, and takes steps on it, as `run_logged`. It answers the tree and the steps
/// that were taken, or the refusal of the opening beside the store.
///
/// Where the store can be read (`CanBeRead`), this is a life (`lives`): reads are the replay over the map that the store
/// stands for, and at each moment of the steps a crash leaves an image that stands for a beginning of them between batches, which
/// holds all that was acknowledged, flushed or cleared before the step of that moment.
///
/// # Errors
///
/// Those of `Logged::open`.
///
/// # Examples
///
/// ```text
/// let (tree, taken) = live_logged(alloc, config, store, &strategies, &steps)?;
/// ```
pub fn live_logged<S: Store>(
    alloc: Global,
    config: Config,
    store: S,
    strategies: &[Box<dyn CompactionStrategy>],
    steps: &[LogStep],
) -> Result<(Logged<S>, TakenLogged), (Error, S)>
    ensures bound { IfOk result (λ r. length r.1.replies.items ≤ length steps.now) }
    ensures whole { IfOk result (λ r. OnOk r.1.ended (length r.1.replies.items ≡ length steps.now)) }
    // It is what `Logged::open` makes of the store, with a run on it: calls may go on from there.
    ensures runs { IfOk result (λ r. OpensAndRunsLogged S.tells S.world (strategies_of (λ b. may_choose b) (λ b. may_refuse b) strategies.now) config (take (length r.1.replies.items) steps.now) r.1.replies.items store r.0) }
    // A life, however it ends, where the strategies may drop just such ranges.
    ensures lives { S.tells → (may : Allowance) → AllowsDrops (allowed may) (strategies_of (λ b. may_choose b) (λ b. may_refuse b) strategies.now) → CanBeRead (S.world store) → IfOk result (λ r. LivesLogged (allowed may) S.world config.seqno (take (length r.1.replies.items) steps.now) r.1.replies.items store r.0.store) }
    ensures refused { S.tells → IfErr result (λ e. RefusesLogged (S.world store) (S.world e.1) e.0) }
    // Such a store is refused only for want of memory, a fault of the store, or a sequence number of 2^63 or more.
    ensures only { S.tells → CanBeRead (S.world store) → IfErr result (λ e. RefusesFound (S.world store).gives e.0) }
    // One that may be opened is never refused for a number.
    ensures wants { S.tells → LogMayBeOpened (S.world store) → IfErr result (λ e. IsWantOf e.0) }
    // The failures of its calls are counted.
    ensures counts { IfErr result (λ e. CountsFaults {T = ℕ} (S.world store) (S.world e.1) (Err e.0)) }
    // Refused it is a life that ended in its opening.
    ensures opening { S.tells → CanBeRead (S.world store) → IfErr result (λ e. LeavesAsBefore (S.world store) (S.world e.1)) }
{
    opened_runs_are_lives(&store, strategies);
    standing_logs_are_taken(&store);
    let mut tree = match Logged::open(alloc, config, store) {
        Ok(tree) => tree,
        Err(refused) => return Err(refused),
    };
    counter_fits(&tree);
    let taken = run_logged(alloc, &mut tree, strategies, steps);
    Ok((tree, taken))
}
