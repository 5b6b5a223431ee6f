// A tree from its opening on.
ghost use Rattle.std.specs.Prelude.{◌≡◌, ◌≤◌, take, length, IfOk, IfErr, OnOk, Err};
ghost use Rattle.lsm_store.specs.World.{LeavesOnly};
ghost use Rattle.lsm_model.specs.Journal.{Map};
ghost use Rattle.lsm_manifest.specs.Finding.{Finds, StandsForMap, IsSettled, RefusesFound};
ghost use Rattle.lsm_manifest.specs.Ready.{IsReady, OpeningLeaves};
ghost use Rattle.lsm_manifest.specs.Recovery.{CountsStore};
ghost use Rattle.lsm_manifest.specs.Told.{Told, TellsOpen};
ghost use Rattle.lsm_state.specs.Opened.{files_told};
ghost use Rattle.lsm_versions.specs.Levels.{Levels};
ghost use Rattle.lsm_runs.specs.Causes.{EachHasCause};
ghost use Rattle.lsm_runs.specs.Compacting.{strategies_of};
ghost use Rattle.lsm_runs.specs.Dropping.{Allowance, AllowsDrops, allowed};
ghost use Rattle.lsm_runs.specs.Lives.{LivesInOrder};
ghost use Rattle.lsm_runs.specs.Living.{LivesOn, OpensAndRuns};

use crate::{Reply, Step, Taken, run};
use lsm_below::Error;
use lsm_manifest::{opening_finds, openings_leave_what_was_read, settled_stores_are_ready};
use lsm_model::reads_are_sound;
use lsm_parts::Config;
use lsm_pick::CompactionStrategy;
use lsm_run_model::{order_without_reads, rising_is_in_order};
use lsm_state::TreeState;
use lsm_store::Store;
use std::alloc::Global;

/// Opens the tree of a store, as `TreeState::open_raised`, and takes steps on it, as `run`. Its counters start above all that
/// was found, or where the configuration says, if that is higher. It answers the tree and the steps that were taken, or the refusal
/// of the opening beside the store.
///
/// Where the store is ready to be opened (`IsReady`) and stands for a map, this is a life (`lives`): the first so many
/// steps, in plain use and in order, as it is where their numbers rise, read what the replay from that map reads, and at
/// each moment a crash, or the end of the process, leaves a beginning of the calls so far, which holds all that was covered
/// by those that were answered. What is left begins the next life, so this holds over any number of lives
/// (`any_number_of_lives`).
///
/// # Errors
///
/// Those of `TreeState::open_raised`. Where the store stands for a map, these are want of memory, a fault of the store, or
/// a sequence number of 2^63 or more; a crash meanwhile leaves what stands for the map.
///
/// # Examples
///
/// ```text
/// let (tree, taken) = live(alloc, config, store, &strategies, &steps)?;
/// ```
pub fn live<S: Store>(
    alloc: Global,
    config: Config,
    store: S,
    strategies: &[Box<dyn CompactionStrategy>],
    steps: &[Step],
) -> Result<(TreeState<S>, Taken), (Error, S)>
    ensures bound { IfOk result (λ r. length r.1.outcomes.items ≤ length steps.now) }
    ensures whole { IfOk result (λ r. OnOk r.1.ended (length r.1.outcomes.items ≡ length steps.now)) }
    // The steps ran on the tree that `TreeState::open_raised` makes of the store with this configuration.
    ensures ran { IfOk result (λ r. OpensAndRuns (strategies_of (λ b. may_choose b) (λ b. may_refuse b) strategies.now) config (take (length r.1.outcomes.items) steps.now) r.1.outcomes.items r.0.core) }
    // A life, however it ends, whatever allows what the strategies may drop.
    ensures lives { (may : Allowance) → AllowsDrops (allowed may) (strategies_of (λ b. may_choose b) (λ b. may_refuse b) strategies.now) → S.tells → IsReady (S.world store) → (m : Map) → StandsForMap (S.world store).gives m → IfOk result (λ r. LivesInOrder (allowed may) S.world config.seqno m (take (length r.1.outcomes.items) steps.now) r.1.outcomes.items store r.0.store) }
    // The whole of what `run` says, after what opening left.
    ensures lives_on { S.tells → IsReady (S.world store) → (m : Map) → StandsForMap (S.world store).gives m → IfOk result (λ r. LivesOn S.world (strategies_of (λ b. may_choose b) (λ b. may_refuse b) strategies.now) m (take (length r.1.outcomes.items) steps.now) r.1.outcomes.items r.0.store r.0.core) }
    // Refused, it leaves the store ready to be opened again, and meanwhile a crash what it could before, or the tables that
    // were read.
    ensures opens_again { S.tells → IsReady (S.world store) → (tables : Levels) → Finds (S.world store).gives tables → IfErr result (λ e. OpeningLeaves (S.world store) (S.world e.1) tables) }
    // The store is blamed only where a call of it failed.
    ensures causes { IfOk result (λ r. EachHasCause S.world r.1.outcomes.items store r.0.store) }
    ensures counts { IfErr result (λ e. Told TellsOpen (CountsStore (S.world store) (S.world e.1)) (files_told (Err e))) }
    ensures refused { S.tells → (m : Map) → StandsForMap (S.world store).gives m → IfErr result (λ e. RefusesFound (S.world store).gives e.0) }
    ensures stands { S.tells → IsSettled (S.world store) → (m : Map) → StandsForMap (S.world store).gives m → IfErr result (λ e. LeavesOnly (S.world store) (S.world e.1) (λ image. StandsForMap image m)) }
{
    settled_stores_are_ready(&store);
    opening_finds(&store);
    openings_leave_what_was_read(&store);
    reads_are_sound();
    rising_is_in_order(&Reply::Done);
    order_without_reads();
    let mut tree = match TreeState::open_raised(alloc, config, store) {
        Ok(tree) => tree,
        Err(refused) => return Err(refused),
    };
    let taken = run(alloc, &mut tree, strategies, steps);
    Ok((tree, taken))
}
