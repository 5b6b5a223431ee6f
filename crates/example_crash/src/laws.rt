// What is known of steps that are taken one by one, as the contracts of functions that do nothing.
ghost use Rattle.std.specs.Prelude.{ℕ, List, None};
ghost use Rattle.std.specs.FinMap.{empty};
ghost use Rattle.lsm_runs.specs.Memory.{MemStore as Memory, may_of, world_of};
ghost use Rattle.lsm_runs.specs.World.{Image, IsImage, Begins};
ghost use Rattle.lsm_runs.specs.Journal.{Map, next_number};
ghost use Rattle.lsm_runs.specs.declared.steps.Step.{Step};
ghost use Rattle.lsm_runs.specs.Runs.{journal_of};
ghost use Rattle.lsm_runs.specs.Told.{Told};
ghost use Rattle.lsm_runs.specs.Compacting.{strategies_of};
ghost use Rattle.lsm_runs.specs.Dropping.{Allowance, AllowsDrops, allowed};
ghost use Rattle.example_crash.specs.Single.{KeepsOrder, MayBeOpened, HasLived, ComesAfter};
ghost use Rattle.example_crash.specs.Joining.{SoFarBegins, SoFarGrows, SoFarLives, SoFarAnswers};

use lsm_manifest::crashes_settle;
use lsm_model::reads_are_sound;
use lsm_run_model::{moments_join, order_without_reads, rising_is_in_order};
use lsm_runs::{Reply, TreeFiles};
use lsm_state::{CompactionStrategy, MemStore};

/// A tree is opened, and takes steps one by one, each by a `run` of its own, so that its caller acts between any two: all
/// of them are a life as one run of them would be. What a crash leaves at any moment, in a step or between two, is a
/// beginning of the steps so far, which holds all that the answered ones covered; and each read answers what the replay of
/// the steps before it does.
pub fn single_steps_join(store: &MemStore, strategies: &[Box<dyn CompactionStrategy>])
    ensures begins { (may : Allowance) → SoFarBegins (allowed may) world_of (strategies_of (λ b. may_choose b) (λ b. may_refuse b) strategies.now) }
    ensures grows { (may : Allowance) → AllowsDrops (allowed may) (strategies_of (λ b. may_choose b) (λ b. may_refuse b) strategies.now) → SoFarGrows (allowed may) world_of (strategies_of (λ b. may_choose b) (λ b. may_refuse b) strategies.now) }
    ensures lives { (may : Allowance) → SoFarLives (allowed may) world_of }
    ensures answers { (may : Allowance) → SoFarAnswers (allowed may) world_of }
{
    reads_are_sound();
    moments_join(store, &TreeFiles, &Reply::Done);
    rising_is_in_order(&Reply::Done);
    order_without_reads();
}

/// Which stores may be opened, and what they stand for: a new one for nothing; and where a life kept the order, what it
/// left, be it by a crash or because its process ended, for a beginning of its calls.
pub fn lives_follow(store: &MemStore)
    ensures new { (new : Memory) → Begins (λ _. None) (world_of new) → MayBeOpened new empty }
    ensures ended { (may : Allowance) (m : Map) (was : Memory) (from : ℕ) (steps : List Step) (told : List Told) (is : Memory) → (h : HasLived (allowed may) m was from steps told is) → KeepsOrder h.lives.opened h.lives.counter steps → ComesAfter h.lives.opened m h.lives.outcomes (next_number h.lives.opened (journal_of told)) is }
    ensures crashed { (may : Allowance) (m : Map) (was : Memory) (from : ℕ) (steps : List Step) (told : List Told) (is : Memory) → (h : HasLived (allowed may) m was from steps told is) → KeepsOrder h.lives.opened h.lives.counter steps → (image : Image) (left : Memory) → IsImage (may_of is.files) image → Begins image (world_of left) → ComesAfter h.lives.opened m h.lives.outcomes (next_number h.lives.opened (journal_of told)) left }
{
    crashes_settle(store);
}
