// What opening makes of a tree's files, and what follows for life after life.
ghost use Rattle.lsm_manifest.specs.Ready.{IsReady};
ghost use Rattle.lsm_runs.specs.Moments.{FindsPlaced, Reopens};
ghost use Rattle.lsm_runs.specs.Compacting.{strategies_of};
ghost use Rattle.lsm_runs.specs.Dropping.{Allowance, allowed};
ghost use Rattle.lsm_runs.specs.Lives.{AnyNumberOfLives, OpeningsAreLives};
ghost use Rattle.lsm_runs.specs.Living.{RunsAreLives};

use lsm_below::plain_numbers_are_read;
use lsm_manifest::{crashes_settle, images_stand_once, unread_names_dont_matter};
use lsm_pick::CompactionStrategy;
use lsm_run_model::Finding;
use lsm_store::Store;
use lsm_tables::no_image_begins_another;

/// How the files of a tree are found.
///
/// ```text
/// runs_compose(&store, &TreeFiles, &Reply::Done);
/// ```
pub struct TreeFiles;

impl Finding for TreeFiles {
    ghost finds = { FindsPlaced };

    ghost shows = { Reopens };

    ghost ready = { IsReady };
}

/// Over any number of lives, each ended by a crash or because its process is killed or ends, also in an opening: what is
/// left shows a beginning of the calls of its life, which holds all that was covered by the calls that had been answered,
/// and the next life starts from what is left. The calls of a life are steps in plain use, whose outcomes tell by their
/// kinds and replies what is written and what is covered (`AreSteps`). What strategies drop is what a test allows.
///
/// # Examples
///
/// ```text
/// any_number_of_lives(&store);
/// ```
pub fn any_number_of_lives<S: Store>(store: &S)
    ensures { (may : Allowance) → AnyNumberOfLives (allowed may) S.world }
{
    crashes_settle(store);
    images_stand_once();
    unread_names_dont_matter();
}

/// The first so many steps of a run on a tree as opening left it are a life, as `any_number_of_lives` takes it: one that ended by a
/// crash in one of them or after them, or because its process was killed in the last one of them, or ended after it.
///
/// # Examples
///
/// ```text
/// runs_are_lives(&store, &strategies);
/// ```
pub fn runs_are_lives<S: Store>(_: &S, strategies: &[Box<dyn CompactionStrategy>])
    ensures { RunsAreLives S.world (strategies_of (λ b. may_choose b) (λ b. may_refuse b) strategies.now) }
{}

/// A crash in the opening of a tree, or a kill in it, is the end of a life, as `any_number_of_lives` takes it: what it
/// leaves is ready to be opened again, and shows a map that a crash might have left before.
///
/// # Examples
///
/// ```text
/// openings_are_lives(&store);
/// ```
pub fn openings_are_lives<S: Store>(_: &S)
    ensures { S.tells → (may : Allowance) → OpeningsAreLives (allowed may) S.world }
{
    plain_numbers_are_read();
    no_image_begins_another();
    images_stand_once();
}
