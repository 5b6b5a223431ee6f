// The theorems of the theory, each as the contract of a function that does nothing.
ghost use Rattle.std.specs.Prelude.{ℕ};
ghost use Rattle.lsm_run_model.specs.Composing.{RunsCompose, NoLowReads, NotesTellSealed, NumbersAreBounded};
ghost use Rattle.lsm_run_model.specs.Following.{MomentsJoin};
ghost use Rattle.lsm_run_model.specs.Lives.{LivesGoOn};
ghost use Rattle.lsm_run_model.specs.Settling.{Settling};
ghost use Rattle.lsm_run_model.specs.Rising.{RisingIsInOrder, OrderWithoutReads};

use crate::{Finding, Telling};
use lsm_model::{
    counted_is_in_order, deeds_join, every_crash_recovers, maps_are_read, reads_are_sound,
};
use lsm_store::Store;

/// Calls after a tree that came about: at each moment of the whole run a crash leaves a beginning of its calls, reads are right
/// after each call, and calls may go on.
pub fn runs_compose<S: Store, V: Finding, R>(_: &S, _: &V, _: &R)
    ensures { RunsCompose R V.finds V.shows S.world }
{
    reads_are_sound();
    every_crash_recovers();
    deeds_join();
}

/// Runs after runs are one run.
pub fn moments_join<S: Store, V: Finding, R>(_: &S, _: &V, _: &R)
    ensures { (n : ℕ) → MomentsJoin R (V.shows n) S.world }
{}

/// Over any number of crashes and kills, each with an opening after it, what is left shows a beginning of the calls of its life.
pub fn lives_go_on<S: Store, V: Finding, R: Telling>(_: &S, _: &V, _: &R)
    ensures { (n : ℕ) → LivesGoOn R R.known V.ready (V.shows n) S.world }
{}

/// An opening that puts the name which says where to look on the disk, and then removes what the version that it read doesn't need,
/// settles what a kill left.
pub fn openings_settle<S: Store, V: Finding>(_: &S, _: &V)
    ensures { (n : ℕ) → Settling (V.shows n) S.world }
{}

/// Calls whose numbers rise keep a journal in order.
pub fn rising_is_in_order<R>(_: &R)
    ensures { RisingIsInOrder R }
{
    maps_are_read();
}

/// A journal is in order just where it is so without its reads below what was opened, and has the same next number.
pub fn order_without_reads()
    ensures { OrderWithoutReads }
{}

/// A tree that came about has no reads below what was opened in its journal.
pub fn no_low_reads()
    ensures { NoLowReads }
{}

/// A tree that came about has just those memtables sealed that its notes tell.
pub fn notes_tell_sealed()
    ensures { NotesTellSealed }
{}

/// What was opened and written is numbered below the next number, and below any that is as great.
pub fn numbers_are_bounded()
    ensures { NumbersAreBounded }
{}
