// What lists of reads, flushes, compactions, clears and openings are to the theory, as contracts of functions.
ghost use Rattle.lsm_state.specs.Clearing.{ClearsKeepReads};
ghost use Rattle.lsm_state.specs.CompactionDeeds.{CompactionsAreDeeds};
ghost use Rattle.lsm_state.specs.CompactionReads.{CompactionsKeepReads};
ghost use Rattle.lsm_state.specs.Deeds.{OpenedIsFresh};
ghost use Rattle.lsm_state.specs.FlushLaws.{FlushesAreDeeds};
ghost use Rattle.lsm_state.specs.FlushReads.{FlushesKeepReads};
ghost use Rattle.lsm_state.specs.ListSteps.{ListsAreSteps};
ghost use Rattle.lsm_state.specs.Ranges.{CountingIsOverlaid, RangesAreOverlaid, PrefixesAreOverlaid};

use lsm_checks::merges_of_inputs_are_steps;
use lsm_iter::shown_is_the_view;
use lsm_model::{parts_are_whole, reads_are_sound};
use lsm_versions::{drops_are_steps, flushes_are_steps, moves_are_steps};

/// The list of what a super version shows under an index is that of its view by tops, with the index laid over it.
/// Of a tree, of which `TreeState::facts` holds, it is so where no key and sequence number stand in two of its sources.
pub fn ranges_are_overlaid()
    ensures counting { CountingIsOverlaid }
    ensures ranges { RangesAreOverlaid }
    ensures prefixes { PrefixesAreOverlaid }
{
    parts_are_whole();
    shown_is_the_view();
}

/// Without an index, the list of what a snapshot shows is an answered read of the theory.
pub fn lists_are_steps()
    ensures { ListsAreSteps }
{
    parts_are_whole();
    shown_is_the_view();
}

/// Of a tree, of which `TreeState::facts` holds, a flush that is installed, or of unknown outcome, is a list of deeds of the
/// theory of crashes.
pub fn flushes_are_deeds()
    ensures { FlushesAreDeeds }
{
    flushes_are_steps();
}

/// No call of a flush changes what a snapshot sees that is answered before and after, and after it reads are right where
/// they were.
pub fn flushes_keep_reads()
    ensures { FlushesKeepReads }
{
    reads_are_sound();
}

/// Of a tree, of which `TreeState::facts` holds, each call of a compaction is deeds of the theory of crashes: a merge, a move
/// or a drop that is installed, or of unknown outcome, and else nothing but the mark of its beginning.
pub fn compactions_are_deeds()
    ensures { CompactionsAreDeeds }
{
    merges_of_inputs_are_steps();
    moves_are_steps();
    drops_are_steps();
}

/// No call of a compaction changes what a snapshot sees that is answered before and after, but for a drop those above its
/// number; and after it reads are right where they were. The end of a merge is such where its watermark was marked before.
pub fn compactions_keep_reads()
    ensures { CompactionsKeepReads }
{
    reads_are_sound();
}

/// No clear changes what a snapshot sees that is answered before and after, but an answered one those above its number; and
/// after it reads are right where they were.
pub fn clears_keep_reads()
    ensures { ClearsKeepReads }
{
    reads_are_sound();
}

/// A tree that was opened is a fresh one of the theory of crashes, on the tables of its version, whatever its counters.
pub fn opened_trees_are_fresh()
    ensures { OpenedIsFresh }
{}
