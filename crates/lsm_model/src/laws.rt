// The theorems of the theory, each as the contract of a function that does nothing.
ghost use Rattle.lsm_model.specs.Steps.{EveryRunReadsRight};
ghost use Rattle.lsm_model.specs.Laws.{MapsAreRead, PartsAreWhole, TablesArePlaced};
ghost use Rattle.lsm_model.specs.Views.{LevelsRise};
ghost use Rattle.lsm_model.specs.Counted.{CountedIsInOrder};
ghost use Rattle.lsm_model.specs.Soundness.{Soundness};
ghost use Rattle.lsm_model.specs.Beginnings.{EveryCrashRecovers, DeedsJoin, DeedsSplit, OpeningStarts, ShownAbove};

/// After any steps from an opened tree each view equals the replay.
pub fn every_run_reads_right()
    ensures { EveryRunReadsRight }
{}

/// What each step keeps, and what follows of reads: from this the crates that call a tree go on.
pub fn reads_are_sound()
    ensures { Soundness }
{}

/// A journal in the order that the counter and the keys ask for is in order, event by event.
pub fn counted_is_in_order()
    ensures { CountedIsInOrder }
{}

/// At any moment of any call, what opening may find shows a beginning that holds all that was acknowledged before the call.
pub fn every_crash_recovers()
    ensures { EveryCrashRecovers }
{}

/// Deeds after deeds are deeds, and deeds can be cut anywhere.
pub fn deeds_join()
    ensures joined { DeedsJoin }
    ensures cut { DeedsSplit }
{}

/// A tree that is opened on tables which stand starts with what they show.
pub fn opening_starts()
    ensures { OpeningStarts }
{}

/// Tables show the same at every snapshot above their sequence numbers.
pub fn tables_show_above()
    ensures { ShownAbove }
{}

/// The tables of all levels, level after level, are by rising level.
pub fn levels_rise()
    ensures { LevelsRise }
{}

/// Maps are read key by key.
pub fn maps_are_read()
    ensures { MapsAreRead }
{}

/// Sequence numbers are below the next one, and sources are entries.
pub fn parts_are_whole()
    ensures { PartsAreWhole }
{}

/// What tables hold of a key is theirs, wherever they stand.
pub fn tables_are_placed()
    ensures { TablesArePlaced }
{}
