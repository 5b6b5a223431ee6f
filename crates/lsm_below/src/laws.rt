// What always holds of keys, entries and merges, each as the contract of a function that does nothing.
ghost use Rattle.lsm_below.specs.Keys.{AreBytes};
ghost use Rattle.lsm_below.specs.Laws.{KeysAreOrdered, EntriesAreOrdered, FirstVisibleIsTop, EntriesAreParted, MergesByKey};
ghost use Rattle.lsm_below.specs.Kept.{AllIsKept};

/// Each number of a slice of bytes is below 256.
pub fn slices_hold_bytes(bytes: &[u8])
    ensures { AreBytes bytes.now }
{}

/// User keys are ordered.
pub fn keys_are_ordered()
    ensures { KeysAreOrdered }
{}

/// Entries are ordered: user keys rise, and under one key the sequence numbers fall.
pub fn entries_are_ordered()
    ensures { EntriesAreOrdered }
{}

/// Of entries that rise, the first that a snapshot sees of a key is the newest one below it.
pub fn first_visible_is_top()
    ensures { FirstVisibleIsTop }
{}

/// A place parts entries that rise: a look-up there finds what a walk would, and so do two places for bounds.
pub fn entries_are_parted()
    ensures { EntriesAreParted }
{}

/// Lists in order are merged key by key, and of a list in order the first entries of each key are in order.
pub fn merges_by_key()
    ensures { MergesByKey }
{}

/// Of one source a compaction keeps all where no entry is hidden, and it evicts nothing.
pub fn all_is_kept()
    ensures { AllIsKept }
{}
