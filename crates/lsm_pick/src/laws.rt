// What is proved of a strategy beyond its relation.
ghost use Rattle.lsm_pick.specs.Law.{LeveledLaw};
ghost use Rattle.lsm_pick.specs.Never.{LeveledNeverDrops, MajorNeverDrops};

/// Where each level from 1 on is empty or one run, no reason but a hidden table holds against what `Leveled`
/// may answer, whatever is hidden; and whatever a merge makes of it, these levels stay so.
pub fn leveled_is_lawful()
    ensures { LeveledLaw }
{}

/// `Leveled` never drops a table, whatever the levels are and whatever is hidden.
pub fn leveled_never_drops()
    ensures { LeveledNeverDrops }
{}

/// `Major` never drops a table.
pub fn major_never_drops()
    ensures { MajorNeverDrops }
{}
