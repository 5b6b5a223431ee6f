// What installs of versions are to the theory, each law as the contract of a function that does nothing.
ghost use Rattle.lsm_versions.specs.Installs.{FlushesAreSteps, MergesAreSteps, MovesAreSteps, DropsAreSteps, CutTablesAreRuns, ChangesKeepTables};

use lsm_tables::cuts_are_runs;

/// The install of a version with a new run in front is a flush.
pub fn flushes_are_steps()
    ensures { FlushesAreSteps }
{}

/// The install of a version with a run in place of an allowed choice is a merge.
pub fn merges_are_steps()
    ensures { MergesAreSteps }
{}

/// The install of a version with an allowed choice as one run is a move.
pub fn moves_are_steps()
    ensures { MovesAreSteps }
{}

/// The install of a version without chosen tables is a drop.
pub fn drops_are_steps()
    ensures { DropsAreSteps }
{}

/// The tables into which a list is cut are a run.
pub fn cut_tables_are_runs()
    ensures { CutTablesAreRuns }
{
    cuts_are_runs();
}

/// A changed version has the run that came and the tables that didn't go, and no others.
pub fn changes_keep_tables()
    ensures { ChangesKeepTables }
{}
