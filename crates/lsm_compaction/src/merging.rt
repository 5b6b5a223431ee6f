// What a compaction keeps of runs, as the contents of files.
ghost use Rattle.std.specs.Prelude.{◌≡◌, map, false, IfOk, IfErr};
ghost use Rattle.std.specs.List.{AllByRecursion};
ghost use Rattle.lsm_below.specs.Slots.{rest_of};
ghost use Rattle.lsm_tables.specs.Image.{IsTable};
ghost use Rattle.lsm_versions.specs.Levels.{AreCovered};
ghost use Rattle.lsm_compaction.specs.Merges.{sources_in, AreFilesOf, IsSoundRun};

use crate::writing::spell_files;
use crate::{MergeSettings, RunSource};
use bytes::Bytes;
use lsm_below::{Error, Run, compact};
use lsm_tables::{Table, kept_is_writable};
use std::alloc::{AllocError, Global};

/// What every table of a run meets.
fn see_run(tables: &[Table])
    ensures tables { AllByRecursion (λ t. IsTable t.entries) tables.now }
    ensures covered { AreCovered tables.now }
{
    for table in tables {
        table.facts();
    }
}

/// What several runs meet, and every table of them.
fn see_runs(runs: &[Run<Table>])
    ensures { AllByRecursion IsSoundRun runs.now }
{
    for run in runs {
        run.facts();
        see_run(run.as_slice());
    }
}

/// Runs as sources.
fn sources_of<'a>(alloc: Global, runs: &'a [Run<Table>]) -> Result<Vec<RunSource<'a>>, AllocError>
    ensures { IfOk result (λ sources. sources.items ≡ map (λ es. rest_of false es) (sources_in runs.now)) }
{
    let mut sources = Vec::with_capacity(alloc, runs.len())?;
    for run in runs {
        sources.push(RunSource::new(run))?;
    }
    Ok(sources)
}

/// What a compaction keeps of runs from the newest, as the contents of the files of tables. Keys and values are shared
/// until a file is made of them, and no list of all entries is. The cost is linear in the bytes, and logarithmic in the
/// runs for each entry.
///
/// # Errors
///
/// Refused only for want of memory.
pub fn merge_runs(
    alloc: Global,
    runs: &[Run<Table>],
    settings: MergeSettings,
) -> Result<Vec<Bytes>, Error>
    ensures files { IfOk result (λ files. AreFilesOf settings runs.now files.items) }
    ensures memory { IfErr result (λ e. e ≡ Error.OutOfMemory) }
{
    kept_is_writable();
    see_runs(runs);
    let sources = sources_of(alloc, runs)?;
    let stream = compact(alloc, sources, settings.watermark, settings.evicts())?;
    spell_files(alloc, stream, settings.target_size, settings.made_at)
}
