// The entries of chosen tables, as a compaction would keep them.
ghost use Rattle.std.specs.Prelude.{◌≡◌, map, false, IfOk, MatchOption};
ghost use Rattle.lsm_below.specs.Kept.{IsKeptOf};
ghost use Rattle.lsm_below.specs.Slots.{rest_of, left_of};
ghost use Rattle.lsm_versions.specs.Levels.{chosen_from};
ghost use Rattle.lsm_versions.specs.Chosen.{AreThere};

use crate::RunSource;
use lsm_below::{CompactionStream, Merger, SeqNo, TableId, compact};
use lsm_checks::any_missing;
use lsm_versions::{Version, has_id};
use std::alloc::{AllocError, Global};
use std::collections::HashSet;

/// The tables of these ids as sources, in the order in which the version has them.
fn chosen_sources<'a>(
    alloc: Global,
    version: &'a Version,
    ids: &HashSet<TableId>,
) -> Result<Vec<RunSource<'a>>, AllocError>
    ensures { IfOk result (λ v. v.items ≡ map (λ t. rest_of false t.entries) (chosen_from ids.now.keys version.now.levels)) }
{
    let mut sources = Vec::new(alloc);
    for table in version.iter_tables() {
        if has_id(ids, table.id()) {
            sources.push(RunSource::of_table(table))?;
        }
    }
    Ok(sources)
}

/// What a compaction at a watermark keeps of the tables of these ids, where tombstones are not evicted, as a stream over their
/// entries; None exactly where an id isn't in the version. Nothing is merged before it is asked for, and an entry's bytes are
/// shared when its turn comes. To make it is linear in the tables of the version.
///
/// # Errors
///
/// Refused only for want of memory, as each step of the stream is.
pub fn create_compaction_stream<'a>(
    alloc: Global,
    version: &'a Version,
    ids: &HashSet<TableId>,
    watermark: SeqNo,
) -> Result<Option<CompactionStream<Merger<RunSource<'a>>>>, AllocError>
    ensures there { IfOk result (λ found. MatchOption found (AreThere version.now.levels ids.now.keys → ⊥) (λ _. AreThere version.now.levels ids.now.keys)) }
    ensures kept { IfOk result (λ found. MatchOption found Unit (λ stream. IsKeptOf (map (λ t. t.entries) (chosen_from ids.now.keys version.now.levels)) watermark false (left_of stream).entries)) }
{
    version.facts();
    if any_missing(alloc, ids, version.levels())? {
        return Ok(None);
    }
    let sources = chosen_sources(alloc, version, ids)?;
    let stream = compact(alloc, sources, watermark, false)?;
    Ok(Some(stream))
}
