// The key ranges of the tables that a drop drops.
ghost use Rattle.std.specs.Prelude.{IfOk, ◌≡◌};
ghost use Rattle.lsm_model.specs.Steps.{among};
ghost use Rattle.lsm_model.specs.Views.{ranges_of};
ghost use Rattle.lsm_versions.specs.Levels.{placed_of};

use lsm_below::{KeyRange, Ranged, TableId};
use lsm_parts::Version;
use lsm_versions::has_id;
use std::alloc::{AllocError, Global};
use std::collections::HashSet;

/// The key ranges of the tables of these ids, in the order in which a version has them. They share the keys. The cost is
/// linear in the tables of the version.
pub(crate) fn ranges_of(
    alloc: Global,
    version: &Version,
    ids: &HashSet<TableId>,
) -> Result<Vec<KeyRange>, AllocError>
    ensures { IfOk result (λ ranges. ranges.items ≡ ranges_of (among ids.now.keys) (placed_of version.now.levels)) }
{
    let mut ranges = Vec::new(alloc);
    for table in version.iter_tables() {
        if has_id(ids, table.id()) {
            ranges.push(table.key_range().copy()?)?;
        }
    }
    Ok(ranges)
}
