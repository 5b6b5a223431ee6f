// What a store holds of a tree, before anything is changed.
ghost use Rattle.std.specs.List.Sorted.{IsNonDecreasing};
ghost use Rattle.std.proofs.Props.{props};
ghost use Rattle.lsm_manifest.specs.Opening.{IsAbove};

use crate::Opened;
use lsm_below::TableId;

/// What the files of a store hold, read and checked, with what `finish_opening` needs to go on.
///
/// ```text
/// let found = look_for_files(alloc, &mut store)?;
/// found.opened.version.table_count()
/// ```
#[derive(Drop)]
pub struct Found {
    /// The version that `current` names, or one without tables where there is no `current`.
    pub opened: Opened,
    /// Whether there is no `current`: the tree is a new one.
    pub is_new: bool,
    /// The names that the store lists.
    pub(crate) names: Vec<String>,
    /// The ids of the version's tables, sorted.
    pub(crate) ids: Vec<TableId>,
    ghost sorted: { IsNonDecreasing ids.items },
    ghost above: { IsAbove opened.next_table_id opened.version.levels } by { Prim.hlevel props },
}
