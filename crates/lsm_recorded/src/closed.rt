// A journal that is given out.
use crate::shared_entry::SharedEntry;
use lsm_parts::Version;

/// What `close` answers: the journal, and what its replay starts from.
///
/// # Examples
///
/// ```text
/// if let Ok(closed) = tree.close(passes) {
///     let was_new = closed.opened.table_count() == 0;
///     for entry in closed.journal { .. }
/// }
/// ```
#[derive(Drop)]
pub struct Closed {
    /// A copy of the journal, which shares its entries.
    pub journal: Vec<SharedEntry>,
    /// The version that the tree was opened with, whose tables it shares: what they show is the map that the replay of the
    /// journal starts from. A new tree has none.
    pub opened: Version,
}
