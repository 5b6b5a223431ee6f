// Lists of entries.
ghost use Rattle.std.specs.Prelude.{◌≡◌, ◌∷◌, [], length, take, IfOk};

use lsm_model::JournalEntry;
use std::alloc::{AllocError, Global};

/// One entry alone.
pub fn one_entry(alloc: Global, entry: JournalEntry) -> Result<Vec<JournalEntry>, AllocError>
    ensures { IfOk result (λ list. list.items ≡ entry ∷ []) }
{
    let mut list = Vec::new(alloc);
    list.push(entry)?;
    Ok(list)
}

/// The first of some entries.
pub(crate) fn cut(entries: Vec<JournalEntry>, count: usize) -> Vec<JournalEntry>
    ensures kept { result.items ≡ take count entries.items }
    ensures front { result.items ≡ take (length result.items) entries.items }
{
    let mut entries = entries;
    entries.truncate(count);
    entries
}
