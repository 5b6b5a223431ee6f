// Marks of what opened tables hold, by which their order is told and later writes are told in order.
ghost use Rattle.std.specs.Prelude.{◌≡◌, ◌<◌, ◌^◌, [], ◌∷◌, IfOk, MatchOption};
ghost use Rattle.std.specs.List.{AllByRecursion};
ghost use Rattle.lsm_model.specs.Views.{held};
ghost use Rattle.lsm_versions.specs.Levels.{placed_of};
ghost use Rattle.lsm_manifest.specs.Standing.{HasSmallNumbers};
ghost use Rattle.lsm_recorded.specs.Marks.{opened_type, MarksMore, IsMarked};
ghost use Rattle.lsm_recorded.specs.MarkedTables.{entries_in, run_entries, level_entries, IsSmall, TablesAreInOrder, IsOpenedWith};

use crate::marked_key::MarkedKey;
use crate::marks::{Mark, is_allowed, mark_after, read_mark, set_mark};
use lsm_below::{InternalValue, Run, SeqNo, ValueType, share};
use lsm_tables::Table;
use lsm_versions::{Level, Version};
use std::alloc::{AllocError, Global};
use std::collections::BTreeMap;

/// The marks of entries, and the least sequence number above all.
#[derive(Drop)]
pub(crate) struct OpenedMarks {
    pub(crate) marks: BTreeMap<MarkedKey, Mark>,
    pub(crate) least: SeqNo,
}

/// How an entry that was opened counts: a weak tombstone makes no key weakly removed.
fn opened_type(kind: ValueType) -> ValueType
    ensures { result ≡ opened_type kind }
{
    match kind {
        ValueType::Value => ValueType::Value,
        ValueType::Tombstone | ValueType::WeakTombstone => ValueType::Tombstone,
    }
}

/// Notes an entry in front of those that are noted. False where it breaks the order of its key: its sequence number isn't
/// above theirs, or it is a weak tombstone over two values.
fn mark_entry(opened: &mut OpenedMarks, entry: &InternalValue) -> Result<bool, AllocError>
    requires { entry.now.key.seqno < 2 ^ 63 }
    ensures { IfOk result (λ b. MarksMore opened.old b (entry.now ∷ []) opened.new) }
{
    let number = entry.key.seqno;
    let key = MarkedKey::new(share(&entry.key.user_key)?);
    let mark = read_mark(&opened.marks, &key);
    if !is_allowed(mark, number, entry.key.value_type) {
        return Ok(false);
    }
    let mark = mark_after(mark, number, opened_type(entry.key.value_type));
    set_mark(&mut opened.marks, key, mark)?;
    opened.least = opened.least.max(number + 1);
    Ok(true)
}

fn mark_entries(opened: &mut OpenedMarks, entries: &[InternalValue]) -> Result<bool, AllocError>
    requires { AllByRecursion IsSmall entries.now }
    ensures { IfOk result (λ b. MarksMore opened.old b entries.now opened.new) }
{
    let mut at = entries.len();
    while at > 0 {
        at -= 1;
        if !mark_entry(opened, &entries[at])? {
            return Ok(false);
        }
    }
    Ok(true)
}

fn mark_run(opened: &mut OpenedMarks, tables: &[Table]) -> Result<bool, AllocError>
    requires { AllByRecursion (λ t. AllByRecursion IsSmall t.entries) tables.now }
    ensures { IfOk result (λ b. MarksMore opened.old b (run_entries tables.now) opened.new) }
{
    let mut at = tables.len();
    while at > 0 {
        at -= 1;
        if !mark_entries(opened, tables[at].entries())? {
            return Ok(false);
        }
    }
    Ok(true)
}

fn mark_level(opened: &mut OpenedMarks, runs: &[Run<Table>]) -> Result<bool, AllocError>
    requires { AllByRecursion (λ r. AllByRecursion (λ t. AllByRecursion IsSmall t.entries) r) runs.now }
    ensures { IfOk result (λ b. MarksMore opened.old b (level_entries runs.now) opened.new) }
{
    let mut at = runs.len();
    while at > 0 {
        at -= 1;
        if !mark_run(opened, runs[at].as_slice())? {
            return Ok(false);
        }
    }
    Ok(true)
}

fn mark_levels(opened: &mut OpenedMarks, levels: &[Level]) -> Result<bool, AllocError>
    requires { HasSmallNumbers levels.now }
    ensures { IfOk result (λ b. MarksMore opened.old b (entries_in levels.now) opened.new) }
{
    let mut at = levels.len();
    while at > 0 {
        at -= 1;
        if !mark_level(opened, levels[at].as_slice())? {
            return Ok(false);
        }
    }
    Ok(true)
}

/// The marks of a version's tables, from the oldest entries to the newest. None where for some key the sequence numbers
/// don't fall along the tables, or a weak tombstone stands over two values. Keys share their bytes with the tables, and
/// each entry costs a look-up in the marks so far.
fn marks_of(alloc: Global, version: &Version) -> Result<Option<OpenedMarks>, AllocError>
    requires { HasSmallNumbers version.now.levels }
    ensures { IfOk result (λ told. MatchOption told (TablesAreInOrder version.now.levels → ⊥) (λ m. IsMarked m.marks m.least (held (placed_of version.now.levels)))) }
{
    let mut opened = OpenedMarks {
        marks: BTreeMap::new(alloc),
        least: 0,
    };
    if !mark_levels(&mut opened, version.levels())? {
        return Ok(None);
    }
    Ok(Some(opened))
}

/// The marks of a version's tables, as `marks_of`, and a copy of the version, which shares the tables.
pub(crate) fn opened_of(
    alloc: Global,
    version: &Version,
) -> Result<Option<(OpenedMarks, Version)>, AllocError>
    requires { HasSmallNumbers version.now.levels }
    ensures { IfOk result (λ told. MatchOption told (TablesAreInOrder version.now.levels → ⊥) (IsOpenedWith version.now)) }
{
    let Some(marks) = marks_of(alloc, version)? else {
        return Ok(None);
    };
    let copy = version.copy(alloc)?;
    Ok(Some((marks, copy)))
}
