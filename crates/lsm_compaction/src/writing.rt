// What a source gives, as the contents of tables' files.
ghost use Rattle.std.specs.Prelude.{◌≡◌, ℕ, ◌∷◌, List, OnOk, IfOk, IfErr};
ghost use Rattle.lsm_below.specs.Entries.{Entry};
ghost use Rattle.lsm_tables.specs.Cutting.{IsWritable, AreImagesOf};
ghost use Rattle.lsm_tables.specs.Image.{Fits};
ghost use Rattle.lsm_compaction.specs.Merges.{with_last};
ghost use Rattle.lsm_compaction.specs.OpenTables.{IsOpenWith, IsWriting};

use crate::open_table::OpenTable;
use bytes::Bytes;
use lsm_below::{AsEntry, Error, Source};
use lsm_tables::first_ends_cut;
use std::alloc::Global;
use std::mem;

/// The files, with that of the table that is still open.
fn with_open<I: AsEntry>(mut files: Vec<Bytes>, table: OpenTable<I>) -> Result<Vec<Bytes>, Error>
    ensures ok { (made_at : ℕ) (es : List Entry) → IsOpenWith I.shows made_at es table → IfOk result (λ all. all.items ≡ with_last made_at files.items es) }
    ensures memory { IfErr result (λ e. e ≡ Error.OutOfMemory) }
{
    if !table.is_empty() {
        files.push(table.into_file()?)?;
    }
    Ok(files)
}

/// Takes an entry into the table that is open, which ends before it where it is to.
fn take_entry<I: AsEntry>(
    alloc: Global,
    files: &mut Vec<Bytes>,
    table: &mut OpenTable<I>,
    target: u64,
    made_at: u64,
    entry: I,
) -> Result<(), Error>
    requires { Fits (I.shows entry) }
    ensures ok { (all rest : List Entry) → IsWriting I.shows target made_at all files.old.items table.old (I.shows entry ∷ rest) → OnOk result (IsWriting I.shows target made_at all files.new.items table.new rest) }
    ensures memory { IfErr result (λ e. e ≡ Error.OutOfMemory) }
{
    first_ends_cut();
    // Their number fits.
    let _ = table.count();
    if table.ends_before(target, &entry) {
        let next = OpenTable::new(alloc, made_at)?;
        files.push(mem::replace(table, next).into_file()?)?;
    }
    table.push(entry)?;
    Ok(())
}

/// The contents of the files of the tables into which the entries of a source are cut, made at this moment (in
/// nanoseconds). Each entry is spelled when it comes, and the last one is all that is
/// kept of them. The cost is linear in the bytes.
///
/// # Errors
///
/// Refused where the source is, or for want of memory.
pub(crate) fn spell_files<S: Source<Error = Error>>(
    alloc: Global,
    mut source: S,
    target: u64,
    made_at: u64,
) -> Result<Vec<Bytes>, Error>
    requires refusals { (e : Error) → S.may_refuse e → e ≡ Error.OutOfMemory }
    requires writable { IsWritable (S.rest source).entries }
    ensures ok { IfOk result (λ files. AreImagesOf target made_at (S.rest source).entries files.items) }
    ensures memory { IfErr result (λ e. e ≡ Error.OutOfMemory) }
{
    first_ends_cut();
    let mut files = Vec::new(alloc);
    let mut table = OpenTable::new(alloc, made_at)?;
    'entries: loop {
        let entry = match source.next_entry() {
            None => {
                let _ = table.count();
                return with_open(files, table);
            }
            Some(Err(error)) => return Err(error),
            Some(Ok(entry)) => entry,
        };
        take_entry(alloc, &mut files, &mut table, target, made_at, entry)?;
    }
}
