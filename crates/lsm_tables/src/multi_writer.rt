// Entries cut into tables.
ghost use Rattle.std.specs.Prelude.{◌≡◌, ◌+◌, ◌++◌, ◌∷◌, [], ◌<◌, ◌↔◌, map, drop, length, IfOk, IfErr, OnOk, OnErr, IsTrue};
ghost use Rattle.lsm_below.specs.Sums.{capped};
ghost use Rattle.lsm_tables.specs.Image.{IsTable};
ghost use Rattle.lsm_tables.specs.Cutting.{IsWritable, IsFirstEnd, CutsFirst, AreImagesOf, CutsAreRuns, FirstEndsCut, KeptIsWritable};

use crate::Entries;
use crate::image::{HEAD_LEN, encode_parts, may_stand_behind};
use lsm_below::{InternalValue, entries_are_ordered, has_same_key, keys_are_ordered};
use std::alloc::{AllocError, AllocFailed, Global};
use std::marker::Model;

/// The bytes that an entry takes in a table's file, up to 2^64 - 1: 15, its key's and its value's.
pub fn size_of_entry(entry: &InternalValue) -> u64
    ensures { result ≡ capped (15 + length entry.now.key.user_key + length entry.now.value) }
{
    (HEAD_LEN as u64)
        .saturating_add(entry.key.user_key.len() as u64)
        .saturating_add(entry.value.len() as u64)
}

/// Where the first table of entries ends, what comes after it, and the bytes that its entries take: before an entry of
/// another key, as soon as it has the target, or with the last entry.
fn first_end<'a>(entries: &Entries<'a>, target: u64) -> (usize, Entries<'a>, u64)
    requires { 0 < length entries.now }
    ensures end { IsFirstEnd target entries.now result.0 }
    ensures rest { result.1 ≡ drop result.0 entries.now }
{
    let Some((first, behind)) = entries.split_first() else {
        return (0, entries.copy(), 0);
    };
    // Their number fits.
    let _ = entries.len();
    let mut last = first;
    let mut rest = behind;
    let mut end = 1;
    let mut held = size_of_entry(first);
    while let Some((entry, behind)) = rest.split_first() {
        if held >= target && !has_same_key(last, entry) {
            return (end, rest, held);
        }
        held = held.saturating_add(size_of_entry(entry));
        last = entry;
        rest = behind;
        end += 1;
    }
    (end, rest, held)
}

/// The entries of the first of the tables into which entries are cut, as `write_tables` cuts them, what comes after
/// them, and the bytes that the first take in a file: for callers that write one table at a time. The cost is linear in
/// the first table.
///
/// ```text
/// let (table, rest, held) = split_table(&entries, target);
/// let file = encode_parts(alloc, made_at, &table, held)?;
/// ```
pub fn split_table<'a>(entries: &Entries<'a>, target: u64) -> (Entries<'a>, Entries<'a>, u64)
    requires some { 0 < length entries.now }
    requires writable { IsWritable entries.now }
    ensures parts { result.0 ++ result.1 ≡ entries.now }
    ensures table { IsTable result.0 }
    ensures writable { IsWritable result.1 }
    ensures cut { CutsFirst target entries.now result.0 result.1 }
{
    keys_are_ordered();
    entries_are_ordered();
    // Their number fits.
    let _ = entries.len();
    let (end, rest, held) = first_end(entries, target);
    (entries.up_to(end), rest, held)
}

/// The tables into which a list is cut are a run: their keys rise, and no two share one.
pub fn cuts_are_runs()
    ensures { CutsAreRuns }
{
    keys_are_ordered();
    entries_are_ordered();
}

/// Where the first table of entries ends, it may be cut off, whatever comes after it.
pub fn first_ends_cut()
    ensures { FirstEndsCut }
{
    keys_are_ordered();
    entries_are_ordered();
}

/// What a compaction keeps of entries that may be written may be written too.
pub fn kept_is_writable()
    ensures { KeptIsWritable }
{}

/// The contents of the files of the tables into which entries are cut, made at this moment (in nanoseconds).
///
/// A table ends only between two keys, so all versions of a key stand in one table; and it ends
/// as soon as its entries have the target in bytes, where an entry has 15, its key's and its
/// value's. No entries: no tables. The cost is linear in the bytes.
///
/// # Errors
///
/// Refused only for want of memory.
pub fn write_tables(
    alloc: Global,
    target: u64,
    made_at: u64,
    entries: &[InternalValue],
) -> Result<Vec<Vec<u8>>, AllocError>
    requires { IsWritable entries.now }
    ensures { IfOk result (λ images. AreImagesOf target made_at entries.now (map (λ v. v.items) images.items)) }
{
    let mut images = Vec::new(alloc);
    let mut rest = Entries::of(entries);
    while !rest.is_empty() {
        let (table, behind, held) = split_table(&rest, target);
        images.push(encode_parts(alloc, made_at, &table, held)?)?;
        rest = behind;
    }
    Ok(images)
}

/// Takes entries one by one, and writes tables of them, as `write_tables` does.
///
/// ```text
/// let mut writer = MultiWriter::new(alloc, 64 * 1024 * 1024, made_at);
/// if writer.may_write(&entry) {
///     writer.write(entry)?;
/// }
/// for file in writer.finish()? { .. }
/// ```
#[derive(Drop)]
pub struct MultiWriter {
    alloc: Global,
    target: u64,
    made_at: u64,
    entries: Vec<InternalValue>,
}

impl Model for MultiWriter {
    ghost use Rattle.lsm_tables.specs.Cutting.{SeenWriter, IsWritable};

    ghost Value = { SeenWriter };

    ghost view = { λ w. record { target = w.target; made_at = w.made_at; written = w.entries.items } };

    ghost invariant = { λ w. IsWritable w.entries.items };
}

impl MultiWriter {
    /// A writer of tables of this target, in bytes of entries, and made at this moment, in
    /// nanoseconds.
    pub fn new(alloc: Global, target: u64, made_at: u64) -> MultiWriter
        ensures { result ≡ record { target = target; made_at = made_at; written = [] } }
    {
        MultiWriter {
            alloc,
            target,
            made_at,
            entries: Vec::new(alloc),
        }
    }

    /// Whether an entry fits a table's file and comes after those that were written.
    pub fn may_write(&self, entry: &InternalValue) -> bool
        ensures { IsTrue result ↔ IsWritable (self.now.written ++ entry.now ∷ []) }
    {
        may_stand_behind(&self.entries, entry)
    }

    /// Takes the next entry. Refused only for want of memory, and then the entry comes back and
    /// nothing changes.
    pub fn write(&mut self, entry: InternalValue) -> Result<(), AllocFailed<InternalValue>>
        requires { IsWritable (self.old.written ++ entry ∷ []) }
        ensures ok { OnOk result (self.new ≡ record self.old { written = self.old.written ++ entry ∷ [] }) }
        ensures err { OnErr result (self.new ≡ self.old) }
        ensures back { IfErr result (λ e. e.value ≡ entry) }
    {
        self.entries.push(entry)
    }

    /// The contents of the files of the tables into which the entries are cut. Refused only for want of memory;
    /// the writer keeps its entries.
    pub fn finish(&self) -> Result<Vec<Vec<u8>>, AllocError>
        ensures { IfOk result (λ images. AreImagesOf self.now.target self.now.made_at self.now.written (map (λ v. v.items) images.items)) }
    {
        write_tables(self.alloc, self.target, self.made_at, &self.entries)
    }
}
