// Tables sorted by their keys, no two of which share one.
ghost use Rattle.std.specs.Prelude.{◌≡◌, ◌+◌, ◌-◌, ◌<◌, true, false, [], ◌∷◌, length, IfOk, OnOk, OnErr, IfSome, IfNone, MatchOption, option_copied, IsTrue, ◌↔◌};
ghost use Rattle.std.specs.List.{find, filter};
ghost use Rattle.lsm_below.specs.Ranges.{in_range, overlap, is_within, IsRange, IsHull};
ghost use Rattle.lsm_below.specs.Runs.{IsRun, IsCut, IsSpan, stands, is_short_of, starts_in, is_touched};
ghost use Rattle.lsm_below.specs.Greedy.{is_free, put, starts_behind};

use crate::key_range::key_is_below;
use crate::{KeyRange, Ranged, UserKey};
use std::alloc::{AllocError, Global};
use std::marker::Model;
use std::ops::Bound;

/// Where a range may stand to a key.
#[derive(Clone, Copy)]
enum Side {
    EndsBefore,
    EndsAtOrBefore,
    StartsBefore,
    StartsAtOrBefore,
}

fn stands_so(side: Side, key: &[u8], range: &KeyRange) -> bool
    ensures { result ≡ stands side key.now range.now }
{
    match side {
        Side::EndsBefore => key_is_below(range.max_bytes(), key),
        Side::EndsAtOrBefore => !key_is_below(key, range.max_bytes()),
        Side::StartsBefore => key_is_below(range.min_bytes(), key),
        Side::StartsAtOrBefore => !key_is_below(key, range.min_bytes()),
    }
}

/// How many tables of a run stand so to a key: they are the first ones.
fn count_standing<T: Ranged>(tables: &[T], side: Side, key: &[u8]) -> usize
    requires { IsRun T.range tables.now }
    ensures { IsCut (λ t. stands side key.now (T.range t)) tables.now result }
{
    let mut low = 0;
    let mut high = tables.len();
    while low < high {
        let mid = low + (high - low) / 2;
        if stands_so(side, key, tables[mid].key_range()) {
            low = mid + 1;
        } else {
            high = mid;
        }
    }
    low
}

fn count_short<T: Ranged>(tables: &[T], lower: &Bound<UserKey>) -> usize
    requires { IsRun T.range tables.now }
    ensures { IsCut (λ t. is_short_of lower.now (T.range t)) tables.now result }
{
    match lower {
        Bound::Included(key) => count_standing(tables, Side::EndsBefore, key.as_slice()),
        Bound::Excluded(key) => count_standing(tables, Side::EndsAtOrBefore, key.as_slice()),
        Bound::Unbounded => 0,
    }
}

fn count_started<T: Ranged>(tables: &[T], upper: &Bound<UserKey>) -> usize
    requires { IsRun T.range tables.now }
    ensures { IsCut (λ t. starts_in upper.now (T.range t)) tables.now result }
{
    match upper {
        Bound::Included(key) => count_standing(tables, Side::StartsAtOrBefore, key.as_slice()),
        Bound::Excluded(key) => count_standing(tables, Side::StartsBefore, key.as_slice()),
        Bound::Unbounded => tables.len(),
    }
}

/// The table whose range has the key.
fn find_for_key<'a, T: Ranged>(tables: &'a [T], key: &[u8]) -> Option<&'a T>
    requires { IsRun T.range tables.now }
    ensures { option_copied result ≡ find (λ t. in_range key.now (T.range t)) tables.now }
{
    let at = count_standing(tables, Side::EndsBefore, key);
    let table = tables.get(at)?;
    if key_is_below(key, table.key_range().min_bytes()) {
        None
    } else {
        Some(table)
    }
}

/// The tables that share a key with the range.
fn overlapping<'a, T: Ranged>(tables: &'a [T], range: &KeyRange) -> &'a [T]
    requires { IsRun T.range tables.now }
    ensures { result.now ≡ filter (λ t. overlap (T.range t) range.now) tables.now }
{
    let start = count_standing(tables, Side::EndsBefore, range.min_bytes());
    let end = count_standing(tables, Side::StartsAtOrBefore, range.max_bytes());
    if start < end {
        &tables[start..end]
    } else {
        &tables[..0]
    }
}

/// The tables whose keys are all in the range.
fn contained<'a, T: Ranged>(tables: &'a [T], range: &KeyRange) -> &'a [T]
    requires { IsRun T.range tables.now }
    ensures { result.now ≡ filter (λ t. is_within (T.range t) range.now) tables.now }
{
    let start = count_standing(tables, Side::StartsBefore, range.min_bytes());
    let end = count_standing(tables, Side::EndsAtOrBefore, range.max_bytes());
    if start < end {
        &tables[start..end]
    } else {
        &tables[..0]
    }
}

/// Whether no table of a run overlaps the range.
fn free_of<T: Ranged>(tables: &[T], range: &KeyRange) -> bool
    requires { IsRun T.range tables.now }
    ensures { result ≡ is_free T.range range.now tables.now }
{
    let at = count_standing(tables, Side::EndsBefore, range.min_bytes());
    match tables.get(at) {
        Some(table) => key_is_below(range.max_bytes(), table.key_range().min_bytes()),
        None => true,
    }
}

/// Inserts a table into a run that has none overlapping it.
fn put_table<T: Ranged + Drop>(tables: &mut Vec<T>, table: T) -> Result<(), AllocError>
    requires { IsRun T.range tables.old.items }
    ensures ok { OnOk result (tables.new.items ≡ put T.range table tables.old.items) }
    ensures range { IsRange (T.range table) }
    ensures err { OnErr result (tables.new.items ≡ tables.old.items) }
{
    table.key_range().facts();
    let at = count_standing(tables, Side::EndsBefore, table.key_range().min_bytes());
    Ok(tables.insert(at, table)?)
}

fn overlap_indexes<T: Ranged>(
    tables: &[T],
    lower: &Bound<UserKey>,
    upper: &Bound<UserKey>,
) -> Option<(usize, usize)>
    requires { IsRun T.range tables.now }
    ensures { MatchOption result (filter (λ t. is_touched lower.now upper.now (T.range t)) tables.now ≡ []) (λ at. IsSpan (λ t. is_touched lower.now upper.now (T.range t)) tables.now at.0 at.1) }
{
    let start = count_short(tables, lower);
    let end = count_started(tables, upper);
    if start < end {
        Some((start, end - 1))
    } else {
        None
    }
}

/// From the least key of a run to the greatest.
fn aggregate_of<T: Ranged>(tables: &[T]) -> Result<KeyRange, AllocError>
    requires run { IsRun T.range tables.now }
    requires some { 0 < length tables.now }
    ensures { IfOk result (λ r. IsHull T.range tables.now r) }
{
    let first = &tables[0];
    let last = &tables[tables.len() - 1];
    let hull = first.key_range().joined(last.key_range())?;
    Ok(hull)
}

/// Whether the first table begins after a range ends.
fn begins_behind<T: Ranged>(range: &KeyRange, tables: &[T]) -> bool
    ensures { result ≡ starts_behind T.range range.now tables.now }
{
    match tables.first() {
        Some(first) => key_is_below(range.max_bytes(), first.key_range().min_bytes()),
        None => true,
    }
}

/// Whether tables are sorted by their keys, no two of which share one.
pub fn is_run<T: Ranged>(tables: &[T]) -> bool
    ensures { IsTrue result ↔ IsRun T.range tables.now }
{
    let mut rest = tables;
    while !rest.is_empty() {
        let first = &rest[0];
        let behind = &rest[1..];
        first.key_range().facts();
        if !begins_behind(first.key_range(), behind) {
            return false;
        }
        rest = behind;
    }
    true
}

/// Tables sorted by their keys, at least one, no two of which share a key. Look-ups are logarithmic in their number.
///
/// ```text
/// let run = Run::new(tables)?;
/// let table = run.get_for_key(b"key")?;
/// ```
#[derive(Drop)]
pub struct Run<T: Ranged> {
    tables: Vec<T>,
}

impl<T: Ranged> Model for Run<T> {
    ghost use Rattle.std.specs.Prelude.{List, ◌<◌, length};
    ghost use Rattle.lsm_below.specs.Runs.{IsRun};

    ghost Value = { List T };

    ghost view = { λ r. r.tables.items };

    ghost invariant = { λ r. IsRun T.range r.tables.items × (0 < length r.tables.items) };
}

impl<T: Ranged> Run<T> {
    /// A run of these tables, which are sorted and disjoint. None for none.
    pub fn new(tables: Vec<T>) -> Option<Run<T>>
    where
        T: Drop,
        requires { IsRun T.range tables.items }
        ensures some { IfSome result (λ r. (r ≡ tables.items) × (0 < length tables.items)) }
        ensures none { IfNone result (tables.items ≡ []) }
    {
        if tables.is_empty() {
            return None;
        }
        Some(Run { tables })
    }

    /// What every run meets: it is sorted, its tables are disjoint, and it has one at least.
    pub fn facts(&self)
        ensures run { IsRun T.range self.now }
        ensures some { 0 < length self.now }
    {
        let _ = &self.tables;
    }

    /// The tables, by their keys.
    pub fn as_slice(&self) -> &[T]
        ensures { result.now ≡ self.now }
    {
        &self.tables
    }

    /// The tables, taken out of the run.
    pub fn into_tables(self) -> Vec<T>
        ensures { result.items ≡ self }
    {
        let Run { tables } = self;
        tables
    }

    /// A run of one table.
    pub fn single(alloc: Global, table: T) -> Result<Run<T>, AllocError>
    where
        T: Drop,
        ensures { IfOk result (λ r. r ≡ table ∷ []) }
    {
        table.key_range().facts();
        let mut tables = Vec::with_capacity(alloc, 1)?;
        tables.push(table)?;
        Ok(Run { tables })
    }

    /// Whether no table overlaps the range.
    pub(crate) fn is_free_of(&self, range: &KeyRange) -> bool
        ensures { result ≡ is_free T.range range.now self.now }
    {
        free_of(&self.tables, range)
    }

    /// Inserts a table, where none overlaps it.
    pub(crate) fn put(&mut self, table: T) -> Result<(), AllocError>
    where
        T: Drop,
        requires { is_free T.range (T.range table) self.old ≡ true }
        ensures ok { OnOk result (self.new ≡ put T.range table self.old) }
        ensures err { OnErr result (self.new ≡ self.old) }
    {
        put_table(&mut self.tables, table)?;
        Ok(())
    }

    /// The range that just holds those of the tables. Refused only for want of memory.
    pub fn aggregate_key_range(&self) -> Result<KeyRange, AllocError>
        ensures { IfOk result (λ r. IsHull T.range self.now r) }
    {
        aggregate_of(&self.tables)
    }

    /// The table whose range has the key.
    pub fn get_for_key(&self, key: &[u8]) -> Option<&T>
        ensures { option_copied result ≡ find (λ t. in_range key.now (T.range t)) self.now }
    {
        find_for_key(&self.tables, key)
    }

    /// The tables that share a key with the range: a part of the run.
    pub fn get_overlapping(&self, range: &KeyRange) -> &[T]
        ensures { result.now ≡ filter (λ t. overlap (T.range t) range.now) self.now }
    {
        overlapping(&self.tables, range)
    }

    /// The tables whose keys are all in the range: a part of the run.
    pub fn get_contained(&self, range: &KeyRange) -> &[T]
        ensures { result.now ≡ filter (λ t. is_within (T.range t) range.now) self.now }
    {
        contained(&self.tables, range)
    }

    /// The first and the last place of the tables that reach into the bounds, an excluded one strictly.
    /// None if no table does.
    pub fn range_overlap_indexes(
        &self,
        lower: &Bound<UserKey>,
        upper: &Bound<UserKey>,
    ) -> Option<(usize, usize)>
        ensures { MatchOption result (filter (λ t. is_touched lower.now upper.now (T.range t)) self.now ≡ []) (λ at. IsSpan (λ t. is_touched lower.now upper.now (T.range t)) self.now at.0 at.1) }
    {
        overlap_indexes(&self.tables, lower, upper)
    }
}

impl<T: Ranged + Clone + Drop> Run<T> {
    /// A copy, of clones of the tables. Refused only for want of memory.
    pub fn copy(&self) -> Result<Run<T>, AllocError>
        requires { (x y : T) → T.is_clone x y → y ≡ x }
        ensures { IfOk result (λ r. r ≡ self.now) }
    {
        Ok(Run {
            tables: self.tables.clone()?,
        })
    }
}
