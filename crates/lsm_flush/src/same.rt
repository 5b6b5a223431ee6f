// Whether a job is what it was: its memtables, its tables.
ghost use Rattle.std.specs.Prelude.{◌≡◌, ◌↔◌, IsTrue};

use lsm_below::{has_same_parts, have_same_parts};
use lsm_memtable::{Iter, Memtable};
use lsm_tables::Table;

fn same_table(left: &Table, right: &Table) -> bool
    ensures { IsTrue result ↔ (left.now ≡ right.now) }
{
    let ids = left.id() == right.id();
    let moments = left.created_at() == right.created_at();
    ids && moments && have_same_parts(left.entries(), right.entries())
}

/// Whether tables are the same: their ids, moments and entries. The cost is linear in the entries.
pub fn same_tables(left: &[Table], right: &[Table]) -> bool
    ensures { IsTrue result ↔ (left.now ≡ right.now) }
{
    if left.len() != right.len() {
        return false;
    }
    for at in 0..left.len() {
        if !same_table(&left[at], &right[at]) {
            return false;
        }
    }
    true
}

fn same_rests(left: Iter<'_>, right: Iter<'_>) -> bool
    ensures { IsTrue result ↔ (left ≡ right) }
{
    let mut left = left;
    let mut right = right;
    'pairs: loop {
        match (left.next(), right.next()) {
            (None, None) => return true,
            (Some(one), Some(other)) => {
                if !has_same_parts(one, other) {
                    return false;
                }
            }
            _ => return false,
        }
    }
}

/// Whether two memtables have the same entries: key, sequence number, type and value. The cost is linear in the entries.
pub fn same_entries(left: &Memtable, right: &Memtable) -> bool
    ensures { IsTrue result ↔ (left.now.entries ≡ right.now.entries) }
{
    same_rests(left.iter(), right.iter())
}
