// What is counted of tables together.
ghost use Rattle.std.specs.Prelude.{◌≡◌, List, ◌∷◌, ◌++◌, []};
ghost use Rattle.lsm_tables.specs.Tables.{SeenTable};
ghost use Rattle.lsm_versions.specs.Levels.{all_of};
ghost use Rattle.lsm_versions.specs.Totals.{totals_of};

use crate::{Level, tables_in};
use lsm_below::SeqNo;
use lsm_tables::Table;

/// What is counted of tables together. A sum past 2^64 - 1 stands there.
///
/// ```text
/// let bytes = version.totals().bytes;
/// ```
#[derive(Clone, Copy, Debug, PartialEq, Eq)]
pub struct Totals {
    /// How many tables there are.
    pub tables: usize,
    /// How many entries they have.
    pub items: usize,
    /// The bytes of their files.
    pub bytes: u64,
    /// The greatest sequence number of an entry, 0 where there is no table.
    pub highest: SeqNo,
    /// How many entries remove their key, weakly or not.
    pub tombstones: usize,
    /// How many entries remove their key weakly.
    pub weak_tombstones: usize,
    /// How many weak tombstones stand directly above a value of their key.
    pub reclaimable: usize,
}

impl Totals {
    /// Of no table.
    pub(crate) fn none() -> Totals
        ensures { result ≡ totals_of [] }
    {
        Totals {
            tables: 0,
            items: 0,
            bytes: 0,
            highest: 0,
            tombstones: 0,
            weak_tombstones: 0,
            reclaimable: 0,
        }
    }

    fn of(table: &Table) -> Totals
        ensures { result ≡ totals_of (table.now ∷ []) }
    {
        Totals {
            tables: 1,
            items: table.item_count(),
            bytes: table.file_size(),
            highest: table.get_highest_seqno(),
            tombstones: table.tombstone_count(),
            weak_tombstones: table.weak_tombstone_count(),
            reclaimable: table.weak_tombstone_reclaimable(),
        }
    }

    fn plus(self, other: Totals) -> Totals
        ensures { (xs ys : List SeenTable) → self ≡ totals_of xs → other ≡ totals_of ys → result ≡ totals_of (xs ++ ys) }
    {
        Totals {
            tables: self.tables.saturating_add(other.tables),
            items: self.items.saturating_add(other.items),
            bytes: self.bytes.saturating_add(other.bytes),
            highest: self.highest.max(other.highest),
            tombstones: self.tombstones.saturating_add(other.tombstones),
            weak_tombstones: self.weak_tombstones.saturating_add(other.weak_tombstones),
            reclaimable: self.reclaimable.saturating_add(other.reclaimable),
        }
    }
}

/// What is counted of all tables of levels.
pub(crate) fn totals_in(levels: &[Level]) -> Totals
    ensures { result ≡ totals_of (all_of levels.now) }
{
    let mut totals = Totals::none();
    for table in tables_in(levels) {
        totals = totals.plus(Totals::of(table));
    }
    totals
}
