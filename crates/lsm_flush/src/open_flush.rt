// What a tree knows of its open flush.
ghost use Rattle.std.specs.Prelude.{◌≡◌, []};

use lsm_below::MemtableId;
use lsm_tables::Table;
use std::alloc::Global;
use std::marker::Model;

/// What a tree knows of its open flush: its number, its memtables from the newest, and the tables that were written for
/// it.
#[derive(Drop)]
pub struct OpenFlush {
    number: u64,
    ids: Vec<MemtableId>,
    written: Vec<Table>,
}

impl Model for OpenFlush {
    ghost use Rattle.lsm_flush.specs.Jobs.{SeenOpen};

    ghost Value = { SeenOpen };

    ghost view = { λ f. record { number = f.number; ids = f.ids.items; written = f.written.items } };
}

impl OpenFlush {
    /// A flush for which nothing is written yet.
    pub fn new(alloc: Global, number: u64, ids: Vec<MemtableId>) -> OpenFlush
        ensures { result ≡ record { number = number; ids = ids.items; written = [] } }
    {
        OpenFlush {
            number,
            ids,
            written: Vec::new(alloc),
        }
    }

    /// Its number.
    pub fn number(&self) -> u64
        ensures { result ≡ self.now.number }
    {
        self.number
    }

    /// The ids of its memtables, from the newest.
    pub fn ids(&self) -> &[MemtableId]
        ensures { result.now ≡ self.now.ids }
    {
        &self.ids
    }

    /// The tables that were written for it.
    pub fn written(&self) -> &[Table]
        ensures { result.now ≡ self.now.written }
    {
        &self.written
    }

    /// With tables that were written for it, in place of those that were before.
    pub fn with_written(self, tables: Vec<Table>) -> OpenFlush
        ensures { result ≡ record self { written = tables.items } }
    {
        let OpenFlush {
            number,
            ids,
            written,
        } = self;
        drop(written);
        OpenFlush {
            number,
            ids,
            written: tables,
        }
    }
}
