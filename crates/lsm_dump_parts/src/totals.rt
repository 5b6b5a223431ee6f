// What is counted of all files.
use crate::look::{RecordLook, TableLook};
use serde::Serialize;

/// What is counted of all files.
#[derive(Clone, Copy, Serialize)]
pub struct Totals {
    pub tables: usize,
    pub runs: usize,
    pub entries: usize,
    pub tombstones: usize,
    pub weak: usize,
    pub bytes: u64,
    pub records: usize,
    pub writes: usize,
    pub record_bytes: u64,
}

fn add_table(total: &mut Totals, table: &TableLook) {
    total.bytes = total.bytes.saturating_add(table.bytes);
    if let Some(entries) = &table.entries {
        total.entries = total.entries.saturating_add(entries.count);
        total.tombstones = total.tombstones.saturating_add(entries.tombstones);
        total.weak = total.weak.saturating_add(entries.weak);
    }
}

fn count_runs(tables: &[TableLook]) -> usize {
    let mut runs: usize = 0;
    let mut before = None;
    for table in tables {
        let run = table.run();
        if run.is_some() && run != before {
            runs = runs.saturating_add(1);
        }
        before = run;
    }
    runs
}

/// What is counted of these tables and records.
pub(crate) fn totals_of(tables: &[TableLook], records: &[RecordLook]) -> Totals {
    let mut total = Totals {
        tables: tables.len(),
        runs: count_runs(tables),
        entries: 0,
        tombstones: 0,
        weak: 0,
        bytes: 0,
        records: records.len(),
        writes: 0,
        record_bytes: 0,
    };
    for table in tables {
        add_table(&mut total, table);
    }
    for record in records {
        total.record_bytes = total.record_bytes.saturating_add(record.bytes);
        let writes = record.writes.map_or(0, |writes| writes.count);
        total.writes = total.writes.saturating_add(writes);
    }
    total
}
