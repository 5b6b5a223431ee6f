// The jobs of a flush as values that may be let go.
ghost use Rattle.std.specs.Prelude.{◌≡◌};

use crate::merging::Kept;
use crate::{FlushJob, MergedFlush, SealedMemtable, WrittenFlush};
use lsm_below::SeqNo;
use lsm_tables::Table;
use std::alloc::Global;
use std::marker::Model;

/// A `FlushJob` that may be let go, as lists of calls keep one. If it is, its flush stays open until the tree is opened again.
#[derive(Drop)]
pub struct KeptFlush {
    alloc: Global,
    number: u64,
    memtables: Vec<SealedMemtable>,
}

impl Model for KeptFlush {
    ghost use Rattle.lsm_flush.specs.Jobs.{SeenJob, job_of, AreWritable};

    ghost Value = { SeenJob };

    ghost view = { λ j. job_of j.number j.memtables.items };

    ghost invariant = { λ j. AreWritable j.memtables.items };
}

impl FlushJob {
    /// The same, as a value that may be let go.
    pub fn keep(self) -> KeptFlush
        ensures { result ≡ self }
    {
        let FlushJob {
            alloc,
            number,
            memtables,
        } = self;
        KeptFlush {
            alloc,
            number,
            memtables,
        }
    }
}

impl KeptFlush {
    /// The job again.
    pub fn into_job(self) -> FlushJob
        ensures { result ≡ self }
    {
        let KeptFlush {
            alloc,
            number,
            memtables,
        } = self;
        FlushJob {
            alloc,
            number,
            memtables,
        }
    }
}

/// A `MergedFlush` that may be let go, as `KeptFlush`.
#[derive(Drop)]
pub struct KeptMerged {
    job: KeptFlush,
    watermark: SeqNo,
    kept: Kept,
}

impl Model for KeptMerged {
    ghost use Rattle.lsm_flush.specs.Jobs.{SeenMerged, IsMergedFrom, kept_in};

    ghost Value = { SeenMerged };

    ghost view = { λ m. record { job = m.job; watermark = m.watermark; entries = kept_in m.job.sources m.kept } };

    ghost invariant = { λ m. IsMergedFrom m.job m.watermark (kept_in m.job.sources m.kept) };
}

impl MergedFlush {
    /// The same, as a value that may be let go.
    pub fn keep(self) -> KeptMerged
        ensures { result ≡ self }
    {
        let MergedFlush {
            job,
            watermark,
            kept,
        } = self;
        KeptMerged {
            job: job.keep(),
            watermark,
            kept,
        }
    }
}

impl KeptMerged {
    /// The job again.
    pub fn into_job(self) -> MergedFlush
        ensures { result ≡ self }
    {
        let KeptMerged {
            job,
            watermark,
            kept,
        } = self;
        MergedFlush {
            job: job.into_job(),
            watermark,
            kept,
        }
    }
}

/// A `WrittenFlush` that may be let go, as `KeptFlush`.
#[derive(Drop)]
pub struct KeptWritten {
    job: KeptFlush,
    watermark: SeqNo,
    tables: Vec<Table>,
}

impl Model for KeptWritten {
    ghost use Rattle.lsm_flush.specs.Jobs.{SeenWritten, IsWrittenFrom};

    ghost Value = { SeenWritten };

    ghost view = { λ m. record { job = m.job; watermark = m.watermark; tables = m.tables.items } };

    ghost invariant = { λ m. IsWrittenFrom m.job m.watermark m.tables.items };
}

impl WrittenFlush {
    /// The same, as a value that may be let go.
    pub fn keep(self) -> KeptWritten
        ensures { result ≡ self }
    {
        let WrittenFlush {
            job,
            watermark,
            tables,
        } = self;
        KeptWritten {
            job: job.keep(),
            watermark,
            tables,
        }
    }
}

impl KeptWritten {
    /// The job again.
    pub fn into_job(self) -> WrittenFlush
        ensures { result ≡ self }
    {
        let KeptWritten {
            job,
            watermark,
            tables,
        } = self;
        WrittenFlush {
            job: job.into_job(),
            watermark,
            tables,
        }
    }
}
