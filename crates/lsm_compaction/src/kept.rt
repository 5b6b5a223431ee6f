// The jobs of a merge as values that may be let go.
ghost use Rattle.std.specs.Prelude.{◌≡◌};

use crate::{CompactionJob, MergeSettings, MergedCompaction};
use bytes::Bytes;
use lsm_below::{Run, TableId};
use lsm_tables::Table;
use std::alloc::Global;
use std::collections::HashSet;
use std::marker::Model;

/// A `CompactionJob` that may be let go, as lists of calls keep one. If it is, its tables stay in use until the tree is opened
/// again.
#[derive(Drop)]
pub struct KeptCompaction {
    alloc: Global,
    number: u64,
    ids: HashSet<TableId>,
    inputs: Vec<Run<Table>>,
    settings: MergeSettings,
}

impl Model for KeptCompaction {
    ghost use Rattle.lsm_compaction.specs.Merges.{SeenCompaction, IsJob};

    ghost Value = { SeenCompaction };

    ghost view = { λ j. record { number = j.number; ids = j.ids.keys; inputs = j.inputs.items; settings = j.settings } };

    ghost invariant = { λ j. IsJob (record { number = j.number; ids = j.ids.keys; inputs = j.inputs.items; settings = j.settings }) };
}

impl CompactionJob {
    /// The same, as a value that may be let go.
    pub fn keep(self) -> KeptCompaction
        ensures { result ≡ self }
    {
        let CompactionJob {
            alloc,
            number,
            ids,
            inputs,
            settings,
        } = self;
        KeptCompaction {
            alloc,
            number,
            ids,
            inputs,
            settings,
        }
    }
}

impl KeptCompaction {
    /// The job again.
    pub fn into_job(self) -> CompactionJob
        ensures { result ≡ self }
    {
        let KeptCompaction {
            alloc,
            number,
            ids,
            inputs,
            settings,
        } = self;
        CompactionJob {
            alloc,
            number,
            ids,
            inputs,
            settings,
        }
    }
}

/// A `MergedCompaction` that may be let go, as `KeptCompaction`.
#[derive(Drop)]
pub struct KeptCompacted {
    job: KeptCompaction,
    files: Vec<Bytes>,
}

impl Model for KeptCompacted {
    ghost use Rattle.lsm_compaction.specs.Merges.{SeenCompacted, AreFilesOf};

    ghost Value = { SeenCompacted };

    ghost view = { λ m. record { job = m.job; files = m.files.items } };

    ghost invariant = { λ m. AreFilesOf m.job.settings m.job.inputs m.files.items };
}

impl MergedCompaction {
    /// The same, as a value that may be let go.
    pub fn keep(self) -> KeptCompacted
        ensures { result ≡ self }
    {
        let MergedCompaction { job, files } = self;
        KeptCompacted {
            job: job.keep(),
            files,
        }
    }
}

impl KeptCompacted {
    /// The job again.
    pub fn into_job(self) -> MergedCompaction
        ensures { result ≡ self }
    {
        let KeptCompacted { job, files } = self;
        MergedCompaction {
            job: job.into_job(),
            files,
        }
    }
}
