// The jobs of a flush, stage by stage.
ghost use Rattle.std.specs.Prelude.{◌≡◌, flat_map, IfOk, IfErr};
ghost use Rattle.lsm_below.specs.Runs.{IsRun};
ghost use Rattle.lsm_versions.specs.Levels.{range};
ghost use Rattle.lsm_memtable.specs.Memtables.{highest_of};
ghost use Rattle.lsm_flush.specs.Jobs.{after, passed_by, entries_in, AreWritable, job_of, IsMergedFrom, IsWrittenFrom};

use crate::SealedMemtable;
use crate::merging::{Kept, merge_unless_whole, parts_kept};
use lsm_below::{Error, SeqNo};
use lsm_tables::{Parts, Table};
use std::alloc::{AllocError, Global};
use std::marker::Model;

/// A flush that is to be done outside the tree: memtables from the newest, shared with it. While it is underway no other flush
/// is begun, so the compiler refuses code that lets a job go: it is registered in the end, or given up.
///
/// ```text
/// let merged = job.run(watermark)?; // no lock is needed for it
/// ```
pub struct FlushJob {
    pub(crate) alloc: Global,
    pub(crate) number: u64,
    pub(crate) memtables: Vec<SealedMemtable>,
}

impl Model for FlushJob {
    ghost use Rattle.lsm_flush.specs.Jobs.{SeenJob, job_of, AreWritable};

    ghost Value = { SeenJob };

    ghost view = { λ j. job_of j.number j.memtables.items };

    ghost invariant = { λ j. AreWritable j.memtables.items };
}

/// The number after one, 0 for none.
fn number_after(highest: Option<SeqNo>) -> SeqNo
    ensures { result ≡ after highest }
{
    match highest {
        Some(number) => number.saturating_add(1),
        None => 0,
    }
}

/// The number after all that a memtable has.
fn passed_by_one(memtable: &SealedMemtable) -> SeqNo
    ensures { result ≡ after (highest_of memtable.now.entries) }
{
    number_after(memtable.as_memtable().get_highest_seqno())
}

/// The number after all that memtables have.
fn passed_of(memtables: &[SealedMemtable]) -> SeqNo
    ensures { result ≡ passed_by (entries_in memtables.now) }
{
    let mut passed = 0u64;
    for memtable in memtables {
        passed = passed.max(passed_by_one(memtable));
    }
    passed
}

impl FlushJob {
    /// The job of this number, of memtables from the newest, whose entries fit files.
    pub fn new(alloc: Global, number: u64, memtables: Vec<SealedMemtable>) -> FlushJob
        requires { AreWritable memtables.items }
        ensures { result ≡ job_of number memtables.items }
    {
        FlushJob {
            alloc,
            number,
            memtables,
        }
    }

    /// The job's number: a tree gives each once.
    pub fn number(&self) -> u64
        ensures { result ≡ self.now.number }
    {
        self.number
    }

    /// Its memtables, from the newest.
    pub fn memtables(&self) -> &[SealedMemtable]
        ensures { job_of self.now.number result.now ≡ self.now }
    {
        &self.memtables
    }

    /// The number after all that the memtables have: a log is read from it on once they are flushed.
    pub fn passed(&self) -> SeqNo
        ensures { result ≡ passed_by self.now.sources }
    {
        passed_of(&self.memtables)
    }

    /// Merges the memtables into what a snapshot from the watermark on, or between two kept ones, may read of them. Keys
    /// and values are shared; of one memtable of which all is kept no entry is. The cost is linear in the entries.
    ///
    /// # Errors
    ///
    /// `OutOfMemory` where a growth was refused; the job comes back beside it.
    pub fn run(self, watermark: SeqNo) -> Result<MergedFlush, (Error, FlushJob)>
        ensures job { IfOk result (λ m. m.job ≡ self) }
        ensures watermark { IfOk result (λ m. m.watermark ≡ watermark) }
        ensures merged { IfOk result (λ m. IsMergedFrom self watermark m.entries) }
        ensures back { IfErr result (λ e. e.1 ≡ self) }
        ensures memory { IfErr result (λ e. e.0 ≡ Error.OutOfMemory) }
    {
        match merge_unless_whole(self.alloc, &self.memtables, watermark) {
            Ok(kept) => Ok(MergedFlush {
                job: self,
                watermark,
                kept,
            }),
            Err(error) => Err((error, self)),
        }
    }
}

/// A flush that was merged: what is kept of its memtables. It isn't let go either.
pub struct MergedFlush {
    pub(crate) job: FlushJob,
    pub(crate) watermark: SeqNo,
    pub(crate) kept: Kept,
}

impl Model for MergedFlush {
    ghost use Rattle.lsm_flush.specs.Jobs.{SeenMerged, IsMergedFrom, kept_in};

    ghost Value = { SeenMerged };

    ghost view = { λ m. record { job = m.job; watermark = m.watermark; entries = kept_in m.job.sources m.kept } };

    ghost invariant = { λ m. IsMergedFrom m.job m.watermark (kept_in m.job.sources m.kept) };
}

impl MergedFlush {
    /// What every one meets: it holds what a compaction at its watermark keeps of its memtables, in order.
    pub fn facts(&self)
        ensures { IsMergedFrom self.now.job self.now.watermark self.now.entries }
    {
        let _ = &self.kept;
    }

    /// The job that was merged.
    pub fn job(&self) -> &FlushJob
        ensures { result.now ≡ self.now.job }
    {
        &self.job
    }

    /// The watermark at which it was merged.
    pub fn watermark(&self) -> SeqNo
        ensures { result ≡ self.now.watermark }
    {
        self.watermark
    }

    /// What is kept, by rising key and falling sequence number, where it stands. Refused only for want of memory.
    pub fn parts(&self) -> Result<Parts<'_>, AllocError>
        ensures { IfOk result (λ parts. parts ≡ self.now.entries) }
    {
        parts_kept(self.job.alloc, self.job.memtables(), &self.kept)
    }

    /// The job, to be abandoned.
    pub fn into_job(self) -> FlushJob
        ensures { result ≡ self.job }
    {
        let MergedFlush {
            job,
            watermark: _,
            kept,
        } = self;
        drop(kept);
        job
    }

    /// With tables that hold its entries, and are a run.
    pub fn with_tables(self, tables: Vec<Table>) -> WrittenFlush
        requires whole { flat_map (λ t. t.entries) tables.items ≡ self.entries }
        requires run { IsRun range tables.items }
        ensures { result ≡ record { job = self.job; watermark = self.watermark; tables = tables.items } }
    {
        let MergedFlush {
            job,
            watermark,
            kept,
        } = self;
        drop(kept);
        WrittenFlush {
            job,
            watermark,
            tables,
        }
    }
}

/// A flush whose tables are written, and which may be registered. It isn't let go either.
pub struct WrittenFlush {
    pub(crate) job: FlushJob,
    pub(crate) watermark: SeqNo,
    pub(crate) tables: Vec<Table>,
}

impl Model for WrittenFlush {
    ghost use Rattle.lsm_flush.specs.Jobs.{SeenWritten, IsWrittenFrom};

    ghost Value = { SeenWritten };

    ghost view = { λ m. record { job = m.job; watermark = m.watermark; tables = m.tables.items } };

    ghost invariant = { λ m. IsWrittenFrom m.job m.watermark m.tables.items };
}

impl WrittenFlush {
    /// What every one meets: its tables hold what a compaction at its watermark keeps of its memtables, and are a run.
    pub fn facts(&self)
        ensures { IsWrittenFrom self.now.job self.now.watermark self.now.tables }
    {
        let _ = &self.tables;
    }

    /// The job whose tables are written.
    pub fn job(&self) -> &FlushJob
        ensures { result.now ≡ self.now.job }
    {
        &self.job
    }

    /// The watermark at which it was merged.
    pub fn watermark(&self) -> SeqNo
        ensures { result ≡ self.now.watermark }
    {
        self.watermark
    }

    /// The tables.
    pub fn tables(&self) -> &[Table]
        ensures { result.now ≡ self.now.tables }
    {
        &self.tables
    }

    /// The job, to be abandoned. The files of its tables stay, as orphans.
    pub fn into_job(self) -> FlushJob
        ensures { result ≡ self.job }
    {
        let WrittenFlush {
            job,
            watermark: _,
            tables,
        } = self;
        drop(tables);
        job
    }
}

/// What became of a flush.
///
/// # Examples
///
/// ```text
/// let registered = tree.register_tables(written)?;
/// if !registered.installed { .. } // stale: something else was installed meanwhile, so flush again
/// ```
#[derive(Clone, Copy, Debug, PartialEq, Eq)]
pub struct Registered {
    /// Whether its tables are in the tree.
    pub installed: bool,
    /// Where it is installed: whether all that it made needless was removed. Else true, and the files of a stale job stay.
    pub cleaned: bool,
}
