// The job of a merge, and what it makes.
ghost use Rattle.std.specs.Prelude.{◌≡◌, ◌<◌, ◌^◌, length, IfOk, IfErr};
ghost use Rattle.std.specs.List.{AllByRecursion};
ghost use Rattle.lsm_below.specs.Optimizes.{tables_of};
ghost use Rattle.lsm_tables.specs.Image.{IsTable, image};
ghost use Rattle.lsm_versions.specs.Levels.{HasOwnIds};
ghost use Rattle.lsm_versions.specs.Chosen.{AreIdsOf};
ghost use Rattle.lsm_compaction.specs.Merges.{IsJob, AreFilesOf, HoldFiles, AreTablesOf, IsFileOf};

use crate::inputs::tables_of_runs;
use crate::{MergeSettings, merge_runs};
use bytes::Bytes;
use lsm_below::{Error, Run, TableId, share};
use lsm_tables::{Table, TableError, no_image_begins_another};
use lsm_versions::cut_tables_are_runs;
use std::alloc::{AllocError, Global};
use std::collections::HashSet;
use std::marker::Model;

/// A merge that is to be done outside the tree: tables by runs, the newest run first, shared with it. While it is underway no
/// other compaction takes its tables, so the compiler refuses code that lets a job go: it is finished in the end, or given up.
///
/// ```text
/// let merged = job.run()?; // no lock is needed for it
/// ```
pub struct CompactionJob {
    pub(crate) alloc: Global,
    pub(crate) number: u64,
    pub(crate) ids: HashSet<TableId>,
    pub(crate) inputs: Vec<Run<Table>>,
    pub(crate) settings: MergeSettings,
}

impl Model for CompactionJob {
    ghost use Rattle.lsm_compaction.specs.Merges.{SeenCompaction, IsJob};

    ghost Value = { SeenCompaction };

    ghost view = { λ j. record { number = j.number; ids = j.ids.keys; inputs = j.inputs.items; settings = j.settings } };

    ghost invariant = { λ j. IsJob (record { number = j.number; ids = j.ids.keys; inputs = j.inputs.items; settings = j.settings }) };
}

impl CompactionJob {
    /// The job of this number, of tables by runs, the newest run first. The ids are theirs, and none stands twice.
    pub fn new(
        alloc: Global,
        number: u64,
        ids: HashSet<TableId>,
        inputs: Vec<Run<Table>>,
        settings: MergeSettings,
    ) -> CompactionJob
        requires ids { AreIdsOf ids.keys (tables_of inputs.items) }
        requires own_ids { HasOwnIds (tables_of inputs.items) }
        ensures { result ≡ record { number = number; ids = ids.keys; inputs = inputs.items; settings = settings } }
    {
        CompactionJob {
            alloc,
            number,
            ids,
            inputs,
            settings,
        }
    }

    /// The job's number: a tree gives each once.
    pub fn number(&self) -> u64
        ensures { result ≡ self.now.number }
    {
        self.number
    }

    /// The ids of its tables.
    pub fn ids(&self) -> &HashSet<TableId>
        ensures { result.now.keys ≡ self.now.ids }
    {
        &self.ids
    }

    /// Its tables by runs, the newest run first.
    pub fn inputs(&self) -> &[Run<Table>]
        ensures { result.now ≡ self.now.inputs }
    {
        &self.inputs
    }

    /// Its tables, one after the other, as the checks of a choice take them: copies, which share their entries. Refused only
    /// for want of memory.
    pub fn input_tables(&self) -> Result<Vec<Table>, AllocError>
        ensures { IfOk result (λ v. v.items ≡ tables_of self.now.inputs) }
    {
        tables_of_runs(self.alloc, &self.inputs)
    }

    /// How it is done, and where its tables go.
    pub fn settings(&self) -> MergeSettings
        ensures { result ≡ self.now.settings }
    {
        self.settings
    }

    fn allocator(&self) -> Global {
        self.alloc
    }

    /// What every one meets: the ids are those of its tables, none of which stands twice.
    pub fn facts(&self)
        ensures { IsJob self.now }
    {
        let _ = &self.ids;
    }

    /// Merges the tables into what a snapshot from the watermark on, or between two kept ones, may read of them, and cuts
    /// that into the contents of files. Each entry is spelled when its turn comes, and shares its bytes until then. The
    /// cost is linear in the bytes, and logarithmic in the runs for each entry.
    ///
    /// # Errors
    ///
    /// `OutOfMemory` where a growth was refused; the job comes back beside it.
    pub fn run(self) -> Result<MergedCompaction, (Error, CompactionJob)>
        ensures job { IfOk result (λ m. m.job ≡ self) }
        ensures files { IfOk result (λ m. AreFilesOf self.settings self.inputs m.files) }
        ensures back { IfErr result (λ e. e.1 ≡ self) }
        ensures memory { IfErr result (λ e. e.0 ≡ Error.OutOfMemory) }
    {
        match merge_runs(self.alloc, &self.inputs, self.settings) {
            Ok(files) => Ok(MergedCompaction { job: self, files }),
            Err(error) => Err((error, self)),
        }
    }
}

/// A merge that was done: the contents of the files of its tables, for which no ids are drawn yet. It isn't let go either.
///
/// ```text
/// for file in merged.files() { .. } // each is written under an id that is drawn for it
/// let tables = merged.tables(&ids)?;
/// ```
pub struct MergedCompaction {
    pub(crate) job: CompactionJob,
    pub(crate) files: Vec<Bytes>,
}

impl Model for MergedCompaction {
    ghost use Rattle.lsm_compaction.specs.Merges.{SeenCompacted, AreFilesOf};

    ghost Value = { SeenCompacted };

    ghost view = { λ m. record { job = m.job; files = m.files.items } };

    ghost invariant = { λ m. AreFilesOf m.job.settings m.job.inputs m.files.items };
}

/// The table with this id of a file that was made.
fn table_of(alloc: Global, id: TableId, made_at: u64, file: &Bytes) -> Result<Table, Error>
    requires { IsFileOf made_at file.now }
    ensures id { IfOk result (λ t. t.id ≡ id) }
    ensures made { IfOk result (λ t. t.created_at ≡ made_at) }
    ensures table { IfOk result (λ t. IsTable t.entries) }
    ensures file { IfOk result (λ t. image t.created_at t.entries ≡ file.now) }
    ensures memory { IfErr result (λ e. e ≡ Error.OutOfMemory) }
{
    no_image_begins_another();
    let bytes = share(file)?;
    match Table::recover(alloc, id, bytes) {
        Ok(table) => Ok(table),
        Err(TableError::OutOfMemory) => Err(Error::OutOfMemory),
        Err(TableError::BadTable) => unreachable!(),
    }
}

/// The tables of files that were made, under these ids.
fn tables_at(
    alloc: Global,
    made_at: u64,
    files: &[Bytes],
    ids: &[TableId],
) -> Result<Vec<Table>, Error>
    requires files { AllByRecursion (IsFileOf made_at) files.now }
    requires ids { length ids.now ≡ length files.now }
    ensures tables { IfOk result (λ tables. HoldFiles made_at files.now ids.now tables.items) }
    ensures moment { made_at < 2 ^ 64 }
    ensures memory { IfErr result (λ e. e ≡ Error.OutOfMemory) }
{
    let mut tables = Vec::new(alloc);
    for at in 0..ids.len() {
        tables.push(table_of(alloc, ids[at], made_at, &files[at])?)?;
    }
    Ok(tables)
}

impl MergedCompaction {
    /// What every one meets: its files are those of the tables into which what a compaction keeps of its inputs is cut.
    pub fn facts(&self)
        ensures { AreFilesOf self.now.job.settings self.now.job.inputs self.now.files }
    {
        let _ = &self.files;
    }

    /// The job that was done.
    pub fn job(&self) -> &CompactionJob
        ensures { result.now ≡ self.now.job }
    {
        &self.job
    }

    /// The contents of its files, by rising keys.
    pub fn files(&self) -> &[Bytes]
        ensures { result.now ≡ self.now.files }
    {
        &self.files
    }

    /// The job, to be abandoned.
    pub fn into_job(self) -> CompactionJob
        ensures { result ≡ self.job }
    {
        let MergedCompaction { job, files } = self;
        drop(files);
        job
    }

    /// The tables of its files under these ids, one for each file in turn. They share the bytes. The cost is linear in the
    /// bytes.
    ///
    /// # Errors
    ///
    /// Refused only for want of memory.
    pub fn tables(&self, ids: &[TableId]) -> Result<Vec<Table>, Error>
        requires { length ids.now ≡ length self.now.files }
        ensures tables { IfOk result (λ tables. AreTablesOf self.now.job self.now.files ids.now tables.items) }
        ensures moment { self.now.job.settings.made_at < 2 ^ 64 }
        ensures memory { IfErr result (λ e. e ≡ Error.OutOfMemory) }
    {
        cut_tables_are_runs();
        no_image_begins_another();
        let settings = self.job.settings();
        tables_at(self.job.allocator(), settings.made_at, &self.files, ids)
    }
}
