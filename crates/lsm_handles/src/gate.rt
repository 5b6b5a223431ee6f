// Who does the merge of a compaction while no lock is held.
ghost use Rattle.std.specs.Prelude.{◌≡◌, IfOk, IfErr};
ghost use Rattle.lsm_compaction.specs.Merges.{AreFilesOf};
ghost use Rattle.lsm_state.specs.WholeCompactions.{as_begun, told_end};

use lsm_compaction::{CompactionJob, MergedCompaction};
use lsm_parts::Error;
use lsm_state::Finished;

/// Does the merge of a compaction between its beginning and its end, while no lock is held: see `Tree::compact_gated`.
///
/// It may wait, before the merge or after it, or let only so many merges run at a time.
///
/// # Examples
///
/// ```text
/// struct Counted { merges: AtomicU64 }
///
/// impl Gate for Counted {
///     fn pass(&self, job: CompactionJob) -> Result<MergedCompaction, (Error, CompactionJob)> {
///         self.merges.fetch_add(1, Ordering::SeqCst);
///         job.run()
///     }
/// }
/// ```
pub trait Gate {
    /// Runs a job, and answers as `CompactionJob::run` does, of this very job.
    ///
    /// # Errors
    ///
    /// `OutOfMemory`; the job comes back beside it.
    fn pass(&self, job: CompactionJob) -> Result<MergedCompaction, (Error, CompactionJob)>
        ensures job { IfOk result (λ m. m.job ≡ job) }
        ensures files { IfOk result (λ m. AreFilesOf job.settings job.inputs m.files) }
        ensures back { IfErr result (λ e. e.1 ≡ job) }
        ensures memory { IfErr result (λ e. e.0 ≡ Error.OutOfMemory) };
}

/// Runs each job at once.
#[derive(Clone, Copy, Debug)]
pub struct RunJob;

impl Gate for RunJob {
    fn pass(&self, job: CompactionJob) -> Result<MergedCompaction, (Error, CompactionJob)> {
        job.run()
    }
}

/// The end of a merge, as the whole compaction tells it.
pub(crate) fn told_end(finished: Result<Finished, Error>) -> Result<Option<Finished>, Error>
    ensures { as_begun result ≡ told_end finished }
{
    match finished {
        Ok(finished) => Ok(Some(finished)),
        Err(error) => Err(error),
    }
}

/// What follows of how a compaction began: the end of the merge that it handed out, and of all else nothing.
macro_rules! follow {
    ($begun:expr, |$job:ident| $end:expr) => {
        match $begun {
            Ok(Begun::Job($job)) => $end,
            Ok(Begun::DidNothing) => Ok(None),
            Ok(Begun::Declined(why)) => Ok(Some(Finished::Declined(why))),
            Ok(Begun::Installed) => Ok(Some(Finished::Installed)),
            Err(error) => Err(error),
        }
    };
}

pub(crate) use follow;
