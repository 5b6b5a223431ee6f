// What is replied of a compaction.
ghost use Rattle.std.specs.Prelude.{◌≡◌};
ghost use Rattle.lsm_state.specs.WholeCompactions.{as_begun};
ghost use Rattle.lsm_runs.specs.Compacting.{reply_of, job_of, end_reply_of};

use crate::slots::Job;
use crate::{Compacted, Reply};
use lsm_parts::Error;
use lsm_state::{Begun, Finished};

/// What is replied of a compaction, and the job that waits then.
pub fn of_begun(begun: Result<Begun, Error>) -> (Reply, Option<Job>)
    ensures reply { result.0 ≡ reply_of begun }
    ensures job { result.1 ≡ job_of begun }
{
    let compacted = match begun {
        Ok(Begun::DidNothing) => Compacted::DidNothing,
        Ok(Begun::Declined(why)) => Compacted::Declined(why),
        Ok(Begun::Installed) => Compacted::Installed,
        Ok(Begun::Job(job)) => {
            return (
                Reply::Compacted(Compacted::Waits),
                Some(Job::Compaction(job.keep())),
            );
        }
        Err(error) => return (Reply::Refused(error), None),
    };
    (Reply::Compacted(compacted), None)
}

/// What is replied of a compaction in one call.
pub fn of_done(done: Result<Option<Finished>, Error>) -> Reply
    ensures { result ≡ reply_of (as_begun done) }
{
    match done {
        Ok(None) => Reply::Compacted(Compacted::DidNothing),
        Ok(Some(Finished::Declined(why))) => Reply::Compacted(Compacted::Declined(why)),
        Ok(Some(Finished::Installed)) => Reply::Compacted(Compacted::Installed),
        Err(error) => Reply::Refused(error),
    }
}

/// What is replied of the end of a merge.
pub fn of_finished(finished: Result<Finished, Error>) -> Reply
    ensures { result ≡ end_reply_of finished }
{
    match finished {
        Ok(finished) => Reply::Finished(finished),
        Err(error) => Reply::Refused(error),
    }
}
