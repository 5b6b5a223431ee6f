// What reading a record refuses.
ghost use Rattle.std.specs.Prelude.{◌≡◌};
ghost use Rattle.lsm_log.specs.declared.record_error.RecordError.TheVariants.{OutOfMemory};

use std::alloc::{AllocError, AllocFailed};
use thiserror::Error;

/// What reading a record refuses.
#[derive(Debug, Drop, Error)]
pub enum RecordError {
    /// A growth was refused.
    #[error("a growth was refused")]
    OutOfMemory,
    /// The bytes aren't a record.
    #[error("the bytes aren't a record")]
    BadRecord,
}

impl From<AllocError> for RecordError {
    ghost from_gives = { λ _ e. e ≡ OutOfMemory };

    fn from(_: AllocError) -> Self {
        RecordError::OutOfMemory
    }
}

impl<T: Drop> From<AllocFailed<T>> for RecordError {
    ghost from_gives = { λ _ e. e ≡ OutOfMemory };

    fn from(_: AllocFailed<T>) -> Self {
        RecordError::OutOfMemory
    }
}
