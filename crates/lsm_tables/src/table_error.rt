// What reading a table refuses.
ghost use Rattle.std.specs.Prelude.{◌≡◌};
ghost use Rattle.lsm_tables.specs.declared.table_error.TableError.TheVariants.{OutOfMemory};

use std::alloc::{AllocError, AllocFailed};
use thiserror::Error;

/// What reading a table refuses.
#[derive(Debug, Drop, Error)]
pub enum TableError {
    /// A growth was refused.
    #[error("a growth was refused")]
    OutOfMemory,
    /// The bytes aren't the content of a table's file.
    #[error("the bytes aren't the content of a table's file")]
    BadTable,
}

impl From<AllocError> for TableError {
    ghost from_gives = { λ _ e. e ≡ OutOfMemory };

    fn from(_: AllocError) -> Self {
        TableError::OutOfMemory
    }
}

impl<T: Drop> From<AllocFailed<T>> for TableError {
    ghost from_gives = { λ _ e. e ≡ OutOfMemory };

    fn from(_: AllocFailed<T>) -> Self {
        TableError::OutOfMemory
    }
}
