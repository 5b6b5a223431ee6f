// Why a call of a folder failed.
ghost use Rattle.std.specs.Prelude.{◌≡◌, ◌↔◌};
ghost use Rattle.std.specs.IoError.{error_kind};
ghost use Rattle.std.specs.declared.io.ErrorKind.TheVariants.{OutOfMemory as NoMemory};
ghost use Rattle.lsm_store.specs.declared.store.StoreError.TheVariants.{OutOfMemory};

use crate::StoreError;
use std::alloc::Global;
use std::io::{self, ErrorKind};
use thiserror::Error;

/// What was asked of a folder.
#[derive(Clone, Copy, Debug, PartialEq, Eq, Error)]
pub enum FolderCall {
    /// To be made, where it was absent.
    #[error("make")]
    Make,
    /// To be taken as a tree's.
    #[error("open")]
    Open,
    /// To be locked, so that nobody else has it open.
    #[error("lock")]
    Lock,
    #[error("list")]
    List,
    #[error("read")]
    Read,
    #[error("write")]
    Write,
    #[error("sync")]
    Sync,
    #[error("replace")]
    Replace,
    #[error("remove")]
    Remove,
    /// To put on the disk which names its files have.
    #[error("settle")]
    Settle,
}

/// Why a call of a folder failed: which name it was about, what was asked, and what the system answered.
///
/// It is printed as `tables/7: write: No space left on device (os error 28)`.
#[derive(Debug, Drop, Error)]
#[error("{name}: {call}: {error}")]
pub struct FolderFault {
    /// The name in the store, or the folder itself; empty where no memory was left to keep it.
    pub name: String,
    pub call: FolderCall,
    pub error: io::Error,
}

/// What a tree over a folder refused, and the place where: a file with what was asked of it and why that failed, or the folder.
///
/// It is printed as `tables/7: open: a checksum differs`, or as
/// `tables/7: write: No space left on device (os error 28): a store call failed`.
#[derive(Debug, Drop, Error)]
#[error("{place}: {error}")]
pub struct FolderError {
    /// Empty where no memory was left to keep it.
    pub place: String,
    pub error: lsm_below::Error,
}

impl FolderFault {
    /// The fault of a call about a name.
    pub(crate) fn new(alloc: Global, name: &str, call: FolderCall, error: io::Error) -> FolderFault
        ensures { result.error ≡ error }
    {
        let name = match String::from_str(alloc, name) {
            Ok(name) => name,
            Err(_) => String::new(alloc),
        };
        FolderFault { name, call, error }
    }
}

impl From<FolderFault> for StoreError {
    ghost from_gives = { λ fault e. (e ≡ OutOfMemory) ↔ (error_kind fault.error ≡ NoMemory) };

    fn from(fault: FolderFault) -> Self {
        match fault.error.kind() {
            ErrorKind::OutOfMemory => StoreError::OutOfMemory,
            _ => StoreError::Fault,
        }
    }
}
