// Refusals as the errors of the tree.
ghost use Rattle.lsm_manifest.specs.Told.{TellsFault, InFile, InStore, TellsRead, TellsOpen, TellsPersist};

use crate::fault::{Fault, OpenError, ReadError};
use crate::persist::PersistError;
use lsm_below::Error;

/// A fault of a file's bytes.
fn fault_of_file(fault: Fault) -> Error
    ensures { TellsFault InFile fault result }
{
    match fault {
        Fault::Unrecoverable => Error::Unrecoverable,
        Fault::CurrentHeader => Error::InvalidHeader("current"),
        Fault::ChecksumMismatch => Error::ChecksumMismatch,
        Fault::OutOfNumbers => Error::OutOfNumbers,
        Fault::InvalidVersion(byte) => Error::InvalidVersion(byte),
        Fault::TreeType(byte) => Error::InvalidTag("TreeType", byte),
        Fault::ChecksumType(byte) => Error::InvalidTag("ChecksumType", byte),
    }
}

/// A fault of a store's files, of which a tree type that isn't known is a header.
fn fault_of_store(fault: Fault) -> Error
    ensures { TellsFault InStore fault result }
{
    match fault {
        Fault::TreeType(_) => Error::InvalidHeader("TreeType"),
        _ => fault_of_file(fault),
    }
}

/// Why a file's bytes aren't read.
pub(crate) fn tell_read(why: ReadError) -> Error
    ensures { TellsRead why result }
{
    match why {
        ReadError::OutOfMemory => Error::OutOfMemory,
        ReadError::Fault(fault) => fault_of_file(fault),
    }
}

/// Why a store's files aren't read.
pub(crate) fn tell_open(why: OpenError) -> Error
    ensures { TellsOpen why result }
{
    match why {
        OpenError::OutOfMemory => Error::OutOfMemory,
        OpenError::Store => Error::Store,
        OpenError::CommitUnknown => Error::CommitUnknown,
        OpenError::Fault(fault) => fault_of_store(fault),
    }
}

/// Why a version isn't the current one, or may not be.
pub(crate) fn tell_persist(why: PersistError) -> Error
    ensures { TellsPersist why result }
{
    match why {
        PersistError::OutOfMemory => Error::OutOfMemory,
        PersistError::Store => Error::Store,
        PersistError::CommitUnknown => Error::CommitUnknown,
    }
}
