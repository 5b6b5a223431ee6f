// What a call refuses, and why.
ghost use Rattle.std.specs.Prelude.{◌≡◌};
ghost use Rattle.lsm_below.specs.Errors.{number_of, name_of};
ghost use Rattle.lsm_below.specs.declared.error.Error.TheVariants.{OutOfMemory};

use std::alloc::{AllocError, AllocFailed};
use thiserror::Error;

/// What a call refuses. Each error has a number, by which the program prints it, and a name.
#[derive(Clone, Debug, Drop, PartialEq, Eq, Error)]
pub enum Error {
    /// 1: a growth was refused in this call.
    #[error("a growth was refused")]
    OutOfMemory,
    /// 2: a store call failed in this call; nothing was installed.
    #[error("a store call failed")]
    Store,
    /// 3: replacing `current`, or a record of the log, failed in this call: whether it stands is unknown.
    #[error("whether it stands is unknown: open the tree again")]
    CommitUnknown,
    /// 4: files are damaged or foreign; or a commit, or a write of a logged tree, was asked for after one of unknown outcome: then open
    /// the tree again.
    #[error("the files can't be used, or an earlier outcome is unknown")]
    Unrecoverable,
    /// 5: the format byte of a version's file is neither 3 nor 4; 1 where a file `version` is there.
    #[error("format byte {0}")]
    InvalidVersion(u8),
    /// 6: a type byte isn't 0.
    #[error("{0}: type byte {1}")]
    InvalidTag(&'static str, u8),
    /// 7: `current` isn't of its form, or a tree type isn't known.
    #[error("{0} isn't of its form")]
    InvalidHeader(&'static str),
    /// 8: the snapshot is above 0, and no super version in the history is numbered below it: read at a newer one.
    #[error("the snapshot is too old")]
    SnapshotTooOld,
    /// 9: a counter of numbers, ids or jobs is at 2^63 or above, a version's id at 2^64 - 1, or an opened entry's number at 2^63 or
    /// above.
    #[error("a counter has no number left")]
    OutOfNumbers,
    /// 10: a key has more than 65,535 bytes.
    #[error("the key is too long")]
    KeyTooLong,
    /// 11: a value has more than 2^32 - 1 bytes.
    #[error("the value is too long")]
    ValueTooLong,
    /// 12: a write is numbered 2^63 or more.
    #[error("the number is too great")]
    NumberTooGreat,
    /// 13: a flush is open: register or abandon its job first.
    #[error("a flush is open")]
    FlushOpen,
    /// 14: a level would have 256 runs, or a run 2^32 tables: compact first.
    #[error("there are too many runs")]
    TooManyRuns,
    /// 15: level 0 has several runs where one is asked for.
    #[error("level 0 has several runs")]
    NotDisjoint,
    /// 16: `Fifo` was asked while a table of level 0 is in use: ask again when the open merge has ended.
    #[error("a table is in use")]
    Busy,
    /// 17: the commit stands, the clean-up after it failed.
    #[error("the commit stands, the clean-up failed")]
    AfterCommit,
    /// 18: the call would break the order in which calls may come.
    #[error("the call is out of order")]
    OutOfOrder,
    /// 19: a batch names a key twice.
    #[error("a key is named twice")]
    DuplicateKey,
    /// 20: a file differs from its stored sum.
    #[error("a checksum differs")]
    ChecksumMismatch,
    /// 21: a caller's strategy refused.
    #[error("the strategy refused")]
    Strategy,
}

impl Error {
    /// The error's number, 1 to 21.
    pub fn number(&self) -> u8
        ensures { result ≡ number_of self.now }
    {
        match self {
            Error::OutOfMemory => 1,
            Error::Store => 2,
            Error::CommitUnknown => 3,
            Error::Unrecoverable => 4,
            Error::InvalidVersion(_) => 5,
            Error::InvalidTag(_, _) => 6,
            Error::InvalidHeader(_) => 7,
            Error::SnapshotTooOld => 8,
            Error::OutOfNumbers => 9,
            Error::KeyTooLong => 10,
            Error::ValueTooLong => 11,
            Error::NumberTooGreat => 12,
            Error::FlushOpen => 13,
            Error::TooManyRuns => 14,
            Error::NotDisjoint => 15,
            Error::Busy => 16,
            Error::AfterCommit => 17,
            Error::OutOfOrder => 18,
            Error::DuplicateKey => 19,
            Error::ChecksumMismatch => 20,
            Error::Strategy => 21,
        }
    }

    /// The error's bare name, whatever it carries.
    pub fn name(&self) -> &'static str
        ensures { result.now ≡ name_of self.now }
    {
        match self {
            Error::OutOfMemory => "OutOfMemory",
            Error::Store => "Store",
            Error::CommitUnknown => "CommitUnknown",
            Error::Unrecoverable => "Unrecoverable",
            Error::InvalidVersion(_) => "InvalidVersion",
            Error::InvalidTag(_, _) => "InvalidTag",
            Error::InvalidHeader(_) => "InvalidHeader",
            Error::SnapshotTooOld => "SnapshotTooOld",
            Error::OutOfNumbers => "OutOfNumbers",
            Error::KeyTooLong => "KeyTooLong",
            Error::ValueTooLong => "ValueTooLong",
            Error::NumberTooGreat => "NumberTooGreat",
            Error::FlushOpen => "FlushOpen",
            Error::TooManyRuns => "TooManyRuns",
            Error::NotDisjoint => "NotDisjoint",
            Error::Busy => "Busy",
            Error::AfterCommit => "AfterCommit",
            Error::OutOfOrder => "OutOfOrder",
            Error::DuplicateKey => "DuplicateKey",
            Error::ChecksumMismatch => "ChecksumMismatch",
            Error::Strategy => "Strategy",
        }
    }
}

impl From<AllocError> for Error {
    ghost from_gives = { λ _ e. e ≡ OutOfMemory };

    fn from(_: AllocError) -> Self {
        Error::OutOfMemory
    }
}

impl<T: Drop> From<AllocFailed<T>> for Error {
    ghost from_gives = { λ _ e. e ≡ OutOfMemory };

    fn from(_: AllocFailed<T>) -> Self {
        Error::OutOfMemory
    }
}
