// The numbers and the names of errors.
use lsm_state::Error;

#[test]
fn numbers_and_names(rt: HostRuntime) {
    let errors = [
        (Error::OutOfMemory, 1, "OutOfMemory"),
        (Error::Store, 2, "Store"),
        (Error::CommitUnknown, 3, "CommitUnknown"),
        (Error::Unrecoverable, 4, "Unrecoverable"),
        (Error::InvalidVersion(1), 5, "InvalidVersion"),
        (Error::InvalidTag("tables", 7), 6, "InvalidTag"),
        (Error::InvalidHeader("current"), 7, "InvalidHeader"),
        (Error::SnapshotTooOld, 8, "SnapshotTooOld"),
        (Error::OutOfNumbers, 9, "OutOfNumbers"),
        (Error::KeyTooLong, 10, "KeyTooLong"),
        (Error::ValueTooLong, 11, "ValueTooLong"),
        (Error::NumberTooGreat, 12, "NumberTooGreat"),
        (Error::FlushOpen, 13, "FlushOpen"),
        (Error::TooManyRuns, 14, "TooManyRuns"),
        (Error::NotDisjoint, 15, "NotDisjoint"),
        (Error::Busy, 16, "Busy"),
        (Error::AfterCommit, 17, "AfterCommit"),
        (Error::OutOfOrder, 18, "OutOfOrder"),
        (Error::DuplicateKey, 19, "DuplicateKey"),
        (Error::ChecksumMismatch, 20, "ChecksumMismatch"),
        (Error::Strategy, 21, "Strategy"),
    ];
    for (error, number, name) in errors {
        assert_eq!(rt; error.number(), number);
        assert_eq!(rt; error.name(), name);
    }
}
