// Clears as steps: what comes too late after one, and what is forgotten.
use crate::calls::{At, Bare, Call, Compact, Key};
use crate::rows::{FLUSHED_0, Note, Row, run_rows};
use crate::strategies::{FIRST_MOVED, MAJOR};
use lsm_runs::{Count, JobStep};
use std::test::Fail;

/// A table that was cleared isn't moved.
const MOVE_AFTER_CLEAR: [Row; 6] = [
    (Call::Set(&[("a", "x")]), "Number(0)", &[Note::Write(0)]),
    (
        Call::At(At::FlushActive, 0),
        FLUSHED_0,
        &[Note::Mark(0), Note::Install(1)],
    ),
    (Call::Bare(Bare::Clear), "Cleared(2)", &[Note::Clear(2)]),
    (
        Call::Compact(Compact::Do(FIRST_MOVED, 0)),
        "Compacted(Declined(Missing))",
        &[Note::Mark(0)],
    ),
    (Call::Count(Count::TableCount), "Counted(Some(0))", &[]),
    (
        Call::Key(Key::Get, "a", 2),
        "Value(Some(b\"x\"))",
        &[Note::Read(2)],
    ),
];

/// A merge that was begun before a clear isn't installed.
const FINISH_AFTER_CLEAR: [Row; 9] = [
    (Call::Set(&[("a", "x")]), "Number(0)", &[Note::Write(0)]),
    (
        Call::At(At::FlushActive, 0),
        FLUSHED_0,
        &[Note::Mark(0), Note::Install(1)],
    ),
    (
        Call::Compact(Compact::Begin(1, MAJOR, 0)),
        "Compacted(Waits)",
        &[Note::Mark(0)],
    ),
    (Call::Job(1, JobStep::RunCompaction), "Done", &[]),
    (Call::Bare(Bare::Clear), "Cleared(2)", &[Note::Clear(2)]),
    (
        Call::Job(1, JobStep::FinishCompaction),
        "Finished(Declined(Stale))",
        &[],
    ),
    (Call::Bare(Bare::IsCompacting), "Truth(false)", &[]),
    (Call::Count(Count::TableCount), "Counted(Some(0))", &[]),
    (Call::Key(Key::Get, "a", 3), "Value(None)", &[Note::Read(3)]),
];

/// What isn't flushed is forgotten, at every snapshot that reads the latest super version.
const FORGETTING: [Row; 6] = [
    (Call::Set(&[("a", "x")]), "Number(0)", &[Note::Write(0)]),
    (
        Call::At(At::FlushActive, 0),
        FLUSHED_0,
        &[Note::Mark(0), Note::Install(1)],
    ),
    (Call::Set(&[("b", "y")]), "Number(2)", &[Note::Write(2)]),
    (Call::Bare(Bare::Forget), "Done", &[]),
    (Call::Key(Key::Get, "b", 3), "Value(None)", &[Note::Read(3)]),
    (
        Call::Key(Key::Get, "a", 3),
        "Value(Some(b\"x\"))",
        &[Note::Read(3)],
    ),
];

#[test]
fn clears_are_steps(rt: HostRuntime) -> Result<(), Fail> {
    assert_eq!(rt; run_rows(rt.alloc(), &MOVE_AFTER_CLEAR)?, 6);
    assert_eq!(rt; run_rows(rt.alloc(), &FINISH_AFTER_CLEAR)?, 9);
    assert_eq!(rt; run_rows(rt.alloc(), &FORGETTING)?, 6);
    Ok(())
}
