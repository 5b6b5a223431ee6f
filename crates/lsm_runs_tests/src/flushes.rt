// Flushes as steps: a job that waits in its slot, and what is done in one call.
use crate::calls::{At, Bare, Call, Key};
use crate::rows::{FLUSHED_1, Note, Row, run_rows};
use lsm_runs::{Count, JobStep};
use std::test::Fail;

/// a = x is flushed in parts from slot 7, while a = y is written, and calls come that find no job, or the slot in use.
const JOB: [Row; 15] = [
    (Call::Job(7, JobStep::BeginFlush), "Begun(false)", &[]),
    (Call::Set(&[("a", "x")]), "Number(0)", &[Note::Write(0)]),
    (Call::Bare(Bare::Rotate), "Sealed(Some(0))", &[]),
    (Call::Job(7, JobStep::BeginFlush), "Begun(true)", &[]),
    (Call::Job(7, JobStep::BeginFlush), "SlotInUse", &[]),
    (Call::Job(8, JobStep::BeginFlush), "Refused(FlushOpen)", &[]),
    (Call::Job(8, JobStep::RunFlush(0)), "NoJob", &[]),
    (Call::Job(7, JobStep::RegisterTables), "NoJob", &[]),
    (Call::Job(7, JobStep::RunFlush(0)), "Done", &[]),
    (Call::Job(7, JobStep::FlushToTables), "Done", &[]),
    (Call::Set(&[("a", "y")]), "Number(1)", &[Note::Write(1)]),
    (
        Call::Job(7, JobStep::RegisterTables),
        "Registered(Registered { installed: true, cleaned: true })",
        &[Note::Mark(0), Note::Install(2)],
    ),
    (Call::Job(7, JobStep::AbandonFlush), "NoJob", &[]),
    (
        Call::Key(Key::Get, "a", 1),
        "Value(Some(b\"x\"))",
        &[Note::Read(1)],
    ),
    (
        Call::Key(Key::Get, "a", 2),
        "Value(Some(b\"y\"))",
        &[Note::Read(2)],
    ),
];

/// Flushes in one call: of the sealed memtable, of the active one, and of nothing; and what is counted after them.
const ONE_CALL: [Row; 11] = [
    (Call::At(At::SetMoment, 5), "Done", &[]),
    (Call::Set(&[("a", "x")]), "Number(0)", &[Note::Write(0)]),
    (Call::Bare(Bare::Rotate), "Sealed(Some(0))", &[]),
    (
        Call::At(At::Flush, 0),
        "Flushed(Some((50, Registered { installed: true, cleaned: true })))",
        &[Note::Mark(0), Note::Install(1)],
    ),
    (Call::Set(&[("a", "y")]), "Number(2)", &[Note::Write(2)]),
    (
        Call::At(At::FlushActive, 3),
        FLUSHED_1,
        &[Note::Mark(3), Note::Install(3)],
    ),
    (Call::At(At::Flush, 0), "Flushed(None)", &[]),
    (Call::Count(Count::TableCount), "Counted(Some(2))", &[]),
    (Call::Count(Count::LevelTableCount(7)), "Counted(None)", &[]),
    (Call::Bare(Bare::IsUncertain), "Truth(false)", &[]),
    (Call::Bare(Bare::TreeType), "Kind(Standard)", &[]),
];

#[test]
fn flushes_are_steps(rt: HostRuntime) -> Result<(), Fail> {
    assert_eq!(rt; run_rows(rt.alloc(), &JOB)?, 15);
    assert_eq!(rt; run_rows(rt.alloc(), &ONE_CALL)?, 11);
    Ok(())
}
