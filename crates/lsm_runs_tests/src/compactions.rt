// Compactions as steps: merges that wait in slots, and what is done in one call.
use crate::calls::{At, Bare, Call, Compact, Key};
use crate::rows::{FLUSHED_0, FLUSHED_1, FLUSHED_2, FLUSHED_3, FLUSHED_4, Note, Row, run_rows};
use crate::strategies::{FIRST_TABLE, LEVELED, MAJOR, NONE, SECOND_TABLE};
use lsm_runs::{Count, JobStep};
use std::test::Fail;

/// Two merges are open at once, and end in another order than they began.
const SLOTS: [Row; 31] = [
    (Call::Set(&[("a", "x")]), "Number(0)", &[Note::Write(0)]),
    (
        Call::At(At::FlushActive, 0),
        FLUSHED_0,
        &[Note::Mark(0), Note::Install(1)],
    ),
    (Call::Set(&[("b", "y")]), "Number(2)", &[Note::Write(2)]),
    (
        Call::At(At::FlushActive, 0),
        FLUSHED_1,
        &[Note::Mark(0), Note::Install(3)],
    ),
    (
        Call::Compact(Compact::Begin(1, FIRST_TABLE, 0)),
        "Compacted(Waits)",
        &[Note::Mark(0)],
    ),
    (
        Call::Compact(Compact::Begin(2, SECOND_TABLE, 2)),
        "Compacted(Waits)",
        &[Note::Mark(2)],
    ),
    (Call::Bare(Bare::IsCompacting), "Truth(true)", &[]),
    (
        Call::Compact(Compact::Begin(3, MAJOR, 0)),
        "Compacted(DidNothing)",
        &[Note::Mark(0)],
    ),
    (
        Call::Compact(Compact::Begin(3, FIRST_TABLE, 1)),
        "Compacted(Declined(Hidden))",
        &[Note::Mark(1)],
    ),
    (Call::Compact(Compact::Begin(2, MAJOR, 0)), "SlotInUse", &[]),
    (Call::Compact(Compact::Begin(2, NONE, 0)), "SlotInUse", &[]),
    (Call::Compact(Compact::Begin(3, NONE, 0)), "NoStrategy", &[]),
    (Call::Job(1, JobStep::FinishCompaction), "NoJob", &[]),
    (Call::Job(2, JobStep::RunCompaction), "Done", &[]),
    (Call::Set(&[("a", "z")]), "Number(4)", &[Note::Write(4)]),
    (Call::Job(1, JobStep::RunCompaction), "Done", &[]),
    (Call::Job(1, JobStep::RunCompaction), "NoJob", &[]),
    (Call::Job(1, JobStep::AbandonFlush), "NoJob", &[]),
    (
        Call::Job(2, JobStep::FinishCompaction),
        "Finished(Installed)",
        &[Note::Install(5)],
    ),
    (
        Call::Job(1, JobStep::FinishCompaction),
        "Finished(Installed)",
        &[Note::Install(6)],
    ),
    (Call::Job(1, JobStep::FinishCompaction), "NoJob", &[]),
    (
        Call::Count(Count::LevelTableCount(6)),
        "Counted(Some(2))",
        &[],
    ),
    (
        Call::Key(Key::Get, "a", 4),
        "Value(Some(b\"x\"))",
        &[Note::Read(4)],
    ),
    (
        Call::Key(Key::Get, "a", 7),
        "Value(Some(b\"z\"))",
        &[Note::Read(7)],
    ),
    (Call::Bare(Bare::IsCompacting), "Truth(false)", &[]),
    (
        Call::Compact(Compact::Begin(1, MAJOR, 0)),
        "Compacted(Waits)",
        &[Note::Mark(0)],
    ),
    (Call::Job(1, JobStep::AbandonCompaction), "Done", &[]),
    (Call::Job(1, JobStep::AbandonCompaction), "NoJob", &[]),
    (
        Call::Compact(Compact::Begin(1, MAJOR, 0)),
        "Compacted(Waits)",
        &[Note::Mark(0)],
    ),
    (Call::Bare(Bare::NextTableId), "Number(4)", &[]),
    (Call::Count(Count::NextTableId), "Counted(Some(5))", &[]),
];

/// Four values of a, each flushed, are merged into one; then the tables of a and of b are cut apart, and that of a dropped.
const ONE_CALL: [Row; 25] = [
    (Call::Set(&[("a", "1")]), "Number(0)", &[Note::Write(0)]),
    (
        Call::At(At::FlushActive, 0),
        FLUSHED_0,
        &[Note::Mark(0), Note::Install(1)],
    ),
    (Call::Set(&[("a", "2")]), "Number(2)", &[Note::Write(2)]),
    (
        Call::At(At::FlushActive, 0),
        FLUSHED_1,
        &[Note::Mark(0), Note::Install(3)],
    ),
    (Call::Set(&[("a", "3")]), "Number(4)", &[Note::Write(4)]),
    (
        Call::At(At::FlushActive, 0),
        FLUSHED_2,
        &[Note::Mark(0), Note::Install(5)],
    ),
    (
        Call::Compact(Compact::Compact(LEVELED, 0)),
        "Compacted(DidNothing)",
        &[Note::Mark(0)],
    ),
    (Call::Set(&[("a", "4")]), "Number(6)", &[Note::Write(6)]),
    (
        Call::At(At::FlushActive, 0),
        FLUSHED_3,
        &[Note::Mark(0), Note::Install(7)],
    ),
    (
        Call::Compact(Compact::Compact(LEVELED, 8)),
        "Compacted(Installed)",
        &[Note::Mark(8), Note::Install(8)],
    ),
    (
        Call::Key(Key::Get, "a", 9),
        "Value(Some(b\"4\"))",
        &[Note::Read(9)],
    ),
    (Call::Key(Key::Get, "a", 7), "Refused(SnapshotTooOld)", &[]),
    (Call::Set(&[("b", "5")]), "Number(9)", &[Note::Write(9)]),
    (
        Call::At(At::FlushActive, 0),
        FLUSHED_4,
        &[Note::Mark(0), Note::Install(10)],
    ),
    (
        Call::Compact(Compact::Do(MAJOR, 0)),
        "Compacted(Installed)",
        &[Note::Mark(0), Note::Install(11)],
    ),
    (Call::Count(Count::TableCount), "Counted(Some(1))", &[]),
    (
        Call::Compact(Compact::Major(1, 0)),
        "Compacted(Installed)",
        &[Note::Mark(0), Note::Install(12)],
    ),
    (Call::Count(Count::TableCount), "Counted(Some(2))", &[]),
    (
        Call::Compact(Compact::DropRange("a", "a")),
        "Compacted(Installed)",
        &[Note::Mark(0), Note::Dropped(13), Note::Install(13)],
    ),
    (Call::Count(Count::TableCount), "Counted(Some(1))", &[]),
    (
        Call::Key(Key::Get, "a", 14),
        "Value(None)",
        &[Note::Read(14)],
    ),
    (
        Call::Key(Key::Get, "a", 13),
        "Value(Some(b\"4\"))",
        &[Note::Read(13)],
    ),
    (
        Call::Key(Key::Get, "b", 14),
        "Value(Some(b\"5\"))",
        &[Note::Read(14)],
    ),
    (
        Call::Compact(Compact::DropRange("b", "a")),
        "Compacted(DidNothing)",
        &[],
    ),
    (Call::Compact(Compact::Do(NONE, 0)), "NoStrategy", &[]),
];

#[test]
fn compactions_are_steps(rt: HostRuntime) -> Result<(), Fail> {
    assert_eq!(rt; run_rows(rt.alloc(), &SLOTS)?, 31);
    assert_eq!(rt; run_rows(rt.alloc(), &ONE_CALL)?, 25);
    Ok(())
}
