// Writes, counters and rotations as steps.
use crate::calls::{Bare, Call, Key};
use crate::rows::{Note, Row, run_rows};
use lsm_runs::Counter;
use lsm_state::SeqNo;
use std::test::Fail;

const LIMIT: SeqNo = 9_223_372_036_854_775_808;

/// Writes, and reads of what was written, until nothing is left to seal.
const WRITES: [Row; 8] = [
    (Call::Set(&[("a", "x")]), "Number(0)", &[Note::Write(0)]),
    (
        Call::Key(Key::Get, "a", 1),
        "Value(Some(b\"x\"))",
        &[Note::Read(1)],
    ),
    (
        Call::Insert("b", "y", 7),
        "Sizes(50, 100)",
        &[Note::Write(7)],
    ),
    (
        Call::Key(Key::RemoveWeak, "b", 8),
        "Sizes(49, 149)",
        &[Note::Write(8)],
    ),
    (
        Call::Key(Key::Entry, "b", 8),
        "Entry(Some(InternalValue { key: InternalKey { user_key: b\"b\", seqno: 7, value_type: Value }, value: b\"y\" }))",
        &[],
    ),
    (Call::Key(Key::Entry, "b", 9), "Entry(None)", &[]),
    (Call::Bare(Bare::Rotate), "Sealed(Some(0))", &[]),
    (Call::Bare(Bare::Rotate), "Sealed(None)", &[]),
];

/// Numbers that are drawn and set, and writes that are refused.
const COUNTERS: [Row; 10] = [
    (Call::Set(&[("a", "x")]), "Number(0)", &[Note::Write(0)]),
    (Call::Next(Counter::Seqno), "Number(1)", &[]),
    (Call::SetCounter(Counter::Visible, 9), "Done", &[]),
    (Call::Raise(Counter::Visible, 3), "Done", &[]),
    (
        Call::Insert("b", "y", LIMIT),
        "Refused(NumberTooGreat)",
        &[],
    ),
    (
        Call::Set(&[("a", "x"), ("a", "y")]),
        "Refused(DuplicateKey)",
        &[],
    ),
    (
        Call::Key(Key::Remove, "a", 2),
        "Sizes(49, 99)",
        &[Note::Write(2)],
    ),
    (
        Call::Key(Key::Append, "c", 3),
        "Sizes(49, 148)",
        &[Note::Write(3)],
    ),
    (Call::Next(Counter::Seqno), "Number(2)", &[]),
    (Call::Next(Counter::Visible), "Number(9)", &[]),
];

#[test]
fn writes_are_steps(rt: HostRuntime) -> Result<(), Fail> {
    assert_eq!(rt; run_rows(rt.alloc(), &WRITES)?, 8);
    assert_eq!(rt; run_rows(rt.alloc(), &COUNTERS)?, 10);
    Ok(())
}

/// Each kind of step that writes or counts. An entry counts its key, its value and 48 bytes.
pub(crate) const KINDS: [Row; 9] = [
    (Call::Set(&[("a", "x")]), "Number(0)", &[Note::Write(0)]),
    (
        Call::Insert("b", "y", 0),
        "Sizes(50, 100)",
        &[Note::Write(0)],
    ),
    (
        Call::Key(Key::Remove, "b", 1),
        "Sizes(49, 149)",
        &[Note::Write(1)],
    ),
    (
        Call::Key(Key::RemoveWeak, "c", 2),
        "Sizes(49, 198)",
        &[Note::Write(2)],
    ),
    (
        Call::Key(Key::Append, "d", 3),
        "Sizes(49, 247)",
        &[Note::Write(3)],
    ),
    (Call::Bare(Bare::Rotate), "Sealed(Some(0))", &[]),
    (Call::Next(Counter::Seqno), "Number(1)", &[]),
    (Call::SetCounter(Counter::Visible, 4), "Done", &[]),
    (Call::Raise(Counter::Seqno, 4), "Done", &[]),
];
