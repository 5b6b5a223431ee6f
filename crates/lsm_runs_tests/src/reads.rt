// Reads as steps, of one key and of many.
use crate::calls::{At, Bare, Call, Key};
use crate::rows::{Note, Row, run_rows};
use crate::writes::KINDS;
use std::test::Fail;

const NO_PAIRS: &str = "Pairs(KvPairs { list: [] })";

const A_B: &str = "Pairs(KvPairs { list: [(b\"a\", b\"x\"), (b\"b\", b\"yy\")] })";

const A_B_C: &str =
    "Pairs(KvPairs { list: [(b\"a\", b\"x\"), (b\"b\", b\"yy\"), (b\"c\", b\"zzz\")] })";

const A_C: &str = "Pairs(KvPairs { list: [(b\"a\", b\"x\"), (b\"c\", b\"zzz\")] })";

const B_C: &str = "Pairs(KvPairs { list: [(b\"b\", b\"yy\"), (b\"c\", b\"zzz\")] })";

const B: &str = "Pairs(KvPairs { list: [(b\"b\", b\"yy\")] })";

const C: &str = "Pairs(KvPairs { list: [(b\"c\", b\"zzz\")] })";

/// a and b are written under 0, c under 1 after a rotation, and b is removed under 2. Then each read of many keys, which
/// notes the pairs that it answers, and the other reads.
const READS: [Row; 29] = [
    (
        Call::Set(&[("a", "x"), ("b", "yy")]),
        "Number(0)",
        &[Note::Write(0), Note::Write(0)],
    ),
    (Call::Bare(Bare::Rotate), "Sealed(Some(0))", &[]),
    (Call::Set(&[("c", "zzz")]), "Number(1)", &[Note::Write(1)]),
    (
        Call::Key(Key::Remove, "b", 2),
        "Sizes(49, 101)",
        &[Note::Write(2)],
    ),
    (
        Call::At(At::Iter, 0),
        NO_PAIRS,
        &[Note::Listed(0, NO_PAIRS)],
    ),
    (Call::At(At::Iter, 1), A_B, &[Note::Listed(1, A_B)]),
    (Call::At(At::Iter, 2), A_B_C, &[Note::Listed(2, A_B_C)]),
    (Call::At(At::Iter, 3), A_C, &[Note::Listed(3, A_C)]),
    (Call::Between("a", "c", 2), B_C, &[Note::Listed(2, B_C)]),
    (Call::Between("a", "c", 3), C, &[Note::Listed(3, C)]),
    (
        Call::Between("c", "a", 3),
        NO_PAIRS,
        &[Note::Listed(3, NO_PAIRS)],
    ),
    (Call::Key(Key::Prefix, "b", 2), B, &[Note::Listed(2, B)]),
    (
        Call::Key(Key::Prefix, "b", 3),
        NO_PAIRS,
        &[Note::Listed(3, NO_PAIRS)],
    ),
    (Call::Key(Key::Prefix, "", 3), A_C, &[Note::Listed(3, A_C)]),
    // What is told of a key, of how many there are, and of both ends: nothing of it is noted.
    (Call::Key(Key::Contains, "b", 1), "Truth(true)", &[]),
    (Call::Key(Key::Contains, "b", 3), "Truth(false)", &[]),
    (Call::Key(Key::Contains, "c", 1), "Truth(false)", &[]),
    (Call::Key(Key::Size, "c", 2), "Size(Some(3))", &[]),
    (Call::Key(Key::Size, "b", 3), "Size(None)", &[]),
    (Call::At(At::Len, 0), "Count(0)", &[]),
    (Call::At(At::Len, 1), "Count(2)", &[]),
    (Call::At(At::Len, 2), "Count(3)", &[]),
    (Call::At(At::Len, 3), "Count(2)", &[]),
    (Call::At(At::IsEmpty, 0), "Truth(true)", &[]),
    (Call::At(At::IsEmpty, 3), "Truth(false)", &[]),
    (Call::At(At::First, 1), "Pair(Some((b\"a\", b\"x\")))", &[]),
    (Call::At(At::Last, 1), "Pair(Some((b\"b\", b\"yy\")))", &[]),
    (Call::At(At::Last, 3), "Pair(Some((b\"c\", b\"zzz\")))", &[]),
    (Call::At(At::First, 0), "Pair(None)", &[]),
];

#[test]
fn reads_are_steps(rt: HostRuntime) -> Result<(), Fail> {
    assert_eq!(rt; run_rows(rt.alloc(), &READS)?, 29);
    Ok(())
}

/// Each kind of step that reads, of a tree with nothing in it.
const READING_KINDS: [Row; 11] = [
    (Call::Key(Key::Get, "a", 1), "Value(None)", &[Note::Read(1)]),
    (Call::Key(Key::Entry, "a", 1), "Entry(None)", &[]),
    (Call::Key(Key::Contains, "a", 1), "Truth(false)", &[]),
    (Call::Key(Key::Size, "a", 1), "Size(None)", &[]),
    (Call::All(1), NO_PAIRS, &[Note::Listed(1, NO_PAIRS)]),
    (
        Call::At(At::Iter, 1),
        NO_PAIRS,
        &[Note::Listed(1, NO_PAIRS)],
    ),
    (
        Call::Key(Key::Prefix, "a", 1),
        NO_PAIRS,
        &[Note::Listed(1, NO_PAIRS)],
    ),
    (Call::At(At::Len, 1), "Count(0)", &[]),
    (Call::At(At::IsEmpty, 1), "Truth(true)", &[]),
    (Call::At(At::First, 1), "Pair(None)", &[]),
    (Call::At(At::Last, 1), "Pair(None)", &[]),
];

/// A run ends early for want of memory alone, which no contract can say.
#[test]
fn ends_after_its_last_step(rt: HostRuntime) -> Result<(), Fail> {
    assert_eq!(rt; run_rows(rt.alloc(), &KINDS)?, 9);
    assert_eq!(rt; run_rows(rt.alloc(), &READING_KINDS)?, 11);
    Ok(())
}
