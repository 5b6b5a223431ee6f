// The targets of levels, and what becomes of them.
use crate::asking::{Row, Wanted, chooses};
use lsm_below::TableId;
use lsm_pick::{Leveled, Levelled};
use std::alloc::Global;
use std::process::Abort;
use std::test::Fail;

fn targets_are(leveled: &Leveled, targets: [u64; 5]) -> bool {
    (0..5).all(|steps| leveled.target_after(steps) == targets[steps])
}

#[test]
fn targets_grow_by_fractions(rt: HostRuntime) -> Result<(), Fail> {
    let alloc = rt.alloc();
    let grown = Leveled::new(alloc)?
        .with_table_target_size(5)
        .with_l0_threshold(1)
        .with_level_ratio_policy(vec![in alloc; (3, 2)]?);
    assert!(rt; targets_are(&grown, [5, 7, 10, 15, 22]));
    let tenfold = Leveled::new(alloc)?
        .with_table_target_size(1)
        .with_l0_threshold(2)
        .with_level_ratio_policy(Vec::new(alloc));
    assert!(rt; targets_are(&tenfold, [2, 20, 200, 2000, 20000]));
    let capped = Leveled::new(alloc)?.with_table_target_size(1 << 63);
    assert!(rt; targets_are(&capped.copy(alloc)?, [u64::MAX; 5]));
    assert!(rt; Leveled::new(alloc)?.target_after(1) == 2_684_354_560);
    Ok(())
}

/// Tables, the hidden ones, and what is to be answered.
type Case = (&'static [Row], &'static [TableId], Wanted);

const CASES: [Case; 9] = [
    // a single run goes to the last level, where nothing overlaps it
    (&[(0, 0, "a", 0)], &[], Wanted::Move(&[0], 6, 1)),
    (
        &[(0, 0, "a", 0), (6, 1, "b", 0)],
        &[],
        Wanted::Move(&[0], 6, 1),
    ),
    // one table doesn't reach the threshold
    (&[(0, 1, "a", 0), (6, 0, "a", 0)], &[], Wanted::Nothing),
    // two do, and the last level is above its target: so they go above it
    (
        &[(0, 2, "a", 0), (0, 1, "a", 0), (6, 0, "a", 0)],
        &[],
        Wanted::Merge(&[1, 2], 5, 1),
    ),
    (
        &[(0, 2, "a", 0), (0, 1, "a", 0), (6, 0, "a", 0)],
        &[2],
        Wanted::Nothing,
    ),
    // level 5 is merged with what it overlaps
    (
        &[(5, 3, "a", 0), (6, 0, "a", 0)],
        &[],
        Wanted::Merge(&[0, 3], 6, 3),
    ),
    (&[(5, 3, "a", 0), (6, 0, "a", 0)], &[0], Wanted::Nothing),
    // before an empty level the score is the greatest
    (
        &[
            (1, 0, "a", 0),
            (1, 1, "b", 0),
            (1, 2, "c", 0),
            (2, 3, "b", 0),
        ],
        &[],
        Wanted::Move(&[3], 3, 3),
    ),
    // the longest part that overlaps nothing goes down
    (
        &[
            (1, 0, "a", 0),
            (1, 1, "b", 0),
            (1, 2, "c", 0),
            (1, 3, "d", 0),
            (2, 4, "b", 0),
            (3, 5, "b", 0),
        ],
        &[],
        Wanted::Move(&[2, 3], 2, 2),
    ),
];

/// Four tables of one key, each a run.
const FOUR: [Row; 4] = [
    (0, 4, "a", 0),
    (0, 3, "a", 0),
    (0, 2, "a", 0),
    (0, 1, "a", 0),
];

/// Whether each case is answered so, with this target.
fn all_answer(
    rt: &impl Abort,
    alloc: Global,
    leveled: &Levelled,
    target: u64,
    cases: &[Case],
) -> Result<bool, Fail> {
    for (rows, hidden, wanted) in cases {
        if !chooses(rt, alloc, leveled, target, *rows, *hidden, *wanted)? {
            return Ok(false);
        }
    }
    Ok(true)
}

/// With a target of one byte, so that each table is too much, and a threshold of two tables; and four runs are merged by
/// default.
#[test]
fn levels_go_down(rt: HostRuntime) -> Result<(), Fail> {
    let usual = Leveled::new(rt.alloc())?;
    let four: &[Case] = &[(&FOUR, &[], Wanted::Merge(&[1, 2, 3, 4], 6, 1))];
    assert!(rt; all_answer(&rt, rt.alloc(), &usual, 67_108_864, four)?);
    assert!(rt; chooses(&rt, rt.alloc(), &usual, 0, &FOUR[..3], &[], Wanted::Nothing)?);
    let small = usual.with_table_target_size(1).with_l0_threshold(2);
    assert!(rt; all_answer(&rt, rt.alloc(), &small, 1, &CASES)?);
    Ok(())
}
