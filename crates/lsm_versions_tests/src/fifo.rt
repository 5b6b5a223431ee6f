// What is too old or too much.
use crate::asking::{Row, Wanted, chooses};
use lsm_below::TableId;
use lsm_pick::{ChooseError, Fifo};
use std::test::Fail;

/// Three tables of 37 bytes in one run, all made at 0.
const THREE: [Row; 3] = [(0, 4, "a", 0), (0, 5, "b", 0), (0, 6, "c", 0)];

/// The middle one was made first.
const AGED: [Row; 3] = [(0, 4, "a", 30), (0, 5, "b", 10), (0, 6, "c", 20)];

/// Made at 1000 and 1005 seconds.
const TIMED: [Row; 2] = [
    (0, 4, "a", 1_000_000_000_000),
    (0, 5, "b", 1_005_000_000_000),
];

/// A second run.
const TWO_RUNS: [Row; 2] = [(0, 4, "a", 0), (0, 5, "a", 0)];

/// The limit, the seconds to live, the moment in seconds, the hidden tables, and what is to be answered.
type Case = (u64, Option<u64>, u64, &'static [TableId], Wanted);

const BUSY: Wanted = Wanted::Refused(ChooseError::Busy);

const SEVERAL: Wanted = Wanted::Refused(ChooseError::NotDisjoint);

/// Tables, and what becomes of them.
const ROWS: [(&[Row], &[Case]); 6] = [
    // What passes the limit goes from the oldest.
    (
        &THREE,
        &[
            (111, None, 0, &[], Wanted::Nothing),
            (74, None, 0, &[], Wanted::Drop(&[4])),
            (73, None, 0, &[], Wanted::Drop(&[4, 5])),
            (1, None, 0, &[], Wanted::Drop(&[4, 5, 6])),
            (111, Some(0), 0, &[], Wanted::Nothing),
            (111, Some(1), 0, &[], Wanted::Drop(&[4, 5, 6])),
        ],
    ),
    (
        &AGED,
        &[
            (110, None, 0, &[], Wanted::Drop(&[5])),
            (73, None, 0, &[], Wanted::Drop(&[5, 6])),
            (37, None, 0, &[], Wanted::Drop(&[5, 6])),
        ],
    ),
    // What is old goes.
    (
        &TIMED,
        &[
            (u64::MAX, Some(10), 1011, &[], Wanted::Drop(&[4])),
            (u64::MAX, Some(10), 1010, &[], Wanted::Drop(&[4])),
            (u64::MAX, Some(10), 1009, &[], Wanted::Nothing),
            (u64::MAX, Some(10), 1015, &[], Wanted::Drop(&[4, 5])),
            (36, Some(10), 1011, &[], Wanted::Drop(&[4, 5])),
            (37, Some(10), 1011, &[], Wanted::Drop(&[4])),
        ],
    ),
    // Runs and hidden tables are refused.
    (&[], &[(0, None, 0, &[], Wanted::Nothing)]),
    (&THREE, &[(0, None, 0, &[6], BUSY)]),
    (&TWO_RUNS, &[(0, None, 0, &[4], SEVERAL)]),
];

#[test]
fn what_is_old_or_too_much_goes(rt: HostRuntime) -> Result<(), Fail> {
    for (rows, cases) in ROWS {
        for (limit, ttl, seconds, hidden, wanted) in cases {
            let now = seconds.saturating_mul(1_000_000_000);
            let fifo = Fifo::new(*limit, *ttl, now);
            let is_so = chooses(&rt, rt.alloc(), &fifo, 0, rows, *hidden, *wanted)?;
            assert!(rt; is_so, "{limit} at {seconds}");
        }
    }
    Ok(())
}
