// Each store call of a row is refused in turn.
use crate::pairs::End;
use crate::rows::{
    CRASHED, CRASHED_LATER, DROPPED, EVICTING, FROM_BOTH_ENDS, LEVELED, OVER_A_FLUSH, OVERLAID,
    OVERTAKEN, Row,
};
use crate::store::Refusal;
use crate::trials::{Ended, try_row};
use lsm_state::Fault;
use std::alloc::Global;
use std::process::Abort;

/// More calls than a row makes.
const MOST_CALLS: u64 = 60;

const REFUSALS: [Refusal; 5] = [
    Refusal::NoMemory,
    Refusal::Fails(Fault::Once),
    Refusal::Fails(Fault::OnceDone),
    Refusal::Fails(Fault::OnceNothing),
    Refusal::Fails(Fault::FromHere),
];

/// Whether a row ended as it may where a call is refused so. With ample memory only a store that fails from a call on stays
/// closed.
fn may_end(ended: Ended, refusal: Refusal) -> bool {
    matches!(
        (ended, refusal),
        (Ok(()), _) | (Err(End::NoStore), Refusal::Fails(Fault::FromHere))
    )
}

/// How many store calls a row makes, where it goes well with each of them refused so; or else the first with which it
/// doesn't.
fn count_calls(alloc: Global, row: &Row, refusal: Refusal) -> Result<u64, u64> {
    for call in 1..MOST_CALLS {
        let (ended, left) = try_row(alloc, row, call, refusal);
        if !may_end(ended, refusal) {
            return Err(call);
        }
        if left > 0 {
            return Ok(call.saturating_sub(1));
        }
    }
    Err(MOST_CALLS)
}

/// Takes a row with each of its store calls refused in each way. It makes so many of them.
fn refuse_each(rt: &impl Abort, alloc: Global, row: &Row, least: u64, most: u64) {
    for (place, refusal) in REFUSALS.iter().enumerate() {
        let told = count_calls(alloc, row, *refusal);
        assert!(rt;
            matches!(told, Ok(calls) if calls >= least && calls <= most),
            "refusal {place}: {told:?}"
        );
    }
}

/// An opening of a new tree lists and settles the names, writes and syncs `v0`, and replaces `current`. A flush writes and
/// syncs a table and a version, and replaces `current`.
#[test]
fn a_flush_is_refused(rt: HostRuntime) {
    refuse_each(&rt, rt.alloc(), &OVER_A_FLUSH, 10, 10);
}

/// The first merge does as a flush, and removes its table. The second writes none, and removes three versions and two
/// tables.
#[test]
fn an_evicting_merge_is_refused(rt: HostRuntime) {
    refuse_each(&rt, rt.alloc(), &EVICTING, 29, 29);
}

/// What is declined makes no call.
#[test]
fn an_overtaken_merge_is_refused(rt: HostRuntime) {
    refuse_each(&rt, rt.alloc(), &OVERTAKEN, 20, 20);
}

/// A merge of four tables removes them, and four versions.
#[test]
fn a_leveled_merge_is_refused(rt: HostRuntime) {
    refuse_each(&rt, rt.alloc(), &LEVELED, 38, 38);
}

/// A drop writes and syncs a version, replaces `current`, and removes its tables.
#[test]
fn a_dropped_range_is_refused(rt: HostRuntime) {
    refuse_each(&rt, rt.alloc(), &DROPPED, 28, 28);
}

/// Reads make no call.
#[test]
fn an_opening_is_refused(rt: HostRuntime) {
    refuse_each(&rt, rt.alloc(), &FROM_BOTH_ENDS, 5, 5);
    refuse_each(&rt, rt.alloc(), &OVERLAID, 5, 5);
}

/// After a crash the calls of the opening are refused too.
#[test]
fn an_opening_behind_a_crash_is_refused(rt: HostRuntime) {
    refuse_each(&rt, rt.alloc(), &CRASHED, 16, MOST_CALLS);
    refuse_each(&rt, rt.alloc(), &CRASHED_LATER, 21, MOST_CALLS);
}
