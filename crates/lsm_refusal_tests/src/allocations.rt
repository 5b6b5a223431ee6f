// Rows of which any one allocation may be refused. Nothing in a proved program can refuse one, so here they run with ample
// memory; tools/refuse-allocations runs each of these tests with each of its allocations refused.
use crate::pairs::End;
use crate::rows::{
    CRASHED, CRASHED_LATER, DROPPED, EVICTING, FROM_BOTH_ENDS, LEVELED, OVER_A_FLUSH, OVERLAID,
    OVERTAKEN, Row,
};
use crate::store::Refusal;
use crate::trials::try_row;
use std::alloc::Global;

/// Whether a row goes well, or ends early where memory is refused to the tree that is compared with.
fn withstands(alloc: Global, row: &Row) -> bool {
    matches!(
        try_row(alloc, row, 0, Refusal::NoMemory).0,
        Ok(()) | Err(End::NoMemory)
    )
}

#[test]
fn over_a_flush(rt: HostRuntime) {
    assert!(rt; withstands(rt.alloc(), &OVER_A_FLUSH));
}

#[test]
fn evicting(rt: HostRuntime) {
    assert!(rt; withstands(rt.alloc(), &EVICTING));
}

#[test]
fn overtaken(rt: HostRuntime) {
    assert!(rt; withstands(rt.alloc(), &OVERTAKEN));
}

#[test]
fn crashed(rt: HostRuntime) {
    assert!(rt; withstands(rt.alloc(), &CRASHED));
}

#[test]
fn crashed_later(rt: HostRuntime) {
    assert!(rt; withstands(rt.alloc(), &CRASHED_LATER));
}

#[test]
fn leveled(rt: HostRuntime) {
    assert!(rt; withstands(rt.alloc(), &LEVELED));
}

#[test]
fn dropped(rt: HostRuntime) {
    assert!(rt; withstands(rt.alloc(), &DROPPED));
}

#[test]
fn from_both_ends(rt: HostRuntime) {
    assert!(rt; withstands(rt.alloc(), &FROM_BOTH_ENDS));
}

#[test]
fn overlaid(rt: HostRuntime) {
    assert!(rt; withstands(rt.alloc(), &OVERLAID));
}
