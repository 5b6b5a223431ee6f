// The bounds of the keys that begin alike.
use crate::samples::Edge;
use crate::samples::Edge::{In, Open, Out};
use lsm_state::{UserKey, prefix_to_range};
use std::alloc::Global;
use std::ops::Bound;

/// A prefix, and the bounds of the keys that begin so.
const PREFIXES: [(&[u8], Edge, Edge); 7] = [
    (b"abc", In(b"abc"), Out(b"abd")),
    (&[0, 250], In(&[0, 250]), Out(&[0, 251])),
    (&[0, 250, 50], In(&[0, 250, 50]), Out(&[0, 250, 51])),
    (&[0, 255], In(&[0, 255]), Out(&[1])),
    (&[0, 2, 255], In(&[0, 2, 255]), Out(&[0, 3])),
    // Some prefixes have no end.
    (&[], Open, Open),
    (&[255, 255, 255], In(&[255, 255, 255]), Open),
];

fn is_edge(bound: &Bound<UserKey>, edge: &Edge) -> bool {
    match (bound, edge) {
        (Bound::Included(key), Edge::In(bytes)) => key.as_slice() == *bytes,
        (Bound::Excluded(key), Edge::Out(bytes)) => key.as_slice() == *bytes,
        (Bound::Unbounded, Edge::Open) => true,
        _ => false,
    }
}

fn spans(alloc: Global, row: &(&[u8], Edge, Edge)) -> bool {
    match prefix_to_range(alloc, row.0) {
        Ok((low, high)) => is_edge(&low, &row.1) && is_edge(&high, &row.2),
        Err(_) => false,
    }
}

#[test]
fn prefixes_end_before_the_next_byte(rt: HostRuntime) {
    for (place, row) in PREFIXES.iter().enumerate() {
        assert!(rt; spans(rt.alloc(), row), "row {place}");
    }
}
