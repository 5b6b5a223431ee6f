//! The memtable: the sorted table of entries in memory.
//!
//! | Module | Holds |
//! |-|-|
//! | `steps` | counts of comparisons and moves |
//! | `spread` | items that move to two vectors, with one more at a place |
//! | `arena` | chunks of memory that the keys and values of entries share |
//! | `block` | up to 64 entries in order, with the heads of their keys |
//! | `block_list` | blocks that together are one list: search, insert, split |
//! | `part` | blocks that follow each other, in the two slices that a ring has of them |
//! | `bounds` | where bounds cut blocks |
//! | `iter` | the entries between two places, from both ends |
//! | `span` | a part of a memtable between two places, which may be cut again |
//! | `memtable` | a sorted table of entries in memory |
#![tactic(auto)]

mod arena;
mod block;
mod block_list;
mod bounds;
mod iter;
mod memtable;
mod part;
mod span;
mod spread;
mod steps;

pub use iter::Iter;
pub use memtable::{Memtable, Revocable};
pub use span::Span;
pub use steps::Steps;
