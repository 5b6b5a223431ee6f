//! The tree that keeps the journal of its calls.
//!
//! | Module | Holds |
//! |-|-|
//! | `recorded` | a tree with the journal of its calls |
//! | `recorded::opening` | how it is opened over a store |
//! | `recorded::ranges` | its reads of many keys |
//! | `recorded::flush` | the calls of a flush, and what they note |
//! | `recorded::compaction` | the calls of a compaction, and what they note |
//! | `recorded::clear` | a clear, and what it notes |
//! | `recorded::counts` | what is counted of it |
//! | `shared_entry` | entries that a journal and a pass share |
//! | `pass` | what one caller's calls add to a journal |
//! | `marks` | what was written to each key, by which a write in order is told |
//! | `raising` | marks of a batch, raised before the tree's call and taken back where that is refused |
//! | `marked_key` | keys that are ordered by their heads first |
//! | `opened` | what opened tables hold of each key, and whether they are in order |
//! | `writes` | writes to a tree that are noted |
//! | `copies` | entries made before the tree's call, for a journal and for a pass |
//! | `noting` | what a call came to, on its way into a journal and a pass |
//! | `closing` | whether passes list a journal |
//! | `closed` | a journal that is given out |
#![tactic(auto)]

mod closed;
mod closing;
mod copies;
mod marked_key;
mod marks;
mod noting;
mod opened;
mod pass;
mod raising;
mod recorded;
mod shared_entry;
mod writes;

pub use closed::Closed;
pub use pass::Pass;
pub use recorded::Recorded;
pub use shared_entry::SharedEntry;
