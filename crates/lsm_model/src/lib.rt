//! What must be believed of the tree: the journal of calls, its replay, what a tree's reads show,
//! in which order calls may come, the steps of a tree, what a crash may leave; and the theory above it.
//!
//! | Module | Holds |
//! |-|-|
//! | `op` | what a write does to its key |
//! | `question` | what a read asks, and what it answers |
//! | `journal` | what a journal lists |
//! | `repeats` | whether a batch names a key twice |
//! | `laws` | the theorems, each as the contract of a function |
#![tactic(auto)]

mod journal;
mod laws;
mod op;
mod question;
mod repeats;

pub use journal::{JournalEntry, KeyRanges};
pub use laws::{
    counted_is_in_order, deeds_join, every_crash_recovers, every_run_reads_right, levels_rise,
    maps_are_read, opening_starts, parts_are_whole, reads_are_sound, tables_are_placed,
    tables_show_above,
};
pub use op::{Op, Ops};
pub use question::{Answer, KeyBound, KvPairs, Question};
pub use repeats::has_repeats;
