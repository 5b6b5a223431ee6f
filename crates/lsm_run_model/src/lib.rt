//! The theory of a run: from what each call does, as values and images, to what holds of the whole run at each moment, and life
//! after life.
//!
//! | Module | Holds |
//! |-|-|
//! | `finding` | what opening makes of an image |
//! | `noted` | what calls note, and outcomes that carry it |
//! | `laws` | the theorems, each as the contract of a function |
#![tactic(auto)]

mod finding;
mod laws;
mod noted;

pub use finding::Finding;
pub use laws::{
    lives_go_on, moments_join, no_low_reads, notes_tell_sealed, numbers_are_bounded,
    openings_settle, order_without_reads, rising_is_in_order, runs_compose,
};
pub use noted::{MemtableIds, Noted, Outcome, Telling};
