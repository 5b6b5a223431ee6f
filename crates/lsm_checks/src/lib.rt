//! The checks of a choice of tables: which may be merged, moved or dropped.
//!
//! | Module | Holds |
//! |-|-|
//! | `input` | what a choice of tables names |
//! | `choice` | why a choice of tables is declined |
//! | `parted_run` | runs, parted by a choice |
//! | `gaps` | gaps in what a choice takes of a run |
//! | `indexes` | what a compaction takes of a run |
//! | `lookup` | whether the inputs of a merge are still there, with their entries |
//! | `laws` | what the end of a merge is to the theory, as the contract of a function |
#![tactic(auto)]

mod choice;
mod gaps;
mod indexes;
mod input;
mod laws;
mod lookup;
mod parted_run;

pub use choice::{Kind, Why, any_missing, first_reason, last_reason, last_reason_by_ids};
pub use indexes::pick_run_indexes;
pub use input::Input;
pub use laws::merges_of_inputs_are_steps;
