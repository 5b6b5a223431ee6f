//! Versions: levels of runs of tables, and how they change.
//!
//! | Module | Holds |
//! |-|-|
//! | `config` | what a tree is opened with, and where its counters end |
//! | `hidden_set`, `compaction_state` | the tables that open jobs work on; what strategies are told of them |
//! | `level` | a level: runs of tables, the newest first |
//! | `version` | seven levels with an id, and the four ways to make a next version |
//! | `tables` | the tables of levels or of runs, one after the other |
//! | `totals` | what is counted of tables together |
//! | `lookup` | look-ups of a version's tables by their ids |
//! | `walk` | look-ups of a key in a version's tables |
//! | `laws` | what installs of versions are to the theory, each law as the contract of a function |
#![tactic(auto)]

mod compaction_state;
mod config;
mod hidden_set;
mod laws;
mod level;
mod lookup;
mod tables;
mod totals;
mod version;
mod walk;

pub use compaction_state::CompactionState;
pub use config::{Config, LIMIT};
pub use hidden_set::HiddenSet;
pub use laws::{
    changes_keep_tables, cut_tables_are_runs, drops_are_steps, flushes_are_steps, merges_are_steps,
    moves_are_steps,
};
pub use level::{
    GenericLevel, Level, copies, copies_chosen, copies_left, has_id, push_run, run_has,
};
pub use lookup::{all_tables, ids_are_own, ids_of_levels};
pub use tables::{Tables, tables_in, tables_in_runs};
pub use totals::Totals;
pub use version::{DEFAULT_LEVEL_COUNT, TreeType, Version, VersionId, chosen_runs, levels_fit};
