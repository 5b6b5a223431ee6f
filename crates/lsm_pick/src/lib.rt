//! Strategies: which tables a compaction takes, and what becomes of them.
//!
//! | Module | Holds |
//! |-|-|
//! | `choice` | what a strategy answers |
//! | `strategy` | who chooses |
//! | `major` | merges everything |
//! | `bounds`, `drop_range` | bounds of keys; drops what lies within them |
//! | `fifo` | drops what is too old or too much |
//! | `leveled` | levels with targets |
//! | `config` | how strategies are written down |
//! | `tables`, `first_run`, `level_hull` | what strategies ask of tables and levels |
//! | `laws` | what holds beyond the relations, as the contract of a function |
#![tactic(auto)]

mod bounds;
mod choice;
mod config;
mod drop_range;
pub mod fifo;
mod first_run;
mod laws;
mod level_hull;
pub mod leveled;
mod major;
mod strategy;
mod tables;

pub use bounds::OwnedBounds;
pub use choice::{Choice, ChooseError};
pub use drop_range::DropRange;
pub use fifo::{Fifo, NAME as FIFO_COMPACTION_NAME};
pub use laws::{leveled_is_lawful, leveled_never_drops, major_never_drops};
pub use leveled::{Leveled, Leveled as Levelled, NAME as LEVELED_COMPACTION_NAME};
pub use lsm_checks::{Input, pick_run_indexes};
pub use major::Major;
pub use strategy::CompactionStrategy;
