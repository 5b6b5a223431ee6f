//! A logged tree under any list of calls: every acknowledged batch, whole.
//!
//! | Module | Holds |
//! |-|-|
//! | `steps` | calls as data |
//! | `runner` | a list of calls on a logged tree, with the log theorem |
//! | `life` | a logged tree from its opening on |
#![tactic(auto)]

mod life;
mod runner;
mod steps;

pub use life::{
    any_number_of_logged_lives, crashed_logs_open, live_logged, logs_open_once, new_logs_open,
    opened_logs_stand, opened_runs_are_lives, openings_are_logged_lives, standing_logs_are_taken,
};
pub use runner::{give_up_all, run_from, run_logged, steps_lead};
pub use steps::{LogStep, TakenLogged};
