//! The tree under any list of calls.
//!
//! | Module | Holds |
//! |-|-|
//! | `steps` | calls as data, and what each replies |
//! | `slots` | jobs that wait for their next call |
//! | `replies` | what is replied of a compaction |
//! | `reads` | steps that only read |
//! | `writes` | what writes reply, and what they add to the journal |
//! | `runner` | a list of calls on a tree, with the replay theorem, and what a crash leaves |
//! | `finding` | how the files of a tree are found, and life after life |
//! | `life` | a tree from its opening on, and what a crash leaves of it |
#![tactic(auto)]

mod finding;
mod life;
pub mod reads;
mod replies;
mod runner;
mod slots;
mod steps;
mod writes;

pub use finding::{TreeFiles, any_number_of_lives, openings_are_lives, runs_are_lives};
pub use life::live;
pub use replies::{of_begun, of_done, of_finished};
pub use runner::run;
pub use slots::{Job, Slot, Slots, make_room};
pub use steps::{Compacted, Count, Counter, JobStep, Outcome, Reply, Step, Taken};
