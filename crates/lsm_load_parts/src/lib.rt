//! What the program `lsm_load` is made of: it reads the lines of an export, and writes its pairs into a new folder.
//!
//! | Module | Holds |
//! |-|-|
//! | `error` | what a load refuses, and why |
//! | `lines` | the lines of an export, read one by one |
//! | `export` | the pairs of an export |
//! | `load` | pairs written into a tree with a log |
//! | `run` | the run of the program |
#![tactic(auto)]

mod error;
mod export;
mod lines;
mod load;
mod run;

pub use error::{LineFault, LoadError};
pub use export::{Pairs, read_export};
pub use load::{load_folder, load_pairs};
pub use run::run_load;
