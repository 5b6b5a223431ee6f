//! The parts of a compaction that need no tree: its inputs as a stream, the files that it makes, and the jobs in between.
//!
//! | Module | Holds |
//! |-|-|
//! | `source` | the entries of a run of tables, as a source of a merge |
//! | `inputs` | the tables of a choice, run by run |
//! | `stream` | what a compaction would keep of chosen tables, as a stream |
//! | `settings` | how a merge is done |
//! | `open_table` | the table that a merge is writing |
//! | `writing` | what a source gives, as the contents of tables' files |
//! | `merging` | what a compaction keeps of runs, as the contents of files |
//! | `jobs` | the job of a merge, and what it makes |
//! | `kept` | jobs as values that may be let go |
//! | `open_merges` | the merges that a tree has open, and the tables that they work on |
#![tactic(auto)]

mod inputs;
mod jobs;
mod kept;
mod merging;
mod open_merges;
mod open_table;
mod settings;
mod source;
mod stream;
mod writing;

pub use inputs::chosen_inputs;
pub use jobs::{CompactionJob, MergedCompaction};
pub use kept::{KeptCompacted, KeptCompaction};
pub use merging::merge_runs;
pub use open_merges::OpenMerges;
pub use settings::MergeSettings;
pub use source::RunSource;
pub use stream::create_compaction_stream;
