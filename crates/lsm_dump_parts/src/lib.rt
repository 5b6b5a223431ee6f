//! What the program `lsm_dump` is made of: it looks into the files of a tree and its log, and changes nothing.
//!
//! | Module | Holds |
//! |-|-|
//! | `arguments` | a program's arguments, and what those of this one ask |
//! | `folder` | a folder as a store that is only read |
//! | `look` | what a store holds, each file looked at once, also after the first one that is damaged |
//! | `flaws` | where a table's file or a record's breaks off |
//! | `verdict` | whether a tree and its log would be opened |
//! | `check` | the same of a folder, and what is wrong with it |
//! | `totals` | what is counted of all files |
//! | `shown` | bytes and sums as they are shown |
//! | `text`, `levels` | a look as rows of words between tabs, and the levels drawn with characters |
//! | `entries` | the entries of a table, and the writes of a record |
//! | `newest` | the newest write of each key |
//! | `export` | all pairs that a store shows now, and their lines |
//! | `run` | the run of the program |
#![tactic(auto)]

mod arguments;
mod check;
mod entries;
mod export;
mod flaws;
mod folder;
mod levels;
mod look;
mod newest;
mod run;
mod shown;
mod text;
mod totals;
mod verdict;

pub use arguments::{Plan, Slice, Task, View, list_arguments, parse_arguments};
pub use entries::{Bounds, bounds_of};
pub use export::{Export, export_pairs};
pub use folder::FolderView;
pub use look::{Damage, Entries, Key, Look, Place, RecordLook, TableLook, Writes, look_into};
pub use run::{Shown, run_dump, show};
pub use shown::{ShownBytes, Sum};
pub use totals::Totals;
pub use verdict::{judge, judge_tree};
