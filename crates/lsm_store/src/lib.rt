//! What a tree keeps its files in, and what a crash may leave of them. A store knows nothing of entries.
//!
//! | Module | Holds |
//! |-|-|
//! | `store` | the calls of a store, and what a crash may leave of its files |
//! | `synced` | a file that is written and synced |
//! | `mem_store` | a store in memory, with planned faults and picked crashes |
//! | `folder_store` | a folder of the file system, as a store |
#![tactic(auto)]

mod folder_store;
mod mem_store;
mod store;
mod synced;

pub use folder_store::{
    FolderCall, FolderError, FolderFault, FolderStore, SUBFOLDERS, list_files, missing_current,
    path_below, read_file,
};
pub use mem_store::{Fault, MemStore, Pick};
pub use store::{Store, StoreError, runs_of_calls};
pub use synced::{share_synced, write_synced};
