//! The tests of what stands below the tree: entries and their streams, tables, and stores.
//!
//! | Module | Tests |
//! |-|-|
//! | `entries` | the order of entries, and their copies |
//! | `key_ranges` | ranges of keys |
//! | `runs` | runs of tables |
//! | `streams` | mergers, the first entry of each key, what a compaction keeps |
//! | `checksums` | checksums of files |
//! | `images` | the bytes of tables' files |
//! | `tables` | tables |
//! | `multi_writer` | where entries are cut into tables |
//! | `mem_store` | the store in memory: its faults and its crashes |
//! | `folder_store` | the store over a folder |
//! | `foreign` | folders that are no tree's, and are refused |
//! | `samples` | holds no test: what the others make entries, ranges and runs by, and calls of stores |
#![tactic(auto)]

#[cfg(test)]
mod checksums;
#[cfg(test)]
mod entries;
#[cfg(test)]
mod folder_store;
#[cfg(test)]
mod foreign;
#[cfg(test)]
mod images;
#[cfg(test)]
mod key_ranges;
#[cfg(test)]
mod mem_store;
#[cfg(test)]
mod multi_writer;
#[cfg(test)]
mod runs;
#[cfg(test)]
mod samples;
#[cfg(test)]
mod streams;
#[cfg(test)]
mod tables;
