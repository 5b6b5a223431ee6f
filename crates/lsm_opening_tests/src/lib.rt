//! The tests of the files that say which tables a tree has, and of trees with tables.
//!
//! | Module | Tests |
//! |-|-|
//! | `manifests` | the bytes of versions' files, and what they tell |
//! | `opening` | what is opened, what is removed, and each refusal |
//! | `files` | files of tables that are written, and removed |
//! | `trees` | a tree that is opened over a store, its reads and writes |
//! | `damage` | stores with a damaged file: each cut, each changed byte, each doubled section |
//! | `older` | a store that was written when files had format 3: its answers, and what its next version is written as |
//! | `unlogged` | a store that is opened without a log: where its counters start, and that a record that counts keeps it from it |
//! | `explained` | the file that a refusal over a real folder is explained by |
//! | `recorded` | a recorded tree that is opened over a store, and the order of its tables |
//! | `iterators` | what iterators give over tables, memtables and an index, from both ends |
//! | `holding` | what an iterator owns, and a step that is refused |
//! | `samples` | holds no test: files, byte by byte |
//! | `layers` | holds none: a tree with all these sources |
//! | `rows` | holds none: what it shows, written down by hand |
//! | `walks` | holds none: what is given along a walk |
//! | `newest` | holds none: a slow answer to compare with |
#![tactic(auto)]

#[cfg(test)]
mod damage;
#[cfg(test)]
mod explained;
#[cfg(test)]
mod files;
#[cfg(test)]
mod holding;
#[cfg(test)]
mod iterators;
#[cfg(test)]
mod layers;
#[cfg(test)]
mod manifests;
#[cfg(test)]
mod newest;
#[cfg(test)]
mod older;
#[cfg(test)]
mod opening;
#[cfg(test)]
mod recorded;
#[cfg(test)]
mod rows;
#[cfg(test)]
mod samples;
#[cfg(test)]
mod trees;
#[cfg(test)]
mod unlogged;
#[cfg(test)]
mod walks;
