//! Tests of `lsm_parts` and `lsm_state`, and nothing else: a crate with tests is proved twice, with and without
//! them, so they stand here and not there.
//!
//! | Module | Tests |
//! |-|-|
//! | `errors` | the numbers and the names of errors |
//! | `counters` | the counter of numbers |
//! | `memtables` | look-ups, sizes and bounds of a memtable |
//! | `versions` | sealed memtables, the history of super versions, which are forgotten, and which files go |
//! | `guards` | what a guard hands out |
//! | `prefixes` | the bounds of the keys that begin alike |
//! | `iterators` | what iterators give over memtables, from both ends |
//! | `trees` | writes, reads of one key and rotation of a tree |
//! | `tree_ranges` | a tree's reads of many keys |
//! | `flushes` | flushes, old snapshots over them, what a crash leaves, and what a store that fails |
//! | `compactions` | compactions: which are declined and why, open merges, a store that fails after a commit |
//! | `strategies` | what strategies do to a tree, and dropped ranges |
//! | `clears` | clears, what comes too late after one, and what is left of one that fails |
//! | `crashes` | crashes at each store call, and what is opened after each |
//!
//! A tree is tested by scripts, which are data: rows of calls, each with what it answers, and of what the tree shows.
//!
//! | Module | Holds |
//! |-|-|
//! | `samples` | keys, entries and bounds of text |
//! | `given` | how the others look at what iterators give |
//! | `steps` | the calls, and what they answer |
//! | `works` | those that compact |
//! | `rows` | calls with what they answer, and looks at what a tree shows and counts |
//! | `scripts` | rows, jobs that stay open over rows, and crashes between them |
//!
//! Helpers borrow what they look at and answer whether it is as wanted: a proof takes a tree or a table that is dropped
//! at the end of a block to all its pieces, and does so once more for each `?` before it.
#![tactic(auto)]

#[cfg(test)]
mod clears;
#[cfg(test)]
mod compactions;
#[cfg(test)]
mod counters;
#[cfg(test)]
mod crashes;
#[cfg(test)]
mod errors;
#[cfg(test)]
mod flushes;
#[cfg(test)]
mod given;
#[cfg(test)]
mod guards;
#[cfg(test)]
mod iterators;
#[cfg(test)]
mod memtables;
#[cfg(test)]
mod prefixes;
#[cfg(test)]
mod rows;
#[cfg(test)]
mod samples;
#[cfg(test)]
mod scripts;
#[cfg(test)]
mod steps;
#[cfg(test)]
mod strategies;
#[cfg(test)]
mod tree_ranges;
#[cfg(test)]
mod trees;
#[cfg(test)]
mod versions;
#[cfg(test)]
mod works;
