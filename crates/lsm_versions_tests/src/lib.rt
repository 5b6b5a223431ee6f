//! Tests of `lsm_versions`, `lsm_checks`, `lsm_pick` and `lsm_compaction`, and nothing else: a crate with tests is proved twice, with and
//! without them.
//!
//! | Module | Tests |
//! |-|-|
//! | `choices` | why a choice of tables is declined, when it begins and when it ends |
//! | `changes` | next versions: new, merged, moved and dropped tables, and when there is none |
//! | `merges` | merges outside a tree, and those that are open |
//! | `versions` | what a version tells of its tables |
//! | `hidden_sets` | hidden tables |
//! | `streams` | streams over chosen tables |
//! | `leveled` | the targets of levels, and what becomes of them |
//! | `fifo` | what is too old or too much |
//! | `simple` | merges of everything, drops within bounds |
//! | `configs` | names and configurations of strategies, byte for byte |
//! | `asking` | holds no test: how the strategies are asked |
//! | `samples` | holds no test: what the others make tables and versions by |
#![tactic(auto)]

#[cfg(test)]
mod asking;
#[cfg(test)]
mod changes;
#[cfg(test)]
mod choices;
#[cfg(test)]
mod configs;
#[cfg(test)]
mod fifo;
#[cfg(test)]
mod hidden_sets;
#[cfg(test)]
mod leveled;
#[cfg(test)]
mod merges;
#[cfg(test)]
mod samples;
#[cfg(test)]
mod simple;
#[cfg(test)]
mod streams;
#[cfg(test)]
mod versions;
