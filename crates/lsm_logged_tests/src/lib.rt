//! The tests of the log, and of a logged tree: what it is once it is opened again.
//!
//! | Module | Tests |
//! |-|-|
//! | `records` | the bytes of records |
//! | `putting` | records that are put, read and removed, and what a crash leaves of them |
//! | `logs` | batches that come back, outcomes that are unknown, and records that are removed |
//! | `jobs` | jobs that are to end after an unknown outcome |
//! | `reads` | each read of a logged tree |
//! | `formats` | a log beside a version in format 3 |
//! | `lives` | three lives in which any one store call fails, and what crashes leave after them |
//! | `trees` | holds no test: logged trees, and what they show |
#![tactic(auto)]

#[cfg(test)]
mod formats;
#[cfg(test)]
mod jobs;
#[cfg(test)]
mod lives;
#[cfg(test)]
mod logs;
#[cfg(test)]
mod putting;
#[cfg(test)]
mod reads;
#[cfg(test)]
mod records;
#[cfg(test)]
mod trees;
