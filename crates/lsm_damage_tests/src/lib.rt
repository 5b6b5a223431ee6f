//! Damaged and foreign files beside a tree's own, strategies that answer anything, and jobs of other trees.
//!
//! | Module | Tests |
//! |-|-|
//! | `names` | names beside the files of a tree, and none of its own |
//! | `older` | a file `version` beside each damage, and a run of no tables |
//! | `careless` | a boxed strategy that answers anything |
//! | `foreign` | jobs that end on another tree |
//! | `samples` | holds no test: a store with one table, in both formats |
//!
//! Each cut, each changed byte and each doubled section of a file is tested in `lsm_opening_tests`, as are missing files
//! and tables out of order.
#![tactic(auto)]

#[cfg(test)]
mod careless;
#[cfg(test)]
mod foreign;
#[cfg(test)]
mod names;
#[cfg(test)]
mod older;
#[cfg(test)]
mod samples;
