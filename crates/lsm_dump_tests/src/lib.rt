//! Tests of the programs `lsm_dump` and `lsm_load`: the verdict on damaged files is that of the calls that open a tree, what is printed,
//! and the way out of a folder into another one.
//!
//! | Module | Tests |
//! |-|-|
//! | `verdicts` | each cut and each changed byte of each file, most with sums made again, and names beside them |
//! | `printed` | what is printed of a tree, and which arguments are refused |
//! | `folders` | a folder, in which nothing is changed |
//! | `exports` | the pairs of a tree, also of a damaged one, and their way back |
//! | `loads` | which lines a load refuses, and what it leaves in a folder |
//! | `images` | holds no test: the files of a tree, and how they are damaged |
#![tactic(auto)]

#[cfg(test)]
mod exports;
#[cfg(test)]
mod folders;
#[cfg(test)]
mod images;
#[cfg(test)]
mod loads;
#[cfg(test)]
mod printed;
#[cfg(test)]
mod verdicts;
