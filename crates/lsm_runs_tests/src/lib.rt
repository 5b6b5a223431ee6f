//! Tests of `lsm_runs`: what each step answers and notes, and a tree from its opening to a crash and on.
//!
//! | Module | Tests |
//! |-|-|
//! | `writes` | writes, counters, and each kind of step that writes |
//! | `reads` | reads of one key and of many, and each kind of step that reads |
//! | `flushes` | flushes in one call, and jobs that wait in their slots |
//! | `compactions` | compactions in one call, and merges that wait in slots |
//! | `clears` | clears, and what comes too late after one |
//! | `lives` | a crash, and the life that it begins |
//! | `calls` | steps as rows of a table |
//! | `rows` | a table of calls, of what each answers and of what it notes |
//! | `strategies` | the strategies of each run, and a run on a new tree |
#![tactic(auto)]

#[cfg(test)]
mod calls;
#[cfg(test)]
mod clears;
#[cfg(test)]
mod compactions;
#[cfg(test)]
mod flushes;
#[cfg(test)]
mod lives;
#[cfg(test)]
mod reads;
#[cfg(test)]
mod rows;
#[cfg(test)]
mod strategies;
#[cfg(test)]
mod writes;
