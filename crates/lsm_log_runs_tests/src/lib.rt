//! Tests of `lsm_log_runs`: what was acknowledged is there after any crash, whole.
//!
//! | Module | Tests |
//! |-|-|
//! | `scripts` | 2,000 random scripts, each with a fault and a crash |
//! | `runs` | a run, a life and their refusals, with what is expected spelled by hand |
//! | `random` | the numbers that scripts are drawn by |
//! | `drawing` | holds no test: how a script is drawn |
//! | `jobs` | holds no test: how calls on jobs in slots are drawn |
//! | `strategies` | holds no test: the strategies of the scripts |
//! | `shown` | holds no test: what each key is to show |
//! | `known` | holds no test: what is known of a tree by what its calls replied |
//! | `crashes` | holds no test: how it is drawn what a crash leaves |
//! | `tallies` | holds no test: how often each thing happened |
#![tactic(auto)]

#[cfg(test)]
mod crashes;
#[cfg(test)]
mod drawing;
#[cfg(test)]
mod jobs;
#[cfg(test)]
mod known;
#[cfg(test)]
mod random;
#[cfg(test)]
mod runs;
#[cfg(test)]
mod scripts;
#[cfg(test)]
mod shown;
#[cfg(test)]
mod strategies;
#[cfg(test)]
mod tallies;
