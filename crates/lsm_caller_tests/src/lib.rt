//! Many callers on one tree, each in a thread of its own.
//!
//! | Module | Tests |
//! |-|-|
//! | `callers` | twelve callers whose reads the journal tells, each answered as a slow replay answers |
//! | `meetings` | two merges at once, each of which waits until the other has begun |
//! | `replay` | holds no test: the slow replay |
//! | `samples` | holds none: what both write |
#![tactic(auto)]

#[cfg(test)]
mod callers;
#[cfg(test)]
mod meetings;
#[cfg(test)]
mod replay;
#[cfg(test)]
mod samples;
