//! Tests of the tree above its parts: trees with a journal, trees that are shared, and their flushes, compactions and
//! clears.
#![tactic(auto)]

#[cfg(test)]
mod clears;
#[cfg(test)]
mod compactions;
#[cfg(test)]
mod faults;
#[cfg(test)]
mod flushes;
#[cfg(test)]
mod gates;
#[cfg(test)]
mod handles;
#[cfg(test)]
mod recorded;
#[cfg(test)]
mod samples;
