//! Tests of the program `lsm_shell`: what is printed for lines, over a store in memory and over a folder, with a log
//! and without, and how a run ends.
#![tactic(auto)]

#[cfg(test)]
mod folders;
#[cfg(test)]
mod logged;
#[cfg(test)]
mod scripts;
#[cfg(test)]
mod shells;
#[cfg(test)]
mod spelled;
#[cfg(test)]
mod watching;
