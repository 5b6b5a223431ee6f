//! What the program `lsm_shell` is made of: a shell over a versioned tree, which reads lines, asks the tree, and prints the
//! answers.
//!
//! | Module | Holds |
//! |-|-|
//! | `word` | words and numbers |
//! | `bounds` | the bounds and prefixes that words give |
//! | `command`, `verb` | what a line asks, and the words that lines begin with |
//! | `reply` | what is printed for a line |
//! | `cause` | why a store failed, or what a refused opening fell on |
//! | `tree` | the tree of a session, with its call history or with a log above it |
//! | `session` | a tree that answers commands |
//! | `arguments` | what the program's arguments ask |
//! | `console` | where lines come from, and where answers and hints go |
//! | `watched` | a store that says how far long work is |
//! | `threads` | callers in threads of their own, on one tree |
//! | `shell` | the run from the first line to the last |
#![tactic(auto)]

mod arguments;
mod bounds;
mod cause;
mod command;
mod console;
mod reply;
mod session;
mod shell;
mod threads;
mod tree;
mod verb;
mod watched;
mod word;

pub use console::Console;
pub use shell::run_shell;
pub use watched::Watch;
