// Where lines come from, and where answers and hints go.
use crate::cause::{Refusal, SessionStore};
use crate::reply::Reply;
use crate::watched::Watch;
use lsm_tree::TreeState;
use std::io::Write;

/// The lines that there are.
const LINES: &str =
    "lines: put K V, del K, weak K, get K [S], range LO HI [S], prefix P [S], rotate, \
flush W, compact leveled W, compact major W, compact fifo LIMIT TTL W, drop LO HI, clear, now N, stats, crash, reopen";

/// What the program reads lines from, and writes answers and errors to.
#[derive(Drop)]
pub struct Console<R, W, E> {
    pub input: R,
    pub output: W,
    pub errors: E,
    /// Whether somebody types the lines, who is helped by hints.
    pub is_terminal: bool,
    /// Where long work shows itself. None where nobody waits for it.
    pub watch: Option<Watch<E>>,
}

/// Where errors and hints go. What can't be written there is left out: nothing is left to be told it.
#[derive(Drop)]
pub(crate) struct Errors<E> {
    pub errors: E,
    pub is_terminal: bool,
    /// From how many entries on work is announced.
    pub long: Option<usize>,
}

impl<E: Write + Drop> Errors<E> {
    /// Writes a line to the errors.
    pub(crate) fn tell(&mut self, words: &str) {
        let _ = writeln!(self.errors, "{words}");
    }

    /// Says why nothing was opened, and at a terminal what can be done.
    pub(crate) fn tell_refusal(&mut self, refusal: &Refusal) {
        if let Some(cause) = &refusal.cause {
            self.tell(cause.as_str());
        }
        if self.is_terminal {
            self.tell(refusal.remedy);
        }
    }

    /// Says that work begins, where it will take long and somebody waits for it.
    pub(crate) fn announce<S: SessionStore>(&mut self, work: &str, tree: &TreeState<S>) {
        let entries = tree.approximate_len();
        if self.long.is_some_and(|long| entries >= long) {
            let (tables, megabytes) = (tree.table_count(), tree.disk_space() / 1_000_000);
            let _ = writeln!(
                self.errors,
                "{work}: a tree of {entries} entries, {tables} tables, {megabytes} MB"
            );
        }
    }

    /// Writes why a call of the store failed, and at a terminal which lines there are where one isn't known.
    pub(crate) fn tell_of(&mut self, reply: &Reply, cause: Option<String>) {
        if let Some(cause) = cause {
            self.tell(cause.as_str());
        }
        if self.is_terminal && matches!(reply, Reply::Usage) {
            self.tell(LINES);
        }
    }
}
