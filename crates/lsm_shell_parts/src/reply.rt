// What is printed for a line.
use lsm_below::UserValue;
use lsm_tree::{Error, IterGuard, TreeIter, Why};
use std::io::{self, Write};

/// What a line is answered.
#[derive(Drop)]
pub enum Reply {
    /// This word.
    Word(&'static str),
    /// This word, and a number.
    Number(&'static str, u64),
    /// The key has this value.
    Value(UserValue),
    /// What the iterator has left are the pairs that there are.
    Pairs(TreeIter),
    /// Memtables of so many bytes were flushed, and what became of the flush.
    Flushed(u64, &'static str),
    /// The compaction was declined, for this reason.
    Declined(Why),
    /// These lines.
    Lines(String),
    /// The tree, or the shell for want of memory, refused.
    Refused(Error),
    /// The line asks nothing that the shell knows.
    Usage,
}

impl Reply {
    /// Writes the lines that are printed for this reply. Pairs are written while they are walked, and a walk that finds no
    /// memory ends with that error.
    pub fn write_to<W: Write>(self, output: &mut W) -> io::Result<()> {
        match self {
            Reply::Word(word) => writeln!(output, "{word}"),
            Reply::Number(word, number) => writeln!(output, "{word} {number}"),
            Reply::Value(value) => write_pair(output, b"value", value.as_slice()),
            Reply::Pairs(pairs) => write_pairs(output, pairs),
            Reply::Flushed(size, fate) => writeln!(output, "flushed {size} {fate}"),
            Reply::Declined(why) => writeln!(output, "declined {why:?}"),
            Reply::Lines(lines) => output.write_all(lines.as_bytes()),
            Reply::Refused(error) => write_refused(output, error),
            Reply::Usage => output.write_all(b"error 0 Usage\n"),
        }
    }
}

/// Writes the line of a refusal.
fn write_refused<W: Write>(output: &mut W, error: Error) -> io::Result<()> {
    writeln!(output, "error {} {}", error.number(), error.name())
}

/// Writes the line of a pair.
fn write_pair<W: Write>(output: &mut W, key: &[u8], value: &[u8]) -> io::Result<()> {
    output.write_all(key)?;
    output.write_all(b" ")?;
    output.write_all(value)?;
    output.write_all(b"\n")
}

/// Writes a line for each pair, and one with their count.
fn write_pairs<W: Write>(output: &mut W, pairs: TreeIter) -> io::Result<()> {
    let mut count: u64 = 0;
    for pair in pairs {
        match pair.into_inner() {
            Ok((key, value)) => write_pair(output, key.as_slice(), value.as_slice())?,
            Err(error) => return write_refused(output, error),
        }
        count = count.saturating_add(1);
    }
    writeln!(output, "end {count}")
}
