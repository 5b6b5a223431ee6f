// The entries of a run of tables as a source of a merge.
ghost use Rattle.std.specs.Prelude.{◌≡◌, ◌++◌, ◌∷◌, [], false, MatchOption};
ghost use Rattle.lsm_below.specs.Slots.{rest_of};
ghost use Rattle.lsm_compaction.specs.Merges.{run_entries};

use lsm_below::{Error, Headed, Run, Source, Stretch};
use lsm_tables::Table;
use std::marker::Model;

/// The entries of the tables of a run in order, as a source. It lends them out of the tables, and refuses none.
///
/// ```text
/// let source = RunSource::new(&run);
/// ```
#[derive(Drop)]
pub struct RunSource<'a> {
    // What is left of the table whose turn it is, and the tables after it.
    entries: Stretch<'a>,
    tables: &'a [Table],
    over: bool,
}

impl<'a> Model for RunSource<'a> {
    ghost use Rattle.std.specs.Prelude.{◌++◌};
    ghost use Rattle.lsm_below.specs.Streams.{Rest};
    ghost use Rattle.lsm_below.specs.Slots.{rest_of};
    ghost use Rattle.lsm_compaction.specs.Merges.{run_entries};

    ghost Value = { Rest };

    ghost view = { λ s. rest_of s.over (s.entries ++ run_entries s.tables.now) };
}

impl<'a> RunSource<'a> {
    /// The entries of a run, of which none was given yet.
    pub fn new(run: &'a Run<Table>) -> RunSource<'a>
        ensures { result ≡ rest_of false (run_entries run.now) }
    {
        RunSource {
            entries: Stretch::empty(),
            tables: run.as_slice(),
            over: false,
        }
    }

    /// The entries of a single table, of which none was given yet.
    pub fn of_table(table: &'a Table) -> RunSource<'a>
        ensures { result ≡ rest_of false table.now.entries }
    {
        RunSource {
            entries: table.headed_entries(),
            tables: &[],
            over: false,
        }
    }
}

/// An entry and what comes after it.
#[derive(Drop)]
struct FrontEntry<'a> {
    entry: Headed<'a>,
    entries: Stretch<'a>,
    tables: &'a [Table],
}

/// The first entry of a table's rest, or of the tables after it.
fn front_entry<'a>(entries: &Stretch<'a>, tables: &'a [Table]) -> Option<FrontEntry<'a>>
    ensures { MatchOption result
        (entries.now ++ run_entries tables.now ≡ [])
        (λ f. entries.now ++ run_entries tables.now ≡ f.entry ∷ (f.entries ++ run_entries f.tables.now)) }
{
    if let Some((entry, entries)) = entries.split_first() {
        return Some(FrontEntry {
            entry,
            entries,
            tables,
        });
    }
    let (table, tables) = tables.split_first()?;
    table.facts();
    let (entry, entries) = table.headed_entries().split_first()?;
    Some(FrontEntry {
        entry,
        entries,
        tables,
    })
}

impl<'a> Source for RunSource<'a> {
    type Item = Headed<'a>;

    type Error = Error;

    ghost rest = { λ s. s };

    ghost may_refuse = { λ _. ⊥ };

    fn next_entry(&mut self) -> Option<Result<Headed<'a>, Error>> {
        if self.over {
            return None;
        }
        let Some(front) = front_entry(&self.entries, self.tables) else {
            self.over = true;
            return None;
        };
        let FrontEntry {
            entry,
            entries,
            tables,
        } = front;
        self.entries = entries;
        self.tables = tables;
        Some(Ok(entry))
    }
}
