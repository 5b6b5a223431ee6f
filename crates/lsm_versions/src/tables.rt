// The tables of levels or of runs, one after the other.
ghost use Rattle.std.specs.Prelude.{◌≡◌, [], ◌∷◌, ◌++◌, length, MatchOption};
ghost use Rattle.std.specs.Iterator.{at_most};
ghost use Rattle.lsm_below.specs.Optimizes.{tables_of};
ghost use Rattle.lsm_versions.specs.Levels.{all_of, TakesFirst};

use crate::Level;
use lsm_below::Run;
use lsm_tables::Table;
use std::marker::Model;

/// Tables, level by level and run by run: those of a version, of levels (`tables_in`) or of runs (`tables_in_runs`).
///
/// ```text
/// for table in version.iter_tables() { .. }
/// ```
#[derive(Drop)]
pub struct Tables<'a> {
    tables: &'a [Table],
    runs: &'a [Run<Table>],
    levels: &'a [Level],
}

impl<'a> Model for Tables<'a> {
    ghost use Rattle.std.specs.Prelude.{List, ◌++◌};
    ghost use Rattle.lsm_below.specs.Optimizes.{tables_of};
    ghost use Rattle.lsm_tables.specs.Tables.{SeenTable};
    ghost use Rattle.lsm_versions.specs.Levels.{all_of};

    ghost Value = { List SeenTable };

    ghost view = { λ s. s.tables.now ++ (tables_of s.runs.now ++ all_of s.levels.now) };
}

/// A run and what stands after it.
#[derive(Drop)]
struct FrontRun<'a> {
    run: &'a Run<Table>,
    runs: &'a [Run<Table>],
    levels: &'a [Level],
}

/// The first run of a level's rest or of the levels after it.
fn front_run<'a>(runs: &'a [Run<Table>], levels: &'a [Level]) -> Option<FrontRun<'a>>
    ensures { MatchOption result
        (tables_of runs.now ++ all_of levels.now ≡ [])
        (λ p. tables_of runs.now ++ all_of levels.now ≡ p.run.now ++ (tables_of p.runs.now ++ all_of p.levels.now)) }
{
    let mut runs = runs;
    let mut levels = levels;
    loop {
        if let Some((run, behind)) = runs.split_first() {
            return Some(FrontRun {
                run,
                runs: behind,
                levels,
            });
        }
        let (level, behind) = levels.split_first()?;
        runs = level.as_slice();
        levels = behind;
    }
}

/// The first table, and what comes after it.
fn split_front<'a>(
    tables: &'a [Table],
    runs: &'a [Run<Table>],
    levels: &'a [Level],
) -> Option<(&'a Table, Tables<'a>)>
    ensures { MatchOption result
        (tables.now ++ (tables_of runs.now ++ all_of levels.now) ≡ [])
        (λ p. tables.now ++ (tables_of runs.now ++ all_of levels.now) ≡ p.0.now ∷ p.1) }
{
    if let Some((table, tables)) = tables.split_first() {
        let rest = Tables {
            tables,
            runs,
            levels,
        };
        return Some((table, rest));
    }
    let front = front_run(runs, levels)?;
    front.run.facts();
    let (table, tables) = front.run.as_slice().split_first()?;
    let rest = Tables {
        tables,
        runs: front.runs,
        levels: front.levels,
    };
    Some((table, rest))
}

/// All tables of levels, one after the other.
pub fn tables_in(levels: &[Level]) -> Tables<'_>
    ensures { result ≡ all_of levels.now }
{
    Tables {
        tables: &[],
        runs: &[],
        levels,
    }
}

/// All tables of runs, one after the other.
pub fn tables_in_runs(runs: &[Run<Table>]) -> Tables<'_>
    ensures { result ≡ tables_of runs.now }
{
    Tables {
        tables: &[],
        runs,
        levels: &[],
    }
}

/// Tables, and after them all of levels.
pub(crate) fn tables_before<'a>(tables: &'a [Table], levels: &'a [Level]) -> Tables<'a>
    ensures { result ≡ tables.now ++ all_of levels.now }
{
    Tables {
        tables,
        runs: &[],
        levels,
    }
}

impl<'a> Iterator for Tables<'a> {
    type Item = &'a Table;

    ghost next_gives = { TakesFirst };

    ghost remaining = { λ s. at_most (length s) };

    fn next(&mut self) -> Option<&'a Table> {
        let (table, rest) = split_front(self.tables, self.runs, self.levels)?;
        *self = rest;
        Some(table)
    }
}
