// Scripts on a tree: rows, jobs that stay open over rows, and crashes between them.
use crate::rows::{Row, plays};
use crate::steps::{Told, flushes_times, outcome, registered, written};
use crate::works::{Kind, choose};
use lsm_state::{
    Begun, CompactionJob, Config, Error, Fault, Finished, Major, MemStore, MergedCompaction, Pick,
    SeqNo, TableId, TreeState,
};
use std::alloc::Global;
use std::process::Abort;

/// How a store comes to be opened again, as a crash leaves it.
pub enum Opening {
    Crashed,
    /// With this name as it was before the last call that changed it.
    Before(&'static str),
    /// A call of it fails, 1 for the first after the opening.
    Failing(u64, Fault),
}

/// What becomes of the job of a merge.
pub enum End {
    /// It is finished, with rows before it is run and before that.
    Finished(&'static [Row], &'static [Row]),
    /// It is given up after these rows.
    GivenUp(&'static [Row]),
    /// It is finished in another tree.
    Elsewhere,
}

/// A part of a script.
pub enum Part {
    Plays(&'static [Row]),
    /// A is set to a new value and flushed so many times.
    Fill(u8),
    /// A flush with rows before it is run and before its tables are registered, and how it ends.
    FlushOver(&'static [Row], &'static [Row], Told),
    /// A flush that is given up after these rows.
    FlushGivenUp(&'static [Row]),
    /// A merge of tables into a level, what becomes of its job, and what is answered.
    Merge(&'static [TableId], u8, End, Told),
    /// A merge by `Major`, likewise.
    Major(End, Told),
    /// The tree is opened again, with its counters from a number on.
    Reopen(Opening, SeqNo),
}

/// What a script shows, and its parts.
pub type Script = (&'static str, &'static [Part]);

/// Scripts that begin and end alike.
pub struct Alike {
    pub begin: &'static [Part],
    pub scripts: &'static [Script],
    pub end: &'static [Part],
}

// ---- opening

/// More calls than an opening makes.
const MOST_CALLS: u64 = 48;

pub fn open(alloc: Global, next: SeqNo, store: MemStore) -> Result<TreeState, Error> {
    match TreeState::open(alloc, Config::new(0, next, next), store) {
        Ok(tree) => Ok(tree),
        Err((error, _)) => Err(error),
    }
}

/// What a crash leaves of a store.
fn crashed(store: &MemStore, picks: &[(&str, Pick<'_>)]) -> Result<MemStore, Error> {
    match store.crash(picks)? {
        Some(left) => Ok(left),
        None => Err(Error::Unrecoverable),
    }
}

/// Whether a store isn't opened where this call fails.
fn refuses(alloc: Global, store: &MemStore, call: u64) -> Result<bool, Error> {
    let mut left = crashed(store, &[])?;
    left.fail(call, Fault::Once);
    match open(alloc, 0, left) {
        Ok(tree) => {
            drop(tree);
            Ok(false)
        }
        Err(_) => Ok(true),
    }
}

/// How many calls an opening of a store makes, each of which refuses it where it fails.
fn opening_calls(alloc: Global, store: &MemStore) -> Result<u64, Error> {
    for call in 1..MOST_CALLS {
        if !refuses(alloc, store, call)? {
            return Ok(call.saturating_sub(1));
        }
    }
    Err(Error::Unrecoverable)
}

fn opened_as(alloc: Global, store: &MemStore, opening: &Opening) -> Result<MemStore, Error> {
    if let Opening::Before(name) = opening {
        return crashed(store, &[(*name, Pick::Before)]);
    }
    let mut left = crashed(store, &[])?;
    if let Opening::Failing(call, fault) = opening {
        let calls = opening_calls(alloc, store)?;
        left.fail(calls.saturating_add(*call), *fault);
    }
    Ok(left)
}

// ---- jobs

fn flush_over(
    alloc: Global,
    tree: &mut TreeState,
    first: &[Row],
    then: &[Row],
) -> Result<Told, Error> {
    let Some(job) = tree.begin_flush()? else {
        return Ok(Told::Nothing);
    };
    let before = plays(alloc, tree, first);
    let written = written(tree, job, 0)?;
    let right = plays(alloc, tree, then) && before;
    let told = registered(tree, written)?;
    Ok(if right { told } else { Told::Wrong })
}

fn flush_given_up(alloc: Global, tree: &mut TreeState, rows: &[Row]) -> Result<Told, Error> {
    let Some(job) = tree.begin_flush()? else {
        return Ok(Told::Wrong);
    };
    let right = plays(alloc, tree, rows);
    tree.abandon_flush(job);
    Ok(if right { Told::Nothing } else { Told::Wrong })
}

/// Does a merge; refused, it is given up.
fn merged(tree: &mut TreeState, job: CompactionJob) -> Result<MergedCompaction, Error> {
    match job.run() {
        Ok(merged) => Ok(merged),
        Err((error, job)) => {
            tree.abandon_compaction(job);
            Err(error)
        }
    }
}

fn finished(tree: &mut TreeState, merged: MergedCompaction) -> Result<Told, Error> {
    match tree.finish_compaction(merged)? {
        Finished::Installed => Ok(Told::Installed),
        Finished::Declined(why) => Ok(Told::Declined(why)),
    }
}

fn merge_over(
    alloc: Global,
    tree: &mut TreeState,
    job: CompactionJob,
    first: &[Row],
    then: &[Row],
) -> Result<Told, Error> {
    let before = plays(alloc, tree, first);
    let merged = merged(tree, job)?;
    let right = plays(alloc, tree, then) && before;
    let told = finished(tree, merged)?;
    Ok(if right { told } else { Told::Wrong })
}

/// A merge is finished in a new tree.
fn finished_elsewhere(
    alloc: Global,
    tree: &mut TreeState,
    job: CompactionJob,
) -> Result<Told, Error> {
    let mut other = match open(alloc, 0, MemStore::new(alloc)) {
        Ok(other) => other,
        Err(error) => {
            tree.abandon_compaction(job);
            return Err(error);
        }
    };
    let told = match merged(tree, job) {
        Ok(merged) => finished(&mut other, merged),
        Err(error) => Err(error),
    };
    drop(other);
    told
}

fn ended(
    alloc: Global,
    tree: &mut TreeState,
    job: CompactionJob,
    end: &End,
) -> Result<Told, Error> {
    match end {
        End::Finished(first, then) => merge_over(alloc, tree, job, *first, *then),
        End::GivenUp(rows) => {
            let right = plays(alloc, tree, *rows);
            tree.abandon_compaction(job);
            Ok(if right { Told::Nothing } else { Told::Wrong })
        }
        End::Elsewhere => finished_elsewhere(alloc, tree, job),
    }
}

fn merges(
    alloc: Global,
    tree: &mut TreeState,
    list: &[TableId],
    to: u8,
    end: &End,
) -> Result<Told, Error> {
    let begun = choose(alloc, tree, &Kind::Merge, list, to)?;
    ended_if_begun(alloc, tree, begun, end)
}

fn merges_all(alloc: Global, tree: &mut TreeState, end: &End) -> Result<Told, Error> {
    let options = tree.options_at(0);
    let begun = tree.begin_compaction(&Major::new(u64::MAX), options)?;
    ended_if_begun(alloc, tree, begun, end)
}

fn ended_if_begun(
    alloc: Global,
    tree: &mut TreeState,
    begun: Begun,
    end: &End,
) -> Result<Told, Error> {
    match begun {
        Begun::Job(job) => ended(alloc, tree, job, end),
        Begun::DidNothing | Begun::Declined(_) | Begun::Installed => Ok(Told::Wrong),
    }
}

// ---- all

fn is_right(alloc: Global, tree: &mut TreeState, part: &Part) -> bool {
    match part {
        Part::Plays(rows) => plays(alloc, tree, *rows),
        Part::Fill(times) => flushes_times(alloc, tree, *times),
        Part::FlushOver(first, then, told) => {
            outcome(flush_over(alloc, tree, *first, *then)) == *told
        }
        Part::FlushGivenUp(rows) => outcome(flush_given_up(alloc, tree, *rows)) == Told::Nothing,
        Part::Merge(list, to, end, told) => {
            outcome(merges(alloc, tree, *list, *to, end)) == *told
        }
        Part::Major(end, told) => outcome(merges_all(alloc, tree, end)) == *told,
        Part::Reopen(..) => true,
    }
}

/// The tree after a part, and whether that is as it says.
fn behind(alloc: Global, mut tree: TreeState, part: &Part) -> Result<(TreeState, bool), Error> {
    if let Part::Reopen(opening, next) = part {
        let closed = tree.into_store();
        let store = opened_as(alloc, &closed, opening)?;
        drop(closed);
        return Ok((open(alloc, *next, store)?, true));
    }
    let right = is_right(alloc, &mut tree, part);
    Ok((tree, right))
}

/// The tree after parts, and whether each of them is as it says.
fn played(alloc: Global, tree: TreeState, parts: &[Part]) -> Result<(TreeState, bool), Error> {
    let mut tree = tree;
    let mut played = true;
    for part in parts {
        let (next, right) = behind(alloc, tree, part)?;
        tree = next;
        played = played && right;
    }
    Ok((tree, played))
}

/// Whether each part of a script is as it says, in a new tree, between the parts of others.
fn is_played(alloc: Global, begin: &[Part], parts: &[Part], end: &[Part]) -> Result<bool, Error> {
    let tree = open(alloc, 0, MemStore::new(alloc))?;
    let (tree, begins) = played(alloc, tree, begin)?;
    let (tree, goes_on) = played(alloc, tree, parts)?;
    let (tree, ends) = played(alloc, tree, end)?;
    drop(tree);
    Ok(begins && goes_on && ends)
}

fn play_between(rt: &impl Abort, alloc: Global, begin: &[Part], scripts: &[Script], end: &[Part]) {
    for script in scripts {
        assert!(rt;
            matches!(is_played(alloc, begin, script.1, end), Ok(true)),
            "{}",
            script.0
        );
    }
}

/// Plays each script in a tree of its own.
pub fn play_all(rt: &impl Abort, alloc: Global, scripts: &[Script]) {
    play_between(rt, alloc, &[], scripts, &[]);
}

/// Plays each of them in a tree of its own.
pub fn play_alike(rt: &impl Abort, alloc: Global, alike: &Alike) {
    play_between(rt, alloc, alike.begin, alike.scripts, alike.end);
}
