//! A strategy of one's own: it merges all tables once the first level has enough runs.
//!
//! A strategy need not be right: a merge or a move that would change an answer is declined.

use crate::{open, text};
use anyhow::Result;
use lsm_tree::{
    Choice, ChooseError, CompactionState, CompactionStrategy, Config, Finished, Input, Op, TableId,
    TreeState, Version,
};
use std::alloc::{AllocError, Global};
use std::collections::HashSet;

/// From this many bytes of entries on a merge begins a new table.
const TABLE_BYTES: u64 = 64 * 1024 * 1024;

/// The choice to merge these tables into the last level.
fn merge_into_last(table_ids: HashSet<TableId>, config: &Config) -> Choice {
    let last = config.level_count().saturating_sub(1);
    Choice::Merge(Input {
        table_ids,
        dest_level: last,
        canonical_level: last,
        target_size: TABLE_BYTES,
    })
}

/// The ids of all tables of a version, and one more.
fn all_ids(
    alloc: Global,
    version: &Version,
    guessed: Option<TableId>,
) -> Result<HashSet<TableId>, AllocError> {
    let mut ids = HashSet::new(alloc);
    for table in version.iter_tables() {
        ids.insert(table.id())?;
    }
    if let Some(id) = guessed {
        ids.insert(id)?;
    }
    Ok(ids)
}

/// Merges all tables once the first level has so many runs, and one more, that it may be wrong about.
#[derive(Drop)]
struct MergeAtRuns {
    runs: usize,
    guessed: Option<TableId>,
}

impl CompactionStrategy for MergeAtRuns {
    // It may choose anything: no proof rests on what it does.
    ghost may_choose = { λ s config hidden version choice. Unit {0} };

    ghost may_refuse = { λ s config hidden version e. Unit {0} };

    fn get_name(&self) -> &'static str {
        "MergeAtRuns"
    }

    fn choose(
        &self,
        alloc: Global,
        version: &Version,
        config: &Config,
        state: &CompactionState,
    ) -> Result<Choice, ChooseError> {
        let ids = all_ids(alloc, version, self.guessed)?;
        // A table that an open merge works on would only be declined.
        let waits = version.l0().run_count() < self.runs || state.hidden_set().is_blocked(&ids);
        Ok(if waits {
            Choice::DoNothing
        } else {
            merge_into_last(ids, config)
        })
    }
}

fn print_done(rt: &impl Print, done: Option<Finished>) -> Result<()> {
    match done {
        None => println!(rt; "nothing to do")?,
        Some(Finished::Declined(why)) => println!(rt; "declined: {why:?}")?,
        Some(Finished::Installed) => println!(rt; "installed")?,
    }
    Ok(())
}

/// Writes a key into a table of its own.
fn add_table(alloc: Global, tree: &mut TreeState, key: &'static str) -> Result<()> {
    tree.write(vec![in alloc; (text(key), Op::Set(text("x")))]?)?;
    tree.flush_active_memtable(0).map_err(|refused| refused.0)?;
    Ok(())
}

/// Writes a key three times, each time into a table and so a run of its own, and compacts after each.
fn show(rt: &impl Print, alloc: Global, tree: &mut TreeState) -> Result<()> {
    let strategy = MergeAtRuns {
        runs: 3,
        guessed: None,
    };
    for _ in 0..3 {
        add_table(alloc, tree, "a")?;
        let watermark = tree.visible_seqno().get();
        print_done(rt, tree.compact(&strategy, watermark)?)?;
    }
    // There is no such table.
    let wrong = MergeAtRuns {
        runs: 0,
        guessed: Some(1_000),
    };
    print_done(rt, tree.compact(&wrong, 0)?)?;
    println!(rt;
        "tables {}, entries {}",
        tree.table_count(),
        tree.approximate_len()
    )?;
    Ok(())
}

pub(crate) fn run(rt: &impl Print, alloc: Global) -> Result<()> {
    let mut tree = open(alloc)?;
    let told = show(rt, alloc, &mut tree);
    drop(tree);
    told
}
