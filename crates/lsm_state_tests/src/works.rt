// Compactions of a tree as data.
use crate::samples::{Edge, bounds};
use crate::steps::Told;
use lsm_state::{
    Begun, Choice, ChooseError, CompactionState, CompactionStrategy, Config, Error, Fifo, Finished,
    Input, Leveled, Options, OwnedBounds, SeqNo, TableId, TreeState, Version,
};
use std::alloc::{AllocError, Global};
use std::collections::HashSet;

/// A compaction.
pub enum Work {
    /// At a watermark.
    Major(SeqNo),
    Leveled(SeqNo),
    /// Leveled with a target of one byte, so that each table is too much, and a threshold of two tables.
    Small,
    /// A limit of bytes, seconds to live, and a watermark; its moment is the tree's.
    Fifo(u64, Option<u64>, SeqNo),
    DropRange(Edge, Edge),
    /// Something is to become of tables of these ids, maybe in a level; the job of a merge is dropped, and so stays open.
    Choose(Kind, &'static [TableId], u8),
    /// A strategy of one's own chooses likewise.
    Ask(Kind, &'static [TableId], u8),
}

/// What is to become of tables.
#[derive(Clone, Copy)]
pub enum Kind {
    Move,
    Merge,
    Drop,
}

fn ids(alloc: Global, list: &[TableId]) -> Result<HashSet<TableId>, AllocError> {
    let mut ids = HashSet::new(alloc);
    for id in list {
        ids.insert(*id)?;
    }
    Ok(ids)
}

fn input(alloc: Global, list: &[TableId], to: u8) -> Result<Input, AllocError> {
    Ok(Input {
        table_ids: ids(alloc, list)?,
        dest_level: to,
        canonical_level: to,
        target_size: u64::MAX,
    })
}

fn choice(alloc: Global, kind: &Kind, list: &[TableId], to: u8) -> Result<Choice, AllocError> {
    match kind {
        Kind::Move => Ok(Choice::Move(input(alloc, list, to)?)),
        Kind::Merge => Ok(Choice::Merge(input(alloc, list, to)?)),
        Kind::Drop => Ok(Choice::Drop(ids(alloc, list)?)),
    }
}

pub fn choose(
    alloc: Global,
    tree: &mut TreeState,
    kind: &Kind,
    list: &[TableId],
    to: u8,
) -> Result<Begun, Error> {
    let options = Options::from_tree(tree);
    tree.begin_choice(choice(alloc, kind, list, to)?, options)
}

/// A strategy that chooses these tables for a level, whatever there is.
#[derive(Drop)]
struct Chooser {
    kind: Kind,
    list: &'static [TableId],
    to: u8,
}

impl CompactionStrategy for Chooser {
    ghost may_choose = { λ s config hidden version choice. Unit {0} };

    ghost may_refuse = { λ s config hidden version e. Unit {0} };

    fn get_name(&self) -> &'static str {
        "Chooser"
    }

    fn choose(
        &self,
        alloc: Global,
        _version: &Version,
        _config: &Config,
        _state: &CompactionState,
    ) -> Result<Choice, ChooseError> {
        Ok(choice(alloc, &self.kind, self.list, self.to)?)
    }
}

fn leveled(
    alloc: Global,
    tree: &mut TreeState,
    watermark: SeqNo,
) -> Result<Option<Finished>, Error> {
    tree.compact(&Leveled::new(alloc)?, watermark)
}

fn level_small(alloc: Global, tree: &mut TreeState) -> Result<Option<Finished>, Error> {
    let small = Leveled::new(alloc)?
        .with_table_target_size(1)
        .with_l0_threshold(2)
        .with_level_ratio_policy(vec![in alloc; (10, 1)]?);
    tree.compact(&small, 0)
}

/// What became of a compaction in one call.
fn ended(done: Result<Option<Finished>, Error>) -> Result<Told, Error> {
    match done? {
        None => Ok(Told::Nothing),
        Some(Finished::Declined(why)) => Ok(Told::Declined(why)),
        Some(Finished::Installed) => Ok(Told::Installed),
    }
}

/// What became of a choice.
fn began(begun: Result<Begun, Error>) -> Result<Told, Error> {
    match begun? {
        Begun::DidNothing => Ok(Told::Nothing),
        Begun::Declined(why) => Ok(Told::Declined(why)),
        Begun::Installed => Ok(Told::Installed),
        Begun::Job(job) => {
            drop(job.keep());
            Ok(Told::Job)
        }
    }
}

pub fn compact(alloc: Global, tree: &mut TreeState, work: &Work) -> Result<Told, Error> {
    match work {
        Work::Major(watermark) => ended(tree.major_compact(u64::MAX, *watermark)),
        Work::Leveled(watermark) => ended(leveled(alloc, tree, *watermark)),
        Work::Small => ended(level_small(alloc, tree)),
        Work::Fifo(limit, ttl, watermark) => {
            let fifo = Fifo::new(*limit, *ttl, tree.moment());
            ended(tree.compact(&fifo, *watermark))
        }
        Work::DropRange(low, high) => {
            let (start, end) = bounds(low, high);
            ended(tree.drop_range(OwnedBounds { start, end }))
        }
        Work::Choose(kind, list, to) => began(choose(alloc, tree, kind, list, *to)),
        Work::Ask(kind, list, to) => {
            let chooser = Chooser {
                kind: *kind,
                list: *list,
                to: *to,
            };
            ended(tree.compact(&chooser, 0))
        }
    }
}
