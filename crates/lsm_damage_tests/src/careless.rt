// A boxed strategy that answers anything. Nothing halts, and only a drop changes what is read.
use crate::samples::{open_new, set};
use lsm_state::{
    Choice, ChooseError, CompactionState, CompactionStrategy, Config, Error, Finished, Input,
    TableId, TreeState, Version, Why,
};
use std::alloc::{AllocError, Global};
use std::collections::HashSet;
use std::test::Fail;

#[derive(Clone, Copy)]
enum Careless {
    /// Merges all tables into level 255.
    Far,
    /// Moves a table that isn't there.
    Absent,
    MoveAll,
    DropAll,
    Refuses,
    NoMemory,
}

pub fn all_ids(alloc: Global, version: &Version) -> Result<HashSet<TableId>, AllocError> {
    let mut ids = HashSet::new(alloc);
    for table in version.iter_tables() {
        ids.insert(table.id())?;
    }
    Ok(ids)
}

fn one_id(alloc: Global, id: TableId) -> Result<HashSet<TableId>, AllocError> {
    let mut ids = HashSet::new(alloc);
    ids.insert(id)?;
    Ok(ids)
}

pub fn into_level(table_ids: HashSet<TableId>, dest_level: u8) -> Input {
    Input {
        table_ids,
        dest_level,
        canonical_level: dest_level,
        target_size: 1,
    }
}

impl CompactionStrategy for Careless {
    ghost may_choose = { λ s config hidden version choice. Unit {0} };

    ghost may_refuse = { λ s config hidden version e. Unit {0} };

    fn get_name(&self) -> &'static str {
        "Careless"
    }

    fn choose(
        &self,
        alloc: Global,
        version: &Version,
        _config: &Config,
        _state: &CompactionState,
    ) -> Result<Choice, ChooseError> {
        match self {
            Careless::Far => Ok(Choice::Merge(into_level(all_ids(alloc, version)?, 255))),
            Careless::Absent => Ok(Choice::Move(into_level(one_id(alloc, 666)?, 6))),
            Careless::MoveAll => Ok(Choice::Move(into_level(all_ids(alloc, version)?, 6))),
            Careless::DropAll => Ok(Choice::Drop(all_ids(alloc, version)?)),
            Careless::Refuses => Err(ChooseError::Refused),
            Careless::NoMemory => Err(ChooseError::OutOfMemory),
        }
    }
}

/// What a compaction answers.
#[derive(Clone, Copy, PartialEq, Eq)]
enum Told {
    Nothing,
    Declined(Why),
    Installed,
    /// The number of the error.
    Refused(u8),
}

fn tell(done: Result<Option<Finished>, Error>) -> Told {
    match done {
        Ok(None) => Told::Nothing,
        Ok(Some(Finished::Declined(why))) => Told::Declined(why),
        Ok(Some(Finished::Installed)) => Told::Installed,
        Err(error) => Told::Refused(error.number()),
    }
}

fn compact(alloc: Global, tree: &mut TreeState, strategy: Careless) -> Result<Told, AllocError> {
    let boxed: Box<dyn CompactionStrategy> = Box::new(alloc, strategy)?;
    let told = tell(tree.compact(&*boxed, 0));
    drop(boxed);
    Ok(told)
}

fn set_twice(alloc: Global, tree: &mut TreeState) -> Result<(), Error> {
    set(alloc, tree, "a", "1")?;
    set(alloc, tree, "a", "2")
}

/// Two tables with a = 1 (0) and a = 2 (2).
pub fn open_with_two(alloc: Global) -> Result<TreeState, Error> {
    let mut tree = open_new(alloc)?;
    match set_twice(alloc, &mut tree) {
        Ok(()) => Ok(tree),
        Err(error) => {
            drop(tree);
            Err(error)
        }
    }
}

fn reads(tree: &TreeState, snapshot: u64, value: &[u8]) -> bool {
    match tree.get(b"a", snapshot) {
        Ok(Some(found)) => found.as_slice() == value,
        _ => false,
    }
}

/// What is answered, whether both values are read as before, and whether no table is in use.
fn tells(alloc: Global, strategy: Careless) -> Result<(Told, bool, bool), Error> {
    let mut tree = open_with_two(alloc)?;
    let told = compact(alloc, &mut tree, strategy);
    let is_read = reads(&tree, 5, b"2") && reads(&tree, 2, b"1");
    let is_free = !tree.is_compacting();
    drop(tree);
    Ok((told?, is_read, is_free))
}

const STRATEGIES: [(Careless, Told, bool); 6] = [
    (Careless::Far, Told::Declined(Why::NoSuchLevel), true),
    (Careless::Absent, Told::Declined(Why::Missing), true),
    (Careless::MoveAll, Told::Declined(Why::Overlap), true),
    (Careless::DropAll, Told::Installed, false),
    (Careless::Refuses, Told::Refused(21), true),
    (Careless::NoMemory, Told::Refused(1), true),
];

#[test]
fn a_strategy_may_answer_anything(rt: HostRuntime) -> Result<(), Fail> {
    for (place, (strategy, wanted, was_read)) in STRATEGIES.iter().enumerate() {
        let (told, is_read, is_free) = tells(rt.alloc(), *strategy)?;
        let right = told == *wanted && is_read == *was_read && is_free;
        assert!(rt; right, "strategy {place}");
    }
    Ok(())
}
