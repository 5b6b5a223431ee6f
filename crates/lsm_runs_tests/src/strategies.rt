// The strategies of each run, by their indexes, and a run on a new tree.
use lsm_runs::{Outcome, Step, run};
use lsm_state::{
    Choice, ChooseError, CompactionState, CompactionStrategy, Config, Error, Input, Leveled, Major,
    MemStore, TableId, TreeState, Version,
};
use std::alloc::{AllocError, Global};
use std::collections::HashSet;

/// Merges the first table into the last level.
pub(crate) const FIRST_TABLE: usize = 0;

/// Merges the second table into the last level.
pub(crate) const SECOND_TABLE: usize = 1;

/// Merges all tables into the last level.
pub(crate) const MAJOR: usize = 2;

/// Merges by levels.
pub(crate) const LEVELED: usize = 3;

/// Moves the first table into the last level.
pub(crate) const FIRST_MOVED: usize = 4;

/// No strategy has this index.
pub(crate) const NONE: usize = 9;

fn run_new(
    alloc: Global,
    strategies: &[Box<dyn CompactionStrategy>],
    steps: &[Step],
) -> Result<Vec<Outcome>, Error> {
    match TreeState::open(alloc, Config::new(0, 0, 0), MemStore::new(alloc)) {
        Ok(mut tree) => {
            let taken = run(alloc, &mut tree, strategies, steps);
            drop(tree);
            taken.ended?;
            Ok(taken.outcomes)
        }
        Err((error, _)) => Err(error),
    }
}

fn only(alloc: Global, id: TableId) -> Result<HashSet<TableId>, AllocError> {
    let mut ids = HashSet::new(alloc);
    ids.insert(id)?;
    Ok(ids)
}

/// Moves or merges one table into the last level.
#[derive(Drop)]
struct TakesOne {
    id: TableId,
    moves: bool,
}

impl CompactionStrategy for TakesOne {
    ghost may_choose = { λ s config hidden version choice. Unit {0} };

    ghost may_refuse = { λ s config hidden version e. Unit {0} };

    fn get_name(&self) -> &'static str {
        "TakesOne"
    }

    fn choose(
        &self,
        alloc: Global,
        _version: &Version,
        _config: &Config,
        _state: &CompactionState,
    ) -> Result<Choice, ChooseError> {
        let input = Input {
            table_ids: only(alloc, self.id)?,
            dest_level: 6,
            canonical_level: 6,
            target_size: u64::MAX,
        };
        Ok(if self.moves {
            Choice::Move(input)
        } else {
            Choice::Merge(input)
        })
    }
}

/// The outcomes of steps on a new tree.
pub(crate) fn outcomes(alloc: Global, steps: &[Step]) -> Result<Vec<Outcome>, Error> {
    let merges_first = TakesOne {
        id: 0,
        moves: false,
    };
    let merges_second = TakesOne {
        id: 1,
        moves: false,
    };
    let mut strategies: Vec<Box<dyn CompactionStrategy>> = Vec::new(alloc);
    strategies.push(Box::new(alloc, merges_first)?)?;
    strategies.push(Box::new(alloc, merges_second)?)?;
    strategies.push(Box::new(alloc, Major::default())?)?;
    strategies.push(Box::new(alloc, Leveled::new(alloc)?)?)?;
    strategies.push(Box::new(alloc, TakesOne { id: 0, moves: true })?)?;
    let told = run_new(alloc, &strategies, steps);
    drop(strategies);
    told
}
