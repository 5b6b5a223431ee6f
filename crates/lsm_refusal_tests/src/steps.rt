// Calls on a tree as rows of data, and what each answers.
use crate::store::RefusingStore;
use lsm_compaction::KeptCompaction;
use lsm_state::{
    Begun, Choice, CompactionJob, Config, Error, Finished, Input, Leveled, Op, Options,
    OwnedBounds, SeqNo, TableId, TreeState, UserKey, Why,
};
use std::alloc::{AllocError, Global};
use std::collections::HashSet;
use std::ops::Bound;

pub type Tree = TreeState<RefusingStore>;

/// A tree, and the job of a merge that is open.
#[derive(Drop)]
pub struct Player {
    pub tree: Tree,
    pub job: Option<KeptCompaction>,
}

/// A call on a tree.
#[derive(Clone, Copy)]
pub enum Step {
    /// Writes under the next number.
    Set(&'static str, &'static str),
    Del(&'static str),
    /// Writes under a number of its own.
    Insert(&'static str, &'static str, SeqNo),
    /// The active memtable is flushed, at a watermark.
    Flush(SeqNo),
    Major(SeqNo),
    Leveled(SeqNo),
    /// The tables within two keys are dropped, both included.
    DropWithin(&'static str, &'static str),
    /// Those between a key and itself, both excluded.
    DropBetween(&'static str),
    /// A merge of all tables into the first level begins, and waits.
    Begin,
    /// The merge that waits is run and finished.
    Finish,
}

/// What is answered.
#[derive(Clone, Copy, PartialEq, Eq)]
pub enum Told {
    /// The number of a write.
    Number(SeqNo),
    /// The size of an entry, and that of its memtable.
    Sizes(u64, u64),
    /// The bytes that were flushed, and whether what was to go is gone.
    Flushed(u64, bool),
    Installed,
    Nothing,
    Declined(Why),
    Job,
}

pub fn text(spelled: &'static str) -> UserKey {
    UserKey::from_static(spelled.as_bytes())
}

pub fn open(
    alloc: Global,
    next: SeqNo,
    store: RefusingStore,
) -> Result<Tree, (Error, RefusingStore)> {
    TreeState::open(alloc, Config::new(0, next, next), store)
}

pub fn write(alloc: Global, tree: &mut Tree, name: &'static str, op: Op) -> Result<Told, Error> {
    Ok(Told::Number(tree.write(vec![in alloc; (text(name), op)]?)?))
}

fn insert(
    tree: &mut Tree,
    name: &'static str,
    value: &'static str,
    seqno: SeqNo,
) -> Result<Told, Error> {
    let (size, all) = tree.insert(text(name), text(value), seqno)?;
    Ok(Told::Sizes(size, all))
}

fn flush(tree: &mut Tree, watermark: SeqNo) -> Result<Told, Error> {
    match tree.flush_active_memtable(watermark) {
        Ok((_, Some((size, registered)))) => if registered.installed {
            Ok(Told::Flushed(size, registered.cleaned))
        } else {
            Ok(Told::Nothing)
        },
        Ok((_, None)) => Ok(Told::Nothing),
        Err((error, _)) => Err(error),
    }
}

// ---- compactions

fn tell(done: Option<Finished>) -> Told {
    match done {
        None => Told::Nothing,
        Some(Finished::Declined(why)) => Told::Declined(why),
        Some(Finished::Installed) => Told::Installed,
    }
}

fn level(alloc: Global, tree: &mut Tree, watermark: SeqNo) -> Result<Told, Error> {
    Ok(tell(tree.compact(&Leveled::new(alloc)?, watermark)?))
}

fn drop_within(tree: &mut Tree, start: Bound<UserKey>, end: Bound<UserKey>) -> Result<Told, Error> {
    Ok(tell(tree.drop_range(OwnedBounds { start, end })?))
}

/// The ids of all tables.
pub fn all_ids(alloc: Global, tree: &Tree) -> Result<HashSet<TableId>, AllocError> {
    let mut ids = HashSet::new(alloc);
    for table in tree.current_version().iter_tables() {
        ids.insert(table.id())?;
    }
    Ok(ids)
}

fn begin(alloc: Global, player: &mut Player) -> Result<Told, Error> {
    let input = Input {
        table_ids: all_ids(alloc, &player.tree)?,
        dest_level: 0,
        canonical_level: 0,
        target_size: u64::MAX,
    };
    let options = Options::from_tree(&player.tree);
    match player.tree.begin_choice(Choice::Merge(input), options)? {
        Begun::Job(job) => {
            player.job = Some(job.keep());
            Ok(Told::Job)
        }
        Begun::DidNothing => Ok(Told::Nothing),
        Begun::Declined(why) => Ok(Told::Declined(why)),
        Begun::Installed => Ok(Told::Installed),
    }
}

fn finish_job(tree: &mut Tree, job: CompactionJob) -> Result<Told, Error> {
    match job.run() {
        Ok(merged) => match tree.finish_compaction(merged)? {
            Finished::Installed => Ok(Told::Installed),
            Finished::Declined(why) => Ok(Told::Declined(why)),
        },
        Err((error, job)) => {
            tree.abandon_compaction(job);
            Err(error)
        }
    }
}

fn finish(player: &mut Player) -> Result<Told, Error> {
    match player.job.take() {
        Some(job) => finish_job(&mut player.tree, job.into_job()),
        None => Ok(Told::Nothing),
    }
}

/// Gives up the merge that waits.
pub fn give_up(player: &mut Player) {
    if let Some(job) = player.job.take() {
        player.tree.abandon_compaction(job.into_job());
    }
}

// ---- all

pub fn take(alloc: Global, player: &mut Player, step: Step) -> Result<Told, Error> {
    let tree = &mut player.tree;
    match step {
        Step::Set(name, value) => write(alloc, tree, name, Op::Set(text(value))),
        Step::Del(name) => write(alloc, tree, name, Op::Del),
        Step::Insert(name, value, seqno) => insert(tree, name, value, seqno),
        Step::Flush(watermark) => flush(tree, watermark),
        Step::Major(watermark) => Ok(tell(tree.major_compact(u64::MAX, watermark)?)),
        Step::Leveled(watermark) => level(alloc, tree, watermark),
        Step::DropWithin(low, high) => {
            drop_within(
                tree,
                Bound::Included(text(low)),
                Bound::Included(text(high)),
            )
        }
        Step::DropBetween(name) => {
            drop_within(
                tree,
                Bound::Excluded(text(name)),
                Bound::Excluded(text(name)),
            )
        }
        Step::Begin => begin(alloc, player),
        Step::Finish => finish(player),
    }
}
