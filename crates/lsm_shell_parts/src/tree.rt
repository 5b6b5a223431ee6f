// The tree of a session, with its call history or with a log above it.
use crate::cause::{SessionStore, Unopened};
use lsm_below::{MemtableId, SeqNo, UserKey, UserValue};
use lsm_tree::{
    CompactionStrategy, Config, Error, Finished, Logged, Op, OwnedBounds, Pass, Recorded,
    Registered, TreeIter, TreeState,
};
use std::alloc::Global;
use std::ops::Bound;

/// Each opening raises the counters above all that the store holds.
const START: Config = Config {
    id: 0,
    seqno: 0,
    visible_seqno: 0,
};

/// What a session asks of its tree. Each method does what that of the same name of the tree does.
#[derive(Drop)]
pub enum SessionTree<S: SessionStore> {
    /// With its call history. A pass serves for one call: nobody closes the tree, so none outlives its call.
    Plain(Global, Recorded<S>),
    /// With a log, and without a history that grows with the lines that are read.
    Logged(Logged<S>),
}

impl<S: SessionStore> SessionTree<S> {
    /// The tree that a store holds, or a new one. Without a log a store in which a record of one counts is refused: a flush
    /// would pass what the record holds.
    pub fn open(alloc: Global, store: S, is_logged: bool) -> Result<SessionTree<S>, Unopened<S>> {
        if is_logged {
            return match Logged::open(alloc, START, store) {
                Ok(tree) => Ok(SessionTree::Logged(tree)),
                Err((error, store)) => Err(Unopened::new(alloc, error, store, is_logged)),
            };
        }
        match Recorded::open_unlogged(alloc, START, store) {
            Ok(tree) => Ok(SessionTree::Plain(alloc, tree)),
            Err((error, store)) => Err(Unopened::new(alloc, error, store, is_logged)),
        }
    }

    /// The tree, to be read.
    pub fn tree(&self) -> &TreeState<S> {
        match self {
            SessionTree::Plain(_, tree) => tree.tree(),
            SessionTree::Logged(tree) => tree.tree(),
        }
    }

    pub fn into_store(self) -> S {
        match self {
            SessionTree::Plain(_, tree) => tree.into_store(),
            SessionTree::Logged(tree) => tree.into_store(),
        }
    }

    pub fn write(&mut self, ops: Vec<(UserKey, Op)>) -> Result<SeqNo, Error> {
        match self {
            SessionTree::Plain(alloc, tree) => tree.write(&mut Pass::new(*alloc), ops),
            SessionTree::Logged(tree) => tree.write(ops),
        }
    }

    pub fn get(&mut self, key: &[u8], snapshot: SeqNo) -> Result<Option<UserValue>, Error> {
        match self {
            SessionTree::Plain(alloc, tree) => tree.get(&mut Pass::new(*alloc), key, snapshot),
            SessionTree::Logged(tree) => tree.get(key, snapshot),
        }
    }

    pub fn range(
        &self,
        bounds: &(Bound<UserKey>, Bound<UserKey>),
        snapshot: SeqNo,
    ) -> Result<TreeIter, Error> {
        match self {
            SessionTree::Plain(_, tree) => tree.create_range(bounds, snapshot),
            SessionTree::Logged(tree) => tree.create_range(bounds, snapshot, None),
        }
    }

    pub fn rotate_memtable(&mut self) -> Result<Option<MemtableId>, Error> {
        match self {
            SessionTree::Plain(alloc, tree) => tree.rotate_memtable(&mut Pass::new(*alloc)),
            SessionTree::Logged(tree) => tree.rotate_memtable(),
        }
    }

    /// The bytes that were flushed, and what became of them. None where there was nothing to flush.
    pub fn flush_active_memtable(
        &mut self,
        watermark: SeqNo,
    ) -> Result<Option<(u64, Registered)>, Error> {
        let told = match self {
            SessionTree::Plain(alloc, tree) => {
                tree.flush_active_memtable(&mut Pass::new(*alloc), watermark)
            }
            SessionTree::Logged(tree) => tree.flush_active_memtable(watermark),
        };
        match told {
            Ok((_, flushed)) => Ok(flushed),
            Err((error, _)) => Err(error),
        }
    }

    pub fn compact(
        &mut self,
        strategy: &dyn CompactionStrategy,
        watermark: SeqNo,
    ) -> Result<Option<Finished>, Error> {
        match self {
            SessionTree::Plain(alloc, tree) => {
                tree.compact(&mut Pass::new(*alloc), strategy, watermark)
            }
            SessionTree::Logged(tree) => tree.compact(strategy, watermark),
        }
    }

    pub fn drop_range(&mut self, bounds: OwnedBounds) -> Result<Option<Finished>, Error> {
        match self {
            SessionTree::Plain(alloc, tree) => tree.drop_range(&mut Pass::new(*alloc), bounds),
            SessionTree::Logged(tree) => tree.drop_range(bounds),
        }
    }

    pub fn clear(&mut self) -> Result<SeqNo, Error> {
        match self {
            SessionTree::Plain(alloc, tree) => tree.clear(&mut Pass::new(*alloc)),
            SessionTree::Logged(tree) => tree.clear(),
        }
    }

    pub fn set_moment(&mut self, moment: u64) {
        match self {
            SessionTree::Plain(_, tree) => tree.set_moment(moment),
            SessionTree::Logged(tree) => tree.set_moment(moment),
        }
    }
}
