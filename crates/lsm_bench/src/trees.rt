// The trees that workloads find, of each kind.
use crate::workloads::Kind;
use anyhow::{Result, bail};
use lsm_tree::{
    Config, Error, Handle, Logged, MemtableId, Op, Pass, Recorded, Registered, SeqNo, Store, Tree,
    TreeState, UserKey, UserValue,
};
use std::alloc::Global;
use std::sync::Wait;

/// Where the counters of an empty tree start.
const START: Config = Config {
    id: 0,
    seqno: 0,
    visible_seqno: 0,
};

/// A tree of one of the kinds.
#[derive(Drop)]
pub enum AnyTree<S: Store> {
    Owned(TreeState<S>),
    Locked(Tree<S>),
    /// With the pass of its one caller.
    Recorded(Recorded<S>, Pass),
    Logged(Logged<S>),
}

/// What a flush of the active memtable answers.
type Flushed = Result<(Option<MemtableId>, Option<(u64, Registered)>), (Error, Option<MemtableId>)>;

/// A tree with one owner, with its counters above what the store holds.
fn open_owned<S: Store>(alloc: Global, store: S) -> Result<TreeState<S>, Error> {
    match TreeState::open_unlogged(alloc, START, store) {
        Ok(tree) => Ok(tree),
        Err((error, _)) => Err(error),
    }
}

fn open_locked<S: Store + Send>(alloc: Global, store: S) -> Result<Tree<S>, Error> {
    let tree = Handle::new(alloc, open_owned(alloc, store)?)?;
    Ok(tree)
}

impl<S: Store + Send> AnyTree<S> {
    /// The tree that a store holds, which may be empty.
    pub fn open(kind: Kind, alloc: Global, store: S) -> Result<AnyTree<S>, Error> {
        match kind {
            Kind::Owned => Ok(AnyTree::Owned(open_owned(alloc, store)?)),
            Kind::Locked => Ok(AnyTree::Locked(open_locked(alloc, store)?)),
            Kind::Recorded => match Recorded::open_unlogged(alloc, START, store) {
                Ok(tree) => Ok(AnyTree::Recorded(tree, Pass::new(alloc))),
                Err((error, _)) => Err(error),
            },
            Kind::Logged => match Logged::open(alloc, START, store) {
                Ok(tree) => Ok(AnyTree::Logged(tree)),
                Err((error, _)) => Err(error),
            },
        }
    }

    /// Writes a batch, and returns its sequence number.
    pub fn write(&mut self, rt: &impl Wait, ops: Vec<(UserKey, Op)>) -> Result<SeqNo, Error> {
        match self {
            AnyTree::Owned(tree) => tree.write(ops),
            AnyTree::Locked(tree) => tree.write(rt, ops),
            AnyTree::Recorded(tree, pass) => tree.write(pass, ops),
            AnyTree::Logged(tree) => tree.write(ops),
        }
    }

    /// The value of a key at a snapshot.
    pub fn get(
        &mut self,
        rt: &impl Wait,
        key: &[u8],
        snapshot: SeqNo,
    ) -> Result<Option<UserValue>, Error> {
        match self {
            AnyTree::Owned(tree) => tree.get(key, snapshot),
            AnyTree::Locked(tree) => tree.get(rt, key, snapshot),
            AnyTree::Recorded(tree, pass) => tree.get(pass, key, snapshot),
            AnyTree::Logged(tree) => tree.get(key, snapshot),
        }
    }

    /// The snapshot that sees every write so far.
    pub fn snapshot(&self, rt: &impl Wait) -> SeqNo {
        match self {
            AnyTree::Owned(tree) => tree.visible_seqno().get(),
            AnyTree::Locked(tree) => tree.visible_number(rt),
            AnyTree::Recorded(tree, _) => tree.visible_seqno().get(),
            AnyTree::Logged(tree) => tree.visible_seqno().get(),
        }
    }

    /// Flushes the active memtable at a watermark, and returns the bytes that it counted.
    pub fn flush(&mut self, rt: &impl Wait, watermark: SeqNo) -> Result<u64, Error> {
        let flushed: Flushed = match self {
            AnyTree::Owned(tree) => tree.flush_active_memtable(watermark),
            AnyTree::Locked(tree) => tree.flush_active_memtable(rt, watermark),
            AnyTree::Recorded(tree, pass) => tree.flush_active_memtable(pass, watermark),
            AnyTree::Logged(tree) => tree.flush_active_memtable(watermark),
        };
        match flushed {
            Ok((_, flush)) => Ok(flush.map_or(0, |(size, _)| size)),
            Err((error, _)) => Err(error),
        }
    }

    /// The tree below, to be read.
    pub fn state(&self) -> Result<&TreeState<S>> {
        match self {
            AnyTree::Owned(tree) => Ok(tree),
            AnyTree::Logged(tree) => Ok(tree.tree()),
            AnyTree::Locked(_) | AnyTree::Recorded(..) => bail!("it lends no tree to be read"),
        }
    }

    /// Closes the tree, which lets go of all that it holds in memory.
    pub fn into_store(self) -> Result<S> {
        match self {
            AnyTree::Owned(tree) => Ok(tree.into_store()),
            AnyTree::Logged(tree) => Ok(tree.into_store()),
            AnyTree::Locked(_) | AnyTree::Recorded(..) => bail!("it gives no store back"),
        }
    }
}
