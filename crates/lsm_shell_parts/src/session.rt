// A tree that answers commands.
use crate::cause::{Refusal, SessionStore, Unopened, fault_of};
use crate::command::{Command, Plan, parse};
use crate::reply::Reply;
use crate::tree::SessionTree;
use lsm_below::{SeqNo, UserKey};
use lsm_tree::{
    Error, Fifo, Finished, Leveled, Major, Op, OwnedBounds, TreeState, prefix_to_range,
};
use std::alloc::{AllocError, Global};
use std::ops::Bound;

/// A tree that answers lines.
#[derive(Drop)]
pub struct Session<S: SessionStore> {
    alloc: Global,
    is_logged: bool,
    /// None before the first opening, after a crash, and where an opening was refused.
    tree: Option<SessionTree<S>>,
    /// The store alone, where there is no tree.
    store: Option<S>,
}

impl<S: SessionStore> Session<S> {
    /// A session over a store, which is to be opened.
    pub fn new(alloc: Global, store: S, is_logged: bool) -> Session<S> {
        Session {
            alloc,
            is_logged,
            tree: None,
            store: Some(store),
        }
    }

    fn take_store(&mut self) -> Option<S> {
        match self.tree.take() {
            Some(tree) => Some(tree.into_store()),
            None => self.store.take(),
        }
    }

    /// Opens the tree, also again, from its store: how many tables it has. Refused, the store is kept.
    pub fn open(&mut self) -> Result<usize, Refusal> {
        let Some(store) = self.take_store() else {
            return Err(Refusal::new(Error::Store, None));
        };
        match SessionTree::open(self.alloc, store, self.is_logged) {
            Ok(tree) => {
                let tables = tree.tree().table_count();
                drop(self.tree.replace(tree));
                Ok(tables)
            }
            Err(Unopened { refusal, store }) => {
                drop(self.store.replace(store));
                Err(refusal)
            }
        }
    }

    /// Does what the line asks, and says what came of it. Where a call of the store failed meanwhile, or the tree couldn't
    /// be opened again, the second says why.
    pub fn answer(&mut self, line: &[u8]) -> (Reply, Option<String>) {
        let failures = self.failures();
        let (reply, cause) = match parse(self.alloc, line) {
            Ok(Some(Command::Reopen)) => self.reopen(),
            Ok(Some(command)) => (self.run(command).unwrap_or_else(Reply::Refused), None),
            Ok(None) => (Reply::Usage, None),
            Err(_) => (Reply::Refused(Error::OutOfMemory), None),
        };
        if cause.is_some() || self.failures() <= failures {
            return (reply, cause);
        }
        let fault = self.store().and_then(|store| fault_of(self.alloc, store));
        (reply, fault)
    }

    /// What a line is to work on that takes long where there are many entries: a flush or a compaction.
    pub fn foresee(&self, line: &[u8]) -> Option<(&'static str, &TreeState<S>)> {
        let tree = self.tree.as_ref()?.tree();
        if line.starts_with(b"flush ") {
            Some(("flush", tree))
        } else if line.starts_with(b"compact ") {
            Some(("compaction", tree))
        } else {
            None
        }
    }

    fn store(&self) -> Option<&S> {
        match &self.tree {
            Some(tree) => Some(tree.tree().store()),
            None => self.store.as_ref(),
        }
    }

    fn failures(&self) -> u64 {
        match self.store() {
            Some(store) => store.failures(),
            None => 0,
        }
    }

    fn reopen(&mut self) -> (Reply, Option<String>) {
        match self.open() {
            Ok(tables) => (Reply::Number("opened", tables as u64), None),
            Err(refusal) => (Reply::Refused(refusal.error), refusal.cause),
        }
    }

    fn run(&mut self, command: Command) -> Result<Reply, Error> {
        let Some(tree) = &mut self.tree else {
            return Ok(Reply::Usage);
        };
        if let Command::Crash = command {
            return self.crash();
        }
        run_on(self.alloc, tree, command)
    }

    /// Crashes the store, where it can be crashed. Then it is to be opened again.
    fn crash(&mut self) -> Result<Reply, Error> {
        let Some(store) = self.store() else {
            return Ok(Reply::Usage);
        };
        let Some(left) = store.crashed()? else {
            return Ok(Reply::Usage);
        };
        drop(self.tree.take());
        drop(self.store.replace(left));
        Ok(Reply::Word("crashed"))
    }
}

/// Does what a command asks of an open tree.
fn run_on<S: SessionStore>(
    alloc: Global,
    tree: &mut SessionTree<S>,
    command: Command,
) -> Result<Reply, Error> {
    match command {
        Command::Put(key, value) => write(alloc, tree, key, Op::Set(value)),
        Command::Del(key) => write(alloc, tree, key, Op::Del),
        Command::Weak(key) => write(alloc, tree, key, Op::Weak),
        Command::Get(key, snapshot) => get(tree, &key, snapshot),
        Command::Range(low, high, snapshot) => range(tree, &(low, high), snapshot),
        Command::Prefix(key, snapshot) => {
            range(tree, &prefix_to_range(alloc, key.as_slice())?, snapshot)
        }
        Command::Rotate => rotate(tree),
        Command::Flush(watermark) => flush(tree, watermark),
        Command::Compact(plan, watermark) => compact(alloc, tree, plan, watermark),
        Command::DropRange(start, end) => told(tree.drop_range(OwnedBounds { start, end })),
        Command::Clear => Ok(Reply::Number("cleared", tree.clear()?)),
        Command::Now(moment) => {
            tree.set_moment(moment);
            Ok(Reply::Word("ok"))
        }
        Command::Stats => Ok(Reply::Lines(count(alloc, tree.tree())?)),
        Command::Crash | Command::Reopen => Ok(Reply::Usage),
    }
}

fn write<S: SessionStore>(
    alloc: Global,
    tree: &mut SessionTree<S>,
    key: UserKey,
    op: Op,
) -> Result<Reply, Error> {
    let Ok(ops) = vec![in alloc; (key, op)] else {
        return Err(Error::OutOfMemory);
    };
    Ok(Reply::Number("ok", tree.write(ops)?))
}

fn get<S: SessionStore>(
    tree: &mut SessionTree<S>,
    key: &UserKey,
    snapshot: Option<SeqNo>,
) -> Result<Reply, Error> {
    let snapshot = snapshot_or_now(tree, snapshot);
    Ok(match tree.get(key.as_slice(), snapshot)? {
        Some(value) => Reply::Value(value),
        None => Reply::Word("none"),
    })
}

fn range<S: SessionStore>(
    tree: &SessionTree<S>,
    bounds: &(Bound<UserKey>, Bound<UserKey>),
    snapshot: Option<SeqNo>,
) -> Result<Reply, Error> {
    let snapshot = snapshot_or_now(tree, snapshot);
    Ok(Reply::Pairs(tree.range(bounds, snapshot)?))
}

fn rotate<S: SessionStore>(tree: &mut SessionTree<S>) -> Result<Reply, Error> {
    Ok(match tree.rotate_memtable()? {
        Some(id) => Reply::Number("rotated", id),
        None => Reply::Word("nothing"),
    })
}

fn flush<S: SessionStore>(tree: &mut SessionTree<S>, watermark: SeqNo) -> Result<Reply, Error> {
    Ok(match tree.flush_active_memtable(watermark)? {
        Some((size, registered)) if registered.installed => Reply::Flushed(size, "installed"),
        Some((size, _)) => Reply::Flushed(size, "stale"),
        None => Reply::Word("nothing"),
    })
}

fn compact<S: SessionStore>(
    alloc: Global,
    tree: &mut SessionTree<S>,
    plan: Plan,
    watermark: SeqNo,
) -> Result<Reply, Error> {
    match plan {
        Plan::Leveled => told(tree.compact(&Leveled::new(alloc)?, watermark)),
        Plan::Major => told(tree.compact(&Major::default(), watermark)),
        Plan::Fifo(limit, ttl) => {
            let fifo = Fifo::new(limit, Some(ttl), tree.tree().moment());
            told(tree.compact(&fifo, watermark))
        }
    }
}

/// What came of a compaction in one call.
fn told(done: Result<Option<Finished>, Error>) -> Result<Reply, Error> {
    Ok(match done? {
        Some(Finished::Installed) => Reply::Word("installed"),
        Some(Finished::Declined(why)) => Reply::Declined(why),
        None => Reply::Word("nothing"),
    })
}

/// The line of what a tree counts: its tables and the runs of its first level, its sealed memtables, the entries of memtables
/// and tables, and the bytes of its tables.
fn count<S: SessionStore>(alloc: Global, tree: &TreeState<S>) -> Result<String, AllocError> {
    let (tables, runs) = (tree.table_count(), tree.l0_run_count());
    let (sealed, len) = (tree.sealed_memtable_count(), tree.approximate_len());
    let bytes = tree.disk_space();
    format!(in alloc; "tables {tables} runs {runs} sealed {sealed} len {len} bytes {bytes}\n")
}

/// The snapshot, or the one that sees every write so far.
fn snapshot_or_now<S: SessionStore>(tree: &SessionTree<S>, snapshot: Option<SeqNo>) -> SeqNo {
    match snapshot {
        Some(snapshot) => snapshot,
        None => tree.tree().visible_seqno().get(),
    }
}
