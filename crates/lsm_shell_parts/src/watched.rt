// A store that says how far long work is, for whoever waits for it.
ghost use Rattle.std.specs.Prelude.{◌≡◌};

use crate::cause::SessionStore;
use bytes::Bytes;
use lsm_tree::{Error, FolderError, FolderFault, Store, StoreError};
use std::alloc::Global;
use std::io::Write;
use std::time::{Clock, Duration, Instant};

/// What the names of tables begin with.
const TABLES: &str = "tables/";

/// The name that is replaced by a commit.
const CURRENT: &str = "current";

/// Where long work shows itself, a line each beat.
#[derive(Drop)]
pub struct Watch<E> {
    pub errors: E,
    /// How long work goes on unseen, and how long it takes from one line to the next.
    pub beat: Duration,
    /// From how many entries on a flush or a compaction is announced: what it does before it writes tables takes no call of
    /// a store.
    pub entries: usize,
}

/// Work that goes on: since when, how far it is, and when that was last said.
#[derive(Drop)]
struct Task {
    /// Of how many tables an opening reads them. None where tables are written.
    all: Option<u64>,
    since: Instant,
    tables: u64,
    bytes: u64,
    said: Duration,
}

/// A store each call of which is that of another store, and which says how far an opening and the writing of tables are. It isn't
/// said to tell its content: it stands over a folder.
#[derive(Drop)]
pub(crate) struct WatchedStore<S, C, E> {
    inner: S,
    clock: C,
    watch: Option<Watch<E>>,
    task: Option<Task>,
}

impl<S: SessionStore, C: Clock + Drop, E: Write + Drop> WatchedStore<S, C, E> {
    pub(crate) fn new(inner: S, clock: C, watch: Option<Watch<E>>) -> WatchedStore<S, C, E> {
        WatchedStore {
            inner,
            clock,
            watch,
            task: None,
        }
    }

    /// Begins with an opening of so many tables, or with writing. Nothing is counted where nobody watches, or where the time
    /// can't be told.
    fn begin(&mut self, all: Option<u64>)
        ensures { self.new.inner ≡ self.old.inner }
    {
        self.task = match (&self.watch, Instant::now(&self.clock)) {
            (Some(_), Ok(since)) => Some(Task {
                all,
                since,
                tables: 0,
                bytes: 0,
                said: Duration::ZERO,
            }),
            _ => None,
        };
    }

    /// Whether an opening goes on, or else tables are written.
    fn is_at(&self, opens: bool) -> bool {
        match &self.task {
            Some(task) => task.all.is_some() == opens,
            None => false,
        }
    }

    /// Counts a table, and says how far the work is once a beat has passed.
    fn count(&mut self, bytes: usize)
        ensures { self.new.inner ≡ self.old.inner }
    {
        let (Some(watch), Some(task)) = (&mut self.watch, &mut self.task) else {
            return;
        };
        task.tables = task.tables.saturating_add(1);
        task.bytes = task.bytes.saturating_add(bytes as u64);
        let Ok(passed) = task.since.elapsed(&self.clock) else {
            return;
        };
        if passed >= task.said.saturating_add(watch.beat) {
            task.said = passed;
            say(&mut watch.errors, task);
        }
    }
}

/// Says how far work is. It goes on where that can't be written.
fn say<E: Write>(errors: &mut E, task: &Task) {
    let (tables, megabytes) = (task.tables, task.bytes / 1_000_000);
    let _ = match task.all {
        Some(all) => writeln!(errors, "opening: {tables} of {all} tables, {megabytes} MB"),
        None => writeln!(errors, "writing tables: {tables}, {megabytes} MB"),
    };
}

impl<S: SessionStore, C: Clock + Drop, E: Write + Drop> Store for WatchedStore<S, C, E> {
    ghost tells = { ⊥ };

    ghost world = { λ s. S.world s.inner };

    ghost gives_one = { λ no store name. absurd no };

    ghost counts_now = { λ no store t image le now. absurd no };

    ghost only_now = { λ no store image left. absurd no };

    fn list(&mut self, alloc: Global) -> Result<Vec<String>, StoreError> {
        let names = self.inner.list(alloc)?;
        let mut tables: u64 = 0;
        for name in &names {
            if name.starts_with(TABLES) {
                tables = tables.saturating_add(1);
            }
        }
        self.begin(Some(tables));
        Ok(names)
    }

    fn read(&mut self, alloc: Global, name: &str) -> Result<Option<Vec<u8>>, StoreError> {
        let found = self.inner.read(alloc, name)?;
        if let Some(content) = &found {
            if name.starts_with(TABLES) && self.is_at(true) {
                self.count(content.len());
            }
        }
        Ok(found)
    }

    fn write(&mut self, name: &str, bytes: &[u8]) -> Result<(), StoreError> {
        self.inner.write(name, bytes)?;
        if name.starts_with(TABLES) {
            if !self.is_at(false) {
                self.begin(None);
            }
            self.count(bytes.len());
        }
        Ok(())
    }

    fn write_shared(&mut self, name: &str, bytes: &Bytes) -> Result<(), StoreError> {
        self.write(name, bytes.as_slice())
    }

    fn sync(&mut self, name: &str) -> Result<(), StoreError> {
        self.inner.sync(name)
    }

    fn replace(&mut self, name: &str, bytes: &[u8]) -> Result<(), StoreError> {
        if name == CURRENT {
            self.task = None;
        }
        self.inner.replace(name, bytes)
    }

    fn remove(&mut self, name: &str) -> Result<(), StoreError> {
        self.inner.remove(name)
    }

    fn settle(&mut self) -> Result<(), StoreError> {
        self.inner.settle()
    }

    fn failures(&self) -> u64 {
        self.inner.failures()
    }
}

impl<S: SessionStore, C: Clock + Drop, E: Write + Drop> SessionStore for WatchedStore<S, C, E> {
    fn last_fault(&self) -> Option<&FolderFault> {
        self.inner.last_fault()
    }

    fn explain(&self, alloc: Global, error: Error) -> FolderError {
        self.inner.explain(alloc, error)
    }
}
