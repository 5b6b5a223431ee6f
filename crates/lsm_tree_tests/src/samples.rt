// What several tests write, and the trees that they begin with.
use lsm_tree::{
    Closed, Config, Error, Finished, Handle, JournalEntry, MemStore, Op, Pass, Recorded,
    RecordedTree, Tree, TreeState, UserKey,
};
use std::alloc::Global;
use std::sync::Wait;

/// A key or a value of these letters.
pub(crate) fn text(spelled: &'static str) -> UserKey {
    UserKey::from_static(spelled.as_bytes())
}

/// A new tree over a store in memory.
pub(crate) fn open_state(alloc: Global) -> Result<TreeState, Error> {
    match TreeState::open(alloc, Config::new(0, 0, 0), MemStore::new(alloc)) {
        Ok(tree) => Ok(tree),
        Err((error, _)) => Err(error),
    }
}

/// A new tree with its journal, over a store in memory.
pub(crate) fn open_recorded(alloc: Global, config: Config) -> Result<Recorded, Error> {
    match Recorded::open(alloc, config, MemStore::new(alloc)) {
        Ok(tree) => Ok(tree),
        Err((error, _)) => Err(error),
    }
}

/// A new tree that several callers may share.
pub(crate) fn open_shared(alloc: Global) -> Result<Tree, Error> {
    Ok(Handle::new(alloc, open_state(alloc)?)?)
}

/// A new tree with its journal that several callers may share.
pub(crate) fn share_recorded(alloc: Global) -> Result<RecordedTree, Error> {
    let core = open_recorded(alloc, Config::new(0, 0, 0))?;
    Ok(Handle::new(alloc, core)?)
}

// ---- what is done to one that is shared

pub(crate) fn set(
    rt: &impl Wait,
    alloc: Global,
    tree: &Tree,
    key: &'static str,
    value: &'static str,
) -> Result<u64, Error> {
    tree.write(rt, vec![in alloc; (text(key), Op::Set(text(value)))]?)
}

/// Sets a key, and flushes it into a table.
pub(crate) fn set_in_table(
    rt: &impl Wait,
    alloc: Global,
    tree: &Tree,
    key: &'static str,
    value: &'static str,
) -> Result<(), Error> {
    set(rt, alloc, tree, key, value)?;
    match tree.flush_active_memtable(rt, 0) {
        Ok(_) => Ok(()),
        Err((error, _)) => Err(error),
    }
}

/// Whether a snapshot shows this value of the key a.
pub(crate) fn shows(rt: &impl Wait, tree: &Tree, snapshot: u64, value: &'static str) -> bool {
    match tree.get(rt, b"a", snapshot) {
        Ok(found) => found == Some(text(value)),
        Err(_) => false,
    }
}

pub(crate) fn is_installed(done: &Result<Option<Finished>, Error>) -> bool {
    matches!(done, Ok(Some(Finished::Installed)))
}

pub(crate) fn did_nothing(done: &Result<Option<Finished>, Error>) -> bool {
    matches!(done, Ok(None))
}

// ---- and to one with its journal

/// A caller of a shared tree with its journal: what it takes the lock with, and its own pass.
#[derive(Drop)]
pub(crate) struct Caller<'a, R: Wait> {
    rt: &'a R,
    alloc: Global,
    tree: &'a RecordedTree,
    pub(crate) pass: Pass,
}

impl<'a, R: Wait> Caller<'a, R> {
    pub(crate) fn new(rt: &'a R, alloc: Global, tree: &'a RecordedTree) -> Caller<'a, R> {
        let pass = Pass::new(alloc);
        Caller {
            rt,
            alloc,
            tree,
            pass,
        }
    }

    /// What each call of the tree is given.
    pub(crate) fn parts(&mut self) -> (&R, &RecordedTree, &mut Pass) {
        (self.rt, self.tree, &mut self.pass)
    }

    /// Sets the key a.
    pub(crate) fn set(&mut self, value: &'static str) -> Result<u64, Error> {
        let ops = vec![in self.alloc; (text("a"), Op::Set(text(value)))]?;
        self.tree.write(self.rt, &mut self.pass, ops)
    }

    /// Sets the key a, and flushes it into a table.
    pub(crate) fn set_in_table(&mut self, value: &'static str) -> Result<(), Error> {
        self.set(value)?;
        match self.tree.flush_active_memtable(self.rt, &mut self.pass, 0) {
            Ok(_) => Ok(()),
            Err((error, _)) => Err(error),
        }
    }

    /// The journal that is given out for the pass, if it is.
    pub(crate) fn close(self) -> Option<Closed> {
        let passes = vec![in self.alloc; self.pass].ok()?;
        self.tree.close(self.rt, passes).ok()
    }
}

// ---- what is noted

/// An entry of a journal, with its number: the watermark of a mark.
pub(crate) enum Noted {
    Write,
    Mark(u64),
    Install(u64),
    Dropped(u64),
}

fn is_noted(entry: &JournalEntry, noted: &Noted) -> bool {
    match (entry, noted) {
        (JournalEntry::Write(_), Noted::Write) => true,
        (JournalEntry::Mark(told), Noted::Mark(number))
        | (JournalEntry::Install(told), Noted::Install(number))
        | (JournalEntry::Dropped(_, told), Noted::Dropped(number)) => told == number,
        _ => false,
    }
}

/// Whether a pass has just these entries.
pub(crate) fn tells(pass: &Pass, wanted: &[Noted]) -> bool {
    for (entry, noted) in pass.entries().iter().zip(wanted) {
        if !is_noted(entry.1.as_entry(), noted) {
            return false;
        }
    }
    pass.entries().len() == wanted.len()
}
