// Eight callers that write and read, one that flushes, one that clears and two that compact.
//
// Helpers borrow the tree, and the test drops it by a call: a proof takes a tree that is dropped at the end of a block to
// all its pieces.
use crate::replay::{Counts, count_all};
use crate::samples::set;
use lsm_tree::{
    Config, Error, Handle, Major, MemStore, Pass, Recorded, RecordedTree, RunJob, SeqNo, UserKey,
};
use std::alloc::{AllocError, Global};
use std::sync::Wait;
use std::test::Fail;
use std::thread::{self, Threads};

const CALLERS: usize = 12;

const TURNS: u8 = 20;

/// A key that all callers write.
fn name_key(alloc: Global, turn: u8) -> Result<UserKey, AllocError> {
    let name = format!(in alloc; "{}", turn % 4)?;
    UserKey::copy_from_slice(alloc, name.as_bytes())
}

/// A value that no other write has.
fn name_value(alloc: Global, caller: usize, turn: u8) -> Result<UserKey, AllocError> {
    let name = format!(in alloc; "{caller}-{turn}")?;
    UserKey::copy_from_slice(alloc, name.as_bytes())
}

/// A caller: what it takes the lock with, its own pass, and its number, which says what it does.
#[derive(Drop)]
struct Caller<'a, R: Wait> {
    rt: &'a R,
    alloc: Global,
    tree: &'a RecordedTree,
    pass: Pass,
    number: usize,
}

impl<R: Wait> Caller<'_, R> {
    /// Writes a key under the next number.
    fn write(&mut self, turn: u8) -> Result<SeqNo, Error> {
        let key = name_key(self.alloc, turn)?;
        let value = name_value(self.alloc, self.number, turn)?;
        let ops = set(self.alloc, key, value)?;
        self.tree.write(self.rt, &mut self.pass, ops)
    }

    /// Reads another key at this snapshot.
    fn read(&mut self, turn: u8, snapshot: SeqNo) -> Result<(), Error> {
        let key = name_key(self.alloc, turn.saturating_add(1))?;
        let pass = &mut self.pass;
        match self.tree.get(self.rt, pass, key.as_slice(), snapshot) {
            Ok(_) => Ok(()),
            Err(error) => Err(error),
        }
    }

    fn flush(&mut self) -> Result<(), Error> {
        match self.tree.flush_active_memtable(self.rt, &mut self.pass, 0) {
            Ok(_) => Ok(()),
            Err((error, _)) => Err(error),
        }
    }

    fn compact(&mut self) -> Result<(), Error> {
        let major = Major::new(u64::MAX);
        let pass = &mut self.pass;
        self.tree.compact_gated(self.rt, pass, &major, 0, &RunJob)?;
        Ok(())
    }

    /// What it does at one of its turns: it writes a key and reads another one after that, flushes, clears at each fourth
    /// turn, or compacts.
    fn take_turn(&mut self, turn: u8) -> Result<(), Error> {
        match self.number {
            0..=7 => {
                let number = self.write(turn)?;
                self.read(turn, number.saturating_add(1))
            }
            8 => self.flush(),
            9 => {
                if turn % 4 == 0 {
                    self.tree.clear(self.rt, &mut self.pass)?;
                }
                Ok(())
            }
            _ => self.compact(),
        }
    }
}

/// What a caller's calls put into the journal, and whether none of them was refused.
type Told = (Pass, bool);

fn call(rt: &impl Wait, alloc: Global, tree: &RecordedTree, number: usize) -> Told {
    let mut caller = Caller {
        rt,
        alloc,
        tree,
        pass: Pass::new(alloc),
        number,
    };
    let mut is_done = true;
    for turn in 0..TURNS {
        is_done = is_done && caller.take_turn(turn).is_ok();
    }
    (caller.pass, is_done)
}

/// The passes of all callers, and whether no call was refused.
fn all_passes(alloc: Global, told: Vec<Told>) -> (Vec<Pass>, bool) {
    let mut passes = Vec::new(alloc);
    let mut are_done = true;
    for (pass, is_done) in told {
        are_done = passes.push(pass).is_ok() && is_done && are_done;
    }
    (passes, are_done)
}

/// What is counted in the journal that is given out for these passes.
fn counts_of(rt: &impl Wait, tree: &RecordedTree, passes: Vec<Pass>) -> Option<Counts> {
    match tree.close(rt, passes) {
        Ok(closed) => Some(count_all(&closed.journal)),
        Err(_) => None,
    }
}

fn count_told(
    rt: &impl Wait,
    alloc: Global,
    tree: &RecordedTree,
    told: Vec<Told>,
) -> Option<Counts> {
    let (passes, are_done) = all_passes(alloc, told);
    let counts = counts_of(rt, tree, passes);
    if are_done { counts } else { None }
}

/// Starts all callers, and counts what their journal tells, None where a call was refused.
fn call_all<R: Threads + Wait + Sync>(
    rt: &R,
    alloc: Global,
    tree: &RecordedTree,
) -> Option<Counts> {
    let told = thread::map_indices(
        rt,
        alloc,
        CALLERS,
        &|number| { call(rt, alloc, tree, number) },
    );
    match told {
        Ok(told) => count_told(rt, alloc, tree, told),
        Err(_) => None,
    }
}

fn open(alloc: Global) -> Result<RecordedTree, Error> {
    match Recorded::open(alloc, Config::new(0, 0, 0), MemStore::new(alloc)) {
        Ok(core) => Ok(Handle::new(alloc, core)?),
        Err((error, _)) => Err(error),
    }
}

const WANTED: Counts = Counts {
    reads: 160,
    right: 160,
    writes: 160,
    clears: 5,
    drops: 0,
};

#[test]
fn each_read_of_many_callers_is_answered_as_the_journal_says(rt: HostRuntime) -> Result<(), Fail> {
    let tree = open(rt.alloc())?;
    let counts = call_all(&rt, rt.alloc(), &tree);
    drop(tree);
    assert_eq!(rt; counts, Some(WANTED));
    Ok(())
}
