// Callers in threads of their own, on one tree.
use lsm_below::UserKey;
use lsm_tree::{Config, Error, Handle, MemStore, Op, Pass, Recorded, RecordedTree};
use std::alloc::Global;
use std::sync::Wait;
use std::thread::{self, Threads};

/// How many keys each caller writes.
const KEYS: u8 = 10;

/// Starts so many callers, each of which writes keys of its own, one a `write`, and reads each back at
/// its number + 1.
///
/// The length of the journal, where each read what it wrote and the passes together list the journal.
/// None where one read something else.
pub fn call_all<R: Threads + Wait + Sync>(
    rt: &R,
    alloc: Global,
    callers: u8,
) -> Result<Option<usize>, Error> {
    let opened = Recorded::open_unlogged(alloc, Config::new(0, 0, 0), MemStore::new(alloc));
    let core = opened.map_err(|refused| refused.0)?;
    let tree = Handle::new(alloc, core)?;
    let told = thread::map_indices(
        rt,
        alloc,
        usize::from(callers),
        &|caller| { call(rt, alloc, &tree, caller) },
    )?;
    let mut passes = Vec::with_capacity(alloc, told.len())?;
    for pass in told {
        match pass? {
            Some(pass) => passes.push(pass)?,
            None => return Ok(None),
        }
    }
    Ok(
        tree.close(rt, passes)
            .ok()
            .map(|closed| closed.journal.len()),
    )
}

/// What one caller's calls put into the journal, None where it read something else than it wrote.
fn call(
    rt: &impl Wait,
    alloc: Global,
    tree: &RecordedTree,
    caller: usize,
) -> Result<Option<Pass>, Error> {
    let mut pass = Pass::new(alloc);
    for key in 0..KEYS {
        let name = format!(in alloc; "{caller}-{key}")?;
        let key = UserKey::copy_from_slice(alloc, name.as_bytes())?;
        if !write_and_read(rt, alloc, tree, &mut pass, key)? {
            return Ok(None);
        }
    }
    Ok(Some(pass))
}

/// Writes a key with its own bytes as its value, and reads it back: whether it is what was written.
fn write_and_read(
    rt: &impl Wait,
    alloc: Global,
    tree: &RecordedTree,
    pass: &mut Pass,
    key: UserKey,
) -> Result<bool, Error> {
    let value = key.clone()?;
    let ops = vec![in alloc; (key.clone()?, Op::Set(value))]?;
    let number = tree.write(rt, pass, ops)?;
    let found = tree.get(rt, pass, key.as_slice(), number.saturating_add(1))?;
    Ok(found.is_some_and(|value| value == key))
}
