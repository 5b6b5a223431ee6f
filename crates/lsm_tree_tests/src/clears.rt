// Clears of trees with a journal and of shared ones, and two callers who read back what they wrote.
use crate::samples::{Caller, open_recorded, open_shared, set, share_recorded, text};
use lsm_tree::{
    Answer, Config, Error, JournalEntry, Op, Pass, Question, Recorded, RecordedTree, SeqNo,
    SharedEntry, Tree, UserValue,
};
use std::alloc::Global;
use std::sync::Wait;
use std::test::Fail;
use std::thread;

// ---- with a journal

/// Sets a key to `x`, clears, and reads the key below the clear and after it: whether each is as it is to be.
fn clears(alloc: Global, tree: &mut Recorded, pass: &mut Pass) -> Result<bool, Error> {
    let written = tree.write(pass, vec![in alloc; (text("a"), Op::Set(text("x")))]?)?;
    let cleared = tree.clear(pass)?;
    let before = tree.get(pass, b"a", 1)?;
    let behind = tree.get(pass, b"a", 2)?;
    Ok(written == 0 && cleared == 1 && before == Some(text("x")) && behind.is_none())
}

fn is_out_of_order(tree: &mut Recorded, pass: &mut Pass, seqno: SeqNo) -> bool {
    let told = tree.insert(pass, text("b"), text("y"), seqno);
    matches!(told, Err(Error::OutOfOrder))
}

fn sets(tree: &mut Recorded, pass: &mut Pass, seqno: SeqNo) -> bool {
    matches!(tree.insert(pass, text("b"), text("y"), seqno), Ok((50, 50)))
}

/// Whether these are a write, the clear, two reads and a write.
fn tells_of_clear(journal: &[SharedEntry]) -> bool {
    let mut entries = journal.iter().map(|entry| entry.as_entry());
    matches!(entries.next(), Some(JournalEntry::Write(_)))
        && matches!(entries.next(), Some(JournalEntry::Clear(1)))
        && matches!(
            entries.next(),
            Some(JournalEntry::Read(1, _, Answer::Found(Some(_))))
        )
        && matches!(
            entries.next(),
            Some(JournalEntry::Read(2, _, Answer::Found(None)))
        )
        && matches!(entries.next(), Some(JournalEntry::Write(_)))
        && entries.next().is_none()
}

#[test]
fn a_clear_is_noted(rt: HostRuntime) -> Result<(), Fail> {
    let alloc = rt.alloc();
    let mut tree = open_recorded(alloc, Config::new(0, 0, 0))?;
    let mut pass = Pass::new(alloc);
    let done = clears(alloc, &mut tree, &mut pass);
    assert!(rt; matches!(done, Ok(true)));
    // No write comes below a clear.
    assert!(rt; is_out_of_order(&mut tree, &mut pass, 0));
    assert!(rt; sets(&mut tree, &mut pass, 1));
    assert!(rt; tells_of_clear(tree.journal()));
    assert_eq!(rt; pass.entries().len(), 5);
    drop(pass);
    drop(tree);
    Ok(())
}

/// A write, a clear behind the lock, and a read after it.
fn clears_shared(caller: &mut Caller<'_, impl Wait>) -> Result<bool, Error> {
    caller.set("x")?;
    let (rt, tree, pass) = caller.parts();
    let cleared = tree.clear(rt, pass)?;
    let found = tree.get(rt, pass, b"a", 2)?;
    Ok(cleared == 1 && found.is_none())
}

/// Whether the pass lists the journal, in which the clear is the second of three entries.
fn closes(caller: Caller<'_, impl Wait>) -> bool {
    match caller.close() {
        Some(closed) => {
            closed.opened.table_count() == 0
                && closed.journal.len() == 3
                && matches!(closed.journal[1].as_entry(), JournalEntry::Clear(1))
        }
        None => false,
    }
}

#[test]
fn a_clear_behind_the_lock_is_noted(rt: HostRuntime) -> Result<(), Fail> {
    let tree = share_recorded(rt.alloc())?;
    let mut caller = Caller::new(&rt, rt.alloc(), &tree);
    let done = clears_shared(&mut caller);
    assert!(rt; matches!(done, Ok(true)));
    assert!(rt; closes(caller));
    drop(tree);
    Ok(())
}

// ---- without one

fn has(rt: &impl Wait, tree: &Tree, key: &'static str, snapshot: SeqNo) -> bool {
    matches!(tree.contains_key(rt, key.as_bytes(), snapshot), Ok(true))
}

/// a is flushed and b isn't: what isn't flushed is forgotten, and then all.
fn forgets(rt: &impl Wait, alloc: Global, tree: &Tree) -> Result<bool, Error> {
    set(rt, alloc, tree, "a", "x")?;
    let flushed = tree.flush_active_memtable(rt, 0).is_ok();
    set(rt, alloc, tree, "b", "x")?;
    tree.clear_active_memtable(rt)?;
    let is_kept = has(rt, tree, "a", 3) && !has(rt, tree, "b", 3);
    let cleared = tree.clear(rt)?;
    Ok(flushed && is_kept && cleared == 3 && !has(rt, tree, "a", 4) && has(rt, tree, "a", 3))
}

#[test]
fn a_shared_tree_is_cleared(rt: HostRuntime) -> Result<(), Fail> {
    let tree = open_shared(rt.alloc())?;
    let done = forgets(&rt, rt.alloc(), &tree);
    assert!(rt; matches!(done, Ok(true)));
    assert!(rt; tree.table_count(&rt) == 0 && tree.visible_number(&rt) == 4);
    drop(tree);
    Ok(())
}

// ---- two callers

/// What one caller read, and the entries that its calls added.
type Told = (Option<UserValue>, Pass);

/// Sets a key to its own letters, and reads it back.
fn read_back(
    rt: &impl Wait,
    alloc: Global,
    tree: &RecordedTree,
    pass: &mut Pass,
    key: &'static str,
) -> Result<Option<UserValue>, Error> {
    let number = tree.write(rt, pass, vec![in alloc; (text(key), Op::Set(text(key)))]?)?;
    tree.get(rt, pass, key.as_bytes(), number.saturating_add(1))
}

fn call(rt: &impl Wait, alloc: Global, tree: &RecordedTree, key: &'static str) -> Told {
    let mut pass = Pass::new(alloc);
    let reply = read_back(rt, alloc, tree, &mut pass, key).unwrap_or(None);
    (reply, pass)
}

/// Whether an entry is a read of this key, which answered so.
fn is_read(entry: Option<&SharedEntry>, key: &'static str, reply: &Option<UserValue>) -> bool {
    match entry.map(|noted| noted.as_entry()) {
        Some(JournalEntry::Read(_, Question::Get(asked), Answer::Found(found))) => {
            *asked == text(key) && found == reply
        }
        _ => false,
    }
}

/// The place of the second entry of a pass, the read's.
fn place_of_read(told: &Told) -> usize {
    match told.1.entries() {
        [_, (place, _)] => *place as usize,
        _ => usize::MAX,
    }
}

/// Whether each caller was answered what it wrote, and the journal's read at its place answers the same.
fn are_answered(rt: &impl Wait, alloc: Global, tree: &RecordedTree, one: Told, two: Told) -> bool {
    let places = (place_of_read(&one), place_of_read(&two));
    let (first, second) = (one.0, two.0);
    let Ok(passes) = vec![in alloc; one.1, two.1] else {
        return false;
    };
    let Ok(closed) = tree.close(rt, passes) else {
        return false;
    };
    first == Some(text("a"))
        && second == Some(text("b"))
        && is_read(closed.journal.get(places.0), "a", &first)
        && is_read(closed.journal.get(places.1), "b", &second)
}

#[test]
fn each_reply_is_the_read_of_the_journal(rt: HostRuntime) -> Result<(), Fail> {
    let alloc = rt.alloc();
    let tree = share_recorded(alloc)?;
    let one = tree.clone()?;
    let two = tree.clone()?;
    let first = thread::spawn(&rt, move || call(&rt, alloc, &one, "a"))?;
    let second = thread::spawn(&rt, move || call(&rt, alloc, &two, "b"))?;
    let (first, second) = (first.join(&rt), second.join(&rt));
    assert!(rt; are_answered(&rt, alloc, &tree, first, second));
    drop(tree);
    Ok(())
}
