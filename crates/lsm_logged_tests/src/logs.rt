// Batches that come back, outcomes that are unknown, and records that are removed. Each tree has one function that makes it
// and lets it go, and others that borrow it.
use crate::trees::{
    count_records, crashed, file, flush, fresh, has_names, left_with, op, opened, shows, write,
};
use lsm_logged::Logged;
use lsm_state::{Config, Error, Fault, MemStore, OwnedBounds, Pick, Store, UserKey};
use std::alloc::Global;
use std::ops::Bound;
use std::test::Fail;

/// The record of a = x at 0.
pub const A_IS_X: [u8; 25] = [
    0x4c, 0x53, 0x4d, 0x4c, 0, 0, 0, 0, 0, 0, 0, 0, 1, 0, 0, 0, 1, 0, 0, 1, 0, 0, 0, 0x61, 0x78,
];

/// a = x at 0; then b = y, and a removed, at 1.
fn write_two(alloc: Global, tree: &mut Logged) -> Result<u64, Error> {
    write(alloc, tree, "a", Some("x"))?;
    tree.write(vec![in alloc; op("b", Some("y")), op("a", None)]?)
}

/// The length of a file, and whether it is the record of a = x at 0.
fn look_at(alloc: Global, tree: &Logged, name: &str) -> Result<(usize, bool), Error> {
    let bytes = file(alloc, tree, name)?;
    Ok((bytes.len(), bytes.as_slice() == A_IS_X.as_slice()))
}

fn spell(alloc: Global, tree: &mut Logged) -> Result<(bool, usize), Error> {
    write_two(alloc, tree)?;
    let (_, is_spelled) = look_at(alloc, tree, "log/0")?;
    let (second, _) = look_at(alloc, tree, "log/1")?;
    Ok((is_spelled, second))
}

/// Whether the first record is as it is spelled, and the length of the second.
fn spelled(alloc: Global) -> Result<(bool, usize), Error> {
    let mut tree = fresh(alloc)?;
    let told = spell(alloc, &mut tree);
    drop(tree);
    told
}

#[test]
fn records_are_spelled(rt: HostRuntime) -> Result<(), Fail> {
    let found = spelled(rt.alloc())?;
    assert_eq!(rt; found, (true, 33));
    Ok(())
}

/// Whether a and b show these values at a snapshot.
fn show(
    tree: &Logged,
    snapshot: u64,
    a: Option<&str>,
    b: Option<&str>,
) -> Result<(bool, bool), Error> {
    Ok((
        shows(tree, snapshot, "a", a)?,
        shows(tree, snapshot, "b", b)?,
    ))
}

/// The same at 2 after a crash.
fn show_crashed(
    alloc: Global,
    tree: &Logged,
    picks: &[(&str, Pick<'_>)],
    a: Option<&str>,
    b: Option<&str>,
) -> Result<(bool, bool), Error> {
    let left = crashed(alloc, tree, picks)?;
    let told = show(&left, 2, a, b);
    drop(left);
    told
}

fn two_come_back(alloc: Global) -> Result<(bool, bool), Error> {
    let mut tree = fresh(alloc)?;
    let told = match write_two(alloc, &mut tree) {
        Ok(_) => show_crashed(alloc, &tree, &[], None, Some("y")),
        Err(error) => Err(error),
    };
    drop(tree);
    told
}

#[test]
fn batches_come_back(rt: HostRuntime) -> Result<(), Fail> {
    let found = two_come_back(rt.alloc())?;
    assert_eq!(rt; found, (true, true));
    Ok(())
}

/// a = x at 0, flushed at 1, and b = y at 2.
pub fn flush_between(alloc: Global, tree: &mut Logged) -> Result<u64, Error> {
    write(alloc, tree, "a", Some("x"))?;
    flush(tree)?;
    write(alloc, tree, "b", Some("y"))
}

/// How many tables, entries and records there are.
pub fn count(alloc: Global, tree: &Logged) -> Result<(usize, usize, usize), Error> {
    let records = count_records(alloc, tree)?;
    Ok((tree.table_count(), tree.approximate_len(), records))
}

type Counted = ((bool, bool), (usize, usize, usize));

fn show_and_count(
    alloc: Global,
    tree: &Logged,
    a: Option<&str>,
    b: Option<&str>,
) -> Result<Counted, Error> {
    Ok((show(tree, 3, a, b)?, count(alloc, tree)?))
}

/// Whether the keys are shown so at 3 after a crash to which the record of a = x comes back, and what is counted then.
fn count_back(
    alloc: Global,
    tree: &Logged,
    a: Option<&str>,
    b: Option<&str>,
) -> Result<Counted, Error> {
    let left = opened(alloc, left_with(alloc, tree, &[("log/0", &A_IS_X)])?)?;
    let told = show_and_count(alloc, &left, a, b);
    drop(left);
    told
}

fn pass_one(alloc: Global, tree: &mut Logged) -> Result<Counted, Error> {
    flush_between(alloc, tree)?;
    count_back(alloc, tree, Some("x"), Some("y"))
}

fn passed(alloc: Global) -> Result<Counted, Error> {
    let mut tree = fresh(alloc)?;
    let told = pass_one(alloc, &mut tree);
    drop(tree);
    told
}

/// A record that a flush has passed is ignored where its file comes back, and removed again.
#[test]
fn flushed_records_stay_passed(rt: HostRuntime) -> Result<(), Fail> {
    let (shown, counted) = passed(rt.alloc())?;
    assert_eq!(rt; shown, (true, true));
    assert_eq!(rt; counted, (1, 2, 1));
    Ok(())
}

/// How many records there are after two batches, after a flush of both, after one batch more, and after a clear.
fn measure(alloc: Global, tree: &mut Logged) -> Result<(usize, usize, usize, usize), Error> {
    write_two(alloc, tree)?;
    let two = tree.log_len();
    flush(tree)?;
    let none = tree.log_len();
    write(alloc, tree, "c", Some("z"))?;
    let one = tree.log_len();
    tree.clear()?;
    Ok((two, none, one, tree.log_len()))
}

fn lengths(alloc: Global) -> Result<(usize, usize, usize, usize), Error> {
    let mut tree = fresh(alloc)?;
    let told = measure(alloc, &mut tree);
    drop(tree);
    told
}

#[test]
fn passed_records_go(rt: HostRuntime) -> Result<(), Fail> {
    let lengths = lengths(rt.alloc())?;
    assert_eq!(rt; lengths, (2, 0, 1, 0));
    Ok(())
}

/// A tree the putting of whose first record fails, with its effect.
fn doubtful(alloc: Global) -> Result<Logged, Error> {
    let mut store = fresh(alloc)?.into_store();
    // The calls of the opening come before.
    store.fail(6, Fault::OnceDone);
    opened(alloc, store)
}

/// Whether its first write has unknown outcome, and it is shut then.
pub fn doubt(alloc: Global, tree: &mut Logged) -> bool {
    let first = matches!(
        write(alloc, tree, "a", Some("x")),
        Err(Error::CommitUnknown)
    );
    let second = matches!(
        write(alloc, tree, "b", Some("y")),
        Err(Error::Unrecoverable)
    );
    first && second && tree.is_uncertain()
}

fn show_either(alloc: Global, tree: &Logged) -> Result<((bool, bool), (bool, bool)), Error> {
    let stands = show_crashed(alloc, tree, &[], Some("x"), None)?;
    let gone = show_crashed(alloc, tree, &[("log/0", Pick::Before)], None, None)?;
    Ok((stands, gone))
}

/// Whether it was shut, and what is shown where the record stands, and where it doesn't.
fn either(alloc: Global) -> Result<(bool, ((bool, bool), (bool, bool))), Error> {
    let mut tree = doubtful(alloc)?;
    let shut = doubt(alloc, &mut tree);
    let shown = show_either(alloc, &tree);
    drop(tree);
    Ok((shut, shown?))
}

/// After an unknown outcome the tree is shut; opened again it has all of the batch, or nothing.
#[test]
fn unknown_outcomes_shut_the_tree(rt: HostRuntime) -> Result<(), Fail> {
    let (shut, shown) = either(rt.alloc())?;
    assert!(rt; shut);
    assert_eq!(rt; shown, ((true, true), (true, true)));
    Ok(())
}

/// a = x at 0, a clear at 1, b = y at 2.
fn clear_between(alloc: Global, tree: &mut Logged) -> Result<u64, Error> {
    write(alloc, tree, "a", Some("x"))?;
    tree.clear()?;
    write(alloc, tree, "b", Some("y"))
}

/// From where on the log is read, and whether only the record of b is left.
fn look_at_log(alloc: Global, tree: &Logged) -> Result<(u64, bool), Error> {
    let from = tree.current_version().log_from();
    Ok((from, has_names(alloc, tree, "log/", &["log/2"])?))
}

fn clear_one(alloc: Global, tree: &mut Logged) -> Result<(Counted, (u64, bool)), Error> {
    clear_between(alloc, tree)?;
    let counted = count_back(alloc, tree, None, Some("y"))?;
    Ok((counted, look_at_log(alloc, tree)?))
}

fn cleared(alloc: Global) -> Result<(Counted, (u64, bool)), Error> {
    let mut tree = fresh(alloc)?;
    let told = clear_one(alloc, &mut tree);
    drop(tree);
    told
}

/// What was written before a clear stays gone, though its record comes back.
#[test]
fn cleared_batches_stay_gone(rt: HostRuntime) -> Result<(), Fail> {
    let ((shown, counted), log) = cleared(rt.alloc())?;
    assert_eq!(rt; shown, (true, true));
    assert_eq!(rt; counted, (0, 1, 1));
    assert_eq!(rt; log, (1, true));
    Ok(())
}

/// More calls than an opening, a write and a clear make.
const CALLS: u64 = 32;

/// Whether a is x after a crash, where it was acknowledged and the clear stopped before it replaced `current`.
fn stop_clear(alloc: Global, tree: &mut Logged) -> Result<Option<bool>, Error> {
    if write(alloc, tree, "a", Some("x")).is_err() {
        return Ok(None);
    }
    match tree.clear() {
        Err(Error::Store | Error::CommitUnknown) => {
            let (a, _) = show_crashed(alloc, tree, &[], Some("x"), None)?;
            Ok(Some(a))
        }
        _ => Ok(None),
    }
}

/// The same where each call of the store from this one on is refused and does nothing.
fn stopped(alloc: Global, call: u64) -> Result<Option<bool>, Error> {
    let mut store = MemStore::new(alloc);
    store.fail(call, Fault::FromHere);
    match Logged::open(alloc, Config::new(0, 0, 0), store) {
        Ok(mut tree) => {
            let told = stop_clear(alloc, &mut tree);
            drop(tree);
            told
        }
        Err(_) => Ok(None),
    }
}

/// A crash before a clear has replaced `current` leaves what was written before.
#[test]
fn a_stopped_clear_clears_nothing(rt: HostRuntime) -> Result<(), Fail> {
    let mut stops = 0u32;
    for call in 1..CALLS {
        if let Some(is_there) = stopped(rt.alloc(), call)? {
            assert!(rt; is_there, "call {call}");
            stops = stops.saturating_add(1);
        }
    }
    assert!(rt; stops > 0);
    Ok(())
}

/// Drops the tables that hold the key `a` alone.
fn drop_a(tree: &mut Logged) -> Result<(), Error> {
    let start = Bound::Included(UserKey::from_static(b"a"));
    let end = Bound::Included(UserKey::from_static(b"a"));
    tree.drop_range(OwnedBounds { start, end })?;
    Ok(())
}

/// a = x at 0, flushed at 1; its table is dropped at 2.
fn drop_first(alloc: Global, tree: &mut Logged) -> Result<Counted, Error> {
    write(alloc, tree, "a", Some("x"))?;
    flush(tree)?;
    drop_a(tree)?;
    count_back(alloc, tree, None, None)
}

fn first_dropped(alloc: Global) -> Result<Counted, Error> {
    let mut tree = fresh(alloc)?;
    let told = drop_first(alloc, &mut tree);
    drop(tree);
    told
}

/// What was dropped stays so, though its record comes back.
#[test]
fn dropped_entries_stay_gone(rt: HostRuntime) -> Result<(), Fail> {
    let (shown, counted) = first_dropped(rt.alloc())?;
    assert_eq!(rt; shown, (true, true));
    assert_eq!(rt; counted, (0, 0, 0));
    Ok(())
}

/// a = x at 0, flushed at 1; c = z at 2, flushed at 3; the table of a dropped at 4.
fn drop_one(alloc: Global, tree: &mut Logged) -> Result<(), Error> {
    write(alloc, tree, "a", Some("x"))?;
    flush(tree)?;
    write(alloc, tree, "c", Some("z"))?;
    flush(tree)?;
    drop_a(tree)
}

/// c is removed, that is flushed, and all is merged; the number of the removal, and the next one then.
fn merge(alloc: Global, tree: &mut Logged) -> Result<(u64, u64), Error> {
    let removal = write(alloc, tree, "c", None)?;
    flush(tree)?;
    tree.major_compact(u64::MAX, 5)?;
    Ok((removal, tree.seqno().get()))
}

fn lacks_both(tree: &Logged) -> Result<(bool, bool), Error> {
    Ok((shows(tree, 9, "a", None)?, shows(tree, 9, "c", None)?))
}

/// The numbers of a merge, and whether neither key is shown after a crash to which both records come back once more.
fn merge_and_crash(alloc: Global, tree: &mut Logged) -> Result<((u64, u64), (bool, bool)), Error> {
    let numbers = merge(alloc, tree)?;
    let left = opened(alloc, left_with(alloc, tree, &RECORDS)?)?;
    let told = lacks_both(&left);
    drop(left);
    Ok((numbers, told?))
}

/// The record of c = z at 2.
const C_IS_Z: [u8; 25] = [
    0x4c, 0x53, 0x4d, 0x4c, 2, 0, 0, 0, 0, 0, 0, 0, 1, 0, 0, 0, 1, 0, 0, 1, 0, 0, 0, 0x63, 0x7a,
];

const RECORDS: [(&str, &[u8]); 2] = [("log/0", &A_IS_X), ("log/2", &C_IS_Z)];

fn drop_and_crash(alloc: Global, tree: &mut Logged) -> Result<((u64, u64), (bool, bool)), Error> {
    drop_one(alloc, tree)?;
    let mut left = opened(alloc, left_with(alloc, tree, &RECORDS)?)?;
    let told = merge_and_crash(alloc, &mut left);
    drop(left);
    told
}

fn dropped(alloc: Global) -> Result<((u64, u64), (bool, bool)), Error> {
    let mut tree = fresh(alloc)?;
    let told = drop_and_crash(alloc, &mut tree);
    drop(tree);
    told
}

/// Nor does a dropped entry come back by a removal of another key, and a merge that drops that.
#[test]
fn dropped_entries_stay_gone_after_a_merge(rt: HostRuntime) -> Result<(), Fail> {
    let (numbers, shown) = dropped(rt.alloc())?;
    assert_eq!(rt; numbers, (3, 6));
    assert_eq!(rt; shown, (true, true));
    Ok(())
}

/// A store with a record of 0 under the name of 1.
fn misnamed(alloc: Global) -> Result<MemStore, Error> {
    let mut store = MemStore::new(alloc);
    let put = store.replace("log/1", &A_IS_X);
    match put {
        Ok(()) => Ok(store),
        Err(_) => Err(Error::Store),
    }
}

/// Whether it is refused as what can't be recovered, and the record is there.
fn is_refused(alloc: Global) -> Result<bool, Error> {
    match Logged::open(alloc, Config::new(0, 0, 0), misnamed(alloc)?) {
        Err((Error::Unrecoverable, mut store)) => {
            Ok(matches!(store.read(alloc, "log/1"), Ok(Some(_))))
        }
        _ => Ok(false),
    }
}

/// A record of another number is refused, and nothing is removed.
#[test]
fn bad_records_are_refused(rt: HostRuntime) -> Result<(), Fail> {
    let refused = is_refused(rt.alloc())?;
    assert!(rt; refused);
    Ok(())
}
