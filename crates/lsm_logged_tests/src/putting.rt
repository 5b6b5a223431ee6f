// Records that are put, read and removed, and what a crash leaves of them.

use lsm_log::{LogNumbers, check_log, put_record, read_record, record_name, remove_below};
use lsm_state::{Error, Fault, MemStore, Pick, Store};
use std::alloc::{AllocError, Global};
use std::test::Fail;

/// An empty batch, numbered so.
fn record(number: u8) -> [u8; 16] {
    [
        0x4c, 0x53, 0x4d, 0x4c, number, 0, 0, 0, 0, 0, 0, 0, 0, 0, 0, 0,
    ]
}

/// A store with records 0, 2 and 10, and a name that is passed over.
fn store_of(alloc: Global) -> Result<MemStore, Error> {
    let mut store = MemStore::new(alloc);
    for number in [10u8, 0, 2] {
        put_record(&mut store, number as u64, &record(number))?;
    }
    match store.replace("log/._2", b"no record") {
        Ok(()) => Ok(store),
        Err(_) => Err(Error::Store),
    }
}

/// Whether a log has these numbers below, and these from there on.
fn is_log(log: &LogNumbers, passed: &[u64], numbers: &[u64]) -> bool {
    log.passed.as_slice() == passed && log.numbers.as_slice() == numbers
}

#[test]
fn names_are_spelled(rt: HostRuntime) -> Result<(), Fail> {
    assert!(rt; record_name(0).as_str() == "log/0");
    assert!(rt; record_name(9_223_372_036_854_775_807).as_str() == "log/9223372036854775807");
    Ok(())
}

#[test]
fn logs_are_checked_from_a_number_on(rt: HostRuntime) -> Result<(), Fail> {
    let mut store = store_of(rt.alloc())?;
    let log = check_log(rt.alloc(), &mut store, 2)?;
    let well = is_log(&log, &[0], &[2, 10]);
    drop(log);
    drop(store);
    assert!(rt; well);
    Ok(())
}

/// One record is read by its number; where none is there, it is refused.
#[test]
fn records_are_read_by_number(rt: HostRuntime) -> Result<(), Fail> {
    let mut store = store_of(rt.alloc())?;
    let there = read_record(rt.alloc(), &mut store, 2)?.number == 2;
    let absent = match read_record(rt.alloc(), &mut store, 3) {
        Err(Error::Unrecoverable) => true,
        _ => false,
    };
    drop(store);
    assert!(rt; there && absent);
    Ok(())
}

/// What is below is ignored unread; from it on a record that is none, or of another number, is refused.
#[test]
fn bad_records_are_refused(rt: HostRuntime) -> Result<(), Fail> {
    let mut store = store_of(rt.alloc())?;
    put_record(&mut store, 0, b"no record")?;
    let unread = check_log(rt.alloc(), &mut store, 1).is_ok();
    let bad = check_log(rt.alloc(), &mut store, 0).is_err();
    put_record(&mut store, 0, &record(1))?;
    let other = check_log(rt.alloc(), &mut store, 0).is_err();
    drop(store);
    assert!(rt; unread && bad && other);
    Ok(())
}

#[test]
fn other_names_are_refused(rt: HostRuntime) -> Result<(), Fail> {
    for name in ["log/05", "log/", "log/9223372036854775808", "log/a"] {
        let mut store = MemStore::new(rt.alloc());
        let put = store.replace(name, b"").is_ok();
        let refused = match check_log(rt.alloc(), &mut store, 0) {
            Err(Error::Unrecoverable) => true,
            _ => false,
        };
        drop(store);
        assert!(rt; put && refused);
    }
    Ok(())
}

#[test]
fn records_below_are_removed(rt: HostRuntime) -> Result<(), Fail> {
    let mut store = store_of(rt.alloc())?;
    remove_below(&mut store, 10, &[0, 2, 10])?;
    let log = check_log(rt.alloc(), &mut store, 0)?;
    let well = is_log(&log, &[], &[10]);
    drop(log);
    drop(store);
    assert!(rt; well);
    Ok(())
}

/// It stops at the first that can't be removed.
#[test]
fn a_fault_stops_removals(rt: HostRuntime) -> Result<(), Fail> {
    let mut store = store_of(rt.alloc())?;
    store.fail(2, Fault::Once);
    let refused = remove_below(&mut store, 11, &[0, 2, 10]).is_err();
    let log = check_log(rt.alloc(), &mut store, 0)?;
    let well = is_log(&log, &[], &[2, 10]);
    drop(log);
    drop(store);
    assert!(rt; refused && well);
    Ok(())
}

/// Whether a crash can leave record 0.
fn can_come_back(store: &MemStore) -> Result<bool, Error> {
    let left = store.crash(&[("log/0", Pick::Bytes(&record(0)))])?;
    Ok(left.is_some())
}

/// What is removed is settled; where that fails it is told, and a crash may bring a record back.
#[test]
fn no_crash_brings_records_back(rt: HostRuntime) -> Result<(), Fail> {
    let mut store = store_of(rt.alloc())?;
    remove_below(&mut store, 10, &[0, 2, 10])?;
    let back = can_come_back(&store)?;
    drop(store);
    let mut store = store_of(rt.alloc())?;
    store.fail(3, Fault::Once);
    let refused = remove_below(&mut store, 10, &[0, 2, 10]).is_err();
    let unsettled = can_come_back(&store)?;
    drop(store);
    assert!(rt; !back && refused && unsettled);
    Ok(())
}

/// A record that is known not to be put uses no number.
#[test]
fn a_record_may_be_put_again(rt: HostRuntime) -> Result<(), Fail> {
    let mut store = MemStore::new(rt.alloc());
    store.fail(1, Fault::OnceNothing);
    let first = put_record(&mut store, 0, &record(0));
    let again = put_record(&mut store, 0, &record(0));
    let log = check_log(rt.alloc(), &mut store, 0)?;
    let well = matches!(first, Err(Error::Store)) && again.is_ok() && is_log(&log, &[], &[0]);
    drop(log);
    drop(store);
    assert!(rt; well);
    Ok(())
}

/// How many records a crash with this pick leaves of a replacement that took effect and answered a fault.
fn left_of(alloc: Global, picks: &[(&str, Pick<'_>)]) -> Result<usize, Error> {
    let mut store = MemStore::new(alloc);
    store.fail(1, Fault::OnceDone);
    match put_record(&mut store, 0, &record(0)) {
        Err(Error::CommitUnknown) => {}
        _ => return Err(Error::Store),
    }
    match store.crash(picks)? {
        Some(mut left) => Ok(check_log(alloc, &mut left, 0)?.numbers.len()),
        None => Err(Error::Store),
    }
}

#[test]
fn a_crash_leaves_the_old_or_the_new(rt: HostRuntime) -> Result<(), Fail> {
    assert!(rt; left_of(rt.alloc(), &[])? == 1);
    assert!(rt; left_of(rt.alloc(), &[("log/0", Pick::Before)])? == 0);
    Ok(())
}
