// The store over a folder: what its calls leave in the file system, and what it refuses.
//
// What owns a store borrows it to a helper, and has no `?` after: a deep value that is dropped is long to prove.

use crate::samples::{Call, answer, make, make_each};
use lsm_store::{FolderCall, FolderFault, FolderStore, Store, StoreError};
use std::alloc::Global;
use std::fs::{self, File, Files};
use std::io::{self, ErrorKind};
use std::test::Fail;
use std::thread;

const FOLDER: &str = "lsm_folder_store_test";

/// Whether the name has just this content.
fn has(
    store: &mut impl Store,
    alloc: Global,
    name: &str,
    wanted: Option<&[u8]>,
) -> Result<bool, StoreError> {
    let found = store.read(alloc, name)?;
    Ok(match (found, wanted) {
        (Some(bytes), Some(wanted)) => bytes.as_slice() == wanted,
        (None, None) => true,
        _ => false,
    })
}

/// Whether each of these names has this content.
fn has_each(
    store: &mut impl Store,
    alloc: Global,
    files: &[(&str, &[u8])],
) -> Result<bool, StoreError> {
    for (name, bytes) in files {
        if !has(store, alloc, name, Some(bytes))? {
            return Ok(false);
        }
    }
    Ok(true)
}

/// Whether just these names are listed, in any order.
fn lists(store: &mut impl Store, alloc: Global, wanted: &[&str]) -> Result<bool, StoreError> {
    let names = store.list(alloc)?;
    for name in wanted {
        if !names.iter().any(|n| n.as_str() == *name) {
            return Ok(false);
        }
    }
    Ok(names.len() == wanted.len())
}

/// Calls on files of the folder and on one of each subfolder, and the removal of an absent name.
const CALLS: [Call; 13] = [
    Call::Write("v0", b"partial"),
    Call::Write("v0", b"old"),
    Call::Sync("v0"),
    Call::Share("tables/7", b"entries"),
    Call::Sync("tables/7"),
    Call::Replace("log/0", b"record"),
    Call::Write("log/1", b"record 1"),
    Call::Sync("log/1"),
    Call::Replace("current", b"0"),
    Call::Replace("current", b"1"),
    Call::Settle,
    Call::Remove("v9"),
    Call::Settle,
];

/// What is there then.
const FILES: [(&str, &[u8]); 5] = [
    ("v0", b"old"),
    ("current", b"1"),
    ("tables/7", b"entries"),
    ("log/0", b"record"),
    ("log/1", b"record 1"),
];

const NAMES: [&str; 5] = ["v0", "current", "tables/7", "log/0", "log/1"];

fn fills(store: &mut impl Store, alloc: Global) -> Result<bool, StoreError> {
    let is_empty = lists(store, alloc, &[])?;
    let is_filled = make_each(store, &CALLS)?;
    Ok(is_empty && is_filled && lists(store, alloc, &NAMES)?)
}

/// Refused calls, each of which counts: an absent name isn't synced, a file isn't made where its folder is absent,
/// and a folder isn't read.
fn refuses(store: &mut impl Store, alloc: Global) -> Result<bool, StoreError> {
    let is_synced = make(store, Call::Sync("v9"))?;
    let is_written = make(store, Call::Write("other/1", b"x"))?;
    let read = store.read(alloc, "tables");
    Ok(!is_synced && !is_written && matches!(read, Err(StoreError::Fault)) && store.failures() == 3)
}

/// Whether the files are there, and one of each subfolder is no more once it is removed.
fn removes(store: &mut impl Store, alloc: Global) -> Result<bool, StoreError> {
    let mut is_well = has_each(store, alloc, &FILES)?;
    for name in ["tables/7", "log/0"] {
        store.remove(name)?;
        is_well = has(store, alloc, name, None)? && is_well;
    }
    let is_listed = lists(store, alloc, &["v0", "current", "log/1"])?;
    Ok(is_well && is_listed && store.failures() == 0)
}

#[test]
fn a_folder_keeps_files(rt: HostRuntime) -> Result<(), Fail> {
    let _ = fs::remove_dir_all(&rt, FOLDER);
    let mut store = FolderStore::new(&rt, rt.alloc(), FOLDER)?;
    let filled = fills(&mut store, rt.alloc());
    let refused = refuses(&mut store, rt.alloc());
    drop(store);
    assert!(rt; filled? && refused?);
    let mut again = FolderStore::new(&rt, rt.alloc(), FOLDER)?;
    let removed = removes(&mut again, rt.alloc());
    drop(again);
    assert!(rt; removed?);
    fs::remove_dir_all(&rt, FOLDER)?;
    Ok(())
}

/// Whether a record is put and listed.
fn puts_record(store: &mut impl Store, alloc: Global) -> Result<bool, StoreError> {
    store.replace("log/0", b"record")?;
    lists(store, alloc, &["log/0"])
}

/// A folder that was made before it had this subfolder gets it.
#[test]
fn an_absent_subfolder_is_made(rt: HostRuntime) -> Result<(), Fail> {
    let folder = "lsm_folder_store_older";
    let _ = fs::remove_dir_all(&rt, folder);
    fs::create_dir_all(&rt, "lsm_folder_store_older/tables")?;
    let mut store = FolderStore::new(&rt, rt.alloc(), folder)?;
    let put = puts_record(&mut store, rt.alloc());
    drop(store);
    assert!(rt; put?);
    fs::remove_dir_all(&rt, folder)?;
    Ok(())
}

/// Whether this is what a call of this kind about this name failed with.
fn is_fault(fault: Option<&FolderFault>, name: &str, call: FolderCall, kind: ErrorKind) -> bool {
    fault.is_some_and(|fault| {
        fault.name.as_str() == name && fault.call == call && fault.error.kind() == kind
    })
}

/// Whether a folder is refused to whoever opens it now, by such a fault.
fn is_refused<R>(rt: &R, alloc: Global, folder: &str, call: FolderCall, kind: ErrorKind) -> bool
where
    R: Files<File = File> + Alloc + Clone + Drop,
{
    match FolderStore::new(rt, alloc, folder) {
        Ok(_) => false,
        Err(fault) => is_fault(Some(&fault), folder, call, kind),
    }
}

fn is_taken<R>(rt: &R, alloc: Global, folder: &str) -> bool
where
    R: Files<File = File> + Alloc + Clone + Drop,
{
    is_refused(rt, alloc, folder, FolderCall::Lock, ErrorKind::WouldBlock)
}

#[test]
fn a_folder_has_one_owner(rt: HostRuntime) -> Result<(), Fail> {
    let folder = "lsm_folder_store_owner/and/its/way";
    let _ = fs::remove_dir_all(&rt, "lsm_folder_store_owner");
    let mut store = FolderStore::new(&rt, rt.alloc(), folder)?;
    let is_taken_now = is_taken(&rt, rt.alloc(), folder);
    let listed = lists(&mut store, rt.alloc(), &[]);
    drop(store);
    assert!(rt; is_taken_now && listed?);
    assert!(rt; !is_taken(&rt, rt.alloc(), folder));
    fs::remove_dir_all(&rt, "lsm_folder_store_owner")?;
    Ok(())
}

fn count_there<T, E>(opened: &[Result<T, E>]) -> usize {
    opened.iter().filter(|store| store.is_ok()).count()
}

/// Of two stores that are opened at once one is there while the other is.
#[test]
fn of_two_at_once_one_opens(rt: HostRuntime) -> Result<(), Fail> {
    let (alloc, folder) = (rt.alloc(), "lsm_folder_store_race");
    let open = |_: usize| FolderStore::new(&rt, alloc, folder);
    for _ in 0..20 {
        let opened = thread::map_indices(&rt, alloc, 2, &open)?;
        let count = count_there(&opened);
        drop(opened);
        assert!(rt; count == 1, "{count} owners");
    }
    fs::remove_dir_all(&rt, folder)?;
    Ok(())
}

/// Whether nothing is there under a path.
fn is_absent(files: &impl Files, path: &str) -> bool {
    fs::symlink_metadata(files, path).is_err_and(|error| error.kind() == ErrorKind::NotFound)
}

/// Whether a call fails, says whether it has done nothing, and tells this fault.
fn fails<R>(store: &mut FolderStore<R>, call: Call, kind: ErrorKind, nothing: bool) -> bool
where
    R: Files<File = File> + Alloc + Clone + Drop,
{
    let is_told = match answer(store, call) {
        Err(StoreError::Fault) => !nothing,
        Err(StoreError::NothingDone) => nothing,
        Ok(()) | Err(StoreError::OutOfMemory) => false,
    };
    is_told
        && match call {
            Call::Write(name, _) | Call::Share(name, _) => {
                is_fault(store.last_fault(), name, FolderCall::Write, kind)
            }
            Call::Replace(name, _) => {
                is_fault(store.last_fault(), name, FolderCall::Replace, kind)
            }
            Call::Sync(_) | Call::Remove(_) | Call::Settle => false,
        }
}

/// A name that stands for a device that is always full.
fn link_full(files: &impl Files) -> io::Result<()> {
    files.symlink("/dev/full", "lsm_folder_store_full/tables/7")
}

/// Calls that fail, why, and whether they are known to have done nothing: a file that is begun and not finished; one that
/// can't take the place of a folder; files in a folder that is absent.
const FAILING: [(Call, ErrorKind, bool); 4] = [
    (
        Call::Write("tables/7", b"entries"),
        ErrorKind::StorageFull,
        false,
    ),
    (Call::Replace("tables", b"1"), ErrorKind::IsADirectory, true),
    (Call::Replace("other/1", b"x"), ErrorKind::NotFound, true),
    (Call::Write("other/1", b"x"), ErrorKind::NotFound, true),
];

/// Whether each of these calls fails as it must, and nothing is listed after.
fn all_fail<R>(store: &mut FolderStore<R>, alloc: Global) -> Result<bool, StoreError>
where
    R: Files<File = File> + Alloc + Clone + Drop,
{
    let mut all = store.last_fault().is_none();
    for (call, kind, nothing) in &FAILING {
        all = fails(store, *call, *kind, *nothing) && all;
    }
    Ok(all && lists(store, alloc, &[])?)
}

#[test]
fn what_fails_leaves_nothing(rt: HostRuntime) -> Result<(), Fail> {
    let folder = "lsm_folder_store_full";
    let _ = fs::remove_dir_all(&rt, folder);
    let mut store = FolderStore::new(&rt, rt.alloc(), folder)?;
    let linked = link_full(&rt);
    let failed = all_fail(&mut store, rt.alloc());
    drop(store);
    linked?;
    assert!(rt; failed?);
    assert!(rt; is_absent(&rt, "lsm_folder_store_full/tables/7"));
    assert!(rt; is_absent(&rt, "lsm_folder_store_full/replace.new"));
    fs::remove_dir_all(&rt, folder)?;
    Ok(())
}

/// Whether a replacement leaves the other file as it was, whose second name is the one that a replacement fills.
fn spares_second_name(
    store: &mut impl Store,
    files: &impl Files,
    alloc: Global,
) -> Result<bool, StoreError> {
    store.replace("current", b"1")?;
    let linked = files.hard_link(
        "lsm_folder_store_left/current",
        "lsm_folder_store_left/replace.new",
    );
    store.replace("log/0", b"record")?;
    let is_linked = linked.is_ok();
    let is_kept = has_each(store, alloc, &[("current", b"1"), ("log/0", b"record")])?;
    Ok(is_linked && is_kept && lists(store, alloc, &["current", "log/0"])?)
}

/// A power cut may leave a file that was renamed under both names.
#[test]
fn a_left_file_isnt_written_into(rt: HostRuntime) -> Result<(), Fail> {
    let folder = "lsm_folder_store_left";
    let _ = fs::remove_dir_all(&rt, folder);
    let mut store = FolderStore::new(&rt, rt.alloc(), folder)?;
    let spared = spares_second_name(&mut store, &rt, rt.alloc());
    drop(store);
    assert!(rt; spared?);
    fs::remove_dir_all(&rt, folder)?;
    Ok(())
}

#[test]
fn a_file_is_no_folder(rt: HostRuntime) -> Result<(), Fail> {
    let path = "lsm_folder_store_file";
    let alloc = rt.alloc();
    let _ = fs::remove_file(&rt, path);
    fs::write(&rt, path, b"x")?;
    assert!(rt; is_refused(&rt, alloc, path, FolderCall::Make, ErrorKind::NotADirectory));
    assert!(rt; is_refused(&rt, alloc, "", FolderCall::Make, ErrorKind::InvalidInput));
    fs::remove_file(&rt, path)?;
    Ok(())
}
