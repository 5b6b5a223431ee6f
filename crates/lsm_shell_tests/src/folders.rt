// What is printed over a folder.
use crate::shells::{answers_with, arguments_of, ends};
use bytes::Bytes;
use lsm_tree::{
    Error, FolderStore, Store, StoreError, Table, Version, ids_are_own, is_run, persist_version,
};
use std::alloc::{AllocError, Global};
use std::fs::{self, File, Files};
use std::sync::Wait;
use std::test::Fail;
use std::thread::Threads;
use std::time::Clock;

const FOLDER: &str = "lsm_shell_test";

/// The content of a table's file: a is x, numbered 0.
const TABLE: [u8; 37] = [
    0x4c, 0x53, 0x4d, 0x54, 0, 0, 0, 0, 0, 0, 0, 0, 1, 0, 0, 0, 0, 0, 0, 0, 1, 0, 0, 0, 0, 0, 0, 0,
    0, 0, 0, 1, 0, 0, 0, 0x61, 0x78,
];

fn put_table(store: &mut impl Store) -> Result<(), StoreError> {
    store.write("tables/3", &TABLE)?;
    store.sync("tables/3")
}

/// The version of one table in level 0.
fn version_of_table(alloc: Global) -> Result<Version, Error> {
    let Ok(table) = Table::recover(alloc, 3, Bytes::from_static(&TABLE)) else {
        return Err(Error::Unrecoverable);
    };
    let first = Version::new(alloc, 4);
    let tables = vec![in alloc; table]?;
    if !is_run(&tables) || !ids_are_own(alloc, &tables, first.levels())? {
        return Err(Error::Unrecoverable);
    }
    first.with_new_l0_run(alloc, &tables, 1)
}

/// Puts the files of a tree with one table into a store.
fn fill(alloc: Global, store: &mut impl Store) -> Result<(), Error> {
    if put_table(store).is_err() {
        return Err(Error::Store);
    }
    persist_version(alloc, store, &version_of_table(alloc)?)
}

/// Whether a run over a folder prints this for the input, writes that to the errors, and ends so.
fn answers_over<R>(
    rt: &R,
    alloc: Global,
    folder: &str,
    told: (&[u8], &[u8], u8),
) -> Result<bool, AllocError>
where
    R: Threads + Wait + Sync + Files<File = File> + Clock + Alloc + Clone + Drop,
{
    let arguments = arguments_of(alloc, folder)?;
    let input = b"get a\nput b y\nrange - -\n".as_slice();
    Ok(ends(rt, alloc, Some(&arguments), input, told))
}

/// A folder with the files of a tree of one table.
pub fn filled<R>(rt: &R, alloc: Global, folder: &str) -> Result<FolderStore<R>, Fail>
where
    R: Files<File = File> + Alloc + Clone + Drop,
{
    let _ = fs::remove_dir_all(rt, folder);
    let mut store = FolderStore::new(rt, alloc, folder)?;
    fill(alloc, &mut store)?;
    Ok(store)
}

#[test]
fn a_folder_is_read_again(rt: HostRuntime) -> Result<(), Fail> {
    let alloc = rt.alloc();
    drop(filled(&rt, alloc, FOLDER)?);
    // What a session writes is not kept, so each prints the same.
    let read = b"value x\nok 1\na x\nb y\nend 2\n";
    assert!(rt; answers_over(&rt, alloc, FOLDER, (read, b"", 0))?);
    assert!(rt; answers_over(&rt, alloc, FOLDER, (read, b"", 0))?);
    // A folder isn't crashed; what is flushed into it stays there.
    let arguments = arguments_of(alloc, FOLDER)?;
    let input = b"crash\nput b z\nflush 0\nreopen\nget b\n".as_slice();
    let told = b"error 0 Usage\nok 1\nflushed 50 installed\nopened 2\nvalue z\n";
    assert!(rt; ends(&rt, alloc, Some(&arguments), input, (told, b"", 0)));
    fs::remove_dir_all(&rt, FOLDER)?;
    Ok(())
}

/// What is told of a folder that isn't opened: what isn't one, one that another store has open, and one of an older format.
#[test]
fn refused_folders_are_told(rt: HostRuntime) -> Result<(), Fail> {
    let alloc = rt.alloc();
    let folder = "lsm_shell_refused";
    let store = filled(&rt, alloc, folder)?;
    let failed = b"error 2 Store\n";
    let owned = b"lsm_shell_refused: lock: another store has the folder open\n";
    assert!(rt; answers_over(&rt, alloc, folder, (failed, owned, 1))?);
    drop(store);
    let file = b"lsm_shell_refused/current: make: Not a directory (os error 20)\n";
    assert!(rt; answers_over(&rt, alloc, "lsm_shell_refused/current", (failed, file, 1))?);
    fs::write(&rt, "lsm_shell_refused/version", b"2")?;
    let (told, older) = (
        b"error 5 InvalidVersion\n",
        b"version: open: format byte 1\n",
    );
    assert!(rt; answers_over(&rt, alloc, folder, (told, older, 1))?);
    fs::remove_file(&rt, "lsm_shell_refused/version")?;
    fs::write(&rt, "lsm_shell_refused/tables/3", b"x")?;
    let (told, damaged) = (
        b"error 20 ChecksumMismatch\n",
        b"tables/3: open: a checksum differs\n",
    );
    assert!(rt; answers_over(&rt, alloc, folder, (told, damaged, 1))?);
    fs::remove_dir_all(&rt, folder)?;
    Ok(())
}

/// A single argument names a folder, also where it looks like an option.
#[test]
fn an_option_names_a_folder(rt: HostRuntime) -> Result<(), Fail> {
    let alloc = rt.alloc();
    let folder = "--lsm_shell_option";
    drop(filled(&rt, alloc, folder)?);
    let read = b"value x\nok 1\na x\nb y\nend 2\n";
    assert!(rt; answers_over(&rt, alloc, folder, (read, b"", 0))?);
    fs::remove_dir_all(&rt, folder)?;
    Ok(())
}

/// Why a call of the store failed is written to the errors, and the answer stays what it is.
#[test]
fn causes_are_told(rt: HostRuntime) -> Result<(), Fail> {
    let alloc = rt.alloc();
    let folder = "lsm_shell_full";
    drop(filled(&rt, alloc, folder)?);
    // A device that is always full, under the name of the next table.
    rt.symlink("/dev/full", "lsm_shell_full/tables/4")?;
    let arguments = arguments_of(alloc, folder)?;
    let input = b"put b y\nflush 0\nget b\nflush 0\n".as_slice();
    let told = b"ok 1\nerror 2 Store\nvalue y\nflushed 50 installed\n";
    let cause = b"tables/4: write: No space left on device (os error 28)\n";
    assert!(rt; ends(&rt, alloc, Some(&arguments), input, (told, cause, 0)));
    fs::remove_dir_all(&rt, folder)?;
    Ok(())
}

/// What a first start flushes, and what it doesn't.
const FIRST_START: &str = "put a x=ok 0
flush 0=flushed 50 installed
put b y=ok 2";

/// What a second start reads of that. It goes on with the numbers above what it found.
const SECOND_START: &str = "get a=value x
get b=none
stats=tables 1 runs 1 sealed 0 len 1 bytes 37
put b z=ok 1";

#[test]
fn a_second_start_reads_what_the_first_one_flushed(rt: HostRuntime) -> Result<(), Fail> {
    let alloc = rt.alloc();
    let folder = "lsm_shell_twice";
    let _ = fs::remove_dir_all(&rt, folder);
    let arguments = arguments_of(alloc, folder)?;
    assert!(rt; answers_with(&rt, alloc, &arguments, FIRST_START, b"")?);
    assert!(rt; answers_with(&rt, alloc, &arguments, SECOND_START, b"")?);
    fs::remove_dir_all(&rt, folder)?;
    Ok(())
}

/// A clear stays where the tree is opened again.
const CLEARED: &str = "clear=cleared 1
get a=none
get a 1=value x
reopen=opened 0
get a=none
clear=cleared 0";

/// A commit that is known not to have replaced `current` is refused, and the tree goes on.
const REFUSED: &str = "clear=error 2 Store
get a=value x
put b y=ok 2
get b=value y
flush 0=error 2 Store
get b=value y
reopen=opened 1
get a=value x";

#[test]
fn a_folder_is_cleared(rt: HostRuntime) -> Result<(), Fail> {
    let alloc = rt.alloc();
    let folder = "lsm_shell_clear";
    drop(filled(&rt, alloc, folder)?);
    let arguments = arguments_of(alloc, folder)?;
    // No file can be made that would replace `current`.
    fs::create_dir_all(&rt, "lsm_shell_clear/replace.new")?;
    let causes = b"current: replace: Is a directory (os error 21)\n\
        current: replace: Is a directory (os error 21)\n";
    assert!(rt; answers_with(&rt, alloc, &arguments, REFUSED, causes)?);
    fs::remove_dir_all(&rt, "lsm_shell_clear/replace.new")?;
    assert!(rt; answers_with(&rt, alloc, &arguments, CLEARED, b"")?);
    fs::remove_dir_all(&rt, folder)?;
    Ok(())
}
