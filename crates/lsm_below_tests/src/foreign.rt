// Folders that are no tree's: opening a tree would remove what is there, so the store refuses them before it makes anything.

use lsm_store::{FolderCall, FolderStore, read_file};
use std::alloc::Global;
use std::fs::{self, File, Files};
use std::io::{self, ErrorKind};
use std::test::Fail;

const FOLDER: &str = "lsm_foreign_folder_test";

const BEGINS: &str = "begins as the versions of a tree do, which opening removes: move it away";

const FRESH: &str = "isn't a tree's, and opening removes it: move it away";

/// The files of a folder, and for which name it is refused in which words.
type Refused = (&'static [&'static str], &'static str, &'static str);

const REFUSED: [Refused; 15] = [
    (&["video.mp4"], "video.mp4", BEGINS),
    (&["vault.key"], "vault.key", BEGINS),
    (&["venv.cfg"], "venv.cfg", BEGINS),
    (&["vendor.txt"], "vendor.txt", BEGINS),
    (&["version.txt"], "version.txt", BEGINS),
    (&["v007"], "v007", BEGINS),
    (&["v+7"], "v+7", BEGINS),
    (&["v"], "v", BEGINS),
    (&["v18446744073709551616"], "v18446744073709551616", BEGINS),
    (
        &["current", "v3", "tables/3", "video.mp4"],
        "video.mp4",
        BEGINS,
    ),
    // `current` is there before any of these is.
    (
        &["v0", "tables/3"],
        "current",
        "is missing beside tables/3: put it back from a copy",
    ),
    (
        &["v0", "log/5"],
        "current",
        "is missing beside log/5: put it back from a copy",
    ),
    (
        &["v2"],
        "current",
        "is missing beside v2: put it back from a copy",
    ),
    (
        &["v0", "v2", "replace.new"],
        "current",
        "is missing beside v2: put it back from a copy",
    ),
    (&["replace.new"], "replace.new", FRESH),
];

/// New folders, those that a tree or a crash leaves, and those with what opening doesn't remove.
const TAKEN: [&[&str]; 10] = [
    &[],
    &["v0"],
    &["v0", "replace.new"],
    &["current", "v3", "tables/3"],
    &["current", "v0", "log/5", "replace.new"],
    &["current", "v18446744073709551615"],
    &["version"],
    &["venv/pyvenv.cfg"],
    &["notes.txt"],
    &["tables/notes.txt"],
];

/// What stands under a path: the bytes of a file, None of a folder.
#[derive(Drop, PartialEq, Eq)]
struct Held {
    path: String,
    bytes: Option<Vec<u8>>,
}

/// The path of a name in a folder.
fn path_of(alloc: Global, folder: &str, name: &str) -> io::Result<String> {
    Ok(format!(in alloc; "{folder}/{name}")?)
}

/// Makes the folder anew with these files, each of which has its name as its bytes.
fn fill(files: &(impl Files + Alloc), alloc: Global, names: &[&str]) -> io::Result<()> {
    let _ = fs::remove_dir_all(files, FOLDER);
    fs::create_dir(files, FOLDER)?;
    for name in names {
        if let Some((folder, _)) = name.split_once('/') {
            fs::create_dir_all(files, path_of(alloc, FOLDER, folder)?.as_str())?;
        }
        fs::write(
            files,
            path_of(alloc, FOLDER, name)?.as_str(),
            name.as_bytes(),
        )?;
    }
    Ok(())
}

/// What stands in a folder itself.
fn look_into<R>(rt: &R, alloc: Global, folder: &str) -> io::Result<Vec<Held>>
where
    R: Files<File = File> + Alloc + Clone + Drop,
{
    let mut found = Vec::new(alloc);
    for entry in fs::read_dir(rt, folder)? {
        let entry = entry?;
        let path = path_of(alloc, folder, entry.file_name())?;
        let bytes = if entry.file_type()?.is_file() {
            read_file(rt, alloc, path.as_str())?
        } else {
            None
        };
        found.push(Held { path, bytes })?;
    }
    Ok(found)
}

/// What stands in the folder and its subfolders.
fn look<R>(rt: &R, alloc: Global) -> io::Result<Vec<Held>>
where
    R: Files<File = File> + Alloc + Clone + Drop,
{
    let mut found = Vec::new(alloc);
    for held in look_into(rt, alloc, FOLDER)? {
        if held.bytes.is_none() {
            for below in look_into(rt, alloc, held.path.as_str())? {
                found.push(below)?;
            }
        }
        found.push(held)?;
    }
    Ok(found)
}

/// Whether all of these are found.
fn has_all(found: &[Held], wanted: &[Held]) -> bool {
    wanted.iter().all(|held| found.contains(held))
}

/// Whether the folder is refused for this name in these words.
fn is_refused<R>(rt: &R, alloc: Global, name: &str, words: &str) -> io::Result<bool>
where
    R: Files<File = File> + Alloc + Clone + Drop,
{
    match FolderStore::new(rt, alloc, FOLDER) {
        Ok(_) => Ok(false),
        Err(fault) => Ok(
            fault.name.as_str() == name
                && fault.call == FolderCall::Open
                && fault.error.kind() == ErrorKind::InvalidInput
                && format!(in alloc; "{}", fault.error)?.as_str() == words,
        ),
    }
}

/// Whether a folder like this is refused so, and nothing in it is changed or made.
fn is_left<R>(rt: &R, alloc: Global, row: Refused) -> io::Result<bool>
where
    R: Files<File = File> + Alloc + Clone + Drop,
{
    let (names, name, words) = row;
    fill(rt, alloc, names)?;
    let before = look(rt, alloc)?;
    let refused = is_refused(rt, alloc, name, words)?;
    let after = look(rt, alloc)?;
    Ok(refused && has_all(&after, &before) && after.len() == before.len())
}

#[test]
fn a_foreign_folder_is_refused_and_left(rt: HostRuntime) -> Result<(), Fail> {
    for row in REFUSED {
        assert!(rt; is_left(&rt, rt.alloc(), row)?, "{row:?}");
    }
    fs::remove_dir_all(&rt, FOLDER)?;
    Ok(())
}

/// Whether a folder like this is taken, with all that was there.
fn is_taken<R>(rt: &R, alloc: Global, names: &[&str]) -> io::Result<bool>
where
    R: Files<File = File> + Alloc + Clone + Drop,
{
    fill(rt, alloc, names)?;
    let before = look(rt, alloc)?;
    let taken = FolderStore::new(rt, alloc, FOLDER).is_ok();
    let after = look(rt, alloc)?;
    Ok(taken && before.len() >= names.len() && has_all(&after, &before))
}

#[test]
fn other_folders_are_taken_with_what_they_hold(rt: HostRuntime) -> Result<(), Fail> {
    for names in TAKEN {
        assert!(rt; is_taken(&rt, rt.alloc(), names)?, "{names:?}");
    }
    fs::remove_dir_all(&rt, FOLDER)?;
    Ok(())
}
