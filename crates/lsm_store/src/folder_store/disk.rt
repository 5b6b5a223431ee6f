// What the calls of a folder ask of the file system.
use std::alloc::{AllocError, Global};
use std::fs::{File, Files, OpenFile, OpenOptions, TryLockError};
use std::io::{ErrorKind, Read, Write};
use std::{fs, io};

/// Why a call of the file system failed.
#[derive(Drop)]
pub(crate) enum Failure {
    /// Whether it had its effect isn't known.
    Unknown(io::Error),
    /// Nothing has changed of the name that it was about.
    NothingDone(io::Error),
}

/// The subfolders of a folder, those of tables and of a log. Names of files in them begin so.
pub const SUBFOLDERS: [&str; 2] = ["tables", "log"];

/// The file that is locked while a store of the folder lives.
const LOCK: &str = "lock";

/// The path of a name below a folder. Refused only for want of memory.
pub fn path_below(alloc: Global, root: &str, name: &str) -> Result<String, AllocError> {
    let mut path = String::from_str(alloc, root)?;
    path.push('/')?;
    path.push_str(name)?;
    Ok(path)
}

/// Makes a folder and its subfolders where they are absent, and each folder on the way there. Each one that is made is
/// synced into the one that it stands in, so that a crash keeps it.
pub(crate) fn make_folder<R: Files>(rt: &R, alloc: Global, path: &str) -> io::Result<()> {
    let mut at = String::new(alloc);
    let mut parent = String::from_str(alloc, if path.starts_with('/') { "/" } else { "." })?;
    for part in path.split('/') {
        at.push_str(part)?;
        if !part.is_empty() {
            make_one(rt, at.as_str(), parent.as_str())?;
            parent.clear();
            parent.push_str(at.as_str())?;
        }
        at.push('/')?;
    }
    for folder in SUBFOLDERS {
        let below = path_below(alloc, path, folder)?;
        make_one(rt, below.as_str(), parent.as_str())?;
    }
    Ok(())
}

/// Makes one folder, if it is absent, and syncs it into its parent.
fn make_one<R: Files>(rt: &R, path: &str, parent: &str) -> io::Result<()> {
    match fs::create_dir(rt, path) {
        Ok(()) => sync_path(rt, parent),
        Err(error) => match error.kind() {
            ErrorKind::AlreadyExists => Ok(()),
            _ => Err(error),
        },
    }
}

/// The lock of a folder, held as long as the file is. Whoever has it is the folder's one owner; the system takes it back
/// where a process is killed.
pub(crate) fn lock_folder<R: Files<File = File>>(
    rt: &R,
    alloc: Global,
    folder: &str,
) -> io::Result<File> {
    let path = path_below(alloc, folder, LOCK)?;
    let file = OpenOptions::new()
        .read(true)
        .write(true)
        .create(true)
        .open(rt, path.as_str())?;
    match file.try_lock() {
        Ok(()) => Ok(file),
        Err(TryLockError::WouldBlock) => {
            let words = "another store has the folder open";
            Err(io::Error::new(ErrorKind::WouldBlock, words))
        }
        Err(TryLockError::Error(error)) => Err(error),
    }
}

/// The names of all files, those of the subfolders after those of the folder, without the lock.
pub(crate) fn list_folder<R: Files + Alloc + Clone + Drop>(
    rt: &R,
    alloc: Global,
    root: &str,
) -> io::Result<Vec<String>> {
    let mut names = Vec::new(alloc);
    list_files(rt, alloc, root, "", &mut names)?;
    for folder in SUBFOLDERS {
        let path = path_below(alloc, root, folder)?;
        let prefix = path_below(alloc, folder, "")?;
        list_files(rt, alloc, path.as_str(), prefix.as_str(), &mut names)?;
    }
    Ok(names)
}

/// Appends the names of a folder's regular files, each after a prefix. Without one it is the folder itself, whose lock is passed over.
///
/// # Errors
///
/// Those of the file system, `OutOfMemory` among them; names that were appended before stay.
pub fn list_files<R: Files + Alloc + Clone + Drop>(
    rt: &R,
    alloc: Global,
    folder: &str,
    prefix: &str,
    names: &mut Vec<String>,
) -> io::Result<()> {
    for entry in fs::read_dir(rt, folder)? {
        let entry = entry?;
        let is_lock = prefix.is_empty() && entry.file_name() == LOCK;
        if !is_lock && entry.file_type()?.is_file() {
            let mut name = String::from_str(alloc, prefix)?;
            name.push_str(entry.file_name())?;
            names.push(name)?;
        }
    }
    Ok(())
}

/// All bytes of a file. None where it is absent. Refused as the file system refuses it.
pub fn read_file<R: Files>(rt: &R, alloc: Global, path: &str) -> io::Result<Option<Vec<u8>>> {
    match File::open(rt, path) {
        Ok(mut file) => {
            let mut bytes = Vec::new(alloc);
            file.read_to_end(&mut bytes)?;
            Ok(Some(bytes))
        }
        Err(error) => match error.kind() {
            ErrorKind::NotFound => Ok(None),
            _ => Err(error),
        },
    }
}

/// Makes a file, or cuts it to nothing, and writes all bytes. What it began and couldn't finish it removes.
pub(crate) fn write_file<R: Files>(rt: &R, path: &str, bytes: &[u8]) -> Result<(), Failure> {
    match File::create(rt, path) {
        Ok(mut file) => match fill(rt, path, &mut file, bytes) {
            Ok(()) => Ok(()),
            Err(error) => Err(Failure::Unknown(error)),
        },
        Err(error) if is_absent(rt, path) => Err(Failure::NothingDone(error)),
        Err(error) => Err(Failure::Unknown(error)),
    }
}

/// Writes all bytes to a new file. Where it can't, it removes the file.
fn fill<R: Files, W: Write>(rt: &R, path: &str, file: &mut W, bytes: &[u8]) -> io::Result<()> {
    match file.write_all(bytes) {
        Ok(()) => Ok(()),
        Err(error) => {
            let _ = remove_file(rt, path);
            Err(error)
        }
    }
}

/// Whether nothing is there under a path: what couldn't be made and isn't there was not there before.
pub(crate) fn is_absent<R: Files>(rt: &R, path: &str) -> bool {
    match fs::symlink_metadata(rt, path) {
        Ok(_) => false,
        Err(error) => error.kind() == ErrorKind::NotFound,
    }
}

/// Syncs a file, or a folder.
fn sync_path<R: Files>(rt: &R, path: &str) -> io::Result<()> {
    File::open(rt, path)?.sync_all()
}

/// Syncs a file and its folder.
pub(crate) fn sync_with<R: Files>(rt: &R, path: &str, folder: &str) -> io::Result<()> {
    sync_path(rt, path)?;
    sync_path(rt, folder)
}

/// Syncs folders, so that which names their files have is on the disk. In one that can't be synced because nothing can be
/// written in it nothing is pending.
pub(crate) fn settle_folders<R: Files>(rt: &R, folders: &[&str]) -> io::Result<()> {
    for folder in folders {
        if let Err(error) = sync_path(rt, folder) {
            match error.kind() {
                ErrorKind::ReadOnlyFilesystem | ErrorKind::InvalidInput => {}
                _ => return Err(error),
            }
        }
    }
    Ok(())
}

/// Fills the file beside, syncs it, gives it the name, and syncs the name's folder. Where it can't give the name, it
/// removes the file beside. Until the name is given nothing has changed of it.
pub(crate) fn replace_file<R: Files>(
    rt: &R,
    fresh: &str,
    path: &str,
    folder: &str,
    bytes: &[u8],
) -> Result<(), Failure> {
    if let Err(error) = fill_beside(rt, fresh, bytes) {
        return Err(Failure::NothingDone(error));
    }
    if let Err(error) = fs::rename(rt, fresh, path) {
        let _ = remove_file(rt, fresh);
        return Err(rename_failed(error));
    }
    match sync_path(rt, folder) {
        Ok(()) => Ok(()),
        Err(error) => Err(Failure::Unknown(error)),
    }
}

/// Makes the file beside, writes all bytes and syncs it; where it can't, it removes the file. One that was left goes first,
/// and isn't written into: after a power cut it may be a second name of a file that was renamed.
fn fill_beside<R: Files>(rt: &R, fresh: &str, bytes: &[u8]) -> io::Result<()> {
    remove_file(rt, fresh)?;
    let mut file = File::create_new(rt, fresh)?;
    fill(rt, fresh, &mut file, bytes)?;
    match sync_path(rt, fresh) {
        Ok(()) => Ok(()),
        Err(error) => {
            let _ = remove_file(rt, fresh);
            Err(error)
        }
    }
}

/// Whether a rename that failed so has done nothing: so it is but for an input/output error, which is among those that have
/// no kind of their own, and for what a file system over a network may answer after its effect.
fn rename_failed(error: io::Error) -> Failure {
    match error.kind() {
        ErrorKind::Uncategorized
        | ErrorKind::Interrupted
        | ErrorKind::TimedOut
        | ErrorKind::StaleNetworkFileHandle => Failure::Unknown(error),
        _ => Failure::NothingDone(error),
    }
}

/// Removes a file, which may be absent.
pub(crate) fn remove_file<R: Files>(rt: &R, path: &str) -> io::Result<()> {
    match fs::remove_file(rt, path) {
        Ok(()) => Ok(()),
        Err(error) => match error.kind() {
            ErrorKind::NotFound => Ok(()),
            _ => Err(error),
        },
    }
}
