// A folder of the file system, as a store.
ghost use Rattle.std.specs.Prelude.{◌≡◌, ◌+◌, ◌-◌, ◌^◌, ◌≤◌, ◌↔◌, min, IfOk, IsErrOf, IsSome, Result, Ok, Err};
ghost use Rattle.lsm_store.specs.declared.store.StoreError.TheVariants.{OutOfMemory, Fault, NothingDone};
ghost use Rattle.lsm_store.specs.NoWorld.{untold};
ghost use Rattle.lsm_store.specs.World.{Counts};

use crate::{Store, StoreError};
use bytes::Bytes;
use disk::Failure;
use lsm_below::Error;
use names::{FRESH, OLDER, find_foreign, find_odd, find_record};
use std::alloc::{AllocError, Global};
use std::fs::{File, Files};
use std::io::{self, ErrorKind};

mod disk;
mod fault;
mod names;

pub use disk::{SUBFOLDERS, list_files, path_below, read_file};
pub use fault::{FolderCall, FolderError, FolderFault};
pub use names::missing_current;

/// The bytes for which a path has room beside its folder, so that a removal takes no memory.
const NAME_ROOM: usize = 64;

/// A folder of the file system and its subfolders `tables` and `log`, as a store: `tables/7` is the file `7` of the one,
/// `log/7` that of the other, any other name is that of a file in the folder itself.
///
/// A folder has one owner: the store locks the folder's file `lock` as long as it lives, and a second one is refused. The
/// system gives the lock back where a process is killed. `lock` is no name of the store.
///
/// A folder that is no tree's is refused before anything is made in it, since opening a tree removes what begins with `v` in
/// the folder itself, and without `current` all tables. docs/FORMATS.md has the rule.
///
/// Names are those that the store was given: nobody else should change the folder while it is in use. What is
/// promised by contract is the count of failures alone, since no contract can say what a disk does. What each
/// call asks of the file system:
///
/// | Call | What it does |
/// |-|-|
/// | `list` | the names of regular files; one that isn't UTF-8 is a `Fault` |
/// | `read` | the whole file |
/// | `write` | makes the file, or cuts it to nothing, and writes all bytes; what it can't finish it removes. `NothingDone` where the file couldn't be made and isn't there |
/// | `sync` | syncs the file, then its folder |
/// | `replace` | removes a `replace.new` that was left, makes it anew in the folder, writes it, syncs it, renames it to the name, and syncs the name's folder; where it can't rename, it removes `replace.new`. `NothingDone` before the rename, and where that fails with an error that tells so: no input/output error, interruption, time-out, stale handle, nor one without a kind |
/// | `remove` | removes the file; an absent one is no error. `NothingDone` where memory is refused |
/// | `settle` | syncs the folder and its subfolders, but for one in which nothing can be written |
///
/// # Examples
///
/// ```text
/// let mut store = FolderStore::new(&rt, alloc, "/var/lib/tree")?;
/// if store.write("current", bytes).is_err() {
///     // As in: current: write: No space left on device (os error 28)
///     println!(rt; "{}", store.last_fault()..)?;
/// }
/// store.sync("current")?;
/// ```
#[derive(Drop)]
pub struct FolderStore<R: Files<File = File> + Alloc + Clone + Drop> {
    rt: R,
    root: String,
    /// The path that a call spells, kept for the next one.
    path: String,
    last_call: LastCall,
    failures: u64,
    last_fault: Option<FolderFault>,
    /// Held, and so locked, as long as the store lives.
    lock: File,
    ghost told: { IsSome last_fault ↔ (1 ≤ failures) },
}

/// What the last call was, as far as an explanation goes by it.
#[derive(Clone, Copy)]
enum LastCall {
    /// It read the file of the path that was spelled last.
    Read,
    /// It listed the names, as an opening does that then refuses one of them.
    List,
    Other,
}

/// The subfolder that a name's file is in. None where it is in the folder itself.
fn subfolder_of(name: &str) -> Option<&str> {
    let (folder, _) = name.split_once('/')?;
    if SUBFOLDERS.contains(&folder) {
        Some(folder)
    } else {
        None
    }
}

impl<R: Files<File = File> + Alloc + Clone + Drop> FolderStore<R> {
    /// The store of a folder. The folder and its subfolders are made where they are absent, and each folder on the way
    /// there, and what is made outlives a crash.
    ///
    /// # Errors
    ///
    /// Before anything is made, of the kind `InvalidInput`, what keeps the folder from being a tree's: a file of its own that
    /// begins with `v` and is neither `version` nor `v` and a plain number; `current`, where it is absent beside a table, a
    /// record or a version above 0; a `replace.new` without `current` and `v0`.
    ///
    /// What the system answered, where the folder can't be made or locked, or where memory is refused. Another store that
    /// has the folder open, in this process or in another one, is such a fault, of the kind `WouldBlock`.
    pub fn new(rt: &R, alloc: Global, folder: &str) -> Result<FolderStore<R>, FolderFault>
        ensures counts { IfOk result (λ store. store.failures ≡ 0) }
    {
        match find_foreign(rt, alloc, folder) {
            Ok(None) => {}
            Ok(Some(foreign)) => return Err(foreign),
            Err(error) => return Err(FolderFault::new(alloc, folder, FolderCall::Make, error)),
        }
        if let Err(error) = disk::make_folder(rt, alloc, folder) {
            return Err(FolderFault::new(alloc, folder, FolderCall::Make, error));
        }
        match FolderStore::lock(rt, alloc, folder) {
            Ok(store) => Ok(store),
            Err(error) => Err(FolderFault::new(alloc, folder, FolderCall::Lock, error)),
        }
    }

    /// The store of a folder that is there.
    fn lock(rt: &R, alloc: Global, folder: &str) -> io::Result<FolderStore<R>>
        ensures counts { IfOk result (λ store. store.failures ≡ 0) }
    {
        let root = String::from_str(alloc, folder)?;
        let room = root.len().saturating_add(NAME_ROOM);
        let path = String::with_capacity(alloc, room)?;
        let lock = disk::lock_folder(rt, alloc, folder)?;
        Ok(FolderStore {
            rt: rt.clone()?,
            root,
            path,
            last_call: LastCall::Other,
            failures: 0,
            last_fault: None,
            lock,
        })
    }

    /// Why the last call failed that did. None where none did.
    pub fn last_fault(&self) -> Option<&FolderFault>
        ensures { IsSome result ↔ (1 ≤ self.now.failures) }
    {
        self.last_fault.as_ref()
    }

    /// What a tree over this store refused, with the file that it fell on and why: of a fault what the last call that failed
    /// was answered, of damage the file that was read last, or the name that keeps the folder from being opened. Behind any
    /// other error stands the folder. It lists the folder's names where no file was read last, and changes nothing.
    ///
    /// # Examples
    ///
    /// ```text
    /// let opened = TreeState::open_unlogged(alloc, Config::new(0, 0, 0), store);
    /// // As in: tables/7: open: a checksum differs
    /// let mut tree = opened.map_err(|(error, store)| store.explain(error))?;
    /// tree.flush_active_memtable(0).map_err(|(error, _)| tree.store().explain(error))?;
    /// ```
    pub fn explain(&self, error: Error) -> FolderError {
        let place = match &error {
            Error::Store | Error::CommitUnknown | Error::AfterCommit => self.describe_fault(),
            Error::Unrecoverable => self.describe_unusable(),
            Error::InvalidVersion(_)
            | Error::InvalidTag(_, _)
            | Error::InvalidHeader(_)
            | Error::ChecksumMismatch => self.describe_damage(),
            _ => Ok(None),
        };
        let alloc = *self.root.allocator();
        let place = match place {
            Ok(Some(place)) => place,
            Ok(None) => String::from_str(alloc, self.root.as_str()).unwrap_or(String::new(alloc)),
            Err(_) => String::new(alloc),
        };
        FolderError { place, error }
    }

    /// The last fault in words.
    fn describe_fault(&self) -> io::Result<Option<String>> {
        match &self.last_fault {
            Some(fault) => Ok(Some(format!(in *self.root.allocator(); "{fault}")?)),
            None => Ok(None),
        }
    }

    /// The name of the file whose path was spelled last.
    fn last_name(&self) -> &str {
        let below = self.path.as_str().strip_prefix(self.root.as_str());
        below.unwrap_or("").trim_start_matches('/')
    }

    /// The file that was read last, in words.
    fn describe_read(&self) -> io::Result<Option<String>> {
        let name = self.last_name();
        let is_absent = disk::is_absent(&self.rt, self.path.as_str());
        let call = if is_absent {
            "open: is missing"
        } else {
            "open"
        };
        Ok(Some(format!(in *self.root.allocator(); "{name}: {call}")?))
    }

    /// What is of another format, in words: the file that was read last, or `version`.
    fn describe_damage(&self) -> io::Result<Option<String>> {
        match self.last_call {
            LastCall::Read => self.describe_read(),
            _ => Ok(Some(format!(in *self.root.allocator(); "{OLDER}: open")?)),
        }
    }

    /// What can't be used, in words: a name that is none of a tree's, the file that was read last, a record, or the fault since which an
    /// outcome is unknown. Names in `tables` are judged behind the version's file, those in `log` behind all tables.
    fn describe_unusable(&self) -> io::Result<Option<String>> {
        let (alloc, root) = (*self.root.allocator(), self.root.as_str());
        match self.last_call {
            LastCall::Read if self.last_name().starts_with('v') => {
                match find_odd(&self.rt, alloc, root, "tables/")? {
                    Some(odd) => Ok(Some(odd)),
                    None => self.describe_read(),
                }
            }
            LastCall::Read => self.describe_read(),
            LastCall::List => match find_odd(&self.rt, alloc, root, "")? {
                Some(odd) => Ok(Some(odd)),
                None => find_record(&self.rt, alloc, root),
            },
            LastCall::Other => self.describe_fault(),
        }
    }

    /// Spells the path of a name.
    fn spell(&mut self, name: &str) -> Result<(), AllocError>
        ensures { self.new.failures ≡ self.old.failures }
    {
        self.last_call = LastCall::Other;
        self.path.clear();
        self.path.push_str(self.root.as_str())?;
        self.path.push('/')?;
        self.path.push_str(name)
    }

    /// The folder in which a name's file is.
    fn folder_of(&self, name: &str) -> Result<String, AllocError> {
        let alloc = *self.root.allocator();
        match subfolder_of(name) {
            Some(folder) => path_below(alloc, self.root.as_str(), folder),
            None => String::from_str(alloc, self.root.as_str()),
        }
    }

    /// Counts a call that failed, and keeps why.
    fn count(&mut self, call: FolderCall, name: &str, error: io::Error)
        ensures { self.new.failures ≡ min (self.old.failures + 1) (2 ^ 64 - 1) }
    {
        let alloc = *self.root.allocator();
        self.last_fault = Some(FolderFault::new(alloc, name, call, error));
        self.failures = self.failures.saturating_add(1);
    }

    /// What the outcome of a call without effect is: want of memory is no failure.
    fn tell<T: Drop>(
        &mut self,
        call: FolderCall,
        name: &str,
        outcome: io::Result<T>,
    ) -> Result<T, StoreError>
        ensures counts { Counts (untold self.old.failures) (untold self.new.failures) result }
    {
        match outcome {
            Ok(value) => Ok(value),
            Err(error) => match error.kind() {
                ErrorKind::OutOfMemory => Err(StoreError::OutOfMemory),
                _ => {
                    self.count(call, name, error);
                    Err(StoreError::Fault)
                }
            },
        }
    }

    /// What the outcome of a call is that may have had an effect.
    fn tell_changed(
        &mut self,
        call: FolderCall,
        name: &str,
        outcome: Result<(), Failure>,
    ) -> Result<(), StoreError>
        ensures counts { Counts (untold self.old.failures) (untold self.new.failures) result }
        ensures fault { IsErrOf result OutOfMemory → ⊥ }
    {
        match outcome {
            Ok(()) => Ok(()),
            Err(Failure::Unknown(error)) => {
                self.count(call, name, error);
                Err(StoreError::Fault)
            }
            Err(Failure::NothingDone(error)) => {
                self.count(call, name, error);
                Err(StoreError::NothingDone)
            }
        }
    }
}

impl<R: Files<File = File> + Alloc + Clone + Drop> Store for FolderStore<R> {
    ghost tells = { ⊥ };

    ghost world = { λ s. untold s.failures };

    ghost gives_one = { λ no store name. absurd no };

    ghost counts_now = { λ no store t image le now. absurd no };

    ghost only_now = { λ no store image left. absurd no };

    fn list(&mut self, alloc: Global) -> Result<Vec<String>, StoreError> {
        self.last_call = LastCall::List;
        let outcome = disk::list_folder(&self.rt, alloc, self.root.as_str());
        self.tell(FolderCall::List, "", outcome)
    }

    fn read(&mut self, alloc: Global, name: &str) -> Result<Option<Vec<u8>>, StoreError> {
        self.spell(name)?;
        self.last_call = LastCall::Read;
        let outcome = disk::read_file(&self.rt, alloc, self.path.as_str());
        self.tell(FolderCall::Read, name, outcome)
    }

    fn write(&mut self, name: &str, bytes: &[u8]) -> Result<(), StoreError> {
        self.spell(name)?;
        let outcome = disk::write_file(&self.rt, self.path.as_str(), bytes);
        self.tell_changed(FolderCall::Write, name, outcome)
    }

    fn write_shared(&mut self, name: &str, bytes: &Bytes) -> Result<(), StoreError> {
        self.write(name, bytes.as_slice())
    }

    fn sync(&mut self, name: &str) -> Result<(), StoreError> {
        let folder = self.folder_of(name)?;
        self.spell(name)?;
        let outcome = disk::sync_with(&self.rt, self.path.as_str(), folder.as_str());
        self.tell_changed(FolderCall::Sync, name, outcome.map_err(Failure::Unknown))
    }

    fn replace(&mut self, name: &str, bytes: &[u8]) -> Result<(), StoreError> {
        let folder = self.folder_of(name)?;
        let fresh = path_below(*folder.allocator(), self.root.as_str(), FRESH)?;
        self.spell(name)?;
        let path = self.path.as_str();
        let outcome = disk::replace_file(&self.rt, fresh.as_str(), path, folder.as_str(), bytes);
        self.tell_changed(FolderCall::Replace, name, outcome)
    }

    fn remove(&mut self, name: &str) -> Result<(), StoreError> {
        let outcome = match self.spell(name) {
            Ok(()) => disk::remove_file(&self.rt, self.path.as_str()).map_err(Failure::Unknown),
            Err(error) => Err(Failure::NothingDone(error.into())),
        };
        self.tell_changed(FolderCall::Remove, name, outcome)
    }

    fn settle(&mut self) -> Result<(), StoreError> {
        self.last_call = LastCall::Other;
        let alloc = *self.root.allocator();
        let [tables, log] = SUBFOLDERS;
        let tables = path_below(alloc, self.root.as_str(), tables)?;
        let log = path_below(alloc, self.root.as_str(), log)?;
        let folders = [self.root.as_str(), tables.as_str(), log.as_str()];
        let outcome = disk::settle_folders(&self.rt, &folders);
        self.tell_changed(FolderCall::Settle, "", outcome.map_err(Failure::Unknown))
    }

    fn failures(&self) -> u64 {
        self.failures
    }
}
