// A folder of the file system, as a store that is only read.
ghost use Rattle.std.specs.Prelude.{◌≡◌, ◌+◌, ◌-◌, ◌^◌, min};
ghost use Rattle.lsm_store.specs.NoWorld.{untold};
ghost use Rattle.lsm_store.specs.World.{Counts};

use bytes::Bytes;
use lsm_store::{
    FolderCall, FolderFault, SUBFOLDERS, Store, StoreError, list_files, path_below, read_file,
};
use std::alloc::Global;
use std::fs::{File, Files};
use std::io::{self, ErrorKind};

/// A folder as a store that is only read: no call makes, changes or locks anything in it, so a tree of it may be open
/// meanwhile. Calls that would change something are refused.
#[derive(Drop)]
pub struct FolderView<R: Files<File = File> + Alloc + Clone + Drop> {
    rt: R,
    root: String,
    failures: u64,
    last_fault: Option<FolderFault>,
}

/// The names of the files of a folder and its subfolders, which may be absent. Those of the subfolders come first, as where a
/// folder is taken as a tree's.
fn list_folder<R: Files + Alloc + Clone + Drop>(
    rt: &R,
    alloc: Global,
    root: &str,
) -> io::Result<Vec<String>> {
    let mut names = Vec::new(alloc);
    for folder in SUBFOLDERS {
        let path = path_below(alloc, root, folder)?;
        let prefix = path_below(alloc, folder, "")?;
        match list_files(rt, alloc, path.as_str(), prefix.as_str(), &mut names) {
            Ok(()) => {}
            Err(error) if error.kind() == ErrorKind::NotFound => {}
            Err(error) => return Err(error),
        }
    }
    list_files(rt, alloc, root, "", &mut names)?;
    Ok(names)
}

impl<R: Files<File = File> + Alloc + Clone + Drop> FolderView<R> {
    /// The view of a folder. Nothing is read yet.
    pub fn new(rt: &R, alloc: Global, folder: &str) -> io::Result<FolderView<R>> {
        Ok(FolderView {
            rt: rt.clone()?,
            root: String::from_str(alloc, folder)?,
            failures: 0,
            last_fault: None,
        })
    }

    /// Why the last call failed that did.
    pub fn last_fault(&self) -> Option<&FolderFault> {
        self.last_fault.as_ref()
    }

    /// Counts a call that failed, and keeps why. A call about no file is told of the folder.
    fn count(&mut self, call: FolderCall, name: &str, error: io::Error)
        ensures { self.new.failures ≡ min (self.old.failures + 1) (2 ^ 64 - 1) }
    {
        let alloc = *self.root.allocator();
        let about = if name.is_empty() {
            self.root.as_str()
        } else {
            name
        };
        let name = match String::from_str(alloc, about) {
            Ok(name) => name,
            Err(_) => String::new(alloc),
        };
        self.last_fault = Some(FolderFault { name, call, error });
        self.failures = self.failures.saturating_add(1);
    }

    /// What the outcome of a read is: want of memory is no failure.
    fn tell<T: Drop>(
        &mut self,
        call: FolderCall,
        name: &str,
        outcome: io::Result<T>,
    ) -> Result<T, StoreError>
        ensures { Counts (untold self.old.failures) (untold self.new.failures) result }
    {
        match outcome {
            Ok(value) => Ok(value),
            Err(error) => match error.kind() {
                ErrorKind::OutOfMemory => Err(StoreError::OutOfMemory),
                _ => {
                    self.count(call, name, error);
                    Err(StoreError::Fault)
                }
            },
        }
    }

    /// Refuses a call that would change something.
    fn refuse(&mut self) -> Result<(), StoreError>
        ensures counts { Counts (untold self.old.failures) (untold self.new.failures) result }
        ensures done { result ≡ Err StoreError.NothingDone }
    {
        self.failures = self.failures.saturating_add(1);
        Err(StoreError::NothingDone)
    }
}

impl<R: Files<File = File> + Alloc + Clone + Drop> Store for FolderView<R> {
    ghost tells = { ⊥ };

    ghost world = { λ s. untold s.failures };

    ghost gives_one = { λ no store name. absurd no };

    ghost counts_now = { λ no store t image le now. absurd no };

    ghost only_now = { λ no store image left. absurd no };

    fn list(&mut self, alloc: Global) -> Result<Vec<String>, StoreError> {
        let outcome = list_folder(&self.rt, alloc, self.root.as_str());
        self.tell(FolderCall::List, "", outcome)
    }

    fn read(&mut self, alloc: Global, name: &str) -> Result<Option<Vec<u8>>, StoreError> {
        let path = path_below(alloc, self.root.as_str(), name)?;
        let outcome = read_file(&self.rt, alloc, path.as_str());
        self.tell(FolderCall::Read, name, outcome)
    }

    fn write(&mut self, _name: &str, _bytes: &[u8]) -> Result<(), StoreError> {
        self.refuse()
    }

    fn write_shared(&mut self, _name: &str, _bytes: &Bytes) -> Result<(), StoreError> {
        self.refuse()
    }

    fn sync(&mut self, _name: &str) -> Result<(), StoreError> {
        self.refuse()
    }

    fn replace(&mut self, _name: &str, _bytes: &[u8]) -> Result<(), StoreError> {
        self.refuse()
    }

    fn remove(&mut self, _name: &str) -> Result<(), StoreError> {
        self.refuse()
    }

    fn settle(&mut self) -> Result<(), StoreError> {
        self.refuse()
    }

    fn failures(&self) -> u64 {
        self.failures
    }
}
