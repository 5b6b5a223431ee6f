// Where the trees of workloads stand.
use anyhow::{Context, Result, ensure};
use lsm_tree::{FolderStore, MemStore, Store};
use std::alloc::Global;
use std::fs::{self, File};
use std::rt::Files;

/// Where trees stand.
pub trait Place {
    type Store: Store + Send;

    /// The empty store for the next tree.
    fn store(&self, alloc: Global) -> Result<Self::Store>;
}

/// Trees stand in memory.
#[derive(Clone, Copy)]
pub struct Memory;

impl Place for Memory {
    type Store = MemStore;

    fn store(&self, alloc: Global) -> Result<MemStore> {
        Ok(MemStore::new(alloc))
    }
}

/// A tree stands in a folder that was absent or empty, in which nobody else writes meanwhile.
#[derive(Drop)]
pub struct Folder<'a, R> {
    rt: &'a R,
    path: &'a str,
    was_absent: bool,
}

impl<'a, R: AllocGlobal + Clone + Drop + Files<File = File> + Send> Folder<'a, R> {
    /// Refused where the folder is there and isn't empty.
    pub fn take(rt: &'a R, path: &'a str) -> Result<Folder<'a, R>> {
        let was_absent = !fs::exists(rt, path)?;
        if !was_absent {
            let mut entries = fs::read_dir(rt, path).context(format_args!("reading {path}"))?;
            ensure!(entries.next().is_none(), "{path} isn't empty");
        }
        Ok(Folder {
            rt,
            path,
            was_absent,
        })
    }

    /// Leaves the folder as it was.
    pub fn clear(&self) -> Result<()> {
        remove(self.rt, self.path)?;
        if !self.was_absent {
            fs::create_dir(self.rt, self.path)?;
        }
        Ok(())
    }
}

/// Removes the folder where it is there.
fn remove<R: AllocGlobal + Files>(rt: &R, path: &str) -> Result<()> {
    if fs::exists(rt, path)? {
        fs::remove_dir_all(rt, path)?;
    }
    Ok(())
}

impl<R: AllocGlobal + Clone + Drop + Files<File = File> + Send> Place for Folder<'_, R> {
    type Store = FolderStore<R>;

    fn store(&self, alloc: Global) -> Result<FolderStore<R>> {
        remove(self.rt, self.path)?;
        Ok(FolderStore::new(self.rt, alloc, self.path)?)
    }
}
