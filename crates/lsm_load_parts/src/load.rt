// Pairs written into a tree with a log.
use crate::error::LoadError;
use crate::export::Pairs;
use lsm_tree::{Config, Error, FolderCall, FolderFault, FolderStore, Logged, Op, Store, UserKey};
use std::alloc::Global;
use std::fs::{self, File, Files};
use std::io::ErrorKind;
use std::mem;

/// How many pairs are written in one batch.
const BATCH: usize = 1_000;

/// How many records there may be before what they hold is flushed.
const RECORDS: usize = 1_000;

/// Writes all that is in records alone to a table. Nothing is read at a lower snapshot.
fn flush<S: Store>(tree: &mut Logged<S>) -> Result<(), Error> {
    let watermark = tree.visible_seqno().get();
    match tree.flush_active_memtable(watermark) {
        Ok(_) => Ok(()),
        Err((error, _)) => Err(error),
    }
}

fn write_batch<S: Store>(tree: &mut Logged<S>, batch: Vec<(UserKey, Op)>) -> Result<(), Error> {
    tree.write(batch)?;
    if tree.log_len() >= RECORDS {
        flush(tree)?;
    }
    Ok(())
}

/// Writes pairs into a tree, a thousand in a batch, and flushes.
///
/// # Errors
///
/// Those of `Logged::write` and of `Logged::flush_active_memtable`. What was written before stays.
pub fn load_pairs<S: Store>(
    alloc: Global,
    tree: &mut Logged<S>,
    pairs: Pairs,
) -> Result<(), Error> {
    let mut batch = Vec::new(alloc);
    for (key, value) in pairs {
        batch.push((key, Op::Set(value)))?;
        if batch.len() == BATCH {
            write_batch(tree, mem::replace(&mut batch, Vec::new(alloc)))?;
        }
    }
    if !batch.is_empty() {
        write_batch(tree, batch)?;
    }
    flush(tree)
}

/// Refuses a folder in which there is anything.
fn require_new<P>(rt: &P, alloc: Global, folder: &str) -> Result<(), LoadError>
where
    P: Files<File = File> + Alloc + Clone + Drop,
{
    let name = String::from_str(alloc, folder)?;
    match fs::read_dir(rt, folder) {
        Ok(mut entries) => match entries.next() {
            None => Ok(()),
            Some(_) => Err(LoadError::NotNew(name)),
        },
        Err(error) if error.kind() == ErrorKind::NotFound => Ok(()),
        Err(error) => Err(LoadError::Folder(FolderFault {
            name,
            call: FolderCall::List,
            error,
        })),
    }
}

fn open_new<P>(rt: &P, alloc: Global, folder: &str) -> Result<Logged<FolderStore<P>>, LoadError>
where
    P: Files<File = File> + Alloc + Clone + Drop,
{
    require_new(rt, alloc, folder)?;
    let store = FolderStore::new(rt, alloc, folder).map_err(LoadError::Folder)?;
    match Logged::open(alloc, Config::new(0, 0, 0), store) {
        Ok(tree) => Ok(tree),
        Err((error, store)) => Err(LoadError::Tree(store.explain(error))),
    }
}

/// Makes a tree with a log in a folder that is absent or empty, writes pairs into it and flushes them.
///
/// # Errors
///
/// `NotNew` where there is something in the folder, `Folder` and `Tree` where no tree can be made there, and `Part` where a write or a
/// flush failed: then the folder holds the first batches alone.
pub fn load_folder<P>(rt: &P, alloc: Global, folder: &str, pairs: Pairs) -> Result<(), LoadError>
where
    P: Files<File = File> + Alloc + Clone + Drop,
{
    let mut tree = open_new(rt, alloc, folder)?;
    match load_pairs(alloc, &mut tree, pairs) {
        Ok(()) => Ok(()),
        Err(error) => Err(LoadError::Part(tree.store().explain(error))),
    }
}
