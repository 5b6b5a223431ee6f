//! A tour of a folder: writes, flushes, a compaction, an end without a flush, and what stands in the files after each.
//!
//! docs/TOUR.md shows what it prints.
#![tactic(auto)]

use anyhow::{Result, anyhow};
use lsm_dump_parts::run_dump;
use lsm_tree::{Config, FolderStore, Logged, Op, UserKey, UserValue};
use std::alloc::{AllocError, Global};
use std::fs;
use std::ops::Bound;

const FOLDER: &str = "tour";

type Tour = Logged<FolderStore<HostRuntime>>;

/// The tree that the folder holds, or a new one.
fn open(rt: &HostRuntime) -> Result<Tour> {
    let alloc = rt.alloc();
    let store = FolderStore::new(rt, alloc, FOLDER)?;
    let opened = Logged::open(alloc, Config::new(0, 0, 0), store);
    Ok(opened.map_err(|(error, store)| store.explain(error))?)
}

/// Writes these keys as one batch.
fn write(alloc: Global, tree: &mut Tour, pairs: &[(&'static [u8], &'static [u8])]) -> Result<()> {
    let mut ops = Vec::with_capacity(alloc, pairs.len())?;
    for (key, value) in pairs {
        let value = UserValue::from_static(value);
        ops.push((UserKey::from_static(key), Op::Set(value)))?;
    }
    let written = tree.write(ops);
    written.map_err(|error| tree.store().explain(error))?;
    Ok(())
}

/// Removes a key.
fn remove(alloc: Global, tree: &mut Tour, key: &'static [u8]) -> Result<()> {
    let removed = tree.write(vec![in alloc; (UserKey::from_static(key), Op::Del)]?);
    removed.map_err(|error| tree.store().explain(error))?;
    Ok(())
}

/// Writes all that is only in the log to a table. Old versions that no reader needs may go.
fn flush(tree: &mut Tour) -> Result<()> {
    let watermark = tree.visible_seqno().get();
    let flushed = tree.flush_active_memtable(watermark);
    flushed.map_err(|(error, _)| tree.store().explain(error))?;
    Ok(())
}

/// Merges all tables into the last level.
fn merge(tree: &mut Tour) -> Result<()> {
    let watermark = tree.visible_seqno().get();
    let merged = tree.major_compact(u64::MAX, watermark);
    merged.map_err(|error| tree.store().explain(error))?;
    Ok(())
}

/// The words of a command, after the program's name.
fn words_of(alloc: Global, words: &[&str]) -> Result<Vec<String>, AllocError> {
    let mut all = Vec::with_capacity(alloc, words.len())?;
    for word in words {
        all.push(String::from_str(alloc, word)?)?;
    }
    Ok(all)
}

/// Prints a command and what it prints.
fn look(rt: &HostRuntime, words: &[&str]) -> Result<()> {
    let arguments = words_of(rt.alloc(), words)?;
    print!(rt; "$ lsm_dump")?;
    for word in words {
        print!(rt; " {word}")?;
    }
    println!(rt;)?;
    let (mut output, mut errors) = (Vec::new(rt.alloc()), Vec::new(rt.alloc()));
    let status = run_dump(rt, rt.alloc(), Some(&arguments), &mut output, &mut errors);
    let text = String::from_utf8(output).map_err(|_| anyhow!("the output is no text"))?;
    println!(rt; "{text}")?;
    if status != 0 {
        return Err(anyhow!("a look failed"));
    }
    Ok(())
}

/// Writes, flushes, merges, and looks after each.
fn work(rt: &HostRuntime, tree: &mut Tour) -> Result<()> {
    let alloc = rt.alloc();
    write(alloc, tree, &[(b"apple", b"red"), (b"plum", b"blue")])?;
    write(alloc, tree, &[(b"pear", b"green")])?;
    look(rt, &[FOLDER])?;
    look(rt, &[FOLDER, "--record", "0"])?;

    flush(tree)?;
    look(rt, &[FOLDER])?;

    write(alloc, tree, &[(b"quince", b"yellow")])?;
    remove(alloc, tree, b"plum")?;
    flush(tree)?;
    look(rt, &[FOLDER, "--levels"])?;
    look(rt, &[FOLDER, "--json"])?;

    merge(tree)?;
    look(rt, &[FOLDER, "--levels"])?;
    look(rt, &[FOLDER])?;

    write(alloc, tree, &[(b"cherry", b"black")])
}

/// Lists what the tree shows.
fn list(rt: &impl Print, tree: &Tour) -> Result<()> {
    let all = (Bound::Unbounded, Bound::Unbounded);
    for (key, value) in tree.pairs(&all, tree.visible_seqno().get(), None)? {
        println!(rt; "{key:?} is {value:?}")?;
    }
    Ok(())
}

fn main(rt: HostRuntime) -> Result<()> {
    let mut tree = open(&rt)?;
    let worked = work(&rt, &mut tree);
    // The process ends here: the last batch is in its record alone.
    drop(tree);
    worked?;
    look(&rt, &[FOLDER, "--check"])?;
    look(&rt, &[FOLDER])?;
    look(&rt, &[FOLDER, "--json"])?;

    let tree = open(&rt)?;
    let listed = list(&rt, &tree);
    drop(tree);
    listed?;
    fs::remove_dir_all(&rt, FOLDER)?;
    Ok(())
}
