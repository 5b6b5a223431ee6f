//! Lives of a logged tree: a batch, a crash or the end of the process, and reads of what it left.
//!
//! The contracts in `lives` are derived from those of public calls: they say what a user wants to know of a crash.
#![tactic(auto)]

mod lives;

use anyhow::Result;
use lives::{write_and_crash, write_and_end};
use lsm_logged::Logged;
use lsm_state::{MemStore, Op, UserKey, UserValue};
use std::alloc::{AllocError, Global};

/// An apple is written.
fn batch(alloc: Global) -> Result<Vec<(UserKey, Op)>, AllocError> {
    let op = (
        UserKey::from_static(b"apple"),
        Op::Set(UserValue::from_static(b"red")),
    );
    Ok(vec![in alloc; op]?)
}

fn print_apple(rt: &impl Print, tree: &Logged) -> Result<()> {
    let value = tree.get(b"apple", 1)?;
    println!(rt; "{value:?}")?;
    Ok(())
}

fn main(rt: HostRuntime) -> Result<()> {
    let alloc = rt.alloc();
    if let Some(tree) = write_and_crash(alloc, MemStore::new(alloc), batch(alloc)?, &[])? {
        print_apple(&rt, &tree)?;
    }
    let tree = write_and_end(alloc, MemStore::new(alloc), batch(alloc)?)?;
    print_apple(&rt, &tree)
}
