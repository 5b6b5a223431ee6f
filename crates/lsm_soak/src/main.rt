//! Twelve callers on the tree of a folder, which `tools/soak` kills.
//!
//! `lsm_soak FOLDER SESSION TURNS` opens the tree of FOLDER and gives twelve callers so many turns each. Eight write the same
//! keys and read them back, one flushes, one clears and two compact. Each notes its calls in a file of its own beside the
//! folder, from `FOLDER.0` to `FOLDER.11`: a line before a call, and one after it. SESSION is a part of each value, so that no
//! two sessions write the same.
//!
//! | Line | Before | After |
//! |-|-|-|
//! | `set N V` | both keys of a pair, `aN` and `bN`, are set to V | `ok` and the number of the write |
//! | `del N` | both are removed | the same |
//! | `flush S` | a flush of all that is visible at S | `ok S` |
//! | `clear S` | a clear after all that is visible at S | `ok` and the number of the clear |
//! | `compact S` | a merge of all tables, at watermark S | `ok S` |
//!
//! `lsm_soak FOLDER` prints what the tree of FOLDER shows, a line for each key, as `b"a0" b"s-7-100"`.
//!
//! It ends with status 1 where its arguments ask nothing, where a call is refused, or where a caller reads something else than
//! it wrote; that caller's last line is `failed` and why.
#![tactic(auto)]

mod caller;
mod writes;

use anyhow::{Result, bail};
use caller::{Caller, Plan};
use lsm_tree::{Config, FolderStore, Handle, IterGuard, Store, Tree, TreeState};
use std::alloc::Global;
use std::env;
use std::fs::File;
use std::sync::Wait;
use std::thread::{self, Threads};
use std::time::Clock;

const CALLERS: usize = 12;

type Soaked = Tree<FolderStore<HostRuntime>>;

fn open_folder(rt: &HostRuntime, folder: &str) -> Result<TreeState<FolderStore<HostRuntime>>> {
    let store = FolderStore::new(rt, rt.alloc(), folder)?;
    let opened = TreeState::open_unlogged(rt.alloc(), Config::new(0, 0, 0), store);
    Ok(opened.map_err(|(error, store)| store.explain(error))?)
}

/// A caller's number, and the file that it notes its calls in.
type Job = (usize, File);

fn open_log(rt: &HostRuntime, folder: &str, number: usize) -> Result<File> {
    let name = format!(in rt.alloc(); "{folder}.{number}")?;
    Ok(File::create(rt, name.as_str())?)
}

fn open_logs(rt: &HostRuntime, folder: &str) -> Result<Vec<Job>> {
    let mut jobs = Vec::with_capacity(rt.alloc(), CALLERS)?;
    for number in 0..CALLERS {
        jobs.push((number, open_log(rt, folder, number)?))?;
    }
    Ok(jobs)
}

/// Gives each caller its turns: whether none of them was refused.
fn call_all<R: Threads + Wait + Clock + Sync>(
    rt: &R,
    alloc: Global,
    tree: &Soaked,
    plan: Plan<'_>,
    jobs: Vec<Job>,
) -> bool {
    let told = thread::map_vec(
        rt,
        jobs,
        &|job: Job| {
            let (number, mut log) = job;
            let caller = Caller {
                rt,
                alloc,
                tree,
                plan,
                number,
            };
            caller.call(&mut log)
        },
    );
    match told {
        Ok(told) => !told.as_slice().contains(&false),
        Err(_) => false,
    }
}

fn show<S: Store>(rt: &impl Print, tree: &TreeState<S>) -> Result<()> {
    for pair in tree.iter(tree.visible_seqno().get(), None)? {
        let (key, value) = pair.into_inner()?;
        println!(rt; "{key:?} {value:?}")?;
    }
    Ok(())
}

fn main(rt: HostRuntime) -> Result<()> {
    let words: Vec<String> = env::args(&rt)?.skip(1).collect(rt.alloc())?;
    match words.as_slice() {
        [folder] => {
            let tree = open_folder(&rt, folder)?;
            let shown = show(&rt, &tree);
            drop(tree);
            shown
        }
        [folder, session, turns] => {
            let plan = Plan {
                session,
                turns: turns.parse()?,
            };
            let tree = Handle::new(rt.alloc(), open_folder(&rt, folder)?)?;
            let done = match open_logs(&rt, folder) {
                Ok(jobs) => call_all(&rt, rt.alloc(), &tree, plan, jobs),
                Err(_) => false,
            };
            drop(tree);
            if !done {
                bail!("a caller was refused");
            }
            Ok(())
        }
        _ => bail!("usage: lsm_soak FOLDER [SESSION TURNS]"),
    }
}
