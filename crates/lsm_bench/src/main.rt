//! Times the calls of a tree, one workload after the other.
//!
//! `lsm_bench N` runs each workload on N keys and prints a line for it, `workload N ops seconds check`. The check
//! depends on every answer, so that no call can be left out unseen. Without arguments N is 1,000 and no line has
//! seconds, so that the lines are the same on every machine. `lsm_bench N FOLDER` adds workloads on trees in that
//! folder, which is to be absent or empty, and takes away at the end what it made. Workloads that are named after the
//! folder, or after `-` for none, are run alone, so that a profile sees one of them. docs/PERFORMANCE.md says what
//! each workload does.
//!
//! On standard error it says at first which program this is and how many processors it may use: `rt run` builds
//! `out/lsm_bench` of what is proved alone, and any other program that has these sources may be slower.
//!
//! It ends with status 0; with 1 where memory, the clock, the output or the folder failed it, and says so; and with 2
//! where its arguments ask nothing.
//!
//! | Module | Holds |
//! |-|-|
//! | `workloads` | the table of workloads |
//! | `bench` | the run of one workload after the other |
//! | `points` | workloads that write or read one key at a time, on any tree |
//! | `lists` | workloads that read many keys at a time |
//! | `merges` | workloads that merge tables |
//! | `trees` | the trees that workloads find, of each kind |
//! | `places` | where they stand: in memory, or in a folder |
//! | `orders`, `keys` | the orders of keys; keys and values |
//! | `resident` | the bytes of this process in memory |
//! | `arguments` | what the program's arguments ask |
#![tactic(auto)]

mod arguments;
mod bench;
mod keys;
mod lists;
mod merges;
mod orders;
mod places;
mod points;
mod resident;
mod trees;
mod workloads;

use anyhow::{Error, anyhow};
use arguments::parse_arguments;
use bench::run_workloads;
use std::io::{ErrorKind, IsTerminal};
use std::process::ExitCode;
use std::rt::{Env, Files};
use std::thread::{Threads, available_parallelism};
use std::{env, io};

const USAGE: u8 = 2;

fn main(rt: HostRuntime) -> ExitCode {
    let words = match list_arguments(&rt) {
        Ok(words) => words,
        Err(error) if error.kind() == ErrorKind::InvalidData => {
            return tell_usage(&rt, anyhow!("an argument is no text"));
        }
        Err(error) => return tell_fault(&rt, Error::from(error)),
    };
    let plan = match parse_arguments(&words) {
        Ok(plan) => plan,
        Err(error) => return tell_usage(&rt, error),
    };
    if plan.with_times {
        tell_program(&rt, plan.keys);
    }
    match run_workloads(&rt, &rt, plan, rt.stderr().is_terminal()) {
        Ok(()) => ExitCode::SUCCESS,
        Err(error) => tell_fault(&rt, error),
    }
}

/// The program's arguments, without its name. One that is no text is an error of the kind `InvalidData`.
fn list_arguments<R: Env + AllocGlobal>(rt: &R) -> io::Result<Vec<String>> {
    let words = env::args(rt)?.skip(1).collect(rt.alloc())?;
    Ok(words)
}

/// Says what is measured, and on how many processors. The run goes on where this can't be told.
fn tell_program<R: Env + AllocGlobal + Files + Threads + Eprint>(rt: &R, keys: usize) {
    let cores = available_parallelism(rt).map_or(0, |count| count.get());
    let path = env::current_exe(rt);
    let program = match &path {
        Ok(path) => path.as_str(),
        Err(_) => "lsm_bench",
    };
    let _ = eprintln!(rt; "{program}: {keys} keys of 16 bytes, values of 100, {cores} processors");
}

/// Says why the arguments ask nothing. Nothing is left to be told where even this can't be written.
fn tell_usage(rt: &impl Eprint, error: Error) -> ExitCode {
    let _ = eprintln!(rt; "lsm_bench: {error}\nusage: lsm_bench [N [FOLDER | - [WORKLOAD ..]]]");
    ExitCode::from(USAGE)
}

/// Says what ended a run.
fn tell_fault(rt: &impl Eprint, error: Error) -> ExitCode {
    let _ = eprintln!(rt; "lsm_bench: {error:#}");
    ExitCode::FAILURE
}
