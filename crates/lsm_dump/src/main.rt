//! Looks into the folder of a tree: its levels, tables and log, what is damaged, and whether it would open
//! (`lsm_dump_parts`).
#![tactic(auto)]

use lsm_dump_parts::{list_arguments, run_dump};
use std::process::ExitCode;

fn main(rt: HostRuntime) -> ExitCode {
    let Ok(arguments) = list_arguments(&rt) else {
        return ExitCode::FAILURE;
    };
    let words = arguments.as_ref().map(|words| words.as_slice());
    let status = run_dump(&rt, rt.alloc(), words, &mut rt.stdout(), &mut rt.stderr());
    ExitCode::from(status)
}
