//! Writes the pairs of an export, as `lsm_dump --export` makes it, into a new folder (`lsm_load_parts`).
#![tactic(auto)]

use lsm_dump_parts::list_arguments;
use lsm_load_parts::run_load;
use std::process::ExitCode;

fn main(rt: HostRuntime) -> ExitCode {
    let Ok(arguments) = list_arguments(&rt) else {
        return ExitCode::FAILURE;
    };
    let words = arguments.as_ref().map(|words| words.as_slice());
    let (mut output, mut errors) = (rt.stdout(), rt.stderr());
    let status = run_load(&rt, rt.alloc(), words, rt.stdin(), &mut output, &mut errors);
    ExitCode::from(status)
}
