//! A shell over a versioned tree: it reads lines, asks the tree, and prints the answers (`lsm_shell_parts`).
#![tactic(auto)]

use lsm_shell_parts::{Console, Watch, run_shell};
use std::env;
use std::io::{self, ErrorKind, IsTerminal, Stderr};
use std::process::ExitCode;
use std::time::Duration;

fn main(rt: HostRuntime) -> ExitCode {
    let arguments = match list_arguments(&rt) {
        Ok(words) => Some(words),
        Err(error) if error.kind() == ErrorKind::InvalidData => None,
        Err(_) => return ExitCode::FAILURE,
    };
    let words = arguments.as_ref().map(|words| words.as_slice());
    let console = Console {
        is_terminal: rt.stdin().is_terminal(),
        input: rt.stdin(),
        output: rt.stdout(),
        errors: rt.stderr(),
        watch: watch(&rt),
    };
    let status = run_shell(&rt, rt.alloc(), words, console);
    ExitCode::from(status)
}

/// The program's arguments, without its name. One that is no text is an error of the kind `InvalidData`.
fn list_arguments(rt: &HostRuntime) -> io::Result<Vec<String>> {
    let words = env::args(rt)?.skip(1).collect(rt.alloc())?;
    Ok(words)
}

/// For how many seconds work goes on unseen.
const BEAT: u64 = 1;

/// From how many entries on a flush or a compaction takes about a second.
const LONG: usize = 1_000_000;

/// Where long work shows itself: on a terminal.
fn watch(rt: &HostRuntime) -> Option<Watch<Stderr>> {
    let errors = rt.stderr();
    if errors.is_terminal() {
        Some(Watch {
            errors,
            beat: Duration::from_secs(BEAT),
            entries: LONG,
        })
    } else {
        None
    }
}
