// How far long work is, as it is told to whoever waits for it.
use crate::folders::filled;
use crate::shells::arguments_of;
use lsm_shell_parts::{Console, Watch, run_shell};
use std::alloc::Global;
use std::cell::Cell;
use std::fs::{self, File, Files};
use std::io::{self, Write};
use std::sync::Wait;
use std::test::Fail;
use std::thread::Threads;
use std::time::{Clock, Duration};

const FOLDER: &str = "lsm_shell_watched";

/// A write, a flush and a merge over a tree of one table.
const INPUT: &[u8] = b"put b y\nflush 0\ncompact major 10\n";

/// What is told in turn, of each table at once, and of work before it begins.
const TOLD: &[u8] = b"opening: 1 of 1 tables, 0 MB
flush: a tree of 2 entries, 1 tables, 0 MB
writing tables: 1, 0 MB
compaction: a tree of 2 entries, 2 tables, 0 MB
writing tables: 1, 0 MB
";

/// A number that depends on each of these bytes, after others.
fn mixed(start: u64, bytes: &[u8]) -> u64 {
    let mut sum = start;
    for byte in bytes {
        sum = sum.wrapping_mul(31).wrapping_add(*byte as u64);
    }
    sum
}

/// A writer that keeps such a number of what it and others write in turn.
#[derive(Drop)]
struct Teller<'a> {
    told: &'a Cell<u64>,
}

impl Write for Teller<'_> {
    fn write(&mut self, buf: &[u8]) -> io::Result<usize> {
        self.told.set(mixed(self.told.get(), buf));
        Ok(buf.len())
    }

    fn flush(&mut self) -> io::Result<()> {
        Ok(())
    }
}

/// Whether a run with these arguments, watched from the first entry on, tells this.
fn tells<R>(rt: &R, alloc: Global, arguments: &[String], text: &[u8]) -> bool
where
    R: Threads + Wait + Sync + Files<File = File> + Clock + Alloc + Clone + Drop,
{
    let told = Cell::new(0);
    let mut printed = Vec::new(alloc);
    let console = Console {
        input: INPUT,
        output: &mut printed,
        errors: Teller { told: &told },
        is_terminal: false,
        watch: Some(Watch {
            errors: Teller { told: &told },
            beat: Duration::ZERO,
            entries: 1,
        }),
    };
    let status = run_shell(rt, alloc, Some(arguments), console);
    status == 0 && told.get() == mixed(0, text)
}

#[test]
fn long_work_shows_itself(rt: HostRuntime) -> Result<(), Fail> {
    let alloc = rt.alloc();
    drop(filled(&rt, alloc, FOLDER)?);
    let arguments = arguments_of(alloc, FOLDER)?;
    let shown = tells(&rt, alloc, &arguments, TOLD);
    fs::remove_dir_all(&rt, FOLDER)?;
    assert!(rt; shown);
    Ok(())
}
