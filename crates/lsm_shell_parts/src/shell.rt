// The run from the first line to the last.
ghost use Rattle.std.specs.Prelude.{◌≡◌, true, false, IfSome, OnOk};
ghost use Rattle.std.specs.Io.BufRead.{first_piece, DropsThrough};
ghost use Rattle.std.specs.Io.KnownBytes.{IsAtEnd};

use crate::arguments::{Mode, parse_arguments};
use crate::cause::{Refusal, SessionStore};
use crate::console::{Console, Errors};
use crate::reply::Reply;
use crate::session::Session;
use crate::threads::call_all;
use crate::watched::{Watch, WatchedStore};
use lsm_tree::{Error, FolderStore, MemStore, StoreError};
use std::alloc::Global;
use std::fs::{File, Files};
use std::io::{self, BufRead, BufReader, BufWriter, ErrorKind, Read, Write};
use std::sync::Wait;
use std::thread::Threads;
use std::time::Clock;

const SUCCESS: u8 = 0;

const FAULT: u8 = 1;

const USAGE: u8 = 2;

/// Does what the arguments ask, and gives the status to end with.
///
/// Without arguments it answers the lines of the input on the output, from a tree over a store in memory, and with one
/// that isn't empty from a tree over that folder: 0 at the end of the input, 1 after a fault of the input or the output,
/// or where the tree can't be opened, which it prints. With `logged` before that, the tree has a log above it, and no write
/// that was answered is lost; without it a folder isn't opened in which a record of a log counts. With `threads N` it starts N
/// callers on one tree: 0 where each read what it wrote, else 1. With any other arguments, 2; `arguments` is None where one
/// of them is no text.
///
/// Beside the answers it writes to the errors why a call of the store failed, which file keeps a folder from being
/// opened, and, where the console has a watch, how far long work is.
///
/// Where a line finds no memory, its answer says so, and the run goes on with the next line. Where
/// the buffers of the input or the output find none, the status is 1.
pub fn run_shell<P, R, W, E>(
    rt: &P,
    alloc: Global,
    arguments: Option<&[String]>,
    console: Console<R, W, E>,
) -> u8
where
    P: Threads + Wait + Sync + Files<File = File> + Clock + Alloc + Clone + Drop,
    R: Read + Drop,
    W: Write + Drop,
    E: Write + Drop,
{
    let (input, output, watch) = (console.input, console.output, console.watch);
    let mut errors = Errors {
        errors: console.errors,
        is_terminal: console.is_terminal,
        long: watch.as_ref().map(|watch| watch.entries),
    };
    let Some(mode) = arguments.and_then(parse_arguments) else {
        errors.tell("usage: lsm_shell [FOLDER | logged [FOLDER] | threads N]");
        return USAGE;
    };
    let told = match mode {
        Mode::Threads(callers) => report_callers(rt, alloc, callers, output),
        Mode::Memory(is_logged) => {
            let session = Session::new(alloc, MemStore::new(alloc), is_logged);
            hold_session(alloc, session, input, output, errors)
        }
        Mode::Folder(folder, is_logged) => match open_folder(rt, alloc, folder, watch) {
            Ok(store) => {
                let session = Session::new(alloc, store, is_logged);
                hold_session(alloc, session, input, output, errors)
            }
            Err(refusal) => refuse(refusal, output, errors),
        },
    };
    told.unwrap_or(FAULT)
}

/// The store of a folder, which is made where it is absent, and which says how far long work is.
fn open_folder<P, E>(
    rt: &P,
    alloc: Global,
    folder: &str,
    watch: Option<Watch<E>>,
) -> Result<WatchedStore<FolderStore<P>, P, E>, Refusal>
where
    P: Files<File = File> + Clock + Alloc + Clone + Drop,
    E: Write + Drop,
{
    match FolderStore::new(rt, alloc, folder) {
        Ok(store) => match rt.clone() {
            Ok(clock) => Ok(WatchedStore::new(store, clock, watch)),
            Err(_) => Err(Refusal::new(Error::OutOfMemory, None)),
        },
        Err(fault) => {
            let cause = format!(in alloc; "{fault}").ok();
            match StoreError::from(fault) {
                StoreError::OutOfMemory => Err(Refusal::new(Error::OutOfMemory, cause)),
                StoreError::Fault | StoreError::NothingDone => {
                    Err(Refusal::new(Error::Store, cause))
                }
            }
        }
    }
}

/// Starts the callers, prints what came of it, and gives the status.
fn report_callers<P, W>(rt: &P, alloc: Global, callers: u8, mut output: W) -> io::Result<u8>
where
    P: Threads + Wait + Sync,
    W: Write + Drop,
{
    let status = match call_all(rt, alloc, callers) {
        Ok(Some(entries)) => {
            writeln!(output, "threads {callers} entries {entries} all equal")?;
            SUCCESS
        }
        Ok(None) | Err(_) => {
            writeln!(output, "threads {callers} wrong")?;
            FAULT
        }
    };
    output.flush()?;
    Ok(status)
}

/// Says why nothing was opened.
fn refuse<W, E>(refusal: Refusal, mut output: W, mut errors: Errors<E>) -> io::Result<u8>
where
    W: Write + Drop,
    E: Write + Drop,
{
    errors.tell_refusal(&refusal);
    Reply::Refused(refusal.error).write_to(&mut output)?;
    output.flush()?;
    Ok(FAULT)
}

/// Has a session until its lines are answered.
fn hold_session<S, R, W, E>(
    alloc: Global,
    mut session: Session<S>,
    input: R,
    output: W,
    errors: Errors<E>,
) -> io::Result<u8>
where
    S: SessionStore,
    R: Read + Drop,
    W: Write + Drop,
    E: Write + Drop,
{
    let told = answer_lines(alloc, &mut session, input, output, errors);
    drop(session);
    told
}

/// Opens the tree of a session and answers lines from it, or says why it wasn't opened.
fn answer_lines<S, R, W, E>(
    alloc: Global,
    session: &mut Session<S>,
    input: R,
    output: W,
    errors: Errors<E>,
) -> io::Result<u8>
where
    S: SessionStore,
    R: Read + Drop,
    W: Write + Drop,
    E: Write + Drop,
{
    if let Err(refusal) = session.open() {
        return refuse(refusal, output, errors);
    }
    let mut errors = errors;
    let mut output = BufWriter::new(alloc, output)?;
    let mut input = BufReader::new(alloc, input)?;
    answer_each(alloc, session, &mut input, &mut output, &mut errors)?;
    Ok(SUCCESS)
}

fn answer_each<S, R, W, E>(
    alloc: Global,
    session: &mut Session<S>,
    input: &mut BufReader<R>,
    output: &mut BufWriter<W>,
    errors: &mut Errors<E>,
) -> io::Result<()>
where
    S: SessionStore,
    R: Read + Drop,
    W: Write + Drop,
    E: Write + Drop,
{
    let mut line = Vec::new(alloc);
    for _ in 0..u64::MAX {
        // Whoever writes the lines may wait for the answers to the earlier ones. So the output is
        // flushed before the input is asked for more, and not while a whole line is there.
        if !input.buffer().contains(&b'\n') {
            output.flush()?;
        }
        let (reply, cause) = match read_line(input, &mut line) {
            Ok(true) => {
                if let Some((work, tree)) = session.foresee(line.as_slice()) {
                    errors.announce(work, tree);
                }
                session.answer(line.as_slice())
            }
            Ok(false) => break,
            Err(error) if error.kind() == ErrorKind::OutOfMemory => {
                // A short line after a long one may find memory once the long one's is given back.
                line = Vec::new(alloc);
                input.skip_until(b'\n')?;
                (Reply::Refused(Error::OutOfMemory), None)
            }
            Err(error) => return Err(error),
        };
        errors.tell_of(&reply, cause);
        reply.write_to(output)?;
    }
    output.flush()
}

// Reads a line into `line`, without its end. False: the input has ended.
//
// For want of memory the rest of the line is left in the input, its end among it.
fn read_line<R: BufRead>(input: &mut R, line: &mut Vec<u8>) -> io::Result<bool>
    // Where the input's bytes are known.
    ensures line { result ≡ Ok true → IfSome (R.remaining input.old) (λ bytes. line.new.items ≡ first_piece 10 bytes) }
    ensures rest { OnOk result (DropsThrough (R.remaining input.old) (R.remaining input.new) 10) }
    ensures end { result ≡ Ok false → IsAtEnd (R.remaining input.old) }
{
    line.clear();
    if input.read_until(b'\n', line)? == 0 {
        return Ok(false);
    }
    if line.last() == Some(&b'\n') {
        line.pop();
    }
    Ok(true)
}
