// What is printed, and how a run ends.
use crate::scripts::{BOTH, LOGGED, OTHER_COUNT, OTHERS, PLAIN};
use lsm_shell_parts::{Console, run_shell};
use std::alloc::{AllocError, Global};
use std::cell::Cell;
use std::fs::{File, Files};
use std::io::{self, ErrorKind, Read, Write};
use std::sync::Wait;
use std::test::Fail;
use std::thread::Threads;
use std::time::Clock;

/// A console at which nobody types.
fn console<R, W, E>(input: R, output: W, errors: E) -> Console<R, W, E> {
    Console {
        input,
        output,
        errors,
        is_terminal: false,
        watch: None,
    }
}

/// Whether a run prints this, writes that to the errors, and ends with the status.
pub fn ends<R, I>(
    rt: &R,
    alloc: Global,
    arguments: Option<&[String]>,
    input: I,
    told: (&[u8], &[u8], u8),
) -> bool
where
    R: Threads + Wait + Sync + Files<File = File> + Clock + Alloc + Clone + Drop,
    I: Read + Drop,
{
    let mut printed = Vec::new(alloc);
    let mut errors = Vec::new(alloc);
    let console = console(input, &mut printed, &mut errors);
    let status = run_shell(rt, alloc, arguments, console);
    printed.as_slice() == told.0 && errors.as_slice() == told.1 && status == told.2
}

/// Whether a run without arguments prints this for the input, and ends with 0.
pub fn prints<R>(rt: &R, alloc: Global, input: &[u8], printed: &[u8]) -> bool
where
    R: Threads + Wait + Sync + Files<File = File> + Clock + Alloc + Clone + Drop,
{
    ends(rt, alloc, Some(&[]), input, (printed, b"", 0))
}

/// Appends a line with its end.
pub fn push_line(text: &mut Vec<u8>, line: &[u8]) -> Result<(), AllocError> {
    text.extend_from_slice(line)?;
    text.extend_from_slice(b"\n")
}

/// Whether a run with these arguments prints what the script says, and writes that to the errors.
pub fn answers_with<R>(
    rt: &R,
    alloc: Global,
    arguments: &[String],
    script: &str,
    told: &[u8],
) -> Result<bool, AllocError>
where
    R: Threads + Wait + Sync + Files<File = File> + Clock + Alloc + Clone + Drop,
{
    let mut input = Vec::new(alloc);
    let mut printed = Vec::new(alloc);
    for row in script.lines() {
        let (line, answers) = row.split_once('=').unwrap_or((row, ""));
        push_line(&mut input, line.as_bytes())?;
        for answer in answers.split('/') {
            push_line(&mut printed, answer.as_bytes())?;
        }
    }
    let told = (printed.as_slice(), told, 0);
    Ok(ends(rt, alloc, Some(arguments), input.as_slice(), told))
}

#[test]
fn answers_lines(rt: HostRuntime) -> Result<(), Fail> {
    let logged = arguments_of(rt.alloc(), "logged")?;
    for script in BOTH.iter().chain(&PLAIN) {
        assert!(rt;
            answers_with(&rt, rt.alloc(), &[], *script, b"")?,
            "{script}"
        );
    }
    for script in BOTH.iter().chain(&LOGGED) {
        assert!(rt;
            answers_with(&rt, rt.alloc(), &logged, *script, b"")?,
            "logged {script}"
        );
    }
    let usage = b"error 0 Usage\n".repeat(rt.alloc(), OTHER_COUNT)?;
    assert!(rt; prints(&rt, rt.alloc(), OTHERS, &usage));
    assert!(rt; prints(&rt, rt.alloc(), b"", b""));
    // The last line has no end.
    assert!(rt; prints(&rt, rt.alloc(), b"put a x\nget a", b"ok 0\nvalue x\n"));
    Ok(())
}

/// A line may be longer than what is read at a time, and the tree decides how long a key may be.
#[test]
fn answers_long_lines(rt: HostRuntime) -> Result<(), Fail> {
    let long = vec![in rt.alloc(); b'v'; 65536]?;
    let mut lines = Vec::from_slice(rt.alloc(), b"put ")?;
    lines.extend_from_slice(&long)?;
    lines.extend_from_slice(b" x\nput a ")?;
    lines.extend_from_slice(&long)?;
    lines.extend_from_slice(b"\nget a\n")?;
    let mut wanted = Vec::from_slice(rt.alloc(), b"error 10 KeyTooLong\nok 0\nvalue ")?;
    wanted.extend_from_slice(&long)?;
    wanted.push(b'\n')?;
    assert!(rt; prints(&rt, rt.alloc(), &lines, &wanted));
    Ok(())
}

/// The arguments between single spaces, none for an empty text.
pub fn arguments_of(alloc: Global, text: &str) -> Result<Vec<String>, AllocError> {
    let mut words = Vec::new(alloc);
    for word in text.split(' ') {
        if !word.is_empty() {
            words.push(String::from_str(alloc, word)?)?;
        }
    }
    Ok(words)
}

/// What is told of arguments that ask nothing.
const USAGE: (&[u8], &[u8], u8) = (
    b"",
    b"usage: lsm_shell [FOLDER | logged [FOLDER] | threads N]\n",
    2,
);

#[test]
fn takes_arguments(rt: HostRuntime) -> Result<(), Fail> {
    let table: [(&str, (&[u8], &[u8], u8)); 15] = [
        ("logged", (b"ok 0\nvalue x\n", b"", 0)),
        ("--quiet logged", USAGE),
        ("--quiet threads 1", USAGE),
        ("logged a b", USAGE),
        ("threads logged", USAGE),
        ("threads 1", (b"threads 1 entries 20 all equal\n", b"", 0)),
        ("threads 2", (b"threads 2 entries 40 all equal\n", b"", 0)),
        ("threads 4", (b"threads 4 entries 80 all equal\n", b"", 0)),
        ("threads 0", USAGE),
        ("threads 65", USAGE),
        ("threads 02", USAGE),
        ("threads +2", USAGE),
        ("threads 2 3", USAGE),
        ("Threads 2", USAGE),
        ("threads folder", USAGE),
    ];
    let input = b"put a x\nget a\n".as_slice();
    for (line, told) in table {
        let arguments = arguments_of(rt.alloc(), line)?;
        assert!(rt;
            ends(&rt, rt.alloc(), Some(&arguments), input, told),
            "at {line}"
        );
    }
    let empty = vec![in rt.alloc(); String::new(rt.alloc())]?;
    assert!(rt; ends(&rt, rt.alloc(), Some(&empty), input, USAGE));
    let logged = String::from_str(rt.alloc(), "logged")?;
    let no_folder = vec![in rt.alloc(); logged, String::new(rt.alloc())]?;
    assert!(rt; ends(&rt, rt.alloc(), Some(&no_folder), input, USAGE));
    assert!(rt; ends(&rt, rt.alloc(), None, input, USAGE));
    Ok(())
}

/// Gives these bytes, and then fails.
#[derive(Drop)]
struct BrokenInput<'a>(&'a [u8]);

impl Read for BrokenInput<'_> {
    fn read(&mut self, buf: &mut [u8]) -> io::Result<usize> {
        if self.0.is_empty() {
            return Err(io::Error::from(ErrorKind::BrokenPipe));
        }
        self.0.read(buf)
    }
}

/// Takes nothing.
#[derive(Drop)]
struct BrokenOutput;

impl Write for BrokenOutput {
    fn write(&mut self, _buf: &[u8]) -> io::Result<usize> {
        Err(io::Error::from(ErrorKind::StorageFull))
    }

    fn flush(&mut self) -> io::Result<()> {
        Ok(())
    }
}

#[test]
fn ends_at_a_fault(rt: HostRuntime) {
    let input = BrokenInput(b"put a x\nget a\nget");
    assert!(rt;
        ends(
            &rt,
            rt.alloc(),
            Some(&[]),
            input,
            (b"ok 0\nvalue x\n", b"", 1)
        )
    );

    let mut errors = Vec::new(rt.alloc());
    let input = b"put a x\nget a\n".as_slice();
    let console = console(input, BrokenOutput, &mut errors);
    let status = run_shell(&rt, rt.alloc(), Some(&[]), console);
    assert_eq!(rt; (status, errors.len()), (1, 0));
}

/// Says two lines, then one, and then nothing, each time only once the answers to the earlier ones
/// have come: `answered` counts their bytes.
#[derive(Drop)]
struct Asker<'a> {
    answered: &'a Cell<usize>,
    turn: u8,
}

impl Read for Asker<'_> {
    fn read(&mut self, buf: &mut [u8]) -> io::Result<usize> {
        let (mut says, wanted) = match self.turn {
            0 => (b"put a x\nget a\n".as_slice(), 0),
            1 => (b"del a\n".as_slice(), b"ok 0\nvalue x\n".len()),
            _ => (b"".as_slice(), b"ok 0\nvalue x\nok 1\n".len()),
        };
        self.turn = self.turn.saturating_add(1);
        if self.answered.get() != wanted {
            return Err(io::Error::from(ErrorKind::TimedOut));
        }
        says.read(buf)
    }
}

#[derive(Drop)]
struct Listener<'a> {
    answered: &'a Cell<usize>,
}

impl Write for Listener<'_> {
    fn write(&mut self, buf: &[u8]) -> io::Result<usize> {
        self.answered
            .set(self.answered.get().saturating_add(buf.len()));
        Ok(buf.len())
    }

    fn flush(&mut self) -> io::Result<()> {
        Ok(())
    }
}

#[test]
fn answers_before_it_asks_on(rt: HostRuntime) {
    let answered = Cell::new(0);
    let input = Asker {
        answered: &answered,
        turn: 0,
    };
    let output = Listener {
        answered: &answered,
    };
    let mut errors = Vec::new(rt.alloc());
    let console = console(input, output, &mut errors);
    let status = run_shell(&rt, rt.alloc(), Some(&[]), console);
    assert_eq!(rt;
        (status, answered.get()),
        (0, b"ok 0\nvalue x\nok 1\n".len())
    );
}

/// At a terminal an unknown line is answered with the lines that there are, on the errors.
#[test]
fn hints_at_a_terminal(rt: HostRuntime) {
    let mut printed = Vec::new(rt.alloc());
    let mut errors = Vec::new(rt.alloc());
    let console = Console {
        input: b"get a\nhelp\n".as_slice(),
        output: &mut printed,
        errors: &mut errors,
        is_terminal: true,
        watch: None,
    };
    let status = run_shell(&rt, rt.alloc(), Some(&[]), console);
    assert_eq!(rt; status, 0);
    assert!(rt; printed.as_slice() == b"none\nerror 0 Usage\n".as_slice());
    assert!(rt; errors.as_slice().starts_with(b"lines: put K V, "));
}
