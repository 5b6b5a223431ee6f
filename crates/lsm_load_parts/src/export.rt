// The pairs of an export.
use crate::error::{LineFault, LoadError};
use crate::lines::Lines;
use bytes::Bytes;
use hex::FromHexError;
use lsm_tree::{MAX_KEY_LEN, MAX_VALUE_LEN, UserKey, UserValue};
use std::alloc::{AllocError, Global};
use std::collections::BTreeMap;
use std::io::{BufRead, BufReader, Read};

/// The pairs of an export, each key once.
pub type Pairs = BTreeMap<UserKey, UserValue>;

/// What a line of a header tells.
enum HeaderLine {
    /// The only format that is read.
    Format,
    /// What makes no difference here, as `mapsize=1048576`.
    Passed,
    End,
}

fn header_line(line: &[u8]) -> Result<HeaderLine, LineFault> {
    if line == b"HEADER=END".as_slice() {
        return Ok(HeaderLine::End);
    }
    if line.starts_with(b"format=") {
        return if line == b"format=bytevalue".as_slice() {
            Ok(HeaderLine::Format)
        } else {
            Err(LineFault::OtherFormat)
        };
    }
    if line.starts_with(b"type=") {
        return if line == b"type=btree".as_slice() || line == b"type=hash".as_slice() {
            Ok(HeaderLine::Passed)
        } else {
            Err(LineFault::OtherType)
        };
    }
    if line.starts_with(b" ") || !line.contains(&b'=') {
        return Err(LineFault::NoHeader);
    }
    Ok(HeaderLine::Passed)
}

fn read_header<R: BufRead + Drop>(lines: &mut Lines<R>) -> Result<(), LoadError> {
    lines.advance()?;
    if lines.line() != b"VERSION=3".as_slice() {
        return Err(lines.refuse(LineFault::NoVersion));
    }
    let mut has_format = false;
    for _ in 0..u64::MAX {
        lines.expect()?;
        match header_line(lines.line()) {
            Ok(HeaderLine::Format) => has_format = true,
            Ok(HeaderLine::Passed) => {}
            Ok(HeaderLine::End) if has_format => return Ok(()),
            Ok(HeaderLine::End) => return Err(lines.refuse(LineFault::NoFormat)),
            Err(fault) => return Err(lines.refuse(fault)),
        }
    }
    Err(lines.refuse(LineFault::NoEnd))
}

/// Whether the line that is held is the one behind the pairs.
fn is_end<R: BufRead + Drop>(lines: &Lines<R>) -> bool {
    lines.line() == b"DATA=END".as_slice()
}

/// The bytes of the line that is held, which may be so many.
fn read_bytes<R: BufRead + Drop>(
    alloc: Global,
    lines: &Lines<R>,
    most: usize,
) -> Result<Bytes, LoadError> {
    let [b' ', digits @ ..] = lines.line() else {
        return Err(lines.refuse(LineFault::NoSpace));
    };
    match hex::decode(alloc, digits) {
        Ok(bytes) if bytes.len() > most => Err(lines.refuse(LineFault::TooLong)),
        Ok(bytes) => Ok(Bytes::from_vec(bytes)?),
        Err(FromHexError::OutOfMemory) => Err(LoadError::Memory(AllocError)),
        Err(FromHexError::OddLength) => Err(lines.refuse(LineFault::OddDigits)),
        Err(_) => Err(lines.refuse(LineFault::NoDigit)),
    }
}

/// Reads the value of the key in the line that is held, and puts both beside the others.
fn read_pair<R: BufRead + Drop>(
    alloc: Global,
    lines: &mut Lines<R>,
    pairs: &mut Pairs,
) -> Result<(), LoadError> {
    let key = read_bytes(alloc, lines, MAX_KEY_LEN)?;
    lines.expect()?;
    if is_end(lines) {
        return Err(lines.refuse(LineFault::NoValue));
    }
    let value = read_bytes(alloc, lines, MAX_VALUE_LEN)?;
    match pairs.insert(key, value)? {
        None => Ok(()),
        Some(_) => Err(lines.refuse(LineFault::Twice)),
    }
}

fn read_pairs<R: BufRead + Drop>(
    alloc: Global,
    lines: &mut Lines<R>,
    pairs: &mut Pairs,
) -> Result<(), LoadError> {
    for _ in 0..u64::MAX {
        lines.expect()?;
        if is_end(lines) {
            return Ok(());
        }
        read_pair(alloc, lines, pairs)?;
    }
    Err(lines.refuse(LineFault::NoEnd))
}

/// The pairs of an export, whose lines are as `lsm_dump --export`, `db_dump` and `mdb_dump` write them. The input is read to
/// its end.
///
/// # Errors
///
/// `Line` for the first line that isn't of this form, `Input` for what the input answers, `Memory` where a growth was refused.
pub fn read_export<R: Read + Drop>(alloc: Global, input: R) -> Result<Pairs, LoadError> {
    let input = BufReader::new(alloc, input).map_err(LoadError::Input)?;
    let mut lines = Lines::new(alloc, input);
    let mut pairs = BTreeMap::new(alloc);
    read_header(&mut lines)?;
    read_pairs(alloc, &mut lines, &mut pairs)?;
    if lines.advance()? {
        return Err(lines.refuse(LineFault::Behind));
    }
    Ok(pairs)
}
