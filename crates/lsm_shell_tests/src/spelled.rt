// Each byte at each place of a line, and after it.
use crate::shells::{prints, push_line};
use std::alloc::{AllocError, Global};
use std::test::Fail;

/// What the last word of a line may be, which has one byte.
#[derive(Clone, Copy, Debug)]
enum Last {
    /// A key, which isn't there.
    Key,
    Number,
}

/// A line, its last word, and what it prints.
type Line = (&'static [u8], Last, &'static [u8]);

const LINES: [Line; 2] = [
    (b"get a", Last::Key, b"none"),
    (b"now 1", Last::Number, b"ok"),
];

const USAGE: &[u8] = b"error 0 Usage";

/// Whether a last word may have this byte.
fn may_have(last: Last, byte: u8) -> bool {
    match last {
        Last::Key => byte >= 33 && byte <= 126,
        Last::Number => byte >= b'0' && byte <= b'9',
    }
}

/// Whether a line with this byte at a place is one of its kind: the last place and the one after it are its last word's.
fn is_of_kind(line: &[u8], last: Last, place: usize, byte: u8) -> bool {
    match line.get(place) {
        Some(found) if place.saturating_add(1) < line.len() => *found == byte,
        _ => may_have(last, byte),
    }
}

/// Appends a line with another byte at a place, which may be the one after it.
fn push_changed(text: &mut Vec<u8>, line: &[u8], place: usize, byte: u8) -> Result<(), AllocError> {
    text.extend_from_slice(line.get(..place).unwrap_or_default())?;
    text.push(byte)?;
    push_line(
        text,
        line.get(place.saturating_add(1)..).unwrap_or_default(),
    )
}

/// Appends what that prints. A line end makes two lines: only what stands before the place after a line is of its kind.
fn push_printed(text: &mut Vec<u8>, row: &Line, place: usize, byte: u8) -> Result<(), AllocError> {
    let (line, last, printed) = *row;
    if byte == b'\n' {
        push_line(text, if place == line.len() { printed } else { USAGE })?;
        return push_line(text, USAGE);
    }
    push_line(
        text,
        if is_of_kind(line, last, place, byte) {
            printed
        } else {
            USAGE
        },
    )
}

/// The lines with each byte at each place, and what they print.
fn spell_all(alloc: Global, row: &Line) -> Result<(Vec<u8>, Vec<u8>), AllocError> {
    let mut input = Vec::new(alloc);
    let mut printed = Vec::new(alloc);
    for place in 0..6 {
        for byte in 0..=255u8 {
            push_changed(&mut input, row.0, place, byte)?;
            push_printed(&mut printed, row, place, byte)?;
        }
    }
    Ok((input, printed))
}

#[test]
fn each_byte_is_a_word_or_refused(rt: HostRuntime) -> Result<(), Fail> {
    for row in &LINES {
        let (input, printed) = spell_all(rt.alloc(), row)?;
        assert!(rt; prints(&rt, rt.alloc(), &input, &printed), "{:?}", row.1);
    }
    Ok(())
}
