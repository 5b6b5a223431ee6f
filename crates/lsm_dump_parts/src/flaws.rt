// Where the file of a table or of a record breaks off, or is of another form, and what of a table stands before that.
use std::alloc::{AllocError, Global};

/// What a file is made of in which items follow a front.
#[derive(Clone, Copy)]
pub(crate) struct Form {
    letters: &'static str,
    /// The bytes of the front, which ends with how many items follow.
    front: usize,
    /// What an item is called, and how many bytes stand between the length of its key and its type.
    item: &'static str,
    gap: usize,
    /// What is wrong where each item is whole.
    otherwise: &'static str,
}

/// A table's file.
pub(crate) const TABLE: Form = Form {
    letters: "LSMT",
    front: 20,
    item: "entry",
    gap: 8,
    otherwise: "has no entry, or one that isn't behind the one before it",
};

/// A record's file.
pub(crate) const RECORD: Form = Form {
    letters: "LSML",
    front: 16,
    item: "operation",
    gap: 0,
    otherwise: "has a key twice",
};

/// Where the number of items begins.
const COUNT_AT: usize = 12;

/// What is wrong with an item.
#[derive(Clone, Copy)]
enum Broken {
    /// The file ends so many bytes before the item does.
    Lacks(usize),
    /// It has this type, or removes its key and has a value.
    Type(u8),
}

/// The bytes from one place up to another as a number, the lowest one first. Those that aren't there count as 0.
fn little(bytes: &[u8], from: usize, to: usize) -> u64 {
    let mut number: u64 = 0;
    for byte in bytes.get(from..to).unwrap_or_default().iter().rev() {
        number = number.wrapping_mul(256).wrapping_add(u64::from(*byte));
    }
    number
}

/// What stands behind the item at the head of these bytes: its head, its key and its value.
fn skip_item(bytes: &[u8], gap: usize) -> Result<&[u8], Broken> {
    let head = gap.saturating_add(7);
    let at = gap.saturating_add(2);
    let key = little(bytes, 0, 2) as usize;
    let value = little(bytes, at.saturating_add(1), head) as usize;
    let len = if bytes.len() < head {
        head
    } else {
        head.saturating_add(key).saturating_add(value)
    };
    let Some(behind) = bytes.get(len..) else {
        return Err(Broken::Lacks(len.saturating_sub(bytes.len())));
    };
    match bytes.get(at) {
        Some(code) if *code > 2 || (*code > 0 && value > 0) => Err(Broken::Type(*code)),
        _ => Ok(behind),
    }
}

/// Whether an entry may stand behind another one: its key is greater, or the same and its number less.
fn is_behind(entry: &[u8], before: &[u8]) -> bool {
    let (key, other) = (entry_key(entry), entry_key(before));
    key > other || (key == other && little(entry, 2, 10) < little(before, 2, 10))
}

/// The key of the entry at the head of these bytes, which is whole.
fn entry_key(bytes: &[u8]) -> &[u8] {
    let head = TABLE.gap.saturating_add(7);
    let len = little(bytes, 0, 2) as usize;
    bytes
        .get(head..head.saturating_add(len))
        .unwrap_or_default()
}

/// The file of a table with the entries alone that stand before the first one that is cut, of no type or out of order. None
/// where there are none.
pub(crate) fn sound_front(alloc: Global, bytes: &[u8]) -> Result<Option<Vec<u8>>, AllocError> {
    let mut rest = bytes.get(TABLE.front..).unwrap_or_default();
    let mut before: Option<&[u8]> = None;
    let mut count: u64 = 0;
    for _ in 0..little(bytes, COUNT_AT, TABLE.front) {
        let Ok(behind) = skip_item(rest, TABLE.gap) else {
            break;
        };
        if before.is_some_and(|before| !is_behind(rest, before)) {
            break;
        }
        before = Some(rest);
        rest = behind;
        count = count.saturating_add(1);
    }
    if count == 0 {
        return Ok(None);
    }
    let end = bytes.len().saturating_sub(rest.len());
    let mut front = Vec::from_slice(alloc, bytes.get(..COUNT_AT).unwrap_or_default())?;
    front.extend_from_slice(&count.to_le_bytes())?;
    front.extend_from_slice(bytes.get(TABLE.front..end).unwrap_or_default())?;
    Ok(Some(front))
}

/// What is wrong with the items, or behind them.
fn items_fault(alloc: Global, bytes: &[u8], form: &Form) -> Result<String, AllocError> {
    let name = form.item;
    let mut rest = bytes.get(form.front..).unwrap_or_default();
    for item in 0..little(bytes, COUNT_AT, form.front) {
        let at = bytes.len().saturating_sub(rest.len());
        match skip_item(rest, form.gap) {
            Ok(behind) => rest = behind,
            Err(Broken::Lacks(count)) => {
                return format!(in alloc;
                    "is cut: {name} {item}, at byte {at}, lacks {count} bytes"
                );
            }
            Err(Broken::Type(code)) => {
                return format!(in alloc;
                    "{name} {item}, at byte {at}, has type {code}, or a value beside it"
                );
            }
        }
    }
    if rest.is_empty() {
        return String::from_str(alloc, form.otherwise);
    }
    let (count, at) = (rest.len(), bytes.len().saturating_sub(rest.len()));
    format!(in alloc; "has {count} bytes too many, from byte {at} on")
}

/// What is wrong with the content of a file of this form, which is refused.
pub(crate) fn file_fault(alloc: Global, bytes: &[u8], form: &Form) -> Result<String, AllocError> {
    let (len, letters) = (bytes.len(), form.letters);
    if len < form.front {
        return format!(in alloc; "is cut: it has {len} bytes");
    }
    if !bytes.starts_with(letters.as_bytes()) {
        return format!(in alloc; "doesn't begin with {letters}");
    }
    items_fault(alloc, bytes, form)
}
