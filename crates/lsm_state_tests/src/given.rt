// How several tests look at what iterators give.
use lsm_state::{
    Error, Guard, InternalValue, IterGuard, Pairs, SeqNo, TreeIter, UserKey, UserValue,
};
use std::alloc::Global;

/// Whether a pair of this key was given: none where the name is empty.
pub fn gives(guard: Option<Guard>, name: &str) -> bool {
    match guard {
        Some(guard) => match guard.key() {
            Ok(key) => key.as_slice() == name.as_bytes(),
            Err(_) => false,
        },
        None => name.is_empty(),
    }
}

/// Whether an entry of this sequence number was given.
fn has_number(entry: Option<Result<InternalValue, Error>>, seqno: SeqNo) -> bool {
    match entry {
        Some(Ok(entry)) => entry.key.seqno == seqno,
        _ => false,
    }
}

/// A step of an iterator, and what it gives: a key, none where it is empty, or the number of an entry.
pub enum Turn {
    Front(&'static str),
    Back(&'static str),
    FrontEntry(SeqNo),
    BackEntry(SeqNo),
}

fn turns_so(iter: &mut TreeIter, turn: &Turn) -> bool {
    match turn {
        Turn::Front(name) => gives(iter.next(), *name),
        Turn::Back(name) => gives(iter.next_back(), *name),
        Turn::FrontEntry(seqno) => has_number(iter.next_entry(), *seqno),
        Turn::BackEntry(seqno) => has_number(iter.next_entry_back(), *seqno),
    }
}

/// Whether an iterator takes all these steps so.
pub fn takes(iter: Result<TreeIter, Error>, turns: &[Turn]) -> bool {
    let Ok(mut iter) = iter else {
        return false;
    };
    let mut right = true;
    for turn in turns {
        right = right && turns_so(&mut iter, turn);
    }
    right
}

/// The keys and values that are given, one after the other.
pub fn listed(alloc: Global, iter: Result<TreeIter, Error>) -> Result<Vec<u8>, Error> {
    let iter = iter?;
    let mut found = Vec::new(alloc);
    for guard in iter {
        let (key, value) = guard.into_inner()?;
        found.extend_from_slice(key.as_slice())?;
        found.extend_from_slice(value.as_slice())?;
    }
    Ok(found)
}

/// The keys and values that are lent, one after the other.
pub fn lent(alloc: Global, pairs: Result<Pairs<'_>, Error>) -> Result<Vec<u8>, Error> {
    let pairs = pairs?;
    let mut found = Vec::new(alloc);
    for (key, value) in pairs {
        found.extend_from_slice(key.as_slice())?;
        found.extend_from_slice(value.as_slice())?;
    }
    Ok(found)
}

/// Whether pairs lend these two keys from their ends, the last one first.
pub fn lends_ends(pairs: Result<Pairs<'_>, Error>, first: &str, last: &str) -> bool {
    let Ok(mut pairs) = pairs else {
        return false;
    };
    let back = pairs.next_back();
    let front = pairs.next();
    has_key(back, last) && has_key(front, first)
}

/// Whether a pair of this key was lent: none where the name is empty.
fn has_key(pair: Option<(&UserKey, &UserValue)>, name: &str) -> bool {
    match pair {
        Some((key, _)) => key.as_slice() == name.as_bytes(),
        None => name.is_empty(),
    }
}

/// Whether the bytes are those of this text.
pub fn is(bytes: Result<Vec<u8>, Error>, text: &str) -> bool {
    match bytes {
        Ok(bytes) => bytes.as_slice() == text.as_bytes(),
        Err(_) => false,
    }
}
