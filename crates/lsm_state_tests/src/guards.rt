// What a guard hands out.
use crate::samples::bytes;
use lsm_state::{Error, Guard, IterGuard, UserKey, UserValue};

/// What a guard is asked for.
enum Ask {
    Key,
    Size,
    Pair,
    /// The value only of keys of this length.
    PairIf(usize),
}

/// What it hands out: a key, a value and a size, as far as each is.
type Given = (Option<UserKey>, Option<UserValue>, Option<u32>);

fn whole(guard: Guard) -> Result<Given, Error> {
    let (key, value) = guard.into_inner()?;
    Ok((Some(key), Some(value), None))
}

fn of_length(guard: Guard, len: usize) -> Result<Given, Error> {
    let (key, value) = guard.into_inner_if(|key| key.len() == len)?;
    Ok((Some(key), value, None))
}

fn given(guard: Guard, ask: &Ask) -> Result<Given, Error> {
    match ask {
        Ask::Key => Ok((Some(guard.key()?), None, None)),
        Ask::Size => Ok((None, None, Some(guard.size()?))),
        Ask::Pair => whole(guard),
        Ask::PairIf(len) => of_length(guard, *len),
    }
}

/// What is asked of a guard of the pair a = xyz, and the key, the value and the size that it hands out.
const GIVEN: [(Ask, Option<&str>, Option<&str>, Option<u32>); 5] = [
    (Ask::Key, Some("a"), None, None),
    (Ask::Size, None, None, Some(3)),
    (Ask::Pair, Some("a"), Some("xyz"), None),
    (Ask::PairIf(1), Some("a"), Some("xyz"), None),
    (Ask::PairIf(0), Some("a"), None, None),
];

fn is(found: Option<UserKey>, want: Option<&str>) -> bool {
    match (found, want) {
        (Some(found), Some(text)) => found.as_slice() == text.as_bytes(),
        (None, None) => true,
        _ => false,
    }
}

fn hands_out(row: &(Ask, Option<&str>, Option<&str>, Option<u32>)) -> bool {
    match given(Guard::new(Ok((bytes("a"), bytes("xyz")))), &row.0) {
        Ok((key, value, size)) => is(key, row.1) && is(value, row.2) && size == row.3,
        Err(_) => false,
    }
}

/// Whether a guard without a pair says why.
fn says_why(ask: &Ask) -> bool {
    matches!(
        given(Guard::new(Err(Error::OutOfMemory)), ask),
        Err(Error::OutOfMemory)
    )
}

#[test]
fn a_guard_hands_out_what_is_wanted(rt: HostRuntime) {
    for (place, row) in GIVEN.iter().enumerate() {
        assert!(rt; hands_out(row) && says_why(&row.0), "row {place}");
    }
}
