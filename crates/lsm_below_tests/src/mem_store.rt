// The store in memory: its calls, and crashes of it.
//
// What owns a store borrows it to a helper, and has no `?` after: a deep value that is dropped is long to prove.

mod looks;
mod scripts;
mod settles;

use crate::samples::Call;
use lsm_store::{MemStore, Pick, Store, StoreError};
use std::alloc::Global;

const A: &str = "a";

const B: &str = "b";

const SCRIPT: [Call; 12] = [
    Call::Write(A, b"1"),
    Call::Sync(A),
    Call::Share(B, b"2"),
    Call::Replace(A, b"3"),
    Call::Remove(B),
    Call::Settle,
    Call::Replace(B, b"4"),
    Call::Remove(A),
    Call::Settle,
    Call::Replace(A, b"5"),
    Call::Settle,
    Call::Sync(B),
];

fn is_same(a: Option<&[u8]>, b: Option<&[u8]>) -> bool {
    match (a, b) {
        (Some(a), Some(b)) => a == b,
        (None, None) => true,
        _ => false,
    }
}

/// What a crash with these picks leaves of a name. None where they aren't possible.
fn left(
    alloc: Global,
    store: &MemStore,
    name: &str,
    picks: &[(&str, Pick<'_>)],
) -> Result<Option<Option<Vec<u8>>>, StoreError> {
    let Some(mut new) = store.crash(picks)? else {
        return Ok(None);
    };
    let found = new.read(alloc, name);
    drop(new);
    Ok(Some(found?))
}

fn is_content(found: &Option<Vec<u8>>, wanted: Option<&[u8]>) -> bool {
    match found {
        Some(bytes) => is_same(Some(bytes.as_slice()), wanted),
        None => wanted.is_none(),
    }
}

/// Whether a crash with these picks leaves this of the name.
fn leaves(
    alloc: Global,
    store: &MemStore,
    name: &str,
    picks: &[(&str, Pick<'_>)],
    wanted: Option<&[u8]>,
) -> Result<bool, StoreError> {
    match left(alloc, store, name, picks)? {
        Some(found) => Ok(is_content(&found, wanted)),
        None => Ok(false),
    }
}

fn refuses(
    alloc: Global,
    store: &MemStore,
    name: &str,
    pick: Pick<'_>,
) -> Result<bool, StoreError> {
    Ok(left(alloc, store, name, &[(name, pick)])?.is_none())
}
