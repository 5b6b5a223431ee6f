// Three lives in which one store call fails, whichever it is, and crashes that leave of each name what they may: what was
// acknowledged is there.
use crate::trees::opened;
use lsm_logged::Logged;
use lsm_state::{Config, Error, Fault, MemStore, Op, Pick, UserKey};
use std::alloc::{AllocError, Global};
use std::test::Fail;

const FAULTS: [Fault; 4] = [
    Fault::Once,
    Fault::OnceDone,
    Fault::OnceNothing,
    Fault::FromHere,
];

/// More calls than the three lives make.
const CALLS: u64 = 64;

/// Names of which a crash may leave what was there before.
const NAMES: [&str; 6] = ["log/0", "log/2", "log/4", "current", "v0", "v1"];

/// As many sets of these names as there are.
const SETS: u32 = 64;

/// What a key is to show once the tree is opened again.
#[derive(Clone, Copy, Debug)]
enum Known {
    /// Its value: the batch was acknowledged.
    There,
    /// Its value or none: the outcome is unknown.
    Doubtful,
    /// None.
    Gone,
}

impl Known {
    /// What is known of it after a clear that answered so.
    fn cleared(self, told: &Result<u64, Error>) -> Known {
        match (self, told) {
            (_, Ok(_) | Err(Error::AfterCommit)) => Known::Gone,
            (Known::There | Known::Doubtful, Err(Error::CommitUnknown)) => Known::Doubtful,
            (known, Err(_)) => known,
        }
    }

    fn allows(self, is_there: bool) -> bool {
        match self {
            Known::There => is_there,
            Known::Doubtful => true,
            Known::Gone => !is_there,
        }
    }
}

/// What is known of the keys a, b and c.
#[derive(Clone, Copy, Debug)]
struct Keys {
    a: Known,
    b: Known,
    c: Known,
}

const NOTHING: Keys = Keys {
    a: Known::Gone,
    b: Known::Gone,
    c: Known::Gone,
};

fn write(alloc: Global, tree: &mut Logged, key: &'static [u8]) -> Known {
    let op = Op::Set(UserKey::from_static(b"v"));
    let Ok(ops) = vec![in alloc; (UserKey::from_static(key), op)] else {
        return Known::Gone;
    };
    match tree.write(ops) {
        Ok(_) => Known::There,
        Err(Error::CommitUnknown) => Known::Doubtful,
        Err(_) => Known::Gone,
    }
}

/// A life over a store: a is written and flushed.
fn first_life(alloc: Global, store: MemStore) -> (MemStore, Keys) {
    match Logged::open(alloc, Config::new(0, 0, 0), store) {
        Ok(mut tree) => {
            let a = write(alloc, &mut tree, b"a");
            let _ = tree.flush_active_memtable(0);
            (tree.into_store(), Keys { a, ..NOTHING })
        }
        Err((_, store)) => (store, NOTHING),
    }
}

/// The next one: b is written, and all is cleared.
fn second_life(alloc: Global, store: MemStore, known: Keys) -> (MemStore, Keys) {
    match Logged::open(alloc, Config::new(0, 0, 0), store) {
        Ok(mut tree) => {
            let b = write(alloc, &mut tree, b"b");
            let told = tree.clear();
            let known = Keys {
                a: known.a.cleared(&told),
                b: b.cleared(&told),
                c: Known::Gone,
            };
            (tree.into_store(), known)
        }
        Err((_, store)) => (store, known),
    }
}

/// The last one: c is written.
fn third_life(alloc: Global, store: MemStore, known: Keys) -> (MemStore, Keys) {
    match Logged::open(alloc, Config::new(0, 0, 0), store) {
        Ok(mut tree) => {
            let c = write(alloc, &mut tree, b"c");
            (tree.into_store(), Keys { c, ..known })
        }
        Err((_, store)) => (store, known),
    }
}

/// The three, one after the other, where this call of the store fails so.
fn three_lives(alloc: Global, call: u64, fault: Fault) -> (MemStore, Keys) {
    let mut store = MemStore::new(alloc);
    store.fail(call, fault);
    let (store, known) = first_life(alloc, store);
    let (store, known) = second_life(alloc, store, known);
    third_life(alloc, store, known)
}

/// The names of a set are left as they were before the last call that changed them.
fn picks_of(alloc: Global, set: u32) -> Result<Vec<(&'static str, Pick<'static>)>, AllocError> {
    let mut picks = Vec::new(alloc);
    let mut rest = set;
    for name in NAMES {
        if rest % 2 == 1 {
            picks.push((name, Pick::Before))?;
        }
        rest /= 2;
    }
    Ok(picks)
}

fn agrees(tree: &Logged, key: &[u8], known: Known) -> Result<bool, Error> {
    let snapshot = tree.visible_seqno().get();
    Ok(known.allows(tree.contains_key(key, snapshot)?))
}

/// Whether each key shows what it is to show.
fn agree(tree: &Logged, known: Keys) -> Result<bool, Error> {
    let (a, b) = (agrees(tree, b"a", known.a)?, agrees(tree, b"b", known.b)?);
    Ok(a && b && agrees(tree, b"c", known.c)?)
}

/// The store that such a crash leaves, if it can leave that.
fn left_of(alloc: Global, store: &MemStore, set: u32) -> Result<Option<MemStore>, AllocError> {
    let picks = picks_of(alloc, set)?;
    let left = store.crash(&picks);
    drop(picks);
    left
}

/// Whether what a crash leaves so is opened, and shows what it is to show. Also where it can't leave that.
fn is_well(alloc: Global, store: &MemStore, known: Keys, set: u32) -> Result<bool, Error> {
    let Some(left) = left_of(alloc, store, set)? else {
        return Ok(true);
    };
    let tree = opened(alloc, left)?;
    let told = agree(&tree, known);
    drop(tree);
    told
}

/// Whether each crash leaves what it is to leave.
fn are_well(alloc: Global, store: &MemStore, known: Keys) -> Result<bool, Error> {
    for set in 0..SETS {
        if !is_well(alloc, store, known, set)? {
            return Ok(false);
        }
    }
    Ok(true)
}

/// The same after the three lives, where this call of the store fails so.
fn all_is_well(alloc: Global, call: u64, fault: Fault) -> Result<bool, Error> {
    let (store, known) = three_lives(alloc, call, fault);
    let told = are_well(alloc, &store, known);
    drop(store);
    told
}

#[test]
fn any_fault_keeps_what_is_acknowledged(rt: HostRuntime) -> Result<(), Fail> {
    for call in 1..CALLS {
        for fault in FAULTS {
            let well = all_is_well(rt.alloc(), call, fault)?;
            assert!(rt; well, "call {call}");
        }
    }
    Ok(())
}
