// A flush of one table whose store calls are refused, each in each way, and what is left of the files that it wrote.
use crate::looks::get;
use crate::steps::{Tree, open, text, write};
use crate::store::{Refusal, RefusingStore};
use lsm_state::{Error, Fault, FlushJob, Op, SeqNo, Store, WrittenFlush};
use std::alloc::Global;
use std::test::Fail;

/// An opening of a new tree makes so many store calls.
const OPENING: u64 = 5;

/// A call that is never made.
const NONE: u64 = 60;

const NO_MEMORY: Refusal = Refusal::NoMemory;

const ONCE: Refusal = Refusal::Fails(Fault::Once);

const DONE: Refusal = Refusal::Fails(Fault::OnceDone);

const NOTHING: Refusal = Refusal::Fails(Fault::OnceNothing);

const FROM_HERE: Refusal = Refusal::Fails(Fault::FromHere);

/// What a flush answers beside the numbers of errors: it is installed, also with files left, or there is nothing to flush.
const INSTALLED: u8 = 100;

const UNCLEAN: u8 = 101;

const EMPTY: u8 = 102;

/// A new tree with a = x (0), of whose store a call after the opening is refused.
fn open_with_x(alloc: Global, call: u64, refusal: Refusal) -> Result<Tree, Error> {
    let store = RefusingStore::new(alloc, OPENING.saturating_add(call), refusal);
    match open(alloc, 0, store) {
        Ok(mut tree) => match write(alloc, &mut tree, "a", Op::Set(text("x"))) {
            Ok(_) => Ok(tree),
            Err(error) => {
                drop(tree);
                Err(error)
            }
        },
        Err((error, _)) => Err(error),
    }
}

fn flush(tree: &mut Tree, watermark: SeqNo) -> u8 {
    match tree.flush_active_memtable(watermark) {
        Ok((_, Some((_, registered)))) if registered.installed => if registered.cleaned {
            INSTALLED
        } else {
            UNCLEAN
        },
        Ok(_) => EMPTY,
        Err((error, _)) => error.number(),
    }
}

/// What a flush answers, and the counter, the sealed memtables and the older super versions then; and what the next one does.
type Told = (u8, SeqNo, usize, usize, u8);

fn flush_twice(tree: &mut Tree, watermark: SeqNo) -> Told {
    let first = flush(tree, watermark);
    let (next, sealed, older) = (
        tree.seqno().get(),
        tree.sealed_memtable_count(),
        tree.version_free_list_len(),
    );
    (first, next, sealed, older, flush(tree, watermark))
}

fn is_x(tree: &Tree, snapshot: SeqNo) -> bool {
    match get(tree, "a", snapshot) {
        Ok(Some(found)) => found == text("x"),
        _ => false,
    }
}

/// Whether a flush whose call is refused so is told so, and a is x whatever came of it, also at 1 but where the super version
/// of that snapshot is gone.
fn tells(alloc: Global, row: &Refused) -> Result<bool, Error> {
    let (call, refusal, watermark, wanted) = *row;
    let mut tree = open_with_x(alloc, call, refusal)?;
    let told = flush_twice(&mut tree, watermark);
    let is_gone = watermark > 0 && told.3 == 0;
    let right = told == wanted && is_x(&tree, 2) && is_x(&tree, 1) != is_gone;
    drop(tree);
    Ok(right)
}

/// A call of a flush, how it is refused, the watermark, and what is told.
type Refused = (u64, Refusal, SeqNo, Told);

/// A flush writes (1) and syncs (2) its table, writes (3) and syncs (4) `v1`, replaces `current` (5), and removes `v0` (6)
/// where the watermark lets it. Up to 2 no number is used. That a call fails once without effect is tested in
/// `lsm_state_tests`.
const REFUSED: [Refused; 22] = [
    (1, NO_MEMORY, 0, (1, 1, 1, 0, INSTALLED)),
    (2, NO_MEMORY, 0, (1, 1, 1, 0, INSTALLED)),
    (3, NO_MEMORY, 0, (1, 2, 1, 0, INSTALLED)),
    (4, NO_MEMORY, 0, (1, 2, 1, 0, INSTALLED)),
    (5, NO_MEMORY, 0, (1, 2, 1, 0, INSTALLED)),
    // A removal takes no memory.
    (6, NO_MEMORY, 2, (INSTALLED, 2, 0, 0, EMPTY)),
    (1, DONE, 0, (2, 1, 1, 0, INSTALLED)),
    (2, DONE, 0, (2, 1, 1, 0, INSTALLED)),
    (3, DONE, 0, (2, 2, 1, 0, INSTALLED)),
    (4, DONE, 0, (2, 2, 1, 0, INSTALLED)),
    // `CommitUnknown`, and then `Unrecoverable`.
    (5, DONE, 0, (3, 2, 1, 0, 4)),
    (6, DONE, 2, (UNCLEAN, 2, 0, 1, EMPTY)),
    (1, NOTHING, 0, (2, 1, 1, 0, INSTALLED)),
    (2, NOTHING, 0, (2, 1, 1, 0, INSTALLED)),
    (3, NOTHING, 0, (2, 2, 1, 0, INSTALLED)),
    (4, NOTHING, 0, (2, 2, 1, 0, INSTALLED)),
    // `current` is known to be as before.
    (5, NOTHING, 0, (2, 2, 1, 0, INSTALLED)),
    (6, NOTHING, 2, (UNCLEAN, 2, 0, 1, EMPTY)),
    // The next one is refused too.
    (1, FROM_HERE, 0, (2, 1, 1, 0, 2)),
    (3, FROM_HERE, 0, (2, 2, 1, 0, 2)),
    (5, FROM_HERE, 0, (3, 2, 1, 0, 4)),
    (6, FROM_HERE, 2, (UNCLEAN, 2, 0, 1, EMPTY)),
];

#[test]
fn each_call_of_a_flush_is_refused(rt: HostRuntime) -> Result<(), Fail> {
    for (place, row) in REFUSED.iter().enumerate() {
        let told = tells(rt.alloc(), row)?;
        assert!(rt; told, "row {place}");
    }
    Ok(())
}

// ---- files

/// Tables that are written for a job; refused, it is given up.
fn write_merged(tree: &mut Tree, job: FlushJob) -> Result<WrittenFlush, Error> {
    let (error, job) = match job.run(0) {
        Ok(merged) => match tree.flush_to_tables(merged) {
            Ok(written) => return Ok(written),
            Err((error, merged)) => (error, merged.into_job()),
        },
        Err(refused) => refused,
    };
    tree.abandon_flush(job);
    Err(error)
}

/// Tables that are written for all that is sealed, if anything is.
fn write_tables(tree: &mut Tree) -> Result<Option<WrittenFlush>, Error> {
    match tree.begin_flush()? {
        Some(job) => Ok(Some(write_merged(tree, job)?)),
        None => Ok(None),
    }
}

/// What `register_tables` answers, once the counter is at this number.
fn register(tree: &mut Tree, next: SeqNo) -> Result<u8, Error> {
    tree.rotate_memtable()?;
    let Some(written) = write_tables(tree)? else {
        return Ok(EMPTY);
    };
    tree.seqno_mut().set(next);
    Ok(match tree.register_tables(written) {
        Ok(registered) => if registered.installed {
            INSTALLED
        } else {
            EMPTY
        },
        Err(error) => error.number(),
    })
}

/// How many files of tables there are.
fn count_tables(alloc: Global, store: &mut RefusingStore) -> Option<usize> {
    let names = store.list(alloc).ok()?;
    let mut count: usize = 0;
    for name in &names {
        if name.starts_with("tables/") {
            count = count.saturating_add(1);
        }
    }
    Some(count)
}

/// What a current job is answered where a call is refused, or the counter is at this number, and how many files of tables
/// there are then.
fn leaves(
    alloc: Global,
    call: u64,
    refusal: Refusal,
    next: SeqNo,
) -> Result<(u8, Option<usize>), Error> {
    let mut tree = open_with_x(alloc, call, refusal)?;
    let told = register(&mut tree, next);
    let mut store = tree.into_store();
    let count = count_tables(alloc, &mut store);
    drop(store);
    Ok((told?, count))
}

/// A call, how it is refused, the counter, what is answered, and how many files are left. `OutOfNumbers` comes before any call.
const LEFT: [(u64, Refusal, SeqNo, (u8, usize)); 9] = [
    (NONE, ONCE, 1, (INSTALLED, 1)),
    (NONE, ONCE, 9_223_372_036_854_775_808, (9, 0)),
    (3, ONCE, 1, (2, 0)),
    (3, NO_MEMORY, 1, (1, 0)),
    (4, DONE, 1, (2, 0)),
    (4, NO_MEMORY, 1, (1, 0)),
    (5, NOTHING, 1, (2, 0)),
    (5, NO_MEMORY, 1, (1, 0)),
    // The version that names it may be the current one.
    (5, ONCE, 1, (3, 1)),
];

#[test]
fn a_refused_registration_leaves_no_file(rt: HostRuntime) -> Result<(), Fail> {
    for (place, (call, refusal, next, wanted)) in LEFT.iter().enumerate() {
        let (told, files) = leaves(rt.alloc(), *call, *refusal, *next)?;
        assert!(rt; told == wanted.0 && files == Some(wanted.1), "row {place}");
    }
    Ok(())
}
