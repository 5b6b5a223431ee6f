// Sealed memtables, the history of super versions, and which of them maintenance forgets.
use crate::samples::{add, filled};
use lsm_state::{
    Error, Fault, MemStore, Memtable, MemtableId, SealedMemtables, SeqNo, Store, SuperVersion,
    SuperVersions, Version, VersionId,
};
use std::alloc::Global;

// ---- sealed memtables

/// Whether ids are listed as they were added, and all but one that is removed.
fn lists_added(alloc: Global) -> Result<bool, Error> {
    let list = SealedMemtables::new(alloc).add(3)?.add(1)?.add(2)?;
    let rest = list.remove(1)?.copy()?;
    Ok(list.as_slice() == [3, 1, 2].as_slice() && rest.as_slice() == [3, 2].as_slice())
}

#[test]
fn lists_sealed_memtables(rt: HostRuntime) {
    assert!(rt; matches!(lists_added(rt.alloc()), Ok(true)));
}

// ---- the history

/// A change of a history of super versions.
enum Change {
    /// A super version of this active memtable, of a version of this id, under this number.
    Append(MemtableId, VersionId, SeqNo),
    /// The latest one with another active memtable, under this number.
    Copied(MemtableId, SeqNo),
    /// The active memtable of the latest one is sealed, for this one.
    Rotate(MemtableId),
    /// In place of the latest one a super version of this active memtable, under this number.
    Replace(MemtableId, SeqNo),
}

fn super_version(alloc: Global, active: MemtableId, id: VersionId, seqno: SeqNo) -> SuperVersion {
    SuperVersion {
        active_memtable: active,
        sealed_memtables: SealedMemtables::new(alloc),
        version: Version::new(alloc, id),
        seqno,
    }
}

fn append_copied(
    history: &mut SuperVersions,
    active: MemtableId,
    seqno: SeqNo,
) -> Result<(), Error> {
    let copied = history.latest_version().copy()?;
    history.append_version(SuperVersion {
        active_memtable: active,
        seqno,
        ..copied
    })
}

fn make(alloc: Global, history: &mut SuperVersions, change: &Change) -> Result<(), Error> {
    match change {
        Change::Append(active, id, seqno) => {
            history.append_version(super_version(alloc, *active, *id, *seqno))
        }
        Change::Copied(active, seqno) => append_copied(history, *active, *seqno),
        Change::Rotate(id) => history.rotate_latest(*id),
        Change::Replace(active, seqno) => {
            history.replace_latest_version(super_version(alloc, *active, 0, *seqno));
            Ok(())
        }
    }
}

fn history(alloc: Global, changes: &[Change]) -> Result<SuperVersions, Error> {
    let mut history = SuperVersions::new(alloc, Version::new(alloc, 0));
    for step in changes {
        make(alloc, &mut history, step)?;
    }
    Ok(history)
}

/// Changes, how many super versions there are then, the sizes of those of the memtables 0, 1 and 2 that they name, each of
/// 49 bytes, and which memtable is active at a snapshot: none where that is too old.
type History = (
    &'static [Change],
    usize,
    u64,
    &'static [(SeqNo, Option<MemtableId>)],
);

const HISTORIES: [History; 5] = [
    (&[], 1, 49, &[(0, Some(0))]),
    (
        &[Change::Append(2, 0, 1)],
        2,
        98,
        &[(1, Some(0)), (2, Some(2))],
    ),
    // A snapshot reads what was installed before it.
    (
        &[Change::Append(1, 0, 5), Change::Copied(2, 9)],
        3,
        147,
        &[
            (0, Some(0)),
            (1, Some(0)),
            (5, Some(0)),
            (6, Some(1)),
            (9, Some(1)),
            (10, Some(2)),
        ],
    ),
    // Numbers that fall back are found.
    (
        &[
            Change::Append(1, 0, 5),
            Change::Copied(2, 9),
            Change::Append(3, 0, 2),
            Change::Rotate(4),
            Change::Append(5, 0, 7),
        ],
        5,
        147,
        &[
            (0, Some(0)),
            (2, Some(0)),
            (3, Some(4)),
            (7, Some(4)),
            (8, Some(5)),
            (10, Some(5)),
        ],
    ),
    // A snapshot below all is too old.
    (&[Change::Replace(1, 5)], 1, 49, &[(5, None), (0, Some(1))]),
];

fn reads(history: &SuperVersions, snapshot: SeqNo, active: Option<MemtableId>) -> bool {
    match history.get_version_for_snapshot(snapshot) {
        Ok(read) => Some(read.active_memtable) == active,
        Err(Error::SnapshotTooOld) => active.is_none(),
        Err(_) => false,
    }
}

/// Memtables 0, 1 and 2, each with a tombstone of 1 + 48 bytes.
fn three(alloc: Global) -> Vec<Memtable> {
    let mut memtables = Vec::new(alloc);
    for id in [0, 1, 2] {
        add(&mut memtables, filled(alloc, id, &[("a", None, 0)]));
    }
    memtables
}

fn is_right(alloc: Global, case: &History) -> Result<bool, Error> {
    let history = history(alloc, case.0)?;
    let memtables = three(alloc);
    let mut right = history.len() == case.1 && history.memtable_size_sum(&memtables) == case.2;
    for (snapshot, active) in case.3 {
        right = right && reads(&history, *snapshot, *active);
    }
    drop(memtables);
    drop(history);
    Ok(right)
}

#[test]
fn a_snapshot_reads_what_was_installed_before_it(rt: HostRuntime) {
    for (place, case) in HISTORIES.iter().enumerate() {
        assert!(rt;
            matches!(is_right(rt.alloc(), case), Ok(true)),
            "row {place}"
        );
    }
}

// ---- maintenance

/// Changes, a watermark, the files that there are, the call from which on the store fails, or `NEVER`, how many super
/// versions are left, and which files are and aren't.
type Forgetting = (
    &'static [Change],
    SeqNo,
    &'static [&'static str],
    u64,
    usize,
    (&'static [&'static str], &'static [&'static str]),
);

const NEVER: u64 = u64::MAX;

const TWO: [Change; 2] = [Change::Append(0, 1, 1), Change::Append(0, 2, 2)];

const FILES: [&str; 3] = ["v0", "v1", "v2"];

const FORGETTING: [Forgetting; 7] = [
    (&TWO, 0, &[], NEVER, 3, (&[], &[])),
    (&TWO, 3, &[], NEVER, 1, (&[], &[])),
    (
        &[
            Change::Append(0, 1, 1),
            Change::Append(0, 2, 2),
            Change::Append(0, 3, 8),
        ],
        3,
        &[],
        NEVER,
        2,
        (&[], &[]),
    ),
    (&[Change::Append(0, 1, 8)], 3, &[], NEVER, 2, (&[], &[])),
    (&[Change::Append(0, 1, 2)], 3, &[], NEVER, 1, (&[], &[])),
    // Files of forgotten versions go.
    (&TWO, 3, &FILES, NEVER, 1, (&["v2"], &["v0", "v1"])),
    // What isn't removed is kept.
    (&TWO, 3, &FILES, 2, 2, (&["v1", "v2"], &["v0"])),
];

fn put(store: &mut MemStore, names: &[&str]) -> bool {
    let mut done = true;
    for name in names {
        done = done && store.write(name, b"a").is_ok();
    }
    done
}

/// Whether each of these names has a file, or none has.
fn have(alloc: Global, store: &mut MemStore, names: &[&str], there: bool) -> bool {
    let mut right = true;
    for name in names {
        right = right
            && match store.read(alloc, name) {
                Ok(found) => found.is_some() == there,
                Err(_) => false,
            };
    }
    right
}

/// Whether maintenance fails just where the store does, and leaves so many super versions.
fn maintains(
    history: &mut SuperVersions,
    store: &mut MemStore,
    watermark: SeqNo,
    call: u64,
    len: usize,
) -> bool {
    store.fail(call, Fault::FromHere);
    let right = match history.maintenance(store, watermark) {
        Ok(()) => call == NEVER,
        Err(Error::Store) => call != NEVER,
        Err(_) => false,
    };
    right && history.len() == len
}

fn forgets(alloc: Global, case: &Forgetting) -> Result<bool, Error> {
    let mut history = history(alloc, case.0)?;
    let mut store = MemStore::new(alloc);
    let mut right = put(&mut store, case.2)
        && maintains(&mut history, &mut store, case.1, case.3, case.4);
    store.fail(NEVER, Fault::Once);
    right = right && have(alloc, &mut store, case.5.0, true);
    right = right && have(alloc, &mut store, case.5.1, false);
    drop(store);
    drop(history);
    Ok(right)
}

#[test]
fn keeps_what_a_watermark_needs(rt: HostRuntime) {
    for (place, case) in FORGETTING.iter().enumerate() {
        assert!(rt;
            matches!(forgets(rt.alloc(), case), Ok(true)),
            "row {place}"
        );
    }
}
