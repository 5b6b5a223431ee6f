// What a snapshot reads, and the history of it.
ghost use Rattle.std.specs.Prelude.{◌≡◌, ℕ, List, ◌+◌, ◌-◌, ◌<◌, ◌∷◌, ◌↔◌, [], None, length, IfOk, IfErr, OnOk, OnErr, IsErrOf, option_copied, nat_lt, true};
ghost use Rattle.std.specs.List.{find, list_any};
ghost use Rattle.lsm_parts.specs.History.{found_version, first_version, oldest, versions_of, names, named_size, rotated, AreLaid, NumbersFall};
ghost use Rattle.lsm_parts.specs.Maintenance.{needed, needed_of, Forgets, AreGone, KeepsNewer, KeepsVersions};
ghost use Rattle.lsm_manifest.specs.Names.{version_name};
ghost use Rattle.lsm_commit.specs.Stored.{CountsFaults};
ghost use Rattle.lsm_commit.specs.Foreign.{Passes};

use crate::{Error, Memtable, SealedMemtables, Version, VersionId, seqno_filter};
use lsm_below::{MemtableId, SeqNo};
use lsm_commit::{crashes_leave_versions, remove_version};
use lsm_store::Store;
use std::alloc::Global;
use std::collections::VecDeque;
use std::marker::Model;

/// What a snapshot reads: memtables, by id, and a version of tables.
#[derive(Drop)]
pub struct SuperVersion {
    /// The memtable that is written to.
    pub active_memtable: MemtableId,
    /// The memtables that were sealed and not flushed yet.
    pub sealed_memtables: SealedMemtables,
    /// The tables.
    pub version: Version,
    /// The sequence number under which it was installed.
    pub seqno: SeqNo,
}

impl SuperVersion {
    /// Whether it reads this memtable, as the one that is written to or as a sealed one.
    pub fn names(&self, id: MemtableId) -> bool
        ensures { result ≡ names id self.now }
    {
        id == self.active_memtable || self.sealed_memtables.contains(id)
    }

    /// A copy. Refused only for want of memory.
    pub fn copy(&self) -> Result<SuperVersion, Error>
        ensures ok { IfOk result (λ copy. copy ≡ self.now) }
        ensures memory { IfErr result (λ e. e ≡ Error.OutOfMemory) }
    {
        Ok(SuperVersion {
            active_memtable: self.active_memtable,
            sealed_memtables: self.sealed_memtables.copy()?,
            version: self.version.copy(self.sealed_memtables.allocator())?,
            seqno: self.seqno,
        })
    }
}

/// The history of super versions. There is always at least one.
///
/// A snapshot is looked up in logarithmic time, unless a super version was installed under a lesser sequence number
/// than the one before it: then it takes linear time.
///
/// # Examples
///
/// ```text
/// let mut history = SuperVersions::new(alloc, Version::new(alloc, 0));
/// history.append_version(version)?;
/// let read = history.get_version_for_snapshot(snapshot)?;
/// ```
#[derive(Drop)]
pub struct SuperVersions {
    latest: SuperVersion,
    /// The newest one first.
    older: VecDeque<SuperVersion>,
    /// Whether each sequence number is at most that of the next newer super version.
    in_order: bool,
}

impl Model for SuperVersions {
    ghost use Rattle.std.specs.Prelude.{◌≡◌, ◌∷◌, true};
    ghost use Rattle.lsm_parts.specs.History.{SeenHistory, AreLaid, NumbersFall};

    ghost Value = { SeenHistory };

    ghost view = { λ h. record { latest = h.latest; older = h.older.items } };

    ghost invariant = { λ h. AreLaid (h.latest ∷ h.older.items) × (h.in_order ≡ true → NumbersFall h.latest.seqno h.older.items) };
}

/// The first of these that is numbered below a snapshot, found by bisection.
fn bisect(older: &VecDeque<SuperVersion>, snapshot: SeqNo) -> Option<&SuperVersion>
    requires { (n : ℕ) × NumbersFall n older.now.items }
    ensures { option_copied result ≡ find (λ sv. nat_lt sv.seqno snapshot) older.now.items }
{
    let at = older.partition_point(|version| !seqno_filter(version.seqno, snapshot));
    older.get(at)
}

/// The first of these that is numbered below a snapshot, whatever their order.
fn walk(older: &VecDeque<SuperVersion>, snapshot: SeqNo) -> Option<&SuperVersion>
    ensures { option_copied result ≡ find (λ sv. nat_lt sv.seqno snapshot) older.now.items }
{
    older
        .iter()
        .find(|version| seqno_filter(version.seqno, snapshot))
}

/// How many of these are needed at a watermark, found by bisection.
fn bisect_needed(older: &VecDeque<SuperVersion>, watermark: SeqNo) -> usize
    requires { (n : ℕ) × NumbersFall n older.now.items }
    ensures { result ≡ needed_of watermark older.now.items }
{
    let at = older.partition_point(|version| !seqno_filter(version.seqno, watermark));
    if at < older.len() { at + 1 } else { at }
}

/// How many of these are needed at a watermark, whatever their order.
fn walk_needed(older: &VecDeque<SuperVersion>, watermark: SeqNo) -> usize
    ensures { result ≡ needed_of watermark older.now.items }
{
    for at in 0..older.len() {
        if seqno_filter(older[at].seqno, watermark) {
            return at + 1;
        }
    }
    older.len()
}

/// Removes the file of a version, unless its id isn't below this one: then another super version may need it.
fn remove_older<S: Store>(store: &mut S, id: VersionId, latest: VersionId) -> Result<(), Error>
    ensures gone { S.tells → id < latest → OnOk result ((S.world store.new).gives (version_name id) ≡ None) }
    ensures absent { S.tells → OnOk result ((n : List ℕ) → (S.world store.old).gives n ≡ None → (S.world store.new).gives n ≡ None) }
    ensures keeps { S.tells → KeepsNewer latest (S.world store.old) (S.world store.new) }
    ensures stored { S.tells → KeepsVersions latest (S.world store.old) (S.world store.new) }
    ensures passes { S.tells → Passes (S.world store.old) (S.world store.new) }
    ensures only { IfErr result (λ e. e ≡ Error.Store) }
    ensures counts { CountsFaults (S.world store.old) (S.world store.new) result }
{
    crashes_leave_versions(store);
    if id < latest {
        return remove_version(store, id);
    }
    Ok(())
}

/// Whether a super version with this sequence number may come before these.
fn is_next(seqno: SeqNo, older: &VecDeque<SuperVersion>) -> bool
    ensures { result ≡ true → (n : ℕ) → NumbersFall n older.now.items → NumbersFall seqno older.now.items }
{
    match older.front() {
        Some(version) => version.seqno <= seqno,
        None => true,
    }
}

impl SuperVersions {
    /// A single super version, numbered 0, with memtable 0 over a version.
    pub fn new(alloc: Global, version: Version) -> SuperVersions
        ensures { result ≡ record { latest = first_version version; older = [] } }
    {
        version.facts();
        SuperVersions {
            latest: SuperVersion {
                active_memtable: 0,
                sealed_memtables: SealedMemtables::new(alloc),
                version,
                seqno: 0,
            },
            older: VecDeque::new(alloc),
            in_order: true,
        }
    }

    /// What every history meets: each version is laid out in its seven levels.
    pub fn facts(&self)
        ensures { AreLaid (versions_of self.now) }
    {
        let _ = &self.older;
    }

    /// How many super versions there are.
    pub fn len(&self) -> usize
        ensures { result ≡ length (versions_of self.now) }
    {
        self.older.len() + 1
    }

    /// How many there are beside the latest one.
    pub fn free_list_len(&self) -> usize
        ensures { result ≡ length self.now.older }
    {
        self.older.len()
    }

    /// Installs a super version before the others. Refused only for want of memory, and then nothing changes.
    pub fn append_version(&mut self, version: SuperVersion) -> Result<(), Error>
        ensures ok { OnOk result (self.new ≡ record { latest = version; older = versions_of self.old }) }
        ensures err { OnErr result (self.new ≡ self.old) }
        ensures memory { IfErr result (λ e. e ≡ Error.OutOfMemory) }
    {
        self.older.try_reserve(1)?;
        version.version.facts();
        self.in_order = self.in_order && self.latest.seqno <= version.seqno;
        let replaced = std::mem::replace(&mut self.latest, version);
        self.older.push_front(replaced)?;
        Ok(())
    }

    /// Puts a super version in place of the latest one.
    pub fn replace_latest_version(&mut self, version: SuperVersion)
        ensures { self.new ≡ record { latest = version; older = self.old.older } }
    {
        version.version.facts();
        self.in_order = self.in_order && is_next(version.seqno, &self.older);
        self.latest = version;
    }

    /// Seals the active memtable of the latest super version in favour of another one; the super version
    /// keeps its number. Refused only for want of memory, and then nothing changes.
    /// It takes constant time, on average.
    pub fn rotate_latest(&mut self, id: MemtableId) -> Result<(), Error>
        ensures ok { OnOk result (self.new ≡ record { latest = rotated id self.old.latest; older = self.old.older }) }
        ensures err { OnErr result (self.new ≡ self.old) }
        ensures memory { IfErr result (λ e. e ≡ Error.OutOfMemory) }
    {
        self.latest
            .sealed_memtables
            .push(self.latest.active_memtable)?;
        self.latest.active_memtable = id;
        Ok(())
    }

    /// Undoes `rotate_latest`: the memtable that was sealed last is the active one again.
    pub fn rotate_back(&mut self)
        requires { (id : ℕ) × (before : SuperVersion) × (self.old.latest ≡ rotated id before) }
        ensures { (id : ℕ) (before : SuperVersion) → self.old.latest ≡ rotated id before → self.new ≡ record { latest = before; older = self.old.older } }
    {
        if let Some(id) = self.latest.sealed_memtables.pop() {
            self.latest.active_memtable = id;
        }
    }

    /// Takes the latest super version away again, for the one before it.
    pub fn take_back(&mut self) -> SuperVersion
        requires { 0 < length self.old.older }
        ensures taken { result ≡ self.old.latest }
        ensures left { versions_of self.new ≡ self.old.older }
    {
        let Some(before) = self.older.pop_front() else {
            unreachable!()
        };
        std::mem::replace(&mut self.latest, before)
    }

    fn needed(&self, watermark: SeqNo) -> usize
        ensures { result ≡ needed watermark self.now }
    {
        if seqno_filter(self.latest.seqno, watermark) {
            return 0;
        }
        if self.in_order {
            bisect_needed(&self.older, watermark)
        } else {
            walk_needed(&self.older, watermark)
        }
    }

    /// Forgets the super versions that no snapshot from the watermark on reads: all before the newest one that is numbered
    /// below the watermark; none for watermark 0. The oldest goes first, and each after the file of its version, unless
    /// that version's id isn't below the latest one's. It is found by bisection how many go, and each costs a store call.
    ///
    /// # Errors
    ///
    /// `Store` where a file wasn't removed: the history keeps its super version and the newer ones.
    pub fn maintenance<S: Store>(&mut self, store: &mut S, watermark: SeqNo) -> Result<(), Error>
        ensures forgets { Forgets watermark result self.old self.new }
        // The files.
        ensures gone { S.tells → OnOk result (AreGone (S.world store.new) self.old self.new) }
        ensures keeps { S.tells → KeepsNewer self.old.latest.version.id (S.world store.old) (S.world store.new) }
        ensures stored { S.tells → KeepsVersions self.old.latest.version.id (S.world store.old) (S.world store.new) }
        // Names that are none of the tree's are as they were.
        ensures passes { S.tells → Passes (S.world store.old) (S.world store.new) }
        // Refusals.
        ensures only { IfErr result (λ e. e ≡ Error.Store) }
        ensures counts { CountsFaults (S.world store.old) (S.world store.new) result }
    {
        crashes_leave_versions(store);
        let needed = self.needed(watermark);
        'oldest: while self.older.len() > needed {
            let Some(oldest) = self.older.back() else {
                return Ok(());
            };
            remove_older(store, oldest.version.id(), self.latest.version.id())?;
            let _ = self.older.pop_back();
        }
        Ok(())
    }

    /// The newest super version.
    pub fn latest_version(&self) -> &SuperVersion
        ensures { result.now ≡ self.now.latest }
    {
        &self.latest
    }

    /// The oldest super version.
    pub fn oldest_version(&self) -> &SuperVersion
        ensures { result.now ≡ oldest self.now.latest self.now.older }
    {
        match self.older.back() {
            Some(version) => version,
            None => &self.latest,
        }
    }

    /// The super version that a snapshot reads: at 0 the oldest, else the newest one numbered below it.
    /// Where there is none it is `SnapshotTooOld`, and only there.
    pub fn get_version_for_snapshot(&self, snapshot: SeqNo) -> Result<&SuperVersion, Error>
        ensures ok { IfOk result (λ sv. found_version snapshot self.now ≡ Some sv.now) }
        ensures too_old { IsErrOf result Error.SnapshotTooOld ↔ (found_version snapshot self.now ≡ None) }
        ensures only { IfErr result (λ e. e ≡ Error.SnapshotTooOld) }
    {
        match self.find_version(snapshot) {
            Some(version) => Ok(version),
            None => Err(Error::SnapshotTooOld),
        }
    }

    /// The bytes that these memtables count, of those that a super version names, up to 2^64 - 1.
    pub fn memtable_size_sum(&self, memtables: &[Memtable]) -> u64
        ensures { result ≡ named_size self.now memtables.now }
    {
        memtables
            .iter()
            .filter(|memtable| self.names(memtable.id()))
            .fold(0, |sum: u64, memtable| sum.saturating_add(memtable.size()))
    }

    /// Whether a super version names this memtable. The cost is linear in the super versions and their sealed memtables.
    pub fn names(&self, id: MemtableId) -> bool
        ensures { result ≡ list_any (names id) (versions_of self.now) }
    {
        self.latest.names(id) || self.older.iter().any(|version| version.names(id))
    }

    fn find_version(&self, snapshot: SeqNo) -> Option<&SuperVersion>
        ensures { option_copied result ≡ found_version snapshot self.now }
    {
        if snapshot == 0 {
            return Some(self.oldest_version());
        }
        if seqno_filter(self.latest.seqno, snapshot) {
            return Some(&self.latest);
        }
        if self.in_order {
            bisect(&self.older, snapshot)
        } else {
            walk(&self.older, snapshot)
        }
    }
}
