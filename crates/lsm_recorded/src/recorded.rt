// A tree with the journal of its calls.
ghost use Rattle.std.specs.Prelude.{◌≡◌, ◌<◌, ◌≤◌, [], None, Ok, IfOk, IfErr, IfSome, OnErr, IsErrOf, ◌⊎◌};
ghost use Rattle.lsm_below.specs.Entries.{plain};
ghost use Rattle.lsm_model.specs.Beginnings.{shown_by};
ghost use Rattle.lsm_model.specs.Journal.{Agrees};
ghost use Rattle.lsm_model.specs.Ops.{op_entry};
ghost use Rattle.lsm_model.specs.declared.op.Op.TheVariants.{Set, Del, Weak};
ghost use Rattle.lsm_versions.specs.Levels.{placed_of};
ghost use Rattle.lsm_commit.specs.Foreign.{AtRest};
ghost use Rattle.lsm_parts.specs.Held.{first_entries};
ghost use Rattle.lsm_state.specs.Calls.{Gives, IsGetStep, RefusesRead, Rotates};
ghost use Rattle.lsm_state.specs.Commits.{Upholds};
ghost use Rattle.lsm_recorded.specs.Calls.{NotesWrite, NotesBatch, NotesGet};
ghost use Rattle.lsm_recorded.specs.Closing.{ListTogether};

use crate::closed::Closed;
use crate::closing::list_together;
use crate::marked_key::MarkedKey;
use crate::marks::{Mark, share_marked};
use crate::pass::{Pass, note_entry};
use crate::shared_entry::{SharedEntry, copy_list};
use crate::writes::{append_marked, write_marked};
use lsm_below::{InternalValue, MemtableId, SeqNo, UserKey, UserValue, ValueType};
use lsm_commit::crashes_leave_versions;
use lsm_journal::read_entry;
use lsm_model::{Op, reads_are_sound};
use lsm_parts::{Error, LIMIT, SequenceNumberCounter, Version};
use lsm_state::TreeState;
use lsm_store::{MemStore, Store};
use std::alloc::{AllocError, Global};
use std::collections::BTreeMap;
use std::marker::Model;

/// A tree with the journal of its calls, a history in memory that its answers are proved against. It is no
/// write-ahead log: nothing of it is stored.
///
/// The journal grows with every write and every answered read and is never cut: by an entry of some 150 bytes, which it
/// shares with the pass, and for a range by a list of its pairs. Keys and values share their bytes with the tree, also the
/// key of a `get`, if it was ever written; those of a batch of several are its caller's. A write costs what the tree's own
/// costs and a look-up in the marks of all keys written so far, which is logarithmic in their number; a batch takes one for
/// each of its writes, a `get` one where it finds no value, a range none.
///
/// # Examples
///
/// ```text
/// let opened = Recorded::open_unlogged(alloc, Config::new(0, 0, 0), MemStore::new(alloc));
/// let mut tree = opened.map_err(|refused| refused.0)?;
/// let mut pass = Pass::new(alloc);
/// let number = tree.write(&mut pass, vec![in alloc; (key, Op::Set(value))]?)?;
/// let found = tree.get(&mut pass, b"a", number + 1)?;
/// ```
///
/// Every write is in order: its sequence number is below the counter, not below an install or a clear, and above each
/// earlier one of its key; a weakly removed key has at most one value.
///
/// On a tree that was opened with tables, numbers and values of their entries count as earlier ones, and a snapshot isn't
/// below the least sequence number above them all: what they show is the map that the replay starts from.
///
/// Its type keeps three facts: each read of the journal answers what the replay of the journal before it
/// does; what each snapshot sees is the replay at it; and a snapshot that is below no watermark is answered.
#[derive(Drop)]
pub struct Recorded<S: Store = MemStore> {
    alloc: Global,
    core: TreeState<S>,
    journal: Vec<SharedEntry>,
    marks: BTreeMap<MarkedKey, Mark>,
    /// The greatest sequence number of an install or a clear.
    floor: SeqNo,
    /// The least sequence number above all that were opened.
    least: SeqNo,
    /// The version that was opened, which shares its tables.
    opened: Version,
}

impl<S: Store> Model for Recorded<S> {
    ghost use Rattle.lsm_versions.specs.Levels.{placed_of};
    ghost use Rattle.lsm_recorded.specs.Recorded.{SeenRecorded, IsRecorded};

    ghost Value = { SeenRecorded S };

    ghost view = { λ r. record { tree = r.core; journal = r.journal.items; opened = placed_of r.opened.levels } };

    ghost invariant = { λ r. IsRecorded (placed_of r.opened.levels) r.least r.marks r.floor r.core.core r.journal.items };
}

/// What a get finds, as `TreeState::get`, after its key, which shares the bytes of the entry that is found, or else those of
/// the key that is marked: so a journal keeps no bytes of its own for each read of a key that was ever written.
fn find<S: Store>(
    alloc: Global,
    core: &TreeState<S>,
    marks: &BTreeMap<MarkedKey, Mark>,
    key: &[u8],
    snapshot: SeqNo,
) -> Result<(UserKey, Option<UserValue>), Error>
    ensures key { IfOk result (λ found. found.0 ≡ key.now) }
    ensures value { IfOk result (λ found. Gives core.now.core key.now snapshot found.1) }
    ensures step { IfOk result (λ found. IsGetStep core.now.core key.now snapshot found.1) }
    ensures refuses { RefusesRead core.now.core snapshot result }
{
    match core.get_internal_entry(key, snapshot)? {
        Some(entry) => Ok((entry.key.user_key, Some(entry.value))),
        None => {
            let own = UserKey::copy_from_slice(alloc, key)?;
            Ok((share_marked(marks, own)?, None))
        }
    }
}

impl<S: Store> Recorded<S> {
    ghost use Rattle.lsm_recorded.specs.Recorded.{IsKeptRecorded, Stays};

    /// The facts that the type keeps: every super version is ordered, each view equals the replay,
    /// kept snapshots are answered, and each read of the journal agrees with the replay before it;
    /// the journal is in order, and the counter stands above each of its sequence numbers; the watermark of each open merge is
    /// marked. Of the tree holds what `TreeState::facts` tells.
    pub fn facts(&self)
        ensures { IsKeptRecorded self.now }
    {
        self.core.facts();
    }

    /// The journal of the calls so far.
    pub fn journal(&self) -> &[SharedEntry]
        ensures { result.now ≡ self.now.journal }
    {
        &self.journal
    }

    /// The counter of sequence numbers.
    pub fn seqno(&self) -> &SequenceNumberCounter
        ensures { result.now ≡ self.now.tree.core.seqno }
    {
        self.core.seqno()
    }

    /// The tree, to be read: what is read so is noted nowhere.
    pub fn tree(&self) -> &TreeState<S>
        ensures { result.now ≡ self.now.tree }
    {
        &self.core
    }

    /// The visible counter: the snapshot that sees every batch so far.
    pub fn visible_seqno(&self) -> &SequenceNumberCounter
        ensures { result.now ≡ self.now.tree.core.visible_seqno }
    {
        self.core.visible_seqno()
    }

    /// The value of a key at a snapshot, as `TreeState::get`; and the read is appended to the journal and the pass.
    /// `OutOfOrder`, before all else, exactly where the snapshot is below a sequence number that was opened, or at it.
    pub fn get(
        &mut self,
        pass: &mut Pass,
        key: &[u8],
        snapshot: SeqNo,
    ) -> Result<Option<UserValue>, Error>
        ensures { NotesGet key.now snapshot result self.old self.new pass.old pass.new }
    {
        reads_are_sound();
        if snapshot < self.least {
            return Err(Error::OutOfOrder);
        }
        let (shared, value) = find(self.alloc, &self.core, &self.marks, key, snapshot)?;
        let entry = read_entry(snapshot, shared, &value)?;
        note_entry(self.alloc, &mut self.journal, &mut pass.entries, entry)?;
        Ok(value)
    }

    /// Seals the active memtable, as `TreeState::rotate_memtable`; None exactly where it is empty. The journal and the
    /// pass stay, and so does what each snapshot sees.
    pub fn rotate_memtable(&mut self, pass: &mut Pass) -> Result<Option<MemtableId>, Error>
        ensures core { IfOk result (λ r. Rotates self.old.tree.core r self.new.tree.core) }
        ensures journal { self.new.journal ≡ self.old.journal }
        ensures pass { pass.new ≡ pass.old }
        ensures views { Stays self.old.tree.core self.new.tree.core }
        ensures store { self.new.tree.store ≡ self.old.tree.store }
        ensures err { OnErr result (self.new ≡ self.old) }
        ensures opened { self.new.opened ≡ self.old.opened }
        ensures out_of_numbers { IsErrOf result Error.OutOfNumbers → LIMIT ≤ self.old.tree.core.next_memtable }
        ensures told { LIMIT ≤ self.old.tree.core.next_memtable → IfOk result (λ _. first_entries self.old.tree.core.memtables ≡ []) }
        ensures empty { first_entries self.old.tree.core.memtables ≡ [] → result ≡ Ok None }
        ensures only { IfErr result (λ e. (e ≡ Error.OutOfNumbers) ⊎ (e ≡ Error.OutOfMemory)) }
    {
        reads_are_sound();
        let _ = pass;
        self.core.rotate_memtable()
    }

    /// Writes an entry under its own sequence number, as `TreeState::append_entry`, and appends it to the journal
    /// and the pass. `OutOfOrder`, before all else, exactly where it would break the order. Refused, it changes nothing.
    /// Snapshots up to its sequence number see what they saw.
    pub fn append_entry(
        &mut self,
        pass: &mut Pass,
        entry: InternalValue,
    ) -> Result<(u64, u64), Error>
        ensures { NotesWrite (plain entry) result self.old self.new pass.old pass.new }
    {
        reads_are_sound();
        append_marked(
            self.alloc,
            &mut self.core,
            &mut self.marks,
            self.floor,
            &mut self.journal,
            &mut pass.entries,
            entry.into_plain(),
        )
    }

    /// Sets a key under a sequence number, as `append_entry`. No call draws numbers for it: they are those below the
    /// counter that the tree was opened with (`Config::seqno`). `write` draws its own.
    pub fn insert(
        &mut self,
        pass: &mut Pass,
        key: UserKey,
        value: UserValue,
        seqno: SeqNo,
    ) -> Result<(u64, u64), Error>
        ensures { NotesWrite (op_entry key seqno (Set value)) result self.old self.new pass.old pass.new }
    {
        let entry = InternalValue::from_components(key, value, seqno, ValueType::Value);
        self.append_entry(pass, entry)
    }

    /// Removes a key under a sequence number, as `append_entry`.
    pub fn remove(
        &mut self,
        pass: &mut Pass,
        key: UserKey,
        seqno: SeqNo,
    ) -> Result<(u64, u64), Error>
        ensures { NotesWrite (op_entry key seqno Del) result self.old self.new pass.old pass.new }
    {
        self.append_entry(pass, InternalValue::new_tombstone(key, seqno))
    }

    /// Removes a key, of which at most one value was ever written, as `append_entry`.
    pub fn remove_weak(
        &mut self,
        pass: &mut Pass,
        key: UserKey,
        seqno: SeqNo,
    ) -> Result<(u64, u64), Error>
        ensures { NotesWrite (op_entry key seqno Weak) result self.old self.new pass.old pass.new }
    {
        self.append_entry(pass, InternalValue::new_weak_tombstone(key, seqno))
    }

    /// Writes a batch under the next sequence number, as `TreeState::write`, and appends its entries to the journal
    /// and the pass. `OutOfOrder`, before all else, exactly where one of its writes would break the order.
    /// Refused, it changes nothing.
    pub fn write(&mut self, pass: &mut Pass, ops: Vec<(UserKey, Op)>) -> Result<SeqNo, Error>
        ensures { NotesBatch ops.items result self.old self.new pass.old pass.new }
    {
        reads_are_sound();
        write_marked(
            self.alloc,
            &mut self.core,
            &mut self.marks,
            self.floor,
            &mut self.journal,
            &mut pass.entries,
            ops,
        )
    }

    /// A copy of the journal, where the passes together list it: each of its places once, with the entry there,
    /// and nothing else, each pass its own by rising places; beside it the version that was opened. Else, also for want of
    /// memory, the passes.
    pub fn close(&self, passes: Vec<Pass>) -> Result<Closed, Vec<Pass>>
        ensures journal { IfOk result (λ c. c.journal.items ≡ self.now.journal) }
        ensures opened { IfOk result (λ c. placed_of c.opened.levels ≡ self.now.opened) }
        ensures listed { IfOk result (λ c. ListTogether c.journal.items passes.items) }
        ensures agrees { IfOk result (λ c. Agrees (shown_by (placed_of c.opened.levels)) c.journal.items) }
        ensures back { IfErr result (λ back. back ≡ passes) }
    {
        self.facts();
        match self.copy_if_listed(&passes) {
            Ok(Some(closed)) => Ok(closed),
            Ok(None) | Err(_) => Err(passes),
        }
    }

    /// A copy of the journal and the version that was opened, where the passes together list it.
    fn copy_if_listed(&self, passes: &[Pass]) -> Result<Option<Closed>, AllocError>
        ensures journal { IfOk result (λ told. IfSome told (λ c. c.journal.items ≡ self.now.journal)) }
        ensures opened { IfOk result (λ told. IfSome told (λ c. placed_of c.opened.levels ≡ self.now.opened)) }
        ensures listed { IfOk result (λ told. IfSome told (λ c. ListTogether c.journal.items passes.now)) }
    {
        if !list_together(self.alloc, &self.journal, passes)? {
            return Ok(None);
        }
        Ok(Some(Closed {
            journal: copy_list(self.alloc, &self.journal)?,
            opened: self.opened.copy(self.alloc)?,
        }))
    }

    /// Of files to which nothing is done, a crash leaves what they hold, and foreign names are as they are.
    fn stays_stored(&self)
        ensures { S.tells → AtRest (S.world self.now.tree.store) }
    {
        crashes_leave_versions(self.core.store());
    }

    /// While nothing is done to a tree its files stay what they are, and a crash leaves one of its versions.
    fn is_upheld(&self)
        ensures { S.tells → Upholds (S.world self.now.tree.store) (S.world self.now.tree.store) self.now.tree.core self.now.tree.core }
    {
        self.stays_stored();
    }
}

mod clear;
mod compaction;
mod counts;
mod flush;
mod opening;
mod ranges;
