// The memtables that are held, by id.
ghost use Rattle.std.specs.Prelude.{◌≡◌, ℕ, ◌<◌, ◌≤◌, ◌∷◌, ◌++◌, [], List, length, map, flat_map, sum_by, if◌then◌else◌, Some, IfOk, IfErr, OnOk, OnErr, IsTrue, IsSome, ◌↔◌, option_copied, MatchOption};
ghost use Rattle.std.specs.List.{AllByRecursion, list_any};
ghost use Rattle.lsm_below.specs.Entries.{Entry, top};
ghost use Rattle.lsm_below.specs.Sums.{capped};
ghost use Rattle.lsm_tables.specs.Cutting.{IsWritable};
ghost use Rattle.lsm_tables.specs.Image.{Fits};
ghost use Rattle.lsm_memtable.specs.Memtables.{SeenMemtable, entry_size, new_memtable, highest_of};
ghost use Rattle.lsm_parts.specs.History.{names, named_size, versions_of};
ghost use Rattle.lsm_flush.specs.Jobs.{ids_in, entries_in, AreWritable};
ghost use Rattle.lsm_parts.specs.Held.{entries_of, held_at, size_at, put_first, put_all_first, first_size, first_entries, HasFirst, FallFrom, ids_of, IsSealedIn, from_id, TakesFirstBack};

use crate::SuperVersions;
use lsm_below::{Error, InternalValue, MemtableId, SeqNo};
use lsm_flush::SealedMemtable;
use lsm_memtable::{Memtable, Revocable};
pub use sealed::Room;
use sealed::Sealed;
use std::alloc::{AllocError, Global};
use std::collections::VecDeque;
use std::marker::Model;
use std::mem;

/// The greater of two sequence numbers, where there is one.
pub fn greater_of(one: Option<SeqNo>, other: Option<SeqNo>) -> Option<SeqNo>
    ensures { (xs ys : List Entry) → one ≡ highest_of xs → other ≡ highest_of ys → result ≡ highest_of (xs ++ ys) }
{
    match one {
        Some(seqno) => Some(seqno.max(other.unwrap_or(0))),
        None => other,
    }
}

/// The memtables that are held: the active one, and after it the sealed ones from the newest.
/// Their ids fall, so one is found in logarithmic time.
#[derive(Drop)]
pub struct Memtables {
    active: Memtable,
    sealed: VecDeque<Sealed>,
}

impl Model for Memtables {
    ghost use Rattle.std.specs.Prelude.{List, ◌∷◌};
    ghost use Rattle.std.specs.List.{AllByRecursion};
    ghost use Rattle.lsm_tables.specs.Cutting.{IsWritable};
    ghost use Rattle.lsm_memtable.specs.Memtables.{SeenMemtable};
    ghost use Rattle.lsm_parts.specs.Held.{FallFrom, ids_of};

    ghost Value = { List SeenMemtable };

    ghost view = { λ m. m.active ∷ m.sealed.items };

    ghost invariant = { λ m. AllByRecursion (λ t. IsWritable t.entries) (m.active ∷ m.sealed.items) × FallFrom m.active.id (ids_of m.sealed.items) };
}

/// The memtable with this id, found by bisection.
fn find_sealed(sealed: &VecDeque<Sealed>, id: MemtableId) -> Option<&Sealed>
    requires { (n : ℕ) × FallFrom n (ids_of sealed.now.items) }
    ensures { option_copied result ≡ held_at sealed.now.items id }
{
    let at = sealed.partition_point(|memtable| id < memtable.id());
    let memtable = sealed.get(at)?;
    if memtable.id() == id {
        return Some(memtable);
    }
    None
}

/// The memtable with this id, which is one of these, shared. Refused only for want of memory.
fn share_sealed(
    sealed: &mut VecDeque<Sealed>,
    alloc: Global,
    id: MemtableId,
) -> Result<SealedMemtable, AllocError>
    requires falls { (n : ℕ) × FallFrom n (ids_of sealed.old.items) }
    requires there { IsSome (held_at sealed.old.items id) }
    ensures same { sealed.new.items ≡ sealed.old.items }
    ensures ok { IfOk result (λ m. held_at sealed.old.items id ≡ Some m) }
{
    let at = sealed.partition_point(|memtable| id < memtable.id());
    match sealed.get_mut(at) {
        Some(memtable) => memtable.share(alloc),
        None => unreachable!(),
    }
}

/// The bytes that a memtable counts, where a super version names it; else none.
fn size_named(memtable: &Memtable, history: &SuperVersions) -> u64
    ensures { result ≡ if list_any (names memtable.now.id) (versions_of history.now) then memtable.now.size else 0 }
{
    if history.names(memtable.id()) {
        memtable.size()
    } else {
        0
    }
}

impl Memtables {
    /// An empty memtable, which is the active one.
    pub fn new(alloc: Global, id: MemtableId) -> Memtables
        ensures { result ≡ new_memtable id ∷ [] }
    {
        Memtables {
            active: Memtable::new(alloc, id),
            sealed: VecDeque::new(alloc),
        }
    }

    /// What every such list meets: the entries of each memtable stand in order, and fit files.
    pub fn facts(&self)
        ensures { AllByRecursion (λ t. IsWritable t.entries) self.now }
    {
        let _ = &self.sealed;
    }

    /// Whether nothing was written to the active memtable.
    pub fn is_active_empty(&self) -> bool
        ensures { IsTrue result ↔ (first_entries self.now ≡ []) }
    {
        self.active.is_empty()
    }

    /// The memtable with this id.
    pub fn find(&self, id: MemtableId) -> Option<&Memtable>
        ensures { MatchOption result (entries_of self.now id ≡ []) (λ m. m.now.entries ≡ entries_of self.now id) }
    {
        if self.active.id() == id {
            return Some(&self.active);
        }
        match find_sealed(&self.sealed, id) {
            Some(memtable) => Some(memtable.as_memtable()),
            None => None,
        }
    }

    /// What the memtable with this id shows of a key below the snapshot.
    pub fn search(&self, id: MemtableId, key: &[u8], snapshot: SeqNo) -> Option<&InternalValue>
        ensures { option_copied result ≡ top key.now snapshot (entries_of self.now id) }
    {
        match self.find(id) {
            Some(memtable) => memtable.get(key, snapshot),
            None => None,
        }
    }

    /// The active memtable.
    pub fn active(&self) -> &Memtable
        ensures { HasFirst self.now (λ m. result.now ≡ m) }
    {
        &self.active
    }

    /// How many entries the memtable with this id has.
    pub fn len_at(&self, id: MemtableId) -> usize
        ensures { result ≡ length (entries_of self.now id) }
    {
        match self.find(id) {
            Some(memtable) => memtable.len(),
            None => 0,
        }
    }

    /// How many entries the memtables with these ids have together, up to 2^64 - 1. Each is found by bisection.
    pub fn len_of(&self, ids: &[MemtableId]) -> usize
        ensures { result ≡ capped (length (flat_map (entries_of self.now) ids.now)) }
    {
        let mut len: usize = 0;
        for id in ids {
            len = len.saturating_add(self.len_at(*id));
        }
        len
    }

    /// The greatest sequence number in the memtable with this id.
    pub fn highest_at(&self, id: MemtableId) -> Option<SeqNo>
        ensures { result ≡ highest_of (entries_of self.now id) }
    {
        match self.find(id) {
            Some(memtable) => memtable.get_highest_seqno(),
            None => None,
        }
    }

    /// The greatest sequence number in the memtables with these ids. Each is found by bisection.
    pub fn highest_in(&self, ids: &[MemtableId]) -> Option<SeqNo>
        ensures { result ≡ highest_of (flat_map (entries_of self.now) ids.now) }
    {
        let mut highest = None;
        for id in ids {
            highest = greater_of(highest, self.highest_at(*id));
        }
        highest
    }

    /// The bytes that these memtables count, of those that a super version names, up to 2^64 - 1.
    pub fn size_sum(&self, history: &SuperVersions) -> u64
        ensures { result ≡ named_size history.now self.now }
    {
        let active = size_named(&self.active, history);
        self.sealed.iter().fold(
            active,
            |sum: u64, memtable| sum.saturating_add(size_named(memtable.as_memtable(), history)),
        )
    }

    /// Puts an entry that fits a file in its place in the active memtable, and returns the bytes that it counts and
    /// those of the memtable. Refused only for want of memory, and then nothing changes.
    pub fn insert(&mut self, entry: InternalValue) -> Result<(u64, u64), Error>
        requires { Fits entry }
        ensures sizes { IfOk result (λ r. (r.0 ≡ entry_size entry) × (r.1 ≡ first_size self.new)) }
        ensures ok { OnOk result (self.new ≡ put_first entry self.old) }
        ensures err { OnErr result (self.new ≡ self.old) }
        ensures memory { IfErr result (λ e. e ≡ Error.OutOfMemory) }
    {
        let entry = self.house(entry);
        self.insert_housed(entry)
    }

    /// An entry with its bytes where `insert` puts them, as `Memtable::house`.
    pub fn house(&mut self, entry: InternalValue) -> InternalValue
        ensures same { result ≡ entry }
        ensures stays { self.new ≡ self.old }
    {
        self.active.house(entry)
    }

    /// `insert`, of an entry that `house` gave: its bytes are copied no more.
    pub fn insert_housed(&mut self, entry: InternalValue) -> Result<(u64, u64), Error>
        requires { Fits entry }
        ensures sizes { IfOk result (λ r. (r.0 ≡ entry_size entry) × (r.1 ≡ first_size self.new)) }
        ensures ok { OnOk result (self.new ≡ put_first entry self.old) }
        ensures err { OnErr result (self.new ≡ self.old) }
        ensures memory { IfErr result (λ e. e ≡ Error.OutOfMemory) }
    {
        let sizes = self.active.insert_housed(entry);
        self.active.facts();
        sizes
    }

    /// Puts all entries, which fit files, in their places in the active memtable, or none.
    /// Refused only for want of memory, and then nothing changes.
    pub fn insert_all(&mut self, batch: Vec<InternalValue>) -> Result<(), Error>
        requires { AllByRecursion Fits batch.items }
        ensures ok { OnOk result (self.new ≡ put_all_first batch.items self.old) }
        ensures err { OnErr result (self.new ≡ self.old) }
        ensures memory { IfErr result (λ e. e ≡ Error.OutOfMemory) }
    {
        let done = self.active.insert_all(batch);
        self.active.facts();
        done
    }

    /// `insert_all`, and answers what takes the batch back, as long as nothing else is done to the memtables.
    /// Refused only for want of memory, and then nothing changes.
    pub fn insert_all_revocably(&mut self, batch: Vec<InternalValue>) -> Result<Revocable, Error>
        requires { AllByRecursion Fits batch.items }
        ensures ok { OnOk result (self.new ≡ put_all_first batch.items self.old) }
        ensures revocable { IfOk result (λ r. TakesFirstBack r self.old self.new) }
        ensures err { OnErr result (self.new ≡ self.old) }
        ensures memory { IfErr result (λ e. e ≡ Error.OutOfMemory) }
    {
        let done = self.active.insert_all_revocably(batch);
        self.active.facts();
        done
    }

    /// `insert_all_revocably`, of one entry, which needs no list.
    pub fn insert_revocably(&mut self, entry: InternalValue) -> Result<Revocable, Error>
        requires { Fits entry }
        ensures ok { OnOk result (self.new ≡ put_all_first (entry ∷ []) self.old) }
        ensures revocable { IfOk result (λ r. TakesFirstBack r self.old self.new) }
        ensures err { OnErr result (self.new ≡ self.old) }
        ensures memory { IfErr result (λ e. e ≡ Error.OutOfMemory) }
    {
        let done = self.active.insert_revocably(entry);
        self.active.facts();
        done
    }

    /// Takes a batch back: the memtables are as they were. It takes no memory.
    pub fn take_back(&mut self, batch: Revocable)
        requires { (before : List SeenMemtable) × TakesFirstBack batch before self.old }
        ensures { (before : List SeenMemtable) → TakesFirstBack batch before self.old → self.new ≡ before }
    {
        self.active.take_back(batch);
    }

    /// Seals the active memtable in favour of a new one. Refused only for want of memory, and then nothing
    /// changes. It takes constant time, on average.
    pub fn rotate(&mut self, alloc: Global, id: MemtableId) -> Result<(), Error>
        requires { HasFirst self.old (λ t. t.id < id) }
        ensures ok { OnOk result (self.new ≡ new_memtable id ∷ self.old) }
        ensures err { OnErr result (self.new ≡ self.old) }
        ensures memory { IfErr result (λ e. e ≡ Error.OutOfMemory) }
    {
        self.sealed.try_reserve(1)?;
        let sealed = mem::replace(&mut self.active, Memtable::new(alloc, id));
        self.sealed.push_front(Sealed::new(sealed))?;
        Ok(())
    }

    /// Room to seal the active memtable. Refused only for want of memory. The cost is linear in the sealed memtables.
    pub fn room(&self, alloc: Global) -> Result<Room, AllocError>
        ensures { IfOk result (λ room. length self.now ≤ room) }
    {
        Room::new(alloc, self.sealed.len() + 1)
    }

    /// Seals the active memtable in favour of a new one, where there is room. It takes no memory. The cost is linear in the
    /// sealed memtables.
    pub fn rotate_within(&mut self, alloc: Global, id: MemtableId, room: Room)
        requires newer { HasFirst self.old (λ t. t.id < id) }
        requires fits { length self.old ≤ room }
        ensures { self.new ≡ new_memtable id ∷ self.old }
    {
        let sealed = mem::replace(&mut self.active, Memtable::new(alloc, id));
        self.sealed = room.fill(sealed, &mut self.sealed);
    }

    /// A sealed memtable by its id, shared. Refused only for want of memory.
    fn share_one(&mut self, alloc: Global, id: MemtableId) -> Result<SealedMemtable, AllocError>
        requires { IsSealedIn self.old id }
        ensures same { self.new ≡ self.old }
        ensures id { IfOk result (λ m. m.id ≡ id) }
        ensures entries { IfOk result (λ m. m.entries ≡ entries_of self.old id) }
        ensures writable { IfOk result (λ m. IsWritable m.entries) }
    {
        share_sealed(&mut self.sealed, alloc, id)
    }

    /// Sealed memtables by their ids, shared: their entries are not copied. Refused only for want of memory.
    pub fn share(
        &mut self,
        alloc: Global,
        ids: &[MemtableId],
    ) -> Result<Vec<SealedMemtable>, AllocError>
        requires { AllByRecursion (IsSealedIn self.old) ids.now }
        ensures same { self.new ≡ self.old }
        ensures ids { IfOk result (λ list. ids_in list.items ≡ ids.now) }
        ensures entries { IfOk result (λ list. entries_in list.items ≡ map (entries_of self.old) ids.now) }
        ensures writable { IfOk result (λ list. AreWritable list.items) }
    {
        let mut list = Vec::with_capacity(alloc, ids.len())?;
        for id in ids {
            list.push(self.share_one(alloc, *id)?)?;
        }
        Ok(list)
    }

    /// The bytes that the memtable with this id counts.
    fn size_of(&self, id: MemtableId) -> u64
        ensures { result ≡ size_at self.now id }
    {
        if self.active.id() == id {
            return self.active.size();
        }
        match find_sealed(&self.sealed, id) {
            Some(memtable) => memtable.as_memtable().size(),
            None => 0,
        }
    }

    /// The bytes that the memtables with these ids count together, up to 2^64 - 1.
    pub fn sealed_size(&self, ids: &[MemtableId]) -> u64
        ensures { result ≡ capped (sum_by (size_at self.now) ids.now) }
    {
        let mut size: u64 = 0;
        for id in ids {
            size = size.saturating_add(self.size_of(*id));
        }
        size
    }

    /// Forgets the sealed memtables with lesser ids than this one, which are found by bisection.
    pub fn forget_before(&mut self, id: MemtableId)
        requires { HasFirst self.old (λ t. id ≤ t.id) }
        ensures { self.new ≡ from_id id self.old }
    {
        let kept = self.sealed.partition_point(|memtable| memtable.id() >= id);
        self.sealed.truncate(kept);
    }
}

mod sealed;
