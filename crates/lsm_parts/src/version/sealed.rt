// The ids of sealed memtables.
ghost use Rattle.std.specs.Prelude.{◌≡◌, ◌+◌, ◌++◌, ◌∷◌, [], ◌==◌, not, filter, drop, length, IfOk, IfErr, OnOk, OnErr, MatchOption};
ghost use Rattle.std.specs.List.{list_any};
ghost use Rattle.std.specs.Slice.Iter.{iter_rest};

use crate::Error;
use lsm_below::MemtableId;
use std::alloc::Global;
use std::marker::Model;
use std::slice::Iter;

/// The ids of sealed memtables, in the order in which they were sealed.
#[derive(Drop)]
pub struct SealedMemtables {
    alloc: Global,
    ids: Vec<MemtableId>,
}

impl Model for SealedMemtables {
    ghost use Rattle.std.specs.Prelude.{List, ℕ};

    ghost Value = { List ℕ };

    ghost view = { λ s. s.ids.items };
}

impl SealedMemtables {
    /// No sealed memtable.
    pub fn new(alloc: Global) -> SealedMemtables
        ensures { result ≡ [] }
    {
        SealedMemtables {
            alloc,
            ids: Vec::new(alloc),
        }
    }

    /// What gives it memory.
    pub(crate) fn allocator(&self) -> Global {
        self.alloc
    }

    /// These and one that was sealed after them. Refused only for want of memory.
    pub fn add(&self, id: MemtableId) -> Result<SealedMemtables, Error>
        ensures ok { IfOk result (λ list. list ≡ self.now ++ id ∷ []) }
        ensures memory { IfErr result (λ e. e ≡ Error.OutOfMemory) }
    {
        let mut ids = Vec::with_capacity(self.alloc, self.ids.len().saturating_add(1))?;
        ids.extend_from_slice(&self.ids)?;
        ids.push(id)?;
        Ok(SealedMemtables {
            alloc: self.alloc,
            ids,
        })
    }

    /// Appends the id of one that is sealed now. Refused only for want of memory, and then nothing changes.
    pub(crate) fn push(&mut self, id: MemtableId) -> Result<(), Error>
        ensures ok { OnOk result (self.new ≡ self.old ++ id ∷ []) }
        ensures err { OnErr result (self.new ≡ self.old) }
        ensures memory { IfErr result (λ e. e ≡ Error.OutOfMemory) }
    {
        self.ids.push(id)?;
        Ok(())
    }

    /// Takes away the id of the one that was sealed last, and returns it.
    pub(crate) fn pop(&mut self) -> Option<MemtableId>
        ensures { MatchOption result ((self.old ≡ []) × (self.new ≡ [])) (λ id. self.old ≡ self.new ++ id ∷ []) }
    {
        self.ids.pop()
    }

    /// These without one. Refused only for want of memory.
    pub fn remove(&self, id: MemtableId) -> Result<SealedMemtables, Error>
        ensures ok { IfOk result (λ list. list ≡ filter (λ i. not (i == id)) self.now) }
        ensures memory { IfErr result (λ e. e ≡ Error.OutOfMemory) }
    {
        let ids = self
            .ids
            .iter()
            .copied()
            .filter(|i| *i != id)
            .collect(self.alloc)?;
        Ok(SealedMemtables {
            alloc: self.alloc,
            ids,
        })
    }

    /// These without the first n of them. Refused only for want of memory.
    pub fn without_first(&self, n: usize) -> Result<SealedMemtables, Error>
        ensures ok { IfOk result (λ list. list ≡ drop n self.now) }
        ensures memory { IfErr result (λ e. e ≡ Error.OutOfMemory) }
    {
        let rest = self.ids.get(n..).unwrap_or(&[]);
        Ok(SealedMemtables {
            alloc: self.alloc,
            ids: Vec::from_slice(self.alloc, rest)?,
        })
    }

    /// The ids, the one that was sealed first before the others.
    pub fn iter(&self) -> Iter<'_, MemtableId>
        ensures { iter_rest result ≡ self.now }
    {
        self.ids.iter()
    }

    /// The ids as a slice, the one that was sealed first before the others.
    pub fn as_slice(&self) -> &[MemtableId]
        ensures { result.now ≡ self.now }
    {
        &self.ids
    }

    /// How many there are.
    pub fn len(&self) -> usize
        ensures { result ≡ length self.now }
    {
        self.ids.len()
    }

    /// Whether there is none.
    pub fn is_empty(&self) -> bool
        ensures { result ≡ (length self.now == 0) }
    {
        self.ids.is_empty()
    }

    /// Whether this one is among them.
    pub fn contains(&self, id: MemtableId) -> bool
        ensures { result ≡ list_any (λ i. i == id) self.now }
    {
        self.ids.iter().any(|i| *i == id)
    }

    /// A copy. Refused only for want of memory.
    pub fn copy(&self) -> Result<SealedMemtables, Error>
        ensures ok { IfOk result (λ list. list ≡ self.now) }
        ensures memory { IfErr result (λ e. e ≡ Error.OutOfMemory) }
    {
        Ok(SealedMemtables {
            alloc: self.alloc,
            ids: Vec::from_slice(self.alloc, &self.ids)?,
        })
    }
}
