// A memtable that takes no more writes, as a tree holds it, and room for one more.
ghost use Rattle.std.specs.Prelude.{◌≡◌, ◌+◌, ◌≤◌, ◌∷◌, length, IfOk};

use lsm_below::MemtableId;
use lsm_flush::SealedMemtable;
use lsm_memtable::Memtable;
use std::alloc::{AllocError, Global};
use std::collections::VecDeque;
use std::marker::Model;
use std::mem;

/// A memtable that takes no more writes. It is the tree's own until a flush shares it.
#[derive(Drop)]
pub struct Sealed {
    /// Empty, once it is shared.
    own: Memtable,
    shared: Option<SealedMemtable>,
}

impl Model for Sealed {
    ghost use Rattle.std.specs.Prelude.{unwrap_or};
    ghost use Rattle.lsm_memtable.specs.Memtables.{SeenMemtable};

    ghost Value = { SeenMemtable };

    ghost view = { λ s. unwrap_or s.shared s.own };
}

impl Sealed {
    /// A memtable that isn't shared. It takes no memory.
    pub fn new(memtable: Memtable) -> Sealed
        ensures { result ≡ memtable }
    {
        Sealed {
            own: memtable,
            shared: None,
        }
    }

    /// The memtable.
    pub fn as_memtable(&self) -> &Memtable
        ensures { result.now ≡ self.now }
    {
        match &self.shared {
            Some(shared) => shared.as_memtable(),
            None => &self.own,
        }
    }

    /// Its id.
    pub fn id(&self) -> MemtableId
        ensures { result ≡ self.now.id }
    {
        self.as_memtable().id()
    }

    /// The memtable, shared: its entries are not copied. Refused only for want of memory.
    pub fn share(&mut self, alloc: Global) -> Result<SealedMemtable, AllocError>
        ensures same { self.new ≡ self.old }
        ensures ok { IfOk result (λ shared. shared ≡ self.old) }
    {
        if let Some(shared) = &self.shared {
            return shared.copy();
        }
        let own = mem::replace(&mut self.own, Memtable::new(alloc, 0));
        match SealedMemtable::new(alloc, own) {
            Ok(shared) => {
                let copy = shared.copy();
                self.shared = Some(shared);
                copy
            }
            Err(refused) => {
                self.own = refused.value;
                Err(AllocError)
            }
        }
    }
}

/// Room for some memtables that take no more writes, which is made before it is needed.
#[derive(Drop)]
pub struct Room {
    sealed: VecDeque<Sealed>,
}

impl Model for Room {
    ghost use Rattle.std.specs.Prelude.{◌≡◌, ℕ, []};
    ghost use Rattle.std.specs.VecDeque.{deque_capacity};

    ghost Value = { ℕ };

    ghost view = { λ r. deque_capacity r.sealed };

    ghost invariant = { λ r. r.sealed.items ≡ [] };
}

impl Room {
    /// Room for so many. Refused only for want of memory.
    pub fn new(alloc: Global, memtables: usize) -> Result<Room, AllocError>
        ensures { IfOk result (λ room. memtables ≤ room) }
    {
        Ok(Room {
            sealed: VecDeque::with_capacity(alloc, memtables)?,
        })
    }

    /// A memtable and those before it, where there is room. It takes no memory. The cost is linear in how many there are.
    pub fn fill(self, newest: Memtable, before: &mut VecDeque<Sealed>) -> VecDeque<Sealed>
        requires { length before.old.items + 1 ≤ self }
        ensures { result.items ≡ newest ∷ before.old.items }
    {
        let Room { mut sealed } = self;
        sealed.push_back_reserved(Sealed::new(newest));
        sealed.append(before).unwrap();
        sealed
    }
}
