// A store in memory one call of which is refused.
ghost use Rattle.std.specs.Prelude.{◌≡◌};
ghost use Rattle.lsm_store.specs.Memory.{world_of};

use bytes::Bytes;
use lsm_state::{Fault, MemStore, Store, StoreError};
use std::alloc::{AllocError, Global};

/// How a call is refused.
#[derive(Clone, Copy)]
pub enum Refusal {
    /// For want of memory, which has no effect. A removal is never refused so, and is made.
    NoMemory,
    Fails(Fault),
}

/// A store in memory one call of which is refused. It isn't said to tell its content: the trees over it are compared by
/// what they answer.
#[derive(Drop)]
pub struct RefusingStore {
    inner: MemStore,
    /// The call that is refused, 1 for the next: 0 where there is none, or it was made.
    call: u64,
    refusal: Refusal,
}

impl RefusingStore {
    pub fn new(alloc: Global, call: u64, refusal: Refusal) -> RefusingStore {
        RefusingStore {
            inner: MemStore::new(alloc),
            call,
            refusal,
        }
    }

    /// The call that is still to be refused: 0 where there is none.
    pub fn call(&self) -> u64 {
        self.call
    }

    /// Plans that a call from now on is refused, 1 for the next.
    pub fn refuse(&mut self, call: u64, refusal: Refusal) {
        self.call = call;
        self.refusal = refusal;
    }

    /// What a crash leaves of it. The call that is to be refused may come after the crash.
    pub fn crash(&self) -> Result<Option<RefusingStore>, AllocError> {
        Ok(match self.inner.crash(&[])? {
            Some(inner) => Some(RefusingStore {
                inner,
                call: self.call,
                refusal: self.refusal,
            }),
            None => None,
        })
    }

    /// Counts a call, and plans its fault where it is the one. Answers whether it is refused for want of memory.
    fn count(&mut self) -> bool
        ensures { (world_of self.new.inner).failures ≡ (world_of self.old.inner).failures }
    {
        let is_refused = self.call == 1;
        self.call = self.call.saturating_sub(1);
        if !is_refused {
            return false;
        }
        match self.refusal {
            Refusal::NoMemory => true,
            Refusal::Fails(fault) => {
                self.inner.fail(1, fault);
                false
            }
        }
    }
}

impl Store for RefusingStore {
    ghost tells = { ⊥ };

    ghost world = { λ s. world_of s.inner };

    ghost gives_one = { λ no store name. absurd no };

    ghost counts_now = { λ no store t image le now. absurd no };

    ghost only_now = { λ no store image left. absurd no };

    fn list(&mut self, alloc: Global) -> Result<Vec<String>, StoreError> {
        if self.count() {
            return Err(StoreError::OutOfMemory);
        }
        self.inner.list(alloc)
    }

    fn read(&mut self, alloc: Global, name: &str) -> Result<Option<Vec<u8>>, StoreError> {
        if self.count() {
            return Err(StoreError::OutOfMemory);
        }
        self.inner.read(alloc, name)
    }

    fn write(&mut self, name: &str, bytes: &[u8]) -> Result<(), StoreError> {
        if self.count() {
            return Err(StoreError::OutOfMemory);
        }
        self.inner.write(name, bytes)
    }

    fn write_shared(&mut self, name: &str, bytes: &Bytes) -> Result<(), StoreError> {
        if self.count() {
            return Err(StoreError::OutOfMemory);
        }
        self.inner.write_shared(name, bytes)
    }

    fn sync(&mut self, name: &str) -> Result<(), StoreError> {
        if self.count() {
            return Err(StoreError::OutOfMemory);
        }
        self.inner.sync(name)
    }

    fn replace(&mut self, name: &str, bytes: &[u8]) -> Result<(), StoreError> {
        if self.count() {
            return Err(StoreError::OutOfMemory);
        }
        self.inner.replace(name, bytes)
    }

    fn remove(&mut self, name: &str) -> Result<(), StoreError> {
        self.count();
        self.inner.remove(name)
    }

    fn settle(&mut self) -> Result<(), StoreError> {
        if self.count() {
            return Err(StoreError::OutOfMemory);
        }
        self.inner.settle()
    }

    fn failures(&self) -> u64 {
        self.inner.failures()
    }
}
