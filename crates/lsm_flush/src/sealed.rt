// A memtable that takes no more entries, shared.
ghost use Rattle.std.specs.Prelude.{◌≡◌, IfOk, IfErr};
ghost use Rattle.lsm_below.specs.Entries.{entry_cmp};
ghost use Rattle.lsm_below.specs.Sorted.{Rises};

use lsm_below::MemtableId;
use lsm_memtable::Memtable;
use std::alloc::{AllocError, AllocFailed, Global};
use std::marker::Model;
use std::sync::Arc;

/// A memtable that takes no more entries, shared between a tree and the jobs that read it.
///
/// ```text
/// let sealed = SealedMemtable::new(alloc, memtable)?;
/// let shared = sealed.copy()?; // the same entries, none of them copied
/// ```
#[derive(Drop)]
pub struct SealedMemtable {
    shared: Arc<Memtable>,
}

impl Model for SealedMemtable {
    ghost use Rattle.std.specs.Arc.{arc_value};
    ghost use Rattle.lsm_memtable.specs.Memtables.{SeenMemtable};

    ghost Value = { SeenMemtable };

    ghost view = { λ s. arc_value s.shared };
}

impl SealedMemtable {
    /// Shares a memtable. Refused only for want of memory, and then it comes back.
    pub fn new(alloc: Global, memtable: Memtable) -> Result<SealedMemtable, AllocFailed<Memtable>>
        ensures ok { IfOk result (λ s. s ≡ memtable) }
        ensures back { IfErr result (λ e. e.value ≡ memtable) }
    {
        Ok(SealedMemtable {
            shared: Arc::new(alloc, memtable)?,
        })
    }

    /// The memtable once more. Refused only for want of memory.
    pub fn copy(&self) -> Result<SealedMemtable, AllocError>
        ensures { IfOk result (λ s. s ≡ self.now) }
    {
        Ok(SealedMemtable {
            shared: Arc::try_clone(&self.shared)?,
        })
    }

    /// The memtable.
    pub fn as_memtable(&self) -> &Memtable
        ensures { result.now ≡ self.now }
    {
        &self.shared
    }

    /// Its id.
    pub fn id(&self) -> MemtableId
        ensures { result ≡ self.now.id }
    {
        self.shared.id()
    }

    /// What every one meets: its entries stand in order.
    pub fn facts(&self)
        ensures { Rises entry_cmp self.now.entries }
    {
        self.shared.facts();
    }
}
