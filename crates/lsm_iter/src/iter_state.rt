// What an iterator reads.
ghost use Rattle.std.specs.Prelude.{◌≡◌, [], cond, map, IfOk};
ghost use Rattle.lsm_iter.specs.Reads.{parts_at, state_of};
ghost use Rattle.lsm_iter.specs.Left.{copied_within};
ghost use Rattle.lsm_iter.specs.Puts.{PutsCursors};

use crate::sources::{Reader, push_index, push_memtables, push_version};
use crate::{Memtable, Version};
use lsm_below::{SeqNo, UserKey};
use std::alloc::{AllocError, Global};
use std::marker::Model;
use std::ops::Bound;

/// A memtable on top of what a snapshot shows, as of writes that aren't in the tree, with the sequence number below which its
/// entries count. None: the tree alone.
///
/// # Examples
///
/// ```text
/// let pairs = tree.pairs(&bounds, snapshot, Some((&writes, snapshot + 1)))?;
/// ```
pub type Overlay<'a> = Option<(&'a Memtable, SeqNo)>;

/// What an iterator reads: a version of tables, memtables, and maybe a memtable on top that is an index of
/// its own. The entries of an index count below its own sequence number, all others below the snapshot.
///
/// # Examples
///
/// ```text
/// let state = IterState::new(&version, memtables, None);
/// let iter = TreeIter::create_range(alloc, &state, &bounds, snapshot)?;
/// ```
#[derive(Drop)]
pub struct IterState<'a> {
    version: &'a Version,
    memtables: Vec<&'a Memtable>,
    overlay: Overlay<'a>,
}

impl<'a> Model for IterState<'a> {
    ghost use Rattle.lsm_iter.specs.Reads.{SeenState, state_of};

    ghost Value = { SeenState };

    ghost view = { λ s. state_of s.version.now s.memtables.items s.overlay };
}

impl<'a> IterState<'a> {
    /// What is read: tables, memtables from the newest, and maybe an index with its own sequence number.
    pub fn new(
        version: &'a Version,
        memtables: Vec<&'a Memtable>,
        overlay: Overlay<'a>,
    ) -> IterState<'a>
        ensures { result ≡ state_of version.now memtables.entry.items overlay.entry }
    {
        IterState {
            version,
            memtables,
            overlay,
        }
    }

    /// A reader of each source, the newest source first: the index, the memtables, and the tables. Refused only for want
    /// of memory.
    pub(crate) fn readers<R: Reader<'a>>(
        &self,
        alloc: Global,
        bounds: &(Bound<UserKey>, Bound<UserKey>),
        snapshot: SeqNo,
    ) -> Result<Vec<R>, AllocError>
        ensures { IfOk result
            (λ readers. PutsCursors bounds.now.0 bounds.now.1 (parts_at snapshot self.now) (cond R.copies (copied_within bounds.now.0 bounds.now.1 snapshot self.now) 0) [] (map R.seen readers.items)) }
    {
        let mut readers = Vec::with_capacity(alloc, self.memtables.len().saturating_add(1))?;
        push_index(alloc, &mut readers, self.overlay, bounds)?;
        push_memtables(alloc, &mut readers, &self.memtables, bounds, snapshot)?;
        push_version(alloc, &mut readers, self.version, bounds, snapshot)?;
        Ok(readers)
    }
}
