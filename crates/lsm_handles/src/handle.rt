// Trees that several callers share.

use lsm_logged::Logged;
use lsm_recorded::Recorded;
use lsm_state::TreeState;
use lsm_store::MemStore;
use std::alloc::{AllocError, Global};
use std::sync::{Arc, Mutex};

/// A tree that several callers share, behind one lock: each call takes the lock once.
///
/// A clone is another handle on the same tree. After a call nothing is known of the tree but what its
/// type keeps, since other callers may come between. A call blocks while another caller holds the lock.
///
/// # Examples
///
/// ```text
/// let opened = TreeState::open_unlogged(alloc, Config::new(0, 0, 0), MemStore::new(alloc));
/// let core = opened.map_err(|refused| refused.0)?;
/// let tree = Handle::new(alloc, core)?;
/// let other = tree.clone()?;
/// let number = tree.write(&rt, vec![in alloc; (key, Op::Set(value))]?)?;
/// let found = other.get(&rt, b"a", number + 1)?;
/// ```
#[derive(Drop)]
pub struct Handle<C> {
    pub(crate) shared: Arc<Mutex<C>>,
}

/// A tree that several callers share.
pub type Tree<S = MemStore> = Handle<TreeState<S>>;

/// A tree with the journal of its calls, that several callers share; each caller has a `Pass` of its own.
///
/// # Examples
///
/// ```text
/// let opened = Recorded::open_unlogged(alloc, Config::new(0, 0, 0), MemStore::new(alloc));
/// let core = opened.map_err(|refused| refused.0)?;
/// let tree = Handle::new(alloc, core)?;
/// let mut pass = Pass::new(alloc);
/// tree.write(&rt, &mut pass, vec![in alloc; (key, Op::Set(value))]?)?;
/// let closed = tree.close(&rt, vec![in alloc; pass]?);
/// ```
pub type RecordedTree<S = MemStore> = Handle<Recorded<S>>;

/// A tree with a log above it, that several callers share: each batch has a record in the store before `write` returns, so no
/// crash takes it.
///
/// Each call of `write` makes one record and syncs it: whoever wants fewer syncs gives a batch more operations.
///
/// After a `CommitUnknown` each write, commit and removal is `Unrecoverable`, and reads go on. Then drop all handles (a folder
/// stays locked until the last one is dropped), open a store over the same folder again, and `Logged::open` it: then all of the
/// batch is there, or nothing of it.
///
/// # Examples
///
/// ```text
/// let store = FolderStore::new(rt, alloc, "folder")?;
/// let opened = Logged::open(alloc, Config::new(0, 0, 0), store);
/// let core = opened.map_err(|(error, store)| store.explain(error))?;
/// let tree: LoggedTree<_> = Handle::new(alloc, core)?;
/// let number = tree.write(&rt, vec![in alloc; (key, Op::Set(value))]?)?;
/// let found = tree.get(&rt, b"a", number + 1)?;
/// ```
pub type LoggedTree<S = MemStore> = Handle<Logged<S>>;

impl<C: Drop + Send> Handle<C> {
    /// The first handle on a tree. Whatever handles are left, `into_inner` of the last one gives the tree back.
    ///
    /// # Errors
    ///
    /// Only for want of memory; then the tree is dropped.
    pub fn new(alloc: Global, core: C) -> Result<Handle<C>, AllocError> {
        Ok(Handle {
            shared: Arc::new(alloc, Mutex::new(core))?,
        })
    }
}

impl<C: Drop> Handle<C> {
    /// The tree, where no other handle is on it: after a `CommitUnknown` say, to open its store again.
    ///
    /// # Errors
    ///
    /// This handle, where there is another one.
    pub fn into_inner(self) -> Result<C, Handle<C>> {
        match Arc::try_unwrap(self.shared) {
            Ok(lock) => Ok(lock.into_inner()),
            Err(shared) => Err(Handle { shared }),
        }
    }
}

impl<C: Drop> Clone for Handle<C> {
    fn clone(&self) -> Result<Handle<C>, AllocError> {
        Ok(Handle {
            shared: Arc::try_clone(&self.shared)?,
        })
    }
}
