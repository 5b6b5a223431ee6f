// Files that are on the disk when they are answered.
ghost use Rattle.lsm_store.specs.World.{LeavesOnly, Counts};
ghost use Rattle.lsm_store.specs.Synced.{IsBeside, Puts};

use crate::store::{Store, StoreError};
use bytes::Bytes;

/// Writes a file, and syncs it. After Ok a crash leaves it whole; each other name is as it was, also after a refusal.
///
/// # Errors
///
/// `OutOfMemory` where a growth was refused, `NothingDone` where the store failed and changed nothing, `Fault` where it failed otherwise:
/// of this name a crash may then leave anything.
pub fn write_synced<S: Store>(store: &mut S, name: &str, bytes: &[u8]) -> Result<(), StoreError>
    ensures any_moment { S.tells → LeavesOnly (S.world store.old) (S.world store.new) (IsBeside name.now (S.world store.old)) }
    ensures puts { S.tells → Puts name.now bytes.now (S.world store.old) (S.world store.new) result }
    ensures counts { Counts (S.world store.old) (S.world store.new) result }
{
    store.write(name, bytes)?;
    store.sync(name)
}

/// `write_synced`, of bytes that the store may share.
///
/// # Errors
///
/// As `write_synced`.
pub fn share_synced<S: Store>(store: &mut S, name: &str, bytes: &Bytes) -> Result<(), StoreError>
    ensures any_moment { S.tells → LeavesOnly (S.world store.old) (S.world store.new) (IsBeside name.now (S.world store.old)) }
    ensures puts { S.tells → Puts name.now bytes.now (S.world store.old) (S.world store.new) result }
    ensures counts { Counts (S.world store.old) (S.world store.new) result }
{
    store.write_shared(name, bytes)?;
    store.sync(name)
}
