// Files of tables that are written from their contents.
ghost use Rattle.std.specs.Prelude.{◌≡◌, ◌+◌, ◌≤◌, ◌<◌, ◌⊎◌, length, OnOk, IfOk, IfErr};
ghost use Rattle.std.specs.List.{AllByRecursion, range_with_len};
ghost use Rattle.lsm_store.specs.World.{LeavesOnly};
ghost use Rattle.lsm_store.specs.Synced.{IsBeside, KeepsOthers};
ghost use Rattle.lsm_manifest.specs.Names.{table_name};
ghost use Rattle.lsm_commit.specs.Stored.{CountsFaults};
ghost use Rattle.lsm_commit.specs.Writing.{WritesFrom, RefusesWriting};
ghost use Rattle.lsm_commit.specs.Contents.{IsWritten, AreWritten};

use bytes::Bytes;
use lsm_below::{Error, TableId};
use lsm_manifest::{names_are_apart, table_name};
use lsm_store::{Store, StoreError, share_synced};
use lsm_versions::LIMIT;
use std::alloc::Global;

/// Writes the file of a table, which the store may share, and syncs it. Each other name is as it was, also after a refusal.
pub(crate) fn write_file<S: Store>(store: &mut S, id: TableId, content: &Bytes) -> Result<(), Error>
    ensures on_disk { S.tells → OnOk result (IsWritten (S.world store.new) id content.now) }
    ensures keeps { S.tells → KeepsOthers (table_name id) (S.world store.old) (S.world store.new) }
    ensures any_moment { S.tells → LeavesOnly (S.world store.old) (S.world store.new) (IsBeside (table_name id) (S.world store.old)) }
    ensures only { IfErr result (λ e. (e ≡ Error.OutOfMemory) ⊎ (e ≡ Error.Store)) }
    ensures counts { CountsFaults (S.world store.old) (S.world store.new) result }
{
    match share_synced(store, table_name(id).as_str(), content) {
        Ok(()) => Ok(()),
        Err(StoreError::OutOfMemory) => Err(Error::OutOfMemory),
        Err(StoreError::Fault | StoreError::NothingDone) => Err(Error::Store),
    }
}

/// Writes files of tables under the ids from `next` on, one after the other, and syncs each. Returns the ids, one for
/// each content in turn. No contents: no call of the store. The cost is linear in the bytes.
///
/// # Errors
///
/// `OutOfNumbers` where the next id is 2^63 or more, before anything of that file is done; `OutOfMemory` where a growth
/// was refused; `Store` where the store failed. Some files may then have been written, and their ids are used.
pub fn write_contents<S: Store>(
    alloc: Global,
    store: &mut S,
    next: &mut TableId,
    contents: &[Bytes],
) -> Result<Vec<TableId>, Error>
    ensures ids { IfOk result (λ ids. ids.items ≡ range_with_len next.old (length contents.now)) }
    ensures below { IfOk result (λ ids. AllByRecursion (λ i. i < LIMIT) ids.items) }
    ensures next { IfOk result (λ _. next.new ≡ next.old + length contents.now) }
    ensures rises { next.old ≤ next.new }
    ensures draws { next.new ≤ next.old + length contents.now }
    ensures on_disk { S.tells → IfOk result (λ ids. AreWritten (S.world store.new) ids.items contents.now) }
    ensures files { S.tells → WritesFrom next.old (S.world store.old) (S.world store.new) }
    ensures refuses { RefusesWriting result next.new (S.world store.old) (S.world store.new) }
{
    names_are_apart();
    let mut ids = Vec::new(alloc);
    for content in contents {
        let id = *next;
        if id >= LIMIT {
            return Err(Error::OutOfNumbers);
        }
        ids.push(id)?;
        *next = id + 1;
        write_file(store, id, content)?;
    }
    Ok(ids)
}
