// Names that nothing needs any more.
ghost use Rattle.std.specs.Prelude.{◌≡◌, ◌≤◌, ◌<◌, ℕ, List, true, None, OnOk, IfErr};
ghost use Rattle.lsm_store.specs.World.{LeavesOnly};
ghost use Rattle.lsm_store.specs.Synced.{IsBeside, KeepsOthers};
ghost use Rattle.lsm_model.specs.Steps.{among};
ghost use Rattle.lsm_manifest.specs.Names.{version_name, table_name};
ghost use Rattle.lsm_commit.specs.Stored.{Keeps, CountsFaults};
ghost use Rattle.lsm_commit.specs.Commits.{SparesStored, IsNoneOf, SparesTables};
ghost use Rattle.lsm_commit.specs.Foreign.{Passes};
ghost use Rattle.lsm_commit.specs.Writing.{KeepsStored};

use lsm_below::{Error, TableId};
use lsm_manifest::{names_are_apart, table_name, version_name};
use lsm_store::{Store, StoreError};
use lsm_versions::VersionId;
use std::collections::HashSet;

fn remove_name<S: Store>(store: &mut S, name: &str) -> Result<(), Error>
    ensures gone { S.tells → OnOk result ((S.world store.new).gives name.now ≡ None) }
    ensures keeps { S.tells → KeepsOthers name.now (S.world store.old) (S.world store.new) }
    ensures any_moment { S.tells → LeavesOnly (S.world store.old) (S.world store.new) (IsBeside name.now (S.world store.old)) }
    ensures only { IfErr result (λ e. e ≡ Error.Store) }
    ensures counts { CountsFaults (S.world store.old) (S.world store.new) result }
{
    match store.remove(name) {
        Ok(()) => Ok(()),
        Err(StoreError::Fault | StoreError::NothingDone) => Err(Error::Store),
        Err(StoreError::OutOfMemory) => unreachable!(),
    }
}

/// Removes the file of a version. After Ok it is absent; a crash may bring it back. Each other name is as it was.
/// It takes no memory.
///
/// # Errors
///
/// `Store` where the store failed.
pub fn remove_version<S: Store>(store: &mut S, id: VersionId) -> Result<(), Error>
    ensures gone { S.tells → OnOk result ((S.world store.new).gives (version_name id) ≡ None) }
    ensures keeps { S.tells → KeepsOthers (version_name id) (S.world store.old) (S.world store.new) }
    ensures stored { S.tells → SparesStored id (S.world store.old) (S.world store.new) }
    // Names that are none of the tree's are as they were.
    ensures passes { S.tells → Passes (S.world store.old) (S.world store.new) }
    ensures only { IfErr result (λ e. e ≡ Error.Store) }
    ensures counts { CountsFaults (S.world store.old) (S.world store.new) result }
{
    names_are_apart();
    remove_name(store, version_name(id).as_str())
}

fn remove_table<S: Store>(store: &mut S, id: TableId) -> Result<(), Error>
    ensures gone { S.tells → OnOk result ((S.world store.new).gives (table_name id) ≡ None) }
    ensures keeps { S.tells → KeepsOthers (table_name id) (S.world store.old) (S.world store.new) }
    ensures stored { S.tells → (ids : List ℕ) → among ids id ≡ true → SparesTables ids (S.world store.old) (S.world store.new) }
    ensures passes { S.tells → Passes (S.world store.old) (S.world store.new) }
    ensures only { IfErr result (λ e. e ≡ Error.Store) }
    ensures counts { CountsFaults (S.world store.old) (S.world store.new) result }
{
    names_are_apart();
    remove_name(store, table_name(id).as_str())
}

/// Removes the files of tables, in whatever order, and stops at the first that can't be removed. After Ok each is
/// absent; a crash may bring it back. Each other name is as it was. No ids: no call of the store. It takes no memory.
/// The cost is linear in the ids.
///
/// # Errors
///
/// `Store` where the store failed: some of the files may have been removed.
pub fn remove_tables<S: Store>(store: &mut S, ids: &HashSet<TableId>) -> Result<(), Error>
    ensures gone { S.tells → OnOk result ((i : ℕ) → among ids.now.keys i ≡ true → (S.world store.new).gives (table_name i) ≡ None) }
    ensures keeps { S.tells → Keeps (IsNoneOf ids.now.keys) (S.world store.old) (S.world store.new) }
    ensures stored { S.tells → SparesTables ids.now.keys (S.world store.old) (S.world store.new) }
    // Names that are none of the tree's are as they were.
    ensures passes { S.tells → Passes (S.world store.old) (S.world store.new) }
    ensures only { IfErr result (λ e. e ≡ Error.Store) }
    ensures counts { CountsFaults (S.world store.old) (S.world store.new) result }
{
    for id in ids {
        remove_table(store, *id)?;
    }
    Ok(())
}

/// Removes the files of the tables whose ids are from `first` on and below `next`, in their order, and stops at the first that
/// can't be removed. After Ok each is absent; a crash may bring it back. Each other name is as it was. It takes no memory. The
/// cost is linear in the ids.
///
/// # Errors
///
/// `Store` where the store failed: some of the files may have been removed.
pub fn remove_written<S: Store>(store: &mut S, first: TableId, next: TableId) -> Result<(), Error>
    ensures gone { S.tells → OnOk result ((i : ℕ) → first ≤ i → i < next → (S.world store.new).gives (table_name i) ≡ None) }
    ensures stored { S.tells → KeepsStored first (S.world store.old) (S.world store.new) }
    // Names that are none of the tree's are as they were.
    ensures passes { S.tells → Passes (S.world store.old) (S.world store.new) }
    ensures only { IfErr result (λ e. e ≡ Error.Store) }
    ensures counts { CountsFaults (S.world store.old) (S.world store.new) result }
{
    let mut id = first;
    'each: while id < next {
        remove_table(store, id)?;
        id += 1;
    }
    Ok(())
}
