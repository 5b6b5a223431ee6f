// Records that nothing needs any more.
ghost use Rattle.std.specs.Prelude.{◌≡◌, ◌<◌, ◌≤◌, ℕ, List, None, false, length, take, Contains, OnOk, IfErr};
ghost use Rattle.std.specs.List.Sorted.{IsStrictlyIncreasing};
ghost use Rattle.lsm_store.specs.World.{LeavesOnly, Narrows, Same};
ghost use Rattle.lsm_log.specs.LogNames.{record_name};
ghost use Rattle.lsm_commit.specs.Stored.{CountsFaults};
ghost use Rattle.lsm_commit.specs.Foreign.{Spares};
ghost use Rattle.lsm_log.specs.Changes.{IsBelow, IsNoneOf, ClearsRecords, AreCleared};

use crate::loading::first_from;
use crate::record_name;
use lsm_below::{Error, SeqNo};
use lsm_commit::foreign_names_spare;
use lsm_store::{Store, StoreError};

fn remove_record<S: Store>(store: &mut S, number: SeqNo) -> Result<(), Error>
    ensures gone { S.tells → OnOk result ((S.world store.new).gives (record_name number) ≡ None) }
    ensures clears { S.tells → ClearsRecords (λ k. k ≡ number) (S.world store.old) (S.world store.new) }
    ensures any_moment { S.tells → LeavesOnly (S.world store.old) (S.world store.new) (AreCleared (λ k. k ≡ number) (S.world store.old)) }
    ensures only { IfErr result (λ e. e ≡ Error.Store) }
    ensures counts { CountsFaults (S.world store.old) (S.world store.new) result }
{
    match store.remove(record_name(number).as_str()) {
        Ok(()) => Ok(()),
        Err(StoreError::Fault | StoreError::NothingDone) => Err(Error::Store),
        Err(StoreError::OutOfMemory) => unreachable!(),
    }
}

/// Removes each of these records in turn.
fn remove_each<S: Store>(store: &mut S, numbers: &[SeqNo]) -> Result<(), Error>
    ensures gone { S.tells → OnOk result ((k : ℕ) → Contains numbers.now k → (S.world store.new).gives (record_name k) ≡ None) }
    ensures clears { S.tells → ClearsRecords (Contains numbers.now) (S.world store.old) (S.world store.new) }
    ensures any_moment { S.tells → LeavesOnly (S.world store.old) (S.world store.new) (AreCleared (Contains numbers.now) (S.world store.old)) }
    ensures only { IfErr result (λ e. e ≡ Error.Store) }
    ensures counts { CountsFaults (S.world store.old) (S.world store.new) result }
{
    for number in numbers {
        remove_record(store, *number)?;
    }
    Ok(())
}

/// The numbers before a place.
fn before(numbers: &[SeqNo], at: usize) -> &[SeqNo]
    requires { at ≤ length numbers.now }
    ensures { result.now ≡ take at numbers.now }
{
    numbers.split_at(at).0
}

/// Puts on the disk what was removed, if anything was, so that a store in memory need not keep it for a crash. Where there is
/// no memory for that, a crash may still bring it back.
fn settle_removed<S: Store>(store: &mut S, any: bool) -> Result<(), Error>
    ensures narrows { S.tells → Narrows (S.world store.old) (S.world store.new) }
    ensures none { S.tells → any ≡ false → Same (S.world store.old) (S.world store.new) }
    ensures only { IfErr result (λ e. e ≡ Error.Store) }
    ensures counts { CountsFaults (S.world store.old) (S.world store.new) result }
{
    if !any {
        return Ok(());
    }
    match store.settle() {
        Ok(()) | Err(StoreError::OutOfMemory) => Ok(()),
        Err(StoreError::Fault | StoreError::NothingDone) => Err(Error::Store),
    }
}

/// Removes those of these records that are numbered below `from`, rising, and stops at the first that can't be removed.
/// After Ok each is absent, and the store's names are settled, so that a crash doesn't bring it back, unless there was no memory
/// for that. What other names give is as it was. The cost is linear in the records that it removes, and that of one
/// `Store::settle`.
///
/// # Errors
///
/// `Store` where the store failed: some of them may have been removed.
pub fn remove_below<S: Store>(store: &mut S, from: SeqNo, numbers: &[SeqNo]) -> Result<(), Error>
    requires { IsStrictlyIncreasing numbers.now }
    ensures gone { S.tells → OnOk result ((k : ℕ) → Contains numbers.now k → k < from → (S.world store.new).gives (record_name k) ≡ None) }
    ensures clears { S.tells → ClearsRecords (IsBelow from) (S.world store.old) (S.world store.new) }
    // A name of none of these records gives what it gave: one that was absent isn't brought back.
    ensures others { S.tells → (n : List ℕ) → IsNoneOf (Contains numbers.now) n → (S.world store.new).gives n ≡ (S.world store.old).gives n }
    ensures any_moment { S.tells → LeavesOnly (S.world store.old) (S.world store.new) (AreCleared (IsBelow from) (S.world store.old)) }
    // What is stored of a tree beside them stays so.
    ensures stored { S.tells → Spares (S.world store.old) (S.world store.new) }
    ensures only { IfErr result (λ e. e ≡ Error.Store) }
    ensures counts { CountsFaults (S.world store.old) (S.world store.new) result }
{
    foreign_names_spare(store);
    let at = first_from(numbers, from);
    remove_each(store, before(numbers, at))?;
    settle_removed(store, at > 0)
}
