// A record is put in one step.
ghost use Rattle.std.specs.Prelude.{◌≡◌, ◌⊎◌, IfErr};
ghost use Rattle.lsm_store.specs.World.{LeavesOnly};
ghost use Rattle.lsm_commit.specs.Stored.{CountsFaults};
ghost use Rattle.lsm_commit.specs.Foreign.{Spares};
ghost use Rattle.lsm_log.specs.Changes.{PutsRecord, IsPut};

use crate::record_name;
use lsm_below::{Error, SeqNo};
use lsm_commit::foreign_names_spare;
use lsm_store::{Store, StoreError};

/// `put_record`, told of the record alone.
fn put_alone<S: Store>(store: &mut S, number: SeqNo, content: &[u8]) -> Result<(), Error>
    ensures puts { S.tells → PutsRecord number content.now (S.world store.old) (S.world store.new) result }
    ensures any_moment { S.tells → LeavesOnly (S.world store.old) (S.world store.new) (IsPut number content.now (S.world store.old)) }
    ensures only { IfErr result (λ e. (e ≡ Error.OutOfMemory) ⊎ (e ≡ Error.Store) ⊎ (e ≡ Error.CommitUnknown)) }
    ensures counts { CountsFaults (S.world store.old) (S.world store.new) result }
{
    match store.replace(record_name(number).as_str(), content) {
        Ok(()) => Ok(()),
        Err(StoreError::OutOfMemory) => Err(Error::OutOfMemory),
        Err(StoreError::NothingDone) => Err(Error::Store),
        Err(StoreError::Fault) => Err(Error::CommitUnknown),
    }
}

/// Makes these bytes the record of this number, in one step: at each moment a crash leaves what the record's file could
/// have before, or all of these bytes; after Ok these bytes alone. Each other name is as it was, also after a refusal.
///
/// ```text
/// let content = encode(alloc, number, &ops)?;
/// put_record(&mut store, number, &content)?;
/// ```
///
/// # Errors
///
/// `OutOfMemory` where a growth was refused, `Store` where the store failed and is known to have done nothing: then
/// nothing is done, and the number isn't used. `CommitUnknown` where the store failed otherwise: whether the record
/// stands is unknown until the log is read again.
pub fn put_record<S: Store>(store: &mut S, number: SeqNo, content: &[u8]) -> Result<(), Error>
    ensures puts { S.tells → PutsRecord number content.now (S.world store.old) (S.world store.new) result }
    ensures any_moment { S.tells → LeavesOnly (S.world store.old) (S.world store.new) (IsPut number content.now (S.world store.old)) }
    // What is stored of a tree beside it stays so.
    ensures stored { S.tells → Spares (S.world store.old) (S.world store.new) }
    ensures only { IfErr result (λ e. (e ≡ Error.OutOfMemory) ⊎ (e ≡ Error.Store) ⊎ (e ≡ Error.CommitUnknown)) }
    ensures counts { CountsFaults (S.world store.old) (S.world store.new) result }
{
    foreign_names_spare(store);
    put_alone(store, number, content)
}
