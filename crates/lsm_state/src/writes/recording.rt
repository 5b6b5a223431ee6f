// Writes whose record is put first.
ghost use Rattle.std.specs.Prelude.{◌≡◌, ◌⊎◌, None, Some, IfOk, IfErr, OnOk, OnErr, IsSome};
ghost use Rattle.std.specs.List.{AllByRecursion};
ghost use Rattle.lsm_tables.specs.Image.{Fits};
ghost use Rattle.lsm_model.specs.Ops.{op_entries};
ghost use Rattle.lsm_commit.specs.Stored.{CountsFaults};
ghost use Rattle.lsm_log.specs.Records.{IsRecordOf};
ghost use Rattle.lsm_parts.specs.Held.{put_all_first, TakesFirstBack};
ghost use Rattle.lsm_state.specs.Refusals.{batch_refusal};
ghost use Rattle.lsm_state.specs.Recording.{Records, RecordsBatch, WritesBehindRecord};
ghost use Rattle.lsm_state.specs.Commits.{UpholdsFiles};

use crate::TreeState;
use crate::writes::{check_batch, make_entries};
use lsm_below::{SeqNo, UserKey};
use lsm_commit::crashes_leave_versions;
use lsm_log::{encode, put_record};
use lsm_memtable::Revocable;
use lsm_model::Op;
use lsm_parts::{Error, Memtables};
use lsm_store::Store;
use std::alloc::Global;

/// The record of a batch.
fn prepare(alloc: Global, number: SeqNo, ops: &[(UserKey, Op)]) -> Result<Vec<u8>, Error>
    ensures record_of { IfOk result (λ content. IsRecordOf number ops.now content.items) }
    ensures accepted { OnOk result (batch_refusal number ops.now ≡ None) }
    ensures err { IfErr result (λ e. (batch_refusal number ops.now ≡ Some e) ⊎ (e ≡ Error.OutOfMemory)) }
{
    check_batch(alloc, number, ops)?;
    Ok(encode(alloc, number, ops)?)
}

/// Puts the entries of a batch, which fit files, into the active memtable, and answers what takes them back. One alone
/// needs no list of them. Refused only for want of memory, and then nothing changes.
fn put_revocably(
    memtables: &mut Memtables,
    alloc: Global,
    number: SeqNo,
    mut ops: Vec<(UserKey, Op)>,
) -> Result<Revocable, Error>
    requires { AllByRecursion Fits (op_entries number ops.items) }
    ensures ok { OnOk result (memtables.new ≡ put_all_first (op_entries number ops.items) memtables.old) }
    ensures revocable { IfOk result (λ r. TakesFirstBack r memtables.old memtables.new) }
    ensures err { OnErr result (memtables.new ≡ memtables.old) }
    ensures memory { IfErr result (λ e. e ≡ Error.OutOfMemory) }
{
    if ops.len() != 1 {
        return memtables.insert_all_revocably(make_entries(alloc, number, ops)?);
    }
    let Some((key, op)) = ops.pop() else {
        unreachable!()
    };
    memtables.insert_revocably(op.into_entry(key, number))
}

/// Puts entries into the active memtable, once this record is put. They stand there before, so that no growth is refused
/// after the record, and are taken back where it is refused.
fn put_behind_record<S: Store>(
    memtables: &mut Memtables,
    store: &mut S,
    alloc: Global,
    number: SeqNo,
    content: &[u8],
    ops: Vec<(UserKey, Op)>,
) -> Result<(), Error>
    requires { AllByRecursion Fits (op_entries number ops.items) }
    ensures ok { OnOk result (memtables.new ≡ put_all_first (op_entries number ops.items) memtables.old) }
    ensures err { OnErr result (memtables.new ≡ memtables.old) }
    ensures records { S.tells → Records number content.now (S.world store.old) (S.world store.new) result }
    ensures only { IfErr result (λ e. (e ≡ Error.OutOfMemory) ⊎ (e ≡ Error.Store) ⊎ (e ≡ Error.CommitUnknown)) }
    ensures counts { CountsFaults (S.world store.old) (S.world store.new) result }
{
    crashes_leave_versions(store);
    let batch = put_revocably(memtables, alloc, number, ops)?;
    if let Err(error) = put_record(store, number, content) {
        memtables.take_back(batch);
        return Err(error);
    }
    Ok(())
}

impl<S: Store> TreeState<S> {
    /// `write`, after a record of the batch: makes all growths, puts the record `log/<n>` of the number n that the batch
    /// draws, and only then writes the batch. It is the call of a log above the tree, which asks before it whether an outcome
    /// is unknown.
    ///
    /// # Errors
    ///
    /// As `write`, with no store call, and `Store` where putting the record failed and is known to have done nothing: then nothing
    /// changes, in the store too, and no number is used. `CommitUnknown` where putting it failed otherwise: the number is used, and
    /// nothing of the batch is in the tree.
    ///
    /// # Examples
    ///
    /// ```text
    /// let number = tree.write_behind_record(vec![in alloc; (key, Op::Set(value))]?)?;
    /// ```
    pub fn write_behind_record(&mut self, ops: Vec<(UserKey, Op)>) -> Result<SeqNo, Error>
        ensures writes { WritesBehindRecord ops.items result self.old.core self.new.core }
        ensures records { S.tells → RecordsBatch self.old.core.seqno ops.items (S.world self.old.store) (S.world self.new.store) result }
        ensures no_call { IsSome (batch_refusal self.old.core.seqno ops.items) → self.new.store ≡ self.old.store }
        // A call of the store failed exactly where the answer says so.
        ensures counts { CountsFaults (S.world self.old.store) (S.world self.new.store) result }
        // The tree's files stay stored, and at each moment a crash leaves one of its versions.
        ensures upholds { S.tells → UpholdsFiles (S.world self.old.store) (S.world self.new.store) self.old.core self.new.core }
    {
        crashes_leave_versions(&self.store);
        let number = self.seqno.get();
        let content = prepare(self.alloc, number, &ops)?;
        let put = put_behind_record(
            &mut self.memtables,
            &mut self.store,
            self.alloc,
            number,
            &content,
            ops,
        );
        match put {
            Ok(()) => {
                self.seqno.set(number + 1);
                self.visible_seqno.fetch_max(number + 1);
                Ok(number)
            }
            Err(Error::CommitUnknown) => {
                self.seqno.set(number + 1);
                Err(Error::CommitUnknown)
            }
            Err(error) => Err(error),
        }
    }
}
