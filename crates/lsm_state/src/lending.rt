// The store is lent to a log above the tree, for names that the tree itself doesn't read.
ghost use Rattle.std.specs.Prelude.{◌≡◌, ◌⊎◌, ◌<◌, ℕ, List, None, Contains, IfOk, IfErr, OnOk, IsErrOf};
ghost use Rattle.std.specs.List.Sorted.{IsStrictlyIncreasing};
ghost use Rattle.lsm_store.specs.World.{Same, LeavesOnly};
ghost use Rattle.lsm_commit.specs.Stored.{CountsFaults};
ghost use Rattle.lsm_log.specs.LogNames.{record_name};
ghost use Rattle.lsm_log.specs.Changes.{IsBelow, IsNoneOf, ClearsRecords, AreCleared};
ghost use Rattle.lsm_log.specs.Logs.{IsRecordAt, IsNoRecordAt, IsLogAt, IsBadLog};
ghost use Rattle.lsm_state.specs.Commits.{UpholdsFiles};

use crate::{Found, TreeState};
use lsm_below::{Error, SeqNo};
use lsm_commit::foreign_names_spare;
use lsm_log::{LogNumbers, Record, check_log, read_record, remove_below};
use lsm_store::Store;

impl<S: Store> Found<S> {
    /// Checks the log that the store has, from a number on, as `check_log` of `lsm_log`. Nothing changes.
    ///
    /// # Errors
    ///
    /// `Unrecoverable` where a name of the log is bad, or a record from that number on; `OutOfMemory`, `Store`.
    pub fn check_log(&mut self, from: SeqNo) -> Result<LogNumbers, Error>
        ensures read { S.tells → IfOk result (λ l. IsLogAt (S.world self.old.store).gives from l.passed.items l.numbers.items) }
        ensures bad { S.tells → IsErrOf result Error.Unrecoverable → IsBadLog (S.world self.old.store).gives from }
        ensures only { IfErr result (λ e. ((e ≡ Error.OutOfMemory) ⊎ (e ≡ Error.Store)) ⊎ (e ≡ Error.Unrecoverable)) }
        ensures same { S.tells → Same (S.world self.old.store) (S.world self.new.store) }
        ensures files { self.new.files ≡ self.old.files }
        ensures counts { CountsFaults (S.world self.old.store) (S.world self.new.store) result }
    {
        check_log(self.alloc, &mut self.store, from)
    }
}

impl<S: Store> TreeState<S> {
    /// The record of a log that has this number, as `read_record` of `lsm_log`. The tree has no part in it, and nothing
    /// changes. For the log above a tree (`Logged`).
    ///
    /// # Errors
    ///
    /// `Unrecoverable` where there is no record of that number; `OutOfMemory`, `Store`.
    pub fn read_record(&mut self, number: SeqNo) -> Result<Record, Error>
        ensures read { S.tells → IfOk result (IsRecordAt (S.world self.old.store).gives number) }
        ensures number { IfOk result (λ r. r.number ≡ number) }
        ensures bad { S.tells → IsErrOf result Error.Unrecoverable → IsNoRecordAt (S.world self.old.store).gives number }
        ensures only { IfErr result (λ e. ((e ≡ Error.OutOfMemory) ⊎ (e ≡ Error.Store)) ⊎ (e ≡ Error.Unrecoverable)) }
        ensures same { S.tells → Same (S.world self.old.store) (S.world self.new.store) }
        ensures core { self.new.core ≡ self.old.core }
        // The tree's files stay stored, and at each moment a crash leaves one of its versions.
        ensures upholds { S.tells → UpholdsFiles (S.world self.old.store) (S.world self.new.store) self.old.core self.new.core }
        ensures counts { CountsFaults (S.world self.old.store) (S.world self.new.store) result }
    {
        foreign_names_spare(&self.store);
        read_record(self.alloc, &mut self.store, number)
    }

    /// Removes those of these records of a log that are numbered below `from`, rising, as `remove_below` of `lsm_log`.
    /// The tree has no part in it. For the log above a tree (`Logged`): it doesn't ask whether a flush holds what they tell.
    ///
    /// # Errors
    ///
    /// `Store` where the store failed: some of them may have been removed.
    pub fn remove_records_below(&mut self, from: SeqNo, numbers: &[SeqNo]) -> Result<(), Error>
        requires { IsStrictlyIncreasing numbers.now }
        ensures gone { S.tells → OnOk result ((k : ℕ) → Contains numbers.now k → k < from → (S.world self.new.store).gives (record_name k) ≡ None) }
        ensures clears { S.tells → ClearsRecords (IsBelow from) (S.world self.old.store) (S.world self.new.store) }
        // A name of none of these records gives what it gave.
        ensures others { S.tells → (n : List ℕ) → IsNoneOf (Contains numbers.now) n → (S.world self.new.store).gives n ≡ (S.world self.old.store).gives n }
        ensures any_moment { S.tells → LeavesOnly (S.world self.old.store) (S.world self.new.store) (AreCleared (IsBelow from) (S.world self.old.store)) }
        ensures core { self.new.core ≡ self.old.core }
        // The tree's files stay stored, and at each moment a crash leaves one of its versions.
        ensures upholds { S.tells → UpholdsFiles (S.world self.old.store) (S.world self.new.store) self.old.core self.new.core }
        ensures only { IfErr result (λ e. e ≡ Error.Store) }
        ensures counts { CountsFaults (S.world self.old.store) (S.world self.new.store) result }
    {
        remove_below(&mut self.store, from, numbers)
    }
}
