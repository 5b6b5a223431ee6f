// Records that the version has passed are removed.
ghost use Rattle.std.specs.Prelude.{◌≡◌, OnOk, OnErr, IfErr};
ghost use Rattle.std.specs.List.Sorted.{IsStrictlyIncreasing};
ghost use Rattle.lsm_commit.specs.Stored.{CountsFaults};
ghost use Rattle.lsm_state.specs.Commits.{UpholdsFiles};
ghost use Rattle.lsm_logged.specs.Removing.{log_from_of, Forgets, KeepsKnown, RemovesPassed};

use crate::Logged;
use lsm_below::{Error, SeqNo, plain_numbers_are_read};
use lsm_log::first_from;
use lsm_store::Store;

/// Forgets the numbers below this one.
fn forget_below(numbers: &mut Vec<SeqNo>, from: SeqNo)
    requires { IsStrictlyIncreasing numbers.old.items }
    ensures { Forgets from numbers.old.items numbers.new.items }
{
    let at = first_from(numbers, from);
    drop(numbers.drain(..at));
}

impl<S: Store> Logged<S> {
    /// Removes the records below the version's `log_from`, rising, and forgets their numbers. What a fault leaves is tried
    /// again by the next call.
    pub(crate) fn remove_passed(&mut self) -> Result<(), Error>
        ensures removes { S.tells → RemovesPassed (log_from_of self.old.core) self.old.numbers (S.world self.old.store) (S.world self.new.store) result }
        ensures upholds { S.tells → UpholdsFiles (S.world self.old.store) (S.world self.new.store) self.old.core self.new.core }
        ensures core { self.new.core ≡ self.old.core }
        ensures doubted { self.new.doubted ≡ self.old.doubted }
        ensures known { S.tells → KeepsKnown (S.world self.old.store) (S.world self.new.store) self.old.numbers self.new.numbers }
        ensures forgets { OnOk result (Forgets (log_from_of self.old.core) self.old.numbers self.new.numbers) }
        ensures keeps { OnErr result (self.new.numbers ≡ self.old.numbers) }
        ensures only { IfErr result (λ e. e ≡ Error.Store) }
        ensures counts { CountsFaults (S.world self.old.store) (S.world self.new.store) result }
    {
        plain_numbers_are_read();
        self.counter_fits();
        let from = self.tree.current_version().log_from();
        self.tree.remove_records_below(from, &self.numbers)?;
        forget_below(&mut self.numbers, from);
        Ok(())
    }
}
