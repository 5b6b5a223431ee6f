// Writes of a logged tree.
ghost use Rattle.std.specs.Prelude.{◌≡◌, false};
ghost use Rattle.lsm_commit.specs.Stored.{CountsFaults};
ghost use Rattle.lsm_state.specs.Commits.{UpholdsFiles};
ghost use Rattle.lsm_state.specs.Recording.{RecordsBatch};
ghost use Rattle.lsm_logged.specs.Keeping.{is_unsure, AreKnown};
ghost use Rattle.lsm_logged.specs.Writing.{WritesLogged, WritesAct};

use crate::Logged;
use lsm_below::{Error, SeqNo, UserKey, plain_numbers_are_read};
use lsm_model::Op;
use lsm_state::flushes_are_deeds;
use lsm_store::Store;

impl<S: Store> Logged<S> {
    /// `write`, where no outcome is unknown.
    fn write_certain(&mut self, ops: Vec<(UserKey, Op)>) -> Result<SeqNo, Error>
        requires { is_unsure self.old ≡ false }
        ensures writes { WritesLogged ops.items result self.old self.new }
        ensures records { S.tells → RecordsBatch self.old.core.seqno ops.items (S.world self.old.store) (S.world self.new.store) result }
        ensures upholds { S.tells → UpholdsFiles (S.world self.old.store) (S.world self.new.store) self.old.core self.new.core }
        ensures counts { CountsFaults (S.world self.old.store) (S.world self.new.store) result }
    {
        self.tree.is_upheld();
        let number = self.tree.seqno().get();
        self.numbers.push(number)?;
        match self.tree.write_behind_record(ops) {
            Ok(number) => Ok(number),
            Err(Error::CommitUnknown) => {
                self.doubted = true;
                Err(Error::CommitUnknown)
            }
            Err(error) => {
                self.numbers.pop();
                Err(error)
            }
        }
    }

    /// Writes a batch under the next sequence number n, all of it or none, makes it visible, and returns n, once its record
    /// `log/<n>` is in the store: no crash takes it from then on. All growths are made before that. An empty batch has a
    /// number and a record too.
    ///
    /// # Errors
    ///
    /// `Unrecoverable` after a `CommitUnknown`, before every other and with no store call. Else as `TreeState::write`:
    /// `OutOfNumbers`, `KeyTooLong`, `ValueTooLong`, `DuplicateKey`, `OutOfMemory`; and `Store` where putting the record
    /// failed and is known to have done nothing. Then nothing changes, and no number is used. `CommitUnknown` where putting
    /// it failed otherwise: the number is used, the batch isn't in the tree, and once the tree is opened again all of it is
    /// there, or nothing.
    pub fn write(&mut self, ops: Vec<(UserKey, Op)>) -> Result<SeqNo, Error>
        // What it answers, and makes of the tree.
        ensures writes { WritesLogged ops.items result self.old self.new }
        // What it makes of the store, name by name and at each moment.
        ensures records { S.tells → is_unsure self.old ≡ false → RecordsBatch self.old.core.seqno ops.items (S.world self.old.store) (S.world self.new.store) result }
        // As the theory sees it: the batch is acknowledged, or of unknown outcome.
        ensures acts { S.tells → WritesAct ops.items result (S.world self.old.store) (S.world self.new.store) self.old self.new }
        // Each record that is there is known, so it can be removed.
        ensures known { S.tells → AreKnown (S.world self.old.store) self.old.numbers → AreKnown (S.world self.new.store) self.new.numbers }
        // The tree's files stay stored, and at each moment a crash leaves one of its versions.
        ensures upholds { S.tells → UpholdsFiles (S.world self.old.store) (S.world self.new.store) self.old.core self.new.core }
        ensures counts { CountsFaults (S.world self.old.store) (S.world self.new.store) result }
    {
        plain_numbers_are_read();
        flushes_are_deeds();
        self.tree.facts();
        self.tree.is_upheld();
        if self.is_uncertain() {
            return Err(Error::Unrecoverable);
        }
        self.write_certain(ops)
    }
}
