// A clear, and what it adds to a journal.
ghost use Rattle.std.specs.Prelude.{◌≡◌, ◌⊎◌};
ghost use Rattle.lsm_state.specs.Commits.{Upholds};
ghost use Rattle.lsm_state.specs.Files.{ClearsFiles};
ghost use Rattle.lsm_recorded.specs.Flushing.{RefusesUnnoted};
ghost use Rattle.lsm_recorded.specs.Clearing.{ClearsNoted};

use crate::noting::{beside_copies, put, put_entries};
use crate::pass::Pass;
use crate::recorded::Recorded;
use lsm_below::SeqNo;
use lsm_journal::{clear_entries, clear_noting};
use lsm_model::reads_are_sound;
use lsm_parts::Error;
use lsm_state::clears_keep_reads;
use lsm_store::Store;

impl<S: Store> Recorded<S> {
    ghost use Rattle.lsm_recorded.specs.Recorded.{StaysBehind};

    /// Clears the tree, as `TreeState::clear`, and notes the clear where it is answered. Snapshots up to the number that it
    /// answers see what they saw, and where it is refused all do. The cost is that of the tree's call.
    ///
    /// # Errors
    ///
    /// As `TreeState::clear`; and `OutOfMemory`, before anything is done, where there is no room for the note: then nothing
    /// changes.
    pub fn clear(&mut self, pass: &mut Pass) -> Result<SeqNo, Error>
        ensures clears { RefusesUnnoted result self.old self.new pass.old pass.new ⊎ ClearsNoted result self.old self.new pass.old pass.new }
        // What a crash leaves, and what the call does to files.
        ensures upholds { S.tells → Upholds (S.world self.old.tree.store) (S.world self.new.tree.store) self.old.tree.core self.new.tree.core }
        ensures files { ClearsFiles result S.tells S.world self.old.tree self.new.tree }
        ensures views { StaysBehind self.old.journal self.new.journal self.old.tree.core self.new.tree.core }
        ensures opened { self.new.opened ≡ self.old.opened }
    {
        reads_are_sound();
        clears_keep_reads();
        self.is_upheld();
        let made = clear_entries(self.alloc, self.core.seqno().get());
        let both = beside_copies(self.alloc, &mut self.journal, &mut pass.entries, made);
        let Ok((entries, copies)) = both else {
            return Err(Error::OutOfMemory);
        };
        let (cleared, entries) = clear_noting(&mut self.core, entries);
        put!(self, pass, entries, copies);
        cleared
    }
}
