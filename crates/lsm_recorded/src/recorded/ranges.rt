// Reads of many keys that a journal keeps.
ghost use Rattle.std.specs.Prelude.{◌≡◌, ◌≤◌, [], ◌∷◌, None, OnOk, OnErr};
ghost use Rattle.lsm_below.specs.Entries.{above};
ghost use Rattle.lsm_model.specs.Views.{held};
ghost use Rattle.lsm_model.specs.Beginnings.{shown_by};
ghost use Rattle.lsm_model.specs.Journal.{ReadAgrees};
ghost use Rattle.lsm_model.specs.declared.journal.JournalEntry.TheVariants.{Read as ReadEntry};
ghost use Rattle.lsm_model.specs.declared.question.Question.TheVariants.{Between, Prefix};
ghost use Rattle.lsm_model.specs.declared.question.Answer.TheVariants.{Pairs as PairsAnswer};
ghost use Rattle.lsm_state.specs.Ranges.{Ranges, Prefixes, IsListStep};
ghost use Rattle.lsm_recorded.specs.Calls.{ReadsPairs, NotesPairs};
ghost use Rattle.lsm_recorded.specs.Passes.{Notes};
ghost use Rattle.lsm_state.specs.Listing.{Lists, ListsPrefix};

use crate::pass::{Pass, note_entry};
use crate::recorded::Recorded;
use lsm_below::{SeqNo, UserKey, share};
use lsm_iter::{Pairs, TreeIter};
use lsm_journal::{pairs_entry, question_between, share_pairs};
use lsm_model::{KvPairs, Question, reads_are_sound};
use lsm_parts::Error;
use lsm_store::Store;
use std::alloc::AllocError;
use std::ops::Bound;

impl<S: Store> Recorded<S> {
    /// What a snapshot shows in bounds, as `TreeState::range`: an iterator that makes no list, and no entry of the
    /// journal. Outside dropped ranges what it has left is what the replay of the journal has there.
    pub fn create_range(
        &self,
        bounds: &(Bound<UserKey>, Bound<UserKey>),
        snapshot: SeqNo,
    ) -> Result<TreeIter, Error>
        ensures { ReadsPairs (Between bounds.now.0 bounds.now.1) (λ iter. iter.left) (λ c left. Ranges c None bounds.now.0 bounds.now.1 snapshot left) snapshot result self.now }
    {
        reads_are_sound();
        if snapshot < self.least {
            return Err(Error::OutOfOrder);
        }
        self.core.range(bounds, snapshot, None)
    }

    /// What a snapshot shows of the keys that begin so, as `create_range`.
    pub fn create_prefix(&self, prefix: &UserKey, snapshot: SeqNo) -> Result<TreeIter, Error>
        ensures { ReadsPairs (Prefix prefix.now) (λ iter. iter.left) (λ c left. Prefixes c None prefix.now snapshot left) snapshot result self.now }
    {
        reads_are_sound();
        if snapshot < self.least {
            return Err(Error::OutOfOrder);
        }
        self.core.prefix(prefix.as_slice(), snapshot, None)
    }

    /// What a snapshot shows in bounds, lent by the tree as `TreeState::pairs`: it makes no list, and no entry of the journal.
    pub fn pairs<'a>(
        &'a self,
        bounds: &(Bound<UserKey>, Bound<UserKey>),
        snapshot: SeqNo,
    ) -> Result<Pairs<'a>, Error>
        ensures { ReadsPairs (Between bounds.now.0 bounds.now.1) (λ pairs. pairs) (λ c left. Ranges c None bounds.now.0 bounds.now.1 snapshot left) snapshot result self.now }
    {
        reads_are_sound();
        if snapshot < self.least {
            return Err(Error::OutOfOrder);
        }
        self.core.pairs(bounds, snapshot, None)
    }

    /// What a snapshot shows of the keys that begin so, lent by the tree as `pairs` are.
    pub fn pairs_with_prefix<'a>(
        &'a self,
        prefix: &UserKey,
        snapshot: SeqNo,
    ) -> Result<Pairs<'a>, Error>
        ensures { ReadsPairs (Prefix prefix.now) (λ pairs. pairs) (λ c left. Prefixes c None prefix.now snapshot left) snapshot result self.now }
    {
        reads_are_sound();
        if snapshot < self.least {
            return Err(Error::OutOfOrder);
        }
        self.core
            .pairs_with_prefix(prefix.as_slice(), snapshot, None)
    }

    /// The pairs that a snapshot shows in bounds, as `TreeState::range`; and the read is appended to the
    /// journal and the pass, which share the one list of the pairs that is returned. Outside dropped ranges they are what
    /// the replay of the journal has there.
    pub fn range(
        &mut self,
        pass: &mut Pass,
        bounds: &(Bound<UserKey>, Bound<UserKey>),
        snapshot: SeqNo,
    ) -> Result<KvPairs, Error>
        ensures { NotesPairs (Between bounds.now.0 bounds.now.1) (λ c pairs. Lists c bounds.now.0 bounds.now.1 snapshot pairs) snapshot result self.old self.new pass.old pass.new }
    {
        let pairs = self.pairs(bounds, snapshot)?;
        let list = share_pairs(self.alloc, pairs)?;
        let question = question_between(self.alloc, &bounds.0, &bounds.1)?;
        self.note_listed(pass, snapshot, question, &list)?;
        Ok(list)
    }

    /// The pairs of the keys that begin so, as `TreeState::prefix`; noted as those of a range.
    pub fn prefix(
        &mut self,
        pass: &mut Pass,
        prefix: &UserKey,
        snapshot: SeqNo,
    ) -> Result<KvPairs, Error>
        ensures { NotesPairs (Prefix prefix.now) (λ c pairs. ListsPrefix c prefix.now snapshot pairs) snapshot result self.old self.new pass.old pass.new }
    {
        let pairs = self.pairs_with_prefix(prefix, snapshot)?;
        let list = share_pairs(self.alloc, pairs)?;
        let question = Question::Prefix(share(prefix)?);
        self.note_listed(pass, snapshot, question, &list)?;
        Ok(list)
    }

    /// The read that was answered by these pairs is appended to the journal and the pass, which share their list. Refused
    /// only for want of memory.
    fn note_listed(
        &mut self,
        pass: &mut Pass,
        snapshot: SeqNo,
        question: Question,
        pairs: &KvPairs,
    ) -> Result<(), AllocError>
        requires step { IsListStep self.old.tree.core question snapshot pairs.now }
        requires above { above (held self.old.opened) ≤ snapshot }
        ensures replay { OnOk result (ReadAgrees (shown_by self.old.opened) self.old.journal (ReadEntry snapshot question (PairsAnswer pairs.now))) }
        ensures noted { OnOk result (Notes (ReadEntry snapshot question (PairsAnswer pairs.now) ∷ []) self.old.journal self.new.journal pass.old pass.new) }
        ensures tree { self.new.tree ≡ self.old.tree }
        ensures opened { self.new.opened ≡ self.old.opened }
        ensures err { OnErr result ((self.new ≡ self.old) × (pass.new ≡ pass.old)) }
    {
        reads_are_sound();
        let entry = pairs_entry(snapshot, question, pairs)?;
        note_entry(self.alloc, &mut self.journal, &mut pass.entries, entry)?;
        Ok(())
    }
}
