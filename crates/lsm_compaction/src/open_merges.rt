// The open merges of a tree.
ghost use Rattle.std.specs.Prelude.{◌≡◌, ◌⊎◌, ℕ, ◌≤◌, ◌&&◌, not, true, false, IfOk, IfErr, IsErrOf, OnOk, OnErr, IsTrue, ◌↔◌, MatchOption, ◌<◌, length};
ghost use Rattle.std.specs.List.{HoldsAt};
ghost use Rattle.lsm_model.specs.Steps.{among};
ghost use Rattle.lsm_compaction.specs.OpenMerges.{IsMergeOf, IsOpenIn, AreOpen, hides, no_merges, opened, ended, without};

use crate::{CompactionJob, MergeSettings};
use lsm_below::{Error, TableId};
use lsm_versions::{CompactionState, LIMIT};
use std::alloc::{AllocError, Global};
use std::collections::HashSet;
use std::marker::Model;

fn have_same_ids(ids: &HashSet<TableId>, others: &HashSet<TableId>) -> bool
    ensures { IsTrue result ↔ ((i : ℕ) → among ids.now.keys i ≡ among others.now.keys i) }
{
    ids == others
}

/// An open merge: its number, the ids of its tables, and how it is done.
#[derive(Drop)]
struct OpenMerge {
    number: u64,
    ids: HashSet<TableId>,
    settings: MergeSettings,
}

impl Model for OpenMerge {
    ghost use Rattle.lsm_compaction.specs.OpenMerges.{SeenOpenMerge};

    ghost Value = { SeenOpenMerge };

    ghost view = { λ m. record { number = m.number; ids = m.ids.keys; settings = m.settings } };
}

impl OpenMerge {
    fn new(
        number: u64,
        ids: &HashSet<TableId>,
        settings: MergeSettings,
    ) -> Result<OpenMerge, AllocError>
        ensures { IfOk result (λ m. m ≡ record { number = number; ids = ids.now.keys; settings = settings }) }
    {
        Ok(OpenMerge {
            number,
            ids: ids.clone()?,
            settings,
        })
    }

    /// Whether it is the merge of this job.
    fn is_of(&self, job: &CompactionJob) -> bool
        ensures { IsTrue result ↔ IsMergeOf job.now self.now }
    {
        let settings = job.settings();
        self.number == job.number()
            && self.settings.dest_level == settings.dest_level
            && self.settings.target_size == settings.target_size
            && self.settings.watermark == settings.watermark
            && have_same_ids(&self.ids, job.ids())
    }
}

/// The place of the merge of this number.
fn place_of(merges: &[OpenMerge], number: u64) -> Option<usize>
    ensures { MatchOption result
        (without number merges.now ≡ merges.now)
        (λ at. (at < length merges.now) × HoldsAt (λ m. m.number ≡ number) merges.now at) }
{
    merges.iter().position(|merge| merge.number == number)
}

/// Takes the tables of a merge out of those that are in use.
fn show_tables(state: &mut CompactionState, merge: &OpenMerge)
    ensures { (i : ℕ) → among state.new i ≡ (among state.old i && not (among merge.now.ids i)) }
{
    state.hidden_set_mut().show(&merge.ids);
}

/// The open merges of a tree, in the order in which they were opened, and the tables that they work on. Each has its own
/// number, and no table is one of two.
///
/// # Examples
///
/// ```text
/// let mut merges = OpenMerges::new(alloc);
/// let number = merges.open(job.ids(), job.settings())?; // its tables are in use from here on
/// assert!(rt; merges.is_open(&job));
/// merges.close(number); // when it ends, however it does
/// ```
#[derive(Drop)]
pub struct OpenMerges {
    state: CompactionState,
    merges: Vec<OpenMerge>,
    next: u64,
}

impl Model for OpenMerges {
    ghost use Rattle.std.specs.Prelude.{◌<◌};
    ghost use Rattle.std.specs.List.{AllByRecursion};
    ghost use Rattle.lsm_compaction.specs.OpenMerges.{SeenMerges, AreHidden};

    ghost Value = { SeenMerges };

    ghost view = { λ s. record { next = s.next; underway = s.merges.items } };

    ghost invariant = { λ s. AreHidden s.state s.merges.items × AllByRecursion (λ m. m.number < s.next) s.merges.items };
}

impl OpenMerges {
    /// No open merges. It takes no memory.
    pub fn new(alloc: Global) -> OpenMerges
        ensures { result ≡ no_merges }
    {
        OpenMerges {
            state: CompactionState::new(alloc),
            merges: Vec::new(alloc),
            next: 0,
        }
    }

    /// What they always meet: each has its own number, and no table is one of two.
    pub fn facts(&self)
        ensures { AreOpen self.now }
    {
        let _ = &self.merges;
    }

    /// The tables that they work on, as strategies are told them.
    pub fn compaction_state(&self) -> &CompactionState
        ensures { (i : ℕ) → among result.now i ≡ hides self.now.underway i }
    {
        &self.state
    }

    /// Whether a table is in use. The cost is constant.
    pub fn is_compacting(&self) -> bool
        ensures { IsTrue result ↔ ((i : ℕ) × (hides self.now.underway i ≡ true)) }
    {
        !self.state.hidden_set().is_empty()
    }

    /// Adds a merge, given the ids of its tables and its settings, and returns its number. The cost is linear in the ids.
    ///
    /// # Errors
    ///
    /// `OutOfNumbers` where 2^63 merges were opened, and `OutOfMemory`. Refused, it changes nothing.
    pub fn open(&mut self, ids: &HashSet<TableId>, settings: MergeSettings) -> Result<u64, Error>
        requires free { (i : ℕ) → among ids.now.keys i ≡ true → hides self.old.underway i ≡ false }

        ensures number { IfOk result (λ n. n ≡ self.old.next) }
        // The merge stands after those that were opened before.
        ensures ok { OnOk result (self.new ≡ opened ids.now.keys settings self.old) }
        ensures err { OnErr result (self.new ≡ self.old) }
        ensures out_of_numbers { IsErrOf result Error.OutOfNumbers → LIMIT ≤ self.old.next }
        ensures only { IfErr result (λ e. (e ≡ Error.OutOfMemory) ⊎ (e ≡ Error.OutOfNumbers)) }
    {
        let number = self.next;
        if number >= LIMIT {
            return Err(Error::OutOfNumbers);
        }
        let merge = OpenMerge::new(number, ids, settings)?;
        self.merges.try_reserve(1)?;
        self.state.hidden_set_mut().hide(ids)?;
        if self.merges.push(merge).is_err() {
            // There is room for it.
            unreachable!()
        }
        self.next = number + 1;
        Ok(number)
    }

    /// Whether a job is one of them: its number, the ids of its tables, its destination, target and watermark. The cost is
    /// linear in the merges, and in the ids of the job.
    pub fn is_open(&self, job: &CompactionJob) -> bool
        ensures { IsTrue result ↔ IsOpenIn job.now self.now.underway }
    {
        self.merges.iter().any(|merge| merge.is_of(job))
    }

    /// Ends the merge of this number, where it is open: its tables aren't in use any more. The cost is linear in the merges,
    /// and in the ids of that one.
    pub fn close(&mut self, number: u64)
        ensures { self.new ≡ ended number self.old }
    {
        if let Some(at) = place_of(&self.merges, number) {
            let merge = self.merges.remove(at);
            show_tables(&mut self.state, &merge);
        }
    }
}
