// A store in memory, with faults that are planned and crashes that are picked.
ghost use Rattle.std.specs.Prelude.{◌≡◌, ◌≢◌, ◌<◌, ◌+◌, ◌-◌, ◌^◌, min, Some, None, IfOk, OnOk, OnErr, IsErrOf, IsSome, option_map, map, if◌then◌else◌, vec_len, vec_capacity};
ghost use Rattle.std.proofs.Common.{inl};
ghost use Rattle.std.specs.String.{string_bytes};
ghost use Rattle.lsm_store.specs.World.{Anything, Only, OldOr, Same, Changes, SettlesNames, Counts, Lists};
ghost use Rattle.lsm_store.specs.Plans.{outcome_at, has_effect, fails, answer_of, MovesOn, AsPlanned};
ghost use Rattle.lsm_store.specs.Held.{removed};
ghost use Rattle.lsm_store.specs.Files.{held_at};
ghost use Rattle.lsm_store.specs.Memory.{HeldAs, EachHeldAs, written_by, synced_by, replaced_by, settled_by, sync_outcome, gives_of, may_of, world_of, KeepsMoment, gives_one, only_now};
ghost use Rattle.lsm_store.specs.Picks.{picked, Crashes, Restarts};

mod content;
mod directory;
mod file;
mod picks;
mod plan;

use crate::{Store, StoreError};
use bytes::Bytes;
use content::Content;
use directory::{
    Files, content_of, doubt_file, end_by, names_of, remove_file, replace_by, settle_by, write_by,
};
pub use picks::Pick;
use picks::{are_possible, files_left};
pub use plan::Fault;
use plan::{Outcome, Plan};
use std::alloc::{AllocError, Global};
use std::collections::HashMap;
use std::snapshot::Snapshot;

/// A call that went by: what was held before it, and after the change that a crash may cut. It takes no bytes.
#[derive(Drop)]
pub struct Moment {
    before: Snapshot<Files>,
    after: Snapshot<Files>,
}

/// A store in memory that tells its content. Its calls fail where that is planned.
///
/// ```text
/// let mut store = MemStore::new(alloc);
/// store.fail(2, Fault::Once);
/// store.write("1", bytes)?;
/// let left = store.crash(&[("1", Pick::Absent)])?;
/// ```
///
/// `P` is always what it is without being named. As a parameter it lets the prover see for itself that a store may be sent to a thread.
#[derive(Drop)]
pub struct MemStore<P: Drop = Vec<Moment>> {
    alloc: Global,
    files: Files,
    // The calls within which a crash may have come.
    past: P,
    failures: u64,
    plan: Plan,
}

impl MemStore {
    /// A store that holds nothing, with no fault planned.
    pub fn new(alloc: Global) -> MemStore
        ensures { Restarts (λ _. None) result }
    {
        MemStore {
            alloc,
            files: HashMap::new(alloc),
            past: Vec::new(alloc),
            failures: 0,
            plan: Plan::NONE,
        }
    }

    /// Plans a fault of the call that is the `call`-th from now, 1 for the next, in place of what was planned before.
    /// A call that is refused for memory isn't counted.
    pub fn fail(&mut self, call: u64, fault: Fault)
        ensures { self.new ≡ record self.old { plan = record { call = call; fault = fault } } }
    {
        self.plan = Plan { call, fault };
    }

    /// The store that a crash at this moment leaves. The first pick that names a name says what is left of it.
    /// Without a pick, a name that is written and not synced, or removed, is absent, as one whose last call was a
    /// write, a sync or a removal that failed; a name that is replaced is as read, as one whose replacement failed.
    /// None where what is picked isn't possible. Refused only for want of memory.
    pub fn crash(&self, picks: &[(&str, Pick<'_>)]) -> Result<Option<MemStore>, AllocError>
        ensures { IfOk result (Crashes self.now.files (picked self.now.files picks.now)) }
    {
        if !are_possible(&self.files, picks) {
            return Ok(None);
        }
        Ok(Some(MemStore {
            alloc: self.alloc,
            files: files_left(self.alloc, &self.files, picks)?,
            past: Vec::new(self.alloc),
            failures: 0,
            plan: Plan::NONE,
        }))
    }

    /// Keeps the moment of a call, before which this was held. There is room.
    fn keep_moment(&mut self, before: Snapshot<Files>)
        requires { vec_len self.old.past < vec_capacity self.old.past }
        ensures past { KeepsMoment before.value self.old.files self.old.past.items self.new.past.items }
        ensures rest { self.new ≡ record self.old { past = self.new.past } }
    {
        let after = Snapshot::of(&self.files);
        let Ok(()) = self.past.push(Moment { before, after }) else {
            unreachable!()
        };
    }

    /// Ends a call with this outcome.
    fn answer(&mut self, outcome: Outcome) -> Result<(), StoreError>
        ensures result { result ≡ answer_of outcome }
        ensures files { self.new.files ≡ self.old.files }
        ensures past { self.new.past ≡ self.old.past }
        ensures failures { self.new.failures ≡ (if fails outcome then min (self.old.failures + 1) (2 ^ 64 - 1) else self.old.failures) }
        ensures plan { MovesOn self.old.plan self.new.plan }
    {
        self.plan = self.plan.next();
        if outcome == Outcome::Done {
            return Ok(());
        }
        self.failures = self.failures.saturating_add(1);
        if outcome == Outcome::NothingDone {
            return Err(StoreError::NothingDone);
        }
        Err(StoreError::Fault)
    }

    /// What comes of the next call. One that is known to do nothing ends here.
    fn begin(&mut self) -> Result<Outcome, StoreError>
        ensures ok { IfOk result (λ outcome. (outcome ≡ outcome_at self.old.plan 1) × (outcome ≢ Outcome.NothingDone) × (self.new ≡ self.old)) }
        ensures told { OnErr result (IsErrOf result StoreError.NothingDone) }
        ensures files { OnErr result (self.new.files ≡ self.old.files) }
        ensures past { OnErr result (self.new.past ≡ self.old.past) }
        ensures failures { OnErr result (self.new.failures ≡ min (self.old.failures + 1) (2 ^ 64 - 1)) }
        ensures plan { OnErr result ((outcome_at self.old.plan 1 ≡ Outcome.NothingDone) × MovesOn self.old.plan self.new.plan) }
    {
        let outcome = self.plan.outcome();
        if outcome == Outcome::NothingDone {
            self.answer(outcome)?;
        }
        Ok(outcome)
    }

    /// `write`, of a content that is made.
    fn write_content(&mut self, name: &str, content: Content) -> Result<(), StoreError>
        ensures changes { Changes name.now Anything Anything (Some content) (world_of self.old) (world_of self.new) result }
        ensures counts { Counts (world_of self.old) (world_of self.new) result }
        ensures held { HeldAs name.now (written_by (outcome_at self.old.plan 1) content) self.old.files self.new.files result }
        ensures planned { AsPlanned (outcome_at self.old.plan 1) self.old.plan self.new.plan result }
    {
        let outcome = self.begin()?;
        write_by(self.alloc, &mut self.files, name, content, outcome)?;
        self.answer(outcome)
    }
}

impl Store for MemStore {
    ghost tells = { Unit {0} };

    ghost world = { world_of };

    ghost gives_one = { λ _ m name. gives_one (held_at m.files name) };

    ghost counts_now = { λ _ m t image le now. inl now };

    ghost only_now = { λ _ m image left. only_now m.files m.past.items image left };

    fn list(&mut self, alloc: Global) -> Result<Vec<String>, StoreError>
        ensures names { IfOk result (λ names. Lists (gives_of self.old.files) (map string_bytes names.items)) }
        ensures same { Same (world_of self.old) (world_of self.new) }
        ensures counts { Counts (world_of self.old) (world_of self.new) result }
        ensures held { self.new.files ≡ self.old.files }
        ensures planned { AsPlanned (outcome_at self.old.plan 1) self.old.plan self.new.plan result }
    {
        let outcome = self.plan.outcome();
        let names = names_of(alloc, &self.files)?;
        self.answer(outcome)?;
        Ok(names)
    }

    fn read(&mut self, alloc: Global, name: &str) -> Result<Option<Vec<u8>>, StoreError>
        ensures content { IfOk result (λ found. option_map (λ v. v.items) found ≡ gives_of self.old.files name.now) }
        ensures same { Same (world_of self.old) (world_of self.new) }
        ensures counts { Counts (world_of self.old) (world_of self.new) result }
        ensures held { self.new.files ≡ self.old.files }
        ensures planned { AsPlanned (outcome_at self.old.plan 1) self.old.plan self.new.plan result }
    {
        let outcome = self.plan.outcome();
        let content = content_of(alloc, &self.files, name)?;
        self.answer(outcome)?;
        Ok(content)
    }

    fn write(&mut self, name: &str, bytes: &[u8]) -> Result<(), StoreError>
        ensures changes { Changes name.now Anything Anything (Some bytes.now) (world_of self.old) (world_of self.new) result }
        ensures counts { Counts (world_of self.old) (world_of self.new) result }
        ensures held { HeldAs name.now (written_by (outcome_at self.old.plan 1) bytes.now) self.old.files self.new.files result }
        ensures planned { AsPlanned (outcome_at self.old.plan 1) self.old.plan self.new.plan result }
    {
        let content = Content::copied(self.alloc, bytes)?;
        self.write_content(name, content)
    }

    fn write_shared(&mut self, name: &str, bytes: &Bytes) -> Result<(), StoreError>
        ensures changes { Changes name.now Anything Anything (Some bytes.now) (world_of self.old) (world_of self.new) result }
        ensures counts { Counts (world_of self.old) (world_of self.new) result }
        ensures held { HeldAs name.now (written_by (outcome_at self.old.plan 1) bytes.now) self.old.files self.new.files result }
        ensures planned { AsPlanned (outcome_at self.old.plan 1) self.old.plan self.new.plan result }
    {
        let content = Content::shared(bytes)?;
        self.write_content(name, content)
    }

    fn sync(&mut self, name: &str) -> Result<(), StoreError>
        ensures changes { Changes name.now Anything (Only (gives_of self.old.files name.now)) (gives_of self.old.files name.now) (world_of self.old) (world_of self.new) result }
        ensures counts { Counts (world_of self.old) (world_of self.new) result }
        ensures there { OnOk result (IsSome (gives_of self.old.files name.now)) }
        ensures held { HeldAs name.now (synced_by (sync_outcome (outcome_at self.old.plan 1) (gives_of self.old.files name.now))) self.old.files self.new.files result }
        ensures planned { AsPlanned (sync_outcome (outcome_at self.old.plan 1) (gives_of self.old.files name.now)) self.old.plan self.new.plan result }
    {
        let outcome = self.begin()?;
        self.past.try_reserve(1)?;
        let before = Snapshot::of(&self.files);
        doubt_file(self.alloc, &mut self.files, name)?;
        self.keep_moment(before);
        let ended = end_by(&mut self.files, name, outcome);
        self.answer(ended)
    }

    fn replace(&mut self, name: &str, bytes: &[u8]) -> Result<(), StoreError>
        ensures changes { Changes name.now (OldOr (may_of self.old.files name.now) (Some bytes.now)) (Only (Some bytes.now)) (Some bytes.now) (world_of self.old) (world_of self.new) result }
        ensures counts { Counts (world_of self.old) (world_of self.new) result }
        ensures held { HeldAs name.now (replaced_by (outcome_at self.old.plan 1) bytes.now) self.old.files self.new.files result }
        ensures planned { AsPlanned (outcome_at self.old.plan 1) self.old.plan self.new.plan result }
    {
        let outcome = self.begin()?;
        self.past.try_reserve(1)?;
        let before = Snapshot::of(&self.files);
        replace_by(self.alloc, &mut self.files, name, bytes, outcome)?;
        self.keep_moment(before);
        self.answer(outcome)
    }

    fn remove(&mut self, name: &str) -> Result<(), StoreError>
        ensures changes { Changes name.now (OldOr (may_of self.old.files name.now) None) (OldOr (may_of self.old.files name.now) None) None (world_of self.old) (world_of self.new) result }
        ensures counts { Counts (world_of self.old) (world_of self.new) result }
        ensures memory { IsErrOf result StoreError.OutOfMemory → ⊥ }
        ensures held { HeldAs name.now (removed (has_effect (outcome_at self.old.plan 1))) self.old.files self.new.files result }
        ensures planned { AsPlanned (outcome_at self.old.plan 1) self.old.plan self.new.plan result }
    {
        let outcome = self.begin()?;
        remove_file(&mut self.files, name, outcome.has_effect());
        self.answer(outcome)
    }

    fn settle(&mut self) -> Result<(), StoreError>
        ensures settles { SettlesNames (world_of self.old) (world_of self.new) result }
        ensures counts { Counts (world_of self.old) (world_of self.new) result }
        ensures held { EachHeldAs (settled_by (outcome_at self.old.plan 1)) self.old.files self.new.files result }
        ensures planned { AsPlanned (outcome_at self.old.plan 1) self.old.plan self.new.plan result }
    {
        let outcome = self.begin()?;
        self.past.try_reserve(1)?;
        let before = Snapshot::of(&self.files);
        self.keep_moment(before);
        settle_by(&mut self.files, outcome);
        self.answer(outcome)
    }

    fn failures(&self) -> u64 {
        self.failures
    }
}
