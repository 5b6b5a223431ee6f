// What a strategy is told of the open jobs.
ghost use Rattle.std.specs.Prelude.{◌≡◌, []};
ghost use Rattle.std.specs.Borrow.{sem};
ghost use Rattle.lsm_versions.specs.Lending.{LendsHidden};

use crate::HiddenSet;
use std::alloc::Global;
use std::marker::Model;

/// The tables that open jobs work on.
///
/// # Examples
///
/// ```text
/// let mut state = CompactionState::new(alloc);
/// state.hidden_set_mut().hide(&input.table_ids)?;
/// ```
#[derive(Drop)]
pub struct CompactionState {
    hidden_set: HiddenSet,
}

impl Model for CompactionState {
    ghost use Rattle.std.specs.Prelude.{List, ℕ};

    ghost Value = { List ℕ };

    ghost view = { λ s. s.hidden_set };
}

impl CompactionState {
    /// The state where no job is open. It takes no memory.
    pub fn new(alloc: Global) -> CompactionState
        ensures { result ≡ [] }
    {
        CompactionState {
            hidden_set: HiddenSet::new(alloc),
        }
    }

    /// The hidden tables.
    pub fn hidden_set(&self) -> &HiddenSet
        ensures { result.now ≡ self.now }
    {
        &self.hidden_set
    }

    /// The hidden tables, to be changed.
    pub fn hidden_set_mut(&mut self) -> &mut HiddenSet
        ensures* lends { sem 𝓛 (LendsHidden self.entry result) }
        ensures value { result.now ≡ self.old }
    {
        &mut self.hidden_set
    }
}
