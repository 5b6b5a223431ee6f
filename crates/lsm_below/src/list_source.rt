// A list of entries, as a source.

ghost use Rattle.std.specs.Prelude.{MatchResult, cond, ◌≡◌, [], ◌∷◌, true, false, IfOk};
ghost use Rattle.lsm_below.specs.Streams.{Ascends-prop, IsInOrder};
ghost use Rattle.lsm_below.specs.Slots.{rest_of, fits_front};
ghost use Rattle.lsm_below.specs.Entries.{entry_cmp};

use crate::InternalValue;
use crate::source::{Source, stands_before};
use std::alloc::{AllocError, Global};
use std::collections::VecDeque;

/// A list of entries in order, as a source. None of them is refused, and none is copied.
///
/// ```text
/// let mut source = ListSource::new(alloc);
/// source.add_front(last)?;
/// source.add_front(first)?;
/// ```
#[derive(Drop)]
pub struct ListSource {
    entries: VecDeque<InternalValue>,
    over: bool,
    ghost in_order: { IsInOrder entries.items } by { Ascends-prop entry_cmp entries.items },
}

/// Whether an entry may stand in front of a list.
fn fits_in_front(entries: &VecDeque<InternalValue>, entry: &InternalValue) -> bool
    ensures { result ≡ fits_front entry.now entries.now.items }
{
    match entries.front() {
        None => true,
        Some(first) => !stands_before(first, entry),
    }
}

impl ListSource {
    /// No entries.
    pub fn new(alloc: Global) -> ListSource
        ensures entries { result.entries.items ≡ [] }
        ensures open { result.over ≡ false }
    {
        ListSource {
            entries: VecDeque::new(alloc),
            over: false,
        }
    }

    /// Adds an entry in front, if that keeps the order, and returns whether it did.
    ///
    /// # Errors
    ///
    /// Refused only for want of memory: then the list is as it was.
    pub fn add_front(&mut self, entry: InternalValue) -> Result<bool, AllocError>
        ensures answer { IfOk result (λ fits. fits ≡ fits_front entry self.old.entries.items) }
        ensures entries { MatchResult result
            (λ fits. self.new.entries.items ≡ cond fits (entry ∷ self.old.entries.items) self.old.entries.items)
            (λ _. self.new.entries.items ≡ self.old.entries.items) }
        ensures same { self.new.over ≡ self.old.over }
    {
        if !fits_in_front(&self.entries, &entry) {
            return Ok(false);
        }
        self.entries.push_front(entry)?;
        Ok(true)
    }
}

impl Source for ListSource {
    type Item = InternalValue;

    type Error = AllocError;

    ghost rest = { λ s. rest_of s.over s.entries.items };

    ghost may_refuse = { λ _. ⊥ };

    fn next_entry(&mut self) -> Option<Result<InternalValue, AllocError>> {
        if self.over {
            return None;
        }
        match self.entries.pop_front() {
            Some(entry) => Some(Ok(entry)),
            None => {
                self.over = true;
                None
            }
        }
    }
}
