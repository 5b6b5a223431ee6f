// All entries of several sources, in order.

ghost use Rattle.std.specs.Prelude.{IfErr, ◌≡◌, ◌+◌, [], ◌∷◌, map, flat_map, IfOk, OnOk, OnSome, IfSome, MatchOption, option_map, true, false};
ghost use Rattle.std.specs.List.{All, range_with_len};
ghost use Rattle.std.specs.List.Sorted.{IsPermutation};
ghost use Rattle.std.proofs.Props.{props};
ghost use Rattle.lsm_below.specs.Keys.{Bytes};
ghost use Rattle.lsm_below.specs.Entries.{IsFalling, stack};
ghost use Rattle.lsm_below.specs.Streams.{Gives, RefusesOnly, Merges, IsInOrder};
ghost use Rattle.lsm_below.specs.Slots.{merged, all_of, calls_left, IsQueue};

use crate::heap::sink;
use crate::slot::{Slot, fill_slot};
use crate::source::Source;
use std::alloc::{AllocError, Global};
use std::marker::Model;

/// All entries of several sources, each as often as it came: keys rise, and under one key the sequence numbers fall.
///
/// Entries of one key and sequence number come in any order. No more than one entry of each source is held,
/// and none is copied. The sources stand in a heap, which they leave as they end: the first call asks all k of them and
/// makes 2 k comparisons at most, and each further one asks one of them and makes some 2 log2 k.
///
/// ```text
/// for entry in Merger::new(alloc, sources)? { .. }
/// ```
#[derive(Drop)]
pub struct Merger<S: Source> {
    slots: Vec<Slot<S>>,
    // The indexes of the slots whose sources haven't ended: a heap, once those at the first `waiting` places were asked.
    order: Vec<usize>,
    waiting: usize,
    over: bool,
    ghost queue: { over ≡ false → IsQueue (map (λ s. option_map S.Item.shows s.head) slots.items) (map (λ s. all_of (option_map S.Item.shows s.head) (S.rest s.source).entries) slots.items) order.items waiting } by { Prim.hlevel props },
}

impl<S: Source> Model for Merger<S> {
    ghost use Rattle.std.specs.Prelude.{map, option_map};
    ghost use Rattle.lsm_below.specs.Streams.{Rest};
    ghost use Rattle.lsm_below.specs.Slots.{rest_of, merged, all_of};

    ghost Value = { Rest };

    ghost view = { λ m. rest_of m.over (merged (map (λ s. all_of (option_map S.Item.shows s.head) (S.rest s.source).entries) m.slots.items)) };
}

/// Asks for the head of the slot at a place, and moves its index down to where it belongs. The index of a source that has
/// ended leaves the heap.
fn settle_place<S: Source>(
    slots: &mut [Slot<S>],
    order: &mut Vec<usize>,
    place: usize,
) -> Result<(), S::Error>
    requires { IsQueue (map (λ s. option_map S.Item.shows s.head) slots.old) (map (λ s. all_of (option_map S.Item.shows s.head) (S.rest s.source).entries) slots.old) order.old.items (place + 1) }
    ensures same { OnOk result
        (map (λ s. all_of (option_map S.Item.shows s.head) (S.rest s.source).entries) slots.new ≡ map (λ s. all_of (option_map S.Item.shows s.head) (S.rest s.source).entries) slots.old) }
    ensures cause { IfErr result S.may_refuse }
    ensures queue { OnOk result
        (IsQueue (map (λ s. option_map S.Item.shows s.head) slots.new) (map (λ s. all_of (option_map S.Item.shows s.head) (S.rest s.source).entries) slots.new) order.new.items place) }
{
    let index = order[place];
    let found = fill_slot(&mut slots[index])?;
    if !found {
        order.swap_remove(place);
    }
    sink(slots, order, place);
    Ok(())
}

/// Asks for the heads of the slots at the first places, so many.
fn settle<S: Source>(
    slots: &mut [Slot<S>],
    order: &mut Vec<usize>,
    waiting: usize,
) -> Result<(), S::Error>
    requires { IsQueue (map (λ s. option_map S.Item.shows s.head) slots.old) (map (λ s. all_of (option_map S.Item.shows s.head) (S.rest s.source).entries) slots.old) order.old.items waiting }
    ensures same { OnOk result
        (map (λ s. all_of (option_map S.Item.shows s.head) (S.rest s.source).entries) slots.new ≡ map (λ s. all_of (option_map S.Item.shows s.head) (S.rest s.source).entries) slots.old) }
    ensures cause { IfErr result S.may_refuse }
    ensures queue { OnOk result
        (IsQueue (map (λ s. option_map S.Item.shows s.head) slots.new) (map (λ s. all_of (option_map S.Item.shows s.head) (S.rest s.source).entries) slots.new) order.new.items 0) }
{
    let mut place = waiting;
    while place > 0 {
        place -= 1;
        settle_place(slots, order, place)?;
    }
    Ok(())
}

/// Takes the head at the top.
fn take_least<S: Source>(slots: &mut [Slot<S>], order: &[usize]) -> Option<S::Item>
    requires { IsQueue (map (λ s. option_map S.Item.shows s.head) slots.old) (map (λ s. all_of (option_map S.Item.shows s.head) (S.rest s.source).entries) slots.old) order.now 0 }
    ensures least { MatchOption result
        (merged (map (λ s. all_of (option_map S.Item.shows s.head) (S.rest s.source).entries) slots.old) ≡ [])
        (λ e. merged (map (λ s. all_of (option_map S.Item.shows s.head) (S.rest s.source).entries) slots.old) ≡ S.Item.shows e ∷ merged (map (λ s. all_of (option_map S.Item.shows s.head) (S.rest s.source).entries) slots.new)) }
    ensures queue { OnSome result
        (IsQueue (map (λ s. option_map S.Item.shows s.head) slots.new) (map (λ s. all_of (option_map S.Item.shows s.head) (S.rest s.source).entries) slots.new) order.now 1) }
{
    if order.is_empty() {
        return None;
    }
    slots[order[0]].head.take()
}

/// The least of what the sources have left.
fn pull<S: Source>(
    slots: &mut [Slot<S>],
    order: &mut Vec<usize>,
    waiting: usize,
) -> Option<Result<S::Item, S::Error>>
    requires { IsQueue (map (λ s. option_map S.Item.shows s.head) slots.old) (map (λ s. all_of (option_map S.Item.shows s.head) (S.rest s.source).entries) slots.old) order.old.items waiting }
    ensures cause { RefusesOnly S.may_refuse result }
    ensures entry { MatchOption result
        (merged (map (λ s. all_of (option_map S.Item.shows s.head) (S.rest s.source).entries) slots.old) ≡ [])
        (λ r. IfOk r (λ e. merged (map (λ s. all_of (option_map S.Item.shows s.head) (S.rest s.source).entries) slots.old) ≡ S.Item.shows e ∷ merged (map (λ s. all_of (option_map S.Item.shows s.head) (S.rest s.source).entries) slots.new))) }
    ensures queue { IfSome result (λ r. OnOk r
        (IsQueue (map (λ s. option_map S.Item.shows s.head) slots.new) (map (λ s. all_of (option_map S.Item.shows s.head) (S.rest s.source).entries) slots.new) order.new.items 1)) }
{
    if let Err(error) = settle(slots, order, waiting) {
        return Some(Err(error));
    }
    match take_least(slots, order) {
        Some(entry) => Some(Ok(entry)),
        None => None,
    }
}

/// A slot for each source.
fn slots_of<S: Source>(alloc: Global, sources: Vec<S>) -> Result<Vec<Slot<S>>, AllocError>
    ensures { IfOk result
        (λ slots. slots.items ≡ map (λ s. record { head = None; source = s }) sources.items) }
{
    let mut slots = Vec::with_capacity(alloc, sources.len())?;
    for source in sources {
        slots.push(Slot { head: None, source })?;
    }
    Ok(slots)
}

/// The numbers below this one, from the last.
fn indexes(alloc: Global, count: usize) -> Result<Vec<usize>, AllocError>
    ensures { IfOk result (λ order. IsPermutation (range_with_len 0 count) order.items) }
{
    let mut order: Vec<usize> = (0..count).collect(alloc)?;
    order.reverse();
    Ok(order)
}

impl<S: Source> Merger<S> {
    /// A merger of sources, each in order. Nothing is asked of them before the first entry is wanted.
    ///
    /// Of each key it returns all entries of the sources, by falling sequence number. Where each source's sequence numbers
    /// of the key are above those of the sources after it, their entries follow each other, source by source.
    ///
    /// # Errors
    ///
    /// Refused only for want of memory.
    pub fn new(alloc: Global, sources: Vec<S>) -> Result<Merger<S>, AllocError>
        requires { All (λ s. IsInOrder (S.rest s).entries) sources.items }
        ensures merges { IfOk result (λ m. Merges (map (λ s. (S.rest s).entries) sources.items) m.entries) }
        ensures open { IfOk result (λ m. m.over ≡ false) }
        ensures by_key { IfOk result
            (λ m. (key : Bytes) → Merges (map (λ s. stack key (S.rest s).entries) sources.items) (stack key m.entries)) }
        ensures in_turn { IfOk result
            (λ m. (key : Bytes) → IsFalling (flat_map (λ s. stack key (S.rest s).entries) sources.items) → stack key m.entries ≡ flat_map (λ s. stack key (S.rest s).entries) sources.items) }
    {
        let order = indexes(alloc, sources.len())?;
        let slots = slots_of(alloc, sources)?;
        let waiting = order.len();
        Ok(Merger {
            slots,
            order,
            waiting,
            over: false,
        })
    }
}

impl<S: Source> Source for Merger<S> {
    type Item = S::Item;

    type Error = S::Error;

    ghost rest = { λ m. m };

    ghost may_refuse = { S.may_refuse };

    fn next_entry(&mut self) -> Option<Result<S::Item, S::Error>> {
        if self.over {
            return None;
        }
        match pull(&mut self.slots, &mut self.order, self.waiting) {
            Some(Ok(entry)) => {
                self.waiting = 1;
                Some(Ok(entry))
            }
            Some(Err(error)) => {
                self.over = true;
                Some(Err(error))
            }
            None => {
                self.over = true;
                None
            }
        }
    }
}

impl<S: Source> Iterator for Merger<S> {
    type Item = Result<S::Item, S::Error>;

    ghost next_gives = { λ s r t. Gives S.Item.shows s r t × RefusesOnly S.may_refuse r };

    ghost remaining = { calls_left };

    fn next(&mut self) -> Option<Result<S::Item, S::Error>> {
        self.next_entry()
    }
}
