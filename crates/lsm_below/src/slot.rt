// A source and the entry that it gave last.

ghost use Rattle.std.specs.Prelude.{◌≡◌, IfOk, IfErr, OnOk, MatchOption, is_some, [], option_map};
ghost use Rattle.lsm_below.specs.Slots.{head_before, all_of};

use crate::source::{AsEntry, Source};

/// A source and its first entry, once that was asked for.
#[derive(Drop)]
pub struct Slot<S: Source> {
    pub head: Option<S::Item>,
    pub source: S,
}

/// Whether an entry stands before another one; one that is there stands before none.
pub fn goes_before<I: AsEntry>(head: &Option<I>, other: &Option<I>) -> bool
    ensures { result ≡ head_before (option_map I.shows head.now) (option_map I.shows other.now) }
{
    match (head, other) {
        (None, _) => false,
        (Some(_), None) => true,
        (Some(entry), Some(other)) => entry.stands_before(other),
    }
}

/// Asks the source for its next entry, where there is no head. Returns whether there is one now.
pub fn fill_slot<S: Source>(slot: &mut Slot<S>) -> Result<bool, S::Error>
    ensures same { OnOk result
        (all_of (option_map S.Item.shows slot.new.head) (S.rest slot.new.source).entries ≡ all_of (option_map S.Item.shows slot.old.head) (S.rest slot.old.source).entries) }
    ensures found { IfOk result (λ found. is_some slot.new.head ≡ found) }
    ensures filled { OnOk result (MatchOption slot.new.head ((S.rest slot.new.source).entries ≡ []) (λ _. Unit {0})) }
    ensures cause { IfErr result S.may_refuse }
{
    if slot.head.is_none() {
        match slot.source.next_entry() {
            None => return Ok(false),
            Some(Err(error)) => return Err(error),
            Some(Ok(entry)) => slot.head = Some(entry),
        }
    }
    Ok(true)
}
