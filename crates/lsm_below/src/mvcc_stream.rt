// The first entry of each key.

ghost use Rattle.std.specs.Prelude.{◌≡◌, [], ◌∷◌, false, IfOk, MatchOption, option_map};
ghost use Rattle.lsm_below.specs.Streams.{Rest, Gives, RefusesOnly, IsInOrder, IsByKey, first_of};
ghost use Rattle.lsm_below.specs.Slots.{all_of, firsts, calls_left};

use crate::source::{Source, next_past, take_next};
use std::marker::Model;

/// The first entry of each key of its source, which is the newest. The keys stay in order.
///
/// No more than two entries are held, and none is copied.
///
/// ```text
/// for newest in MvccStream::new(merger) { .. }
/// ```
#[derive(Drop)]
pub struct MvccStream<S: Source> {
    pending: Option<S::Item>,
    source: S,
    over: bool,
}

impl<S: Source> Model for MvccStream<S> {
    ghost use Rattle.std.specs.Prelude.{option_map};
    ghost use Rattle.lsm_below.specs.Streams.{Rest};
    ghost use Rattle.lsm_below.specs.Slots.{rest_of, firsts, all_of};

    ghost Value = { Rest };

    ghost view = { λ m. rest_of m.over (firsts (all_of (option_map S.Item.shows m.pending) (S.rest m.source).entries)) };
}

/// The next entry, past the others of its key.
fn next_first<S: Source>(
    pending: &mut Option<S::Item>,
    source: &mut S,
) -> Option<Result<S::Item, S::Error>>
    ensures cause { RefusesOnly S.may_refuse result }
    ensures entry { MatchOption result
        (firsts (all_of (option_map S.Item.shows pending.old) (S.rest source.old).entries) ≡ [])
        (λ r. IfOk r (λ e. firsts (all_of (option_map S.Item.shows pending.old) (S.rest source.old).entries) ≡ S.Item.shows e ∷ firsts (all_of (option_map S.Item.shows pending.new) (S.rest source.new).entries))) }
{
    let entry = match take_next(pending, source) {
        Some(Ok(entry)) => entry,
        Some(Err(error)) => return Some(Err(error)),
        None => return None,
    };
    match next_past(source, false, &entry) {
        Ok(next) => {
            *pending = next;
            Some(Ok(entry))
        }
        Err(error) => Some(Err(error)),
    }
}

impl<S: Source> MvccStream<S> {
    /// The first entry of each key of a source in order.
    pub fn new(source: S) -> MvccStream<S>
        requires { IsInOrder (S.rest source).entries }
        ensures firsts { IsByKey first_of (S.rest source).entries result.entries }
        ensures open { result.over ≡ false }
    {
        MvccStream {
            pending: None,
            source,
            over: false,
        }
    }
}

impl<S: Source> Source for MvccStream<S> {
    type Item = S::Item;

    type Error = S::Error;

    ghost rest = { λ m. m };

    ghost may_refuse = { S.may_refuse };

    fn next_entry(&mut self) -> Option<Result<S::Item, S::Error>> {
        if self.over {
            return None;
        }
        let told = next_first(&mut self.pending, &mut self.source);
        self.over = !matches!(told, Some(Ok(_)));
        told
    }
}

impl<S: Source> Iterator for MvccStream<S> {
    type Item = Result<S::Item, S::Error>;

    ghost next_gives = { λ s r t. Gives S.Item.shows s r t × RefusesOnly S.may_refuse r };

    ghost remaining = { calls_left };

    fn next(&mut self) -> Option<Result<S::Item, S::Error>> {
        self.next_entry()
    }
}
