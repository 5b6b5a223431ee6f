// What gives entries in order, one at a time.

ghost use Rattle.std.specs.Prelude.{◌≡◌, IfErr, true, IfOk, MatchOption, [], ◌∷◌, None, IfNone, option_map};
ghost use Rattle.std.specs.Ordering.{is_lt, is_eq};
ghost use Rattle.lsm_below.specs.Streams.{Rest, Gives, RefusesOnly};
ghost use Rattle.lsm_below.specs.Slots.{is_before, same_key, is_repeat, past, all_of};

use crate::InternalValue;

/// What a source returns for an entry: the entry itself, or something that lends it. Two of them are compared as their
/// entries are.
///
/// ```text
/// for item in compact(alloc, sources, watermark, true)? {
///     write(item?.as_entry())?;
/// }
/// ```
pub trait AsEntry: Drop {
    ghost use Rattle.lsm_below.specs.Entries.{Entry};
    ghost use Rattle.lsm_below.specs.Slots.{is_before, same_key};

    ghost shows: { Self → Entry };

    /// The entry.
    fn as_entry(&self) -> &InternalValue
        ensures { result.now ≡ shows self.now };

    /// Whether its entry stands before another one.
    fn stands_before(&self, other: &Self) -> bool
        ensures { result ≡ is_before (shows self.now) (shows other.now) }
    {
        stands_before(self.as_entry(), other.as_entry())
    }

    /// Whether its entry has the key of another one.
    fn has_same_key(&self, other: &Self) -> bool
        ensures { result ≡ same_key (shows self.now) (shows other.now) }
    {
        has_same_key(self.as_entry(), other.as_entry())
    }
}

impl AsEntry for InternalValue {
    ghost shows = { λ entry. entry };

    fn as_entry(&self) -> &InternalValue {
        self
    }
}

/// A source of entries: it returns one at a time, as it is asked.
///
/// Every source ends, and a refused entry ends it too. After its end it can be asked again, and
/// answers `None`. What is left of it, and whether it has ended, is its ghost member `rest`; which
/// refusals may come of it is `may_refuse`.
pub trait Source: Drop {
    type Item: AsEntry;

    type Error: Drop;

    ghost use Rattle.std.specs.Prelude.{true, None};
    ghost use Rattle.lsm_below.specs.Streams.{Rest, Gives, RefusesOnly};

    ghost rest: { Self → Rest };

    ghost may_refuse: { Self.Error → Type 0 };

    /// The first of what is left, or a refusal, or `None` at the end.
    fn next_entry(&mut self) -> Option<Result<Self::Item, Self::Error>>
        ensures gives { Gives Self.Item.shows (rest self.old) result (rest self.new) }
        ensures cause { RefusesOnly may_refuse result }
        ensures again { (rest self.old).over ≡ true → result ≡ None };
}

/// Whether an entry stands before another one.
pub fn stands_before(entry: &InternalValue, other: &InternalValue) -> bool
    ensures { result ≡ is_before entry.now other.now }
{
    entry.key.cmp(&other.key).is_lt()
}

/// Whether two entries have one key.
pub fn has_same_key(entry: &InternalValue, other: &InternalValue) -> bool
    ensures { result ≡ same_key entry.now other.now }
{
    entry.key.user_key.cmp(&other.key.user_key).is_eq()
}

fn repeats<I: AsEntry>(numbers: bool, entry: &I, other: &I) -> bool
    ensures { result ≡ is_repeat numbers (I.shows entry.now) (I.shows other.now) }
{
    entry.has_same_key(other)
        && (!numbers || entry.as_entry().key.seqno == other.as_entry().key.seqno)
}

/// The next entry that doesn't repeat this one: its key, or also its sequence number.
pub fn next_past<S: Source>(
    source: &mut S,
    numbers: bool,
    entry: &S::Item,
) -> Result<Option<S::Item>, S::Error>
    ensures past { IfOk result
        (λ next. all_of (option_map S.Item.shows next) (S.rest source.new).entries ≡ past numbers (S.Item.shows entry.now) (S.rest source.old).entries) }
    ensures end { IfOk result (λ next. IfNone next ((S.rest source.new).entries ≡ [])) }
    ensures cause { IfErr result S.may_refuse }
{
    loop {
        match source.next_entry() {
            None => return Ok(None),
            Some(Err(error)) => return Err(error),
            Some(Ok(next)) => {
                if !repeats(numbers, entry, &next) {
                    return Ok(Some(next));
                }
            }
        }
    }
}

/// The pending entry, or else the next one.
pub fn take_next<S: Source>(
    pending: &mut Option<S::Item>,
    source: &mut S,
) -> Option<Result<S::Item, S::Error>>
    ensures entry { MatchOption result
        (all_of (option_map S.Item.shows pending.old) (S.rest source.old).entries ≡ [])
        (λ r. IfOk r (λ e. all_of (option_map S.Item.shows pending.old) (S.rest source.old).entries ≡ S.Item.shows e ∷ (S.rest source.new).entries)) }
    ensures hand { pending.new ≡ None }
    ensures cause { RefusesOnly S.may_refuse result }
{
    match pending.take() {
        Some(entry) => Some(Ok(entry)),
        None => source.next_entry(),
    }
}
