// The first and the last entry that a snapshot shows, and how many there are, without a list of them.
ghost use Rattle.std.specs.Prelude.{◌≡◌, IfOk, IfErr};
ghost use Rattle.lsm_below.specs.declared.error.Error.{Error};
ghost use Rattle.lsm_iter.specs.Reads.{counted_at};
ghost use Rattle.lsm_iter.specs.Ends.{EndShown, NumberShown};

use crate::{End, Error, IterState, Pairs};
use lsm_below::{InternalValue, SeqNo, UserKey};
use std::alloc::Global;
use std::ops::Bound;

/// The entry at an end of what `create_range` would list, found without the others: no other entry is copied. It
/// costs a search in each source, and a step of the iterator. Refused only for want of memory.
pub fn end_shown(
    alloc: Global,
    state: &IterState<'_>,
    end: End,
    bounds: &(Bound<UserKey>, Bound<UserKey>),
    snapshot: SeqNo,
) -> Result<Option<InternalValue>, Error>
    ensures ok { IfOk result (EndShown end bounds.now.0 bounds.now.1 (counted_at snapshot state.now)) }
    ensures memory { IfErr result (λ e. e ≡ Error.OutOfMemory) }
{
    let mut pairs = Pairs::create_range(alloc, state, bounds, snapshot)?;
    match pairs.take_end(end) {
        Some(entry) => Ok(Some(entry.copy()?)),
        None => Ok(None),
    }
}

/// How many entries `create_range` would list, counted without a list: it walks over all of them, and copies none.
/// Refused only for want of memory.
pub fn count_shown(
    alloc: Global,
    state: &IterState<'_>,
    bounds: &(Bound<UserKey>, Bound<UserKey>),
    snapshot: SeqNo,
) -> Result<usize, Error>
    ensures ok { IfOk result (NumberShown bounds.now.0 bounds.now.1 (counted_at snapshot state.now)) }
    ensures memory { IfErr result (λ e. e ≡ Error.OutOfMemory) }
{
    let mut pairs = Pairs::create_range(alloc, state, bounds, snapshot)?;
    let mut count: usize = 0;
    while let Some(_entry) = pairs.take_front() {
        // No memory holds 2^64 entries.
        let Some(more) = count.checked_add(1) else {
            return Err(Error::OutOfMemory);
        };
        count = more;
    }
    Ok(count)
}
