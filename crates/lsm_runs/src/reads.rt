//! Steps that only read: each is the call of `TreeState` that it is named after. It answers the reply, and what it adds to the journal; one
//! that may add something is an error where no memory is left for that.
ghost use Rattle.std.specs.Prelude.{◌≡◌, [], IfOk};
ghost use Rattle.std.specs.declared.ops.Bound.TheVariants.{Unbounded};
ghost use Rattle.lsm_iter.specs.declared.tree_iter.End.TheVariants.{Front, Back};
ghost use Rattle.lsm_runs.specs.Compacting.{IsCompactingReply};
ghost use Rattle.lsm_runs.specs.CountSteps.{count_of, IsCounted, IsUncertainReply, IsKindReply};
ghost use Rattle.lsm_runs.specs.ReadSteps.{TakesGet, TakesGetEntry, TakesRange, TakesPrefix, TakesSilent, IsContainsReply, IsSizeReply, IsLenReply, IsEmptyReply, IsEndReply, ToldFound, told_pairs, told_end};

use crate::writes::{refused, silent};
use crate::{Count, Outcome, Reply};
use lsm_below::{SeqNo, UserKey, share};
use lsm_iter::{Guard, IterGuard, TreeIter};
use lsm_journal::{copy_bound, one_entry, pairs_entry, question_between, read_entry, take_pairs};
use lsm_model::{KvPairs, Question};
use lsm_parts::Error;
use lsm_state::{TreeState, lists_are_steps};
use lsm_store::Store;
use std::alloc::{AllocError, Global};
use std::ops::Bound;

// ---- of a key

/// Reads a key at a snapshot.
pub fn get<S: Store>(
    alloc: Global,
    state: &TreeState<S>,
    key: &UserKey,
    snapshot: SeqNo,
) -> Result<Outcome, AllocError>
    ensures { IfOk result (λ told. TakesGet key.now snapshot told.reply told.entries state.now.core state.now.core) }
{
    match state.get(key.as_slice(), snapshot) {
        Ok(value) => {
            let read = read_entry(snapshot, share(key)?, &value)?;
            let entries = one_entry(alloc, read)?;
            Ok(Outcome {
                reply: Reply::Value(value),
                entries,
            })
        }
        Err(error) => Ok(refused(alloc, error)),
    }
}

/// Reads the entry of a key at a snapshot.
pub fn get_internal_entry<S: Store>(
    alloc: Global,
    state: &TreeState<S>,
    key: &UserKey,
    snapshot: SeqNo,
) -> Outcome
    ensures { TakesGetEntry key.now snapshot result.reply result.entries state.now.core state.now.core }
{
    match state.get_internal_entry(key.as_slice(), snapshot) {
        Ok(entry) => silent(alloc, Reply::Entry(entry)),
        Err(error) => refused(alloc, error),
    }
}

/// Asks whether a key has a value at a snapshot.
pub fn contains_key<S: Store>(
    alloc: Global,
    state: &TreeState<S>,
    key: &UserKey,
    snapshot: SeqNo,
) -> Outcome
    ensures { TakesSilent (IsContainsReply key.now snapshot state.now.core) result.reply result.entries state.now.core state.now.core }
{
    match state.contains_key(key.as_slice(), snapshot) {
        Ok(truth) => silent(alloc, Reply::Truth(truth)),
        Err(error) => refused(alloc, error),
    }
}

/// Asks how many bytes a key's value has at a snapshot.
pub fn size_of<S: Store>(
    alloc: Global,
    state: &TreeState<S>,
    key: &UserKey,
    snapshot: SeqNo,
) -> Outcome
    ensures { TakesSilent (IsSizeReply key.now snapshot state.now.core) result.reply result.entries state.now.core state.now.core }
{
    match state.size_of(key.as_slice(), snapshot) {
        Ok(size) => silent(alloc, Reply::Size(size)),
        Err(error) => refused(alloc, error),
    }
}

// ---- of many keys

/// The outcome of an answered read of pairs, which is noted.
fn of_pairs(
    alloc: Global,
    snapshot: SeqNo,
    question: Question,
    pairs: KvPairs,
) -> Result<Outcome, AllocError>
    ensures { IfOk result (λ told. told ≡ told_pairs question snapshot pairs) }
{
    let read = pairs_entry(snapshot, question, &pairs)?;
    let entries = one_entry(alloc, read)?;
    Ok(Outcome {
        reply: Reply::Pairs(pairs),
        entries,
    })
}

/// The outcome of a read of pairs, which is noted if it was answered.
fn of_found(
    alloc: Global,
    snapshot: SeqNo,
    question: Question,
    found: Result<TreeIter, Error>,
) -> Result<Outcome, AllocError>
    ensures { IfOk result (λ told. ToldFound question snapshot found told) }
{
    match found {
        Ok(iter) => match take_pairs(alloc, iter) {
            Ok(pairs) => of_pairs(alloc, snapshot, question, pairs),
            Err(error) => Ok(refused(alloc, error)),
        },
        Err(error) => Ok(refused(alloc, error)),
    }
}

/// Reads the pairs in bounds at a snapshot.
pub fn range<S: Store>(
    alloc: Global,
    state: &TreeState<S>,
    low: &Bound<UserKey>,
    high: &Bound<UserKey>,
    snapshot: SeqNo,
) -> Result<Outcome, AllocError>
    ensures { IfOk result (λ told. TakesRange low.now high.now snapshot told.reply told.entries state.now.core state.now.core) }
{
    lists_are_steps();
    let bounds = (copy_bound(low)?, copy_bound(high)?);
    let question = question_between(alloc, low, high)?;
    let found = state.range(&bounds, snapshot, None);
    of_found(alloc, snapshot, question, found)
}

/// Reads all pairs at a snapshot.
pub fn iter<S: Store>(
    alloc: Global,
    state: &TreeState<S>,
    snapshot: SeqNo,
) -> Result<Outcome, AllocError>
    ensures { IfOk result (λ told. TakesRange Unbounded Unbounded snapshot told.reply told.entries state.now.core state.now.core) }
{
    lists_are_steps();
    let all = question_between(alloc, &Bound::Unbounded, &Bound::Unbounded)?;
    of_found(alloc, snapshot, all, state.iter(snapshot, None))
}

/// Reads the pairs of the keys that begin so, at a snapshot.
pub fn prefix<S: Store>(
    alloc: Global,
    state: &TreeState<S>,
    prefix: &UserKey,
    snapshot: SeqNo,
) -> Result<Outcome, AllocError>
    ensures { IfOk result (λ told. TakesPrefix prefix.now snapshot told.reply told.entries state.now.core state.now.core) }
{
    lists_are_steps();
    let question = Question::Prefix(share(prefix)?);
    let found = state.prefix(prefix.as_slice(), snapshot, None);
    of_found(alloc, snapshot, question, found)
}

/// Counts the keys at a snapshot.
pub fn len<S: Store>(alloc: Global, state: &TreeState<S>, snapshot: SeqNo) -> Outcome
    ensures { TakesSilent (IsLenReply snapshot state.now.core) result.reply result.entries state.now.core state.now.core }
{
    match state.len(snapshot, None) {
        Ok(count) => silent(alloc, Reply::Count(count)),
        Err(error) => refused(alloc, error),
    }
}

/// Asks whether no key has a value at a snapshot.
pub fn is_empty<S: Store>(alloc: Global, state: &TreeState<S>, snapshot: SeqNo) -> Outcome
    ensures { TakesSilent (IsEmptyReply snapshot state.now.core) result.reply result.entries state.now.core state.now.core }
{
    match state.is_empty(snapshot, None) {
        Ok(truth) => silent(alloc, Reply::Truth(truth)),
        Err(error) => refused(alloc, error),
    }
}

/// The outcome of a read of the pair at an end.
fn of_end(alloc: Global, found: Result<Option<Guard>, Error>) -> Outcome
    ensures { result ≡ record { reply = told_end found; entries = [] } }
{
    match found {
        Ok(Some(guard)) => match guard.into_inner() {
            Ok(pair) => silent(alloc, Reply::Pair(Some(pair))),
            Err(error) => refused(alloc, error),
        },
        Ok(None) => silent(alloc, Reply::Pair(None)),
        Err(error) => refused(alloc, error),
    }
}

/// Reads the pair with the least key at a snapshot.
pub fn first_key_value<S: Store>(alloc: Global, state: &TreeState<S>, snapshot: SeqNo) -> Outcome
    ensures { TakesSilent (IsEndReply Front snapshot state.now.core) result.reply result.entries state.now.core state.now.core }
{
    of_end(alloc, state.first_key_value(snapshot, None))
}

/// Reads the pair with the greatest key at a snapshot.
pub fn last_key_value<S: Store>(alloc: Global, state: &TreeState<S>, snapshot: SeqNo) -> Outcome
    ensures { TakesSilent (IsEndReply Back snapshot state.now.core) result.reply result.entries state.now.core state.now.core }
{
    of_end(alloc, state.last_key_value(snapshot, None))
}

// ---- of the tree

/// What a tree tells as a number.
fn counted<S: Store>(state: &TreeState<S>, what: Count) -> Option<u64>
    ensures { result ≡ count_of what state.now.core }
{
    match what {
        Count::TableCount => Some(state.table_count() as u64),
        Count::L0RunCount => Some(state.l0_run_count() as u64),
        Count::LevelTableCount(level) => match state.level_table_count(level) {
            Some(count) => Some(count as u64),
            None => None,
        },
        Count::SealedMemtableCount => Some(state.sealed_memtable_count() as u64),
        Count::VersionFreeListLen => Some(state.version_free_list_len() as u64),
        Count::ApproximateLen => Some(state.approximate_len() as u64),
        Count::DiskSpace => Some(state.disk_space()),
        Count::TombstoneCount => Some(state.tombstone_count()),
        Count::WeakTombstoneCount => Some(state.weak_tombstone_count()),
        Count::WeakTombstoneReclaimableCount => Some(state.weak_tombstone_reclaimable_count()),
        Count::VersionMemtableSizeSum => Some(state.version_memtable_size_sum()),
        Count::HighestPersistedSeqno => state.get_highest_persisted_seqno(),
        Count::HighestMemtableSeqno => state.get_highest_memtable_seqno(),
        Count::HighestSeqno => state.get_highest_seqno(),
        Count::Id => Some(state.id()),
        Count::NextTableId => Some(state.next_table_id()),
        Count::Moment => Some(state.moment()),
    }
}

/// Asks for a count of the tree.
pub fn count<S: Store>(alloc: Global, state: &TreeState<S>, what: Count) -> Outcome
    ensures { TakesSilent (IsCounted what state.now.core) result.reply result.entries state.now.core state.now.core }
{
    silent(alloc, Reply::Counted(counted(state, what)))
}

/// Asks whether a commit of unknown outcome came before.
pub(crate) fn is_uncertain<S: Store>(alloc: Global, state: &TreeState<S>) -> Outcome
    ensures { TakesSilent (IsUncertainReply state.now.core) result.reply result.entries state.now.core state.now.core }
{
    silent(alloc, Reply::Truth(state.is_uncertain()))
}

/// Asks what kind of tree it is.
pub fn tree_type<S: Store>(alloc: Global, state: &TreeState<S>) -> Outcome
    ensures { TakesSilent IsKindReply result.reply result.entries state.now.core state.now.core }
{
    silent(alloc, Reply::Kind(state.tree_type()))
}

/// Asks whether an open merge works on a table.
pub fn is_compacting<S: Store>(alloc: Global, state: &TreeState<S>) -> Outcome
    ensures { TakesSilent (IsCompactingReply state.now.core) result.reply result.entries state.now.core state.now.core }
{
    silent(alloc, Reply::Truth(state.is_compacting()))
}
