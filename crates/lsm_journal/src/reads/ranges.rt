// The pairs that reads of many keys answer.
ghost use Rattle.std.specs.Prelude.{◌≡◌, map, IfOk, IfErr};
ghost use Rattle.lsm_model.specs.declared.journal.JournalEntry.TheVariants.{Read as ReadEntry};
ghost use Rattle.lsm_model.specs.declared.question.Answer.TheVariants.{Pairs as FoundPairs};
ghost use Rattle.lsm_iter.specs.Guards.{pair_of};

use lsm_below::{SeqNo, share};
use lsm_iter::{Error, Pairs, TreeIter};
use lsm_model::{Answer, JournalEntry, KvPairs, Question};
use std::alloc::{AllocError, Global};

/// The pairs that an iterator has left, as one list that entries of a journal can share. Refused only for want of
/// memory.
pub fn take_pairs(alloc: Global, mut iter: TreeIter) -> Result<KvPairs, Error>
    ensures ok { IfOk result (λ pairs. pairs ≡ map pair_of iter.left) }
    ensures memory { IfErr result (λ e. e ≡ Error.OutOfMemory) }
{
    let mut pairs = Vec::new(alloc);
    while let Some(entry) = iter.next_entry() {
        let entry = entry?;
        pairs.push((entry.key.user_key, entry.value))?;
    }
    Ok(KvPairs::new(alloc, pairs)?)
}

/// Pairs that are lent, as one list that entries of a journal can share: each key and value is shared once.
/// Refused only for want of memory.
pub fn share_pairs(alloc: Global, mut pairs: Pairs<'_>) -> Result<KvPairs, AllocError>
    ensures { IfOk result (λ list. list ≡ map pair_of pairs.entry) }
{
    let mut list = Vec::new(alloc);
    while let Some((key, value)) = pairs.next() {
        list.push((share(key)?, share(value)?))?;
    }
    KvPairs::new(alloc, list)
}

/// What an answered read of pairs adds to a journal. It shares their list.
pub fn pairs_entry(
    snapshot: SeqNo,
    question: Question,
    pairs: &KvPairs,
) -> Result<JournalEntry, AllocError>
    ensures { IfOk result (λ entry. entry ≡ ReadEntry snapshot question (FoundPairs pairs.now)) }
{
    Ok(JournalEntry::Read(snapshot, question, Answer::Pairs(pairs.copy()?)))
}
