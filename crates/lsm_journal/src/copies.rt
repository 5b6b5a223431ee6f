// Copies of the entries of a journal and of operations, which share their bytes and their lists of pairs.
ghost use Rattle.std.specs.Prelude.{◌≡◌, IfOk};
ghost use Rattle.lsm_model.specs.declared.journal.JournalEntry.TheVariants.{Read, Dropped};
ghost use Rattle.lsm_model.specs.declared.question.Question.TheVariants.{Between};

use crate::reads::share_value;
use lsm_below::{KeyRange, SeqNo, UserKey, share};
use lsm_model::{Answer, JournalEntry, KeyBound, KeyRanges, Op, Question};
use std::alloc::{AllocError, Global};
use std::ops::Bound;

/// The operations of a batch, which share the bytes of these. Refused only for want of memory.
pub fn share_ops(alloc: Global, ops: &[(UserKey, Op)]) -> Result<Vec<(UserKey, Op)>, AllocError>
    ensures { IfOk result (λ copy. copy.items ≡ ops.now) }
{
    let mut copy = Vec::with_capacity(alloc, ops.len())?;
    for (key, op) in ops {
        copy.push((share(key)?, share_op(op)?))?;
    }
    Ok(copy)
}

fn share_op(op: &Op) -> Result<Op, AllocError>
    ensures { IfOk result (λ copy. copy ≡ op.now) }
{
    match op {
        Op::Set(value) => Ok(Op::Set(share(value)?)),
        Op::Del => Ok(Op::Del),
        Op::Weak => Ok(Op::Weak),
    }
}

/// A copy of a bound.
pub fn copy_bound(bound: &Bound<UserKey>) -> Result<Bound<UserKey>, AllocError>
    ensures { IfOk result (λ copy. copy ≡ bound.now) }
{
    match bound {
        Bound::Included(key) => Ok(Bound::Included(share(key)?)),
        Bound::Excluded(key) => Ok(Bound::Excluded(share(key)?)),
        Bound::Unbounded => Ok(Bound::Unbounded),
    }
}

/// The question about the keys in these bounds, whose bytes it shares. Refused only for want of memory.
pub fn question_between(
    alloc: Global,
    low: &Bound<UserKey>,
    high: &Bound<UserKey>,
) -> Result<Question, AllocError>
    ensures { IfOk result (λ question. question ≡ Between low.now high.now) }
{
    let low = KeyBound::new(alloc, copy_bound(low)?)?;
    let high = KeyBound::new(alloc, copy_bound(high)?)?;
    Ok(Question::Between(low, high))
}

fn copy_question(question: &Question) -> Result<Question, AllocError>
    ensures { IfOk result (λ copy. copy ≡ question.now) }
{
    match question {
        Question::Get(key) => Ok(Question::Get(share(key)?)),
        Question::Between(low, high) => Ok(Question::Between(low.copy()?, high.copy()?)),
        Question::Prefix(prefix) => Ok(Question::Prefix(share(prefix)?)),
    }
}

fn copy_ranges(alloc: Global, ranges: &[KeyRange]) -> Result<Vec<KeyRange>, AllocError>
    ensures { IfOk result (λ copy. copy.items ≡ ranges.now) }
{
    let mut copies = Vec::with_capacity(alloc, ranges.len())?;
    for range in ranges {
        copies.push(range.copy()?)?;
    }
    Ok(copies)
}

fn copy_answer(answer: &Answer) -> Result<Answer, AllocError>
    ensures { IfOk result (λ copy. copy ≡ answer.now) }
{
    match answer {
        Answer::Found(value) => Ok(Answer::Found(share_value(value)?)),
        Answer::Pairs(pairs) => Ok(Answer::Pairs(pairs.copy()?)),
    }
}

fn copy_read(
    snapshot: SeqNo,
    question: &Question,
    answer: &Answer,
) -> Result<JournalEntry, AllocError>
    ensures { IfOk result (λ copy. copy ≡ Read snapshot question.now answer.now) }
{
    let question = copy_question(question)?;
    let answer = copy_answer(answer)?;
    Ok(JournalEntry::Read(snapshot, question, answer))
}

fn copy_dropped(
    alloc: Global,
    ranges: &KeyRanges,
    number: SeqNo,
) -> Result<JournalEntry, AllocError>
    ensures { IfOk result (λ copy. copy ≡ Dropped ranges.now number) }
{
    let copies = copy_ranges(alloc, ranges.as_slice())?;
    Ok(JournalEntry::Dropped(KeyRanges::new(copies), number))
}

/// A copy of an entry.
pub fn copy_entry(alloc: Global, entry: &JournalEntry) -> Result<JournalEntry, AllocError>
    ensures { IfOk result (λ copy. copy ≡ entry.now) }
{
    match entry {
        JournalEntry::Write(entry) => Ok(JournalEntry::Write(entry.copy()?)),
        JournalEntry::Clear(number) => Ok(JournalEntry::Clear(*number)),
        JournalEntry::Install(number) => Ok(JournalEntry::Install(*number)),
        JournalEntry::Dropped(ranges, number) => copy_dropped(alloc, ranges, *number),
        JournalEntry::Mark(number) => Ok(JournalEntry::Mark(*number)),
        JournalEntry::Read(snapshot, question, answer) => copy_read(*snapshot, question, answer),
    }
}
