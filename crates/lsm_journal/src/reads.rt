// Entries that point reads add to a journal, made of what their callers passed, whose bytes they share.
ghost use Rattle.std.specs.Prelude.{◌≡◌, IfOk};
ghost use Rattle.lsm_model.specs.declared.journal.JournalEntry.TheVariants.{Read as ReadEntry};
ghost use Rattle.lsm_model.specs.declared.question.Question.TheVariants.{Get as GetQuestion};
ghost use Rattle.lsm_model.specs.declared.question.Answer.TheVariants.{Found};

use lsm_below::{SeqNo, UserKey, UserValue, share};
use lsm_model::{Answer, JournalEntry, Question};
pub use ranges::{pairs_entry, share_pairs, take_pairs};
use std::alloc::AllocError;

/// A value that may be there, shared.
pub fn share_value(value: &Option<UserValue>) -> Result<Option<UserValue>, AllocError>
    ensures { IfOk result (λ copy. copy ≡ value.now) }
{
    match value {
        Some(bytes) => Ok(Some(share(bytes)?)),
        None => Ok(None),
    }
}

/// What an answered get of a key adds to a journal. It shares the value.
pub fn read_entry(
    snapshot: SeqNo,
    key: UserKey,
    value: &Option<UserValue>,
) -> Result<JournalEntry, AllocError>
    ensures { IfOk result (λ entry. entry ≡ ReadEntry snapshot (GetQuestion key) (Found value.now)) }
{
    let told = Answer::Found(share_value(value)?);
    Ok(JournalEntry::Read(snapshot, Question::Get(key), told))
}

mod ranges;
