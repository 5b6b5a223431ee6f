// Whether two entries of a journal are the same in all their parts.
ghost use Rattle.std.specs.Prelude.{◌≡◌, IsTrue, ◌↔◌};

use lsm_below::{KeyRange, KvPair, UserKey, has_same_parts};
use lsm_model::{Answer, JournalEntry, Question};
use std::ops::Bound;

fn same_bytes(left: &UserKey, right: &UserKey) -> bool
    ensures { IsTrue result ↔ (left.now ≡ right.now) }
{
    left == right
}

fn same_range(left: &KeyRange, right: &KeyRange) -> bool
    ensures { IsTrue result ↔ (left.now ≡ right.now) }
{
    same_bytes(left.min(), right.min()) && same_bytes(left.max(), right.max())
}

fn same_ranges(left: &[KeyRange], right: &[KeyRange]) -> bool
    ensures { IsTrue result ↔ (left.now ≡ right.now) }
{
    if left.len() != right.len() {
        return false;
    }
    for at in 0..left.len() {
        if !same_range(&left[at], &right[at]) {
            return false;
        }
    }
    true
}

fn same_pair(left: &KvPair, right: &KvPair) -> bool
    ensures { IsTrue result ↔ (left.now ≡ right.now) }
{
    same_bytes(&left.0, &right.0) && same_bytes(&left.1, &right.1)
}

fn same_pairs(left: &[KvPair], right: &[KvPair]) -> bool
    ensures { IsTrue result ↔ (left.now ≡ right.now) }
{
    if left.len() != right.len() {
        return false;
    }
    for at in 0..left.len() {
        if !same_pair(&left[at], &right[at]) {
            return false;
        }
    }
    true
}

fn same_bound(left: &Bound<UserKey>, right: &Bound<UserKey>) -> bool
    ensures { IsTrue result ↔ (left.now ≡ right.now) }
{
    match (left, right) {
        (Bound::Included(left), Bound::Included(right))
        | (Bound::Excluded(left), Bound::Excluded(right)) => same_bytes(left, right),
        (Bound::Unbounded, Bound::Unbounded) => true,
        _ => false,
    }
}

fn same_question(left: &Question, right: &Question) -> bool
    ensures { IsTrue result ↔ (left.now ≡ right.now) }
{
    match (left, right) {
        (Question::Get(left), Question::Get(right)) => same_bytes(left, right),
        (Question::Between(low, high), Question::Between(other_low, other_high)) => {
            same_bound(low.as_bound(), other_low.as_bound())
                && same_bound(high.as_bound(), other_high.as_bound())
        }
        (Question::Prefix(left), Question::Prefix(right)) => same_bytes(left, right),
        _ => false,
    }
}

fn same_answer(left: &Answer, right: &Answer) -> bool
    ensures { IsTrue result ↔ (left.now ≡ right.now) }
{
    match (left, right) {
        (Answer::Found(None), Answer::Found(None)) => true,
        (Answer::Found(Some(left)), Answer::Found(Some(right))) => same_bytes(left, right),
        (Answer::Pairs(left), Answer::Pairs(right)) => {
            same_pairs(left.as_slice(), right.as_slice())
        }
        _ => false,
    }
}

/// Whether the two are the same in all their parts.
pub fn same_entry(left: &JournalEntry, right: &JournalEntry) -> bool
    ensures { IsTrue result ↔ (left.now ≡ right.now) }
{
    match (left, right) {
        (JournalEntry::Write(left), JournalEntry::Write(right)) => has_same_parts(left, right),
        (JournalEntry::Clear(left), JournalEntry::Clear(right))
        | (JournalEntry::Install(left), JournalEntry::Install(right))
        | (JournalEntry::Mark(left), JournalEntry::Mark(right)) => left == right,
        (JournalEntry::Dropped(left, number), JournalEntry::Dropped(right, other)) => {
            number == other && same_ranges(left.as_slice(), right.as_slice())
        }
        (
            JournalEntry::Read(snapshot, asked, told),
            JournalEntry::Read(other, other_asked, other_told),
        ) => {
            snapshot == other && same_question(asked, other_asked) && same_answer(told, other_told)
        }
        _ => false,
    }
}
