// A slow replay: what the journal before a read says of its key. It keeps no index, and shares nothing with the tree.
use lsm_tree::{
    Answer, InternalValue, JournalEntry, Question, SeqNo, SharedEntry, UserKey, UserValue,
    ValueType,
};

/// What a write leaves of its key.
fn written(entry: &InternalValue) -> Option<&UserValue> {
    match entry.key.value_type {
        ValueType::Value => Some(&entry.value),
        _ => None,
    }
}

/// What a key has after an entry that is numbered below the snapshot.
fn value_after<'a>(
    before: Option<&'a UserValue>,
    entry: &'a JournalEntry,
    key: &UserKey,
    snapshot: SeqNo,
) -> Option<&'a UserValue> {
    match entry {
        JournalEntry::Write(write) if write.key.seqno < snapshot && write.key.user_key == *key =>
            written(write),
        JournalEntry::Clear(number) if *number < snapshot => None,
        _ => before,
    }
}

/// What a key has at a snapshot after these entries.
fn value_at<'a>(
    entries: &'a [SharedEntry],
    key: &UserKey,
    snapshot: SeqNo,
) -> Option<&'a UserValue> {
    let mut value = None;
    for entry in entries {
        value = value_after(value, entry.as_entry(), key, snapshot);
    }
    value
}

/// Whether a read is answered as the entries before it say. No other question than a get is asked.
fn is_right(
    entries: &[SharedEntry],
    snapshot: SeqNo,
    question: &Question,
    answer: &Answer,
) -> bool {
    match (question, answer) {
        (Question::Get(key), Answer::Found(found)) => {
            value_at(entries, key, snapshot) == found.as_ref()
        }
        _ => false,
    }
}

/// How many reads, writes, clears and drops a journal has, and how many of the reads are answered right.
#[derive(Clone, Copy, Debug, PartialEq, Eq)]
pub struct Counts {
    pub reads: usize,
    pub right: usize,
    pub writes: usize,
    pub clears: usize,
    pub drops: usize,
}

fn count(counts: &mut Counts, before: &[SharedEntry], entry: &JournalEntry) {
    match entry {
        JournalEntry::Read(snapshot, question, answer) => {
            counts.reads = counts.reads.saturating_add(1);
            if is_right(before, *snapshot, question, answer) {
                counts.right = counts.right.saturating_add(1);
            }
        }
        JournalEntry::Write(_) => counts.writes = counts.writes.saturating_add(1),
        JournalEntry::Clear(_) => counts.clears = counts.clears.saturating_add(1),
        JournalEntry::Dropped(_, _) => counts.drops = counts.drops.saturating_add(1),
        _ => {}
    }
}

pub fn count_all(journal: &[SharedEntry]) -> Counts {
    let mut counts = Counts {
        reads: 0,
        right: 0,
        writes: 0,
        clears: 0,
        drops: 0,
    };
    for (place, entry) in journal.iter().enumerate() {
        let before = journal.get(..place).unwrap_or_default();
        count(&mut counts, before, entry.as_entry());
    }
    counts
}
