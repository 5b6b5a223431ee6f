// What a call came to, appended to a journal and to a pass.
ghost use Rattle.std.specs.Prelude.{◌≡◌, ◌+◌, ◌≤◌, Ok, IfOk, fold, length, take, vec_len, vec_capacity};
ghost use Rattle.lsm_model.specs.Journal.{floor_after};
ghost use Rattle.lsm_recorded.specs.Passes.{Notes};

use crate::copies::{Copies, share_entries};
use crate::pass::{make_room, put_entry};
use crate::shared_entry::SharedEntry;
use lsm_below::SeqNo;
use lsm_model::JournalEntry;
use std::alloc::{AllocError, Global};

/// Copies of entries, and room for them in a journal and in a pass.
pub(crate) fn make_copies(
    alloc: Global,
    journal: &mut Vec<SharedEntry>,
    pass: &mut Vec<(u64, SharedEntry)>,
    entries: &[JournalEntry],
) -> Result<Copies, AllocError>
    ensures copies { IfOk result (λ copies. copies.journal.items ≡ entries.now) }
    ensures both { IfOk result (λ copies. copies.pass.items ≡ entries.now) }
    ensures journal { journal.new.items ≡ journal.old.items }
    ensures pass { pass.new.items ≡ pass.old.items }
    ensures journal_room { IfOk result (λ copies. vec_len journal.new + vec_len copies.pass ≤ vec_capacity journal.new) }
    ensures pass_room { IfOk result (λ copies. vec_len pass.new + vec_len copies.pass ≤ vec_capacity pass.new) }
{
    let copies = share_entries(alloc, entries)?;
    make_room(journal, pass, copies.pass.len())?;
    Ok(copies)
}

/// Entries that were made, beside copies of them, with room for these in a journal and in a pass.
pub(crate) fn beside_copies(
    alloc: Global,
    journal: &mut Vec<SharedEntry>,
    pass: &mut Vec<(u64, SharedEntry)>,
    made: Result<Vec<JournalEntry>, AllocError>,
) -> Result<(Vec<JournalEntry>, Copies), AllocError>
    ensures entries { IfOk result (λ both. made ≡ Ok (both.0)) }
    ensures copies { IfOk result (λ both. both.1.journal.items ≡ both.0.items) }
    ensures both { IfOk result (λ both. both.1.pass.items ≡ both.0.items) }
    ensures journal { journal.new.items ≡ journal.old.items }
    ensures pass { pass.new.items ≡ pass.old.items }
    ensures journal_room { IfOk result (λ both. vec_len journal.new + vec_len both.1.pass ≤ vec_capacity journal.new) }
    ensures pass_room { IfOk result (λ both. vec_len pass.new + vec_len both.1.pass ≤ vec_capacity pass.new) }
{
    let entries = made?;
    let copies = make_copies(alloc, journal, pass, &entries)?;
    Ok((entries, copies))
}

/// The greatest sequence number of an install or a clear, also among these entries.
fn floor_behind(floor: SeqNo, entries: &[JournalEntry]) -> SeqNo
    ensures { result ≡ fold floor_after floor entries.now }
{
    let mut highest = floor;
    for entry in entries {
        if let JournalEntry::Install(number) | JournalEntry::Clear(number) = entry {
            highest = highest.max(*number);
        }
    }
    highest
}

/// Appends entries to a journal, and copies of them, of which there may be more, with their places to a pass. There is room.
pub(crate) fn put_all(
    journal: &mut Vec<SharedEntry>,
    pass: &mut Vec<(u64, SharedEntry)>,
    entries: Vec<SharedEntry>,
    copies: Vec<SharedEntry>,
)
    requires front { entries.items ≡ take (length entries.items) copies.items }
    requires journal_room { vec_len journal.old + vec_len copies ≤ vec_capacity journal.old }
    requires pass_room { vec_len pass.old + vec_len copies ≤ vec_capacity pass.old }
    ensures { Notes entries.items journal.old.items journal.new.items pass.old.items pass.new.items }
{
    for (entry, copy) in entries.into_iter().zip(copies) {
        put_entry(journal, pass, entry, copy);
    }
}

/// Appends what these entries tell, of which there may be more copies, to a journal and with its places to a pass, and the
/// floor follows each install. There is room.
pub(crate) fn put_entries(
    journal: &mut Vec<SharedEntry>,
    pass: &mut Vec<(u64, SharedEntry)>,
    floor: &mut SeqNo,
    entries: Vec<JournalEntry>,
    copies: Copies,
)
    requires front { entries.items ≡ take (length entries.items) copies.pass.items }
    requires both { copies.journal.items ≡ copies.pass.items }
    requires journal_room { vec_len journal.old + vec_len copies.pass ≤ vec_capacity journal.old }
    requires pass_room { vec_len pass.old + vec_len copies.pass ≤ vec_capacity pass.old }
    ensures noted { Notes entries.items journal.old.items journal.new.items pass.old.items pass.new.items }
    ensures floor { floor.new ≡ fold floor_after floor.old entries.items }
{
    *floor = floor_behind(*floor, &entries);
    let mut shared = copies.journal;
    shared.truncate(entries.len());
    put_all(journal, pass, shared, copies.pass);
}

/// `put_entries`, to the call history of a tree and to a pass.
macro_rules! put {
    ($tree:expr, $pass:expr, $entries:expr, $copies:expr) => {
        put_entries(
            &mut $tree.journal,
            &mut $pass.entries,
            &mut $tree.floor,
            $entries,
            $copies,
        )
    };
}

pub(crate) use put;
