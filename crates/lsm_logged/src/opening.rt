// A logged tree is opened over a store, and gives it back.
ghost use Rattle.std.specs.Prelude.{◌≡◌, ◌⊎◌, ◌<◌, ◌^◌, ℕ, true, List, None, Contains, IfOk, IfErr, OnOk, IsErrOf, IfSome, IfNone};
ghost use Rattle.std.specs.List.{All, AllByRecursion};
ghost use Rattle.std.specs.List.Sorted.{IsStrictlyIncreasing};
ghost use Rattle.lsm_store.specs.World.{Same, LeavesOnly};
ghost use Rattle.lsm_tables.specs.Image.{Fits};
ghost use Rattle.lsm_model.specs.Ops.{op_entries};
ghost use Rattle.lsm_manifest.specs.Kinds.{is_orphan};
ghost use Rattle.lsm_manifest.specs.Spelling.{ids_of};
ghost use Rattle.lsm_manifest.specs.Recovery.{Levels, IsNamed};
ghost use Rattle.lsm_manifest.specs.Ready.{IsReady};
ghost use Rattle.lsm_commit.specs.Stored.{CountsFaults};
ghost use Rattle.lsm_log.specs.LogNames.{record_name};
ghost use Rattle.lsm_log.specs.Changes.{IsBelow, IsNoneOf, ClearsRecords, AreCleared};
ghost use Rattle.lsm_log.specs.Logs.{LacksOne, IsLogAt, IsBadLog};
ghost use Rattle.lsm_state.specs.Core.{written_all};
ghost use Rattle.lsm_state.specs.Commits.{UpholdsFiles};
ghost use Rattle.lsm_logged.specs.Keeping.{AreRecordNumbers};
ghost use Rattle.lsm_logged.specs.Meanwhile.{LeavesAsBefore};
ghost use Rattle.lsm_logged.specs.Opening.{IsJustAbove, RefusesReading, RefusesReplay, RefusesReplays, ReplaysEach, OpensLogged, RefusesLogged, logged_left, logged_told};

use crate::Logged;
use lsm_below::{Error, SeqNo, plain_numbers_are_read};
use lsm_commit::{
    crashes_leave_versions, foreign_names_spare, openings_pass, openings_settle,
    stored_files_are_ready,
};
use lsm_log::{LogNumbers, Record};
use lsm_log_model::{counter_stays_above, replays_reopen};
use lsm_manifest::{
    images_stand_once, openings_leave_what_was_read, ready_stores_keep_what_is_named,
    unread_names_dont_matter,
};
use lsm_parts::{Config, LIMIT};
use lsm_state::{Found, TreeState, opened_trees_are_fresh};
use lsm_store::Store;
use std::alloc::Global;

/// The number after these. None where they don't rise, or are 2^63 or more.
fn number_after(numbers: &[SeqNo]) -> Option<SeqNo>
    ensures after { IfSome result (λ n. AreRecordNumbers n numbers.now) }
    ensures just { IfSome result (λ n. IsJustAbove n numbers.now) }
    ensures none { IfNone result (IsStrictlyIncreasing numbers.now → All (λ k. k < 2 ^ 63) numbers.now → ⊥) }
{
    let mut next = 0;
    for i in 0..numbers.len() {
        let number = numbers[i];
        if number < next || number >= LIMIT {
            return None;
        }
        next = number + 1;
    }
    Some(next)
}

/// Writes a record to the tree, under its own number. Refused only for want of memory.
fn replay<S: Store>(tree: &mut TreeState<S>, read: Record) -> Result<(), Error>
    ensures ok { OnOk result (tree.new.core ≡ written_all (op_entries read.number read.ops) tree.old.core) }
    ensures only { IfErr result RefusesReplay }
    ensures memory { AllByRecursion Fits (op_entries read.number read.ops) → read.number < 2 ^ 63 → IfErr result (λ e. e ≡ Error.OutOfMemory) }
    ensures store { tree.new.store ≡ tree.old.store }
{
    let number = read.number;
    for (key, op) in read.ops.into_vec() {
        tree.append_entry(op.into_entry(key, number))?;
    }
    Ok(())
}

/// Reads each of these records again, and writes it to the tree, in their order. One is in memory at a time, beside the
/// tree.
fn replay_each<S: Store>(tree: &mut TreeState<S>, numbers: &[SeqNo]) -> Result<(), Error>
    ensures replays { OnOk result (ReplaysEach S.tells (S.world tree.old.store).gives numbers.now tree.old.core tree.new.core) }
    ensures bad { S.tells → IsErrOf result Error.Unrecoverable → LacksOne (S.world tree.old.store).gives numbers.now }
    ensures told { S.tells → All (λ k. k < 2 ^ 63) numbers.now → IfErr result RefusesReading }
    ensures only { IfErr result RefusesReplays }
    ensures same { S.tells → Same (S.world tree.old.store) (S.world tree.new.store) }
    ensures upholds { S.tells → OnOk result (UpholdsFiles (S.world tree.old.store) (S.world tree.new.store) tree.old.core tree.new.core) }
    ensures counts { CountsFaults (S.world tree.old.store) (S.world tree.new.store) result }
{
    crashes_leave_versions(tree.store());
    for number in numbers {
        let read = tree.read_record(*number)?;
        replay(tree, read)?;
    }
    Ok(())
}

/// What a check of a log tells: the numbers of its records, and the number after all that were met.
#[derive(Drop)]
struct CheckedLog {
    log: LogNumbers,
    next: SeqNo,
}

/// Checks the log of what was found, from a number on.
fn check_numbered<S: Store>(found: &mut Found<S>, from: SeqNo) -> Result<CheckedLog, Error>
    ensures read { S.tells → IfOk result (λ r. IsLogAt (S.world found.old.store).gives from r.log.passed.items r.log.numbers.items) }
    ensures after { IfOk result (λ r. AreRecordNumbers r.next r.log.numbers.items) }
    ensures below { IfOk result (λ r. AreRecordNumbers r.next r.log.passed.items) }
    ensures just { IfOk result (λ r. IsJustAbove r.next r.log.passed.items ⊎ IsJustAbove r.next r.log.numbers.items) }
    ensures bad { S.tells → IsErrOf result Error.Unrecoverable → IsBadLog (S.world found.old.store).gives from }
    ensures only { IfErr result RefusesReading }
    ensures same { S.tells → Same (S.world found.old.store) (S.world found.new.store) }
    ensures files { found.new.files ≡ found.old.files }
    ensures counts { CountsFaults (S.world found.old.store) (S.world found.new.store) result }
{
    let log = found.check_log(from)?;
    let Some(below) = number_after(&log.passed) else {
        return Err(Error::Unrecoverable);
    };
    let Some(after) = number_after(&log.numbers) else {
        return Err(Error::Unrecoverable);
    };
    Ok(CheckedLog {
        log,
        next: below.max(after),
    })
}

/// Writes the records of a checked log to the tree, and removes those below it.
fn take_log<S: Store>(tree: &mut TreeState<S>, from: SeqNo, log: &LogNumbers) -> Result<(), Error>
    requires { IsStrictlyIncreasing log.now.passed.items }
    ensures replays { OnOk result (ReplaysEach S.tells (S.world tree.old.store).gives log.now.numbers.items tree.old.core tree.new.core) }
    ensures bad { S.tells → IsErrOf result Error.Unrecoverable → LacksOne (S.world tree.old.store).gives log.now.numbers.items }
    ensures told { S.tells → All (λ k. k < 2 ^ 63) log.now.numbers.items → IfErr result RefusesReading }
    ensures upholds { S.tells → OnOk result (UpholdsFiles (S.world tree.old.store) (S.world tree.new.store) tree.old.core tree.new.core) }
    ensures gone { S.tells → OnOk result ((k : ℕ) → Contains log.now.passed.items k → k < from → (S.world tree.new.store).gives (record_name k) ≡ None) }
    ensures others { S.tells → OnOk result ((n : List ℕ) → IsNoneOf (Contains log.now.passed.items) n → (S.world tree.new.store).gives n ≡ (S.world tree.old.store).gives n) }
    ensures clears { S.tells → ClearsRecords (IsBelow from) (S.world tree.old.store) (S.world tree.new.store) }
    ensures any_moment { S.tells → LeavesOnly (S.world tree.old.store) (S.world tree.new.store) (AreCleared (IsBelow from) (S.world tree.old.store)) }
    ensures only { IfErr result RefusesReplays }
    ensures counts { CountsFaults (S.world tree.old.store) (S.world tree.new.store) result }
{
    replay_each(tree, &log.numbers)?;
    tree.remove_records_below(from, &log.passed)
}

impl<S: Store> Logged<S> {
    /// The logged tree that a store holds, or a new one where there is no `current`. All of the log is read and checked
    /// before anything is changed. Then the records from the version's `log_from` on are read again and written to the
    /// active memtable, by rising number, each batch under its own number; those below are removed unread. Both counters
    /// start just above all numbers that were met, and at `log_from` at least, or where the configuration says, if that is
    /// higher. The memtable must fit in memory, beside one record at a time.
    ///
    /// A store that was written through `Logged` is opened through nothing else: a flush of another tree over it would pass
    /// records that it never read. Refused, it gives the store back beside the error.
    ///
    /// # Errors
    ///
    /// As `TreeState::open_raised`, and `Unrecoverable` where another name in the folder `log` isn't a number below 2^63 in plain
    /// decimal, or a record from `log_from` on is damaged: then nothing is removed. `Store` where the store failed, also after
    /// the replay: then some old records may be removed. A store that reads otherwise when a record is read again is
    /// `Unrecoverable` too: then the tree's files are opened, and no record is removed.
    pub fn open(alloc: Global, config: Config, store: S) -> Result<Logged<S>, (Error, S)>
        ensures opens { IfOk result (OpensLogged S.tells S.world store config) }
        ensures refused { S.tells → IfErr result (λ e. RefusesLogged (S.world store) (S.world e.1) e.0) }
        // Opened, no orphan is left.
        ensures removes { S.tells → (id : ℕ) (ls : Levels) → IsNamed (S.world store).gives id ls → IfOk result (λ t. (n : List ℕ) → is_orphan id (ids_of ls) n ≡ true → (S.world t.store).gives n ≡ None) }
        // What a crash leaves at each moment of it reads as what it could leave before: the same version, and the same
        // records from its `log_from` on; and the store may be opened again.
        ensures leaves { S.tells → IsReady (S.world store) → LeavesAsBefore (S.world store) (S.world (logged_left result)) }
        // One call of the store failed where the error says so, and none where it doesn't.
        ensures counts { CountsFaults (S.world store) (S.world (logged_left result)) (logged_told result) }
    {
        plain_numbers_are_read();
        images_stand_once();
        unread_names_dont_matter();
        ready_stores_keep_what_is_named(&store);
        openings_leave_what_was_read(&store);
        foreign_names_spare(&store);
        stored_files_are_ready(&store);
        openings_pass(&store);
        openings_settle(&store);
        opened_trees_are_fresh();
        replays_reopen();
        counter_stays_above();
        let mut found = TreeState::look(alloc, store)?;
        let from = found.version().log_from();
        let checked = match check_numbered(&mut found, from) {
            Ok(checked) => checked,
            Err(error) => return Err((error, found.into_store())),
        };
        let config = found.raised(config).raised(from.max(checked.next));
        let mut tree = found.open(config)?;
        match take_log(&mut tree, from, &checked.log) {
            Ok(()) => Ok(Logged {
                tree,
                numbers: checked.log.numbers,
                doubted: false,
            }),
            Err(error) => Err((error, tree.into_store())),
        }
    }

    /// The store, to look at.
    pub fn store(&self) -> &S
        ensures { result.now ≡ self.now.store }
    {
        self.tree.store()
    }

    /// The store, in exchange for the tree. What stands in records is found again.
    pub fn into_store(self) -> S
        ensures { result ≡ self.store }
    {
        self.tree.into_store()
    }
}
