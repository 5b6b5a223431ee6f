// Whether a tree and its log would be opened.
ghost use Rattle.std.specs.Prelude.{IfOk, OnOk, IfErr};
ghost use Rattle.lsm_store.specs.World.{Same};
ghost use Rattle.lsm_dump_parts.specs.Verdicts.{IsTreeAt, IsLogRead, IsWhole, RefusesTree, RefusesLog, Refuses};

use lsm_below::{Error, SeqNo};
use lsm_log::check_log;
use lsm_manifest::look_for_files;
use lsm_store::Store;
use std::alloc::Global;

/// Reads all that opening a tree without its log reads, by the same call: from which number its log is read.
///
/// # Errors
///
/// The error with which `TreeState::open` would refuse the store.
pub fn judge_tree<S: Store>(alloc: Global, store: &mut S) -> Result<SeqNo, Error>
    ensures found { S.tells → IfOk result (IsTreeAt (S.world store.old).gives) }
    ensures refused { S.tells → IfErr result (RefusesTree (S.world store.old) (S.world store.new)) }
    ensures same { S.tells → Same (S.world store.old) (S.world store.new) }
{
    match look_for_files(alloc, store) {
        Ok(found) => Ok(found.opened.version.log_from()),
        Err(error) => Err(error),
    }
}

/// Reads the records of a log from a number on.
fn judge_log<S: Store>(alloc: Global, store: &mut S, from: SeqNo) -> Result<(), Error>
    ensures read { S.tells → OnOk result (IsLogRead (S.world store.old).gives from) }
    ensures refused { S.tells → IfErr result (RefusesLog (S.world store.old).gives from) }
    ensures same { S.tells → Same (S.world store.old) (S.world store.new) }
{
    match check_log(alloc, store, from) {
        Ok(log) => {
            drop(log);
            Ok(())
        }
        Err(error) => Err(error),
    }
}

/// Reads all that opening a tree with its log reads, by the same calls, and tells the error that it would be refused with.
/// All tables are in memory, as where a tree is opened. It changes nothing.
///
/// # Errors
///
/// The error with which `Logged::open` would refuse the store.
#[tactic(auto, using(lsm_store::specs::Moments::same_then))]
pub fn judge<S: Store>(alloc: Global, store: &mut S) -> Result<(), Error>
    ensures whole { S.tells → OnOk result (IsWhole (S.world store.old).gives) }
    ensures refused { S.tells → IfErr result (Refuses (S.world store.old) (S.world store.new)) }
    ensures same { S.tells → Same (S.world store.old) (S.world store.new) }
{
    match judge_tree(alloc, store) {
        Ok(from) => judge_log(alloc, store, from),
        Err(error) => Err(error),
    }
}
