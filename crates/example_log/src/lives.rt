// Lives of a logged tree over a store in memory.
ghost use Rattle.std.specs.Prelude.{List, None, IfOk, IfSome};
ghost use Rattle.lsm_logged.specs.Keys.{Bytes};
ghost use Rattle.lsm_logged.specs.Memory.{world_of};
ghost use Rattle.lsm_logged.specs.World.{Begins};
ghost use Rattle.lsm_logged.specs.Op.{Op as OpOf};
ghost use Rattle.lsm_logged.specs.Opening.{OpensLogged};
ghost use Rattle.example_log.specs.Kept.{HoldsBatch};
ghost use Rattle.example_log.specs.Written.{HasWritten, WasWritten};

use lsm_commit::crashes_leave_versions;
use lsm_log_model::{
    every_crash_keeps_batches, log_stays_sound, logged_reads_are_right, replays_are_in_order,
    tables_alone_stand, whole_is_logged,
};
use lsm_logged::{
    Logged, images_have_logs, logs_can_be_settled, records_are_those_read, versions_are_told_once,
};
use lsm_manifest::crashes_settle;
use lsm_state::{Config, Error, MemStore, Op, Pick, UserKey};
use std::alloc::Global;

/// Opens the logged tree of a store.
fn opened(alloc: Global, store: MemStore) -> Result<Logged, Error>
    ensures { IfOk result (λ t. OpensLogged (Unit {0}) world_of store (record { id = 0; seqno = 0; visible_seqno = 0 }) t) }
{
    match Logged::open(alloc, Config::new(0, 0, 0), store) {
        Ok(tree) => Ok(tree),
        Err((error, _)) => Err(error),
    }
}

/// Writes a batch to a new logged tree, and gives back its store once the batch is acknowledged.
fn written(alloc: Global, store: MemStore, ops: Vec<(UserKey, Op)>) -> Result<MemStore, Error>
    requires new { Begins (λ _. None) (world_of store) }
    ensures { IfOk result (HasWritten ops.items) }
{
    crashes_settle(&store);
    logs_can_be_settled(&store);
    tables_alone_stand();
    let mut tree = opened(alloc, store)?;
    tree.write(ops)?;
    let store = tree.into_store();
    crashes_leave_versions(&store);
    Ok(store)
}

/// Opens a logged tree on what is left of that.
fn reopened(alloc: Global, left: MemStore) -> Result<Logged, Error>
    ensures { IfOk result (λ t. (ops : List (Bytes × OpOf)) → WasWritten ops left → HoldsBatch ops t.core) }
{
    images_have_logs(&left);
    versions_are_told_once();
    records_are_those_read();
    tables_alone_stand();
    replays_are_in_order();
    log_stays_sound();
    every_crash_keeps_batches();
    whole_is_logged();
    logged_reads_are_right();
    opened(alloc, left)
}

/// Writes a batch to a new logged tree, crashes its store so that of these names this is left, and opens a logged tree on what
/// is left. None where that can't be left. Faults may be planned in the store.
///
/// Where the batch is acknowledged, all of it is there after the crash, whatever that leaves: a get of its keys answers what it
/// wrote, and a get of another one nothing.
pub fn write_and_crash(
    alloc: Global,
    store: MemStore,
    ops: Vec<(UserKey, Op)>,
    picks: &[(&str, Pick<'_>)],
) -> Result<Option<Logged>, Error>
    requires new { Begins (λ _. None) (world_of store) }
    ensures { IfOk result (λ r. IfSome r (λ t. HoldsBatch ops.items t.core)) }
{
    logs_can_be_settled(&store);
    let store = written(alloc, store, ops)?;
    let Some(left) = store.crash(picks)? else {
        return Ok(None);
    };
    let again = reopened(alloc, left)?;
    Ok(Some(again))
}

/// The same without a crash: the process ends, and the next one opens the store as it is.
pub fn write_and_end(
    alloc: Global,
    store: MemStore,
    ops: Vec<(UserKey, Op)>,
) -> Result<Logged, Error>
    requires new { Begins (λ _. None) (world_of store) }
    ensures { IfOk result (λ t. HoldsBatch ops.items t.core) }
{
    logs_can_be_settled(&store);
    let store = written(alloc, store, ops)?;
    let again = reopened(alloc, store)?;
    Ok(again)
}
