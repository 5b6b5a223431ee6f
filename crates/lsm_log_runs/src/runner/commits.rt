// Rotations, flushes, compactions and clears of a logged tree, as steps.
ghost use Rattle.std.specs.Prelude.{◌≡◌, IfOk, OnErr};
ghost use Rattle.lsm_commit.specs.Causes.{HasCause, Blames};
ghost use Rattle.lsm_runs.specs.Causes.{ReplyBlames};
ghost use Rattle.lsm_runs.specs.Compacting.{strategies_of};
ghost use Rattle.lsm_runs.specs.Files.{StaysStored};
ghost use Rattle.lsm_state.specs.Dropping.{MayDropIds};
ghost use Rattle.lsm_state.specs.WholeCompactions.{as_begun, Compacts, DropsRange, options_at, only_memory, major_choice};
ghost use Rattle.lsm_logged.specs.Acting.{ActsNot, IsMerging, DropsWithin, CompactsAct};
ghost use Rattle.lsm_logged.specs.Asking.{Asks};
ghost use Rattle.lsm_log_runs.specs.Doing.{ActsRotate, ActsFlush, ActsFlushActive, ActsCompaction, ActsCompact, ActsClear};
ghost use Rattle.lsm_log_runs.specs.Runs.{TakesRotate, TakesFlush, TakesFlushActive, TakesCompaction, TakesCompact, TakesClear, TakesMoment};

use lsm_below::{Error, SeqNo, UserKey};
use lsm_journal::copy_bound;
use lsm_logged::Logged;
use lsm_pick::{CompactionStrategy, OwnedBounds};
use lsm_runs::{Reply, of_done};
use lsm_state::Finished;
use lsm_store::Store;
use std::alloc::AllocError;
use std::ops::Bound;

// ---- flushes

pub(super) fn rotate<S: Store>(tree: &mut Logged<S>) -> Reply
    ensures takes { TakesRotate result tree.old tree.new }
    ensures acts { S.tells → ActsRotate result (S.world tree.old.store) tree.old tree.new }
{
    match tree.rotate_memtable() {
        Ok(sealed) => Reply::Sealed(sealed),
        Err(error) => Reply::Refused(error),
    }
}

pub(super) fn flush<S: Store>(tree: &mut Logged<S>, watermark: SeqNo) -> Reply
    ensures takes { TakesFlush watermark result tree.old tree.new }
    ensures acts { S.tells → ActsFlush watermark result (S.world tree.old.store) (S.world tree.new.store) tree.old tree.new }
    ensures stored { S.tells → StaysStored (S.world tree.old.store) (S.world tree.new.store) tree.old.core tree.new.core }
    ensures causes { HasCause (ReplyBlames result) (S.world tree.old.store) (S.world tree.new.store) }
{
    match tree.flush(watermark) {
        Ok(flushed) => Reply::Flushed(flushed),
        Err(error) => Reply::Refused(error),
    }
}

pub(super) fn flush_active<S: Store>(tree: &mut Logged<S>, watermark: SeqNo) -> Reply
    ensures takes { TakesFlushActive watermark result tree.old tree.new }
    ensures acts { S.tells → ActsFlushActive watermark result (S.world tree.old.store) (S.world tree.new.store) tree.old tree.new }
    ensures stored { S.tells → StaysStored (S.world tree.old.store) (S.world tree.new.store) tree.old.core tree.new.core }
    ensures causes { HasCause (ReplyBlames result) (S.world tree.old.store) (S.world tree.new.store) }
{
    let sealed = match tree.rotate_memtable() {
        Ok(sealed) => sealed,
        Err(error) => return Reply::RefusedActive(None, error),
    };
    match tree.flush(watermark) {
        Ok(flushed) => Reply::FlushedActive(sealed, flushed),
        Err(error) => Reply::RefusedActive(sealed, error),
    }
}

pub(super) fn clear<S: Store>(tree: &mut Logged<S>) -> Reply
    ensures takes { TakesClear result tree.old tree.new }
    ensures acts { S.tells → ActsClear result (S.world tree.old.store) (S.world tree.new.store) tree.old tree.new }
    ensures stored { S.tells → StaysStored (S.world tree.old.store) (S.world tree.new.store) tree.old.core tree.new.core }
    ensures causes { HasCause (ReplyBlames result) (S.world tree.old.store) (S.world tree.new.store) }
{
    match tree.clear() {
        Ok(number) => Reply::Cleared(number),
        Err(error) => Reply::Refused(error),
    }
}

pub(super) fn set_moment<S: Store>(tree: &mut Logged<S>, moment: u64) -> Reply
    ensures takes { TakesMoment moment result tree.old tree.new }
    ensures acts { S.tells → ActsNot (S.world tree.old.store) (S.world tree.new.store) tree.old tree.new }
{
    tree.set_moment(moment);
    Reply::Done
}

// ---- compactions

/// Compacts as a strategy in a box chooses.
fn compact_boxed<S: Store>(
    tree: &mut Logged<S>,
    strategy: &Box<dyn CompactionStrategy>,
    watermark: SeqNo,
) -> Result<Option<Finished>, Error>
    ensures asks { Asks (as_begun result) tree.old tree.new (Compacts (may_choose strategy.now) (may_refuse strategy.now) (options_at watermark tree.old.core) (as_begun result) tree.old.core tree.new.core) }
    ensures acts { S.tells → CompactsAct (MayDropIds (may_choose strategy.now) tree.old.core) watermark (as_begun result) (S.world tree.old.store) (S.world tree.new.store) tree.old tree.new }
    ensures stored { S.tells → StaysStored (S.world tree.old.store) (S.world tree.new.store) tree.old.core tree.new.core }
    ensures causes { HasCause (Blames (as_begun result)) (S.world tree.old.store) (S.world tree.new.store) }
{
    tree.compact(&**strategy, watermark)
}

pub(super) fn compact<S: Store>(
    tree: &mut Logged<S>,
    strategies: &[Box<dyn CompactionStrategy>],
    at: usize,
    watermark: SeqNo,
) -> Reply
    ensures takes { TakesCompact (strategies_of (λ b. may_choose b) (λ b. may_refuse b) strategies.now) at watermark result tree.old tree.new }
    ensures acts { S.tells → ActsCompact ((strategies_of (λ b. may_choose b) (λ b. may_refuse b) strategies.now).may_choose at) watermark result (S.world tree.old.store) (S.world tree.new.store) tree.old tree.new }
    ensures stored { S.tells → StaysStored (S.world tree.old.store) (S.world tree.new.store) tree.old.core tree.new.core }
    ensures causes { HasCause (ReplyBlames result) (S.world tree.old.store) (S.world tree.new.store) }
{
    let Some(strategy) = strategies.get(at) else {
        return Reply::NoStrategy;
    };
    of_done(compact_boxed(tree, strategy, watermark))
}

pub(super) fn major_compact<S: Store>(tree: &mut Logged<S>, target: u64, watermark: SeqNo) -> Reply
    ensures takes { TakesCompaction (λ begun. Compacts (major_choice target) only_memory (options_at watermark tree.old.core) begun tree.old.core tree.new.core) result tree.old tree.new }
    ensures acts { S.tells → ActsCompaction (IsMerging watermark) watermark result (S.world tree.old.store) (S.world tree.new.store) tree.old tree.new }
    ensures stored { S.tells → StaysStored (S.world tree.old.store) (S.world tree.new.store) tree.old.core tree.new.core }
    ensures causes { HasCause (ReplyBlames result) (S.world tree.old.store) (S.world tree.new.store) }
{
    of_done(tree.major_compact(target, watermark))
}

pub(super) fn drop_range<S: Store>(
    tree: &mut Logged<S>,
    low: &Bound<UserKey>,
    high: &Bound<UserKey>,
) -> Result<Reply, AllocError>
    ensures ok { IfOk result (λ reply. TakesCompaction (λ begun. DropsRange (record { start = low.now; end = high.now }) begun tree.old.core tree.new.core) reply tree.old tree.new) }
    ensures err { OnErr result (tree.new ≡ tree.old) }
    ensures acts { S.tells → IfOk result (λ reply. ActsCompaction (DropsWithin (record { start = low.now; end = high.now }) tree.old.core) 0 reply (S.world tree.old.store) (S.world tree.new.store) tree.old tree.new) }
    ensures stored { S.tells → StaysStored (S.world tree.old.store) (S.world tree.new.store) tree.old.core tree.new.core }
    ensures causes { IfOk result (λ reply. HasCause (ReplyBlames reply) (S.world tree.old.store) (S.world tree.new.store)) }
{
    let bounds = OwnedBounds {
        start: copy_bound(low)?,
        end: copy_bound(high)?,
    };
    Ok(of_done(tree.drop_range(bounds)))
}
