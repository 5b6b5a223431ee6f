// The calls on counters, as steps.
ghost use Rattle.std.specs.Prelude.{◌≡◌, max};
ghost use Rattle.lsm_runs.specs.Runs.{TakesNext, TakesCounter, counter_of};

use super::{refused, silent};
use crate::{Counter, Outcome, Reply};
use lsm_below::SeqNo;
use lsm_state::TreeState;
use lsm_store::Store;
use std::alloc::Global;

pub(super) fn next<S: Store>(alloc: Global, state: &mut TreeState<S>, counter: Counter) -> Outcome
    ensures takes { TakesNext counter result.reply result.entries state.old.core state.new.core }
    ensures store { state.new.store ≡ state.old.store }
{
    let drawn = match counter {
        Counter::Seqno => state.seqno_mut().next(),
        Counter::Visible => state.visible_seqno_mut().next(),
    };
    match drawn {
        Ok(number) => silent(alloc, Reply::Number(number)),
        Err(error) => refused(alloc, error),
    }
}

pub(super) fn set<S: Store>(
    alloc: Global,
    state: &mut TreeState<S>,
    counter: Counter,
    seqno: SeqNo,
) -> Outcome
    ensures takes { TakesCounter counter seqno result.reply result.entries state.old.core state.new.core }
    ensures store { state.new.store ≡ state.old.store }
{
    match counter {
        Counter::Seqno => state.seqno_mut().set(seqno),
        Counter::Visible => state.visible_seqno_mut().set(seqno),
    }
    silent(alloc, Reply::Done)
}

pub(super) fn fetch_max<S: Store>(
    alloc: Global,
    state: &mut TreeState<S>,
    counter: Counter,
    seqno: SeqNo,
) -> Outcome
    ensures takes { TakesCounter counter (max (counter_of counter state.old.core) seqno) result.reply result.entries state.old.core state.new.core }
    ensures store { state.new.store ≡ state.old.store }
{
    match counter {
        Counter::Seqno => state.seqno_mut().fetch_max(seqno),
        Counter::Visible => state.visible_seqno_mut().fetch_max(seqno),
    }
    silent(alloc, Reply::Done)
}
