// How calls on jobs in slots are drawn: mostly what comes next of the job in a slot, if all went well so far.
use crate::drawing::draw_watermark;
use crate::random::Random;
use crate::strategies::draw_strategy;
use lsm_log_runs::LogStep;
use lsm_runs::{JobStep, Slot};
use lsm_state::Options;

/// How many slots there are.
pub const SLOTS: usize = 2;

/// What may wait in a slot.
#[derive(Clone, Copy, Debug, PartialEq, Eq)]
pub enum Waits {
    Nothing,
    /// A flush that is to be begun, once there is something to flush.
    Sealed,
    BegunFlush,
    MergedFlush,
    WrittenFlush,
    BegunMerge,
    DoneMerge,
}

fn draw_options(random: &mut Random) -> Options {
    Options {
        mvcc_gc_watermark: draw_watermark(random),
        moment: random.below(1_000),
    }
}

/// What comes next in a slot, and what waits there then.
fn draw_next(random: &mut Random, slot: Slot, waits: Waits) -> (LogStep, Waits) {
    let (step, next) = match waits {
        Waits::Nothing if random.one_in(2) => return (LogStep::RotateMemtable, Waits::Sealed),
        Waits::Nothing => (
            JobStep::BeginCompaction(draw_strategy(random), draw_options(random)),
            Waits::BegunMerge,
        ),
        Waits::Sealed => (JobStep::BeginFlush, Waits::BegunFlush),
        Waits::BegunFlush => (
            JobStep::RunFlush(draw_watermark(random)),
            Waits::MergedFlush,
        ),
        Waits::MergedFlush => (JobStep::FlushToTables, Waits::WrittenFlush),
        Waits::WrittenFlush => (JobStep::RegisterTables, Waits::Nothing),
        Waits::BegunMerge => (JobStep::RunCompaction, Waits::DoneMerge),
        Waits::DoneMerge => (JobStep::FinishCompaction, Waits::Nothing),
    };
    (LogStep::AtSlot(slot, step), next)
}

/// What gives a job up, which may be of the other kind, or none.
fn draw_abandon(random: &mut Random) -> JobStep {
    if random.one_in(2) {
        JobStep::AbandonFlush
    } else {
        JobStep::AbandonCompaction
    }
}

/// What comes next in some slot; none where it is to be one in which a job may wait, and none does.
pub fn draw_job(
    random: &mut Random,
    slots: &mut [Waits; SLOTS],
    only_waiting: bool,
) -> Option<LogStep> {
    let slot = random.below(SLOTS as u64);
    let waits = slots.get_mut(slot as usize)?;
    if only_waiting && *waits == Waits::Nothing {
        return None;
    }
    if random.one_in(24) {
        return Some(LogStep::AtSlot(slot, draw_abandon(random)));
    }
    let (step, next) = draw_next(random, slot, *waits);
    *waits = next;
    Some(step)
}
