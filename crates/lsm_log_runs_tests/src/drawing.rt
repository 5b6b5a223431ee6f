// How a script is drawn.
use crate::jobs::{SLOTS, Waits, draw_job};
use crate::random::Random;
use crate::shown::{COUNT, KEYS};
use crate::strategies::draw_strategy;
use lsm_log_runs::LogStep;
use lsm_state::{Fault, Op, Ops, SeqNo, UserKey, UserValue};
use std::alloc::{AllocError, Global};
use std::ops::Bound;

/// A snapshot above all numbers of a script.
pub const SNAPSHOT: SeqNo = 1 << 62;

/// A watermark above all numbers of a script.
const HIGH: SeqNo = 1 << 20;

/// The fewest steps, and how many more there may be.
const FEWEST: u64 = 5;

const MORE: u64 = 24;

/// How many calls of the store an opening makes, or some more.
const OPENING: u64 = 8;

/// What was drawn before: how many steps, how often each key was set, the value of the last set, and what may wait in each slot.
#[derive(Clone, Copy, Debug)]
pub struct Drawn {
    pub steps: u64,
    sets: [u64; COUNT],
    value: u64,
    slots: [Waits; SLOTS],
}

impl Drawn {
    pub const NOTHING: Drawn = Drawn {
        steps: 0,
        sets: [0; COUNT],
        value: 0,
        slots: [Waits::Nothing; SLOTS],
    };

    /// Whether the key was set once, so that it may be removed weakly.
    fn is_once(&self, place: usize) -> bool {
        matches!(self.sets.get(place), Some(1))
    }

    /// A new value of a key.
    fn value(&mut self, place: usize) -> u64 {
        if let Some(sets) = self.sets.get_mut(place) {
            *sets = sets.saturating_add(1);
        }
        self.value = self.value.saturating_add(1);
        self.value
    }
}

/// A script: its steps, the fault of one store call, if there is one, and how it ends.
#[derive(Drop)]
pub struct Script {
    pub steps: Vec<LogStep>,
    /// Which store call of the life fails, and how.
    pub fault: Option<(u64, Fault)>,
    /// Whether the steps go on after the fault.
    pub goes_on: bool,
    /// Whether there is a crash at the end.
    pub crashes: bool,
}

fn key_at(place: usize) -> UserKey {
    let name: &'static str = match KEYS.get(place) {
        Some(name) => *name,
        None => "",
    };
    UserKey::from_static(name.as_bytes())
}

fn draw_place(random: &mut Random) -> usize {
    random.below(COUNT as u64) as usize
}

pub fn draw_watermark(random: &mut Random) -> SeqNo {
    if random.one_in(2) { 0 } else { HIGH }
}

fn draw_op(
    alloc: Global,
    random: &mut Random,
    drawn: &mut Drawn,
    place: usize,
) -> Result<Op, AllocError> {
    match random.below(8) {
        0 | 1 => Ok(Op::Del),
        2 | 3 if drawn.is_once(place) => Ok(Op::Weak),
        _ => {
            let value = drawn.value(place).to_be_bytes();
            Ok(Op::Set(UserValue::copy_from_slice(alloc, &value)?))
        }
    }
}

/// A batch of 1 to 4 operations, now and then with a key twice.
fn draw_batch(
    alloc: Global,
    random: &mut Random,
    drawn: &mut Drawn,
) -> Result<LogStep, AllocError> {
    let mut ops = Vec::new(alloc);
    let mut place = draw_place(random);
    let stride = if random.one_in(32) { 0 } else { 5 };
    for _ in 0..random.below(4).saturating_add(1) {
        ops.push((key_at(place), draw_op(alloc, random, drawn, place)?))?;
        place = (place % COUNT + stride) % COUNT;
    }
    Ok(LogStep::Write(Ops::new(ops)))
}

/// From a key to one that isn't far after it.
fn draw_bounds(random: &mut Random) -> (Bound<UserKey>, Bound<UserKey>) {
    let low = draw_place(random) % COUNT;
    let high = low + draw_place(random) % COUNT / 2;
    (
        Bound::Included(key_at(low)),
        Bound::Included(key_at(high.min(COUNT - 1))),
    )
}

fn draw_read(random: &mut Random) -> LogStep {
    match random.below(9) {
        0 | 1 => {
            let (low, high) = draw_bounds(random);
            LogStep::Range(low, high, SNAPSHOT)
        }
        2 | 3 => LogStep::Prefix(key_at(draw_place(random)), SNAPSHOT),
        _ => LogStep::Get(key_at(draw_place(random)), SNAPSHOT),
    }
}

/// A step that makes no batch and reads nothing.
fn draw_change(random: &mut Random) -> LogStep {
    match random.below(24) {
        0..=3 => LogStep::RotateMemtable,
        4..=6 => LogStep::Flush(draw_watermark(random)),
        7..=13 => LogStep::FlushActiveMemtable(draw_watermark(random)),
        14..=15 => {
            let target = if random.one_in(2) { 64 } else { u64::MAX };
            LogStep::MajorCompact(target, draw_watermark(random))
        }
        16..=19 => LogStep::Compact(draw_strategy(random), draw_watermark(random)),
        20 => LogStep::SetMoment(random.below(1_000)),
        21 => {
            let (low, high) = draw_bounds(random);
            LogStep::DropRange(low, high)
        }
        _ => LogStep::Clear,
    }
}

fn draw_step(alloc: Global, random: &mut Random, drawn: &mut Drawn) -> Result<LogStep, AllocError> {
    let only_waiting = !random.one_in(3);
    if random.one_in(2) {
        if let Some(step) = draw_job(random, &mut drawn.slots, only_waiting) {
            return Ok(step);
        }
    }
    match random.below(64) {
        0..=37 => draw_batch(alloc, random, drawn),
        38..=44 => Ok(draw_read(random)),
        _ => Ok(draw_change(random)),
    }
}

fn draw_steps(
    alloc: Global,
    random: &mut Random,
    drawn: &mut Drawn,
) -> Result<Vec<LogStep>, AllocError> {
    let mut steps = Vec::new(alloc);
    drawn.slots = [Waits::Nothing; SLOTS];
    for _ in 0..random.below(MORE).saturating_add(FEWEST) {
        steps.push(draw_step(alloc, random, drawn)?)?;
    }
    Ok(steps)
}

/// The fault of one of so many store calls, or none: then the process ends after the steps.
fn draw_fault(random: &mut Random, calls: u64) -> Option<(u64, Fault)> {
    let call = random.below(calls).saturating_add(1);
    match random.below(8) {
        0 => Some((call, Fault::Once)),
        1..=3 => Some((call, Fault::OnceDone)),
        4 => Some((call, Fault::OnceNothing)),
        5 | 6 => Some((call, Fault::FromHere)),
        _ => None,
    }
}

pub fn draw_script(
    alloc: Global,
    random: &mut Random,
    drawn: &mut Drawn,
) -> Result<Script, AllocError> {
    let steps = draw_steps(alloc, random, drawn)?;
    let count = steps.len() as u64;
    drawn.steps = drawn.steps.saturating_add(count);
    let calls = OPENING.saturating_add(count.saturating_mul(2));
    Ok(Script {
        steps,
        fault: draw_fault(random, calls),
        goes_on: !random.one_in(3),
        crashes: !random.one_in(8),
    })
}
