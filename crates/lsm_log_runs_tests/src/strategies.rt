// The strategies of the scripts, by their indexes.
use crate::random::Random;
use lsm_state::{CompactionStrategy, Fifo, Leveled, Major};
use std::alloc::{AllocError, Global};

/// Merges and moves by levels.
const LEVELED: usize = 0;

/// Merges all tables into the last level.
pub const MAJOR: usize = 1;

/// Drops the oldest tables of the first level.
pub const FIFO: usize = 2;

/// No strategy has this index.
pub const NONE: usize = 3;

/// The bytes of tables in the first level from which on it drops some.
const LIMIT: u64 = 256;

/// How many runs the first level may have before they are merged.
const RUNS: u8 = 2;

pub fn draw_strategy(random: &mut Random) -> usize {
    match random.below(32) {
        0 => NONE,
        1 => FIFO,
        2..=9 => MAJOR,
        _ => LEVELED,
    }
}

/// Puts the strategies of the scripts into a list that has none.
pub fn add_strategies(
    alloc: Global,
    strategies: &mut Vec<Box<dyn CompactionStrategy>>,
) -> Result<(), AllocError> {
    let leveled = Leveled::new(alloc)?.with_l0_threshold(RUNS);
    strategies.push(Box::new(alloc, leveled)?)?;
    strategies.push(Box::new(alloc, Major::default())?)?;
    strategies.push(Box::new(alloc, Fifo::new(LIMIT, None, 0))?)?;
    Ok(())
}
