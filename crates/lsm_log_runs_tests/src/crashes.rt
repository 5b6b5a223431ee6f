// How it is drawn what a crash leaves.
use crate::random::Random;
use lsm_state::{MemStore, Pick};
use std::alloc::{AllocError, Global};

/// So many names are tried at once, since a try copies the store.
const AT_ONCE: usize = 8;

/// What is to be left of a name.
#[derive(Clone, Copy, Debug, PartialEq, Eq)]
pub enum Left {
    /// What is left without a pick.
    Usual,
    /// Nothing.
    Absent,
    /// What was there before its last call.
    Before,
    /// Bytes that nobody wrote.
    Torn,
}

impl Left {
    fn draw(random: &mut Random) -> Left {
        match random.below(8) {
            0..=2 => Left::Before,
            3 => Left::Absent,
            4 => Left::Torn,
            _ => Left::Usual,
        }
    }

    fn pick(self) -> Option<Pick<'static>> {
        match self {
            Left::Usual => None,
            Left::Absent => Some(Pick::Absent),
            Left::Before => Some(Pick::Before),
            Left::Torn => Some(Pick::Bytes(b"torn")),
        }
    }
}

/// Names, each with what is to be left of it.
pub type Picks = Vec<(String, Left)>;

/// How many of them are picked.
pub fn count_picks(picks: &[(String, Left)]) -> u64 {
    let mut count: u64 = 0;
    for (_, left) in picks {
        if *left != Left::Usual {
            count = count.saturating_add(1);
        }
    }
    count
}

/// The store that a crash leaves so, if it can leave that.
pub fn crash_by(
    alloc: Global,
    store: &MemStore,
    picks: &[(String, Left)],
) -> Result<Option<MemStore>, AllocError> {
    let mut named = Vec::new(alloc);
    for (name, left) in picks {
        if let Some(pick) = left.pick() {
            named.push((name.as_str(), pick))?;
        }
    }
    store.crash(&named)
}

fn may_leave(
    alloc: Global,
    store: &MemStore,
    picks: &[(String, Left)],
) -> Result<bool, AllocError> {
    Ok(crash_by(alloc, store, picks)?.is_some())
}

/// Takes back each pick of which a crash can't leave that.
fn keep_possible(
    alloc: Global,
    store: &MemStore,
    picks: &mut [(String, Left)],
) -> Result<(), AllocError> {
    for part in picks.chunks_mut(AT_ONCE) {
        if !may_leave(alloc, store, part)? {
            for one in part.chunks_mut(1) {
                if !may_leave(alloc, store, one)? {
                    for (_, left) in one {
                        *left = Left::Usual;
                    }
                }
            }
        }
    }
    Ok(())
}

/// Draws what is to be left of the name that a number has after these letters.
fn add_name(
    alloc: Global,
    random: &mut Random,
    picks: &mut Picks,
    letters: &str,
    number: u64,
) -> Result<(), AllocError> {
    let name = format!(in alloc; "{letters}{number}")?;
    picks.push((name, Left::draw(random)))?;
    Ok(())
}

/// The same of the names that a step may have given: each uses two sequence numbers at most.
fn add_step(
    alloc: Global,
    random: &mut Random,
    picks: &mut Picks,
    step: u64,
) -> Result<(), AllocError> {
    let number = step.saturating_mul(2);
    add_name(alloc, random, picks, "log/", number)?;
    add_name(alloc, random, picks, "log/", number.saturating_add(1))?;
    add_name(alloc, random, picks, "v", step)?;
    add_name(alloc, random, picks, "tables/", step)
}

fn add_steps(
    alloc: Global,
    random: &mut Random,
    picks: &mut Picks,
    steps: u64,
) -> Result<(), AllocError> {
    picks.push((String::from_str(alloc, "current")?, Left::draw(random)))?;
    for step in 0..=steps {
        add_step(alloc, random, picks, step)?;
    }
    Ok(())
}

/// What is drawn of each name that a tree may have used in so many steps, as far as a crash may leave it.
pub fn draw_picks(
    alloc: Global,
    store: &MemStore,
    random: &mut Random,
    steps: u64,
) -> Result<Picks, AllocError> {
    let mut picks = Vec::new(alloc);
    add_steps(alloc, random, &mut picks, steps)?;
    keep_possible(alloc, store, &mut picks)?;
    Ok(picks)
}
