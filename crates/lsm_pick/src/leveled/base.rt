// Where the levels with tables begin, and where the first one goes.
ghost use Rattle.std.specs.Prelude.{◌≡◌, ◌<◌, ◌≤◌, ◌↔◌, length, IfOk, IsTrue};
ghost use Rattle.lsm_below.specs.Optimizes.{tables_of};
ghost use Rattle.lsm_pick.specs.Leveled.{unhidden_bytes, target_after, IsOverfull, IsBase, goes_into};

use crate::Leveled;
use crate::level_hull::is_clear;
use crate::leveled::levels::{first_full, is_one_run, unhidden_bytes};
use crate::tables::is_level_busy;
use lsm_versions::{HiddenSet, Level};
use std::alloc::{AllocError, Global};

/// The first full level, the level that the first one goes into, the shift of the targets.
#[derive(Drop, Clone, Copy, Debug)]
pub struct Base {
    pub first: usize,
    pub into: usize,
    pub shift: usize,
}

impl Leveled {
    /// Whether a level has no more than its target, where it stands some levels after the first full one.
    fn fits(&self, hidden: &HiddenSet, level: &Level, steps: usize) -> bool
        ensures { IsTrue result ↔ (unhidden_bytes hidden.now (tables_of level.now) ≤ target_after self.now steps) }
    {
        unhidden_bytes(hidden, level.as_slice()) <= self.target_after(steps)
    }

    fn is_overfull(&self, hidden: &HiddenSet, levels: &[Level], first: usize) -> bool
        requires seven { length levels.now ≡ 7 }
        requires first { first < 7 }
        ensures { IsTrue result ↔ IsOverfull self.now hidden.now levels.now first }
    {
        if first <= 1 || levels[first].is_empty() {
            return false;
        }
        for i in first..7 {
            let level = &levels[i];
            if !level.is_empty() && self.fits(hidden, level, i - first) {
                return false;
            }
        }
        true
    }

    /// What the scores and the first level go by.
    pub(crate) fn base(&self, hidden: &HiddenSet, levels: &[Level]) -> Base
        requires { length levels.now ≡ 7 }
        ensures { IsBase self.now hidden.now levels.now result }
    {
        let first = first_full(levels);
        if self.is_overfull(hidden, levels, first) {
            return Base {
                first,
                into: first - 1,
                shift: first - 2,
            };
        }
        Base {
            first,
            into: first,
            shift: first - 1,
        }
    }
}

/// Whether the first level goes to another as it is.
pub(crate) fn goes_into(
    alloc: Global,
    hidden: &HiddenSet,
    levels: &[Level],
    into: usize,
) -> Result<bool, AllocError>
    requires seven { length levels.now ≡ 7 }
    requires into { into < 7 }
    ensures { IfOk result (λ b. b ≡ goes_into hidden.now levels.now into) }
{
    if !is_one_run(&levels[0])
        || !is_one_run(&levels[into])
        || is_level_busy(hidden, &levels[0])
        || is_level_busy(hidden, &levels[into])
    {
        return Ok(false);
    }
    is_clear(alloc, &levels[0], &levels[into])
}
