// How full levels are.
ghost use Rattle.std.specs.Prelude.{◌≡◌, ◌<◌, ◌≤◌, ◌↔◌, length, IsTrue};
ghost use Rattle.lsm_below.specs.Optimizes.{tables_of};
ghost use Rattle.lsm_pick.specs.Leveled.{IsBase, first_score, full_score, score, IsAtMost, IsBest};

use crate::Leveled;
use crate::leveled::base::Base;
use crate::leveled::levels::unhidden_bytes;
use lsm_versions::{HiddenSet, Level};

/// How full a level is, as a fraction.
#[derive(Drop, Clone, Copy, Debug)]
pub struct Score {
    pub top: u64,
    pub bottom: u64,
}

/// That of a level of these bytes.
fn full_score(bytes: u64, target: u64, next: &Level) -> Score
    requires { 0 < target }
    ensures score { result ≡ full_score bytes target next.now }
    ensures some { 0 < result.bottom }
{
    if bytes <= target {
        return Score { top: 0, bottom: 1 };
    }
    if next.is_empty() {
        return Score {
            top: 9999,
            bottom: 100,
        };
    }
    Score {
        top: bytes,
        bottom: target,
    }
}

fn is_at_most(a: Score, b: Score) -> bool
    ensures { IsTrue result ↔ IsAtMost a b }
{
    u128::from(a.top) * u128::from(b.bottom) <= u128::from(b.top) * u128::from(a.bottom)
}

impl Leveled {
    fn first_score(&self, level: &Level) -> Score
        ensures score { result ≡ first_score self.now (tables_of level.now) }
        ensures some { 0 < result.bottom }
    {
        let count = level.table_count() as u64;
        if u64::from(self.threshold) <= count {
            return Score {
                top: count,
                bottom: u64::from(self.threshold),
            };
        }
        Score { top: 0, bottom: 1 }
    }

    /// The score of a level.
    pub(crate) fn score(&self, hidden: &HiddenSet, levels: &[Level], base: Base, i: usize) -> Score
        requires seven { length levels.now ≡ 7 }
        requires base { IsBase self.now hidden.now levels.now base }
        ensures score { result ≡ score self.now hidden.now levels.now base i }
        ensures some { 0 < result.bottom }
        ensures full { 0 < result.top → 0 < i → (base.first ≤ i) × (i < 6) }
    {
        if i == 0 {
            return self.first_score(&levels[0]);
        }
        if base.first <= i && i < 6 {
            let bytes = unhidden_bytes(hidden, levels[i].as_slice());
            let target = self.target_after(i - base.shift - 1);
            return full_score(bytes, target, &levels[i + 1]);
        }
        Score { top: 0, bottom: 1 }
    }

    /// The level with the greatest score, the highest among equal ones.
    pub(crate) fn best(&self, hidden: &HiddenSet, levels: &[Level], base: Base) -> usize
        requires seven { length levels.now ≡ 7 }
        requires base { IsBase self.now hidden.now levels.now base }
        ensures { IsBest (score self.now hidden.now levels.now base) 7 result }
    {
        self.facts();
        let mut best = 0;
        for i in 1..7 {
            let score = self.score(hidden, levels, base, i);
            let so_far = self.score(hidden, levels, base, best);
            if is_at_most(so_far, score) {
                best = i;
            }
        }
        best
    }
}
