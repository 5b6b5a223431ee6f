// Levels with targets.
ghost use Rattle.std.specs.Prelude.{◌≡◌, ◌*◌, ◌/◌, ◌<◌, ◌∷◌, [], min, max, IfOk, codes};
ghost use Rattle.lsm_pick.specs.Config.{leveled_config};
ghost use Rattle.lsm_pick.specs.LeveledRule.{AreWhole, IsSound};
ghost use Rattle.lsm_pick.specs.Leveled.{cap, ratio_at, target_after};

mod base;
mod cheapest;
mod levels;
mod picks;
mod scores;
mod windows;

use crate::config::leveled_config;
use crate::{Choice, ChooseError, CompactionStrategy};
use lsm_below::KvPair;
use lsm_versions::{CompactionState, Config, Version};
use std::alloc::{AllocError, Global};
use std::marker::Model;

/// The strategy's name.
pub const NAME: &str = "LeveledCompaction";

/// Each level holds a multiple of the one before; a level that holds more goes further down.
///
/// The first level goes into the first full one once it has as many tables as the threshold says.
///
/// # Examples
///
/// ```text
/// let leveled = Leveled::new(alloc)?.with_l0_threshold(2).with_table_target_size(1 << 20);
/// let choice = leveled.choose(alloc, &version, &config, &state)?;
/// ```
#[derive(Drop)]
pub struct Leveled {
    threshold: u8,
    target: u64,
    ratios: Vec<(u32, u32)>,
}

impl Model for Leveled {
    ghost use Rattle.std.specs.Prelude.{◌<◌};
    ghost use Rattle.lsm_pick.specs.LeveledRule.{LeveledRule, AreWhole};

    ghost Value = { LeveledRule };

    ghost view = { λ l. record { threshold = l.threshold; target = l.target; ratios = l.ratios.items } };

    ghost invariant = { λ l. (0 < l.threshold) × (0 < l.target) × AreWhole l.ratios.items };
}

fn next_target(target: u64, ratio: (u32, u32)) -> u64
    requires { 0 < ratio.1 }
    ensures target { result ≡ min (max (target * ratio.0 / ratio.1) 1) cap }
    ensures some { 0 < result }
{
    let product = u128::from(target) * u128::from(ratio.0);
    let grown = (product / u128::from(ratio.1)).max(1);
    grown.min(u128::from(u64::MAX)) as u64
}

impl Leveled {
    /// The default: four tables in the first level, tables of 64 MiB, each level ten times the one before.
    /// Refused only for want of memory.
    pub fn new(alloc: Global) -> Result<Leveled, AllocError>
        ensures { IfOk result (λ l. l ≡ record { threshold = 4; target = 67108864; ratios = (10, 1) ∷ [] }) }
    {
        let mut ratios = Vec::new(alloc);
        ratios.push((10, 1))?;
        Ok(Leveled {
            threshold: 4,
            target: 64 * 1024 * 1024,
            ratios,
        })
    }

    /// With these ratios of each level's target to the one before, as numerators and denominators from 1 on;
    /// the last one from there on, 10 where there are none. At most 255.
    pub fn with_level_ratio_policy(self, ratios: Vec<(u32, u32)>) -> Leveled
        requires { AreWhole ratios.items }
        ensures { result ≡ record { threshold = self.threshold; target = self.target; ratios = ratios.items } }
    {
        Leveled {
            threshold: self.threshold,
            target: self.target,
            ratios,
        }
    }

    /// With this many tables, from 1 on, at which the first level is full.
    pub fn with_l0_threshold(self, threshold: u8) -> Leveled
        requires { 0 < threshold }
        ensures { result ≡ record { threshold = threshold; target = self.target; ratios = self.ratios } }
    {
        Leveled { threshold, ..self }
    }

    /// With tables of this many bytes of entries, from 1 on.
    pub fn with_table_target_size(self, target: u64) -> Leveled
        requires { 0 < target }
        ensures { result ≡ record { threshold = self.threshold; target = target; ratios = self.ratios } }
    {
        Leveled { target, ..self }
    }

    /// A copy. Refused only for want of memory.
    pub fn copy(&self, alloc: Global) -> Result<Leveled, AllocError>
        ensures { IfOk result (λ l. l ≡ self.now) }
    {
        let mut ratios = Vec::new(alloc);
        ratios.extend_from_slice(&self.ratios)?;
        Ok(Leveled {
            threshold: self.threshold,
            target: self.target,
            ratios,
        })
    }

    /// What every one meets: no part of it is 0.
    fn facts(&self)
        ensures { IsSound self.now }
    {
        let _target = &self.target;
    }

    fn target(&self) -> u64
        ensures { result ≡ self.now.target }
    {
        self.target
    }

    fn ratio_at(&self, place: usize) -> (u32, u32)
        ensures ratio { result ≡ ratio_at self.now.ratios place }
        ensures whole { 0 < result.1 }
    {
        if self.ratios.is_empty() {
            return (10, 1);
        }
        let last = self.ratios.len() - 1;
        self.ratios[place.min(last)]
    }

    fn first_target(&self) -> u64
        ensures target { result ≡ min (self.now.target * self.now.threshold) cap }
        ensures some { 0 < result }
    {
        let product = u128::from(self.target) * u128::from(self.threshold);
        product.min(u128::from(u64::MAX)) as u64
    }

    /// The bytes that a level may hold which stands some levels after the first full one; a number past
    /// 2^64 - 1 stands there.
    #[tactic(auto, using(crate::proofs::TargetSteps::target_none, crate::proofs::TargetSteps::target_more))]
    pub fn target_after(&self, steps: usize) -> u64
        ensures target { result ≡ target_after self.now steps }
        ensures some { 0 < result }
    {
        let mut target = self.first_target();
        for place in 0..steps {
            target = next_target(target, self.ratio_at(place));
        }
        target
    }
}

impl CompactionStrategy for Leveled {
    ghost use Rattle.std.specs.Prelude.{◌≡◌};
    ghost use Rattle.lsm_pick.specs.Leveled.{MayLeveled};
    ghost use Rattle.lsm_pick.specs.declared.choice.ChooseError.TheVariants.{OutOfMemory};

    ghost may_choose = { λ s config hidden version choice. MayLeveled s hidden version.levels choice };

    ghost may_refuse = { λ s config hidden version e. e ≡ OutOfMemory };

    ghost is_configured = { λ s. Unit {0} };

    fn get_name(&self) -> &'static str
        ensures { result.now ≡ codes "LeveledCompaction" }
    {
        NAME
    }

    fn get_config(&self, alloc: Global) -> Result<Vec<KvPair>, AllocError>
        ensures { IfOk result (λ v. v.items ≡ leveled_config self.now) }
    {
        leveled_config(alloc, self.threshold, self.target, &self.ratios)
    }

    /// What the rule of levels says: one of the moves and merges of [`Leveled`], or nothing.
    ///
    /// No table is copied. The cost is linear in the tables, and for a level further down a binary search for
    /// each table of its first run, and for each window of the next one of at most 50 times the target.
    ///
    /// # Errors
    ///
    /// Refused only for want of memory.
    fn choose(
        &self,
        alloc: Global,
        version: &Version,
        _config: &Config,
        state: &CompactionState,
    ) -> Result<Choice, ChooseError> {
        Ok(self.pick(alloc, version, state.hidden_set())?)
    }
}
