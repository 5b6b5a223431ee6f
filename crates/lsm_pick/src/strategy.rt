// Who chooses what a compaction takes.
ghost use Rattle.std.specs.Prelude.{◌≡◌, [], IfOk, IfErr};

use crate::{Choice, ChooseError};
use lsm_below::KvPair;
use lsm_versions::{CompactionState, Config, Version};
use std::alloc::{AllocError, Global};

/// Chooses which tables a compaction takes.
///
/// Each strategy states what it may answer: `may_choose` and `may_refuse` relate its choice and its refusal to
/// the configuration, the ids of the hidden tables and the version. They may allow everything.
///
/// # Examples
///
/// ```text
/// let choice = Leveled::new(alloc)?.choose(alloc, &version, &config, &state)?;
/// ```
pub trait CompactionStrategy: Drop {
    ghost use Rattle.std.specs.Prelude.{ℕ, List};
    ghost use Rattle.lsm_versions.specs.Levels.{SeenVersion};
    ghost use Rattle.lsm_versions.specs.declared.config.Config.{Config};
    ghost use Rattle.lsm_pick.specs.declared.choice.Choice.{Choice};
    ghost use Rattle.lsm_pick.specs.declared.choice.ChooseError.{ChooseError};

    /// What it may answer.
    ghost may_choose: { Self → Config → List ℕ → SeenVersion → Choice → Type 0 };

    /// Why it may have no choice.
    ghost may_refuse: { Self → Config → List ℕ → SeenVersion → ChooseError → Type 0 };

    /// Whether it may tell a configuration: by default it has none to tell.
    ghost is_configured: { Self → Type 0 } = { λ s. ⊥ };

    /// Its name.
    fn get_name(&self) -> &'static str;

    /// What it was given, as names and values. None by default: a strategy that tells some says so (`is_configured`). Refused
    /// only for want of memory.
    fn get_config(&self, alloc: Global) -> Result<Vec<KvPair>, AllocError>
        ensures none { (is_configured self.now → ⊥) → IfOk result (λ v. v.items ≡ []) }
    {
        Ok(Vec::new(alloc))
    }

    /// What is to be done with the tables of a version, some of which may be hidden.
    ///
    /// # Errors
    ///
    /// As the strategy says, and `OutOfMemory`.
    fn choose(
        &self,
        alloc: Global,
        version: &Version,
        config: &Config,
        state: &CompactionState,
    ) -> Result<Choice, ChooseError>
        ensures ok { IfOk result (λ choice. may_choose self.now config.now state.now version.now choice) }
        ensures err { IfErr result (λ e. may_refuse self.now config.now state.now version.now e) };
}
