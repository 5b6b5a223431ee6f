// Merges everything.
ghost use Rattle.std.specs.Prelude.{◌≡◌, IfOk, codes};
ghost use Rattle.lsm_pick.specs.Simple.{MayMajor};

use crate::{Choice, ChooseError, CompactionStrategy};
use lsm_checks::Input;
use lsm_versions::{CompactionState, Config, HiddenSet, Version, ids_of_levels};
use std::alloc::{AllocError, Global};

/// Merges all tables into the last level. Nothing is done where one of them is hidden.
///
/// # Examples
///
/// ```text
/// let choice = Major::default().choose(alloc, &version, &config, &state)?;
/// ```
#[derive(Drop, Clone, Copy, Debug)]
pub struct Major {
    /// The bytes of entries from which on a new table is begun.
    pub target_size: u64,
}

impl Default for Major {
    /// Of one table, whatever its bytes.
    fn default() -> Major
        ensures { result.target_size ≡ 18446744073709551615 }
    {
        Major {
            target_size: u64::MAX,
        }
    }
}

impl Major {
    /// With this target.
    pub fn new(target_size: u64) -> Major
        ensures { result.target_size ≡ target_size }
    {
        Major { target_size }
    }

    fn pick(
        &self,
        alloc: Global,
        version: &Version,
        hidden: &HiddenSet,
    ) -> Result<Choice, AllocError>
        ensures { IfOk result (MayMajor self.now.target_size hidden.now version.now.levels) }
    {
        let table_ids = ids_of_levels(alloc, version.levels())?;
        if hidden.is_blocked(&table_ids) {
            return Ok(Choice::DoNothing);
        }
        Ok(Choice::Merge(Input {
            table_ids,
            dest_level: 6,
            canonical_level: 6,
            target_size: self.target_size,
        }))
    }
}

impl CompactionStrategy for Major {
    ghost use Rattle.std.specs.Prelude.{◌≡◌};
    ghost use Rattle.lsm_pick.specs.Simple.{MayMajor};
    ghost use Rattle.lsm_pick.specs.declared.choice.ChooseError.TheVariants.{OutOfMemory};

    ghost may_choose = { λ s config hidden version choice. MayMajor s.target_size hidden version.levels choice };

    ghost may_refuse = { λ s config hidden version e. e ≡ OutOfMemory };

    fn get_name(&self) -> &'static str
        ensures { result.now ≡ codes "MajorCompaction" }
    {
        "MajorCompaction"
    }

    /// Merges all tables, also none. The cost is linear in the tables.
    ///
    /// # Errors
    ///
    /// Refused only for want of memory.
    fn choose(
        &self,
        alloc: Global,
        version: &Version,
        _config: &Config,
        state: &CompactionState,
    ) -> Result<Choice, ChooseError> {
        Ok(self.pick(alloc, version, state.hidden_set())?)
    }
}
