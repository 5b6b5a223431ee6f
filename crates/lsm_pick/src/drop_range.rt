// Drops what lies within bounds.
ghost use Rattle.std.specs.Prelude.{◌≡◌, IfOk, codes};
ghost use Rattle.lsm_checks.specs.Choices.{AreIdsOf};
ghost use Rattle.lsm_pick.specs.Simple.{MayDropRange, bounded};

use crate::tables::push_if;
use crate::{Choice, ChooseError, CompactionStrategy, OwnedBounds};
use lsm_below::{Ranged, TableId};
use lsm_versions::{CompactionState, Config, HiddenSet, Level, Version, tables_in};
use std::alloc::{AllocError, Global};
use std::collections::HashSet;
use std::marker::Model;

/// Drops the tables whose whole key range lies within bounds. Nothing is done where one of them is hidden.
///
/// # Examples
///
/// ```text
/// let choice = DropRange::new(bounds).choose(alloc, &version, &config, &state)?;
/// ```
#[derive(Drop)]
pub struct DropRange {
    bounds: OwnedBounds,
}

impl Model for DropRange {
    ghost use Rattle.lsm_pick.specs.declared.bounds.OwnedBounds.{OwnedBounds};

    ghost Value = { OwnedBounds };

    ghost view = { λ d. d.bounds };
}

/// The ids of the tables within bounds.
fn ids_within(
    alloc: Global,
    bounds: &OwnedBounds,
    levels: &[Level],
) -> Result<HashSet<TableId>, AllocError>
    ensures { IfOk result (λ ids. AreIdsOf ids.keys (bounded bounds.now levels.now)) }
{
    let mut ids = HashSet::new(alloc);
    for table in tables_in(levels) {
        push_if(&mut ids, table, bounds.contains(table.key_range()))?;
    }
    Ok(ids)
}

impl DropRange {
    /// With these bounds.
    pub fn new(bounds: OwnedBounds) -> DropRange
        ensures { result ≡ bounds }
    {
        DropRange { bounds }
    }

    fn bounds(&self) -> &OwnedBounds
        ensures { result.now ≡ self.now }
    {
        &self.bounds
    }

    fn pick(
        &self,
        alloc: Global,
        version: &Version,
        hidden: &HiddenSet,
    ) -> Result<Choice, AllocError>
        ensures { IfOk result (MayDropRange self.now hidden.now version.now.levels) }
    {
        let ids = ids_within(alloc, self.bounds(), version.levels())?;
        if hidden.is_blocked(&ids) {
            return Ok(Choice::DoNothing);
        }
        Ok(Choice::Drop(ids))
    }
}

impl CompactionStrategy for DropRange {
    ghost use Rattle.std.specs.Prelude.{◌≡◌};
    ghost use Rattle.lsm_pick.specs.Simple.{MayDropRange};
    ghost use Rattle.lsm_pick.specs.declared.choice.ChooseError.TheVariants.{OutOfMemory};

    ghost may_choose = { λ s config hidden version choice. MayDropRange s hidden version.levels choice };

    ghost may_refuse = { λ s config hidden version e. e ≡ OutOfMemory };

    fn get_name(&self) -> &'static str
        ensures { result.now ≡ codes "DropRangeCompaction" }
    {
        "DropRangeCompaction"
    }

    /// Drops the tables within the bounds, also none. The cost is linear in the tables.
    ///
    /// # Errors
    ///
    /// Refused only for want of memory.
    fn choose(
        &self,
        alloc: Global,
        version: &Version,
        _config: &Config,
        state: &CompactionState,
    ) -> Result<Choice, ChooseError> {
        Ok(self.pick(alloc, version, state.hidden_set())?)
    }
}
