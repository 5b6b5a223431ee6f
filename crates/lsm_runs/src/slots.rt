// Jobs that wait in slots for their next call.
ghost use Rattle.std.specs.Prelude.{IsSome, OnOk};
ghost use Rattle.std.specs.Ordering.{nat_cmp};
ghost use Rattle.std.specs.BTreeMap.{get};
ghost use Rattle.lsm_runs.specs.Slots.{SameJobs};

use lsm_compaction::{KeptCompacted, KeptCompaction};
use lsm_flush::{KeptFlush, KeptMerged, KeptWritten};
use std::alloc::AllocError;
use std::collections::BTreeMap;

/// A number of the caller's choice, under which a job waits for its next call.
pub type Slot = u64;

/// A job, by what was done of it.
#[derive(Drop)]
pub enum Job {
    /// A flush that was begun.
    Begun(KeptFlush),
    /// One that was merged.
    Merged(KeptMerged),
    /// One whose tables are written.
    Written(KeptWritten),
    /// A merge that was begun.
    Compaction(KeptCompaction),
    /// One that was done.
    Compacted(KeptCompacted),
}

/// Jobs by slot. None stands in a slot that is free again.
pub type Slots = BTreeMap<Slot, Option<Job>>;

/// Makes room for a slot, in which the same waits.
pub fn make_room(slots: &mut Slots, slot: Slot) -> Result<(), AllocError>
    ensures same { SameJobs slots.old slots.new }
    ensures there { OnOk result (IsSome (get nat_cmp slots.new slot)) }
{
    if slots.contains_key(&slot) {
        return Ok(());
    }
    let _ = slots.insert(slot, None)?;
    Ok(())
}
