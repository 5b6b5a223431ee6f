// The checks of a choice of tables.
ghost use Rattle.std.specs.Prelude.{◌≡◌, ◌==◌, ◌&&◌, nat_le, ◌<◌, None, Some, true, false, not, IfOk, IsTrue, ◌↔◌};
ghost use Rattle.std.specs.List.{list_any};
ghost use Rattle.lsm_model.specs.Views.{IsAllowed};
ghost use Rattle.lsm_model.specs.Steps.{among};
ghost use Rattle.lsm_versions.specs.Levels.{placed_of, AreRuns};
ghost use Rattle.lsm_checks.specs.Choices.{any_bad, any_clash, any_gap, is_there, is_drop, is_merge, is_move, first_of, first_reason_of, IsMovable, AreThere, AllStand, AreOneById, EndsAs};
ghost use Rattle.lsm_checks.specs.declared.parted_run.Fault.TheVariants.{OutOfOrder, StandsBelow};
ghost use Rattle.lsm_checks.specs.declared.choice.Why.TheVariants.{Hidden, Missing, NoSuchLevel, Overlap, Gap, Order, Eviction, Stale};

use crate::gaps::levels_have_gap;
use crate::lookup::{all_stand, ids_stand};
use crate::parted_run::{Fault, any_wrong, part_levels};
use lsm_below::{TableId, optimize_runs};
use lsm_tables::Table;
use lsm_versions::{
    DEFAULT_LEVEL_COUNT, HiddenSet, Level, Version, chosen_runs, has_id, ids_of_levels,
};
use std::alloc::{AllocError, Global};
use std::collections::HashSet;

/// What is to be done with a choice of tables.
///
/// ```text
/// let why = first_reason(alloc, Kind::Merge, &ids, 1, &hidden, &version)?; // None: it may be done
/// ```
#[derive(Clone, Copy, Debug)]
pub enum Kind {
    Merge,
    Move,
    Drop,
}

/// Why a choice is declined.
#[derive(Clone, Copy, Debug, PartialEq, Eq)]
pub enum Why {
    /// No open job of the tree is this one.
    UnknownJob,
    /// A table is in use.
    Hidden,
    /// A table isn't there.
    Missing,
    /// There is no level of that index.
    NoSuchLevel,
    /// Two of the tables share a key.
    Overlap,
    /// In a run a table between two of them isn't chosen.
    Gap,
    /// Of a key newer entries would come below older ones.
    Order,
    /// A tombstone would go while a table below has its key.
    Eviction,
    /// A table went since, or has other entries.
    Stale,
}

/// Whether two chosen tables overlap.
fn chosen_overlap(
    alloc: Global,
    ids: &HashSet<TableId>,
    levels: &[Level],
) -> Result<bool, AllocError>
    ensures { IfOk result (λ b. b ≡ any_clash ids.now.keys levels.now) }
{
    let runs = optimize_runs(alloc, chosen_runs(alloc, ids, levels)?)?;
    Ok(runs.len() > 1)
}

fn any_absent(ids: &HashSet<TableId>, there: &HashSet<TableId>) -> bool
    ensures { result ≡ list_any (λ id. not (among there.now.keys id)) ids.now.keys }
{
    ids.iter().any(|id| !has_id(there, *id))
}

/// Whether a table of these ids isn't there. The cost is linear in the tables and ids. Refused only for want of memory.
pub fn any_missing(
    alloc: Global,
    ids: &HashSet<TableId>,
    levels: &[Level],
) -> Result<bool, AllocError>
    ensures value { IfOk result (λ b. b ≡ list_any (λ id. not (is_there levels.now id)) ids.now.keys) }
    ensures there { IfOk result (λ b. (b ≡ false) ↔ AreThere levels.now ids.now.keys) }
{
    let there = ids_of_levels(alloc, levels)?;
    let missing = any_absent(ids, &there);
    Ok(missing)
}

fn kind_is_move(kind: Kind) -> bool
    ensures { result ≡ is_move kind }
{
    matches!(kind, Kind::Move)
}

fn kind_is_merge(kind: Kind) -> bool
    ensures { result ≡ is_merge kind }
{
    matches!(kind, Kind::Merge)
}

fn kind_is_drop(kind: Kind) -> bool
    ensures { result ≡ is_drop kind }
{
    matches!(kind, Kind::Drop)
}

/// The first reason that holds.
fn first_that_holds(reasons: &[(bool, Why)]) -> Option<Why>
    ensures { result ≡ first_of reasons.now }
{
    for reason in reasons {
        if reason.0 {
            return Some(reason.1);
        }
    }
    None
}

fn has_no_level(kind: Kind, to: usize) -> bool
    ensures { result ≡ (not (is_drop kind) && nat_le 7 to) }
{
    !kind_is_drop(kind) && to >= 7
}

fn overlap_in_move(
    alloc: Global,
    kind: Kind,
    ids: &HashSet<TableId>,
    levels: &[Level],
) -> Result<bool, AllocError>
    ensures { IfOk result (λ b. b ≡ (is_move kind && any_clash ids.now.keys levels.now)) }
{
    if kind_is_move(kind) {
        chosen_overlap(alloc, ids, levels)
    } else {
        Ok(false)
    }
}

fn gap_in_merge(kind: Kind, ids: &HashSet<TableId>, levels: &[Level]) -> bool
    ensures { result ≡ (is_merge kind && any_gap ids.now.keys levels.now) }
{
    kind_is_merge(kind) && levels_have_gap(ids, levels)
}

/// What is wrong between chosen tables and the others: nothing, where they are dropped.
#[derive(Drop)]
struct Faults {
    order: bool,
    eviction: bool,
}

fn find_faults(
    alloc: Global,
    kind: Kind,
    ids: &HashSet<TableId>,
    to: usize,
    levels: &[Level],
) -> Result<Faults, AllocError>
    requires { AreRuns levels.now }
    ensures order { IfOk result (λ f. f.order ≡ (not (is_drop kind) && any_bad OutOfOrder to ids.now.keys levels.now)) }
    ensures eviction { IfOk result (λ f. f.eviction ≡ (not (is_drop kind) && any_bad StandsBelow to ids.now.keys levels.now)) }
{
    if kind_is_drop(kind) {
        return Ok(Faults {
            order: false,
            eviction: false,
        });
    }
    let runs = part_levels(alloc, ids, levels)?;
    let order = any_wrong(Fault::OutOfOrder, to, &runs);
    let eviction = any_wrong(Fault::StandsBelow, to, &runs);
    Ok(Faults { order, eviction })
}

/// The first reason to decline a choice of tables.
///
/// The cost is linear in the tables and ids, and for each chosen table a binary search in the unchosen
/// tables of each run that may be wrong to it.
///
/// # Errors
///
/// Refused only for want of memory.
pub fn first_reason(
    alloc: Global,
    kind: Kind,
    ids: &HashSet<TableId>,
    to: usize,
    hidden: &HiddenSet,
    version: &Version,
) -> Result<Option<Why>, AllocError>
    ensures value { IfOk result (λ r. r ≡ first_reason_of kind ids.now.keys to hidden.now version.now.levels) }
    ensures allowed { IfOk result (λ r. r ≡ None → is_drop kind ≡ false → IsAllowed to (among ids.now.keys) (to == 6) (placed_of version.now.levels)) }
    ensures movable { IfOk result (λ r. r ≡ None → is_move kind ≡ true → IsMovable to ids.now.keys version.now.levels) }
    ensures level { IfOk result (λ r. r ≡ None → is_drop kind ≡ false → to < 7) }
    ensures there { IfOk result (λ r. r ≡ None → AreThere version.now.levels ids.now.keys) }
{
    version.facts();
    let levels = version.levels();
    let faults = find_faults(alloc, kind, ids, to, levels)?;
    let first = first_that_holds(&[
        (hidden.should_decline_compaction(ids), Why::Hidden),
        (any_missing(alloc, ids, levels)?, Why::Missing),
        (has_no_level(kind, to), Why::NoSuchLevel),
        (overlap_in_move(alloc, kind, ids, levels)?, Why::Overlap),
        (gap_in_merge(kind, ids, levels), Why::Gap),
        (faults.order, Why::Order),
        (faults.eviction, Why::Eviction),
    ]);
    Ok(first)
}

/// The first reason at the end of a merge, where it was seen whether the inputs are still there.
fn reason_at_end(
    alloc: Global,
    stands: bool,
    inputs: &[Table],
    ids: &HashSet<TableId>,
    to: usize,
    version: &Version,
) -> Result<Option<Why>, AllocError>
    requires { IsTrue stands ↔ AllStand version.now.levels inputs.now }
    ensures { IfOk result (EndsAs inputs.now ids.now.keys to version.now.levels) }
{
    version.facts();
    let faults = find_faults(alloc, Kind::Merge, ids, to, version.levels())?;
    let no_such_level = to >= DEFAULT_LEVEL_COUNT as usize;
    let first = first_that_holds(&[
        (!stands, Why::Stale),
        (no_such_level, Why::NoSuchLevel),
        (faults.order, Why::Order),
        (faults.eviction, Why::Eviction),
    ]);
    Ok(first)
}

/// The first reason to decline, at its end, a merge of these inputs into a level of the version that
/// is the latest then.
///
/// The cost is linear in the tables and in the entries of the inputs, which are compared with those that
/// stand there; beside that as of [`first_reason`]. Where the caller knows that an id names one table,
/// [`last_reason_by_ids`] compares no entries.
///
/// # Errors
///
/// Refused only for want of memory.
pub fn last_reason(
    alloc: Global,
    inputs: &[Table],
    ids: &HashSet<TableId>,
    to: usize,
    version: &Version,
) -> Result<Option<Why>, AllocError>
    ensures { IfOk result (EndsAs inputs.now ids.now.keys to version.now.levels) }
{
    version.facts();
    let stands = all_stand(alloc, inputs, version.levels())?;
    reason_at_end(alloc, stands, inputs, ids, to, version)
}

/// What [`last_reason`] answers, where an id names one table among the inputs and those of the version, as
/// it does in one tree: ids are compared, and no entries.
///
/// # Errors
///
/// Refused only for want of memory.
pub fn last_reason_by_ids(
    alloc: Global,
    inputs: &[Table],
    ids: &HashSet<TableId>,
    to: usize,
    version: &Version,
) -> Result<Option<Why>, AllocError>
    requires { AreOneById inputs.now version.now.levels }
    ensures { IfOk result (EndsAs inputs.now ids.now.keys to version.now.levels) }
{
    version.facts();
    let stands = ids_stand(alloc, inputs, version.levels())?;
    reason_at_end(alloc, stands, inputs, ids, to, version)
}
