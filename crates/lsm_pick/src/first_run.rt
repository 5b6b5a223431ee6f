// The first run of a level.
ghost use Rattle.std.specs.Prelude.{◌≡◌, ◌<◌, filter, length, slice_index_or, [], IfOk};
ghost use Rattle.std.specs.List.{list_any};
ghost use Rattle.lsm_below.specs.Ranges.{overlap, is_within};
ghost use Rattle.lsm_below.specs.Runs.{IsRun};
ghost use Rattle.lsm_versions.specs.Levels.{range};
ghost use Rattle.lsm_pick.specs.Tables.{meets, is_inside};
ghost use Rattle.lsm_pick.specs.Hulls.{HasEnds};

use crate::level_hull::run_meets;
use lsm_below::{KeyRange, Ranged, Run};
use lsm_tables::Table;
use lsm_versions::Level;
use std::alloc::AllocError;
use std::marker::Model;

/// The first run of a level, or no tables where the level is empty.
#[derive(Drop)]
pub(crate) struct FirstRun<'a> {
    run: Option<&'a Run<Table>>,
}

impl<'a> Model for FirstRun<'a> {
    ghost use Rattle.std.specs.Prelude.{List};
    ghost use Rattle.lsm_tables.specs.Tables.{SeenTable};
    ghost use Rattle.lsm_pick.specs.Hulls.{shown_run};

    ghost Value = { List SeenTable };

    ghost view = { λ f. shown_run f.run };
}

impl<'a> FirstRun<'a> {
    /// That of a level.
    pub(crate) fn of(level: &'a Level) -> FirstRun<'a>
        ensures { result ≡ slice_index_or level.now 0 [] }
    {
        FirstRun {
            run: level.first_run(),
        }
    }

    /// The tables.
    pub(crate) fn as_slice(&self) -> &[Table]
        ensures { result.now ≡ self.now }
    {
        match self.run {
            Some(run) => run.as_slice(),
            None => &[],
        }
    }

    /// What it meets: its tables are sorted and disjoint.
    pub(crate) fn facts(&self)
        ensures { IsRun range self.now }
    {
        match self.run {
            Some(run) => run.facts(),
            None => {}
        }
    }

    /// Whether a table shares a key with a range. The cost is logarithmic in the tables.
    fn meets(&self, hull: &KeyRange) -> bool
        ensures { result ≡ list_any (λ t. overlap (range t) hull.now) self.now }
    {
        match self.run {
            Some(run) => run_meets(hull, run),
            None => false,
        }
    }

    /// The tables whose keys are all in a range. The cost is logarithmic in the tables.
    fn contained(&self, hull: &KeyRange) -> &[Table]
        ensures { result.now ≡ filter (λ t. is_within (range t) hull.now) self.now }
    {
        match self.run {
            Some(run) => run.get_contained(hull),
            None => &[],
        }
    }

    /// Whether a table overlaps the range of `tables`, a part of another run.
    #[tactic(auto, using(crate::proofs::Ends::any_meets))]
    pub(crate) fn meets_part(&self, tables: &[Table]) -> Result<bool, AllocError>
        requires run { IsRun range tables.now }
        requires some { 0 < length tables.now }
        ensures { IfOk result (λ b. b ≡ list_any (meets tables.now) self.now) }
    {
        let hull = part_hull(tables)?;
        let found = self.meets(&hull);
        Ok(found)
    }

    /// The tables within the range of `tables`, a part of another run.
    #[tactic(auto, using(crate::proofs::Ends::filter_inside))]
    pub(crate) fn within_part(&self, tables: &[Table]) -> Result<&[Table], AllocError>
        requires run { IsRun range tables.now }
        requires some { 0 < length tables.now }
        ensures { IfOk result (λ part. part.now ≡ filter (is_inside tables.now) self.now) }
    {
        let hull = part_hull(tables)?;
        let part = self.contained(&hull);
        Ok(part)
    }
}

/// From the least key of a part of a run to the greatest.
fn part_hull(tables: &[Table]) -> Result<KeyRange, AllocError>
    requires run { IsRun range tables.now }
    requires some { 0 < length tables.now }
    ensures { IfOk result (HasEnds tables.now) }
{
    let first = &tables[0];
    let last = &tables[tables.len() - 1];
    let hull = first.key_range().joined(last.key_range())?;
    Ok(hull)
}
