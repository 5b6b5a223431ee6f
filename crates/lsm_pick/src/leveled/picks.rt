// What becomes of the levels, case by case.
ghost use Rattle.std.specs.Prelude.{◌≡◌, ℕ, ◌<◌, ◌≤◌, List, length, MatchBool, IfOk};
ghost use Rattle.lsm_below.specs.Optimizes.{tables_of};
ghost use Rattle.lsm_tables.specs.Tables.{SeenTable};
ghost use Rattle.lsm_checks.specs.Choices.{AreIdsOf};
ghost use Rattle.lsm_pick.specs.Picks.{IsInput, IsMove, IsMerge};
ghost use Rattle.lsm_pick.specs.Leveled.{IsBase, MayTakeFirst, MayFromFirst, MayFromLevel, MayFromRuns, MayTakeCheapest, MayByScore, MayAfterLast, MayLeveled};

use crate::first_run::FirstRun;
use crate::level_hull::{ids_with_met, is_clear};
use crate::leveled::base::{Base, goes_into};
use crate::leveled::levels::{goes_last, is_one_run};
use crate::leveled::windows::longest_free;
use crate::tables::{ids_of, is_level_busy, push_ids};
use crate::{Choice, Leveled};
use lsm_below::TableId;
use lsm_checks::Input;
use lsm_versions::{HiddenSet, Level, Version};
use std::alloc::{AllocError, Global};
use std::collections::HashSet;

fn choice_of(is_move: bool, input: Input) -> Choice
    ensures { (ts : List SeenTable) (to from size : ℕ) → IsInput input ts to from size → MatchBool is_move (IsMove result ts to from size) (IsMerge result ts to from size) }
{
    if is_move {
        Choice::Move(input)
    } else {
        Choice::Merge(input)
    }
}

impl Leveled {
    /// The input that takes these tables.
    fn input(&self, table_ids: HashSet<TableId>, to: usize, canonical: usize) -> Input
        requires to { to < 7 }
        requires canonical { canonical < 8 }
        ensures { (ts : List SeenTable) → AreIdsOf table_ids.keys ts → IsInput result ts to canonical self.now.target }
    {
        Input {
            table_ids,
            dest_level: to as u8,
            canonical_level: canonical as u8,
            target_size: self.target(),
        }
    }

    /// The first level, as it is.
    fn move_first(&self, alloc: Global, first: &Level, to: usize) -> Result<Choice, AllocError>
        requires { to < 7 }
        ensures { IfOk result (λ choice. IsMove choice (tables_of first.now) to 1 self.now.target) }
    {
        let ids = first.list_ids(alloc)?;
        Ok(Choice::Move(self.input(ids, to, 1)))
    }

    /// The first level with what it overlaps of another.
    fn take_first(
        &self,
        alloc: Global,
        first: &Level,
        low: &Level,
        into: usize,
    ) -> Result<Choice, AllocError>
        requires { into < 7 }
        ensures { IfOk result (MayTakeFirst self.now first.now low.now into) }
    {
        let clear = is_clear(alloc, first, low)?;
        let ids = ids_with_met(alloc, first, low)?;
        let input = self.input(ids, into, 1);
        Ok(choice_of(clear && is_one_run(first), input))
    }

    /// What becomes of the first level.
    fn from_first(
        &self,
        alloc: Global,
        hidden: &HiddenSet,
        levels: &[Level],
        into: usize,
    ) -> Result<Choice, AllocError>
        requires seven { length levels.now ≡ 7 }
        requires into { into < 7 }
        ensures { IfOk result (MayFromFirst self.now hidden.now levels.now into) }
    {
        if is_level_busy(hidden, &levels[0]) || is_level_busy(hidden, &levels[into]) {
            return Ok(Choice::DoNothing);
        }
        self.take_first(alloc, &levels[0], &levels[into], into)
    }

    /// What becomes of a level further down.
    fn from_level(
        &self,
        alloc: Global,
        hidden: &HiddenSet,
        levels: &[Level],
        base: Base,
        i: usize,
    ) -> Result<Choice, AllocError>
        requires seven { length levels.now ≡ 7 }
        requires level { (0 < i) × (i < 6) }
        requires shift { base.shift ≤ i }
        ensures { IfOk result (MayFromLevel self.now hidden.now levels.now base i) }
    {
        let level = &levels[i];
        let run = FirstRun::of(level);
        let next = FirstRun::of(&levels[i + 1]);
        let down = i + 1 - base.shift;
        self.from_runs(alloc, hidden, is_one_run(level), &run, &next, i + 1, down)
    }

    fn from_runs(
        &self,
        alloc: Global,
        hidden: &HiddenSet,
        is_alone: bool,
        run: &FirstRun,
        next: &FirstRun,
        to: usize,
        down: usize,
    ) -> Result<Choice, AllocError>
        requires to { to < 7 }
        requires down { down < 8 }
        ensures { IfOk result (MayFromRuns self.now hidden.now is_alone run.now next.now to down) }
    {
        let Some(w) = longest_free(hidden, run, next)? else {
            return self.take_cheapest(alloc, hidden, run, next, to, down);
        };
        let tables = run.as_slice();
        let ids = ids_of(alloc, &tables[w.place..w.place + w.count])?;
        Ok(choice_of(is_alone, self.input(ids, to, down)))
    }

    fn take_cheapest(
        &self,
        alloc: Global,
        hidden: &HiddenSet,
        run: &FirstRun,
        next: &FirstRun,
        to: usize,
        down: usize,
    ) -> Result<Choice, AllocError>
        requires to { to < 7 }
        requires down { down < 8 }
        ensures { IfOk result (MayTakeCheapest self.now hidden.now run.now next.now to down) }
    {
        let Some(w) = self.cheapest(hidden, run, next)? else {
            return Ok(Choice::DoNothing);
        };
        next.facts();
        let tables = next.as_slice();
        let part = &tables[w.place..w.place + w.count];
        let mut ids = ids_of(alloc, part)?;
        push_ids(&mut ids, run.within_part(part)?)?;
        Ok(Choice::Merge(self.input(ids, to, down)))
    }

    /// What the scores say.
    fn by_score(
        &self,
        alloc: Global,
        hidden: &HiddenSet,
        levels: &[Level],
        base: Base,
        best: usize,
    ) -> Result<Choice, AllocError>
        requires seven { length levels.now ≡ 7 }
        requires base { IsBase self.now hidden.now levels.now base }
        requires best { best < 7 }
        ensures { IfOk result (MayByScore self.now hidden.now levels.now base best) }
    {
        let score = self.score(hidden, levels, base, best);
        if score.top < score.bottom {
            return Ok(Choice::DoNothing);
        }
        if best == 0 {
            return self.from_first(alloc, hidden, levels, base.into);
        }
        self.from_level(alloc, hidden, levels, base, best)
    }

    /// What becomes of the levels where the first one doesn't go to the last as it is.
    fn after_last(
        &self,
        alloc: Global,
        hidden: &HiddenSet,
        levels: &[Level],
    ) -> Result<Choice, AllocError>
        requires { length levels.now ≡ 7 }
        ensures { IfOk result (MayAfterLast self.now hidden.now levels.now) }
    {
        let base = self.base(hidden, levels);
        if goes_into(alloc, hidden, levels, base.into)? {
            let choice = self.move_first(alloc, &levels[0], base.into)?;
            return Ok(choice);
        }
        let best = self.best(hidden, levels, base);
        self.by_score(alloc, hidden, levels, base, best)
    }

    /// What becomes of a version's levels.
    pub(crate) fn pick(
        &self,
        alloc: Global,
        version: &Version,
        hidden: &HiddenSet,
    ) -> Result<Choice, AllocError>
        ensures { IfOk result (MayLeveled self.now hidden.now version.now.levels) }
    {
        version.facts();
        let levels = version.levels();
        if goes_last(alloc, levels)? {
            let choice = self.move_first(alloc, &levels[0], 6)?;
            return Ok(choice);
        }
        let choice = self.after_last(alloc, hidden, levels)?;
        Ok(choice)
    }
}
