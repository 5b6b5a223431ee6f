// Look-ups in the tables of a version.
ghost use Rattle.std.specs.Prelude.{◌≡◌, map, option_copied};
ghost use Rattle.lsm_below.specs.Optimizes.{tables_of};
ghost use Rattle.lsm_model.specs.Views.{walk};
ghost use Rattle.lsm_versions.specs.Levels.{all_of, tables_shown, AreCovered};

use crate::{Level, Version};
use lsm_below::{InternalValue, Run, SeqNo, keys_are_ordered};
use lsm_tables::Table;

/// What a walk finds in a run: of its tables, one at most has the key in its range, and only that one is asked.
fn walk_run<'a>(run: &'a Run<Table>, key: &[u8], snapshot: SeqNo) -> Option<&'a InternalValue>
    requires { AreCovered run.now }
    ensures { option_copied result ≡ walk key.now snapshot (map (λ t. t.entries) run.now) }
{
    keys_are_ordered();
    run.facts();
    match run.get_for_key(key) {
        Some(table) => table.get(key, snapshot),
        None => None,
    }
}

/// What a walk finds in the runs of a level, the newest first.
fn walk_runs<'a>(runs: &'a [Run<Table>], key: &[u8], snapshot: SeqNo) -> Option<&'a InternalValue>
    requires { AreCovered (tables_of runs.now) }
    ensures { option_copied result ≡ walk key.now snapshot (map (λ t. t.entries) (tables_of runs.now)) }
{
    let mut rest = runs;
    while let Some((run, older)) = rest.split_first() {
        if let Some(entry) = walk_run(run, key, snapshot) {
            return Some(entry);
        }
        rest = older;
    }
    None
}

/// What a walk finds in levels, from the first one on.
fn walk_levels<'a>(levels: &'a [Level], key: &[u8], snapshot: SeqNo) -> Option<&'a InternalValue>
    requires { AreCovered (all_of levels.now) }
    ensures { option_copied result ≡ walk key.now snapshot (map (λ t. t.entries) (all_of levels.now)) }
{
    let mut rest = levels;
    while let Some((level, lower)) = rest.split_first() {
        if let Some(entry) = walk_runs(level.as_slice(), key, snapshot) {
            return Some(entry);
        }
        rest = lower;
    }
    None
}

impl Version {
    /// The first visible entry of a key, level by level and run by run. Of a run one table at most is asked, which
    /// is found by bisection, as its entry is: it takes logarithmic time in each run.
    pub fn get(&self, key: &[u8], snapshot: SeqNo) -> Option<&InternalValue>
        ensures { option_copied result ≡ walk key.now snapshot (tables_shown self.now.levels) }
    {
        self.facts();
        walk_levels(self.levels(), key, snapshot)
    }
}
