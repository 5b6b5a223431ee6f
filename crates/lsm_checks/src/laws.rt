// What the end of a merge is to the theory, as the contract of a function that does nothing.
ghost use Rattle.lsm_checks.specs.Endings.{MergesOfInputsAreSteps};

use lsm_model::tables_are_placed;
use lsm_versions::merges_are_steps;

/// The install of a version with a run in place of an allowed choice is a merge, where the inputs were read before and still
/// hold what the chosen tables do.
pub fn merges_of_inputs_are_steps()
    ensures { MergesOfInputsAreSteps }
{
    tables_are_placed();
    merges_are_steps();
}
