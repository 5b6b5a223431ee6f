// What a strategy answers.
use lsm_below::TableId;
use lsm_checks::Input;
use std::alloc::AllocError;
use std::collections::HashSet;

/// What is to be done with the tables of a version.
///
/// # Examples
///
/// ```text
/// match strategy.choose(alloc, &version, &config, &state)? {
///     Choice::DoNothing => {}
///     Choice::Move(input) | Choice::Merge(input) => begin(input),
///     Choice::Drop(ids) => drop_tables(&ids),
/// }
/// ```
#[derive(Drop, Debug, PartialEq, Eq)]
pub enum Choice {
    /// Nothing.
    DoNothing,
    /// The tables go to another level as they are.
    Move(Input),
    /// The tables are merged into a level.
    Merge(Input),
    /// The tables of these ids go, with their entries.
    Drop(HashSet<TableId>),
}

/// Why a strategy has no choice.
#[derive(Drop, Debug, Clone, Copy, PartialEq, Eq)]
pub enum ChooseError {
    /// A growth was refused.
    OutOfMemory,
    /// The first level has several runs where one is asked for.
    NotDisjoint,
    /// A table is that of an open job.
    Busy,
    /// The strategy's own reason.
    Refused,
}

impl From<AllocError> for ChooseError {
    ghost use Rattle.std.specs.Prelude.{◌≡◌};
    ghost use Rattle.lsm_pick.specs.declared.choice.ChooseError.TheVariants.{OutOfMemory};

    ghost from_gives = { λ _ e. e ≡ OutOfMemory };

    fn from(_error: AllocError) -> ChooseError {
        ChooseError::OutOfMemory
    }
}
