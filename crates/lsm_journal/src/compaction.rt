// A strategy's choice, beside what a journal notes of it if it is done.
ghost use Rattle.std.specs.Prelude.{◌≡◌, ◌⊎◌, ◌∷◌, [], true, false, None, IsSome, IsTrue, IfOk};
ghost use Rattle.lsm_pick.specs.Simple.{are_reversed};
ghost use Rattle.lsm_commit.specs.Causes.{Blames};
ghost use Rattle.lsm_state.specs.CompactionDeeds.{dropped_by};
ghost use Rattle.lsm_journal.specs.Noted.{IsAnswerOf, noted_of};

use crate::lists::one_entry;
pub use beginning::begin_chosen;
pub use finishing::{finish_entries, finish_noting};
use lsm_below::{SeqNo, TableId};
use lsm_model::{JournalEntry, KeyRanges};
use lsm_parts::Error;
use lsm_pick::{Choice, CompactionStrategy, OwnedBounds};
use lsm_state::{TreeState, told_as};
use lsm_store::Store;
use ranges::ranges_of;
use std::alloc::{AllocError, Global};
use std::collections::HashSet;
pub use whole::compact_chosen;

/// A strategy's choice for a tree, or why there is none, beside what a journal notes of it if it is done.
///
/// ```text
/// let chosen = ask(alloc, &tree, &strategy, watermark)?;
/// let (begun, entries) = begin_chosen(&mut tree, chosen, options);
/// ```
#[derive(Drop)]
pub struct Chosen {
    /// What the strategy chose, or why there is no choice.
    pub answer: Result<Choice, Error>,
    /// What is noted if it is done: the mark, of a drop the ranges of its tables, and the install.
    pub entries: Vec<JournalEntry>,
}

/// Whether a drop of a range has nothing to do: where its bounds are reversed, unless a commit of unknown outcome came before.
pub fn drops_nothing<S: Store>(tree: &TreeState<S>, bounds: &OwnedBounds) -> bool
    ensures yes { IsTrue result → (tree.now.core.lost ≡ None) × (are_reversed bounds.now ≡ true) }
    ensures no { result ≡ false → IsSome tree.now.core.lost ⊎ (are_reversed bounds.now ≡ false) }
{
    !tree.is_uncertain() && bounds.is_reversed()
}

/// What a drop of the tables of these ids tells.
fn dropped<S: Store>(
    alloc: Global,
    tree: &TreeState<S>,
    ids: &HashSet<TableId>,
) -> Result<JournalEntry, AllocError>
    ensures { IfOk result (λ entry. entry ∷ [] ≡ dropped_by ids.now.keys tree.now.core) }
{
    let ranges = ranges_of(alloc, tree.current_version(), ids)?;
    let number = tree.seqno().get();
    Ok(JournalEntry::Dropped(KeyRanges::new(ranges), number))
}

/// What is noted of a choice if it is done.
fn choice_entries<S: Store>(
    alloc: Global,
    tree: &TreeState<S>,
    choice: &Choice,
    watermark: SeqNo,
) -> Result<Vec<JournalEntry>, AllocError>
    ensures { IfOk result (λ list. list.items ≡ noted_of (Ok choice.now) watermark tree.now.core) }
{
    let mut list = one_entry(alloc, JournalEntry::Mark(watermark))?;
    if let Choice::Drop(ids) = choice {
        list.push(dropped(alloc, tree, ids)?)?;
    }
    list.push(JournalEntry::Install(tree.seqno().get()))?;
    Ok(list)
}

/// What is noted of an answer if it is done.
fn note<S: Store>(
    alloc: Global,
    tree: &TreeState<S>,
    answer: Result<Choice, Error>,
    watermark: SeqNo,
) -> Result<Chosen, AllocError>
    ensures answer { IfOk result (λ c. c.answer ≡ answer) }
    ensures noted { IfOk result (λ c. c.entries.items ≡ noted_of answer watermark tree.now.core) }
{
    let entries = match &answer {
        Ok(choice) => choice_entries(alloc, tree, choice, watermark)?,
        Err(_) => one_entry(alloc, JournalEntry::Mark(watermark))?,
    };
    Ok(Chosen { answer, entries })
}

/// Asks a strategy what it chooses for a tree, as `TreeState::choose`, and notes that. After a commit of unknown outcome it
/// isn't asked, and the answer is `Unrecoverable`. The cost is that of the strategy, and for a drop linear in the tables of
/// the tree. Refused only where there is no room for the notes; what the strategy refuses is in the answer.
pub fn ask<S: Store>(
    alloc: Global,
    tree: &TreeState<S>,
    strategy: &dyn CompactionStrategy,
    watermark: SeqNo,
) -> Result<Chosen, AllocError>
    ensures answer { IfOk result (λ c. IsAnswerOf (may_choose strategy.now) (may_refuse strategy.now) tree.now.core c.answer) }
    ensures blameless { IfOk result (λ c. Blames c.answer → ⊥) }
    ensures noted { IfOk result (λ c. c.entries.items ≡ noted_of c.answer watermark tree.now.core) }
{
    if tree.is_uncertain() {
        return note(alloc, tree, Err(Error::Unrecoverable), watermark);
    }
    let answer = match tree.choose(strategy) {
        Ok(choice) => Ok(choice),
        Err(error) => Err(told_as(error)),
    };
    note(alloc, tree, answer, watermark)
}

/// As `ask`, of a strategy whose type is known.
pub fn ask_with<S: Store, C: CompactionStrategy>(
    alloc: Global,
    tree: &TreeState<S>,
    strategy: &C,
    watermark: SeqNo,
) -> Result<Chosen, AllocError>
    ensures answer { IfOk result (λ c. IsAnswerOf (C.may_choose strategy.now) (C.may_refuse strategy.now) tree.now.core c.answer) }
    ensures blameless { IfOk result (λ c. Blames c.answer → ⊥) }
    ensures noted { IfOk result (λ c. c.entries.items ≡ noted_of c.answer watermark tree.now.core) }
{
    if tree.is_uncertain() {
        return note(alloc, tree, Err(Error::Unrecoverable), watermark);
    }
    let answer = match tree.choose_with(strategy) {
        Ok(choice) => Ok(choice),
        Err(error) => Err(told_as(error)),
    };
    note(alloc, tree, answer, watermark)
}

mod beginning;
mod finishing;
mod ranges;
mod whole;
