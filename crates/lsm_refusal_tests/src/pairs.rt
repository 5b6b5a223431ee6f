// A tree that meets refusals, beside one that never makes a refused call.
use crate::looks::agree;
use crate::steps::{Player, Step, Told, Tree, give_up, take};
use crate::store::Refusal;
use lsm_state::{Error, Fault};
use std::alloc::Global;

/// Why calls on both trees ended early.
#[derive(Clone, Copy)]
pub enum End {
    /// Memory was refused to the kept tree, and nothing more can be compared.
    NoMemory,
    /// The store is refused from a call on, and isn't opened.
    NoStore,
    /// A call was answered otherwise, or left something else.
    Wrong,
}

/// How one call on both trees went.
#[derive(Clone, Copy)]
enum Turn {
    Answered(Told),
    /// The call has taken its effect, and not all that was to go is gone.
    Unclean,
    Refused,
    NoMemory,
    Wrong,
}

/// Whether this error may come of this refusal. After a commit of unknown outcome all others are refused.
pub fn may_tell(error: &Error, refusal: Refusal, was_uncertain: bool) -> bool {
    match (error, refusal) {
        (Error::Unrecoverable, _) => was_uncertain,
        (Error::OutOfMemory, Refusal::NoMemory) => true,
        (_, Refusal::NoMemory) => false,
        (Error::Store | Error::AfterCommit, Refusal::Fails(_)) => true,
        (Error::CommitUnknown, Refusal::Fails(fault)) => !matches!(fault, Fault::OnceNothing),
        _ => false,
    }
}

/// Gives the kept tree what a refused call may leave: the rotation of a flush, a number that its commit used, and a spent
/// job. Answers whether it left no more.
fn follow(tried: &Player, kept: &mut Player) -> Result<bool, Error> {
    if tried.tree.sealed_memtable_count() > kept.tree.sealed_memtable_count() {
        kept.tree.rotate_memtable()?;
    }
    if tried.job.is_none() {
        give_up(kept);
    }
    let (drawn, next) = (tried.tree.seqno().get(), kept.tree.seqno().get());
    kept.tree.seqno_mut().set(drawn);
    Ok(drawn == next || Some(drawn) == next.checked_add(1))
}

/// What comes of a call that the tried tree answered so, once the kept one takes it.
fn answered(alloc: Global, kept: &mut Player, step: Step, told: Told) -> Turn {
    match (take(alloc, kept, step), told) {
        (Ok(Told::Flushed(size, true)), Told::Flushed(other, false)) if size == other =>
            Turn::Unclean,
        (Ok(other), _) if told == other => Turn::Answered(told),
        (Err(Error::OutOfMemory), _) => Turn::NoMemory,
        _ => Turn::Wrong,
    }
}

/// What comes of one whose clean-up was refused.
fn committed(alloc: Global, kept: &mut Player, step: Step) -> Turn {
    match take(alloc, kept, step) {
        Ok(_) => Turn::Unclean,
        Err(Error::OutOfMemory) => Turn::NoMemory,
        Err(_) => Turn::Wrong,
    }
}

/// What comes of one that was refused.
fn refused(tried: &Player, kept: &mut Player) -> Turn {
    match follow(tried, kept) {
        Ok(true) => Turn::Refused,
        Err(Error::OutOfMemory) => Turn::NoMemory,
        _ => Turn::Wrong,
    }
}

/// Takes a call on the tried tree, and on the kept one where it isn't refused.
fn call(
    alloc: Global,
    tried: &mut Player,
    kept: &mut Player,
    step: Step,
    refusal: Refusal,
) -> Turn {
    let was_uncertain = tried.tree.is_uncertain();
    match take(alloc, tried, step) {
        Ok(told) => answered(alloc, kept, step, told),
        Err(error) => if !may_tell(&error, refusal, was_uncertain) {
            Turn::Wrong
        } else if matches!(error, Error::AfterCommit) {
            committed(alloc, kept, step)
        } else if tried.tree.is_uncertain()
            != (was_uncertain || matches!(error, Error::CommitUnknown))
        {
            Turn::Wrong
        } else {
            refused(tried, kept)
        },
    }
}

/// What is known of two trees after some calls.
#[derive(Clone, Copy)]
pub struct Known {
    /// No call was refused, so that each answers what a row says.
    pub is_whole: bool,
    /// All is gone that was to go.
    pub is_clean: bool,
}

fn known_behind(known: Known, turn: Turn) -> Known {
    Known {
        is_whole: known.is_whole && !matches!(turn, Turn::Refused),
        is_clean: known.is_clean && !matches!(turn, Turn::Unclean),
    }
}

/// Whether a call was answered as a row says, or was refused, and left the same in both trees. As long as no call was refused
/// both were given the same calls, and needn't be compared.
fn is_right(tried: &Tree, kept: &Tree, known: Known, turn: Turn, wanted: Told) -> bool {
    let is_told = match turn {
        Turn::Answered(told) => told == wanted || !known.is_whole,
        Turn::Unclean | Turn::Refused => true,
        Turn::NoMemory | Turn::Wrong => false,
    };
    let is_plain = known.is_whole && known.is_clean;
    is_told && (is_plain || agree(tried, kept, known.is_clean))
}

/// Takes a call on both trees, and answers what is known then.
fn take_turn(
    alloc: Global,
    trees: (&mut Player, &mut Player),
    (step, wanted): (Step, Told),
    refusal: Refusal,
    known: Known,
) -> Result<(Known, bool), End> {
    let (tried, kept) = trees;
    let turn = call(alloc, tried, kept, step, refusal);
    if matches!(turn, Turn::NoMemory) {
        return Err(End::NoMemory);
    }
    let known = known_behind(known, turn);
    if is_right(&tried.tree, &kept.tree, known, turn, wanted) {
        Ok((known, matches!(turn, Turn::Refused)))
    } else {
        Err(End::Wrong)
    }
}

/// Takes each call on both trees. One that is refused is taken once more, as if nothing had been, and then left out.
/// Answers what is known of the trees then, or how it ended.
pub fn play(
    alloc: Global,
    tried: &mut Player,
    kept: &mut Player,
    steps: &[(Step, Told)],
    refusal: Refusal,
) -> Result<Known, End> {
    let mut known = Known {
        is_whole: true,
        is_clean: true,
    };
    for step in steps {
        for _ in 0..2 {
            match take_turn(alloc, (&mut *tried, &mut *kept), *step, refusal, known) {
                Ok((next, is_refused)) => {
                    known = next;
                    if !is_refused {
                        break;
                    }
                }
                Err(end) => return Err(end),
            }
        }
    }
    Ok(known)
}
