// What an iterator gives, from one end or from both until they meet.

use lsm_state::{End, Error, Guard, IterGuard, TreeIter};
use std::ops::Bound;

/// A key, and the least byte of the sequence number of its entry, which is its value.
pub type Shown = (&'static str, u8);

/// A bound that is written as text.
pub type Text = Bound<&'static str>;

/// From which end three steps are taken, and then three more.
pub type Turns = [End; 3];

/// Ways to walk: forwards, backwards, and from both ends.
pub const WALKS: [Turns; 5] = [
    [End::Front, End::Front, End::Front],
    [End::Back, End::Back, End::Back],
    [End::Front, End::Back, End::Front],
    [End::Back, End::Back, End::Front],
    [End::Back, End::Front, End::Front],
];

/// Whether this pair is given.
pub fn is(pair: Option<Guard>, wanted: Shown) -> bool {
    match pair.map(|guard| guard.into_inner()) {
        Some(Ok((key, value))) => {
            key.as_slice() == wanted.0.as_bytes() && value.as_slice() == [wanted.1].as_slice()
        }
        _ => false,
    }
}

/// Whether the iterator gives this pair at this end, and owns no more than before.
pub fn steps(iter: &mut TreeIter, end: End, wanted: Shown) -> bool {
    let held = iter.held();
    let given = match end {
        End::Front => iter.next(),
        End::Back => iter.next_back(),
    };
    is(given, wanted) && iter.held() <= held
}

/// The place of the next one from this end, where so many were taken from the front, and so many of all in all.
fn next_place(end: End, fronts: usize, taken: usize, all: usize) -> usize {
    match end {
        End::Front => fronts,
        End::Back => all
            .saturating_add(fronts)
            .saturating_sub(taken.saturating_add(1)),
    }
}

/// How many were taken from the front, with one more from this end.
fn count_front(end: End, fronts: usize) -> usize {
    match end {
        End::Front => fronts.saturating_add(1),
        End::Back => fronts,
    }
}

/// Whether the iterator gives just these, and then nothing from either end.
fn walks(iter: &mut TreeIter, turns: Turns, wanted: &[Shown]) -> bool {
    let mut fronts: usize = 0;
    for taken in 0..wanted.len() {
        let end = turns[taken % 3];
        let Some(pair) = wanted.get(next_place(end, fronts, taken, wanted.len())) else {
            return false;
        };
        if !steps(iter, end, *pair) {
            return false;
        }
        fronts = count_front(end, fronts);
    }
    iter.next().is_none() && iter.next_back().is_none() && iter.next().is_none()
}

/// Whether an iterator was made that gives just these.
pub fn gives(made: Result<TreeIter, Error>, turns: Turns, wanted: &[Shown]) -> Result<bool, Error> {
    let mut iter = made?;
    Ok(walks(&mut iter, turns, wanted))
}
