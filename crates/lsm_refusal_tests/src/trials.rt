// Rows on a tree that meets a refusal, beside one that never makes a refused call.
use crate::looks::agree;
use crate::pairs::{End, Known, may_tell, play};
use crate::rows::Row;
use crate::shown::are_so;
use crate::steps::{Player, Tree, open};
use crate::store::{Refusal, RefusingStore};
use lsm_state::{Error, SeqNo};
use std::alloc::Global;

/// How a row ended.
pub type Ended = Result<(), End>;

/// A row that ended, and the call that is still to be refused: 0 where there is none.
pub type Tried = (Ended, u64);

/// A tree, or why there is none.
type Opened = Result<Player, End>;

/// The store of an opening that was refused, if it may be refused so.
fn refused(refused: (Error, RefusingStore), refusal: Refusal) -> Result<RefusingStore, End> {
    let (error, store) = refused;
    if may_tell(&error, refusal, false) {
        Ok(store)
    } else {
        Err(End::Wrong)
    }
}

fn open_once(
    alloc: Global,
    next: SeqNo,
    store: RefusingStore,
    refusal: Refusal,
) -> Result<Player, Result<RefusingStore, End>> {
    match open(alloc, next, store) {
        Ok(tree) => Ok(Player { tree, job: None }),
        Err(error) => Err(refused(error, refusal)),
    }
}

/// The tree of a store. An opening that is refused is made once more.
fn open_again(alloc: Global, next: SeqNo, store: RefusingStore, refusal: Refusal) -> Opened {
    match open_once(alloc, next, store, refusal) {
        Ok(player) => Ok(player),
        Err(Ok(store)) => match open_once(alloc, next, store, refusal) {
            Ok(player) => Ok(player),
            Err(Ok(_)) => Err(End::NoStore),
            Err(Err(end)) => Err(end),
        },
        Err(Err(end)) => Err(end),
    }
}

/// A tree beside the one of another store.
fn open_beside(
    alloc: Global,
    next: SeqNo,
    tried: Player,
    kept: RefusingStore,
) -> Result<(Player, Player), End> {
    match open_again(alloc, next, kept, Refusal::NoMemory) {
        Ok(kept) => Ok((tried, kept)),
        Err(end) => {
            drop(tried);
            Err(end)
        }
    }
}

/// The trees of two stores, of which calls of the first may be refused so.
fn open_both(
    alloc: Global,
    next: SeqNo,
    tried: RefusingStore,
    kept: RefusingStore,
    refusal: Refusal,
) -> Result<(Player, Player), End> {
    match open_again(alloc, next, tried, refusal) {
        Ok(tried) => open_beside(alloc, next, tried, kept),
        Err(end) => {
            drop(kept);
            Err(end)
        }
    }
}

/// What a crash leaves of a tree's store. It is asked once more where memory was refused.
fn left_of(player: Player) -> Result<RefusingStore, End> {
    let store = player.tree.into_store();
    let left = match store.crash() {
        Err(_) => store.crash(),
        left => left,
    };
    drop(store);
    match left {
        Ok(Some(left)) => Ok(left),
        _ => Err(End::Wrong),
    }
}

/// The trees that are opened after a crash.
fn reopen_both(
    alloc: Global,
    tried: Player,
    kept: Player,
    refusal: Refusal,
) -> Result<(Player, Player), End> {
    let tried = left_of(tried);
    match left_of(kept) {
        Ok(kept) => open_both(alloc, 10, tried?, kept, refusal),
        Err(end) => Err(end),
    }
}

/// Whether both trees show the same, and what a row says where no call was refused and all is gone
/// that was to go.
fn is_right(alloc: Global, tried: &Tree, kept: &Tree, row: &Row, known: Known) -> bool {
    let is_plain = known.is_whole && known.is_clean;
    (!is_plain || are_so(alloc, tried, row.2)) && agree(tried, kept, known.is_clean)
}

/// How a row ended on these trees. What comes of a commit of unknown outcome isn't known after a crash, but the tree opens.
fn compare(
    alloc: Global,
    tried: &Tree,
    kept: &Tree,
    row: &Row,
    played: Result<Known, End>,
    is_known: bool,
) -> Ended {
    match played {
        Ok(known) => if !is_known || is_right(alloc, tried, kept, row, known) {
            Ok(())
        } else {
            Err(End::Wrong)
        },
        Err(end) => Err(end),
    }
}

fn end(
    alloc: Global,
    trees: (Player, Player),
    row: &Row,
    played: Result<Known, End>,
    is_known: bool,
) -> Tried {
    let (tried, kept) = trees;
    let ended = compare(alloc, &tried.tree, &kept.tree, row, played, is_known);
    let left = tried.tree.store().call();
    drop(tried);
    drop(kept);
    (ended, left)
}

/// After a crash and an opening all is gone that was to go.
fn behind(played: Result<Known, End>) -> Result<Known, End> {
    match played {
        Ok(known) => Ok(Known {
            is_whole: known.is_whole,
            is_clean: true,
        }),
        Err(end) => Err(end),
    }
}

fn crash(
    alloc: Global,
    trees: (Player, Player),
    row: &Row,
    refusal: Refusal,
    played: Result<Known, End>,
) -> Tried {
    let (tried, kept) = trees;
    let is_known = !tried.tree.is_uncertain();
    match reopen_both(alloc, tried, kept, refusal) {
        Ok(trees) => end(alloc, trees, row, behind(played), is_known),
        Err(end) => (Err(end), 0),
    }
}

fn play_row(alloc: Global, trees: (Player, Player), row: &Row, refusal: Refusal) -> Tried {
    let (mut tried, mut kept) = trees;
    let played = play(alloc, &mut tried, &mut kept, row.0, refusal);
    if row.1 {
        crash(alloc, (tried, kept), row, refusal, played)
    } else {
        end(alloc, (tried, kept), row, played, true)
    }
}

/// Takes a row where a store call is refused, 1 for the first and 0 for none.
pub fn try_row(alloc: Global, row: &Row, call: u64, refusal: Refusal) -> Tried {
    let tried = RefusingStore::new(alloc, call, refusal);
    let kept = RefusingStore::new(alloc, 0, refusal);
    match open_both(alloc, 0, tried, kept, refusal) {
        Ok(trees) => play_row(alloc, trees, row, refusal),
        Err(end) => (Err(end), 0),
    }
}
