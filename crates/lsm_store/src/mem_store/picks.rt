// What a crash of a store in memory leaves, name by name.
ghost use Rattle.std.specs.Prelude.{◌≡◌, List, ℕ, IfOk, option_copied, IsTrue, ◌↔◌};
ghost use Rattle.lsm_store.specs.World.{IsImage};
ghost use Rattle.lsm_store.specs.Held.{MayHold, fresh};
ghost use Rattle.lsm_store.specs.Files.{held_at};
ghost use Rattle.lsm_store.specs.Memory.{may_of};
ghost use Rattle.lsm_store.specs.Picks.{pick_for, left_at, picked};

use super::directory::{Files, put_file};
use super::file::{Absence, File};
use std::alloc::{AllocError, Global};
use std::collections::HashMap;

/// What a crash is to leave of a name.
#[derive(Clone, Copy, Debug)]
pub enum Pick<'a> {
    /// Nothing.
    Absent,
    /// What reads gave before the last call that changed the name, if that isn't done for good: after a sync
    /// or a replacement that is done there is nothing before.
    Before,
    /// These bytes.
    Bytes(&'a [u8]),
}

/// The first pick that names this.
fn pick_for<'a>(picks: &[(&str, Pick<'a>)], name: &str) -> Option<Pick<'a>>
    ensures { result ≡ pick_for picks.now name.now }
{
    for (of, pick) in picks {
        if *of == name {
            return Some(*pick);
        }
    }
    None
}

/// What is left of a name.
fn left_of<'a>(file: &'a File, pick: Option<Pick<'a>>) -> Option<&'a [u8]>
    ensures { option_copied result ≡ left_at file.now pick.entry }
{
    match pick {
        None if file.absence() == Absence::Usual => None,
        None => file.content(),
        Some(Pick::Absent) => None,
        Some(Pick::Before) => file.before(),
        Some(Pick::Bytes(bytes)) => Some(bytes),
    }
}

/// Whether a crash may leave of a name what is picked.
fn may_leave(files: &Files, name: &str, pick: Option<Pick<'_>>) -> bool
    ensures { IsTrue result ↔ MayHold (held_at files.now name.now) (left_at (held_at files.now name.now) pick.entry) }
{
    match files.get(name) {
        Some(file) => file.may_leave(left_of(file, pick)),
        None => !matches!(&pick, Some(Pick::Bytes(_))),
    }
}

/// Whether a crash may leave what is picked.
pub fn are_possible(files: &Files, picks: &[(&str, Pick<'_>)]) -> bool
    ensures { IsTrue result ↔ IsImage (may_of files.now) (picked files.now picks.now) }
{
    for (name, _) in picks {
        if !may_leave(files, name, pick_for(picks, name)) {
            return false;
        }
    }
    true
}

/// What a crash leaves, all of it on the disk.
pub fn files_left(
    alloc: Global,
    files: &Files,
    picks: &[(&str, Pick<'_>)],
) -> Result<Files, AllocError>
    requires { IsImage (may_of files.now) (picked files.now picks.now) }
    ensures { IfOk result (λ left. (n : List ℕ) → held_at left n ≡ fresh (picked files.now picks.now n)) }
{
    let mut left = HashMap::new(alloc);
    for (name, file) in files {
        let pick = pick_for(picks, name.as_str());
        if let Some(bytes) = left_of(file, pick) {
            put_file(alloc, &mut left, name.as_str(), File::synced(alloc, bytes)?)?;
        }
    }
    Ok(left)
}
