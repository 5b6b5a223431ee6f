// What a store in memory holds, by name, and what a call makes of it.
ghost use Rattle.std.specs.Prelude.{◌≡◌, ◌≢◌, OnOk, OnErr, IsSome, IsTrue, IfOk, ◌↔◌, true, false, map, option_map};
ghost use Rattle.std.specs.HashMap.{get_by_text};
ghost use Rattle.lsm_store.specs.Held.{fresh, written, doubted, removed, offered, settled, IsWhole};
ghost use Rattle.lsm_store.specs.World.{Lists};
ghost use Rattle.lsm_store.specs.Files.{held_at, HoldSame, Alters, AltersEach};
ghost use Rattle.lsm_store.specs.Memory.{gives_of, written_by, replaced_by, ended_by, settled_by, sync_outcome};
ghost use Rattle.std.specs.String.{string_bytes};

use super::content::Content;
use super::file::File;
use super::plan::Outcome;
use std::alloc::{AllocError, Global};
use std::collections::HashMap;

pub type Files = HashMap<String, File>;

/// Puts a record in the place of what is held of a name.
pub fn put_file(alloc: Global, files: &mut Files, name: &str, file: File) -> Result<(), AllocError>
    ensures ok { OnOk result (Alters name.now (λ _. file) files.old files.new) }
    ensures there { OnOk result (IsSome (get_by_text files.new name.now)) }
    ensures err { OnErr result (HoldSame files.old files.new) }
{
    let _ = files.insert(String::from_str(alloc, name)?, file)?;
    Ok(())
}

/// Makes room for a name, of which the same is held.
fn make_room(alloc: Global, files: &mut Files, name: &str) -> Result<(), AllocError>
    ensures same { HoldSame files.old files.new }
    ensures there { OnOk result (IsSome (get_by_text files.new name.now)) }
{
    if files.contains_key(name) {
        return Ok(());
    }
    put_file(alloc, files, name, File::new(alloc))?;
    Ok(())
}

/// Writes a name, and doesn't sync it.
pub fn write_file(
    alloc: Global,
    files: &mut Files,
    name: &str,
    content: Content,
) -> Result<(), AllocError>
    ensures ok { OnOk result (Alters name.now (written content) files.old files.new) }
    ensures err { OnErr result (HoldSame files.old files.new) }
{
    make_room(alloc, files, name)?;
    if let Some(file) = files.get_mut(name) {
        file.write(alloc, content)?;
    }
    Ok(())
}

/// After a write or a sync of a name that failed, or while a sync goes on.
pub fn doubt_file(alloc: Global, files: &mut Files, name: &str) -> Result<(), AllocError>
    ensures ok { OnOk result (Alters name.now doubted files.old files.new) }
    ensures err { OnErr result (HoldSame files.old files.new) }
{
    make_room(alloc, files, name)?;
    if let Some(file) = files.get_mut(name) {
        file.doubt();
    }
    Ok(())
}

/// What a write with this outcome makes of a name.
pub fn write_by(
    alloc: Global,
    files: &mut Files,
    name: &str,
    content: Content,
    outcome: Outcome,
) -> Result<(), AllocError>
    ensures ok { OnOk result (Alters name.now (written_by outcome content) files.old files.new) }
    ensures err { OnErr result (HoldSame files.old files.new) }
{
    match outcome {
        Outcome::Done | Outcome::FailsDone => write_file(alloc, files, name, content),
        Outcome::Fails => doubt_file(alloc, files, name),
        Outcome::NothingDone => Ok(()),
    }
}

/// After a replacement that failed; the new bytes may be what reads give.
fn offer_file(
    alloc: Global,
    files: &mut Files,
    name: &str,
    bytes: &[u8],
    shown: bool,
) -> Result<(), AllocError>
    ensures ok { OnOk result (Alters name.now (offered shown bytes.now) files.old files.new) }
    ensures whole { OnOk result (IsWhole (held_at files.old name.now)) }
    ensures err { OnErr result (HoldSame files.old files.new) }
{
    if let Some(file) = files.get_mut(name) {
        file.offer(alloc, bytes, shown)?;
        return Ok(());
    }
    put_file(alloc, files, name, File::offered(alloc, bytes, shown)?)
}

/// What a replacement with this outcome makes of a name, once it has begun.
pub fn replace_by(
    alloc: Global,
    files: &mut Files,
    name: &str,
    bytes: &[u8],
    outcome: Outcome,
) -> Result<(), AllocError>
    requires { outcome ≢ Outcome.NothingDone }
    ensures ok { OnOk result (Alters name.now (replaced_by outcome bytes.now) files.old files.new) }
    ensures whole { OnOk result (outcome ≢ Outcome.Done → IsWhole (held_at files.old name.now)) }
    ensures err { OnErr result (HoldSame files.old files.new) }
{
    match outcome {
        Outcome::Done => put_file(alloc, files, name, File::synced(alloc, bytes)?),
        Outcome::Fails => offer_file(alloc, files, name, bytes, false),
        Outcome::FailsDone => offer_file(alloc, files, name, bytes, true),
        Outcome::NothingDone => unreachable!(),
    }
}

/// What reads give of a name is on the disk. Whether there is something.
pub fn settle_file(files: &mut Files, name: &str) -> bool
    ensures answer { IsTrue result ↔ IsSome (held_at files.old name.now).gives }
    ensures yes { result ≡ true → Alters name.now (λ h. fresh h.gives) files.old files.new }
    ensures no { result ≡ false → HoldSame files.old files.new }
{
    match files.get_mut(name) {
        Some(file) => file.settle(),
        None => false,
    }
}

/// Ends a sync: where it is done, what reads give is on the disk. It isn't done for an absent name.
pub fn end_by(files: &mut Files, name: &str, outcome: Outcome) -> Outcome
    ensures outcome { result ≡ sync_outcome outcome (gives_of files.old name.now) }
    ensures is { Alters name.now (ended_by result) files.old files.new }
{
    match outcome {
        Outcome::Done if !settle_file(files, name) => Outcome::Fails,
        other => other,
    }
}

/// What was last replaced or removed is on the disk, as reads give it. A name that is gone for good takes no memory.
fn settle_names(files: &mut Files)
    ensures { AltersEach settled files.old files.new }
{
    files.retain(|_, file| file.settle_name());
}

/// What a call with this outcome that settles names makes of them.
pub fn settle_by(files: &mut Files, outcome: Outcome)
    ensures { AltersEach (settled_by outcome) files.old files.new }
{
    match outcome {
        Outcome::Done | Outcome::FailsDone => settle_names(files),
        Outcome::Fails | Outcome::NothingDone => {}
    }
}

/// Removes a name, or after a removal that failed perhaps not. It takes no memory.
pub fn remove_file(files: &mut Files, name: &str, gone: bool)
    ensures is { Alters name.now (removed gone) files.old files.new }
    ensures whole { IsWhole (held_at files.old name.now) }
{
    if let Some(file) = files.get_mut(name) {
        file.remove(gone);
    }
}

/// What reads give of a name.
pub fn content_of(alloc: Global, files: &Files, name: &str) -> Result<Option<Vec<u8>>, AllocError>
    ensures { IfOk result (λ found. option_map (λ v. v.items) found ≡ gives_of files.now name.now) }
{
    let Some(file) = files.get(name) else {
        return Ok(None);
    };
    match file.content() {
        Some(bytes) => Ok(Some(bytes.to_vec(alloc)?)),
        None => Ok(None),
    }
}

/// The names of which reads give something, each once.
pub fn names_of(alloc: Global, files: &Files) -> Result<Vec<String>, AllocError>
    ensures { IfOk result (λ names. Lists (gives_of files.now) (map string_bytes names.items)) }
{
    let mut names = Vec::with_capacity(alloc, files.len())?;
    for (name, file) in files {
        if file.content().is_some() {
            names.push(String::from_str(alloc, name.as_str())?)?;
        }
    }
    Ok(names)
}
