// What a store holds of a tree is read and checked, and nothing is changed.
ghost use Rattle.std.specs.Prelude.{◌≡◌, false, map, IfOk};
ghost use Rattle.std.specs.List.Sorted.{IsNonDecreasing};
ghost use Rattle.std.specs.String.{string_bytes};
ghost use Rattle.lsm_store.specs.World.{Same, Lists};
ghost use Rattle.lsm_manifest.specs.Recovery.{CountsStore, StoreOnly};
ghost use Rattle.lsm_manifest.specs.Standing.{HasSmallNumbers};
ghost use Rattle.lsm_manifest.specs.Opening.{ChecksFiles, ReadsFrom, IsAbove};
ghost use Rattle.lsm_manifest.specs.Looking.{LooksInto};

use crate::checks::{Look, finds_any};
use crate::fault::{Fault, OpenError};
use crate::ids::{ids_of, next_id};
use crate::levels::load_version;
use crate::recovery::recovered;
use crate::{Found, Opened};
use lsm_store::{Store, StoreError};
use lsm_versions::Version;
use std::alloc::Global;

/// All names of a store.
pub(crate) fn names_of<S: Store>(alloc: Global, store: &mut S) -> Result<Vec<String>, OpenError>
    ensures names { S.tells → IfOk result (λ v. Lists (S.world store.old).gives (map string_bytes v.items)) }
    ensures refusal { StoreOnly result }
    ensures same { S.tells → Same (S.world store.old) (S.world store.new) }
    ensures counts { CountsStore (S.world store.old) (S.world store.new) result }
{
    match store.list(alloc) {
        Ok(names) => Ok(names),
        Err(StoreError::OutOfMemory) => Err(OpenError::OutOfMemory),
        Err(StoreError::Fault | StoreError::NothingDone) => Err(OpenError::Store),
    }
}

/// What `current` leads to, and the ids of its tables, sorted.
fn checked_files<S: Store>(
    alloc: Global,
    store: &mut S,
    names: &[String],
) -> Result<(Opened, Vec<u64>), OpenError>
    ensures checks { S.tells → Lists (S.world store.old).gives (map string_bytes names.now) → ChecksFiles (S.world store.old).gives result }
    ensures from { S.tells → IfOk result (λ x. ReadsFrom (S.world store.old).gives x.0.version) }
    ensures sorted { IfOk result (λ x. IsNonDecreasing x.1.items) }
    ensures next { IfOk result (λ x. IsAbove x.0.next_table_id x.0.version.levels) }
    ensures small { IfOk result (λ x. HasSmallNumbers x.0.version.levels) }
    ensures same { S.tells → Same (S.world store.old) (S.world store.new) }
    ensures counts { CountsStore (S.world store.old) (S.world store.new) result }
{
    let recovery = recovered(alloc, store)?;
    if finds_any(&Look::ARefusedName, names) {
        return Err(OpenError::Fault(Fault::Unrecoverable));
    }
    let version = load_version(
        alloc,
        store,
        recovery.curr_version_id,
        recovery.log_from,
        &recovery.table_ids,
    )?;
    let mut ids = ids_of(alloc, &recovery.table_ids)?;
    let next_table_id = next_id(&ids);
    ids.sort_unstable();
    let opened = Opened {
        version,
        next_table_id,
    };
    Ok((opened, ids))
}

/// What the store holds, whose names these are.
fn look_listed<S: Store>(
    alloc: Global,
    store: &mut S,
    names: Vec<String>,
) -> Result<Found, OpenError>
    ensures looks { S.tells → Lists (S.world store.old).gives (map string_bytes names.items) → LooksInto (S.world store.old).gives result }
    ensures from { S.tells → IfOk result (λ f. f.is_new ≡ false → ReadsFrom (S.world store.old).gives f.opened.version) }
    ensures same { S.tells → Same (S.world store.old) (S.world store.new) }
    ensures next { IfOk result (λ f. IsAbove f.opened.next_table_id f.opened.version.levels) }
    ensures small { IfOk result (λ f. HasSmallNumbers f.opened.version.levels) }
    ensures counts { CountsStore (S.world store.old) (S.world store.new) result }
{
    if finds_any(&Look::AName("version"), &names) {
        return Err(OpenError::Fault(Fault::InvalidVersion(1)));
    }
    if finds_any(&Look::AName("current"), &names) {
        let (opened, ids) = checked_files(alloc, store, &names)?;
        return Ok(Found {
            opened,
            is_new: false,
            names,
            ids,
        });
    }
    if finds_any(&Look::ARefusedName, &names) {
        return Err(OpenError::Fault(Fault::Unrecoverable));
    }
    Ok(Found {
        opened: Opened {
            version: Version::new(alloc, 0),
            next_table_id: 0,
        },
        is_new: true,
        names,
        ids: Vec::new(alloc),
    })
}

/// What a store holds of a tree, or the first thing that is wrong with its files. The store stays as it is.
pub(crate) fn look<S: Store>(alloc: Global, store: &mut S) -> Result<Found, OpenError>
    ensures looks { S.tells → LooksInto (S.world store.old).gives result }
    ensures from { S.tells → IfOk result (λ f. f.is_new ≡ false → ReadsFrom (S.world store.old).gives f.opened.version) }
    ensures same { S.tells → Same (S.world store.old) (S.world store.new) }
    ensures next { IfOk result (λ f. IsAbove f.opened.next_table_id f.opened.version.levels) }
    ensures small { IfOk result (λ f. HasSmallNumbers f.opened.version.levels) }
    ensures counts { CountsStore (S.world store.old) (S.world store.new) result }
{
    let names = names_of(alloc, store)?;
    look_listed(alloc, store, names)
}
