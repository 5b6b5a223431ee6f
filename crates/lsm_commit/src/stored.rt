// What a crash leaves of a tree's files.
ghost use Rattle.std.specs.Prelude.{List};
ghost use Rattle.lsm_commit.specs.Contents.{FilesAreTables};
ghost use Rattle.lsm_commit.specs.Opening.{StoredIsReady, OpeningStores, OpeningsPass, OpeningsSettle};
ghost use Rattle.lsm_commit.specs.Foreign.{ForeignNamesSpare, AtRest};

use lsm_manifest::{
    images_stand_once, named_files_stay, names_are_apart, no_version_begins_another,
    ready_stores_keep_what_is_named,
};
use lsm_store::Store;

/// While nothing is done a crash leaves one of the versions that are stored, and foreign names are as they are.
pub fn crashes_leave_versions<S: Store>(store: &S)
    ensures { S.tells → AtRest (S.world store.now) }
{}

/// Where the contents that are written are the files of tables, under the tables' ids, the tables are on the disk.
pub fn files_are_tables<S: Store>(store: &S)
    ensures { FilesAreTables (S.world store.now) }
{}

/// Where a tree's files are stored, the store is ready to be opened: so a process may end at any moment between calls, with a
/// crash or without one.
pub fn stored_files_are_ready<S: Store>(_: &S)
    ensures { StoredIsReady S S.world }
{
    images_stand_once();
}

/// After the opening of a ready store the version that is opened is stored.
pub fn opening_stores<S: Store>(store: &S)
    ensures { S.tells → OpeningStores S S.world }
{
    ready_stores_keep_what_is_named(store);
    names_are_apart();
    named_files_stay();
    no_version_begins_another();
}

/// An opening that is answered leaves names that are none of a tree's as they are.
pub fn openings_pass<S: Store>(_: &S)
    ensures { OpeningsPass S S.world }
{
    names_are_apart();
}

/// After an opening that is answered what was read of them is on the disk.
pub fn openings_settle<S: Store>(_: &S)
    ensures { OpeningsSettle S S.world }
{
    names_are_apart();
}

/// Calls that change names alone that are none of a tree's spare what is stored of it.
pub fn foreign_names_spare<S: Store>(_: &S)
    ensures { ForeignNamesSpare S S.world }
{
    names_are_apart();
}
