// How a version becomes the current one.
ghost use Rattle.std.specs.Prelude.{◌≡◌, ◌⊎◌, Some, IfErr};
ghost use Rattle.lsm_manifest.specs.Spelling.{IsFileFrom};
ghost use Rattle.lsm_manifest.specs.Versions.{named_levels, file_of};
ghost use Rattle.lsm_commit.specs.Stored.{CountsFaults};
ghost use Rattle.lsm_commit.specs.Commits.{CommitsStored};
ghost use Rattle.lsm_commit.specs.Foreign.{Passes};

use lsm_below::Error;
use lsm_manifest::{names_are_apart, persist_encoded};
use lsm_store::Store;
use lsm_versions::Version;

/// Makes a version the current one, whose tables are on the disk: its file, which `encode_version` made, is written and
/// synced, and then `current` replaced. It takes no memory of its own. The cost is linear in the file.
///
/// # Errors
///
/// `OutOfMemory` where the store was refused a growth, and `Store` where the version's file wasn't written or synced: the
/// version isn't current. `CommitUnknown` where replacing `current` failed: a crash leaves the version that was current,
/// or this one.
pub fn commit_version<S: Store>(store: &mut S, version: &Version, file: &[u8]) -> Result<(), Error>
    requires spelling { file.now ≡ file_of version.now }
    requires reads { IsFileFrom (Some version.now.log_from) (named_levels version.now.levels) file.now }
    ensures stored { S.tells → CommitsStored version.now (S.world store.old) (S.world store.new) result }
    // Names that are none of the tree's are as they were.
    ensures passes { S.tells → Passes (S.world store.old) (S.world store.new) }
    ensures only { IfErr result (λ e. ((e ≡ Error.OutOfMemory) ⊎ (e ≡ Error.Store)) ⊎ (e ≡ Error.CommitUnknown)) }
    ensures counts { CountsFaults (S.world store.old) (S.world store.new) result }
{
    names_are_apart();
    version.facts();
    persist_encoded(store, version.id(), file)
}
