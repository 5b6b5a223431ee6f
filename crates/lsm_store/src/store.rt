// What a tree keeps its files in, and what a crash may leave of them.
ghost use Rattle.std.specs.Prelude.{◌≡◌, ◌≤◌, List, ℕ, Some, None, IfOk, OnOk, IsErrOf, IsSome, IsTrue, Bool, Option, option_map, map};
ghost use Rattle.std.specs.String.{string_bytes};
ghost use Rattle.lsm_store.specs.declared.store.StoreError.TheVariants.{OutOfMemory, Fault};
ghost use Rattle.lsm_store.specs.World.{Image, World, Anything, Only, OldOr, IsImage, At, Same, Becomes, Changes, Narrows, SettlesNames, Counts, Lists, LeavesOnly};

use bytes::Bytes;
use std::alloc::{AllocError, AllocFailed, Global};
use thiserror::Error;

/// Why a call of a store was refused.
#[derive(Clone, Copy, Debug, PartialEq, Eq, Error)]
pub enum StoreError {
    /// A growth was refused. The call had no effect, and is no failure.
    #[error("a growth was refused")]
    OutOfMemory,
    /// The store failed. Whether the call had its effect isn't known.
    #[error("the store failed")]
    Fault,
    /// The store failed, and is known to have done nothing.
    #[error("the store failed, and has done nothing")]
    NothingDone,
}

impl From<AllocError> for StoreError {
    ghost from_gives = { λ _ e. e ≡ OutOfMemory };

    fn from(_: AllocError) -> Self {
        StoreError::OutOfMemory
    }
}

impl<T: Drop> From<AllocFailed<T>> for StoreError {
    ghost from_gives = { λ _ e. e ≡ OutOfMemory };

    fn from(_: AllocFailed<T>) -> Self {
        StoreError::OutOfMemory
    }
}

/// Named contents of bytes. Each call may be refused with a `Fault`, or with `NothingDone`, and each but `remove` for
/// want of memory.
///
/// What a crash may leave of a name, whatever becomes of the others:
///
/// | State of the name | After a crash |
/// |-|-|
/// | synced, no later call | that content |
/// | written and not synced, or a write or sync that failed | absent, or any bytes |
/// | removed, or a removal that failed | absent, or as before |
/// | replaced, during the call or after a fault | the old or the new content |
/// | replaced, after Ok | the new content |
/// | settled, after Ok, where not any bytes could be left | what reads give |
/// | settled, during the call or after a fault | as before, or less |
/// | after a call that answered `NothingDone` | as before |
///
/// What reads and lists give is always one of the images that a crash may leave.
pub trait Store: Drop {
    /// Whether the store tells its content: what holds of reads and crashes holds of such a store alone.
    ghost tells: { Type 0 };

    ghost world: { Self → World };

    /// The names that have a content, each once, in no order that is promised.
    fn list(&mut self, alloc: Global) -> Result<Vec<String>, StoreError>
        ensures names { tells → IfOk result (λ names. Lists (world self.old).gives (map string_bytes names.items)) }
        ensures same { tells → Same (world self.old) (world self.new) }
        ensures counts { Counts (world self.old) (world self.new) result };

    /// The content of a name. None where it is absent.
    fn read(&mut self, alloc: Global, name: &str) -> Result<Option<Vec<u8>>, StoreError>
        ensures content { tells → IfOk result (λ found. option_map (λ v. v.items) found ≡ (world self.old).gives name.now) }
        ensures same { tells → Same (world self.old) (world self.new) }
        ensures counts { Counts (world self.old) (world self.new) result };

    /// Makes these bytes the whole content of a name. Until it is synced, a crash may leave nothing or any bytes.
    fn write(&mut self, name: &str, bytes: &[u8]) -> Result<(), StoreError>
        ensures changes { tells → Changes name.now Anything Anything (Some bytes.now) (world self.old) (world self.new) result }
        ensures counts { Counts (world self.old) (world self.new) result };

    /// `write`, of bytes that the store may share: one in memory copies none.
    fn write_shared(&mut self, name: &str, bytes: &Bytes) -> Result<(), StoreError>
        ensures changes { tells → Changes name.now Anything Anything (Some bytes.now) (world self.old) (world self.new) result }
        ensures counts { Counts (world self.old) (world self.new) result };

    /// After it, a crash leaves what reads give. It fails for an absent name.
    fn sync(&mut self, name: &str) -> Result<(), StoreError>
        ensures changes { tells → Changes name.now Anything (Only ((world self.old).gives name.now)) ((world self.old).gives name.now) (world self.old) (world self.new) result }
        ensures there { tells → OnOk result (IsSome ((world self.old).gives name.now)) }
        ensures counts { Counts (world self.old) (world self.new) result };

    /// Makes these bytes the whole content of a name, on the disk and in one step.
    fn replace(&mut self, name: &str, bytes: &[u8]) -> Result<(), StoreError>
        ensures changes { tells → Changes name.now (OldOr ((world self.old).may name.now) (Some bytes.now)) (Only (Some bytes.now)) (Some bytes.now) (world self.old) (world self.new) result }
        ensures counts { Counts (world self.old) (world self.new) result };

    /// Makes a name absent. A crash may bring it back. An absent name stays absent, and that is no error.
    fn remove(&mut self, name: &str) -> Result<(), StoreError>
        ensures changes { tells → Changes name.now (OldOr ((world self.old).may name.now) None) (OldOr ((world self.old).may name.now) None) None (world self.old) (world self.new) result }
        ensures counts { Counts (world self.old) (world self.new) result }
        ensures memory { IsErrOf result OutOfMemory → ⊥ };

    /// Puts on the disk what was last replaced or removed: after Ok, of each name of which a crash can't leave any bytes at
    /// all it leaves just what reads give. While it runs and after a fault it leaves what it could before, and no more.
    fn settle(&mut self) -> Result<(), StoreError>
        ensures settles { tells → SettlesNames (world self.old) (world self.new) result }
        ensures counts { Counts (world self.old) (world self.new) result };

    /// How many calls have failed, up to 2^64 - 1, where it stays.
    fn failures(&self) -> u64
        ensures { result ≡ (world self.now).failures };

    /// What reads give is one of the images.
    ghost gives_one: { tells → (store : Self) (name : List ℕ) → (world store).may name ((world store).gives name) };

    /// This moment is one of those since an earlier one.
    ghost counts_now: { tells → (store : Self) (t : ℕ) (image : Image) → t ≤ (world store).moment → IsImage (world store).may image → (world store).since t image };

    /// Since this moment there is no other.
    ghost only_now: { tells → (store : Self) (image : Image) → (world store).since (world store).moment image → IsImage (world store).may image };
}

/// Runs of calls, for any test of images: a run begins with what a crash at this moment may leave, a call without effect
/// adds nothing, nor does one that settles names, a call that changes one name adds what a crash in it might have left, and
/// two runs join.
pub fn runs_of_calls<S: Store>(old: &S, mid: &S, new: &S)
    ensures begins { S.tells → (p : Image → Bool) → ((image : Image) → IsImage (S.world old.now).may image → IsTrue (p image)) → LeavesOnly (S.world old.now) (S.world old.now) (λ image. IsTrue (p image)) }
    ensures rests { (p : Image → Bool) → LeavesOnly (S.world old.now) (S.world mid.now) (λ image. IsTrue (p image)) → Same (S.world mid.now) (S.world new.now) → LeavesOnly (S.world old.now) (S.world new.now) (λ image. IsTrue (p image)) }
    ensures settles { (p : Image → Bool) → LeavesOnly (S.world old.now) (S.world mid.now) (λ image. IsTrue (p image)) → Narrows (S.world mid.now) (S.world new.now) → LeavesOnly (S.world old.now) (S.world new.now) (λ image. IsTrue (p image)) }
    ensures goes_on { (p : Image → Bool) (name : List ℕ) (during after : Option (List ℕ) → Bool) → LeavesOnly (S.world old.now) (S.world mid.now) (λ image. IsTrue (p image))
        → Becomes name (λ c. IsTrue (during c)) (λ c. IsTrue (after c)) (S.world mid.now) (S.world new.now)
        → ((image : Image) → IsImage (At name (λ c. IsTrue (during c)) (S.world mid.now).may) image → IsTrue (p image)) → LeavesOnly (S.world old.now) (S.world new.now) (λ image. IsTrue (p image)) }
    ensures joins { (p q r : Image → Bool) → LeavesOnly (S.world old.now) (S.world mid.now) (λ image. IsTrue (p image)) → LeavesOnly (S.world mid.now) (S.world new.now) (λ image. IsTrue (q image))
        → ((image : Image) → IsTrue (p image) → IsTrue (r image)) → ((image : Image) → IsTrue (q image) → IsTrue (r image)) → LeavesOnly (S.world old.now) (S.world new.now) (λ image. IsTrue (r image)) }
{}
