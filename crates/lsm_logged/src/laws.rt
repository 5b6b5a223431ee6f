// What is known of a log between two lives.
ghost use Rattle.std.specs.Prelude.{ℕ, ◌≤◌};
ghost use Rattle.lsm_store.specs.World.{Image, Begins};
ghost use Rattle.lsm_log_model.specs.Logs.{Logged as Log};
ghost use Rattle.lsm_logged.specs.Keeping.{KeepsLog};
ghost use Rattle.lsm_logged.specs.Images.{ImagesHaveLogs, RecordsAreThoseRead, CountedAreRead, LogFromIsToldOnce, VersionIsToldOnce};
ghost use Rattle.lsm_logged.specs.Opening.{CanBeSettled};

use lsm_log::no_record_begins_another;
use lsm_log_model::records_are_found;
use lsm_manifest::images_stand_once;
use lsm_store::Store;

/// What `Logged::open` asks of a store, that it can settle the log that it reads, holds wherever a process that kept its log
/// ended without a crash, and after any crash.
pub fn logs_can_be_settled<S: Store>(_: &S)
    ensures kept { (store : S) (log : Log) (from : ℕ) → KeepsLog (S.world store) log → log.log_from ≤ from → CanBeSettled (S.world store) from }
    ensures left { (store : S) (image : Image) (from : ℕ) → Begins image (S.world store) → CanBeSettled (S.world store) from }
{}

/// Each image that a crash may leave of a store that keeps a log has the log.
pub fn images_have_logs<S: Store>(_: &S)
    ensures { ImagesHaveLogs S S.world }
{}

/// The records that an image has of a log are those that reading it finds.
pub fn records_are_those_read()
    ensures found { RecordsAreThoseRead }
    ensures counted { CountedAreRead }
{
    no_record_begins_another();
    records_are_found();
}

/// An image tells once with which version it begins, and from which number on that one reads a log.
pub fn versions_are_told_once()
    ensures from { LogFromIsToldOnce }
    ensures version { VersionIsToldOnce }
{
    images_stand_once();
}
