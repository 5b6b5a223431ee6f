// What images stand for, and that it is opened: laws, each as the contract of a function.
ghost use Rattle.lsm_store.specs.World.{Image, Begins};
ghost use Rattle.lsm_model.specs.Journal.{Map};
ghost use Rattle.lsm_manifest.specs.Finding.{StandsForMap, IsSettled, FoundOnce, MapIsOne, OpeningFinds, FoundNumbersFit, FoundTablesShow, NamedFilesStay, UnreadNamesDontMatter};
ghost use Rattle.lsm_manifest.specs.Ready.{IsReady};

use lsm_below::plain_numbers_are_read;
use lsm_model::tables_show_above;
use lsm_store::Store;
use lsm_tables::no_image_begins_another;

/// Opening finds one list of tables in an image, which so stands for one map.
pub fn images_stand_once()
    ensures found { FoundOnce }
    ensures map { MapIsOne }
{
    no_image_begins_another();
}

/// An opening that tells the first fault of the files opens what it finds in them, and refuses it only for memory, a fault of
/// the store, or a sequence number of 2^63 or more.
pub fn opening_finds<S: Store>(_: &S)
    ensures { OpeningFinds S S.world }
{
    no_image_begins_another();
}

/// Tables that are found are numbered below 2^64, and where they stand, as the theory of crashes has it, the image stands
/// for the map that they show.
pub fn found_tables_show()
    ensures numbers { FoundNumbersFit }
    ensures shows { FoundTablesShow }
{
    tables_show_above();
}

/// Images that differ only in names that opening doesn't read stand for the same: other files don't matter.
pub fn unread_names_dont_matter()
    ensures { UnreadNamesDontMatter }
{}

/// What a crash left is settled: a store that begins with an image which stands for a map has one possible content for each
/// name that is read, is ready to be opened, and stands for that map.
pub fn crashes_settle<S: Store>(_: &S)
    ensures settled { (store : S) (image : Image) (m : Map) → StandsForMap image m → Begins image (S.world store) → IsSettled (S.world store) }
    ensures ready { (store : S) (image : Image) (m : Map) → StandsForMap image m → Begins image (S.world store) → IsReady (S.world store) }
    ensures stands { (store : S) (image : Image) (m : Map) → StandsForMap image m → Begins image (S.world store) → StandsForMap (S.world store).gives m }
{
    no_image_begins_another();
}

/// What a version names is no orphan beside it, so an opening leaves it.
pub fn named_files_stay()
    ensures { NamedFilesStay }
{
    plain_numbers_are_read();
}
