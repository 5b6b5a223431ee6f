// What opening asks of a store, and what it leaves of it: laws, each as the contract of a function.
ghost use Rattle.lsm_manifest.specs.Ready.{ReadyKeepsNamed, ReadyHasGoodNames, SettledIsReady, OpeningLeavesRead, OpenedLeavesRead};

use lsm_below::plain_numbers_are_read;
use lsm_store::Store;
use lsm_tables::no_image_begins_another;

/// A store is ready to be opened where the names that are read have one possible content each, as after a crash; whatever a
/// crash leaves of it has then the tables that reads find.
pub fn settled_stores_are_ready<S: Store>(_: &S)
    ensures { SettledIsReady S S.world }
{
    no_image_begins_another();
}

/// Of the files that `current` leads to a ready store never loses one, and it never has a name that opening refuses.
pub fn ready_stores_keep_what_is_named<S: Store>(_: &S)
    ensures named { S.tells → ReadyKeepsNamed S S.world }
    ensures good { S.tells → ReadyHasGoodNames S S.world }
{}

/// While a ready store is opened a crash leaves what it could before, or the tables that were read; after an Ok these
/// alone; and whatever the opening answers, the store is ready to be opened again.
pub fn openings_leave_what_was_read<S: Store>(_: &S)
    ensures meanwhile { S.tells → OpeningLeavesRead S S.world }
    ensures opened { S.tells → OpenedLeavesRead S S.world }
{
    plain_numbers_are_read();
    no_image_begins_another();
}
