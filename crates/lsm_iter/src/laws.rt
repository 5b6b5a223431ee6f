// What the list of what is shown is in the theory's words, each law as the contract of a function.
ghost use Rattle.lsm_iter.specs.Answers.{ShownIsView, ShownIsAnswer, ShownIsPrefixAnswer, ShownIsOverlaid};

use lsm_model::{maps_are_read, parts_are_whole};

/// The list of what a snapshot shows is that of its view, and with an index that of the view under the index.
pub fn shown_is_the_view()
    ensures view { ShownIsView }
    ensures answer { ShownIsAnswer }
    ensures prefix_answer { ShownIsPrefixAnswer }
    ensures overlaid { ShownIsOverlaid }
{
    maps_are_read();
    parts_are_whole();
}
