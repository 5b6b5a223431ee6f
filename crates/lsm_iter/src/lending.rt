// What lenders show, from both ends.
ghost use Rattle.std.specs.Prelude.{◌≡◌, length, option_copied};
ghost use Rattle.lsm_iter.specs.Left.{left_of, shown_list, Takes};
ghost use Rattle.lsm_iter.specs.declared.tree_iter.End.TheVariants.{Front};

use crate::End;
use crate::cursor::is_a_value;
use crate::lender::Lender;
use crate::outermost::outermost_at;
use lsm_below::InternalValue;

/// Takes the entry at this end of what lenders show.
#[inline(never)]
pub(crate) fn lend_shown<'a>(end: End, lenders: &mut [Lender<'a>]) -> Option<&'a InternalValue>
    ensures { Takes end (shown_list (left_of lenders.old)) (option_copied result) (shown_list (left_of lenders.new)) }
{
    loop {
        let Some(at) = outermost_at(end, lenders) else {
            return None;
        };
        if let Some(entry) = lenders[at].take(end) {
            return Some(entry);
        }
    }
}

/// Takes the first entry of what one lender shows: nothing is compared but with the one before.
#[inline(always)]
pub(crate) fn lend_alone<'a>(lenders: &mut [Lender<'a>]) -> Option<&'a InternalValue>
    requires { length lenders.old ≡ 1 }
    ensures { Takes Front (shown_list (left_of lenders.old)) (option_copied result) (shown_list (left_of lenders.new)) }
{
    loop {
        let Some(entry) = lenders[0].take_front() else {
            return None;
        };
        if is_a_value(entry) {
            return Some(entry);
        }
    }
}

/// Takes the first entry of what lenders show.
#[inline(always)]
pub(crate) fn lend_first<'a>(lenders: &mut [Lender<'a>]) -> Option<&'a InternalValue>
    ensures { Takes Front (shown_list (left_of lenders.old)) (option_copied result) (shown_list (left_of lenders.new)) }
{
    if lenders.len() == 1 {
        return lend_alone(lenders);
    }
    lend_shown(End::Front, lenders)
}
