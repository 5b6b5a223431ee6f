// Items that move to two vectors, with one more at a place.
ghost use Rattle.std.specs.Prelude.{◌≡◌, ◌+◌, ◌-◌, ◌<◌, ◌≤◌, [], ◌∷◌, ◌++◌, length, min, vec_len, vec_capacity};
ghost use Rattle.std.specs.List.{insert};
ghost use Rattle.std.specs.Vec.Iter.{into_iter_items, into_iter_len};
ghost use Rattle.lsm_memtable.specs.Blocks.{AreDealt};

use std::vec::IntoIter;

/// Appends an item to the lower vector up to a length, else to the upper one. There is room.
fn deal<T: Drop>(lower: &mut Vec<T>, keep: usize, upper: &mut Vec<T>, item: T)
    requires dealt { AreDealt keep lower.old.items upper.old.items }
    requires lower_room { keep ≤ vec_capacity lower.old }
    requires upper_room { vec_len lower.old + vec_len upper.old < keep + vec_capacity upper.old }
    ensures items { lower.new.items ++ upper.new.items ≡ (lower.old.items ++ upper.old.items) ++ item ∷ [] }
    ensures dealt { AreDealt keep lower.new.items upper.new.items }
    ensures len { vec_len lower.new + vec_len upper.new ≡ vec_len lower.old + vec_len upper.old + 1 }
    ensures lower_room { vec_capacity lower.old ≤ vec_capacity lower.new }
    ensures upper_room { vec_capacity upper.old ≤ vec_capacity upper.new }
{
    if lower.len() < keep {
        lower.push(item).unwrap();
    } else {
        upper.push(item).unwrap();
    }
}

/// Deals so many items, the next ones. There is room.
fn deal_some<T: Drop>(
    from: &mut IntoIter<T>,
    count: usize,
    lower: &mut Vec<T>,
    keep: usize,
    upper: &mut Vec<T>,
)
    requires count { count ≤ into_iter_len from.old }
    requires dealt { AreDealt keep lower.old.items upper.old.items }
    requires lower_room { keep ≤ vec_capacity lower.old }
    requires upper_room { vec_len lower.old + vec_len upper.old + count ≤ keep + vec_capacity upper.old }
    ensures items { (lower.new.items ++ upper.new.items) ++ into_iter_items from.new ≡ (lower.old.items ++ upper.old.items) ++ into_iter_items from.old }
    ensures left { into_iter_len from.new + count ≡ into_iter_len from.old }
    ensures dealt { AreDealt keep lower.new.items upper.new.items }
    ensures len { vec_len lower.new + vec_len upper.new ≡ vec_len lower.old + vec_len upper.old + count }
    ensures lower_room { vec_capacity lower.old ≤ vec_capacity lower.new }
    ensures upper_room { vec_capacity upper.old ≤ vec_capacity upper.new }
{
    for _ in 0..count {
        let Some(item) = from.next() else {
            unreachable!()
        };
        deal(lower, keep, upper, item);
    }
}

/// Moves items to two empty vectors, with one more at a place: the first ones to the lower vector, up to a
/// length, the rest to the upper one. Each moves once. There is room.
pub(crate) fn spread<T: Drop>(
    items: Vec<T>,
    place: usize,
    item: T,
    lower: &mut Vec<T>,
    keep: usize,
    upper: &mut Vec<T>,
)
    requires place { place ≤ length items.items }
    requires lower_empty { lower.old.items ≡ [] }
    requires upper_empty { upper.old.items ≡ [] }
    requires lower_room { keep ≤ vec_capacity lower.old }
    requires upper_room { vec_len items + 1 ≤ keep + vec_capacity upper.old }
    ensures items { lower.new.items ++ upper.new.items ≡ insert items.items place item }
    ensures len { length lower.new.items ≡ min keep (length items.items + 1) }
{
    let mut from = items.into_iter();
    let behind = from.len() - place;
    deal_some(&mut from, place, lower, keep, upper);
    deal(lower, keep, upper, item);
    deal_some(&mut from, behind, lower, keep, upper);
}
