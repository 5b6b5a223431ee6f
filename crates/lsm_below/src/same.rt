// Whether two entries are the same, or two lists of them.
ghost use Rattle.std.specs.Prelude.{◌≡◌, IsTrue, ◌↔◌};

use crate::{InternalValue, UserKey, ValueType};

fn same_bytes(left: &UserKey, right: &UserKey) -> bool
    ensures { IsTrue result ↔ (left.now ≡ right.now) }
{
    left == right
}

fn same_type(left: ValueType, right: ValueType) -> bool
    ensures { IsTrue result ↔ (left ≡ right) }
{
    left == right
}

/// Whether two entries are the same in all their parts. Their order, and `==` of their keys, look at the user key and
/// the sequence number alone. It compares bytes up to the first difference.
pub fn has_same_parts(left: &InternalValue, right: &InternalValue) -> bool
    ensures { IsTrue result ↔ (left.now ≡ right.now) }
{
    left.key.seqno == right.key.seqno
        && same_type(left.key.value_type, right.key.value_type)
        && same_bytes(&left.key.user_key, &right.key.user_key)
        && same_bytes(&left.value, &right.value)
}

/// Whether the entries of two lists are the same in all their parts.
pub fn have_same_parts(left: &[InternalValue], right: &[InternalValue]) -> bool
    ensures { IsTrue result ↔ (left.now ≡ right.now) }
{
    if left.len() != right.len() {
        return false;
    }
    for at in 0..left.len() {
        if !has_same_parts(&left[at], &right[at]) {
            return false;
        }
    }
    true
}
