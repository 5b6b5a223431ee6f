// A user key with its sequence number, and the order of entries.
ghost use Rattle.std.specs.Prelude.{◌≡◌, IfOk, nat_eq};
ghost use Rattle.std.proofs.Common.{rules};
ghost use Rattle.std.specs.Cmp.{partial_order_from_own_ties};
ghost use Rattle.std.specs.Cmp.Rules.{comparing};
ghost use Rattle.std.specs.Cmp.Lexicographic.{slice_cmp, pointwise};
ghost use Rattle.std.specs.Ordering.{nat_cmp, on, flip_args, then_cmp, as_partial_cmp, eq_of_both};
ghost use Rattle.lsm_below.specs.Entries.{is_tombstone_type};

use crate::{SeqNo, UserKey, ValueType};
use std::alloc::AllocError;
use std::cmp::Ordering;

/// A user key with the sequence number of its write, and what the write does.
///
/// Keys are ordered by user key, rising, and under one user key by sequence number, falling: of one key
/// the newest comes first. Two keys are equal if user key and sequence number are; the type doesn't count.
///
/// ```text
/// let old = InternalKey::new(key.clone()?, 1, ValueType::Value);
/// let new = InternalKey::new(key, 2, ValueType::Tombstone);
/// new < old
/// ```
#[derive(Drop, Clone, Debug)]
pub struct InternalKey {
    pub user_key: UserKey,
    pub seqno: SeqNo,
    pub value_type: ValueType,
}

impl PartialEq for InternalKey {
    ghost eq = { eq_of_both (on (λ k. k.user_key) (pointwise nat_eq)) (on (λ k. k.seqno) nat_eq) };

    ghost laws = { Prim.search (comparing, rules) };

    fn eq(&self, other: &Self) -> bool {
        self.user_key == other.user_key && self.seqno == other.seqno
    }
}

impl Eq for InternalKey {
    ghost laws = { Prim.search (comparing, rules) };
}

impl PartialOrd for InternalKey {
    ghost partial_cmp = { as_partial_cmp (then_cmp (on (λ k. k.user_key) (slice_cmp nat_cmp)) (flip_args (on (λ k. k.seqno) nat_cmp))) };

    ghost laws = { partial_order_from_own_ties (Prim.search (comparing, rules)) (Prim.search (comparing, rules)) };

    fn partial_cmp(&self, other: &Self) -> Option<Ordering> {
        Some(self.cmp(other))
    }
}

impl Ord for InternalKey {
    ghost cmp = { then_cmp (on (λ k. k.user_key) (slice_cmp nat_cmp)) (flip_args (on (λ k. k.seqno) nat_cmp)) };

    ghost total = { Prim.search (comparing, rules) };

    ghost matches_partial_cmp = { Prim.search (comparing, rules) };

    ghost matches_eq = { Prim.search (comparing, rules) };

    fn cmp(&self, other: &Self) -> Ordering {
        self.user_key
            .cmp(&other.user_key)
            .then(other.seqno.cmp(&self.seqno))
    }
}

impl InternalKey {
    /// A key of these parts.
    pub fn new(user_key: UserKey, seqno: SeqNo, value_type: ValueType) -> InternalKey
        ensures { result ≡ record { user_key = user_key; seqno = seqno; value_type = value_type } }
    {
        InternalKey {
            user_key,
            seqno,
            value_type,
        }
    }

    /// Whether the write removes its key, weakly or not.
    pub fn is_tombstone(&self) -> bool
        ensures { result ≡ is_tombstone_type self.now.value_type }
    {
        match self.value_type {
            ValueType::Value => false,
            ValueType::Tombstone | ValueType::WeakTombstone => true,
        }
    }

    /// A copy, which shares the bytes. Refused only for want of memory.
    pub fn copy(&self) -> Result<InternalKey, AllocError>
        ensures { IfOk result (λ copy. copy ≡ self.now) }
    {
        self.clone()
    }
}
