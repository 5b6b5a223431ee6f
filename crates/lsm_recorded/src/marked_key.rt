// Keys that are ordered by their heads first.
ghost use Rattle.std.specs.Prelude.{◌≡◌, nat_eq};
ghost use Rattle.std.proofs.Common.{rules};
ghost use Rattle.std.specs.Cmp.{partial_order_from_own_ties};
ghost use Rattle.std.specs.Cmp.Rules.{comparing};
ghost use Rattle.std.specs.Cmp.Lexicographic.{pointwise};
ghost use Rattle.std.specs.Ordering.{on, as_partial_cmp, eq_of_both};
ghost use Rattle.lsm_below.specs.Heads.{key_head};
ghost use Rattle.lsm_recorded.specs.Headed.{headed_cmp};

use lsm_below::{UserKey, head_of};
use std::cmp::Ordering;
use std::marker::Model;

/// A key beside its head, its first 16 bytes as a number, by which most comparisons are decided.
#[derive(Drop)]
pub(crate) struct MarkedKey {
    head: u128,
    key: UserKey,
}

impl Model for MarkedKey {
    ghost use Rattle.std.specs.Prelude.{◌≡◌};
    ghost use Rattle.lsm_below.specs.Heads.{key_head};
    ghost use Rattle.lsm_below.specs.Keys.{Bytes};

    ghost Value = { Bytes };

    ghost view = { λ k. k.key };

    ghost invariant = { λ k. k.head ≡ key_head k.key };
}

impl PartialEq for MarkedKey {
    ghost eq = { eq_of_both (on key_head nat_eq) (pointwise nat_eq) };

    ghost laws = { Prim.search (comparing, rules) };

    fn eq(&self, other: &Self) -> bool {
        self.head == other.head && self.key == other.key
    }
}

impl Eq for MarkedKey {
    ghost laws = { Prim.search (comparing, rules) };
}

impl PartialOrd for MarkedKey {
    ghost partial_cmp = { as_partial_cmp headed_cmp };

    ghost laws = { partial_order_from_own_ties (Prim.search (comparing, rules)) (Prim.search (comparing, rules)) };

    fn partial_cmp(&self, other: &Self) -> Option<Ordering> {
        Some(self.cmp(other))
    }
}

impl Ord for MarkedKey {
    ghost cmp = { headed_cmp };

    ghost total = { Prim.search (comparing, rules) };

    ghost matches_partial_cmp = { Prim.search (comparing, rules) };

    ghost matches_eq = { Prim.search (comparing, rules) };

    fn cmp(&self, other: &Self) -> Ordering {
        match self.head.cmp(&other.head) {
            Ordering::Equal => self.key.cmp(&other.key),
            order => order,
        }
    }
}

impl MarkedKey {
    /// The key, with its head.
    pub(crate) fn new(key: UserKey) -> MarkedKey
        ensures { result ≡ key }
    {
        let head = head_of(key.as_slice());
        MarkedKey { head, key }
    }

    /// The key.
    pub(crate) fn key(&self) -> &UserKey
        ensures { result.now ≡ self.now }
    {
        &self.key
    }

    /// The key, which is given back.
    pub(crate) fn into_key(self) -> UserKey
        ensures { result ≡ self }
    {
        self.key
    }
}
