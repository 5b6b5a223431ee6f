// What an iterator over pairs returns.
ghost use Rattle.std.specs.Prelude.{◌≡◌, Some, None, Ok, Err, MatchResult, cond, Bool};
ghost use Rattle.std.specs.Fn.{FnReturnsAt};
ghost use Rattle.lsm_iter.specs.Guards.{Item, pair_of, key_of, size_of};

use crate::Error;
use lsm_below::{InternalValue, KvPair, UserKey, UserValue};
use std::marker::Model;

/// A pair, or why there is none.
pub type RangeItem = Result<KvPair, Error>;

/// What an iterator over pairs returns: a pair that is looked at as far as it is wanted.
/// Where there is none, each call returns why.
pub trait IterGuard: Drop {
    ghost use Rattle.lsm_iter.specs.Guards.{Item, key_of, size_of};

    ghost item: { Self → Item };

    /// The key.
    fn key(self) -> Result<UserKey, Error>
        ensures { result ≡ key_of (item self) };

    /// The value's bytes, at most 2^32 - 1: a longer value, which no tree takes, counts so.
    fn size(self) -> Result<u32, Error>
        ensures { result ≡ size_of (item self) };

    /// The key and the value.
    fn into_inner(self) -> RangeItem
        ensures { result ≡ item self };

    /// The key, with the value only where the key passes a test.
    fn into_inner_if<P: Fn(&UserKey) -> bool>(
        self,
        pred: P,
    ) -> Result<(UserKey, Option<UserValue>), Error>
        requires { P.IsAlwaysCallable pred }
        ensures { MatchResult (item self)
            (λ p. (passes : Bool) × FnReturnsAt P.Fn pred p.0 passes × (result ≡ Ok (p.0, cond passes (Some p.1) None)))
            (λ e. result ≡ Err e) };
}

/// A pair that an iterator found, or why it found none.
///
/// # Examples
///
/// ```text
/// for pair in tree.iter(snapshot, None)? {
///     let (key, value) = pair.into_inner()?;
/// }
/// ```
#[derive(Debug, Drop)]
pub struct Guard {
    item: RangeItem,
}

impl Model for Guard {
    ghost use Rattle.lsm_iter.specs.Guards.{Item};

    ghost Value = { Item };

    ghost view = { λ g. g.item };
}

impl Guard {
    /// A guard of this item.
    pub fn new(item: RangeItem) -> Guard
        ensures { result ≡ item }
    {
        Guard { item }
    }

    /// A guard of an entry's key and value.
    pub fn of_entry(entry: InternalValue) -> Guard
        ensures { result ≡ Ok (pair_of entry) }
    {
        Guard {
            item: Ok((entry.key.user_key, entry.value)),
        }
    }
}

impl IterGuard for Guard {
    ghost item = { λ g. g };

    fn key(self) -> Result<UserKey, Error> {
        Ok(self.item?.0)
    }

    fn size(self) -> Result<u32, Error> {
        let (_, value) = self.item?;
        Ok(u32::try_from(value.len()).unwrap_or(u32::MAX))
    }

    fn into_inner(self) -> RangeItem {
        self.item
    }

    fn into_inner_if<P: Fn(&UserKey) -> bool>(
        self,
        pred: P,
    ) -> Result<(UserKey, Option<UserValue>), Error> {
        let (key, value) = self.item?;
        if pred(&key) {
            Ok((key, Some(value)))
        } else {
            Ok((key, None))
        }
    }
}
