// What a read asks, and what it answers.
ghost use Rattle.std.specs.Prelude.{◌≡◌, IfOk, IfErr};

use lsm_below::{KvPair, UserKey, UserValue};
use std::alloc::{AllocError, Global};
use std::marker::Model;
use std::ops::Bound;
use std::sync::Arc;

/// Keys with their values, seen as a list. Copies share the one list.
///
/// # Examples
///
/// ```text
/// for (key, value) in pairs.as_slice() { .. }
/// ```
#[derive(Drop, Debug)]
pub struct KvPairs {
    list: Arc<Vec<KvPair>>,
}

impl Model for KvPairs {
    ghost use Rattle.std.specs.Prelude.{List, ℕ};
    ghost use Rattle.std.specs.Arc.{arc_value};

    ghost Value = { List (List ℕ × List ℕ) };

    ghost view = { λ p. (arc_value p.list).items };
}

impl KvPairs {
    /// These pairs. Refused only for want of memory.
    pub fn new(alloc: Global, list: Vec<KvPair>) -> Result<KvPairs, AllocError>
        ensures { IfOk result (λ pairs. pairs ≡ list.items) }
    {
        Ok(KvPairs {
            list: Arc::new(alloc, list)?,
        })
    }

    /// The pairs, as they were passed. Where a copy shares them they are given back.
    pub fn into_vec(self) -> Result<Vec<KvPair>, KvPairs>
        ensures ok { IfOk result (λ list. list.items ≡ self) }
        ensures err { IfErr result (λ back. back ≡ self) }
    {
        match Arc::try_unwrap(self.list) {
            Ok(list) => Ok(list),
            Err(list) => Err(KvPairs { list }),
        }
    }

    /// The pairs, as a slice.
    pub fn as_slice(&self) -> &[KvPair]
        ensures { result.now ≡ self.now }
    {
        self.list.as_slice()
    }

    /// Another handle on the same list.
    pub fn copy(&self) -> Result<KvPairs, AllocError>
        ensures { IfOk result (λ pairs. pairs ≡ self.now) }
    {
        Ok(KvPairs {
            list: Arc::try_clone(&self.list)?,
        })
    }
}

/// A bound of keys, seen as the bound. Copies share it, and it stands apart, so that a question about one key is small.
///
/// ```text
/// let low = KeyBound::new(alloc, Bound::Included(key))?;
/// ```
#[derive(Drop, Debug)]
pub struct KeyBound {
    bound: Arc<Bound<UserKey>>,
}

impl Model for KeyBound {
    ghost use Rattle.std.specs.Prelude.{List, ℕ};
    ghost use Rattle.std.specs.Arc.{arc_value};
    ghost use Rattle.std.specs.declared.ops.Bound.{Bound};

    ghost Value = { Bound (List ℕ) };

    ghost view = { λ b. arc_value b.bound };
}

impl KeyBound {
    /// This bound. Refused only for want of memory.
    pub fn new(alloc: Global, bound: Bound<UserKey>) -> Result<KeyBound, AllocError>
        ensures { IfOk result (λ shared. shared ≡ bound) }
    {
        Ok(KeyBound {
            bound: Arc::new(alloc, bound)?,
        })
    }

    /// The bound.
    pub fn as_bound(&self) -> &Bound<UserKey>
        ensures { result.now ≡ self.now }
    {
        &self.bound
    }

    /// Another handle on the same bound.
    pub fn copy(&self) -> Result<KeyBound, AllocError>
        ensures { IfOk result (λ bound. bound ≡ self.now) }
    {
        Ok(KeyBound {
            bound: Arc::try_clone(&self.bound)?,
        })
    }
}

/// What a read asks.
///
/// ```text
/// Question::Between(KeyBound::new(alloc, Bound::Included(low))?, KeyBound::new(alloc, Bound::Unbounded)?)
/// ```
#[derive(Drop, Debug)]
pub enum Question {
    /// The value of a key.
    Get(UserKey),
    /// The keys in these bounds, with their values.
    Between(KeyBound, KeyBound),
    /// The keys that begin so, with their values.
    Prefix(UserKey),
}

/// What a read answers.
///
/// ```text
/// Answer::Found(None)
/// ```
#[derive(Drop, Debug)]
pub enum Answer {
    /// Of a key: its value, or None.
    Found(Option<UserValue>),
    /// Of bounds or a prefix: the pairs by rising key.
    Pairs(KvPairs),
}
