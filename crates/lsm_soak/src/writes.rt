// What writers write: the same to both keys of a pair, in one batch.
use lsm_tree::{Op, UserKey};
use std::alloc::{AllocError, Global};

/// How many pairs of keys there are.
const PAIRS: u64 = 50;

/// What a writer does at a turn.
#[derive(Drop)]
pub struct Batch {
    pair: u64,
    /// None where the keys are removed.
    value: Option<String>,
}

fn name_key(alloc: Global, letter: char, pair: u64) -> Result<UserKey, AllocError> {
    let name = format!(in alloc; "{letter}{pair}")?;
    UserKey::copy_from_slice(alloc, name.as_bytes())
}

impl Batch {
    /// Sets a pair to a value that no other write has, or removes it, at each tenth turn.
    pub fn at_turn(
        alloc: Global,
        session: &str,
        caller: usize,
        turn: u64,
    ) -> Result<Batch, AllocError> {
        let value = if turn % 10 == 9 {
            None
        } else {
            Some(format!(in alloc; "{session}-{caller}-{turn}")?)
        };
        Ok(Batch {
            pair: turn % PAIRS,
            value,
        })
    }

    /// The line that is noted before it.
    pub fn line(&self, alloc: Global) -> Result<String, AllocError> {
        match &self.value {
            Some(value) => format!(in alloc; "set {} {value}\n", self.pair),
            None => format!(in alloc; "del {}\n", self.pair),
        }
    }

    fn op(&self, alloc: Global) -> Result<Op, AllocError> {
        match &self.value {
            Some(value) => Ok(Op::Set(UserKey::copy_from_slice(alloc, value.as_bytes())?)),
            None => Ok(Op::Del),
        }
    }

    pub fn ops(&self, alloc: Global) -> Result<Vec<(UserKey, Op)>, AllocError> {
        let mut ops = Vec::with_capacity(alloc, 2)?;
        ops.push((name_key(alloc, 'a', self.pair)?, self.op(alloc)?))?;
        ops.push((self.second_key(alloc)?, self.op(alloc)?))?;
        Ok(ops)
    }

    pub fn second_key(&self, alloc: Global) -> Result<UserKey, AllocError> {
        name_key(alloc, 'b', self.pair)
    }

    /// Whether this is what is read after it.
    pub fn is_read(&self, found: Option<UserKey>) -> bool {
        match (&self.value, found) {
            (Some(value), Some(found)) => found.as_slice() == value.as_bytes(),
            (None, None) => true,
            _ => false,
        }
    }
}
