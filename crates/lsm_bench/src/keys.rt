// The keys and values that workloads write and read, by their id.
ghost use Rattle.std.specs.Prelude.{◌≡◌, IfOk};
ghost use Rattle.lsm_bench.specs.Keys.{group_bytes, key_bytes, absent_bytes, value_bytes};

use lsm_tree::{UserKey, UserValue};
use std::alloc::{AllocError, Global};

/// How many ids share the first half of their keys.
const GROUP: u64 = 100;

/// How many ids a range goes over.
pub const RANGE: u64 = 100;

const KEY_LEN: usize = 16;

const VALUE_LEN: usize = 100;

/// The bytes of a key and its value.
pub const PAIR_LEN: u64 = 116;

/// A byte that begins a key of no id.
const ABSENT: u8 = 1;

/// The first half of the keys of an id's group.
pub fn group_of(id: u64) -> [u8; 8]
    ensures { result ≡ group_bytes id }
{
    (id / GROUP).to_be_bytes()
}

/// The key of an id. Keys are ordered as their ids are.
pub fn key_of(id: u64) -> [u8; KEY_LEN]
    ensures { result ≡ key_bytes id }
{
    let mut key = [0; KEY_LEN];
    let (group, own) = key.split_at_mut(8);
    group.copy_from_slice(&group_of(id));
    own.copy_from_slice(&id.to_be_bytes());
    key
}

/// The key of an id, but for its first byte, so that it is no id's key.
pub fn absent_key_of(id: u64) -> [u8; KEY_LEN]
    ensures { result ≡ absent_bytes id }
{
    let mut key = key_of(id);
    key[0] = ABSENT;
    key
}

/// The key of an id, to be written or to bound a range.
pub fn user_key(alloc: Global, id: u64) -> Result<UserKey, AllocError>
    ensures { IfOk result (λ key. key ≡ key_bytes id) }
{
    UserKey::copy_from_slice(alloc, &key_of(id))
}

/// The value of an id.
pub fn user_value(alloc: Global, id: u64) -> Result<UserValue, AllocError>
    ensures { IfOk result (λ value. value ≡ value_bytes id) }
{
    UserValue::copy_from_slice(alloc, &[(id % 251) as u8; VALUE_LEN])
}
