// Which records a store has.
ghost use Rattle.std.specs.Prelude.{◌≡◌, ◌⊎◌, ◌↔◌, ℕ, ◌++◌, map, Contains, OnOk, IfOk, IfErr, IsErrOf};
ghost use Rattle.std.specs.List.{list_any, filter_map};
ghost use Rattle.std.specs.List.Sorted.{IsStrictlyIncreasing};
ghost use Rattle.std.specs.Option.{option_to_list};
ghost use Rattle.std.specs.String.{string_bytes};
ghost use Rattle.lsm_store.specs.World.{Same, Lists};
ghost use Rattle.lsm_log.specs.LogNames.{is_refused, number_in};
ghost use Rattle.lsm_commit.specs.Stored.{CountsFaults};
ghost use Rattle.lsm_log.specs.Logs.{AreNumbers, HasBadName};

use crate::kinds::{is_refused, number_in};
use lsm_below::{Error, SeqNo, plain_numbers_are_read};
use lsm_store::{Store, StoreError};
use std::alloc::{AllocError, Global};

fn names_of<S: Store>(alloc: Global, store: &mut S) -> Result<Vec<String>, Error>
    ensures names { S.tells → IfOk result (λ v. Lists (S.world store.old).gives (map string_bytes v.items)) }
    ensures only { IfErr result (λ e. (e ≡ Error.OutOfMemory) ⊎ (e ≡ Error.Store)) }
    ensures same { S.tells → Same (S.world store.old) (S.world store.new) }
    ensures counts { CountsFaults (S.world store.old) (S.world store.new) result }
{
    match store.list(alloc) {
        Ok(names) => Ok(names),
        Err(StoreError::OutOfMemory) => Err(Error::OutOfMemory),
        Err(StoreError::Fault | StoreError::NothingDone) => Err(Error::Store),
    }
}

/// Whether a log refuses one of the names.
fn has_refused(names: &[String]) -> bool
    ensures { result ≡ list_any (λ s. is_refused (string_bytes s)) names.now }
{
    for name in names {
        if is_refused(name.as_bytes()) {
            return true;
        }
    }
    false
}

fn put_number(numbers: &mut Vec<SeqNo>, number: Option<SeqNo>) -> Result<(), AllocError>
    ensures { OnOk result (numbers.new.items ≡ numbers.old.items ++ option_to_list number) }
{
    match number {
        Some(number) => numbers.push(number)?,
        None => {}
    }
    Ok(())
}

/// The numbers of the records among names, in the order of the names.
fn numbers_of(alloc: Global, names: &[String]) -> Result<Vec<SeqNo>, AllocError>
    ensures { IfOk result (λ v. v.items ≡ filter_map (λ s. number_in (string_bytes s)) names.now) }
{
    let mut numbers = Vec::new(alloc);
    for name in names {
        put_number(&mut numbers, number_in(name.as_bytes()))?;
    }
    Ok(numbers)
}

/// The same numbers, rising.
fn rising(numbers: Vec<SeqNo>) -> Vec<SeqNo>
    ensures rises { IsStrictlyIncreasing result.items }
    ensures same { (k : ℕ) → Contains result.items k ↔ Contains numbers.items k }
{
    let mut numbers = numbers;
    numbers.sort_unstable();
    numbers.dedup();
    numbers
}

/// The numbers of the records that are there, rising. No record is read.
///
/// # Errors
///
/// `Unrecoverable` where a name in the folder `log` is none that a log gives; `OutOfMemory` where a growth was refused,
/// `Store` where a store call failed.
pub(crate) fn record_numbers<S: Store>(alloc: Global, store: &mut S) -> Result<Vec<SeqNo>, Error>
    ensures lists { S.tells → IfOk result (λ v. AreNumbers (S.world store.old).gives v.items) }
    ensures bad { S.tells → IsErrOf result Error.Unrecoverable → HasBadName (S.world store.old).gives }
    ensures only { IfErr result (λ e. ((e ≡ Error.OutOfMemory) ⊎ (e ≡ Error.Store)) ⊎ (e ≡ Error.Unrecoverable)) }
    ensures rises { IfOk result (λ v. IsStrictlyIncreasing v.items) }
    ensures same { S.tells → Same (S.world store.old) (S.world store.new) }
    ensures counts { CountsFaults (S.world store.old) (S.world store.new) result }
{
    plain_numbers_are_read();
    let names = names_of(alloc, store)?;
    if has_refused(&names) {
        return Err(Error::Unrecoverable);
    }
    let numbers = numbers_of(alloc, &names)?;
    Ok(rising(numbers))
}
