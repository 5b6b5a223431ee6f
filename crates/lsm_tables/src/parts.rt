// Entries in order that stand in one slice or in several.
ghost use Rattle.std.specs.Prelude.{◌≡◌, ◌≤◌, ◌<◌, ◌↔◌, ◌++◌, ◌∷◌, [], length, take, IsTrue, OnOk, OnErr, MatchOption};
ghost use Rattle.lsm_below.specs.Entries.{Entry};
ghost use Rattle.lsm_tables.specs.Parts.{in_slices};

use lsm_below::InternalValue;
use std::alloc::{AllocError, Global};
use std::marker::Model;

/// A list of entries that stands in several slices, one after the other: it lends them, and copies none.
///
/// ```text
/// let mut parts = Parts::new(alloc);
/// for block in blocks {
///     parts.push(block)?;
/// }
/// let (table, rest, held) = split_table(&parts.entries(), target);
/// let file = encode_parts(alloc, made_at, &table, held)?;
/// ```
#[derive(Drop)]
pub struct Parts<'a> {
    slices: Vec<&'a [InternalValue]>,
    len: usize,
}

impl<'a> Model for Parts<'a> {
    ghost use Rattle.std.specs.Prelude.{◌≡◌, List, length};
    ghost use Rattle.lsm_below.specs.Entries.{Entry};
    ghost use Rattle.lsm_tables.specs.Parts.{in_slices};

    ghost Value = { List Entry };

    ghost view = { λ p. in_slices p.slices.items };

    ghost invariant = { λ p. p.len ≡ length (in_slices p.slices.items) };
}

impl<'a> Parts<'a> {
    /// No entry.
    pub fn new(alloc: Global) -> Parts<'a>
        ensures { result ≡ [] }
    {
        Parts {
            slices: Vec::new(alloc),
            len: 0,
        }
    }

    /// Puts a slice after the others. Refused only for want of memory, also where there would be 2^64 entries, and then
    /// nothing changes.
    pub fn push(&mut self, slice: &'a [InternalValue]) -> Result<(), AllocError>
        ensures ok { OnOk result (self.new ≡ self.old ++ slice.now) }
        ensures err { OnErr result (self.new ≡ self.old) }
    {
        let Some(len) = self.len.checked_add(slice.len()) else {
            return Err(AllocError);
        };
        self.slices.push(slice)?;
        self.len = len;
        Ok(())
    }

    /// The entries.
    pub fn entries(&self) -> Entries<'_>
        ensures { result ≡ self.now }
    {
        Entries {
            first: &[],
            later: &self.slices,
            len: self.len,
        }
    }
}

/// Entries in order that stand in one slice or in several. It borrows them, and is cut in constant time.
#[derive(Drop)]
pub struct Entries<'a> {
    first: &'a [InternalValue],
    later: &'a [&'a [InternalValue]],
    len: usize,
}

impl<'a> Model for Entries<'a> {
    ghost use Rattle.std.specs.Prelude.{◌≤◌, ◌++◌, List, length, take};
    ghost use Rattle.lsm_below.specs.Entries.{Entry};
    ghost use Rattle.lsm_tables.specs.Parts.{in_slices};

    ghost Value = { List Entry };

    ghost view = { λ e. take e.len (e.first.now ++ in_slices e.later.now) };

    ghost invariant = { λ e. e.len ≤ length (e.first.now ++ in_slices e.later.now) };
}

impl<'a> Entries<'a> {
    /// Those of one slice.
    pub fn of(slice: &'a [InternalValue]) -> Entries<'a>
        ensures { result ≡ slice.now }
    {
        Entries {
            first: slice,
            later: &[],
            len: slice.len(),
        }
    }

    /// How many there are.
    pub fn len(&self) -> usize
        ensures { result ≡ length self.now }
    {
        self.len
    }

    /// Whether there is none.
    pub fn is_empty(&self) -> bool
        ensures { IsTrue result ↔ (self.now ≡ []) }
    {
        self.len == 0
    }

    /// The same entries once more.
    pub fn copy(&self) -> Entries<'a>
        ensures { result ≡ self.now }
    {
        Entries {
            first: self.first,
            later: self.later,
            len: self.len,
        }
    }

    /// The first so many.
    pub(crate) fn up_to(&self, len: usize) -> Entries<'a>
        requires { len ≤ length self.now }
        ensures { result ≡ take len self.now }
    {
        Entries {
            first: self.first,
            later: self.later,
            len,
        }
    }

    /// The first one, and those after it.
    pub fn split_first(&self) -> Option<(&'a InternalValue, Entries<'a>)>
        ensures { MatchOption result (self.now ≡ []) (λ p. self.now ≡ p.0.now ∷ p.1) }
    {
        if self.len == 0 {
            return None;
        }
        let (entry, first, later) = first_of(self.first, self.later)?;
        let rest = Entries {
            first,
            later,
            len: self.len - 1,
        };
        Some((entry, rest))
    }
}

/// The first entry of slices, what is left of its slice, and the slices after.
fn first_of<'a>(
    first: &'a [InternalValue],
    later: &'a [&'a [InternalValue]],
) -> Option<
    (
        &'a InternalValue,
        &'a [InternalValue],
        &'a [&'a [InternalValue]],
    ),
>
    ensures { MatchOption result
        (first.now ++ in_slices later.now ≡ [])
        (λ p. first.now ++ in_slices later.now ≡ p.0.now ∷ (p.1.now ++ in_slices p.2.now)) }
{
    if let Some((entry, rest)) = first.split_first() {
        return Some((entry, rest, later));
    }
    for at in 0..later.len() {
        if let Some((entry, rest)) = later[at].split_first() {
            return Some((entry, rest, &later[at + 1..]));
        }
    }
    None
}
