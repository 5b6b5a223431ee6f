// Entries that follow each other, with the heads of their keys.
ghost use Rattle.std.specs.Prelude.{◌≡◌, ◌-◌, ◌≤◌, [], ◌∷◌, ◌++◌, length, take, drop, MatchOption};
ghost use Rattle.lsm_below.specs.Heads.{AreHeads};

use crate::{Headed, InternalValue};
use std::marker::Model;

/// Entries that follow each other, with the heads of their keys.
#[derive(Drop)]
pub struct Stretch<'a> {
    entries: &'a [InternalValue],
    heads: &'a [u128],
}

impl<'a> Model for Stretch<'a> {
    ghost use Rattle.std.specs.Prelude.{List};
    ghost use Rattle.lsm_below.specs.Entries.{Entry};
    ghost use Rattle.lsm_below.specs.Heads.{AreHeads};

    ghost Value = { List Entry };

    ghost view = { λ s. s.entries.now };

    ghost invariant = { λ s. AreHeads s.heads.now s.entries.now };
}

impl<'a> Stretch<'a> {
    /// Entries with such heads.
    pub fn new(entries: &'a [InternalValue], heads: &'a [u128]) -> Stretch<'a>
        requires { AreHeads heads.now entries.now }
        ensures { result ≡ entries.now }
    {
        Stretch { entries, heads }
    }

    /// No entry.
    pub fn empty() -> Stretch<'a>
        ensures { result ≡ [] }
    {
        Stretch {
            entries: &[],
            heads: &[],
        }
    }

    /// The entries alone.
    pub fn entries(&self) -> &'a [InternalValue]
        ensures { result.now ≡ self.now }
    {
        self.entries
    }

    /// The same entries once more.
    pub fn copy(&self) -> Stretch<'a>
        ensures { result ≡ self.now }
    {
        Stretch {
            entries: self.entries,
            heads: self.heads,
        }
    }

    /// How many there are.
    pub fn len(&self) -> usize
        ensures { result ≡ length self.now }
    {
        self.entries.len()
    }

    /// The first entry.
    #[inline(always)]
    pub fn first(&self) -> Option<Headed<'a>>
        ensures { MatchOption result (self.now ≡ []) (λ h. self.now ≡ h ∷ drop 1 self.now) }
    {
        if self.entries.is_empty() {
            return None;
        }
        Some(Headed::at(self.heads, self.entries, 0))
    }

    /// The last entry.
    #[inline(always)]
    pub fn last(&self) -> Option<Headed<'a>>
        ensures { MatchOption result (self.now ≡ []) (λ h. self.now ≡ take (length self.now - 1) self.now ++ h ∷ []) }
    {
        if self.entries.is_empty() {
            return None;
        }
        let at = self.entries.len() - 1;
        Some(Headed::at(self.heads, self.entries, at))
    }

    /// Without the first so many.
    #[inline(always)]
    pub fn behind(&self, count: usize) -> Stretch<'a>
        requires { count ≤ length self.now }
        ensures { result ≡ drop count self.now }
    {
        Stretch {
            entries: &self.entries[count..],
            heads: &self.heads[count..],
        }
    }

    /// The first so many.
    #[inline(always)]
    pub fn up_to(&self, count: usize) -> Stretch<'a>
        requires { count ≤ length self.now }
        ensures { result ≡ take count self.now }
    {
        Stretch {
            entries: &self.entries[..count],
            heads: &self.heads[..count],
        }
    }

    /// The first entry, and those after it.
    pub fn split_first(&self) -> Option<(Headed<'a>, Stretch<'a>)>
        ensures { MatchOption result (self.now ≡ []) (λ p. self.now ≡ p.0 ∷ p.1) }
    {
        let headed = self.first()?;
        Some((headed, self.behind(1)))
    }

    /// The last entry, and those before it.
    pub fn split_last(&self) -> Option<(Headed<'a>, Stretch<'a>)>
        ensures { MatchOption result (self.now ≡ []) (λ p. self.now ≡ p.1 ++ p.0 ∷ []) }
    {
        let headed = self.last()?;
        Some((headed, self.up_to(self.entries.len() - 1)))
    }
}
