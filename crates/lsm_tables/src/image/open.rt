// The content of a table's file that grows entry by entry.
ghost use Rattle.std.specs.Prelude.{◌≡◌, ◌≤◌, ◌++◌, ◌∷◌, [], List, length, drop, IfOk, OnOk};
ghost use Rattle.lsm_below.specs.Entries.{Entry};
ghost use Rattle.lsm_tables.specs.Image.{Fits, front, image};
ghost use Rattle.lsm_tables.specs.OpenImages.{Spells};

use super::layout::FRONT_LEN;
use super::writing::{front_of, put_entry};
use lsm_below::InternalValue;
use std::alloc::{AllocError, Global};
use std::marker::Model;

/// The content of a table's file that grows entry by entry: it holds the bytes so far, and no entry.
///
/// # Examples
///
/// ```text
/// let mut image = OpenImage::new(alloc, made_at)?;
/// image.push(&entry)?;
/// let content = image.finish();
/// ```
#[derive(Drop)]
pub struct OpenImage {
    made_at: u64,
    bytes: Vec<u8>,
    count: u64,
}

impl Model for OpenImage {
    ghost use Rattle.std.specs.Prelude.{◌+◌, ◌≤◌, length};
    ghost use Rattle.lsm_tables.specs.OpenImages.{SeenOpenImage};

    ghost Value = { SeenOpenImage };

    ghost view = { λ i. record { made_at = i.made_at; bytes = i.bytes.items; count = i.count } };

    // There is room for the front, and each entry takes a byte or more.
    ghost invariant = { λ i. 20 + i.count ≤ length i.bytes.items };
}

/// Puts another front in the place of that which is there.
fn put_front(bytes: &mut [u8], made_at: u64, count: u64)
    requires { 20 ≤ length bytes.old }
    ensures { bytes.new ≡ front made_at count ++ drop 20 bytes.old }
{
    bytes[..FRONT_LEN].copy_from_slice(&front_of(made_at, count));
}

impl OpenImage {
    /// One without entries, of a file that is made at this moment (in nanoseconds). Refused only for want of memory.
    pub fn new(alloc: Global, made_at: u64) -> Result<OpenImage, AllocError>
        ensures spells { IfOk result (Spells []) }
        ensures moment { IfOk result (λ i. i.made_at ≡ made_at) }
    {
        let mut bytes = Vec::new(alloc);
        bytes.extend_from_slice(&front_of(made_at, 0))?;
        Ok(OpenImage {
            made_at,
            bytes,
            count: 0,
        })
    }

    /// How many entries it has.
    pub fn count(&self) -> u64
        ensures { result ≡ self.now.count }
    {
        self.count
    }

    /// Appends an entry. The cost is linear in its bytes. Refused only for want of memory.
    pub fn push(&mut self, entry: &InternalValue) -> Result<(), AllocError>
        requires { Fits entry.now }
        ensures spells { (es : List Entry) → Spells es self.old → OnOk result (Spells (es ++ entry.now ∷ []) self.new) }
        ensures moment { self.new.made_at ≡ self.old.made_at }
    {
        put_entry(&mut self.bytes, entry)?;
        self.count += 1;
        Ok(())
    }

    /// The content, of which nothing is copied.
    pub fn finish(self) -> Vec<u8>
        ensures { (es : List Entry) → Spells es self → result.items ≡ image self.made_at es }
    {
        let OpenImage {
            made_at,
            mut bytes,
            count,
        } = self;
        put_front(&mut bytes, made_at, count);
        bytes
    }
}
