// The table that a merge is writing.
ghost use Rattle.std.specs.Prelude.{◌≡◌, ◌↔◌, ℕ, ◌++◌, ◌∷◌, [], List, length, IsTrue, IfOk, IfErr, OnOk};
ghost use Rattle.lsm_below.specs.Entries.{Entry};
ghost use Rattle.lsm_tables.specs.Image.{Fits, image};
ghost use Rattle.lsm_compaction.specs.OpenTables.{IsOpenWith, is_end};

use bytes::Bytes;
use lsm_below::{AsEntry, Error};
use lsm_tables::{OpenImage, size_of_entry};
use std::alloc::{AllocError, Global};

/// The table that is open: its file's content so far, the bytes that its entries take there, and the last one of them.
#[derive(Drop)]
pub(crate) struct OpenTable<I: AsEntry> {
    image: OpenImage,
    held: u64,
    last: Option<I>,
}

impl<I: AsEntry> OpenTable<I> {
    /// One without entries, made at this moment (in nanoseconds).
    pub(crate) fn new(alloc: Global, made_at: u64) -> Result<OpenTable<I>, AllocError>
        ensures { IfOk result (IsOpenWith I.shows made_at []) }
    {
        Ok(OpenTable {
            image: OpenImage::new(alloc, made_at)?,
            held: 0,
            last: None,
        })
    }

    /// Whether it ends before an entry: it has the target, and none of its entries has the entry's key.
    pub(crate) fn ends_before(&self, target: u64, entry: &I) -> bool
        ensures { (made_at : ℕ) (es : List Entry) → IsOpenWith I.shows made_at es self.now → result ≡ is_end target self.now.held es (I.shows entry.now) }
    {
        match &self.last {
            None => false,
            Some(last) => self.held >= target && !last.has_same_key(entry),
        }
    }

    /// How many entries it has.
    pub(crate) fn count(&self) -> u64
        ensures { (made_at : ℕ) (es : List Entry) → IsOpenWith I.shows made_at es self.now → result ≡ length es }
    {
        self.image.count()
    }

    /// Whether it has no entries.
    pub(crate) fn is_empty(&self) -> bool
        ensures { (made_at : ℕ) (es : List Entry) → IsOpenWith I.shows made_at es self.now → IsTrue result ↔ (es ≡ []) }
    {
        self.last.is_none()
    }

    /// Appends an entry.
    pub(crate) fn push(&mut self, entry: I) -> Result<(), AllocError>
        requires { Fits (I.shows entry) }
        ensures { (made_at : ℕ) (es : List Entry) → IsOpenWith I.shows made_at es self.old → OnOk result (IsOpenWith I.shows made_at (es ++ I.shows entry ∷ []) self.new) }
    {
        self.image.push(entry.as_entry())?;
        self.held = self.held.saturating_add(size_of_entry(entry.as_entry()));
        self.last = Some(entry);
        Ok(())
    }

    /// The content of its file.
    pub(crate) fn into_file(self) -> Result<Bytes, Error>
        ensures ok { (made_at : ℕ) (es : List Entry) → IsOpenWith I.shows made_at es self → IfOk result (λ file. file ≡ image made_at es) }
        ensures memory { IfErr result (λ e. e ≡ Error.OutOfMemory) }
    {
        Ok(Bytes::from_vec(self.image.finish())?)
    }
}
