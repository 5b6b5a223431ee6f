// What a store in memory holds of one name.
ghost use Rattle.std.specs.Prelude.{◌≡◌, [], ◌∷◌, Some, OnOk, OnErr, IfOk, option_copied, true, false, IsTrue, ◌↔◌, IsSome};
ghost use Rattle.std.specs.List.{list_any};
ghost use Rattle.std.specs.Str.{bytes_eq};
ghost use Rattle.lsm_store.specs.Held.{MayHold, MayLack, fresh, nothing, written, doubted, removed, offered, settled, softened, IsWhole};

use super::content::Content;
use smallvec::SmallVec;
use std::alloc::{AllocError, Global};
use std::marker::Model;

/// Whether a crash may leave nothing of a name.
#[derive(Clone, Copy, Debug, PartialEq, Eq)]
pub enum Absence {
    Never,
    /// If it is picked.
    Possible,
    /// Unless something else is picked.
    Usual,
}

impl Absence {
    fn may_lack(self) -> bool
        ensures { IsTrue result ↔ MayLack self }
    {
        match self {
            Absence::Never => false,
            Absence::Possible | Absence::Usual => true,
        }
    }

    // Something is left without a pick.
    fn softened(self) -> Absence
        ensures { result ≡ softened self }
    {
        match self {
            Absence::Usual => Absence::Possible,
            other => other,
        }
    }
}

/// The contents that a name may have, and which of them reads give.
#[derive(Drop)]
pub struct File {
    contents: SmallVec<Content, 1>,
    /// The place of what reads give. None where the name is absent.
    given: Option<usize>,
    /// The place of what they gave before the last call. None where it was absent, or is no choice any more.
    before: Option<usize>,
    absence: Absence,
    /// Whether a crash may leave any bytes.
    torn: bool,
}

impl Model for File {
    ghost use Rattle.std.specs.Prelude.{length};
    ghost use Rattle.lsm_store.specs.Held.{Held, content, IsPlace, GivesOrLacks};

    ghost Value = { Held };

    ghost view = { λ f. record { gives = content f.given f.contents.items; before = content f.before f.contents.items; contents = f.contents.items; absence = f.absence; torn = f.torn } };

    ghost invariant = { λ f. IsPlace f.given (length f.contents.items) × IsPlace f.before (length f.contents.items) × GivesOrLacks f.given f.absence };
}

fn is_among(contents: &[Content], bytes: &[u8]) -> bool
    ensures { result ≡ list_any (λ v. bytes_eq v bytes.now) contents.now }
{
    contents.iter().any(|content| content.as_slice() == bytes)
}

/// One content, which takes no memory of its own.
fn alone(alloc: Global, content: Content) -> SmallVec<Content, 1>
    ensures { result.items ≡ content ∷ [] }
{
    let mut contents = SmallVec::new(alloc);
    contents.push_reserved(content);
    contents
}

impl File {
    /// Nothing, as of a name that was never used.
    pub fn new(alloc: Global) -> File
        ensures { result ≡ nothing }
    {
        File {
            contents: SmallVec::new(alloc),
            given: None,
            before: None,
            absence: Absence::Usual,
            torn: false,
        }
    }

    /// A content that is on the disk.
    pub fn synced(alloc: Global, bytes: &[u8]) -> Result<File, AllocError>
        ensures { IfOk result (λ file. file ≡ fresh (Some bytes.now)) }
    {
        Ok(File {
            contents: alone(alloc, Content::copied(alloc, bytes)?),
            given: Some(0),
            before: None,
            absence: Absence::Never,
            torn: false,
        })
    }

    /// After a replacement of a name that was never used failed.
    pub fn offered(alloc: Global, bytes: &[u8], shown: bool) -> Result<File, AllocError>
        ensures { IfOk result (λ file. file ≡ offered shown bytes.now nothing) }
    {
        Ok(File {
            contents: alone(alloc, Content::copied(alloc, bytes)?),
            given: if shown { Some(0) } else { None },
            before: None,
            absence: Absence::Possible,
            torn: false,
        })
    }

    /// What reads give.
    pub fn content(&self) -> Option<&[u8]>
        ensures { option_copied result ≡ self.now.gives }
    {
        let at = self.given?;
        Some(self.contents.as_slice()[at].as_slice())
    }

    /// What reads gave before the last call, where that left a choice.
    pub fn before(&self) -> Option<&[u8]>
        ensures { option_copied result ≡ self.now.before }
    {
        let at = self.before?;
        Some(self.contents.as_slice()[at].as_slice())
    }

    /// Whether a crash leaves nothing, unless something else is picked.
    pub fn absence(&self) -> Absence
        ensures { result ≡ self.now.absence }
    {
        self.absence
    }

    /// Whether a crash may leave this content.
    pub fn may_leave(&self, content: Option<&[u8]>) -> bool
        ensures { IsTrue result ↔ MayHold self.now (option_copied content.entry) }
    {
        if self.torn {
            return true;
        }
        match content {
            None => self.absence.may_lack(),
            Some(bytes) => is_among(self.contents.as_slice(), bytes),
        }
    }

    /// Holds this content, which isn't on the disk. Where it is refused for memory, nothing changes.
    pub fn write(&mut self, alloc: Global, content: Content) -> Result<(), AllocError>
        ensures ok { OnOk result (self.new ≡ written content self.old) }
        ensures err { OnErr result (self.new ≡ self.old) }
    {
        let mut contents = SmallVec::with_capacity(alloc, 2)?;
        let Ok(()) = contents.push(content) else {
            unreachable!()
        };
        self.before = None;
        if let Some(at) = self.given {
            let Ok(()) = contents.push(self.contents.swap_remove(at)) else {
                unreachable!()
            };
            self.before = Some(1);
        }
        self.contents = contents;
        self.given = Some(0);
        self.absence = Absence::Usual;
        self.torn = true;
        Ok(())
    }

    /// After a write or a sync that failed, or while a sync goes on.
    pub fn doubt(&mut self)
        ensures { self.new ≡ doubted self.old }
    {
        self.before = self.given;
        self.absence = Absence::Usual;
        self.torn = true;
    }

    /// After a replacement that failed; its bytes may be what reads give.
    /// Where it is refused for memory, nothing changes.
    pub fn offer(&mut self, alloc: Global, bytes: &[u8], shown: bool) -> Result<(), AllocError>
        ensures ok { OnOk result (self.new ≡ offered shown bytes.now self.old) }
        ensures whole { IsWhole self.old }
        ensures err { OnErr result (self.new ≡ self.old) }
    {
        let at = self.contents.len();
        self.contents.push(Content::copied(alloc, bytes)?)?;
        self.before = self.given;
        if shown {
            self.given = Some(at);
        }
        self.absence = self.absence.softened();
        Ok(())
    }

    /// What reads give is on the disk, and nothing else may be left. Whether there is something.
    pub fn settle(&mut self) -> bool
        ensures answer { IsTrue result ↔ IsSome self.old.gives }
        ensures yes { result ≡ true → self.new ≡ fresh self.old.gives }
        ensures no { result ≡ false → self.new ≡ self.old }
    {
        let Some(at) = self.given else { return false };
        self.contents.as_mut_slice().swap(0, at);
        self.contents.truncate(1);
        self.given = Some(0);
        self.before = None;
        self.absence = Absence::Never;
        self.torn = false;
        true
    }

    /// What was last replaced or removed is on the disk, as reads give it. What isn't synced stays so. Whether anything
    /// is held of the name any more.
    pub fn settle_name(&mut self) -> bool
        ensures is { self.new ≡ settled self.old }
        ensures gone { result ≡ false → self.new ≡ nothing }
    {
        if self.torn || self.settle() {
            return true;
        }
        self.contents.clear();
        self.before = None;
        self.absence = Absence::Usual;
        false
    }

    /// After a removal: gone, or where it failed perhaps not. It takes no memory.
    pub fn remove(&mut self, gone: bool)
        ensures is { self.new ≡ removed gone self.old }
        ensures whole { IsWhole self.old }
    {
        self.before = self.given;
        if gone {
            self.given = None;
        }
        self.absence = Absence::Usual;
    }
}
