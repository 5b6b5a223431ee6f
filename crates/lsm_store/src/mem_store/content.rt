// A content that a store in memory holds.
ghost use Rattle.std.specs.Prelude.{◌≡◌, [], IfOk};

use bytes::Bytes;
use std::alloc::{AllocError, Global};
use std::marker::Model;

/// Where the bytes are.
#[derive(Drop)]
enum Place {
    Own(Vec<u8>),
    /// Shared with who wrote them.
    Shared(Bytes),
}

/// A content: the store's own, or one that it shares with who wrote it.
#[derive(Drop)]
pub struct Content(Place);

impl Model for Content {
    ghost use Rattle.std.specs.Prelude.{ℕ, List};
    ghost use Rattle.lsm_store.specs.Held.{bytes_of};

    ghost Value = { List ℕ };

    ghost view = { λ c. bytes_of c.0 };
}

impl Default for Content {
    ghost is_default = { λ c. c ≡ [] };

    fn default() -> Content {
        Content(Place::Shared(Bytes::new()))
    }
}

impl Content {
    /// A copy of these bytes.
    pub fn copied(alloc: Global, bytes: &[u8]) -> Result<Content, AllocError>
        ensures { IfOk result (λ content. content ≡ bytes.now) }
    {
        Ok(Content(Place::Own(bytes.to_vec(alloc)?)))
    }

    /// These bytes, shared.
    pub fn shared(bytes: &Bytes) -> Result<Content, AllocError>
        ensures { IfOk result (λ content. content ≡ bytes.now) }
    {
        Ok(Content(Place::Shared(bytes.clone()?)))
    }

    /// Its bytes.
    pub fn as_slice(&self) -> &[u8]
        ensures { result.now ≡ self.now }
    {
        match &self.0 {
            Place::Own(bytes) => bytes.as_slice(),
            Place::Shared(bytes) => bytes.as_slice(),
        }
    }
}
