ghost use Rattle.std.specs.Prelude.{◌≡◌, ◌<◌, ◌==◌, ◌↔◌, ℕ, List, [], length, IsTrue, IfOk, IfErr};
ghost use Rattle.std.specs.Cmp.Lexicographic.{pointwise};
ghost use Rattle.std.specs.Cmp.Rules.{comparing};
ghost use Rattle.std.proofs.Common.{rules};

use std::alloc::{AllocError, Global};
use std::marker::Model;

/// Bytes that a message keeps as they are.
#[derive(Debug, Drop)]
pub struct ByteVec {
    bytes: Vec<u8>,
}

impl Model for ByteVec {
    ghost Value = { List ℕ };

    ghost view = { λ b. b.bytes.items };
}

impl PartialEq for ByteVec {
    ghost eq = { pointwise ◌==◌ };

    ghost laws = { Prim.search (comparing, rules) };

    fn eq(&self, other: &ByteVec) -> bool {
        self.bytes == other.bytes
    }
}

impl Eq for ByteVec {
    ghost laws = { Prim.search (comparing, rules) };
}

impl From<Vec<u8>> for ByteVec {
    ghost from_gives = { λ v b. b ≡ v.items };

    fn from(bytes: Vec<u8>) -> Self {
        ByteVec { bytes }
    }
}

impl ByteVec {
    /// Returns an empty `ByteVec`. Allocates nothing.
    pub fn new(alloc: Global) -> Self
        ensures { result ≡ [] }
    {
        ByteVec {
            bytes: Vec::new(alloc),
        }
    }

    /// Returns a copy of some bytes.
    ///
    /// # Errors
    ///
    /// [`AllocError`] if the allocation fails; an empty copy is never allocated.
    pub fn from_slice(alloc: Global, bytes: &[u8]) -> Result<Self, AllocError>
        ensures ok { IfOk result (λ b. b ≡ bytes.now) }
        ensures not_empty { IfErr result (λ _. 0 < length bytes.now) }
    {
        if bytes.is_empty() {
            return Ok(ByteVec::new(alloc));
        }
        Ok(ByteVec {
            bytes: Vec::from_slice(alloc, bytes)?,
        })
    }

    /// Returns the bytes.
    pub fn as_slice(&self) -> &[u8]
        ensures { result.now ≡ self.now }
    {
        self.bytes.as_slice()
    }

    /// Returns the bytes, as a vector.
    pub fn into_vec(self) -> Vec<u8>
        ensures { result.items ≡ self }
    {
        let ByteVec { bytes } = self;
        bytes
    }

    /// Returns the number of bytes.
    pub fn len(&self) -> usize
        ensures { result ≡ length self.now }
    {
        self.bytes.len()
    }

    /// Returns whether there are no bytes.
    pub fn is_empty(&self) -> bool
        ensures { IsTrue result ↔ (self.now ≡ []) }
    {
        self.bytes.is_empty()
    }
}
