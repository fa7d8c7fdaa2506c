//! Reference-counted bytes. A short sequence is stored inline, beside the reference count, so that it takes one
//! allocation.
ghost use Rattle.std.specs.Prelude.{◌≡◌, ◌≤◌, length, take, IfOk};

use automata_base::util::heap::block;
use std::alloc::{AllocError, Global};
use std::marker::Model;
use std::sync::Arc;

/// The size of the inline buffer, in bytes: enough for a state of up to 39 NFA states with nearby IDs.
const FEW: usize = 48;

/// The size of the reference count, in bytes.
const COUNT_SIZE: usize = 8;

/// Bytes, stored inline if there are at most `FEW`, and in a vector otherwise.
#[derive(Drop)]
struct Stored {
    len: usize,
    few: [u8; 48],
    many: Vec<u8>,
}

impl Model for Stored {
    ghost use Rattle.std.specs.Prelude.{List, ℕ};
    ghost use Rattle.automata_determinize.specs.Powersets.Shared.{stored_bytes};

    ghost Value = { List ℕ };

    ghost view = { stored_bytes };
}

impl Stored {
    /// Returns the bytes, whether they are inline or in the vector.
    fn as_slice(&self) -> &[u8]
        ensures { result.now ≡ self.now }
    {
        if self.len <= FEW {
            &self.few[..self.len]
        } else {
            self.many.as_slice()
        }
    }
}

/// Copies at most 48 bytes to the front of an array.
fn few_of(bytes: &[u8]) -> [u8; 48]
    requires { length bytes.now ≤ 48 }
    ensures { take (length bytes.now) result ≡ bytes.now }
{
    let mut few = [0; 48];
    few[..bytes.len()].copy_from_slice(bytes);
    few
}

/// Reference-counted bytes.
#[derive(Drop)]
pub struct SharedBytes {
    stored: Arc<Stored>,
}

impl Model for SharedBytes {
    ghost use Rattle.std.specs.Prelude.{List, ℕ};

    ghost Value = { List ℕ };

    ghost view = { λ s. s.stored.value };
}

impl Clone for SharedBytes {
    ghost is_clone = { λ a b. b ≡ a };

    fn clone(&self) -> Result<SharedBytes, AllocError> {
        let stored = self.stored.clone()?;
        Ok(SharedBytes { stored })
    }
}

impl SharedBytes {
    /// Copies these bytes, to be shared. The only error is out of memory.
    pub fn from_slice(alloc: Global, bytes: &[u8]) -> Result<SharedBytes, AllocError>
        ensures { IfOk result (λ s. s ≡ bytes.now) }
    {
        let len = bytes.len();
        if len <= FEW {
            let few = few_of(bytes);
            let many = Vec::new(alloc);
            let stored = Arc::new(alloc, Stored { len, few, many })?;
            return Ok(SharedBytes { stored });
        }
        let many = Vec::from_slice(alloc, bytes)?;
        let few = [0; 48];
        let stored = Arc::new(alloc, Stored { len, few, many })?;
        Ok(SharedBytes { stored })
    }

    /// Returns the memory, in bytes, of the allocations: one with the reference count and the inline bytes, and one for
    /// bytes that are not inline.
    pub fn heap_usage(&self) -> usize {
        let many = block(self.stored.many.capacity());
        many.saturating_add(block(COUNT_SIZE + size_of::<Stored>()))
    }

    /// Returns the shared bytes.
    pub fn as_slice(&self) -> &[u8]
        ensures value { result.now ≡ self.now }
    {
        self.stored.as_slice()
    }
}
