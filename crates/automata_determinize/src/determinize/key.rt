//! Keys of maps from powerset states. A state is looked up by its bytes before these are shared.
ghost use Rattle.std.specs.Prelude.{◌≡◌, IfOk, IfSome};
ghost use Rattle.automata_determinize.specs.Powersets.Code.{decoded, IsCode};
ghost use Rattle.automata_determinize.specs.Powersets.Key.{ListsItsStates};

use crate::determinize::made::MadeState;
use crate::determinize::shared::SharedBytes;
use crate::determinize::state::State;
use std::alloc::{AllocError, Global};
use std::hash::{Hash, Hasher};
use std::marker::Model;

/// The bytes of a key.
#[derive(Drop)]
enum Bytes {
    Shared(SharedBytes),
    Own(Box<MadeState>),
}

impl Bytes {
    ghost use Rattle.automata_determinize.specs.Powersets.Key.{bytes_of};

    /// Returns the bytes, whether they are shared or not.
    fn as_slice(&self) -> &[u8]
        ensures { result.now ≡ bytes_of self.now }
    {
        match self {
            Bytes::Shared(bytes) => bytes.as_slice(),
            Bytes::Own(made) => made.bytes.as_slice(),
        }
    }
}

impl Clone for Bytes {
    ghost use Rattle.automata_determinize.specs.Powersets.Key.{bytes_of};
    ghost use Rattle.automata_determinize.specs.declared.determinize.key.Bytes.TheVariants.{Shared};

    ghost is_clone = { λ a b. b ≡ Shared (bytes_of a) };

    /// Returns a copy that shares its bytes. Bytes that are not shared are copied first.
    fn clone(&self) -> Result<Bytes, AllocError> {
        match self {
            Bytes::Shared(bytes) => {
                let bytes = bytes.clone()?;
                Ok(Bytes::Shared(bytes))
            }
            Bytes::Own(made) => {
                let alloc = *made.bytes.allocator();
                let bytes = SharedBytes::from_slice(alloc, made.bytes.as_slice())?;
                Ok(Bytes::Shared(bytes))
            }
        }
    }
}

/// A map key. In a map it shares the bytes of a state; to look up a state that was just made, it holds that state.
#[derive(Drop)]
pub struct Key {
    bytes: Bytes,
}

impl Model for Key {
    ghost use Rattle.automata_determinize.specs.Powersets.Code.{decoded};
    ghost use Rattle.automata_base.specs.Powersets.Powerset.{Powerset};
    ghost use Rattle.automata_determinize.specs.Powersets.Key.{bytes_of, IsKey};

    ghost Value = { Powerset };

    ghost view = { λ k. decoded (bytes_of k.bytes) };

    ghost invariant = { λ k. IsKey k.bytes };
}

impl PartialEq for Key {
    ghost use Rattle.std.specs.Cmp.{partial_equiv_from_equiv, decided};
    ghost use Rattle.automata_determinize.specs.Powersets.Equal.{powerset_eq, powerset_eq-Decides};

    ghost eq = { powerset_eq };

    ghost laws = { partial_equiv_from_equiv (decided powerset_eq powerset_eq-Decides) };

    fn eq(&self, other: &Key) -> bool {
        self.bytes.as_slice() == other.bytes.as_slice()
    }
}

impl Eq for Key {
    ghost use Rattle.std.specs.Cmp.{decided};
    ghost use Rattle.automata_determinize.specs.Powersets.Equal.{powerset_eq, powerset_eq-Decides};

    ghost laws = { decided powerset_eq powerset_eq-Decides };
}

impl Hash for Key {
    ghost use Rattle.std.specs.Hash.{same_Alike};
    ghost use Rattle.automata_determinize.specs.Powersets.Equal.{powerset_hash, powerset_eq-Decides};

    ghost hash_input = { powerset_hash };

    ghost respects_eq = { (same_Alike powerset_hash powerset_eq-Decides).fed };

    fn hash<H: Hasher>(&self, state: &mut H) {
        state.write(self.bytes.as_slice());
    }
}

impl Clone for Key {
    ghost is_clone = { λ a b. b ≡ a };

    fn clone(&self) -> Result<Key, AllocError> {
        let bytes = self.bytes.clone()?;
        Ok(Key { bytes })
    }
}

impl Key {
    /// Returns a key that shares these bytes.
    pub(crate) fn shared(bytes: SharedBytes) -> Key
        requires { IsCode bytes }
        ensures { result ≡ decoded bytes }
    {
        Key {
            bytes: Bytes::Shared(bytes),
        }
    }

    /// Returns a key that holds a state that was made. The call allocates nothing.
    pub(crate) fn own(made: Box<MadeState>) -> Key
        requires code { IsCode made.value.bytes.items }
        requires list { ListsItsStates made.value }
        ensures { result ≡ decoded made.value.bytes.items }
    {
        Key {
            bytes: Bytes::Own(made),
        }
    }

    /// Returns the state of the key, with a copy of its bytes.
    pub fn to_state(&self, alloc: Global) -> Result<State, AllocError>
        ensures { IfOk result (λ state. state ≡ self.now) }
    {
        State::from_bytes(alloc, self.bytes.as_slice())
    }

    /// Returns the state that the key holds, or none if it shares its bytes.
    pub(crate) fn into_made(self) -> Option<Box<MadeState>>
        ensures state { IfSome result (λ made. decoded made.value.bytes.items ≡ self) }
        ensures list { IfSome result (λ made. ListsItsStates made.value) }
    {
        match self.bytes {
            Bytes::Shared(_) => None,
            Bytes::Own(made) => Some(made),
        }
    }
}

impl State {
    /// Returns a map key for the state, which shares the state's bytes.
    pub fn key(&self) -> Result<Key, AllocError>
        ensures { IfOk result (λ key. key ≡ self.now) }
    {
        let bytes = self.shared_bytes()?;
        Ok(Key::shared(bytes))
    }
}
