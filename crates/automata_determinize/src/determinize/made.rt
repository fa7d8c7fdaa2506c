//! The last powerset state that was made, whose NFA states need not be decoded.
ghost use Rattle.std.specs.Prelude.{◌≡◌, ◌≤◌, IfOk, IfSome, OnOk, vec_capacity};
ghost use Rattle.automata_base.specs.Lists.{Distinct};
ghost use Rattle.automata_determinize.specs.Powersets.Code.{decoded, IsCode};
ghost use Rattle.automata_base.specs.Nfas.KeptClosure.{IsRestCode};
ghost use Rattle.automata_determinize.specs.Powersets.Key.{ListsItsStates};
ghost use Rattle.automata_determinize.specs.Powersets.Parts.{powerset_of};

use crate::determinize::ids::list_ids;
use crate::determinize::state::{Parts, State};
use automata_base::nfa::thompson::kept::KeptClosure;
use automata_base::util::heap::{array, block};
use automata_base::util::primitives::StateID;
use std::alloc::{AllocError, Global};
use std::mem;

/// The initial room for the encoding of a state, in bytes.
const BYTES_ROOM: usize = 64;

/// A powerset state that was made: its encoding, and a list of its NFA states. It is boxed, and a key and the buffers
/// of determinization own it in turn.
#[derive(Drop)]
pub(crate) struct MadeState {
    pub bytes: Vec<u8>,
    pub nfa: Vec<StateID>,
}

impl MadeState {
    /// Allocates room for a powerset state of an NFA of `len` states. It has no bytes, since no state was made in it
    /// yet.
    #[inline(never)]
    pub fn room(alloc: Global, len: usize) -> Result<Box<MadeState>, AllocError>
        ensures { IfOk result (λ made. ListsItsStates made.value) }
    {
        let bytes = Vec::with_capacity(alloc, BYTES_ROOM)?;
        let nfa = Vec::with_capacity(alloc, len)?;
        let made = Box::new(alloc, MadeState { bytes, nfa })?;
        Ok(made)
    }

    /// Returns the memory, in bytes, that the boxed state takes from the allocator.
    pub fn heap_usage(&self) -> usize {
        let lists = block(self.bytes.capacity()).saturating_add(array(self.nfa.capacity(), 4));
        lists.saturating_add(block(size_of::<MadeState>()))
    }

    /// Sets the list to the NFA states of `from`, and decodes them only if the state that was made is another one. The
    /// bytes stay the same, so afterwards the list may not be the one that they encode.
    #[inline(always)]
    pub fn list_states(&mut self, from: &State) -> Result<(), AllocError>
        requires { ListsItsStates self.old }
        ensures { OnOk result (self.new.nfa.items ≡ from.now.nfa) }
    {
        if from.as_bytes() == self.bytes.as_slice() {
            return Ok(());
        }
        list_ids(from.nfa(), &mut self.nfa)
    }

    /// Sets it to the state of these parts, for an NFA of `len` states. It takes the parts' list of NFA states, and
    /// leaves its own in the parts, with room for `len`. If a kept closure is given and the list contains what is kept
    /// of it, the closure's bytes are copied. After an error it is not a valid state.
    #[inline(always)]
    pub fn set(
        &mut self,
        closure: Option<&KeptClosure>,
        parts: &mut Parts,
        len: usize,
    ) -> Result<(), AllocError>
        requires closure { IfSome closure (λ c. IsRestCode c.now.kept.items c.now.code.items) }
        requires distinct { Distinct parts.old.patterns.items }
        requires room { len ≤ vec_capacity parts.old.nfa }
        ensures code { OnOk result (IsCode self.new.bytes.items) }
        ensures state { OnOk result (decoded self.new.bytes.items ≡ powerset_of parts.old) }
        ensures list { OnOk result (ListsItsStates self.new) }
        ensures room { len ≤ vec_capacity parts.new.nfa }
        ensures patterns { parts.new.patterns ≡ parts.old.patterns }
    {
        parts.write_with(closure, &mut self.bytes)?;
        if self.nfa.capacity() < len {
            self.nfa.clear();
            self.nfa.reserve(len)?;
        }
        mem::swap(&mut self.nfa, &mut parts.nfa);
        Ok(())
    }
}
