//! Powerset states as shared encoded bytes.
ghost use Rattle.std.specs.Prelude.{◌≡◌, ◌≤◌, ◌<◌, [], IfOk, OnOk, IsTrue, ◌↔◌, length, slice_index};
ghost use Rattle.std.specs.Prelude.{vec_capacity, IfSome};
ghost use Rattle.automata_base.specs.Lists.{Distinct};
ghost use Rattle.automata_determinize.specs.Powersets.Code.{code, decoded, IsCode};
ghost use Rattle.automata_base.specs.Powersets.Powerset.{Powerset, IsPowerset, cost};
ghost use Rattle.automata_base.specs.Nfas.KeptClosure.{IsRestCode};
ghost use Rattle.automata_determinize.specs.Powersets.Parts.{powerset_of};
ghost use Rattle.automata_determinize.specs.Paths.Starts.{IsOf};

use crate::determinize::ids::{Ids, are_below, read_ids};
use crate::determinize::read::{
    ids_in, number_count, pattern_at, pattern_count, read_patterns, u32_at,
};
use crate::determinize::shared::SharedBytes;
use crate::determinize::valid::are_distinct;
use crate::determinize::write::push_state;
use automata_base::nfa::thompson::NFA;
use automata_base::nfa::thompson::kept::KeptClosure;
use automata_base::util::heap::array;
use automata_base::util::primitives::{PatternID, StateID, see_patterns};
use std::alloc::{AllocError, Global};
use std::hash::{Hash, Hasher};
use std::marker::Model;

/// The six parts of a powerset state.
#[derive(Debug)]
pub struct Parts {
    /// The NFA states, in order of preference.
    pub nfa: Vec<StateID>,
    /// The patterns that match, delayed by one byte.
    pub patterns: Vec<PatternID>,
    /// The looks that are known to hold, as the bits of a `LookSet`.
    pub known: u32,
    /// The looks that the NFA states test, as the bits of a `LookSet`.
    pub needed: u32,
    /// Whether the state is after a word byte.
    pub word: bool,
    /// Whether the state is halfway through a CRLF.
    pub half: bool,
}

// An owner drops this with one call, so that its proof has no step for each field.
impl Drop for Parts {
    fn drop(self) {
        let Self {
            nfa: _nfa,
            patterns: _patterns,
            known: _known,
            needed: _needed,
            word: _word,
            half: _half,
        } = self;
    }
}

impl Parts {
    /// Whether no pattern repeats in the parts.
    pub fn is_without_repeats(&self) -> bool
        ensures { IsTrue result ↔ Distinct self.now.patterns.items }
    {
        are_distinct(&self.patterns)
    }

    /// Returns the memory, in bytes, that the two lists take from the allocator.
    pub fn heap_usage(&self) -> usize {
        array(self.nfa.capacity(), 4).saturating_add(array(self.patterns.capacity(), 4))
    }

    /// Returns empty parts with room for as many states and patterns as these.
    pub fn emptied(&self, alloc: Global) -> Result<Parts, AllocError>
        ensures empty { IfOk result (λ parts. (parts.nfa.items ≡ []) × (parts.patterns.items ≡ [])) }
        ensures nfa { IfOk result (λ parts. vec_capacity self.now.nfa ≤ vec_capacity parts.nfa) }
        ensures patterns { IfOk result (λ parts. vec_capacity self.now.patterns ≤ vec_capacity parts.patterns) }
    {
        Ok(Parts {
            nfa: Vec::with_capacity(alloc, self.nfa.capacity())?,
            patterns: Vec::with_capacity(alloc, self.patterns.capacity())?,
            known: 0,
            needed: 0,
            word: false,
            half: false,
        })
    }

    /// Sets `out` to the encoding of the state of these parts. The call allocates nothing if `out` has room.
    pub fn write(&self, out: &mut Vec<u8>) -> Result<(), AllocError>
        requires { Distinct self.now.patterns.items }
        ensures bytes { OnOk result (out.new.items ≡ code (powerset_of self.now)) }
        ensures code { OnOk result (IsCode out.new.items) }
        ensures state { OnOk result (decoded out.new.items ≡ powerset_of self.now) }
    {
        self.write_with(None, out)
    }

    /// Sets `out` to the encoding of the state of these parts. If a kept closure is given and the NFA states contain
    /// what is kept of it, the closure's bytes are copied.
    #[inline(always)]
    pub(crate) fn write_with(
        &self,
        closure: Option<&KeptClosure>,
        out: &mut Vec<u8>,
    ) -> Result<(), AllocError>
        requires distinct { Distinct self.now.patterns.items }
        requires closure { IfSome closure (λ c. IsRestCode c.now.kept.items c.now.code.items) }
        ensures bytes { OnOk result (out.new.items ≡ code (powerset_of self.now)) }
        ensures code { OnOk result (IsCode out.new.items) }
        ensures state { OnOk result (decoded out.new.items ≡ powerset_of self.now) }
    {
        see_patterns(&self.patterns);
        out.clear();
        push_state(
            out,
            closure,
            &self.nfa,
            &self.patterns,
            self.known,
            self.needed,
            self.word,
            self.half,
        )?;
        Ok(())
    }
}

/// A powerset state as shared encoded bytes. Contracts see the state, not its bytes.
pub struct State {
    bytes: SharedBytes,
}

// An owner drops this with one call, so that its proof has no step for each field.
impl Drop for State {
    fn drop(self) {
        let Self { bytes: _bytes } = self;
    }
}

impl Model for State {
    ghost use Rattle.automata_determinize.specs.Powersets.Code.{decoded, IsCode};
    ghost use Rattle.automata_base.specs.Powersets.Powerset.{Powerset};

    ghost Value = { Powerset };

    ghost view = { λ s. decoded s.bytes };

    ghost invariant = { λ s. IsCode s.bytes };
}

impl PartialEq for State {
    ghost use Rattle.std.specs.Cmp.{partial_equiv_from_equiv, decided};
    ghost use Rattle.automata_determinize.specs.Powersets.Equal.{powerset_eq, powerset_eq-Decides};

    ghost eq = { powerset_eq };

    ghost laws = { partial_equiv_from_equiv (decided powerset_eq powerset_eq-Decides) };

    fn eq(&self, other: &State) -> bool {
        self.bytes.as_slice() == other.bytes.as_slice()
    }
}

impl Eq for State {
    ghost use Rattle.std.specs.Cmp.{decided};
    ghost use Rattle.automata_determinize.specs.Powersets.Equal.{powerset_eq, powerset_eq-Decides};

    ghost laws = { decided powerset_eq powerset_eq-Decides };
}

impl Hash for State {
    ghost use Rattle.std.specs.Hash.{same_Alike};
    ghost use Rattle.automata_determinize.specs.Powersets.Equal.{powerset_hash, powerset_eq-Decides};

    ghost hash_input = { powerset_hash };

    ghost respects_eq = { (same_Alike powerset_hash powerset_eq-Decides).fed };

    fn hash<H: Hasher>(&self, state: &mut H) {
        state.write(self.bytes.as_slice());
    }
}

impl Clone for State {
    ghost is_clone = { λ a b. b ≡ a };

    fn clone(&self) -> Result<State, AllocError> {
        let bytes = self.bytes.clone()?;
        Ok(State { bytes })
    }
}

impl State {
    ghost use Rattle.automata_determinize.specs.Powersets.Parts.{powerset_of};

    /// Returns the state of these parts, in which no pattern may repeat; `Parts::is_without_repeats` tests that. The
    /// only error is out of memory.
    pub fn encode(alloc: Global, parts: &Parts) -> Result<State, AllocError>
        requires { Distinct parts.now.patterns.items }
        ensures { IfOk result (λ s. s ≡ powerset_of parts.now) }
    {
        let mut bytes = Vec::new(alloc);
        parts.write(&mut bytes)?;
        let bytes = SharedBytes::from_slice(alloc, &bytes)?;
        Ok(State { bytes })
    }

    /// Returns the state that these bytes encode, as `Parts::write` writes them.
    pub fn from_bytes(alloc: Global, bytes: &[u8]) -> Result<State, AllocError>
        requires { IsCode bytes.now }
        ensures { IfOk result (λ s. s ≡ decoded bytes.now) }
    {
        let bytes = SharedBytes::from_slice(alloc, bytes)?;
        Ok(State { bytes })
    }

    /// Returns the encoded bytes of the state, shared with it.
    pub(crate) fn shared_bytes(&self) -> Result<SharedBytes, AllocError>
        ensures code { IfOk result (λ bytes. IsCode bytes) }
        ensures state { IfOk result (λ bytes. decoded bytes ≡ self.now) }
    {
        self.bytes.clone()
    }

    /// Returns the encoded bytes of the state. The call allocates nothing.
    pub fn as_bytes(&self) -> &[u8]
        ensures bytes { result.now ≡ code self.now }
        ensures state { IsPowerset self.now }
        ensures cost { length result.now ≤ cost self.now }
    {
        self.bytes.as_slice()
    }

    /// Returns the memory, in bytes, of the state's allocations, which its clones share.
    pub fn heap_usage(&self) -> usize {
        self.bytes.heap_usage()
    }

    /// Returns an iterator over the NFA states of the state, in order of preference. The call allocates nothing.
    pub fn nfa(&self) -> Ids<'_>
        ensures { result ≡ self.now.nfa }
    {
        Ids::new(ids_in(self.bytes.as_slice()))
    }

    /// Returns the number of NFA states of the state. The call counts them without decoding them.
    pub fn nfa_len(&self) -> usize
        ensures { result ≡ length self.now.nfa }
    {
        number_count(ids_in(self.bytes.as_slice()))
    }

    /// Returns the number of patterns that match in the state.
    pub fn match_len(&self) -> usize
        ensures { result ≡ length self.now.patterns }
    {
        pattern_count(self.bytes.as_slice())
    }

    /// Returns the matching pattern at an index below `match_len`.
    pub fn match_pattern(&self, index: usize) -> PatternID
        requires { index < length self.now.patterns }
        ensures { result ≡ slice_index self.now.patterns index }
    {
        pattern_at(self.bytes.as_slice(), index)
    }

    /// Returns the looks that are known to hold, as the bits of a `LookSet`.
    pub fn known(&self) -> u32
        ensures { result ≡ self.now.known }
    {
        u32_at(self.bytes.as_slice(), 1)
    }

    /// Returns the looks that the NFA states test, as the bits of a `LookSet`.
    pub fn needed(&self) -> u32
        ensures { result ≡ self.now.needed }
    {
        u32_at(self.bytes.as_slice(), 5)
    }

    /// Whether the state is after a word byte.
    pub fn word(&self) -> bool
        ensures { result ≡ self.now.word }
    {
        self.bytes.as_slice()[0] / 4 % 2 == 1
    }

    /// Whether the state is halfway through a CRLF.
    pub fn half(&self) -> bool
        ensures { result ≡ self.now.half }
    {
        self.bytes.as_slice()[0] / 8 % 2 == 1
    }

    /// Whether all NFA states of the state are states of this NFA. The call allocates nothing.
    pub fn is_of(&self, nfa: &NFA) -> bool
        ensures { IsTrue result ↔ IsOf nfa.now self.now }
    {
        let len = nfa.states().len();
        are_below(self.nfa(), len)
    }

    /// Sets the parts to those of the state. The call allocates nothing if the lists have room.
    pub fn read(&self, parts: &mut Parts) -> Result<(), AllocError>
        ensures ok { OnOk result (powerset_of parts.new ≡ self.now) }
    {
        parts.known = self.known();
        parts.needed = self.needed();
        parts.word = self.word();
        parts.half = self.half();
        read_patterns(self.bytes.as_slice(), &mut parts.patterns)?;
        read_ids(self.nfa(), &mut parts.nfa)
    }

    /// Returns the six parts of the state. The only error is out of memory.
    pub fn decode(&self, alloc: Global) -> Result<Parts, AllocError>
        ensures { IfOk result (λ parts. powerset_of parts ≡ self.now) }
    {
        let mut parts = Parts {
            nfa: Vec::new(alloc),
            patterns: Vec::new(alloc),
            known: 0,
            needed: 0,
            word: false,
            half: false,
        };
        self.read(&mut parts)?;
        Ok(parts)
    }
}
