//! Thompson NFAs.
ghost use Rattle.std.specs.Prelude.{◌≡◌, ◌<◌, Some, slice_get, length};
ghost use Rattle.automata_base.specs.Nfas.Accepted.{IsChecked};

mod apart;
mod builder;
mod building;
pub mod checks;
pub mod closure;
mod cycles;
mod debug;
mod finishing;
mod from_states;
pub mod ids_code;
pub mod keeping;
pub mod kept;
pub mod kept_closure;
pub mod reach;
pub mod reading;
mod skipping;
mod state;
mod utf8;

use crate::nfa::thompson::kept::KeptClosure;
use crate::nfa::thompson::utf8::{Class, FORWARD, ends_at_boundaries};
use crate::util::look::{Look, LookSet};
use crate::util::primitives::{PatternID, StateID};
use crate::util::search::{Anchored, MatchKind};
pub use builder::Builder;
pub use building::BuildError;
pub use state::{Flags, NfaError, State, Transition};
use std::alloc::{AllocError, Global};
use std::marker::Model;
use std::sync::Arc;

// What the clones of an NFA share.
struct Data {
    states: Vec<State>,
    start_anchored: StateID,
    start_unanchored: StateID,
    start_pattern: Vec<StateID>,
    flags: Flags,
    looks: LookSet,
    room: usize,
    has_empty: bool,
    skips_lazily: bool,
    is_look_acyclic: bool,
}

// An owner drops this with one call, so that its proof has no step for each field.
impl Drop for Data {
    fn drop(self) {
        let Self {
            states: _states,
            start_anchored: _start_anchored,
            start_unanchored: _start_unanchored,
            start_pattern: _start_pattern,
            flags: _flags,
            looks: _looks,
            room: _room,
            has_empty: _has_empty,
            skips_lazily: _skips_lazily,
            is_look_acyclic: _is_look_acyclic,
        } = self;
    }
}

/// A Thompson NFA: its states, its starts and its flags. Clones share them and allocate nothing.
pub struct NFA {
    data: Arc<Data>,
    alloc: Global,
    keeps_unions: bool,
    kept_closure: Option<Arc<KeptClosure>>,
}

// An owner drops this with one call, so that its proof has no step for each field.
impl Drop for NFA {
    fn drop(self) {
        let Self {
            data: _data,
            alloc: _alloc,
            keeps_unions: _keeps_unions,
            kept_closure: _kept_closure,
        } = self;
    }
}

impl Model for NFA {
    ghost use Rattle.std.specs.Prelude.{◌≡◌, IfSome};
    ghost use Rattle.automata_base.specs.Nfas.Nodes.{Automaton, stack_room};
    ghost use Rattle.automata_base.specs.Nfas.Accepted.{IsChecked, IsLooks};
    ghost use Rattle.automata_base.specs.Nfas.Automata.{automaton_of, IsConsistent};
    ghost use Rattle.automata_base.specs.Nfas.KeptClosure.{IsKeptClosure};

    ghost Value = { Automaton };

    ghost view = { λ a. automaton_of a.data.value a.keeps_unions };

    ghost invariant = { λ a. IsConsistent a.data.value a.keeps_unions
        × IfSome a.kept_closure (λ kept. IsKeptClosure (automaton_of a.data.value a.keeps_unions) kept.value) };
}

impl Clone for NFA {
    ghost use Rattle.std.specs.Prelude.{◌≡◌};

    ghost is_clone = { λ a b. b ≡ a };

    fn clone(&self) -> Result<NFA, AllocError> {
        let data = self.data.clone()?;
        let kept_closure = match &self.kept_closure {
            Some(kept) => Some(kept.clone()?),
            None => None,
        };
        Ok(NFA {
            data,
            alloc: self.alloc,
            keeps_unions: self.keeps_unions,
            kept_closure,
        })
    }
}

impl NFA {
    ghost use Rattle.std.specs.Prelude.{◌≡◌, ◌<◌, ◌≤◌, ◌^◌, ◌↔◌, ◌∷◌, ℕ, true, None, Some, IfOk, IfSome, IsTrue};
    ghost use Rattle.std.specs.Prelude.{length, slice_get};
    ghost use Rattle.automata_base.specs.Powersets.Cuts.{MatchKind};
    ghost use Rattle.automata_base.specs.Retraced.Decoders.{EndsAtBoundaries, classes_below};
    ghost use Rattle.automata_base.specs.Nfas.Accepted.{IsChecked, IsLooks};
    ghost use Rattle.automata_base.specs.Nfas.Engines.{engine_of};
    ghost use Rattle.automata_base.specs.Nfas.Getters.{HasEmpty, IsAlwaysStartAnchored, SkipsLazily};
    ghost use Rattle.automata_base.specs.Haystacks.Looks.{Look};
    ghost use Rattle.automata_base.specs.Nfas.Nodes.{nfa_of, stack_room};
    ghost use Rattle.automata_base.specs.Powersets.Passes.{Occurs};
    ghost use Rattle.automata_base.specs.Paths.Paths.{IsLookAcyclic, KeepsCycles};
    ghost use Rattle.automata_base.specs.Paths.Starts.{mode_start};
    ghost use Rattle.automata_base.specs.Haystacks.Tapes.{Forward};
    ghost use Rattle.automata_base.specs.Answers.TruePairs.{KeepsUtf8};
    ghost use Rattle.automata_base.specs.Haystacks.LookSets.{truth_of};
    ghost use Rattle.automata_base.specs.Nfas.KeptClosure.{IsKeptClosure};
    ghost use Rattle.automata_base.specs.Nfas.Unions.{IsKeepingUnions};
    ghost use Rattle.automata_base.specs.Nfas.Utf8.{HasNoLook, ReadsUtf8};

    /// Returns the states, with state k at index k.
    pub fn states(&self) -> &[State]
        ensures same { result.now ≡ self.now.states }
        ensures checked { IsChecked self.now }
    {
        self.data.states.as_slice()
    }

    /// Returns the state with this ID, which must be below the number of `states`.
    pub fn state(&self, id: StateID) -> &State
        requires { id < length self.now.states }
        ensures same { slice_get self.now.states id ≡ Some result.now }
        ensures checked { IsChecked self.now }
    {
        &self.data.states[id.as_usize()]
    }

    /// Returns the state where a search in this anchored mode starts, or none for a pattern that the NFA does not have.
    pub fn start(&self, mode: Anchored) -> Option<StateID>
        ensures same { result ≡ mode_start self.now mode }
        ensures below { (q : ℕ) → result ≡ Some q → q < length self.now.states }
    {
        match mode {
            Anchored::No => Some(self.data.start_unanchored),
            Anchored::Yes => Some(self.data.start_anchored),
            Anchored::Pattern(p) => self.data.start_pattern.get(p.as_usize()).copied(),
        }
    }

    /// Returns the state where an anchored search starts.
    pub fn start_anchored(&self) -> StateID
        ensures { result ≡ self.now.start_anchored }
    {
        self.data.start_anchored
    }

    /// Returns the state where an unanchored search starts.
    pub fn start_unanchored(&self) -> StateID
        ensures { result ≡ self.now.start_unanchored }
    {
        self.data.start_unanchored
    }

    /// Returns the kept closure, with what powerset states keep of it, or none if the NFA does not keep one.
    #[inline(always)]
    pub fn kept_closure(&self) -> Option<&KeptClosure>
        ensures { IfSome result (λ kept. IsKeptClosure self.now kept.now) }
    {
        match &self.kept_closure {
            Some(kept) => Some(kept.as_ref()),
            None => None,
        }
    }

    /// Returns the number of patterns.
    pub fn pattern_len(&self) -> usize
        ensures { result ≡ length self.now.start_pattern }
    {
        self.data.start_pattern.len()
    }

    /// Returns the state where an anchored search for the pattern starts, or none for a pattern that the NFA does not
    /// have.
    pub fn start_pattern(&self, pattern: PatternID) -> Option<StateID>
        ensures { result ≡ slice_get self.now.start_pattern pattern }
    {
        self.data.start_pattern.get(pattern.as_usize()).copied()
    }

    /// Returns the states where anchored searches for each pattern start, in the order of the patterns.
    pub fn pattern_starts(&self) -> &[StateID]
        ensures same { result.now ≡ self.now.start_pattern }
        ensures few { length self.now.start_pattern ≤ 2 ^ 27 }
    {
        self.data.start_pattern.as_slice()
    }

    /// Returns this NFA, which then keeps unions in the states of its lazy DFAs if a cycle of epsilon transitions
    /// passes a look. For every NFA that this returns, searches are proved to answer by the ordered paths. The call
    /// changes nothing if there is no such cycle, and allocates nothing.
    pub fn keeping_unions(self) -> NFA
        ensures same { IsKeepingUnions self result }
        ensures keeps { KeepsCycles (nfa_of result) }
    {
        let has_look_cycle = !self.is_look_acyclic();
        let NFA {
            data,
            alloc,
            keeps_unions,
            kept_closure,
        } = self;
        let kept_closure = if has_look_cycle == keeps_unions {
            kept_closure
        } else {
            None
        };
        NFA {
            data,
            alloc,
            keeps_unions: has_look_cycle,
            kept_closure,
        }
    }

    /// Whether the NFA keeps unions in the states of its lazy DFAs: it came from `NFA::keeping_unions`, and a cycle of
    /// epsilon transitions passes a look.
    pub fn keeps_unions(&self) -> bool
        ensures { result ≡ self.now.keeps_unions }
    {
        self.keeps_unions
    }

    /// Returns the flags of the NFA.
    pub fn flags(&self) -> Flags
        ensures { result ≡ self.now.flags }
    {
        self.data.flags
    }

    /// Whether empty matches inside UTF-8 encoded characters are omitted.
    pub fn is_utf8(&self) -> bool
        ensures { result ≡ self.now.flags.utf8 }
    {
        self.data.flags.utf8
    }

    /// Whether the NFA matches reversed text.
    pub fn is_reverse(&self) -> bool
        ensures { result ≡ self.now.flags.reverse }
    {
        self.data.flags.reverse
    }

    /// Returns the looks that occur in the NFA.
    pub fn look_set_any(&self) -> LookSet
        ensures same { IsLooks self.now result }
        ensures occurs { (look : Look) → (truth_of result look ≡ true) ↔ Occurs (nfa_of self.now) look }
    {
        self.data.looks
    }

    /// Whether epsilon transitions lead from the start of some pattern to a match, with every look taken as true. So it
    /// is true if the empty match can be found; it may also be true if it cannot, because some look never holds there.
    pub fn has_empty(&self) -> bool
        ensures { IsTrue result ↔ HasEmpty self.now }
    {
        self.data.has_empty
    }

    /// Whether unanchored searches start at the anchored start.
    pub fn is_always_start_anchored(&self) -> bool
        ensures { IsTrue result ↔ IsAlwaysStartAnchored self.now }
    {
        self.data.start_unanchored == self.data.start_anchored
    }

    /// Whether unanchored searches start at the anchored start, or at a union that tries the anchored start first and
    /// then skips a byte.
    pub fn skips_lazily(&self) -> bool
        ensures { IsTrue result ↔ SkipsLazily self.now }
    {
        self.data.skips_lazily
    }

    /// Whether no cycle of epsilon transitions passes a look. If so, searches are proved to answer by the ordered
    /// paths; with such a cycle, they are if the NFA keeps unions (`NFA::keeping_unions`). The result is computed when
    /// the NFA is built.
    ///
    /// The NFA of a regular expression has such a cycle only if the expression repeats something that has a look and
    /// may match the empty string, as in `(?:\b|a)*`.
    pub fn is_look_acyclic(&self) -> bool
        ensures { IsTrue result ↔ IsLookAcyclic (nfa_of self.now) }
    {
        self.data.is_look_acyclic
    }

    /// Whether every path that is not empty, from the anchored start or the start of a pattern to a match state, reads
    /// valid UTF-8 in the forward direction. Searches for spans need this in UTF-8 mode. Outside UTF-8 mode nothing is
    /// needed, and the call returns `true`.
    ///
    /// Every look is taken as true. So `true` is right for every NFA, and `false` is right for every NFA without looks.
    /// The NFA of `\z\xFF` has no such path, since no byte follows the end of a haystack, but the call returns `false`.
    ///
    /// It takes time and memory linear in the states and their edges.
    pub fn keeps_utf8(&self) -> Result<bool, AllocError>
        ensures reads { IfOk result (λ keeps. IsTrue keeps
            ↔ (self.now.flags.utf8 ≡ true → ReadsUtf8 Forward self.now)) }
        ensures keeps { IfOk result (λ keeps. IsTrue keeps
            → (kind : MatchKind) → KeepsUtf8 Forward (engine_of self.now kind)) }
        ensures exact { IfOk result (λ keeps. HasNoLook self.now
            → (kind : MatchKind) → IsTrue keeps ↔ KeepsUtf8 Forward (engine_of self.now kind)) }
    {
        if !self.is_utf8() {
            return Ok(true);
        }
        self.reads_utf8(&FORWARD)
    }

    /// Whether match states are reached from the anchored start and the starts of the patterns only between two
    /// characters, by the decoder with these classes.
    fn reads_utf8(&self, classes: &[Class]) -> Result<bool, AllocError>
        requires { classes_below classes.now ≡ true }
        ensures ends { IfOk result (λ reads. IsTrue reads
            ↔ EndsAtBoundaries classes.now self.now.states (self.now.start_anchored ∷ self.now.start_pattern)) }
        ensures checked { IsChecked self.now }
    {
        ends_at_boundaries(
            self.alloc,
            self.states(),
            self.start_anchored(),
            self.pattern_starts(),
            classes,
        )
    }

    /// Returns the most states that the stack of a closure may hold: one, and each alternate of a union except its
    /// first.
    pub fn room(&self) -> usize
        ensures number { result ≡ stack_room self.now.states }
        ensures few { result ≤ 2147483649 }
    {
        self.data.room
    }

    /// Returns the allocator of the NFA.
    pub fn alloc(&self) -> Global {
        self.alloc
    }
}

/// Returns the state with this ID, which must be below the number of states. A loop gets `states` once, before it
/// begins, so that it reads each state with one load.
pub fn state_at<'a>(nfa: &NFA, states: &'a [State], id: StateID) -> &'a State
    requires states { states.now ≡ nfa.now.states }
    requires id { id < length states.now }
    ensures same { slice_get nfa.now.states id ≡ Some result.now }
    ensures checked { IsChecked nfa.now }
{
    let _states = nfa.states();
    &states[id.as_usize()]
}
