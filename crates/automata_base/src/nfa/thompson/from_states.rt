//! Building an NFA of its states, with what it reports about itself.

use crate::nfa::thompson::checks::{Totals, test};
use crate::nfa::thompson::cycles::are_looks_acyclic;
use crate::nfa::thompson::kept_closure::kept_closure_of;
use crate::nfa::thompson::reach::{reaches_match_in, set_for};
use crate::nfa::thompson::skipping::skips_lazily;
use crate::nfa::thompson::state::{Flags, NfaError, State};
use crate::nfa::thompson::{Data, NFA};
use crate::util::primitives::StateID;
use std::alloc::{AllocError, Global};
use std::sync::Arc;

impl NFA {
    ghost use Rattle.std.specs.Prelude.{◌≡◌, ◌<◌, None, Some, Err, IfOk, IsOkUnless};
    ghost use Rattle.automata_base.specs.Nfas.Automata.{automaton};
    ghost use Rattle.automata_base.specs.Nfas.Errors.{states_error};
    ghost use Rattle.automata_base.specs.Nfas.Totals.{AreTotals};

    /// Builds the NFA of these states. Searches start at the anchored or the unanchored start, and searches for pattern
    /// k at `start_pattern[k]`, so there are as many patterns as such starts. The call tests, in this order, the number
    /// of states, patterns and alternates, the starts, the states that edges lead to, the order of ranges, and the
    /// patterns; each test is of the whole list. The first test that fails determines the error. If the call fails, the
    /// lists are dropped. It takes time linear in the states, their edges and the starts; a dense state has 256 edges.
    pub fn from_states(
        alloc: Global,
        states: Vec<State>,
        start_anchored: StateID,
        start_unanchored: StateID,
        start_pattern: Vec<StateID>,
        flags: Flags,
    ) -> Result<NFA, NfaError>
        ensures same { IfOk result (λ nfa. nfa ≡ automaton
            states.items start_anchored start_unanchored start_pattern.items flags) }
        ensures refused { (error : NfaError)
            → states_error states.items start_anchored start_unanchored start_pattern.items ≡ Some error
            → result ≡ Err error }
        ensures memory { states_error states.items start_anchored start_unanchored start_pattern.items ≡ None
            → IsOkUnless result NfaError.OutOfMemory }
    {
        let totals = test(
            states.as_slice(),
            start_anchored,
            start_unanchored,
            start_pattern.as_slice(),
        )?;
        NFA::make(
            alloc,
            states,
            start_anchored,
            start_unanchored,
            start_pattern,
            flags,
            totals,
        )
    }

    /// Builds the NFA of lists that have passed the tests of `from_states`, and computes what it keeps beside them.
    /// `totals` must be the totals of the states. The only error is out of memory.
    pub(super) fn make(
        alloc: Global,
        states: Vec<State>,
        start_anchored: StateID,
        start_unanchored: StateID,
        start_pattern: Vec<StateID>,
        flags: Flags,
        totals: Totals,
    ) -> Result<NFA, NfaError>
        requires passed { states_error states.items start_anchored start_unanchored start_pattern.items ≡ None }
        requires totals { AreTotals states.items totals }
        ensures same { IfOk result (λ nfa. nfa ≡ automaton
            states.items start_anchored start_unanchored start_pattern.items flags) }
        ensures memory { IsOkUnless result NfaError.OutOfMemory }
    {
        let nfa = NFA::plain(
            alloc,
            states,
            start_anchored,
            start_unanchored,
            start_pattern,
            flags,
            totals,
        )?;
        let nfa = nfa.keeping_closure()?;
        Ok(nfa)
    }

    /// Returns this NFA, which then keeps the closure of its unanchored start if that has many states and no look.
    fn keeping_closure(self) -> Result<NFA, AllocError>
        ensures { IfOk result (λ nfa. nfa ≡ self) }
    {
        let kept_closure = kept_closure_of(&self)?;
        let NFA {
            data,
            alloc,
            keeps_unions,
            kept_closure: _none,
        } = self;
        Ok(NFA {
            data,
            alloc,
            keeps_unions,
            kept_closure,
        })
    }

    /// Builds the NFA of lists that have passed the tests of `from_states`, and computes its properties. It keeps no
    /// closure yet. `totals` must be the totals of the states. The only error is out of memory.
    fn plain(
        alloc: Global,
        states: Vec<State>,
        start_anchored: StateID,
        start_unanchored: StateID,
        start_pattern: Vec<StateID>,
        flags: Flags,
        totals: Totals,
    ) -> Result<NFA, NfaError>
        requires passed { states_error states.items start_anchored start_unanchored start_pattern.items ≡ None }
        requires totals { AreTotals states.items totals }
        ensures same { IfOk result (λ nfa. nfa ≡ automaton
            states.items start_anchored start_unanchored start_pattern.items flags) }
        ensures memory { IsOkUnless result NfaError.OutOfMemory }
    {
        let mut set = set_for(alloc, states.as_slice())?;
        let has_empty = reaches_match_in(&mut set, states.as_slice(), start_pattern.as_slice());
        let skips_lazily = skips_lazily(
            &mut set,
            states.as_slice(),
            start_anchored,
            start_unanchored,
        );
        let Totals { room, looks } = totals;
        let is_look_acyclic = are_looks_acyclic(alloc, states.as_slice(), looks)?;
        let data = Data {
            states,
            start_anchored,
            start_unanchored,
            start_pattern,
            flags,
            looks,
            room,
            has_empty,
            skips_lazily,
            is_look_acyclic,
        };
        match Arc::new(alloc, data) {
            Ok(data) => Ok(NFA {
                data,
                alloc,
                keeps_unions: false,
                kept_closure: None,
            }),
            Err(_) => Err(NfaError::OutOfMemory),
        }
    }
}
