//! The states of a list that powerset states keep.
ghost use Rattle.std.specs.Prelude.{◌≡◌, ◌+◌, ◌<◌, ◌≤◌, [], ◌∷◌, ◌++◌, ℕ, length, eqb, ◌||◌, vec_capacity, vec_len};
ghost use Rattle.std.specs.Prelude.{cond};
ghost use Rattle.automata_base.specs.Lists.{In, pick};
ghost use Rattle.automata_base.specs.Nfas.Nfa.{keep};
ghost use Rattle.automata_base.specs.Retraced.Computed.{any_state};
ghost use Rattle.automata_base.specs.Haystacks.Looks.{look_index, Look};
ghost use Rattle.automata_base.specs.Nfas.Nodes.{nfa_of};
ghost use Rattle.automata_base.specs.Haystacks.LookSets.{truth_of};

use crate::nfa::thompson::reading::{add_look, is_kept};
use crate::nfa::thompson::{NFA, state_at};
use crate::util::look::LookSet;
use crate::util::primitives::StateID;

/// Appends the state if `passes` is true. The list must have room for it.
fn push_if(kept: &mut Vec<StateID>, id: StateID, passes: bool)
    requires { vec_len kept.old < vec_capacity kept.old }
    ensures items { kept.new.items ≡ kept.old.items ++ cond passes (id ∷ []) [] }
    ensures capacity { vec_capacity kept.old ≤ vec_capacity kept.new }
{
    if passes {
        kept.push_reserved(id);
    }
}

/// Appends the states of a list that powerset states keep, and returns the looks among them together with the given
/// ones.
#[inline(always)]
pub fn append_kept(
    nfa: &NFA,
    states: &[StateID],
    looks: LookSet,
    kept: &mut Vec<StateID>,
) -> LookSet
    requires below { (q : ℕ) → In q states.now → q < length nfa.now.states }
    requires room { length kept.old.items + length states.now ≤ vec_capacity kept.old }
    ensures kept { kept.new.items ≡ kept.old.items ++ pick (keep (nfa_of nfa.now)) states.now }
    ensures looks { (other : Look) → truth_of result other ≡ (truth_of looks other
        || any_state (λ look. eqb (look_index look) (look_index other)) (nfa_of nfa.now) states.now) }
    ensures capacity { vec_capacity kept.old ≤ vec_capacity kept.new }
{
    let mut all = looks;
    let nodes = nfa.states();
    let keeps_unions = nfa.keeps_unions();
    for i in 0..states.len() {
        let id = states[i];
        let state = state_at(nfa, nodes, id);
        all = add_look(all, state);
        push_if(kept, id, is_kept(state, keeps_unions));
    }
    all
}

/// Sets `kept` to the states of a list that powerset states keep, and returns the looks among them.
#[inline(always)]
pub fn keep_states(nfa: &NFA, states: &[StateID], kept: &mut Vec<StateID>) -> LookSet
    requires below { (q : ℕ) → In q states.now → q < length nfa.now.states }
    requires room { length states.now ≤ vec_capacity kept.old }
    ensures kept { kept.new.items ≡ pick (keep (nfa_of nfa.now)) states.now }
    ensures few { length kept.new.items ≤ length states.now }
    ensures looks { (other : Look) → truth_of result other
        ≡ any_state (λ look. eqb (look_index look) (look_index other)) (nfa_of nfa.now) kept.new.items }
    ensures capacity { vec_capacity kept.old ≤ vec_capacity kept.new }
{
    kept.clear();
    append_kept(nfa, states, LookSet::empty(), kept)
}
