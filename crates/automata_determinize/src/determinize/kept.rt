//! Lists of NFA states that contain the NFA's kept closure, or what powerset states keep of it.
ghost use Rattle.std.specs.Prelude.{◌≡◌, ◌+◌, ◌++◌, ◌<◌, ◌≤◌, ℕ, length, eqb, IfSome, IsTrue, vec_capacity};
ghost use Rattle.automata_base.specs.Haystacks.LookSets.{truth_of};
ghost use Rattle.automata_base.specs.declared.util.look.Look.{Look};
ghost use Rattle.automata_base.specs.Haystacks.Looks.{look_index};
ghost use Rattle.automata_base.specs.Lists.{In, pick};
ghost use Rattle.automata_base.specs.Nfas.Nfa.{keep};
ghost use Rattle.automata_base.specs.Nfas.Nodes.{nfa_of};
ghost use Rattle.automata_base.specs.Nfas.KeptClosure.{IsKeptClosure, IsPartAt};
ghost use Rattle.automata_base.specs.Retraced.Computed.{any_state};

use automata_base::nfa::thompson::NFA;
use automata_base::nfa::thompson::keeping::{append_kept, keep_states};
use automata_base::nfa::thompson::kept::KeptClosure;
use automata_base::util::look::LookSet;
use automata_base::util::primitives::StateID;

/// Whether a list of NFA states contains `part` from the index `start` on.
#[inline(always)]
fn stands_at(list: &[StateID], part: &[StateID], start: usize) -> bool
    requires { start + length part.now ≤ length list.now }
    ensures { IsTrue result → IsPartAt list.now part.now start }
{
    &list[start..start + part.len()] == part
}

/// Returns an index at which a list of NFA states contains `part`, or none if it does not or `part` is empty: the index
/// at which `part` ends the list, or else the first one.
pub(crate) fn place_of(list: &[StateID], part: &[StateID]) -> Option<usize>
    ensures { IfSome result (λ start. IsPartAt list.now part.now start × (0 < length part.now)) }
{
    if part.is_empty() || list.len() < part.len() {
        return None;
    }
    let last = list.len() - part.len();
    if stands_at(list, part, last) {
        return Some(last);
    }
    for start in 0..last {
        if stands_at(list, part, start) {
            return Some(start);
        }
    }
    None
}

/// Returns what comes before `end` in a list of NFA states, or none if the list does not end with it.
pub(crate) fn front_of<'a>(list: &'a [StateID], end: &[StateID]) -> Option<&'a [StateID]>
    ensures { IfSome result (λ front. list.now ≡ front.now ++ end.now) }
{
    if list.len() < end.len() {
        return None;
    }
    let split = list.len() - end.len();
    if &list[split..] == end {
        return Some(&list[..split]);
    }
    None
}

/// Sets `kept` to the states of a list that powerset states keep, and returns the looks among them. If the list
/// contains the NFA's kept closure, what is kept of the closure is copied.
#[inline(never)]
pub(crate) fn keep_with(
    nfa: &NFA,
    closure: &KeptClosure,
    states: &[StateID],
    kept: &mut Vec<StateID>,
) -> LookSet
    requires below { (q : ℕ) → In q states.now → q < length nfa.now.states }
    requires closure { IsKeptClosure nfa.now closure.now }
    requires room { length states.now ≤ vec_capacity kept.old }
    ensures kept { kept.new.items ≡ pick (keep (nfa_of nfa.now)) states.now }
    ensures few { length kept.new.items ≤ length states.now }
    ensures looks { (other : Look) → truth_of result other
        ≡ any_state (λ look. eqb (look_index look) (look_index other)) (nfa_of nfa.now) kept.new.items }
    ensures capacity { vec_capacity kept.old ≤ vec_capacity kept.new }
{
    let part = closure.set.as_slice();
    match place_of(states, part) {
        Some(start) => {
            let looks = keep_states(nfa, &states[..start], kept);
            kept.extend_from_slice(closure.kept.as_slice()).unwrap();
            append_kept(nfa, &states[start + part.len()..], looks, kept)
        }
        None => keep_states(nfa, states, kept),
    }
}
