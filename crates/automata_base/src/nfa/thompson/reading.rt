//! The parts of a single NFA state: its look, its pattern, and its targets.
ghost use Rattle.std.specs.Prelude.{◌≡◌, ◌<◌, ◌||◌, ◌&&◌, eqb, Some, slice_get, None, ◌⊎◌, ◌^◌};
ghost use Rattle.automata_base.specs.Paths.Paths.{all_true};
ghost use Rattle.automata_base.specs.Powersets.Closure.{children_at};
ghost use Rattle.automata_base.specs.Nfas.Nfa.{stays_at, splits_at, accepts_at, takes_at, looks_at, takes_in};
ghost use Rattle.automata_base.specs.Haystacks.Looks.{look_index, Look, within};
ghost use Rattle.automata_base.specs.Nfas.Nodes.{node_of, ranges_of, dense_from};
ghost use Rattle.automata_base.specs.Haystacks.LookSets.{truth_of};
ghost use Rattle.automata_base.specs.Retraced.Reach.{look_target};

use crate::nfa::thompson::state::{State, Transition};
use crate::util::look::LookSet;
use crate::util::primitives::{PatternID, StateID};

/// Whether powerset states keep the state. `keeps_unions` says whether they keep unions.
pub fn is_kept(state: &State, keeps_unions: bool) -> bool
    ensures { result ≡ (stays_at (node_of state.now) || (splits_at (node_of state.now) && keeps_unions)) }
{
    match state {
        State::ByteRange { .. } => true,
        State::Sparse(_) => true,
        State::Dense(_) => true,
        State::Look { .. } => true,
        State::Match { .. } => true,
        State::Union { alternates } => alternates.len() > 1 && keeps_unions,
        State::BinaryUnion { .. } => keeps_unions,
        _ => false,
    }
}

/// Returns the set with the state's look added, if the state is a look.
pub fn add_look(set: LookSet, state: &State) -> LookSet
    ensures { (other : Look) → truth_of result other
        ≡ (looks_at (λ look. eqb (look_index look) (look_index other)) (node_of state.now) || truth_of set other) }
{
    match state {
        State::Look { look, .. } => set.insert(*look),
        _ => set,
    }
}

/// Returns the pattern of a match state, or none for any other state.
pub fn pattern_of(state: &State) -> Option<PatternID>
    ensures { result ≡ accepts_at (node_of state.now) }
{
    match state {
        State::Match { pattern } => Some(*pattern),
        _ => None,
    }
}

/// Returns the target of a look, or none for any other state.
pub fn look_target(state: &State) -> Option<StateID>
    ensures { result ≡ look_target (node_of state.now) }
{
    match state {
        State::Look { next, .. } => Some(*next),
        _ => None,
    }
}

/// Returns the target of the epsilon edge with this number, or none if there is no such edge. Every look is taken as
/// true.
pub fn epsilon_target(state: &State, edge: usize) -> Option<StateID>
    ensures same { result ≡ slice_get (children_at (node_of state.now) all_true) edge }
    ensures few { result ≡ None ⊎ edge < 2 ^ 63 }
{
    match state {
        State::Look { next, .. } => [*next].get(edge).copied(),
        State::Capture { next, .. } => [*next].get(edge).copied(),
        State::Union { alternates } => alternates.get(edge).copied(),
        State::BinaryUnion { alt1, alt2 } => [*alt1, *alt2].get(edge).copied(),
        _ => None,
    }
}

/// Whether the range contains the byte.
fn has(t: &Transition, u: u8) -> bool
    ensures { result ≡ within t.now.lo t.now.hi u }
{
    t.lo <= u && u <= t.hi
}

/// Returns the state that a sparse state leads to on a byte, by the first range that contains it, or none.
fn sparse_target(transitions: &[Transition], u: u8) -> Option<StateID>
    ensures { result ≡ takes_in (ranges_of transitions.now) u }
{
    for t in transitions {
        if has(t, u) {
            return Some(t.next);
        }
    }
    None
}

/// Whether the ID is 0, which as a target of a dense state means that there is no edge.
fn is_zero(id: StateID) -> bool
    ensures { result ≡ eqb id 0 }
{
    id.as_usize() == 0
}

/// Returns the state that a dense state leads to on a byte, or none. Target 0 means that there is no edge.
fn dense_target(targets: &[StateID; 256], u: u8) -> Option<StateID>
    ensures { result ≡ takes_in (dense_from 0 targets.now) u }
{
    let at = usize::from(u);
    let next = targets[at];
    if is_zero(next) { None } else { Some(next) }
}

/// Returns the state that a state leads to on a byte, or none.
pub fn target(state: &State, u: u8) -> Option<StateID>
    ensures { result ≡ takes_at (node_of state.now) u }
{
    match state {
        State::ByteRange { lo, hi, next } => {
            if *lo <= u && u <= *hi {
                Some(*next)
            } else {
                None
            }
        }
        State::Sparse(transitions) => sparse_target(transitions, u),
        State::Dense(targets) => dense_target(targets, u),
        _ => None,
    }
}
