//! A test whether edges lead to two states of an NFA only from these two.
ghost use Rattle.std.specs.Prelude.{◌≡◌, ◌<◌, ◌≤◌, ◌^◌, ◌||◌, ℕ, false, not, IsTrue, length};
ghost use Rattle.automata_base.specs.Lists.{In};
ghost use Rattle.automata_base.specs.Retraced.Apart.{is_either, are_others, lead_elsewhere, leads_elsewhere};
ghost use Rattle.automata_base.specs.Retraced.Reach.{targets_of};

use crate::nfa::thompson::reach::Edges;
use crate::nfa::thompson::state::{State, Transition};
use crate::util::primitives::StateID;

/// Whether the state is one of the two.
pub fn is_either(id: StateID, one: StateID, two: StateID) -> bool
    ensures { result ≡ is_either one two id }
{
    id == one || id == two
}

/// Whether none of these states is one of the two.
fn are_others(ids: &[StateID], one: StateID, two: StateID) -> bool
    ensures { result ≡ are_others one two ids.now }
{
    for i in 0..ids.len() {
        if is_either(ids[i], one, two) {
            return false;
        }
    }
    true
}

/// Whether the edge leads to one of the two states.
fn is_next_either(transition: &Transition, one: StateID, two: StateID) -> bool
    ensures { result ≡ is_either one two transition.now.next }
{
    is_either(transition.next, one, two)
}

/// Whether none of the edges leads to one of the two states.
fn lead_elsewhere(transitions: &[Transition], one: StateID, two: StateID) -> bool
    ensures { result ≡ lead_elsewhere one two transitions.now }
{
    for i in 0..transitions.len() {
        if is_next_either(&transitions[i], one, two) {
            return false;
        }
    }
    true
}

/// Whether no edge of the state leads to one of the two states. It is false for a dense state, whose edges it does not
/// read.
fn leads_elsewhere(state: &State, one: StateID, two: StateID) -> bool
    ensures { result ≡ leads_elsewhere one two state.now }
{
    match state {
        State::ByteRange { next, .. } => !is_either(*next, one, two),
        State::Sparse(transitions) => lead_elsewhere(transitions, one, two),
        State::Dense(_) => false,
        State::Look { next, .. } => !is_either(*next, one, two),
        State::Union { alternates } => are_others(alternates, one, two),
        State::BinaryUnion { alt1, alt2 } => {
            !is_either(*alt1, one, two) && !is_either(*alt2, one, two)
        }
        State::Capture { next, .. } => !is_either(*next, one, two),
        State::Fail => true,
        State::Match { .. } => true,
    }
}

/// Whether no other state leads to one of these two. It may be false where there is a dense state, whose edges it does
/// not read.
pub fn are_apart(states: &[State], one: StateID, two: StateID) -> bool
    requires { length states.now ≤ 2 ^ 27 }
    ensures { IsTrue result → (q r : ℕ) → is_either one two q ≡ false → In r (targets_of Edges.Every states.now q)
        → is_either one two r ≡ false }
{
    for i in 0..states.len() {
        if !leads_elsewhere(&states[i], one, two) && i != one.as_usize() && i != two.as_usize() {
            return false;
        }
    }
    true
}
