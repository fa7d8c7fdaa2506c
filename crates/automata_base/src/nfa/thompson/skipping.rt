//! The test whether an NFA skips lazily.
ghost use Rattle.std.specs.Prelude.{◌≡◌, ◌<◌, ◌≤◌, ◌^◌, ◌↔◌, ℕ, [], ◌∷◌, true, length, IsTrue, Some, List, None};
ghost use Rattle.automata_base.specs.Lists.{In};
ghost use Rattle.automata_base.specs.Nfas.Nodes.{node_of, ranges_of};
ghost use Rattle.automata_base.specs.Retraced.Reach.{IsReached, second_of, second_at};
ghost use Rattle.automata_base.specs.Nfas.Automata.{automaton};
ghost use Rattle.automata_base.specs.Nfas.Engines.{any_byte};
ghost use Rattle.automata_base.specs.Nfas.Getters.{SkipsLazily};
ghost use Rattle.automata_base.specs.Nfas.Nfa.{Read};
ghost use Rattle.automata_base.specs.declared.nfa.thompson.state.Flags.{Flags};
ghost use Rattle.automata_base.specs.Nfas.Errors.{states_below, states_ordered};

use crate::nfa::thompson::apart::{are_apart, is_either};
use crate::nfa::thompson::reach::{Edges, walk};
use crate::nfa::thompson::state::{State, Transition};
use crate::util::primitives::StateID;
use crate::util::sparse_set::SparseSet;

/// Whether edges lead from the root to the target. In most NFAs, only the target and the state `through` lead to one of
/// these two, and then no walk is needed.
fn leads_back(
    set: &mut SparseSet,
    states: &[State],
    root: StateID,
    target: StateID,
    through: StateID,
) -> bool
    requires few { length states.now ≤ 2 ^ 27 }
    requires range { states_below (length states.now) states.now ≡ true }
    requires root { root < length states.now }
    requires target { target < length states.now }
    requires capacity { set.old.capacity ≡ length states.now }
    ensures { IsTrue result ↔ IsReached Edges.Every states.now (root ∷ []) target }
{
    if !is_either(root, target, through) && are_apart(states, target, through) {
        return false;
    }
    walk(set, states, &[root], Edges::Every);
    set.contains(target)
}

/// Returns the second of two alternates if the first is `first`, and none otherwise.
fn second(alternates: &[StateID], first: StateID) -> Option<StateID>
    ensures { result ≡ second_of alternates.now first }
{
    if alternates.len() != 2 || alternates[0] != first {
        return None;
    }
    Some(alternates[1])
}

/// Returns the second alternate of a union of two if the first is `first`, and none otherwise.
fn second_alternate(state: &State, first: StateID) -> Option<StateID>
    ensures { result ≡ second_at (node_of state.now) first }
{
    match state {
        State::Union { alternates } => second(alternates, first),
        State::BinaryUnion { alt1, alt2 } => second(&[*alt1, *alt2], first),
        _ => None,
    }
}

/// Whether the range contains every byte and leads to the target.
fn is_whole(lo: u8, hi: u8, next: StateID, target: StateID) -> bool
    ensures { IsTrue result ↔ (Read (record { lo = lo; hi = hi; next = next } ∷ []) ≡ any_byte target) }
{
    lo == 0 && hi == 255 && next == target
}

/// Whether there is exactly one range, which contains every byte and leads to the target.
fn are_whole(ranges: &[Transition], target: StateID) -> bool
    ensures { IsTrue result ↔ (Read (ranges_of ranges.now) ≡ any_byte target) }
{
    if ranges.len() != 1 {
        return false;
    }
    let range = ranges[0];
    is_whole(range.lo, range.hi, range.next, target)
}

/// Whether the state leads to the target on any byte, by one range.
fn is_any_byte(state: &State, target: StateID) -> bool
    ensures { IsTrue result ↔ (node_of state.now ≡ any_byte target) }
{
    match state {
        State::ByteRange { lo, hi, next } => is_whole(*lo, *hi, *next, target),
        State::Sparse(ranges) => are_whole(ranges, target),
        State::Dense(_) => false,
        State::Look { .. } => false,
        State::Union { .. } => false,
        State::BinaryUnion { .. } => false,
        State::Capture { .. } => false,
        State::Fail => false,
        State::Match { .. } => false,
    }
}

/// Whether the two starts are the same state, or the unanchored one is a lazy loop over any bytes before the anchored
/// one. It may overwrite the set, for a walk.
pub fn skips_lazily(
    set: &mut SparseSet,
    states: &[State],
    anchored: StateID,
    unanchored: StateID,
) -> bool
    requires few { length states.now ≤ 2 ^ 27 }
    requires range { states_below (length states.now) states.now ≡ true }
    requires ordered { states_ordered states.now ≡ true }
    requires anchored { anchored < length states.now }
    requires unanchored { unanchored < length states.now }
    requires capacity { set.old.capacity ≡ length states.now }
    ensures { (starts : List ℕ) (flags : Flags)
        → IsTrue result ↔ SkipsLazily (automaton states.now anchored unanchored starts flags) }
{
    if unanchored == anchored {
        return true;
    }
    match second_alternate(&states[unanchored.as_usize()], anchored) {
        None => false,
        Some(skip) => {
            if !is_any_byte(&states[skip.as_usize()], unanchored) {
                return false;
            }
            !leads_back(set, states, anchored, unanchored, skip)
        }
    }
}
