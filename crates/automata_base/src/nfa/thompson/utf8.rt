//! A test whether an NFA reads only valid UTF-8: a walk over its product with a UTF-8 decoder.
ghost use Rattle.std.specs.Prelude.{◌≡◌, ◌<◌, ◌≤◌, ◌^◌, ◌/◌, ◌*◌, ◌↔◌, ℕ, [], ◌∷◌, true, length, IfOk, IsTrue};
ghost use Rattle.automata_base.specs.Retraced.Decoders.{pair, meets, pairs_in, range_pairs, ranges_pairs, byte_pairs};
ghost use Rattle.automata_base.specs.Retraced.Decoders.{pairs_at, node_pairs, pairs_of, classes_below};
ghost use Rattle.automata_base.specs.Retraced.Decoders.{EndsAtBoundaries, IsBoundary};
ghost use Rattle.automata_base.specs.Lists.{all_below, In};
ghost use Rattle.automata_base.specs.Nfas.Nodes.{node_of, range_of, ranges_of, dense_from};
ghost use Rattle.automata_base.specs.Retraced.Once.{once_from};
ghost use Rattle.automata_base.specs.Paths.Paths.{all_true};
ghost use Rattle.automata_base.specs.Retraced.Reach.{IsReachedBy};
ghost use Rattle.automata_base.specs.Nfas.Errors.{transitions_below, state_below, states_below};
ghost use Rattle.automata_base.specs.Powersets.Closure.{children_at};

use crate::nfa::thompson::reach::{add, is_match, member};
use crate::nfa::thompson::state::{State, Transition};
use crate::util::primitives::StateID;
use crate::util::sparse_set::SparseSet;
use std::alloc::{AllocError, Global};

/// The number of states of a decoder. State 0 is between two characters, and state 1 has failed.
const STATES: usize = 11;

/// A class of bytes that a decoder does not distinguish, and the state that they lead to from each of its states.
#[derive(Clone, Copy)]
pub struct Class {
    first: u8,
    last: u8,
    to: [u8; STATES],
}

/// The decoder that reads a character from its first byte to its last. In states 2, 3 and 4, one, two and three bytes
/// of a character are missing. States 5 to 8 come after 0xE0, 0xED, 0xF0 and 0xF4, which restrict the next byte. States
/// 9 and 10 are not used.
#[rattlefmt::skip]
pub const FORWARD: [Class; 14] = [
    Class { first: 0x00, last: 0x7F, to: [0, 1, 1, 1, 1, 1, 1, 1, 1, 1, 1] },
    Class { first: 0x80, last: 0x8F, to: [1, 1, 0, 2, 3, 1, 2, 1, 3, 1, 1] },
    Class { first: 0x90, last: 0x9F, to: [1, 1, 0, 2, 3, 1, 2, 3, 1, 1, 1] },
    Class { first: 0xA0, last: 0xBF, to: [1, 1, 0, 2, 3, 2, 1, 3, 1, 1, 1] },
    Class { first: 0xC0, last: 0xC1, to: [1, 1, 1, 1, 1, 1, 1, 1, 1, 1, 1] },
    Class { first: 0xC2, last: 0xDF, to: [2, 1, 1, 1, 1, 1, 1, 1, 1, 1, 1] },
    Class { first: 0xE0, last: 0xE0, to: [5, 1, 1, 1, 1, 1, 1, 1, 1, 1, 1] },
    Class { first: 0xE1, last: 0xEC, to: [3, 1, 1, 1, 1, 1, 1, 1, 1, 1, 1] },
    Class { first: 0xED, last: 0xED, to: [6, 1, 1, 1, 1, 1, 1, 1, 1, 1, 1] },
    Class { first: 0xEE, last: 0xEF, to: [3, 1, 1, 1, 1, 1, 1, 1, 1, 1, 1] },
    Class { first: 0xF0, last: 0xF0, to: [7, 1, 1, 1, 1, 1, 1, 1, 1, 1, 1] },
    Class { first: 0xF1, last: 0xF3, to: [4, 1, 1, 1, 1, 1, 1, 1, 1, 1, 1] },
    Class { first: 0xF4, last: 0xF4, to: [8, 1, 1, 1, 1, 1, 1, 1, 1, 1, 1] },
    Class { first: 0xF5, last: 0xFF, to: [1, 1, 1, 1, 1, 1, 1, 1, 1, 1, 1] },
];

/// Returns the number of a pair of a state of the NFA and a state of the decoder.
fn pair(state: StateID, decoder: usize) -> StateID
    requires few { state < 2 ^ 27 }
    requires decoder { decoder < 11 }
    ensures { result ≡ pair state decoder }
{
    StateID::new_unchecked(state.as_u32() * STATES as u32 + decoder as u32)
}

/// Adds the pair of these two states, if it is not a member.
fn add_pair(set: &mut SparseSet, state: StateID, decoder: usize)
    requires few { set.old.capacity ≤ 2 ^ 27 * 11 }
    requires decoder { decoder < 11 }
    requires below { state < set.old.capacity / 11 }
    ensures items { set.new.items ≡ once_from set.old.items (pair state decoder ∷ []) }
    ensures capacity { set.new.capacity ≡ set.old.capacity }
{
    add(set, pair(state, decoder));
}

/// Adds the pair of each of these states with the decoder's state, unless it is a member.
fn add_pairs(set: &mut SparseSet, ids: &[StateID], decoder: usize)
    requires few { set.old.capacity ≤ 2 ^ 27 * 11 }
    requires decoder { decoder < 11 }
    requires below { all_below (set.old.capacity / 11) ids.now ≡ true }
    ensures items { set.new.items ≡ once_from set.old.items (pairs_at decoder ids.now) }
    ensures capacity { set.new.capacity ≡ set.old.capacity }
{
    for id in ids {
        add_pair(set, *id, decoder);
    }
}

/// Whether a range and a class have a byte in common.
fn meets(class: &Class, range: &Transition) -> bool
    ensures { result ≡ meets class.now (range_of range.now) }
{
    class.first <= range.hi && range.lo <= class.last
}

/// Adds the pair that a range leads to on the bytes of a class, if the two have a byte in common.
fn add_class(set: &mut SparseSet, range: &Transition, class: &Class, decoder: usize)
    requires few { set.old.capacity ≤ 2 ^ 27 * 11 }
    requires decoder { decoder < 11 }
    requires below { range.now.next < set.old.capacity / 11 }
    requires class { all_below 11 class.now.to ≡ true }
    ensures items { set.new.items ≡ once_from set.old.items (pairs_in decoder (range_of range.now) class.now) }
    ensures capacity { set.new.capacity ≡ set.old.capacity }
{
    if meets(class, range) {
        add_pair(set, range.next, usize::from(class.to[decoder]));
    }
}

/// Adds the pairs that a range leads to, one for each class that it meets.
fn add_range(set: &mut SparseSet, range: &Transition, classes: &[Class], decoder: usize)
    requires few { set.old.capacity ≤ 2 ^ 27 * 11 }
    requires decoder { decoder < 11 }
    requires below { range.now.next < set.old.capacity / 11 }
    requires classes { classes_below classes.now ≡ true }
    ensures items { set.new.items ≡ once_from set.old.items (range_pairs classes.now decoder (range_of range.now)) }
    ensures capacity { set.new.capacity ≡ set.old.capacity }
{
    for class in classes {
        add_class(set, range, class, decoder);
    }
}

/// Adds the pairs that the ranges of a state lead to.
fn add_ranges(set: &mut SparseSet, ranges: &[Transition], classes: &[Class], decoder: usize)
    requires few { set.old.capacity ≤ 2 ^ 27 * 11 }
    requires decoder { decoder < 11 }
    requires below { transitions_below (set.old.capacity / 11) ranges.now ≡ true }
    requires classes { classes_below classes.now ≡ true }
    ensures items { set.new.items
        ≡ once_from set.old.items (ranges_pairs classes.now decoder (ranges_of ranges.now)) }
    ensures capacity { set.new.capacity ≡ set.old.capacity }
{
    for range in ranges {
        add_range(set, range, classes, decoder);
    }
}

/// Adds the pairs that a dense state leads to on the byte. Target 0 means that there is no edge.
fn add_target(set: &mut SparseSet, byte: usize, target: StateID, classes: &[Class], decoder: usize)
    requires few { set.old.capacity ≤ 2 ^ 27 * 11 }
    requires decoder { decoder < 11 }
    requires byte { byte < 256 }
    requires below { target < set.old.capacity / 11 }
    requires classes { classes_below classes.now ≡ true }
    ensures items { set.new.items
        ≡ once_from set.old.items (ranges_pairs classes.now decoder (dense_from byte (target ∷ []))) }
    ensures capacity { set.new.capacity ≡ set.old.capacity }
{
    if target.as_usize() == 0 {
        return;
    }
    let byte = byte as u8;
    let range = Transition {
        lo: byte,
        hi: byte,
        next: target,
    };
    add_range(set, &range, classes, decoder);
}

/// Adds the pairs that a dense state leads to, byte by byte.
fn add_targets(set: &mut SparseSet, targets: &[StateID; 256], classes: &[Class], decoder: usize)
    requires few { set.old.capacity ≤ 2 ^ 27 * 11 }
    requires decoder { decoder < 11 }
    requires below { all_below (set.old.capacity / 11) targets.now ≡ true }
    requires classes { classes_below classes.now ≡ true }
    ensures items { set.new.items
        ≡ once_from set.old.items (ranges_pairs classes.now decoder (dense_from 0 targets.now)) }
    ensures capacity { set.new.capacity ≡ set.old.capacity }
{
    for byte in 0..targets.len() {
        add_target(set, byte, targets[byte], classes, decoder);
    }
}

/// Adds the pairs that epsilon edges lead to, with every look taken as true. The decoder's state stays the same.
fn add_free(set: &mut SparseSet, state: &State, decoder: usize)
    requires few { set.old.capacity ≤ 2 ^ 27 * 11 }
    requires decoder { decoder < 11 }
    requires below { state_below (set.old.capacity / 11) state.now ≡ true }
    ensures items { set.new.items
        ≡ once_from set.old.items (pairs_at decoder (children_at (node_of state.now) all_true)) }
    ensures capacity { set.new.capacity ≡ set.old.capacity }
{
    match state {
        State::Look { next, .. } => add_pair(set, *next, decoder),
        State::Capture { next, .. } => add_pair(set, *next, decoder),
        State::Union { alternates } => add_pairs(set, alternates, decoder),
        State::BinaryUnion { alt1, alt2 } => add_pairs(set, &[*alt1, *alt2], decoder),
        _ => {}
    }
}

/// Adds the pairs that byte edges lead to.
fn add_byte(set: &mut SparseSet, state: &State, classes: &[Class], decoder: usize)
    requires few { set.old.capacity ≤ 2 ^ 27 * 11 }
    requires decoder { decoder < 11 }
    requires below { state_below (set.old.capacity / 11) state.now ≡ true }
    requires classes { classes_below classes.now ≡ true }
    ensures items { set.new.items ≡ once_from set.old.items (byte_pairs classes.now decoder (node_of state.now)) }
    ensures capacity { set.new.capacity ≡ set.old.capacity }
{
    match state {
        State::ByteRange { lo, hi, next } => {
            let range = Transition {
                lo: *lo,
                hi: *hi,
                next: *next,
            };
            add_ranges(set, &[range], classes, decoder);
        }
        State::Sparse(ranges) => add_ranges(set, ranges, classes, decoder),
        State::Dense(targets) => add_targets(set, targets, classes, decoder),
        _ => {}
    }
}

/// Adds the pairs that the edges of a state lead to.
fn add_state(set: &mut SparseSet, state: &State, classes: &[Class], decoder: usize)
    requires few { set.old.capacity ≤ 2 ^ 27 * 11 }
    requires decoder { decoder < 11 }
    requires below { state_below (set.old.capacity / 11) state.now ≡ true }
    requires classes { classes_below classes.now ≡ true }
    ensures items { set.new.items ≡ once_from set.old.items (node_pairs classes.now decoder (node_of state.now)) }
    ensures capacity { set.new.capacity ≡ set.old.capacity }
{
    add_free(set, state, decoder);
    add_byte(set, state, classes, decoder);
}

/// Adds the pairs that are reached from the members.
fn follow(set: &mut SparseSet, states: &[State], classes: &[Class])
    requires few { length states.now ≤ 2 ^ 27 }
    requires range { states_below (length states.now) states.now ≡ true }
    requires classes { classes_below classes.now ≡ true }
    requires capacity { set.old.capacity ≡ length states.now * 11 }
    ensures reached { (x : ℕ) → In x set.new.items
        ↔ IsReachedBy (pairs_of classes.now states.now) set.old.items x }
    ensures capacity { set.new.capacity ≡ length states.now * 11 }
{
    let mut at = 0;
    while let Some(id) = member(set, at) {
        let number = id.as_usize();
        add_state(set, &states[number / STATES], classes, number % STATES);
        at += 1;
    }
}

/// Whether the pair is between two characters, or its NFA state is not a match state.
fn is_boundary(states: &[State], id: StateID) -> bool
    requires { id / 11 < length states.now }
    ensures { IsTrue result ↔ IsBoundary states.now id }
{
    let number = id.as_usize();
    number % STATES == 0 || !is_match(&states[number / STATES])
}

/// Whether each pair that is at a match state is between two characters.
fn are_boundaries(states: &[State], ids: &[StateID]) -> bool
    requires { (x : ℕ) → In x ids.now → x / 11 < length states.now }
    ensures { IsTrue result ↔ ((x : ℕ) → In x ids.now → IsBoundary states.now x) }
{
    for id in ids {
        if !is_boundary(states, *id) {
            return false;
        }
    }
    true
}

/// Whether match states are reached from the starts only between two characters. It takes time and memory linear in the
/// states and their edges.
pub fn ends_at_boundaries(
    alloc: Global,
    states: &[State],
    anchored: StateID,
    patterns: &[StateID],
    classes: &[Class],
) -> Result<bool, AllocError>
    requires few { length states.now ≤ 2 ^ 27 }
    requires range { states_below (length states.now) states.now ≡ true }
    requires anchored { anchored < length states.now }
    requires patterns { all_below (length states.now) patterns.now ≡ true }
    requires classes { classes_below classes.now ≡ true }
    ensures { IfOk result (λ ends. IsTrue ends
        ↔ EndsAtBoundaries classes.now states.now (anchored ∷ patterns.now)) }
{
    let mut set = SparseSet::new(alloc, states.len() as u32 * STATES as u32)?;
    add_pair(&mut set, anchored, 0);
    add_pairs(&mut set, patterns, 0);
    follow(&mut set, states, classes);
    Ok(are_boundaries(states, set.as_slice()))
}
