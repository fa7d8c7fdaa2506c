//! The states that edges reach, and the properties of an NFA that follow from them.
ghost use Rattle.std.specs.Prelude.{◌≡◌, ◌<◌, ◌≤◌, ◌^◌, ◌↔◌, ℕ, [], ◌∷◌, true, length, get_or, IfOk, IsTrue, Some};
ghost use Rattle.std.specs.Prelude.{None, take};
ghost use Rattle.automata_base.specs.Lists.{all_below, In};
ghost use Rattle.automata_base.specs.Nfas.Nodes.{node_of, ranges_of, dense_from};
ghost use Rattle.automata_base.specs.Retraced.Once.{once_from};
ghost use Rattle.automata_base.specs.Paths.Paths.{all_true};
ghost use Rattle.automata_base.specs.Retraced.Reach.{node_in, nexts, byte_targets, targets_at, targets_of, IsReached};
ghost use Rattle.automata_base.specs.Retraced.Reach.{IsMatchAt, ReachesMatch};
ghost use Rattle.automata_base.specs.Nfas.Errors.{transitions_below, state_below, states_below};
ghost use Rattle.automata_base.specs.Powersets.Closure.{children_at};

use crate::nfa::thompson::reading::pattern_of;
use crate::nfa::thompson::state::{State, Transition};
use crate::util::primitives::StateID;
use crate::util::sparse_set::SparseSet;
use std::alloc::{AllocError, Global};

/// Which edges a walk follows: epsilon edges, or all edges.
#[derive(Clone, Copy)]
pub enum Edges {
    Epsilon,
    Every,
}

/// Adds a state, if it is not a member.
pub fn add(set: &mut SparseSet, id: StateID)
    requires { id < set.old.capacity }
    ensures items { set.new.items ≡ once_from set.old.items (id ∷ []) }
    ensures capacity { set.new.capacity ≡ set.old.capacity }
{
    set.insert(id);
}

/// Adds the states that are not members, in their order.
pub fn add_ids(set: &mut SparseSet, ids: &[StateID])
    requires { all_below set.old.capacity ids.now ≡ true }
    ensures items { set.new.items ≡ once_from set.old.items ids.now }
    ensures capacity { set.new.capacity ≡ set.old.capacity }
{
    for id in ids {
        add(set, *id);
    }
}

/// Adds the state that the edge leads to, if it is not a member.
fn add_next(set: &mut SparseSet, transition: &Transition)
    requires { transition.now.next < set.old.capacity }
    ensures items { set.new.items ≡ once_from set.old.items (transition.now.next ∷ []) }
    ensures capacity { set.new.capacity ≡ set.old.capacity }
{
    add(set, transition.next);
}

/// Adds the states that the edges lead to and that are not members, in the order of the edges.
fn add_nexts(set: &mut SparseSet, transitions: &[Transition])
    requires { transitions_below set.old.capacity transitions.now ≡ true }
    ensures items { set.new.items ≡ once_from set.old.items (nexts (ranges_of transitions.now)) }
    ensures capacity { set.new.capacity ≡ set.old.capacity }
{
    for transition in transitions {
        add_next(set, transition);
    }
}

/// Adds a target of a dense state, if it is not a member. Target 0 means that there is no edge.
fn add_dense(set: &mut SparseSet, target: StateID)
    requires { target < set.old.capacity }
    ensures items { set.new.items ≡ once_from set.old.items (nexts (dense_from 0 (target ∷ []))) }
    ensures capacity { set.new.capacity ≡ set.old.capacity }
{
    if target.as_usize() == 0 {
        return;
    }
    add(set, target);
}

/// Adds the targets of a dense state that are not members, in the order of its bytes.
fn add_all_dense(set: &mut SparseSet, targets: &[StateID])
    requires { all_below set.old.capacity targets.now ≡ true }
    ensures items { set.new.items ≡ once_from set.old.items (nexts (dense_from 0 targets.now)) }
    ensures capacity { set.new.capacity ≡ set.old.capacity }
{
    for target in targets {
        add_dense(set, *target);
    }
}

/// Adds the states that epsilon edges lead to from this state, with every look taken as true.
fn add_epsilon_targets(set: &mut SparseSet, state: &State)
    requires { state_below set.old.capacity state.now ≡ true }
    ensures items { set.new.items ≡ once_from set.old.items (children_at (node_of state.now) all_true) }
    ensures capacity { set.new.capacity ≡ set.old.capacity }
{
    match state {
        State::Look { next, .. } => add(set, *next),
        State::Capture { next, .. } => add(set, *next),
        State::Union { alternates } => add_ids(set, alternates),
        State::BinaryUnion { alt1, alt2 } => add_ids(set, &[*alt1, *alt2]),
        _ => {}
    }
}

/// Adds the states that byte edges lead to from this state.
fn add_byte_targets(set: &mut SparseSet, state: &State)
    requires { state_below set.old.capacity state.now ≡ true }
    ensures items { set.new.items ≡ once_from set.old.items (byte_targets (node_of state.now)) }
    ensures capacity { set.new.capacity ≡ set.old.capacity }
{
    match state {
        State::ByteRange { next, .. } => add(set, *next),
        State::Sparse(transitions) => add_nexts(set, transitions),
        State::Dense(targets) => add_all_dense(set, targets.as_slice()),
        _ => {}
    }
}

/// Adds the states that edges of this kind lead to from this state.
pub fn add_targets(set: &mut SparseSet, state: &State, edges: Edges)
    requires { state_below set.old.capacity state.now ≡ true }
    ensures items { set.new.items ≡ once_from set.old.items (targets_at edges (node_of state.now)) }
    ensures capacity { set.new.capacity ≡ set.old.capacity }
{
    add_epsilon_targets(set, state);
    match edges {
        Edges::Epsilon => {}
        Edges::Every => add_byte_targets(set, state),
    }
}

/// Returns the member at this index, in the order in which members were added, or none if there are fewer.
pub fn member(set: &SparseSet, at: usize) -> Option<StateID>
    ensures some { (id : ℕ) → result ≡ Some id
        → (at < length set.now.items) × (id ≡ get_or set.now.items at id)
        × (id < set.now.capacity) × (at < set.now.capacity) }
    ensures none { result ≡ None → length set.now.items ≤ at }
{
    let items = set.as_slice();
    if at >= items.len() {
        return None;
    }
    Some(items[at])
}

/// Adds the states that the edges reach from the members. The first `done` members must lead only to members, as after
/// a walk that ended; they are not visited again.
pub fn walk_on(set: &mut SparseSet, states: &[State], edges: Edges, done: usize)
    requires few { length states.now ≤ 2 ^ 27 }
    requires range { states_below (length states.now) states.now ≡ true }
    requires capacity { set.old.capacity ≡ length states.now }
    requires walked { (q r : ℕ) → In q (take done set.old.items) → In r (targets_of edges states.now q)
        → In r set.old.items }
    ensures reached { (q : ℕ) → In q set.new.items ↔ IsReached edges states.now set.old.items q }
    ensures capacity { set.new.capacity ≡ length states.now }
{
    let mut at = done;
    while let Some(id) = member(set, at) {
        add_targets(set, &states[id.as_usize()], edges);
        at += 1;
    }
}

/// Sets `set` to the states that the edges reach from the roots, including the roots.
pub fn walk(set: &mut SparseSet, states: &[State], roots: &[StateID], edges: Edges)
    requires few { length states.now ≤ 2 ^ 27 }
    requires range { states_below (length states.now) states.now ≡ true }
    requires roots { all_below (length states.now) roots.now ≡ true }
    requires capacity { set.old.capacity ≡ length states.now }
    ensures reached { (q : ℕ) → In q set.new.items ↔ IsReached edges states.now roots.now q }
    ensures capacity { set.new.capacity ≡ length states.now }
{
    set.clear();
    add_ids(set, roots);
    walk_on(set, states, edges, 0);
}

/// Returns the states that the edges reach from the roots, including the roots.
pub fn reach(
    alloc: Global,
    states: &[State],
    roots: &[StateID],
    edges: Edges,
) -> Result<SparseSet, AllocError>
    requires few { length states.now ≤ 2 ^ 27 }
    requires range { states_below (length states.now) states.now ≡ true }
    requires roots { all_below (length states.now) roots.now ≡ true }
    ensures reached { IfOk result (λ set. (q : ℕ) → In q set.items ↔ IsReached edges states.now roots.now q) }
    ensures capacity { IfOk result (λ set. set.capacity ≡ length states.now) }
{
    let mut set = SparseSet::new(alloc, states.len() as u32)?;
    walk(&mut set, states, roots, edges);
    Ok(set)
}

/// Whether the state is a match state.
pub fn is_match(state: &State) -> bool
    ensures { IsTrue result ↔ IsMatchAt (node_of state.now) }
{
    pattern_of(state).is_some()
}

/// Whether one of these states is a match state.
fn is_some_match(states: &[State], ids: &[StateID]) -> bool
    requires { (q : ℕ) → In q ids.now → q < length states.now }
    ensures { IsTrue result ↔ ((q : ℕ) × In q ids.now × IsMatchAt (node_in states.now q)) }
{
    for id in ids {
        if is_match(&states[id.as_usize()]) {
            return true;
        }
    }
    false
}

/// Returns an empty set with room for all states.
pub fn set_for(alloc: Global, states: &[State]) -> Result<SparseSet, AllocError>
    requires few { length states.now ≤ 2 ^ 27 }
    ensures { IfOk result (λ set. set.capacity ≡ length states.now) }
{
    let set = SparseSet::new(alloc, states.len() as u32)?;
    Ok(set)
}

/// Whether epsilon edges lead from some root to a match. The walk overwrites the set with the states that it reaches.
pub fn reaches_match_in(set: &mut SparseSet, states: &[State], roots: &[StateID]) -> bool
    requires few { length states.now ≤ 2 ^ 27 }
    requires range { states_below (length states.now) states.now ≡ true }
    requires roots { all_below (length states.now) roots.now ≡ true }
    requires capacity { set.old.capacity ≡ length states.now }
    ensures found { IsTrue result ↔ ReachesMatch states.now roots.now }
    ensures capacity { set.new.capacity ≡ length states.now }
{
    walk(set, states, roots, Edges::Epsilon);
    is_some_match(states, set.as_slice())
}

/// Whether epsilon edges lead from some root to a match.
pub fn reaches_match(alloc: Global, states: &[State], roots: &[StateID]) -> Result<bool, AllocError>
    requires few { length states.now ≤ 2 ^ 27 }
    requires range { states_below (length states.now) states.now ≡ true }
    requires roots { all_below (length states.now) roots.now ≡ true }
    ensures { IfOk result (λ found. IsTrue found ↔ ReachesMatch states.now roots.now) }
{
    let mut set = SparseSet::new(alloc, states.len() as u32)?;
    Ok(reaches_match_in(&mut set, states, roots))
}
