//! The order in which a depth-first search over epsilon edges finishes states.
ghost use Rattle.std.specs.Prelude.{◌≡◌, ◌+◌, ◌-◌, ◌*◌, ◌<◌, ◌≤◌, ◌^◌, ℕ, [], ◌∷◌, ◌++◌, true, length, reverse, take};
ghost use Rattle.std.specs.Prelude.{Some, None, IfOk, OnOk, slice_get};
ghost use Rattle.automata_base.specs.Retraced.DepthFirst.{IsUnderSearch, IsWholeOrder};
ghost use Rattle.automata_base.specs.Lists.{In};
ghost use Rattle.automata_base.specs.Nfas.Nodes.{node_of};
ghost use Rattle.automata_base.specs.Paths.Paths.{all_true};
ghost use Rattle.automata_base.specs.Retraced.Reach.{targets_of};
ghost use Rattle.automata_base.specs.Nfas.Errors.{state_below, states_below};
ghost use Rattle.automata_base.specs.Powersets.Closure.{children_at};

use crate::nfa::thompson::reach::Edges;
use crate::nfa::thompson::reading::epsilon_target;
use crate::nfa::thompson::state::State;
use crate::util::primitives::StateID;
use crate::util::sparse_set::SparseSet;
use std::alloc::{AllocError, Global};

/// A state on the stack of the search, and the first of its edges that was not followed yet.
#[derive(Clone, Copy)]
pub struct Frame {
    /// The state.
    pub state: StateID,
    /// The number of the edge.
    pub edge: usize,
}

// An edge of a state, by its number and its target.
#[derive(Clone, Copy)]
struct Edge {
    number: usize,
    target: StateID,
}

/// Returns the first epsilon edge of the state, from number `from` on, that leads to an unvisited state.
fn next_edge(visited: &SparseSet, state: &State, from: usize) -> Option<Edge>
    requires range { state_below visited.now.capacity state.now ≡ true }
    requires followed { (r : ℕ) → In r (take from (children_at (node_of state.now) all_true)) → In r visited.now.items }
    ensures some { (edge : Edge) → result ≡ Some edge
        → (slice_get (children_at (node_of state.now) all_true) edge.number ≡ Some edge.target)
        × (In edge.target visited.now.items → ⊥) × (edge.number < 2 ^ 63) × (edge.target < visited.now.capacity) }
    ensures followed { (edge : Edge) (r : ℕ) → result ≡ Some edge
        → In r (take edge.number (children_at (node_of state.now) all_true)) → In r visited.now.items }
    ensures none { (r : ℕ) → result ≡ None → In r (children_at (node_of state.now) all_true) → In r visited.now.items }
{
    let mut number = from;
    while let Some(target) = epsilon_target(state, number) {
        if !visited.contains(target) {
            return Some(Edge { number, target });
        }
        number += 1;
    }
    None
}

/// Marks an unvisited state as visited.
fn mark(visited: &mut SparseSet, id: StateID)
    requires below { id < visited.old.capacity }
    requires new { In id visited.old.items → ⊥ }
    ensures items { visited.new.items ≡ visited.old.items ++ id ∷ [] }
    ensures kept { (q : ℕ) → In q visited.old.items → In q visited.new.items }
    ensures has { In id visited.new.items }
    ensures capacity { visited.new.capacity ≡ visited.old.capacity }
    ensures room { length visited.old.items < visited.old.capacity }
{
    visited.insert(id);
    let _ = visited.as_slice();
}

/// Follows one more edge from the state that was on top of the stack, or finishes that state if none leads to an
/// unvisited one.
fn step(
    states: &[State],
    frame: Frame,
    stack: &mut Vec<Frame>,
    visited: &mut SparseSet,
    finished: &mut SparseSet,
) -> Result<(), AllocError>
    requires range { states_below (length states.now) states.now ≡ true }
    requires rooms { (visited.old.capacity ≡ length states.now) × (finished.old.capacity ≡ length states.now) }
    requires search { IsUnderSearch (length states.now) (targets_of Edges.Epsilon states.now)
        visited.old.items finished.old.items (frame ∷ reverse stack.old.items) }
    ensures search { OnOk result (IsUnderSearch (length states.now) (targets_of Edges.Epsilon states.now)
        visited.new.items finished.new.items (reverse stack.new.items)) }
    ensures kept { (q : ℕ) → In q visited.old.items → In q visited.new.items }
    ensures rooms { (visited.new.capacity ≡ length states.now) × (finished.new.capacity ≡ length states.now) }
    ensures less { OnOk result (2 * (length states.now - length visited.new.items) + length stack.new.items
        ≤ 2 * (length states.now - length visited.old.items) + length stack.old.items) }
{
    match next_edge(visited, &states[frame.state.as_usize()], frame.edge) {
        None => {
            finished.insert(frame.state);
        }
        Some(edge) => {
            mark(visited, edge.target);
            stack.push(Frame {
                state: frame.state,
                edge: edge.number + 1,
            })?;
            stack.push(Frame {
                state: edge.target,
                edge: 0,
            })?;
        }
    }
    Ok(())
}

/// Searches depth first from this state, unless it is visited, and finishes all states that it visits.
fn search_from(
    states: &[State],
    root: StateID,
    stack: &mut Vec<Frame>,
    visited: &mut SparseSet,
    finished: &mut SparseSet,
) -> Result<(), AllocError>
    requires range { states_below (length states.now) states.now ≡ true }
    requires root { root < length states.now }
    requires rooms { (visited.old.capacity ≡ length states.now) × (finished.old.capacity ≡ length states.now) }
    requires search { (stack.old.items ≡ []) × IsUnderSearch (length states.now) (targets_of Edges.Epsilon states.now)
        visited.old.items finished.old.items [] }
    ensures search { OnOk result ((stack.new.items ≡ []) × IsUnderSearch (length states.now)
        (targets_of Edges.Epsilon states.now) visited.new.items finished.new.items []) }
    ensures root { OnOk result (In root visited.new.items) }
    ensures kept { (q : ℕ) → In q visited.old.items → In q visited.new.items }
    ensures rooms { (visited.new.capacity ≡ length states.now) × (finished.new.capacity ≡ length states.now) }
{
    if visited.contains(root) {
        return Ok(());
    }
    mark(visited, root);
    stack.push(Frame {
        state: root,
        edge: 0,
    })?;
    while let Some(frame) = stack.pop() {
        step(states, frame, stack, visited, finished)?;
    }
    Ok(())
}

/// Searches depth first from each state in turn, until all are finished.
fn search_all(
    states: &[State],
    stack: &mut Vec<Frame>,
    visited: &mut SparseSet,
    finished: &mut SparseSet,
) -> Result<(), AllocError>
    requires few { length states.now ≤ 2 ^ 27 }
    requires range { states_below (length states.now) states.now ≡ true }
    requires rooms { (visited.old.capacity ≡ length states.now) × (finished.old.capacity ≡ length states.now) }
    requires none { (stack.old.items ≡ []) × (visited.old.items ≡ []) × (finished.old.items ≡ []) }
    ensures order { OnOk result (IsWholeOrder (length states.now) (targets_of Edges.Epsilon states.now)
        finished.new.items) }
{
    for q in 0..states.len() {
        let root = StateID::new_unchecked(q as u32);
        search_from(states, root, stack, visited, finished)?;
    }
    let _ = finished.as_slice();
    Ok(())
}

/// Returns each state once, in the order in which one depth-first search finishes them: a state that leads to a later
/// one is on a cycle. It takes time linear in the states and epsilon edges.
pub fn finishing_order(alloc: Global, states: &[State]) -> Result<SparseSet, AllocError>
    requires few { length states.now ≤ 2 ^ 27 }
    requires range { states_below (length states.now) states.now ≡ true }
    ensures order { IfOk result (λ order. IsWholeOrder (length states.now) (targets_of Edges.Epsilon states.now)
        order.items) }
{
    let n = states.len() as u32;
    let mut stack = Vec::new(alloc);
    let mut visited = SparseSet::new(alloc, n)?;
    let mut finished = SparseSet::new(alloc, n)?;
    search_all(states, &mut stack, &mut visited, &mut finished)?;
    Ok(finished)
}
