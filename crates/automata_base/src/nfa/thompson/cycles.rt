//! A test whether epsilon edges lead from a look back to itself.
ghost use Rattle.std.specs.Prelude.{◌≡◌, ◌<◌, ◌≤◌, ◌^◌, ◌↔◌, ◌++◌, ℕ, [], Some, true, length};
ghost use Rattle.std.specs.Prelude.{option_to_list, eqb, IfOk, IsTrue};
ghost use Rattle.automata_base.specs.Haystacks.Looks.{Look, look_index};
ghost use Rattle.automata_base.specs.Haystacks.LookSets.{truth_of};
ghost use Rattle.automata_base.specs.Nfas.Nfa.{any_node};
ghost use Rattle.automata_base.specs.Nfas.Nodes.{nodes_of};
ghost use Rattle.automata_base.specs.Retraced.DepthFirst.{IsWholeOrder};
ghost use Rattle.automata_base.specs.Lists.{In};
ghost use Rattle.automata_base.specs.Retraced.Reach.{AreLooksAcyclic, IsReached, look_target, node_in, targets_of};
ghost use Rattle.automata_base.specs.Nfas.Errors.{states_below};

use crate::nfa::thompson::finishing::finishing_order;
use crate::nfa::thompson::reach::{Edges, add, walk_on};
use crate::nfa::thompson::reading::look_target;
use crate::nfa::thompson::state::State;
use crate::util::look::LookSet;
use crate::util::primitives::StateID;
use crate::util::sparse_set::SparseSet;
use std::alloc::{AllocError, Global};

/// Adds the states that epsilon edges reach from the look's target, and returns whether the look itself is then a
/// member. Before the call, members must lead only to members. If the state is not a look, nothing is added and the
/// result is false.
fn reaches_look(set: &mut SparseSet, states: &[State], q: StateID) -> bool
    requires few { length states.now ≤ 2 ^ 27 }
    requires range { states_below (length states.now) states.now ≡ true }
    requires capacity { set.old.capacity ≡ length states.now }
    requires within { q < length states.now }
    requires walked { (p r : ℕ) → In p set.old.items → In r (targets_of Edges.Epsilon states.now p)
        → In r set.old.items }
    ensures found { IsTrue result
        ↔ ((next : ℕ) × (look_target (node_in states.now q) ≡ Some next) × In q set.new.items) }
    ensures reached { (z : ℕ) → In z set.new.items ↔ IsReached Edges.Epsilon states.now
        (set.old.items ++ option_to_list (look_target (node_in states.now q))) z }
    ensures capacity { set.new.capacity ≡ length states.now }
{
    let Some(next) = look_target(&states[q.as_usize()]) else {
        return false;
    };
    let done = set.as_slice().len();
    add(set, next);
    walk_on(set, states, Edges::Epsilon, done);
    set.contains(q)
}

/// Whether no look is on a cycle of epsilon edges. One walk continues from look to look in a finishing order, so the
/// first look that it returns to is on a cycle.
fn are_acyclic_in(set: &mut SparseSet, states: &[State], order: &[StateID]) -> bool
    requires few { length states.now ≤ 2 ^ 27 }
    requires range { states_below (length states.now) states.now ≡ true }
    requires capacity { set.old.capacity ≡ length states.now }
    requires empty { set.old.items ≡ [] }
    requires order { IsWholeOrder (length states.now) (targets_of Edges.Epsilon states.now) order.now }
    ensures { IsTrue result ↔ AreLooksAcyclic states.now }
{
    for q in order {
        if reaches_look(set, states, *q) {
            return false;
        }
    }
    true
}

/// Whether no look is on a cycle of epsilon edges. `looks` has the looks that occur; if it is empty, nothing is
/// searched. Otherwise it takes a depth-first search over the epsilon edges and a second walk over them, in time linear
/// in the states and these edges.
pub fn are_looks_acyclic(
    alloc: Global,
    states: &[State],
    looks: LookSet,
) -> Result<bool, AllocError>
    requires few { length states.now ≤ 2 ^ 27 }
    requires range { states_below (length states.now) states.now ≡ true }
    requires looks { (other : Look) → truth_of looks other
        ≡ any_node (λ look. eqb (look_index look) (look_index other)) (nodes_of states.now) }
    ensures { IfOk result (λ acyclic. IsTrue acyclic ↔ AreLooksAcyclic states.now) }
{
    if looks.is_empty() {
        return Ok(true);
    }
    let order = finishing_order(alloc, states)?;
    let mut set = SparseSet::new(alloc, states.len() as u32)?;
    Ok(are_acyclic_in(&mut set, states, order.as_slice()))
}
