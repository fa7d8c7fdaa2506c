//! Closures: the states that epsilon edges reach, in order of preference.
ghost use Rattle.std.specs.Prelude.{◌≡◌, ◌+◌, ◌<◌, ◌≤◌, ◌∷◌, ◌++◌, List, ℕ, length, reverse, All, vec_len};
ghost use Rattle.std.specs.Prelude.{vec_capacity, option_to_list, IfSome, IsTrue, IsFalse, [], drop};
ghost use Rattle.automata_base.specs.Lists.{In};
ghost use Rattle.automata_base.specs.Retraced.Expanding.{IsAddedApart, IsExpanded, Extends};
ghost use Rattle.automata_base.specs.Nfas.KeptClosure.{IsKeptClosure};
ghost use Rattle.automata_base.specs.Nfas.Nfa.{Truth};
ghost use Rattle.automata_base.specs.Paths.Paths.{IsClosure};
ghost use Rattle.automata_base.specs.Powersets.Closure.{children_at, IsUnderWay};
ghost use Rattle.automata_base.specs.Nfas.Nodes.{node_of, nfa_of};
ghost use Rattle.automata_base.specs.Powersets.Rooms.{IsClosureRoom};
ghost use Rattle.automata_base.specs.Haystacks.LookSets.{truth_of};

use crate::nfa::thompson::kept::KeptClosure;
use crate::nfa::thompson::state::State;
use crate::nfa::thompson::{NFA, state_at};
use crate::util::look::LookSet;
use crate::util::primitives::StateID;
use crate::util::sparse_set::SparseSet;

/// Pushes the states on the stack, the first on top. The stack must have room for them.
fn push_reversed(stack: &mut Vec<StateID>, states: &[StateID])
    requires { vec_len stack.old + length states.now ≤ vec_capacity stack.old }
    ensures pushed { stack.new.items ≡ stack.old.items ++ reverse states.now }
    ensures capacity { vec_capacity stack.old ≤ vec_capacity stack.new }
{
    for i in (0..states.len()).rev() {
        stack.push_reserved(states[i]);
    }
}

/// Whether no epsilon edge leaves the state.
fn is_leaf(state: &State) -> bool
    ensures { IsTrue result → (truth : Truth) → children_at (node_of state.now) truth ≡ [] }
{
    match state {
        State::ByteRange { .. } => true,
        State::Sparse(_) => true,
        State::Dense(_) => true,
        State::Fail => true,
        State::Match { .. } => true,
        _ => false,
    }
}

/// Visits the states at the front of a list that have no epsilon edges, and returns their number.
fn visit_leaves(nfa: &NFA, list: &[StateID], set: &mut SparseSet) -> usize
    requires below { (q : ℕ) → In q list.now → q < length nfa.now.states }
    requires whole { set.old.capacity ≡ length nfa.now.states }
    ensures few { result ≤ length list.now }
    ensures way { (truth : Truth) (roots tail : List ℕ)
        → IsUnderWay (nfa_of nfa.now) truth roots (list.now ++ tail) set.old.items
        → IsUnderWay (nfa_of nfa.now) truth roots (drop result list.now ++ tail) set.new.items }
    ensures grown { Extends set.old.items set.new.items }
    ensures whole { set.new.capacity ≡ set.old.capacity }
{
    let states = nfa.states();
    for i in 0..list.len() {
        let id = list[i];
        if !is_leaf(state_at(nfa, states, id)) {
            return i;
        }
        let _added = set.insert(id);
    }
    list.len()
}

/// Returns the first state that an epsilon edge of this one leads to, and pushes the others on the stack. Alternates at
/// the front of a union that have no epsilon edges are visited at once instead. A look is followed if it is in `looks`.
#[inline(always)]
fn expand(
    nfa: &NFA,
    state: &State,
    looks: LookSet,
    stack: &mut Vec<StateID>,
    set: &mut SparseSet,
) -> Option<StateID>
    requires below { (q : ℕ) → In q (children_at (node_of state.now) (truth_of looks)) → q < length nfa.now.states }
    requires whole { set.old.capacity ≡ length nfa.now.states }
    requires room { vec_len stack.old + length (children_at (node_of state.now) (truth_of looks))
        ≤ vec_capacity stack.old + 1 }
    ensures expanded { IsExpanded (nfa_of nfa.now) (truth_of looks) (children_at (node_of state.now) (truth_of looks))
        set.old.items set.new.items (reverse stack.old.items) (option_to_list result ++ reverse stack.new.items) }
    ensures capacity { vec_capacity stack.old ≤ vec_capacity stack.new }
    ensures whole { set.new.capacity ≡ set.old.capacity }
{
    match state {
        State::Look { look, next } => {
            if looks.contains(*look) {
                Some(*next)
            } else {
                None
            }
        }
        State::Union { alternates } => {
            let visited = visit_leaves(nfa, alternates, set);
            if visited == alternates.len() {
                None
            } else {
                push_reversed(stack, &alternates[visited + 1..]);
                Some(alternates[visited])
            }
        }
        State::BinaryUnion { alt1, alt2 } => {
            stack.push_reserved(*alt2);
            Some(*alt1)
        }
        State::Capture { next, .. } => Some(*next),
        State::ByteRange { .. }
        | State::Sparse(_)
        | State::Dense(_)
        | State::Fail
        | State::Match { .. } => None,
    }
}

/// Whether no state of the set is in the closure. It returns false without a test if the set has more states than the
/// closure.
fn is_apart(set: &SparseSet, closure: &SparseSet) -> bool
    requires { closure.now.capacity ≡ set.now.capacity }
    ensures { IsTrue result → (q : ℕ) → In q closure.now.items → In q set.now.items → ⊥ }
{
    let visited = set.as_slice();
    if visited.len() > closure.as_slice().len() {
        return false;
    }
    for i in 0..visited.len() {
        if closure.contains(visited[i]) {
            return false;
        }
    }
    true
}

/// Adds a closure to the set, without following edges, if `is_apart` finds that the set has none of its states. Returns
/// whether it did.
#[inline(never)]
fn append_apart(closure: &SparseSet, set: &mut SparseSet) -> bool
    requires { closure.now.capacity ≡ set.old.capacity }
    ensures apart { IsTrue result → (q : ℕ) → In q closure.now.items → In q set.old.items → ⊥ }
    ensures added { IsTrue result → set.new.items ≡ set.old.items ++ closure.now.items }
    ensures same { IsFalse result → set.new.items ≡ set.old.items }
    ensures capacity { set.new.capacity ≡ set.old.capacity }
{
    if is_apart(set, closure) {
        set.append(closure.as_slice());
        return true;
    }
    false
}

/// Adds the NFA's kept closure to the set, if there is one, `id` is its root, and `append_apart` adds it. Returns
/// whether it did.
#[inline(always)]
fn append_at_root(
    nfa: &NFA,
    closure: Option<&KeptClosure>,
    id: StateID,
    set: &mut SparseSet,
) -> bool
    requires closure { IfSome closure (λ c. IsKeptClosure nfa.now c.now) }
    requires whole { set.old.capacity ≡ length nfa.now.states }
    ensures added { IsTrue result → (looks : ℕ)
        → IsAddedApart (nfa_of nfa.now) (truth_of looks) id set.old.items set.new.items }
    ensures same { IsFalse result → set.new.items ≡ set.old.items }
    ensures capacity { set.new.capacity ≡ set.old.capacity }
{
    match closure {
        Some(closure) => id == closure.root && append_apart(&closure.set, set),
        None => false,
    }
}

/// Adds a state to the set, and returns whether its edges must be followed. They need not be if the state is already a
/// member, or if it is the root of the kept closure and the closure was added whole.
#[inline(always)]
fn discover(nfa: &NFA, closure: Option<&KeptClosure>, id: StateID, set: &mut SparseSet) -> bool
    requires closure { IfSome closure (λ c. IsKeptClosure nfa.now c.now) }
    requires whole { set.old.capacity ≡ length nfa.now.states }
    requires below { id < length nfa.now.states }
    ensures new { IsTrue result → In id set.old.items → ⊥ }
    ensures added { IsTrue result → set.new.items ≡ set.old.items ++ id ∷ [] }
    ensures passed { IsFalse result → (looks : ℕ) (roots tail : List ℕ)
        → IsUnderWay (nfa_of nfa.now) (truth_of looks) roots (id ∷ tail) set.old.items
        → IsUnderWay (nfa_of nfa.now) (truth_of looks) roots tail set.new.items }
    ensures grown { Extends set.old.items set.new.items }
    ensures capacity { set.new.capacity ≡ set.old.capacity }
{
    !append_at_root(nfa, closure, id, set) && set.insert(id)
}

/// Adds the states that epsilon edges reach from `start` to the set, in order of preference, using the stack. A look is
/// followed if it is in `looks`. If a kept closure is given, it is added whole at its root, if the set has none of its
/// states.
#[inline(always)]
fn close_by(
    nfa: &NFA,
    closure: Option<&KeptClosure>,
    start: StateID,
    looks: LookSet,
    stack: &mut Vec<StateID>,
    set: &mut SparseSet,
)
    requires closure { IfSome closure (λ c. IsKeptClosure nfa.now c.now) }
    requires start { start < length nfa.now.states }
    requires room { IsClosureRoom nfa.now stack.old set.old }
    ensures way { (roots tail : List ℕ)
        → IsUnderWay (nfa_of nfa.now) (truth_of looks) roots (start ∷ tail) set.old.items
        → IsUnderWay (nfa_of nfa.now) (truth_of looks) roots tail set.new.items }
    ensures room { IsClosureRoom nfa.now stack.new set.new }
{
    let states = nfa.states();
    let mut id = start;
    'visit: loop {
        if discover(nfa, closure, id, set) {
            if let Some(next) = expand(nfa, state_at(nfa, states, id), looks, stack, set) {
                id = next;
                continue;
            }
        }
        match stack.pop() {
            Some(top) => id = top,
            None => break,
        }
    }
}

/// Adds the states that epsilon edges reach from `start` to the set, in order of preference, using the stack. A look is
/// followed if it is in `looks`.
#[inline(never)]
pub fn close_from(
    nfa: &NFA,
    start: StateID,
    looks: LookSet,
    stack: &mut Vec<StateID>,
    set: &mut SparseSet,
)
    requires start { start < length nfa.now.states }
    requires room { IsClosureRoom nfa.now stack.old set.old }
    ensures way { (roots tail : List ℕ)
        → IsUnderWay (nfa_of nfa.now) (truth_of looks) roots (start ∷ tail) set.old.items
        → IsUnderWay (nfa_of nfa.now) (truth_of looks) roots tail set.new.items }
    ensures room { IsClosureRoom nfa.now stack.new set.new }
{
    close_by(nfa, None, start, looks, stack, set);
}

/// Adds the states that epsilon edges reach from `start` to the set, as `close_from` does. At the root of the kept
/// closure, the closure is added whole if the set has none of its states.
#[inline(never)]
fn close_with(
    nfa: &NFA,
    closure: &KeptClosure,
    start: StateID,
    looks: LookSet,
    stack: &mut Vec<StateID>,
    set: &mut SparseSet,
)
    requires closure { IsKeptClosure nfa.now closure.now }
    requires start { start < length nfa.now.states }
    requires room { IsClosureRoom nfa.now stack.old set.old }
    ensures way { (roots tail : List ℕ)
        → IsUnderWay (nfa_of nfa.now) (truth_of looks) roots (start ∷ tail) set.old.items
        → IsUnderWay (nfa_of nfa.now) (truth_of looks) roots tail set.new.items }
    ensures room { IsClosureRoom nfa.now stack.new set.new }
{
    close_by(nfa, Some(closure), start, looks, stack, set);
}

/// Adds the states that epsilon edges reach from `start` to the set. The stack must have room already, so the call
/// allocates nothing. Most states have no epsilon edges, and need no stack.
#[inline(always)]
pub fn close_one(
    nfa: &NFA,
    start: StateID,
    looks: LookSet,
    stack: &mut Vec<StateID>,
    set: &mut SparseSet,
)
    requires start { start < length nfa.now.states }
    requires room { IsClosureRoom nfa.now stack.old set.old }
    ensures way { (roots tail : List ℕ)
        → IsUnderWay (nfa_of nfa.now) (truth_of looks) roots (start ∷ tail) set.old.items
        → IsUnderWay (nfa_of nfa.now) (truth_of looks) roots tail set.new.items }
    ensures room { IsClosureRoom nfa.now stack.new set.new }
{
    if is_leaf(nfa.state(start)) {
        let _added = set.insert(start);
        return;
    }
    match nfa.kept_closure() {
        Some(closure) => close_with(nfa, closure, start, looks, stack, set),
        None => close_from(nfa, start, looks, stack, set),
    }
}

/// Adds the states that epsilon edges reach from the roots to the set, one root after another.
pub fn close_all(
    nfa: &NFA,
    roots: &[StateID],
    looks: LookSet,
    stack: &mut Vec<StateID>,
    set: &mut SparseSet,
)
    requires roots { All (λ root. root < length nfa.now.states) roots.now }
    requires room { IsClosureRoom nfa.now stack.old set.old }
    ensures way { (all tail : List ℕ)
        → IsUnderWay (nfa_of nfa.now) (truth_of looks) all (roots.now ++ tail) set.old.items
        → IsUnderWay (nfa_of nfa.now) (truth_of looks) all tail set.new.items }
    ensures room { IsClosureRoom nfa.now stack.new set.new }
{
    for root in roots {
        close_one(nfa, *root, looks, stack, set);
    }
}

/// Sets `set` to the states that epsilon edges reach from the roots.
pub fn close(
    nfa: &NFA,
    roots: &[StateID],
    looks: LookSet,
    stack: &mut Vec<StateID>,
    set: &mut SparseSet,
)
    requires roots { All (λ root. root < length nfa.now.states) roots.now }
    requires room { IsClosureRoom nfa.now stack.old set.old }
    ensures closure { IsClosure (nfa_of nfa.now) (truth_of looks) roots.now set.new.items }
    ensures room { IsClosureRoom nfa.now stack.new set.new }
{
    set.clear();
    close_all(nfa, roots, looks, stack, set);
}
