//! Copies of the reversed states: for each pattern, a copy of those that are reached from its match states. For the last
//! pattern, the states themselves become the copies.
ghost use Rattle.std.specs.Prelude.{ℕ, ◌≡◌, ◌<◌, ◌≤◌, ◌+◌, ◌*◌, ◌^◌, ◌++◌, [], ◌∷◌, true, map, length};
ghost use Rattle.std.specs.Prelude.{IfOk, OnOk, Err, None, Some, false, slice_index_or};
ghost use Rattle.automata_transform.specs.Retraced.Copies.{AreCopyable, AreParts, IsPartAdded};
ghost use Rattle.automata_base.specs.Lists.{In, all_below, Distinct};
ghost use Rattle.automata_base.specs.Nfas.Nodes.{node_of, nodes_of};
ghost use Rattle.automata_base.specs.Retraced.Reach.{targets_at, targets_of};
ghost use Rattle.automata_base.specs.Nfas.Errors.{states_below};
ghost use Rattle.automata_transform.specs.Retraced.ReversedEdges.{copied, copies, copy_of, list_match};
ghost use Rattle.automata_base.specs.Retraced.ReversedEdges.{lists_of, list_at};
ghost use Rattle.automata_transform.specs.Retraced.ReversedEdges.{matches_in, HaveCopies};

use crate::turn::{MakeError, push_state};
use automata_base::nfa::thompson::State;
use automata_base::nfa::thompson::checks::MAX_STATES;
use automata_base::nfa::thompson::reach::{Edges, walk};
use automata_base::nfa::thompson::reading::pattern_of;
use automata_base::util::id_lists::{no_lists, push_at};
use automata_base::util::primitives::{PatternID, StateID};
use automata_base::util::sparse_set::SparseSet;
use std::alloc::{AllocError, Global};
use std::mem;

/// Returns the ID of a member's copy, if the copies of the set's members begin at `base`.
fn copy_id(set: &SparseSet, base: StateID, id: StateID) -> StateID
    requires member { In id set.now.items }
    requires room { base + length set.now.items ≤ 2 ^ 27 }
    ensures { result ≡ copy_of base set.now.items id }
{
    StateID::new_unchecked((base.as_usize() + set.place(id)) as u32)
}

/// Appends an ID to a list.
pub fn push_id(ids: &mut Vec<StateID>, id: StateID) -> Result<(), AllocError>
    ensures { OnOk result (ids.new.items ≡ ids.old.items ++ id ∷ []) }
{
    ids.push(id)?;
    Ok(())
}

/// Returns the IDs of the copies of these members, in their order, if the copies of the set's members begin at `base`.
fn copy_ids(
    alloc: Global,
    set: &SparseSet,
    base: StateID,
    ids: &[StateID],
) -> Result<Vec<StateID>, AllocError>
    requires members { (q : ℕ) → In q ids.now → In q set.now.items }
    requires room { base + length set.now.items ≤ 2 ^ 27 }
    ensures { IfOk result (λ v. v.items ≡ map (copy_of base set.now.items) ids.now) }
{
    let mut copies = Vec::with_capacity(alloc, ids.len())?;
    for id in ids {
        let copy = copy_id(set, base, *id);
        push_id(&mut copies, copy)?;
    }
    Ok(copies)
}

/// Copies a reversed state for a pattern: the copy leads to the copies of the state's targets, and matches the pattern
/// if the state is a match state.
fn copy_state(
    alloc: Global,
    set: &SparseSet,
    base: StateID,
    pattern: PatternID,
    state: &State,
) -> Result<State, AllocError>
    requires members { (q : ℕ) → In q (targets_at Edges.Every (node_of state.now)) → In q set.now.items }
    requires room { base + length set.now.items ≤ 2 ^ 27 }
    ensures { IfOk result (λ s. node_of s ≡ copied (copy_of base set.now.items) pattern state.now) }
{
    match state {
        State::ByteRange { lo, hi, next } => {
            let next = copy_id(set, base, *next);
            Ok(State::ByteRange {
                lo: *lo,
                hi: *hi,
                next,
            })
        }
        State::Look { look, next } => {
            let next = copy_id(set, base, *next);
            Ok(State::Look { look: *look, next })
        }
        State::Union { alternates } => {
            let alternates = copy_ids(alloc, set, base, alternates)?;
            Ok(State::Union { alternates })
        }
        State::Match { .. } => Ok(State::Match { pattern }),
        _ => Ok(State::Fail),
    }
}

/// Appends the copies of a set's members for a pattern, in their order. The first copy has the ID `base`.
fn copy_all(
    alloc: Global,
    set: &SparseSet,
    base: StateID,
    pattern: PatternID,
    turned: &[State],
    out: &mut Vec<State>,
) -> Result<(), AllocError>
    requires whole { set.now.capacity ≡ length turned.now }
    requires room { base + length set.now.items ≤ 2 ^ 27 }
    requires closed { (x q : ℕ) → In x set.now.items → In q (targets_of Edges.Every turned.now x) → In q set.now.items }
    ensures { OnOk result (nodes_of out.new.items
        ≡ nodes_of out.old.items ++ copies (copy_of base set.now.items) pattern turned.now set.now.items) }
{
    let members = set.as_slice();
    for id in members {
        let copy = copy_state(alloc, set, base, pattern, &turned[id.as_usize()])?;
        push_state(out, copy)?;
    }
    Ok(())
}

/// Replaces the IDs of members by those of their copies, if the copies of the set's members begin at `base`.
fn renumber(set: &SparseSet, base: StateID, ids: &mut [StateID])
    requires members { (q : ℕ) → In q ids.old → In q set.now.items }
    requires room { base + length set.now.items ≤ 2 ^ 27 }
    ensures { ids.new ≡ map (copy_of base set.now.items) ids.old }
{
    for id in ids.iter_mut() {
        *id = copy_id(set, base, *id);
    }
}

/// Makes a reversed state its own copy for a pattern.
fn become_copy(set: &SparseSet, base: StateID, pattern: PatternID, state: &mut State)
    requires members { (q : ℕ) → In q (targets_at Edges.Every (node_of state.old)) → In q set.now.items }
    requires room { base + length set.now.items ≤ 2 ^ 27 }
    ensures { node_of state.new ≡ copied (copy_of base set.now.items) pattern state.old }
{
    match state {
        State::ByteRange { next, .. } => *next = copy_id(set, base, *next),
        State::Look { next, .. } => *next = copy_id(set, base, *next),
        State::Union { alternates } => renumber(set, base, alternates.as_mut_slice()),
        State::Match { pattern: matched } => *matched = pattern,
        _ => *state = State::Fail,
    }
}

/// Takes a reversed state and makes it its own copy for a pattern. A fail state takes its place.
fn take_copy(
    set: &SparseSet,
    base: StateID,
    pattern: PatternID,
    turned: &mut Vec<State>,
    at: usize,
) -> State
    requires inside { at < length turned.old.items }
    requires members { (q : ℕ) → In q (targets_at Edges.Every (node_of (slice_index_or turned.old.items at State.Fail)))
        → In q set.now.items }
    requires room { base + length set.now.items ≤ 2 ^ 27 }
    ensures copy { node_of result ≡ copied (copy_of base set.now.items) pattern
        (slice_index_or turned.old.items at State.Fail) }
    ensures others { (q : ℕ) → (q ≡ at → ⊥) → slice_index_or turned.new.items q State.Fail
        ≡ slice_index_or turned.old.items q State.Fail }
    ensures same { length turned.new.items ≡ length turned.old.items }
{
    let mut state = mem::replace(&mut turned[at], State::Fail);
    become_copy(set, base, pattern, &mut state);
    state
}

/// Does what `copy_all` does, but takes the states to make the copies of them.
fn take_all(
    set: &SparseSet,
    base: StateID,
    pattern: PatternID,
    turned: &mut Vec<State>,
    out: &mut Vec<State>,
) -> Result<(), AllocError>
    requires whole { set.now.capacity ≡ length turned.old.items }
    requires room { base + length set.now.items ≤ 2 ^ 27 }
    requires closed { (x q : ℕ) → In x set.now.items → In q (targets_of Edges.Every turned.old.items x)
        → In q set.now.items }
    ensures { OnOk result (nodes_of out.new.items ≡ nodes_of out.old.items
        ++ copies (copy_of base set.now.items) pattern turned.old.items set.now.items) }
{
    let members = set.as_slice();
    for id in members {
        let copy = take_copy(set, base, pattern, turned, id.as_usize());
        push_state(out, copy)?;
    }
    Ok(())
}

/// Reserves room for the copies of a set's members, for the entry after them, and for the root.
fn reserve_copies(set: &SparseSet, out: &mut Vec<State>) -> Result<(), AllocError>
    requires { set.now.capacity ≤ 2 ^ 27 }
    ensures { OnOk result (out.new.items ≡ out.old.items) }
{
    out.reserve(set.as_slice().len() + 2)?;
    Ok(())
}

/// Appends the copies of a set's members for a pattern, in their order. The first copy has the ID `base`. For the last
/// pattern, the states themselves become the copies.
fn add_copies(
    alloc: Global,
    set: &SparseSet,
    base: StateID,
    pattern: PatternID,
    last: bool,
    turned: &mut Vec<State>,
    out: &mut Vec<State>,
) -> Result<(), AllocError>
    requires few { length turned.old.items ≤ 2 ^ 27 }
    requires whole { set.now.capacity ≡ length turned.old.items }
    requires room { base + length set.now.items ≤ 2 ^ 27 }
    requires closed { (x q : ℕ) → In x set.now.items → In q (targets_of Edges.Every turned.old.items x)
        → In q set.now.items }
    ensures copied { OnOk result (nodes_of out.new.items ≡ nodes_of out.old.items
        ++ copies (copy_of base set.now.items) pattern turned.old.items set.now.items) }
    ensures kept { OnOk result (last ≡ false → turned.new.items ≡ turned.old.items) }
{
    reserve_copies(set, out)?;
    if last {
        take_all(set, base, pattern, turned, out)?;
    } else {
        copy_all(alloc, set, base, pattern, turned.as_slice(), out)?;
    }
    Ok(())
}

/// Adds the state to the list of the pattern that it matches, if it is a match state and the pattern has a list.
fn list_match(
    lists: &mut Vec<Vec<StateID>>,
    found: Option<PatternID>,
    id: StateID,
) -> Result<(), AllocError>
    ensures listed { OnOk result (lists_of lists.new.items ≡ list_match (lists_of lists.old.items) found id) }
    ensures few { OnOk result (length lists.new.items ≡ length lists.old.items) }
{
    let Some(pattern) = found else {
        return Ok(());
    };
    let at = pattern.as_usize();
    if at >= lists.len() {
        return Ok(());
    }
    push_at(lists, at, id)?;
    Ok(())
}

/// Returns the match states among these, in a list for each pattern.
fn matches_by_pattern(
    alloc: Global,
    states: &[State],
    ids: &[StateID],
    patterns: usize,
) -> Result<Vec<Vec<StateID>>, AllocError>
    requires { all_below (length states.now) ids.now ≡ true }
    ensures matches { IfOk result (λ v. (p : ℕ) → p < patterns
        → list_at (lists_of v.items) p ≡ matches_in states.now p ids.now) }
    ensures few { IfOk result (λ v. length v.items ≡ patterns) }
{
    let mut lists = no_lists(alloc, patterns)?;
    for id in ids {
        list_match(&mut lists, pattern_of(&states[id.as_usize()]), *id)?;
    }
    Ok(lists)
}

/// The copies for all patterns, and for each pattern the state where its paths begin.
#[derive(Drop)]
pub struct Parts {
    pub states: Vec<State>,
    pub entries: Vec<StateID>,
}

/// Returns the ID of the first copy of the set's members: the number of states. It is none if there would be more than
/// 2^27 states with these copies and one more.
fn base_of(states: &[State], set: &SparseSet) -> Option<StateID>
    requires { set.now.capacity ≤ 2 ^ 27 }
    ensures some { (base : ℕ) → result ≡ Some base
        → (base ≡ length states.now) × (base + length set.now.items < 2 ^ 27) }
    ensures none { result ≡ None → 2 ^ 27 < length states.now + set.now.capacity + 1 }
    ensures distinct { Distinct set.now.items }
    ensures below { (q : ℕ) → In q set.now.items → q < set.now.capacity }
    ensures few { length set.now.items ≤ set.now.capacity }
{
    let members = set.as_slice();
    if states.len() >= MAX_STATES - members.len() {
        return None;
    }
    Some(StateID::new_unchecked(states.len() as u32))
}

/// Adds the copies, for a pattern, of the states that are reached from its roots, and after them its entry: the union
/// of the roots' copies. The call overwrites the set, and for the last pattern the states.
fn add_part(
    alloc: Global,
    turned: &mut Vec<State>,
    roots: &[StateID],
    set: &mut SparseSet,
    pattern: PatternID,
    last: bool,
    parts: &mut Parts,
) -> Result<(), MakeError>
    requires few { length turned.old.items ≤ 2 ^ 27 }
    requires range { states_below (length turned.old.items) turned.old.items ≡ true }
    requires roots { all_below (length turned.old.items) roots.now ≡ true }
    requires capacity { set.old.capacity ≡ length turned.old.items }
    ensures part { OnOk result ((entry : ℕ) × (parts.new.entries.items ≡ parts.old.entries.items ++ entry ∷ [])
        × IsPartAdded (nodes_of parts.old.states.items) (nodes_of parts.new.states.items)
        turned.old.items roots.now pattern entry) }
    ensures kept { OnOk result (last ≡ false → turned.new.items ≡ turned.old.items) }
    ensures capacity { set.new.capacity ≡ length turned.old.items }
    ensures large { result ≡ Err MakeError.TooLarge
        → 2 ^ 27 < length parts.old.states.items + length turned.old.items + 1 }
{
    walk(set, turned.as_slice(), roots, Edges::Every);
    let Some(base) = base_of(&parts.states, set) else {
        return Err(MakeError::TooLarge);
    };
    add_copies(alloc, set, base, pattern, last, turned, &mut parts.states)?;
    let entry = StateID::new_unchecked(parts.states.len() as u32);
    let alternates = copy_ids(alloc, set, base, roots)?;
    push_state(&mut parts.states, State::Union { alternates })?;
    push_id(&mut parts.entries, entry)?;
    Ok(())
}

/// Copies, for each pattern, what is reached in the reversed states from the pattern's match states. The call
/// overwrites the reversed states, since they become the copies for the last pattern.
pub fn parts_of(
    alloc: Global,
    states: &[State],
    turned: &mut Vec<State>,
    reached: &[StateID],
    patterns: usize,
) -> Result<Parts, MakeError>
    requires few { length turned.old.items ≤ 2 ^ 27 }
    requires turned { AreCopyable states.now turned.old.items }
    requires below { all_below (length states.now) reached.now ≡ true }
    requires patterns { patterns ≤ 2 ^ 27 }
    ensures copies { IfOk result (λ parts.
        HaveCopies (nodes_of parts.states.items) states.now turned.old.items reached.now parts.entries.items) }
    ensures count { IfOk result (λ parts. length parts.entries.items ≡ patterns) }
    ensures fit { IfOk result (λ parts. AreParts
        turned.old.items (length reached.now) patterns patterns (nodes_of parts.states.items) parts.entries.items) }
    ensures large { result ≡ Err MakeError.TooLarge → 2 ^ 27 < patterns * (length turned.old.items + 1) }
{
    let mut set = SparseSet::new(alloc, turned.len() as u32)?;
    let mut parts = Parts {
        states: Vec::new(alloc),
        entries: Vec::new(alloc),
    };
    let matches = matches_by_pattern(alloc, states, reached, patterns)?;
    for p in 0..patterns {
        let pattern = PatternID::new_unchecked(p as u32);
        let roots = &matches[p];
        let last = p + 1 == patterns;
        add_part(alloc, turned, roots, &mut set, pattern, last, &mut parts)?;
    }
    Ok(parts)
}
