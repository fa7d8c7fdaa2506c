//! Folding of wide unions.
//!
//! The alternates of a wide union that read a range of bytes become one state. On each byte, it leads to a state that
//! stands for all the states that those alternates lead to. So a powerset state has one NFA state in place of these
//! alternates, and a step follows the byte once. The new states replace states that nothing leads to any more, so their
//! number stays the same.
ghost use Rattle.std.specs.Prelude.{ℕ, ◌≡◌, ◌<◌, ◌≤◌, ◌+◌, ◌/◌, ◌^◌, ◌↔◌, ◌++◌, [], ◌∷◌, true, false, List};
ghost use Rattle.std.specs.Prelude.{IfOk, IfSome, OnOk, IsTrue, length, Some, None, slice_get};
ghost use Rattle.automata_base.specs.Lists.{In, Distinct, cons_some};
ghost use Rattle.automata_base.specs.Nfas.Errors.{states_below};
ghost use Rattle.automata_base.specs.Nfas.Nfa.{Node, Range, Read, Split, takes_in};
ghost use Rattle.automata_base.specs.Nfas.Nodes.{node_of, nodes_of, ranges_of};
ghost use Rattle.automata_transform.specs.Retraced.Folds.{AreTreeHeads, AreTargetsOf, IsNotFree, IsMade};
ghost use Rattle.automata_transform.specs.Retraced.Folds.{StandsFor, StandsIfAny};
ghost use Rattle.automata_transform.specs.Retraced.Folds.{range_read, ReadsRange, SomeReads, StaysOrReads};
ghost use Rattle.automata_transform.specs.Retraced.Folds.{is_large, IsFoldOf, AddsNoLook, tests_look};
ghost use Rattle.automata_transform.specs.Retraced.Folds.{IsFoldedFrom, IsFoldedState, IsUnionOf, IsUnionBelow};
ghost use Rattle.automata_base.specs.declared.nfa.thompson.state.Transition.{Transition};
ghost use Rattle.automata_base.specs.Retraced.Reach.{node_in, targets_of};
ghost use Rattle.automata_base.specs.Retraced.ReversedEdges.{lists_of, list_at};
ghost use Rattle.automata_transform.specs.Retraced.Segments.{IsOnWay, leaf_head, head_or_none};

use crate::copies::push_id;
use crate::segments::{LEAVES, NODES, no_segments, put_range};
use crate::turn::{MakeError, push_state};
use automata_base::nfa::thompson::reach::{Edges, add, add_ids, add_targets, set_for};
use automata_base::nfa::thompson::{State, Transition};
use automata_base::util::primitives::StateID;
use automata_base::util::sparse_set::SparseSet;
use std::alloc::{AllocError, Global};

/// The least number of alternates of a union that is folded. At least one union must have this many alternates that
/// read a range.
const FEWEST: usize = 64;

/// Adds a state in place of the next free one, and returns its ID. The state must not test a look. If no free state is
/// left, it fails with `TooLarge`.
fn make(free: &[StateID], made: &mut Vec<State>, state: State) -> Result<StateID, MakeError>
    requires { tests_look state ≡ false }
    ensures more { OnOk result (nodes_of made.new.items ≡ nodes_of made.old.items ++ node_of state ∷ []) }
    ensures made { IfOk result (λ id. IsMade free.now (nodes_of made.new.items) id (node_of state)) }
    ensures looks { OnOk result (AddsNoLook made.old.items made.new.items) }
    ensures few { OnOk result (length made.new.items ≤ length free.now) }
{
    let at = made.len();
    if at >= free.len() {
        return Err(MakeError::TooLarge);
    }
    push_state(made, state)?;
    Ok(free[at])
}

/// Returns the state that stands for these: the only one, or a new union of them. It is none if there are none.
fn stand(
    free: &[StateID],
    made: &mut Vec<State>,
    ids: Vec<StateID>,
) -> Result<Option<StateID>, MakeError>
    requires { length made.old.items ≤ length free.now }
    ensures stands { IfOk result (λ head. (depth : ℕ) (targets : List ℕ)
        → AreTargetsOf (StandsFor free.now (nodes_of made.old.items) depth) ids.items targets
        → StandsIfAny free.now (nodes_of made.new.items) head targets) }
    ensures looks { OnOk result (AddsNoLook made.old.items made.new.items) }
    ensures grows { OnOk result ((more : List Node) × (nodes_of made.new.items ≡ nodes_of made.old.items ++ more)) }
    ensures few { OnOk result (length made.new.items ≤ length free.now) }
{
    match ids.as_slice() {
        [] => Ok(None),
        [only] => Ok(Some(*only)),
        _ => {
            let id = make(free, made, State::Union { alternates: ids })?;
            Ok(Some(id))
        }
    }
}

/// Returns these states, followed by `last` if there is one.
fn joined(
    alloc: Global,
    list: &[StateID],
    last: Option<StateID>,
) -> Result<Vec<StateID>, AllocError>
    ensures { IfOk result (λ v. v.items ≡ list.now ++ cons_some last []) }
{
    let mut ids = Vec::with_capacity(alloc, list.len() + 1)?;
    ids.extend_from_slice(list)?;
    if let Some(id) = last {
        ids.push(id)?;
    }
    Ok(ids)
}

/// Returns the head of a node: the state that stands for the states in its list and for the head of the node above it.
fn head(
    alloc: Global,
    free: &[StateID],
    made: &mut Vec<State>,
    list: &[StateID],
    above: Option<StateID>,
) -> Result<Option<StateID>, MakeError>
    requires few { length made.old.items ≤ length free.now }
    requires kept { (t : ℕ) → In t list.now → IsNotFree free.now t }
    ensures stands { IfOk result (λ head. (targets : List ℕ)
        → StandsIfAny free.now (nodes_of made.old.items) above targets
        → StandsIfAny free.now (nodes_of made.new.items) head (list.now ++ targets)) }
    ensures looks { OnOk result (AddsNoLook made.old.items made.new.items) }
    ensures grows { OnOk result ((more : List Node) × (nodes_of made.new.items ≡ nodes_of made.old.items ++ more)) }
    ensures few { OnOk result (length made.new.items ≤ length free.now) }
{
    if list.is_empty() {
        return Ok(above);
    }
    let ids = joined(alloc, list, above)?;
    let head = stand(free, made, ids)?;
    Ok(head)
}

/// Returns the head of the node above this one, or none for node 0.
fn head_above(heads: &[Option<StateID>], node: usize) -> Option<StateID>
    requires { node ≤ length heads.now }
    ensures root { node ≡ 0 → result ≡ None }
    ensures other { 0 < node → result ≡ head_or_none (slice_get heads.now (node / 2)) }
{
    if node == 0 {
        return None;
    }
    heads[node / 2]
}

/// Appends a head.
fn push_head(heads: &mut Vec<Option<StateID>>, head: Option<StateID>) -> Result<(), AllocError>
    ensures { OnOk result (heads.new.items ≡ heads.old.items ++ head ∷ []) }
{
    heads.push(head)?;
    Ok(())
}

/// Returns the head of each node of a segment tree.
fn heads_of(
    alloc: Global,
    free: &[StateID],
    made: &mut Vec<State>,
    lists: &[Vec<StateID>],
) -> Result<Vec<Option<StateID>>, MakeError>
    requires nodes { length lists.now ≡ 512 }
    requires few { length made.old.items ≤ length free.now }
    requires kept { (k t : ℕ) → In t (list_at (lists_of lists.now) k) → IsNotFree free.now t }
    ensures stands { IfOk result (λ heads. AreTreeHeads free.now (nodes_of made.new.items) (lists_of lists.now)
        heads.items 512) }
    ensures nodes { IfOk result (λ heads. length heads.items ≡ 512) }
    ensures looks { OnOk result (AddsNoLook made.old.items made.new.items) }
    ensures grows { OnOk result ((more : List Node) × (nodes_of made.new.items ≡ nodes_of made.old.items ++ more)) }
    ensures few { OnOk result (length made.new.items ≤ length free.now) }
{
    let mut heads = Vec::new(alloc);
    for node in 0..NODES {
        let above = head_above(heads.as_slice(), node);
        let head = head(alloc, free, made, lists[node].as_slice(), above)?;
        push_head(&mut heads, head)?;
    }
    Ok(heads)
}

/// Returns the end of the run of bytes that have the same head as this byte: one more than the last of them.
fn run_end(heads: &[Option<StateID>], byte: usize) -> usize
    requires nodes { length heads.now ≡ 512 }
    requires byte { byte < 256 }
    ensures after { byte < result }
    ensures few { result ≤ 256 }
    ensures same { (u : ℕ) → byte ≤ u → u < result → leaf_head heads.now u ≡ leaf_head heads.now byte }
{
    let head = heads[byte + LEAVES];
    let mut end = byte + 1;
    while end < LEAVES && heads[end + LEAVES] == head {
        end += 1;
    }
    end
}

/// Appends a range.
fn push_range(ranges: &mut Vec<Transition>, range: Transition) -> Result<(), AllocError>
    ensures { OnOk result (ranges.new.items ≡ ranges.old.items ++ range ∷ []) }
{
    ranges.push(range)?;
    Ok(())
}

/// Returns the ranges of a state that leads on each byte to the head of its leaf.
fn ranges_to(alloc: Global, heads: &[Option<StateID>]) -> Result<Vec<Transition>, AllocError>
    requires { length heads.now ≡ 512 }
    ensures { IfOk result (λ v. (u : ℕ) → takes_in (ranges_of v.items) u ≡ leaf_head heads.now u) }
{
    let mut ranges = Vec::new(alloc);
    let mut byte = 0;
    while byte < LEAVES {
        let end = run_end(heads, byte);
        if let Some(next) = heads[byte + LEAVES] {
            let (lo, hi) = (byte as u8, (end - 1) as u8);
            push_range(&mut ranges, Transition { lo, hi, next })?;
        }
        byte = end;
    }
    Ok(ranges)
}

/// Returns the range of a state that reads one, or none for any other state.
fn range_read(state: &State) -> Option<Transition>
    ensures { result ≡ range_read state.now }
{
    match state {
        State::ByteRange { lo, hi, next } => Some(Transition {
            lo: *lo,
            hi: *hi,
            next: *next,
        }),
        _ => None,
    }
}

/// Returns the segment tree of the ranges that these states read.
fn segments_of(
    alloc: Global,
    states: &[State],
    ids: &[StateID],
) -> Result<Vec<Vec<StateID>>, AllocError>
    requires { (x : ℕ) → In x ids.now → x < length states.now }
    ensures reads { IfOk result (λ v. (u t : ℕ) → u < 256
        → IsOnWay (lists_of v.items) (u + 256) t ↔ SomeReads states.now ids.now u t) }
    ensures low { IfOk result (λ v. (u t : ℕ) → SomeReads states.now ids.now u t → u < 256) }
    ensures nodes { IfOk result (λ v. length v.items ≡ 512) }
{
    let mut lists = no_segments(alloc)?;
    for id in ids {
        if let Some(range) = range_read(&states[id.as_usize()]) {
            put_range(&mut lists, range.lo, range.hi, range.next)?;
        }
    }
    Ok(lists)
}

/// Returns the states among these that do not read a range.
fn others_of(alloc: Global, states: &[State], ids: &[StateID]) -> Result<Vec<StateID>, AllocError>
    requires { (x : ℕ) → In x ids.now → x < length states.now }
    ensures sound { IfOk result (λ v. (x : ℕ) → In x v.items
        → In x ids.now × ((range : Transition) → ReadsRange states.now x range → ⊥)) }
    ensures all { IfOk result (λ v. (x : ℕ) → In x ids.now
        → StaysOrReads states.now v.items x) }
{
    let mut others = Vec::new(alloc);
    for id in ids {
        if range_read(&states[id.as_usize()]).is_none() {
            push_id(&mut others, *id)?;
        }
    }
    Ok(others)
}

/// Returns the union of these states, with those that read a range folded into one.
fn fold_union(
    alloc: Global,
    states: &[State],
    free: &[StateID],
    made: &mut Vec<State>,
    alternates: &[StateID],
) -> Result<State, MakeError>
    requires below { (x : ℕ) → In x alternates.now → x < length states.now }
    requires few { length made.old.items ≤ length free.now }
    requires kept { (u t : ℕ) → SomeReads states.now alternates.now u t → IsNotFree free.now t }
    ensures folded { IfOk result
        (λ s. IsFoldOf states.now free.now (nodes_of made.new.items) alternates.now (node_of s)) }
    ensures reads { IfOk result (λ s. range_read s ≡ None) }
    ensures looks { OnOk result (AddsNoLook made.old.items made.new.items) }
    ensures grows { OnOk result ((more : List Node) × (nodes_of made.new.items ≡ nodes_of made.old.items ++ more)) }
    ensures few { OnOk result (length made.new.items ≤ length free.now) }
{
    let lists = segments_of(alloc, states, alternates)?;
    let heads = heads_of(alloc, free, made, lists.as_slice())?;
    let ranges = ranges_to(alloc, heads.as_slice())?;
    let reader = make(free, made, State::Sparse(ranges))?;
    let mut stay = others_of(alloc, states, alternates)?;
    push_id(&mut stay, reader)?;
    Ok(State::Union { alternates: stay })
}

/// Returns the alternates of a union that has at least `FEWEST`, or none for any other state.
fn large(state: &State) -> Option<&[StateID]>
    ensures some { IfSome result (λ list. IsUnionOf state.now list.now × (is_large (node_of state.now) ≡ true)) }
    ensures none { result ≡ None → is_large (node_of state.now) ≡ false }
{
    match state {
        State::Union { alternates } => {
            if alternates.len() < FEWEST {
                return None;
            }
            Some(alternates.as_slice())
        }
        _ => None,
    }
}

/// Folds the state with this number, if it is a union of at least `FEWEST` alternates.
fn fold_at(
    alloc: Global,
    states: &mut Vec<State>,
    free: &[StateID],
    made: &mut Vec<State>,
    x: usize,
) -> Result<(), MakeError>
    requires at { x < length states.old.items }
    requires below { IsUnionBelow states.old.items x }
    requires few { length made.old.items ≤ length free.now }
    requires kept { (q : ℕ) (range : Transition) → ReadsRange states.old.items q range → IsNotFree free.now range.next }
    ensures folded { OnOk result (IsFoldedState states.old.items free.now (nodes_of made.new.items)
        (slice_get states.old.items x) (slice_get states.new.items x)) }
    ensures others { OnOk result ((q : ℕ) → (q ≡ x → ⊥) → slice_get states.new.items q ≡ slice_get states.old.items q) }
    ensures looks { OnOk result (AddsNoLook made.old.items made.new.items) }
    ensures same { OnOk result (length states.new.items ≡ length states.old.items) }
    ensures grows { OnOk result ((more : List Node) × (nodes_of made.new.items ≡ nodes_of made.old.items ++ more)) }
    ensures few { OnOk result (length made.new.items ≤ length free.now) }
{
    let Some(alternates) = large(&states[x]) else {
        return Ok(());
    };
    let folded = fold_union(alloc, states.as_slice(), free, made, alternates)?;
    states[x] = folded;
    Ok(())
}

/// Folds each union of at least `FEWEST` alternates.
fn fold_all(
    alloc: Global,
    states: &mut Vec<State>,
    free: &[StateID],
    made: &mut Vec<State>,
) -> Result<(), MakeError>
    requires range { states_below (length states.old.items) states.old.items ≡ true }
    requires few { length made.old.items ≤ length free.now }
    requires kept { (q : ℕ) (range : Transition) → ReadsRange states.old.items q range → IsNotFree free.now range.next }
    ensures folded { OnOk result ((x : ℕ) → IsFoldedState states.old.items free.now (nodes_of made.new.items)
        (slice_get states.old.items x) (slice_get states.new.items x)) }
    ensures looks { OnOk result (AddsNoLook made.old.items made.new.items) }
    ensures same { OnOk result (length states.new.items ≡ length states.old.items) }
    ensures few { OnOk result (length made.new.items ≤ length free.now) }
{
    for x in 0..states.len() {
        fold_at(alloc, states, free, made, x)?;
    }
    Ok(())
}

/// Returns the states that states other than large unions lead to.
fn led_to(alloc: Global, states: &[State]) -> Result<SparseSet, AllocError>
    requires few { length states.now ≤ 2 ^ 27 }
    requires range { states_below (length states.now) states.now ≡ true }
    ensures led { IfOk result (λ set. (q t : ℕ) → is_large (node_in states.now q) ≡ false
        → In t (targets_of Edges.Every states.now q) → In t set.items) }
    ensures capacity { IfOk result (λ set. set.capacity ≡ length states.now) }
{
    let mut led = set_for(alloc, states)?;
    for state in states {
        if large(state).is_none() {
            add_targets(&mut led, state, Edges::Every);
        }
    }
    Ok(led)
}

/// Returns the states that read a range and are not members of the set.
fn free_of(alloc: Global, states: &[State], led: &SparseSet) -> Result<Vec<StateID>, AllocError>
    requires few { length states.now ≤ 2 ^ 27 }
    requires capacity { led.now.capacity ≡ length states.now }
    ensures reads { IfOk result (λ v. (x : ℕ) → In x v.items → (range : Transition) × ReadsRange states.now x range) }
    ensures new { IfOk result (λ v. (x : ℕ) → In x v.items → In x led.now.items → ⊥) }
    ensures distinct { IfOk result (λ v. Distinct v.items) }
{
    let mut free = Vec::new(alloc);
    for i in 0..states.len() {
        let id = StateID::new_unchecked(i as u32);
        if range_read(&states[i]).is_some() && !led.contains(id) {
            push_id(&mut free, id)?;
        }
    }
    Ok(free)
}

/// Replaces the free states, in order, by the states that were made.
fn put_made(states: &mut Vec<State>, free: &[StateID], mut made: Vec<State>)
    requires few { length made.items ≤ length free.now }
    requires below { (x : ℕ) → In x free.now → x < length states.old.items }
    requires distinct { Distinct free.now }
    requires plain { AddsNoLook [] made.items }
    ensures kept { (x : ℕ) → IsNotFree free.now x → slice_get states.new.items x ≡ slice_get states.old.items x }
    ensures made { (k x : ℕ) (s : State) → slice_get free.now k ≡ Some x → slice_get made.items k ≡ Some s
        → slice_get states.new.items x ≡ Some s }
    ensures looks { AddsNoLook states.old.items states.new.items }
    ensures same { length states.new.items ≡ length states.old.items }
{
    while let Some(state) = made.pop() {
        states[free[made.len()].as_usize()] = state;
    }
}

/// Returns the number of these states that read a range.
fn count_reads(states: &[State], ids: &[StateID]) -> usize
    requires { (x : ℕ) → In x ids.now → x < length states.now }
{
    let mut count = 0;
    for id in ids {
        if range_read(&states[id.as_usize()]).is_some() {
            count += 1;
        }
    }
    count
}

/// Whether some union has at least `FEWEST` alternates that read a range.
pub fn has_wide(states: &[State]) -> bool
    requires { states_below (length states.now) states.now ≡ true }
{
    for state in states {
        if let Some(alternates) = large(state) {
            if count_reads(states, alternates) >= FEWEST {
                return true;
            }
        }
    }
    false
}

/// Folds the large unions of a reversed NFA that starts at `root` and `entries`. If there are not enough free states,
/// it fails with `TooLarge`.
pub fn fold(
    alloc: Global,
    states: &mut Vec<State>,
    root: StateID,
    entries: &[StateID],
) -> Result<(), MakeError>
    requires few { length states.old.items ≤ 2 ^ 27 }
    requires range { states_below (length states.old.items) states.old.items ≡ true }
    requires starts { root < length states.old.items }
    requires entered { (e : ℕ) → In e entries.now → e < length states.old.items }
    ensures folded { OnOk result (IsFoldedFrom states.old.items states.new.items root entries.now) }
    ensures looks { OnOk result (AddsNoLook states.old.items states.new.items) }
    ensures same { OnOk result (length states.new.items ≡ length states.old.items) }
{
    let mut led = led_to(alloc, states.as_slice())?;
    add(&mut led, root);
    add_ids(&mut led, entries);
    let free = free_of(alloc, states.as_slice(), &led)?;
    let mut made = Vec::new(alloc);
    fold_all(alloc, states, free.as_slice(), &mut made)?;
    put_made(states, free.as_slice(), made);
    Ok(())
}
