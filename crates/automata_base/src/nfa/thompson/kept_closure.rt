//! The closure of the unanchored start, which an NFA keeps together with what powerset states keep of it.
ghost use Rattle.std.specs.Prelude.{◌≡◌, ◌<◌, ◌≤◌, ◌⊎◌, [], ◌∷◌, ℕ, length, IfOk, IfSome, IsTrue, OnOk, None, false};
ghost use Rattle.automata_base.specs.Lists.{In};
ghost use Rattle.automata_base.specs.Haystacks.LookSets.{truth_of};
ghost use Rattle.automata_base.specs.Nfas.Nfa.{takes_at, takes_in};
ghost use Rattle.automata_base.specs.Nfas.Nodes.{node_of, nfa_of, ranges_of};
ghost use Rattle.automata_base.specs.Nfas.KeptClosure.{AddsEdges, AreRows, AreTargets, IsRestCode, IsKeptClosure};
ghost use Rattle.automata_base.specs.Powersets.Closure.{Visits};
ghost use Rattle.automata_base.specs.Powersets.Cuts.{has_match};

use crate::nfa::thompson::closure::close_from;
use crate::nfa::thompson::ids_code::push_ids;
use crate::nfa::thompson::keeping::keep_states;
use crate::nfa::thompson::kept::KeptClosure;
use crate::nfa::thompson::reading::{pattern_of, target};
use crate::nfa::thompson::state::{State, Transition};
use crate::nfa::thompson::{NFA, state_at};
use crate::util::id_lists::{no_lists, push_at};
use crate::util::look::LookSet;
use crate::util::primitives::StateID;
use crate::util::sparse_set::SparseSet;
use std::alloc::{AllocError, Global};
use std::sync::Arc;

/// The least number of states of a closure that is kept.
const FEWEST: usize = 24;

/// Rows are made only if at most `EACH` bytes for each kept state, and `MORE` in addition, have to be tried.
const EACH: usize = 8;

const MORE: usize = 512;

impl KeptClosure {
    /// Returns the states that the kept states lead to on a byte, if there are rows.
    #[inline(always)]
    pub fn row(&self, nfa: &NFA, u: u8) -> Option<&[StateID]>
        requires { IsKeptClosure nfa.now self.now }
        ensures { IfSome result (λ row. AreTargets (nfa_of nfa.now) self.now.kept.items u row.now) }
    {
        let byte = usize::from(u);
        if byte < self.rows.len() {
            return Some(self.rows[byte].as_slice());
        }
        None
    }
}

/// Returns the states that epsilon edges reach from the root if no look holds.
fn visited_from(nfa: &NFA, root: StateID) -> Result<SparseSet, AllocError>
    requires { root < length nfa.now.states }
    ensures whole { IfOk result (λ set. set.capacity ≡ length nfa.now.states) }
    ensures visited { IfOk result (λ set. Visits (nfa_of nfa.now) (truth_of 0) (root ∷ []) [] set.items) }
{
    let alloc = nfa.alloc();
    let mut set = SparseSet::new(alloc, nfa.states().len() as u32)?;
    let mut stack = Vec::with_capacity(alloc, nfa.room())?;
    close_from(nfa, root, LookSet::empty(), &mut stack, &mut set);
    Ok(set)
}

/// Returns the encoding of these states after the first.
fn code_of(alloc: Global, kept: &[StateID]) -> Result<Vec<u8>, AllocError>
    ensures { IfOk result (λ code. IsRestCode kept.now code.items) }
{
    let mut code = Vec::new(alloc);
    match kept {
        [] => Ok(code),
        [first, rest @ ..] => {
            push_ids(&mut code, first.as_u32(), rest)?;
            Ok(code)
        }
    }
}

/// Returns the lower of two numbers.
pub fn lower(a: usize, b: usize) -> usize
    ensures first { result ≤ a }
    ensures second { result ≤ b }
{
    if a < b { a } else { b }
}

/// Returns the higher of two numbers.
pub fn higher(a: usize, b: usize) -> usize
    ensures first { a ≤ result }
    ensures second { b ≤ result }
    ensures one { (result ≡ a) ⊎ (result ≡ b) }
{
    if a < b { b } else { a }
}

/// Returns the first byte of these ranges, or 256 if there are none.
fn first_of(ranges: &[Transition]) -> usize
    ensures { (u : ℕ) → u < result → takes_in (ranges_of ranges.now) u ≡ None }
{
    let mut first = 256;
    for i in 0..ranges.len() {
        first = lower(first, usize::from(ranges[i].lo));
    }
    first
}

/// Returns the byte after the last one of these ranges, or 0 if there are none.
fn end_of(ranges: &[Transition]) -> usize
    ensures few { result ≤ 256 }
    ensures none { (u : ℕ) → result ≤ u → takes_in (ranges_of ranges.now) u ≡ None }
{
    let mut end = 0;
    for i in 0..ranges.len() {
        end = higher(end, usize::from(ranges[i].hi) + 1);
    }
    end
}

/// Returns a byte below which the state leads nowhere.
pub fn first_byte(state: &State) -> usize
    ensures { (u : ℕ) → u < result → takes_at (node_of state.now) u ≡ None }
{
    match state {
        State::ByteRange { lo, .. } => usize::from(*lo),
        State::Sparse(ranges) => first_of(ranges.as_slice()),
        _ => 0,
    }
}

/// Returns a byte from which on the state leads nowhere, or 256.
pub fn byte_end(state: &State) -> usize
    ensures few { result ≤ 256 }
    ensures none { (u : ℕ) → u < 256 → result ≤ u → takes_at (node_of state.now) u ≡ None }
{
    match state {
        State::ByteRange { hi, .. } => usize::from(*hi) + 1,
        State::Sparse(ranges) => end_of(ranges.as_slice()),
        State::Dense(_) => 256,
        _ => 0,
    }
}

/// Adds the state that this state leads to on each byte, if there is one, to the row of the byte.
fn push_edges(rows: &mut Vec<Vec<StateID>>, state: &State) -> Result<(), AllocError>
    requires { length rows.old.items ≡ 256 }
    ensures edges { OnOk result (AddsEdges (node_of state.now) rows.old.items rows.new.items) }
    ensures few { OnOk result (length rows.new.items ≡ 256) }
{
    for u in first_byte(state)..byte_end(state) {
        if let Some(next) = target(state, u as u8) {
            push_at(rows, u, next)?;
        }
    }
    Ok(())
}

/// Whether to make rows of these states: none of them is a match state, and few bytes have to be tried.
fn are_plain(nfa: &NFA, kept: &[StateID]) -> bool
    requires below { (q : ℕ) → In q kept.now → q < length nfa.now.states }
    ensures { IsTrue result → has_match (nfa_of nfa.now) kept.now ≡ false }
{
    let states = nfa.states();
    let mut left = kept.len().saturating_mul(EACH).saturating_add(MORE);
    for i in 0..kept.len() {
        let state = state_at(nfa, states, kept[i]);
        if pattern_of(state).is_some() {
            return false;
        }
        let count = byte_end(state).saturating_sub(first_byte(state));
        if left < count {
            return false;
        }
        left -= count;
    }
    true
}

/// Returns, for each byte, the states that these states lead to on it, in order.
pub fn rows_of(nfa: &NFA, kept: &[StateID]) -> Result<Vec<Vec<StateID>>, AllocError>
    requires below { (q : ℕ) → In q kept.now → q < length nfa.now.states }
    requires plain { has_match (nfa_of nfa.now) kept.now ≡ false }
    ensures { IfOk result (λ rows. AreRows (nfa_of nfa.now) kept.now rows.items) }
{
    let states = nfa.states();
    let mut rows = no_lists(nfa.alloc(), 256)?;
    for i in 0..kept.len() {
        push_edges(&mut rows, state_at(nfa, states, kept[i]))?;
    }
    Ok(rows)
}

/// Returns the rows of these states, or no rows if one is a match state or if it would take too long to make them.
fn rows_if_plain(nfa: &NFA, kept: &[StateID]) -> Result<Vec<Vec<StateID>>, AllocError>
    requires below { (q : ℕ) → In q kept.now → q < length nfa.now.states }
    ensures { IfOk result (λ rows. AreRows (nfa_of nfa.now) kept.now rows.items) }
{
    if are_plain(nfa, kept) {
        return rows_of(nfa, kept);
    }
    Ok(Vec::new(nfa.alloc()))
}

/// Returns the kept closure of the root, or none if one of its states is a look, on which the closure would depend.
fn with_kept(
    nfa: &NFA,
    root: StateID,
    set: SparseSet,
) -> Result<Option<Arc<KeptClosure>>, AllocError>
    requires whole { set.capacity ≡ length nfa.now.states }
    requires visited { Visits (nfa_of nfa.now) (truth_of 0) (root ∷ []) [] set.items }
    ensures { IfOk result (λ kept. IfSome kept (λ closure. IsKeptClosure nfa.now closure.value)) }
{
    let alloc = nfa.alloc();
    let mut kept = Vec::with_capacity(alloc, set.as_slice().len())?;
    let looks = keep_states(nfa, set.as_slice(), &mut kept);
    if !looks.is_empty() {
        return Ok(None);
    }
    let code = code_of(alloc, kept.as_slice())?;
    let rows = rows_if_plain(nfa, kept.as_slice())?;
    let closure = KeptClosure {
        root,
        set,
        kept,
        code,
        rows,
    };
    let closure = Arc::new(alloc, closure)?;
    Ok(Some(closure))
}

/// Returns the closure of the root if it has many states and no look, and none otherwise. For an NFA that has few
/// states, nothing is computed.
pub fn kept_closure_of(nfa: &NFA) -> Result<Option<Arc<KeptClosure>>, AllocError>
    ensures { IfOk result (λ kept. IfSome kept (λ closure. IsKeptClosure nfa.now closure.value)) }
{
    if nfa.states().len() < FEWEST {
        return Ok(None);
    }
    let root = nfa.start_unanchored();
    let set = visited_from(nfa, root)?;
    if set.as_slice().len() < FEWEST {
        return Ok(None);
    }
    with_kept(nfa, root, set)
}
