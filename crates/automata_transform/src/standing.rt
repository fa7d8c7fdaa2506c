//! A test whether the states of a merged NFA stand for lists of the states of the NFA that it was made from.
ghost use Rattle.std.specs.Prelude.{ℕ, ◌≡◌, ◌<◌, ◌≤◌, ◌++◌, List, IfOk, IfSome, IsTrue, length, false, ◌+◌, []};
ghost use Rattle.std.specs.Prelude.{Some};
ghost use Rattle.automata_base.specs.Lists.{In, cons_some};
ghost use Rattle.automata_transform.specs.Nfas.MergedNfas.{KeepsCaptures};
ghost use Rattle.automata_transform.specs.Nfas.Merges.{IsMerged, IsMergedNode, Shows, ReadsFor};
ghost use Rattle.automata_transform.specs.Nfas.Merges.{stood_for, all_stood_for, target_for};
ghost use Rattle.automata_base.specs.Nfas.Nfa.{Node, Range, Read, node, takes_at};
ghost use Rattle.automata_base.specs.Nfas.Nodes.{node_of, nfa_of};
ghost use Rattle.automata_base.specs.Powersets.Cuts.{has_match, targets};
ghost use Rattle.automata_base.specs.Retraced.ReversedEdges.{lists_of, list_at};

use automata_base::nfa::thompson::kept_closure::{byte_end, first_byte, higher, lower, rows_of};
use automata_base::nfa::thompson::reading::target;
use automata_base::nfa::thompson::{NFA, State, state_at};
use automata_base::util::primitives::StateID;
use std::alloc::AllocError;

/// The greatest length of a list whose targets are compared byte by byte, without making rows.
const SHORT: usize = 16;

/// Returns what comes after `part` in a list, or none if the list does not begin with it.
fn after<'a>(part: &[StateID], list: &'a [StateID]) -> Option<&'a [StateID]>
    ensures { IfSome result (λ rest. list.now ≡ part.now ++ rest.now) }
{
    list.strip_prefix(part)
}

/// Returns what comes in a list after the states that the state with this ID stands for, or none if the list does not
/// begin with them.
fn after_stood_for<'a>(
    lists: &[Vec<StateID>],
    count: usize,
    id: StateID,
    list: &'a [StateID],
) -> Option<&'a [StateID]>
    ensures { IfSome result (λ rest. list.now ≡ stood_for count (lists_of lists.now) id ++ rest.now) }
{
    let number = id.as_usize();
    if number < count {
        return after(&[id], list);
    }
    let at = number - count;
    if at < lists.len() {
        return after(lists[at].as_slice(), list);
    }
    None
}

/// Whether the state with this ID stands for exactly these states.
pub fn stands_for(lists: &[Vec<StateID>], count: usize, id: StateID, list: &[StateID]) -> bool
    ensures { IsTrue result → stood_for count (lists_of lists.now) id ≡ list.now }
{
    match after_stood_for(lists, count, id, list) {
        Some(rest) => rest.is_empty(),
        None => false,
    }
}

/// Whether the states with these IDs stand, in order, for the parts of a list.
fn stand_for(lists: &[Vec<StateID>], count: usize, ids: &[StateID], list: &[StateID]) -> bool
    ensures { IsTrue result → all_stood_for count (lists_of lists.now) ids.now ≡ list.now }
{
    let mut rest = list;
    for i in 0..ids.len() {
        match after_stood_for(lists, count, ids[i], rest) {
            Some(next) => rest = next,
            None => return false,
        }
    }
    rest.is_empty()
}

/// Whether a target stands for exactly these states. If there is no target, the list must be empty.
fn leads_to(lists: &[Vec<StateID>], count: usize, target: Option<StateID>, row: &[StateID]) -> bool
    ensures { IsTrue result → target_for count (lists_of lists.now) target ≡ row.now }
{
    match target {
        Some(id) => stands_for(lists, count, id, row),
        None => row.is_empty(),
    }
}

/// Whether, on each byte, the state leads to a state that stands for the byte's row.
fn leads_to_rows(lists: &[Vec<StateID>], count: usize, state: &State, rows: &[Vec<StateID>]) -> bool
    ensures { IsTrue result → (u : ℕ) → u < 256 → (u < length rows.now)
        × (target_for count (lists_of lists.now) (takes_at (node_of state.now) u) ≡ list_at (lists_of rows.now) u) }
{
    if rows.len() < 256 {
        return false;
    }
    for u in 0..256 {
        if !leads_to(lists, count, target(state, u as u8), rows[u].as_slice()) {
            return false;
        }
    }
    true
}

/// Whether the state reads bytes.
fn reads(state: &State) -> bool
    ensures { IsTrue result → (ranges : List Range) × (node_of state.now ≡ Read ranges) }
{
    match state {
        State::ByteRange { .. } => true,
        State::Sparse(_) => true,
        State::Dense(_) => true,
        _ => false,
    }
}

/// Whether the state with this ID exists, reads bytes, and is not the anchored start.
pub fn is_plain(nfa: &NFA, id: StateID) -> bool
    ensures below { IsTrue result → id < length nfa.now.states }
    ensures other { IsTrue result → id ≡ nfa.now.start_anchored → ⊥ }
    ensures reads { IsTrue result → (ranges : List Range) × (node (nfa_of nfa.now) id ≡ Read ranges) }
{
    let states = nfa.states();
    let at = id.as_usize();
    id != nfa.start_anchored() && at < states.len() && reads(&states[at])
}

/// Whether each of the states with these IDs exists, reads bytes, and is not the anchored start.
fn are_plain(nfa: &NFA, list: &[StateID]) -> bool
    ensures below { IsTrue result → (q : ℕ) → In q list.now → q < length nfa.now.states }
    ensures plain { IsTrue result → (q : ℕ) → In q list.now
        → (q ≡ nfa.now.start_anchored → ⊥) × ((ranges : List Range) × (node (nfa_of nfa.now) q ≡ Read ranges)) }
    ensures matches { IsTrue result → has_match (nfa_of nfa.now) list.now ≡ false }
{
    for i in 0..list.len() {
        if !is_plain(nfa, list[i]) {
            return false;
        }
    }
    true
}

/// Returns a byte below which none of these states leads anywhere.
fn least_byte(nfa: &NFA, list: &[StateID]) -> usize
    requires below { (q : ℕ) → In q list.now → q < length nfa.now.states }
    ensures { (u : ℕ) → u < result → targets (nfa_of nfa.now) (Some u) list.now ≡ [] }
{
    let states = nfa.states();
    let mut least = 256;
    for i in 0..list.len() {
        least = lower(least, first_byte(state_at(nfa, states, list[i])));
    }
    least
}

/// Returns a byte from which on none of these states leads anywhere, or 256.
fn last_end(nfa: &NFA, list: &[StateID]) -> usize
    requires below { (q : ℕ) → In q list.now → q < length nfa.now.states }
    ensures few { result ≤ 256 }
    ensures none { (u : ℕ) → u < 256 → result ≤ u → targets (nfa_of nfa.now) (Some u) list.now ≡ [] }
{
    let states = nfa.states();
    let mut end = 0;
    for i in 0..list.len() {
        end = higher(end, byte_end(state_at(nfa, states, list[i])));
    }
    end
}

/// Returns the expected targets that remain after the state's target on a byte, or none if that target is not the first
/// of them. For a state that leads nowhere, all of them remain.
fn after_target<'a>(state: &State, u: u8, expected: &'a [StateID]) -> Option<&'a [StateID]>
    ensures { IfSome result (λ rest. expected.now ≡ cons_some (takes_at (node_of state.now) u) rest.now) }
{
    match target(state, u) {
        Some(next) => after(&[next], expected),
        None => Some(expected),
    }
}

/// Whether these states lead on a byte to exactly the expected targets, in order.
fn have_targets(nfa: &NFA, list: &[StateID], u: u8, expected: &[StateID]) -> bool
    requires below { (q : ℕ) → In q list.now → q < length nfa.now.states }
    ensures { IsTrue result → expected.now ≡ targets (nfa_of nfa.now) (Some u) list.now }
{
    let states = nfa.states();
    let mut rest = expected;
    for i in 0..list.len() {
        match after_target(state_at(nfa, states, list[i]), u, rest) {
            Some(next) => rest = next,
            None => return false,
        }
    }
    rest.is_empty()
}

/// Whether, on a byte, a state leads to a state that stands for the targets of these states.
fn leads_on(nfa: &NFA, lists: &[Vec<StateID>], state: &State, list: &[StateID], u: u8) -> bool
    requires below { (q : ℕ) → In q list.now → q < length nfa.now.states }
    ensures { IsTrue result → target_for (length nfa.now.states) (lists_of lists.now) (takes_at (node_of state.now) u)
        ≡ targets (nfa_of nfa.now) (Some u) list.now }
{
    let count = nfa.states().len();
    let Some(next) = target(state, u) else {
        return have_targets(nfa, list, u, &[]);
    };
    let number = next.as_usize();
    if number < count {
        return have_targets(nfa, list, u, &[next]);
    }
    let at = number - count;
    at < lists.len() && have_targets(nfa, list, u, lists[at].as_slice())
}

/// Whether, on each byte, a state leads to a state that stands for the targets of these states, of which there should
/// be few.
fn leads_for(nfa: &NFA, lists: &[Vec<StateID>], state: &State, list: &[StateID]) -> bool
    requires below { (q : ℕ) → In q list.now → q < length nfa.now.states }
    ensures { IsTrue result → (u : ℕ) → u < 256
        → target_for (length nfa.now.states) (lists_of lists.now) (takes_at (node_of state.now) u)
        ≡ targets (nfa_of nfa.now) (Some u) list.now }
{
    let from = lower(first_byte(state), least_byte(nfa, list));
    let to = higher(byte_end(state), last_end(nfa, list));
    for u in from..to {
        if !leads_on(nfa, lists, state, list, u as u8) {
            return false;
        }
    }
    true
}

/// Whether a state that reads bytes leads, on each byte, to a state that stands for the targets of these states.
fn reads_for(
    nfa: &NFA,
    lists: &[Vec<StateID>],
    state: &State,
    list: &[StateID],
) -> Result<bool, AllocError>
    ensures { IfOk result (λ b. IsTrue b → (ranges : List Range) → node_of state.now ≡ Read ranges
        → ReadsFor (nfa_of nfa.now) nfa.now.start_anchored (lists_of lists.now) ranges list.now) }
{
    if !are_plain(nfa, list) {
        return Ok(false);
    }
    if list.len() <= SHORT {
        return Ok(leads_for(nfa, lists, state, list));
    }
    let rows = rows_of(nfa, list)?;
    Ok(leads_to_rows(lists, nfa.states().len(), state, rows.as_slice()))
}

/// Whether the state with this ID is one of the first NFA, or reads bytes.
fn is_old_or_reads(count: usize, merged: &NFA, id: StateID) -> bool
    ensures { IsTrue result → count ≤ id → (ranges : List Range) × (node (nfa_of merged.now) id ≡ Read ranges) }
{
    let states = merged.states();
    let at = id.as_usize();
    at < count || (at < states.len() && reads(&states[at]))
}

/// Whether each of the states with these IDs is one of the first NFA, or reads bytes.
fn further_read(count: usize, merged: &NFA, ids: &[StateID]) -> bool
    ensures { IsTrue result → (q : ℕ) → In q ids.now → count ≤ q
        → (ranges : List Range) × (node (nfa_of merged.now) q ≡ Read ranges) }
{
    for i in 0..ids.len() {
        if !is_old_or_reads(count, merged, ids[i]) {
            return false;
        }
    }
    true
}

/// Whether a state of the merged NFA stands for this list of states of the NFA.
fn shows(
    nfa: &NFA,
    merged: &NFA,
    lists: &[Vec<StateID>],
    state: &State,
    list: &[StateID],
) -> Result<bool, AllocError>
    ensures { IfOk result (λ b. IsTrue b → Shows (nfa_of nfa.now) (nfa_of merged.now) nfa.now.start_anchored
        (lists_of lists.now) (node_of state.now) list.now) }
{
    let count = nfa.states().len();
    match state {
        State::Union { alternates } => {
            let ids = alternates.as_slice();
            Ok(stand_for(lists, count, ids, list) && further_read(count, merged, ids))
        }
        State::ByteRange { .. } => reads_for(nfa, lists, state, list),
        State::Sparse(_) => reads_for(nfa, lists, state, list),
        State::Dense(_) => reads_for(nfa, lists, state, list),
        _ => Ok(false),
    }
}

/// Whether two states are the same for searches. Two captures are the same if they lead to the same state.
fn is_same(one: &State, two: &State) -> bool
    ensures { IsTrue result → node_of two.now ≡ node_of one.now }
{
    match (one, two) {
        (
            State::ByteRange { lo, hi, next },
            State::ByteRange {
                lo: low,
                hi: high,
                next: to,
            },
        ) => { *lo == *low && *hi == *high && *next == *to }
        (State::Sparse(ranges), State::Sparse(others)) => { ranges.as_slice() == others.as_slice() }
        (State::Dense(targets), State::Dense(others)) => { targets.as_slice() == others.as_slice() }
        (
            State::Look { look, next },
            State::Look {
                look: other,
                next: to,
            },
        ) => { *look == *other && *next == *to }
        (State::Union { alternates }, State::Union { alternates: others }) => {
            alternates.as_slice() == others.as_slice()
        }
        (
            State::BinaryUnion { alt1, alt2 },
            State::BinaryUnion {
                alt1: one,
                alt2: two,
            },
        ) => { *alt1 == *one && *alt2 == *two }
        (State::Capture { next, .. }, State::Capture { next: to, .. }) => *next == *to,
        (State::Fail, State::Fail) => true,
        (State::Match { pattern }, State::Match { pattern: other }) => *pattern == *other,
        _ => false,
    }
}

/// Whether the new state is the same if the old one is a capture.
fn keeps_capture(old: &State, new: &State) -> bool
    ensures { IsTrue result → (next pattern group slot : ℕ) → old.now ≡ State.Capture next pattern group slot
        → new.now ≡ State.Capture next pattern group slot }
{
    match (old, new) {
        (
            State::Capture {
                next,
                pattern_id,
                group_index,
                slot,
            },
            State::Capture {
                next: to,
                pattern_id: pattern,
                group_index: group,
                slot: other,
            },
        ) => {
            *next == *to && *pattern_id == *pattern && *group_index == *group && *slot == *other
        }
        (State::Capture { .. }, _) => false,
        _ => true,
    }
}

/// Whether each capture of the NFA is the same in the other one.
pub fn keeps_captures(nfa: &NFA, other: &NFA) -> bool
    ensures { IsTrue result → KeepsCaptures nfa.now other.now }
{
    let states = nfa.states();
    let new = other.states();
    if new.len() < states.len() {
        return false;
    }
    for q in 0..states.len() {
        if !keeps_capture(&states[q], &new[q]) {
            return false;
        }
    }
    true
}

/// Whether a state of the NFA is unchanged, or was a union and now stands for its alternates.
fn is_old(
    nfa: &NFA,
    merged: &NFA,
    lists: &[Vec<StateID>],
    was: &State,
    state: &State,
) -> Result<bool, AllocError>
    ensures { IfOk result (λ b. IsTrue b → IsMergedNode (nfa_of nfa.now) (nfa_of merged.now) nfa.now.start_anchored
        (lists_of lists.now) (node_of was.now) (node_of state.now)) }
{
    if is_same(was, state) {
        return Ok(true);
    }
    match was {
        State::Union { alternates } => shows(nfa, merged, lists, state, alternates.as_slice()),
        _ => Ok(false),
    }
}

/// Whether each state of the NFA is unchanged, or was a union and now stands for its alternates.
fn are_old(nfa: &NFA, merged: &NFA, lists: &[Vec<StateID>]) -> Result<bool, AllocError>
    ensures { IfOk result (λ b. IsTrue b → (q : ℕ) → q < length nfa.now.states
        → IsMergedNode (nfa_of nfa.now) (nfa_of merged.now) nfa.now.start_anchored (lists_of lists.now)
        (node (nfa_of nfa.now) q) (node (nfa_of merged.now) q)) }
{
    let states = nfa.states();
    let new = merged.states();
    if new.len() < states.len() {
        return Ok(false);
    }
    for q in 0..states.len() {
        if !is_old(nfa, merged, lists, &states[q], &new[q])? {
            return Ok(false);
        }
    }
    Ok(true)
}

/// Whether each additional state stands for its list.
fn are_further(nfa: &NFA, merged: &NFA, lists: &[Vec<StateID>]) -> Result<bool, AllocError>
    ensures { IfOk result (λ b. IsTrue b → (k : ℕ) → k < length lists.now
        → Shows (nfa_of nfa.now) (nfa_of merged.now) nfa.now.start_anchored (lists_of lists.now)
        (node (nfa_of merged.now) (length nfa.now.states + k))
        (stood_for (length nfa.now.states) (lists_of lists.now) (length nfa.now.states + k))) }
{
    let count = nfa.states().len();
    let states = merged.states();
    if states.len() < count + lists.len() {
        return Ok(false);
    }
    for k in 0..lists.len() {
        if !shows(nfa, merged, lists, &states[count + k], lists[k].as_slice())? {
            return Ok(false);
        }
    }
    Ok(true)
}

/// Whether the second NFA is the first with unions merged, and its additional states stand for these lists.
pub fn is_merged(nfa: &NFA, merged: &NFA, lists: &[Vec<StateID>]) -> Result<bool, AllocError>
    requires terminator { merged.now.flags.line_terminator ≡ nfa.now.flags.line_terminator }
    requires reverse { merged.now.flags.reverse ≡ nfa.now.flags.reverse }
    ensures { IfOk result (λ b. IsTrue b
        → IsMerged (nfa_of nfa.now) (nfa_of merged.now) nfa.now.start_anchored (lists_of lists.now)) }
{
    if merged.states().len() != nfa.states().len() + lists.len() {
        return Ok(false);
    }
    if !are_old(nfa, merged, lists)? {
        return Ok(false);
    }
    are_further(nfa, merged, lists)
}
