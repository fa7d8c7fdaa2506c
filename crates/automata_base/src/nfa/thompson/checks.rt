//! The tests of `NFA::from_states`.
ghost use Rattle.std.specs.Prelude.{◌≡◌, ◌<◌, ◌-◌, ◌+◌, ltb, leb, ◌&&◌, ℕ, Some};
ghost use Rattle.automata_base.specs.Lists.{all_below};
ghost use Rattle.automata_base.specs.Nfas.Totals.{AreTotals};
ghost use Rattle.automata_base.specs.Nfas.Errors.{transitions_below, state_below, states_below, match_below};
ghost use Rattle.automata_base.specs.Nfas.Errors.{matches_below};
ghost use Rattle.automata_base.specs.Nfas.Errors.{ordered_from, state_ordered, states_ordered, alternates_of};
ghost use Rattle.automata_base.specs.Nfas.Errors.{is_small, is_narrow, starts_below, states_error};
ghost use Rattle.std.specs.Prelude.{false, true, None, IsTrue, IsOk, IfOk, IfSome, OnSome};

use crate::nfa::thompson::reading::add_look;
use crate::nfa::thompson::state::{NfaError, State, Transition};
use crate::util::look::LookSet;
use crate::util::primitives::{PatternID, StateID};

// 2^27: the most states, and the most patterns, of an NFA.
pub const MAX_STATES: usize = 134_217_728;

// 2^31: the most alternates, in all unions together.
const MAX_ALTERNATES: usize = 2_147_483_648;

/// Whether the state's ID is below `n`.
fn is_below(id: StateID, n: usize) -> bool
    ensures { result ≡ ltb id n }
{
    id.as_usize() < n
}

/// Whether the pattern's ID is below `n`.
fn pattern_below(p: PatternID, n: usize) -> bool
    ensures { result ≡ ltb p n }
{
    p.as_usize() < n
}

/// Whether the edge leads to a state below `n`.
fn next_below(t: &Transition, n: usize) -> bool
    ensures { result ≡ ltb t.now.next n }
{
    t.next.as_usize() < n
}

/// Whether each of these states is below `n`.
fn ids_below(xs: &[StateID], n: usize) -> bool
    ensures { result ≡ all_below n xs.now }
{
    for i in 0..xs.len() {
        if !is_below(xs[i], n) {
            return false;
        }
    }
    true
}

/// Whether each of these edges leads to a state below `n`.
fn targets_below(xs: &[Transition], n: usize) -> bool
    ensures { result ≡ transitions_below n xs.now }
{
    for i in 0..xs.len() {
        if !next_below(&xs[i], n) {
            return false;
        }
    }
    true
}

/// Whether each edge of the state leads to a state below `n`.
fn is_state_below(state: &State, n: usize) -> bool
    ensures { result ≡ state_below n state.now }
{
    match state {
        State::ByteRange { next, .. } => is_below(*next, n),
        State::Sparse(transitions) => targets_below(transitions, n),
        State::Dense(targets) => ids_below(targets.as_slice(), n),
        State::Look { next, .. } => is_below(*next, n),
        State::Union { alternates } => ids_below(alternates, n),
        State::BinaryUnion { alt1, alt2 } => is_below(*alt1, n) && is_below(*alt2, n),
        State::Capture { next, .. } => is_below(*next, n),
        State::Fail => true,
        State::Match { .. } => true,
    }
}

/// Whether the state, if it is a match state, has a pattern below `n`.
fn is_match_below(state: &State, n: usize) -> bool
    ensures { result ≡ match_below n state.now }
{
    match state {
        State::Match { pattern } => pattern_below(*pattern, n),
        _ => true,
    }
}

/// Whether each edge of these states leads to a state below `n`.
fn are_below(states: &[State], n: usize) -> bool
    ensures { result ≡ states_below n states.now }
{
    for i in 0..states.len() {
        if !is_state_below(&states[i], n) {
            return false;
        }
    }
    true
}

/// Whether the pattern of each match state is below `n`.
fn are_matches_below(states: &[State], n: usize) -> bool
    ensures { result ≡ matches_below n states.now }
{
    for i in 0..states.len() {
        if !is_match_below(&states[i], n) {
            return false;
        }
    }
    true
}

/// Whether the state's targets are below `n`, its ranges are in order, and its pattern is below `patterns`.
fn is_sound(state: &State, n: usize, patterns: usize) -> bool
    ensures below { IsTrue result → state_below n state.now ≡ true }
    ensures ordered { IsTrue result → state_ordered state.now ≡ true }
    ensures matches { IsTrue result → match_below patterns state.now ≡ true }
{
    match state {
        State::ByteRange { lo, hi, next } => is_below(*next, n) && is_range(*lo, *hi),
        State::Sparse(transitions) => targets_below(transitions, n) && is_ordered(transitions),
        State::Dense(targets) => ids_below(targets.as_slice(), n),
        State::Look { next, .. } => is_below(*next, n),
        State::Union { alternates } => ids_below(alternates, n),
        State::BinaryUnion { alt1, alt2 } => is_below(*alt1, n) && is_below(*alt2, n),
        State::Capture { next, .. } => is_below(*next, n),
        State::Fail => true,
        State::Match { pattern } => pattern_below(*pattern, patterns),
    }
}

/// Whether the targets of all states are below `n`, their ranges are in order, and their patterns are below `patterns`.
/// It reads each state once.
fn are_sound(states: &[State], n: usize, patterns: usize) -> bool
    ensures below { IsTrue result → states_below n states.now ≡ true }
    ensures ordered { IsTrue result → states_ordered states.now ≡ true }
    ensures matches { IsTrue result → matches_below patterns states.now ≡ true }
{
    for i in 0..states.len() {
        if !is_sound(&states[i], n, patterns) {
            return false;
        }
    }
    true
}

/// Whether the range begins at byte `low` or after it, and does not end before it begins.
fn fits(t: &Transition, low: usize) -> bool
    ensures { result ≡ (leb low t.now.lo && leb t.now.lo t.now.hi) }
{
    low <= usize::from(t.lo) && t.lo <= t.hi
}

/// Returns one more than the byte, 1 to 256: the least byte that the next range may begin with.
fn above(hi: u8) -> usize
    ensures { result ≡ hi + 1 }
{
    usize::from(hi) + 1
}

/// Whether the ranges of a sparse state are sorted, no two overlap, and none ends before it begins.
fn is_ordered(xs: &[Transition]) -> bool
    ensures { result ≡ ordered_from 0 xs.now }
{
    let mut low = 0;
    for i in 0..xs.len() {
        let t = xs[i];
        if !fits(&t, low) {
            return false;
        }
        low = above(t.hi);
    }
    true
}

/// Whether the range from `lo` to `hi` does not end before it begins.
fn is_range(lo: u8, hi: u8) -> bool
    ensures { result ≡ leb lo hi }
{
    lo <= hi
}

/// Whether the ranges of the state are in order. It is true for a state without ranges.
fn is_state_ordered(state: &State) -> bool
    ensures { result ≡ state_ordered state.now }
{
    match state {
        State::ByteRange { lo, hi, .. } => is_range(*lo, *hi),
        State::Sparse(transitions) => is_ordered(transitions),
        _ => true,
    }
}

/// Whether the ranges of each state are in order.
fn are_ordered(states: &[State]) -> bool
    ensures { result ≡ states_ordered states.now }
{
    for i in 0..states.len() {
        if !is_state_ordered(&states[i]) {
            return false;
        }
    }
    true
}

/// Returns the number of alternates of the state: two if it is a binary union, and zero if it is not a union.
fn count_alternates(state: &State) -> usize
    ensures count { result ≡ alternates_of state.now }
{
    match state {
        State::Union { alternates } => alternates.len(),
        State::BinaryUnion { .. } => 2,
        _ => 0,
    }
}

/// Totals over the states of an NFA.
#[derive(Clone, Copy)]
pub struct Totals {
    /// The room that the stack of a closure needs, in states.
    pub room: usize,
    /// The looks that occur.
    pub looks: LookSet,
}

/// Returns the totals of these states, or none if the unions have more than 2^31 alternates in all. It reads each state
/// once.
pub fn totals_of(states: &[State]) -> Option<Totals>
    ensures totals { IfSome result (AreTotals states.now) }
    ensures few { OnSome result (is_narrow states.now ≡ true) }
    ensures none { result ≡ None → is_narrow states.now ≡ false }
{
    let mut total: usize = 0;
    let mut room: usize = 1;
    let mut looks = LookSet::empty();
    for i in 0..states.len() {
        let more = count_alternates(&states[i]);
        if more > MAX_ALTERNATES - total {
            return None;
        }
        total = total + more;
        room = room + more.saturating_sub(1);
        looks = add_look(looks, &states[i]);
    }
    Some(Totals { room, looks })
}

/// Whether there are at most 2^27 states and at most 2^27 patterns.
fn has_few(states: &[State], starts: &[StateID]) -> bool
    ensures { result ≡ is_small states.now starts.now }
{
    states.len() <= MAX_STATES && starts.len() <= MAX_STATES
}

/// Whether the anchored start, the unanchored start, and the starts of the patterns are below `n`.
fn are_starts(n: usize, anchored: StateID, unanchored: StateID, starts: &[StateID]) -> bool
    ensures { result ≡ starts_below n anchored unanchored starts.now }
{
    is_below(anchored, n) && is_below(unanchored, n) && ids_below(starts, n)
}

/// Runs the tests of `NFA::from_states`, in order, and returns the totals of the states.
pub fn test(
    states: &[State],
    anchored: StateID,
    unanchored: StateID,
    starts: &[StateID],
) -> Result<Totals, NfaError>
    ensures refused { (error : NfaError)
        → states_error states.now anchored unanchored starts.now ≡ Some error → result ≡ Err error }
    ensures totals { IfOk result (AreTotals states.now) }
    ensures passed { states_error states.now anchored unanchored starts.now ≡ None → IsOk result }
{
    if !has_few(states, starts) {
        return Err(NfaError::TooLarge);
    }
    let Some(totals) = totals_of(states) else {
        return Err(NfaError::TooLarge);
    };
    if !are_starts(states.len(), anchored, unanchored, starts) {
        return Err(NfaError::StartRange);
    }
    // Most lists pass. If one does not, the tests are run one by one, to find the first that fails.
    if are_sound(states, states.len(), starts.len()) {
        return Ok(totals);
    }
    if !are_below(states, states.len()) {
        return Err(NfaError::StateRange);
    }
    if !are_ordered(states) {
        return Err(NfaError::Ranges);
    }
    if !are_matches_below(states, starts.len()) {
        return Err(NfaError::PatternRange);
    }
    Ok(totals)
}
