//! Flattening of chains of unions: a union of two alternates whose second alternate is such a union, and so on, becomes
//! one union of all their alternates.
//!
//! A *link* of a chain is a union to which nothing leads but the union before it. What finds the links has no contract:
//! each state is then tested.
ghost use Rattle.std.specs.Prelude.{ℕ, ◌≡◌, ◌<◌, ◌∷◌, [], List, Some, IfOk, IfSome, IsFalse, IsTrue, false, length};
ghost use Rattle.automata_base.specs.Lists.{In};
ghost use Rattle.automata_base.specs.Nfas.Engines.{engine_of};
ghost use Rattle.automata_base.specs.Nfas.Nfa.{Split, node, takes_in};
ghost use Rattle.automata_base.specs.Nfas.Nodes.{nfa_of, node_of, ranges_of, dense_from};
ghost use Rattle.automata_base.specs.declared.util.search.MatchKind.{MatchKind};
ghost use Rattle.automata_transform.specs.Answers.Alike.{AnswerAlike};
ghost use Rattle.automata_transform.specs.Nfas.FlattenedNfas.{AreOfChain, IsFlatNode, IsFlattenedNfa, IsNoLink, followed};
ghost use Rattle.automata_transform.specs.Nfas.MergedNfas.{BeginsAs, KeepsBounds, KeepsCaptures};
ghost use Rattle.automata_transform.specs.Retraced.Links.{AreFlat, LeadsToNoLink};

use crate::laws::flattened_answers_alike;
use crate::merging::{bounds, copy_of, with_states};
use crate::standing::keeps_captures;
use automata_base::nfa::thompson::{NFA, State, Transition};
use automata_base::util::primitives::StateID;
use std::alloc::{AllocError, Global};

/// The least number of alternates of a chain that is flattened.
const FEWEST: usize = 32;

/// Returns the second alternate of a union of two, or none of any other state.
fn second(states: &[State], id: StateID) -> Option<StateID> {
    match states.get(id.as_usize()) {
        Some(State::BinaryUnion { alt2, .. }) => Some(*alt2),
        _ => None,
    }
}

/// Whether a chain that begins at this state may have enough alternates.
fn may_be_long(states: &[State], id: StateID) -> bool {
    let mut at = id;
    for _ in 2..FEWEST {
        match second(states, at) {
            Some(next) => at = next,
            None => return false,
        }
    }
    true
}

/// Whether some chain may have enough alternates. Most NFAs have none, which this finds without an allocation.
fn may_have_long(states: &[State]) -> bool {
    for state in states {
        if let State::BinaryUnion { alt2, .. } = state {
            if may_be_long(states, *alt2) {
                return true;
            }
        }
    }
    false
}

/// Counts an edge to this state.
fn enter(entries: &mut Vec<u8>, id: StateID) {
    if let Some(own) = entries.get_mut(id.as_usize()) {
        *own = own.saturating_add(1);
    }
}

/// Counts an edge to each of these states.
fn enter_all(entries: &mut Vec<u8>, ids: &[StateID]) {
    for id in ids {
        enter(entries, *id);
    }
}

/// Counts the edges of ranges of bytes.
fn enter_ranges(entries: &mut Vec<u8>, ranges: &[Transition]) {
    for range in ranges {
        enter(entries, range.next);
    }
}

/// Counts the edges of a state. Each byte of a dense state counts, even if it leads nowhere.
fn enter_from(entries: &mut Vec<u8>, state: &State) {
    match state {
        State::ByteRange { next, .. } => enter(entries, *next),
        State::Sparse(ranges) => enter_ranges(entries, ranges.as_slice()),
        State::Dense(targets) => enter_all(entries, targets.as_slice()),
        State::Look { next, .. } => enter(entries, *next),
        State::Union { alternates } => enter_all(entries, alternates.as_slice()),
        State::BinaryUnion { alt1, alt2 } => enter_all(entries, &[*alt1, *alt2]),
        State::Capture { next, .. } => enter(entries, *next),
        State::Fail => {}
        State::Match { .. } => {}
    }
}

/// Returns, for each state, the number of edges that lead to it, or 255 if there are more.
fn entries_of(alloc: Global, states: &[State]) -> Result<Vec<u8>, AllocError> {
    let mut entries = Vec::new(alloc);
    entries.resize(states.len(), 0)?;
    for state in states {
        enter_from(&mut entries, state);
    }
    Ok(entries)
}

/// Returns the union that a link follows, or the state itself if it is not a link.
fn followed(links: &[StateID], id: StateID) -> StateID
    ensures { result ≡ followed links.now id }
{
    match links.get(id.as_usize()) {
        Some(before) => *before,
        None => id,
    }
}

/// Whether the state is a link of a chain.
fn is_link(links: &[StateID], id: StateID) -> bool
    ensures no { IsFalse result → IsNoLink links.now id }
    ensures yes { IsTrue result → IsNoLink links.now id → ⊥ }
{
    followed(links, id) != id
}

/// Returns each state's own ID, so that no state is a link.
fn no_links(alloc: Global, count: usize) -> Result<Vec<StateID>, AllocError> {
    let mut links = Vec::with_capacity(alloc, count)?;
    for q in 0..count {
        if let Some(id) = StateID::new(q) {
            links.push(id)?;
        }
    }
    Ok(links)
}

/// Makes the second alternate of a union of two a link, if it is such a union, too, and no other edge leads to it.
fn add_link(links: &mut Vec<StateID>, states: &[State], entries: &[u8], id: StateID) {
    if let Some(next) = second(states, id) {
        let is_entered_once = entries.get(next.as_usize()) == Some(&1);
        if next != id && is_entered_once && second(states, next).is_some() {
            if let Some(own) = links.get_mut(next.as_usize()) {
                *own = id;
            }
        }
    }
}

/// Returns the link that follows a union, or none if none does.
fn link_after(links: &[StateID], states: &[State], id: StateID) -> Option<StateID> {
    let next = second(states, id)?;
    if next != id && followed(links, next) == id {
        Some(next)
    } else {
        None
    }
}

/// Whether a chain of enough alternates begins at this state.
fn is_long(links: &[StateID], states: &[State], id: StateID) -> bool {
    let mut at = id;
    for _ in 2..FEWEST {
        match link_after(links, states, at) {
            Some(next) => at = next,
            None => return false,
        }
    }
    true
}

/// Removes the links of a chain that begins at this state and is too short.
fn remove_links(links: &mut Vec<StateID>, states: &[State], id: StateID) {
    let mut at = id;
    for _ in 2..FEWEST {
        let Some(next) = link_after(links.as_slice(), states, at) else {
            return;
        };
        if let Some(own) = links.get_mut(next.as_usize()) {
            *own = next;
        }
        at = next;
    }
}

/// Removes the links of the chains that are too short.
fn remove_short(links: &mut Vec<StateID>, states: &[State]) {
    for q in 0..states.len() {
        if let Some(id) = StateID::new(q) {
            if !is_link(links.as_slice(), id) && !is_long(links.as_slice(), states, id) {
                remove_links(links, states, id);
            }
        }
    }
}

/// Returns, for each state, the union that it follows in a chain of enough alternates, or itself if it follows none.
fn links_of(nfa: &NFA) -> Result<Vec<StateID>, AllocError> {
    let states = nfa.states();
    let entries = entries_of(nfa.alloc(), states)?;
    let mut links = no_links(nfa.alloc(), states.len())?;
    for q in 0..states.len() {
        if let Some(id) = StateID::new(q) {
            add_link(&mut links, states, entries.as_slice(), id);
        }
    }
    remove_short(&mut links, states);
    Ok(links)
}

/// Whether one of these states is a link.
fn has_link(links: &[StateID], ids: &[StateID]) -> bool
    ensures { IsFalse result → (q : ℕ) → In q ids.now → IsNoLink links.now q }
{
    for i in 0..ids.len() {
        if is_link(links, ids[i]) {
            return true;
        }
    }
    false
}

/// Whether one of these ranges leads to a link.
fn ranges_have_link(links: &[StateID], ranges: &[Transition]) -> bool
    ensures { IsFalse result → (u r : ℕ) → takes_in (ranges_of ranges.now) u ≡ Some r → IsNoLink links.now r }
{
    for i in 0..ranges.len() {
        if is_link(links, ranges[i].next) {
            return true;
        }
    }
    false
}

/// Whether one of these targets of a dense state is a link.
fn dense_has_link(links: &[StateID], targets: &[StateID]) -> bool
    ensures { IsFalse result → (u r : ℕ) → takes_in (dense_from 0 targets.now) u ≡ Some r → IsNoLink links.now r }
{
    has_link(links, targets)
}

/// Whether a state leads to a link.
fn leads_to_link(links: &[StateID], state: &State) -> bool
    ensures { IsFalse result → LeadsToNoLink links.now (node_of state.now) }
{
    match state {
        State::ByteRange { next, .. } => is_link(links, *next),
        State::Sparse(ranges) => ranges_have_link(links, ranges.as_slice()),
        State::Dense(targets) => dense_has_link(links, targets.as_slice()),
        State::Look { next, .. } => is_link(links, *next),
        State::Union { alternates } => has_link(links, alternates.as_slice()),
        State::BinaryUnion { alt1, alt2 } => is_link(links, *alt1) || is_link(links, *alt2),
        State::Capture { next, .. } => is_link(links, *next),
        State::Fail => false,
        State::Match { .. } => false,
    }
}

/// Returns the alternates of a chain whose first union has these two, or none if it is not a chain.
fn alternates_of(
    nfa: &NFA,
    links: &[StateID],
    alt1: StateID,
    alt2: StateID,
) -> Result<Option<Vec<StateID>>, AllocError>
    ensures { IfOk result (λ some. IfSome some (λ all.
        AreOfChain (nfa_of nfa.now) links.now (alt1 ∷ alt2 ∷ []) all.items)) }
{
    let states = nfa.states();
    let mut all = Vec::new(nfa.alloc());
    let mut first = alt1;
    let mut last = alt2;
    for _ in 0..states.len() {
        if is_link(links, first) {
            return Ok(None);
        }
        all.push(first)?;
        if !is_link(links, last) {
            all.push(last)?;
            return Ok(Some(all));
        }
        let at = last.as_usize();
        if at >= states.len() {
            return Ok(None);
        }
        match &states[at] {
            State::BinaryUnion { alt1, alt2 } => {
                first = *alt1;
                last = *alt2;
            }
            _ => return Ok(None),
        }
    }
    Ok(None)
}

/// Returns the union that takes the place of the first union of a chain, or none if it is not a chain.
fn flat_union(
    nfa: &NFA,
    links: &[StateID],
    alt1: StateID,
    alt2: StateID,
) -> Result<Option<State>, AllocError>
    ensures { IfOk result (λ some. IfSome some (λ made. (all : List ℕ) × (node_of made ≡ Split all)
        × AreOfChain (nfa_of nfa.now) links.now (alt1 ∷ alt2 ∷ []) all)) }
{
    match alternates_of(nfa, links, alt1, alt2)? {
        Some(alternates) => Ok(Some(State::Union { alternates })),
        None => Ok(None),
    }
}

/// Returns what takes the place of a state that leads to no link, or none if it is a link and not a union of two.
fn flat_other(
    nfa: &NFA,
    links: &[StateID],
    id: StateID,
    state: &State,
) -> Result<Option<State>, AllocError>
    requires { LeadsToNoLink links.now (node_of state.now) }
    ensures { IfOk result (λ some. IfSome some (λ made.
        IsFlatNode (nfa_of nfa.now) links.now id (node_of state.now) (node_of made))) }
{
    if !is_link(links, id) {
        return Ok(Some(copy_of(nfa.alloc(), state)?));
    }
    match state {
        State::BinaryUnion { .. } => Ok(Some(State::Fail)),
        _ => Ok(None),
    }
}

/// Returns what takes the place of a union of two whose second alternate is a link, or none if that does not follow it.
fn flat_before_link(
    nfa: &NFA,
    links: &[StateID],
    id: StateID,
    alt1: StateID,
    alt2: StateID,
) -> Result<Option<State>, AllocError>
    ensures { IfOk result (λ some. IfSome some (λ made.
        IsFlatNode (nfa_of nfa.now) links.now id (Split (alt1 ∷ alt2 ∷ [])) (node_of made))) }
{
    if is_link(links, alt1) || followed(links, alt2) != id {
        return Ok(None);
    }
    if is_link(links, id) {
        return Ok(Some(State::Fail));
    }
    flat_union(nfa, links, alt1, alt2)
}

/// Returns what takes the place of the state with this ID, or none if it leads to a link that does not follow it.
/// Nothing leads to a link any more: a state that fails takes its place.
fn flat_state(
    nfa: &NFA,
    links: &[StateID],
    id: StateID,
    state: &State,
) -> Result<Option<State>, AllocError>
    ensures { IfOk result (λ some. IfSome some (λ made.
        IsFlatNode (nfa_of nfa.now) links.now id (node_of state.now) (node_of made))) }
{
    if !leads_to_link(links, state) {
        return flat_other(nfa, links, id, state);
    }
    match state {
        State::BinaryUnion { alt1, alt2 } => flat_before_link(nfa, links, id, *alt1, *alt2),
        _ => Ok(None),
    }
}

/// Returns what takes the place of the NFA's states, or none if the links are not those of chains.
fn flat_states(nfa: &NFA, links: &[StateID]) -> Result<Option<Vec<State>>, AllocError>
    ensures { IfOk result (λ some. IfSome some (λ made. AreFlat nfa.now links.now made.items)) }
{
    let states = nfa.states();
    let mut flat = Vec::with_capacity(nfa.alloc(), states.len())?;
    for q in 0..states.len() {
        let Some(id) = StateID::new(q) else {
            return Ok(None);
        };
        match flat_state(nfa, links, id, &states[q])? {
            Some(state) => flat.push(state)?,
            None => return Ok(None),
        }
    }
    Ok(Some(flat))
}

/// Whether no search begins at a link.
fn begins_at_no_link(nfa: &NFA, links: &[StateID]) -> bool
    ensures { IsTrue result → (q : ℕ)
        → In q (nfa.now.start_anchored ∷ nfa.now.start_unanchored ∷ nfa.now.start_pattern) → IsNoLink links.now q }
{
    !is_link(links, nfa.start_anchored())
        && !is_link(links, nfa.start_unanchored())
        && !has_link(links, nfa.pattern_starts())
}

/// Returns the NFA with its long chains of unions flattened: the union that begins a chain gets the alternates of all
/// unions of the chain, in order. So `merged` can merge them, as it merges the union of a set.
///
/// A chain is a union of two alternates whose second alternate is such a union, to which no other edge leads, and so
/// on: the compiler of patterns makes `a|b|c` one. Its searches, walks, spans and sets give the same answers, and its
/// starts and flags are the same. The states keep their IDs, and captures their groups and slots; the unions after
/// the first of a chain become states that fail, since nothing leads to them any more. The result is the NFA itself if
/// no chain has 32 alternates, if the NFA keeps unions (`NFA::keeping_unions`), or if a search begins inside a chain.
/// The only error is out of memory. The call takes time linear in the states and their edges.
pub fn flattened(nfa: &NFA) -> Result<NFA, AllocError>
    ensures alike { IfOk result (λ made. (kind : MatchKind)
        → AnswerAlike (engine_of nfa.now kind) (engine_of made kind)) }
    ensures flattened { IfOk result (λ made. IsFlattenedNfa nfa.now made) }
    ensures bounds { IfOk result (λ made. KeepsBounds nfa.now made) }
    ensures captures { IfOk result (λ made. KeepsCaptures nfa.now made) }
{
    flattened_answers_alike();
    flattened_if_long(nfa)
}

/// Returns the NFA with its chains flattened, if one of them may be long.
fn flattened_if_long(nfa: &NFA) -> Result<NFA, AllocError>
    ensures flattened { IfOk result (λ made. IsFlattenedNfa nfa.now made) }
    ensures bounds { IfOk result (λ made. KeepsBounds nfa.now made) }
    ensures captures { IfOk result (λ made. KeepsCaptures nfa.now made) }
{
    if nfa.keeps_unions() || !may_have_long(nfa.states()) {
        return unflattened(nfa);
    }
    let links = links_of(nfa)?;
    match flat_states(nfa, links.as_slice())? {
        Some(states) => flattened_as(nfa, links.as_slice(), states),
        None => unflattened(nfa),
    }
}

/// Returns the NFA, with nothing flattened.
fn unflattened(nfa: &NFA) -> Result<NFA, AllocError>
    ensures flattened { IfOk result (λ made. IsFlattenedNfa nfa.now made) }
    ensures bounds { IfOk result (λ made. KeepsBounds nfa.now made) }
    ensures captures { IfOk result (λ made. KeepsCaptures nfa.now made) }
{
    nfa.clone()
}

/// Returns the NFA of these states, or `nfa` if they are not those of an NFA.
fn flattened_as(nfa: &NFA, links: &[StateID], states: Vec<State>) -> Result<NFA, AllocError>
    requires unions { nfa.now.keeps_unions ≡ false }
    requires flat { AreFlat nfa.now links.now states.items }
    ensures flattened { IfOk result (λ made. IsFlattenedNfa nfa.now made) }
    ensures bounds { IfOk result (λ made. KeepsBounds nfa.now made) }
    ensures captures { IfOk result (λ made. KeepsCaptures nfa.now made) }
{
    match with_states(nfa, states)? {
        Some(made) => if_flattened(nfa, links, made),
        None => unflattened(nfa),
    }
}

/// Returns `made` if no search begins at a link and it keeps the bounds of `nfa`, and otherwise `nfa`.
fn if_flattened(nfa: &NFA, links: &[StateID], made: NFA) -> Result<NFA, AllocError>
    requires begins { BeginsAs nfa.now made }
    requires flat { AreFlat nfa.now links.now made.states }
    ensures flattened { IfOk result (λ m. IsFlattenedNfa nfa.now m) }
    ensures bounds { IfOk result (λ m. KeepsBounds nfa.now m) }
    ensures captures { IfOk result (λ m. KeepsCaptures nfa.now m) }
{
    let has_same_empty = made.has_empty() == nfa.has_empty();
    if has_same_empty
        && begins_at_no_link(nfa, links)
        && bounds(nfa, &made)
        && keeps_captures(nfa, &made)
    {
        return Ok(made);
    }
    unflattened(nfa)
}
