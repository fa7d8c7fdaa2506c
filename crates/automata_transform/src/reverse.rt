//! The states of a reversed NFA, and the NFA that is built of them.
ghost use Rattle.std.specs.Prelude.{◌≡◌, ◌<◌, ◌≤◌, ◌+◌, ◌*◌, ◌^◌, ◌++◌, [], ◌∷◌, true, IfOk, Err, length, sum_by};
ghost use Rattle.std.specs.Prelude.{◌↔◌, IsTrue, IfSome, None, Some};
ghost use Rattle.automata_transform.specs.Retraced.Copies.{IsFit};
ghost use Rattle.automata_base.specs.Lists.{all_below, Distinct};
ghost use Rattle.automata_base.specs.Nfas.Nfa.{Node};
ghost use Rattle.automata_base.specs.Nfas.Nodes.{nodes_of, stack_room};
ghost use Rattle.automata_base.specs.Nfas.Errors.{states_below, states_ordered};
ghost use Rattle.automata_transform.specs.Nfas.ReversedSizes.{asking_edges, MayBeTooLarge, most_states};
ghost use Rattle.automata_transform.specs.Nfas.ReversedSizes.{most_alternates};
ghost use Rattle.automata_transform.specs.Retraced.Folds.{AddsNoLook};
ghost use Rattle.automata_transform.specs.Retraced.ReversedEdges.{AreTurned, AreReversed};
ghost use Rattle.automata_base.specs.Nfas.Accepted.{IsChecked};
ghost use Rattle.automata_base.specs.Nfas.Automata.{automaton};
ghost use Rattle.automata_transform.specs.Nfas.Mirrors.{BeginsAlike, IsReversalOf, ReadsAlike, reversed_flags};
ghost use Rattle.automata_transform.specs.Nfas.Mirrors.{IsReversedByPattern};
ghost use Rattle.automata_base.specs.declared.util.search.MatchKind.{MatchKind};
ghost use Rattle.automata_base.specs.Nfas.Engines.{engine_of};
ghost use Rattle.automata_base.specs.Nfas.Getters.{SkipsLazily};
ghost use Rattle.automata_base.specs.Answers.TruePairs.{IsTruePair};

use crate::copies::{Parts, parts_of};
use crate::folding::{fold, has_wide};
use crate::turn::{EdgesByTarget, MakeError, push_state};
use automata_base::nfa::thompson::checks::{MAX_STATES, totals_of};
use automata_base::nfa::thompson::reach::{Edges, reach, reaches_match};
use automata_base::nfa::thompson::{Flags, NFA, NfaError, State};
use automata_base::util::primitives::StateID;
use automata_base::util::search::MatchKind;
use std::alloc::{AllocError, Global};
use thiserror::Error;

/// A folded NFA may need this many times the room for a closure that it needs before it is folded. The classes of
/// Unicode need up to 2.3 times as much.
const MOST_ROOM: usize = 4;

/// Why an NFA cannot be reversed.
#[derive(Clone, Copy, Debug, PartialEq, Eq, Error)]
pub enum ReverseError {
    /// The empty match is reached from the start of some pattern and not from the anchored start, or the other way
    /// round.
    #[error("only some of the starts match the empty string, so a reversed NFA would match differently")]
    Starts,
    /// The reversed NFA might have more states or alternates than an NFA may have, by a bound on its size.
    #[error("the reversed NFA would be too large")]
    TooLarge,
    /// An allocation failed.
    #[error("out of memory")]
    OutOfMemory,
}

impl From<AllocError> for ReverseError {
    ghost use Rattle.std.specs.Prelude.{◌≡◌};
    ghost use Rattle.automata_transform.specs.declared.reverse.ReverseError.TheVariants.{OutOfMemory};

    ghost from_gives = { λ _ e. e ≡ OutOfMemory };

    fn from(_e: AllocError) -> ReverseError {
        ReverseError::OutOfMemory
    }
}

/// Returns the error of reversing an NFA whose states cannot be made.
pub fn reverse_error(error: MakeError) -> ReverseError
    ensures large { result ≡ ReverseError.TooLarge → error ≡ MakeError.TooLarge }
    ensures starts { result ≡ ReverseError.Starts → ⊥ }
{
    match error {
        MakeError::TooLarge => ReverseError::TooLarge,
        MakeError::OutOfMemory => ReverseError::OutOfMemory,
    }
}

/// Returns the error of reversing an NFA from whose states no NFA is built.
fn build_error(error: NfaError) -> ReverseError
    ensures large { result ≡ ReverseError.TooLarge → error ≡ NfaError.TooLarge }
    ensures starts { result ≡ ReverseError.Starts → ⊥ }
{
    match error {
        NfaError::TooLarge => ReverseError::TooLarge,
        _ => ReverseError::OutOfMemory,
    }
}

/// Returns the reversed states of those that are reached: for each state of the NFA, the union of the reversed edges to
/// it, and after these a state for each reversed edge that reads a byte or tests a look. If there are more than 2^27,
/// it fails with `TooLarge`.
fn turned_states(
    alloc: Global,
    states: &[State],
    first: StateID,
    reached: &[StateID],
) -> Result<Vec<State>, MakeError>
    requires few { length states.now ≤ 2 ^ 27 }
    requires range { states_below (length states.now) states.now ≡ true }
    requires below { all_below (length states.now) reached.now ≡ true }
    requires distinct { Distinct reached.now }
    requires first { first < length states.now }
    ensures turned { IfOk result (λ v. AreTurned states.now reached.now first v.items) }
    ensures few { IfOk result (λ v. length v.items ≤ 2 ^ 27) }
    ensures large { result ≡ Err MakeError.TooLarge → 2 ^ 27 < length states.now + sum_by asking_edges states.now + 1 }
{
    let mut turning = EdgesByTarget::new(alloc, states.len())?;
    turning.turn_states(states, reached)?;
    turning.report(first)?;
    let turned = turning.into_states()?;
    if turned.len() > MAX_STATES {
        return Err(MakeError::TooLarge);
    }
    Ok(turned)
}

/// The states of a reversed NFA, the starts of its patterns, and its start.
#[derive(Drop)]
pub struct Mirror {
    pub states: Vec<State>,
    pub entries: Vec<StateID>,
    pub root: StateID,
}

/// Adds the root after the parts of the patterns: the union of their entries. If there are 2^27 states already, it
/// fails with `TooLarge`.
fn rooted(alloc: Global, parts: Parts) -> Result<Mirror, MakeError>
    ensures nodes { IfOk result (λ m. nodes_of m.states.items
        ≡ nodes_of parts.states.items ++ Node.Split parts.entries.items ∷ []) }
    ensures entries { IfOk result (λ m. m.entries.items ≡ parts.entries.items) }
    ensures root { IfOk result (λ m. m.root ≡ length parts.states.items) }
    ensures small { IfOk result (λ m. length m.states.items ≤ 2 ^ 27) }
    ensures large { result ≡ Err MakeError.TooLarge → 2 ^ 27 ≤ length parts.states.items }
{
    let Parts {
        mut states,
        entries,
    } = parts;
    if states.len() >= MAX_STATES {
        return Err(MakeError::TooLarge);
    }
    let root = StateID::new_unchecked(states.len() as u32);
    let alternates = Vec::from_slice(alloc, &entries)?;
    push_state(&mut states, State::Union { alternates })?;
    Ok(Mirror {
        states,
        entries,
        root,
    })
}

/// Makes the states of the reversed NFA, for the states that are reached from `first`.
pub fn reverse_states(
    alloc: Global,
    states: &[State],
    first: StateID,
    patterns: usize,
) -> Result<Mirror, MakeError>
    requires few { length states.now ≤ 2 ^ 27 }
    requires range { states_below (length states.now) states.now ≡ true }
    requires ordered { states_ordered states.now ≡ true }
    requires first { first < length states.now }
    requires patterns { patterns ≤ 2 ^ 27 }
    ensures mirrored { IfOk result (λ m.
        AreReversed states.now first patterns m.states.items m.entries.items m.root) }
    ensures fit { IfOk result (λ m. IsFit states.now patterns m.states.items m.entries.items m.root) }
    ensures large { result ≡ Err MakeError.TooLarge
        → 2 ^ 27 < (patterns + 1) * (length states.now + sum_by asking_edges states.now + 2) }
{
    let reached = reach(alloc, states, &[first], Edges::Every)?;
    let ids = reached.as_slice();
    let mut turned = turned_states(alloc, states, first, ids)?;
    let parts = parts_of(alloc, states, &mut turned, ids, patterns)?;
    let mirror = rooted(alloc, parts)?;
    Ok(mirror)
}

/// Returns the reversed NFA. Reading backward, it accepts what the NFA accepts from its anchored start: each part of a
/// haystack, by the same patterns. A regex uses it to find where a match starts; `regex::Builder::build_from_nfa` makes
/// both at once.
///
/// It is meant for anchored searches under `MatchKind::All`, and its anchored and unanchored starts are the same
/// state. With it, a search for pattern k accepts what the NFA accepts by pattern k. Its reverse flag is flipped,
/// and its other flags are the same. Reversing takes time linear in the sizes of both NFAs.
///
/// For each pattern, the reversed NFA has states for what is reached from the anchored start and leads to a match
/// of the pattern: one for each such state, and one for each edge that reads a byte or tests a look. So it has at
/// most `(P + 1) * (n + r + 2)` states, where P is the number of patterns, n of states, and r of such edges.
/// Adjacent bytes of a `Dense` state that lead to the same state count as one edge.
///
/// Where many edges that read bytes lead to one state, as to the match of a large class of characters, a single
/// state reads in place of the states of these edges, and some of those are reused for the sets of states that a
/// byte leads to. The number of states stays the same. This is not done if the stack of a closure would then need
/// more than four times the room.
///
/// It fails if the empty match is reached from the start of a pattern and not from the anchored start, or the other
/// way round, since then the two would not omit the same empty matches in UTF-8 mode; if by that bound, or a
/// similar one for alternates, the reversed NFA might be too large; and if an allocation fails. A regex of the two
/// also needs the NFA to skip lazily (`NFA::skips_lazily`).
///
/// ```text
/// let reverse = reversed(&forward)?;
/// let regex = Regex::builder().build_from_nfas(forward, reverse)?;
/// ```
pub fn reversed(nfa: &NFA) -> Result<NFA, ReverseError>
    ensures turned { IfOk result (λ reversed. IsReversalOf nfa.now reversed) }
    ensures pair { IfOk result (λ reversed. SkipsLazily nfa.now
        → (kind : MatchKind) → IsTruePair (engine_of nfa.now kind) (engine_of reversed MatchKind.All)) }
    ensures patterns { IfOk result (λ reversed. IsReversedByPattern nfa.now reversed) }
    ensures alike { IfOk result (λ reversed. BeginsAlike nfa.now) }
    ensures starts { result ≡ Err ReverseError.Starts → BeginsAlike nfa.now → ⊥ }
    ensures size { IfOk result (λ reversed. length reversed.states ≤ most_states nfa.now) }
    ensures tested { result ≡ Err ReverseError.TooLarge → BeginsAlike nfa.now }
    ensures large { result ≡ Err ReverseError.TooLarge → MayBeTooLarge nfa.now }
{
    let alike = begins_alike(nfa)?;
    let reversed = reversed_if(nfa, alike)?;
    Ok(reversed)
}

/// Whether the empty match is reached from the start of some pattern exactly if it is reached from the anchored
/// start.
fn begins_alike(nfa: &NFA) -> Result<bool, AllocError>
    ensures { IfOk result (λ alike. IsTrue alike ↔ BeginsAlike nfa.now) }
{
    let begins = reaches_match(nfa.alloc(), nfa.states(), &[nfa.start_anchored()])?;
    Ok(begins == nfa.has_empty())
}

/// Returns the flags of the reversed NFA: those of the NFA, with the reverse flag flipped.
fn turned_flags(given: Flags) -> Flags
    ensures { result ≡ reversed_flags given }
{
    Flags {
        reverse: !given.reverse,
        ..given
    }
}

/// Builds the reversed NFA of these states, with the reverse flag flipped and the other flags of the NFA unchanged. If
/// its unions have too many alternates, it fails with `TooLarge`.
fn mirrored(nfa: &NFA, mirror: Mirror) -> Result<NFA, ReverseError>
    requires fit { IsFit
        nfa.now.states (length nfa.now.start_pattern) mirror.states.items mirror.entries.items mirror.root }
    requires few { length mirror.entries.items ≡ length nfa.now.start_pattern }
    ensures same { IfOk result (λ made. made ≡ automaton
        mirror.states.items mirror.root mirror.root mirror.entries.items (reversed_flags nfa.now.flags)) }
    ensures large { result ≡ Err ReverseError.TooLarge → 2 ^ 31 < most_alternates nfa.now }
    ensures starts { result ≡ Err ReverseError.Starts → ⊥ }
{
    let Mirror {
        states,
        entries,
        root,
    } = mirror;
    let _states = nfa.states();
    let given = nfa.flags();
    let flags = turned_flags(given);
    match NFA::from_states(nfa.alloc(), states, root, root, entries, flags) {
        Ok(made) => Ok(made),
        Err(error) => Err(build_error(error)),
    }
}

/// Returns the states of the reversed NFA.
fn mirror_of(nfa: &NFA) -> Result<Mirror, ReverseError>
    ensures reversed { IfOk result (λ m. AreReversed nfa.now.states nfa.now.start_anchored
        (length nfa.now.start_pattern) m.states.items m.entries.items m.root) }
    ensures fit { IfOk result (λ m. IsFit
        nfa.now.states (length nfa.now.start_pattern) m.states.items m.entries.items m.root) }
    ensures checked { IfOk result (λ m. IsChecked nfa.now) }
    ensures large { result ≡ Err ReverseError.TooLarge → 2 ^ 27 < most_states nfa.now }
    ensures starts { result ≡ Err ReverseError.Starts → ⊥ }
{
    let states = nfa.states();
    let first = nfa.start_anchored();
    match reverse_states(nfa.alloc(), states, first, nfa.pattern_len()) {
        Ok(mirror) => Ok(mirror),
        Err(error) => Err(reverse_error(error)),
    }
}

/// Returns the room that the stack of a closure needs for these states, or 0 if they have too many alternates.
fn room_of(states: &[State]) -> usize
    ensures { result ≤ stack_room states.now }
{
    match totals_of(states) {
        Some(totals) => totals.room,
        None => 0,
    }
}

/// Returns the NFA if the stack of a closure needs at most `MOST_ROOM` times this room, and otherwise none.
fn within_room(made: NFA, room: usize) -> Option<NFA>
    ensures same { IfSome result (λ kept. kept ≡ made) }
    ensures room { IfSome result (λ kept. stack_room kept.states ≤ 4 * room) }
{
    if made.room() <= room.saturating_mul(MOST_ROOM) {
        Some(made)
    } else {
        None
    }
}

/// Returns the reversed NFA of these states with its wide unions folded, or none if there are not enough free
/// states, too many alternates, or too little room for a closure.
fn folded(nfa: &NFA, mirror: Mirror) -> Result<Option<NFA>, ReverseError>
    requires { IsFit
        nfa.now.states (length nfa.now.start_pattern) mirror.states.items mirror.entries.items mirror.root }
    ensures alike { IfOk result (λ some. IfSome some (λ made. ReadsAlike (automaton mirror.states.items mirror.root
        mirror.root mirror.entries.items (reversed_flags nfa.now.flags)) made)) }
    ensures looks { IfOk result (λ some. IfSome some (λ made. AddsNoLook mirror.states.items made.states)) }
    ensures room { IfOk result (λ some. IfSome some (λ made.
        stack_room made.states ≤ 4 * stack_room mirror.states.items)) }
    ensures size { IfOk result (λ some. IfSome some (λ made. length made.states ≡ length mirror.states.items)) }
    ensures large { result ≡ Err ReverseError.TooLarge → ⊥ }
    ensures starts { result ≡ Err ReverseError.Starts → ⊥ }
{
    let Mirror {
        mut states,
        entries,
        root,
    } = mirror;
    let room = room_of(states.as_slice());
    match fold(nfa.alloc(), &mut states, root, entries.as_slice()) {
        Ok(()) => {}
        Err(MakeError::TooLarge) => return Ok(None),
        Err(MakeError::OutOfMemory) => return Err(ReverseError::OutOfMemory),
    }
    let given = nfa.flags();
    let flags = turned_flags(given);
    match NFA::from_states(nfa.alloc(), states, root, root, entries, flags) {
        Ok(made) => Ok(within_room(made, room)),
        Err(NfaError::OutOfMemory) => Err(ReverseError::OutOfMemory),
        Err(_) => Ok(None),
    }
}

/// Returns the reversed NFA, if the starts begin alike. If they do not, it fails with `Starts` and allocates
/// nothing.
fn reversed_if(nfa: &NFA, alike: bool) -> Result<NFA, ReverseError>
    requires { IsTrue alike ↔ BeginsAlike nfa.now }
    ensures turned { IfOk result (λ reversed. IsReversalOf nfa.now reversed) }
    ensures alike { IfOk result (λ reversed. BeginsAlike nfa.now) }
    ensures tested { result ≡ Err ReverseError.TooLarge → BeginsAlike nfa.now }
    ensures starts { (result ≡ Err ReverseError.Starts) ↔ (BeginsAlike nfa.now → ⊥) }
    ensures size { IfOk result (λ reversed. length reversed.states ≤ most_states nfa.now) }
    ensures large { result ≡ Err ReverseError.TooLarge → MayBeTooLarge nfa.now }
    ensures checked { IfOk result (λ reversed. IsChecked nfa.now) }
{
    if !alike {
        return Err(ReverseError::Starts);
    }
    let mirror = mirror_of(nfa)?;
    if has_wide(&mirror.states) {
        if let Some(folded) = folded(nfa, mirror)? {
            return Ok(folded);
        }
        let again = mirror_of(nfa)?;
        let unfolded = mirrored(nfa, again)?;
        return Ok(unfolded);
    }
    let reversed = mirrored(nfa, mirror)?;
    Ok(reversed)
}
