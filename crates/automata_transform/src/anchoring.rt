//! NFAs whose matches begin only at the start of a haystack: their unanchored searches need no lazy loop.
ghost use Rattle.std.specs.Prelude.{◌≡◌, ◌<◌, ◌↔◌, ℕ, false, length, IfOk, IsTrue};
ghost use Rattle.automata_base.specs.Lists.{In};
ghost use Rattle.automata_base.specs.Nfas.Engines.{engine_of};
ghost use Rattle.automata_base.specs.Nfas.Nfa.{ends_at};
ghost use Rattle.automata_base.specs.Nfas.Nodes.{node_of, nodes_of};
ghost use Rattle.automata_base.specs.Retraced.Reach.{node_in};
ghost use Rattle.automata_base.specs.declared.util.search.MatchKind.{MatchKind};
ghost use Rattle.automata_transform.specs.Answers.Alike.{AnswerAlike};
ghost use Rattle.automata_transform.specs.Nfas.AnchoredNfas.{AssertsStart, BeginsAnchoredAs, IsAnchoredNfa};
ghost use Rattle.automata_transform.specs.Nfas.AnchoredNfas.{MayBeginAnchored, NeedsStart};

use crate::laws::anchored_answers_alike;
use crate::merging::copy_of;
use automata_base::nfa::thompson::closure::close;
use automata_base::nfa::thompson::reach::set_for;
use automata_base::nfa::thompson::{NFA, State};
use automata_base::util::look::{Look, LookSet};
use automata_base::util::primitives::StateID;
use std::alloc::{AllocError, Global};

/// The bits of every look but `Look::Start`, which is the lowest bit.
const ALL_BUT_START: u32 = 0x3FFFE;

/// Whether the state reads a byte or is a match state.
fn is_end(state: &State) -> bool
    ensures { result ≡ ends_at (node_of state.now) }
{
    match state {
        State::ByteRange { .. } | State::Sparse(_) | State::Dense(_) | State::Match { .. } => true,
        State::Look { .. }
        | State::Union { .. }
        | State::BinaryUnion { .. }
        | State::Capture { .. }
        | State::Fail => false,
    }
}

/// Whether none of these states reads a byte or is a match state.
fn have_no_end(states: &[State], ids: &[StateID]) -> bool
    requires { (q : ℕ) → In q ids.now → q < length states.now }
    ensures { IsTrue result ↔ ((q : ℕ) → In q ids.now → ends_at (node_in states.now q) ≡ false) }
{
    for id in ids {
        if is_end(&states[id.as_usize()]) {
            return false;
        }
    }
    true
}

/// Whether epsilon edges from the anchored start lead to no state that reads a byte or matches, where `Look::Start`
/// does not hold.
fn needs_start(nfa: &NFA) -> Result<bool, AllocError>
    ensures { IfOk result (λ needs. IsTrue needs ↔ NeedsStart nfa.now) }
{
    let mut set = set_for(nfa.alloc(), nfa.states())?;
    let mut stack = Vec::with_capacity(nfa.alloc(), nfa.room())?;
    let looks = LookSet::from_bits(ALL_BUT_START);
    close(nfa, &[nfa.start_anchored()], looks, &mut stack, &mut set);
    Ok(have_no_end(nfa.states(), set.as_slice()))
}

/// Whether each path from the anchored start passes `Look::Start` before it reads a byte or matches. It follows no
/// edges if the NFA does not have that look.
fn asserts_start(nfa: &NFA) -> Result<bool, AllocError>
    ensures { IfOk result (λ asserts. IsTrue asserts ↔ AssertsStart nfa.now) }
{
    if nfa.look_set_any().contains(Look::Start) {
        needs_start(nfa)
    } else {
        Ok(false)
    }
}

/// Whether the unanchored searches of the NFA may begin at its anchored start.
fn may_begin_anchored(nfa: &NFA) -> Result<bool, AllocError>
    ensures { IfOk result (λ may. IsTrue may ↔ MayBeginAnchored nfa.now) }
{
    if nfa.keeps_unions() {
        return Ok(false);
    }
    if nfa.skips_lazily() {
        asserts_start(nfa)
    } else {
        Ok(false)
    }
}

/// Returns copies of the states.
fn copies_of(alloc: Global, states: &[State]) -> Result<Vec<State>, AllocError>
    ensures { IfOk result (λ copies. nodes_of copies.items ≡ nodes_of states.now) }
{
    let mut copies = Vec::with_capacity(alloc, states.len())?;
    for state in states {
        let copy = copy_of(alloc, state)?;
        copies.push(copy)?;
    }
    Ok(copies)
}

/// Returns the NFA with its anchored start as its unanchored start.
fn begin_anchored(nfa: &NFA) -> Result<NFA, AllocError>
    requires { nfa.now.keeps_unions ≡ false }
    ensures { IfOk result (λ made. BeginsAnchoredAs nfa.now made) }
{
    let states = copies_of(nfa.alloc(), nfa.states())?;
    let starts = Vec::from_slice(nfa.alloc(), nfa.pattern_starts())?;
    let start = nfa.start_anchored();
    match NFA::from_states(nfa.alloc(), states, start, start, starts, nfa.flags()) {
        Ok(made) => Ok(made),
        // These are the states of an NFA, so they pass the tests: the only error is out of memory.
        Err(_) => Err(AllocError),
    }
}

/// Returns the NFA without its lazy loop, if its matches begin only at the start of a haystack, as those of `^abc` do:
/// its unanchored searches begin at its anchored start. So a search ends where no match can follow, and not at the end
/// of the haystack, and no reverse search is made.
///
/// Its searches, walks, spans and sets give the same answers, and its states, its other starts and its flags are the
/// same; the states of the loop stay, but nothing leads to them. Matches begin only at the start if the NFA has
/// `Look::Start`, and each path from the anchored start passes it before it reads a byte or matches. The result is
/// the NFA itself if this is not so, if its unanchored searches do not skip lazily, or if it keeps unions
/// (`NFA::keeping_unions`). The only error is out of memory. The call takes time linear in the states and their edges.
pub fn anchored(nfa: &NFA) -> Result<NFA, AllocError>
    ensures alike { IfOk result (λ made. (kind : MatchKind)
        → AnswerAlike (engine_of nfa.now kind) (engine_of made kind)) }
    ensures anchored { IfOk result (λ made. IsAnchoredNfa nfa.now made) }
{
    anchored_answers_alike();
    anchored_if_it_may(nfa)
}

/// Returns the NFA without its lazy loop, if that is of no use, and otherwise the NFA.
fn anchored_if_it_may(nfa: &NFA) -> Result<NFA, AllocError>
    ensures { IfOk result (λ made. IsAnchoredNfa nfa.now made) }
{
    if may_begin_anchored(nfa)? {
        begin_anchored(nfa)
    } else {
        nfa.clone()
    }
}
