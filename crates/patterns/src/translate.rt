//! Translates the states of the kit's NFA to the library's.
ghost use Rattle.std.specs.Prelude.{◌≡◌, ◌+◌, ◌++◌, ℕ, IfErr, IfOk, OnOk, false, true, vec_len};
ghost use Rattle.automata_base.specs.Nfas.Nodes as nodes;
ghost use Rattle.meaning.specs.Agreeing.{HasNoUnicodeLook};
ghost use Rattle.meaning.specs.Translated as translated;
ghost use Rattle.regex_nfa.specs.Run.{IsSoundAt};
ghost use Rattle.patterns.specs.Drafts.{HasGroupOfSlot};
ghost use Rattle.patterns.specs.Faults.{LacksID, LacksRoom, LacksTargets};

use crate::error::Fault;
use regex_automata::nfa::thompson::{State, Transition};
use regex_automata::util::look::Look;
use regex_automata::util::primitives::{PatternID, StateID};
use regex_nfa::Nfa;
use std::alloc::Global;

/// The pattern of some states, and the number of states before them.
#[derive(Clone, Copy)]
pub(crate) struct Origin {
    pub base: usize,
    pub pattern: PatternID,
}

/// Converts the number of a state to its ID.
pub(crate) fn id_of(number: usize) -> Result<StateID, Fault>
    ensures id { IfOk result (λ id. id ≡ number) }
    ensures refused { IfErr result (LacksID number) }
{
    match StateID::new(number) {
        Some(id) => Ok(id),
        None => Err(Fault::TooLarge),
    }
}

/// Returns the ID that a state of one pattern has in the NFA of all patterns.
pub(crate) fn shifted(origin: &Origin, number: u32) -> Result<StateID, Fault>
    ensures id { IfOk result (λ id. id ≡ origin.now.base + number) }
    ensures refused { IfErr result (LacksID (origin.now.base + number)) }
{
    match origin.base.checked_add(number as usize) {
        Some(sum) => id_of(sum),
        None => Err(Fault::TooLarge),
    }
}

/// Returns the library's name of an assertion of the kit.
fn look_of(look: regex_hir::Look) -> Look
    ensures { result ≡ translated.look_of look }
{
    match look {
        regex_hir::Look::Start => Look::Start,
        regex_hir::Look::End => Look::End,
        regex_hir::Look::StartLf => Look::StartLF,
        regex_hir::Look::EndLf => Look::EndLF,
        regex_hir::Look::StartCrlf => Look::StartCRLF,
        regex_hir::Look::EndCrlf => Look::EndCRLF,
        regex_hir::Look::WordAscii => Look::WordAscii,
        regex_hir::Look::WordAsciiNegate => Look::WordAsciiNegate,
        regex_hir::Look::WordUnicode => Look::WordUnicode,
        regex_hir::Look::WordUnicodeNegate => Look::WordUnicodeNegate,
        regex_hir::Look::WordStartAscii => Look::WordStartAscii,
        regex_hir::Look::WordEndAscii => Look::WordEndAscii,
        regex_hir::Look::WordStartUnicode => Look::WordStartUnicode,
        regex_hir::Look::WordEndUnicode => Look::WordEndUnicode,
        regex_hir::Look::WordStartHalfAscii => Look::WordStartHalfAscii,
        regex_hir::Look::WordEndHalfAscii => Look::WordEndHalfAscii,
        regex_hir::Look::WordStartHalfUnicode => Look::WordStartHalfUnicode,
        regex_hir::Look::WordEndHalfUnicode => Look::WordEndHalfUnicode,
    }
}

/// Returns the ranges of a sparse state.
fn ranges_of(
    alloc: Global,
    own: &[regex_nfa::Transition],
    origin: &Origin,
) -> Result<Vec<Transition>, Fault>
    ensures ranges { IfOk result (λ ranges.
        nodes.ranges_of ranges.items ≡ translated.ranges_of origin.now.base own.now) }
    ensures refused { IfErr result (LacksTargets origin.now.base own.now) }
{
    let mut ranges = Vec::new(alloc);
    ranges.reserve_exact(own.len())?;
    for t in own {
        let next = shifted(origin, t.next)?;
        let (lo, hi) = (t.start, t.end);
        ranges.push(Transition { lo, hi, next })?;
    }
    Ok(ranges)
}

/// Translates a state of the pattern to the library's. Captures are kept, but no search of the library reads them.
fn state_of(
    alloc: Global,
    nfa: &Nfa,
    origin: &Origin,
    state: regex_nfa::State,
) -> Result<State, Fault>
    ensures node { IfOk result (λ own. nodes.node_of own
        ≡ translated.node_of origin.now.base origin.now.pattern nfa.now.transitions.items state) }
    ensures group { IfOk result HasGroupOfSlot }
    ensures refused { IfErr result (λ fault. (q : ℕ) → IsSoundAt nfa.now q state
        → LacksRoom (origin.now.base + vec_len nfa.now.states) fault) }
{
    match state {
        regex_nfa::State::ByteRange(t) => {
            let next = shifted(origin, t.next)?;
            let (lo, hi) = (t.start, t.end);
            Ok(State::ByteRange { lo, hi, next })
        }
        regex_nfa::State::Sparse { from, to } => {
            match nfa.transitions.get(from as usize..to as usize) {
                Some(own) => Ok(State::Sparse(ranges_of(alloc, own, origin)?)),
                None => Err(Fault::Malformed),
            }
        }
        regex_nfa::State::Split { first, second } => {
            let alt1 = shifted(origin, first)?;
            let alt2 = shifted(origin, second)?;
            Ok(State::BinaryUnion { alt1, alt2 })
        }
        regex_nfa::State::Save { slot, next } => {
            let next = shifted(origin, next)?;
            Ok(State::Capture {
                next,
                pattern_id: origin.pattern,
                group_index: slot / 2,
                slot,
            })
        }
        regex_nfa::State::Look { look, next } => {
            let next = shifted(origin, next)?;
            let look = look_of(look);
            Ok(State::Look { look, next })
        }
        regex_nfa::State::Match => {
            let pattern = origin.pattern;
            Ok(State::Match { pattern })
        }
        regex_nfa::State::Fail => Ok(State::Fail),
    }
}

/// Appends the states of a pattern.
pub(crate) fn push_states(
    alloc: Global,
    nfa: &Nfa,
    origin: &Origin,
    states: &mut Vec<State>,
) -> Result<(), Fault>
    ensures nodes { OnOk result (nodes.nodes_of states.new.items ≡ nodes.nodes_of states.old.items
        ++ translated.nodes_of origin.now.base origin.now.pattern nfa.now.transitions.items nfa.now.states.items) }
    ensures refused { IfErr result (LacksRoom (origin.now.base + vec_len nfa.now.states)) }
{
    states.reserve(nfa.states.len())?;
    for state in &nfa.states {
        let own = state_of(alloc, nfa, origin, *state)?;
        states.push(own)?;
    }
    Ok(())
}

/// Whether the pattern has a Unicode look-around assertion.
pub(crate) fn has_unicode_look(nfa: &Nfa) -> bool
    ensures no { result ≡ false → HasNoUnicodeLook nfa.now }
    ensures yes { result ≡ true → HasNoUnicodeLook nfa.now → ⊥ }
{
    for state in &nfa.states {
        if let regex_nfa::State::Look { look, .. } = *state {
            if regex_nfa::is_unicode(look) {
                return true;
            }
        }
    }
    false
}
