//! Which looks are known after a byte, and which the next unit decides.
ghost use Rattle.std.specs.Prelude.{◌≡◌, ◌<◌, ◌&&◌, ◌||◌, not, true, false, eqb, IsTrue, IsFalse, IfSome, OnSome};
ghost use Rattle.std.specs.Prelude.{None};
ghost use Rattle.automata_base.specs.Haystacks.Looks.{is_word_byte, is_word, is_byte, first_half, second_half};
ghost use Rattle.automata_determinize.specs.Powersets.Passes.{decided, true_looks, IsNews};
ghost use Rattle.automata_determinize.specs.Retraced.Computed.{always, known_looks};
ghost use Rattle.automata_base.specs.Haystacks.Looks.{look_index};
ghost use Rattle.automata_base.specs.Haystacks.LookSets.{truth_of};
ghost use Rattle.automata_base.specs.Nfas.Nodes.{nfa_of};

use crate::determinize::state::State;
use automata_base::nfa::thompson::NFA;
use automata_base::util::look::{Look, LookSet};

/// Whether a byte is an ASCII word byte.
pub fn is_word_u8(u: u8) -> bool
    ensures { result ≡ is_word_byte u }
{
    48 <= u && u <= 57 || 65 <= u && u <= 90 || u == 95 || 97 <= u && u <= 122
}

/// Whether a unit is an ASCII word byte. The end of the haystack is not.
pub fn is_word_unit(u: Option<u8>) -> bool
    ensures { result ≡ is_word u }
{
    match u {
        Some(u) => is_word_u8(u),
        None => false,
    }
}

/// Whether a unit is this byte.
pub fn is_unit(b: u8, u: Option<u8>) -> bool
    ensures { result ≡ is_byte b u }
{
    match u {
        Some(u) => u == b,
        None => false,
    }
}

/// Returns the byte of a CRLF pair that is read first.
pub fn first_of(reverse: bool) -> u8
    ensures { result ≡ first_half reverse }
{
    if reverse { 10 } else { 13 }
}

/// Returns the byte of a CRLF pair that is read second.
pub fn second_of(reverse: bool) -> u8
    ensures { result ≡ second_half reverse }
{
    if reverse { 13 } else { 10 }
}

/// Whether the look holds after the byte `prev`, or after none, whatever comes next.
fn is_always(look: Look, terminator: u8, reverse: bool, prev: Option<u8>) -> bool
    ensures { result ≡ always terminator reverse look prev }
{
    match look {
        Look::Start => prev.is_none(),
        Look::StartLF => prev.is_none() || is_unit(terminator, prev),
        Look::StartCRLF => prev.is_none() || is_unit(second_of(reverse), prev),
        Look::WordStartHalfAscii => !is_word_unit(prev),
        Look::WordStartHalfUnicode => !is_word_unit(prev),
        Look::End => false,
        Look::EndLF => false,
        Look::EndCRLF => false,
        Look::WordAscii => false,
        Look::WordAsciiNegate => false,
        Look::WordUnicode => false,
        Look::WordUnicodeNegate => false,
        Look::WordStartAscii => false,
        Look::WordEndAscii => false,
        Look::WordStartUnicode => false,
        Look::WordEndUnicode => false,
        Look::WordEndHalfAscii => false,
        Look::WordEndHalfUnicode => false,
    }
}

/// Whether the unit decides that the look is true. The flags describe the previous byte: whether it is a word byte, and
/// whether it is the first half of a CRLF.
fn is_decided(
    look: Look,
    terminator: u8,
    reverse: bool,
    word: bool,
    half: bool,
    unit: Option<u8>,
) -> bool
    ensures { result ≡ decided terminator reverse word half look unit }
{
    match look {
        Look::Start => false,
        Look::StartLF => false,
        Look::End => unit.is_none(),
        Look::EndLF => unit.is_none() || is_unit(terminator, unit),
        Look::StartCRLF => half && !is_unit(second_of(reverse), unit),
        Look::EndCRLF => unit.is_none()
            || is_unit(first_of(reverse), unit)
            || is_unit(second_of(reverse), unit) && !half,
        Look::WordAscii => word != is_word_unit(unit),
        Look::WordAsciiNegate => word == is_word_unit(unit),
        Look::WordUnicode => word != is_word_unit(unit),
        Look::WordUnicodeNegate => word == is_word_unit(unit),
        Look::WordStartAscii => !word && is_word_unit(unit),
        Look::WordEndAscii => word && !is_word_unit(unit),
        Look::WordStartUnicode => !word && is_word_unit(unit),
        Look::WordEndUnicode => word && !is_word_unit(unit),
        Look::WordStartHalfAscii => !word,
        Look::WordEndHalfAscii => !is_word_unit(unit),
        Look::WordStartHalfUnicode => !word,
        Look::WordEndHalfUnicode => !is_word_unit(unit),
    }
}

/// Whether the look occurs in the NFA and holds after `prev` whatever comes next.
fn is_known(nfa: &NFA, look: Look, prev: Option<u8>) -> bool
    ensures { result ≡ known_looks (nfa_of nfa.now) prev look }
{
    let flags = nfa.flags();
    nfa.look_set_any().contains(look) && is_always(look, flags.line_terminator, flags.reverse, prev)
}

/// Returns the set, with the look added if `passes` is true.
fn insert_if(set: LookSet, look: Look, passes: bool) -> LookSet
    ensures { (other : Look) → truth_of result other
        ≡ (eqb (look_index other) (look_index look) && passes || truth_of set other) }
{
    if passes { set.insert(look) } else { set }
}

/// Returns the looks of the NFA that hold after `prev` whatever comes next.
pub fn known_behind(nfa: &NFA, prev: Option<u8>) -> LookSet
    ensures { (look : Look) → truth_of result look ≡ known_looks (nfa_of nfa.now) prev look }
{
    let mut set = LookSet::empty();
    if nfa.look_set_any().is_empty() {
        return set;
    }
    for index in 0..18 {
        let look = Look::from_index(index);
        let passes = is_known(nfa, look, prev);
        set = insert_if(set, look, passes);
    }
    set
}

/// Returns the looks that are known to hold, or that the unit decides to be true. The flags describe the previous byte.
fn looks_true(nfa: &NFA, known: LookSet, word: bool, half: bool, unit: Option<u8>) -> LookSet
    ensures { (look : Look)
        → truth_of result look ≡ (truth_of known look || decided nfa.now.flags.line_terminator nfa.now.flags.reverse
        word half look unit) }
{
    let flags = nfa.flags();
    let mut set = known;
    for index in 0..18 {
        let look = Look::from_index(index);
        let passes = is_decided(look, flags.line_terminator, flags.reverse, word, half, unit);
        set = insert_if(set, look, passes);
    }
    set
}

/// Whether the look is needed, is true and was not known.
fn is_news(needed: LookSet, truth: LookSet, known: LookSet, look: Look) -> bool
    ensures { result ≡ (truth_of needed look && truth_of truth look && not (truth_of known look)) }
{
    needed.contains(look) && truth.contains(look) && !known.contains(look)
}

/// Whether a needed look is true and was not known. It tests each look.
fn finds_news(needed: LookSet, truth: LookSet, known: LookSet) -> bool
    ensures news { IsTrue result → (look : Look) × (truth_of needed look ≡ true) × (truth_of truth look ≡ true)
        × (truth_of known look ≡ false) }
    ensures none { IsFalse result → (look : Look) → truth_of needed look ≡ true → truth_of truth look ≡ true
        → truth_of known look ≡ false → ⊥ }
{
    for index in 0..18 {
        if is_news(needed, truth, known, Look::from_index(index)) {
            return true;
        }
    }
    false
}

/// Whether a needed look is true and was not known. Usually no look is needed, which is tested without a call.
#[inline(always)]
pub fn has_news(needed: LookSet, truth: LookSet, known: LookSet) -> bool
    ensures news { IsTrue result → (look : Look) × (truth_of needed look ≡ true) × (truth_of truth look ≡ true)
        × (truth_of known look ≡ false) }
    ensures none { IsFalse result → (look : Look) → truth_of needed look ≡ true → truth_of truth look ≡ true
        → truth_of known look ≡ false → ⊥ }
{
    if needed.is_empty() {
        return false;
    }
    finds_news(needed, truth, known)
}

/// Returns the looks that are true at the unit, if the state needs one of them that was not known, and none otherwise.
pub fn news(nfa: &NFA, from: &State, unit: Option<u8>) -> Option<LookSet>
    ensures truth { IfSome result (λ truth. (look : Look)
        → truth_of truth look ≡ true_looks (nfa_of nfa.now) from.now unit look) }
    ensures news { OnSome result (IsNews (nfa_of nfa.now) from.now unit) }
    ensures none { result ≡ None → IsNews (nfa_of nfa.now) from.now unit → ⊥ }
{
    let needed = LookSet::from_bits(from.needed());
    if needed.is_empty() {
        return None;
    }
    let known = LookSet::from_bits(from.known());
    let truth = looks_true(nfa, known, from.word(), from.half(), unit);
    if has_news(needed, truth, known) {
        Some(truth)
    } else {
        None
    }
}
