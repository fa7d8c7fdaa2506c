//! The encoding of powerset states, appended to a vector of bytes.
ghost use Rattle.std.specs.Prelude.{◌≡◌, ◌++◌, ◌<◌, ◌+◌, ◌^◌, length, All, OnOk, IfSome};
ghost use Rattle.std.specs.List.{flat_map};
ghost use Rattle.automata_determinize.specs.Powersets.Code.{four_bytes, code, is_listed, patterns_code, flag_byte};
ghost use Rattle.automata_base.specs.Powersets.Code.{ids_code};
ghost use Rattle.automata_determinize.specs.Powersets.Code.{has_any};
ghost use Rattle.automata_base.specs.Powersets.Powerset.{IsId};
ghost use Rattle.automata_base.specs.Nfas.KeptClosure.{IsRestCode};

use crate::determinize::kept::place_of;
use automata_base::nfa::thompson::ids_code::push_ids;
use automata_base::nfa::thompson::kept::KeptClosure;
use automata_base::util::primitives::{PatternID, StateID};
use std::alloc::AllocError;

/// Appends a number as four bytes, the least significant first.
fn push_u32(out: &mut Vec<u8>, n: u32) -> Result<(), AllocError>
    ensures ok { OnOk result (out.new.items ≡ out.old.items ++ four_bytes n) }
{
    out.extend_from_slice(&n.to_le_bytes())
}

/// Appends pattern IDs, each as four bytes.
fn push_u32s(out: &mut Vec<u8>, numbers: &[PatternID]) -> Result<(), AllocError>
    ensures ok { OnOk result (out.new.items ≡ out.old.items ++ flat_map four_bytes numbers.now) }
{
    for n in numbers {
        push_u32(out, n.as_u32())?;
    }
    Ok(())
}

/// Appends a whole list of NFA states. If it contains what is kept of the closure, the bytes of all these states but
/// the first are copied.
#[inline(never)]
fn push_with(out: &mut Vec<u8>, closure: &KeptClosure, ids: &[StateID]) -> Result<(), AllocError>
    requires { IsRestCode closure.now.kept.items closure.now.code.items }
    ensures ok { OnOk result (out.new.items ≡ out.old.items ++ ids_code 0 ids.now) }
    ensures ids { OnOk result (All IsId ids.now) }
{
    let part = closure.kept.as_slice();
    match place_of(ids, part) {
        Some(start) => {
            let end = start + part.len();
            push_ids(out, 0, &ids[..start + 1])?;
            out.extend_from_slice(closure.code.as_slice())?;
            push_ids(out, ids[end - 1].as_u32(), &ids[end..])
        }
        None => push_ids(out, 0, ids),
    }
}

/// Appends a whole list of NFA states. If a kept closure is given and the list contains what is kept of it, the
/// closure's bytes are copied.
#[inline(always)]
fn push_list(
    out: &mut Vec<u8>,
    closure: Option<&KeptClosure>,
    ids: &[StateID],
) -> Result<(), AllocError>
    requires { IfSome closure (λ c. IsRestCode c.now.kept.items c.now.code.items) }
    ensures ok { OnOk result (out.new.items ≡ out.old.items ++ ids_code 0 ids.now) }
    ensures ids { OnOk result (All IsId ids.now) }
{
    match closure {
        Some(closure) => push_with(out, closure, ids),
        None => push_ids(out, 0, ids),
    }
}

/// Whether the encoding lists the patterns: it does unless there are none, or only pattern 0.
fn lists(patterns: &[PatternID]) -> bool
    ensures { result ≡ is_listed patterns.now }
{
    match patterns {
        [] => false,
        [pattern] => pattern.as_u32() > 0,
        _ => true,
    }
}

/// Appends the patterns, if the encoding lists them.
fn push_patterns(out: &mut Vec<u8>, patterns: &[PatternID]) -> Result<(), AllocError>
    requires { length patterns.now < 2 ^ 32 }
    ensures ok { OnOk result (out.new.items ≡ out.old.items ++ patterns_code patterns.now) }
{
    if !lists(patterns) {
        return Ok(());
    }
    push_u32(out, patterns.len() as u32)?;
    push_u32s(out, patterns)
}

/// Returns the first byte of an encoded powerset state: whether it has patterns, lists them, is after a word byte, and
/// is halfway through a CRLF.
fn flags_of(patterns: &[PatternID], word: bool, half: bool) -> u8
    ensures { result ≡ flag_byte (has_any patterns.now) (is_listed patterns.now) word half }
{
    let listed = lists(patterns);
    u8::from(!patterns.is_empty()) + 2 * u8::from(listed) + 4 * u8::from(word) + 8 * u8::from(half)
}

/// Appends the encoding of a state. If a kept closure is given and the NFA states contain what is kept of it, the
/// closure's bytes are copied.
#[inline(always)]
pub(crate) fn push_state(
    out: &mut Vec<u8>,
    closure: Option<&KeptClosure>,
    nfa: &[StateID],
    patterns: &[PatternID],
    known: u32,
    needed: u32,
    word: bool,
    half: bool,
) -> Result<(), AllocError>
    requires patterns { length patterns.now < 2 ^ 32 }
    requires closure { IfSome closure (λ c. IsRestCode c.now.kept.items c.now.code.items) }
    ensures ok { OnOk result (out.new.items ≡ out.old.items ++ code
        (record { nfa = nfa.now; patterns = patterns.now; known = known; needed = needed; word = word; half = half })) }
    ensures ids { OnOk result (All IsId nfa.now) }
{
    out.push(flags_of(patterns, word, half))?;
    push_u32(out, known)?;
    push_u32(out, needed)?;
    push_patterns(out, patterns)?;
    push_list(out, closure, nfa)
}
