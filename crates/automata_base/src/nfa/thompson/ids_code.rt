//! The encoding of lists of NFA states, appended to a vector of bytes.
ghost use Rattle.std.specs.Prelude.{◌≡◌, ◌++◌, ◌<◌, ◌≤◌, ◌+◌, ◌^◌, All, OnOk, vec_len, vec_capacity};
ghost use Rattle.automata_base.specs.Powersets.Code.{varint, ids_code, difference};
ghost use Rattle.automata_base.specs.Powersets.Powerset.{IsId};

use crate::util::primitives::StateID;
use std::alloc::AllocError;

/// Appends a number as a varint: in groups of seven bits, the least significant first.
fn push_number(out: &mut Vec<u8>, n: u64) -> Result<(), AllocError>
    requires { n < 2 ^ 35 }
    ensures ok { OnOk result (out.new.items ≡ out.old.items ++ varint n) }
{
    let mut rest = n;
    while rest >= 128 {
        out.push(128 + (rest % 128) as u8)?;
        rest /= 128;
    }
    out.push(rest as u8)?;
    Ok(())
}

/// Returns the difference of an NFA state from the previous one, as an unsigned number.
fn difference_of(before: u32, id: u32) -> u64
    ensures value { result ≡ difference before id }
    ensures bound { result < 2 ^ 35 }
{
    if before <= id {
        2 * u64::from(id - before)
    } else {
        2 * u64::from(before - id) - 1
    }
}

/// Appends a number as a varint. There must be room for one byte for each of the `left` numbers that remain, this one
/// included; afterwards there is room for the others. Most numbers take one byte.
#[inline(always)]
fn push_in_room(out: &mut Vec<u8>, n: u64, left: usize) -> Result<(), AllocError>
    requires bound { n < 2 ^ 35 }
    requires left { 0 < left }
    requires room { vec_len out.old + left ≤ vec_capacity out.old }
    ensures ok { OnOk result (out.new.items ≡ out.old.items ++ varint n) }
    ensures room { OnOk result (vec_len out.new + left ≤ vec_capacity out.new + 1) }
{
    if n < 128 {
        out.push_reserved(n as u8);
        return Ok(());
    }
    push_number(out, n)?;
    out.reserve(left)?;
    Ok(())
}

/// Appends NFA states that follow the state `before`, each as its difference from the previous one.
#[inline(always)]
pub fn push_ids(out: &mut Vec<u8>, before: u32, ids: &[StateID]) -> Result<(), AllocError>
    ensures ok { OnOk result (out.new.items ≡ out.old.items ++ ids_code before ids.now) }
    ensures ids { OnOk result (All IsId ids.now) }
{
    let mut before = before;
    let mut left = ids.len();
    out.reserve(left)?;
    for id in ids {
        let id = id.as_u32();
        push_in_room(out, difference_of(before, id), left)?;
        before = id;
        left -= 1;
    }
    Ok(())
}
