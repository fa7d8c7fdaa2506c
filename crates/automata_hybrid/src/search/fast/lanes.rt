//! Tests which of 32 bytes are in a range, or in one of two, and compares all of them at once.
ghost use Rattle.std.specs.Prelude.{◌+◌, ◌<◌, ◌≡◌, ◌≤◌, ◌^◌, ℕ, IsTrue, length, slice_index};
ghost use Rattle.std.specs.Int.{bit_at};
ghost use Rattle.automata_hybrid.specs.Private.Fast.SelfLoops.{HasByte, HasEither, steps_above, byte_in, lane_of};

use crate::cache::self_loops::LoopRange;
use automata_base::util::search::Direction;
use std::simd::prelude::*;

/// How many bytes are compared at once.
pub(crate) const LANES: usize = 32;

/// Returns a bit for each of the 32 bytes from an offset on: 0 only if the byte is in the range of `size` bytes from
/// `low` on, where 0 follows 255.
#[inline(always)]
fn outside(low: u8, size: u8, bytes: &[u8], from: usize) -> u64
    requires { from + 32 ≤ length bytes.now }
    ensures small { result < 2 ^ 32 }
    ensures near { (k : ℕ) → k < 32 → bit_at result k ≡ 0 → steps_above low (slice_index bytes.now (from + k)) < size }
{
    let above = u8x32::from_slice(&bytes[from..]) - u8x32::splat(low);
    above.simd_ge(u8x32::splat(size)).to_bitmask()
}

/// Returns a bit for each of the 32 bytes from a place on, in a slice that is read from its front or from its back: 0
/// only if the byte is in a range.
#[inline(always)]
fn outside_at(way: Direction, range: LoopRange, bytes: &[u8], at: usize) -> u64
    requires { at + 32 ≤ length bytes.now }
    ensures small { result < 2 ^ 32 }
    ensures near { (k : ℕ) → k < 32 → bit_at result (lane_of way k) ≡ 0
        → HasByte range (byte_in way bytes.now (at + k)) }
{
    let from = match way {
        Direction::Forward => at,
        Direction::Backward => bytes.len() - at - LANES,
    };
    outside(range.low, range.size, bytes, from)
}

/// Returns a bit for each of the 32 bytes from a place on, as `outside_at` does: 0 only if the byte is in one of two
/// ranges.
#[inline(always)]
fn outside_both(way: Direction, first: LoopRange, second: LoopRange, bytes: &[u8], at: usize) -> u64
    requires { at + 32 ≤ length bytes.now }
    ensures small { result < 2 ^ 32 }
    ensures near { (k : ℕ) → k < 32 → bit_at result (lane_of way k) ≡ 0
        → HasEither first second (byte_in way bytes.now (at + k)) }
{
    outside_at(way, first, bytes, at) & outside_at(way, second, bytes, at)
}

/// Whether all 32 bytes from a place on are in a range.
#[inline(always)]
pub(crate) fn are_in(way: Direction, range: LoopRange, bytes: &[u8], at: usize) -> bool
    requires { at + 32 ≤ length bytes.now }
    ensures { IsTrue result → (k : ℕ) → at ≤ k → k < at + 32 → HasByte range (byte_in way bytes.now k) }
{
    outside_at(way, range, bytes, at) == 0
}

/// Whether all 32 bytes from a place on are in one of two ranges.
#[inline(always)]
pub(crate) fn are_in_either(
    way: Direction,
    first: LoopRange,
    second: LoopRange,
    bytes: &[u8],
    at: usize,
) -> bool
    requires { at + 32 ≤ length bytes.now }
    ensures { IsTrue result → (k : ℕ) → at ≤ k → k < at + 32
        → HasEither first second (byte_in way bytes.now k) }
{
    outside_both(way, first, second, bytes, at) == 0
}

/// Returns how many of the 32 bytes from a place on come before the first that is in neither of two ranges.
#[inline(always)]
pub(crate) fn count_in_either(
    way: Direction,
    first: LoopRange,
    second: LoopRange,
    bytes: &[u8],
    at: usize,
) -> usize
    requires { at + 32 ≤ length bytes.now }
    ensures few { result ≤ 32 }
    ensures near { (k : ℕ) → at ≤ k → k < at + result → HasEither first second (byte_in way bytes.now k) }
{
    let outside = outside_both(way, first, second, bytes, at);
    if outside == 0 {
        return LANES;
    }
    match way {
        Direction::Forward => outside.trailing_zeros() as usize,
        Direction::Backward => 31usize.saturating_sub(outside.ilog2() as usize),
    }
}
