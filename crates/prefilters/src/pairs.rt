//! A search for several needles at once, by two bytes of each.
//!
//! Of each needle two bytes are chosen, rare ones if it has such. A search tests 64 offsets of the haystack at once: if
//! both bytes are at their offsets from there, the needles are compared.
ghost use Rattle.std.specs.Prelude.{◌≡◌, ◌+◌, ◌^◌, ◌<◌, ◌≤◌, ℕ, List, IfOk, IfSome, IsFalse, IsTrue, OnOk, Some, length, map};
ghost use Rattle.std.specs.Prelude.{bit_or, slice_index};
ghost use Rattle.std.specs.Int.{bit_at};
ghost use Rattle.std.specs.List.{Contains};
ghost use Rattle.regex_extract.specs.Needles.{needles_of};
ghost use Rattle.regex_literal.specs.Find.{AllAtLeast, AnyOccursAt};
ghost use Rattle.prefilters.specs.Needles.{StopsBeforeNeedle, NoneOccurs};
ghost use Rattle.prefilters.specs.Pairs.{AllBeginWithByte, AnyFitsAt, BeginsWithByte};
ghost use Rattle.prefilters.specs.Pairs.{CoversNeedles, FitsAt, FitsNeedle, HasAllOf, HasFoldOf, HasFolds};
ghost use Rattle.prefilters.specs.Pairs.{IsFoldedNeedle, KeepsFolds, NoFoldOccurs, OccursFolded, ReachesAtMost};

use std::alloc::{AllocError, Global};
use std::marker::Model;
use std::simd::prelude::*;

/// The number of offsets that are tested at once.
const LANES: usize = 64;

/// A search gives up after this many offsets at which a pair fits, but no needle occurs, and one more for each `SPACE`
/// bytes.
const FEW: usize = 16;

const SPACE: usize = 64;

/// The number of bytes at the beginning of a needle of which two are chosen.
const NEAR: usize = 256;

/// If there are more needles than this, bytes are compared with the bit `CASE` set, if fewer are then different.
const MANY: usize = 4;

/// With more pairs than this, a byte that all needles begin with is looked for first.
const SEVERAL: usize = 3;

/// With more pairs than this, a search takes longer than a lazy DFA does.
const MOST_PAIRS: usize = 8;

/// With more needles than this, it takes too long to compare them at one offset.
const MOST_NEEDLES: usize = 64;

/// The bit in which the two cases of an ASCII letter differ.
const CASE: u8 = 0x20;

/// How rare each ASCII character is in texts, from 1 for the most frequent to 79.
const RARITIES: [u8; 128] = [
    79, 79, 79, 79, 79, 79, 79, 79, 79, 79, 25, 79, 79, 79, 79, 79, 79, 79, 79, 79, 79, 79, 79, 79,
    79, 79, 79, 79, 79, 79, 79, 79, 1, 79, 40, 79, 79, 79, 79, 41, 72, 73, 79, 79, 23, 36, 24, 38,
    26, 27, 28, 29, 30, 31, 32, 33, 34, 35, 39, 71, 75, 64, 76, 79, 79, 45, 50, 47, 56, 52, 60, 63,
    59, 46, 66, 70, 58, 49, 57, 62, 51, 77, 55, 44, 43, 67, 68, 61, 74, 69, 78, 79, 79, 79, 79, 37,
    79, 4, 21, 13, 12, 2, 16, 18, 10, 6, 54, 42, 11, 15, 7, 5, 17, 53, 9, 8, 3, 14, 22, 19, 48, 20,
    65, 79, 79, 79, 79, 79,
];

/// The same for the first byte of a character beyond ASCII: in a text of its script it is frequent.
const LEADING: u8 = 8;

/// The same for a further byte of such a character.
const FURTHER: u8 = 60;

/// Two bytes of a needle, and their offsets in it.
#[derive(Clone, Copy, PartialEq, Eq)]
struct BytePair {
    first: u8,
    first_at: u8,
    second: u8,
    second_at: u8,
}

/// Returns how rare a byte is: at least 1.
fn rarity(byte: u8) -> u8 {
    if byte < 0x80 {
        RARITIES[usize::from(byte)]
    } else if byte < 0xC0 {
        FURTHER
    } else {
        LEADING
    }
}

/// Returns the offset of the rarest byte near the beginning of a needle, other than the one at `apart`; 0 if there is
/// no other.
fn rarest(needle: &[u8], apart: usize) -> usize
    requires { 0 < length needle.now }
    ensures inside { result < length needle.now }
    ensures near { result < 256 }
{
    let mut best = 0;
    let mut most = 0;
    for at in 0..needle.len().min(NEAR) {
        let rank = rarity(needle[at]);
        if at != apart && rank > most {
            best = at;
            most = rank;
        }
    }
    best
}

impl BytePair {
    /// Returns two bytes of a folded needle.
    fn new(needle: &[u8]) -> BytePair
        requires { 0 < length needle.now }
        ensures { (fold : ℕ) → FitsNeedle fold result needle.now }
    {
        let first_at = rarest(needle, needle.len());
        let second_at = rarest(needle, first_at);
        BytePair {
            first: needle[first_at],
            first_at: first_at as u8,
            second: needle[second_at],
            second_at: second_at as u8,
        }
    }

    /// Returns a bit for each of the 64 offsets from `at` on: 0 only if the pair does not fit there.
    #[inline(always)]
    fn fits(self, fold: u8, hay: &[u8], at: usize) -> u64
        requires first { at + self.first_at + 64 ≤ length hay.now }
        requires second { at + self.second_at + 64 ≤ length hay.now }
        ensures { (k : ℕ) → k < 64 → FitsAt fold self hay.now (at + k) → bit_at result k ≡ 1 }
    {
        let first = equal(hay, at + usize::from(self.first_at), fold, self.first);
        if first == 0 {
            return 0;
        }
        first & equal(hay, at + usize::from(self.second_at), fold, self.second)
    }
}

/// Returns a bit for each of the 64 bytes from an offset on: whether it is `byte`, once the bits of `fold` are set.
#[inline(always)]
fn equal(hay: &[u8], from: usize, fold: u8, byte: u8) -> u64
    requires { from + 64 ≤ length hay.now }
    ensures { (k : ℕ) → k < 64 → bit_or (slice_index hay.now (from + k)) fold ≡ byte
        → bit_at result k ≡ 1 }
{
    (u8x64::from_slice(&hay[from..]) | u8x64::splat(fold))
        .simd_eq(u8x64::splat(byte))
        .to_bitmask()
}

/// Returns a bit for each of the 64 offsets from `at` on: 0 only if no pair fits there.
#[inline(always)]
fn any_fits(pairs: &[BytePair], reach: u8, fold: u8, hay: &[u8], at: usize) -> u64
    requires reach { ReachesAtMost pairs.now reach }
    requires within { at + reach + 64 ≤ length hay.now }
    ensures { (k : ℕ) → k < 64 → AnyFitsAt fold pairs.now hay.now (at + k) → bit_at result k ≡ 1 }
{
    let mut mask = 0;
    for pair in pairs {
        mask |= pair.fits(fold, hay, at);
    }
    mask
}

/// Returns what `any_fits` does: without a fold, nothing is set in the bytes.
#[inline(always)]
fn candidates(pairs: &[BytePair], reach: u8, fold: u8, hay: &[u8], at: usize) -> u64
    requires reach { ReachesAtMost pairs.now reach }
    requires within { at + reach + 64 ≤ length hay.now }
    ensures { (k : ℕ) → k < 64 → AnyFitsAt fold pairs.now hay.now (at + k) → bit_at result k ≡ 1 }
{
    if fold == 0 {
        any_fits(pairs, reach, 0, hay, at)
    } else {
        any_fits(pairs, reach, fold, hay, at)
    }
}

/// Whether there are enough bytes from an offset on to look for pairs at 64 offsets.
#[inline(always)]
fn has_room(reach: u8, hay: &[u8], at: usize) -> bool
    requires { at ≤ length hay.now }
    ensures { IsTrue result → at + reach + 64 ≤ length hay.now }
{
    hay.len() - at >= usize::from(reach) + LANES
}

/// Adds a pair, unless it is there.
fn add(pairs: &mut Vec<BytePair>, pair: BytePair) -> Result<(), AllocError>
    ensures kept { OnOk result (HasAllOf pairs.old.items pairs.new.items) }
    ensures added { OnOk result (Contains pairs.new.items pair) }
{
    if !pairs.contains(&pair) {
        pairs.push(pair)?;
    }
    Ok(())
}

/// Returns the pairs of folded needles, each once.
fn pairs_of(alloc: Global, needles: &[Vec<u8>]) -> Result<Vec<BytePair>, AllocError>
    requires { AllAtLeast (map (λ v. v.items) needles.now) 1 }
    ensures { (fold : ℕ) → IfOk result (λ pairs. CoversNeedles fold pairs.items (map (λ v. v.items) needles.now)) }
{
    let mut pairs = Vec::new(alloc);
    for needle in needles {
        add(&mut pairs, BytePair::new(needle))?;
    }
    Ok(pairs)
}

/// Whether `folded` is the needle with the bits of `fold` set in its bytes.
fn is_fold(needle: &[u8], fold: u8, folded: &[u8]) -> bool
    ensures { IsTrue result → IsFoldedNeedle fold needle.now folded.now }
{
    if needle.len() != folded.len() {
        return false;
    }
    for at in 0..needle.len() {
        if needle[at] | fold != folded[at] {
            return false;
        }
    }
    true
}

/// Returns the needle with the bits of `fold` set in its bytes.
fn fold_of(alloc: Global, needle: &[u8], fold: u8) -> Result<Vec<u8>, AllocError>
    ensures { IfOk result (λ v. IsFoldedNeedle fold needle.now v.items) }
{
    needle.iter().map(|byte| *byte | fold).collect(alloc)
}

/// Whether the needle is there, with the bits of `fold` set in its bytes.
fn has_fold(folded: &[Vec<u8>], needle: &[u8], fold: u8) -> bool
    ensures { IsTrue result → HasFoldOf fold needle.now (map (λ v. v.items) folded.now) }
{
    for own in folded {
        if is_fold(needle, fold, own) {
            return true;
        }
    }
    false
}

/// Adds the needle with the bits of `fold` set in its bytes, unless that is there.
fn add_fold(folded: &mut Vec<Vec<u8>>, needle: &[u8], fold: u8) -> Result<(), AllocError>
    ensures kept { OnOk result (KeepsFolds fold (needles_of folded.old) (needles_of folded.new)) }
    ensures added { OnOk result (HasFoldOf fold needle.now (needles_of folded.new)) }
{
    if !has_fold(folded, needle, fold) {
        let own = fold_of(*folded.allocator(), needle, fold)?;
        folded.push(own)?;
    }
    Ok(())
}

/// Returns the needles with the bits of `fold` set in their bytes, each once.
fn folded_of(alloc: Global, needles: &[Vec<u8>], fold: u8) -> Result<Vec<Vec<u8>>, AllocError>
    ensures { IfOk result (λ v. HasFolds fold (map (λ n. n.items) needles.now) (needles_of v)) }
{
    let mut folded = Vec::new(alloc);
    for needle in needles {
        add_fold(&mut folded, needle, fold)?;
    }
    Ok(folded)
}

/// Whether a folded needle occurs at an offset, once the bits of `fold` are set in the bytes of the haystack.
#[inline(always)]
fn occurs_at(hay: &[u8], at: usize, fold: u8, needle: &[u8]) -> bool
    requires { at ≤ length hay.now }
    ensures { IsFalse result → OccursFolded fold hay.now needle.now at → ⊥ }
{
    if needle.len() > hay.len() - at {
        return false;
    }
    for place in 0..needle.len() {
        if hay[at + place] | fold != needle[place] {
            return false;
        }
    }
    true
}

/// Returns the greatest offset of a byte of the pairs.
fn reach_of(pairs: &[BytePair]) -> u8
    ensures { ReachesAtMost pairs.now result }
{
    let mut reach = 0;
    for pair in pairs {
        reach = reach.max(pair.first_at).max(pair.second_at);
    }
    reach
}

/// Whether a needle begins with a byte.
fn begins_with(needle: &[u8], byte: u8) -> bool
    ensures { IsTrue result → BeginsWithByte byte needle.now }
{
    !needle.is_empty() && needle[0] == byte
}

/// Returns the byte with which all folded needles begin, if there is one, and a test of it first may pay: if there are
/// more than three pairs.
fn common_of(pairs: &[BytePair], folded: &[Vec<u8>]) -> Option<u8>
    ensures { IfSome result (λ byte. AllBeginWithByte byte (map (λ v. v.items) folded.now)) }
{
    if pairs.len() <= SEVERAL || folded.is_empty() || folded[0].is_empty() {
        return None;
    }
    let byte = folded[0][0];
    for needle in folded {
        if !begins_with(needle, byte) {
            return None;
        }
    }
    Some(byte)
}

/// Whether no needle is empty.
fn are_filled(needles: &[Vec<u8>]) -> bool
    ensures { IsTrue result → AllAtLeast (map (λ v. v.items) needles.now) 1 }
{
    for needle in needles {
        if needle.is_empty() {
            return false;
        }
    }
    true
}

/// Whether one of the folded needles occurs at an offset.
#[inline(always)]
fn any_occurs(hay: &[u8], at: usize, fold: u8, folded: &[Vec<u8>]) -> bool
    requires { at ≤ length hay.now }
    ensures { IsFalse result → NoFoldOccurs fold hay.now (map (λ v. v.items) folded.now) at }
{
    for needle in folded {
        if occurs_at(hay, at, fold, needle) {
            return true;
        }
    }
    false
}

/// Returns the bits to set in bytes before they are compared: `CASE` if there are many needles, but fewer with it.
fn fold_for(alloc: Global, needles: &[Vec<u8>]) -> Result<u8, AllocError> {
    if needles.len() > MANY && folded_of(alloc, needles, CASE)?.len() < needles.len() {
        Ok(CASE)
    } else {
        Ok(0)
    }
}

/// A search for several needles. A contract sees it as the list of its needles.
#[derive(Drop)]
pub struct Pairs {
    needles: Vec<Vec<u8>>,
    folded: Vec<Vec<u8>>,
    pairs: Vec<BytePair>,
    reach: u8,
    fold: u8,
    common: Option<u8>,
}

impl Model for Pairs {
    ghost Value = { List (List ℕ) };

    ghost view = { λ p. needles_of p.needles };

    ghost invariant = { λ p. HasFolds p.fold (needles_of p.needles) (needles_of p.folded)
        × CoversNeedles p.fold p.pairs.items (needles_of p.folded)
        × ReachesAtMost p.pairs.items p.reach
        × ((byte : ℕ) → p.common ≡ Some byte → AllBeginWithByte byte (needles_of p.folded)) };
}

impl Pairs {
    /// Returns the search for these needles, or none if one of them is empty, if they are more than 64, or if it would
    /// compare more than eight pairs.
    pub fn new(alloc: Global, needles: Vec<Vec<u8>>) -> Result<Option<Pairs>, AllocError>
        ensures { IfOk result (λ o. IfSome o (λ p. p ≡ needles_of needles)) }
    {
        if needles.len() > MOST_NEEDLES {
            return Ok(None);
        }
        let fold = fold_for(alloc, &needles)?;
        let folded = folded_of(alloc, &needles, fold)?;
        if !are_filled(&folded) {
            return Ok(None);
        }
        let pairs = pairs_of(alloc, &folded)?;
        if pairs.len() > MOST_PAIRS {
            return Ok(None);
        }
        let reach = reach_of(&pairs);
        let common = common_of(&pairs, &folded);
        Ok(Some(Pairs {
            needles,
            folded,
            pairs,
            reach,
            fold,
            common,
        }))
    }

    /// Returns a bit for each of the 64 offsets from `at` on: 0 only if no needle occurs there; none near the end of the
    /// haystack.
    #[inline(always)]
    fn fitting(&self, hay: &[u8], at: usize) -> Option<u64>
        requires { at ≤ length hay.now }
        ensures room { IfSome result (λ _. at + 64 ≤ length hay.now) }
        ensures bits { IfSome result (λ mask. mask < 2 ^ 64) }
        ensures set { IfSome result (λ mask. (k : ℕ) → k < 64 → AnyOccursAt hay.now self.now (at + k)
            → bit_at mask k ≡ 1) }
    {
        if !has_room(self.reach, hay, at) {
            return None;
        }
        let Some(byte) = self.common else {
            return Some(candidates(&self.pairs, self.reach, self.fold, hay, at));
        };
        let mask = equal(hay, at, self.fold, byte);
        if mask == 0 {
            return Some(mask);
        }
        Some(mask & candidates(&self.pairs, self.reach, self.fold, hay, at))
    }

    /// Returns the first offset from `start` on at which a pair fits, or one before it that is after `end` or near the
    /// end of the haystack.
    #[inline(always)]
    fn candidate(&self, hay: &[u8], start: usize, end: usize) -> usize
        requires span { start ≤ end }
        requires within { end ≤ length hay.now }
        ensures from { start ≤ result }
        ensures upto { result ≤ length hay.now }
        ensures none { NoneOccurs hay.now self.now start result }
    {
        let mut at = start;
        while at <= end {
            let Some(mask) = self.fitting(hay, at) else {
                return at;
            };
            if mask != 0 {
                return at + mask.trailing_zeros() as usize;
            }
            at += LANES;
        }
        at
    }

    /// Whether a needle occurs at an offset.
    fn occurs(&self, hay: &[u8], at: usize) -> bool
        requires { at ≤ length hay.now }
        ensures { IsFalse result → AnyOccursAt hay.now self.now at → ⊥ }
    {
        any_occurs(hay, at, self.fold, &self.folded)
    }

    /// Returns the first offset of the span `start..end`, its end included, at which a needle occurs; none if there is
    /// no such offset. It gives up, and returns an offset before the first needle, near the end of the haystack, and if
    /// pairs fit at many offsets at which no needle occurs.
    pub fn find(&self, hay: &[u8], start: usize, end: usize) -> Option<usize>
        requires span { start ≤ end }
        requires within { end ≤ length hay.now }
        ensures { StopsBeforeNeedle hay.now self.now start end result }
    {
        let mut at = start;
        let mut misses = 0;
        while at <= end {
            at = self.candidate(hay, at, end);
            if at > end {
                return None;
            }
            let tired = misses > FEW + (at - start) / SPACE;
            if tired || !has_room(self.reach, hay, at) || self.occurs(hay, at) {
                return Some(at);
            }
            misses += 1;
            at += 1;
        }
        None
    }
}
