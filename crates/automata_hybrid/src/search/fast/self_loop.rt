//! Follows a self-loop eight bytes at a time, and 32 at a time in ranges on which the row is known to lead back to
//! itself.
ghost use Rattle.std.specs.Prelude.{◌≡◌, ◌+◌, ◌<◌, ◌≤◌, IsTrue, length};
ghost use Rattle.automata_base.specs.declared.util.search.Direction.TheVariants.{Backward, Forward};
ghost use Rattle.automata_hybrid.specs.Cache.Ids.{fixed_from};
ghost use Rattle.automata_hybrid.specs.Cache.Table.{IsRowId};
ghost use Rattle.automata_hybrid.specs.Private.Cache.Sound.{IsSoundCacheOf};
ghost use Rattle.automata_hybrid.specs.Private.Fast.SelfLoops.{IsKnownLoop, IsLoopRun, LoopsOn, LoopsOver, byte_in};

use crate::cache::Cache;
use crate::cache::self_loops::{AGAIN, KnownLoop, LoopRange};
use crate::dfa::DFA;
use crate::id::LazyStateID;
use crate::search::fast::lanes::{LANES, are_in, are_in_either, count_in_either};
use crate::search::fast::loop_range::{loops_on_range, range_around};
use automata_base::util::search::Direction;

/// If fewer bytes than this are left, no self-loop is looked for: if there is none, the look has read up to eight cells
/// that have to be read again.
const FEW: usize = 16;

/// How many bytes of a self-loop are followed eight at a time before its ranges are looked for.
const MANY: usize = 256;

/// A scan stops when more than 1 in `LANES` bytes fell outside its ranges, with this many bytes of credit at its start.
const MISSES: usize = 256;

/// Returns the byte at a place of a slice that is read from its front or from its back.
#[inline(always)]
pub(crate) fn byte_at(way: Direction, bytes: &[u8], at: usize) -> u8
    requires { at < length bytes.now }
    ensures { result ≡ byte_in way bytes.now at }
{
    match way {
        Direction::Forward => bytes[at],
        Direction::Backward => bytes[bytes.len() - 1 - at],
    }
}

/// Whether a row has a cached self-loop on a byte.
#[inline(always)]
fn loops_on(dfa: &DFA, cache: &Cache, id: LazyStateID, byte: u8) -> bool
    requires sound { IsSoundCacheOf cache.now dfa.now }
    requires valid { IsRowId cache.now.store.table id }
    requires plain { id < fixed_from }
    ensures { IsTrue result → LoopsOn dfa.now cache.now.store id byte }
{
    cache.known_step(dfa, id, Some(byte)) == id
}

/// Whether a row has a cached self-loop on each of the eight bytes from a place on. No load depends on another.
#[inline(always)]
fn loops_on_eight(
    dfa: &DFA,
    cache: &Cache,
    id: LazyStateID,
    way: Direction,
    bytes: &[u8],
    at: usize,
) -> bool
    requires sound { IsSoundCacheOf cache.now dfa.now }
    requires valid { IsRowId cache.now.store.table id }
    requires plain { id < fixed_from }
    requires within { at + 8 ≤ length bytes.now }
    ensures { IsTrue result → LoopsOver dfa.now cache.now.store id way bytes.now at (at + 8) }
{
    for k in 0..8usize {
        if !loops_on(dfa, cache, id, byte_at(way, bytes, at + k)) {
            return false;
        }
    }
    true
}

/// Returns the place up to which a self-loop goes, in steps of eight bytes.
#[inline(always)]
fn follow_eights(
    dfa: &DFA,
    cache: &Cache,
    id: LazyStateID,
    way: Direction,
    bytes: &[u8],
    start: usize,
    end: usize,
) -> usize
    requires sound { IsSoundCacheOf cache.now dfa.now }
    requires valid { IsRowId cache.now.store.table id }
    requires plain { id < fixed_from }
    requires within { start ≤ end }
    requires inside { end ≤ length bytes.now }
    ensures upto { result ≤ end }
    ensures run { IsLoopRun dfa.now cache.now.store id way bytes.now start result }
{
    let mut at = start;
    'eights: while end - at >= 8 {
        if !loops_on_eight(dfa, cache, id, way, bytes, at) {
            return at;
        }
        at += 8;
    }
    at
}

/// Looks for the first range of a row's self-loop, around a byte, and stores it for the next run.
fn find_first(dfa: &DFA, cache: &Cache, id: LazyStateID, byte: u8) -> KnownLoop
    requires sound { IsSoundCacheOf cache.now dfa.now }
    requires valid { IsRowId cache.now.store.table id }
    requires plain { id < fixed_from }
    ensures { IsKnownLoop dfa.now cache.now.store id result }
{
    let first = range_around(dfa, cache, id, byte);
    let second = LoopRange::none();
    cache.set_self_loop(KnownLoop::kept(id, first, second));
    KnownLoop {
        id,
        first,
        second,
        wait: 0,
    }
}

/// Looks for the second range of a row's self-loop, around a byte outside the first, and stores both for the next run.
fn find_second(dfa: &DFA, cache: &Cache, id: LazyStateID, known: KnownLoop, byte: u8) -> KnownLoop
    requires sound { IsSoundCacheOf cache.now dfa.now }
    requires valid { IsRowId cache.now.store.table id }
    requires plain { id < fixed_from }
    requires known { IsKnownLoop dfa.now cache.now.store id known }
    ensures { IsKnownLoop dfa.now cache.now.store id result }
{
    let first = known.first;
    let second = range_around(dfa, cache, id, byte);
    cache.set_self_loop(KnownLoop::kept(id, first, second));
    KnownLoop {
        id,
        first,
        second,
        wait: 0,
    }
}

/// Returns the stored ranges of a row's self-loop, if they are right; otherwise the range found around a byte.
#[inline(always)]
fn tested(dfa: &DFA, cache: &Cache, id: LazyStateID, kept: KnownLoop, byte: u8) -> KnownLoop
    requires sound { IsSoundCacheOf cache.now dfa.now }
    requires valid { IsRowId cache.now.store.table id }
    requires plain { id < fixed_from }
    ensures { IsKnownLoop dfa.now cache.now.store id result }
{
    if kept.first.is_empty() {
        return find_first(dfa, cache, id, byte);
    }
    if !loops_on_range(dfa, cache, id, kept.first) {
        return find_first(dfa, cache, id, byte);
    }
    if !loops_on_range(dfa, cache, id, kept.second) {
        return find_first(dfa, cache, id, byte);
    }
    kept
}

/// Follows a self-loop `LANES` bytes at a time, and returns the place where it stops: the row leads elsewhere, fewer
/// than `LANES` bytes are left, or too many bytes were outside the ranges.
#[inline(always)]
fn scan(
    dfa: &DFA,
    cache: &Cache,
    id: LazyStateID,
    known: KnownLoop,
    way: Direction,
    bytes: &[u8],
    start: usize,
) -> usize
    requires sound { IsSoundCacheOf cache.now dfa.now }
    requires valid { IsRowId cache.now.store.table id }
    requires plain { id < fixed_from }
    requires known { IsKnownLoop dfa.now cache.now.store id known }
    requires within { start ≤ length bytes.now }
    ensures { IsLoopRun dfa.now cache.now.store id way bytes.now start result }
{
    let end = bytes.len();
    let mut at = start;
    let mut found = known;
    let mut misses = 0usize;
    'lanes: while end - at >= LANES {
        // Branches, rather than adding a count to `at`: the next bytes are loaded before these are compared.
        if are_in(way, found.first, bytes, at) {
            at += LANES;
            continue;
        }
        if are_in_either(way, found.first, found.second, bytes, at) {
            at += LANES;
            continue;
        }
        let near = count_in_either(way, found.first, found.second, bytes, at);
        at += near;
        if near == LANES {
            continue;
        }
        let byte = byte_at(way, bytes, at);
        if !loops_on(dfa, cache, id, byte) {
            return at;
        }
        at += 1;
        if found.second.is_empty() {
            found = find_second(dfa, cache, id, found, byte);
            continue;
        }
        misses = misses.saturating_add(1);
        if misses.saturating_mul(LANES) > (at - start).saturating_add(MISSES) {
            cache.set_self_loop(KnownLoop::new(id, AGAIN));
            return at;
        }
    }
    at
}

/// Returns the place up to which a self-loop goes, or at most seven bytes less. It reads eight bytes at a time until
/// the ranges are known.
#[inline(always)]
fn follow_many(dfa: &DFA, cache: &Cache, id: LazyStateID, way: Direction, bytes: &[u8]) -> usize
    requires sound { IsSoundCacheOf cache.now dfa.now }
    requires valid { IsRowId cache.now.store.table id }
    requires plain { id < fixed_from }
    requires long { 8 ≤ length bytes.now }
    requires first { LoopsOver dfa.now cache.now.store id way bytes.now 0 8 }
    ensures { IsLoopRun dfa.now cache.now.store id way bytes.now 0 result }
{
    let end = bytes.len();
    let mut kept = cache.self_loop();
    if kept.id != id {
        kept = KnownLoop::new(id, MANY);
    }
    let wait = kept.wait.max(8);
    let few = follow_eights(dfa, cache, id, way, bytes, 8, end.min(wait));
    if few < wait {
        kept.wait = wait - few;
        cache.set_self_loop(kept);
        return few;
    }
    let known = tested(dfa, cache, id, kept, byte_at(way, bytes, few - 1));
    let many = scan(dfa, cache, id, known, way, bytes, few);
    follow_eights(dfa, cache, id, way, bytes, many, end)
}

/// Returns what `follow_many` does for a slice that is read from its front.
#[inline(never)]
fn follow_many_fwd(dfa: &DFA, cache: &Cache, id: LazyStateID, bytes: &[u8]) -> usize
    requires sound { IsSoundCacheOf cache.now dfa.now }
    requires valid { IsRowId cache.now.store.table id }
    requires plain { id < fixed_from }
    requires long { 8 ≤ length bytes.now }
    requires first { LoopsOver dfa.now cache.now.store id Forward bytes.now 0 8 }
    ensures { IsLoopRun dfa.now cache.now.store id Forward bytes.now 0 result }
{
    follow_many(dfa, cache, id, Direction::Forward, bytes)
}

/// Returns what `follow_many` does for a slice that is read from its back.
#[inline(never)]
fn follow_many_rev(dfa: &DFA, cache: &Cache, id: LazyStateID, bytes: &[u8]) -> usize
    requires sound { IsSoundCacheOf cache.now dfa.now }
    requires valid { IsRowId cache.now.store.table id }
    requires plain { id < fixed_from }
    requires long { 8 ≤ length bytes.now }
    requires first { LoopsOver dfa.now cache.now.store id Backward bytes.now 0 8 }
    ensures { IsLoopRun dfa.now cache.now.store id Backward bytes.now 0 result }
{
    follow_many(dfa, cache, id, Direction::Backward, bytes)
}

/// Returns how many bytes of a slice, which is read from its front or from its back, a row's self-loop reads, or a
/// smaller number: 0 if few bytes are left.
#[inline(always)]
pub(crate) fn follow_self_loop(
    dfa: &DFA,
    cache: &Cache,
    id: LazyStateID,
    way: Direction,
    bytes: &[u8],
) -> usize
    requires sound { IsSoundCacheOf cache.now dfa.now }
    requires valid { IsRowId cache.now.store.table id }
    requires plain { id < fixed_from }
    ensures { IsLoopRun dfa.now cache.now.store id way bytes.now 0 result }
{
    if bytes.len() < FEW {
        return 0;
    }
    if !loops_on_eight(dfa, cache, id, way, bytes, 0) {
        return 0;
    }
    match way {
        Direction::Forward => follow_many_fwd(dfa, cache, id, bytes),
        Direction::Backward => follow_many_rev(dfa, cache, id, bytes),
    }
}
