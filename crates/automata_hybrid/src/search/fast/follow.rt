//! Follows cached transitions, eight per iteration: into states that report nothing or into match states, and along
//! self-loops.
ghost use Rattle.std.specs.Prelude.{◌≡◌, ◌+◌, ◌-◌, ◌^◌, ◌<◌, ◌≤◌};
ghost use Rattle.automata_base.specs.Paths.Paths.{next};
ghost use Rattle.automata_hybrid.specs.Cache.Ids.{fixed_from};
ghost use Rattle.automata_hybrid.specs.Cache.Table.{IsRowId};
ghost use Rattle.automata_hybrid.specs.Private.Cache.Ids.{HasOnly, IsRunTag};
ghost use Rattle.automata_hybrid.specs.Private.Cache.Sound.{IsSoundCacheOf};
ghost use Rattle.automata_hybrid.specs.Private.Fast.SelfLoops.{IsSelfLoop};
ghost use Rattle.automata_hybrid.specs.Private.Searches.PassContracts.{FollowsAlong};
ghost use Rattle.automata_hybrid.specs.Private.Searches.PassState.{IsMatchRun, IsPeekedAlong, IsNextCell, IsOnTrace};
ghost use Rattle.automata_hybrid.specs.Private.Searches.PassState.{IsRun, IsTagAt, MayFollow, PeeksMatch};
ghost use Rattle.automata_hybrid.specs.Searches.Traces.{Trace};

use crate::cache::Cache;
use crate::dfa::DFA;
use crate::id::LazyStateID;
use crate::search::direction::{byte_at, bytes_from, last_place};
use crate::search::fast::self_loop::follow_self_loop;
use automata_base::util::search::{Direction, Input};

/// How many bytes are followed before looking for a self-loop again, after none was found. A look reads up to eight
/// cells, which costs little compared with this many bytes.
const PATIENCE: usize = 128;

/// A place of a run, and the ID of its state there. A function that is not inlined takes both in registers.
#[derive(Clone, Copy)]
pub(crate) struct Spot {
    pub(crate) at: usize,
    pub(crate) id: LazyStateID,
}

/// Where a run over cached transitions stopped.
#[derive(Clone, Copy)]
pub(crate) struct Stop {
    pub(crate) at: usize,
    pub(crate) id: LazyStateID,
    /// The next ID, at which the run stopped; unknown if it was not read.
    pub(crate) next: LazyStateID,
}

/// Follows cached transitions to IDs whose only tag is `tag`, or to untagged IDs if that is 0, up to the place `end`,
/// and a self-loop beyond it. From an ID with another tag it follows none.
#[inline(always)]
pub(crate) fn follow(
    dfa: &DFA,
    cache: &Cache,
    input: &Input<'_>,
    way: Direction,
    start: usize,
    from: LazyStateID,
    tag: u32,
    end: usize,
) -> Stop
    ghost trace: { Trace }
    requires sound { IsSoundCacheOf cache.now dfa.now }
    requires may { MayFollow trace way dfa.now cache.now.store.table input.now start end from }
    requires kind { IsRunTag tag }
    ensures to { FollowsAlong trace way dfa.now cache.now.store input.now tag start result }
    ensures read { result.at < end
        → IsNextCell way dfa.now cache.now.store input.now result.at result.id result.next }
    ensures only { HasOnly tag from → HasOnly tag result.id }
{
    if !from.has_only(tag) {
        return Stop {
            at: start,
            id: from,
            next: next_known(dfa, cache, input, way, start, from, end),
        };
    }
    if end < 8 {
        return follow_rest(dfa, cache, input, way, start, from, tag, end);
    }
    let last_eight = end - 8;
    let mut at = start;
    let mut id = from;
    let mut again = start;
    'eights: while at <= last_eight {
        let eight = follow_eight(dfa, cache, input, way, at, id, tag);
        if eight.at != at + 8 {
            return eight;
        }
        let same = eight.id == id;
        at = eight.at;
        id = eight.id;
        if at < again || !same {
            continue;
        }
        let stop = follow_loop(dfa, cache, input, way, at, id);
        if stop == at {
            again = at.saturating_add(PATIENCE);
        }
        at = stop;
    }
    follow_rest(dfa, cache, input, way, at, id, tag, end)
}

/// Returns the next ID at a place before `end`. It is unknown if the transition is not cached, and if the place is not
/// before `end`.
#[inline(always)]
pub(crate) fn next_known(
    dfa: &DFA,
    cache: &Cache,
    input: &Input<'_>,
    way: Direction,
    at: usize,
    id: LazyStateID,
    end: usize,
) -> LazyStateID
    ghost trace: { Trace }
    requires sound { IsSoundCacheOf cache.now dfa.now }
    requires may { MayFollow trace way dfa.now cache.now.store.table input.now at end id }
    ensures peeked { IsPeekedAlong trace way dfa.now cache.now.store input.now at id result }
    ensures read { at < end → IsNextCell way dfa.now cache.now.store input.now at id result }
{
    if at >= end {
        return LazyStateID::UNKNOWN;
    }
    cache.known_step(dfa, id, Some(byte_at(input, way, at)))
}

/// Follows cached transitions into match states. `next` is the ID after `from`, and its only tag is the match tag.
#[inline(always)]
pub(crate) fn follow_matches(
    dfa: &DFA,
    cache: &Cache,
    input: &Input<'_>,
    way: Direction,
    start: usize,
    from: LazyStateID,
    next: LazyStateID,
) -> Stop
    ghost trace: { Trace }
    requires sound { IsSoundCacheOf cache.now dfa.now }
    requires on { IsOnTrace trace way dfa.now cache.now.store.table input.now start from }
    requires peeked { PeeksMatch trace way dfa.now cache.now.store input.now start from next }
    requires open { input.now.start ≤ input.now.end }
    ensures run { IsMatchRun trace way dfa.now cache.now.store input.now start result.at result.id }
    ensures peeked { IsPeekedAlong trace way dfa.now cache.now.store input.now result.at result.id result.next }
    ensures read { result.at < input.now.end - input.now.start
        → IsNextCell way dfa.now cache.now.store input.now result.at result.id result.next }
{
    let last = last_place(input);
    follow(
        dfa,
        cache,
        input,
        way,
        start + 1,
        next,
        LazyStateID::MATCH,
        last,
    )
}

/// Follows cached transitions over eight bytes, or up to the first byte that does not lead to an ID whose only tag is
/// `tag`.
#[inline(always)]
fn follow_eight(
    dfa: &DFA,
    cache: &Cache,
    input: &Input<'_>,
    way: Direction,
    start: usize,
    from: LazyStateID,
    tag: u32,
) -> Stop
    ghost trace: { Trace }
    requires sound { IsSoundCacheOf cache.now dfa.now }
    requires at { IsTagAt trace way dfa.now cache.now.store.table input.now tag start from }
    requires within { start + 8 ≤ input.now.end - input.now.start }
    requires room { start + 8 < 2 ^ 64 }
    ensures upto { result.at ≤ start + 8 }
    ensures run { IsRun trace way dfa.now cache.now.store input.now tag start result.at result.id }
    ensures peeked { IsPeekedAlong trace way dfa.now cache.now.store input.now result.at result.id result.next }
    ensures read { result.at < start + 8
        → IsNextCell way dfa.now cache.now.store input.now result.at result.id result.next }
{
    let mut row = from.offset_by(tag);
    for k in 0..8usize {
        let id = LazyStateID::at_offset(row, tag);
        let next = follow_byte(dfa, cache, input, way, start + k, id, row, tag);
        let offset = next.offset_by(tag);
        if offset >= LazyStateID::OFFSET_LIMIT {
            return Stop {
                at: start + k,
                id,
                next,
            };
        }
        row = offset;
    }
    Stop {
        at: start + 8,
        id: LazyStateID::at_offset(row, tag),
        next: LazyStateID::UNKNOWN,
    }
}

/// Follows cached transitions to IDs whose only tag is `tag`, one by one, up to the place `end`.
#[inline(always)]
fn follow_rest(
    dfa: &DFA,
    cache: &Cache,
    input: &Input<'_>,
    way: Direction,
    start: usize,
    from: LazyStateID,
    tag: u32,
    end: usize,
) -> Stop
    ghost trace: { Trace }
    requires sound { IsSoundCacheOf cache.now dfa.now }
    requires may { MayFollow trace way dfa.now cache.now.store.table input.now start end from }
    requires kind { IsRunTag tag }
    requires only { HasOnly tag from }
    ensures within { result.at ≤ input.now.end - input.now.start }
    ensures run { IsRun trace way dfa.now cache.now.store input.now tag start result.at result.id }
    ensures peeked { IsPeekedAlong trace way dfa.now cache.now.store input.now result.at result.id result.next }
    ensures read { result.at < end
        → IsNextCell way dfa.now cache.now.store input.now result.at result.id result.next }
{
    let mut at = start;
    let mut row = from.offset_by(tag);
    'rest: while at < end {
        let id = LazyStateID::at_offset(row, tag);
        let next = follow_byte(dfa, cache, input, way, at, id, row, tag);
        let offset = next.offset_by(tag);
        if offset >= LazyStateID::OFFSET_LIMIT {
            return Stop { at, id, next };
        }
        row = offset;
        at += 1;
    }
    Stop {
        at,
        id: LazyStateID::at_offset(row, tag),
        next: LazyStateID::UNKNOWN,
    }
}

/// Returns the ID after the byte at a place, which is unknown if the transition is not cached. The only tag of `id` is
/// `tag`, and its row's offset is `row`.
fn follow_byte(
    dfa: &DFA,
    cache: &Cache,
    input: &Input<'_>,
    way: Direction,
    place: usize,
    id: LazyStateID,
    row: usize,
    tag: u32,
) -> LazyStateID
    ghost trace: { Trace }
    requires sound { IsSoundCacheOf cache.now dfa.now }
    requires at { IsTagAt trace way dfa.now cache.now.store.table input.now tag place id }
    requires row { id ≡ row + tag }
    requires within { place < input.now.end - input.now.start }
    ensures run { HasOnly tag result
        → IsRun trace way dfa.now cache.now.store input.now tag place (place + 1) result }
    ensures peeked { IsPeekedAlong trace way dfa.now cache.now.store input.now place id result }
    ensures read { IsNextCell way dfa.now cache.now.store input.now place id result }
{
    let class = dfa.class_of(byte_at(input, way, place));
    cache.table().cell_in_row(id, row, class)
}

/// Follows the self-loop of an ID's row, if it has one, and returns the place where it stops. The ID may have tags.
#[inline(always)]
fn follow_loop(
    dfa: &DFA,
    cache: &Cache,
    input: &Input<'_>,
    way: Direction,
    start: usize,
    id: LazyStateID,
) -> usize
    requires sound { IsSoundCacheOf cache.now dfa.now }
    requires valid { IsRowId cache.now.store.table id }
    requires plain { id < fixed_from }
    requires open { input.now.start ≤ input.now.end }
    requires within { start ≤ input.now.end - input.now.start }
    ensures within { result ≤ input.now.end - input.now.start }
    ensures loops { IsSelfLoop way dfa.now cache.now.store input.now id start result }
{
    start + follow_self_loop(dfa, cache, id, way, bytes_from(input, way, start))
}
