//! Advances a walk, in either direction, to the next state whose patterns match.
ghost use Rattle.std.specs.Prelude.{◌≡◌, ◌-◌, ◌<◌, ◌≤◌, ◌⊎◌, [], true, false, length};
ghost use Rattle.automata_base.specs.Answers.Answers.{offset_in};
ghost use Rattle.automata_base.specs.Haystacks.Tapes.{is_split};
ghost use Rattle.automata_base.specs.Powersets.Powerset.{Powerset};
ghost use Rattle.automata_hybrid.specs.Cache.Table.{IsRowId, Names};
ghost use Rattle.automata_hybrid.specs.Private.Cache.Sound.{IsSoundCacheOf};
ghost use Rattle.automata_hybrid.specs.Private.Searches.PassContracts.{FollowsTo};
ghost use Rattle.automata_hybrid.specs.Private.Searches.PassState.{IsFollowed, IsPeeked};
ghost use Rattle.automata_hybrid.specs.Private.Walks.Parts.{IsAdvanceResult, IsUnitResult, StandsAfterUnits};
ghost use Rattle.automata_hybrid.specs.Searches.Passes.{HasReadNoQuit, Skips, state_in};
ghost use Rattle.automata_hybrid.specs.Walks.Answers.{WalkReads};

use crate::cache::Cache;
use crate::dfa::DFA;
use crate::id::LazyStateID;
use crate::search::direction::{
    byte_at, last_place, place_offset, span_offset, unit_at, unit_offset,
};
use crate::search::fast::follow::{Stop, follow};
use crate::search::fast::leap::follow_any_leaps;
use crate::search::{read, skips_at};
use automata_base::util::search::{Direction, Input};
use automata_config::error::SearchError;

/// How many bytes a walk follows one by one before it looks for leaps.
const NEAR: usize = 256;

/// Where a walk has arrived: the ID of a state whose patterns match, or `None` at its end; and how many units it has
/// read.
#[derive(Clone, Copy)]
pub(crate) struct Arrival {
    pub(crate) id: Option<LazyStateID>,
    pub(crate) units: usize,
}

/// Returns the state after the unit that a walk reads at a place. `peeked` is the next ID if the caller has read it,
/// and unknown otherwise.
#[inline(always)]
fn read_unit(
    dfa: &DFA,
    cache: &mut Cache,
    input: &Input<'_>,
    way: Direction,
    id: LazyStateID,
    peeked: LazyStateID,
    place: usize,
) -> Result<LazyStateID, SearchError>
    requires sound { IsSoundCacheOf cache.old dfa.now }
    requires at { StandsAfterUnits way dfa.now cache.old.store.table input.now place id }
    requires peeked { IsPeeked way dfa.now cache.old.store input.now place id peeked }
    ensures sound { IsSoundCacheOf cache.new dfa.now }
    ensures reads { WalkReads way dfa.now input.now place }
    ensures unit { IsUnitResult way dfa.now input.now place cache.old cache.new result }
{
    let at = span_offset(input, way, place);
    let quit_at = unit_offset(input, way, place);
    read(
        dfa,
        cache,
        id,
        peeked,
        unit_at(input, way, place),
        quit_at,
        at,
    )
}

/// Whether a state's patterns match at a place of a walk, and the place is not skipped.
#[inline(always)]
fn reports(
    dfa: &DFA,
    cache: &Cache,
    input: &Input<'_>,
    way: Direction,
    id: LazyStateID,
    place: usize,
) -> bool
    requires sound { IsSoundCacheOf cache.now dfa.now }
    requires open { input.now.start ≤ input.now.end }
    requires within { place ≤ input.now.end - input.now.start }
    requires valid { IsRowId cache.now.store.table id }
    ensures yes { result ≡ true
        → (Skips dfa.now → is_split input.now.haystack (offset_in way input.now place) ≡ false)
        × ((q : Powerset) → Names cache.now.store.table id q → 0 < length q.patterns) }
    ensures no { result ≡ false
        → (Skips dfa.now × (is_split input.now.haystack (offset_in way input.now place) ≡ true))
        ⊎ ((q : Powerset) → Names cache.now.store.table id q → q.patterns ≡ []) }
{
    if !id.is_match() {
        return false;
    }
    !skips_at(dfa, input, place_offset(input, way, place))
}

/// Follows one cached transition from a tagged to an untagged ID, so that a walk continues from a match as from any
/// other state. From an untagged ID it follows none.
fn leave_tag(
    dfa: &DFA,
    cache: &Cache,
    input: &Input<'_>,
    way: Direction,
    start: usize,
    from: LazyStateID,
) -> Stop
    requires sound { IsSoundCacheOf cache.now dfa.now }
    requires open { input.now.start ≤ input.now.end }
    requires within { start ≤ input.now.end - input.now.start }
    requires named { Names cache.now.store.table from (state_in way dfa.now input.now start) }
    ensures within { result.at ≤ input.now.end - input.now.start }
    ensures followed { IsFollowed way dfa.now cache.now.store input.now 0 start result.at result.id }
    ensures peeked { IsPeeked way dfa.now cache.now.store input.now result.at result.id result.next }
{
    if from.has_only(0) || start >= last_place(input) {
        return Stop {
            at: start,
            id: from,
            next: LazyStateID::UNKNOWN,
        };
    }
    let next = cache.known_step(dfa, from, Some(byte_at(input, way, start)));
    if next.has_only(0) {
        return Stop {
            at: start + 1,
            id: next,
            next: LazyStateID::UNKNOWN,
        };
    }
    Stop {
        at: start,
        id: from,
        next,
    }
}

/// Follows cached transitions to untagged IDs up to the place `end`, and a self-loop beyond it. Each direction has its
/// own loop.
#[inline(always)]
fn follow_walk(
    dfa: &DFA,
    cache: &Cache,
    input: &Input<'_>,
    way: Direction,
    start: usize,
    from: LazyStateID,
    end: usize,
) -> Stop
    requires sound { IsSoundCacheOf cache.now dfa.now }
    requires open { input.now.start ≤ input.now.end }
    requires within { start ≤ input.now.end - input.now.start }
    requires upto { end ≤ input.now.end - input.now.start }
    requires named { Names cache.now.store.table from (state_in way dfa.now input.now start) }
    ensures { FollowsTo way dfa.now cache.now.store input.now 0 start result }
{
    let first = leave_tag(dfa, cache, input, way, start, from);
    if !first.id.has_only(0) {
        return first;
    }
    match way {
        Direction::Forward => follow(
            dfa,
            cache,
            input,
            Direction::Forward,
            first.at,
            first.id,
            0,
            end,
        ),
        Direction::Backward => follow(
            dfa,
            cache,
            input,
            Direction::Backward,
            first.at,
            first.id,
            0,
            end,
        ),
    }
}

/// Follows leaps, if a walk has reached `end`, the place where it looks for them. Returns where it stops, and the place
/// where it looks for leaps next.
#[inline(always)]
fn walk_with_leaps(
    dfa: &DFA,
    cache: &mut Cache,
    input: &Input<'_>,
    way: Direction,
    near: Stop,
    end: usize,
) -> (Stop, usize)
    requires sound { IsSoundCacheOf cache.old dfa.now }
    requires open { input.now.start ≤ input.now.end }
    requires upto { end ≤ input.now.end - input.now.start }
    requires near { FollowsTo way dfa.now cache.old.store input.now 0 near.at near }
    ensures same { cache.new ≡ cache.old }
    ensures far { FollowsTo way dfa.now cache.new.store input.now 0 near.at result.0 }
    ensures upto { result.1 ≤ input.now.end - input.now.start }
{
    let last = last_place(input);
    if near.at < end || near.at >= last {
        return (near, end);
    }
    let far = follow_any_leaps(dfa, cache, input, way, near);
    (far, last.min(far.at + NEAR))
}

/// Advances a walk from its state to the next one whose patterns match. Unless there is an error, the search stays
/// open.
#[inline(always)]
pub(crate) fn advance(
    dfa: &DFA,
    cache: &mut Cache,
    input: &Input<'_>,
    way: Direction,
    from: LazyStateID,
    units: usize,
) -> Result<Arrival, SearchError>
    requires sound { IsSoundCacheOf cache.old dfa.now }
    requires from { StandsAfterUnits way dfa.now cache.old.store.table input.now units from }
    requires clean { HasReadNoQuit way dfa.now input.now units }
    ensures sound { IsSoundCacheOf cache.new dfa.now }
    ensures advanced { IsAdvanceResult way dfa.now input.now units cache.old cache.new result }
{
    let last = last_place(input);
    let mut id = from;
    let mut read = units;
    let mut end = last.min(read + NEAR);
    while read <= last {
        let near = follow_walk(dfa, cache, input, way, read, id, end);
        let (stop, due) = walk_with_leaps(dfa, cache, input, way, near, end);
        end = due;
        let next = read_unit(dfa, cache, input, way, stop.id, stop.next, stop.at)?;
        if next.is_dead() {
            return Ok(Arrival {
                id: None,
                units: stop.at + 1,
            });
        }
        if reports(dfa, cache, input, way, next, stop.at) {
            return Ok(Arrival {
                id: Some(next),
                units: stop.at + 1,
            });
        }
        id = next;
        read = stop.at + 1;
    }
    Ok(Arrival {
        id: None,
        units: read,
    })
}
