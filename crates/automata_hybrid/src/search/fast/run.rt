//! Runs over cached transitions that keep what they found: to the next match, over matches, and by leaps.
ghost use Rattle.std.specs.Prelude.{Option, ℕ, ◌-◌, ◌<◌, ◌≡◌, ◌≤◌, None};
ghost use Rattle.automata_base.specs.Answers.Answers.{offset_in};
ghost use Rattle.automata_base.specs.Haystacks.Matches.{HalfMatch};
ghost use Rattle.automata_base.specs.Powersets.Powerset.{Powerset};
ghost use Rattle.automata_hybrid.specs.Cache.Ids.{HasMatchTag, unknown_id};
ghost use Rattle.automata_hybrid.specs.Cache.Table.{IsRowId, Names};
ghost use Rattle.automata_hybrid.specs.Private.Cache.Sound.{IsSoundCacheOf};
ghost use Rattle.automata_hybrid.specs.Private.Searches.PassContracts.{RunsAlong, found_there};
ghost use Rattle.automata_hybrid.specs.Private.Searches.PassState.{HasRun, IsPeekedAlong, IsNextCell, MayFollow};
ghost use Rattle.automata_hybrid.specs.Private.Searches.Traces.{IsTrace};
ghost use Rattle.automata_hybrid.specs.Searches.PassState.{IsAtAlong, half_at};
ghost use Rattle.automata_hybrid.specs.Searches.Traces.{Trace};

use crate::cache::Cache;
use crate::dfa::DFA;
use crate::id::LazyStateID;
use crate::search::direction::{last_place, place_offset, span_offset};
use crate::search::fast::follow::{Stop, follow, follow_matches, next_known};
use crate::search::fast::leap::follow_any_leaps;
use crate::search::first_pattern;
use automata_base::util::search::{Direction, HalfMatch, Input};

/// How many bytes a pass follows one by one before it looks for leaps again.
const NEAR: usize = 48;

/// How many bytes a pass follows one by one after a match, into match states and other states.
const SOON: usize = 32;

/// The position of a run: its place, the ID of its state there, and what it found last.
#[derive(Clone, Copy)]
pub(crate) struct Place {
    pub(crate) at: usize,
    pub(crate) id: LazyStateID,
    pub(crate) found: Option<HalfMatch>,
    /// The next ID, if the run stopped at it; unknown if it was not read.
    pub(crate) next: LazyStateID,
}

/// Returns the place up to which a run from a place follows cached transitions before it looks for leaps.
#[inline(always)]
pub(crate) fn near_end(cache: &Cache, input: &Input<'_>, way: Direction, at: usize) -> usize
    requires open { input.now.start ≤ input.now.end }
    requires within { at ≤ input.now.end - input.now.start }
    ensures { result ≤ input.now.end - input.now.start }
{
    let due = cache.bytes_before_leaps(span_offset(input, way, at));
    last_place(input).min(at.saturating_add(due.max(NEAR)))
}

/// Follows cached transitions into states that report nothing, up to the place `end` and along a self-loop beyond it,
/// and then into match states. It finds what the last of these reports. An earliest search does not follow match
/// states.
#[inline(always)]
pub(crate) fn run_to_match(
    dfa: &DFA,
    cache: &Cache,
    input: &Input<'_>,
    way: Direction,
    start: usize,
    from: LazyStateID,
    found: Option<HalfMatch>,
    end: usize,
) -> Place
    ghost trace: { Trace }
    requires sound { IsSoundCacheOf cache.now dfa.now }
    requires may { MayFollow trace way dfa.now cache.now.store.table input.now start end from }
    requires at { IsAtAlong trace way dfa.now cache.now.store.table input.now start from found }
    ensures runs { RunsAlong trace way dfa.now cache.now.store input.now start result }
    ensures read { result.at < end
        → IsNextCell way dfa.now cache.now.store input.now result.at result.id result.next }
    ensures there { start ≡ 0 → found ≡ None → (q : Powerset) → Names cache.now.store.table result.id q
        → result.found ≡ found_there way input.now result.at q.patterns }
{
    let quiet = follow(dfa, cache, input, way, start, from, 0, end);
    if input.get_earliest() {
        return Place {
            at: quiet.at,
            id: quiet.id,
            found,
            next: quiet.next,
        };
    }
    if !quiet.next.has_only(LazyStateID::MATCH) {
        return Place {
            at: quiet.at,
            id: quiet.id,
            found,
            next: quiet.next,
        };
    }
    let stop = follow_matches(dfa, cache, input, way, quiet.at, quiet.id, quiet.next);
    let offset = place_offset(input, way, stop.at - 1);
    let pattern = first_pattern(dfa, cache, stop.id);
    Place {
        at: stop.at,
        id: stop.id,
        found: Some(HalfMatch::new(pattern, offset)),
        next: stop.next,
    }
}

/// Follows cached transitions after a match, one by one, into match states and other states. It finds what the last
/// match state reports, and stops before the last byte of the span. If nothing is found yet it does not move, so an
/// earliest search, which ends at its first match, never moves here.
#[inline(always)]
pub(crate) fn follow_reports(
    dfa: &DFA,
    cache: &Cache,
    input: &Input<'_>,
    way: Direction,
    from: Place,
) -> Place
    ghost trace: { Trace }
    requires sound { IsSoundCacheOf cache.now dfa.now }
    requires trace { IsTrace way dfa.now input.now trace }
    requires at { IsAtAlong trace way dfa.now cache.now.store.table input.now from.at from.id from.found }
    requires within { from.at < input.now.end - input.now.start }
    requires next { IsNextCell way dfa.now cache.now.store input.now from.at from.id from.next }
    ensures run { HasRun trace way dfa.now cache.now.store input.now from.at result.at }
    ensures at { IsAtAlong trace way dfa.now cache.now.store.table input.now result.at result.id result.found }
    ensures within { result.at < input.now.end - input.now.start }
    ensures next { IsNextCell way dfa.now cache.now.store input.now result.at result.id result.next }
{
    if !from.next.is_plain() || from.found.is_none() {
        return from;
    }
    let last = last_place(input);
    let end = (last - 1).min(from.at.saturating_add(SOON));
    let mut at = from.at;
    let mut id = from.id;
    let mut reported = LazyStateID::UNKNOWN;
    let mut reported_at = from.at;
    'mixed: while at < end {
        let next = next_known(dfa, cache, input, way, at, id, end);
        if !next.is_plain() {
            break;
        }
        if next.has_only(LazyStateID::MATCH) {
            reported = next;
            reported_at = at;
        }
        id = next;
        at += 1;
    }
    Place {
        at,
        id,
        found: last_found(dfa, cache, input, way, reported, reported_at, from.found),
        next: next_known(dfa, cache, input, way, at, id, last),
    }
}

/// Returns what was found last: what the state of `reported` reports at a place, or `found` if that ID is unknown.
#[inline(always)]
fn last_found(
    dfa: &DFA,
    cache: &Cache,
    input: &Input<'_>,
    way: Direction,
    reported: LazyStateID,
    at: usize,
    found: Option<HalfMatch>,
) -> Option<HalfMatch>
    requires sound { IsSoundCacheOf cache.now dfa.now }
    requires open { input.now.start ≤ input.now.end }
    requires within { at ≤ input.now.end - input.now.start }
    requires reports { reported < unknown_id
        → IsRowId cache.now.store.table reported × HasMatchTag reported }
    ensures none { unknown_id ≤ reported → result ≡ found }
    ensures some { reported < unknown_id → (q : Powerset) → Names cache.now.store.table reported q
        → (before : Option HalfMatch) → result ≡ half_at q.patterns (offset_in way input.now at) before }
{
    if reported.is_unknown() {
        return found;
    }
    let offset = place_offset(input, way, at);
    Some(HalfMatch::new(first_pattern(dfa, cache, reported), offset))
}

/// Follows leaps, if a run has reached `end`, the place where it looks for them. Returns where it stops, and the place
/// where it looks for leaps next.
#[inline(always)]
pub(crate) fn follow_with_leaps(
    dfa: &DFA,
    cache: &mut Cache,
    input: &Input<'_>,
    way: Direction,
    near: Place,
    end: usize,
) -> (Place, usize)
    ghost trace: { Trace }
    requires sound { IsSoundCacheOf cache.old dfa.now }
    requires may { MayFollow trace way dfa.now cache.old.store.table input.now near.at end near.id }
    requires peeked { IsPeekedAlong trace way dfa.now cache.old.store input.now near.at near.id near.next }
    requires read { near.at < end
        → IsNextCell way dfa.now cache.old.store input.now near.at near.id near.next }
    ensures same { cache.new ≡ cache.old }
    ensures runs { (from : ℕ) → RunsAlong trace way dfa.now cache.old.store input.now from near
        → RunsAlong trace way dfa.now cache.new.store input.now from result.0 }
    ensures read { result.0.at < input.now.end - input.now.start → IsNextCell way dfa.now cache.new.store
        input.now result.0.at result.0.id result.0.next }
    ensures upto { result.1 ≤ input.now.end - input.now.start }
{
    let last = last_place(input);
    if near.at < end || near.at >= last {
        return (near, end);
    }
    let stop = Stop {
        at: near.at,
        id: near.id,
        next: near.next,
    };
    let far = follow_any_leaps(dfa, cache, input, way, stop);
    let due = near_end(cache, input, way, far.at);
    let run = Place {
        at: far.at,
        id: far.id,
        found: near.found,
        next: far.next,
    };
    (run, due)
}
