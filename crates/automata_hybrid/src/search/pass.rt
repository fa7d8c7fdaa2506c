//! One pass over the span of an input, in either direction. First it follows cached transitions and only reads the
//! cache; what is not cached is left to functions that determinize.
ghost use Rattle.std.specs.Prelude.{◌≡◌, ◌-◌, ◌<◌, ◌≤◌, None};
ghost use Rattle.automata_base.specs.Haystacks.Input.{Allows, IsValidInput};
ghost use Rattle.automata_base.specs.Paths.Paths.{next};
ghost use Rattle.automata_base.specs.Powersets.Powerset.{Powerset, dead};
ghost use Rattle.automata_hybrid.specs.Cache.Ids.{unknown_id};
ghost use Rattle.automata_hybrid.specs.Cache.Table.{Names};
ghost use Rattle.automata_hybrid.specs.Known.Steps.{IsStartRun};
ghost use Rattle.automata_hybrid.specs.Known.Stores.{known_of};
ghost use Rattle.automata_hybrid.specs.Machines.Machine.{unit_class};
ghost use Rattle.automata_hybrid.specs.Private.Cache.Sound.{IsSoundCacheOf};
ghost use Rattle.automata_hybrid.specs.Private.Searches.PassContracts.{IsKnownUpto, IsLastRead, IsPassResult, IsRest};
ghost use Rattle.automata_hybrid.specs.Private.Searches.PassContracts.{MayContinue, input_at, IsKnownStop, MayBegin};
ghost use Rattle.automata_hybrid.specs.Private.Searches.PassState.{IsNextCell, IsPeeked};
ghost use Rattle.automata_hybrid.specs.Searches.PassContracts.{IsUnderway};
ghost use Rattle.automata_hybrid.specs.Searches.Passes.{state_in, tape_in};
ghost use Rattle.automata_hybrid.specs.Steps.Starts.{IsStartAnswer};
ghost use Rattle.automata_hybrid.specs.Steps.Steps.{IsStepAnswer, known_step};

use crate::cache::Cache;
use crate::dfa::DFA;
use crate::id::LazyStateID;
use crate::search::direction::{
    byte_at, byte_behind, byte_offset, bytes_read, input_of, last_place, place_offset, span_offset,
    unit_at, unit_offset, walk_start,
};
use crate::search::fast::follow::{Spot, next_known};
use crate::search::fast::run::{Place, follow_reports, follow_with_leaps, near_end, run_to_match};
use crate::search::{found_at, read, read_peeked};
use automata_base::util::search::{Anchored, Direction, HalfMatch, Input, Span};
use automata_config::error::SearchError;

/// How many bytes `known_pass` reads before it hands over to `rest`, which looks for leaps. A self-loop is followed
/// further.
const FIRST_RUN: usize = 1024;

/// How a pass over cached transitions stopped.
#[derive(Clone, Copy)]
enum KnownStop {
    /// It ended with the unit at this place, and finds this.
    Ended(usize, Option<HalfMatch>),
    /// The rest of the pass has to continue here. What the pass has found is what the state here reports.
    Left(Spot),
}

/// Makes one pass over the span of an input that is not done. While all that it reads is cached, it changes nothing;
/// its bytes are counted once it has ended.
// `begin_of` and `rest` are not inlined, so that a search that finds everything cached keeps its values in registers.
// What they borrow and what they return is in memory, which is cleared first. So they take the parts of the input, and
// what they return is taken apart.
#[inline(always)]
pub(crate) fn pass(
    dfa: &DFA,
    cache: &mut Cache,
    input: &Input<'_>,
    way: Direction,
) -> Result<Option<HalfMatch>, SearchError>
    requires sound { IsSoundCacheOf cache.old dfa.now }
    requires open { input.now.start ≤ input.now.end }
    ensures sound { IsSoundCacheOf cache.new dfa.now }
    ensures passed { IsPassResult way dfa.now input.now (known_of cache.old) (known_of cache.new) result }
{
    let start = known_start(dfa, cache, input, way);
    if start.is_fixed() {
        return begin_by_parts(dfa, cache, input, way);
    }
    let from = match known_pass(dfa, cache, input, way, start) {
        KnownStop::Ended(at, found) => {
            cache.count_search(bytes_read(input, way, at));
            return Ok(found);
        }
        KnownStop::Left(from) => from,
    };
    cache.search_start(span_offset(input, way, 0));
    match rest(
        dfa,
        cache,
        input.haystack(),
        input.get_span(),
        input.get_anchored(),
        input.get_earliest(),
        way,
        from,
    ) {
        Ok(found) => Ok(found),
        Err(error) => Err(error),
    }
}

/// Makes a pass whose start state may have to be computed, with a call that takes the parts of the input.
#[inline(always)]
fn begin_by_parts(
    dfa: &DFA,
    cache: &mut Cache,
    input: &Input<'_>,
    way: Direction,
) -> Result<Option<HalfMatch>, SearchError>
    requires sound { IsSoundCacheOf cache.old dfa.now }
    requires open { input.now.start ≤ input.now.end }
    ensures sound { IsSoundCacheOf cache.new dfa.now }
    ensures passed { IsPassResult way dfa.now input.now (known_of cache.old) (known_of cache.new) result }
{
    match begin_of(
        dfa,
        cache,
        input.haystack(),
        input.get_span(),
        input.get_anchored(),
        input.get_earliest(),
        way,
    ) {
        Ok(found) => Ok(found),
        Err(error) => Err(error),
    }
}

/// Makes a pass whose start state may have to be computed.
#[inline(never)]
fn begin_of(
    dfa: &DFA,
    cache: &mut Cache,
    haystack: &[u8],
    span: Span,
    anchored: Anchored,
    earliest: bool,
    way: Direction,
) -> Result<Option<HalfMatch>, SearchError>
    requires sound { IsSoundCacheOf cache.old dfa.now }
    requires allowed { Allows haystack.now span.start span.end }
    requires open { span.start ≤ span.end }
    ensures sound { IsSoundCacheOf cache.new dfa.now }
    ensures passed { IsPassResult way dfa.now
        (input_at haystack.now span anchored earliest) (known_of cache.old) (known_of cache.new) result }
{
    let own = input_of(haystack, span, anchored, earliest);
    begin(dfa, cache, &own, way)
}

/// Makes a pass over a borrowed input, whose start state may have to be computed.
#[inline(always)]
fn begin(
    dfa: &DFA,
    cache: &mut Cache,
    input: &Input<'_>,
    way: Direction,
) -> Result<Option<HalfMatch>, SearchError>
    requires sound { IsSoundCacheOf cache.old dfa.now }
    requires open { input.now.start ≤ input.now.end }
    ensures sound { IsSoundCacheOf cache.new dfa.now }
    ensures passed { IsPassResult way dfa.now input.now (known_of cache.old) (known_of cache.new) result }
{
    let start = match walk_start(dfa, cache, input, way) {
        Ok(start) => start,
        Err(error) => return Err(error),
    };
    let first = span_offset(input, way, 0);
    cache.search_start(first);
    if start.is_dead() {
        cache.end_search(first);
        return Ok(None);
    }
    let found = rest(
        dfa,
        cache,
        input.haystack(),
        input.get_span(),
        input.get_anchored(),
        input.get_earliest(),
        way,
        Spot { at: 0, id: start },
    )?;
    Ok(found)
}

/// Returns where a run continues. What it has found is what the state there reports; at the start of the span it is
/// nothing.
#[inline(always)]
fn place_at(dfa: &DFA, cache: &Cache, input: &Input<'_>, way: Direction, from: Spot) -> Place
    requires sound { IsSoundCacheOf cache.now dfa.now }
    requires at { MayContinue way dfa.now cache.now.store input.now from.at from.id }
    ensures upto { IsKnownUpto way dfa.now cache.now.store input.now result.at result.id result.found }
    ensures next { result.at < input.now.end - input.now.start
        → IsNextCell way dfa.now cache.now.store input.now result.at result.id result.next }
{
    let last = last_place(input);
    let next = next_known(dfa, cache, input, way, from.at, from.id, last);
    if from.at == 0 {
        return Place {
            at: 0,
            id: from.id,
            found: None,
            next,
        };
    }
    let offset = place_offset(input, way, from.at - 1);
    Place {
        at: from.at,
        id: from.id,
        found: found_at(dfa, cache, from.id, offset, None),
        next,
    }
}

/// Runs over the rest of a span, whose search has begun, from a place up to which everything was cached. What was found
/// before is what the state at the place reports.
#[inline(never)]
fn rest(
    dfa: &DFA,
    cache: &mut Cache,
    haystack: &[u8],
    span: Span,
    anchored: Anchored,
    earliest: bool,
    way: Direction,
    from: Spot,
) -> Result<Option<HalfMatch>, SearchError>
    requires may { MayBegin dfa.now cache.old (input_at haystack.now span anchored earliest) }
    requires at { MayContinue way dfa.now cache.old.store
        (input_at haystack.now span anchored earliest) from.at from.id }
    ensures sound { IsSoundCacheOf cache.new dfa.now }
    ensures rest { IsRest way dfa.now
        (input_at haystack.now span anchored earliest) (known_of cache.old) (known_of cache.new) result }
{
    let own = input_of(haystack, span, anchored, earliest);
    let place = place_at(dfa, cache, &own, way, from);
    match way {
        Direction::Forward => find(dfa, cache, &own, Direction::Forward, place),
        Direction::Backward => find(dfa, cache, &own, Direction::Backward, place),
    }
}

/// Returns what the rest of a pass finds, from a place that it has reached. The direction is a constant where this is
/// inlined. Unless the span is over, its first step is at that place.
#[inline(always)]
fn find(
    dfa: &DFA,
    cache: &mut Cache,
    input: &Input<'_>,
    way: Direction,
    from: Place,
) -> Result<Option<HalfMatch>, SearchError>
    requires sound { IsSoundCacheOf cache.old dfa.now }
    requires at { IsKnownUpto way dfa.now cache.old.store input.now from.at from.id from.found }
    requires next { from.at < input.now.end - input.now.start
        → IsNextCell way dfa.now cache.old.store input.now from.at from.id from.next }
    ensures sound { IsSoundCacheOf cache.new dfa.now }
    ensures rest { IsRest way dfa.now input.now (known_of cache.old) (known_of cache.new) result }
{
    let last = last_place(input);
    let mut run = from;
    let mut end = near_end(cache, input, way, run.at);
    while run.at < last {
        let stop = follow_reports(dfa, cache, input, way, run);
        let offset = byte_offset(input, way, stop.at);
        let byte = byte_at(input, way, stop.at);
        let next = match read_peeked(dfa, cache, stop.id, stop.next, Some(byte), offset, offset) {
            Ok(next) => next,
            Err(error) => return Err(error),
        };
        if next.is_dead() {
            cache.end_search(offset);
            return Ok(stop.found);
        }
        let found = found_at(
            dfa,
            cache,
            next,
            place_offset(input, way, stop.at),
            stop.found,
        );
        if input.get_earliest() && found.is_some() {
            cache.end_search(offset);
            return Ok(found);
        }
        let near = run_to_match(dfa, cache, input, way, stop.at + 1, next, found, end);
        let (far, due) = follow_with_leaps(dfa, cache, input, way, near, end);
        run = far;
        end = due;
    }
    find_end(dfa, cache, input, way, run.id, run.found)
}

/// Takes the step at the last place, on the byte after the span or on the end of the haystack, and returns what the
/// pass finds.
#[inline(always)]
fn find_end(
    dfa: &DFA,
    cache: &mut Cache,
    input: &Input<'_>,
    way: Direction,
    id: LazyStateID,
    found: Option<HalfMatch>,
) -> Result<Option<HalfMatch>, SearchError>
    requires sound { IsSoundCacheOf cache.old dfa.now }
    requires at { IsUnderway way dfa.now cache.old.store.table input.now (input.now.end - input.now.start)
        id found }
    ensures sound { IsSoundCacheOf cache.new dfa.now }
    ensures alive { (q : Powerset) → Names cache.old.store.table id q → q ≡ dead → ⊥ }
    ensures last { IsLastRead way dfa.now input.now (known_of cache.old) (known_of cache.new) result }
{
    let last = last_place(input);
    let at = span_offset(input, way, last);
    let unit = unit_at(input, way, last);
    let peeked = LazyStateID::UNKNOWN;
    let next = match read(
        dfa,
        cache,
        id,
        peeked,
        unit,
        unit_offset(input, way, last),
        at,
    ) {
        Ok(next) => next,
        Err(error) => return Err(error),
    };
    cache.end_search(at);
    Ok(found_at(dfa, cache, next, place_offset(input, way, last), found))
}

/// Returns the start state of a search, if it may start and the state is cached; otherwise the unknown ID.
#[inline(always)]
fn known_start(dfa: &DFA, cache: &Cache, input: &Input<'_>, way: Direction) -> LazyStateID
    requires { IsSoundCacheOf cache.now dfa.now }
    ensures answer { result < unknown_id → IsStartAnswer dfa.now input.now.anchored
        (tape_in way input.now).before cache.now cache.now result }
    ensures run { result < unknown_id → IsStartRun dfa.now input.now.anchored
        (tape_in way input.now).before (known_of cache.now) (known_of cache.now) }
{
    dfa.start_state_known(cache, input.get_anchored(), byte_behind(input, way))
}

/// Makes a pass over cached transitions from a start state, as far as they lead.
#[inline(always)]
fn known_pass(
    dfa: &DFA,
    cache: &Cache,
    input: &Input<'_>,
    way: Direction,
    start: LazyStateID,
) -> KnownStop
    requires sound { IsSoundCacheOf cache.now dfa.now }
    requires at { IsUnderway way dfa.now cache.now.store.table input.now 0 start None }
    ensures stop { IsKnownStop way dfa.now cache.now input.now result }
    ensures valid { IsValidInput input.now }
{
    let last = last_place(input);
    let run = run_to_match(dfa, cache, input, way, 0, start, None, last.min(FIRST_RUN));
    let next = known_next(dfa, cache, input, way, run.at, run.id, run.next);
    let left = Spot {
        at: run.at,
        id: run.id,
    };
    if next.is_unknown() {
        return KnownStop::Left(left);
    }
    if next.is_dead() {
        return KnownStop::Ended(run.at, run.found);
    }
    if next.is_quit() {
        return KnownStop::Left(left);
    }
    let offset = place_offset(input, way, run.at);
    let found = found_at(dfa, cache, next, offset, run.found);
    if run.at >= last {
        return KnownStop::Ended(run.at, found);
    }
    if input.get_earliest() && found.is_some() {
        return KnownStop::Ended(run.at, found);
    }
    KnownStop::Left(left)
}

/// Returns the ID after the unit at a place: `peeked`, or at the last place the row's cell. It is unknown if the
/// transition is not cached.
#[inline(always)]
fn known_next(
    dfa: &DFA,
    cache: &Cache,
    input: &Input<'_>,
    way: Direction,
    at: usize,
    id: LazyStateID,
    peeked: LazyStateID,
) -> LazyStateID
    requires sound { IsSoundCacheOf cache.now dfa.now }
    requires open { input.now.start ≤ input.now.end }
    requires within { at ≤ input.now.end - input.now.start }
    requires named { Names cache.now.store.table id (state_in way dfa.now input.now at) }
    requires peeked { IsPeeked way dfa.now cache.now.store input.now at id peeked }
    ensures value { result < unknown_id
        → result ≡ known_step dfa.now cache.now.store id (next (tape_in way input.now) at) }
    ensures answer { result < unknown_id → IsStepAnswer dfa.now id
        (next (tape_in way input.now) at) cache.now cache.now result }
    ensures below { result < unknown_id
        → unit_class dfa.now (next (tape_in way input.now) at) < dfa.now.stride }
    ensures peeked { unknown_id ≤ result → unknown_id ≤ peeked }
{
    if peeked.is_unknown() {
        if at < last_place(input) {
            return LazyStateID::UNKNOWN;
        }
        return cache.known_step(dfa, id, unit_at(input, way, at));
    }
    let _next = cache.known_step(dfa, id, Some(byte_at(input, way, at)));
    peeked
}
