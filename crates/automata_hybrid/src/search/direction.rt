//! Everything in which the directions of a search differ. A place is counted in bytes from where the search begins; an
//! offset is a position in the haystack.
ghost use Rattle.std.specs.Prelude.{ℕ, ◌≡◌, ◌+◌, ◌-◌, ◌^◌, ◌<◌, ◌≤◌, Some, true, false, length};
ghost use Rattle.automata_base.specs.Answers.Answers.{later, offset_in};
ghost use Rattle.automata_base.specs.Haystacks.Input.{Allows, IsValidInput};
ghost use Rattle.automata_base.specs.Paths.Paths.{next};
ghost use Rattle.automata_hybrid.specs.Cache.Caches.{IsCacheOf};
ghost use Rattle.automata_hybrid.specs.Cache.Progress.{distance};
ghost use Rattle.automata_hybrid.specs.Private.Cache.Sound.{IsSoundCacheOf};
ghost use Rattle.automata_hybrid.specs.Private.Fast.SelfLoops.{byte_in};
ghost use Rattle.automata_hybrid.specs.Private.Searches.PassContracts.{input_at};
ghost use Rattle.automata_hybrid.specs.Private.Steps.Starts.{IsStartResult};
ghost use Rattle.automata_hybrid.specs.Searches.Passes.{behind_offset, given_up_offset, tape_in, unit_offset};

use crate::cache::Cache;
use crate::dfa::DFA;
use crate::id::LazyStateID;
use automata_base::util::search::{Anchored, Direction, Input, Span};
use automata_base::util::start;
use automata_config::error::SearchError;

/// Returns the input with these parts.
// Functions that are not inlined take the parts. An input passed by value in their place was tried: it takes 5 to 11%
// more instructions in short searches.
#[inline(always)]
pub(crate) fn input_of<'h>(
    haystack: &'h [u8],
    span: Span,
    anchored: Anchored,
    earliest: bool,
) -> Input<'h>
    requires { Allows haystack.now span.start span.end }
    ensures { result ≡ input_at haystack.now span anchored earliest }
{
    Input::new(haystack)
        .span(span)
        .anchored(anchored)
        .earliest(earliest)
}

/// Returns the last place of a search, which is after the bytes of its span.
pub(crate) fn last_place(input: &Input<'_>) -> usize
    requires { input.now.start ≤ input.now.end }
    ensures place { result ≡ input.now.end - input.now.start }
    ensures valid { IsValidInput input.now }
{
    input.end() - input.start()
}

/// Returns the offset of a place.
pub(crate) fn place_offset(input: &Input<'_>, way: Direction, place: usize) -> usize
    requires open { input.now.start ≤ input.now.end }
    requires within { place ≤ input.now.end - input.now.start }
    ensures value { result ≡ offset_in way input.now place }
    ensures valid { IsValidInput input.now }
{
    match way {
        Direction::Forward => input.start() + place,
        Direction::Backward => input.end() - place,
    }
}

/// Returns the offset of the byte at a place before the last one.
pub(crate) fn byte_offset(input: &Input<'_>, way: Direction, place: usize) -> usize
    requires { place < input.now.end - input.now.start }
    ensures unit { result ≡ unit_offset way input.now place }
    ensures from { input.now.start ≤ result }
    ensures within { result < input.now.end }
{
    match way {
        Direction::Forward => input.start() + place,
        Direction::Backward => input.end() - 1 - place,
    }
}

/// Returns the byte at a place before the last one.
pub(crate) fn byte_at(input: &Input<'_>, way: Direction, place: usize) -> u8
    requires { place < input.now.end - input.now.start }
    ensures { next (tape_in way input.now) place ≡ Some result }
{
    let haystack = input.haystack();
    haystack[byte_offset(input, way, place)]
}

/// Returns the bytes of the span from a place on. A forward search reads them from the front, a reverse search from the
/// back.
#[inline(always)]
pub(crate) fn bytes_from<'h>(input: &Input<'h>, way: Direction, place: usize) -> &'h [u8]
    requires open { input.now.start ≤ input.now.end }
    requires within { place ≤ input.now.end - input.now.start }
    ensures long { length result.now ≡ input.now.end - input.now.start - place }
    ensures bound { input.now.end < 2 ^ 63 }
    ensures units { (k : ℕ) → k < length result.now
        → next (tape_in way input.now) (place + k) ≡ Some (byte_in way result.now k) }
{
    let haystack = input.haystack();
    match way {
        Direction::Forward => &haystack[input.start() + place..input.end()],
        Direction::Backward => &haystack[input.start()..input.end() - place],
    }
}

/// Returns the unit at a place: a byte of the span, the byte next to the span at the last place, or `None` if the
/// haystack ends there.
pub(crate) fn unit_at(input: &Input<'_>, way: Direction, place: usize) -> Option<u8>
    requires open { input.now.start ≤ input.now.end }
    requires within { place ≤ input.now.end - input.now.start }
    ensures { result ≡ next (tape_in way input.now) place }
{
    let haystack = input.haystack();
    let at = place_offset(input, way, place);
    match way {
        Direction::Forward => {
            if at < haystack.len() {
                Some(haystack[at])
            } else {
                None
            }
        }
        Direction::Backward => {
            if at == 0 {
                None
            } else {
                Some(haystack[at - 1])
            }
        }
    }
}

/// Returns the offset of the unit at a place.
pub(crate) fn unit_offset(input: &Input<'_>, way: Direction, place: usize) -> usize
    requires open { input.now.start ≤ input.now.end }
    requires within { place ≤ input.now.end - input.now.start }
    ensures { result ≡ unit_offset way input.now place }
{
    let at = place_offset(input, way, place);
    match way {
        Direction::Forward => at,
        Direction::Backward => at.saturating_sub(1),
    }
}

/// Returns the offset of the unit at a place, or the span's start if the unit is before the span.
pub(crate) fn span_offset(input: &Input<'_>, way: Direction, place: usize) -> usize
    requires open { input.now.start ≤ input.now.end }
    requires within { place ≤ input.now.end - input.now.start }
    ensures value { result ≡ given_up_offset way input.now place }
    ensures valid { IsValidInput input.now }
{
    let at = place_offset(input, way, place);
    match way {
        Direction::Forward => at,
        Direction::Backward => at.saturating_sub(1).max(input.start()),
    }
}

/// Returns the look-behind byte of a search, which its start state depends on.
#[inline(always)]
pub(crate) fn byte_behind(input: &Input<'_>, way: Direction) -> Option<u8>
    ensures { result ≡ (tape_in way input.now).before }
{
    match way {
        Direction::Forward => start::Config::from_input_forward(input).get_look_behind(),
        Direction::Backward => start::Config::from_input_reverse(input).get_look_behind(),
    }
}

/// Returns how many bytes are counted as searched for a run that ended at a place. In a reverse search the byte before
/// the span does not count.
#[inline(always)]
pub(crate) fn bytes_read(input: &Input<'_>, way: Direction, place: usize) -> usize
    requires within { place ≤ input.now.end - input.now.start }
    requires open { input.now.start ≤ input.now.end }
    ensures { result ≡ distance (record {
      start = given_up_offset way input.now 0;
      place = given_up_offset way input.now place;
    }) }
{
    match way {
        Direction::Forward => place,
        Direction::Backward => place.min((input.end() - input.start()).saturating_sub(1)),
    }
}

/// Makes a search begin one place later. Returns false if no offset is left.
#[inline(always)]
pub(crate) fn begin_later(input: &mut Input<'_>, way: Direction) -> bool
    requires { input.old.start ≤ input.old.end }
    ensures later { result ≡ true → input.new ≡ later way 1 input.old }
    ensures shorter { result ≡ true → input.new.end + 2 - input.new.start ≡ input.old.end + 1 - input.old.start }
    ensures over { result ≡ false → input.old.end < input.old.start + 1 }
{
    match way {
        Direction::Forward => {
            input.set_start(input.start() + 1);
            true
        }
        Direction::Backward => {
            if input.end() == 0 {
                return false;
            }
            input.set_end(input.end() - 1);
            true
        }
    }
}

/// Returns the start state of a search in a direction.
#[inline(always)]
pub(crate) fn walk_start(
    dfa: &DFA,
    cache: &mut Cache,
    input: &Input<'_>,
    way: Direction,
) -> Result<LazyStateID, SearchError>
    requires { IsSoundCacheOf cache.old dfa.now }
    ensures sound { IsSoundCacheOf cache.new dfa.now }
    ensures started { IsStartResult dfa.now input.now.anchored (tape_in way input.now).before
        (behind_offset way input.now) (offset_in way input.now 0) cache.old cache.new result }
{
    let start = start_by_direction(dfa, cache, input, way);
    cache.reveal_invariant_of(dfa);
    start
}

/// Returns the start state of a search, by the public call of its direction.
#[inline(always)]
fn start_by_direction(
    dfa: &DFA,
    cache: &mut Cache,
    input: &Input<'_>,
    way: Direction,
) -> Result<LazyStateID, SearchError>
    requires { IsCacheOf cache.old dfa.now }
    ensures of { IsCacheOf cache.new dfa.now }
    ensures started { IsStartResult dfa.now input.now.anchored (tape_in way input.now).before
        (behind_offset way input.now) (offset_in way input.now 0) cache.old cache.new result }
{
    match way {
        Direction::Forward => dfa.start_state_forward(cache, input),
        Direction::Backward => dfa.start_state_reverse(cache, input),
    }
}
