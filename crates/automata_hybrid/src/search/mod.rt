//! Searches. This file has the step of a search over one unit, and `direction` has everything in which the two
//! directions differ. `fast` follows cached transitions. Over these, `half` has the searches for one end of a match,
//! which make one `pass` over a span after another; `walk` has overlapping searches, and `pieces` has those over a
//! haystack that arrives in pieces.
ghost use Rattle.std.specs.Prelude.{◌≡◌, slice_index, ◌<◌, true, false};
ghost use Rattle.automata_base.specs.Haystacks.Tapes.{is_split};
ghost use Rattle.automata_base.specs.Powersets.Powerset.{Powerset};
ghost use Rattle.automata_base.specs.declared.util.search.MatchErrorKind.TheVariants.{Quit as QuitAt};
ghost use Rattle.automata_hybrid.specs.Cache.Ids.{unknown_id, HasMatchTag};
ghost use Rattle.automata_hybrid.specs.Cache.Table.{IsRowId, Leads, Names};
ghost use Rattle.automata_hybrid.specs.Private.Cache.Sound.{IsSoundCacheOf};
ghost use Rattle.automata_hybrid.specs.Private.Searches.PassState.{step_error};
ghost use Rattle.automata_hybrid.specs.Private.Searches.Units.{IsRead, IsStepResult};
ghost use Rattle.automata_hybrid.specs.Private.Steps.Steps.{IsCellRead};
ghost use Rattle.automata_hybrid.specs.Searches.PassState.{half_at};
ghost use Rattle.automata_hybrid.specs.Searches.Passes.{Skips};
ghost use Rattle.automata_hybrid.specs.Steps.Steps.{known_step};

mod direction;
mod fast;
mod half;
mod pass;
pub mod pieces;
pub mod walk;

use crate::cache::Cache;
use crate::dfa::DFA;
use crate::id::LazyStateID;
use automata_base::util::primitives::PatternID;
use automata_base::util::search::{HalfMatch, Input, MatchError};
use automata_config::error::{SearchError, StepError};

/// Returns the error that a search reports for a step at an offset.
fn step_error(error: StepError, at: usize) -> SearchError
    ensures { result ≡ step_error error at }
{
    match error {
        StepError::Cache(_) => SearchError::Match(MatchError::gave_up(at)),
        StepError::OutOfMemory => SearchError::OutOfMemory,
    }
}

/// Returns the error for a quit byte at an offset.
fn quit(byte: u8, at: usize) -> SearchError
    ensures { result ≡ SearchError.Match (QuitAt byte at) }
{
    SearchError::Match(MatchError::quit(byte, at))
}

/// Whether an offset is inside a UTF-8 encoded character.
fn splits(input: &Input<'_>, offset: usize) -> bool
    ensures { result ≡ is_split input.now.haystack offset }
{
    match input.haystack().get(offset) {
        Some(byte) => 0x80 <= *byte && *byte <= 0xBF,
        None => false,
    }
}

/// Whether a match at an offset is skipped because the offset is inside a character.
fn skips_at(dfa: &DFA, input: &Input<'_>, offset: usize) -> bool
    ensures yes { result ≡ true → Skips dfa.now × (is_split input.now.haystack offset ≡ true) }
    ensures no { result ≡ false → Skips dfa.now → is_split input.now.haystack offset ≡ false }
{
    if !dfa.skips() {
        return false;
    }
    splits(input, offset)
}

/// Returns the state after a unit, which is the quit state if that is a quit byte. `cell` is the row's cell for the
/// unit, so that no look-up is repeated. If the transition is not cached, the progress of the search moves to `at` and
/// the transition is computed; the "gave up" error has the offset `at`.
// No `inline(always)`: inlining it here makes `search` too large for its own `inline(always)`.
fn step(
    dfa: &DFA,
    cache: &mut Cache,
    id: LazyStateID,
    cell: LazyStateID,
    unit: Option<u8>,
    at: usize,
) -> Result<LazyStateID, SearchError>
    requires sound { IsSoundCacheOf cache.old dfa.now }
    requires valid { IsRowId cache.old.store.table id }
    requires cell { IsCellRead dfa.now cache.old.store id unit cell }
    ensures sound { IsSoundCacheOf cache.new dfa.now }
    ensures step { IsStepResult dfa.now id unit at cache.old cache.new result }
{
    let _cell = cache.cell(id, dfa.unit_class(unit));
    if !cell.is_unknown() {
        return Ok(cell);
    }
    cache.move_search(at);
    match cache.compute_next(dfa, id, unit) {
        Ok(next) => Ok(next),
        Err(error) => Err(step_error(error, at)),
    }
}

/// Returns the state after a unit. `cell` is the row's cell for the unit. A quit byte ends the search with an error at
/// `quit_at`, the byte's offset.
#[inline(always)]
fn read_peeked(
    dfa: &DFA,
    cache: &mut Cache,
    id: LazyStateID,
    cell: LazyStateID,
    unit: Option<u8>,
    quit_at: usize,
    at: usize,
) -> Result<LazyStateID, SearchError>
    requires sound { IsSoundCacheOf cache.old dfa.now }
    requires valid { IsRowId cache.old.store.table id }
    requires cell { IsCellRead dfa.now cache.old.store id unit cell }
    ensures sound { IsSoundCacheOf cache.new dfa.now }
    ensures read { IsRead dfa.now id unit quit_at at cache.old cache.new result }
{
    let next = step(dfa, cache, id, cell, unit, at)?;
    match unit {
        None => Ok(next),
        Some(byte) => {
            if next.is_quit() {
                cache.end_search(at);
                return Err(quit(byte, quit_at));
            }
            Ok(next)
        }
    }
}

/// Returns the ID after a unit: `peeked`, or the row's cell if `peeked` is unknown.
#[inline(always)]
fn peeked_or_cell(
    dfa: &DFA,
    cache: &Cache,
    id: LazyStateID,
    peeked: LazyStateID,
    unit: Option<u8>,
) -> LazyStateID
    requires sound { IsSoundCacheOf cache.now dfa.now }
    requires valid { IsRowId cache.now.store.table id }
    requires peeked { peeked < unknown_id → peeked ≡ known_step dfa.now cache.now.store id unit }
    ensures { IsCellRead dfa.now cache.now.store id unit result }
{
    if peeked.is_unknown() {
        return cache.known_step(dfa, id, unit);
    }
    peeked
}

/// Returns the state after a unit. `peeked` is the next ID if the caller has read it, and unknown otherwise. A quit
/// byte ends the search with an error at `quit_at`, the byte's offset.
#[inline(always)]
fn read(
    dfa: &DFA,
    cache: &mut Cache,
    id: LazyStateID,
    peeked: LazyStateID,
    unit: Option<u8>,
    quit_at: usize,
    at: usize,
) -> Result<LazyStateID, SearchError>
    requires sound { IsSoundCacheOf cache.old dfa.now }
    requires valid { IsRowId cache.old.store.table id }
    requires peeked { peeked < unknown_id → peeked ≡ known_step dfa.now cache.old.store id unit }
    ensures sound { IsSoundCacheOf cache.new dfa.now }
    ensures read { IsRead dfa.now id unit quit_at at cache.old cache.new result }
{
    let cell = peeked_or_cell(dfa, cache, id, peeked, unit);
    read_peeked(dfa, cache, id, cell, unit, quit_at, at)
}

/// Returns the first pattern of a match state. If the NFA has only one pattern, this needs no look-up.
#[inline(always)]
fn first_pattern(dfa: &DFA, cache: &Cache, id: LazyStateID) -> PatternID
    requires sound { IsSoundCacheOf cache.now dfa.now }
    requires valid { IsRowId cache.now.store.table id }
    requires tagged { HasMatchTag id }
    ensures { (q : Powerset) → Names cache.now.store.table id q → result ≡ slice_index q.patterns 0 }
{
    if dfa.pattern_len() == 1 {
        return PatternID::ZERO;
    }
    first_of_many(dfa, cache, id)
}

/// Looks up the first pattern of a match state in its row, for an NFA with several patterns.
#[inline(never)]
fn first_of_many(dfa: &DFA, cache: &Cache, id: LazyStateID) -> PatternID
    requires sound { IsSoundCacheOf cache.now dfa.now }
    requires valid { IsRowId cache.now.store.table id }
    requires tagged { HasMatchTag id }
    ensures { (q : Powerset) → Names cache.now.store.table id q → result ≡ slice_index q.patterns 0 }
{
    cache.match_pattern(id, 0)
}

/// Returns the last match found: a match at `at` if the state of the ID has patterns, otherwise `found`.
#[inline(always)]
fn found_at(
    dfa: &DFA,
    cache: &Cache,
    id: LazyStateID,
    at: usize,
    found: Option<HalfMatch>,
) -> Option<HalfMatch>
    requires sound { IsSoundCacheOf cache.now dfa.now }
    requires leads { (q : Powerset) × Leads cache.now.store.table id q }
    ensures { (q : Powerset) → Leads cache.now.store.table id q → result ≡ half_at q.patterns at found }
{
    if id.is_fixed() {
        return found;
    }
    if id.is_match() {
        return Some(HalfMatch::new(first_pattern(dfa, cache, id), at));
    }
    found
}
