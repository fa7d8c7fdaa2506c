//! Overlapping searches: each call reports the next match, with any cache of the DFA.
ghost use Rattle.std.specs.Prelude.{ℕ, ◌≡◌, ◌+◌, ◌<◌, ◌≤◌, ◌^◌, IfNone, IfSome, OnOk, OnErr, length, slice_index};
ghost use Rattle.std.specs.Result.{result_err};
ghost use Rattle.automata_base.specs.Haystacks.Input.{IsValidInput};
ghost use Rattle.automata_base.specs.Powersets.Powerset.{Powerset};
ghost use Rattle.automata_base.specs.declared.util.search.Direction.TheVariants.{Forward, Backward};
ghost use Rattle.automata_hybrid.specs.Cache.Caches.{IsCacheOf};
ghost use Rattle.automata_hybrid.specs.Cache.Table.{Names};
ghost use Rattle.automata_hybrid.specs.Known.Stores.{known_of};
ghost use Rattle.automata_hybrid.specs.Known.Walks.{IsWalkRun};
ghost use Rattle.automata_hybrid.specs.Private.Cache.Sound.{IsSoundCacheOf};
ghost use Rattle.automata_hybrid.specs.Private.Walks.Answers.{Arrives};
ghost use Rattle.automata_hybrid.specs.Private.Walks.Parts.{HoldsOn, IsCallResult, IsHeldWalk, IsKeptWalk};
ghost use Rattle.automata_hybrid.specs.Private.Walks.Parts.{IsResumeResult, ReadsNext};
ghost use Rattle.automata_hybrid.specs.Private.Walks.State.{IsHeldAt, keeping_of};
ghost use Rattle.automata_hybrid.specs.Searches.Passes.{tape_in};
ghost use Rattle.automata_hybrid.specs.Steps.Starts.{MayStart};
ghost use Rattle.automata_hybrid.specs.Walks.Answers.{HasReported, HasReportedBy, IsWalkOf, ReportsNext};
ghost use Rattle.automata_hybrid.specs.Walks.Contracts.{IsWalkCall};
ghost use Rattle.automata_hybrid.specs.Walks.State.{At, Ended, States, without_match};

use crate::cache::Cache;
use crate::dfa::DFA;
use crate::id::LazyStateID;
use crate::search::direction::{last_place, place_offset, span_offset, walk_start};
use crate::search::step_error;
use crate::search::walk::advance::advance;
use crate::search::walk::{Cursor, Held, OverlappingState};
use automata_base::util::primitives::PatternID;
use automata_base::util::search::{Direction, HalfMatch, Input};
use automata_config::error::SearchError;
use automata_determinize::laws::walk_is_right;

impl DFA {
    /// Advances to the next overlapping match, which `OverlappingState::get_match` then returns. When no match is left,
    /// that returns `None`, after this call and each later one. Use a state with only one DFA and one input, but with
    /// any cache of that DFA.
    ///
    /// ```rust
    /// let mut state = OverlappingState::start();
    /// self.dfa
    ///     .try_search_overlapping_fwd(&mut self.cache, &input, &mut state)?;
    /// Ok(state.get_match())
    /// ```
    ///
    /// The error for a quit byte has the byte's offset; the "gave up" error has the offset of the byte that was to be
    /// read next, or the span's start or end. It also fails if the DFA does not support the anchored mode
    /// (`Config::starts_for_each_pattern`), and if memory runs out. An error leaves the state unchanged, except that it
    /// has no match.
    pub fn try_search_overlapping_fwd(
        &self,
        cache: &mut Cache,
        input: &Input<'_>,
        state: &mut OverlappingState,
    ) -> Result<(), SearchError>
        requires of { IsCacheOf cache.old self.now }
        requires walk { IsWalkOf Forward self.now input.now state.old }
        ensures of { IsCacheOf cache.new self.now }
        ensures walk { IsWalkOf Forward self.now input.now state.new }

        // What it reports, whatever the cache.
        ensures call { IsWalkCall Forward self.now input.now state.old state.new result }

        // What it does to the cache, and why it fails.
        ensures effect { IsWalkRun States Forward self.now input.now state.old state.new
            (known_of cache.old) (known_of cache.new) (result_err result) }
    {
        self.try_search_overlapping(cache, input, Direction::Forward, state)
    }

    /// Advances to the next overlapping match of a reverse search, from the span's end to its start, otherwise as
    /// `try_search_overlapping_fwd`. The DFA reads the span backward, so build it from a reversed NFA.
    pub fn try_search_overlapping_rev(
        &self,
        cache: &mut Cache,
        input: &Input<'_>,
        state: &mut OverlappingState,
    ) -> Result<(), SearchError>
        requires of { IsCacheOf cache.old self.now }
        requires walk { IsWalkOf Backward self.now input.now state.old }
        ensures of { IsCacheOf cache.new self.now }
        ensures walk { IsWalkOf Backward self.now input.now state.new }

        // What it reports, whatever the cache.
        ensures call { IsWalkCall Backward self.now input.now state.old state.new result }

        // What it does to the cache, and why it fails.
        ensures effect { IsWalkRun States Backward self.now input.now state.old state.new
            (known_of cache.old) (known_of cache.new) (result_err result) }
    {
        self.try_search_overlapping(cache, input, Direction::Backward, state)
    }

    /// Advances to the next overlapping match in a direction: forward as `try_search_overlapping_fwd`, backward as
    /// `try_search_overlapping_rev`.
    pub fn try_search_overlapping(
        &self,
        cache: &mut Cache,
        input: &Input<'_>,
        way: Direction,
        walk: &mut OverlappingState,
    ) -> Result<(), SearchError>
        requires of { IsCacheOf cache.old self.now }
        requires walk { IsWalkOf way self.now input.now walk.old }
        ensures of { IsCacheOf cache.new self.now }
        ensures walk { IsWalkOf way self.now input.now walk.new }
        ensures call { IsWalkCall way self.now input.now walk.old walk.new result }
        ensures effect { IsWalkRun States way self.now input.now walk.old walk.new
            (known_of cache.old) (known_of cache.new) (result_err result) }
    {
        call_held(self, cache, input, way, &mut walk.cursor, &mut walk.held)
    }
}

/// Returns the ID of the state from which a walk continues: its start state, or the state that it holds.
#[inline(always)]
fn resume(
    dfa: &DFA,
    cache: &mut Cache,
    input: &Input<'_>,
    way: Direction,
    walk: &Cursor,
    held: &Held,
) -> Result<LazyStateID, SearchError>
    requires sound { IsSoundCacheOf cache.old dfa.now }
    requires walk { ReadsNext way dfa.now input.now cache.old.store.table walk.now held.now }
    ensures sound { IsSoundCacheOf cache.new dfa.now }
    ensures resumed { IsResumeResult way dfa.now input.now walk.now cache.old cache.new result }
{
    if walk.is_fresh() {
        return walk_start(dfa, cache, input, way);
    }
    match held {
        Held::Row(Some(id)) => Ok(*id),
        Held::State(Some(handle)) => match cache.restore(dfa, handle) {
            Ok(id) => Ok(id),
            Err(error) => Err(step_error(error, span_offset(input, way, walk.units()))),
        },
        Held::Row(None) | Held::State(None) => Err(SearchError::OutOfMemory),
    }
}

/// Advances a walk that has reported all patterns of its state to the next match. Its new state is held before the
/// search ends.
#[inline(always)]
fn search_next(
    dfa: &DFA,
    cache: &mut Cache,
    input: &Input<'_>,
    way: Direction,
    walk: &mut Cursor,
    held: &mut Held,
) -> Result<(), SearchError>
    requires sound { IsSoundCacheOf cache.old dfa.now }
    requires walk { ReadsNext way dfa.now input.now cache.old.store.table walk.old held.old }
    ensures sound { IsSoundCacheOf cache.new dfa.now }
    ensures held { OnOk result (HoldsOn cache.new.store.table walk.new held.old held.new) }
    ensures err { OnErr result ((walk.new ≡ walk.old) × (held.new ≡ held.old)) }
    ensures called { IsCallResult (keeping_of held.old) way dfa.now input.now walk.old walk.new
        (known_of cache.old) (known_of cache.new) result }
{
    let _skips = dfa.skips();
    let from = resume(dfa, cache, input, way, walk, held)?;
    let place = span_offset(input, way, walk.units());
    cache.search_start(place);
    if from.is_dead() {
        cache.end_search(place);
        walk.end(walk.units());
        return Ok(());
    }
    let arrival = advance(dfa, cache, input, way, from, walk.units())?;
    let last = span_offset(input, way, arrival.units - 1);
    let Some(id) = arrival.id else {
        cache.end_search(last);
        walk.end(arrival.units);
        return Ok(());
    };
    held.move_to(cache, id)?;
    cache.end_search(last);
    arrive(dfa, cache, input, way, walk, id, arrival.units);
    Ok(())
}

/// Moves a walk to a state whose patterns match, and reports the first of them.
#[inline(always)]
fn arrive(
    dfa: &DFA,
    cache: &Cache,
    input: &Input<'_>,
    way: Direction,
    walk: &mut Cursor,
    id: LazyStateID,
    units: usize,
)
    requires sound { IsSoundCacheOf cache.now dfa.now }
    requires open { input.now.start ≤ input.now.end }
    requires may { MayStart dfa.now input.now.anchored (tape_in way input.now).before }
    requires here { (k : ℕ) → HasReported way dfa.now input.now walk.old k
        → HasReportedBy way dfa.now input.now walk.old.units k }
    requires arrives { Arrives way dfa.now cache.now.store.table input.now walk.old.units id units }
    ensures reports { ReportsNext way dfa.now input.now walk.old walk.new }
    ensures units { walk.new.units ≡ units }
    ensures at { (q : Powerset) × (walk.new.stage ≡ At q) × Names cache.now.store.table id q }
{
    let at = place_offset(input, way, units - 1);
    let half = HalfMatch::new(cache.match_pattern(id, 0), at);
    walk.go_to(cache.snapshot(id), cache.match_len(id), units);
    walk.report(half);
}

/// Makes one call of an overlapping search (`report_next`). If the walk has ended, it holds nothing afterwards.
fn call_held(
    dfa: &DFA,
    cache: &mut Cache,
    input: &Input<'_>,
    way: Direction,
    walk: &mut Cursor,
    held: &mut Held,
) -> Result<(), SearchError>
    requires of { IsCacheOf cache.old dfa.now }
    requires walk { IsKeptWalk way dfa.now input.now walk.old held.old }
    ensures of { IsCacheOf cache.new dfa.now }
    ensures walk { IsKeptWalk way dfa.now input.now walk.new held.new }
    ensures call { IsWalkCall way dfa.now input.now walk.old walk.new result }
    ensures effect { IsWalkRun States way dfa.now input.now walk.old walk.new
        (known_of cache.old) (known_of cache.new) (result_err result) }
{
    cache.reveal_invariant_of(dfa);
    walk_is_right(dfa.get_nfa());
    match report_next(dfa, cache, input, way, walk, held) {
        Ok(()) => {
            held.release(walk);
            Ok(())
        }
        Err(error) => Err(error),
    }
}

/// Makes one call of an overlapping search, given the walk and what it holds of its state. If the walk ends, what is
/// held stays as it is.
#[inline(always)]
pub(crate) fn report_next(
    dfa: &DFA,
    cache: &mut Cache,
    input: &Input<'_>,
    way: Direction,
    walk: &mut Cursor,
    held: &mut Held,
) -> Result<(), SearchError>
    requires sound { IsSoundCacheOf cache.old dfa.now }
    requires walk { IsHeldWalk way dfa.now input.now cache.old.store.table walk.old held.old }
    ensures sound { IsSoundCacheOf cache.new dfa.now }
    ensures held { OnOk result (HoldsOn cache.new.store.table walk.new held.old held.new) }
    ensures err { OnErr result ((walk.new ≡ without_match walk.old) × (held.new ≡ held.old)) }
    ensures called { IsCallResult (keeping_of held.old) way dfa.now input.now walk.old walk.new
        (known_of cache.old) (known_of cache.new) result }
    ensures valid { IsValidInput input.now }
{
    let past = input.is_done();
    walk.forget_match();
    if walk.has_ended() {
        return Ok(());
    }
    if past {
        walk.end(walk.units());
        return Ok(());
    }
    if let Some(pattern) = next_pattern(dfa, cache, walk, held) {
        let place = place_offset(input, way, walk.units() - 1);
        walk.report(HalfMatch::new(pattern, place));
        return Ok(());
    }
    if walk.units() > last_place(input) {
        walk.end(walk.units());
        return Ok(());
    }
    search_next(dfa, cache, input, way, walk, held)
}

/// Returns the pattern that a walk reports next at its current state, if one is left.
#[inline(always)]
fn next_pattern(dfa: &DFA, cache: &Cache, walk: &Cursor, held: &Held) -> Option<PatternID>
    requires on { walk.now.stage ≡ Ended → ⊥ }
    requires held { IsHeldAt cache.now.store.table walk.now.stage held.now }
    ensures left { IfSome result (λ p. (q : Powerset) × (walk.now.stage ≡ At q)
        × (walk.now.reported < length q.patterns) × (p ≡ slice_index q.patterns walk.now.reported)) }
    ensures room { IfSome result (λ p. walk.now.reported + 1 < 2 ^ 64) }
    ensures none { IfNone result ((q : Powerset) → walk.now.stage ≡ At q → length q.patterns ≤ walk.now.reported) }
{
    if !walk.has_more() {
        return None;
    }
    let reported = walk.reported();
    match held {
        Held::Row(Some(id)) => {
            let _state = cache.snapshot(*id);
            Some(cache.match_pattern(*id, reported))
        }
        Held::State(Some(handle)) => Some(handle.state.match_pattern(reported)),
        Held::Row(None) | Held::State(None) => None,
    }
}
