//! The overlapping searches that a script began.
ghost use Rattle.std.specs.Prelude.{ℕ, ◌≡◌, ◌<◌, length};
ghost use Rattle.automata_base.specs.declared.util.search.Direction.TheVariants.{Forward, Backward};
ghost use Rattle.automata_hybrid.specs.Cache.Caches.{IsCacheOf};
ghost use Rattle.regex_automata.specs.Regexes.Caches.{AreCachesOf};
ghost use Rattle.replay.specs.Replies.{dfa_in};
ghost use Rattle.replay.specs.Players.{GoesAt, HasAnsweredBy, IsCall, IsWalkAt};
ghost use Rattle.replay.specs.Players.{MakesCall, MakesStepAt};
ghost use Rattle.replay.specs.Caches.{HasAnswered, other_of, own_of};
ghost use Rattle.replay.specs.declared.walks.KeptWalk.{KeptWalk};

use automata_base::util::search::{Direction, HalfMatch, Input};
use automata_config::error::SearchError;
use regex_automata::hybrid::dfa;
use regex_automata::hybrid::dfa::{DFA, OverlappingState};
use regex_automata::hybrid::regex::{Cache, Regex};

/// A walk: the number of its regex, its direction, its input, and its state.
pub struct KeptWalk<'h> {
    pub(super) regex: usize,
    pub(super) way: Direction,
    pub(super) input: Input<'h>,
    pub(super) state: OverlappingState,
}

// With its own `drop`, the proof of an owner has one step for it instead of one for each part.
impl<'h> Drop for KeptWalk<'h> {
    fn drop(self) {
        let Self {
            regex: _regex,
            way: _way,
            input: _input,
            state: _state,
        } = self;
    }
}

/// Makes one more call of a walk of a DFA, and returns its match. An error leaves the walk unchanged.
fn step_of(
    way: Direction,
    dfa: &DFA,
    cache: &mut dfa::Cache,
    input: &Input<'_>,
    state: &mut OverlappingState,
) -> Result<Option<HalfMatch>, SearchError>
    requires of { IsCacheOf cache.old dfa.now }
    requires reported { (k : ℕ) × HasAnswered way dfa.now input.now state.old k }
    ensures of { IsCacheOf cache.new dfa.now }
    ensures call { IsCall way dfa.now input.now state.old state.new result }
    ensures made { MakesCall way dfa.now input.now state.old cache.old cache.new result }
{
    match dfa.try_search_overlapping(cache, input, way, state) {
        Ok(()) => Ok(state.get_match()),
        Err(error) => Err(error),
    }
}

/// Makes one more call of a walk of a regex, and returns its match. An error leaves the walk unchanged.
fn step(
    way: Direction,
    regex: &Regex,
    cache: &mut Cache,
    input: &Input<'_>,
    state: &mut OverlappingState,
) -> Result<Option<HalfMatch>, SearchError>
    requires of { AreCachesOf cache.old regex.now }
    requires reported { (k : ℕ) × HasAnswered way (dfa_in way regex.now) input.now state.old k }
    ensures of { AreCachesOf cache.new regex.now }
    ensures call { IsCall way (dfa_in way regex.now) input.now state.old state.new result }
    ensures made { MakesCall way (dfa_in way regex.now) input.now state.old
        (own_of way cache.old) (own_of way cache.new) result }
    ensures same { other_of way cache.new ≡ other_of way cache.old }
{
    match way {
        Direction::Forward => step_of(way, regex.forward(), cache.forward_mut(), input, state),
        Direction::Backward => step_of(way, regex.reverse(), cache.reverse_mut(), input, state),
    }
}

/// Makes one step of the walk with this number.
pub fn step_at(
    walks: &mut [KeptWalk<'_>],
    number: usize,
    regex: &Regex,
    cache: &mut Cache,
) -> Result<Option<HalfMatch>, SearchError>
    requires number { number < length walks.old }
    requires of { AreCachesOf cache.old regex.now }
    requires reported { (old : KeptWalk) → IsWalkAt walks.old number old → (k : ℕ) × HasAnsweredBy regex.now old k }
    ensures of { AreCachesOf cache.new regex.now }
    ensures goes { GoesAt regex.now number walks.old walks.new result }
    ensures made { MakesStepAt regex.now number walks.old cache.old cache.new result }
{
    let walk = &mut walks[number];
    step(walk.way, regex, cache, &walk.input, &mut walk.state)
}
