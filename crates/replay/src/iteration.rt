//! The matches of an input, one after another, as a list.
ghost use Rattle.std.specs.Prelude.{◌≡◌, [], IfSome, None, Some};
ghost use Rattle.automata_base.specs.Haystacks.Input.{IsValidInput};
ghost use Rattle.automata_base.specs.declared.util.search.Direction.TheVariants.{Forward};
ghost use Rattle.automata_hybrid.specs.Cache.Caches.{IsCacheOf};
ghost use Rattle.automata_hybrid.specs.Searches.Contracts.{IsMemory, IsUnsupported, unsupported_error};
ghost use Rattle.regex_automata.specs.Spans.Iteration.{AreCollected};
ghost use Rattle.regex_automata.specs.Spans.Outcomes.{FindsMatch};
ghost use Rattle.regex_automata.specs.Spans.Contracts.{AreMatchesUpto};
ghost use Rattle.regex_automata.specs.Spans.Errors.{IsFree};
ghost use Rattle.regex_automata.specs.Regexes.SoundPairs.{IsSoundPair};
ghost use Rattle.regex_automata.specs.Regexes.Caches.{AreCachesOf};
ghost use Rattle.replay.specs.Caches.{AreSearched};

use automata_base::util::search::{Input, Match};
use automata_config::error::SearchError;
use automata_determinize::laws::{reported_is_right, start_is_right};
use regex_automata::hybrid::regex::{Cache, Regex};
use regex_automata::laws::spans_follow;
use std::alloc::Global;

/// Returns the matches, and the error that ended them, if any: a search's error, or out of memory for the list.
pub fn matches_upto(
    alloc: Global,
    regex: &Regex,
    cache: &mut Cache,
    input: Input<'_>,
) -> (Vec<Match>, Option<SearchError>)
    requires { AreCachesOf cache.old regex.now }
    ensures of { AreCachesOf cache.new regex.now }
    ensures returned { AreMatchesUpto regex.now input.entry result.0.items result.1 }
    ensures found { AreCollected (FindsMatch regex.now) input.entry result.0.items result.1 }
    ensures made { AreSearched regex.now cache.old cache.new input.entry None result.0.items result.1 }
{
    reported_is_right(regex.forward().get_nfa());
    reported_is_right(regex.reverse().get_nfa());
    start_is_right();
    take_matches(alloc, regex, cache, input)
}

/// Collects the matches up to an error. The contract is in terms of what the passes report.
fn take_matches(
    alloc: Global,
    regex: &Regex,
    cache: &mut Cache,
    input: Input<'_>,
) -> (Vec<Match>, Option<SearchError>)
    requires { AreCachesOf cache.old regex.now }
    ensures forward { IsCacheOf cache.new.forward regex.now.forward }
    ensures reverse { IsCacheOf cache.new.reverse regex.now.reverse }
    ensures found { AreCollected (FindsMatch regex.now) input.entry result.0.items result.1 }
    ensures free { IsSoundPair regex.now → IsFree regex.now input.entry → IfSome result.1 IsMemory }
    ensures unsupported { IsUnsupported Forward regex.now.forward input.entry
        → (result.0.items ≡ []) × (result.1 ≡ Some (unsupported_error input.entry)) }
    ensures made { AreSearched regex.now cache.old cache.new input.entry None result.0.items result.1 }
    ensures valid { IsValidInput input.entry }
{
    spans_follow(regex);
    let mut found = Vec::new(alloc);
    for item in regex.find_iter(cache, input) {
        match item {
            Ok(next) => {
                let Ok(()) = found.push(next) else {
                    return (found, Some(SearchError::OutOfMemory));
                };
            }
            Err(error) => return (found, Some(error)),
        }
    }
    (found, None)
}
