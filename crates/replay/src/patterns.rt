//! The patterns of all overlapping matches, as a list.
ghost use Rattle.std.specs.Prelude.{◌≡◌, IfOk, None};
ghost use Rattle.automata_base.specs.Haystacks.PatternSet.{members};
ghost use Rattle.automata_hybrid.specs.Cache.Caches.{IsCacheOf};
ghost use Rattle.regex_automata.specs.Spans.Contracts.{ArePatternsReported, ArePatternsUpto};
ghost use Rattle.replay.specs.Caches.{ArePatternsSearched};

use automata_base::util::pattern_set::PatternSet;
use automata_base::util::primitives::PatternID;
use automata_base::util::search::Input;
use automata_config::error::SearchError;
use regex_automata::hybrid::dfa;
use regex_automata::hybrid::dfa::DFA;
use std::alloc::{AllocError, Global};

/// Returns the patterns of all overlapping matches, collected in a new set; after an error, those reported before it.
/// It returns no patterns if the set or the list cannot be allocated.
pub fn patterns_below(
    alloc: Global,
    dfa: &DFA,
    cache: &mut dfa::Cache,
    capacity: usize,
    input: &Input<'_>,
) -> (Vec<PatternID>, Option<SearchError>)
    requires { IsCacheOf cache.old dfa.now }
    ensures of { IsCacheOf cache.new dfa.now }
    ensures returned { ArePatternsUpto dfa.now input.now capacity result.0.items result.1 }
    ensures found { result.1 ≡ None → ArePatternsReported dfa.now input.now capacity result.0.items }
    ensures made { ArePatternsSearched dfa.now input.now capacity cache.old cache.new result.0.items result.1 }
{
    let Ok(mut set) = PatternSet::new(alloc, capacity) else {
        return (Vec::new(alloc), Some(SearchError::OutOfMemory));
    };
    let reported = dfa.try_which_overlapping_matches(cache, input, &mut set);
    match list_members(alloc, &set) {
        Ok(found) => (found, reported.err()),
        Err(_) => (Vec::new(alloc), Some(SearchError::OutOfMemory)),
    }
}

/// Returns the patterns of a set, in increasing order.
fn list_members(alloc: Global, set: &PatternSet) -> Result<Vec<PatternID>, AllocError>
    ensures { IfOk result (λ list. list.items ≡ members set.now) }
{
    set.iter().collect(alloc)
}
