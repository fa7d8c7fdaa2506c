//! Laws about searches with two lazy DFAs. The contract of each function is the law; its body only cites other laws.
ghost use Rattle.regex_automata.specs.Regexes.Caches.{AreCachesOf, AreKnown};
ghost use Rattle.regex_automata.specs.Spans.Agreement.{MatchesAgree, TruthIffFound, TruthsAgree};
ghost use Rattle.regex_automata.specs.Spans.Follows.{NextsFollow, ErrorsFollow, SpansFollow};
ghost use Rattle.regex_automata.specs.Spans.OfPaths.{LoopsCollect, MatchesAreSpans};
ghost use Rattle.regex_automata.specs.Tokens.{TokensAreSpans};

use crate::hybrid::regex::{Cache, Regex};
pub use automata_base::laws::{cycles_are_kept, prefixes_skip_lazily};
pub use automata_determinize::laws::{
    late_is_right, passes_report_paths, reported_is_right, start_is_right, steps_are_alike,
    steps_are_right, walk_is_right,
};
pub use automata_hybrid::laws::{
    answers_agree, cache_is_known, calls_follow, first_match_is_found, ids_survive, known_stays,
    pieces_are_whole, pieces_follow, searches_follow, sets_follow, sets_have_matching,
    sizes_are_of_nfa, states_have_matching, steps_follow, walk_pieces_follow, walks_agree,
    walks_are_whole,
};
pub use automata_transform::laws::{
    anchored_answers_alike, flattened_answers_alike, merged_answers_alike, reversed_is_true,
};

/// Two searches for a match with its start that succeed on one input find the same, over one regex, or over two of the
/// same NFAs and match kinds. Earlier searches, the capacities of the caches and other settings make no difference.
pub fn matches_agree()
    ensures { MatchesAgree }
{
    answers_agree();
}

/// Two searches for whether there is a match that succeed on one input return the same, over DFAs of one forward NFA
/// and match kind. Earlier searches and the capacities of the caches make no difference.
pub fn truths_agree()
    ensures { TruthsAgree }
{
    passes_report_paths();
}

/// If both succeed, `is_match` returns true exactly if `find` returns a match. An earliest input over DFAs that skip
/// offsets inside characters is excluded: there `find` may skip the only match that it sees.
pub fn truth_is_found()
    ensures { TruthIffFound }
{
    passes_report_paths();
}

/// Over a sound pair, the passes of both DFAs report the spans that the ordered paths define: for a search, for the
/// next match, for each item of `find_iter`, and for the list of them. A loop over `find_iter` collects such a list,
/// turn by turn.
pub fn matches_are_spans(regex: &Regex)
    ensures spans { MatchesAreSpans regex.now }
    ensures loops { LoopsCollect }
{
    reported_is_right(regex.forward().get_nfa());
    reported_is_right(regex.reverse().get_nfa());
    start_is_right();
}

/// Each token is the span that the ordered paths define for an anchored search at its offset, if the NFA keeps its
/// cycles. Where there is no token, that search has no span, or an empty one.
pub fn tokens_are_spans()
    ensures { TokensAreSpans }
{}

/// The caches of a regex meet the premise of `spans_follow`.
pub fn regex_caches_are_known(regex: &Regex, cache: &Cache)
    requires { AreCachesOf cache.now regex.now }
    ensures { AreKnown regex.now cache.now }
{
    let (forward, reverse) = cache.as_parts();
    cache_is_known(regex.forward(), forward);
    cache_is_known(regex.reverse(), reverse);
}

/// Consequences of a search for a span, and of `next_match`, for both caches of a regex, and why these fail. They say
/// how often the caches determinize, when nothing is cleared, that nothing is lost until the next clear, that what the
/// search used is cached if it succeeds, and that only the progress changes if all of it was cached. For a search of
/// one DFA, as `is_match` and the tokens make it, the law is `searches_follow`.
pub fn spans_follow(regex: &Regex)
    ensures spans { SpansFollow regex.now }
    ensures refusals { ErrorsFollow regex.now }
    ensures nexts { NextsFollow regex.now }
{
    answers_agree();
    searches_follow(regex.forward());
    searches_follow(regex.reverse());
    known_stays(regex.forward());
    known_stays(regex.reverse());
    reported_is_right(regex.forward().get_nfa());
    reported_is_right(regex.reverse().get_nfa());
    start_is_right();
}
