//! The tokens of an input, one after another, as a list.
ghost use Rattle.automata_hybrid.specs.Cache.Caches.{IsCacheOf};
ghost use Rattle.regex_automata.specs.Regexes.Caches.{AreCachesOf};
ghost use Rattle.replay.specs.Caches.{AreTokensSearched};
ghost use Rattle.regex_automata.specs.Tokens.{AreGiven, AreTokensReported, AreTokensUpto};

use automata_base::util::search::{Input, Match};
use automata_config::error::SearchError;
use regex_automata::hybrid::regex::{Cache, Regex};
use regex_automata::tokens::TokenError;
use std::alloc::Global;

/// Returns the patterns and spans of the tokens, and the error that ended them, if any: no token, a search's error, or
/// out of memory for the list.
pub fn tokens_upto(
    alloc: Global,
    regex: &Regex,
    cache: &mut Cache,
    input: Input<'_>,
) -> (Vec<Match>, Option<TokenError>)
    requires { AreCachesOf cache.old regex.now }
    ensures of { AreCachesOf cache.new regex.now }
    ensures returned { AreTokensUpto regex.now.forward input.entry result.0.items result.1 }
    ensures found { AreTokensReported regex.now.forward input.entry result.0.items result.1 }
    ensures made { AreTokensSearched regex.now.forward input.entry.haystack input.entry.end input.entry.start
        cache.old cache.new result.0.items result.1 }
{
    take_tokens(alloc, regex, cache, input)
}

/// Collects the tokens up to an error. The contract is in terms of what each search returns.
fn take_tokens(
    alloc: Global,
    regex: &Regex,
    cache: &mut Cache,
    input: Input<'_>,
) -> (Vec<Match>, Option<TokenError>)
    requires { AreCachesOf cache.old regex.now }
    ensures forward { IsCacheOf cache.new.forward regex.now.forward }
    ensures reverse { IsCacheOf cache.new.reverse regex.now.reverse }
    ensures given { AreGiven regex.now.forward input.entry.haystack input.entry.end input.entry.start
        result.0.items result.1 }
    ensures made { AreTokensSearched regex.now.forward input.entry.haystack input.entry.end input.entry.start
        cache.old cache.new result.0.items result.1 }
{
    let mut found = Vec::new(alloc);
    for item in regex.tokens(cache, input) {
        match item {
            Ok(token) => {
                let Ok(()) = found.push(Match::new(token.pattern(), token.span())) else {
                    return (found, Some(TokenError::Search(SearchError::OutOfMemory)));
                };
            }
            Err(error) => return (found, Some(error)),
        }
    }
    (found, None)
}
