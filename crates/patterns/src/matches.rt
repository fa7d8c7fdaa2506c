//! The matches of a haystack, one after another.
ghost use Rattle.std.specs.Prelude.{◌≡◌, ◌≤◌, None, false, length};
ghost use Rattle.std.specs.Iterator.{at_most};
ghost use Rattle.std.specs.Option.{unwrap_or};
ghost use Rattle.regex_automata.specs.Promises.{AreCachesOf, LiesInHaystack};
ghost use Rattle.patterns.specs.Iteration.{GivesMatch, most_left};
ghost use Rattle.patterns.specs.Searches.{IsItemSearch};

use crate::attempts::Misses;
use crate::pattern::Pattern;
use regex_automata::hybrid::SearchError;
use regex_automata::hybrid::regex::Cache;
use regex_automata::util::search::Match;

/// An iterator over the remaining matches of a haystack. An error is its last item. After the last item each call
/// returns none.
#[derive(Drop)]
pub struct Matches<'p, 'c, 'h> {
    pattern: &'p Pattern,
    cache: &'c mut Cache,
    haystack: &'h [u8],
    last: Option<usize>,
    ended: bool,
    misses: Misses,
    ghost within: { unwrap_or last 0 ≤ length haystack.now },
    ghost of: { AreCachesOf cache.now pattern.now.regex },
}

impl<'p, 'c, 'h> Matches<'p, 'c, 'h> {
    /// Returns an iterator over all matches of the haystack.
    pub(crate) fn new(
        pattern: &'p Pattern,
        cache: &'c mut Cache,
        haystack: &'h [u8],
    ) -> Matches<'p, 'c, 'h>
        requires { AreCachesOf cache.old pattern.now.regex }
        ensures same_cache { result.cache.ghost_name ≡ cache.entry.ghost_name }
        ensures cache { result.cache.now ≡ cache.old }
        ensures pattern { result.pattern.now ≡ pattern.now }
        ensures haystack { result.haystack.now ≡ haystack.now }
        ensures last { result.last ≡ None }
        ensures ended { result.ended ≡ false }
    {
        Matches {
            pattern,
            cache,
            haystack,
            last: None,
            ended: false,
            misses: Misses::none(),
        }
    }
}

impl Pattern {
    /// Returns an iterator over the matches of the haystack. It skips an empty match at the end of the previous one.
    ///
    /// If a search fails, its error is the last item; the items before it are the first matches. Afterwards the cache
    /// serves other searches as before.
    pub fn find_iter<'p, 'c, 'h>(
        &'p self,
        cache: &'c mut Cache,
        hay: &'h [u8],
    ) -> Matches<'p, 'c, 'h>
        requires { AreCachesOf cache.old self.now.regex }
        ensures same_cache { result.cache.ghost_name ≡ cache.entry.ghost_name }
        ensures cache { result.cache.now ≡ cache.old }
        ensures pattern { result.pattern.now ≡ self.now }
        ensures haystack { result.haystack.now ≡ hay.now }
        ensures last { result.last ≡ None }
        ensures ended { result.ended ≡ false }
    {
        Matches::new(self, cache, hay)
    }
}

impl<'p, 'c, 'h> Iterator for Matches<'p, 'c, 'h> {
    type Item = Result<Match, SearchError>;

    ghost next_gives = { λ s r t.
        GivesMatch s.pattern.now s.cache.now t.cache.now s.haystack.now r s.last t.last s.ended t.ended
        × (t.pattern.now ≡ s.pattern.now) × (t.haystack.now ≡ s.haystack.now)
        × (t.cache.ghost_name ≡ s.cache.ghost_name) × LiesInHaystack s.haystack.now r
        × IsItemSearch s.pattern.now s.haystack.now s.last s.ended s.cache.now t.cache.now r };

    ghost remaining = { λ s. at_most (most_left s.ended s.haystack.now s.last) };

    fn next(&mut self) -> Option<Result<Match, SearchError>> {
        if self.ended {
            return None;
        }
        match self
            .pattern
            .next_match(self.cache, self.haystack, self.last, &mut self.misses)
        {
            Ok(Some(found)) => {
                self.last = Some(found.end());
                Some(Ok(found))
            }
            Ok(None) => {
                self.ended = true;
                None
            }
            Err(error) => {
                self.ended = true;
                Some(Err(error))
            }
        }
    }
}
