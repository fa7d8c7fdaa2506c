//! The matches of a haystack, one after another.
ghost use Rattle.std.specs.Prelude.{◌≡◌, ◌<◌, ◌≤◌, IfSome, List, None, false, length, true};
ghost use Rattle.std.specs.Iterator.{at_most};
ghost use Rattle.std.specs.Option.{unwrap_or};
ghost use Rattle.patterns.specs.Iteration.{most_left};
ghost use Rattle.meta.specs.Caches.{HaveRoomFor, IsMetaCacheOf};
ghost use Rattle.meta.specs.Captures.{HoldMatch};
ghost use Rattle.meta.specs.Iteration.{HoldNext, YieldsMatch};
ghost use Rattle.meta.specs.Regexes.{MaySearchByDfas};

use crate::cache::Cache;
use crate::captures::Captures;
use crate::regexes::Regex;
use patterns::Misses;
use regex_automata::util::search::Match;

/// An iterator over the remaining matches of a haystack.
#[derive(Drop)]
pub struct Matches<'r, 'c, 'h> {
    regex: &'r Regex,
    cache: &'c mut Cache,
    haystack: &'h [u8],
    last: Option<usize>,
    ended: bool,
    /// Whether the lazy DFAs may search the haystack.
    by_dfas: bool,
    misses: Misses,
    ghost within: { unwrap_or last 0 ≤ length haystack.now },
    ghost of: { IsMetaCacheOf cache.now regex.now },
    ghost dfas: { by_dfas ≡ true → MaySearchByDfas regex.now haystack.now },
}

impl Regex {
    /// Returns an iterator over the matches of the haystack. It skips an empty match at the end of the previous one.
    ///
    /// If some text has a Unicode word boundary, this tests whether the haystack is ASCII.
    pub fn find_iter<'r, 'c, 'h>(
        &'r self,
        cache: &'c mut Cache,
        hay: &'h [u8],
    ) -> Matches<'r, 'c, 'h>
        requires { IsMetaCacheOf cache.old self.now }
        ensures same_cache { result.cache.ghost_name ≡ cache.entry.ghost_name }
        ensures cache { result.cache.now ≡ cache.old }
        ensures regex { result.regex.now ≡ self.now }
        ensures haystack { result.haystack.now ≡ hay.now }
        ensures last { result.last ≡ None }
        ensures ended { result.ended ≡ false }
    {
        let by_dfas = self.suits_dfas(hay);
        Matches {
            regex: self,
            cache,
            haystack: hay,
            last: None,
            ended: false,
            by_dfas,
            misses: Misses::none(),
        }
    }
}

impl<'r, 'c, 'h> Matches<'r, 'c, 'h> {
    /// Returns the next match, as `next` does, and stores it with its groups in the captures. If no match remains, the
    /// captures are empty.
    ///
    /// ```rust
    /// let mut matches = regex.find_iter(&mut cache, hay);
    /// while let Some(found) = matches.next_captures(&mut captures) {
    ///     let year = captures.get(1);
    /// }
    /// ```
    pub fn next_captures(&mut self, captures: &mut Captures) -> Option<Match>
        requires room { HaveRoomFor captures.old self.old.regex.now.programs }
        ensures steps { YieldsMatch self.old.regex.now self.old.haystack.now result self.old.last self.new.last
            self.old.ended self.new.ended }
        ensures groups { HoldNext self.old.regex.now self.old.haystack.now self.old.last self.old.ended captures.new }
        ensures stored { HoldMatch result captures.new }
        ensures fewer { IfSome result (λ _. most_left self.new.ended self.old.haystack.now self.new.last
            < most_left self.old.ended self.old.haystack.now self.old.last) }
        ensures same { (self.new.regex.now ≡ self.old.regex.now) × (self.new.haystack.now ≡ self.old.haystack.now)
            × (self.new.cache.ghost_name ≡ self.old.cache.ghost_name) }
        ensures room { HaveRoomFor captures.new self.old.regex.now.programs }
    {
        let Some(found) = self.next() else {
            captures.clear();
            return None;
        };
        let (regex, hay) = (self.regex, self.haystack);
        regex.groups_of(&mut self.cache.simulations, hay, &found, captures);
        Some(found)
    }
}

impl<'r, 'c, 'h> Iterator for Matches<'r, 'c, 'h> {
    type Item = Match;

    ghost next_gives = { λ s r t.
        YieldsMatch s.regex.now s.haystack.now r s.last t.last s.ended t.ended
        × (t.regex.now ≡ s.regex.now) × (t.haystack.now ≡ s.haystack.now)
        × (t.cache.ghost_name ≡ s.cache.ghost_name) };

    ghost remaining = { λ s. at_most (most_left s.ended s.haystack.now s.last) };

    fn next(&mut self) -> Option<Match> {
        if self.ended {
            return None;
        }
        match self.regex.next_match(
            self.cache,
            self.haystack,
            self.last,
            self.by_dfas,
            &mut self.misses,
        ) {
            Some(found) => {
                self.last = Some(found.end());
                Some(found)
            }
            None => {
                self.ended = true;
                None
            }
        }
    }
}
