//! A regex with a cache of its own.
ghost use Rattle.std.specs.Prelude.{◌≡◌, ◌≤◌, IfOk, IfSome, List, is_some, length, option_map};
ghost use Rattle.regex_hir.specs.Re.{Re};
ghost use Rattle.meaning.specs.Patterns.{find_any, numbered_match};
ghost use Rattle.patterns.specs.declared.compile.Options as options;
ghost use Rattle.meta.specs.Caches.{HaveRoomFor, IsMetaCacheOf};
ghost use Rattle.meta.specs.Captures.{HoldFound, HoldMatch};
ghost use Rattle.meta.specs.Regexes.{IsMetaRegexOf, IsTextFor};

use crate::cache::Cache;
use crate::captures::Captures;
use crate::regexes::Regex;
use regex_automata::util::search::Match;
use std::alloc::{AllocError, Global};

/// A regex and its cache, for a program that searches on one thread: its searches need no cache, and cannot fail.
///
/// ```rust
/// let mut searcher = Searcher::new(alloc, Regex::new(alloc, r"\bif\b", &Options::default())?)?;
/// let found = searcher.find(line);
/// ```
pub struct Searcher {
    regex: Regex,
    cache: Cache,
    ghost of: { IsMetaCacheOf cache regex },
}

// With its own `drop`, the proof of an owner has one step for it instead of one for each part.
impl Drop for Searcher {
    fn drop(self) {
        let Self {
            regex: _regex,
            cache: _cache,
        } = self;
    }
}

impl Searcher {
    /// Makes a searcher of a regex, with a new cache.
    pub fn new(alloc: Global, regex: Regex) -> Result<Searcher, AllocError>
        ensures { IfOk result (λ searcher. searcher.regex ≡ regex) }
    {
        match regex.create_cache(alloc) {
            Ok(cache) => Ok(Searcher { regex, cache }),
            Err(error) => Err(error),
        }
    }

    /// Returns the regex, for what is known of it: the number and the names of its groups.
    pub fn regex(&self) -> &Regex
        ensures { result.now ≡ self.now.regex }
    {
        &self.regex
    }

    /// Whether some part of the haystack is a match.
    pub fn is_match(&mut self, hay: &[u8]) -> bool
        ensures found { (o : options.Options) (res : List Re) → IsMetaRegexOf o res self.old.regex → IsTextFor o hay.now
            → result ≡ is_some (find_any o.utf8 res hay.now 0) }
        ensures regex { self.new.regex ≡ self.old.regex }
    {
        self.is_match_at(hay, 0)
    }

    /// Whether a match begins at `start` or later.
    pub fn is_match_at(&mut self, hay: &[u8], start: usize) -> bool
        requires { start ≤ length hay.now }
        ensures found { (o : options.Options) (res : List Re) → IsMetaRegexOf o res self.old.regex → IsTextFor o hay.now
            → result ≡ is_some (find_any o.utf8 res hay.now start) }
        ensures regex { self.new.regex ≡ self.old.regex }
    {
        self.regex.is_match_at(&mut self.cache, hay, start)
    }

    /// Returns the leftmost match of the haystack, as `Regex::find` does.
    pub fn find(&mut self, hay: &[u8]) -> Option<Match>
        ensures found { (o : options.Options) (res : List Re) → IsMetaRegexOf o res self.old.regex → IsTextFor o hay.now
            → result ≡ option_map (numbered_match res hay.now) (find_any o.utf8 res hay.now 0) }
        ensures within { IfSome result (λ m. m.end ≤ length hay.now) }
        ensures regex { self.new.regex ≡ self.old.regex }
    {
        self.find_at(hay, 0)
    }

    /// Returns the leftmost match that begins at `start` or later, as `Regex::find_at` does.
    pub fn find_at(&mut self, hay: &[u8], start: usize) -> Option<Match>
        requires { start ≤ length hay.now }
        ensures found { (o : options.Options) (res : List Re) → IsMetaRegexOf o res self.old.regex → IsTextFor o hay.now
            → result ≡ option_map (numbered_match res hay.now) (find_any o.utf8 res hay.now start) }
        ensures within { IfSome result (λ m. (start ≤ m.start) × (m.end ≤ length hay.now)) }
        ensures regex { self.new.regex ≡ self.old.regex }
    {
        self.regex.find_at(&mut self.cache, hay, start)
    }

    /// Returns the match that `find` returns, and stores it with its groups in captures that `Regex::create_captures`
    /// made. If there is no match, the captures are empty.
    pub fn captures(&mut self, hay: &[u8], captures: &mut Captures) -> Option<Match>
        requires { HaveRoomFor captures.old self.old.regex.programs }
        ensures found { (o : options.Options) (res : List Re) → IsMetaRegexOf o res self.old.regex → IsTextFor o hay.now
            → result ≡ option_map (numbered_match res hay.now) (find_any o.utf8 res hay.now 0) }
        ensures groups { (o : options.Options) (res : List Re) → IsMetaRegexOf o res self.old.regex → IsTextFor o hay.now
            → HoldFound (find_any o.utf8 res hay.now 0) captures.new }
        ensures stored { HoldMatch result captures.new }
        ensures within { IfSome result (λ m. m.end ≤ length hay.now) }
        ensures regex { self.new.regex ≡ self.old.regex }
        ensures room { HaveRoomFor captures.new self.new.regex.programs }
    {
        self.captures_at(hay, 0, captures)
    }

    /// Returns the match that `find_at` returns, and stores it with its groups in captures that
    /// `Regex::create_captures` made. If there is no match, the captures are empty.
    pub fn captures_at(
        &mut self,
        hay: &[u8],
        start: usize,
        captures: &mut Captures,
    ) -> Option<Match>
        requires room { HaveRoomFor captures.old self.old.regex.programs }
        requires within { start ≤ length hay.now }
        ensures found { (o : options.Options) (res : List Re) → IsMetaRegexOf o res self.old.regex → IsTextFor o hay.now
            → result ≡ option_map (numbered_match res hay.now) (find_any o.utf8 res hay.now start) }
        ensures groups { (o : options.Options) (res : List Re) → IsMetaRegexOf o res self.old.regex → IsTextFor o hay.now
            → HoldFound (find_any o.utf8 res hay.now start) captures.new }
        ensures stored { HoldMatch result captures.new }
        ensures within { IfSome result (λ m. (start ≤ m.start) × (m.end ≤ length hay.now)) }
        ensures regex { self.new.regex ≡ self.old.regex }
        ensures room { HaveRoomFor captures.new self.new.regex.programs }
    {
        self.regex
            .captures_at(&mut self.cache, hay, start, captures)
    }
}
