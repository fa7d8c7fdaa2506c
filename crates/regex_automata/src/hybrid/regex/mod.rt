//! Regular expressions as two lazy DFAs: one finds where a match ends, and one, reading backward, finds where it
//! starts.
ghost use Rattle.std.specs.Prelude.{◌≡◌, IfOk, OnOk, OnErr, length};
ghost use Rattle.automata_config.specs.Options.{unset};
ghost use Rattle.regex_automata.specs.Regexes.Caches.{AreFresh};

mod build;
mod caches;
mod iterate;
mod matching;
mod search;

use automata_hybrid::dfa::DFA;
pub use build::{Builder, RegexBuildError};
pub use caches::Cache;
pub use iterate::FindMatches;
use std::alloc::AllocError;

/// The two lazy DFAs of a regular expression, for the same patterns.
///
/// It is built from one NFA, or from two, one of which reads the same expression backward. Its searches use a cache
/// that was made for it, which serves one search after another:
///
/// ```rust
/// let regex = Regex::builder().build_from_nfa(word(rt.alloc())?)?;
/// let mut cache = regex.create_cache()?;
/// for found in regex.find_iter(&mut cache, Input::new(b"foo 12 bar")) {
///     let found = found?;
///     println!(rt; "{}..{}", found.start(), found.end())?;
/// }
/// ```
#[derive(Debug)]
pub struct Regex {
    forward: DFA,
    reverse: DFA,
}

// With its own `drop`, the proof of an owner has one step for it instead of one for each part.
impl Drop for Regex {
    fn drop(self) {
        let Self {
            forward: _forward,
            reverse: _reverse,
        } = self;
    }
}

impl Regex {
    /// Returns a builder of regexes, with the default settings.
    pub fn builder() -> Builder
        ensures { result ≡ unset }
    {
        Builder::new()
    }

    /// Returns a new cache for searches with this regex. It serves one search after another:
    ///
    /// ```rust
    /// let regex = Regex::builder().build_from_nfa(word(rt.alloc())?)?;
    /// let mut cache = regex.create_cache()?;
    /// ```
    ///
    /// To use it with another regex, reset it (`Cache::reset`).
    pub fn create_cache(&self) -> Result<Cache, AllocError>
        ensures { IfOk result (AreFresh self.now) }
    {
        Cache::new(self)
    }

    /// Makes `cache` a fresh cache for this regex, whatever regex it belonged to. An error changes neither part.
    pub fn reset_cache(&self, cache: &mut Cache) -> Result<(), AllocError>
        ensures ok { OnOk result (AreFresh self.now cache.new) }
        ensures err { OnErr result (cache.new ≡ cache.old) }
    {
        cache.reset(self)
    }

    /// Returns the DFA that finds where matches end. If you only need ends, search with it alone, over
    /// `Cache::forward_mut`.
    pub fn forward(&self) -> &DFA
        ensures { result.now ≡ self.now.forward }
    {
        &self.forward
    }

    /// Returns the DFA that finds where matches start, by searching backward from an end.
    pub fn reverse(&self) -> &DFA
        ensures { result.now ≡ self.now.reverse }
    {
        &self.reverse
    }

    /// Returns the number of patterns. Their IDs are the numbers below it.
    pub fn pattern_len(&self) -> usize
        ensures { result ≡ length self.now.forward.nfa.start_pattern }
    {
        self.forward.pattern_len()
    }
}
