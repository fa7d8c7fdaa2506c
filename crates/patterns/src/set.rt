//! Sets of patterns, to search for all at once.
ghost use Rattle.std.specs.Prelude.{◌≡◌, List, IfErr, IfOk, OnOk, is_some, length, map};
ghost use Rattle.regex_hir.specs.Re.{Re};
ghost use Rattle.automata_base.specs.Answers.TruePairs.{KeepsUtf8};
ghost use Rattle.automata_hybrid.specs.Cache.Caches.{fresh_cache};
ghost use Rattle.automata_hybrid.specs.Machines.Builds.{Builds};
ghost use Rattle.regex_automata.specs.Promises.{Forward, IsCacheOf, KindAll, engine_of};
ghost use Rattle.meaning.specs.Patterns.{find_any, is_found, span_input};
ghost use Rattle.patterns.specs.Patterns.{IsFor};
ghost use Rattle.patterns.specs.Sets.{IsAnyAnswer, IsAnySearched, IsDfaError, IsDfaOf, IsSetAnswer, IsSetBuiltOf};
ghost use Rattle.patterns.specs.Sets.{IsSetFault, IsSetOf, IsSetSearched, set_settings_of};
ghost use Rattle.patterns.specs.declared.compile.Options as options;

use crate::compile::{Options, nfa_of};
use crate::error::{Fault, PatternError};
use regex_automata::hybrid::SearchError;
use regex_automata::hybrid::dfa::{Cache, DFA, OverlappingState};
use regex_automata::hybrid::regex::RegexBuildError;
use regex_automata::laws::{sets_have_matching, walk_is_right};
use regex_automata::nfa::thompson::NFA;
use regex_automata::util::search::{Input, MatchKind, PatternSet};
use std::alloc::{AllocError, Global};

/// Several patterns that are searched for at once: a search reports which of them match, as with Rust's `RegexSet`.
pub struct RegexSet {
    /// The DFA that searches for them, with `MatchKind::All`. Use it for other searches, such as overlapping ones.
    pub dfa: DFA,
}

// With its own `drop`, the proof of an owner has one step for it instead of one for each part.
impl Drop for RegexSet {
    fn drop(self) {
        let Self { dfa: _dfa } = self;
    }
}

/// Fails if the NFA searches text, and a match might split a character.
fn test_utf8(nfa: &NFA) -> Result<(), RegexBuildError>
    ensures keeps { OnOk result (KeepsUtf8 Forward (engine_of nfa.now KindAll)) }
    ensures refused { IfErr result (λ error. (o : options.Options) → IsDfaError o nfa.now error) }
{
    match nfa.keeps_utf8() {
        Ok(true) => Ok(()),
        Ok(false) => Err(RegexBuildError::NotUtf8),
        Err(_) => Err(RegexBuildError::OutOfMemory),
    }
}

/// Builds the DFA of an NFA, which reports all matches.
fn dfa_of(nfa: NFA, options: &Options) -> Result<DFA, RegexBuildError>
    ensures keeps { OnOk result (KeepsUtf8 Forward (engine_of nfa KindAll)) }
    ensures built { IfOk result (Builds (set_settings_of options.now) nfa) }
    ensures refused { IfErr result (IsDfaError options.now nfa) }
{
    let mut builder = DFA::builder();
    let config = options.dfa_config().match_kind(MatchKind::All);
    builder.configure(config);
    match test_utf8(&nfa) {
        Err(error) => Err(error),
        Ok(()) => match builder.build_from_nfa(nfa) {
            Ok(dfa) => Ok(dfa),
            Err(error) => Err(RegexBuildError::Build(error)),
        },
    }
}

impl RegexSet {
    /// Compiles texts to a set of patterns, each numbered by its position in the list.
    pub fn new(alloc: Global, texts: &[&str], options: &Options) -> Result<RegexSet, PatternError>
        ensures meant { IfOk result (λ set. IsSetOf options.now (map (λ text. text.now) texts.now) set.dfa) }
        ensures built { IfOk result (λ set. IsSetBuiltOf options.now (map (λ text. text.now) texts.now) set.dfa) }
        ensures refused { IfErr result (IsSetFault options.now (map (λ text. text.now) texts.now)) }
    {
        let nfa = nfa_of(alloc, texts, options)?;
        match dfa_of(nfa, options) {
            Ok(dfa) => Ok(RegexSet { dfa }),
            Err(error) => {
                let fault = Fault::Unbuilt(error);
                Err(PatternError { number: 0, fault })
            }
        }
    }

    /// Returns a new cache for searches, which serves one search after another.
    pub fn create_cache(&self) -> Result<Cache, AllocError>
        ensures of { IfOk result (λ cache. IsCacheOf cache self.now.dfa) }
        ensures fresh { IfOk result (λ cache. cache ≡ fresh_cache self.now.dfa) }
    {
        self.dfa.create_cache()
    }

    /// Returns the patterns that match somewhere in the haystack, each by itself: which others match, and where, makes
    /// no difference. It finds them in one pass, however many there are.
    ///
    /// Each call allocates the set, with a flag for each pattern. To use one set again and again, clear it and pass it
    /// to `try_which_overlapping_matches` of `dfa`. After an error the cache serves other searches as before.
    ///
    /// ```rust
    /// let found = set.which(alloc, cache, line.as_bytes())?;
    /// for pattern in found.iter() {
    ///     write!(shown, "{} ", pattern.as_usize())?;
    /// }
    /// ```
    pub fn which(
        &self,
        alloc: Global,
        cache: &mut Cache,
        hay: &[u8],
    ) -> Result<PatternSet, SearchError>
        requires { IsCacheOf cache.old self.now.dfa }
        ensures of { IsCacheOf cache.new self.now.dfa }
        ensures returned { IsSetAnswer self.now.dfa (span_input hay.now 0 (length hay.now)) result }
        ensures found { IfOk result (λ found. (o : options.Options) (res : List Re)
            → IsDfaOf o res self.now.dfa → IsFor o hay.now
            → found ≡ map (is_found o.utf8 hay.now) res) }
        ensures effect { IsSetSearched self.now.dfa (span_input hay.now 0 (length hay.now)) cache.old cache.new result }
    {
        sets_have_matching(&self.dfa);
        let mut found = PatternSet::new(alloc, self.dfa.pattern_len())?;
        let input = Input::new(hay);
        match self
            .dfa
            .try_which_overlapping_matches(cache, &input, &mut found)
        {
            Ok(()) => Ok(found),
            Err(error) => Err(error),
        }
    }

    /// Whether some pattern matches somewhere in the haystack. The search ends with the first match.
    pub fn is_match(&self, cache: &mut Cache, hay: &[u8]) -> Result<bool, SearchError>
        requires { IsCacheOf cache.old self.now.dfa }
        ensures of { IsCacheOf cache.new self.now.dfa }
        ensures returned { IsAnyAnswer self.now.dfa (span_input hay.now 0 (length hay.now)) result }
        ensures found { IfOk result (λ truth. (o : options.Options) (res : List Re)
            → IsDfaOf o res self.now.dfa → IsFor o hay.now
            → truth ≡ is_some (find_any o.utf8 res hay.now 0)) }
        ensures effect { IsAnySearched self.now.dfa (span_input hay.now 0 (length hay.now)) cache.old cache.new result }
    {
        walk_is_right(self.dfa.get_nfa());
        let input = Input::new(hay);
        let mut state = OverlappingState::start();
        match self
            .dfa
            .try_search_overlapping_fwd(cache, &input, &mut state)
        {
            Ok(()) => Ok(state.get_match().is_some()),
            Err(error) => Err(error),
        }
    }
}
