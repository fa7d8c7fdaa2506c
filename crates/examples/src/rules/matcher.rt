//! Which rules match a record.
ghost use Rattle.std.specs.Prelude.{◌≡◌, ◌≤◌, IfOk};
ghost use Rattle.automata_hybrid.specs.Cache.Caches.{dfa_of};
ghost use Rattle.automata_hybrid.specs.Known.Events.{usage};
ghost use Rattle.automata_hybrid.specs.Known.Stores.{known_of};
ghost use Rattle.regex_automata.specs.Promises.{IsCacheOf, KindAll, match_kind_of};
ghost use Rattle.examples.specs.Rules.{IsFirst, IsNamed};

use anyhow::Result;
use regex_automata::hybrid::SearchError;
use regex_automata::hybrid::dfa::{Cache, DFA, OverlappingState};
use regex_automata::laws::sets_have_matching;
use regex_automata::nfa::thompson::NFA;
use regex_automata::util::search::{HalfMatch, Input, MatchKind, PatternSet};
use std::alloc::Global;

/// A DFA with a pattern for each rule, whose searches report all matches, and its cache.
pub struct RuleMatcher {
    dfa: DFA,
    cache: Cache,
    ghost of: { IsCacheOf cache dfa },
    ghost all: { match_kind_of dfa.config ≡ KindAll },
}

// With this, dropping the value is one call in the proof of a caller, not a step for each field.
impl Drop for RuleMatcher {
    fn drop(self) {
        let Self {
            dfa: _dfa,
            cache: _cache,
        } = self;
    }
}

impl RuleMatcher {
    /// Returns a matcher of the NFA's patterns over a fresh cache. Its DFA reports all matches.
    pub fn new(nfa: NFA) -> Result<RuleMatcher>
        ensures { IfOk result (λ matcher. matcher.dfa.nfa ≡ nfa) }
    {
        let mut builder = DFA::builder();
        let config = DFA::config().match_kind(MatchKind::All);
        let dfa = builder.configure(config).build_from_nfa(nfa)?;
        let cache = dfa.create_cache()?;
        Ok(RuleMatcher { dfa, cache })
    }

    /// Returns the rules that match a record.
    pub fn rules_of(&mut self, alloc: Global, bytes: &[u8]) -> Result<PatternSet>
        ensures same { self.new.dfa ≡ self.old.dfa }
        ensures named { IfOk result (IsNamed self.old.dfa bytes.now) }
    {
        sets_have_matching(&self.dfa);
        let mut found = PatternSet::new(alloc, self.dfa.pattern_len())?;
        let input = Input::new(bytes);
        self.dfa
            .try_which_overlapping_matches(&mut self.cache, &input, &mut found)?;
        Ok(found)
    }

    /// Returns the end and the rule of the first of all matches in a record, which may overlap.
    pub fn first_match(&mut self, bytes: &[u8]) -> Result<Option<HalfMatch>, SearchError>
        ensures same { self.new.dfa ≡ self.old.dfa }
        ensures first { IfOk result (IsFirst self.old.dfa bytes.now) }
    {
        let input = Input::new(bytes);
        let mut state = OverlappingState::start();
        self.dfa
            .try_search_overlapping_fwd(&mut self.cache, &input, &mut state)?;
        Ok(state.get_match())
    }

    /// Returns how many bytes the cache accounts for.
    pub fn memory_usage(&self) -> usize
        ensures usage { result ≡ usage (dfa_of self.now.cache) (known_of self.now.cache) }
        ensures within { result ≤ (dfa_of self.now.cache).capacity }
    {
        self.cache.memory_usage()
    }
}
