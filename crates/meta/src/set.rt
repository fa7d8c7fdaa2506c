//! Sets of patterns that answer every pattern on every haystack.
ghost use Rattle.std.specs.Prelude.{◌≡◌, IfErr, IfOk, List, MatchBool, is_some, length, map};
ghost use Rattle.regex_hir.specs.Re.{Re};
ghost use Rattle.meaning.specs.Patterns.{find_any, is_found};
ghost use Rattle.patterns.specs.Patterns.{config_of};
ghost use Rattle.patterns.specs.Sets.{IsSetBuiltOf};
ghost use Rattle.patterns.specs.declared.compile.Options as options;
ghost use Rattle.meta.specs.Caches.{AreRoomsOf};
ghost use Rattle.meta.specs.Programs.{AreProgramsOf};
ghost use Rattle.meta.specs.Regexes.{IsTextFor, with_ascii};
ghost use Rattle.meta.specs.RegexSets.{IsMadeSet, IsMetaSetFault, IsMetaSetOf, IsMetaSetOfTexts, IsSetCacheOf};
ghost use Rattle.meta.specs.RegexSets.{MaySearchByDfa, MustSimulateAll};

use crate::program::Programs;
use crate::regexes::{is_look, with_ascii};
use crate::simulation::Simulation;
use patterns::{Options, PatternError};
use regex_automata::hybrid::dfa;
use regex_automata::util::search::PatternSet;
use std::alloc::{AllocError, Global};

/// Several patterns that are searched for at once in every haystack: a search reports which of them match, as with
/// Rust's `RegexSet`. Where the lazy DFA has no answer, simulations have one.
///
/// ```rust
/// let set = RegexSet::new(alloc, &[r"\bслово\b", r"\bword\b"], &Options::default())?;
/// let mut cache = set.create_cache(alloc)?;
/// for pattern in set.which(alloc, &mut cache, line)?.iter() {
///     write!(shown, "{} ", pattern.as_usize())?;
/// }
/// ```
pub struct RegexSet {
    /// The set whose DFA finds which patterns match. If some text has a Unicode word boundary, it is for ASCII text.
    pub set: patterns::RegexSet,
    pub(crate) programs: Programs,
    pub(crate) words: bool,
}

// With its own `drop`, the proof of an owner has one step for it instead of one for each part.
impl Drop for RegexSet {
    fn drop(self) {
        let Self {
            set: _set,
            programs: _programs,
            words: _words,
        } = self;
    }
}

/// The memory that searches for a set of patterns write to. It serves one search after another.
pub struct SetCache {
    /// The cache of the lazy DFA.
    pub dfa: dfa::Cache,
    /// The memory of the simulation of each pattern.
    pub simulations: Vec<Simulation>,
}

// With its own `drop`, the proof of an owner has one step for it instead of one for each part.
impl Drop for SetCache {
    fn drop(self) {
        let Self {
            dfa: _dfa,
            simulations: _simulations,
        } = self;
    }
}

/// Compiles texts to a set for ASCII text.
fn ascii_set_of(
    alloc: Global,
    texts: &[&str],
    options: &Options,
) -> Result<(patterns::RegexSet, bool), PatternError>
    ensures meant { IfOk result (IsMadeSet options.now (map (λ text. text.now) texts.now)) }
    ensures refused { IfErr result (IsMetaSetFault options.now (map (λ text. text.now) texts.now)) }
{
    match patterns::RegexSet::new(alloc, texts, &with_ascii(options, true)) {
        Ok(set) => Ok((set, true)),
        Err(error) => Err(error),
    }
}

/// Compiles texts to a set for any text or, if some of them has a Unicode word boundary, for ASCII text. Returns which of
/// the two it is.
fn set_of(
    alloc: Global,
    texts: &[&str],
    options: &Options,
) -> Result<(patterns::RegexSet, bool), PatternError>
    ensures meant { IfOk result (IsMadeSet options.now (map (λ text. text.now) texts.now)) }
    ensures refused { IfErr result (IsMetaSetFault options.now (map (λ text. text.now) texts.now)) }
{
    match patterns::RegexSet::new(alloc, texts, &with_ascii(options, false)) {
        Ok(set) => Ok((set, false)),
        Err(error) if is_look(&error.fault) => ascii_set_of(alloc, texts, options),
        Err(error) => Err(error),
    }
}

impl RegexSet {
    /// Compiles texts to a set of patterns, each numbered by its position in the list. `Options::ascii` has no effect.
    pub fn new(alloc: Global, texts: &[&str], options: &Options) -> Result<RegexSet, PatternError>
        ensures meant { IfOk result (IsMetaSetOfTexts options.now (map (λ text. text.now) texts.now)) }
        ensures built { IfOk result (λ set.
            IsSetBuiltOf (with_ascii set.words options.now) (map (λ text. text.now) texts.now) set.set.dfa) }
        ensures programs { IfOk result (λ set.
            AreProgramsOf (config_of options.now) (map (λ text. text.now) texts.now) set.programs.list.items) }
        ensures refused { IfErr result (IsMetaSetFault options.now (map (λ text. text.now) texts.now)) }
    {
        let programs = Programs::new(alloc, texts, &with_ascii(options, true))?;
        match set_of(alloc, texts, options) {
            Ok((set, words)) => Ok(RegexSet {
                set,
                programs,
                words,
            }),
            Err(error) => Err(error),
        }
    }

    /// Returns new memory for searches.
    pub fn create_cache(&self, alloc: Global) -> Result<SetCache, AllocError>
        ensures { IfOk result (λ cache. IsSetCacheOf cache self.now) }
    {
        let simulations = self.programs.create_simulations(alloc)?;
        match self.set.create_cache() {
            Ok(dfa) => Ok(SetCache { dfa, simulations }),
            Err(error) => Err(error),
        }
    }

    /// Whether the lazy DFA may search the haystack. If some text has a Unicode word boundary, this reads all of the
    /// haystack that is ASCII.
    fn suits_dfa(&self, hay: &[u8]) -> bool
        ensures { MatchBool result (MaySearchByDfa self.now hay.now) (MustSimulateAll self.now hay.now) }
    {
        !self.words || hay.is_ascii()
    }

    /// Returns the patterns that match somewhere in the haystack, by simulations alone.
    fn simulate(
        &self,
        alloc: Global,
        simulations: &mut [Simulation],
        hay: &[u8],
    ) -> Result<PatternSet, AllocError>
        requires { AreRoomsOf simulations.old self.now.programs.list.items }
        ensures found { IfOk result (λ found. (o : options.Options) (res : List Re)
            → IsMetaSetOf o res self.now → found ≡ map (is_found o.utf8 hay.now) res) }
        ensures rooms { AreRoomsOf simulations.new self.now.programs.list.items }
    {
        let mut found = PatternSet::new(alloc, self.programs.list.len())?;
        self.programs.which(simulations, hay, 0, &mut found);
        Ok(found)
    }

    /// Returns the patterns that match somewhere in the haystack, each by itself: which others match, and where, makes
    /// no difference. The lazy DFA finds them in one pass, however many there are; where it has no answer, one pass for
    /// each pattern finds them.
    ///
    /// Each call allocates the set, with a flag for each pattern. The only error is that there is no memory for it;
    /// afterwards the cache serves other searches as before.
    pub fn which(
        &self,
        alloc: Global,
        cache: &mut SetCache,
        hay: &[u8],
    ) -> Result<PatternSet, AllocError>
        requires { IsSetCacheOf cache.old self.now }
        ensures found { IfOk result (λ found. (o : options.Options) (res : List Re)
            → IsMetaSetOf o res self.now → IsTextFor o hay.now → found ≡ map (is_found o.utf8 hay.now) res) }
        ensures of { IsSetCacheOf cache.new self.now }
    {
        if !self.suits_dfa(hay) {
            return self.simulate(alloc, &mut cache.simulations, hay);
        }
        match self.set.which(alloc, &mut cache.dfa, hay) {
            Ok(found) => Ok(found),
            Err(_) => self.simulate(alloc, &mut cache.simulations, hay),
        }
    }

    /// Whether some pattern matches somewhere in the haystack. The search ends with the first match.
    pub fn is_match(&self, cache: &mut SetCache, hay: &[u8]) -> bool
        requires { IsSetCacheOf cache.old self.now }
        ensures found { (o : options.Options) (res : List Re) → IsMetaSetOf o res self.now → IsTextFor o hay.now
            → result ≡ is_some (find_any o.utf8 res hay.now 0) }
        ensures of { IsSetCacheOf cache.new self.now }
    {
        if !self.suits_dfa(hay) {
            return self.programs.is_match_at(&mut cache.simulations, hay, 0);
        }
        match self.set.is_match(&mut cache.dfa, hay) {
            Ok(truth) => truth,
            Err(_) => self.programs.is_match_at(&mut cache.simulations, hay, 0),
        }
    }
}
