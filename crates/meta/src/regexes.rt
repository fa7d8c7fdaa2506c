//! Regexes that answer every pattern on every haystack.
ghost use Rattle.std.specs.Prelude.{◌≡◌, ◌≢◌, ◌≤◌, [], ◌∷◌, IfErr, IfOk, IfSome, List, Some, is_some, length, map};
ghost use Rattle.std.specs.Prelude.{MatchBool, false, option_map, string_bytes, true};
ghost use Rattle.std.specs.Option.{unwrap_or};
ghost use Rattle.regex.specs.Names.{IsIndexOf};
ghost use Rattle.regex_hir.specs.Find as kit;
ghost use Rattle.regex_hir.specs.Re.{Re};
ghost use Rattle.meaning.specs.Patterns.{find_any, numbered_match};
ghost use Rattle.patterns.specs.Faults.{IsPatternFault};
ghost use Rattle.patterns.specs.Patterns.{IsBuiltOf, IsRegexOfTexts, config_of};
ghost use Rattle.patterns.specs.Searches.{IsNextSearch, IsSpanSearch, IsTruthSearch};
ghost use Rattle.patterns.specs.declared.compile.Options as options;
ghost use Rattle.patterns.specs.declared.error.Fault.TheVariants.{Malformed, UnicodeWord};
ghost use Rattle.meta.specs.Caches.{AreRoomsOf, HaveRoomFor, IsMetaCacheOf};
ghost use Rattle.meta.specs.Captures.{HoldFound, HoldGroups, HoldMatch, HoldNothing, LieInMatch};
ghost use Rattle.meta.specs.Groups.{IsPreferredMatch};
ghost use Rattle.meta.specs.Iteration.{IsMetaNext, LiesAfter};
ghost use Rattle.meta.specs.Names.{group_names};
ghost use Rattle.meta.specs.Programs.{AreProgramsOf};
ghost use Rattle.meta.specs.Regexes.{IsMetaAnswer, IsMetaFault, IsMetaRegexOf, IsMetaRegexOfTexts, IsMadePattern};
ghost use Rattle.meta.specs.Regexes.{IsTextFor, MaySearchByDfas, MustSimulate, with_ascii};

use crate::cache::Cache;
use crate::captures::Captures;
use crate::program::Programs;
use crate::simulation::Simulation;
use patterns::{Fault, Misses, Options, Pattern, PatternError};
use regex_automata::util::primitives::PatternID;
use regex_automata::util::search::Match;
use std::alloc::{AllocError, Global};

/// One pattern, or several, that are searched for in every haystack, with the groups of their matches. A search cannot
/// fail: where the lazy DFAs have no answer, a simulation has one.
///
/// ```rust
/// let regex = Regex::new(alloc, r"\b(\w+)=(\w*)", &Options::default())?;
/// let mut cache = regex.create_cache(alloc)?;
/// let mut captures = regex.create_captures(alloc)?;
/// if let Some(_) = regex.captures(&mut cache, line, &mut captures) {
///     let key = captures.get(1);
/// }
/// ```
pub struct Regex {
    /// The pattern, whose searches find matches without their groups. If some text has a Unicode word boundary, its
    /// searches are for ASCII text.
    pub pattern: Pattern,
    pub(crate) programs: Programs,
    pub(crate) words: bool,
}

// With its own `drop`, the proof of an owner has one step for it instead of one for each part.
impl Drop for Regex {
    fn drop(self) {
        let Self {
            pattern: _pattern,
            programs: _programs,
            words: _words,
        } = self;
    }
}

/// Returns the options for ASCII text, or for any.
pub(crate) fn with_ascii(options: &Options, ascii: bool) -> Options
    ensures { result ≡ with_ascii ascii options.now }
{
    Options { ascii, ..*options }
}

/// Whether a fault is only that the lazy DFAs do not support a look.
pub(crate) fn is_look(fault: &Fault) -> bool
    ensures { result ≡ false → (fault.now ≢ UnicodeWord) × (fault.now ≢ Malformed) }
{
    matches!(fault, Fault::UnicodeWord | Fault::Malformed)
}

/// Compiles texts to a pattern for ASCII text.
fn ascii_pattern_of(
    alloc: Global,
    texts: &[&str],
    options: &Options,
) -> Result<(Pattern, bool), PatternError>
    ensures meant { IfOk result (IsMadePattern options.now (map (λ text. text.now) texts.now)) }
    ensures refused { IfErr result (IsMetaFault options.now (map (λ text. text.now) texts.now)) }
{
    match Pattern::any_of(alloc, texts, &with_ascii(options, true)) {
        Ok(pattern) => Ok((pattern, true)),
        Err(error) => Err(error),
    }
}

/// Compiles texts to a pattern for any text or, if some of them has a Unicode word boundary, for ASCII text. Returns
/// which of the two it is.
fn pattern_of(
    alloc: Global,
    texts: &[&str],
    options: &Options,
) -> Result<(Pattern, bool), PatternError>
    ensures meant { IfOk result (IsMadePattern options.now (map (λ text. text.now) texts.now)) }
    ensures refused { IfErr result (IsMetaFault options.now (map (λ text. text.now) texts.now)) }
{
    match Pattern::any_of(alloc, texts, &with_ascii(options, false)) {
        Ok(pattern) => Ok((pattern, false)),
        Err(error) if is_look(&error.fault) => ascii_pattern_of(alloc, texts, options),
        Err(error) => Err(error),
    }
}

impl Regex {
    /// Compiles a text to a regex.
    pub fn new(alloc: Global, text: &str, options: &Options) -> Result<Regex, PatternError>
        ensures meant { IfOk result (IsMetaRegexOfTexts options.now (text.now ∷ [])) }
        ensures built { IfOk result (λ regex.
            IsBuiltOf (with_ascii regex.words options.now) (text.now ∷ []) regex.pattern.regex) }
        ensures programs { IfOk result (λ regex.
            AreProgramsOf (config_of options.now) (text.now ∷ []) regex.programs.list.items) }
        ensures refused { IfErr result (IsMetaFault options.now (text.now ∷ [])) }
    {
        Regex::any_of(alloc, &[text], options)
    }

    /// Compiles texts to one regex, each numbered by its position in the list. The groups of each are numbered from 1
    /// on. `Options::ascii` has no effect.
    pub fn any_of(alloc: Global, texts: &[&str], options: &Options) -> Result<Regex, PatternError>
        ensures meant { IfOk result (IsMetaRegexOfTexts options.now (map (λ text. text.now) texts.now)) }
        ensures built { IfOk result (λ regex.
            IsBuiltOf (with_ascii regex.words options.now) (map (λ text. text.now) texts.now) regex.pattern.regex) }
        ensures programs { IfOk result (λ regex.
            AreProgramsOf (config_of options.now) (map (λ text. text.now) texts.now) regex.programs.list.items) }
        ensures refused { IfErr result (IsMetaFault options.now (map (λ text. text.now) texts.now)) }
    {
        let programs = Programs::new(alloc, texts, &with_ascii(options, true))?;
        match pattern_of(alloc, texts, options) {
            Ok((pattern, words)) => Ok(Regex {
                pattern,
                programs,
                words,
            }),
            Err(error) => Err(error),
        }
    }

    /// Returns new memory for searches.
    pub fn create_cache(&self, alloc: Global) -> Result<Cache, AllocError>
        ensures { IfOk result (λ cache. IsMetaCacheOf cache self.now) }
    {
        let simulations = self.programs.create_simulations(alloc)?;
        match self.pattern.create_cache() {
            Ok(dfas) => Ok(Cache { dfas, simulations }),
            Err(error) => Err(error),
        }
    }

    /// Returns memory for `groups_of`, beside that of a cache.
    pub fn create_simulations(&self, alloc: Global) -> Result<Vec<Simulation>, AllocError>
        ensures { IfOk result (λ simulations. AreRoomsOf simulations.items self.now.programs.list.items) }
    {
        self.programs.create_simulations(alloc)
    }

    /// Returns captures with room for the groups of each pattern. They are empty.
    pub fn create_captures(&self, alloc: Global) -> Result<Captures, AllocError>
        ensures room { IfOk result (λ captures. HaveRoomFor captures self.now.programs) }
        ensures empty { IfOk result HoldNothing }
    {
        self.programs.create_captures(alloc)
    }

    /// Whether the lazy DFAs may search the haystack. If some text has a Unicode word boundary, this reads all of the
    /// haystack that is ASCII.
    pub(crate) fn suits_dfas(&self, hay: &[u8]) -> bool
        ensures { MatchBool result (MaySearchByDfas self.now hay.now) (MustSimulate self.now hay.now) }
    {
        !self.words || hay.is_ascii()
    }

    /// Whether some part of the haystack is a match. It tests the haystack as `find` does.
    pub fn is_match(&self, cache: &mut Cache, hay: &[u8]) -> bool
        requires { IsMetaCacheOf cache.old self.now }
        ensures found { (o : options.Options) (res : List Re) → IsMetaRegexOf o res self.now → IsTextFor o hay.now
            → result ≡ is_some (find_any o.utf8 res hay.now 0) }
        ensures searched { IsMetaAnswer self.now hay.now cache.old.dfas cache.new.dfas
            (IsTruthSearch self.now.pattern hay.now 0 cache.old.dfas cache.new.dfas) result }
        ensures of { IsMetaCacheOf cache.new self.now }
    {
        self.is_match_at(cache, hay, 0)
    }

    /// Whether a match begins at `start` or later. It tests the haystack as `find` does.
    pub fn is_match_at(&self, cache: &mut Cache, hay: &[u8], start: usize) -> bool
        requires of { IsMetaCacheOf cache.old self.now }
        requires within { start ≤ length hay.now }
        ensures found { (o : options.Options) (res : List Re) → IsMetaRegexOf o res self.now → IsTextFor o hay.now
            → result ≡ is_some (find_any o.utf8 res hay.now start) }
        ensures searched { IsMetaAnswer self.now hay.now cache.old.dfas cache.new.dfas
            (IsTruthSearch self.now.pattern hay.now start cache.old.dfas cache.new.dfas) result }
        ensures of { IsMetaCacheOf cache.new self.now }
    {
        if !self.suits_dfas(hay) {
            return self
                .programs
                .is_match_at(&mut cache.simulations, hay, start);
        }
        match self.pattern.is_match_at(&mut cache.dfas, hay, start) {
            Ok(truth) => truth,
            Err(_) => self
                .programs
                .is_match_at(&mut cache.simulations, hay, start),
        }
    }

    /// Returns the leftmost match of the haystack; of several that begin at one offset, the one that the regex prefers.
    ///
    /// If some text has a Unicode word boundary, each call first tests whether the whole haystack is ASCII. To find all
    /// matches, call `find_iter`, which tests it once.
    pub fn find(&self, cache: &mut Cache, hay: &[u8]) -> Option<Match>
        requires { IsMetaCacheOf cache.old self.now }
        ensures found { (o : options.Options) (res : List Re) → IsMetaRegexOf o res self.now → IsTextFor o hay.now
            → result ≡ option_map (numbered_match res hay.now) (find_any o.utf8 res hay.now 0) }
        ensures within { IfSome result (λ m. m.end ≤ length hay.now) }
        ensures searched { IsMetaAnswer self.now hay.now cache.old.dfas cache.new.dfas
            (IsSpanSearch self.now.pattern hay.now 0 cache.old.dfas cache.new.dfas) result }
        ensures of { IsMetaCacheOf cache.new self.now }
    {
        self.find_at(cache, hay, 0)
    }

    /// Returns the leftmost match that begins at `start` or later; of those that begin there, the one that the regex
    /// prefers. It tests the whole haystack as `find` does, not only from `start` on.
    pub fn find_at(&self, cache: &mut Cache, hay: &[u8], start: usize) -> Option<Match>
        requires of { IsMetaCacheOf cache.old self.now }
        requires within { start ≤ length hay.now }
        ensures found { (o : options.Options) (res : List Re) → IsMetaRegexOf o res self.now → IsTextFor o hay.now
            → result ≡ option_map (numbered_match res hay.now) (find_any o.utf8 res hay.now start) }
        ensures within { IfSome result (λ m. (start ≤ m.start) × (m.end ≤ length hay.now)) }
        ensures searched { IsMetaAnswer self.now hay.now cache.old.dfas cache.new.dfas
            (IsSpanSearch self.now.pattern hay.now start cache.old.dfas cache.new.dfas) result }
        ensures of { IsMetaCacheOf cache.new self.now }
    {
        if !self.suits_dfas(hay) {
            return self.programs.find_at(&mut cache.simulations, hay, start);
        }
        match self.pattern.find_at(&mut cache.dfas, hay, start) {
            Ok(found) => found,
            Err(_) => self.programs.find_at(&mut cache.simulations, hay, start),
        }
    }

    /// Returns the match after one that ended at `last`, which is not an empty match there; the first match if `last` is
    /// none. The lazy DFAs may search only if the flag is true.
    pub(crate) fn next_match(
        &self,
        cache: &mut Cache,
        hay: &[u8],
        last: Option<usize>,
        by_dfas: bool,
        misses: &mut Misses,
    ) -> Option<Match>
        requires of { IsMetaCacheOf cache.old self.now }
        requires within { unwrap_or last 0 ≤ length hay.now }
        requires dfas { by_dfas ≡ true → MaySearchByDfas self.now hay.now }
        ensures found { IsMetaNext self.now hay.now last result }
        ensures past { IfSome result (LiesAfter hay.now last) }
        ensures of { IsMetaCacheOf cache.new self.now }
    {
        if !by_dfas {
            return self.programs.next_match(&mut cache.simulations, hay, last);
        }
        match self.pattern.next_match(&mut cache.dfas, hay, last, misses) {
            Ok(found) => found,
            Err(_) => self.programs.next_match(&mut cache.simulations, hay, last),
        }
    }

    /// Finds the groups of a match that a search of the regex returned, or one of the pattern.
    pub fn groups_of(
        &self,
        simulations: &mut [Simulation],
        hay: &[u8],
        found: &Match,
        captures: &mut Captures,
    )
        requires rooms { AreRoomsOf simulations.old self.now.programs.list.items }
        requires room { HaveRoomFor captures.old self.now.programs }
        requires within { found.now.end ≤ length hay.now }
        ensures found { captures.new.found ≡ Some found.now }
        ensures groups { (o : options.Options) (res : List Re) (m : kit.Match) → IsMetaRegexOf o res self.now
            → IsPreferredMatch res hay.now m → found.now ≡ numbered_match res hay.now m → HoldGroups m captures.new }
        ensures within { LieInMatch found.now captures.new }
        ensures rooms { AreRoomsOf simulations.new self.now.programs.list.items }
        ensures room { HaveRoomFor captures.new self.now.programs }
    {
        self.programs.groups_of(simulations, hay, found, captures);
    }

    /// Returns the match that `find` returns, and stores it with its groups in the captures. If there is no match, the
    /// captures are empty.
    pub fn captures(&self, cache: &mut Cache, hay: &[u8], captures: &mut Captures) -> Option<Match>
        requires of { IsMetaCacheOf cache.old self.now }
        requires room { HaveRoomFor captures.old self.now.programs }
        ensures found { (o : options.Options) (res : List Re) → IsMetaRegexOf o res self.now → IsTextFor o hay.now
            → result ≡ option_map (numbered_match res hay.now) (find_any o.utf8 res hay.now 0) }
        ensures groups { (o : options.Options) (res : List Re) → IsMetaRegexOf o res self.now → IsTextFor o hay.now
            → HoldFound (find_any o.utf8 res hay.now 0) captures.new }
        ensures stored { HoldMatch result captures.new }
        ensures within { IfSome result (λ m. m.end ≤ length hay.now) }
        ensures searched { IsMetaAnswer self.now hay.now cache.old.dfas cache.new.dfas
            (IsSpanSearch self.now.pattern hay.now 0 cache.old.dfas cache.new.dfas) result }
        ensures of { IsMetaCacheOf cache.new self.now }
        ensures room { HaveRoomFor captures.new self.now.programs }
    {
        self.captures_at(cache, hay, 0, captures)
    }

    /// Returns the match that `find_at` returns, and stores it with its groups in the captures. If there is no match,
    /// the captures are empty.
    pub fn captures_at(
        &self,
        cache: &mut Cache,
        hay: &[u8],
        start: usize,
        captures: &mut Captures,
    ) -> Option<Match>
        requires of { IsMetaCacheOf cache.old self.now }
        requires room { HaveRoomFor captures.old self.now.programs }
        requires within { start ≤ length hay.now }
        ensures found { (o : options.Options) (res : List Re) → IsMetaRegexOf o res self.now → IsTextFor o hay.now
            → result ≡ option_map (numbered_match res hay.now) (find_any o.utf8 res hay.now start) }
        ensures groups { (o : options.Options) (res : List Re) → IsMetaRegexOf o res self.now → IsTextFor o hay.now
            → HoldFound (find_any o.utf8 res hay.now start) captures.new }
        ensures stored { HoldMatch result captures.new }
        ensures within { IfSome result (λ m. (start ≤ m.start) × (m.end ≤ length hay.now)) }
        ensures searched { IsMetaAnswer self.now hay.now cache.old.dfas cache.new.dfas
            (IsSpanSearch self.now.pattern hay.now start cache.old.dfas cache.new.dfas) result }
        ensures of { IsMetaCacheOf cache.new self.now }
        ensures room { HaveRoomFor captures.new self.now.programs }
    {
        let Some(found) = self.find_at(cache, hay, start) else {
            captures.clear();
            return None;
        };
        self.programs
            .groups_of(&mut cache.simulations, hay, &found, captures);
        Some(found)
    }

    /// Returns the name of each group of a pattern, from group 0 on, which has none. If there is no such pattern, the
    /// list is empty.
    pub fn group_names(&self, pattern: PatternID) -> &[Option<String>]
        ensures { map (option_map string_bytes) result.now ≡ group_names self.now.programs pattern }
    {
        self.programs.group_names(pattern)
    }

    /// Returns the number of groups of a pattern, group 0 included, or 0 if there is no such pattern.
    pub fn group_len(&self, pattern: PatternID) -> usize
        ensures { result ≡ length (group_names self.now.programs pattern) }
    {
        self.programs.group_len(pattern)
    }

    /// Returns the number of the group of a pattern that has this name, or none if no group has it.
    pub fn group_index(&self, pattern: PatternID, name: &str) -> Option<usize>
        ensures { IsIndexOf (group_names self.now.programs pattern) name.now result }
    {
        self.programs.group_index(pattern, name)
    }
}
