//! Patterns to search for.
ghost use Rattle.std.specs.Prelude.{◌≡◌, ◌<◌, ◌≤◌, ℕ, Bool, List, [], ◌∷◌, None, Some, IfErr, IfOk, IfSome};
ghost use Rattle.std.specs.Prelude.{is_some};
ghost use Rattle.std.specs.Prelude.{false, length, map, option_map, true};
ghost use Rattle.std.specs.Option.{unwrap_or};
ghost use Rattle.regex_hir.specs.Re.{Re};
ghost use Rattle.regex_automata.specs.Spans.Iteration.{GoesPast};
ghost use Rattle.regex_automata.specs.Spans.Outcomes.{MatchLiesIn};
ghost use Rattle.automata_base.specs.Haystacks.Input.{IsValidInput};
ghost use Rattle.automata_config.specs.Options.{overwritten, unset};
ghost use Rattle.automata_base.specs.Answers.Spans.{IsSpan};
ghost use Rattle.regex_automata.specs.Promises.{AreCachesOf, IsSoundPair, LeftmostFirst, forward_engine};
ghost use Rattle.regex_automata.specs.Regexes.Builds.{BuildsOne, IsBuildError};
ghost use Rattle.regex_automata.specs.Regexes.Caches.{AreFresh};
ghost use Rattle.meaning.specs.Patterns.{end_of, find_any, numbered_match, span_input};
ghost use Rattle.prefilters.specs.FirstBytes.{BeginsAtFirstByte};
ghost use Rattle.prefilters.specs.Needles.{BeginsNearNeedle, NearNeedles};
ghost use Rattle.prefilters.specs.Skipping.{IsLazy};
ghost use Rattle.patterns.specs.Faults.{IsPatternFault};
ghost use Rattle.patterns.specs.Patterns.{IsBuiltOf, IsFor, IsJoinedNfa, IsNfaOf, IsRegexOfTexts, IsRegexOf};
ghost use Rattle.patterns.specs.Patterns.{settings_of, settings_with};
ghost use Rattle.patterns.specs.declared.compile.Options as options;

use crate::attempts::{Attempt, Misses, find_at, is_full_search, pays};
use crate::compile::{Options, nfa_of};
use crate::error::{Fault, PatternError};
use crate::needles::prefilter_of;
use prefilters::{FirstBytes, Prefilter};
use regex_automata::hybrid::SearchError;
use regex_automata::hybrid::dfa::Config;
use regex_automata::hybrid::regex::{Cache, Regex, RegexBuildError};
use regex_automata::laws::{matches_are_spans, spans_follow};
use regex_automata::nfa::thompson::NFA;
use regex_automata::util::search::{Anchored, HalfMatch, Input, Match, MatchKind};
use std::alloc::{AllocError, Global};

/// One pattern, or several. Of several patterns, a match belongs to the first one that matches where it begins, and has
/// that pattern's number.
///
/// If every match begins with one of a few literals, the needles, searches begin at the first of them in the haystack.
/// An iteration over matches also looks for the next match where the first byte is that can begin one, by an anchored
/// search, which needs no reverse search.
pub struct Pattern {
    /// The regex that searches for it. Its own searches use no needles.
    pub regex: Regex,
    prefilter: Option<Prefilter>,
    first_bytes: Option<FirstBytes>,
    attempts: bool,
    ghost begins: { (near : NearNeedles) → prefilter ≡ Some near
        → BeginsNearNeedle (forward_engine regex) near },
    ghost first: { (table : List Bool) → first_bytes ≡ Some table
        → BeginsAtFirstByte (forward_engine regex) table },
}

// With its own `drop`, the proof of an owner has one step for it instead of one for each part.
impl Drop for Pattern {
    fn drop(self) {
        let Self {
            regex: _regex,
            prefilter: _prefilter,
            first_bytes: _first_bytes,
            attempts: _attempts,
        } = self;
    }
}

/// Builds the regex of an NFA, with the settings of its DFAs.
fn regex_of(nfa: NFA, config: Config) -> Result<Regex, RegexBuildError>
    ensures sound { IfOk result IsSoundPair }
    ensures built { IfOk result (BuildsOne (overwritten unset config) nfa) }
    ensures refused { IfErr result (IsBuildError (overwritten unset config) nfa) }
{
    let mut builder = Regex::builder();
    builder.dfa(config);
    builder.build_from_nfa(nfa)
}

/// Whether unanchored searches of the forward DFA skip bytes lazily, and do not all begin anchored.
fn is_lazy(regex: &Regex) -> bool
    ensures { result ≡ true → IsLazy (forward_engine regex.now) }
{
    let nfa = regex.forward().get_nfa();
    nfa.skips_lazily() && !nfa.is_always_start_anchored()
}

/// Whether the forward DFA has the match kind `MatchKind::LeftmostFirst`.
fn is_leftmost_first(regex: &Regex) -> bool
    ensures { result ≡ true → (forward_engine regex.now).kind ≡ LeftmostFirst }
{
    match regex.forward().get_config().get_match_kind() {
        MatchKind::LeftmostFirst => true,
        MatchKind::All => false,
    }
}

/// Whether an anchored search finds the match where the first one begins: the match kind is
/// `MatchKind::LeftmostFirst`, and unanchored searches skip bytes lazily.
fn finds_starts(regex: &Regex) -> bool
    ensures lazy { result ≡ true → IsLazy (forward_engine regex.now) }
    ensures kind { result ≡ true → (forward_engine regex.now).kind ≡ LeftmostFirst }
{
    is_leftmost_first(regex) && is_lazy(regex)
}

/// Whether the forward DFA may have quit bytes, at which a search stops: those of its settings, or every byte beyond ASCII
/// for a Unicode word boundary.
fn may_quit(regex: &Regex) -> bool {
    let config = regex.forward().get_config();
    config.get_unicode_word_boundary() || (0..=u8::MAX).any(|byte| config.get_quit(byte))
}

/// Whether a search for needles may pay: matches begin with one of at most 16 bytes. With more of them there are too
/// many needles.
fn may_have_needles(regex: &Regex) -> bool {
    match FirstBytes::new(regex.forward().get_nfa()) {
        Ok(Some(bytes)) => bytes.count() <= 16,
        _ => false,
    }
}

/// Whether a search may skip offsets at which no match begins: it is unanchored, and its span is not done.
fn may_skip(input: &Input<'_>) -> bool
    ensures free { result ≡ true → input.now.anchored ≡ Anchored.No }
    ensures undone { result ≡ true → input.now.start ≤ input.now.end }
{
    matches!(input.get_anchored(), Anchored::No) && !input.is_done()
}

/// Returns the input for the haystack from an offset on.
fn rest<'h>(hay: &'h [u8], start: usize) -> Input<'h>
    requires { start ≤ length hay.now }
    ensures input { result ≡ span_input hay.now start (length hay.now) }
    ensures valid { IsValidInput result }
{
    Input::new(hay).range(start..hay.len())
}

impl Pattern {
    ghost use Rattle.patterns.specs.Iteration.{IsNextMeant, rest_of};
    ghost use Rattle.automata_hybrid.specs.Searches.Passes.{Skips};
    ghost use Rattle.prefilters.specs.Skipping.{IsNextBegin};
    ghost use Rattle.patterns.specs.Attempts.{AreLaterRuns, BeginsLater, IfFound, IfNothing, IsFullSearch};
    ghost use Rattle.patterns.specs.Searches.{IsAttempt, IsCandidate, IsEndSearch, IsNarrowed, IsNextSearch};
    ghost use Rattle.patterns.specs.Searches.{IsSpanSearch, IsTruthSearch};

    /// Compiles a text to a pattern.
    pub fn new(alloc: Global, text: &str, options: &Options) -> Result<Pattern, PatternError>
        ensures meant { IfOk result (λ pattern. IsRegexOfTexts options.now (text.now ∷ []) pattern.regex) }
        ensures built { IfOk result (λ pattern. IsBuiltOf options.now (text.now ∷ []) pattern.regex) }
        ensures refused { IfErr result (IsPatternFault options.now (text.now ∷ [])) }
    {
        Pattern::any_of(alloc, &[text], options)
    }

    /// Compiles texts to patterns, each numbered by its position in the list.
    pub fn any_of(alloc: Global, texts: &[&str], options: &Options) -> Result<Pattern, PatternError>
        ensures meant { IfOk result (λ pattern.
            IsRegexOfTexts options.now (map (λ text. text.now) texts.now) pattern.regex) }
        ensures built { IfOk result (λ pattern.
            IsBuiltOf options.now (map (λ text. text.now) texts.now) pattern.regex) }
        ensures refused { IfErr result (IsPatternFault options.now (map (λ text. text.now) texts.now)) }
    {
        let nfa = nfa_of(alloc, texts, options)?;
        match Pattern::from_nfa(nfa, options) {
            Ok(mut pattern) => {
                pattern.begin_at_needles(alloc, texts, options);
                pattern.try_first_bytes();
                Ok(pattern)
            }
            Err(error) => {
                let fault = Fault::Unbuilt(error);
                Err(PatternError { number: 0, fault })
            }
        }
    }

    /// Builds patterns from an NFA that `nfa_of` returned for these options. It fails if no regex can be built from it.
    pub fn from_nfa(nfa: NFA, options: &Options) -> Result<Pattern, RegexBuildError>
        ensures meant { IfOk result (λ pattern. (res : List Re) → IsJoinedNfa options.now res nfa
            → IsRegexOf options.now res pattern.regex) }
        ensures built { IfOk result (λ pattern. BuildsOne (settings_of options.now) nfa pattern.regex) }
        ensures refused { IfErr result (IsBuildError (settings_of options.now) nfa) }
    {
        let config = options.dfa_config();
        let regex = regex_of(nfa, config)?;
        Ok(Pattern {
            regex,
            prefilter: None,
            first_bytes: None,
            attempts: false,
        })
    }

    /// Builds patterns as `from_nfa` does, but with settings of your own: for example what its caches may take, and
    /// when a search gives up. The match kind is `MatchKind::LeftmostFirst`, and the options decide about Unicode word
    /// boundaries, whatever the settings say about these two. The capacity is that of the settings: begin with
    /// `Options::dfa_config` to keep that of the options.
    pub fn from_nfa_with(
        nfa: NFA,
        options: &Options,
        config: Config,
    ) -> Result<Pattern, RegexBuildError>
        ensures meant { IfOk result (λ pattern. (res : List Re) → IsJoinedNfa options.now res nfa
            → IsRegexOf options.now res pattern.regex) }
        ensures built { IfOk result (λ pattern. BuildsOne (settings_with config options.now) nfa pattern.regex) }
        ensures refused { IfErr result (IsBuildError (settings_with config options.now) nfa) }
    {
        let config = config
            .match_kind(MatchKind::LeftmostFirst)
            .unicode_word_boundary(options.ascii);
        let regex = regex_of(nfa, config)?;
        Ok(Pattern {
            regex,
            prefilter: None,
            first_bytes: None,
            attempts: false,
        })
    }

    /// Makes a pattern of a regex. Its searches use no needles.
    pub fn from_regex(regex: Regex) -> Pattern
        ensures regex { result.regex ≡ regex }
        ensures plain { result.prefilter ≡ None }
        ensures bytes { result.first_bytes ≡ None }
        ensures waits { result.attempts ≡ false }
    {
        Pattern {
            regex,
            prefilter: None,
            first_bytes: None,
            attempts: false,
        }
    }

    /// Lets iterations attempt to find each match at once: at the needles of the pattern or, if it has none, by the bytes
    /// with which matches begin. They do without if the match kind is `MatchKind::All`, an empty match is possible,
    /// matches begin only at the start of a haystack, searches stop at quit bytes, or memory runs out.
    ///
    /// The reverse DFA must find the starts of the matches that the forward DFA finds, as it does in a regex that was
    /// built from one NFA.
    pub fn try_first_bytes(&mut self)
        ensures regex { self.new.regex ≡ self.old.regex }
        ensures prefilter { self.new.prefilter ≡ self.old.prefilter }
    {
        if finds_starts(&self.regex) && !may_quit(&self.regex) {
            self.attempts = true;
            if !self.begins_at_needles() {
                if let Ok(bytes) = FirstBytes::new(self.regex.forward().get_nfa()) {
                    self.first_bytes = bytes;
                }
            }
        }
    }

    /// Whether matches begin at the needles, and not only near them.
    fn begins_at_needles(&self) -> bool {
        match &self.prefilter {
            Some(prefilter) => prefilter.is_at_start(),
            None => false,
        }
    }

    /// Lets searches begin at the needles of texts, if a search for needles pays. The forward DFA must be built from
    /// the NFA that `nfa_of` returned for these texts and options; its match kind, and the reverse DFA, may be any.
    ///
    /// There are no needles if matches can begin with more than 16 bytes, if offsets inside characters are skipped, if
    /// searches stop at quit bytes, or if memory runs out.
    pub fn begin_at_needles(&mut self, alloc: Global, texts: &[&str], options: &Options)
        requires { IsNfaOf options.now (map (λ text. text.now) texts.now) self.old.regex.forward.nfa }
        ensures regex { self.new.regex ≡ self.old.regex }
        ensures attempts { self.new.attempts ≡ self.old.attempts }
    {
        let regex = &self.regex;
        if !regex.forward().skips() && !may_quit(regex) {
            self.prefilter = prefilter_of(alloc, texts, options, may_have_needles(regex));
        }
    }

    /// Returns the input from the first needle on, where a search finds what it finds in the given input; none if no
    /// match begins in its span, not even at its end. The given input is returned if it is anchored or done, or if the
    /// pattern has no needles or is only searched for anchored.
    ///
    /// No more of the haystack is read than the span and a needle that begins in it.
    pub fn narrow<'h>(&self, input: &Input<'h>) -> Option<Input<'h>>
        ensures narrowed { IsNarrowed self.now input.now result }
        ensures valid { IfSome result IsValidInput }
    {
        let mut narrowed = input.copied();
        match &self.prefilter {
            Some(prefilter) if may_skip(input) && is_lazy(&self.regex) => {
                let Some(at) = prefilter.skip(input.haystack(), input.start(), input.end()) else {
                    return None;
                };
                narrowed.set_start(at);
                Some(narrowed)
            }
            _ => Some(narrowed),
        }
    }

    /// Returns a new cache for searches, which serves one search after another.
    pub fn create_cache(&self) -> Result<Cache, AllocError>
        ensures of { IfOk result (λ cache. AreCachesOf cache self.now.regex) }
        ensures fresh { IfOk result (AreFresh self.now.regex) }
    {
        self.regex.create_cache()
    }

    /// Whether some part of the haystack is a match.
    pub fn is_match(&self, cache: &mut Cache, hay: &[u8]) -> Result<bool, SearchError>
        requires { AreCachesOf cache.old self.now.regex }
        ensures of { AreCachesOf cache.new self.now.regex }
        ensures searched { IsTruthSearch self.now hay.now 0 cache.old cache.new result }
        ensures found { IfOk result (λ truth. (o : options.Options) (res : List Re)
            → IsRegexOf o res self.now.regex → IsFor o hay.now
            → truth ≡ is_some (find_any o.utf8 res hay.now 0)) }
    {
        self.is_match_at(cache, hay, 0)
    }

    /// Whether a match begins at `start` or later.
    pub fn is_match_at(
        &self,
        cache: &mut Cache,
        hay: &[u8],
        start: usize,
    ) -> Result<bool, SearchError>
        requires of { AreCachesOf cache.old self.now.regex }
        requires within { start ≤ length hay.now }
        ensures of { AreCachesOf cache.new self.now.regex }
        ensures searched { IsTruthSearch self.now hay.now start cache.old cache.new result }
        ensures found { IfOk result (λ truth. (o : options.Options) (res : List Re)
            → IsRegexOf o res self.now.regex → IsFor o hay.now
            → truth ≡ is_some (find_any o.utf8 res hay.now start)) }
    {
        let left = rest(hay, start);
        let Some(input) = self.narrow(&left) else {
            return Ok(false);
        };
        self.regex.is_match(cache, &input)
    }

    /// Returns the leftmost match of the haystack; of several that begin at one offset, the one that the pattern prefers.
    pub fn find(&self, cache: &mut Cache, hay: &[u8]) -> Result<Option<Match>, SearchError>
        requires { AreCachesOf cache.old self.now.regex }
        ensures of { AreCachesOf cache.new self.now.regex }
        ensures searched { IsSpanSearch self.now hay.now 0 cache.old cache.new result }
        ensures found { IfOk result (λ found. (o : options.Options) (res : List Re)
            → IsRegexOf o res self.now.regex → IsFor o hay.now
            → found ≡ option_map (numbered_match res hay.now) (find_any o.utf8 res hay.now 0)) }
    {
        self.find_at(cache, hay, 0)
    }

    /// Returns the leftmost match that begins at `start` or later; of those that begin there, the one that the pattern
    /// prefers.
    pub fn find_at(
        &self,
        cache: &mut Cache,
        hay: &[u8],
        start: usize,
    ) -> Result<Option<Match>, SearchError>
        requires of { AreCachesOf cache.old self.now.regex }
        requires within { start ≤ length hay.now }
        ensures of { AreCachesOf cache.new self.now.regex }
        ensures searched { IsSpanSearch self.now hay.now start cache.old cache.new result }
        ensures found { IfOk result (λ found. (o : options.Options) (res : List Re)
            → IsRegexOf o res self.now.regex → IsFor o hay.now
            → found ≡ option_map (numbered_match res hay.now) (find_any o.utf8 res hay.now start)) }
    {
        let searched = rest(hay, start);
        let Some(input) = self.narrow(&searched) else {
            return Ok(None);
        };
        self.regex.find(cache, &input)
    }

    /// Returns the end and the pattern of the match that `find` returns. It searches with the forward DFA alone, so it
    /// costs less than `find`, and returns the errors of that search. Rust's regex crate may return an earlier end.
    pub fn shortest_match(
        &self,
        cache: &mut Cache,
        hay: &[u8],
    ) -> Result<Option<HalfMatch>, SearchError>
        requires { AreCachesOf cache.old self.now.regex }
        ensures of { AreCachesOf cache.new self.now.regex }
        ensures searched { IsEndSearch self.now hay.now 0 cache.old cache.new result }
        ensures found { IfOk result (λ found. (o : options.Options) (res : List Re)
            → IsRegexOf o res self.now.regex → IsFor o hay.now
            → found ≡ option_map (end_of res hay.now) (find_any o.utf8 res hay.now 0)) }
        ensures reverse { cache.new.reverse ≡ cache.old.reverse }
    {
        self.shortest_match_at(cache, hay, 0)
    }

    /// Returns the end and the pattern of the match that `find_at` returns, as `shortest_match` does.
    pub fn shortest_match_at(
        &self,
        cache: &mut Cache,
        hay: &[u8],
        start: usize,
    ) -> Result<Option<HalfMatch>, SearchError>
        requires of { AreCachesOf cache.old self.now.regex }
        requires within { start ≤ length hay.now }
        ensures of { AreCachesOf cache.new self.now.regex }
        ensures searched { IsEndSearch self.now hay.now start cache.old cache.new result }
        ensures found { IfOk result (λ found. (o : options.Options) (res : List Re)
            → IsRegexOf o res self.now.regex → IsFor o hay.now
            → found ≡ option_map (end_of res hay.now) (find_any o.utf8 res hay.now start)) }
        ensures reverse { cache.new.reverse ≡ cache.old.reverse }
    {
        let left = rest(hay, start);
        let Some(input) = self.narrow(&left) else {
            return Ok(None);
        };
        self.regex
            .forward()
            .try_search_fwd(cache.forward_mut(), &input)
    }

    /// Returns the first offset of the span where a match can begin, if that is near the start, by the bytes with which
    /// matches begin. If the pattern has needles in place of them, it is the start, to which `narrow` moves the input.
    #[inline(always)]
    fn candidate(&self, input: &Input<'_>) -> Option<usize>
        requires full { IsFullSearch input.now }
        requires lazy { IsLazy (forward_engine self.now.regex) }
        ensures { IfSome result (IsCandidate self.now input.now) }
    {
        match &self.first_bytes {
            Some(bytes) => bytes.find(input.haystack(), input.start(), input.end()),
            None if self.prefilter.is_some() => Some(input.start()),
            None => None,
        }
    }

    /// Whether attempts go from needle to needle: matches begin at the needles, and no offset is skipped.
    fn tries_needles(&self) -> bool
        ensures { result ≡ true → Skips self.now.regex.forward → ⊥ }
    {
        self.first_bytes.is_none() && self.begins_at_needles() && !self.regex.forward().skips()
    }

    /// Returns the first needle after an offset, where the next match may begin; none if no needle is left, or the
    /// pattern has none.
    fn next_needle(&self, input: &Input<'_>, at: usize) -> Option<usize>
        ensures { IfSome result (IsNextBegin (forward_engine self.now.regex) input.now at) }
    {
        match &self.prefilter {
            Some(prefilter) if at < input.end() => {
                prefilter.skip(input.haystack(), at + 1, input.end())
            }
            _ => None,
        }
    }

    /// Makes another attempt at the next needle after an offset up to which no match begins, unless it is too near, after
    /// this number of attempts since `first`.
    fn attempt_after(
        &self,
        cache: &mut Cache,
        input: &Input<'_>,
        at: usize,
        first: usize,
        attempts: usize,
    ) -> Attempt
        requires caches { AreCachesOf cache.old self.now.regex }
        requires past { BeginsLater self.now.regex input.now at }
        requires plain { Skips self.now.regex.forward → ⊥ }
        requires kind { (forward_engine self.now.regex).kind ≡ LeftmostFirst }
        requires full { IsFullSearch input.now }
        ensures of { AreCachesOf cache.new self.now.regex }
        ensures span { IfFound result (λ m. IsSoundPair self.now.regex
            → IsSpan (forward_engine self.now.regex) input.now (Some m)) }
        ensures within { IfFound result (λ m. MatchLiesIn self.now.regex input.now m × (m.start < m.end)) }
        ensures none { IfNothing result (BeginsLater self.now.regex input.now) }
        ensures run { AreLaterRuns self.now.regex input.now cache.old cache.new }
    {
        match self.next_needle(input, at) {
            Some(next) if pays(next.saturating_sub(first), attempts) => {
                find_at(&self.regex, cache, input, next)
            }
            _ => Attempt::Unknown,
        }
    }

    /// Makes further attempts, from needle to needle, after one at `first`, up to which no match begins.
    fn find_later(
        &self,
        cache: &mut Cache,
        input: &Input<'_>,
        first: usize,
        misses: &mut Misses,
    ) -> Option<Match>
        requires caches { AreCachesOf cache.old self.now.regex }
        requires past { BeginsLater self.now.regex input.now first }
        requires plain { Skips self.now.regex.forward → ⊥ }
        requires kind { (forward_engine self.now.regex).kind ≡ LeftmostFirst }
        requires full { IsFullSearch input.now }
        ensures of { AreCachesOf cache.new self.now.regex }
        ensures span { IfSome result (λ m. IsSoundPair self.now.regex
            → IsSpan (forward_engine self.now.regex) input.now (Some m)) }
        ensures within { IfSome result (λ m. MatchLiesIn self.now.regex input.now m × (m.start < m.end)) }
        ensures run { AreLaterRuns self.now.regex input.now cache.old cache.new }
    {
        let mut at = first;
        for attempts in 1..usize::MAX {
            match self.attempt_after(cache, input, at, first, attempts) {
                Attempt::Found(found) => {
                    misses.count_match();
                    return Some(found);
                }
                Attempt::Nothing(next) => at = next,
                Attempt::Unknown => {
                    misses.count_failure();
                    return None;
                }
            }
        }
        None
    }

    /// Attempts to find the match of the input at once: by an anchored search from the first offset where a match can
    /// begin, if that is near the start of the span. If no match begins there, further searches from the next needles
    /// follow, while these are far apart. The match is not empty. If this returns none, nothing is known, and the input
    /// is yet to be searched. If the pattern has needles, the input is to be one that `narrow` returned.
    /// Patterns make no attempt unless `try_first_bytes` lets them.
    ///
    /// The attempts of an iteration share the count of misses, which also decides whether one is made.
    #[inline(always)]
    pub fn find_at_once(
        &self,
        cache: &mut Cache,
        input: &Input<'_>,
        misses: &mut Misses,
    ) -> Option<Match>
        requires { AreCachesOf cache.old self.now.regex }
        ensures of { AreCachesOf cache.new self.now.regex }
        ensures allowed { IfSome result (λ _. self.now.attempts ≡ true) }
        ensures span { IfSome result (λ m. IsSoundPair self.now.regex
            → IsSpan (forward_engine self.now.regex) input.now (Some m)) }
        ensures within { IfSome result (λ m. MatchLiesIn self.now.regex input.now m × (m.start < m.end)) }
        ensures attempt { IsAttempt self.now input.now cache.old cache.new }
    {
        if !self.attempts
            || !misses.allow_attempt()
            || !is_full_search(input)
            || !finds_starts(&self.regex)
        {
            return None;
        }
        let Some(start) = self.candidate(input) else {
            misses.count_gap();
            return None;
        };
        match find_at(&self.regex, cache, input, start) {
            Attempt::Found(found) => {
                misses.count_match();
                Some(found)
            }
            Attempt::Nothing(at) if self.tries_needles() => self.find_later(
                cache, input, at, misses,
            ),
            _ => {
                misses.count_failure();
                None
            }
        }
    }

    /// Returns the match after one that ended at `last`, which is not an empty match there; the first match if `last`
    /// is none. The searches of an iteration share the count of misses.
    pub fn next_match(
        &self,
        cache: &mut Cache,
        hay: &[u8],
        last: Option<usize>,
        misses: &mut Misses,
    ) -> Result<Option<Match>, SearchError>
        requires of { AreCachesOf cache.old self.now.regex }
        requires within { unwrap_or last 0 ≤ length hay.now }
        ensures of { AreCachesOf cache.new self.now.regex }
        ensures found { IfOk result (IsNextMeant self.now.regex hay.now last) }
        ensures past { IfOk result (λ o. IfSome o (GoesPast self.now.regex (rest_of hay.now last) last)) }
        ensures searched { IsNextSearch self.now hay.now last cache.old cache.new result }
    {
        matches_are_spans(&self.regex);
        spans_follow(&self.regex);
        let remaining = rest(hay, last.unwrap_or(0));
        let Some(input) = self.narrow(&remaining) else {
            return Ok(None);
        };
        if let Some(found) = self.find_at_once(cache, &input, misses) {
            return Ok(Some(found));
        }
        self.regex.next_match(cache, &input, last)
    }
}
