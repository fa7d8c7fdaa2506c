//! Building a lexer, and the token at an offset.
ghost use Rattle.std.specs.Prelude.{◌≡◌, ◌≤◌, ◌⊎◌, IfErr, IfOk, IfSome, OnOk, length, map, option_map, slice_get};
ghost use Rattle.std.specs.Result.{result_err};
ghost use Rattle.automata_base.specs.Answers.TruePairs.{KeepsUtf8};
ghost use Rattle.automata_base.specs.Haystacks.Input.{IsValidInput};
ghost use Rattle.automata_hybrid.specs.Cache.Caches.{fresh_cache};
ghost use Rattle.automata_hybrid.specs.Machines.Builds.{Builds};
ghost use Rattle.regex_automata.specs.Promises.{Forward, IsCacheOf, IsMemory, IsSearchRun, IsUnhindered, KindAll};
ghost use Rattle.regex_automata.specs.Promises.{engine_of, known_of};
ghost use Rattle.patterns.specs.Patterns.{IsNfaOf, IsWithinLimit};
ghost use Rattle.patterns.specs.declared.compile.Options as options;
ghost use Rattle.patterns.specs.Faults.{IsNfaFault};
ghost use Rattle.lexer.specs.Lexers.{IsLexerBuiltOf, IsLexerDfaError, IsLexerFault, IsLexerOfTexts, LacksTexts};
ghost use Rattle.lexer.specs.Lexers.{kind_for, lexer_settings};
ghost use Rattle.lexer.specs.declared.rules.Prefer as preference;
ghost use Rattle.lexer.specs.Tokens.{IsExactToken, IsMeantToken, IsTokenFrom, remaining_input, token_of};

use crate::rules::{Prefer, Rule};
use patterns::{Fault, Options, PatternError, nfa_of};
use regex_automata::hybrid::SearchError;
use regex_automata::hybrid::dfa::{Cache, DFA};
use regex_automata::hybrid::regex::RegexBuildError;
use regex_automata::laws::cycles_are_kept;
use regex_automata::nfa::thompson::NFA;
use regex_automata::util::primitives::PatternID;
use regex_automata::util::search::{Anchored, HalfMatch, Input, Match, MatchKind, Span};
use std::alloc::{AllocError, Global};

/// A lexer: it finds the token at an offset of a haystack, and iterates over all tokens of a haystack.
pub struct Lexer<'r> {
    /// The DFA that searches for tokens. Its patterns are the rules, in their order.
    pub dfa: DFA,
    rules: &'r [Rule<'r>],
}

// With its own `drop`, the proof of an owner has one step for it instead of one for each part.
impl<'r> Drop for Lexer<'r> {
    fn drop(self) {
        let Self {
            dfa: _dfa,
            rules: _rules,
        } = self;
    }
}

/// Returns the texts of the rules.
fn texts_of<'r>(alloc: Global, rules: &[Rule<'r>]) -> Result<Vec<&'r str>, AllocError>
    ensures { IfOk result (λ texts. map (λ text. text.now) texts.items ≡ map (λ rule. rule.pattern.now) rules.now) }
{
    let mut texts = Vec::new(alloc);
    for rule in rules {
        texts.push(rule.pattern)?;
    }
    Ok(texts)
}

/// Compiles the patterns of the rules to one NFA.
fn nfa_of_rules(alloc: Global, rules: &[Rule<'_>], options: &Options) -> Result<NFA, PatternError>
    ensures meant { IfOk result (IsNfaOf options.now (map (λ rule. rule.pattern.now) rules.now)) }
    ensures small { IfOk result (IsWithinLimit options.now (map (λ rule. rule.pattern.now) rules.now)) }
    ensures refused { IfErr result (λ error. LacksTexts error
        ⊎ IsNfaFault options.now (map (λ rule. rule.pattern.now) rules.now) error) }
{
    match texts_of(alloc, rules) {
        Ok(texts) => nfa_of(alloc, texts.as_slice(), options),
        Err(_) => {
            let fault = Fault::OutOfMemory;
            Err(PatternError { number: 0, fault })
        }
    }
}

/// Fails if the NFA searches text, and a match might split a character.
fn test_utf8(nfa: &NFA) -> Result<(), RegexBuildError>
    ensures keeps { OnOk result (KeepsUtf8 Forward (engine_of nfa.now KindAll)) }
    ensures refused { IfErr result (λ error. (o : options.Options) (prefer : preference.Prefer)
        → IsLexerDfaError o prefer nfa.now error) }
{
    match nfa.keeps_utf8() {
        Ok(true) => Ok(()),
        Ok(false) => Err(RegexBuildError::NotUtf8),
        Err(_) => Err(RegexBuildError::OutOfMemory),
    }
}

/// Returns the match kind for a preference.
fn kind_for(prefer: Prefer) -> MatchKind
    ensures { result ≡ kind_for prefer }
{
    match prefer {
        Prefer::First => MatchKind::LeftmostFirst,
        Prefer::Longest => MatchKind::All,
    }
}

/// Builds the DFA of an NFA.
fn dfa_of(nfa: NFA, prefer: Prefer, options: &Options) -> Result<DFA, RegexBuildError>
    ensures keeps { OnOk result (KeepsUtf8 Forward (engine_of nfa KindAll)) }
    ensures built { IfOk result (Builds (lexer_settings options.now prefer) nfa) }
    ensures refused { IfErr result (IsLexerDfaError options.now prefer nfa) }
{
    let mut builder = DFA::builder();
    let config = options.dfa_config().match_kind(kind_for(prefer));
    builder.configure(config);
    match test_utf8(&nfa) {
        Err(error) => Err(error),
        Ok(()) => match builder.build_from_nfa(nfa) {
            Ok(dfa) => Ok(dfa),
            Err(error) => Err(RegexBuildError::Build(error)),
        },
    }
}

/// Returns the token for an answer at an offset: none if the answer ends at the offset.
fn token_of(offset: usize, answer: Option<HalfMatch>) -> Option<Match>
    ensures { result ≡ token_of offset answer }
{
    match answer {
        Some(half) if half.offset() > offset => {
            let span = Span {
                start: offset,
                end: half.offset(),
            };
            Some(Match::new(half.pattern(), span))
        }
        _ => None,
    }
}

/// Returns the input of the search at an offset: the remaining haystack, anchored.
fn remaining<'h>(hay: &'h [u8], offset: usize) -> Input<'h>
    requires { offset ≤ length hay.now }
    ensures input { result ≡ remaining_input hay.now offset }
    ensures valid { IsValidInput result }
{
    Input::new(hay)
        .range(offset..hay.len())
        .anchored(Anchored::Yes)
}

/// Returns the token at an offset.
pub(crate) fn token_at(
    dfa: &DFA,
    cache: &mut Cache,
    hay: &[u8],
    offset: usize,
) -> Result<Option<Match>, SearchError>
    requires of { IsCacheOf cache.old dfa.now }
    requires inside { offset ≤ length hay.now }
    ensures of { IsCacheOf cache.new dfa.now }
    ensures within { IfOk result (λ found. IfSome found (IsTokenFrom dfa.now hay.now offset)) }
    ensures meant { IfOk result (IsMeantToken dfa.now hay.now offset) }
    ensures exact { IfOk result (IsExactToken dfa.now hay.now offset) }
    ensures free { IsUnhindered dfa.now (remaining_input hay.now offset) → IfErr result IsMemory }
    ensures effect { IsSearchRun Forward dfa.now (remaining_input hay.now offset) (known_of cache.old)
        (known_of cache.new) (result_err result) }
{
    cycles_are_kept();
    let input = remaining(hay, offset);
    match dfa.try_search_fwd(cache, &input) {
        Ok(answer) => Ok(token_of(offset, answer)),
        Err(error) => Err(error),
    }
}

impl<'r> Lexer<'r> {
    /// Compiles rules to a lexer. A token's pattern is the number of its rule, counted from 0. A `PatternError` has the
    /// number of the rule that it is about.
    pub fn new(
        alloc: Global,
        rules: &'r [Rule<'r>],
        prefer: Prefer,
        options: &Options,
    ) -> Result<Lexer<'r>, PatternError>
        ensures meant { IfOk result (λ lexer.
            IsLexerOfTexts options.now prefer (map (λ rule. rule.pattern.now) rules.now) lexer.dfa) }
        ensures built { IfOk result (λ lexer.
            IsLexerBuiltOf options.now prefer (map (λ rule. rule.pattern.now) rules.now) lexer.dfa) }
        ensures rules { IfOk result (λ lexer. lexer.rules.now ≡ rules.now) }
        ensures refused { IfErr result
            (IsLexerFault options.now prefer (map (λ rule. rule.pattern.now) rules.now)) }
    {
        let nfa = nfa_of_rules(alloc, rules, options)?;
        match dfa_of(nfa, prefer, options) {
            Ok(dfa) => Ok(Lexer { dfa, rules }),
            Err(error) => {
                let fault = Fault::Unbuilt(error);
                Err(PatternError { number: 0, fault })
            }
        }
    }

    /// Returns a new cache for searches, which serves one search after another.
    pub fn create_cache(&self) -> Result<Cache, AllocError>
        ensures of { IfOk result (λ cache. IsCacheOf cache self.now.dfa) }
        ensures fresh { IfOk result (λ cache. cache ≡ fresh_cache self.now.dfa) }
    {
        self.dfa.create_cache()
    }

    /// Returns the name of the rule with this number, which is the pattern of its tokens; none if there is no such rule.
    pub fn name(&self, rule: PatternID) -> Option<&'r str>
        ensures { option_map (λ name. name.now) result
            ≡ option_map (λ rule. rule.name.now) (slice_get self.now.rules.now rule) }
    {
        match self.rules.get(rule.as_usize()) {
            Some(rule) => Some(rule.name),
            None => None,
        }
    }

    /// Returns the token at an offset, or none if no rule has one there. After an error the cache serves other searches
    /// as before.
    ///
    /// Under `Prefer::Longest` no rule matches farther than the token, and no earlier rule as far (`meant`). That its own
    /// rule matches to its end (`exact`) has a premise about the kit's compiler, which does not promise it: the NFA of a
    /// rule has no paths but the matches of its pattern.
    pub fn token_at(
        &self,
        cache: &mut Cache,
        hay: &[u8],
        offset: usize,
    ) -> Result<Option<Match>, SearchError>
        requires of { IsCacheOf cache.old self.now.dfa }
        requires inside { offset ≤ length hay.now }
        ensures of { IsCacheOf cache.new self.now.dfa }
        ensures within { IfOk result (λ found. IfSome found (IsTokenFrom self.now.dfa hay.now offset)) }
        ensures meant { IfOk result (IsMeantToken self.now.dfa hay.now offset) }
        ensures exact { IfOk result (IsExactToken self.now.dfa hay.now offset) }
        ensures free { IsUnhindered self.now.dfa (remaining_input hay.now offset) → IfErr result IsMemory }
        ensures effect { IsSearchRun Forward self.now.dfa (remaining_input hay.now offset) (known_of cache.old)
            (known_of cache.new) (result_err result) }
    {
        token_at(&self.dfa, cache, hay, offset)
    }
}
