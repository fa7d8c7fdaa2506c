ghost use Rattle.std.specs.Prelude.{◌≡◌, ◌↔◌, IfOk, IfErr, IsTrue, length, Err, Some, false};
ghost use Rattle.automata_base.specs.Nfas.Engines.{engine_of};
ghost use Rattle.automata_base.specs.Nfas.Getters.{SkipsLazily};
ghost use Rattle.automata_transform.specs.Nfas.Mirrors.{IsReversalOf};
ghost use Rattle.automata_base.specs.declared.util.search.Direction.TheVariants.{Forward};
ghost use Rattle.automata_base.specs.Answers.TruePairs.{IsTruePair, KeepsUtf8};
ghost use Rattle.automata_config.specs.Options.{Options, unset, overwritten};
ghost use Rattle.regex_automata.specs.Regexes.Builds.{BuildsOne, BuildsPair, IsUtf8, PassesAll, IsBuildError};
ghost use Rattle.regex_automata.specs.Regexes.Builds.{NamesEnough, error_of_both, joined_error, pair_error};
ghost use Rattle.regex_automata.specs.Regexes.Builds.{reverse_build_error};
ghost use Rattle.regex_automata.specs.Regexes.SoundPairs.{IsSoundPair};
ghost use Rattle.regex_automata.specs.declared.hybrid.regex.build.RegexBuildError.TheVariants.{Build as RegexBuild};
ghost use Rattle.regex_automata.specs.declared.hybrid.regex.build.RegexBuildError.TheVariants as regex_error;

use crate::hybrid::regex::Regex;
use crate::hybrid::{BuildError, dfa};
use automata_base::nfa::thompson::NFA;
use automata_base::util::search::MatchKind;
use automata_hybrid::dfa::DFA;
use automata_transform::{ReverseError, reversed};
use std::alloc::{AllocError, AllocFailed};
use std::marker::Model;
use thiserror::Error;

/// Why a regex cannot be built from one NFA.
#[derive(Clone, Copy, Debug, PartialEq, Eq, Error)]
pub enum RegexBuildError {
    /// `NFA::skips_lazily` is false.
    #[error("the unanchored start does not skip lazily, so an unanchored match may have no start")]
    NotLazy,
    /// `NFA::keeps_utf8` is false.
    #[error("a match may be invalid UTF-8, so in UTF-8 mode it might split a character")]
    NotUtf8,
    /// The NFA cannot be reversed: `ReverseError::Starts`.
    #[error("only some of the starts match the empty string, so a reversed NFA would match differently")]
    Starts,
    /// The reversed NFA would have more states or alternates than an NFA may have.
    #[error("the reversed NFA would be too large")]
    TooLarge,
    /// An allocation failed.
    #[error("out of memory")]
    OutOfMemory,
    /// A lazy DFA cannot be built from one of the two NFAs.
    #[error("{0}")]
    Build(BuildError),
}

impl From<BuildError> for RegexBuildError {
    ghost from_gives = { λ error e. e ≡ RegexBuild error };

    fn from(error: BuildError) -> RegexBuildError {
        RegexBuildError::Build(error)
    }
}

impl From<ReverseError> for RegexBuildError {
    ghost from_gives = { λ error e. e ≡ reverse_build_error error };

    fn from(error: ReverseError) -> RegexBuildError {
        match error {
            ReverseError::Starts => RegexBuildError::Starts,
            ReverseError::TooLarge => RegexBuildError::TooLarge,
            ReverseError::OutOfMemory => RegexBuildError::OutOfMemory,
        }
    }
}

impl From<AllocError> for RegexBuildError {
    ghost from_gives = { λ _ e. e ≡ regex_error.OutOfMemory };

    fn from(_error: AllocError) -> RegexBuildError {
        RegexBuildError::OutOfMemory
    }
}

impl<T: Drop> From<AllocFailed<T>> for RegexBuildError {
    ghost from_gives = { λ _ e. e ≡ regex_error.OutOfMemory };

    fn from(_error: AllocFailed<T>) -> RegexBuildError {
        RegexBuildError::OutOfMemory
    }
}

/// Reverses an NFA, if it passes the tests that a sound pair needs.
fn tested_reverse(forward: &NFA) -> Result<NFA, RegexBuildError>
    ensures passes { IfOk result (λ reverse. PassesAll forward.now) }
    ensures reversed { IfOk result (λ reverse. IsReversalOf forward.now reverse) }
    ensures pair { IfOk result (λ reverse. (kind : MatchKind)
        → IsTruePair (engine_of forward.now kind) (engine_of reverse MatchKind.All)) }
    ensures utf8 { IfOk result (λ reverse. (kind : MatchKind) → KeepsUtf8 Forward (engine_of forward.now kind)) }
    ensures refused { IfErr result (λ error. (o : Options) → IsBuildError o forward.now error) }
{
    if !forward.skips_lazily() {
        return Err(RegexBuildError::NotLazy);
    }
    match forward.keeps_utf8() {
        Err(_) => Err(RegexBuildError::OutOfMemory),
        Ok(keeps) => reverse_if(forward, keeps),
    }
}

/// Reverses an NFA if `keeps`, the answer of the test for UTF-8, is true. Otherwise it fails without an allocation.
fn reverse_if(forward: &NFA, keeps: bool) -> Result<NFA, RegexBuildError>
    requires lazy { SkipsLazily forward.now }
    requires keeps { IsTrue keeps ↔ IsUtf8 forward.now }
    ensures passes { IfOk result (λ reverse. PassesAll forward.now) }
    ensures reversed { IfOk result (λ reverse. IsReversalOf forward.now reverse) }
    ensures pair { IfOk result (λ reverse. (kind : MatchKind)
        → IsTruePair (engine_of forward.now kind) (engine_of reverse MatchKind.All)) }
    ensures kept { IfOk result (λ reverse. IsTrue keeps) }
    ensures utf8 { (result ≡ Err RegexBuildError.NotUtf8) ↔ (IsUtf8 forward.now → ⊥) }
    ensures refused { IfErr result (λ error. (o : Options) → IsBuildError o forward.now error) }
{
    if !keeps {
        return Err(RegexBuildError::NotUtf8);
    }
    match reversed(forward) {
        Ok(reverse) => Ok(reverse),
        Err(error) => Err(RegexBuildError::from(error)),
    }
}

/// Joins the errors of two DFAs that cannot be built: returns the first one. If the capacity is too small for both, it
/// names the greater minimum.
fn joined(first: BuildError, second: BuildError) -> BuildError
    ensures { result ≡ joined_error first second }
{
    match (first, second) {
        (
            BuildError::InsufficientCacheCapacity { minimum, given },
            BuildError::InsufficientCacheCapacity {
                minimum: other,
                given: _,
            },
        ) => BuildError::InsufficientCacheCapacity {
            minimum: minimum.max(other),
            given,
        },
        _ => first,
    }
}

/// A builder of regexes. It holds the settings of their DFAs.
#[derive(Clone, Copy, Debug)]
pub struct Builder {
    dfa: dfa::Builder,
}

impl Model for Builder {
    ghost use Rattle.automata_config.specs.Options.{Options};

    ghost Value = { Options };

    ghost view = { λ b. b.dfa };

    ghost inverse = { λ o. record { dfa = o } };
}

impl Default for Builder {
    ghost use Rattle.std.specs.Prelude.{◌≡◌};
    ghost use Rattle.automata_config.specs.Options.{unset};

    fn default() -> Builder
        ensures { result ≡ unset }
    {
        Builder::new()
    }
}

impl Builder {
    ghost use Rattle.std.specs.Result.{result_err};

    /// Returns a builder with the default settings.
    pub fn new() -> Builder
        ensures { result ≡ unset }
    {
        Builder {
            dfa: dfa::Builder::new(),
        }
    }

    /// Sets the options that are set in `config`, and keeps the others.
    pub fn dfa(&mut self, config: dfa::Config) -> &mut Builder
        ensures same { result.ghost_name ≡ self.entry.ghost_name }
        ensures value { result.now ≡ overwritten self.old config }
    {
        self.dfa.configure(config);
        self
    }

    /// Returns the regex of two lazy DFAs, which must be for the same patterns. It only requires that they have the
    /// same number of patterns, which `DFA::pattern_len` returns.
    pub fn build_from_dfas(&self, forward: DFA, reverse: DFA) -> Regex
        requires { length forward.nfa.start_pattern ≡ length reverse.nfa.start_pattern }
        ensures { result ≡ record { forward = forward; reverse = reverse } }
    {
        Regex { forward, reverse }
    }

    /// Builds a regex from an NFA and from one that reads the same backward. It allocates nothing.
    ///
    /// It fails if the NFAs do not have the same number of patterns, if the forward DFA cannot be built, or if the
    /// reverse one cannot. It returns the error of the first test that fails, and does not return the NFAs. If the
    /// capacity is too small for both DFAs, the error names the greater minimum, so that a second try with it does not
    /// fail for its capacity. The reverse DFA has `MatchKind::All`, and its start states are not tagged.
    ///
    /// It does not test that the second NFA reads what the first one does: if it does not, `find` can return a wrong
    /// start, or the error `SearchError::NotAPair`. `build_from_nfa` makes the second NFA itself.
    pub fn build_from_nfas(&self, forward: NFA, reverse: NFA) -> Result<Regex, BuildError>
        ensures ok { IfOk result (BuildsPair self.now forward reverse) }
        ensures refused { result_err result ≡ pair_error self.now forward reverse }
        ensures enough { IfErr result (NamesEnough self.now forward reverse) }
    {
        if forward.pattern_len() != reverse.pattern_len() {
            return Err(BuildError::PatternCounts {
                forward: forward.pattern_len(),
                reverse: reverse.pattern_len(),
            });
        }
        self.build_both(forward, reverse)
    }

    /// Builds a regex from one NFA. It searches backward with the reversed NFA (`reversed`).
    ///
    /// It tests what the promise of spans needs: that the NFA skips lazily (`NFA::skips_lazily`), and that in UTF-8
    /// mode it keeps UTF-8 (`NFA::keeps_utf8`). If a cycle of epsilon transitions passes a look-around assertion, the
    /// forward lazy DFA keeps unions in its states (`NFA::keeping_unions`). So every regex that it returns is a sound
    /// pair: `find` and `find_iter` return the spans that the ordered paths of the NFA define. `build_from_nfas` builds
    /// a regex without these tests, from the NFAs as they are.
    ///
    /// It makes these tests in this order, then reverses the NFA, and then builds both lazy DFAs. It returns the first
    /// error. It does not return the NFA: clone it first if you still need it.
    pub fn build_from_nfa(&self, forward: NFA) -> Result<Regex, RegexBuildError>
        ensures built { IfOk result (BuildsOne self.now forward) }
        ensures sound { IfOk result IsSoundPair }
        ensures refused { IfErr result (IsBuildError self.now forward) }
    {
        match tested_reverse(&forward) {
            Err(error) => Err(error),
            Ok(reverse) => match self.build_from_nfas(forward.keeping_unions(), reverse) {
                Ok(regex) => Ok(regex),
                Err(error) => Err(RegexBuildError::Build(error)),
            },
        }
    }

    /// Builds a regex from two NFAs. If neither DFA can be built, it joins their errors (`joined`).
    fn build_both(&self, forward: NFA, reverse: NFA) -> Result<Regex, BuildError>
        ensures ok { IfOk result (BuildsPair self.now forward reverse) }
        ensures refused { result_err result ≡ error_of_both self.now forward reverse }
    {
        match self.dfa.build_from_nfa(forward) {
            Ok(forward) => match self.backward().build_from_nfa(reverse) {
                Ok(reverse) => Ok(Regex { forward, reverse }),
                Err(error) => Err(error),
            },
            Err(error) => match self.backward().build_from_nfa(reverse) {
                Ok(_) => Err(error),
                Err(other) => Err(joined(error, other)),
            },
        }
    }

    /// Returns the builder of the reverse DFA.
    fn backward(&self) -> dfa::Builder
        ensures { result ≡ record self.now { match_kind = Some MatchKind.All; specialize_start_states = Some false } }
    {
        let mut builder = self.dfa;
        let config = dfa::Config::new()
            .match_kind(MatchKind::All)
            .specialize_start_states(false);
        builder.configure(config);
        builder
    }
}
