//! A search that does not give up: a lazy DFA, and, when its cache is too small, a simulation of the same pattern's
//! NFA.
ghost use Rattle.std.specs.Prelude.{◌≡◌, ◌∷◌, [], IfErr, IfOk, List, ℕ, vec_len};
ghost use Rattle.regex_automata.specs.Promises.{AreCachesOf};
ghost use Rattle.patterns.specs.Patterns.{IsRegexOfTexts, config_of as syntax_of};
ghost use Rattle.examples.specs.Finding.{IsFirstIn, IsSimulated, in_bytes};

use anyhow::{Result, bail};
use patterns::{Options, Pattern, nfa_of};
use regex_automata::hybrid::SearchError;
use regex_automata::hybrid::dfa::DFA;
use regex_automata::hybrid::regex::Cache;
use regex_automata::laws::spans_follow;
use regex_nfa::Nfa;
use regex_syntax::{Config, Flags};
use regex_vm::PikeVm;
use std::alloc::Global;

/// The capacity of each of the two caches of a regex, in bytes.
const CAPACITY: usize = 64 << 10;

/// How often a cache is cleared before a search may give up.
const CLEARS: usize = 2;

/// A search continues as long as it reads at least this many bytes for each state that it adds.
const BYTES_PER_STATE: usize = 10;

/// How many bytes the tables of the simulated NFA may take.
const SIZE_LIMIT: usize = 10 << 20;

/// The first match in a line, and which engine searched for it.
#[derive(Clone, Copy)]
pub struct Found {
    /// Where the match begins and ends, in bytes, if there is one.
    pub span: Option<(usize, usize)>,
    /// Whether the lazy DFA gave up, and the NFA was simulated.
    pub simulated: bool,
}

/// The lazy DFAs of a pattern, the NFA that is simulated when they give up, and the memory that both write to.
pub struct Finder {
    pattern: Pattern,
    cache: Cache,
    nfa: Nfa,
    simulation: PikeVm,
    ghost caches: { AreCachesOf cache pattern.regex },
    ghost room: { simulation.states ≡ vec_len nfa.states },
}

// With this, dropping the value is one call in the proof of a caller, not a step for each field.
impl Drop for Finder {
    fn drop(self) {
        let Self {
            pattern: _pattern,
            cache: _cache,
            nfa: _nfa,
            simulation: _simulation,
        } = self;
    }
}

/// Returns the lazy DFAs of a pattern, whose searches may give up.
fn pattern_of(alloc: Global, text: &str) -> Result<Pattern>
    ensures { IfOk result (λ pattern. IsRegexOfTexts in_bytes (text.now ∷ []) pattern.regex) }
{
    let options = Options {
        utf8: false,
        ..Options::default()
    };
    let nfa = nfa_of(alloc, &[text], &options)?;
    let config = DFA::config()
        .cache_capacity(CAPACITY)
        .minimum_cache_clear_count(Some(CLEARS))
        .minimum_bytes_per_state(Some(BYTES_PER_STATE));
    Ok(Pattern::from_nfa_with(nfa, &options, config)?)
}

/// Returns the configuration of the kit's parser that `nfa_of` uses for the options above.
fn syntax() -> Config
    ensures { result ≡ syntax_of in_bytes }
{
    Config {
        flags: Flags {
            case_insensitive: false,
            multi_line: false,
            dot_matches_new_line: false,
            swap_greed: false,
            unicode: true,
            crlf: false,
            ignore_whitespace: false,
        },
        octal: false,
        utf8: false,
        nest_limit: 250,
    }
}

/// Returns the NFA that is simulated.
fn simulated_of(alloc: Global, text: &str) -> Result<Nfa>
    ensures { IfOk result (IsSimulated text.now) }
{
    let Ok(parsed) = regex_syntax::parse(alloc, text, &syntax()) else {
        bail!("no pattern");
    };
    let Ok(groups) = u32::try_from(parsed.names.len()) else {
        bail!("too many groups");
    };
    match regex_compile::compile(alloc, &parsed.hir, groups, SIZE_LIMIT) {
        Ok(nfa) => Ok(nfa),
        Err(_) => bail!("the pattern is too large"),
    }
}

impl Finder {
    ghost use Rattle.automata_hybrid.specs.Searches.Contracts.{IsMemory};
    ghost use Rattle.examples.specs.Finders.{IsFinderOf, IsLineSearched};

    /// Returns a finder of the matches of a pattern.
    pub fn new(alloc: Global, text: &str) -> Result<Finder>
        ensures { IfOk result (IsFinderOf text.now) }
    {
        let pattern = pattern_of(alloc, text)?;
        let cache = pattern.create_cache()?;
        let nfa = simulated_of(alloc, text)?;
        let simulation = PikeVm::new(alloc, &nfa)?;
        Ok(Finder {
            pattern,
            cache,
            nfa,
            simulation,
        })
    }

    /// Returns the first match in a line, found by the simulation.
    fn simulate(&mut self, line: &[u8]) -> Option<(usize, usize)>
        ensures found { (text : List ℕ) → IsSimulated text self.old.nfa → IsFirstIn text line.now result }
        ensures pattern { self.new.pattern ≡ self.old.pattern }
        ensures nfa { self.new.nfa ≡ self.old.nfa }
        ensures cache { self.new.cache ≡ self.old.cache }
    {
        let end = line.len();
        self.simulation.find(&self.nfa, line, 0, end, end, &mut [])
    }

    /// Returns the first match in a line. The only error is out of memory.
    pub fn find(&mut self, line: &[u8]) -> Result<Found, SearchError>
        ensures found { (text : List ℕ) → IsFinderOf text self.old
            → IfOk result (λ found. IsFirstIn text line.now found.span) }
        ensures searched { IfOk result (IsLineSearched line.now self.old self.new) }
        ensures failed { (text : List ℕ) → IsFinderOf text self.old → IfErr result IsMemory }
        ensures same { (text : List ℕ) → IsFinderOf text self.old → IsFinderOf text self.new }
    {
        spans_follow(&self.pattern.regex);
        match self.pattern.find(&mut self.cache, line) {
            Ok(Some(found)) => Ok(Found {
                span: Some((found.start(), found.end())),
                simulated: false,
            }),
            Ok(None) => Ok(Found {
                span: None,
                simulated: false,
            }),
            Err(SearchError::Match(_)) => {
                let span = self.simulate(line);
                Ok(Found {
                    span,
                    simulated: true,
                })
            }
            Err(SearchError::OutOfMemory) => Err(SearchError::OutOfMemory),
            Err(SearchError::NotAPair) => Err(SearchError::NotAPair),
        }
    }
}
