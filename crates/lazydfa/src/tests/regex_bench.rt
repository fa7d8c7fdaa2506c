//! Calls of one regex over its cache, and what they report.

ghost use Rattle.std.specs.Prelude.{◌≡◌, IfOk};
ghost use Rattle.regex_automata.specs.Promises.{AreCachesOf, IsSoundPair};

use super::Host;
use super::bench::counted;
use super::plans::Mode;
use super::reported::{Counted, Item, Reported, prints};
use super::reports::{Automaton, Caller, RowOf, config};
use regex_automata::hybrid::dfa::Config;
use regex_automata::hybrid::regex::{Cache, Regex, RegexBuildError};
use regex_automata::hybrid::{BuildError, SearchError};
use regex_automata::nfa::thompson::NFA;
use regex_automata::tokens::{Token, TokenError, Tokens};
use regex_automata::util::search::{Input, Match};
use search_script::Entry;
use std::alloc::{AllocError, Global};

/// What a regex is built from.
#[derive(Clone, Copy)]
pub enum Pair {
    /// Both NFAs of an entry.
    Of(Entry),
    /// A forward NFA, which the library reverses.
    Turned(Automaton),
}

impl Pair {
    /// Builds the regex with these options, or returns why it cannot be built.
    pub fn build(self, rt: &impl Host, options: &str) -> Result<Regex, BuildError> {
        match self {
            Pair::Of(entry) => {
                let (forward, reverse) = (Automaton::Forward(entry), Automaton::Reverse(entry));
                Regex::builder()
                    .dfa(config(rt, options))
                    .build_from_nfas(forward.nfa(rt), reverse.nfa(rt))
            }
            Pair::Turned(automaton) => Ok(turned(rt, automaton, options)),
        }
    }

    /// Builds the regex with these options. Ends the process if it cannot be built.
    pub fn regex(self, rt: &impl Host, options: &str) -> Regex {
        self.build(rt, options).expect(rt, "a regex")
    }
}

/// Builds the regex of one NFA, with these options.
fn turned(rt: &impl Host, forward: Automaton, options: &str) -> Regex {
    let built = alone(forward.nfa(rt), config(rt, options));
    built.expect(rt, "a regex")
}

/// Builds the regex of one NFA. By the contract, it finds the spans of the NFA's ordered paths.
pub fn alone(nfa: NFA, config: Config) -> Result<Regex, RegexBuildError>
    ensures { IfOk result IsSoundPair }
{
    Regex::builder().dfa(config).build_from_nfa(nfa)
}

/// What `Debug` prints for an iteration: at first, after one item, and after two more calls.
#[derive(Clone, Copy)]
pub struct Printed {
    pub first: &'static str,
    pub second: &'static str,
    pub last: &'static str,
}

/// A call.
#[derive(Clone, Copy)]
pub enum Ask {
    Find(&'static [u8]),
    /// Searches from each of these offsets, in an anchored mode.
    Learn(&'static [u8], &'static [usize], Mode),
    /// Whether there is a match.
    Is(&'static [u8]),
    /// The first eight items of an iteration.
    Items(&'static [u8]),
    /// The first eight tokens from an offset.
    Tokens(&'static [u8], usize),
    /// Searches with a part of the cache that is borrowed mutably.
    Forward(&'static [u8]),
    Reverse(&'static [u8]),
    /// The counts of both parts of a clone, borrowed mutably at once, after a search with each.
    Both(&'static [u8]),
    /// Replaces the cache by a new one.
    Replace,
    ReplaceByNew,
    /// Replaces the cache by a clone.
    ReplaceByClone,
    /// Resets the cache.
    Reset,
    ResetByCache,
    ResetForward,
    ResetReverse,
    /// How often each part was cleared, its memory, and the bytes searched.
    Counts,
    /// Whether `Debug` prints the cache like this.
    Prints(&'static str),
    /// Whether `Debug` prints an iteration over matches, or one over tokens, like this.
    ItemsPrint(&'static [u8], Printed),
    TokensPrint(&'static [u8], Printed),
}

/// A row of calls over a regex and its cache.
pub type Row = RowOf<Pair, Ask>;

/// Returns an item of an iteration in the form of a token.
fn item_of(item: Option<Result<Match, SearchError>>) -> Item {
    match item {
        Some(Ok(found)) => Some(Ok((found.pattern().as_usize(), found.start(), found.end()))),
        Some(Err(error)) => Some(Err(TokenError::Search(error))),
        None => None,
    }
}

/// Returns the next token as an item. A token whose bytes are not the bytes of its span is reported as `NoToken`.
fn next_token(tokens: &mut Tokens<'_, '_, '_>, haystack: &[u8]) -> Item
    ensures same_cache { tokens.new.cache.ghost_name ≡ tokens.old.cache.ghost_name }
    ensures regex { tokens.new.regex.now ≡ tokens.old.regex.now }
{
    match tokens.next() {
        Some(Ok(token)) => Some(match_of(&token, haystack)),
        Some(Err(error)) => Some(Err(error)),
        None => None,
    }
}

/// Returns the pattern and the span of a token, or `NoToken` if its bytes are not the bytes of its span.
fn match_of(token: &Token<'_>, haystack: &[u8]) -> Result<(usize, usize, usize), TokenError> {
    let range = token.range();
    let (start, end) = (range.start, range.end);
    if haystack.get(range) != Some(token.bytes()) {
        return Err(TokenError::NoToken(usize::MAX));
    }
    Ok((token.pattern().as_usize(), start, end))
}

/// A regex, and a cache of its own.
#[derive(Drop)]
pub struct RegexBench {
    regex: Regex,
    cache: Cache,
    ghost of: { AreCachesOf cache regex },
}

impl RegexBench {
    /// Returns a bench before any call.
    pub fn new(rt: &impl Host, regex: Regex) -> RegexBench {
        let cache = regex.create_cache().expect(rt, "a cache");
        RegexBench { regex, cache }
    }

    /// Makes a call, and returns what it reports.
    fn call(&mut self, alloc: Global, ask: Ask) -> Reported {
        match ask {
            Ask::Find(haystack) => self.find(&Input::new(haystack)),
            Ask::Learn(haystack, places, mode) => self.learn(haystack, places, mode),
            Ask::Is(haystack) => Reported::Truth(self.holds(&Input::new(haystack))),
            Ask::Items(haystack) => Reported::Items(self.first_items(Input::new(haystack))),
            Ask::Tokens(haystack, start) => Reported::Items(self.first_tokens(haystack, start)),
            Ask::Forward(haystack) => self.forward(&Input::new(haystack)),
            Ask::Reverse(haystack) => self.reverse(&Input::new(haystack)),
            Ask::Both(haystack) => self.both(&Input::new(haystack)),
            Ask::Counts => Reported::Parts(self.counts()),
            Ask::Prints(text) => Reported::of_flag(prints(alloc, &self.cache, text)),
            Ask::ItemsPrint(haystack, texts) => self.items_print(alloc, haystack, texts),
            Ask::TokensPrint(haystack, texts) => self.tokens_print(alloc, haystack, texts),
            _ => self.renew(ask),
        }
    }

    /// Makes a call that replaces or resets the cache or a part of it.
    fn renew(&mut self, ask: Ask) -> Reported {
        match ask {
            Ask::Replace | Ask::ReplaceByNew | Ask::ReplaceByClone => {
                let made = self.made(ask);
                self.replace(made)
            }
            Ask::ResetByCache => Reported::of_growth(self.cache.reset(&self.regex)),
            Ask::ResetForward => Reported::of_growth(self.reset_forward()),
            Ask::ResetReverse => Reported::of_growth(self.reset_reverse()),
            _ => Reported::of_growth(self.reset()),
        }
    }

    /// Returns a new cache to replace the current one.
    fn made(&self, ask: Ask) -> Result<Cache, AllocError>
        ensures { IfOk result (λ made. AreCachesOf made self.now.regex) }
    {
        match ask {
            Ask::Replace => self.regex.create_cache(),
            Ask::ReplaceByNew => Cache::new(&self.regex),
            _ => self.cache.clone(),
        }
    }

    /// Replaces the cache by a new one, or reports that it could not be made.
    fn replace(&mut self, made: Result<Cache, AllocError>) -> Reported
        requires { IfOk made (λ made. AreCachesOf made self.old.regex) }
    {
        match made {
            Ok(cache) => {
                self.cache = cache;
                Reported::Word("-")
            }
            Err(_) => Reported::Refused(BuildError::OutOfMemory),
        }
    }

    /// Searches from each of these offsets.
    fn learn(&mut self, haystack: &[u8], places: &[usize], mode: Mode) -> Reported {
        for place in places {
            let input = from(haystack, *place).anchored(mode.anchored());
            let _ = self.find(&input);
        }
        Reported::Word("-")
    }

    /// Whether there is a match.
    fn holds(&mut self, input: &Input<'_>) -> Result<bool, SearchError> {
        self.regex.is_match(&mut self.cache, input)
    }

    /// Returns the first eight items of an iteration.
    #[rattlefmt::skip]
    fn first_items(&mut self, input: Input<'_>) -> [Item; 8] {
        let mut it = self.regex.find_iter(&mut self.cache, input);
        [
            item_of(it.next()), item_of(it.next()), item_of(it.next()), item_of(it.next()),
            item_of(it.next()), item_of(it.next()), item_of(it.next()), item_of(it.next()),
        ]
    }

    /// Returns the first eight tokens from an offset.
    #[rattlefmt::skip]
    fn first_tokens(&mut self, haystack: &[u8], start: usize) -> [Item; 8] {
        let mut tokens = self.regex.tokens(&mut self.cache, from(haystack, start));
        [
            next_token(&mut tokens, haystack), next_token(&mut tokens, haystack),
            next_token(&mut tokens, haystack), next_token(&mut tokens, haystack),
            next_token(&mut tokens, haystack), next_token(&mut tokens, haystack),
            next_token(&mut tokens, haystack), next_token(&mut tokens, haystack),
        ]
    }

    /// Whether `Debug` prints an iteration like this, at first and later.
    fn items_print(&mut self, alloc: Global, haystack: &[u8], texts: Printed) -> Reported {
        let mut it = self.regex.find_iter(&mut self.cache, Input::new(haystack));
        let first = prints(alloc, &it, texts.first);
        let _ = it.next();
        let second = prints(alloc, &it, texts.second);
        let _ = it.next();
        let _ = it.next();
        Reported::of_flag(first && second && prints(alloc, &it, texts.last))
    }

    /// Whether `Debug` prints an iteration over tokens like this, at first and later.
    fn tokens_print(&mut self, alloc: Global, haystack: &[u8], texts: Printed) -> Reported {
        let mut tokens = self.regex.tokens(&mut self.cache, Input::new(haystack));
        let first = prints(alloc, &tokens, texts.first);
        let _ = next_token(&mut tokens, haystack);
        let second = prints(alloc, &tokens, texts.second);
        let _ = next_token(&mut tokens, haystack);
        let _ = next_token(&mut tokens, haystack);
        Reported::of_flag(first && second && prints(alloc, &tokens, texts.last))
    }

    /// Searches for a match.
    fn find(&mut self, input: &Input<'_>) -> Reported {
        Reported::Span(self.regex.find(&mut self.cache, input))
    }

    /// Searches with the forward part.
    fn forward(&mut self, input: &Input<'_>) -> Reported {
        let dfa = self.regex.forward();
        Reported::Half(dfa.try_search_fwd(self.cache.forward_mut(), input))
    }

    /// Searches with the reverse part.
    fn reverse(&mut self, input: &Input<'_>) -> Reported {
        let dfa = self.regex.reverse();
        Reported::Half(dfa.try_search_rev(self.cache.reverse_mut(), input))
    }

    /// Searches with both parts of a clone of the cache, and reports their counts.
    fn both(&self, input: &Input<'_>) -> Reported {
        match self.made(Ask::ReplaceByClone) {
            Ok(mut cache) => Reported::Parts(halves(&self.regex, &mut cache, input)),
            Err(_) => Reported::Refused(BuildError::OutOfMemory),
        }
    }

    /// Resets the forward part.
    fn reset_forward(&mut self) -> Result<(), AllocError> {
        self.regex.forward().reset_cache(self.cache.forward_mut())
    }

    /// Resets the reverse part.
    fn reset_reverse(&mut self) -> Result<(), AllocError> {
        self.regex.reverse().reset_cache(self.cache.reverse_mut())
    }

    /// Resets both parts.
    fn reset(&mut self) -> Result<(), AllocError> {
        self.regex.reset_cache(&mut self.cache)
    }

    /// Returns the second token of a haystack.
    pub fn second_token<'h>(&mut self, haystack: &'h [u8]) -> Option<Token<'h>> {
        let mut tokens = self.regex.tokens(&mut self.cache, Input::new(haystack));
        let _ = tokens.next();
        match tokens.next() {
            Some(Ok(token)) => Some(token),
            _ => None,
        }
    }

    /// Returns the counts of each part.
    fn counts(&self) -> [Counted; 2] {
        let (forward, reverse) = self.cache.as_parts();
        [counted(forward), counted(reverse)]
    }
}

impl Caller for RegexBench {
    type Of = Pair;

    type Call = Ask;

    fn make(rt: &impl Host, of: Pair, options: &str) -> Result<RegexBench, BuildError> {
        match of.build(rt, options) {
            Ok(regex) => Ok(RegexBench::new(rt, regex)),
            Err(error) => Err(error),
        }
    }

    fn answer(&mut self, alloc: Global, ask: Ask) -> Reported {
        self.call(alloc, ask)
    }
}

/// Returns the counts of both parts after a search with each.
fn halves(regex: &Regex, cache: &mut Cache, input: &Input<'_>) -> [Counted; 2]
    requires { AreCachesOf cache.old regex.now }
{
    let (forward, reverse) = cache.as_parts_mut();
    let _ = regex.forward().try_search_fwd(forward, input);
    let _ = regex.reverse().try_search_rev(reverse, input);
    [counted(forward), counted(reverse)]
}

/// Returns an input over a haystack from an offset on, or over all of it if the offset is out of range.
fn from<'h>(haystack: &'h [u8], start: usize) -> Input<'h> {
    let input = Input::new(haystack);
    if !input.allows(start, haystack.len()) {
        return input;
    }
    input.range(start..haystack.len())
}
