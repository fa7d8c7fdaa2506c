//! Attempts to find the next match of an iteration at once: by one anchored search from the first offset where a match
//! can begin.
ghost use Rattle.std.specs.Prelude.{◌≡◌, ◌<◌, ◌≤◌, Some, false, true};
ghost use Rattle.automata_base.specs.Answers.Spans.{IsSpan};
ghost use Rattle.regex_automata.specs.Promises.{AreCachesOf, IsSoundPair, LeftmostFirst, forward_engine};
ghost use Rattle.regex_automata.specs.Spans.Outcomes.{MatchLiesIn};
ghost use Rattle.prefilters.specs.Skipping.{MaySkipTo, anchored_from};
ghost use Rattle.patterns.specs.Attempts.{BeginsLater, IfFound, IfNothing, IsFullSearch, IsRunFrom, LiesInSpan};

use regex_automata::hybrid::regex::{Cache, Regex};
use regex_automata::util::search::{Anchored, Input, Match, Span};

/// The number of searches of an iteration that make no attempt: for a few matches, it does not pay to build the states
/// of anchored searches.
const FEW: u32 = 16;

/// The balance of misses from which on no attempts are made.
const MANY: u32 = 64;

/// Attempts for one match continue while they are rarer than one in this number of bytes, apart from the first two.
const SPACE: usize = 64;

/// The number of bytes by which the second attempt may be too near.
const CREDIT: usize = 64;

/// How often attempts to find the next match of an iteration at once have failed, as a balance. It decides whether
/// another attempt is made, and never what is found.
#[derive(Clone, Copy, Debug)]
pub struct Misses {
    plain: u32,
    balance: u32,
}

impl Misses {
    /// Returns the balance at the beginning of an iteration.
    pub fn none() -> Misses {
        Misses {
            plain: 0,
            balance: 0,
        }
    }

    /// Whether the next search makes an attempt. The first searches of an iteration make none, and are counted.
    pub(crate) fn allow_attempt(&mut self) -> bool {
        if self.plain < FEW {
            self.plain += 1;
            return false;
        }
        self.balance < MANY
    }

    /// Counts an attempt that has found the match.
    pub(crate) fn count_match(&mut self) {
        self.balance = self.balance.saturating_sub(1);
    }

    /// Counts an attempt without a search, as no match can begin near the start.
    pub(crate) fn count_gap(&mut self) {
        self.balance = self.balance.saturating_add(1);
    }

    /// Counts an attempt whose search was in vain, which costs more.
    pub(crate) fn count_failure(&mut self) {
        self.balance = self.balance.saturating_add(2);
    }
}

/// Whether the search is unanchored and not earliest, and its span is not done.
pub(crate) fn is_full_search(input: &Input<'_>) -> bool
    ensures { result ≡ true → IsFullSearch input.now }
{
    !input.get_anchored().is_anchored() && !input.get_earliest() && !input.is_done()
}

/// Returns the input from an offset on, for an anchored search.
fn anchored_from<'h>(input: &Input<'h>, start: usize) -> Input<'h>
    requires { start ≤ input.now.end }
    ensures { result ≡ anchored_from start input.now }
{
    input
        .copied()
        .range(start..input.end())
        .anchored(Anchored::Yes)
}

/// What an attempt says.
#[derive(Clone, Copy)]
pub(crate) enum Attempt {
    /// This is the match.
    Found(Match),
    /// No match begins up to this offset.
    Nothing(usize),
    /// Nothing is known: the match there is empty, the search failed, or none was made.
    Unknown,
}

/// Whether another attempt may be made after this number of bytes and of attempts.
pub(crate) fn pays(bytes: usize, attempts: usize) -> bool {
    bytes.saturating_add(CREDIT) >= attempts.saturating_mul(SPACE)
}

/// Searches anchored from an offset on before which no match begins.
///
/// An error of the anchored search is dropped: the search that follows does without it, or fails, too.
#[inline(always)]
pub(crate) fn find_at(regex: &Regex, cache: &mut Cache, input: &Input<'_>, start: usize) -> Attempt
    requires caches { AreCachesOf cache.old regex.now }
    requires within { LiesInSpan input.now start }
    requires skips { IsSoundPair regex.now → MaySkipTo (forward_engine regex.now) input.now start }
    requires kind { (forward_engine regex.now).kind ≡ LeftmostFirst }
    requires full { IsFullSearch input.now }
    ensures of { AreCachesOf cache.new regex.now }
    ensures span { IfFound result (λ m. IsSoundPair regex.now
        → IsSpan (forward_engine regex.now) input.now (Some m)) }
    ensures within { IfFound result (λ m. MatchLiesIn regex.now input.now m × (m.start < m.end)) }
    ensures none { IfNothing result (BeginsLater regex.now input.now) }
    ensures run { IsRunFrom regex.now input.now start cache.old cache.new }
{
    let anchored = anchored_from(input, start);
    match regex
        .forward()
        .try_search_fwd(cache.forward_mut(), &anchored)
    {
        Ok(Some(half)) if half.offset() > start => {
            let end = half.offset();
            Attempt::Found(Match::new(half.pattern(), Span { start, end }))
        }
        Ok(None) => Attempt::Nothing(start),
        _ => Attempt::Unknown,
    }
}
