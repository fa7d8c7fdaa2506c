ghost use Rattle.std.specs.Prelude.{◌≡◌, ◌≤◌, IfOk, IfSome, false, true};
ghost use Rattle.std.specs.Result.{result_err};
ghost use Rattle.automata_base.specs.Answers.Spans.{IsShort, back};
ghost use Rattle.automata_base.specs.Haystacks.Input.{IsValidInput};
ghost use Rattle.automata_hybrid.specs.Cache.Caches.{IsCacheOf};
ghost use Rattle.automata_hybrid.specs.Searches.Passes.{with_base};
ghost use Rattle.automata_hybrid.specs.Searches.Bounds.{LiesPast};
ghost use Rattle.regex_automata.specs.Regexes.SoundPairs.{forward_engine};
ghost use Rattle.regex_automata.specs.Spans.Outcomes.{FindsMatch, IsStartFound};
ghost use Rattle.regex_automata.specs.Spans.Contracts.{IsSpanOf, IsSpanReported};
ghost use Rattle.regex_automata.specs.Spans.Runs.{IsBackRun, IsSpanRun};
ghost use Rattle.regex_automata.specs.Regexes.Caches.{AreCachesOf};

use crate::hybrid::dfa;
use crate::hybrid::regex::{Cache, Regex};
use automata_base::util::search::{Anchored, HalfMatch, Input, Match, Span};
use automata_config::error::SearchError;
use automata_determinize::laws::{reported_is_right, start_is_right};

/// Returns the input of the reverse search: from the base to the match's end, anchored and not earliest.
fn backward<'h>(input: &Input<'h>, half: HalfMatch, base: usize) -> Input<'h>
    requires ordered { base ≤ half.offset }
    requires within { half.offset ≤ input.now.end }
    ensures { result ≡ back input.now (with_base half base) }
{
    Input::new(input.haystack())
        .range(base..half.offset())
        .anchored(Anchored::Yes)
}

impl Regex {
    /// Returns the first match, by the match kind of the forward DFA; for an input with `earliest`, the match that ends
    /// first. The reverse DFA searches backward from its end to find its start.
    ///
    /// It returns the errors of the forward search and of the reverse search. If the reverse search finds no start, the
    /// error is `SearchError::NotAPair`. After an error the cache serves other searches as before.
    ///
    /// For all matches call `find_iter`. If you only need to know whether there is a match, call `is_match`.
    pub fn try_search(
        &self,
        cache: &mut Cache,
        input: &Input<'_>,
    ) -> Result<Option<Match>, SearchError>
        requires { AreCachesOf cache.old self.now }
        ensures of { AreCachesOf cache.new self.now }

        // What it returns, by the ordered paths and by the passes, whatever the caches.
        ensures returned { IsSpanOf self.now input.now result }
        ensures found { IfOk result (FindsMatch self.now input.now) }

        // What it does to the caches, and why it fails.
        ensures effect { IsSpanRun self.now input.now cache.old cache.new (result_err result) }
    {
        reported_is_right(self.forward.get_nfa());
        reported_is_right(self.reverse.get_nfa());
        start_is_right();
        self.search(cache, input)
    }

    /// Returns the first match, as `try_search` does, with the same contract.
    pub fn find(&self, cache: &mut Cache, input: &Input<'_>) -> Result<Option<Match>, SearchError>
        requires { AreCachesOf cache.old self.now }
        ensures of { AreCachesOf cache.new self.now }

        // What it returns, by the ordered paths and by the passes, whatever the caches.
        ensures returned { IsSpanOf self.now input.now result }
        ensures found { IfOk result (FindsMatch self.now input.now) }

        // What it does to the caches, and why it fails.
        ensures effect { IsSpanRun self.now input.now cache.old cache.new (result_err result) }
    {
        self.try_search(cache, input)
    }

    /// Whether the match starts at `base`, where the span that gave it begins, so that no reverse search is needed: the
    /// match is empty, or the anchored mode or the NFA anchors the search.
    fn is_short(&self, input: &Input<'_>, half: HalfMatch, base: usize) -> bool
        ensures yes { result ≡ true → IsShort (forward_engine self.now) input.now (with_base half base) }
        ensures no { result ≡ false → IsShort (forward_engine self.now) input.now (with_base half base) → ⊥ }
    {
        if base == half.offset() {
            return true;
        }
        if input.get_anchored().is_anchored() {
            return true;
        }
        self.forward.get_nfa().is_always_start_anchored()
    }

    /// Returns the start of the match whose end a forward search found, or none if the reverse search finds none.
    fn find_start(
        &self,
        cache: &mut dfa::Cache,
        input: &Input<'_>,
        half: HalfMatch,
        base: usize,
    ) -> Result<Option<usize>, SearchError>
        requires of { IsCacheOf cache.old self.now.reverse }
        requires past { LiesPast self.now.forward input.now half base }
        ensures of { IsCacheOf cache.new self.now.reverse }
        ensures found { IfOk result (IsStartFound self.now input.now (with_base half base)) }
        ensures within { IfOk result (λ o. IfSome o (λ start. (base ≤ start) × (start ≤ half.offset))) }
        ensures effect { IsBackRun self.now input.now (with_base half base) cache.old cache.new (result_err result) }
    {
        let short = self.is_short(input, half, base);
        if short {
            return Ok(Some(base));
        }
        let rest = backward(input, half, base);
        match self.reverse.try_search_rev(cache, &rest)? {
            Some(found) => Ok(Some(found.offset())),
            None => Ok(None),
        }
    }

    /// Returns the match that the passes of both DFAs find.
    fn search(&self, cache: &mut Cache, input: &Input<'_>) -> Result<Option<Match>, SearchError>
        requires { AreCachesOf cache.old self.now }
        ensures of { AreCachesOf cache.new self.now }
        ensures reported { IsSpanReported self.now input.now result }
        ensures effect { IsSpanRun self.now input.now cache.old cache.new (result_err result) }
        ensures valid { IsValidInput input.now }
    {
        let Some(front) = self.forward.try_search_fwd_base(&mut cache.forward, input)? else {
            return Ok(None);
        };
        let half = front.0;
        let base = front.1;
        let Some(start) = self.find_start(&mut cache.reverse, input, half, base)? else {
            return Err(SearchError::NotAPair);
        };
        let span = Span {
            start,
            end: half.offset(),
        };
        Ok(Some(Match::new(half.pattern(), span)))
    }
}
