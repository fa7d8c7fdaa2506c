ghost use Rattle.std.specs.Prelude.{◌≡◌, ◌≤◌, ◌+◌, IfOk, IfSome, OnErr, None, Err, false, true};
ghost use Rattle.std.specs.Iterator.{at_most};
ghost use Rattle.std.specs.Result.{result_err};
ghost use Rattle.automata_base.specs.Haystacks.Input.{Allows, IsValidInput};
ghost use Rattle.automata_base.specs.Answers.Spans.{IsEmptyAt, from};
ghost use Rattle.automata_base.specs.declared.util.search.Direction.TheVariants.{Forward};
ghost use Rattle.automata_hybrid.specs.Searches.Contracts.{IsUnsupported, unsupported_error};
ghost use Rattle.regex_automata.specs.Spans.Iteration.{GivesItem, GoesPast, IsNextMatch};
ghost use Rattle.regex_automata.specs.Spans.Iteration.{LiesInHaystack, input_over, most_items};
ghost use Rattle.regex_automata.specs.Spans.Contracts.{ReportsUnsupported};
ghost use Rattle.regex_automata.specs.Spans.Runs.{IsItemRun, IsNextRun};
ghost use Rattle.regex_automata.specs.Regexes.Caches.{AreCachesOf};

use crate::hybrid::regex::{Cache, Regex};
use crate::laws::matches_agree;
use automata_base::util::search::{Anchored, Input, Match};
use automata_config::error::SearchError;
use std::fmt;

/// Returns the input with a later start.
fn from<'h>(input: &Input<'h>, start: usize) -> Input<'h>
    requires { Allows input.now.haystack start input.now.end }
    ensures { result ≡ from start input.now }
{
    input.copied().range(start..input.end())
}

/// Whether a match is empty and lies at the end of the last one.
fn is_empty_at(last: Option<usize>, found: &Match) -> bool
    ensures yes { result ≡ true → IsEmptyAt last found.now }
    ensures no { result ≡ false → IsEmptyAt last found.now → ⊥ }
{
    found.start() == found.end() && last == Some(found.end())
}

impl Regex {
    /// Returns the next match of an iteration that you drive yourself. The input is the remaining one: it starts at
    /// `last`, where the last match ended; `last` is none if there was no match yet. An empty match at `last` is
    /// replaced by the match of a search that starts one offset later.
    ///
    /// It returns the errors of `try_search`. `find_iter` makes these calls one after another.
    pub fn next_match(
        &self,
        cache: &mut Cache,
        input: &Input<'_>,
        last: Option<usize>,
    ) -> Result<Option<Match>, SearchError>
        requires { AreCachesOf cache.old self.now }
        ensures of { AreCachesOf cache.new self.now }
        ensures next { IfOk result (IsNextMatch self.now input.now last) }
        ensures goes_on { IfOk result (λ o. IfSome o (GoesPast self.now input.now last)) }
        ensures unsupported { IsUnsupported Forward self.now.forward input.now
            → result ≡ Err (unsupported_error input.now) }
        ensures ahead { OnErr result (input.now.start ≤ input.now.end) }
        ensures effect { IsNextRun self.now input.now last cache.old cache.new (result_err result) }
    {
        matches_agree();
        let Some(found) = self.try_search(cache, input)? else {
            return Ok(None);
        };
        if !is_empty_at(last, &found) {
            return Ok(Some(found));
        }
        let rest = from(input, input.start() + 1);
        self.try_search(cache, &rest)
    }

    /// Returns an iterator over the matches of an input. The iterator itself allocates nothing.
    ///
    /// If a search fails, its error is the last item:
    ///
    /// ```rust
    /// for found in regex.find_iter(&mut cache, Input::new(b"foo 12 bar")) {
    ///     let found = found?;
    ///     println!(rt; "{}..{}", found.start(), found.end())?;
    /// }
    /// ```
    pub fn find_iter<'r, 'c, 'h>(
        &'r self,
        cache: &'c mut Cache,
        input: Input<'h>,
    ) -> FindMatches<'r, 'c, 'h>
        requires { AreCachesOf cache.old self.now }
        ensures same_cache { result.cache.ghost_name ≡ cache.entry.ghost_name }
        ensures cache { result.cache.now ≡ cache.old }
        ensures regex { result.regex.now ≡ self.now }
        ensures input { input_over result.haystack.now result.start result.end result.anchored result.earliest
            ≡ input.entry }
        ensures last { result.last ≡ None }
        ensures ended { result.ended ≡ false }
        ensures valid { IsValidInput input.entry }
    {
        FindMatches {
            regex: self,
            cache,
            haystack: input.haystack(),
            start: input.start(),
            end: input.end(),
            anchored: input.get_anchored(),
            earliest: input.get_earliest(),
            last: None,
            ended: false,
        }
    }
}

/// An iterator over the remaining matches of an input. An error is its last item. After the last item each call returns
/// none. If the anchored mode is not supported, its only item is an error, unless the input is done.
#[derive(Drop)]
pub struct FindMatches<'r, 'c, 'h> {
    regex: &'r Regex,
    cache: &'c mut Cache,
    haystack: &'h [u8],
    start: usize,
    end: usize,
    anchored: Anchored,
    earliest: bool,
    last: Option<usize>,
    ended: bool,
    ghost within: { Allows haystack.now start end },
    ghost of: { AreCachesOf cache.now regex.now },
}

/// Formats the progress of the iteration.
impl<'r, 'c, 'h> fmt::Debug for FindMatches<'r, 'c, 'h> {
    fn fmt<W: fmt::Write>(&self, f: &mut fmt::Formatter<W>) -> fmt::Result {
        f.debug_struct("FindMatches")
            .field("start", &self.start)
            .field("end", &self.end)
            .field("last", &self.last)
            .field("ended", &self.ended)
            .finish_non_exhaustive()
    }
}

impl<'r, 'c, 'h> FindMatches<'r, 'c, 'h> {
    /// Returns the remaining input.
    fn input(&self) -> Input<'h>
        ensures { result ≡ input_over self.now.haystack.now self.now.start self.now.end self.now.anchored
            self.now.earliest }
    {
        Input::new(self.haystack)
            .range(self.start..self.end)
            .anchored(self.anchored)
            .earliest(self.earliest)
    }
}

impl<'r, 'c, 'h> Iterator for FindMatches<'r, 'c, 'h> {
    type Item = Result<Match, SearchError>;

    ghost next_gives = { λ s r t. GivesItem s.regex.now r
        (input_over s.haystack.now s.start s.end s.anchored s.earliest)
        (input_over t.haystack.now t.start t.end t.anchored t.earliest)
        s.last t.last s.ended t.ended
        × (t.regex.now ≡ s.regex.now) × (t.cache.ghost_name ≡ s.cache.ghost_name)
        × IsItemRun s.regex.now (input_over s.haystack.now s.start s.end s.anchored s.earliest) s.last s.ended
        s.cache.now t.cache.now r
        × ReportsUnsupported s.regex.now (input_over s.haystack.now s.start s.end s.anchored s.earliest) s.ended r
        × (t.haystack.now ≡ s.haystack.now) × LiesInHaystack s.haystack.now r };

    ghost remaining = { λ s.
        at_most (most_items s.ended (input_over s.haystack.now s.start s.end s.anchored s.earliest) s.last) };

    fn next(&mut self) -> Option<Result<Match, SearchError>> {
        if self.ended {
            return None;
        }
        let input = self.input();
        match self.regex.next_match(self.cache, &input, self.last) {
            Ok(Some(found)) => {
                self.start = found.end();
                self.last = Some(found.end());
                Some(Ok(found))
            }
            Ok(None) => {
                self.ended = true;
                None
            }
            Err(error) => {
                self.ended = true;
                Some(Err(error))
            }
        }
    }
}
