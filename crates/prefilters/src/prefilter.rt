//! A fast search for the first offset where a match may begin.
ghost use Rattle.std.specs.Prelude.{◌≡◌, ◌↔◌, ◌≤◌, ℕ, List, IfOk, IfSome, IsTrue, length, map};
ghost use Rattle.regex_extract.specs.Needles.{needles_of};
ghost use Rattle.regex_literal.specs.BoundedSearch.{IsBounded};
ghost use Rattle.regex_literal.specs.Find.{AllAtMost};
ghost use Rattle.prefilters.specs.NeedleSearches.{needles_in};
ghost use Rattle.prefilters.specs.Needles.{AreNearInShort, NearNeedles, ReachesAll, SkipsTo, StopsBeforeNeedle};
ghost use Rattle.prefilters.specs.declared.heads.Head.TheVariants.{Of, Within};

use crate::heads::{Head, run_start};
use crate::pairs::Pairs;
use regex_literal::{Bounded, Prefilter as Search};
use std::alloc::{AllocError, Global};
use std::marker::Model;

/// Literals one of which every match has. None is empty.
pub type Needles = Vec<Vec<u8>>;

/// A search for needles.
#[derive(Drop)]
enum NeedleSearch {
    /// That of the kit, which is fast for one needle, and for two that begin with different bytes.
    Literals(Search),
    /// The search for several needles by two bytes of each.
    Pairs(Pairs),
}

/// A fast search for the first offset where a match may begin, as a needle occurs there, or after what may be the head of
/// a match. A contract sees it as the needles and what is known of the head.
#[derive(Drop)]
pub struct Prefilter {
    search: NeedleSearch,
    longest: usize,
    head: Head,
}

impl Model for Prefilter {
    ghost Value = { NearNeedles };

    ghost view = { λ p. record { needles = needles_in p.search; head = p.head } };

    ghost invariant = { λ p. AllAtMost (needles_in p.search) p.longest };
}

/// Returns the length of the longest needle.
fn longest(needles: &[Vec<u8>]) -> usize
    ensures { AllAtMost (map (λ v. v.items) needles.now) result }
{
    let mut longest = 0;
    for needle in needles {
        if needle.len() > longest {
            longest = needle.len();
        }
    }
    longest
}

/// Returns how many bytes after the start of a match one of the needles begins at most, if the match contains it and has
/// at most `most` bytes.
fn reach_in(needles: &[Vec<u8>], most: usize) -> usize
    ensures { ReachesAll (map (λ v. v.items) needles.now) result most }
{
    let mut reach = 0;
    for needle in needles {
        let rest = most.saturating_sub(needle.len());
        if rest > reach {
            reach = rest;
        }
    }
    reach
}

/// Returns the offset up to which no needle occurs, or none if none occurs in the haystack.
fn reached(found: Bounded) -> Option<usize>
    ensures { (hay : List ℕ) (needles : List (List ℕ)) (start : ℕ) → IsBounded hay needles start found
        → StopsBeforeNeedle hay needles start (length hay) result }
{
    match found {
        Bounded::Found(at, _) | Bounded::Tired(at) => Some(at),
        Bounded::Missing => None,
    }
}

/// Whether the needles are more than two, or two with the same first byte.
fn are_several(needles: &[Vec<u8>]) -> bool {
    match needles.len() {
        0 | 1 => false,
        2 => needles[0].first() == needles[1].first(),
        _ => true,
    }
}

impl NeedleSearch {
    /// Returns the search that is fast for these needles, or none if they are too many, or one is empty.
    fn new(alloc: Global, needles: Needles) -> Result<Option<NeedleSearch>, AllocError>
        ensures { IfOk result (λ o. IfSome o (λ s. needles_in s ≡ needles_of needles)) }
    {
        if are_several(&needles) {
            match Pairs::new(alloc, needles) {
                Ok(Some(pairs)) => Ok(Some(NeedleSearch::Pairs(pairs))),
                Ok(None) => Ok(None),
                Err(error) => Err(error),
            }
        } else {
            match Search::new(alloc, needles) {
                Ok(Some(search)) => Ok(Some(NeedleSearch::Literals(search))),
                Ok(None) => Ok(None),
                Err(error) => Err(error),
            }
        }
    }

    /// Returns the first offset from `start` on at which a needle occurs, or an offset before it; none if there is no
    /// such offset.
    #[inline(always)]
    fn find(&self, hay: &[u8], start: usize) -> Option<usize>
        requires { start ≤ length hay.now }
        ensures { StopsBeforeNeedle hay.now (needles_in self.now) start (length hay.now) result }
    {
        match self {
            NeedleSearch::Literals(search) => reached(search.find_bounded(hay, start)),
            NeedleSearch::Pairs(pairs) => pairs.find(hay, start, hay.len()),
        }
    }
}

impl Prefilter {
    /// Returns the search for these needles, one of which comes after the head of each match; none if they are too many,
    /// or one is empty.
    pub fn new(alloc: Global, needles: Needles, head: Head) -> Result<Option<Prefilter>, AllocError>
        ensures { IfOk result (λ o. IfSome o (λ p. p ≡ record { needles = needles_of needles; head = head })) }
    {
        let longest = longest(&needles);
        match NeedleSearch::new(alloc, needles) {
            Ok(Some(search)) => Ok(Some(Prefilter {
                search,
                longest,
                head,
            })),
            Ok(None) => Ok(None),
            Err(error) => Err(error),
        }
    }

    /// Returns the search for needles, one of which each match contains somewhere, where a match has at most `most`
    /// bytes; none if they are too many, or one is empty.
    pub fn for_inner(
        alloc: Global,
        needles: Needles,
        most: usize,
    ) -> Result<Option<Prefilter>, AllocError>
        ensures needles { IfOk result (λ o. IfSome o (λ p. p.needles ≡ needles_of needles)) }
        ensures near { IfOk result (λ o. IfSome o (AreNearInShort (needles_of needles) most)) }
    {
        let reach = reach_in(&needles, most);
        Prefilter::new(alloc, needles, Head::Within(reach))
    }

    /// Whether a needle is near an offset only if it occurs there: every match begins with one.
    pub fn is_at_start(&self) -> bool
        ensures { IsTrue result ↔ (self.now.head ≡ Within 0) }
    {
        matches!(self.head, Head::Within(0))
    }

    /// Returns the first offset of the span where a needle is at most `reach` bytes away.
    fn skip_within(&self, reach: usize, hay: &[u8], start: usize, end: usize) -> Option<usize>
        requires span { start ≤ end }
        requires within { end ≤ length hay.now }
        ensures { SkipsTo hay.now (record { needles = self.now.needles; head = Within reach }) start end result }
    {
        let past = self.longest.saturating_add(reach);
        let cut = end + past.min(hay.len() - end);
        let Some(at) = self.search.find(&hay[..cut], start) else {
            return None;
        };
        let first = at.saturating_sub(reach);
        if first > end {
            None
        } else {
            Some(first.max(start))
        }
    }

    /// Returns the first offset of the rest of the haystack from which bytes of the table lead to a needle.
    fn skip_over(&self, table: &[bool; 256], hay: &[u8], start: usize) -> Option<usize>
        requires { start ≤ length hay.now }
        ensures { SkipsTo hay.now (record { needles = self.now.needles; head = Of table.now }) start (length hay.now)
            result }
    {
        match self.search.find(hay, start) {
            Some(at) => Some(run_start(table, hay, start, at)),
            None => None,
        }
    }

    /// Returns the start of the rest of the haystack, or none if no needle is left.
    fn skip_nothing(&self, hay: &[u8], start: usize) -> Option<usize>
        requires { start ≤ length hay.now }
        ensures { SkipsTo hay.now self.now start (length hay.now) result }
    {
        match self.search.find(hay, start) {
            Some(_) => Some(start),
            None => None,
        }
    }

    /// Returns the first offset of the span `start..end`, its end included, where a match may begin, as a needle is
    /// near; none if there is no such offset. It gives up, and returns an offset before that, if it reads many bytes that
    /// only look like needles, and in a search for several needles if few bytes are left.
    ///
    /// If a head has at most some number of bytes, no bytes are read after the span but those of a needle that is within
    /// reach. Other heads have any length: with them nothing is skipped unless the span ends with the haystack and, if
    /// nothing is known of the head, begins with it, so that the searches of an iteration read no byte twice.
    pub fn skip(&self, hay: &[u8], start: usize, end: usize) -> Option<usize>
        requires span { start ≤ end }
        requires within { end ≤ length hay.now }
        ensures { SkipsTo hay.now self.now start end result }
    {
        match &self.head {
            Head::Within(reach) => self.skip_within(*reach, hay, start, end),
            Head::Of(table) if end == hay.len() => self.skip_over(table, hay, start),
            Head::Any if end == hay.len() && start == 0 => self.skip_nothing(hay, start),
            _ => Some(start),
        }
    }
}
