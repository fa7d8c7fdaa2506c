//! Searches for one end of a match. If what is found is skipped because it is inside a character, the next span is
//! searched.
ghost use Rattle.std.specs.Prelude.{◌≡◌, ◌+◌, ◌-◌, IfOk, IfSome};
ghost use Rattle.std.specs.Result.{result_err};
ghost use Rattle.automata_base.specs.Haystacks.Input.{IsValidInput};
ghost use Rattle.automata_base.specs.declared.util.search.Direction.TheVariants.{Forward, Backward};
ghost use Rattle.automata_hybrid.specs.Cache.Caches.{IsCacheOf};
ghost use Rattle.automata_hybrid.specs.Known.Passes.{HaveTried, IsSearchRun};
ghost use Rattle.automata_hybrid.specs.Known.Stores.{known_of};
ghost use Rattle.automata_hybrid.specs.Private.Cache.Sound.{IsSoundCacheOf};
ghost use Rattle.automata_hybrid.specs.Private.Searches.Contracts.{halves, IsSearchResult};
ghost use Rattle.automata_hybrid.specs.Private.Searches.PassContracts.{MayBegin, input_at};
ghost use Rattle.automata_hybrid.specs.Searches.Contracts.{IsBased, IsHalf, based_half};
ghost use Rattle.automata_hybrid.specs.Searches.Passes.{IsFound, WithoutBase};

use crate::cache::Cache;
use crate::dfa::DFA;
use crate::search::direction::{begin_later, input_of};
use crate::search::pass::pass;
use crate::search::skips_at;
use automata_base::util::search::{Anchored, Direction, HalfMatch, Input, Span};
use automata_config::error::SearchError;
use automata_determinize::laws::reported_is_right;

/// Returns what a search found, without the start of its span.
fn without_base(
    found: Result<Option<(HalfMatch, usize)>, SearchError>,
) -> Result<Option<HalfMatch>, SearchError>
    ensures { result ≡ halves found }
{
    match found {
        Ok(Some((half, _))) => Ok(Some(half)),
        Ok(None) => Ok(None),
        Err(error) => Err(error),
    }
}

impl DFA {
    /// Returns the pattern and the end of a match, if there is one. Under `MatchKind::LeftmostFirst` it is the first
    /// match, under `MatchKind::All` the match that ends last; with an earliest input it is the match that ends first.
    ///
    /// ```rust
    /// let input = Input::new(line).earliest(true);
    /// let found = self.dfa.try_search_fwd(&mut self.cache, &input)?;
    /// Ok(found.is_some())
    /// ```
    ///
    /// The error for a quit byte has the byte's offset; the "gave up" error has the offset of the byte that was to be
    /// read next, or the span's start. It also fails if the DFA does not support the anchored mode
    /// (`Config::starts_for_each_pattern`), and if memory runs out. After an error the cache serves other searches as
    /// before.
    ///
    /// It takes time linear in the span. Only if empty matches inside UTF-8 encoded characters are skipped can it take
    /// quadratic time, since each such match is skipped by searching again from one offset later.
    pub fn try_search_fwd(
        &self,
        cache: &mut Cache,
        input: &Input<'_>,
    ) -> Result<Option<HalfMatch>, SearchError>
        requires { IsCacheOf cache.old self.now }
        ensures of { IsCacheOf cache.new self.now }

        // What it returns by paths, and by passes, whatever the cache.
        ensures half { IsHalf Forward self.now input.now result }
        ensures found { IfOk result (WithoutBase (IsFound Forward self.now input.now)) }

        // What it does to the cache, and why it fails.
        ensures effect { IsSearchRun Forward self.now input.now (known_of cache.old) (known_of cache.new)
            (result_err result) }
    {
        reported_is_right(self.get_nfa());
        let found = search(self, cache, input, Direction::Forward);
        without_base(found)
    }

    /// Returns what `try_search_fwd` returns, with the start of the span that gave it: an end inside a UTF-8 encoded
    /// character is skipped by searching again from one offset later.
    #[inline(always)]
    pub fn try_search_fwd_base(
        &self,
        cache: &mut Cache,
        input: &Input<'_>,
    ) -> Result<Option<(HalfMatch, usize)>, SearchError>
        requires { IsCacheOf cache.old self.now }
        ensures of { IsCacheOf cache.new self.now }

        // What it returns by paths, and by passes, whatever the cache.
        ensures based { IsBased self.now input.now result }
        ensures found { IfOk result (λ o. IsFound Forward self.now input.now (based_half o)) }

        // What it does to the cache, and why it fails; if it answers, the pass over the span that gave the answer is
        // its last.
        ensures effect { IsSearchRun Forward self.now input.now (known_of cache.old) (known_of cache.new)
            (result_err result) }
        ensures upto { IfOk result (λ o. IfSome o (λ p. HaveTried Forward self.now input.now
            (p.1 - input.now.start + 1) (known_of cache.old) (known_of cache.new))) }
        ensures valid { IsValidInput input.now }
    {
        reported_is_right(self.get_nfa());
        search(self, cache, input, Direction::Forward)
    }

    /// Returns the pattern and the start of a match, if a search from the span's end to its start finds one. Under
    /// `MatchKind::All` it is the longest match that ends there; with an earliest input it is the shortest.
    ///
    /// With the DFA of a reversed NFA, this is where a match of the NFA itself begins. A start inside a UTF-8 encoded
    /// character is skipped by searching again from one offset before.
    ///
    /// The error for a quit byte has the byte's offset; the "gave up" error has the offset of the byte that was to be
    /// read next, or the span's end or start. It also fails if the DFA does not support the anchored mode
    /// (`Config::starts_for_each_pattern`), and if memory runs out. After an error the cache serves other searches as
    /// before.
    ///
    /// It takes time linear in the span. Only if empty matches inside UTF-8 encoded characters are skipped can it take
    /// quadratic time, as `try_search_fwd`.
    #[inline(always)]
    pub fn try_search_rev(
        &self,
        cache: &mut Cache,
        input: &Input<'_>,
    ) -> Result<Option<HalfMatch>, SearchError>
        requires { IsCacheOf cache.old self.now }
        ensures of { IsCacheOf cache.new self.now }

        // What it returns by paths, and by passes, whatever the cache.
        ensures half { IsHalf Backward self.now input.now result }
        ensures found { IfOk result (WithoutBase (IsFound Backward self.now input.now)) }

        // What it does to the cache, and why it fails.
        ensures effect { IsSearchRun Backward self.now input.now (known_of cache.old) (known_of cache.new)
            (result_err result) }
    {
        reported_is_right(self.get_nfa());
        let found = search(self, cache, input, Direction::Backward);
        without_base(found)
    }
}

/// Returns what was found and the start of the span that gave it. If no offset is skipped, it makes one pass.
#[inline(always)]
fn search(
    dfa: &DFA,
    cache: &mut Cache,
    input: &Input<'_>,
    way: Direction,
) -> Result<Option<(HalfMatch, usize)>, SearchError>
    requires { IsCacheOf cache.old dfa.now }
    ensures of { IsCacheOf cache.new dfa.now }
    ensures searched { IsSearchResult way dfa.now input.now (known_of cache.old) (known_of cache.new) result }
    ensures valid { IsValidInput input.now }
{
    cache.reveal_invariant_of(dfa);
    if dfa.skips() {
        return match search_skipping(
            dfa,
            cache,
            input.haystack(),
            input.get_span(),
            input.get_anchored(),
            input.get_earliest(),
            way,
        ) {
            Ok(found) => Ok(found),
            Err(error) => Err(error),
        };
    }
    if input.is_done() {
        return Ok(None);
    }
    match pass(dfa, cache, input, way) {
        Ok(Some(half)) => Ok(Some((half, input.start()))),
        Ok(None) => Ok(None),
        Err(error) => Err(error),
    }
}

/// Searches one span after another, if offsets inside a character are skipped. It takes the parts of the input, as
/// `begin_of` does.
#[inline(never)]
fn search_skipping(
    dfa: &DFA,
    cache: &mut Cache,
    haystack: &[u8],
    span: Span,
    anchored: Anchored,
    earliest: bool,
    way: Direction,
) -> Result<Option<(HalfMatch, usize)>, SearchError>
    requires { MayBegin dfa.now cache.old (input_at haystack.now span anchored earliest) }
    ensures sound { IsSoundCacheOf cache.new dfa.now }
    ensures searched { IsSearchResult way dfa.now
        (input_at haystack.now span anchored earliest) (known_of cache.old) (known_of cache.new) result }
{
    let own = input_of(haystack, span, anchored, earliest);
    match way {
        Direction::Forward => search_spans(dfa, cache, &own, Direction::Forward),
        Direction::Backward => search_spans(dfa, cache, &own, Direction::Backward),
    }
}

/// Searches one span after another. Returns what was found and the start of the span that gave it.
#[inline(always)]
fn search_spans(
    dfa: &DFA,
    cache: &mut Cache,
    input: &Input<'_>,
    way: Direction,
) -> Result<Option<(HalfMatch, usize)>, SearchError>
    requires { IsSoundCacheOf cache.old dfa.now }
    ensures sound { IsSoundCacheOf cache.new dfa.now }
    ensures searched { IsSearchResult way dfa.now input.now (known_of cache.old) (known_of cache.new) result }
{
    let mut later = input.copied();
    while !later.is_done() {
        // No `?`: it passes each value through memory, even if there is no error.
        let found = match pass(dfa, cache, &later, way) {
            Ok(found) => found,
            Err(error) => return Err(error),
        };
        let Some(half) = found else {
            return Ok(None);
        };
        if !skips_at(dfa, &later, half.offset()) {
            return Ok(Some((half, later.start())));
        }
        if later.get_anchored().is_anchored() {
            return Ok(None);
        }
        if !begin_later(&mut later, way) {
            return Ok(None);
        }
    }
    Ok(None)
}
