ghost use Rattle.std.specs.Prelude.{◌≡◌, ◌<◌, Some, false};
ghost use Rattle.std.specs.Iterator.{at_most};
ghost use Rattle.automata_base.specs.Haystacks.Input.{Allows};
ghost use Rattle.regex_automata.specs.Regexes.Caches.{AreCachesOf};
ghost use Rattle.regex_automata.specs.Tokens.{GivesToken, IsGivenAt, IsTokenRun, asked, item_of, most_tokens};

use crate::hybrid::dfa;
use crate::hybrid::dfa::DFA;
use crate::hybrid::regex::{Cache, Regex};
use crate::tokens::{Token, TokenError};
use automata_base::util::search::{Anchored, HalfMatch, Input, Match, Span};
use automata_config::error::SearchError;
use std::fmt;

/// Returns the input of the search at an offset: the remaining span, anchored and not earliest.
fn asked<'h>(haystack: &'h [u8], offset: usize, end: usize) -> Input<'h>
    requires { Allows haystack.now offset end }
    ensures { result ≡ asked haystack.now end offset }
{
    Input::new(haystack)
        .range(offset..end)
        .anchored(Anchored::Yes)
}

/// Converts the answer of the search at an offset to a token, as a match, or to the reason why there is none.
fn item(offset: usize, answer: Result<Option<HalfMatch>, SearchError>) -> Result<Match, TokenError>
    ensures { result ≡ item_of offset answer }
{
    match answer {
        Ok(Some(half)) if half.offset() > offset => {
            let span = Span {
                start: offset,
                end: half.offset(),
            };
            Ok(Match::new(half.pattern(), span))
        }
        Ok(_) => Err(TokenError::NoToken(offset)),
        Err(error) => Err(TokenError::Search(error)),
    }
}

/// Returns the token at an offset before the span's end.
fn token_at<'h>(
    regex: &Regex,
    cache: &mut Cache,
    haystack: &'h [u8],
    offset: usize,
    end: usize,
) -> Result<Token<'h>, TokenError>
    requires of { AreCachesOf cache.old regex.now }
    requires ahead { offset < end }
    requires within { Allows haystack.now offset end }
    ensures of { AreCachesOf cache.new regex.now }
    ensures item { IsGivenAt regex.now.forward haystack.now end offset result }
    ensures effect { IsTokenRun regex.now.forward haystack.now end offset cache.old.forward cache.new.forward
        (Some result) }
    ensures reverse { cache.new.reverse ≡ cache.old.reverse }
{
    let input = asked(haystack, offset, end);
    let dfa = regex.forward();
    let found = dfa.try_search_fwd(cache.forward_mut(), &input);
    let token = item(offset, found)?;
    Ok(Token::new(haystack, token.pattern(), token.span()))
}

impl Regex {
    /// Returns an iterator over the tokens of an input's span. It ignores the input's anchored mode and earliest flag,
    /// and allocates nothing.
    ///
    /// Each token is the match of the forward DFA, by its match kind, anchored at the offset where the previous token
    /// ended. A token borrows only from the haystack, so you can keep it when the cache is gone:
    ///
    /// ```rust
    /// for item in self.regex.tokens(&mut self.caches, Input::new(text)) {
    ///     match item {
    ///         Ok(token) => tokens.push(token)?,
    ///         Err(error) => {
    ///             let end = missing(error)?;
    ///             return Ok(Lexed { tokens, end });
    ///         }
    ///     }
    /// }
    /// ```
    pub fn tokens<'r, 'c, 'h>(
        &'r self,
        cache: &'c mut Cache,
        input: Input<'h>,
    ) -> Tokens<'r, 'c, 'h>
        requires { AreCachesOf cache.old self.now }
        ensures same_cache { result.cache.ghost_name ≡ cache.entry.ghost_name }
        ensures cache { result.cache.now ≡ cache.old }
        ensures regex { result.regex.now ≡ self.now }
        ensures haystack { result.haystack.now ≡ input.entry.haystack }
        ensures offset { result.offset ≡ input.entry.start }
        ensures end { result.end ≡ input.entry.end }
        ensures failed { result.failed ≡ false }
    {
        Tokens {
            regex: self,
            cache,
            haystack: input.haystack(),
            offset: input.start(),
            end: input.end(),
            failed: false,
        }
    }
}

/// An iterator over the remaining tokens of a span. An error is its last item. At the span's end and after an error
/// each call returns none.
#[derive(Drop)]
pub struct Tokens<'r, 'c, 'h> {
    regex: &'r Regex,
    cache: &'c mut Cache,
    haystack: &'h [u8],
    offset: usize,
    end: usize,
    failed: bool,
    ghost within: { Allows haystack.now offset end },
    ghost of: { AreCachesOf cache.now regex.now },
}

/// Formats the progress of the iteration.
impl<'r, 'c, 'h> fmt::Debug for Tokens<'r, 'c, 'h> {
    fn fmt<W: fmt::Write>(&self, f: &mut fmt::Formatter<W>) -> fmt::Result {
        f.debug_struct("Tokens")
            .field("start", &self.offset)
            .field("end", &self.end)
            .field("failed", &self.failed)
            .finish_non_exhaustive()
    }
}

impl<'r, 'c, 'h> Iterator for Tokens<'r, 'c, 'h> {
    type Item = Result<Token<'h>, TokenError>;

    ghost next_gives = { λ s r t. GivesToken s.regex.now.forward s.haystack.now s.end r
        s.offset t.offset s.failed t.failed
        × (t.regex.now ≡ s.regex.now) × (t.cache.ghost_name ≡ s.cache.ghost_name)
        × (t.haystack.now ≡ s.haystack.now) × (t.end ≡ s.end)
        × IsTokenRun s.regex.now.forward s.haystack.now s.end s.offset s.cache.now.forward t.cache.now.forward r
        × (t.cache.now.reverse ≡ s.cache.now.reverse) };

    ghost remaining = { λ s. at_most (most_tokens s.failed s.end s.offset) };

    fn next(&mut self) -> Option<Result<Token<'h>, TokenError>> {
        if self.failed || self.offset >= self.end {
            return None;
        }
        match token_at(self.regex, self.cache, self.haystack, self.offset, self.end) {
            Ok(token) => {
                self.offset = token.span().end;
                Some(Ok(token))
            }
            Err(error) => {
                self.failed = true;
                Some(Err(error))
            }
        }
    }
}
