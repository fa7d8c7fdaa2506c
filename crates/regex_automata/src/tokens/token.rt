ghost use Rattle.std.specs.Prelude.{◌≤◌, ◌-◌, ◌↔◌, IsTrue};
ghost use Rattle.automata_base.specs.Powersets.Powerset.{IsId};

use automata_base::util::primitives::PatternID;
use automata_base::util::search::Span;
use std::alloc::AllocError;
use std::ops::Range;

/// A pattern and the bytes that it matches. The bytes are borrowed only from the haystack, so you can keep a token when
/// the iterator that returned it and its cache are gone.
#[derive(Copy, Debug)]
pub struct Token<'h> {
    // A plain number: with a type that has a model, callers that pass a token by value could not be proved.
    pattern: u32,
    span: Span,
    bytes: &'h [u8],
    ghost known: { IsId pattern },
    ghost ordered: { span.start ≤ span.end },
}

impl<'h> Token<'h> {
    ghost use Rattle.std.specs.Prelude.{◌≡◌, length};
    ghost use Rattle.regex_automata.specs.Tokens.{match_bytes, match_of};

    /// Returns the token of a pattern over a span of the haystack.
    pub(super) fn new(haystack: &'h [u8], pattern: PatternID, span: Span) -> Token<'h>
        requires ordered { span.start ≤ span.end }
        requires within { span.end ≤ length haystack.now }
        ensures found { match_of result ≡ record { pattern = pattern; start = span.start; end = span.end } }
        ensures bytes { result.bytes.now ≡ match_bytes haystack.now (match_of result) }
    {
        Token {
            pattern: pattern.as_u32(),
            span,
            bytes: &haystack[span.start..span.end],
        }
    }

    /// Returns the token's pattern.
    pub fn pattern(&self) -> PatternID
        ensures { result ≡ self.now.pattern }
    {
        PatternID::new_unchecked(self.pattern)
    }

    /// Returns the token's span in the haystack.
    pub fn span(&self) -> Span
        ensures start { result.start ≡ self.now.span.start }
        ensures end { result.end ≡ self.now.span.end }
        ensures ordered { result.start ≤ result.end }
    {
        self.span
    }

    /// Returns the offset where the token starts.
    pub fn start(&self) -> usize
        ensures start { result ≡ self.now.span.start }
        ensures ordered { self.now.span.start ≤ self.now.span.end }
    {
        self.span.start
    }

    /// Returns the offset where the token ends.
    pub fn end(&self) -> usize
        ensures end { result ≡ self.now.span.end }
        ensures ordered { self.now.span.start ≤ self.now.span.end }
    {
        self.span.end
    }

    /// Returns the token's span in the haystack, as a range.
    pub fn range(&self) -> Range<usize>
        ensures start { result.start ≡ self.now.span.start }
        ensures end { result.end ≡ self.now.span.end }
    {
        self.span.range()
    }

    /// Returns the token's length in bytes.
    pub fn len(&self) -> usize
        ensures { result ≡ self.now.span.end - self.now.span.start }
    {
        self.span.len()
    }

    /// Whether the token is empty. An iterator never returns an empty token.
    pub fn is_empty(&self) -> bool
        ensures { IsTrue result ↔ (self.now.span.end ≤ self.now.span.start) }
    {
        self.span.is_empty()
    }

    /// Returns the bytes of the token.
    pub fn bytes(&self) -> &'h [u8]
        ensures { result.now ≡ self.now.bytes.now }
    {
        self.bytes
    }
}

impl<'h> Clone for Token<'h> {
    ghost use Rattle.std.specs.Prelude.{◌≡◌};

    ghost is_clone = { λ a b. b ≡ a };

    fn clone(&self) -> Result<Token<'h>, AllocError> {
        Ok(*self)
    }
}
