//! The inputs, anchored modes, matches and errors of searches.
use crate::util::primitives::PatternID;
use std::fmt;
use std::marker::Model;
use std::ops::Range;
use thiserror::Error;

/// A part of a haystack, between two byte offsets.
#[derive(Clone, Copy, Debug, PartialEq, Eq)]
pub struct Span {
    /// The offset where the part starts.
    pub start: usize,
    /// The offset where the part ends.
    pub end: usize,
}

impl Span {
    ghost use Rattle.std.specs.Prelude.{◌≡◌, ◌<◌, ◌≤◌, ◌+◌, ◌-◌, ◌^◌, ◌↔◌, IsTrue};

    /// Returns the number of bytes of the span. It is 0 if the span starts after its end.
    pub fn len(&self) -> usize
        ensures { result ≡ self.now.end - self.now.start }
    {
        self.end.saturating_sub(self.start)
    }

    /// Whether the span contains no byte: its start is not below its end.
    pub fn is_empty(&self) -> bool
        ensures { IsTrue result ↔ (self.now.end ≤ self.now.start) }
    {
        self.start >= self.end
    }

    /// Returns the span as a range, for indexing a slice.
    pub fn range(&self) -> Range<usize>
        ensures start { result.start ≡ self.now.start }
        ensures end { result.end ≡ self.now.end }
    {
        self.start..self.end
    }

    /// Whether the offset lies in the span, its two ends included. An empty span contains none.
    pub fn contains(&self, offset: usize) -> bool
        ensures { IsTrue result ↔ (self.now.start < self.now.end) × (self.now.start ≤ offset)
            × (offset ≤ self.now.end) }
    {
        !self.is_empty() && self.start <= offset && offset <= self.end
    }

    /// Returns the span moved right by `offset` bytes.
    pub fn offset(&self, offset: usize) -> Span
        requires start { self.now.start + offset < 2 ^ 64 }
        requires end { self.now.end + offset < 2 ^ 64 }
        ensures { result ≡ record { start = self.now.start + offset; end = self.now.end + offset } }
    {
        Span {
            start: self.start + offset,
            end: self.end + offset,
        }
    }
}

/// A pattern that matches, and one offset of its match: the end, or, for a reverse search, the start.
#[derive(Clone, Copy, Debug, PartialEq, Eq)]
pub struct HalfMatch {
    pattern: PatternID,
    offset: usize,
}

impl Model for HalfMatch {
    ghost use Rattle.automata_base.specs.Haystacks.Matches as matches;

    ghost Value = { matches.HalfMatch };

    ghost view = { λ m. record { pattern = m.pattern; offset = m.offset } };

    ghost inverse = { λ v. record { pattern = v.pattern; offset = v.offset } };
}

impl HalfMatch {
    ghost use Rattle.std.specs.Prelude.{◌≡◌};

    /// Returns a match of a pattern with this offset.
    pub fn new(pattern: PatternID, offset: usize) -> HalfMatch
        ensures { result ≡ record { pattern = pattern; offset = offset } }
    {
        HalfMatch { pattern, offset }
    }

    /// Returns the pattern that matched.
    pub fn pattern(&self) -> PatternID
        ensures { result ≡ self.now.pattern }
    {
        self.pattern
    }

    /// Returns the offset in the haystack, in bytes, where the match ends; for a reverse search, where it starts.
    pub fn offset(&self) -> usize
        ensures { result ≡ self.now.offset }
    {
        self.offset
    }
}

/// A pattern that matches, and the span of its match.
#[derive(Clone, Copy, Debug, PartialEq, Eq)]
pub struct Match {
    pattern: PatternID,
    span: Span,
}

impl Model for Match {
    ghost use Rattle.std.specs.Prelude.{◌≤◌};
    ghost use Rattle.automata_base.specs.Haystacks.Matches as matches;

    ghost Value = { matches.Match };

    ghost view = { λ m. record { pattern = m.pattern; start = m.span.start; end = m.span.end } };

    ghost invariant = { λ m. m.span.start ≤ m.span.end };

    ghost inverse = { λ v. record { pattern = v.pattern; span = record { start = v.start; end = v.end } } };
}

impl Match {
    ghost use Rattle.std.specs.Prelude.{◌≡◌, ◌≤◌};

    /// Returns a match of a pattern. The span's start must be at most its end.
    pub fn new(pattern: PatternID, span: Span) -> Match
        requires { span.start ≤ span.end }
        ensures { result ≡ record { pattern = pattern; start = span.start; end = span.end } }
    {
        Match { pattern, span }
    }

    /// Returns the pattern that matched.
    pub fn pattern(&self) -> PatternID
        ensures { result ≡ self.now.pattern }
    {
        self.pattern
    }

    /// Returns the span of the match.
    pub fn span(&self) -> Span
        ensures start { result.start ≡ self.now.start }
        ensures end { result.end ≡ self.now.end }
        ensures ordered { result.start ≤ result.end }
    {
        self.span
    }

    /// Returns the offset in the haystack, in bytes, where the match starts.
    pub fn start(&self) -> usize
        ensures start { result ≡ self.now.start }
        ensures ordered { self.now.start ≤ self.now.end }
    {
        self.span.start
    }

    /// Returns the offset in the haystack, in bytes, where the match ends.
    pub fn end(&self) -> usize
        ensures end { result ≡ self.now.end }
        ensures ordered { self.now.start ≤ self.now.end }
    {
        self.span.end
    }
}

/// The kind of matches that a search reports: all of them, or those that a backtracking matcher would find first.
#[derive(Clone, Copy, Debug, PartialEq, Eq)]
pub enum MatchKind {
    /// Every accepting path counts. A search reports the match that ends last, and an overlapping search reports all of
    /// them.
    All,
    /// The preferred path counts: the one that a backtracking matcher would find first.
    LeftmostFirst,
}

/// The direction in which a search reads its span.
#[derive(Clone, Copy, Debug, PartialEq, Eq)]
pub enum Direction {
    /// From the start of the span to its end.
    Forward,
    /// From the end of the span to its start.
    Backward,
}

/// Where a match may begin, and of which pattern: anywhere in the span, only where the search starts, or only there and
/// only of one pattern.
#[derive(Clone, Copy, Debug, PartialEq, Eq)]
pub enum Anchored {
    /// A match may begin anywhere in the span.
    No,
    /// A match may begin only where the search starts.
    Yes,
    /// A match may begin only where the search starts, and must be of this pattern.
    Pattern(PatternID),
}

impl Anchored {
    ghost use Rattle.std.specs.Prelude.{◌≡◌, true, false};

    /// Whether a match may begin only where the search starts.
    pub fn is_anchored(&self) -> bool
        ensures no { result ≡ false → self.now ≡ Anchored.No }
        ensures yes { result ≡ true → self.now ≡ Anchored.No → ⊥ }
    {
        match self {
            Anchored::No => false,
            Anchored::Yes | Anchored::Pattern(_) => true,
        }
    }
}

impl fmt::Display for Anchored {
    ghost use Rattle.std.specs.Prelude.{Some};
    ghost use Rattle.automata_base.specs.Haystacks.Input.{mode_text};

    ghost output = { λ mode. Some (mode_text mode) };

    fn fmt<W: fmt::Write>(&self, f: &mut fmt::Formatter<W>) -> fmt::Result {
        match self {
            Anchored::No => write!(f, "unanchored searches"),
            Anchored::Yes => write!(f, "anchored searches"),
            Anchored::Pattern(pattern) => {
                let number = pattern.as_usize();
                write!(f, "anchored searches for a specific pattern ({number})")
            }
        }
    }
}

/// Why a search fails, other than for lack of memory.
#[derive(Clone, Copy, Debug, PartialEq, Eq, Error)]
pub enum MatchErrorKind {
    /// A quit byte was read at this offset.
    #[error("quit search after observing byte {byte:#04X} at offset {offset}")]
    Quit { byte: u8, offset: usize },
    /// The search gave up at this offset: its cache is full, and the settings do not allow another clear.
    #[error("gave up searching at offset {offset}")]
    GaveUp { offset: usize },
    /// The anchored mode of the input is not supported.
    #[error("{mode} are not supported or enabled")]
    UnsupportedAnchored { mode: Anchored },
}

/// The error of a search, of one of the kinds that `MatchErrorKind` lists.
#[derive(Clone, Copy, Debug, PartialEq, Eq, Error)]
#[error("{kind}")]
pub struct MatchError {
    kind: MatchErrorKind,
}

impl Model for MatchError {
    ghost use Rattle.automata_base.specs.declared.util.search.MatchErrorKind.{MatchErrorKind};

    ghost Value = { MatchErrorKind };

    ghost view = { λ e. e.kind };

    ghost inverse = { λ v. record { kind = v } };
}

impl MatchError {
    ghost use Rattle.std.specs.Prelude.{◌≡◌};

    /// Returns the error of a search that met a quit byte at this offset of the haystack.
    pub fn quit(byte: u8, offset: usize) -> MatchError
        ensures { result ≡ MatchErrorKind.Quit byte offset }
    {
        MatchError {
            kind: MatchErrorKind::Quit { byte, offset },
        }
    }

    /// Returns the error of a search that gave up at this offset of the haystack.
    pub fn gave_up(offset: usize) -> MatchError
        ensures { result ≡ MatchErrorKind.GaveUp offset }
    {
        MatchError {
            kind: MatchErrorKind::GaveUp { offset },
        }
    }

    /// Returns the error of a search in an anchored mode that is not supported.
    pub fn unsupported_anchored(mode: Anchored) -> MatchError
        ensures { result ≡ MatchErrorKind.UnsupportedAnchored mode }
    {
        MatchError {
            kind: MatchErrorKind::UnsupportedAnchored { mode },
        }
    }

    /// Returns why the search failed.
    pub fn kind(&self) -> &MatchErrorKind
        ensures { result.now ≡ self.now }
    {
        &self.kind
    }
}

/// The parameters of a search: a haystack, a span of it, an anchored mode, and whether the search may stop at the first
/// match that it sees.
#[derive(Clone, Debug, Drop)]
pub struct Input<'h> {
    haystack: &'h [u8],
    span: Span,
    anchored: Anchored,
    earliest: bool,
}

impl<'h> Model for Input<'h> {
    ghost use Rattle.automata_base.specs.Haystacks.Input as spec;
    ghost use Rattle.automata_base.specs.Haystacks.Tapes.{IsHaystack};

    ghost Value = { spec.Input };

    ghost view = { λ i. record {
      haystack = i.haystack.now;
      start = i.span.start;
      end = i.span.end;
      anchored = i.anchored;
      earliest = i.earliest;
    } };

    ghost invariant = { λ i. spec.Allows i.haystack.now i.span.start i.span.end × IsHaystack i.haystack.now };
}

impl<'h> Input<'h> {
    ghost use Rattle.std.specs.Prelude.{◌≡◌, ◌<◌, ◌≤◌, ◌↔◌, IsTrue, length, false};
    ghost use Rattle.automata_base.specs.Haystacks.Input.{Allows, IsValidInput};
    ghost use Rattle.automata_base.specs.Haystacks.Tapes.{is_split};

    /// Returns an input whose span is the whole haystack, neither anchored nor earliest.
    pub fn new(haystack: &'h [u8]) -> Input<'h>
        ensures input { result ≡ record {
          haystack = haystack.now;
          start = 0;
          end = length haystack.now;
          anchored = Anchored.No;
          earliest = false;
        } }
        ensures valid { IsValidInput result }
    {
        Input {
            haystack,
            span: Span {
                start: 0,
                end: haystack.len(),
            },
            anchored: Anchored::No,
            earliest: false,
        }
    }

    /// Whether the setters accept this span: it must end in the haystack, and start at most one byte after its end.
    pub fn allows(&self, start: usize, end: usize) -> bool
        ensures { IsTrue result ↔ Allows self.now.haystack start end }
    {
        end <= self.haystack.len() && start <= end + 1
    }

    /// Sets the span. By default it is the whole haystack. `allows` tests whether a span may be set.
    pub fn span(self, span: Span) -> Input<'h>
        requires { Allows self.haystack span.start span.end }
        ensures { result ≡ record self.entry { start = span.start; end = span.end } }
    {
        Input {
            haystack: self.haystack,
            span,
            anchored: self.anchored,
            earliest: self.earliest,
        }
    }

    /// Sets the span to this range. `allows` tests whether it may be set.
    pub fn range(self, range: Range<usize>) -> Input<'h>
        requires { Allows self.haystack range.start range.end }
        ensures { result ≡ record self.entry { start = range.start; end = range.end } }
    {
        self.span(Span {
            start: range.start,
            end: range.end,
        })
    }

    /// Returns a copy of the input. Unlike `clone`, it cannot fail.
    pub fn copied(&self) -> Input<'h>
        ensures same { result ≡ self.now }
        ensures valid { IsValidInput result }
    {
        Input {
            haystack: self.haystack,
            span: self.span,
            anchored: self.anchored,
            earliest: self.earliest,
        }
    }

    /// Sets the anchored mode. By default it is `Anchored::No`.
    pub fn anchored(self, mode: Anchored) -> Input<'h>
        ensures { result ≡ record self.entry { anchored = mode } }
    {
        Input {
            haystack: self.haystack,
            span: self.span,
            anchored: mode,
            earliest: self.earliest,
        }
    }

    /// Sets whether a search may stop at the first match that it sees. By default it may not. If offsets inside
    /// characters are skipped, an earliest search may report no match although there is one: call `Regex::is_match`
    /// instead.
    pub fn earliest(self, yes: bool) -> Input<'h>
        ensures { result ≡ record self.entry { earliest = yes } }
    {
        Input {
            haystack: self.haystack,
            span: self.span,
            anchored: self.anchored,
            earliest: yes,
        }
    }

    /// Sets the span in place. `allows` tests whether it may be set.
    pub fn set_span(&mut self, span: Span)
        requires { Allows self.old.haystack span.start span.end }
        ensures { self.new ≡ record self.old { start = span.start; end = span.end } }
    {
        self.span = span;
    }

    /// Sets the span to this range, in place. `allows` tests whether it may be set.
    pub fn set_range(&mut self, range: Range<usize>)
        requires { Allows self.old.haystack range.start range.end }
        ensures { self.new ≡ record self.old { start = range.start; end = range.end } }
    {
        self.span = Span {
            start: range.start,
            end: range.end,
        };
    }

    /// Sets the span's start in place. It may be at most one byte after the span's end; `allows` tests this.
    pub fn set_start(&mut self, start: usize)
        requires { Allows self.old.haystack start self.old.end }
        ensures { self.new ≡ record self.old { start = start } }
    {
        self.span.start = start;
    }

    /// Sets the span's end in place. It must lie in the haystack, and may be at most one byte before the span's start;
    /// `allows` tests this.
    pub fn set_end(&mut self, end: usize)
        requires { Allows self.old.haystack self.old.start end }
        ensures { self.new ≡ record self.old { end = end } }
    {
        self.span.end = end;
    }

    /// Sets the anchored mode in place.
    pub fn set_anchored(&mut self, mode: Anchored)
        ensures { self.new ≡ record self.old { anchored = mode } }
    {
        self.anchored = mode;
    }

    /// Sets in place whether a search may stop at the first match that it sees.
    pub fn set_earliest(&mut self, yes: bool)
        ensures { self.new ≡ record self.old { earliest = yes } }
    {
        self.earliest = yes;
    }

    /// Returns the whole haystack, not only the span: looks see the bytes beside the span.
    pub fn haystack(&self) -> &'h [u8]
        ensures same { result.now ≡ self.now.haystack }
        ensures valid { IsValidInput self.now }
    {
        self.haystack
    }

    /// Returns the offset in the haystack, in bytes, where the span starts.
    pub fn start(&self) -> usize
        ensures start { result ≡ self.now.start }
        ensures valid { IsValidInput self.now }
    {
        self.span.start
    }

    /// Returns the offset in the haystack, in bytes, where the span ends.
    pub fn end(&self) -> usize
        ensures end { result ≡ self.now.end }
        ensures valid { IsValidInput self.now }
    {
        self.span.end
    }

    /// Returns the span that is searched.
    pub fn get_span(&self) -> Span
        ensures start { result.start ≡ self.now.start }
        ensures end { result.end ≡ self.now.end }
        ensures valid { IsValidInput self.now }
    {
        self.span
    }

    /// Returns the span as a range.
    pub fn get_range(&self) -> Range<usize>
        ensures start { result.start ≡ self.now.start }
        ensures end { result.end ≡ self.now.end }
        ensures valid { IsValidInput self.now }
    {
        self.span.start..self.span.end
    }

    /// Returns the anchored mode: where a match may begin, and of which pattern.
    pub fn get_anchored(&self) -> Anchored
        ensures { result ≡ self.now.anchored }
    {
        self.anchored
    }

    /// Whether a search may stop at the first match that it sees.
    pub fn get_earliest(&self) -> bool
        ensures { result ≡ self.now.earliest }
    {
        self.earliest
    }

    /// Whether there is nothing left to search, not even the empty string: the start is after the end.
    pub fn is_done(&self) -> bool
        ensures done { IsTrue result ↔ (self.now.end < self.now.start) }
        ensures valid { IsValidInput self.now }
    {
        self.span.start > self.span.end
    }

    /// Whether the offset lies in the haystack or at its end, and is not inside a UTF-8 encoded character: the byte
    /// there is not a continuation byte, 0x80 to 0xBF.
    pub fn is_char_boundary(&self, offset: usize) -> bool
        ensures { IsTrue result ↔ (offset ≤ length self.now.haystack) × (is_split self.now.haystack offset ≡ false) }
    {
        match self.haystack.get(offset) {
            Some(byte) => *byte < 0x80 || *byte > 0xBF,
            None => offset == self.haystack.len(),
        }
    }
}
