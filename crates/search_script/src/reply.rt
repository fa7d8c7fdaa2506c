//! The line of output for a reply.

use regex_automata::hybrid::SearchError;
use regex_automata::tokens::TokenError;
use regex_automata::util::primitives::PatternID;
use regex_automata::util::search::{HalfMatch, Match, MatchErrorKind};
use replay::{Fault, Reply};
use std::fmt;

/// A reply, printed as its line of the output.
#[derive(Drop)]
pub struct Line<'a>(pub &'a Reply);

impl<'a> fmt::Display for Line<'a> {
    fn fmt<W: fmt::Write>(&self, f: &mut fmt::Formatter<W>) -> fmt::Result {
        match self.0 {
            Reply::Half(found) => write_half(f, found),
            Reply::Span(found) => write_span(f, found),
            Reply::Truth(Ok(holds)) => write!(f, "{holds}"),
            Reply::Spans { found, error } => write_matches(f, found.as_slice(), error.as_ref()),
            Reply::Tokens { found, error } => write_tokens(f, found.as_slice(), error.as_ref()),
            Reply::Begun(Ok(number)) => write!(f, "walk {number}"),
            Reply::Patterns { found, error } => write_patterns(f, found.as_slice(), error.as_ref()),
            Reply::Done(Ok(())) => write!(f, "ok"),
            Reply::Truth(Err(error)) | Reply::Begun(Err(error)) | Reply::Done(Err(error)) => {
                write_error(f, error)
            }
            Reply::Bad(fault) => write_fault(f, *fault),
        }
    }
}

/// Writes a half match as `half PATTERN OFFSET`, with the offset in bytes, or `none`, or the error.
fn write_half<W: fmt::Write>(
    f: &mut fmt::Formatter<W>,
    found: &Result<Option<HalfMatch>, SearchError>,
) -> fmt::Result {
    match found {
        Ok(Some(found)) => {
            let pattern = found.pattern().as_usize();
            let offset = found.offset();
            write!(f, "half {pattern} {offset}")
        }
        Ok(None) => write!(f, "none"),
        Err(error) => write_error(f, error),
    }
}

/// Writes a match as `match PATTERN START..END`, with offsets in bytes, or `none`, or the error.
fn write_span<W: fmt::Write>(
    f: &mut fmt::Formatter<W>,
    found: &Result<Option<Match>, SearchError>,
) -> fmt::Result {
    match found {
        Ok(Some(found)) => {
            write!(f, "match ")?;
            write_match(f, found)
        }
        Ok(None) => write!(f, "none"),
        Err(error) => write_error(f, error),
    }
}

/// Writes `iter`, the matches of an iteration, and the error that ended it, if there was one.
fn write_matches<W: fmt::Write>(
    f: &mut fmt::Formatter<W>,
    matches: &[Match],
    error: Option<&SearchError>,
) -> fmt::Result {
    write!(f, "iter")?;
    write_each(f, matches)?;
    write_end(f, error)
}

/// Writes `tokens`, the tokens of a span, and the error that ended the list, if there was one.
fn write_tokens<W: fmt::Write>(
    f: &mut fmt::Formatter<W>,
    tokens: &[Match],
    error: Option<&TokenError>,
) -> fmt::Result {
    write!(f, "tokens")?;
    write_each(f, tokens)?;
    match error {
        None => Ok(()),
        Some(TokenError::NoToken(place)) => write!(f, " notoken {place}"),
        Some(TokenError::Search(error)) => write_end(f, Some(error)),
    }
}

/// Writes each match of a list as `PATTERN START..END`, preceded by a space.
fn write_each<W: fmt::Write>(f: &mut fmt::Formatter<W>, matches: &[Match]) -> fmt::Result {
    for found in matches {
        write!(f, " ")?;
        write_match(f, found)?;
    }
    Ok(())
}

/// Writes a match as `PATTERN START..END`, with offsets in bytes.
fn write_match<W: fmt::Write>(f: &mut fmt::Formatter<W>, found: &Match) -> fmt::Result {
    let pattern = found.pattern().as_usize();
    let start = found.start();
    let end = found.end();
    write!(f, "{pattern} {start}..{end}")
}

/// Writes `patterns`, the numbers of the patterns, and the error that ended the list, if there was one.
fn write_patterns<W: fmt::Write>(
    f: &mut fmt::Formatter<W>,
    patterns: &[PatternID],
    error: Option<&SearchError>,
) -> fmt::Result {
    write!(f, "patterns")?;
    for pattern in patterns {
        write!(f, " {}", pattern.as_usize())?;
    }
    write_end(f, error)
}

/// Writes a space and the error that ended a list, if there was one.
fn write_end<W: fmt::Write>(f: &mut fmt::Formatter<W>, error: Option<&SearchError>) -> fmt::Result {
    if let Some(error) = error {
        write!(f, " ")?;
        write_error(f, error)?;
    }
    Ok(())
}

/// Writes the error of a search, with its offset in bytes.
fn write_error<W: fmt::Write>(f: &mut fmt::Formatter<W>, error: &SearchError) -> fmt::Result {
    match error {
        SearchError::Match(error) => match error.kind() {
            MatchErrorKind::Quit { byte, offset } => write!(f, "quit {byte:02x} {offset}"),
            MatchErrorKind::GaveUp { offset } => write!(f, "gaveup {offset}"),
            MatchErrorKind::UnsupportedAnchored { .. } => write!(f, "unsupported"),
        },
        SearchError::OutOfMemory => write!(f, "memory"),
        SearchError::NotAPair => write!(f, "notapair"),
    }
}

/// Writes the fault of a request whose regex or walk does not exist, or whose walk belongs to another regex.
fn write_fault<W: fmt::Write>(f: &mut fmt::Formatter<W>, fault: Fault) -> fmt::Result {
    match fault {
        Fault::NoRegex => write!(f, "bad regex"),
        Fault::NoWalk => write!(f, "bad walk"),
        Fault::OtherRegex => write!(f, "bad other"),
    }
}
