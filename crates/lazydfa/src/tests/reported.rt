//! What calls report, as text.

use regex_automata::hybrid::{BuildError, LazyStateID, SearchError, StartError, StepError};
use regex_automata::tokens::TokenError;
use regex_automata::util::search::{HalfMatch, Match};
use replay::Reply;
use search_script::Line;
use std::alloc::{AllocError, Global};
use std::fmt;

/// An item of an iteration, or a token: its pattern, its start and its end.
pub type Item = Option<Result<(usize, usize, usize), TokenError>>;

/// The counts of a cache: clears, memory, and bytes searched.
pub type Counted = (usize, usize, usize);

/// What a call reports.
#[derive(Clone, Copy)]
pub enum Reported {
    Word(&'static str),
    /// The match of a search of one DFA.
    Half(Result<Option<HalfMatch>, SearchError>),
    /// The match of a regex.
    Span(Result<Option<Match>, SearchError>),
    Truth(Result<bool, SearchError>),
    /// A number for the patterns of a set, and the error if the search failed.
    Set(usize, Result<(), SearchError>),
    NoStart(StartError),
    NoStep(StepError),
    Refused(BuildError),
    /// A number, with text after it.
    Number(usize, &'static str),
    /// The pattern and the end of a match, and where the last of its spans began.
    Based(usize, usize, usize),
    /// Three numbers, with text after them.
    Counts(Counted, &'static str),
    /// The counts of each part.
    Parts([Counted; 2]),
    /// Items or tokens.
    Items([Item; 8]),
}

impl Reported {
    /// Reports whether something holds.
    pub fn of_flag(yes: bool) -> Reported {
        Reported::Word(if yes { "true" } else { "false" })
    }

    /// Reports that there is a start, or why not.
    pub fn of_start(started: Result<(), StartError>) -> Reported {
        match started {
            Ok(()) => Reported::Word("-"),
            Err(error) => Reported::NoStart(error),
        }
    }

    /// Reports that a step was taken, or why not.
    pub fn of_step(stepped: Result<(), StepError>) -> Reported {
        match stepped {
            Ok(()) => Reported::Word("-"),
            Err(error) => Reported::NoStep(error),
        }
    }

    /// Reports whether there was memory.
    pub fn of_growth(grown: Result<(), AllocError>) -> Reported {
        match grown {
            Ok(()) => Reported::Word("-"),
            Err(_) => Reported::Refused(BuildError::OutOfMemory),
        }
    }
}

impl fmt::Display for Reported {
    fn fmt<W: fmt::Write>(&self, f: &mut fmt::Formatter<W>) -> fmt::Result {
        match self {
            Reported::Word(word) => write!(f, "{word}"),
            Reported::Half(found) => write_reply(f, Reply::Half(*found)),
            Reported::Span(found) => write_reply(f, Reply::Span(*found)),
            Reported::Truth(holds) => write_reply(f, Reply::Truth(*holds)),
            Reported::Set(digits, Ok(())) => write!(f, "set {digits}"),
            Reported::Set(digits, Err(error)) => {
                write!(f, "set {digits} ")?;
                write_reply(f, Reply::Done(Err(*error)))
            }
            Reported::NoStart(error) => write!(f, "{error}"),
            Reported::NoStep(error) => write!(f, "{error}"),
            Reported::Refused(error) => write!(f, "{error}"),
            Reported::Number(number, behind) => write!(f, "{number}{behind}"),
            Reported::Based(pattern, end, place) => write!(f, "{pattern} {end} at {place}"),
            Reported::Counts((first, second, third), behind) => {
                write!(f, "{first} {second} {third}{behind}")
            }
            Reported::Parts([forward, reverse]) => write!(f, "{forward:?} {reverse:?}"),
            Reported::Items(items) => write_items(f, items),
        }
    }
}

/// Writes a reply in the form of a script's output.
fn write_reply<W: fmt::Write>(f: &mut fmt::Formatter<W>, reply: Reply) -> fmt::Result {
    write!(f, "{}", Line(&reply))
}

/// Writes the items before the end, or `-` if there are none. An item after the end or after an error is marked.
fn write_items<W: fmt::Write>(f: &mut fmt::Formatter<W>, items: &[Item; 8]) -> fmt::Result {
    if items[0].is_none() {
        write!(f, "-")?;
    }
    let mut before = "";
    for item in items {
        if let Some(item) = *item {
            write!(f, "{before}")?;
            write_item(f, item)?;
        }
        before = if matches!(item, Some(Ok(_))) {
            "; "
        } else {
            "; and then "
        };
    }
    Ok(())
}

/// Writes an item or a token, or its error.
fn write_item<W: fmt::Write>(
    f: &mut fmt::Formatter<W>,
    item: Result<(usize, usize, usize), TokenError>,
) -> fmt::Result {
    match item {
        Ok((pattern, start, end)) => write!(f, "{pattern} {start}..{end}"),
        Err(TokenError::Search(error)) => write_reply(f, Reply::Done(Err(error))),
        Err(TokenError::NoToken(place)) => write!(f, "no token at {place}"),
    }
}

/// Whether `Debug` prints a value like this.
pub fn prints<T: fmt::Debug>(alloc: Global, value: &T, text: &str) -> bool {
    match format!(in alloc; "{value:?}") {
        Ok(printed) => printed.as_str() == text,
        Err(_) => false,
    }
}

/// Returns a letter for the kind of an ID, or an empty text for an untagged one.
pub fn letter(id: LazyStateID) -> &'static str {
    if id.is_unknown() {
        "u"
    } else if id.is_dead() {
        "d"
    } else if id.is_quit() {
        "q"
    } else if id.is_match() {
        "m"
    } else if id.is_start() {
        "s"
    } else {
        ""
    }
}
