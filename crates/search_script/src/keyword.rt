//! The keywords of scripts.

use crate::words::split_once;

/// A keyword.
#[derive(Clone, Copy)]
pub enum Keyword {
    All,
    Anchored,
    Capacity,
    Earliest,
    Find,
    Forward,
    IsMatch,
    Iterate,
    Limit,
    Line,
    Made,
    Nfa,
    NoClasses,
    Pattern,
    PerState,
    Quit,
    Regex,
    Reset,
    Reverse,
    Skip,
    Span,
    Starts,
    Step,
    Tags,
    Tokenise,
    Unicode,
    Utf8,
    Walk,
    Which,
}

const KEYWORDS: [(&[u8], Keyword); 29] = [
    (b"all", Keyword::All),
    (b"anchored", Keyword::Anchored),
    (b"capacity", Keyword::Capacity),
    (b"earliest", Keyword::Earliest),
    (b"find", Keyword::Find),
    (b"fwd", Keyword::Forward),
    (b"is", Keyword::IsMatch),
    (b"iter", Keyword::Iterate),
    (b"limit", Keyword::Limit),
    (b"line", Keyword::Line),
    (b"made", Keyword::Made),
    (b"nfa", Keyword::Nfa),
    (b"noclasses", Keyword::NoClasses),
    (b"pattern", Keyword::Pattern),
    (b"perstate", Keyword::PerState),
    (b"quit", Keyword::Quit),
    (b"regex", Keyword::Regex),
    (b"reset", Keyword::Reset),
    (b"rev", Keyword::Reverse),
    (b"skip", Keyword::Skip),
    (b"span", Keyword::Span),
    (b"starts", Keyword::Starts),
    (b"step", Keyword::Step),
    (b"tags", Keyword::Tags),
    (b"tok", Keyword::Tokenise),
    (b"unicode", Keyword::Unicode),
    (b"utf8", Keyword::Utf8),
    (b"walk", Keyword::Walk),
    (b"which", Keyword::Which),
];

impl Keyword {
    /// Returns the keyword with this spelling, or none if the word is not a keyword.
    pub fn spelled(word: &[u8]) -> Option<Keyword> {
        let (_, keyword) = KEYWORDS.iter().find(|(text, _)| *text == word)?;
        Some(*keyword)
    }
}

/// Returns the keyword of an option, and its value if it has one. Returns none if its name is not a keyword.
pub fn option_of(option: &[u8]) -> Option<(Keyword, Option<&[u8]>)> {
    let Some((name, value)) = split_once(option, b'=') else {
        return Some((Keyword::spelled(option)?, None));
    };
    Some((Keyword::spelled(name)?, Some(value)))
}
