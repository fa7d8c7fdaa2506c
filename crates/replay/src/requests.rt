//! The requests of a script, and the replies.

use automata_base::util::primitives::PatternID;
use automata_base::util::search::{Direction, HalfMatch, Input, Match};
use automata_config::error::SearchError;
use regex_automata::tokens::TokenError;

/// A request of a script. It borrows its haystack.
#[derive(Drop)]
pub enum Request<'h> {
    /// A search of the current regex's forward DFA.
    SearchFwd(Input<'h>),
    /// A search of the current regex's reverse DFA.
    SearchRev(Input<'h>),
    /// The span of the first match.
    Find(Input<'h>),
    /// Whether there is a match.
    IsMatch(Input<'h>),
    /// The matches, one after another.
    Iterate(Input<'h>),
    /// The tokens, one after another. Each search is anchored and not earliest, whatever the input says.
    Tokenise(Input<'h>),
    /// Begins an overlapping search with the current regex, called a walk. Walks are numbered from 0.
    BeginWalk { way: Direction, input: Input<'h> },
    /// One step of a walk of the current regex.
    StepWalk(usize),
    /// The patterns of all overlapping matches that are below the capacity.
    Which { capacity: usize, input: Input<'h> },
    /// Makes this regex the current one, with fresh caches.
    Reset(usize),
}

/// Why a request is bad.
#[derive(Clone, Copy, Debug, PartialEq, Eq)]
pub enum Fault {
    /// There are no regexes, or the number of a reset is out of range.
    NoRegex,
    /// There is no walk with this number.
    NoWalk,
    /// The walk does not belong to the current regex.
    OtherRegex,
}

/// The reply to a request: its answer, or its error. Out of memory is an error too.
#[derive(Debug, PartialEq, Eq)]
pub enum Reply {
    /// The match that a search of one DFA found, or that a step of a walk reports.
    Half(Result<Option<HalfMatch>, SearchError>),
    /// The span of the first match.
    Span(Result<Option<Match>, SearchError>),
    /// Whether there is a match.
    Truth(Result<bool, SearchError>),
    /// The matches so far, and the error that ended them, if any.
    Spans {
        found: Vec<Match>,
        error: Option<SearchError>,
    },
    /// The patterns and spans of the tokens so far, and the error that ended them, if any.
    Tokens {
        found: Vec<Match>,
        error: Option<TokenError>,
    },
    /// The number of the new walk.
    Begun(Result<usize, SearchError>),
    /// The patterns in increasing order, and the error that ended the search after them, if any.
    Patterns {
        found: Vec<PatternID>,
        error: Option<SearchError>,
    },
    /// A reset: if it is Ok, its regex is the current one, with fresh caches.
    Done(Result<(), SearchError>),
    /// The request is bad, and changed nothing.
    Bad(Fault),
}

// With its own `drop`, the proof of an owner has one step for it instead of one for each part.
impl Drop for Reply {
    fn drop(self) {
        match self {
            Self::Half(_it) => {}
            Self::Span(_it) => {}
            Self::Truth(_it) => {}
            Self::Spans {
                found: _found,
                error: _error,
            } => {}
            Self::Tokens {
                found: _found,
                error: _error,
            } => {}
            Self::Begun(_it) => {}
            Self::Patterns {
                found: _found,
                error: _error,
            } => {}
            Self::Done(_it) => {}
            Self::Bad(_it) => {}
        }
    }
}
