ghost use Rattle.std.specs.Prelude.{◌≡◌};
ghost use Rattle.patterns.specs.Faults.{compile_fault, joining_fault, span_of};
ghost use Rattle.patterns.specs.declared.error.Fault.TheVariants as fault;

use regex_automata::hybrid::BuildError;
use regex_automata::hybrid::regex::RegexBuildError;
use regex_automata::nfa::thompson::NfaError;
use regex_syntax::Span;
use std::alloc::{AllocError, AllocFailed};
use std::fmt;
use thiserror::Error;

/// What is wrong with a pattern.
#[derive(Clone, Copy, Debug, PartialEq, Eq, Error)]
pub enum Fault {
    /// The text is not a valid pattern.
    #[error("{}", .0.kind.message())]
    Syntax(regex_syntax::Error),
    /// The pattern has a Unicode word boundary, which the library supports only in ASCII text.
    #[error("a Unicode word boundary is not supported: write (?-u:\\b) for an ASCII word boundary")]
    UnicodeWord,
    /// The tables of all patterns together would exceed the size limit, or there are more states than IDs.
    #[error("the patterns are too large")]
    TooLarge,
    /// The NFA has a Unicode word boundary, but the text has no escape for one. No such text is known.
    #[error("the pattern was not compiled")]
    Malformed,
    /// The library does not accept the states: the error is that of `NFA::from_states`.
    #[error("{0}")]
    Refused(NfaError),
    /// No regex, or no DFA of a set, can be built from the NFA.
    #[error("{}", BuildText(*.0))]
    Unbuilt(RegexBuildError),
    /// An allocation failed.
    #[error("out of memory")]
    OutOfMemory,
}

impl From<AllocError> for Fault {
    ghost from_gives = { λ _ e. e ≡ fault.OutOfMemory };

    fn from(_error: AllocError) -> Fault {
        Fault::OutOfMemory
    }
}

impl<T: Drop> From<AllocFailed<T>> for Fault {
    ghost from_gives = { λ _ e. e ≡ fault.OutOfMemory };

    fn from(_error: AllocFailed<T>) -> Fault {
        Fault::OutOfMemory
    }
}

impl From<regex_compile::Error> for Fault {
    ghost from_gives = { λ error e. e ≡ compile_fault error };

    fn from(error: regex_compile::Error) -> Fault {
        match error {
            regex_compile::Error::TooBig => Fault::TooLarge,
            regex_compile::Error::Malformed => Fault::Malformed,
            regex_compile::Error::OutOfMemory => Fault::OutOfMemory,
        }
    }
}

impl From<NfaError> for Fault {
    ghost from_gives = { λ error e. e ≡ joining_fault error };

    fn from(error: NfaError) -> Fault {
        match error {
            NfaError::OutOfMemory => Fault::OutOfMemory,
            error => Fault::Refused(error),
        }
    }
}

/// The first pattern that cannot be compiled, and why.
#[derive(Clone, Copy, Debug, PartialEq, Eq, Error)]
#[error("{}{fault}", NumberText(*.number, *.fault))]
pub struct PatternError {
    /// The position of the pattern in the list, counted from 0. It is 0 if the error is about all patterns.
    pub number: usize,
    /// What is wrong with the pattern.
    pub fault: Fault,
}

impl PatternError {
    /// Returns the part of the pattern that the parser's error is about, as byte offsets, or none for another error.
    pub fn span(&self) -> Option<Span>
        ensures { result ≡ span_of self.now.fault }
    {
        match self.fault {
            Fault::Syntax(error) => Some(error.span),
            _ => None,
        }
    }
}

/// Whether the fault is about all patterns together, and not about the one whose number the error has.
pub(crate) fn is_about_all(fault: &Fault) -> bool {
    matches!(fault, Fault::Refused(_) | Fault::Unbuilt(_))
}

// The number of the pattern that an error is about, or nothing if it is about all.
#[derive(Clone, Copy)]
struct NumberText(usize, Fault);

impl fmt::Display for NumberText {
    fn fmt<W: fmt::Write>(&self, f: &mut fmt::Formatter<W>) -> fmt::Result {
        let number = self.0;
        if is_about_all(&self.1) {
            Ok(())
        } else {
            write!(f, "pattern {number}: ")
        }
    }
}

// Why nothing is built from an NFA. If a cache may take too little, the text says how much it needs, and which option
// raises that.
#[derive(Clone, Copy)]
struct BuildText(RegexBuildError);

impl fmt::Display for BuildText {
    fn fmt<W: fmt::Write>(&self, f: &mut fmt::Formatter<W>) -> fmt::Result {
        let error = self.0;
        match error {
            RegexBuildError::Build(BuildError::InsufficientCacheCapacity { minimum, given }) =>
                write!(
                    f,
                    "a cache of the patterns needs at least {minimum} bytes, and may take {given}; raise cache_limit"
                ),
            _ => write!(f, "{error}"),
        }
    }
}
