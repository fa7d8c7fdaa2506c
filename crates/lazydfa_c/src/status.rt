//! What each call returns.
ghost use Rattle.std.specs.Prelude.{◌≡◌, ◌↔◌, IsTrue};
ghost use Rattle.lazydfa_c.specs.Codes.{CodesDiffer, number_of};
ghost use Rattle.lazydfa_c.specs.Errors.{TellErrors, told_begin, told_build, told_builder};
ghost use Rattle.lazydfa_c.specs.Errors.{told_regex, told_search, told_token};
ghost use Rattle.lazydfa_c.specs.Statuses.{begin_status, build_status, builder_status, done_status, nfa_code, plain};
ghost use Rattle.lazydfa_c.specs.Statuses.{regex_status, search_status, start_status, status_at, token_status};
ghost use Rattle.lazydfa_c.specs.Texts.{IsFailure};
ghost use Rattle.lazydfa_c.specs.declared.code.Code.TheVariants as code;

use crate::code::Code;
use regex_automata::hybrid::dfa::BeginError;
use regex_automata::hybrid::regex::RegexBuildError;
use regex_automata::hybrid::{BuildError, SearchError, StartError};
use regex_automata::nfa::thompson::{BuildError as NfaBuildError, NfaError};
use regex_automata::tokens::TokenError;
use regex_automata::{Anchored, MatchErrorKind};
use std::alloc::{AllocError, AllocFailed};

/// A code's number, the quit byte if there is one, and an offset, in bytes. For `Code::Capacity` the offset is instead
/// a cache capacity, in bytes, that is enough for both DFAs, and for `Code::StateIDs` the state ID that does not fit.
#[repr(C)]
#[derive(Clone, Copy)]
pub struct Status {
    pub code: u32,
    pub byte: u32,
    pub offset: usize,
}

/// States a fact for proofs, and does nothing: different codes have different numbers.
pub fn codes_differ()
    ensures { CodesDiffer }
{}

/// States a fact for proofs, and does nothing: the status of an error says that the call failed, and which error it is.
pub fn errors_differ()
    ensures builder { TellErrors builder_status told_builder }
    ensures build { TellErrors build_status told_build }
    ensures regex { TellErrors regex_status told_regex }
    ensures search { TellErrors search_status told_search }
    ensures token { TellErrors token_status told_token }
    ensures begin { TellErrors begin_status told_begin }
{}

impl Status {
    /// Returns the status of a code at an offset, with no quit byte.
    pub fn at(code: Code, offset: usize) -> Status
        ensures { result ≡ status_at code offset }
    {
        Status {
            code: code.number(),
            byte: 0,
            offset,
        }
    }

    /// Whether a call did what it was asked to do; for a search, whether it found a match.
    pub fn is_done(&self) -> bool
        ensures { IsTrue result ↔ (self.now.code ≡ number_of code.Done) }
    {
        self.code == 0
    }

    /// Whether a call failed.
    pub fn is_failure(&self) -> bool
        ensures { IsTrue result ↔ IsFailure self.now }
    {
        self.code > 1
    }

    /// Returns the status of a call whose result has no value.
    pub fn of(done: Result<(), Status>) -> Status
        ensures { result ≡ done_status done }
    {
        match done {
            Ok(()) => Status::from(Code::Done),
            Err(status) => status,
        }
    }
}

impl From<Code> for Status {
    ghost from_gives = { λ c s. s ≡ plain c };

    fn from(code: Code) -> Status {
        Status::at(code, 0)
    }
}

impl From<AllocError> for Status {
    ghost from_gives = { λ _ s. s ≡ plain code.Memory };

    fn from(_error: AllocError) -> Status {
        Status::from(Code::Memory)
    }
}

impl<T: Drop> From<AllocFailed<T>> for Status {
    ghost from_gives = { λ _ s. s ≡ plain code.Memory };

    fn from(_error: AllocFailed<T>) -> Status {
        Status::from(Code::Memory)
    }
}

impl From<NfaError> for Code {
    ghost from_gives = { λ e c. c ≡ nfa_code e };

    fn from(error: NfaError) -> Code {
        match error {
            NfaError::StateRange => Code::StateRange,
            NfaError::StartRange => Code::StartRange,
            NfaError::PatternRange => Code::PatternRange,
            NfaError::Ranges => Code::Ranges,
            NfaError::TooLarge => Code::TooLarge,
            NfaError::OutOfMemory => Code::Memory,
        }
    }
}

impl From<NfaBuildError> for Status {
    ghost from_gives = { λ e s. s ≡ builder_status e };

    fn from(error: NfaBuildError) -> Status {
        let code = match error {
            NfaBuildError::NoPattern => Code::NoPattern,
            NfaBuildError::UnfinishedPattern => Code::UnfinishedPattern,
            NfaBuildError::StateRange => Code::PatchRange,
            NfaBuildError::SparsePatch => Code::SparsePatch,
            NfaBuildError::TooLarge => Code::TooLarge,
            NfaBuildError::OutOfMemory => Code::Memory,
            NfaBuildError::NFA(error) => Code::from(error),
        };
        Status::from(code)
    }
}

impl From<BuildError> for Status {
    ghost from_gives = { λ e s. s ≡ build_status e };

    fn from(error: BuildError) -> Status {
        match error {
            BuildError::Unsupported => Status::from(Code::Unsupported),
            BuildError::InsufficientCacheCapacity { minimum, given: _ } => {
                Status::at(Code::Capacity, minimum)
            }
            BuildError::InsufficientStateIDCapacity { attempted } => {
                Status::at(Code::StateIDs, attempted)
            }
            BuildError::OutOfMemory => Status::from(Code::Memory),
            BuildError::PatternCounts {
                forward: _,
                reverse: _,
            } => { Status::from(Code::PatternCounts) }
        }
    }
}

impl From<RegexBuildError> for Status {
    ghost from_gives = { λ e s. s ≡ regex_status e };

    fn from(error: RegexBuildError) -> Status {
        match error {
            RegexBuildError::NotLazy => Status::from(Code::NotLazy),
            RegexBuildError::NotUtf8 => Status::from(Code::NotUtf8),
            RegexBuildError::Starts => Status::from(Code::Starts),
            RegexBuildError::TooLarge => Status::from(Code::TooLarge),
            RegexBuildError::OutOfMemory => Status::from(Code::Memory),
            RegexBuildError::Build(error) => Status::from(error),
        }
    }
}

impl From<SearchError> for Status {
    ghost from_gives = { λ e s. s ≡ search_status e };

    fn from(error: SearchError) -> Status {
        match error {
            SearchError::Match(error) => match *error.kind() {
                MatchErrorKind::Quit { byte, offset } => Status {
                    code: Code::Quit.number(),
                    byte: u32::from(byte),
                    offset,
                },
                MatchErrorKind::GaveUp { offset } => Status::at(Code::GaveUp, offset),
                MatchErrorKind::UnsupportedAnchored { mode: _ } => Status::from(Code::Anchored),
            },
            SearchError::OutOfMemory => Status::from(Code::Memory),
            SearchError::NotAPair => Status::from(Code::NotAPair),
        }
    }
}

impl From<StartError> for Status {
    ghost from_gives = { λ e s. s ≡ start_status e };

    fn from(error: StartError) -> Status {
        match error {
            StartError::Cache { err: _ } => Status::from(Code::GaveUp),
            StartError::Quit { byte } => Status {
                code: Code::Quit.number(),
                byte: u32::from(byte),
                offset: 0,
            },
            StartError::UnsupportedAnchored { mode: _ } => Status::from(Code::Anchored),
            StartError::OutOfMemory => Status::from(Code::Memory),
        }
    }
}

impl From<BeginError> for Status {
    ghost from_gives = { λ e s. s ≡ begin_status e };

    fn from(error: BeginError) -> Status {
        match error {
            BeginError::Skips => Status::from(Code::Skips),
            BeginError::Start(error) => Status::from(error),
        }
    }
}

impl From<TokenError> for Status {
    ghost from_gives = { λ e s. s ≡ token_status e };

    fn from(error: TokenError) -> Status {
        match error {
            TokenError::NoToken(offset) => Status::at(Code::NoToken, offset),
            TokenError::Search(error) => Status::from(error),
        }
    }
}
