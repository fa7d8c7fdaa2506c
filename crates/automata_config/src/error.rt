//! Why a DFA cannot be built, and why its calls fail.
ghost use Rattle.std.specs.Prelude.{◌≡◌};
ghost use Rattle.automata_config.specs.declared.error.BuildError.TheVariants.{OutOfMemory as BuildOutOfMemory};
ghost use Rattle.automata_config.specs.declared.error.StepError.TheVariants.{Cache as StepCache};
ghost use Rattle.automata_config.specs.declared.error.StepError.TheVariants.{OutOfMemory as StepOutOfMemory};
ghost use Rattle.automata_config.specs.declared.error.StartError.TheVariants.{Cache as StartCache};
ghost use Rattle.automata_config.specs.declared.error.StartError.TheVariants.{OutOfMemory as StartOutOfMemory};
ghost use Rattle.automata_config.specs.declared.error.SearchError.TheVariants.{Match as SearchMatch};
ghost use Rattle.automata_config.specs.declared.error.SearchError.TheVariants.{OutOfMemory as SearchOutOfMemory};

use automata_base::util::search::{Anchored, MatchError};
use std::alloc::{AllocError, AllocFailed};
use std::fmt;
use thiserror::Error;

/// Why a DFA cannot be built.
#[derive(Clone, Copy, Debug, PartialEq, Eq, Error)]
pub enum BuildError {
    /// The NFA has a Unicode word boundary, `unicode_word_boundary` is off, and not every byte from 0x80 on is a quit
    /// byte.
    #[error("unsupported regex feature for DFAs: cannot build lazy DFAs for regexes with Unicode word boundaries; switch to ASCII word boundaries, or heuristically enable Unicode word boundaries or use a different regex engine")]
    Unsupported,
    /// The capacity given is below the minimum, both in bytes, and the check is not skipped.
    #[error("given cache capacity ({given}) is smaller than minimum required ({minimum})")]
    InsufficientCacheCapacity { minimum: usize, given: usize },
    /// A row offset in a table of the minimum capacity, in cells, is too large for an ID.
    #[error("failed to create LazyStateID from {attempted}, which exceeds 134217727")]
    InsufficientStateIDCapacity { attempted: usize },
    /// An allocation failed.
    #[error("out of memory")]
    OutOfMemory,
    /// The two DFAs of a regex have different numbers of patterns.
    #[error("forward DFA has {forward} patterns and reverse DFA has {reverse}")]
    PatternCounts { forward: usize, reverse: usize },
}

/// The cache is full, and the settings do not allow another clear.
#[derive(Clone, Copy, Debug, PartialEq, Eq, Error)]
#[error("lazy DFA cache has been cleared too many times")]
pub struct CacheError;

/// Why a step fails.
#[derive(Clone, Copy, Debug, PartialEq, Eq, Error)]
pub enum StepError {
    /// The next state does not fit, and the settings do not allow another clear.
    #[error("{0}")]
    Cache(CacheError),
    /// An allocation failed.
    #[error("out of memory")]
    OutOfMemory,
}

/// Why a start state cannot be computed.
#[derive(Clone, Copy, Debug, PartialEq, Eq, Error)]
pub enum StartError {
    /// The start state does not fit, and the settings do not allow another clear.
    #[error("error computing start state because of cache inefficiency")]
    Cache { err: CacheError },
    /// The look-behind byte is a quit byte.
    #[error("error computing start state because the look-behind byte {} triggered a quit state", ByteText(*.byte))]
    Quit { byte: u8 },
    /// The DFA does not support this anchored mode: its patterns have no start states of their own.
    #[error("error computing start state because {mode} are not supported or enabled")]
    UnsupportedAnchored { mode: Anchored },
    /// An allocation failed.
    #[error("out of memory")]
    OutOfMemory,
}

/// Why a search fails.
#[derive(Clone, Copy, Debug, PartialEq, Eq, Error)]
pub enum SearchError {
    /// The search met a quit byte, gave up, or has an anchored mode that is not supported.
    #[error("{0}")]
    Match(MatchError),
    /// An allocation failed.
    #[error("out of memory")]
    OutOfMemory,
    /// The reverse search found no start: the regex's reverse DFA does not belong to its forward DFA.
    #[error("reverse DFA finds no start for the match of the forward DFA")]
    NotAPair,
}

impl From<CacheError> for StepError {
    ghost from_gives = { λ err e. e ≡ StepCache err };

    fn from(err: CacheError) -> StepError {
        StepError::Cache(err)
    }
}

impl From<CacheError> for StartError {
    ghost from_gives = { λ err e. e ≡ StartCache err };

    fn from(err: CacheError) -> StartError {
        StartError::Cache { err }
    }
}

impl From<MatchError> for SearchError {
    ghost from_gives = { λ err e. e ≡ SearchMatch err };

    fn from(err: MatchError) -> SearchError {
        SearchError::Match(err)
    }
}

impl From<AllocError> for BuildError {
    ghost from_gives = { λ _ e. e ≡ BuildOutOfMemory };

    fn from(_error: AllocError) -> BuildError {
        BuildError::OutOfMemory
    }
}

impl<T: Drop> From<AllocFailed<T>> for BuildError {
    ghost from_gives = { λ _ e. e ≡ BuildOutOfMemory };

    fn from(_error: AllocFailed<T>) -> BuildError {
        BuildError::OutOfMemory
    }
}

impl From<AllocError> for StepError {
    ghost from_gives = { λ _ e. e ≡ StepOutOfMemory };

    fn from(_error: AllocError) -> StepError {
        StepError::OutOfMemory
    }
}

impl<T: Drop> From<AllocFailed<T>> for StepError {
    ghost from_gives = { λ _ e. e ≡ StepOutOfMemory };

    fn from(_error: AllocFailed<T>) -> StepError {
        StepError::OutOfMemory
    }
}

impl From<AllocError> for StartError {
    ghost from_gives = { λ _ e. e ≡ StartOutOfMemory };

    fn from(_error: AllocError) -> StartError {
        StartError::OutOfMemory
    }
}

impl<T: Drop> From<AllocFailed<T>> for StartError {
    ghost from_gives = { λ _ e. e ≡ StartOutOfMemory };

    fn from(_error: AllocFailed<T>) -> StartError {
        StartError::OutOfMemory
    }
}

impl From<AllocError> for SearchError {
    ghost from_gives = { λ _ e. e ≡ SearchOutOfMemory };

    fn from(_error: AllocError) -> SearchError {
        SearchError::OutOfMemory
    }
}

impl<T: Drop> From<AllocFailed<T>> for SearchError {
    ghost from_gives = { λ _ e. e ≡ SearchOutOfMemory };

    fn from(_error: AllocFailed<T>) -> SearchError {
        SearchError::OutOfMemory
    }
}

// A byte as text. Printable ASCII is unchanged, except that a space is in quotes, and quotes and backslashes are
// escaped. All other bytes are escaped.
#[derive(Clone, Copy)]
struct ByteText(u8);

impl fmt::Display for ByteText {
    fn fmt<W: fmt::Write>(&self, f: &mut fmt::Formatter<W>) -> fmt::Result {
        let byte = self.0;
        match byte {
            b' ' => write!(f, "' '"),
            b'\t' => write!(f, "\\t"),
            b'\r' => write!(f, "\\r"),
            b'\n' => write!(f, "\\n"),
            b'\'' => write!(f, "\\'"),
            b'"' => write!(f, "\\\""),
            b'\\' => write!(f, "\\\\"),
            0x21..=0x7E => {
                let printable = char::from(byte);
                write!(f, "{printable}")
            }
            _ => write!(f, "\\x{byte:02X}"),
        }
    }
}
