//! The states of an NFA, its flags, and the errors of building it.

use crate::util::look::Look;
use crate::util::primitives::{PatternID, StateID};
use std::alloc::AllocError;
use thiserror::Error;

/// An edge that reads a byte: on each byte from `lo` to `hi`, both included, it leads to `next`.
#[derive(Clone, Copy, Debug, PartialEq, Eq)]
pub struct Transition {
    /// The least byte.
    pub lo: u8,
    /// The greatest byte.
    pub hi: u8,
    /// The state that the byte leads to.
    pub next: StateID,
}

/// A state of an NFA.
#[derive(Debug)]
pub enum State {
    /// Reads one byte, from `lo` to `hi`.
    ByteRange {
        /// The least byte.
        lo: u8,
        /// The greatest byte.
        hi: u8,
        /// The state that the byte leads to.
        next: StateID,
    },
    /// Reads one byte, and moves to the target of the range that contains it. The ranges are sorted and do not overlap.
    Sparse(Vec<Transition>),
    /// Reads one byte, and moves to the target at the index of that byte. A byte with target 0 has no edge.
    Dense(Box<[StateID; 256]>),
    /// Leads to `next` without reading a byte, if the look holds.
    Look {
        /// The look that must hold.
        look: Look,
        /// The state that it leads to.
        next: StateID,
    },
    /// Leads to each alternate without reading a byte, the first of them preferred.
    Union {
        /// The alternates, the preferred ones first.
        alternates: Vec<StateID>,
    },
    /// A union of two alternates, `alt1` preferred.
    BinaryUnion {
        /// The alternate that is preferred.
        alt1: StateID,
        /// The other alternate.
        alt2: StateID,
    },
    /// Leads to `next` without reading a byte. Searches ignore the group.
    Capture {
        /// The state that it leads to.
        next: StateID,
        /// The pattern of the group.
        pattern_id: PatternID,
        /// The group's index in its pattern.
        group_index: u32,
        /// The slot of the group's offset.
        slot: u32,
    },
    /// Has no edges.
    Fail,
    /// Matches the pattern.
    Match {
        /// The pattern that matches.
        pattern: PatternID,
    },
}

// An owner drops this with one call, so that its proof has no step for each field.
impl Drop for State {
    fn drop(self) {
        match self {
            Self::ByteRange {
                lo: _lo,
                hi: _hi,
                next: _next,
            } => {}
            Self::Sparse(_it) => {}
            Self::Dense(_it) => {}
            Self::Look {
                look: _look,
                next: _next,
            } => {}
            Self::Union {
                alternates: _alternates,
            } => {}
            Self::BinaryUnion {
                alt1: _alt1,
                alt2: _alt2,
            } => {}
            Self::Capture {
                next: _next,
                pattern_id: _pattern_id,
                group_index: _group_index,
                slot: _slot,
            } => {}
            Self::Fail => {}
            Self::Match { pattern: _pattern } => {}
        }
    }
}

/// The flags of an NFA. By default it is neither in UTF-8 mode nor reversed, and its lines end in `\n`.
#[derive(Clone, Copy, Debug, PartialEq, Eq)]
pub struct Flags {
    /// Whether empty matches inside UTF-8 encoded characters are omitted.
    pub utf8: bool,
    /// Whether the NFA matches reversed text.
    pub reverse: bool,
    /// The byte that ends a line, for the looks at lines.
    pub line_terminator: u8,
}

impl Default for Flags {
    ghost use Rattle.std.specs.Prelude.{◌≡◌, false};

    ghost is_default = { λ flags. flags ≡ record { utf8 = false; reverse = false; line_terminator = 10 } };

    fn default() -> Flags {
        Flags {
            utf8: false,
            reverse: false,
            line_terminator: b'\n',
        }
    }
}

/// Why `NFA::from_states` fails.
#[derive(Clone, Copy, Debug, PartialEq, Eq, Error)]
pub enum NfaError {
    /// A state leads to a state that does not exist.
    #[error("a state leads to a state that is out of range")]
    StateRange,
    /// A start state does not exist. An NFA has at least one state.
    #[error("a start state is out of range")]
    StartRange,
    /// A match state has a pattern without a start.
    #[error("a match state has a pattern that is out of range")]
    PatternRange,
    /// A range ends before it begins, or ranges of a sparse state are not sorted or overlap.
    #[error("ranges of bytes are not in order")]
    Ranges,
    /// There are more than 2^27 states or patterns, or more than 2^31 alternates in all, where a binary union has two.
    #[error("too many states, patterns or alternates")]
    TooLarge,
    /// An allocation failed.
    #[error("out of memory")]
    OutOfMemory,
}

impl From<AllocError> for NfaError {
    ghost use Rattle.std.specs.Prelude.{◌≡◌};
    ghost use Rattle.automata_base.specs.declared.nfa.thompson.state.NfaError.TheVariants.{OutOfMemory};

    ghost from_gives = { λ _ e. e ≡ OutOfMemory };

    fn from(_e: AllocError) -> NfaError {
        NfaError::OutOfMemory
    }
}
