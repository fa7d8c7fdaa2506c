//! The states that a builder keeps, and the NFA states that it builds from them.
ghost use Rattle.std.specs.Prelude.{◌≡◌, ◌++◌, ◌∷◌, [], None, Some, map, reverse};
ghost use Rattle.std.specs.Prelude.{IfOk, OnOk, OnErr, IsOkUnless};
ghost use Rattle.automata_base.specs.Nfas.Drafts.{build_error};
ghost use Rattle.automata_base.specs.declared.nfa.thompson.building.BuildError.TheVariants as failed;
ghost use Rattle.automata_base.specs.Nfas.Shapes.{Shape, shape_of, shape_added, built_of, patched, union_of};

use crate::nfa::thompson::state::{NfaError, State, Transition};
use crate::util::look::Look;
use crate::util::primitives::{PatternID, StateID};
use std::alloc::{AllocError, AllocFailed, Global};
use thiserror::Error;

/// Why a call on a builder fails. The builder is then unchanged.
#[derive(Clone, Copy, Debug, PartialEq, Eq, Error)]
pub enum BuildError {
    /// No pattern was started, or the last one was finished.
    #[error("no pattern was started")]
    NoPattern,
    /// The pattern that was started is not finished.
    #[error("a pattern was started and not finished")]
    UnfinishedPattern,
    /// The state to be patched does not exist.
    #[error("the state to be patched is out of range")]
    StateRange,
    /// A sparse state cannot be patched.
    #[error("a sparse state cannot be patched")]
    SparsePatch,
    /// There are too many states or patterns for their IDs, or the index of a group is too large.
    #[error("too many states, patterns or groups")]
    TooLarge,
    /// `NFA::from_states` failed with this error.
    #[error("{0}")]
    NFA(NfaError),
    /// An allocation failed.
    #[error("out of memory")]
    OutOfMemory,
}

impl From<NfaError> for BuildError {
    ghost from_gives = { λ error e. e ≡ build_error error };

    fn from(error: NfaError) -> BuildError {
        match error {
            NfaError::OutOfMemory => BuildError::OutOfMemory,
            NfaError::StateRange
            | NfaError::StartRange
            | NfaError::PatternRange
            | NfaError::Ranges
            | NfaError::TooLarge => BuildError::NFA(error),
        }
    }
}

impl From<AllocError> for BuildError {
    ghost from_gives = { λ _ e. e ≡ failed.OutOfMemory };

    fn from(_error: AllocError) -> BuildError {
        BuildError::OutOfMemory
    }
}

impl<T: Drop> From<AllocFailed<T>> for BuildError {
    ghost from_gives = { λ _ e. e ≡ failed.OutOfMemory };

    fn from(_error: AllocFailed<T>) -> BuildError {
        BuildError::OutOfMemory
    }
}

/// A state as it was added and patched.
#[derive(Debug)]
pub enum Added {
    Empty {
        next: StateID,
    },
    Range(Transition),
    Sparse(Vec<Transition>),
    Look {
        look: Look,
        next: StateID,
    },
    Union {
        alternates: Vec<StateID>,
    },
    /// The last alternate is preferred.
    UnionReverse {
        alternates: Vec<StateID>,
    },
    Capture {
        next: StateID,
        pattern_id: PatternID,
        group_index: u32,
        slot: u32,
    },
    Fail,
    Match {
        pattern: PatternID,
    },
}

// An owner drops this with one call, so that its proof has no step for each field.
impl Drop for Added {
    fn drop(self) {
        match self {
            Self::Empty { next: _next } => {}
            Self::Range(_it) => {}
            Self::Sparse(_it) => {}
            Self::Look {
                look: _look,
                next: _next,
            } => {}
            Self::Union {
                alternates: _alternates,
            } => {}
            Self::UnionReverse {
                alternates: _alternates,
            } => {}
            Self::Capture {
                next: _next,
                pattern_id: _pattern_id,
                group_index: _group_index,
                slot: _slot,
            } => {}
            Self::Fail => {}
            Self::Match { pattern: _pattern } => {}
        }
    }
}

/// Adds an alternate to a union, after the others.
fn push_alternate(alternates: &mut Vec<StateID>, to: StateID) -> Result<(), BuildError>
    ensures added { OnOk result (alternates.new.items ≡ alternates.old.items ++ to ∷ []) }
    ensures same { OnErr result (alternates.new.items ≡ alternates.old.items) }
    ensures memory { IsOkUnless result BuildError.OutOfMemory }
{
    match alternates.push(to) {
        Ok(()) => Ok(()),
        Err(_) => Err(BuildError::OutOfMemory),
    }
}

/// Adds an alternate to a union, or changes the target of a state that has one.
pub fn patch(added: &mut Added, to: StateID) -> Result<(), BuildError>
    ensures patched { OnOk result (patched (shape_added added.old) to ≡ Some (shape_added added.new)) }
    ensures same { OnErr result (shape_added added.new ≡ shape_added added.old) }
    ensures sparse { patched (shape_added added.old) to ≡ None → result ≡ Err BuildError.SparsePatch }
    ensures memory { (shape : Shape) → patched (shape_added added.old) to ≡ Some shape
        → IsOkUnless result BuildError.OutOfMemory }
{
    match added {
        Added::Empty { next } => *next = to,
        Added::Range(transition) => transition.next = to,
        Added::Sparse(_) => return Err(BuildError::SparsePatch),
        Added::Look { next, .. } => *next = to,
        Added::Union { alternates } => return push_alternate(alternates, to),
        Added::UnionReverse { alternates } => return push_alternate(alternates, to),
        Added::Capture { next, .. } => *next = to,
        Added::Fail => {}
        Added::Match { .. } => {}
    }
    Ok(())
}

/// Makes the union of these alternates, the first of them preferred: a fail state if there are none, and a binary union
/// if there are two.
fn union(alternates: Vec<StateID>) -> State
    ensures { shape_of result ≡ union_of alternates.items }
{
    match alternates.as_slice() {
        [] => State::Fail,
        [alt1, alt2] => State::BinaryUnion {
            alt1: *alt1,
            alt2: *alt2,
        },
        _ => State::Union { alternates },
    }
}

/// Makes the union of these alternates, the last of them preferred.
fn union_reverse(alloc: Global, alternates: &[StateID]) -> Result<State, AllocError>
    ensures { IfOk result (λ state. shape_of state ≡ union_of (reverse alternates.now)) }
{
    let mut reversed = Vec::from_slice(alloc, alternates)?;
    reversed.reverse();
    Ok(union(reversed))
}

/// Makes the NFA state for a state that was added to the builder.
fn build_state(alloc: Global, added: &Added) -> Result<State, AllocError>
    ensures { IfOk result (λ state. shape_of state ≡ built_of (shape_added added.now)) }
{
    Ok(match added {
        Added::Empty { next } => State::Union {
            alternates: Vec::from_slice(alloc, &[*next])?,
        },
        Added::Range(Transition { lo, hi, next }) => State::ByteRange {
            lo: *lo,
            hi: *hi,
            next: *next,
        },
        Added::Sparse(transitions) => State::Sparse(Vec::from_slice(alloc, transitions)?),
        Added::Look { look, next } => State::Look {
            look: *look,
            next: *next,
        },
        Added::Union { alternates } => union(Vec::from_slice(alloc, alternates)?),
        Added::UnionReverse { alternates } => union_reverse(alloc, alternates)?,
        Added::Capture {
            next,
            pattern_id,
            group_index,
            slot,
        } => State::Capture {
            next: *next,
            pattern_id: *pattern_id,
            group_index: *group_index,
            slot: *slot,
        },
        Added::Fail => State::Fail,
        Added::Match { pattern } => State::Match { pattern: *pattern },
    })
}

/// Appends the NFA state for a state that was added to the builder.
fn push_state(alloc: Global, states: &mut Vec<State>, added: &Added) -> Result<(), AllocError>
    ensures { OnOk result (map shape_of states.new.items
        ≡ map shape_of states.old.items ++ built_of (shape_added added.now) ∷ []) }
{
    let state = build_state(alloc, added)?;
    states.push(state)?;
    Ok(())
}

/// Appends the NFA states for the states that were added to the builder.
pub fn push_states(
    alloc: Global,
    states: &mut Vec<State>,
    added: &[Added],
) -> Result<(), AllocError>
    ensures { OnOk result (map shape_of states.new.items
        ≡ map shape_of states.old.items ++ map built_of (map shape_added added.now)) }
{
    for one in added {
        push_state(alloc, states, one)?;
    }
    Ok(())
}
