//! What an NFA keeps of the closure of its unanchored start.

use crate::util::primitives::StateID;
use crate::util::sparse_set::SparseSet;

/// The closure of an NFA's root, which is the unanchored start, with what a step needs of it. Most powerset states end
/// with this closure.
#[derive(Drop)]
pub struct KeptClosure {
    /// The state whose closure this is.
    pub root: StateID,
    /// The states of the closure, in the order of preference.
    pub set: SparseSet,
    /// The states of the closure that powerset states keep. None of them is a look.
    pub kept: Vec<StateID>,
    /// The encoding of the kept states after the first.
    pub code: Vec<u8>,
    /// For each byte, the targets of the kept states, in order. Empty if a kept state is a match state, or if making
    /// the rows would take too long.
    pub rows: Vec<Vec<StateID>>,
}
