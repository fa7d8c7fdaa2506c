//! How an NFA is printed for debugging.

use crate::nfa::thompson::NFA;
use std::fmt;

/// Prints the states and starts, and nothing that follows from them.
impl fmt::Debug for NFA {
    fn fmt<W: fmt::Write>(&self, f: &mut fmt::Formatter<W>) -> fmt::Result {
        f.debug_struct("NFA")
            .field("states", &self.data.states)
            .field("start_anchored", &self.data.start_anchored)
            .field("start_unanchored", &self.data.start_unanchored)
            .field("start_pattern", &self.data.start_pattern)
            .finish_non_exhaustive()
    }
}
