//! Thompson NFAs.

pub use automata_base::nfa::thompson::{
    BuildError, Builder, Flags, NFA, NfaError, State, Transition,
};
pub use automata_transform::{ReverseError, anchored, flattened, merged, reversed};
