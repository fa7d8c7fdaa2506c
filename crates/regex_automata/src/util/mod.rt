//! What automata and their searches share: inputs and matches, IDs, looks, byte classes, powerset states.

pub mod search;

pub use automata_base::util::{alphabet, byte_set, look, primitives, start};
pub use automata_determinize::determinize;
