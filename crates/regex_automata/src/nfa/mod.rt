//! Nondeterministic automata.

pub mod thompson;
