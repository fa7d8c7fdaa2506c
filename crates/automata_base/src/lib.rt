//! The base of the lazy DFA: NFAs and their builder, inputs, epsilon closures, and what the answers of searches mean.
#![tactic(auto)]

pub mod laws;
pub mod nfa;
pub mod util;
