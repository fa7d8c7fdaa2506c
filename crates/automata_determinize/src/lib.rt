//! The powerset construction: the states of a lazy DFA, computed one unit at a time, and the laws that tie what passes
//! over these states report to the paths of the NFA.
#![tactic(auto)]

pub mod determinize;
pub mod laws;
