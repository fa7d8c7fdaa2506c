//! The settings of the lazy DFA, and its errors.
#![tactic(auto)]

pub mod accounting;
pub mod config;
pub mod error;
