//! A lazy DFA: its states are determinized during searches, into a cache whose accounted bytes never exceed its
//! capacity.
#![tactic(auto)]

pub mod cache;
pub mod dfa;
pub mod id;
pub mod laws;
pub mod search;
