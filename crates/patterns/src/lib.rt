//! Compiles the texts of patterns to one NFA for this library, and searches for them.
//!
//! The kit's parser parses each text, and the kit's compiler compiles it to an NFA. `nfa_of` translates the states to
//! the library's, and joins the patterns by one union, which it merges if they are many: a pattern's number is its
//! position in the list, and where two match at one offset, the first one is preferred. The tables of all patterns take
//! at most `Options::size_limit` bytes and 24 more for each. A `PatternError` says what is wrong with a text: it has
//! the pattern's number and, for an error of the parser, the bytes that it is about. `Pattern` is a regex of this NFA;
//! `RegexSet` is a DFA of it, which reports all patterns that match. `facts_of` returns what every match of a pattern
//! has in common, for a search with an index.
//!
//! It is proved that these find what the texts mean, by the kit's grammar and its specification of matching
//! (`specs/Patterns.antt`; the lemmas are those of `meaning`). That these are what Rust's regex crate does is the kit's
//! claim. Groups are parsed; the crate `meta` reports them.
#![tactic(auto)]

mod attempts;
mod compile;
mod error;
mod escapes;
mod explain;
mod facts;
pub mod laws;
mod matches;
mod needles;
mod pattern;
mod set;
mod threads;
mod translate;

pub use attempts::Misses;
pub use compile::{Options, nfa_of, parse};
pub use error::{Fault, PatternError};
pub use facts::facts_of;
pub use match_facts::Facts;
pub use matches::Matches;
pub use pattern::Pattern;
pub use set::RegexSet;
