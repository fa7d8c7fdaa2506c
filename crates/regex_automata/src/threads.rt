//! What several threads may share, and what may move from one thread to another. The trait bounds are the promise; the
//! functions do nothing when they run.
use crate::hybrid::dfa::{self, DFA, OverlappingState, Pieces};
use crate::hybrid::regex::{self, FindMatches, Regex};
use crate::nfa::thompson::NFA;
use crate::tokens::Tokens;

/// Accepts a value that several threads may share, and that may move from one to another.
fn is_shared<T: Send + Sync>(_value: &T) {}

/// An NFA may be used by several threads at once.
pub fn nfa_is_shared(nfa: &NFA) {
    is_shared(nfa);
}

/// A lazy DFA may be used by several threads at once, each with a cache of its own.
pub fn dfa_is_shared(dfa: &DFA) {
    is_shared(dfa);
}

/// A regex may be used by several threads at once, each with a cache of its own.
pub fn regex_is_shared(regex: &Regex) {
    is_shared(regex);
}

/// Accepts a value that may move to another thread.
fn is_sent<T: Send>(_value: &T) {}

/// The cache of a lazy DFA may move to another thread, where searches go on with what it has cached.
pub fn dfa_cache_is_sent(cache: &dfa::Cache) {
    is_sent(cache);
}

/// The caches of a regex may move to another thread.
pub fn regex_cache_is_sent(cache: &regex::Cache) {
    is_sent(cache);
}

/// An overlapping search may go on in another thread.
pub fn overlapping_state_is_sent(state: &OverlappingState) {
    is_sent(state);
}

/// An iterator over matches may move to another thread between two items.
pub fn matches_are_sent<'r, 'c, 'h>(matches: &FindMatches<'r, 'c, 'h>) {
    is_sent(matches);
}

/// An iterator over tokens may move to another thread between two items.
pub fn tokens_are_sent<'r, 'c, 'h>(tokens: &Tokens<'r, 'c, 'h>) {
    is_sent(tokens);
}

/// A search in pieces may move to another thread between two pieces.
pub fn pieces_are_sent(pieces: &Pieces) {
    is_sent(pieces);
}
