//! What several threads may share, and what may move from one thread to another, as caches may (`threads` of
//! `regex_automata`). The trait bounds are the promise; the functions do nothing when they run.
use crate::matches::Matches;
use crate::pattern::Pattern;
use crate::set::RegexSet;

/// Accepts a value that several threads may share, and that may move from one to another.
fn is_shared<T: Send + Sync>(_value: &T) {}

/// A pattern may be used by several threads at once, each with a cache of its own.
pub fn pattern_is_shared(pattern: &Pattern) {
    is_shared(pattern);
}

/// A set may be used by several threads at once, each with a cache of its own.
pub fn set_is_shared(set: &RegexSet) {
    is_shared(set);
}

/// Accepts a value that may move to another thread.
fn is_sent<T: Send>(_value: &T) {}

/// An iterator over matches may move to another thread between two items.
pub fn matches_are_sent<'p, 'c, 'h>(matches: &Matches<'p, 'c, 'h>) {
    is_sent(matches);
}
