//! What several threads may share. The trait bounds are the promise; the functions do nothing when they run.
use crate::prefilter::Prefilter;

/// Accepts a value that several threads may share, and that may move from one to another.
fn is_shared<T: Send + Sync>(_value: &T) {}

/// A prefilter may be used by several threads at once.
pub fn prefilter_is_shared(prefilter: &Prefilter) {
    is_shared(prefilter);
}
