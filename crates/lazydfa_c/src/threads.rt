//! What several threads may use at once, and what may be moved to another thread. The trait bounds are what is checked;
//! the functions do nothing at run time.
use crate::object::{InPieces, Shared};

/// Accepts a value that may be sent to another thread, and used by several threads at once.
fn is_shared<T: Send + Sync>(_value: &T) {}

/// The regex that handles share may be used, and dropped, by several threads at once.
pub fn regex_is_shared(shared: &Shared) {
    is_shared(shared);
}

/// Accepts a value that may be sent to another thread.
fn is_sent<T: Send>(_value: &T) {}

/// The search and the walk in pieces of a cache may continue on another thread than the one that read the previous
/// piece.
pub fn pieces_are_sent(pieces: &InPieces) {
    is_sent(pieces);
}
