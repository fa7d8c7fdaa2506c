//! Where matches of patterns can begin, by the literals or the bytes with which they begin.
//!
//! If every match begins with one of a few literals, the *needles*, a search may begin at the first offset where one of
//! them occurs: a `Prefilter` finds it much faster than a lazy DFA walks there. Laws say that the search then returns
//! what it would have returned: by the ordered paths alone (`specs/Skipping.antt`), and by what the patterns mean
//! (`specs/Needles.antt`).
//!
//! A literal inside of matches serves too: what comes before it in a match, the *head*, has at most some number of bytes,
//! or only bytes of some table. With nothing known of the head, a search can still end early where the literal is missing.
//!
//! `FirstBytes` has the bytes with which matches of an NFA can begin. An anchored search from the first of them finds the
//! match with its start, if it finds one, so no reverse search is needed.
#![tactic(auto)]

mod beginnings;
mod bytes;
mod first_bytes;
mod heads;
mod inner;
pub mod laws;
mod pairs;
mod prefilter;
mod threads;

pub use beginnings::first_literals;
pub use first_bytes::FirstBytes;
pub use heads::Head;
pub use prefilter::{Needles, Prefilter};
