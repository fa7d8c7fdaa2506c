//! Transformations of NFAs: reversing, merging wide unions, flattening chains of unions, and leaving a lazy loop out.
//! Searches do not depend on this crate.
#![tactic(auto)]

mod alternates;
mod anchoring;
mod copies;
mod flattening;
mod folding;
pub mod laws;
mod merging;
mod reverse;
mod segments;
mod standing;
mod turn;

pub use anchoring::anchored;
pub use flattening::flattened;
pub use merging::merged;
pub use reverse::{ReverseError, reversed};
