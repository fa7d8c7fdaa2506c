//! Regexes that answer every pattern on every haystack, with groups.
//!
//! A `Regex` has a `Pattern`, whose lazy DFAs find a match, with no group in mind, and `Programs`, which simulate the NFAs
//! of the texts by the kit's PikeVM. A simulation finds the groups of a match, over the span of the match alone. So a
//! search without groups costs nothing more, and one with groups reads the bytes of its match once more, and no others.
//! A simulation also finds the matches themselves where the lazy DFAs cannot: those of a Unicode word boundary in a
//! haystack that is not ASCII, and those of a search that gave up or ran out of memory. So a search cannot fail.
//!
//! It is proved that the matches and the groups are those that the texts mean by the kit's specification of matching:
//! the groups are the spans between the positions that the preferred path wrote last (`specs/Groups.antt`).
#![tactic(auto)]

mod cache;
mod captures;
mod compile;
mod footprint;
pub mod laws;
mod matches;
mod program;
mod programs;
mod regexes;
mod searcher;
mod set;
mod simulation;
#[cfg(test)]
mod tests;
mod which;

pub use cache::Cache;
pub use captures::Captures;
pub use matches::Matches;
pub use program::Programs;
pub use regexes::Regex;
pub use searcher::Searcher;
pub use set::{RegexSet, SetCache};
pub use simulation::Simulation;
