//! Regular expressions as automata. The module paths are those of the crate `regex-automata`, for the lazy DFA and what
//! it is built on; `laws` and `tokens` are additions.
#![tactic(auto)]

pub mod hybrid;
pub mod laws;
pub mod nfa;
mod threads;
pub mod tokens;
pub mod util;

pub use automata_base::util::pattern_set::{PatternSet, PatternSetInsertError, PatternSetIter};
pub use automata_base::util::primitives::PatternID;
pub use automata_base::util::search::{
    Anchored, Direction, HalfMatch, Input, Match, MatchError, MatchErrorKind, MatchKind, Span,
};
