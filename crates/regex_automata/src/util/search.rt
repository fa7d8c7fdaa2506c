//! Inputs of searches, their matches and their errors.

pub use automata_base::util::pattern_set::{PatternSet, PatternSetInsertError, PatternSetIter};
pub use automata_base::util::search::{
    Anchored, Direction, HalfMatch, Input, Match, MatchError, MatchErrorKind, MatchKind, Span,
};
