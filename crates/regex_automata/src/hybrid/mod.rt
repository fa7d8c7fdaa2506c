//! Lazy DFAs and regexes, which build their states while they search.

pub mod dfa;
pub mod regex;

pub use automata_config::error::{BuildError, CacheError, SearchError, StartError, StepError};
pub use automata_hybrid::id::LazyStateID;
