//! The lazy DFA, its settings and its cache.

pub use automata_config::config::{Config, Settled};
pub use automata_hybrid::cache::Cache;
pub use automata_hybrid::cache::footprint::Footprint;
pub use automata_hybrid::cache::states::{CachedState, States};
pub use automata_hybrid::dfa::DFA;
pub use automata_hybrid::dfa::builder::Builder;
pub use automata_hybrid::search::pieces::walk::{PiecesWalk, WalkEnd};
pub use automata_hybrid::search::pieces::{BeginError, Pieces};
pub use automata_hybrid::search::walk::OverlappingState;
