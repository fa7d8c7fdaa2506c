//! The objects that handles own.
ghost use Rattle.std.specs.Option.{ForSome};
ghost use Rattle.std.specs.Prelude.{◌≡◌};
ghost use Rattle.regex_automata.specs.Promises.{AreCachesOf};
ghost use Rattle.lazydfa_c.specs.Programs.{FitsPrograms, programs_of};

use crate::stream::Stream;
use crate::walk::Walk;
use meta::{Captures, Programs, Simulation};
use patterns::{Misses, Pattern};
use regex_automata::PatternSet;
use regex_automata::hybrid::regex::Cache;
use regex_automata::nfa::thompson::Builder;
use std::sync::Arc;

/// A regex that handles and caches share, on any threads. If it was built from texts, it may have needles, at which
/// searches begin. If it was built from texts or from one NFA, iterations may attempt to find matches at once. If groups
/// were asked for, or some text has a Unicode word boundary, it has the programs that find groups and matches.
#[derive(Drop)]
pub struct Shared {
    pub pattern: Arc<Pattern>,
    pub programs: Option<Arc<Programs>>,
    /// Whether some text has a Unicode word boundary, which the DFAs decide only in ASCII haystacks. The programs answer
    /// where the DFAs cannot.
    pub words: bool,
}

/// The memory in which the groups of matches are found.
pub struct GroupMemory {
    /// The memory of the simulation of each pattern.
    pub simulations: Vec<Simulation>,
    /// The groups of the last match.
    pub captures: Captures,
}

// With its own `drop`, the proof of an owner has one step for it instead of one for each part.
impl Drop for GroupMemory {
    fn drop(self) {
        let Self {
            simulations: _simulations,
            captures: _captures,
        } = self;
    }
}

/// The search and the walk in pieces that were begun over a cache.
#[derive(Drop)]
pub struct InPieces {
    pub search: Option<Stream>,
    pub walk: Option<Walk>,
}

/// A cache, the regex that it belongs to, how often attempts to find matches at once have failed, the search and the
/// walk in pieces that were begun over it, and the memory for groups if the regex has programs. Since they are kept
/// together, no call can use a cache, a search or a walk with another regex, and the regex lives as long as any of its
/// caches.
#[derive(Drop)]
pub struct Searcher {
    pub shared: Shared,
    pub cache: Cache,
    pub misses: Misses,
    pub patterns: PatternSet,
    pub pieces: InPieces,
    pub groups: Option<GroupMemory>,
    pub ghost of: { AreCachesOf cache shared.pattern.value.regex },
    pub ghost part: { ForSome pieces.search (λ s. s.machine ≡ shared.pattern.value.regex.forward) },
    pub ghost path: { ForSome pieces.walk (λ w. w.machine ≡ shared.pattern.value.regex.forward) },
    pub ghost rooms: { FitsPrograms groups (programs_of shared) },
}

/// An object that a handle owns.
#[derive(Drop)]
pub enum Object {
    Builder(Builder),
    Regex(Shared),
    Searcher(Searcher),
}
