//! The memory of searches for matches and their groups.
use crate::simulation::Simulation;
use regex_automata::hybrid::regex;

/// The memory that searches for matches and their groups write to. It serves one search after another.
pub struct Cache {
    /// The caches of the lazy DFAs, for searches of the pattern.
    pub dfas: regex::Cache,
    /// The memory of the simulation of each pattern.
    pub simulations: Vec<Simulation>,
}

// With its own `drop`, the proof of an owner has one step for it instead of one for each part.
impl Drop for Cache {
    fn drop(self) {
        let Self {
            dfas: _dfas,
            simulations: _simulations,
        } = self;
    }
}
