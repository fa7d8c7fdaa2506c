//! The memory that simulations and captures take from the allocator.
use crate::captures::Captures;
use crate::program::{Program, Programs};
use crate::simulation::Simulation;
use automata_base::util::heap::array;
use regex_automata::util::search::Span;

/// The sizes of what the kit's PikeVM keeps for a state: a thread, without its slots; a mark; and a frame of its stack.
const THREAD: usize = 16;

const MARK: usize = 4;

const FRAME: usize = 16;

/// Returns the bytes that the simulation of a program takes from the allocator.
fn bytes_of(program: &Program) -> usize {
    let states = program.nfa.states.len();
    let slots = program.nfa.slot_count as usize - 2;
    let rows = array(states.saturating_mul(slots), size_of::<usize>());
    let threads = array(states, THREAD).saturating_add(rows);
    array(states, MARK)
        .saturating_add(array(states, FRAME))
        .saturating_add(threads.saturating_mul(2))
        .saturating_add(array(slots, size_of::<usize>()).saturating_mul(2))
}

impl Programs {
    /// Returns the bytes that the simulations and the captures of these programs take from the allocator.
    pub fn footprint(&self, simulations: &Vec<Simulation>, captures: &Captures) -> usize {
        let mut held = array(simulations.capacity(), size_of::<Simulation>());
        for program in &self.list {
            held = held.saturating_add(bytes_of(program));
        }
        held.saturating_add(array(captures.spans.capacity(), size_of::<Option<Span>>()))
    }
}
