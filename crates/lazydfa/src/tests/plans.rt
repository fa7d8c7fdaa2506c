//! NFAs that are not in the catalogue, in the form of a script's lines, and the anchored modes of starts.

use super::{Host, Text};
use regex_automata::nfa::thompson::NFA;
use regex_automata::util::primitives::{PatternID, StateID};
use regex_automata::util::search::Anchored;
use search_script::Outline;
use std::fmt::Write;

/// The anchored mode of a start.
#[derive(Clone, Copy)]
pub enum Mode {
    /// Searches that may begin at each offset.
    Every,
    /// Searches that begin only at the start of the span.
    First,
    /// Anchored searches for one pattern.
    Of(u8),
}

impl Mode {
    /// Returns the mode as an `Anchored`.
    pub fn anchored(self) -> Anchored {
        match self {
            Mode::Every => Anchored::No,
            Mode::First => Anchored::Yes,
            Mode::Of(number) => Anchored::Pattern(pattern_id(number)),
        }
    }
}

/// Returns the NFA that a line with these words defines.
pub fn plan(rt: &impl Host, text: &str) -> NFA {
    let words = text.as_bytes().split(|byte| *byte == b' ');
    let words: Vec<&[u8]> = words.collect(rt.alloc()).expect(rt, "memory");
    let outline = Outline::parse(rt.alloc(), words.as_slice()).expect(rt, "an NFA");
    outline.build(rt.alloc()).expect(rt, "an automaton")
}

/// Returns a chain: the state `first`, and after it `length` states, of which the last is the only match state and each
/// other one reads an `a`. All starts are at the first state.
pub fn chain(rt: &impl Host, first: Text, length: usize) -> NFA {
    let mut text = String::new(rt.alloc());
    write!(text, "0/0,0 {first}").expect(rt, "memory");
    for number in 2..length.saturating_add(1) {
        write!(text, " B61:{number}").expect(rt, "memory");
    }
    write!(text, " M0").expect(rt, "memory");
    plan(rt, text.as_str())
}

/// Returns the state IDs with these numbers.
pub fn ids_of(rt: &impl Host, numbers: &[u8]) -> Vec<StateID> {
    let mut ids = Vec::new(rt.alloc());
    for number in numbers {
        ids.push(id(*number)).expect(rt, "memory");
    }
    ids
}

/// Returns the state ID with this number.
pub fn id(number: u8) -> StateID {
    StateID::new(usize::from(number)).unwrap()
}

/// Returns the pattern ID with this number.
pub fn pattern_id(number: u8) -> PatternID {
    PatternID::new(usize::from(number)).unwrap()
}
