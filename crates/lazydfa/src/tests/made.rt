//! The encoding of powerset states.

use super::plans::{ids_of, pattern_id};
use super::{Host, check};
use regex_automata::util::determinize::{Parts, State};
use regex_automata::util::primitives::PatternID;

/// The encoding of a powerset state with three NFA states and two patterns.
#[rattlefmt::skip]
const THREE: &[u8] = &[3, 0, 0, 0, 0, 0, 0, 0, 0, 2, 0, 0, 0, 0, 0, 0, 0, 1, 0, 0, 0, 6, 2, 5];

/// Returns the parts of that state, with no look known or needed and no flag set.
fn three(rt: &impl Host) -> Parts {
    let mut patterns: Vec<PatternID> = Vec::new(rt.alloc());
    patterns.push(pattern_id(0)).expect(rt, "memory");
    patterns.push(pattern_id(1)).expect(rt, "memory");
    Parts {
        nfa: ids_of(rt, &[3, 4, 1]),
        patterns,
        known: 0,
        needed: 0,
        word: false,
        half: false,
    }
}

/// Whether the parts are encoded as `THREE`, and decoding a clone of the state returns them.
fn is_coded(rt: &impl Host, parts: &Parts) -> bool {
    assert!(rt; parts.is_without_repeats());
    let state = State::encode(rt.alloc(), parts).expect(rt, "memory");
    let copy: State = state.clone().expect(rt, "memory");
    let decoded = copy.decode(rt.alloc()).expect(rt, "memory");
    state.as_bytes() == THREE && decoded.nfa == parts.nfa && decoded.patterns == parts.patterns
}

/// A state is encoded and decoded.
#[test]
fn codes_a_state(rt: HostRuntime) {
    check(&rt, is_coded(&rt, &three(&rt)));
}
