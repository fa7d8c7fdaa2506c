//! The states of an NFA, as a line of a script lists them.

use crate::keyword::{Keyword, option_of};
use crate::words::{LineError, hexadecimal_byte, number, split_once};
use regex_automata::nfa::thompson::{Flags, NFA, NfaError, State, Transition};
use regex_automata::util::look::Look;
use regex_automata::util::primitives::{PatternID, StateID};
use std::alloc::{AllocError, Global};

/// An NFA as a line describes it. Whether its states, starts and patterns fit together is not checked yet.
#[derive(Drop)]
pub struct Outline {
    states: Vec<State>,
    anchored: StateID,
    unanchored: StateID,
    patterns: Vec<StateID>,
    flags: Flags,
}

impl Outline {
    /// Reads the words of a line: the starts, and then flags and states, each state numbered by its position among the
    /// states.
    pub fn parse(alloc: Global, words: &[&[u8]]) -> Result<Outline, LineError> {
        let mut outline = Outline {
            states: Vec::new(alloc),
            anchored: StateID::ZERO,
            unanchored: StateID::ZERO,
            patterns: Vec::new(alloc),
            flags: Flags::default(),
        };
        outline.read(alloc, words)?;
        Ok(outline)
    }

    /// Builds the NFA, or returns why its parts do not fit together.
    pub fn build(self, alloc: Global) -> Result<NFA, NfaError> {
        let (anchored, unanchored) = (self.anchored, self.unanchored);
        NFA::from_states(
            alloc,
            self.states,
            anchored,
            unanchored,
            self.patterns,
            self.flags,
        )
    }

    /// Reads the words of a line.
    fn read(&mut self, alloc: Global, words: &[&[u8]]) -> Result<(), LineError> {
        let (starts, rest) = words.split_first().ok_or(LineError::Bad)?;
        self.set_starts(*starts)?;
        for word in rest {
            match self.flags_with(*word) {
                Some(flags) => self.flags = flags,
                None => self.add(state_of(alloc, *word)?)?,
            }
        }
        Ok(())
    }

    /// Reads the anchored start, the unanchored start, and the starts of the patterns.
    fn set_starts(&mut self, word: &[u8]) -> Result<(), LineError> {
        let (anchored, rest) = split_once(word, b'/').ok_or(LineError::Bad)?;
        let (unanchored, patterns) = match split_once(rest, b',') {
            Some((unanchored, patterns)) => (unanchored, Some(patterns)),
            None => (rest, None),
        };
        self.anchored = state_id(anchored).ok_or(LineError::Bad)?;
        self.unanchored = state_id(unanchored).ok_or(LineError::Bad)?;
        match patterns {
            Some(list) => push_ids(&mut self.patterns, list),
            None => Ok(()),
        }
    }

    /// Returns the flags with one more set, or none if the word is not a flag.
    fn flags_with(&self, word: &[u8]) -> Option<Flags> {
        let mut flags = self.flags;
        match option_of(word)? {
            (Keyword::Utf8, None) => flags.utf8 = true,
            (Keyword::Reverse, None) => flags.reverse = true,
            (Keyword::Line, Some(value)) => flags.line_terminator = hexadecimal_byte(value)?,
            _ => return None,
        }
        Some(flags)
    }

    /// Adds a state after the others.
    fn add(&mut self, state: State) -> Result<(), LineError> {
        Ok(self.states.push(state).map_err(AllocError::from)?)
    }
}

/// Reads a state: a letter for its kind, and then its contents.
fn state_of(alloc: Global, word: &[u8]) -> Result<State, LineError> {
    let (kind, rest) = word.split_first().ok_or(LineError::Bad)?;
    match *kind {
        b'S' => Ok(State::Sparse(ranges_of(alloc, rest)?)),
        b'D' => dense_state(alloc, rest),
        b'U' => union_of(alloc, rest),
        kind => small_state(kind, rest).ok_or(LineError::Bad),
    }
}

/// Reads a state that needs no allocation. Returns none if the word is not such a state.
fn small_state(kind: u8, rest: &[u8]) -> Option<State> {
    Some(match kind {
        b'B' => {
            let Transition { lo, hi, next } = transition(rest)?;
            State::ByteRange { lo, hi, next }
        }
        b'E' => {
            let (first, second) = split_once(rest, b',')?;
            let (alt1, alt2) = (state_id(first)?, state_id(second)?);
            State::BinaryUnion { alt1, alt2 }
        }
        b'L' => {
            let (name, next) = split_once(rest, b':')?;
            let (look, next) = (look_named(name)?, state_id(next)?);
            State::Look { look, next }
        }
        b'C' => captured(state_id(rest)?),
        b'M' => State::Match {
            pattern: PatternID::new(number(rest)?)?,
        },
        b'F' if rest.is_empty() => State::Fail,
        _ => return None,
    })
}

/// Returns a capture state of the first slot.
fn captured(next: StateID) -> State {
    State::Capture {
        next,
        pattern_id: PatternID::ZERO,
        group_index: 0,
        slot: 0,
    }
}

/// Reads a union of the states in a list.
fn union_of(alloc: Global, word: &[u8]) -> Result<State, LineError> {
    let mut alternates = Vec::new(alloc);
    if !word.is_empty() {
        push_ids(&mut alternates, word)?;
    }
    Ok(State::Union { alternates })
}

/// Reads a dense state. A byte in none of the ranges leads to state 0, which stands for no transition.
fn dense_state(alloc: Global, word: &[u8]) -> Result<State, LineError> {
    let ranges = ranges_of(alloc, word)?;
    let targets = targets_of(ranges.as_slice());
    let targets = Box::new(alloc, targets).map_err(AllocError::from)?;
    Ok(State::Dense(targets))
}

/// Returns the target of each byte: that of the last range that contains it.
fn targets_of(ranges: &[Transition]) -> [StateID; 256] {
    let mut targets = [StateID::ZERO; 256];
    for range in ranges {
        for byte in range.lo..=range.hi {
            targets[usize::from(byte)] = range.next;
        }
    }
    targets
}

/// Reads a list of ranges as transitions.
fn ranges_of(alloc: Global, word: &[u8]) -> Result<Vec<Transition>, LineError> {
    let mut ranges = Vec::new(alloc);
    if !word.is_empty() {
        push_ranges(&mut ranges, word)?;
    }
    Ok(ranges)
}

/// Appends the transitions of a list of ranges.
fn push_ranges(ranges: &mut Vec<Transition>, word: &[u8]) -> Result<(), LineError> {
    for part in word.split(|byte| *byte == b',') {
        let range = transition(part).ok_or(LineError::Bad)?;
        ranges.push(range).map_err(AllocError::from)?;
    }
    Ok(())
}

/// Appends the states in a list.
fn push_ids(ids: &mut Vec<StateID>, word: &[u8]) -> Result<(), LineError> {
    for part in word.split(|byte| *byte == b',') {
        let id = state_id(part).ok_or(LineError::Bad)?;
        ids.push(id).map_err(AllocError::from)?;
    }
    Ok(())
}

/// Reads a transition: a byte or a range of bytes, and the state to which it leads.
fn transition(word: &[u8]) -> Option<Transition> {
    let (range, next) = split_once(word, b':')?;
    let (lo, hi) = split_once(range, b'-').unwrap_or((range, range));
    Some(Transition {
        lo: hexadecimal_byte(lo)?,
        hi: hexadecimal_byte(hi)?,
        next: state_id(next)?,
    })
}

/// Reads a state ID, a decimal number.
fn state_id(word: &[u8]) -> Option<StateID> {
    StateID::new(number(word)?)
}

const LOOKS: [(&[u8], Look); 18] = [
    (b"Start", Look::Start),
    (b"End", Look::End),
    (b"StartLF", Look::StartLF),
    (b"EndLF", Look::EndLF),
    (b"StartCRLF", Look::StartCRLF),
    (b"EndCRLF", Look::EndCRLF),
    (b"WordAscii", Look::WordAscii),
    (b"WordAsciiNegate", Look::WordAsciiNegate),
    (b"WordUnicode", Look::WordUnicode),
    (b"WordUnicodeNegate", Look::WordUnicodeNegate),
    (b"WordStartAscii", Look::WordStartAscii),
    (b"WordEndAscii", Look::WordEndAscii),
    (b"WordStartUnicode", Look::WordStartUnicode),
    (b"WordEndUnicode", Look::WordEndUnicode),
    (b"WordStartHalfAscii", Look::WordStartHalfAscii),
    (b"WordEndHalfAscii", Look::WordEndHalfAscii),
    (b"WordStartHalfUnicode", Look::WordStartHalfUnicode),
    (b"WordEndHalfUnicode", Look::WordEndHalfUnicode),
];

/// Returns the look-around assertion with this name, if there is one.
fn look_named(name: &[u8]) -> Option<Look> {
    let (_, look) = LOOKS.iter().find(|(text, _)| *text == name)?;
    Some(*look)
}
