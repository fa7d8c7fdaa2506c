//! The NFAs that a script names.

use regex_automata::nfa::thompson::{Flags, NFA, NfaError, State, Transition};
use regex_automata::util::look::Look;
use regex_automata::util::primitives::{PatternID, StateID};
use std::alloc::{AllocError, Global};

/// An entry of the catalogue: an NFA for forward searches, and one for reverse searches.
#[derive(Clone, Copy, Debug, PartialEq, Eq)]
pub enum Entry {
    /// `ab`, always anchored.
    Ab,
    /// The empty pattern, always anchored.
    Always,
    /// No pattern at all.
    Never,
    /// `[0-9]{4}-[0-9]{2}-[0-9]{2}`.
    Date,
    /// `[0-9A-Za-z_]+` and `[!-~]+`.
    Words,
    /// `(?:ab|c)*c`.
    Abc,
    /// `a` and `a`.
    Aa,
    /// `\b[0-9]+\b`.
    Bnum,
    /// `[[:word:]]+$`.
    Wordend,
    /// The empty pattern, in UTF-8 mode.
    Empty,
    /// `a☃x|(?-u:\B)`, in UTF-8 mode.
    Snow,
    /// `a☃x|(?-u:\B)` and `x`, in UTF-8 mode.
    Snowx,
    /// `\b`.
    Bound,
    /// A line end, by CRLF.
    Crlf,
    /// `(?s-u:.)*?`, always anchored, in UTF-8 mode: any bytes, as few as possible.
    Any,
    /// `[a-z]+` and `[0-9]+`.
    Runs,
    /// `a{16}`, always anchored.
    A16,
    /// `(?:\b|%)+`.
    Percents,
    /// `(?:^|a)+`.
    Starts,
    /// `(?:\b|a)*`.
    Bounds,
    /// `x` after a cycle through `\b`, and `[a-z]`.
    Knot,
}

impl Entry {
    /// Returns the entry with this name, if there is one.
    pub(crate) fn named(name: &[u8]) -> Option<Entry> {
        let (_, entry) = NAMES.iter().find(|(text, _)| *text == name)?;
        Some(*entry)
    }

    /// Builds the NFA for forward searches.
    pub fn forward(self, alloc: Global) -> Result<NFA, NfaError> {
        let outline = self.outline();
        outline.build(alloc, outline.forward, false)
    }

    /// Builds the NFA for reverse searches.
    pub fn reverse(self, alloc: Global) -> Result<NFA, NfaError> {
        let outline = self.outline();
        outline.build(alloc, outline.reverse, true)
    }

    /// Returns the tables of the entry, and whether it is in UTF-8 mode.
    fn outline(self) -> Outline {
        match self {
            Entry::Ab => Outline::new(&AB, 0, &[0]).reversed(&AB_REVERSED),
            Entry::Always => Outline::new(&ALWAYS, 0, &[0]),
            Entry::Never => Outline::new(&NEVER, 0, &[]),
            Entry::Date => Outline::new(&DATE, 11, &[0]).reversed(&DATE_REVERSED),
            Entry::Words => Outline::new(&WORDS, 7, &[1, 3]),
            Entry::Abc => Outline::new(&ABC, 7, &[0]).reversed(&ABC_REVERSED),
            Entry::Aa => Outline::new(&AA, 5, &[1, 2]),
            Entry::Bnum => Outline::new(&BNUM, 5, &[0]),
            Entry::Wordend => Outline::new(&WORDEND, 4, &[0]).reversed(&WORDEND_REVERSED),
            Entry::Empty => Outline::new(&EMPTY, 1, &[0]).utf8(),
            Entry::Snow => Outline::new(&SNOW, 8, &[0]).reversed(&SNOW_REVERSED).utf8(),
            Entry::Snowx => Outline::new(&SNOWX, 11, &[1, 8])
                .reversed(&SNOWX_REVERSED)
                .utf8(),
            Entry::Bound => Outline::new(&BOUND, 2, &[0]),
            Entry::Crlf => Outline::new(&CRLF, 2, &[0]).reversed(&CRLF_REVERSED),
            Entry::Any => Outline::new(&ANY, 0, &[0]).utf8(),
            Entry::Runs => Outline::new(&RUNS, 7, &[1, 3]),
            Entry::A16 => Outline::new(&A16, 0, &[0]),
            Entry::Percents => Outline::new(&PERCENTS, 5, &[0]),
            Entry::Starts => Outline::new(&STARTS, 5, &[0]).reversed(&STARTS_REVERSED),
            Entry::Bounds => Outline::new(&BOUNDS, 5, &[0]),
            Entry::Knot => Outline::new(&KNOT, 7, &[4, 1]).reversed(&KNOT_REVERSED),
        }
    }
}

const NAMES: [(&[u8], Entry); 21] = [
    (b"ab", Entry::Ab),
    (b"always", Entry::Always),
    (b"never", Entry::Never),
    (b"date", Entry::Date),
    (b"words", Entry::Words),
    (b"abc", Entry::Abc),
    (b"aa", Entry::Aa),
    (b"bnum", Entry::Bnum),
    (b"wordend", Entry::Wordend),
    (b"empty", Entry::Empty),
    (b"snow", Entry::Snow),
    (b"snowx", Entry::Snowx),
    (b"bound", Entry::Bound),
    (b"crlf", Entry::Crlf),
    (b"any", Entry::Any),
    (b"runs", Entry::Runs),
    (b"a16", Entry::A16),
    (b"percents", Entry::Percents),
    (b"starts", Entry::Starts),
    (b"bounds", Entry::Bounds),
    (b"knot", Entry::Knot),
];

/// A state in the tables below. The last number is the next state, or the pattern for `Accept`.
#[derive(Clone, Copy)]
enum Line {
    /// One byte.
    Byte(u8, u8),
    /// A range of bytes, from the first to the second.
    Range(u8, u8, u8),
    /// An ASCII word byte.
    Word(u8),
    /// A union, which prefers the first state to the second.
    Either(u8, u8),
    Assert(Look, u8),
    Accept(u8),
    Fail,
}

use Line::{Accept, Assert, Byte, Either, Fail, Range, Word};

const AB: [Line; 3] = [Byte(b'a', 1), Byte(b'b', 2), Accept(0)];

const AB_REVERSED: [Line; 3] = [Byte(b'b', 1), Byte(b'a', 2), Accept(0)];

const ALWAYS: [Line; 1] = [Accept(0)];

const NEVER: [Line; 1] = [Fail];

const DATE: [Line; 13] = [
    Range(b'0', b'9', 1),
    Range(b'0', b'9', 2),
    Range(b'0', b'9', 3),
    Range(b'0', b'9', 4),
    Byte(b'-', 5),
    Range(b'0', b'9', 6),
    Range(b'0', b'9', 7),
    Byte(b'-', 8),
    Range(b'0', b'9', 9),
    Range(b'0', b'9', 10),
    Accept(0),
    Either(0, 12),
    Range(0x00, 0xFF, 11),
];

const DATE_REVERSED: [Line; 13] = [
    Range(b'0', b'9', 1),
    Range(b'0', b'9', 2),
    Byte(b'-', 3),
    Range(b'0', b'9', 4),
    Range(b'0', b'9', 5),
    Byte(b'-', 6),
    Range(b'0', b'9', 7),
    Range(b'0', b'9', 8),
    Range(b'0', b'9', 9),
    Range(b'0', b'9', 10),
    Accept(0),
    Either(0, 12),
    Range(0x00, 0xFF, 11),
];

const WORDS: [Line; 9] = [
    Either(1, 3),
    Word(2),
    Either(1, 5),
    Range(b'!', b'~', 4),
    Either(3, 6),
    Accept(0),
    Accept(1),
    Either(0, 8),
    Range(0x00, 0xFF, 7),
];

const ABC: [Line; 9] = [
    Either(1, 5),
    Either(2, 4),
    Byte(b'a', 3),
    Byte(b'b', 0),
    Byte(b'c', 0),
    Byte(b'c', 6),
    Accept(0),
    Either(0, 8),
    Range(0x00, 0xFF, 7),
];

const ABC_REVERSED: [Line; 9] = [
    Byte(b'c', 1),
    Either(2, 6),
    Either(3, 5),
    Byte(b'b', 4),
    Byte(b'a', 1),
    Byte(b'c', 1),
    Accept(0),
    Either(0, 8),
    Range(0x00, 0xFF, 7),
];

const AA: [Line; 7] = [
    Either(1, 2),
    Byte(b'a', 3),
    Byte(b'a', 4),
    Accept(0),
    Accept(1),
    Either(0, 6),
    Range(0x00, 0xFF, 5),
];

const BNUM: [Line; 7] = [
    Assert(Look::WordUnicode, 1),
    Range(b'0', b'9', 2),
    Either(1, 3),
    Assert(Look::WordUnicode, 4),
    Accept(0),
    Either(0, 6),
    Range(0x00, 0xFF, 5),
];

const WORDEND: [Line; 6] = [
    Word(1),
    Either(0, 2),
    Assert(Look::End, 3),
    Accept(0),
    Either(0, 5),
    Range(0x00, 0xFF, 4),
];

const WORDEND_REVERSED: [Line; 6] = [
    Assert(Look::Start, 1),
    Word(2),
    Either(1, 3),
    Accept(0),
    Either(0, 5),
    Range(0x00, 0xFF, 4),
];

const EMPTY: [Line; 3] = [Accept(0), Either(0, 2), Range(0x00, 0xFF, 1)];

const SNOW: [Line; 10] = [
    Either(1, 6),
    Byte(b'a', 2),
    Byte(0xE2, 3),
    Byte(0x98, 4),
    Byte(0x83, 5),
    Byte(b'x', 7),
    Assert(Look::WordAsciiNegate, 7),
    Accept(0),
    Either(0, 9),
    Range(0x00, 0xFF, 8),
];

const SNOW_REVERSED: [Line; 10] = [
    Either(1, 6),
    Byte(b'x', 2),
    Byte(0x83, 3),
    Byte(0x98, 4),
    Byte(0xE2, 5),
    Byte(b'a', 7),
    Assert(Look::WordAsciiNegate, 7),
    Accept(0),
    Either(0, 9),
    Range(0x00, 0xFF, 8),
];

const SNOWX: [Line; 13] = [
    Either(1, 8),
    Either(2, 7),
    Byte(b'a', 3),
    Byte(0xE2, 4),
    Byte(0x98, 5),
    Byte(0x83, 6),
    Byte(b'x', 9),
    Assert(Look::WordAsciiNegate, 9),
    Byte(b'x', 10),
    Accept(0),
    Accept(1),
    Either(0, 12),
    Range(0x00, 0xFF, 11),
];

const SNOWX_REVERSED: [Line; 13] = [
    Either(1, 8),
    Either(2, 7),
    Byte(b'x', 3),
    Byte(0x83, 4),
    Byte(0x98, 5),
    Byte(0xE2, 6),
    Byte(b'a', 9),
    Assert(Look::WordAsciiNegate, 9),
    Byte(b'x', 10),
    Accept(0),
    Accept(1),
    Either(0, 12),
    Range(0x00, 0xFF, 11),
];

const BOUND: [Line; 4] = [
    Assert(Look::WordUnicode, 1),
    Accept(0),
    Either(0, 3),
    Range(0x00, 0xFF, 2),
];

const CRLF: [Line; 4] = [
    Assert(Look::EndCRLF, 1),
    Accept(0),
    Either(0, 3),
    Range(0x00, 0xFF, 2),
];

const CRLF_REVERSED: [Line; 4] = [
    Assert(Look::StartCRLF, 1),
    Accept(0),
    Either(0, 3),
    Range(0x00, 0xFF, 2),
];

const ANY: [Line; 3] = [Either(1, 2), Accept(0), Range(0x00, 0xFF, 0)];

const RUNS: [Line; 9] = [
    Either(1, 3),
    Range(b'a', b'z', 2),
    Either(1, 5),
    Range(b'0', b'9', 4),
    Either(3, 6),
    Accept(0),
    Accept(1),
    Either(0, 8),
    Range(0x00, 0xFF, 7),
];

const A16: [Line; 17] = [
    Byte(b'a', 1),
    Byte(b'a', 2),
    Byte(b'a', 3),
    Byte(b'a', 4),
    Byte(b'a', 5),
    Byte(b'a', 6),
    Byte(b'a', 7),
    Byte(b'a', 8),
    Byte(b'a', 9),
    Byte(b'a', 10),
    Byte(b'a', 11),
    Byte(b'a', 12),
    Byte(b'a', 13),
    Byte(b'a', 14),
    Byte(b'a', 15),
    Byte(b'a', 16),
    Accept(0),
];

const PERCENTS: [Line; 7] = [
    Either(1, 2),
    Assert(Look::WordAscii, 3),
    Byte(b'%', 3),
    Either(0, 4),
    Accept(0),
    Either(0, 6),
    Range(0x00, 0xFF, 5),
];

const STARTS: [Line; 7] = [
    Either(1, 2),
    Assert(Look::Start, 3),
    Byte(b'a', 3),
    Either(0, 4),
    Accept(0),
    Either(0, 6),
    Range(0x00, 0xFF, 5),
];

const STARTS_REVERSED: [Line; 7] = [
    Either(1, 2),
    Assert(Look::End, 3),
    Byte(b'a', 3),
    Either(0, 4),
    Accept(0),
    Either(0, 6),
    Range(0x00, 0xFF, 5),
];

const BOUNDS: [Line; 7] = [
    Either(1, 4),
    Either(2, 3),
    Assert(Look::WordAscii, 0),
    Byte(b'a', 0),
    Accept(0),
    Either(0, 6),
    Range(0x00, 0xFF, 5),
];

const KNOT: [Line; 9] = [
    Either(2, 1),
    Range(b'a', b'z', 6),
    Assert(Look::WordAscii, 3),
    Either(0, 4),
    Byte(b'x', 5),
    Accept(0),
    Accept(1),
    Either(0, 8),
    Range(0x00, 0xFF, 7),
];

const KNOT_REVERSED: [Line; 9] = [
    Either(4, 1),
    Range(b'a', b'z', 6),
    Assert(Look::WordAscii, 3),
    Either(2, 5),
    Byte(b'x', 2),
    Accept(0),
    Accept(1),
    Either(0, 8),
    Range(0x00, 0xFF, 7),
];

/// The tables of an entry. The anchored start is state 0.
#[derive(Clone, Copy)]
struct Outline {
    forward: &'static [Line],
    reverse: &'static [Line],
    unanchored: u8,
    patterns: &'static [u8],
    utf8: bool,
}

impl Outline {
    /// Returns the outline of an NFA with one table for both directions, this unanchored start and these pattern
    /// starts.
    fn new(lines: &'static [Line], unanchored: u8, patterns: &'static [u8]) -> Outline {
        Outline {
            forward: lines,
            reverse: lines,
            unanchored,
            patterns,
            utf8: false,
        }
    }

    /// Returns the outline with another table for the reverse direction.
    fn reversed(self, lines: &'static [Line]) -> Outline {
        Outline {
            reverse: lines,
            ..self
        }
    }

    /// Returns the outline with UTF-8 mode enabled.
    fn utf8(self) -> Outline {
        Outline { utf8: true, ..self }
    }

    /// Builds the NFA of one of the outline's tables. State 0 is its anchored start.
    fn build(self, alloc: Global, lines: &[Line], reverse: bool) -> Result<NFA, NfaError> {
        let flags = Flags {
            utf8: self.utf8,
            reverse,
            line_terminator: b'\n',
        };
        let states = states_of(alloc, lines)?;
        let patterns = ids_of(alloc, self.patterns)?;
        NFA::from_states(alloc, states, id(0), id(self.unanchored), patterns, flags)
    }
}

/// Returns the states of a table, in order.
fn states_of(alloc: Global, lines: &[Line]) -> Result<Vec<State>, AllocError> {
    let mut states = Vec::with_capacity(alloc, lines.len())?;
    for line in lines {
        states.push(state_of(alloc, *line)?)?;
    }
    Ok(states)
}

/// Returns the state that a line of a table describes.
fn state_of(alloc: Global, line: Line) -> Result<State, AllocError> {
    Ok(match line {
        Line::Byte(byte, next) => State::ByteRange {
            lo: byte,
            hi: byte,
            next: id(next),
        },
        Line::Range(lo, hi, next) => State::ByteRange {
            lo,
            hi,
            next: id(next),
        },
        Line::Word(next) => State::Sparse(word_bytes(alloc, id(next))?),
        Line::Either(alt1, alt2) => State::BinaryUnion {
            alt1: id(alt1),
            alt2: id(alt2),
        },
        Line::Assert(look, next) => State::Look {
            look,
            next: id(next),
        },
        Line::Accept(pattern) => State::Match {
            pattern: pattern_id(pattern),
        },
        Line::Fail => State::Fail,
    })
}

/// Returns the transitions on ASCII word bytes, all to the state `next`.
fn word_bytes(alloc: Global, next: StateID) -> Result<Vec<Transition>, AllocError> {
    let mut transitions = Vec::with_capacity(alloc, 4)?;
    for (lo, hi) in [(b'0', b'9'), (b'A', b'Z'), (b'_', b'_'), (b'a', b'z')] {
        transitions.push(Transition { lo, hi, next })?;
    }
    Ok(transitions)
}

/// Returns the state IDs with these numbers.
fn ids_of(alloc: Global, numbers: &[u8]) -> Result<Vec<StateID>, AllocError> {
    let mut ids = Vec::with_capacity(alloc, numbers.len())?;
    for number in numbers {
        ids.push(id(*number))?;
    }
    Ok(ids)
}

/// Returns the state ID with this number.
fn id(number: u8) -> StateID {
    StateID::new(usize::from(number)).unwrap()
}

/// Returns the pattern ID with this number.
fn pattern_id(number: u8) -> PatternID {
    PatternID::new(usize::from(number)).unwrap()
}
