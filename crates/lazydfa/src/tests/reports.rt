//! Rows of calls over one cache, with what they report: with ample memory, and in turns with ever more memory, so that
//! each allocation fails in some turn. A test that takes turns uses up all memory.

use super::plans::{chain, plan};
use super::reported::Reported;
use super::{Host, Text, check, exhaust, same_of};
use regex_automata::hybrid::BuildError;
use regex_automata::hybrid::dfa::{Config, DFA};
use regex_automata::nfa::thompson::{NFA, NfaError};
use search_script::{Entry, configured};
use std::alloc::Global;
use std::fmt::Write;

/// An NFA.
#[derive(Clone, Copy)]
pub enum Automaton {
    Forward(Entry),
    Reverse(Entry),
    /// An NFA that is not in the catalogue, in the form of a script's line.
    Planned(Text),
    /// A state, and after it this many states, of which the last is the only match state and each other one reads an
    /// `a`.
    Chain(Text, usize),
    /// The NFAs of `DFA::always_match` and `DFA::never_match`.
    Always,
    Never,
}

impl Automaton {
    /// Returns the NFA. Ends the process if the library builds it.
    pub fn nfa(self, rt: &impl Host) -> NFA {
        match self {
            Automaton::Forward(entry) => kept(rt, entry.forward(rt.alloc())),
            Automaton::Reverse(entry) => kept(rt, entry.reverse(rt.alloc())),
            Automaton::Planned(text) => plan(rt, text),
            Automaton::Always | Automaton::Never => panic!(rt; "it is built by the library"),
            Automaton::Chain(first, length) => chain(rt, first, length),
        }
    }

    /// Builds a lazy DFA with these options, or returns why it cannot be built.
    pub fn build(self, rt: &impl Host, options: &str) -> Result<DFA, BuildError> {
        let config = config(rt, options);
        match self {
            Automaton::Always => DFA::always_match(rt.alloc()),
            Automaton::Never => DFA::never_match(rt.alloc()),
            _ => DFA::builder()
                .configure(config)
                .build_from_nfa(self.nfa(rt)),
        }
    }
}

/// Returns the NFA of an entry, which keeps its unions if it has a look cycle.
fn kept(rt: &impl Host, nfa: Result<NFA, NfaError>) -> NFA {
    nfa.expect(rt, "an entry").keeping_unions()
}

/// A row: what it shows, what is called, its options in the form of a script, the calls, and what they report, or why
/// what is called cannot be built.
pub type RowOf<O, C> = (Text, O, Text, &'static [C], Text);

/// Something that is called, with a cache of its own.
pub trait Caller: Drop {
    /// What it is built from.
    type Of: Copy;

    type Call: Copy;

    /// Builds it, before any call.
    fn make(rt: &impl Host, of: Self::Of, options: &str) -> Result<Self, BuildError>;

    /// Makes a call, and returns what it reports.
    fn answer(&mut self, alloc: Global, call: Self::Call) -> Reported;

    /// Makes calls, and writes what they report.
    fn report(&mut self, rt: &impl Host, calls: &[Self::Call], text: &mut String) {
        for call in calls {
            write_reported(rt, text, &self.answer(rt.alloc(), *call));
        }
    }

    /// Makes the calls of a turn.
    fn take(&mut self, rt: &impl Host, row: &Short<Self::Of, Self::Call>, turns: &mut Turns) {
        for call in row.3 {
            turns.hear(rt, &self.answer(rt.alloc(), *call));
        }
        turns.lend(rt);
        for (number, due) in row.4.iter().enumerate() {
            turns.hear(rt, &self.answer(rt.alloc(), due.0));
            if turns.refuses(rt, number, due.1, row.5) {
                turns.hear(rt, &self.answer(rt.alloc(), due.0));
            }
            turns.has_reported(rt, due.1, row.0);
        }
    }
}

/// Makes the calls of each row, and compares what they report.
pub fn reports_all<T: Caller>(rt: &impl Host, rows: &[RowOf<T::Of, T::Call>]) {
    for row in rows {
        let text = text_of::<T>(rt, row.1, row.2, row.3);
        same_of(rt, &text.as_str(), &row.4, &row.0);
    }
}

/// Returns what the calls report, or why what is called cannot be built.
pub fn text_of<T: Caller>(rt: &impl Host, of: T::Of, options: &str, calls: &[T::Call]) -> String {
    let mut text = String::with_capacity(rt.alloc(), 1 << 10).expect(rt, "memory");
    write_calls::<T>(rt, of, options, calls, &mut text);
    text
}

/// Writes what the calls report, or why what is called cannot be built.
fn write_calls<T: Caller>(
    rt: &impl Host,
    of: T::Of,
    options: &str,
    calls: &[T::Call],
    text: &mut String,
) {
    match T::make(rt, of, options) {
        Ok(mut caller) => caller.report(rt, calls, text),
        Err(error) => write_reported(rt, text, &Reported::Refused(error)),
    }
}

/// Writes what a call reports after what the others did.
pub fn write_reported(rt: &impl Host, text: &mut String, reported: &Reported) {
    let before = if text.is_empty() { "" } else { ", " };
    write!(text, "{before}{reported}").expect(rt, "memory");
}

/// Returns the settings of these options.
pub fn config(rt: &impl Host, options: &str) -> Config {
    let mut config = Config::new();
    for option in options.as_bytes().split(|byte| *byte == b' ') {
        if !option.is_empty() {
            config = configured(config, option).expect(rt, "an option");
        }
    }
    config
}

/// The size of the first blocks, in bytes.
const ROOM: usize = 1 << 16;

/// A call, and what it reports once there is memory.
pub type Owed<C> = (C, &'static str);

/// The number of a call that fails, and what it reports. What comes before the word `memory` was done before the
/// failure.
pub type Refusal = (usize, &'static str);

/// A row: what it shows, what is called, its options in the form of a script, calls with ample memory, calls in the
/// memory of a turn, and the failures that have to be seen. A call that fails is repeated with memory. If no failure is
/// named, no call may fail, even without memory.
#[rattlefmt::skip]
pub type Short<O, C> = (Text, O, Text, &'static [C], &'static [Owed<C>], &'static [Refusal]);

/// The first call of a turn fails.
pub const ONCE: &[Refusal] = &[(0, "out of memory")];

/// All memory except what a turn lends, in blocks; what the last call reported, and which failures of a row were seen.
#[derive(Drop)]
pub struct Turns {
    blocks: Vec<Vec<u8>>,
    lent: usize,
    reported: String,
    is_refused: bool,
    seen: [bool; 8],
}

impl Turns {
    /// Allocates the first blocks, and takes all other memory.
    pub fn new(rt: &impl Host) -> Turns {
        let blocks = first_blocks(rt);
        let reported = String::with_capacity(rt.alloc(), 1 << 10).expect(rt, "memory");
        exhaust(rt.alloc());
        Turns {
            blocks,
            lent: 0,
            reported,
            is_refused: false,
            seen: [false; 8],
        }
    }

    /// Frees the blocks, so that there is memory.
    pub fn release(&mut self) {
        self.blocks.clear();
    }

    /// Makes the next turn lend this many bytes, and forgets the failures that were seen.
    pub fn lend_from(&mut self, lent: usize) {
        self.lent = lent;
        self.seen = [false; 8];
    }

    /// Returns how many bytes a turn lends.
    pub fn lent(&self) -> usize {
        self.lent
    }

    /// Makes the next turn lend 16 bytes more.
    pub fn lend_more(&mut self) {
        self.lent = self.lent.saturating_add(16);
    }

    /// Takes all memory, and then frees as much as the turn lends.
    pub fn lend(&mut self, rt: &impl Host) {
        self.blocks.clear();
        self.is_refused = false;
        let lent = Vec::<u8>::with_capacity(rt.alloc(), self.lent).expect(rt, "memory");
        let mut size = ROOM;
        for _ in 0..12u32 {
            self.take(rt.alloc(), size);
            size /= 2;
        }
        for count in 0..65usize {
            self.take(rt.alloc(), 1032 - 16 * count.min(64));
        }
        drop(lent);
    }

    /// Takes blocks of a size until an allocation fails.
    fn take(&mut self, alloc: Global, size: usize) {
        for _ in 0..u64::MAX {
            let Ok(block) = Vec::with_capacity(alloc, size) else {
                return;
            };
            if self.blocks.push(block).is_err() {
                return;
            }
        }
    }

    /// Stops the test unless this many of the named failures were seen.
    fn have_seen(&self, rt: &impl Host, count: usize, shows: &str) {
        for at in 0..count.min(8) {
            same_of(rt, &self.seen[at], &true, &(shows, at));
        }
    }

    /// Stops the test unless the first turn, which lends nothing, has seen the first failure, or none if none is named.
    fn has_begun(&self, rt: &impl Host, shows: &str, refusals: &[Refusal]) {
        let expected = !refusals.is_empty();
        same_of(
            rt,
            &(self.is_refused, self.seen[0]),
            &(expected, expected),
            &shows,
        );
    }

    /// Stops the test unless the last call reported this.
    pub fn has_reported(&self, rt: &impl Host, due: &str, shows: &str) {
        same_of(rt, &self.reported.as_str(), &due, &shows);
    }

    /// Keeps what a call reports.
    pub fn hear(&mut self, rt: &impl Host, reported: &Reported) {
        self.reported.clear();
        write_reported(rt, &mut self.reported, reported);
    }

    /// Whether a call that should answer runs out of memory. Then there is memory from here on.
    pub fn refuses(&mut self, rt: &impl Host, call: usize, due: &str, named: &[Refusal]) -> bool {
        let is_refused = self.reported.as_str().ends_with("memory") && !due.ends_with("memory");
        if is_refused {
            self.blocks.clear();
            self.is_refused = true;
            let is_right = self.sees(call, named) || is_beginning(self.reported.as_str(), due);
            same_of(rt, &is_right, &true, &(self.reported.as_str(), due));
        }
        is_refused
    }

    /// Whether this failure is named. If so, it is recorded as seen.
    fn sees(&mut self, number: usize, refusals: &[Refusal]) -> bool {
        match place_of(number, self.reported.as_str(), refusals) {
            Some(place) => {
                self.seen[place.min(7)] = true;
                true
            }
            None => false,
        }
    }
}

/// Returns the blocks that turns free and take again, with room for more of them.
fn first_blocks(rt: &impl Host) -> Vec<Vec<u8>> {
    let mut blocks = Vec::with_capacity(rt.alloc(), 1 << 14).expect(rt, "memory");
    for _ in 0..512u32 {
        let block = Vec::with_capacity(rt.alloc(), ROOM).expect(rt, "memory");
        blocks.push(block).expect(rt, "memory");
    }
    blocks
}

/// Returns the position of a failure among those named.
fn place_of(number: usize, reported: &str, refusals: &[Refusal]) -> Option<usize> {
    let mut place = 0usize;
    for refusal in refusals {
        if refusal.0 == number && reported == refusal.1 {
            return Some(place);
        }
        place = place.saturating_add(1);
    }
    None
}

/// Whether the report is only that memory ran out, or that after a beginning of what is due.
fn is_beginning(reported: &str, due: &str) -> bool {
    let done = reported.strip_suffix("memory").unwrap_or("no refusal");
    let done = done.strip_suffix("out of ").unwrap_or(done).trim_end();
    due.starts_with(done.strip_suffix(";").unwrap_or(done))
}

/// Takes turns with each row.
pub fn refuse_each<T: Caller>(rt: &impl Host, rows: &[Short<T::Of, T::Call>]) {
    let mut turns = Turns::new(rt);
    for row in rows {
        turns.lend_from(0);
        refuse_in_turn::<T>(rt, row, &mut turns);
    }
}

/// Takes one turn with each row, which lends `lent` bytes. No call may fail.
pub fn answer_within<T: Caller>(rt: &impl Host, lent: usize, rows: &[Short<T::Of, T::Call>]) {
    let mut turns = Turns::new(rt);
    turns.lend_from(lent);
    for row in rows {
        take_turn::<T>(rt, row, &mut turns);
        turns.has_begun(rt, row.0, &[]);
    }
}

/// Takes turns with a row until nothing fails, and checks that the named failures were seen, the first one when no
/// memory was lent.
fn refuse_in_turn<T: Caller>(rt: &impl Host, row: &Short<T::Of, T::Call>, turns: &mut Turns) {
    take_turn::<T>(rt, row, turns);
    turns.has_begun(rt, row.0, row.5);
    for _ in 0..16384u32 {
        if !turns.is_refused {
            return turns.have_seen(rt, row.5.len(), row.0);
        }
        turns.lend_more();
        take_turn::<T>(rt, row, turns);
    }
    check(rt, false);
}

/// Takes one turn with a row, over a cache of its own.
fn take_turn<T: Caller>(rt: &impl Host, row: &Short<T::Of, T::Call>, turns: &mut Turns) {
    turns.release();
    let mut caller = T::make(rt, row.1, row.2).expect(rt, "what is called");
    caller.take(rt, row, turns);
    turns.release();
}
