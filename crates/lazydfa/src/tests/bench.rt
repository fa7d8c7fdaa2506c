//! Calls of one lazy DFA over two of its caches, among them walks and sets, and what they report.

ghost use Rattle.std.specs.Prelude.{◌<◌, ◌≡◌, ◌^◌, IfOk, IsTrue};
ghost use Rattle.lazydfa.specs.Walks.{IsWalkOver};
ghost use Rattle.regex_automata.specs.Promises.{HoldsRow, IsCacheOf};

use super::Host;
use super::plans::{Mode, pattern_id};
use super::reported::{Counted, Reported, letter, prints};
use super::reports::{Automaton, Caller, Short, Turns, write_reported};
use regex_automata::hybrid::dfa::{Cache, DFA, OverlappingState};
use regex_automata::hybrid::{BuildError, LazyStateID, SearchError, StartError, StepError};
use regex_automata::nfa::thompson::NFA;
use regex_automata::util::search::{Anchored, HalfMatch, Input, PatternSet};
use regex_automata::util::start;
use std::alloc::{AllocError, Global};
use std::mem;

/// The input of walks and sets.
#[derive(Clone, Copy)]
pub enum Over {
    Nothing,
    Text(&'static str),
    /// A span of a haystack.
    Span(&'static str, usize, usize),
}

impl Over {
    /// Returns the input.
    pub fn input(self) -> Input<'static> {
        match self {
            Over::Nothing => Input::new(b""),
            Over::Text(haystack) => Input::new(haystack.as_bytes()),
            Over::Span(haystack, start, end) => within(haystack.as_bytes(), start, end),
        }
    }
}

/// An NFA, and the input of its walks and sets.
#[derive(Clone, Copy)]
pub struct On(pub Automaton, pub Over);

/// A call.
#[derive(Clone, Copy)]
pub enum Call {
    /// Searches a haystack, in the direction of the NFA.
    Find(&'static str),
    FindEarliest(&'static str),
    /// Searches a span of a haystack.
    FindIn(&'static str, usize, usize),
    /// Like `FindIn`, forward, and also reports where the last of its spans began.
    FindBased(&'static str, usize, usize),
    /// Searches a piece that is repeated this many times.
    FindRepeated(&'static str, usize),
    /// Repeats a piece this many times and searches it as often, each time from the end of the previous match. Reports
    /// the last result.
    FindEach(&'static str, usize),
    /// Searches a mebibyte of letters `a` and `b` from a fixed generator.
    FindLetters,
    /// Moves to the start of a search of a haystack, and reports whether it is tagged.
    StartOn(Mode, &'static str),
    /// Moves to the unanchored start after this byte.
    Start(Option<u8>),
    /// Moves to the start of an anchored mode.
    StartIn(Mode, Option<u8>),
    Step(u8),
    Steps(&'static str),
    End,
    /// Advances the walk to its next match.
    Next,
    /// Begins the walk again. Each call above `Next` but `Find` does so too, and each one from `Replace` on.
    Begin,
    /// Reports the walk's last match.
    Match,
    /// Reports the last match of a copy of the walk.
    MatchOfCopy,
    /// Whether `Debug` prints the walk like this.
    Prints(&'static str),
    /// Adds a pattern to the set.
    Insert(u8),
    /// Adds the patterns of all matches to the set.
    Fill,
    /// Continues with the other cache.
    Switch,
    Reset,
    /// How often the cache was cleared, its memory, the bytes searched, and whether a search is in progress.
    Counts,
    /// Whether one byte can be allocated.
    Room,
    /// Whether the cache has leaps.
    Leaps,
    /// Replaces the cache by a new one.
    Replace,
    /// Replaces the cache by `Cache::new`.
    ReplaceByNew,
    /// Resets the cache by `Cache::reset`.
    ResetByCache,
    /// The memory of the cache, and a letter for the current state.
    Brief,
    /// Whether the NFA and the DFA can be cloned.
    Copies,
}

/// Returns a number for a set: patterns 0, 1 and 2 count as 1, 10 and 100, and each other one, up to four, as 1000.
fn digits_of(set: &PatternSet) -> usize {
    let [zero, one, two] = [has(set, 0), has(set, 1), has(set, 2)];
    let (zero, one, two) = (usize::from(zero), usize::from(one), usize::from(two));
    let others = set.len().saturating_sub(zero + one + two);
    zero + 10 * one + 100 * two + 1000 * others.min(4)
}

/// Whether a set has this pattern.
fn has(set: &PatternSet, number: u8) -> bool {
    set.contains(pattern_id(number))
}

/// A lazy DFA with two caches, of which calls use the first, the state to which was stepped, a set of patterns, and
/// what is walked over.
#[derive(Drop)]
pub struct Bench {
    dfa: DFA,
    cache: Cache,
    other: Cache,
    at: LazyStateID,
    set: PatternSet,
    over: Over,
    ghost of: { IsCacheOf cache dfa },
    ghost other_of: { IsCacheOf other dfa },
}

impl Bench {
    /// Returns a bench before any call.
    fn new(rt: &impl Host, dfa: DFA, over: Over) -> Bench {
        let cache = dfa.create_cache().expect(rt, "a cache");
        let other = dfa.create_cache().expect(rt, "a cache");
        let set = PatternSet::new(rt.alloc(), 4).expect(rt, "a set");
        Bench {
            dfa,
            cache,
            other,
            at: LazyStateID::default(),
            set,
            over,
        }
    }

    /// Writes what the calls of a walk over this input report, and those between them.
    fn report_turns(
        &mut self,
        rt: &impl Host,
        input: &Input<'_>,
        calls: &[Call],
        walk: &mut OverlappingState,
        text: &mut String,
    )
        requires { IsWalkOver self.old.dfa input.now walk.old }
    {
        for call in calls {
            write_reported(rt, text, &self.report_of(rt.alloc(), input, *call, walk));
        }
    }

    /// Makes the calls of a turn.
    fn take_turns(
        &mut self,
        rt: &impl Host,
        input: &Input<'_>,
        row: &Short<On, Call>,
        walk: &mut OverlappingState,
        turns: &mut Turns,
    )
        requires { IsWalkOver self.old.dfa input.now walk.old }
    {
        for call in row.3 {
            self.hear(rt, input, *call, walk, turns);
        }
        turns.lend(rt);
        for (number, due) in row.4.iter().enumerate() {
            self.hear(rt, input, due.0, walk, turns);
            if turns.refuses(rt, number, due.1, row.5) {
                self.hear(rt, input, due.0, walk, turns);
            }
            turns.has_reported(rt, due.1, row.0);
        }
    }

    /// Makes a call, whose report is kept.
    fn hear(
        &mut self,
        rt: &impl Host,
        input: &Input<'_>,
        call: Call,
        walk: &mut OverlappingState,
        turns: &mut Turns,
    )
        requires { IsWalkOver self.old.dfa input.now walk.old }
        ensures { IsWalkOver self.new.dfa input.now walk.new }
    {
        turns.hear(rt, &self.report_of(rt.alloc(), input, call, walk));
    }

    /// What a call reports. A call of the walk may change it, and so may one that begins it again.
    fn report_of(
        &mut self,
        alloc: Global,
        input: &Input<'_>,
        call: Call,
        walk: &mut OverlappingState,
    ) -> Reported
        requires { IsWalkOver self.old.dfa input.now walk.old }
        ensures { IsWalkOver self.new.dfa input.now walk.new }
    {
        match call {
            Call::Next => {
                let stepped = step(&self.dfa, &mut self.cache, input, walk);
                reported_of_step(stepped, walk.get_match())
            }
            Call::Match => Reported::Half(Ok(walk.get_match())),
            Call::MatchOfCopy => reported_of_copy(walk),
            Call::Prints(text) => Reported::of_flag(prints(alloc, walk, text)),
            Call::Find(_)
            | Call::Insert(_)
            | Call::Fill
            | Call::Switch
            | Call::Reset
            | Call::Counts
            | Call::Room => self.call_beside(alloc, input, call),
            _ => {
                let reported = self.call(alloc, call);
                *walk = OverlappingState::start();
                reported
            }
        }
    }

    /// A call that leaves the walk as it is.
    fn call_beside(&mut self, alloc: Global, input: &Input<'_>, call: Call) -> Reported
        ensures { self.new.dfa ≡ self.old.dfa }
    {
        match call {
            Call::Find(haystack) => {
                let input = Input::new(haystack.as_bytes());
                Reported::Half(search(&self.dfa, &mut self.cache, &input))
            }
            Call::Insert(pattern) => {
                Reported::of_flag(self.set.try_insert(pattern_id(pattern)) == Ok(true))
            }
            Call::Fill => fill(&self.dfa, &mut self.cache, input, &mut self.set),
            Call::Switch => {
                self.switch();
                Reported::Word("-")
            }
            Call::Reset => Reported::of_growth(self.dfa.reset_cache(&mut self.cache)),
            Call::Counts => self.counts(),
            _ => Reported::of_flag(Vec::<u8>::with_capacity(alloc, 1).is_ok()),
        }
    }

    /// A call that begins the walk again.
    fn call(&mut self, alloc: Global, call: Call) -> Reported {
        match call {
            Call::FindEarliest(haystack) => {
                self.find(&Input::new(haystack.as_bytes()).earliest(true))
            }
            Call::FindIn(haystack, start, end) => self.find(&within(
                haystack.as_bytes(),
                start,
                end,
            )),
            Call::FindBased(haystack, start, end) => self.find_based(&within(
                haystack.as_bytes(),
                start,
                end,
            )),
            Call::FindRepeated(piece, count) => self.find_made(repeated(alloc, piece, count), 1),
            Call::FindEach(piece, count) => self.find_made(repeated(alloc, piece, count), count),
            Call::FindLetters => self.find_made(letters(alloc), 1),
            Call::StartOn(mode, haystack) => {
                self.start_on(&Input::new(haystack.as_bytes()).anchored(mode.anchored()))
            }
            Call::Start(behind) => Reported::of_start(self.start(Anchored::No, behind)),
            Call::StartIn(mode, behind) => Reported::of_start(self.start(mode.anchored(), behind)),
            Call::Step(byte) => Reported::of_step(self.step(byte)),
            Call::Steps(bytes) => Reported::of_step(self.steps(bytes)),
            Call::End => Reported::of_step(self.end()),
            _ => self.renew(call),
        }
    }

    /// A call that makes the cache as new, or does not change it.
    fn renew(&mut self, call: Call) -> Reported {
        match call {
            Call::Replace | Call::ReplaceByNew => {
                let made = self.made(call);
                self.replace(made)
            }
            Call::ResetByCache => Reported::of_growth(self.cache.reset(&self.dfa)),
            Call::Brief => Reported::Number(self.cache.memory_usage(), letter(self.at)),
            Call::Leaps => Reported::of_flag(self.cache.leap_usage() > 0),
            Call::Copies => {
                let nfa: Result<NFA, AllocError> = self.dfa.get_nfa().clone();
                let dfa: Result<DFA, AllocError> = self.dfa.clone();
                Reported::of_flag(nfa.is_ok() && dfa.is_ok())
            }
            _ => Reported::Word("-"),
        }
    }

    /// Puts the other cache first.
    fn switch(&mut self)
        ensures { self.new.dfa ≡ self.old.dfa }
    {
        mem::swap(&mut self.cache, &mut self.other);
    }

    /// Searches in the direction of the NFA.
    fn find(&mut self, input: &Input<'_>) -> Reported {
        Reported::Half(search(&self.dfa, &mut self.cache, input))
    }

    /// Searches forward, and reports where the last span began.
    fn find_based(&mut self, input: &Input<'_>) -> Reported {
        match self.dfa.try_search_fwd_base(&mut self.cache, input) {
            Ok(Some((half, place))) => {
                Reported::Based(half.pattern().as_usize(), half.offset(), place)
            }
            Ok(None) => Reported::Half(Ok(None)),
            Err(error) => Reported::Half(Err(error)),
        }
    }

    /// Searches a haystack, which was made for the call, this many times.
    fn find_made(&mut self, made: Result<Vec<u8>, AllocError>, times: usize) -> Reported {
        match made {
            Ok(text) => Reported::Half(self.find_each(text.as_slice(), times)),
            Err(_) => Reported::Refused(BuildError::OutOfMemory),
        }
    }

    /// Searches this many times, each time from the end of the previous match, and returns the result of the last
    /// search.
    fn find_each(&mut self, text: &[u8], times: usize) -> Result<Option<HalfMatch>, SearchError> {
        let mut found = Ok(None);
        let mut start = 0usize;
        for _ in 0..times {
            let input = within(text, start, text.len());
            found = search(&self.dfa, &mut self.cache, &input);
            if let Ok(Some(half)) = found {
                start = half.offset();
            }
        }
        found
    }

    /// Moves to the start of a search of an input, and reports whether it is tagged.
    fn start_on(&mut self, input: &Input<'_>) -> Reported {
        match self.begin(input) {
            Ok(()) => Reported::of_flag(self.at.is_tagged()),
            Err(SearchError::OutOfMemory) => Reported::NoStart(StartError::OutOfMemory),
            Err(error) => Reported::Half(Err(error)),
        }
    }

    /// Moves to the start of an anchored mode after a byte.
    fn start(&mut self, mode: Anchored, behind: Option<u8>) -> Result<(), StartError> {
        let config = start::Config::new().anchored(mode).look_behind(behind);
        self.at = self.dfa.start_state(&mut self.cache, &config)?;
        Ok(())
    }

    /// Whether the cache still has the current state, which a clear can drop.
    fn has_state(&self) -> bool
        ensures row { IsTrue result → HoldsRow self.now.cache self.now.at }
        ensures low { IsTrue result → self.now.at < 2 ^ 31 }
    {
        !self.at.is_unknown() && self.cache.is_valid(self.at)
    }

    /// Steps on a byte, if the cache still has the current state.
    fn step(&mut self, byte: u8) -> Result<(), StepError> {
        if self.has_state() {
            self.at = self.dfa.next_state(&mut self.cache, self.at, byte)?;
        }
        Ok(())
    }

    /// Steps on these bytes.
    fn steps(&mut self, bytes: &str) -> Result<(), StepError> {
        for byte in bytes.as_bytes() {
            self.step(*byte)?;
        }
        Ok(())
    }

    /// Steps on the end of the haystack, if the cache still has the current state.
    fn end(&mut self) -> Result<(), StepError> {
        if self.has_state() {
            self.at = self.dfa.next_eoi_state(&mut self.cache, self.at)?;
        }
        Ok(())
    }

    /// Reports the counts of the cache, and whether a search is in progress.
    fn counts(&self) -> Reported {
        let behind = if self.cache.in_progress() {
            " open"
        } else {
            ""
        };
        Reported::Counts(counted(&self.cache), behind)
    }

    /// Moves to the start of a search of an input.
    fn begin(&mut self, input: &Input<'_>) -> Result<(), SearchError> {
        self.at = if self.dfa.get_nfa().is_reverse() {
            self.dfa.start_state_reverse(&mut self.cache, input)?
        } else {
            self.dfa.start_state_forward(&mut self.cache, input)?
        };
        Ok(())
    }

    /// Returns a new cache to replace the current one.
    fn made(&self, call: Call) -> Result<Cache, AllocError>
        ensures { IfOk result (λ made. IsCacheOf made self.now.dfa) }
    {
        match call {
            Call::Replace => self.dfa.create_cache(),
            _ => Cache::new(&self.dfa),
        }
    }

    /// Replaces the cache by a new one, or reports that it could not be made.
    fn replace(&mut self, made: Result<Cache, AllocError>) -> Reported
        requires { IfOk made (λ made. IsCacheOf made self.old.dfa) }
    {
        match made {
            Ok(cache) => {
                self.cache = cache;
                Reported::Word("-")
            }
            Err(_) => Reported::Refused(BuildError::OutOfMemory),
        }
    }
}

/// Advances a walk in the direction of the NFA.
fn step(
    dfa: &DFA,
    cache: &mut Cache,
    input: &Input<'_>,
    walk: &mut OverlappingState,
) -> Result<(), SearchError>
    requires of { IsCacheOf cache.old dfa.now }
    requires walk { IsWalkOver dfa.now input.now walk.old }
    ensures of { IsCacheOf cache.new dfa.now }
    ensures walk { IsWalkOver dfa.now input.now walk.new }
{
    if dfa.get_nfa().is_reverse() {
        dfa.try_search_overlapping_rev(cache, input, walk)
    } else {
        dfa.try_search_overlapping_fwd(cache, input, walk)
    }
}

/// What a call of a walk reports. If it fails, the walk has no match.
fn reported_of_step(stepped: Result<(), SearchError>, found: Option<HalfMatch>) -> Reported {
    match stepped {
        Err(_) if found.is_some() => Reported::Word("a refusal with a match"),
        Err(error) => Reported::Half(Err(error)),
        Ok(()) => Reported::Half(Ok(found)),
    }
}

/// What a copy of the walk has found last; it shares the state of the walk.
fn reported_of_copy(walk: &OverlappingState) -> Reported {
    match walk.clone() {
        Ok(copy) => Reported::Half(Ok(copy.get_match())),
        Err(_) => Reported::Refused(BuildError::OutOfMemory),
    }
}

/// Adds the patterns of all matches to a set. Reports the set, and the error if the search failed.
fn fill(dfa: &DFA, cache: &mut Cache, input: &Input<'_>, set: &mut PatternSet) -> Reported
    requires { IsCacheOf cache.old dfa.now }
    ensures { IsCacheOf cache.new dfa.now }
{
    let filled = dfa.try_which_overlapping_matches(cache, input, set);
    Reported::Set(digits_of(set), filled)
}

impl Caller for Bench {
    type Of = On;

    type Call = Call;

    fn make(rt: &impl Host, of: On, options: &str) -> Result<Bench, BuildError> {
        let On(automaton, over) = of;
        match automaton.build(rt, options) {
            Ok(dfa) => Ok(Bench::new(rt, dfa, over)),
            Err(error) => Err(error),
        }
    }

    /// What a call reports that needs no walk.
    fn answer(&mut self, alloc: Global, call: Call) -> Reported {
        self.call(alloc, call)
    }

    fn report(&mut self, rt: &impl Host, calls: &[Call], text: &mut String) {
        let input = self.over.input();
        let mut walk = OverlappingState::start();
        self.report_turns(rt, &input, calls, &mut walk, text);
    }

    fn take(&mut self, rt: &impl Host, row: &Short<On, Call>, turns: &mut Turns) {
        let input = self.over.input();
        let mut walk = OverlappingState::start();
        self.take_turns(rt, &input, row, &mut walk, turns);
    }
}

/// Searches in the direction of the NFA.
pub fn search(
    dfa: &DFA,
    cache: &mut Cache,
    input: &Input<'_>,
) -> Result<Option<HalfMatch>, SearchError>
    requires { IsCacheOf cache.old dfa.now }
    ensures { IsCacheOf cache.new dfa.now }
{
    if dfa.get_nfa().is_reverse() {
        dfa.try_search_rev(cache, input)
    } else {
        dfa.try_search_fwd(cache, input)
    }
}

/// Returns a piece repeated this many times.
pub fn repeated(alloc: Global, piece: &str, count: usize) -> Result<Vec<u8>, AllocError> {
    let mut text = Vec::new(alloc);
    for _ in 0..count {
        text.extend_from_slice(piece.as_bytes())?;
    }
    Ok(text)
}

/// Returns a mebibyte of letters from a linear congruential generator.
fn letters(alloc: Global) -> Result<Vec<u8>, AllocError> {
    let mut text = Vec::new(alloc);
    let mut rolled = 0u64;
    for _ in 0..1u32 << 20 {
        rolled = rolled
            .wrapping_mul(6364136223846793005)
            .wrapping_add(1442695040888963407);
        let [highest, ..] = rolled.to_be_bytes();
        text.extend_from_slice(&[b'a' + highest % 2])?;
    }
    Ok(text)
}

/// Returns how often a cache was cleared, its memory, and the bytes searched.
pub fn counted(cache: &Cache) -> Counted {
    let (memory, searched) = (cache.memory_usage(), cache.search_total_len());
    (cache.clear_count(), memory, searched)
}

/// Returns an input over a span of a haystack, or over all of it if the span is out of range.
pub fn within(haystack: &[u8], start: usize, end: usize) -> Input<'_> {
    let input = Input::new(haystack);
    if input.allows(start, end) {
        input.range(start..end)
    } else {
        input
    }
}
