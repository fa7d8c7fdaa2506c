//! Which lines of a text are taken: those that have a match or, with `-v`, those that have none.
ghost use Rattle.std.specs.Prelude.{◌≡◌, ◌↔◌, Bool, List, IfOk, IsTrue, OnOk, cond, false, map, not};
ghost use Rattle.regex_hir.specs.Re.{Re};
ghost use Rattle.regex_automata.specs.Promises.{IsCacheOf, IsLookAcyclic, nfa_of};
ghost use Rattle.meaning.specs.Patterns.{HasPart};
ghost use Rattle.lgrep.specs.Lines.{AreMarked, AreMatching, HasMatch, IsSearcherFor, IsWanted, first_lines};
ghost use Rattle.lgrep.specs.Lines.{found_line, is_limit, lines, marked_line, one_more, position_after_all};
ghost use Rattle.lgrep.specs.Lines.{positioned};

use crate::position::Position;
use crate::show::Flags;
use crate::stats::Usage;
use anyhow::Result;
use regex_automata::hybrid::SearchError;
use regex_automata::hybrid::dfa::{Cache, DFA};
use regex_automata::laws::{cycles_are_kept, start_is_right};
use regex_automata::util::search::Input;
use std::alloc::Global;

/// A DFA and its cache. The ghost fields are what each search requires.
pub struct LineSearcher {
    dfa: DFA,
    cache: Cache,
    /// The position of the next line.
    next: Position,
    ghost of: { IsCacheOf cache dfa },
    ghost ordered: { IsLookAcyclic (nfa_of dfa.nfa) },
}

// An owner drops this with one call, so that its proof has no step for each field.
impl Drop for LineSearcher {
    fn drop(self) {
        let Self {
            dfa: _dfa,
            cache: _cache,
            next: _next,
        } = self;
    }
}

/// A line, without the byte that ends it, and its position in the file.
#[derive(Clone, Copy)]
pub struct Line<'t> {
    pub position: Position,
    pub bytes: &'t [u8],
}

/// A line, and whether it is taken.
#[derive(Clone, Copy)]
pub struct Marked<'t> {
    pub line: Line<'t>,
    pub is_taken: bool,
}

/// Whether no further line is taken, because of a limit.
pub fn is_full(max: Option<u64>, count: u64) -> bool
    ensures { result ≡ is_limit max count }
{
    match max {
        Some(max) => count >= max,
        None => false,
    }
}

/// Returns the first lines of those that may be taken, if a limit leaves out the others. `count` lines of the file are
/// already taken.
pub fn first_lines<'a, 't>(lines: &'a [Line<'t>], max: Option<u64>, count: u64) -> &'a [Line<'t>]
    ensures { result.now ≡ first_lines max count lines.now }
{
    match max {
        Some(max) => {
            let left = max.saturating_sub(count).min(lines.len() as u64);
            &lines[..left as usize]
        }
        None => lines,
    }
}

/// Returns the number of lines that are taken, after a line.
fn counted(count: u64, is_taken: bool) -> u64
    ensures { result ≡ cond is_taken (one_more count) count }
{
    if is_taken {
        count.saturating_add(1)
    } else {
        count
    }
}

/// Whether a line is taken, by whether it has a match.
fn is_taken(has_match: bool, invert: bool) -> bool
    ensures { result ≡ cond invert (not has_match) has_match }
{
    if invert { !has_match } else { has_match }
}

impl LineSearcher {
    /// Returns a searcher with a new cache for the DFA, which has searched no line.
    pub fn new(dfa: DFA) -> Result<LineSearcher>
        requires { IsLookAcyclic (nfa_of dfa.nfa) }
        ensures dfa { IfOk result (λ s. s.dfa ≡ dfa) }
        ensures next { IfOk result (λ s. s.next ≡ record { lines = 0; bytes = 0 }) }
    {
        let cache = dfa.create_cache()?;
        Ok(LineSearcher {
            dfa,
            cache,
            next: Position::first(),
        })
    }

    /// Whether a line has a match.
    fn has_match(&mut self, line: &[u8]) -> Result<bool, SearchError>
        ensures same { self.new.dfa ≡ self.old.dfa }
        ensures next { self.new.next ≡ self.old.next }
        ensures found { IfOk result (λ truth. IsTrue truth ↔ HasMatch self.old.dfa line.now) }
        ensures meant { IfOk result (λ truth. (case_insensitive : Bool) (res : List Re)
            → IsSearcherFor case_insensitive res self.old.dfa → IsTrue truth ↔ HasPart res line.now) }
    {
        start_is_right();
        cycles_are_kept();
        let input = Input::new(line).earliest(true);
        let found = self.dfa.try_search_fwd(&mut self.cache, &input)?;
        Ok(found.is_some())
    }

    /// Whether a line is taken: it has a match or, with `invert`, it has none.
    fn is_wanted(&mut self, line: &[u8], invert: bool) -> Result<bool, SearchError>
        ensures same { self.new.dfa ≡ self.old.dfa }
        ensures next { self.new.next ≡ self.old.next }
        ensures found { IfOk result (λ truth. IsTrue truth ↔ IsWanted invert (HasMatch self.old.dfa line.now)) }
        ensures meant { IfOk result (λ truth. (case_insensitive : Bool) (res : List Re)
            → IsSearcherFor case_insensitive res self.old.dfa → IsTrue truth ↔ IsWanted invert (HasPart res line.now)) }
    {
        let has_match = self.has_match(line)?;
        Ok(is_taken(has_match, invert))
    }

    /// Begins a file.
    pub fn begin(&mut self)
        ensures dfa { self.new.dfa ≡ self.old.dfa }
        ensures next { self.new.next ≡ record { lines = 0; bytes = 0 } }
    {
        self.next = Position::first();
    }

    /// Returns how many lines were searched.
    pub fn searched(&self) -> u64
        ensures { result ≡ self.now.next.lines }
    {
        self.next.lines
    }

    /// Returns how the cache was used.
    pub fn usage(&self) -> Usage {
        Usage::of(&self.cache)
    }

    /// Returns the lines of a text that are taken. The positions continue from one text to the next.
    pub fn matching<'t>(
        &mut self,
        alloc: Global,
        text: &'t [u8],
        end: u8,
        invert: bool,
    ) -> Result<Vec<Line<'t>>>
        ensures same { self.new.dfa ≡ self.old.dfa }
        ensures next { OnOk result (self.new.next ≡ position_after_all self.old.next (lines end text.now)) }
        ensures lines { IfOk result (λ found. AreMatching (λ line. IsWanted invert (HasMatch self.old.dfa line.1))
            (positioned self.old.next (lines end text.now)) (map found_line found.items)) }
        ensures meant { IfOk result (λ found. (case_insensitive : Bool) (res : List Re)
            → IsSearcherFor case_insensitive res self.old.dfa → AreMatching
            (λ line. IsWanted invert (HasPart res line.1))
            (positioned self.old.next (lines end text.now)) (map found_line found.items)) }
    {
        let mut found = Vec::new(alloc);
        for bytes in text.split(|byte| *byte == end) {
            let position = self.next;
            self.next = position.after(bytes);
            if self.is_wanted(bytes, invert)? {
                found.push(Line { position, bytes })?;
            }
        }
        Ok(found)
    }

    /// Whether a line is taken, after `count` others of the file.
    fn is_next_wanted(
        &mut self,
        line: &[u8],
        flags: &Flags,
        count: u64,
    ) -> Result<bool, SearchError>
        ensures same { self.new.dfa ≡ self.old.dfa }
        ensures next { self.new.next ≡ self.old.next }
        ensures meant { IfOk result (λ truth. (case_insensitive : Bool) (res : List Re)
            → IsSearcherFor case_insensitive res self.old.dfa → IsTrue truth
            ↔ ((is_limit flags.now.max count ≡ false) × IsWanted flags.now.invert (HasPart res line.now))) }
    {
        if is_full(flags.max, count) {
            return Ok(false);
        }
        self.is_wanted(line, flags.invert)
    }

    /// Returns all lines of a text, each with whether it is taken. No line is taken once as many are as a limit allows,
    /// if there is one: `count` lines of the file are already taken.
    pub fn marked<'t>(
        &mut self,
        alloc: Global,
        text: &'t [u8],
        end: u8,
        flags: &Flags,
        count: u64,
    ) -> Result<Vec<Marked<'t>>>
        ensures same { self.new.dfa ≡ self.old.dfa }
        ensures next { OnOk result (self.new.next ≡ position_after_all self.old.next (lines end text.now)) }
        ensures meant { IfOk result (λ marked. (case_insensitive : Bool) (res : List Re)
            → IsSearcherFor case_insensitive res self.old.dfa → AreMarked
            (λ line. IsWanted flags.now.invert (HasPart res line.1)) flags.now.max count
            (positioned self.old.next (lines end text.now)) (map marked_line marked.items)) }
    {
        let mut marked = Vec::new(alloc);
        let mut count = count;
        for bytes in text.split(|byte| *byte == end) {
            let line = Line {
                position: self.next,
                bytes,
            };
            self.next = self.next.after(bytes);
            let is_taken = self.is_next_wanted(bytes, flags, count)?;
            count = counted(count, is_taken);
            marked.push(Marked { line, is_taken })?;
        }
        Ok(marked)
    }
}
