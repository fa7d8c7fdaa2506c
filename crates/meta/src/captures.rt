//! The groups of one match.
ghost use Rattle.std.specs.Prelude.{◌≡◌, ◌<◌, ◌^◌, ℕ, IfOk, IfSome, None, Some, vec_len};
ghost use Rattle.meta.specs.Slots.{LiesInMatch, slot_span, slots_span};

use regex_automata::util::search::{Match, Span};
use std::alloc::{AllocError, Global};

/// The match that a search found, and where each group of its pattern took part. It serves one search after another,
/// and a search allocates nothing.
#[derive(Debug, Drop)]
pub struct Captures {
    pub(crate) found: Option<Match>,
    pub(crate) spans: Vec<Option<Span>>,
}

/// Returns the span between two slots, if it lies in the match. A slot holds an offset plus one, or 0 for none.
fn span_of(found: &Match, first: usize, last: usize) -> Option<Span>
    ensures is { result ≡ slot_span found.now first last }
    ensures within { IfSome result (LiesInMatch found.now) }
{
    if found.start() < first && first <= last && last - 1 <= found.end() {
        let (start, end) = (first - 1, last - 1);
        Some(Span { start, end })
    } else {
        None
    }
}

/// Returns the span of a group of a match, from the slots of the groups after group 0.
fn group_of(found: &Match, slots: &[usize], group: usize) -> Option<Span>
    requires { group < 2 ^ 63 }
    ensures is { result ≡ slots_span found.now slots.now group }
    ensures within { IfSome result (LiesInMatch found.now) }
{
    if group == 0 {
        return Some(found.span());
    }
    if 2 * group > slots.len() {
        return None;
    }
    span_of(found, slots[2 * group - 2], slots[2 * group - 1])
}

impl Captures {
    ghost use Rattle.meta.specs.Captures.{HoldNothing, LieInMatch, span_in};

    /// Returns captures with room for this number of groups, which hold no match.
    pub(crate) fn new(alloc: Global, groups: usize) -> Result<Captures, AllocError>
        ensures room { IfOk result (λ captures. vec_len captures.spans ≡ groups) }
        ensures empty { IfOk result HoldNothing }
    {
        let spans = vec![in alloc; None; groups]?;
        Ok(Captures { found: None, spans })
    }

    /// Removes the match and its groups.
    pub(crate) fn clear(&mut self)
        ensures empty { HoldNothing self.new }
        ensures room { vec_len self.new.spans ≡ vec_len self.old.spans }
    {
        self.found = None;
        'groups: for group in 0..self.spans.len() {
            self.spans[group] = None;
        }
    }

    /// Takes a match and its groups from the slots that a simulation wrote.
    pub(crate) fn read(&mut self, found: Match, slots: &[usize])
        ensures found { self.new.found ≡ Some found }
        ensures spans { (group : ℕ) → group < vec_len self.old.spans
            → span_in self.new group ≡ slots_span found slots.now group }
        ensures within { LieInMatch found self.new }
        ensures room { vec_len self.new.spans ≡ vec_len self.old.spans }
    {
        self.found = Some(found);
        'groups: for group in 0..self.spans.len() {
            self.spans[group] = group_of(&found, slots, group);
        }
    }

    /// Returns the match, with its span and its pattern, or none if the last search found none.
    pub fn get_match(&self) -> Option<Match>
        ensures { result ≡ self.now.found }
    {
        self.found
    }

    /// Returns the span of a group, in bytes, or none if it took no part in the match. Group 0 is the whole match. A
    /// group in a repetition has the span of the last round in which it took part.
    pub fn get(&self, group: usize) -> Option<Span>
        ensures { result ≡ span_in self.now group }
    {
        if group < self.spans.len() {
            self.spans[group]
        } else {
            None
        }
    }
}
