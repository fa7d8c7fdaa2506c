//! What finds the matches of texts and their groups, by simulations.
ghost use Rattle.std.specs.Prelude.{◌≡◌, ◌<◌, ◌≤◌, ◌↔◌, IfErr, IfOk, IfSome, IsTrue, List, Some, length, map};
ghost use Rattle.std.specs.Prelude.{is_some, option_map, string_bytes, vec_len};
ghost use Rattle.std.specs.Option.{unwrap_or};
ghost use Rattle.regex.specs.Names.{IsIndexOf};
ghost use Rattle.regex_hir.specs.Find as kit;
ghost use Rattle.regex_hir.specs.Re.{Re};
ghost use Rattle.meaning.specs.Patterns.{IsFirstLeft, find_any, left_any, numbered_match};
ghost use Rattle.patterns.specs.Faults.{IsFirstFault};
ghost use Rattle.patterns.specs.Patterns.{AreMeanings, config_of};
ghost use Rattle.meta.specs.Caches.{AreRoomsOf, HaveAtMost, HaveRoomFor};
ghost use Rattle.meta.specs.Captures.{HoldGroups, HoldNothing, LieInMatch};
ghost use Rattle.meta.specs.Groups.{FindAllGroups, IsPreferredMatch};
ghost use Rattle.meta.specs.Iteration.{LiesAfter};
ghost use Rattle.meta.specs.Names.{group_names};
ghost use Rattle.meta.specs.Programs.{AreProgramsOf};

use crate::captures::Captures;
use crate::compile::programs_of;
use crate::program::{Program, Programs};
use crate::simulation::Simulation;
use patterns::{Options, PatternError};
use regex_automata::util::primitives::PatternID;
use regex_automata::util::search::{Match, Span};
use std::alloc::{AllocError, Global};

/// Returns the number of slots of the program that has the most.
fn most_slots(programs: &[Program]) -> u32
    ensures { HaveAtMost result programs.now }
{
    let mut most = 0;
    for program in programs {
        if program.nfa.slot_count > most {
            most = program.nfa.slot_count;
        }
    }
    most
}

/// Returns the memory of the simulation of each program.
fn simulations_of(alloc: Global, programs: &[Program]) -> Result<Vec<Simulation>, AllocError>
    ensures { IfOk result (λ simulations. AreRoomsOf simulations.items programs.now) }
{
    let mut simulations = Vec::new(alloc);
    for program in programs {
        let simulation = Simulation::new(alloc, program)?;
        simulations.push(simulation)?;
    }
    Ok(simulations)
}

/// Returns the number of the first group with this name.
fn index_of(names: &[Option<String>], name: &str) -> Option<usize>
    ensures { IsIndexOf (map (option_map string_bytes) names.now) name.now result }
{
    'names: for index in 0..names.len() {
        if is_named(&names[index], name) {
            return Some(index);
        }
    }
    None
}

/// Whether a group has this name.
fn is_named(group: &Option<String>, name: &str) -> bool
    ensures { IsTrue result ↔ (option_map string_bytes group.now ≡ Some name.now) }
{
    match group {
        Some(own) => own.as_str() == name,
        None => false,
    }
}

/// Returns the match of the text with this number, from where it begins to where it ends.
pub(crate) fn match_of(number: usize, span: (usize, usize)) -> Match
    requires number { number < 2147483647 }
    requires ordered { span.0 ≤ span.1 }
    ensures { result ≡ record { pattern = number; start = span.0; end = span.1 } }
{
    let pattern = PatternID::new_unchecked(number as u32);
    let (start, end) = span;
    Match::new(pattern, Span { start, end })
}

impl Programs {
    /// Compiles each text to what finds its groups, numbered by its position in the list. The groups of each text are
    /// numbered from 1 on.
    pub fn new(alloc: Global, texts: &[&str], options: &Options) -> Result<Programs, PatternError>
        ensures meant { IfOk result (λ programs. (res : List Re)
            → AreMeanings (config_of options.now) (map (λ text. text.now) texts.now) res
            → FindAllGroups programs.list.items res) }
        ensures text { IfOk result (λ programs. programs.utf8 ≡ options.now.utf8) }
        ensures programs { IfOk result (λ programs.
            AreProgramsOf (config_of options.now) (map (λ text. text.now) texts.now) programs.list.items) }
        ensures refused { IfErr result (IsFirstFault options.now (map (λ text. text.now) texts.now)) }
    {
        match programs_of(alloc, texts, options) {
            Ok(list) => Ok(Programs {
                list,
                utf8: options.utf8,
            }),
            Err(error) => Err(error),
        }
    }

    /// Returns the memory of simulations, one for each text.
    pub fn create_simulations(&self, alloc: Global) -> Result<Vec<Simulation>, AllocError>
        ensures { IfOk result (λ simulations. AreRoomsOf simulations.items self.now.list.items) }
    {
        simulations_of(alloc, &self.list)
    }

    /// Returns captures with room for the groups of each text. They are empty.
    pub fn create_captures(&self, alloc: Global) -> Result<Captures, AllocError>
        ensures room { IfOk result (λ captures. HaveRoomFor captures self.now) }
        ensures empty { IfOk result HoldNothing }
    {
        let slots = most_slots(&self.list);
        Captures::new(alloc, slots.div_ceil(2) as usize)
    }

    /// Returns the leftmost match of the texts that begins at `start` or later, of those that begin there that of the text
    /// with the least number, by simulations alone. It cannot fail, and allocates nothing.
    ///
    /// The time is that of the haystack from `start` to the end of the match, times the states of the NFAs, at most. A
    /// lazy DFA was six to nine times as fast in what was tried.
    pub fn find_at(&self, simulations: &mut [Simulation], hay: &[u8], start: usize) -> Option<Match>
        requires rooms { AreRoomsOf simulations.old self.now.list.items }
        requires within { start ≤ length hay.now }
        ensures found { (res : List Re) → FindAllGroups self.now.list.items res
            → result ≡ option_map (numbered_match res hay.now) (find_any self.now.utf8 res hay.now start) }
        ensures within { IfSome result (λ m. (start ≤ m.start) × (m.end ≤ length hay.now)) }
        ensures rooms { AreRoomsOf simulations.new self.now.list.items }
    {
        let mut found = None;
        let mut end = hay.len() + 1;
        'programs: for number in 0..self.list.len() {
            let simulation = &mut simulations[number];
            if let Some(span) = simulation.find(&self.list[number], hay, self.utf8, start, end) {
                end = span.0;
                found = Some(match_of(number, span));
            }
        }
        found
    }

    /// Whether a match of the texts begins at `start` or later, by simulations alone.
    pub fn is_match_at(&self, simulations: &mut [Simulation], hay: &[u8], start: usize) -> bool
        requires rooms { AreRoomsOf simulations.old self.now.list.items }
        requires within { start ≤ length hay.now }
        ensures found { (res : List Re) → FindAllGroups self.now.list.items res
            → result ≡ is_some (find_any self.now.utf8 res hay.now start) }
        ensures rooms { AreRoomsOf simulations.new self.now.list.items }
    {
        self.find_at(simulations, hay, start).is_some()
    }

    /// Returns the match after one that ended at `last`, which is not an empty match there; the first match if `last` is
    /// none.
    pub fn next_match(
        &self,
        simulations: &mut [Simulation],
        hay: &[u8],
        last: Option<usize>,
    ) -> Option<Match>
        requires rooms { AreRoomsOf simulations.old self.now.list.items }
        requires within { unwrap_or last 0 ≤ length hay.now }
        ensures found { (res : List Re) → FindAllGroups self.now.list.items res
            → IsFirstLeft (left_any self.now.utf8 res hay.now) last result }
        ensures past { IfSome result (LiesAfter hay.now last) }
        ensures rooms { AreRoomsOf simulations.new self.now.list.items }
    {
        match last {
            Some(end) => self.find_after(simulations, hay, end),
            None => self.find_at(simulations, hay, 0),
        }
    }

    /// Returns the match after one that ended at `end`, which is not an empty match there.
    fn find_after(&self, simulations: &mut [Simulation], hay: &[u8], end: usize) -> Option<Match>
        requires rooms { AreRoomsOf simulations.old self.now.list.items }
        requires within { end ≤ length hay.now }
        ensures found { (res : List Re) → FindAllGroups self.now.list.items res
            → IsFirstLeft (left_any self.now.utf8 res hay.now) (Some end) result }
        ensures past { IfSome result (LiesAfter hay.now (Some end)) }
        ensures rooms { AreRoomsOf simulations.new self.now.list.items }
    {
        let found = match self.find_at(simulations, hay, end) {
            Some(found) => found,
            None => return None,
        };
        if found.end() > end {
            return Some(found);
        }
        if end == hay.len() {
            return None;
        }
        self.find_at(simulations, hay, end + 1)
    }

    /// Finds the groups of a match that a search for these texts returned, in the haystack that was searched. It reads
    /// the bytes of the match, and no others.
    pub fn groups_of(
        &self,
        simulations: &mut [Simulation],
        hay: &[u8],
        found: &Match,
        captures: &mut Captures,
    )
        requires rooms { AreRoomsOf simulations.old self.now.list.items }
        requires room { HaveRoomFor captures.old self.now }
        requires within { found.now.end ≤ length hay.now }
        ensures found { captures.new.found ≡ Some found.now }
        ensures groups { (res : List Re) (m : kit.Match) → FindAllGroups self.now.list.items res
            → IsPreferredMatch res hay.now m → found.now ≡ numbered_match res hay.now m → HoldGroups m captures.new }
        ensures within { LieInMatch found.now captures.new }
        ensures rooms { AreRoomsOf simulations.new self.now.list.items }
        ensures room { HaveRoomFor captures.new self.now }
    {
        let number = found.pattern().as_usize();
        let Some(program) = self.list.get(number) else {
            captures.read(*found, &[]);
            return;
        };
        let simulation = &mut simulations[number];
        simulation.run(program, hay, found);
        captures.read(*found, &simulation.slots);
    }

    /// Returns the name of each group of a text, from group 0 on, which has none. If there is no text with this number,
    /// the list is empty.
    pub fn group_names(&self, pattern: PatternID) -> &[Option<String>]
        ensures { map (option_map string_bytes) result.now ≡ group_names self.now pattern }
    {
        match self.list.get(pattern.as_usize()) {
            Some(program) => program.names.as_slice(),
            None => &[],
        }
    }

    /// Returns the number of groups of a text, group 0 included, or 0 if there is no text with this number.
    pub fn group_len(&self, pattern: PatternID) -> usize
        ensures { result ≡ length (group_names self.now pattern) }
    {
        self.group_names(pattern).len()
    }

    /// Returns the number of the group of a text that has this name, or none if no group has it.
    pub fn group_index(&self, pattern: PatternID, name: &str) -> Option<usize>
        ensures { IsIndexOf (group_names self.now pattern) name.now result }
    {
        index_of(self.group_names(pattern), name)
    }
}
