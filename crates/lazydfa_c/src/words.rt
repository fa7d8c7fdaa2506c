//! Searches for patterns with a Unicode word boundary. The lazy DFAs decide one only in an ASCII haystack; in any other,
//! and where a search of the DFAs fails, the programs of the regex find the matches.
ghost use Rattle.std.specs.Prelude.{◌≡◌, ◌↔◌, ◌≤◌, IsAscii, IsTrue, List, MatchBool, false, length, option_map};
ghost use Rattle.std.specs.Prelude.{replicate};
ghost use Rattle.std.specs.Str.{IsNotAscii};
ghost use Rattle.automata_base.specs.Answers.Spans.{IsNextItem};
ghost use Rattle.regex_hir.specs.Re.{Re};
ghost use Rattle.meaning.specs.Patterns.{find_any, numbered_match};
ghost use Rattle.meta.specs.Caches.{AreRoomsOf};
ghost use Rattle.meta.specs.Groups.{FindAllGroups};
ghost use Rattle.meta.specs.Sets.{is_found_from, joined_with};
ghost use Rattle.regex_automata.specs.Promises.{match_kind_of};
ghost use Rattle.lazydfa_c.specs.Caches.{KeepsCaches};
ghost use Rattle.lazydfa_c.specs.Calls.{WritesIfDone, regex_of};
ghost use Rattle.lazydfa_c.specs.Programs.{HasRoomForGroups};
ghost use Rattle.lazydfa_c.specs.Sets.{SimulatesSet, can_list};
ghost use Rattle.lazydfa_c.specs.Words.{ByPrograms, IsMarked, IsMeantMatch, SimulatesEnd, SimulatesMatch};
ghost use Rattle.lazydfa_c.specs.Words.{SimulatesNext, SimulatesTest, ascii_mark, can_simulate, can_test};
ghost use Rattle.lazydfa_c.specs.Words.{is_first_kind, with_mark};

use crate::code::Code;
use crate::input::{Found, FoundHalf};
use crate::iterate::Iteration;
use crate::object::{GroupMemory, Searcher};
use crate::status::Status;
use meta::Programs;
use regex_automata::{Anchored, HalfMatch, Input, Match, MatchKind, PatternSet};

/// The mark of an iteration whose haystack is ASCII.
pub const ASCII: u32 = 1;

/// The mark of an iteration whose haystack is not ASCII.
pub const NOT_ASCII: u32 = 2;

/// Whether the haystack of an input is ASCII. It reads all of the haystack that is.
pub fn has_ascii(input: &Input<'_>) -> bool
    ensures { MatchBool result (IsAscii input.now.haystack) (IsNotAscii input.now.haystack) }
{
    input.haystack().is_ascii()
}

impl GroupMemory {
    /// Returns the first match that begins at an offset or later, by the programs.
    fn find_first(&mut self, programs: &Programs, hay: &[u8], start: usize) -> Option<Match>
        requires rooms { AreRoomsOf self.old.simulations.items programs.now.list.items }
        requires within { start ≤ length hay.now }
        ensures meant { (res : List Re) → FindAllGroups programs.now.list.items res
            → result ≡ option_map (numbered_match res hay.now) (find_any programs.now.utf8 res hay.now start) }
        ensures rooms { AreRoomsOf self.new.simulations.items programs.now.list.items }
        ensures captures { self.new.captures ≡ self.old.captures }
    {
        programs.find_at(&mut self.simulations, hay, start)
    }

    /// Adds the patterns to a set that match from an offset on, by the programs.
    fn join_which(&mut self, programs: &Programs, hay: &[u8], start: usize, set: &mut PatternSet)
        requires { AreRoomsOf self.old.simulations.items programs.now.list.items }
        ensures meant { (res : List Re) → FindAllGroups programs.now.list.items res
            → set.new ≡ joined_with (is_found_from programs.now.utf8 hay.now start) res set.old }
        ensures rooms { AreRoomsOf self.new.simulations.items programs.now.list.items }
        ensures captures { self.new.captures ≡ self.old.captures }
    {
        programs.which(&mut self.simulations, hay, start, set);
    }
}

/// Returns the first match of an input that is the rest of a haystack, by the programs.
fn first_match(programs: &Programs, memory: &mut GroupMemory, input: &Input<'_>) -> Option<Match>
    requires room { HasRoomForGroups memory.old programs.now }
    requires within { input.now.start ≤ length input.now.haystack }
    ensures meant { (res : List Re) → FindAllGroups programs.now.list.items res
        → IsMeantMatch programs.now.utf8 res input.now result }
    ensures room { HasRoomForGroups memory.new programs.now }
{
    memory.find_first(programs, input.haystack(), input.start())
}

/// Adds the patterns to a set that match in an input that is the rest of a haystack, by the programs.
fn join_which(
    programs: &Programs,
    memory: &mut GroupMemory,
    input: &Input<'_>,
    set: &mut PatternSet,
)
    requires { HasRoomForGroups memory.old programs.now }
    ensures meant { (res : List Re) → FindAllGroups programs.now.list.items res
        → set.new ≡ joined_with (is_found_from programs.now.utf8 input.now.haystack input.now.start) res set.old }
    ensures room { HasRoomForGroups memory.new programs.now }
{
    memory.join_which(programs, input.haystack(), input.start(), set);
}

impl Searcher {
    /// Whether the programs can tell if the input has a match.
    pub fn can_test(&self, input: &Input<'_>) -> bool
        ensures { result ≡ can_test self.now input.now }
    {
        self.shared.words
            && matches!(input.get_anchored(), Anchored::No)
            && input.end() == input.haystack().len()
            && input.start() <= input.end()
    }

    /// Whether the programs can find the match of the input.
    pub fn can_simulate(&self, input: &Input<'_>) -> bool
        ensures { result ≡ can_simulate self.now input.now }
    {
        self.can_test(input) && !input.get_earliest() && self.is_leftmost_first()
    }

    /// Whether the programs can list the patterns that match in the input.
    pub fn can_list(&self, input: &Input<'_>) -> bool
        ensures { result ≡ can_list self.now input.now }
    {
        self.can_test(input) && !input.get_earliest() && !self.is_leftmost_first()
    }

    /// Whether the match kind is `MatchKind::LeftmostFirst`.
    pub fn is_leftmost_first(&self) -> bool
        ensures { result ≡ is_first_kind (match_kind_of (regex_of self.now).forward.config) }
    {
        let shared = &self.shared;
        match shared.pattern.regex.forward().get_config().get_match_kind() {
            MatchKind::LeftmostFirst => true,
            MatchKind::All => false,
        }
    }

    /// Returns the first match of an input that is the rest of a haystack, by the programs.
    fn simulate(&mut self, input: &Input<'_>) -> Option<Match>
        requires within { input.now.start ≤ length input.now.haystack }
        ensures meant { ByPrograms self.old.shared (λ utf8 res. IsMeantMatch utf8 res input.now result) }
        ensures keeps { KeepsCaches self.old self.new }
    {
        let Some(programs) = &self.shared.programs else {
            return None;
        };
        let Some(memory) = &mut self.groups else {
            return None;
        };
        first_match(programs, memory, input)
    }

    /// Returns the first match of an input that is the rest of a haystack, other than an empty match at `last`, by the
    /// programs.
    fn simulate_next(&mut self, input: &Input<'_>, last: Option<usize>) -> Option<Match>
        requires within { input.now.start ≤ length input.now.haystack }
        requires end { input.now.end ≡ length input.now.haystack }
        ensures meant { ByPrograms self.old.shared (λ utf8 res.
            IsNextItem (IsMeantMatch utf8 res) input.now input.now.start last result) }
        ensures keeps { KeepsCaches self.old self.new }
    {
        let Some(it) = self.simulate(input) else {
            return None;
        };
        if it.start() < it.end() || last != Some(it.end()) {
            return Some(it);
        }
        if input.start() == input.end() {
            return None;
        }
        let mut later = input.copied();
        later.set_start(input.start() + 1);
        self.simulate(&later)
    }

    /// Searches for the first match by the programs, and writes it.
    pub fn find_by_programs(&mut self, input: &Input<'_>, found: &mut Found) -> Status
        requires within { input.now.start ≤ length input.now.haystack }
        ensures means { SimulatesMatch found.new input.now self.old.shared result }
        ensures keeps { KeepsCaches self.old self.new }
        ensures written { WritesIfDone found.old found.new result }
    {
        match self.simulate(input) {
            Some(it) => {
                *found = Found::of(it);
                Status::from(Code::Done)
            }
            None => Status::from(Code::Nothing),
        }
    }

    /// Searches for the end of the first match by the programs, and writes it with its pattern.
    pub fn find_end_by_programs(&mut self, input: &Input<'_>, found: &mut FoundHalf) -> Status
        requires within { input.now.start ≤ length input.now.haystack }
        ensures means { SimulatesEnd found.new input.now self.old.shared result }
        ensures keeps { KeepsCaches self.old self.new }
        ensures written { WritesIfDone found.old found.new result }
    {
        match self.simulate(input) {
            Some(it) => {
                *found = FoundHalf::of(HalfMatch::new(it.pattern(), it.end()));
                Status::from(Code::Done)
            }
            None => Status::from(Code::Nothing),
        }
    }

    /// Tests whether there is a match by the programs.
    pub fn test_by_programs(&mut self, input: &Input<'_>) -> Status
        requires within { input.now.start ≤ length input.now.haystack }
        ensures means { SimulatesTest input.now self.old.shared result }
        ensures keeps { KeepsCaches self.old self.new }
    {
        match self.simulate(input) {
            Some(_) => Status::from(Code::Done),
            None => Status::from(Code::Nothing),
        }
    }

    /// Makes the searcher's set that of the patterns that match in an input that is the rest of a haystack, by the
    /// programs. Its capacity stays.
    pub fn join_by_programs(&mut self, input: &Input<'_>) -> Status
        ensures { SimulatesSet (replicate (length self.old.patterns) false) input.now self.old self.new result }
    {
        self.patterns.clear();
        let done = Status::from(Code::Done);
        let Some(programs) = &self.shared.programs else {
            return done;
        };
        let Some(memory) = &mut self.groups else {
            return done;
        };
        join_which(programs, memory, input, &mut self.patterns);
        done
    }

    /// Searches for the next match of an iteration by the programs, and writes it. If there is no match, the iteration
    /// ends.
    pub fn next_by_programs(
        &mut self,
        input: &Input<'_>,
        at: &mut Iteration,
        found: &mut Found,
    ) -> Status
        requires within { input.now.start ≤ length input.now.haystack }
        requires end { input.now.end ≡ length input.now.haystack }
        ensures means { SimulatesNext found.new at.old at.new input.now self.old.shared result }
        ensures keeps { KeepsCaches self.old self.new }
        ensures written { WritesIfDone found.old found.new result }
    {
        match self.simulate_next(input, at.last()) {
            Some(it) => at.give(it, found),
            None => {
                at.ended = 1;
                Status::from(Code::Nothing)
            }
        }
    }
}

impl Iteration {
    /// Marks an iteration that is not marked yet by whether the haystack is ASCII.
    pub fn mark(&mut self, input: &Input<'_>)
        ensures mark { IsMarked input.now.haystack self.old.left.reserved self.new.left.reserved }
        ensures rest { self.new ≡ with_mark self.new.left.reserved self.old }
    {
        if self.left.reserved == ASCII || self.left.reserved == NOT_ASCII {
            return;
        }
        self.left.reserved = if has_ascii(input) { ASCII } else { NOT_ASCII };
    }

    /// Whether an iteration is marked as one of an ASCII haystack.
    pub fn is_ascii(&self) -> bool
        ensures { IsTrue result ↔ (self.now.left.reserved ≡ ascii_mark) }
    {
        self.left.reserved == ASCII
    }
}
