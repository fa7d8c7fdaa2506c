//! Tokens of patterns with a Unicode word boundary, where the lazy DFA does not find them.
ghost use Rattle.std.specs.Prelude.{◌≡◌, ◌↔◌, ◌≤◌, IsTrue, List, length, option_map};
ghost use Rattle.regex_hir.specs.Re.{Re};
ghost use Rattle.meaning.specs.Patterns.{numbered_match};
ghost use Rattle.meta.specs.Caches.{AreRoomsOf};
ghost use Rattle.meta.specs.Groups.{FindAllGroups};
ghost use Rattle.meta.specs.Sets.{match_at};
ghost use Rattle.lazydfa_c.specs.Caches.{KeepsCaches};
ghost use Rattle.lazydfa_c.specs.Calls.{WritesIfDone};
ghost use Rattle.lazydfa_c.specs.Programs.{HasRoomForGroups};
ghost use Rattle.lazydfa_c.specs.Tokens.{IsPreferredToken, SimulatesToken, can_lex, marked_as, as_token};
ghost use Rattle.lazydfa_c.specs.Words.{ByPrograms, IsMarked, ascii_mark};

use crate::code::Code;
use crate::input::{Found, Request};
use crate::object::{GroupMemory, Searcher};
use crate::status::Status;
use crate::words::{ASCII, NOT_ASCII, has_ascii};
use meta::Programs;
use regex_automata::tokens::TokenError;
use regex_automata::{Input, Match};

impl GroupMemory {
    /// Returns the match that begins at an offset, by the programs.
    fn match_at(&mut self, programs: &Programs, hay: &[u8], at: usize) -> Option<Match>
        requires rooms { AreRoomsOf self.old.simulations.items programs.now.list.items }
        requires within { at ≤ length hay.now }
        ensures meant { (res : List Re) → FindAllGroups programs.now.list.items res
            → result ≡ option_map (numbered_match res hay.now) (match_at programs.now.utf8 res hay.now at) }
        ensures rooms { AreRoomsOf self.new.simulations.items programs.now.list.items }
        ensures captures { self.new.captures ≡ self.old.captures }
    {
        programs.match_at(&mut self.simulations, hay, at)
    }
}

/// Returns a match that begins at an offset, unless it is empty.
fn as_token(at: usize, found: Option<Match>) -> Option<Match>
    ensures { result ≡ as_token at found }
{
    match found {
        Some(it) if it.end() > at => Some(it),
        _ => None,
    }
}

/// Returns the token at the start of an input that is the rest of a haystack, by the programs.
fn first_token(programs: &Programs, memory: &mut GroupMemory, input: &Input<'_>) -> Option<Match>
    requires room { HasRoomForGroups memory.old programs.now }
    requires within { input.now.start ≤ length input.now.haystack }
    ensures meant { (res : List Re) → FindAllGroups programs.now.list.items res
        → IsPreferredToken programs.now.utf8 res input.now result }
    ensures room { HasRoomForGroups memory.new programs.now }
{
    let at = input.start();
    let found = memory.match_at(programs, input.haystack(), at);
    as_token(at, found)
}

impl Searcher {
    /// Whether the programs can find the token at the start of the input.
    pub fn can_lex(&self, input: &Input<'_>) -> bool
        ensures { result ≡ can_lex self.now input.now }
    {
        self.shared.words
            && self.is_leftmost_first()
            && input.end() == input.haystack().len()
            && input.start() < input.end()
    }

    /// Returns the token at the start of an input that is the rest of a haystack, by the programs.
    fn simulate_token(&mut self, input: &Input<'_>) -> Option<Match>
        requires within { input.now.start ≤ length input.now.haystack }
        ensures meant { ByPrograms self.old.shared (λ utf8 res. IsPreferredToken utf8 res input.now result) }
        ensures keeps { KeepsCaches self.old self.new }
    {
        let Some(programs) = &self.shared.programs else {
            return None;
        };
        let Some(memory) = &mut self.groups else {
            return None;
        };
        first_token(programs, memory, input)
    }

    /// Writes the token at the start of an input that is the rest of a haystack, by the programs, and moves the start of
    /// the remaining span to the token's end.
    pub fn token_by_programs(
        &mut self,
        input: &Input<'_>,
        left: &mut Request,
        found: &mut Found,
    ) -> Status
        requires within { input.now.start ≤ length input.now.haystack }
        ensures means { SimulatesToken found.new left.old left.new input.now self.old.shared result }
        ensures keeps { KeepsCaches self.old self.new }
        ensures written { WritesIfDone found.old found.new result }
    {
        match self.simulate_token(input) {
            Some(it) => {
                *found = Found::of(it);
                left.start = it.end();
                Status::from(Code::Done)
            }
            None => Status::from(TokenError::NoToken(input.start())),
        }
    }
}

impl Request {
    /// Marks the remaining input of tokens, if it is not marked yet, by whether its haystack is ASCII.
    pub fn mark(&mut self, input: &Input<'_>)
        ensures mark { IsMarked input.now.haystack self.old.reserved self.new.reserved }
        ensures rest { self.new ≡ marked_as self.new.reserved self.old }
    {
        if self.reserved == ASCII || self.reserved == NOT_ASCII {
            return;
        }
        self.reserved = if has_ascii(input) { ASCII } else { NOT_ASCII };
    }

    /// Whether the remaining input is marked as one of an ASCII haystack.
    pub fn is_ascii(&self) -> bool
        ensures { IsTrue result ↔ (self.now.reserved ≡ ascii_mark) }
    {
        self.reserved == ASCII
    }
}
