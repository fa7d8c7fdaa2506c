//! Which texts match somewhere, and which of them matches at an offset, by simulations.
ghost use Rattle.std.specs.Prelude.{◌≡◌, ◌≤◌, IfSome, List, length, option_map};
ghost use Rattle.regex_hir.specs.Re.{Re};
ghost use Rattle.meaning.specs.Patterns.{numbered_match};
ghost use Rattle.meta.specs.Caches.{AreRoomsOf, HasRoomOf};
ghost use Rattle.meta.specs.Groups.{FindAllGroups, FindsGroups};
ghost use Rattle.meta.specs.Sets.{IsAnchoredMatch, is_found_from, joined_with, match_at};

use crate::program::{Program, Programs};
use crate::programs::match_of;
use crate::simulation::Simulation;
use regex_automata::util::primitives::PatternID;
use regex_automata::util::search::{Match, PatternSet};

impl Simulation {
    /// Whether a match of a program begins at `start` or later.
    fn has_match(&mut self, program: &Program, hay: &[u8], utf8: bool, start: usize) -> bool
        requires { HasRoomOf program.now self.old }
        ensures found { (re : Re) → FindsGroups program.now.nfa re → result ≡ is_found_from utf8 hay.now start re }
        ensures of { HasRoomOf program.now self.new }
    {
        self.find(program, hay, utf8, start, hay.len() + 1)
            .is_some()
    }
}

impl Programs {
    /// Adds each text to a set that has a match from `start` on, by simulations alone. A text that is not below the
    /// capacity of the set is not searched for. It cannot fail, and allocates nothing.
    ///
    /// Each text is searched for by itself, up to the end of its first match. So the time is that of the haystack from
    /// `start` on times the states of all NFAs, at most.
    pub fn which(
        &self,
        simulations: &mut [Simulation],
        hay: &[u8],
        start: usize,
        found: &mut PatternSet,
    )
        requires { AreRoomsOf simulations.old self.now.list.items }
        ensures found { (res : List Re) → FindAllGroups self.now.list.items res
            → found.new ≡ joined_with (is_found_from self.now.utf8 hay.now start) res found.old }
        ensures rooms { AreRoomsOf simulations.new self.now.list.items }
    {
        'programs: for number in 0..self.list.len() {
            if number >= found.capacity() {
                return;
            }
            let simulation = &mut simulations[number];
            if simulation.has_match(&self.list[number], hay, self.utf8, start) {
                let _ = found.try_insert(PatternID::new_unchecked(number as u32));
            }
        }
    }

    /// Returns the match that begins at an offset, by simulations alone: of the texts that match there the first one has
    /// it, and prefers it. It is what an anchored search finds, and it may be empty. It cannot fail, and allocates
    /// nothing.
    ///
    /// One text after another is tried at the offset. So the time is that of the haystack from there to where no match
    /// can go on, times the states of all NFAs, at most.
    pub fn match_at(&self, simulations: &mut [Simulation], hay: &[u8], at: usize) -> Option<Match>
        requires rooms { AreRoomsOf simulations.old self.now.list.items }
        requires within { at ≤ length hay.now }
        ensures found { (res : List Re) → FindAllGroups self.now.list.items res
            → result ≡ option_map (numbered_match res hay.now) (match_at self.now.utf8 res hay.now at) }
        ensures within { IfSome result (IsAnchoredMatch hay.now at) }
        ensures rooms { AreRoomsOf simulations.new self.now.list.items }
    {
        'programs: for number in 0..self.list.len() {
            let simulation = &mut simulations[number];
            if let Some(span) = simulation.find(&self.list[number], hay, self.utf8, at, at + 1) {
                return Some(match_of(number, span));
            }
        }
        None
    }
}
