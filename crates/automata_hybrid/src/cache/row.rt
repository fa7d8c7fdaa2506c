//! The state of a row, and its accounted bytes.
ghost use Rattle.std.specs.Prelude.{◌≡◌, ◌+◌, ◌*◌, ◌^◌, ◌<◌, ◌↔◌, IsTrue};
ghost use Rattle.automata_base.specs.Powersets.Powerset.{cost, dead};
ghost use Rattle.automata_hybrid.specs.Cache.Table.{has_patterns};
ghost use Rattle.automata_hybrid.specs.Cache.Ids.{offset_limit};

use crate::id::LazyStateID;
use automata_config::accounting::{HEAD_COST, ID_COST, PATTERN_COST};
use automata_determinize::determinize::State;
use std::alloc::AllocError;

/// The state of a row, and whether the row's ID has the start tag.
#[derive(Drop)]
pub struct Row {
    pub state: State,
    pub started: bool,
}

impl Clone for Row {
    ghost is_clone = { λ a b. b ≡ a };

    fn clone(&self) -> Result<Row, AllocError> {
        let state = self.state.clone()?;
        Ok(Row {
            state,
            started: self.started,
        })
    }
}

impl Row {
    ghost use Rattle.std.specs.Prelude.{◌≡◌, ◌^◌, ◌<◌};
    ghost use Rattle.automata_hybrid.specs.Cache.Table.{row_id};

    /// Returns the ID of this row, given its offset.
    pub fn id(&self, offset: u32) -> LazyStateID
        requires { offset < offset_limit }
        ensures { result ≡ row_id offset self.now }
    {
        LazyStateID::of_row(offset, self.started, has_patterns(&self.state))
    }
}

/// Returns the accounted bytes of a state.
pub fn cost(state: &State) -> usize
    requires { cost state.now < 2 ^ 64 }
    ensures { result ≡ cost state.now }
{
    HEAD_COST + PATTERN_COST * state.match_len() + ID_COST * state.nfa_len()
}

/// Whether a state is dead, so that nothing can match after it.
#[inline(always)]
pub fn is_dead(state: &State) -> bool
    ensures { IsTrue result ↔ (state.now ≡ dead) }
{
    state.nfa().next().is_none()
        && state.match_len() == 0
        && state.known() == 0
        && state.needed() == 0
        && !state.word()
        && !state.half()
}

/// Whether a state has patterns.
pub fn has_patterns(state: &State) -> bool
    ensures { result ≡ has_patterns state.now }
{
    state.match_len() > 0
}
