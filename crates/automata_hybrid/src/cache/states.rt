//! Read access to the states in a cache: each with its ID, its powerset state and its transitions.
ghost use Rattle.std.specs.Prelude.{◌≡◌};
ghost use Rattle.std.specs.Iterator.{YieldsFirst, item_count};

use crate::cache::row::Row;
use crate::id::LazyStateID;
use automata_determinize::determinize::State;
use std::marker::Model;

/// A state in a cache.
#[derive(Drop)]
pub struct CachedState<'c> {
    id: LazyStateID,
    state: &'c State,
    transitions: &'c [LazyStateID],
}

impl<'c> Model for CachedState<'c> {
    ghost use Rattle.automata_hybrid.specs.Cache.States.{HeldState};

    ghost Value = { HeldState };

    ghost view = { λ s. record { id = s.id; state = s.state.now; transitions = s.transitions.now } };
}

impl<'c> CachedState<'c> {
    /// Returns the ID of the state, the one that a search by steps gets. `is_start` and `is_match` check its tags.
    pub fn id(&self) -> LazyStateID
        ensures { result ≡ self.now.id }
    {
        self.id
    }

    /// Returns the powerset state: its NFA states in order of preference (`nfa`), its patterns (`match_len`,
    /// `match_pattern`), and what is known of looks and of the previous byte (`known`, `needed`, `word`, `half`).
    pub fn state(&self) -> &'c State
        ensures { result.now ≡ self.now.state }
    {
        self.state
    }

    /// Returns the IDs that the transitions of the state lead to: one for each class of bytes, as `ByteClasses::get`
    /// numbers them, and at `ByteClasses::eoi` the one for the end of the haystack. `is_unknown` returns true for
    /// transitions that are not cached. Entries after the last class have no meaning.
    pub fn transitions(&self) -> &'c [LazyStateID]
        ensures { result.now ≡ self.now.transitions }
    {
        self.transitions
    }
}

/// An iterator over the states in a cache, in the order in which they were added.
#[derive(Drop)]
pub struct States<'c> {
    rows: &'c [Row],
    cells: &'c [LazyStateID],
    stride: usize,
    offset: usize,
}

impl<'c> Model for States<'c> {
    ghost use Rattle.std.specs.Prelude.{List};
    ghost use Rattle.automata_hybrid.specs.Cache.States.{HeldState, states_from};
    ghost use Rattle.automata_hybrid.specs.Private.Cache.States.{AreRowsLeft};

    ghost Value = { List HeldState };

    ghost view = { λ s. states_from s.stride s.offset s.cells.now s.rows.now };

    ghost invariant = { λ s. AreRowsLeft s.stride s.offset s.cells.now s.rows.now };
}

impl<'c> States<'c> {
    ghost use Rattle.automata_hybrid.specs.Cache.States.{states_from};
    ghost use Rattle.automata_hybrid.specs.Private.Cache.States.{AreRowsLeft};

    /// Returns the states of these rows, with their cells. `offset` is the offset of the first row.
    pub(crate) fn new(
        rows: &'c [Row],
        cells: &'c [LazyStateID],
        stride: usize,
        offset: usize,
    ) -> States<'c>
        requires { AreRowsLeft stride offset cells.now rows.now }
        ensures { result ≡ states_from stride offset cells.now rows.now }
    {
        States {
            rows,
            cells,
            stride,
            offset,
        }
    }
}

impl<'c> Iterator for States<'c> {
    type Item = CachedState<'c>;

    ghost next_gives = { YieldsFirst (λ s. s) };

    ghost remaining = { item_count (λ s. s) };

    fn next(&mut self) -> Option<CachedState<'c>> {
        if self.rows.is_empty() {
            return None;
        }
        let row = &self.rows[0];
        let (transitions, cells) = self.cells.split_at(self.stride);
        let found = CachedState {
            id: row.id(self.offset as u32),
            state: &row.state,
            transitions,
        };
        self.rows = &self.rows[1..];
        self.cells = cells;
        self.offset += self.stride;
        Some(found)
    }
}
