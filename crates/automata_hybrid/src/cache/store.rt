//! What a clear replaces: the table of states, the start slots, the count of clears and the progress of searches. The
//! rules of the settings are here: what a state costs, whether it fits, and whether a search gives up instead of
//! clearing the cache.
ghost use Rattle.std.specs.Prelude.{◌≡◌, ◌+◌, ◌*◌, ◌<◌, ◌≤◌, ◌↔◌, IfOk, IfErr, OnOk, OnErr, length, IsTrue};
ghost use Rattle.std.specs.Prelude.{false, true};
ghost use Rattle.automata_determinize.specs.Powersets.Accounting.{minimum_capacity};
ghost use Rattle.automata_base.specs.Powersets.Powerset.{cost};
ghost use Rattle.automata_hybrid.specs.Cache.Ids.{offset_limit};
ghost use Rattle.automata_hybrid.specs.Cache.Stores.{IsCacheError, fresh_store};
ghost use Rattle.automata_hybrid.specs.Cache.Table.{IsRowId, fresh};
ghost use Rattle.automata_hybrid.specs.Known.Events.{fits, refuses_to_clear, usage};
ghost use Rattle.automata_hybrid.specs.Private.Cache.Changes.{HasGrown, HasSavedRow};
ghost use Rattle.automata_hybrid.specs.Private.Cache.Stores.{cache_settings, known_in};
ghost use Rattle.automata_hybrid.specs.Private.Cache.Table.{IsNewState, IsSoundTable};
ghost use Rattle.automata_hybrid.specs.Private.Cache.Usage.{FitsAny, IsCleared, MustGiveUp};
ghost use Rattle.automata_hybrid.specs.Private.Machines.Machine.{IsMachine, IsTemplate};

use crate::cache::clears::{keep_row, keep_starts};
use crate::cache::progress::Searched;
use crate::cache::row;
use crate::cache::settings::Settings;
use crate::cache::table::{Table, new_row};
use crate::dfa::DFA;
use crate::id::LazyStateID;
use automata_base::util::heap::array;
use automata_config::accounting::{CELL_SIZE, ENTRY_SIZE, FIXED_ROWS_COST, ROW_SIZE, start_slots};
use automata_config::error::{CacheError, StepError};
use automata_determinize::determinize::State;
use std::alloc::AllocError;
use std::marker::Model;

/// The number of rows that a new cache has room for, so that a short search does not have to move them.
const FIRST_ROWS: usize = 8;

/// The part of a cache that a clear replaces: rows, start slots and progress. Its accounted bytes never exceed the
/// capacity.
#[derive(Drop)]
pub struct Store {
    pub(super) table: Table,
    pub(super) starts: Vec<LazyStateID>,
    settings: Settings,
    pub(super) clears: usize,
    pub(super) searched: Searched,
}

impl Model for Store {
    ghost use Rattle.automata_hybrid.specs.Cache.Stores.{Stored};
    ghost use Rattle.automata_hybrid.specs.Private.Cache.Usage.{IsCache};

    ghost Value = { Stored };

    ghost view = { λ c. record { table = c.table; starts = c.starts.items; clears = c.clears; searched = c.searched } };

    ghost invariant = { λ c. IsCache
        (record { table = c.table; starts = c.starts.items; clears = c.clears; searched = c.searched }) c.settings };
}

impl Clone for Store {
    ghost is_clone = { λ a b. b ≡ a };

    fn clone(&self) -> Result<Store, AllocError> {
        Ok(Store {
            table: self.table.clone()?,
            starts: self.starts.clone()?,
            settings: self.settings,
            clears: self.clears,
            searched: self.searched,
        })
    }
}

impl Store {
    /// Returns the store of a new cache for a DFA, with only the fixed rows and with empty start slots.
    #[inline(always)]
    pub fn fresh(dfa: &DFA) -> Result<Store, AllocError>
        requires { IsMachine dfa.now }
        ensures { IfOk result (λ c. c ≡ fresh_store dfa.now) }
    {
        let nfa = dfa.get_nfa();
        let stride = dfa.byte_classes().stride();
        let slots = start_slots(nfa, dfa.get_config().get_starts_for_each_pattern());
        let template = new_row(nfa.alloc(), dfa.byte_classes(), dfa.quit_set(), stride)?;
        let store = Store::new(dfa, stride, template, slots, Settings::of(dfa))?;
        Ok(store)
    }

    /// Returns a store with only the fixed rows, and with empty start slots, for a DFA with these values.
    fn new(
        dfa: &DFA,
        stride: usize,
        template: Vec<LazyStateID>,
        slots: usize,
        settings: Settings,
    ) -> Result<Store, AllocError>
        requires whole { IsTemplate stride template.items }
        requires stride { stride ≡ dfa.now.stride }
        requires template { template.items ≡ dfa.now.template }
        requires slots { slots ≡ dfa.now.slots }
        requires settings { settings ≡ cache_settings dfa.now }
        requires enough { minimum_capacity stride slots dfa.now.greatest settings.fixed ≤ settings.capacity }
        requires offsets { (slots + 4) * stride < offset_limit }
        ensures { IfOk result (λ c. c ≡ fresh_store dfa.now) }
    {
        let _capacity = settings.capacity;
        let table = Table::fresh(dfa, stride, template, FIRST_ROWS)?;
        let mut starts = Vec::with_capacity(dfa.get_nfa().alloc(), slots)?;
        starts.resize(slots, LazyStateID::UNKNOWN)?;
        Ok(Store {
            table,
            starts,
            settings,
            clears: 0,
            searched: Searched {
                bytes: 0,
                running: None,
            },
        })
    }

    /// Returns the number of accounted bytes.
    pub fn memory_usage(&self) -> usize
        ensures usage { result ≡ usage self.now.table.of (known_in self.now) }
        ensures within { result ≤ self.now.table.of.capacity }
    {
        let states = self.table.len();
        CELL_SIZE * self.table.cell_count()
            + CELL_SIZE * self.starts.len()
            + ROW_SIZE * (states + 3)
            + ENTRY_SIZE * (states + 1)
            + FIXED_ROWS_COST
            + self.table.costs()
            + self.settings.fixed
    }

    /// Returns the number of bytes that the store takes from the allocator.
    pub fn heap_usage(&self) -> usize {
        let starts = array(self.starts.capacity(), CELL_SIZE);
        starts.saturating_add(self.table.heap_usage())
    }

    /// Returns the number of accounted bytes of a new state. It is computed once for all calls that need it.
    pub fn cost_of(&self, state: &State) -> usize
        requires { cost state.now ≤ self.now.table.of.greatest }
        ensures { result ≡ cost state.now }
    {
        let _capacity = self.settings.capacity;
        row::cost(state)
    }

    /// Whether a new state of `bytes` accounted bytes fits.
    pub fn fits(&self, bytes: usize) -> bool
        requires { bytes ≤ self.now.table.of.greatest }
        ensures { result ≡ fits self.now.table.of (known_in self.now) bytes }
    {
        let used = self.memory_usage();
        let room = self.settings.capacity - used;
        let row = CELL_SIZE * self.table.stride() + ROW_SIZE + ENTRY_SIZE;
        row + bytes <= room && self.table.cell_count() < LazyStateID::OFFSET_LIMIT
    }

    /// Returns the capacity.
    pub fn capacity(&self) -> usize
        ensures { result ≡ self.now.table.of.capacity }
    {
        self.settings.capacity
    }

    /// Returns the number of unused bytes of the capacity.
    pub fn room(&self) -> usize
        ensures { usage self.now.table.of (known_in self.now) + result ≡ self.now.table.of.capacity }
    {
        self.settings.capacity - self.memory_usage()
    }

    /// Whether a search gives up instead of clearing the cache.
    pub fn refuses(&self) -> bool
        ensures { result ≡ refuses_to_clear self.now.table.of (known_in self.now) }
    {
        let Some(limit) = self.settings.minimum_clear_count else {
            return false;
        };
        if self.clears < limit {
            return false;
        }
        let Some(bytes) = self.settings.minimum_bytes_per_state else {
            return true;
        };
        self.searched.total_len() < bytes.saturating_mul(self.table.len() + 3)
    }

    /// Whether a search gives up at a state that no row has, because it does not fit and no clear is allowed.
    pub fn gives_up(&self, state: &State) -> bool
        requires { cost state.now ≤ self.now.table.of.greatest }
        ensures { IsTrue result ↔ MustGiveUp self.now.table.of (known_in self.now) (cost state.now) }
    {
        !self.fits(self.cost_of(state)) && self.refuses()
    }

    /// Returns the store after a clear, and leaves this one unchanged. It fails if the search gives up instead, or if
    /// memory runs out.
    pub fn cleared(&self, dfa: &DFA) -> Result<Store, StepError>
        requires of { dfa.now ≡ self.now.table.of }
        requires sound { IsSoundTable self.now.table }
        ensures sound { IfOk result (λ s. IsSoundTable s.table) }
        ensures cleared { IfOk result (IsCleared self.now) }
        ensures room { IfOk result FitsAny }
        ensures gives_up { IfErr result (λ e. IsCacheError e
            ↔ (refuses_to_clear self.now.table.of (known_in self.now) ≡ true)) }
    {
        if self.refuses() {
            return Err(StepError::Cache(CacheError));
        }
        let (table, starts) = keep_starts(dfa, &self.table, self.starts.as_slice())?;
        Ok(Store {
            table,
            starts,
            settings: self.settings,
            clears: self.clears.saturating_add(1),
            searched: self.searched.cleared(),
        })
    }

    /// Adds a row for a state that fits, and returns its ID. `bytes` is the number of accounted bytes of the state. An
    /// error changes nothing.
    #[inline(always)]
    pub fn add_row(
        &mut self,
        state: State,
        started: bool,
        bytes: usize,
    ) -> Result<LazyStateID, AllocError>
        requires new { IsNewState self.old.table state }
        requires bytes { bytes ≡ cost state }
        requires fits { fits self.old.table.of (known_in self.old) (cost state) ≡ true }
        requires sound { IsSoundTable self.old.table }
        ensures grown { IfOk result (HasGrown self.old (record { state = state; started = started }) self.new) }
        ensures err { OnErr result (self.new ≡ self.old) }
    {
        let added = self.table.add(state, started, bytes)?;
        Ok(added)
    }

    /// Copies a row of another table, if its state is not here yet, and returns its ID here. There have to be at most
    /// as many rows here as start slots.
    pub fn keep_saved(&mut self, old: &Table, id: LazyStateID) -> Result<LazyStateID, AllocError>
        requires valid { IsRowId old.now id }
        requires of { self.old.table.of ≡ old.now.of }
        requires few { length self.old.table.rows ≤ length self.old.starts }
        requires sound { IsSoundTable self.old.table }
        ensures sound { OnOk result (IsSoundTable self.new.table) }
        ensures saved { IfOk result (HasSavedRow old.now id self.old self.new) }
        ensures of { OnOk result (self.new.table.of ≡ self.old.table.of) }
    {
        let kept = keep_row(&mut self.table, old, id)?;
        Ok(kept)
    }

    /// Adds a row for a state to the store that a clear left, replaces this store by it, and returns the row's ID. An
    /// error changes nothing.
    pub fn replace(
        &mut self,
        mut fresh: Store,
        state: State,
        started: bool,
        bytes: usize,
    ) -> Result<LazyStateID, AllocError>
        requires room { FitsAny fresh }
        requires bytes { bytes ≡ cost state }
        requires new { IsNewState fresh.table state }
        requires sound { IsSoundTable fresh.table }
        ensures grown { IfOk result (HasGrown fresh (record { state = state; started = started }) self.new) }
        ensures err { OnErr result (self.new ≡ self.old) }
    {
        let id = fresh.add_row(state, started, bytes)?;
        *self = fresh;
        Ok(id)
    }
}
