//! The cache of a lazy DFA: its store, the buffers for determinization, the self-loop that was followed last, and
//! leaps. Steps, start states and searches use a cache only through these methods. If a state does not fit, the cache
//! is cleared before the state is added. A clear builds the new store next to the old one, so that an error leaves the
//! cache unchanged.
//!
//! A `store` has the `table` of the rows (`row`), the start slots and the progress of searches (`progress`), within
//! limits (`settings`). `clears` has what a clear keeps. For searches a cache has the ranges of a row's self-loop
//! (`self_loops`), leaps (`leaps`) and handles on the states that walks hold (`handle`). `states` gives read access to
//! the cached states, and `footprint` is the number of bytes that a cache takes.
ghost use Rattle.std.specs.Prelude.{ℕ, ◌≡◌, ◌*◌, ◌%◌, ◌<◌, ◌≤◌, IfOk, OnOk, OnErr, slice_index, All, length, is_some};
ghost use Rattle.std.specs.Prelude.{IfSome, IsSome, IsTrue, ◌+◌, ◌↔◌, ◌⊎◌, None, Option};
ghost use Rattle.automata_base.specs.Powersets.Powerset.{Powerset};
ghost use Rattle.automata_base.specs.declared.util.search.Anchored.{Anchored};
ghost use Rattle.automata_hybrid.specs.Cache.Caches.{HoldsRow, IsCacheOf, dfa_of, fresh_cache, with_store};
ghost use Rattle.automata_hybrid.specs.Cache.Ids.{dead_id, unknown_id, offset_limit};
ghost use Rattle.automata_hybrid.specs.Cache.Progress.{progress_finished, progress_started, progress_updated};
ghost use Rattle.automata_hybrid.specs.Cache.Progress.{saturated, total_len};
ghost use Rattle.automata_hybrid.specs.Cache.States.{IsHeldState, LeadsAsStart, held_states};
ghost use Rattle.automata_hybrid.specs.Cache.Stores.{cell_of, with_searched};
ghost use Rattle.automata_hybrid.specs.Cache.Table.{Names, IsRowId, HasItsMatchTag};
ghost use Rattle.automata_hybrid.specs.Known.Events.{usage};
ghost use Rattle.automata_hybrid.specs.Known.Stores.{known_of};
ghost use Rattle.automata_hybrid.specs.Machines.OwnStates.{IsOwn};
ghost use Rattle.automata_hybrid.specs.Private.Cache.Caches.{IsStoreOf};
ghost use Rattle.automata_hybrid.specs.Private.Cache.Clears.{IsSlot};
ghost use Rattle.automata_hybrid.specs.Private.Cache.Leaps.{AreLeaps, IsShapeOf, making_bytes};
ghost use Rattle.automata_hybrid.specs.Private.Cache.Sound.{IsSoundCacheOf};
ghost use Rattle.automata_hybrid.specs.Private.Cache.Table.{IsCell, IsSoundTable, HasState};

mod add;
pub(crate) mod clears;
pub mod footprint;
pub(crate) mod handle;
pub(crate) mod leaps;
pub(crate) mod progress;
mod restore;
pub(crate) mod row;
pub(crate) mod self_loops;
pub(crate) mod settings;
mod start;
pub mod states;
mod step;
pub(crate) mod store;
pub(crate) mod table;

use crate::cache::leaps::{Leaping, Leaps, Shape};
use crate::cache::self_loops::KnownLoop;
use crate::cache::states::States;
use crate::cache::store::Store;
use crate::cache::table::Table;
use crate::dfa::DFA;
use crate::id::LazyStateID;
use automata_base::util::primitives::PatternID;
use automata_base::util::search::Anchored;
use automata_determinize::determinize::Scratch;
use std::alloc::AllocError;
use std::cell::Cell;
use std::marker::Model;

/// The states that a lazy DFA has determinized, their transitions, and the buffers for determinizing more. Its
/// accounted bytes (`memory_usage`) never exceed the capacity in the DFA's settings, or the minimum capacity if the
/// capacity was raised to it.
pub struct Cache {
    store: Store,
    scratch: Scratch,
    self_loop: Cell<KnownLoop>,
    leaping: Leaping,
}

// An owner drops this with one call, so that its proof has no step for each field.
impl Drop for Cache {
    fn drop(self) {
        let Self {
            store: _store,
            scratch: _scratch,
            self_loop: _self_loop,
            leaping: _leaping,
        } = self;
    }
}

impl Model for Cache {
    ghost use Rattle.std.specs.Prelude.{◌≡◌};
    ghost use Rattle.automata_hybrid.specs.Cache.Caches.{CacheView};
    ghost use Rattle.automata_hybrid.specs.Private.Cache.Leaps.{AreCacheParts};

    ghost Value = { CacheView };

    ghost view = { λ c. record { store = c.store; count = c.scratch.count } };

    ghost invariant = { λ c. AreCacheParts c.store c.scratch.of c.leaping.leaps };
}

/// A clone has its own rows and shares their states. Changes to one cache do not affect the other. The only error is
/// out of memory.
impl Clone for Cache {
    ghost is_clone = { λ a b. b ≡ a };

    fn clone(&self) -> Result<Cache, AllocError> {
        Ok(Cache {
            store: self.store.clone()?,
            scratch: self.scratch.clone()?,
            self_loop: self.self_loop.clone()?,
            leaping: Leaping::new(),
        })
    }
}

impl Cache {
    /// Returns a cache for a DFA, with no states yet. Until it is reset, it can be used only with this DFA.
    pub fn new(dfa: &DFA) -> Result<Cache, AllocError>
        ensures { IfOk result (λ c. c ≡ fresh_cache dfa.now) }
    {
        dfa.reveal_invariant();
        let scratch = Scratch::new(dfa.get_nfa())?;
        let store = Store::fresh(dfa)?;
        Ok(Cache {
            store,
            scratch,
            self_loop: Cell::new(KnownLoop::default()),
            leaping: Leaping::new(),
        })
    }

    /// Resets this to a new cache for `dfa`, which need not be the DFA that it was made for. Earlier IDs are no longer
    /// valid. An error changes nothing.
    pub fn reset(&mut self, dfa: &DFA) -> Result<(), AllocError>
        ensures ok { OnOk result (self.new ≡ fresh_cache dfa.now) }
        ensures err { OnErr result (self.new ≡ self.old) }
    {
        *self = Cache::new(dfa)?;
        Ok(())
    }

    /// Whether some row of the cache has exactly this ID now, tags included. A clear can invalidate an ID, so check it
    /// before a step from an ID that you kept while other calls used the cache.
    pub fn is_valid(&self, id: LazyStateID) -> bool
        ensures { IsTrue result ↔ ((id ≡ unknown_id) ⊎ HoldsRow self.now id) }
    {
        let table = &self.store.table;
        let stride = table.stride() as u32;
        id == LazyStateID::UNKNOWN
            || id == LazyStateID::dead(stride)
            || id == LazyStateID::quit(stride)
            || table.has_row(id)
    }

    /// Returns the cached states in the order in which they were added: those that the last clear kept, and those that
    /// searches have built since. The dead and the quit state are not among them.
    pub fn states(&self) -> States<'_>
        ensures value { result ≡ held_states self.now.store.table }
        ensures held { All (IsHeldState self.now.store) result }
    {
        self.store.table.states()
    }

    /// Returns the IDs of the start states, six for each group: the unanchored group, the anchored group, and one group
    /// for each pattern if the DFA has them. The order in a group is: after a byte that is none of the following, after
    /// a word byte, at the edge of the haystack, after a line feed, after a carriage return, after another line
    /// terminator. `is_unknown` returns true for start states that are not cached.
    pub fn starts(&self) -> &[LazyStateID]
        ensures value { result.now ≡ self.now.store.starts }
        ensures leads { (mode : Anchored) (behind : Option ℕ) → LeadsAsStart self.now.store mode behind }
    {
        self.store.starts.as_slice()
    }

    /// Returns the transition table.
    #[inline(always)]
    pub(crate) fn table(&self) -> &Table
        ensures { result.now ≡ self.now.store.table }
    {
        &self.store.table
    }

    /// Returns the cell of a row at a class, which is unknown if the transition is not cached.
    #[inline(always)]
    pub(crate) fn cell(&self, id: LazyStateID, class: usize) -> LazyStateID
        requires row { IsRowId self.now.store.table id }
        requires class { class < self.now.store.table.of.stride }
        ensures value { result ≡ cell_of self.now.store id class }
        ensures named { (q : Powerset) → Names self.now.store.table id q → IsCell self.now.store.table q class result }
        ensures tag { HasItsMatchTag self.now.store.table result }
        ensures own { (q : Powerset) → Names self.now.store.table id q → IsOwn self.now.store.table.of.nfa q }
        ensures stride { self.now.store.table.of.stride ≤ 512 }
    {
        self.cell_in_row(id, id.offset() as usize, class)
    }

    /// Returns the cell of a row at a class, given the row's offset. The cell is unknown if the transition is not
    /// cached.
    #[inline(always)]
    pub(crate) fn cell_in_row(&self, id: LazyStateID, row: usize, class: usize) -> LazyStateID
        requires row { IsRowId self.now.store.table id }
        requires class { class < self.now.store.table.of.stride }
        requires offset { row ≡ id % offset_limit }
        ensures value { result ≡ cell_of self.now.store id class }
        ensures named { (q : Powerset) → Names self.now.store.table id q → IsCell self.now.store.table q class result }
        ensures tag { HasItsMatchTag self.now.store.table result }
        ensures own { (q : Powerset) → Names self.now.store.table id q → IsOwn self.now.store.table.of.nfa q }
        ensures stride { self.now.store.table.of.stride ≤ 512 }
    {
        self.store.table.cell_in_row(id, row, class)
    }

    /// Returns the ID in a start slot, which is unknown if the start state is not cached.
    pub(crate) fn start_slot(&self, slot: usize) -> LazyStateID
        requires { slot < length self.now.store.starts }
        ensures value { result ≡ slice_index self.now.store.starts slot }
        ensures leads { IsSlot self.now.store.table slot result }
    {
        self.store.starts[slot]
    }

    /// Returns the ID of the dead state.
    pub(crate) fn dead(&self) -> LazyStateID
        ensures { result ≡ dead_id self.now.store.table.of.stride }
    {
        LazyStateID::dead(self.store.table.stride() as u32)
    }

    /// Returns the number of patterns of a row's state.
    pub(crate) fn match_len(&self, id: LazyStateID) -> usize
        requires { IsRowId self.now.store.table id }
        ensures { (q : Powerset) → Names self.now.store.table id q → result ≡ length q.patterns }
    {
        self.store.table.state(id).match_len()
    }

    /// Returns a pattern of a row's state, by its index.
    pub(crate) fn match_pattern(&self, id: LazyStateID, index: usize) -> PatternID
        requires valid { IsRowId self.now.store.table id }
        requires index { (q : Powerset) → Names self.now.store.table id q → index < length q.patterns }
        ensures { (q : Powerset) → Names self.now.store.table id q → result ≡ slice_index q.patterns index }
    {
        self.store.table.state(id).match_pattern(index)
    }

    /// Returns the ranges found for the self-loop that was followed last. No contract covers them, so they are tested
    /// before use.
    #[inline(always)]
    pub(crate) fn self_loop(&self) -> KnownLoop {
        self.self_loop.get()
    }

    /// Stores the ranges found for a self-loop, for the next run over it.
    pub(crate) fn set_self_loop(&self, found: KnownLoop) {
        self.self_loop.set(found);
    }

    /// Returns the leaps, if there are any.
    pub(crate) fn leaps(&self) -> Option<&Leaps>
        ensures { IfSome result (λ l. AreLeaps self.now.store.table l.now) }
    {
        match &self.leaping.leaps {
            Some(leaps) => Some(leaps.as_ref()),
            None => None,
        }
    }

    /// Returns the index of the row that has this ID.
    pub(crate) fn row_index(&self, id: LazyStateID) -> usize
        requires { IsRowId self.now.store.table id }
        ensures row { (q : Powerset) → Names self.now.store.table id q → HasState self.now.store.table result q }
    {
        self.store.table.row_index(id)
    }

    /// Returns the ID of a row, without tags.
    pub(crate) fn row_at(&self, index: usize) -> LazyStateID
        requires { index < length self.now.store.table.rows }
        ensures { result ≡ (index + 3) * self.now.store.table.of.stride }
    {
        self.store.table.row_at(index)
    }

    /// Returns how many more bytes are searched before the cache considers making leaps, once the open search has
    /// reached `at`. The progress itself may be at an earlier offset, since it does not move while everything is
    /// cached.
    pub(crate) fn bytes_before_leaps(&self, at: usize) -> usize {
        self.leaping
            .due
            .saturating_sub(self.store.searched.total_at(at))
    }

    /// Calls `make_leaps` if enough bytes are searched once the open search has reached `at`.
    #[inline(always)]
    pub(crate) fn prepare_leaps(&mut self, dfa: &DFA, at: usize)
        requires { IsSoundCacheOf self.old dfa.now }
        ensures { self.new ≡ self.old }
    {
        let total = self.store.searched.total_at(at);
        if total >= self.leaping.due {
            self.make_leaps(dfa, total);
        }
    }

    /// Rebuilds the leaps, if they pay after `total` searched bytes and there is room to build them, and sets when to
    /// try again: if they do not pay yet, once they do; if an allocation fails, after twice as many bytes; if there is
    /// no room, or there are too many rows or classes, after the next clear.
    #[inline(never)]
    fn make_leaps(&mut self, dfa: &DFA, total: usize)
        requires { IsSoundCacheOf self.old dfa.now }
        ensures { self.new ≡ self.old }
    {
        self.leaping = Leaping::none();
        let Some(shape) = Shape::of(dfa.byte_classes().eoi(), self.store.table.len()) else {
            return;
        };
        if shape.making() > self.store.room() {
            return;
        }
        if total < shape.price() {
            self.leaping.due = shape.price();
            return;
        }
        match self.leaps_of(dfa, shape) {
            Ok(leaps) => self.leaping.leaps = Some(leaps),
            Err(_) => self.leaping.due = total.saturating_mul(2),
        }
    }

    /// Builds leaps of a shape. There has to be room for them and for what building them takes.
    fn leaps_of(&self, dfa: &DFA, shape: Shape) -> Result<Box<Leaps>, AllocError>
        requires sound { IsSoundCacheOf self.now dfa.now }
        requires of { IsShapeOf self.now.store.table shape }
        requires rows { shape.rows ≡ length self.now.store.table.rows }
        requires room { usage (dfa_of self.now) (known_of self.now) + making_bytes shape ≤ (dfa_of self.now).capacity }
        ensures leaps { IfOk result (λ b. AreLeaps self.now.store.table b.value) }
        ensures shape { IfOk result (λ b. b.value.shape ≡ shape) }
    {
        let alloc = dfa.get_nfa().alloc();
        let leaps = Leaps::of_table(alloc, &self.store.table, shape)?;
        let boxed = Box::new(alloc, leaps)?;
        Ok(boxed)
    }

    /// Returns how often the cache was cleared.
    ///
    /// The count begins at 0 when the cache is created or reset. If it rises fast, a larger capacity
    /// (`Config::cache_capacity`) may save time.
    pub fn clear_count(&self) -> usize
        ensures { result ≡ (known_of self.now).clears }
    {
        self.store.clears
    }

    /// Whether a search was started and has not finished.
    pub fn in_progress(&self) -> bool
        ensures { result ≡ is_some (known_of self.now).searched.running }
    {
        self.store.searched.running.is_some()
    }

    /// Returns the number of bytes searched since the last clear, including those of an open search.
    pub fn search_total_len(&self) -> usize
        ensures { result ≡ total_len (known_of self.now).searched }
    {
        self.store.searched.total_len()
    }

    /// Records that a search begins at an offset; a search that is open ends. A search by steps of your own can report
    /// its progress with this call, `search_update` and `search_finish`, so that the rule for giving up
    /// (`Config::minimum_bytes_per_state`) counts the bytes that it reads.
    pub fn search_start(&mut self, at: usize)
        ensures value { self.new ≡ with_store self.old (with_searched self.old.store
            (progress_started self.old.store.searched at)) }
        ensures table { self.new.store.table ≡ self.old.store.table }
    {
        self.store.searched.start(at);
    }

    /// Records that the open search has reached an offset. There has to be an open search, which `in_progress` tests.
    pub fn search_update(&mut self, at: usize)
        requires { IsSome self.old.store.searched.running }
        ensures { self.new ≡ with_store self.old (with_searched self.old.store
            (progress_updated self.old.store.searched at)) }
    {
        self.move_search(at);
    }

    /// Records that the open search ends at an offset. There has to be an open search, which `in_progress` tests.
    pub fn search_finish(&mut self, at: usize)
        requires { IsSome self.old.store.searched.running }
        ensures { self.new ≡ with_store self.old (with_searched self.old.store
            (progress_finished self.old.store.searched at)) }
    {
        self.end_search(at);
    }

    /// Records that the open search has reached an offset; does nothing if none is open.
    pub(crate) fn move_search(&mut self, at: usize)
        ensures value { self.new ≡ with_store self.old (with_searched self.old.store
            (progress_updated self.old.store.searched at)) }
        ensures table { self.new.store.table ≡ self.old.store.table }
    {
        self.store.searched.update(at);
    }

    /// Records that the open search ends at an offset; does nothing if none is open.
    pub(crate) fn end_search(&mut self, at: usize)
        ensures value { self.new ≡ with_store self.old (with_searched self.old.store
            (progress_finished self.old.store.searched at)) }
        ensures table { self.new.store.table ≡ self.old.store.table }
    {
        self.store.searched.finish(at);
    }

    /// Records a search that reads `bytes` bytes, from its beginning to its end. A search that is open ends.
    #[inline(always)]
    pub(crate) fn count_search(&mut self, bytes: usize)
        ensures value { self.new ≡ with_store self.old (with_searched self.old.store
            (record { bytes = saturated (total_len self.old.store.searched + bytes); running = None })) }
        ensures table { self.new.store.table ≡ self.old.store.table }
    {
        self.store.searched.count(bytes);
    }

    /// Reveals the invariant of a cache to a proof. It does nothing.
    fn reveal_invariant(&self)
        ensures store { IsStoreOf self.now.store self.now.store.table.of }
        ensures table { IsSoundTable self.now.store.table }
    {
        let _clears = self.store.clears;
        self.store.table.reveal_invariant();
    }

    /// Reveals the invariants of a DFA and of its cache to a proof. It does nothing.
    pub(crate) fn reveal_invariant_of(&self, dfa: &DFA)
        requires { IsCacheOf self.now dfa.now }
        ensures { IsSoundCacheOf self.now dfa.now }
    {
        dfa.reveal_invariant();
        self.reveal_invariant();
    }
}
