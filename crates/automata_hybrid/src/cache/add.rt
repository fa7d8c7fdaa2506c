//! How a cache grows: a state is determinized, looked up, and if no row has it, added. If it does not fit, the cache is
//! cleared first. A clear builds the new store next to the old one, so that an error leaves the cache unchanged.
ghost use Rattle.std.specs.Prelude.{IfErr, IfOk, Option, false, length, slice_index, ℕ, ◌+◌, ◌<◌, ◌≡◌, ◌≤◌};
ghost use Rattle.automata_determinize.specs.Powersets.Passes.{IsUnit};
ghost use Rattle.automata_base.specs.Powersets.Powerset.{Powerset, cost};
ghost use Rattle.automata_determinize.specs.Retraced.Steps.{start_state_of, successor};
ghost use Rattle.automata_config.specs.Options.{match_kind_of};
ghost use Rattle.automata_hybrid.specs.Cache.Caches.{dfa_of, with_store};
ghost use Rattle.automata_hybrid.specs.Cache.Ids.{unknown_id};
ghost use Rattle.automata_hybrid.specs.Cache.Table.{IsRowId, Names};
ghost use Rattle.automata_hybrid.specs.Known.Events.{fits};
ghost use Rattle.automata_hybrid.specs.Known.Stores.{known_of};
ghost use Rattle.automata_hybrid.specs.Machines.Machine.{quits_on, unit_class};
ghost use Rattle.automata_hybrid.specs.Machines.Reachable.{IsStateOf};
ghost use Rattle.automata_hybrid.specs.Private.Cache.Caches.{IsStoreOf, with_count};
ghost use Rattle.automata_hybrid.specs.Private.Cache.Clears.{LeadsToStart};
ghost use Rattle.automata_hybrid.specs.Private.Cache.Growth.{AddFails, HasAdded, HasAddedNext};
ghost use Rattle.automata_hybrid.specs.Private.Cache.Sound.{IsSoundCacheOf};
ghost use Rattle.automata_hybrid.specs.Private.Cache.Stores.{with_next, with_slot};
ghost use Rattle.automata_hybrid.specs.Private.Cache.Table.{IsNewState, IsSoundTable, LeadsByClass};
ghost use Rattle.automata_hybrid.specs.Private.Steps.Starts.{IsStartSlot};

use crate::cache::leaps::Leaping;
use crate::cache::{Cache, row};
use crate::dfa::DFA;
use crate::id::LazyStateID;
use automata_base::util::search::Anchored;
use automata_config::error::StepError;
use automata_determinize::determinize::{Key, State, next_key, start_key};
use std::alloc::AllocError;

/// The result of looking up a state.
#[derive(Drop)]
pub(crate) enum Found {
    /// The ID of its row, or the dead ID.
    Known(LazyStateID),
    /// The state itself, which no row has.
    New(State),
}

impl Cache {
    ghost use Rattle.automata_hybrid.specs.Private.Cache.LookUps.{IsLookedUp};

    /// Determinizes the state after a unit, and returns it as a key.
    pub(crate) fn determinize(
        &mut self,
        dfa: &DFA,
        id: LazyStateID,
        unit: Option<u8>,
    ) -> Result<Key, AllocError>
        requires sound { IsSoundCacheOf self.old dfa.now }
        requires valid { IsRowId self.old.store.table id }
        requires unit { IsUnit unit }
        requires clean { quits_on dfa.now unit ≡ false }
        ensures value { IfOk result (λ k. (q : Powerset) → Names self.old.store.table id q
            → k ≡ successor dfa.now.nfa (match_kind_of dfa.now.config) q unit) }
        ensures alike { IfOk result (λ k. (q : Powerset) → Names self.old.store.table id q → (other : Option ℕ)
            → IsUnit other → unit_class dfa.now other ≡ unit_class dfa.now unit
            → k ≡ successor dfa.now.nfa (match_kind_of dfa.now.config) q other) }
        ensures cost { IfOk result (λ k. cost k ≤ dfa.now.greatest) }
        ensures is_of { IfOk result (λ k. IsStateOf dfa.now k) }
        ensures counted { self.new ≡ with_count self.old (self.old.count + 1) }
    {
        let from = self.store.table.state(id);
        let kind = dfa.get_config().get_match_kind();
        let key = next_key(dfa.get_nfa(), &mut self.scratch, kind, from, unit)?;
        Ok(key)
    }

    /// Determinizes the start state of an anchored mode after a look-behind byte, and returns it as a key.
    pub(crate) fn determinize_start(
        &mut self,
        dfa: &DFA,
        mode: Anchored,
        prev: Option<u8>,
    ) -> Result<Key, AllocError>
        requires sound { IsSoundCacheOf self.old dfa.now }
        requires slot { (slot : ℕ) × IsStartSlot dfa.now mode prev slot }
        ensures value { IfOk result (λ k. k ≡ start_state_of dfa.now.nfa mode prev) }
        ensures cost { IfOk result (λ k. cost k ≤ dfa.now.greatest) }
        ensures is_of { IfOk result (λ k. IsStateOf dfa.now k) }
        ensures counted { self.new ≡ with_count self.old (self.old.count + 1) }
    {
        let key = start_key(dfa.get_nfa(), &mut self.scratch, mode, prev)?;
        Ok(key)
    }

    /// Looks up the state of a key: returns its ID, or, if no row has it, the state itself, to be added. The key's
    /// buffer is used again.
    #[inline(always)]
    pub(crate) fn resolve(&mut self, dfa: &DFA, key: Key) -> Result<Found, AllocError>
        ensures found { IfOk result (IsLookedUp self.old.store.table key) }
        ensures same { self.new ≡ self.old }
    {
        if let Some(id) = self.store.table.get(&key) {
            self.scratch.recycle(key);
            return Ok(Found::Known(id));
        }
        let made = key.to_state(dfa.get_nfa().alloc());
        self.scratch.recycle(key);
        let state = made?;
        if row::is_dead(&state) {
            return Ok(Found::Known(self.dead()));
        }
        Ok(Found::New(state))
    }

    /// Adds a state that is not cached and that a step from a row leads to; clears first if it does not fit. Returns
    /// the current ID of that row, and the ID of the new one. An error changes nothing.
    pub(crate) fn add_next(
        &mut self,
        dfa: &DFA,
        from: LazyStateID,
        state: State,
    ) -> Result<(LazyStateID, LazyStateID), StepError>
        requires sound { IsSoundCacheOf self.old dfa.now }
        requires valid { IsRowId self.old.store.table from }
        requires new { IsNewState self.old.store.table state }
        ensures added { IfOk result (λ p. HasAddedNext self.old self.new from state p.0 p.1) }
        ensures refused { IfErr result (AddFails self.old self.new state) }
    {
        let bytes = self.store.cost_of(&state);
        if self.store.fits(bytes) {
            self.leaping.drop_leaps(&self.store.searched);
            let to = self.store.add_row(state, false, bytes)?;
            return Ok((from, to));
        }
        self.clear_and_add_next(dfa, from, state, bytes)
    }

    /// Clears the cache, keeping the row that a step is from, and adds the state that the step leads to.
    // Not inlined, so that only this function sets up the stack space that a clear needs.
    #[inline(never)]
    fn clear_and_add_next(
        &mut self,
        dfa: &DFA,
        from: LazyStateID,
        state: State,
        bytes: usize,
    ) -> Result<(LazyStateID, LazyStateID), StepError>
        requires sound { IsSoundCacheOf self.old dfa.now }
        requires valid { IsRowId self.old.store.table from }
        requires new { IsNewState self.old.store.table state }
        requires bytes { bytes ≡ cost state }
        requires full { fits (dfa_of self.old) (known_of self.old) (cost state) ≡ false }
        ensures added { IfOk result (λ p. HasAddedNext self.old self.new from state p.0 p.1) }
        ensures refused { IfErr result (AddFails self.old self.new state) }
    {
        let mut fresh = self.store.cleared(dfa)?;
        let from = fresh.keep_saved(&self.store.table, from)?;
        self.leaping = Leaping::new();
        let to = self.store.replace(fresh, state, false, bytes)?;
        Ok((from, to))
    }

    /// Adds a start state that is not cached; clears first if it does not fit. An error changes nothing.
    pub(crate) fn add_start(
        &mut self,
        dfa: &DFA,
        state: State,
        started: bool,
    ) -> Result<LazyStateID, StepError>
        requires sound { IsSoundCacheOf self.old dfa.now }
        requires new { IsNewState self.old.store.table state }
        ensures added { IfOk result (HasAdded self.old self.new (record { state = state; started = started })) }
        ensures refused { IfErr result (AddFails self.old self.new state) }
    {
        let bytes = self.store.cost_of(&state);
        if self.store.fits(bytes) {
            self.leaping.drop_leaps(&self.store.searched);
            let id = self.store.add_row(state, started, bytes)?;
            return Ok(id);
        }
        self.clear_and_add_start(dfa, state, started, bytes)
    }

    /// Clears the cache, and adds a start state. An error changes nothing.
    #[inline(never)]
    fn clear_and_add_start(
        &mut self,
        dfa: &DFA,
        state: State,
        started: bool,
        bytes: usize,
    ) -> Result<LazyStateID, StepError>
        requires sound { IsSoundCacheOf self.old dfa.now }
        requires new { IsNewState self.old.store.table state }
        requires bytes { bytes ≡ cost state }
        requires full { fits (dfa_of self.old) (known_of self.old) (cost state) ≡ false }
        ensures added { IfOk result (HasAdded self.old self.new (record { state = state; started = started })) }
        ensures refused { IfErr result (AddFails self.old self.new state) }
    {
        let fresh = self.store.cleared(dfa)?;
        self.leaping = Leaping::new();
        let id = self.store.replace(fresh, state, started, bytes)?;
        Ok(id)
    }

    /// Writes a transition. If it overwrites a cached one, leaps are dropped.
    pub(crate) fn set_next(&mut self, id: LazyStateID, class: usize, next: LazyStateID)
        requires row { IsRowId self.old.store.table id }
        requires class { class < self.old.store.table.of.stride }
        requires free { slice_index self.old.store.table.of.template class ≡ unknown_id }
        requires next { (q : Powerset) × Names self.old.store.table id q
            × LeadsByClass self.old.store.table next q class }
        ensures value { self.new ≡ with_store self.old (with_next self.old.store id class next) }
        ensures store { IsStoreOf self.new.store self.new.store.table.of }
        ensures table { IsSoundTable self.new.store.table }
    {
        let old = self
            .store
            .table
            .cell_in_row(id, id.offset() as usize, class);
        self.leaping.keep_if(old.is_unknown(), &self.store.searched);
        self.store.table.set_cell(id, class, next);
    }

    /// Writes a start slot.
    pub(crate) fn set_start(&mut self, slot: usize, id: LazyStateID)
        requires slot { slot < length self.old.store.starts }
        requires leads { LeadsToStart self.old.store.table id slot }
        ensures value { self.new ≡ with_store self.old (with_slot self.old.store slot id) }
        ensures written { slice_index self.new.store.starts slot ≡ id }
        ensures store { IsStoreOf self.new.store self.new.store.table.of }
        ensures table { IsSoundTable self.new.store.table }
    {
        self.store.starts[slot] = id;
        self.reveal_invariant();
    }
}
