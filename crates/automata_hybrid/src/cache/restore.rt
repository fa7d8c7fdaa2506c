//! States that are held outside the cache: handles on the states of rows, and the rows of held states, which are added
//! again if a clear has dropped them or if the cache is another one.
ghost use Rattle.std.specs.Prelude.{IfErr, IfOk, false, ◌≡◌};
ghost use Rattle.automata_base.specs.Powersets.Powerset.{Powerset};
ghost use Rattle.automata_hybrid.specs.Cache.Table.{IsRowId, IsRowState, Names, id_of};
ghost use Rattle.automata_hybrid.specs.Private.Cache.Growth.{AddFails, HasAdded};
ghost use Rattle.automata_hybrid.specs.Private.Cache.Sound.{IsSoundCacheOf};
ghost use Rattle.automata_hybrid.specs.Private.Cache.Table.{IsNewState};
ghost use Rattle.automata_hybrid.specs.Private.Walks.Parts.{IsRestoreResult};
ghost use Rattle.automata_hybrid.specs.Private.Walks.State.{IsHandle};

use crate::cache::Cache;
use crate::cache::handle::Handle;
use crate::dfa::DFA;
use crate::id::LazyStateID;
use automata_config::error::{CacheError, StepError};
use automata_determinize::determinize::{Key, State};
use std::alloc::AllocError;
use std::snapshot::Snapshot;

impl Cache {
    /// Returns a handle on the state of a row. This does not allocate; it fails only if the state cannot be shared once
    /// more.
    pub(crate) fn handle(&self, id: LazyStateID) -> Result<Handle, AllocError>
        requires { IsRowId self.now.store.table id }
        ensures { IfOk result (λ handle. (q : Powerset) → Names self.now.store.table id q → IsHandle handle q) }
    {
        Handle::of(self.store.table.state(id))
    }

    /// Returns the state of a row, for contracts only.
    pub(crate) fn snapshot(&self, id: LazyStateID) -> Snapshot<State>
        requires { IsRowId self.now.store.table id }
        ensures state { (q : Powerset) → Names self.now.store.table id q → result.value ≡ q }
        ensures row { IsRowState self.now.store.table.of result.value }
    {
        Snapshot::of(self.store.table.state(id))
    }

    /// Returns the ID of a held state. If the cache does not have the state, it is added again.
    pub(crate) fn restore(&mut self, dfa: &DFA, handle: &Handle) -> Result<LazyStateID, StepError>
        requires sound { IsSoundCacheOf self.old dfa.now }
        requires key { handle.now.key ≡ handle.now.state }
        requires state { IsRowState dfa.now handle.now.state }
        ensures sound { IsSoundCacheOf self.new dfa.now }
        ensures back { IsRestoreResult dfa.now handle.now.state self.old self.new result }
    {
        if let Some(id) = self.find(&handle.key) {
            return Ok(id);
        }
        let id = self.add_again(dfa, &handle.state)?;
        Ok(id)
    }

    /// Returns the ID of a state, if the cache has it.
    // Not inlined: if `resume` contains it, the search for a set takes 3% longer, although that never calls it.
    #[inline(never)]
    fn find(&self, key: &Key) -> Option<LazyStateID>
        ensures { result ≡ id_of self.now.store.table key.now }
    {
        self.store.table.get(key)
    }

    /// Adds the state of a walk that a clear has dropped, or that the walk got from another cache. The "gave up" error
    /// comes before the state is shared. An error changes nothing.
    fn add_again(&mut self, dfa: &DFA, state: &State) -> Result<LazyStateID, StepError>
        requires sound { IsSoundCacheOf self.old dfa.now }
        requires new { IsNewState self.old.store.table state.now }
        ensures sound { IsSoundCacheOf self.new dfa.now }
        ensures added { IfOk result (HasAdded self.old self.new (record { state = state.now; started = false })) }
        ensures refused { IfErr result (AddFails self.old self.new state.now) }
    {
        if self.store.gives_up(state) {
            return Err(StepError::Cache(CacheError));
        }
        let state = state.clone()?;
        let id = self.add_start(dfa, state, false)?;
        self.reveal_invariant();
        Ok(id)
    }
}
