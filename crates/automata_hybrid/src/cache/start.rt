//! Start states of a cache: the state of a start slot, cached or determinized now.
ghost use Rattle.std.specs.Prelude.{◌≡◌, IfOk, IfErr, OnOk, false};
ghost use Rattle.automata_hybrid.specs.Known.Events.{is_cached};
ghost use Rattle.automata_hybrid.specs.Known.Steps.{IsStartRun, StartFails};
ghost use Rattle.automata_hybrid.specs.Known.Stores.{known_of};
ghost use Rattle.automata_hybrid.specs.Private.Cache.Sound.{IsSoundCacheOf};
ghost use Rattle.automata_hybrid.specs.Private.Steps.Starts.{HasStarted, IsStartSlot, start_error};
ghost use Rattle.automata_hybrid.specs.Steps.Events as events;
ghost use Rattle.automata_hybrid.specs.Steps.Starts.{IsStartAnswer};

use crate::cache::Cache;
use crate::cache::add::Found;
use crate::dfa::DFA;
use crate::id::LazyStateID;
use automata_base::util::search::Anchored;
use automata_config::error::{StartError, StepError};

/// Returns the error of a start state for the error of a step.
fn start_error(error: StepError) -> StartError
    ensures { result ≡ start_error error }
{
    match error {
        StepError::Cache(err) => StartError::Cache { err },
        StepError::OutOfMemory => StartError::OutOfMemory,
    }
}

impl Cache {
    /// Returns the start state of a slot, given the slot's anchored mode and look-behind byte. If it is cached, this
    /// does not allocate.
    #[inline(always)]
    pub(crate) fn start(
        &mut self,
        dfa: &DFA,
        slot: usize,
        mode: Anchored,
        prev: Option<u8>,
    ) -> Result<LazyStateID, StartError>
        requires sound { IsSoundCacheOf self.old dfa.now }
        requires slot { IsStartSlot dfa.now mode prev slot }
        ensures sound { IsSoundCacheOf self.new dfa.now }
        ensures answer { IfOk result (IsStartAnswer dfa.now mode prev self.old self.new) }
        ensures refusal { IfErr result (StartFails dfa.now mode prev (known_of self.old) (known_of self.new)) }
        ensures run { OnOk result (IsStartRun dfa.now mode prev (known_of self.old) (known_of self.new)) }
    {
        let found = self.start_slot(slot);
        if !found.is_unknown() {
            return Ok(found);
        }
        match self.compute_start(dfa, slot, mode, prev) {
            Ok(id) => Ok(id),
            Err(error) => Err(start_error(error)),
        }
    }

    /// Computes a start state that is not cached.
    #[inline(never)]
    fn compute_start(
        &mut self,
        dfa: &DFA,
        slot: usize,
        mode: Anchored,
        prev: Option<u8>,
    ) -> Result<LazyStateID, StepError>
        requires sound { IsSoundCacheOf self.old dfa.now }
        requires slot { IsStartSlot dfa.now mode prev slot }
        requires unknown { is_cached dfa.now (events.Start mode prev) (known_of self.old) ≡ false }
        ensures sound { IsSoundCacheOf self.new dfa.now }
        ensures started { IfOk result (HasStarted dfa.now mode prev self.old self.new) }
        ensures refusal { IfErr result
            (λ e. StartFails dfa.now mode prev (known_of self.old) (known_of self.new) (start_error e)) }
    {
        let key = self.determinize_start(dfa, mode, prev)?;
        match self.resolve(dfa, key)? {
            Found::Known(id) => {
                self.set_start(slot, id);
                Ok(id)
            }
            Found::New(state) => {
                let started = dfa.get_config().get_specialize_start_states();
                let id = self.add_start(dfa, state, started)?;
                self.set_start(slot, id);
                Ok(id)
            }
        }
    }
}
