//! Steps of a cache: the ID of the state after a byte or after the end of the haystack, cached or determinized now.
ghost use Rattle.std.specs.Prelude.{◌≡◌, ◌<◌, IfOk, IfErr, OnOk, true, false};
ghost use Rattle.automata_hybrid.specs.Cache.Caches.{HoldsRow, IsCacheOf};
ghost use Rattle.automata_hybrid.specs.Cache.Ids.{quit_id, unknown_id};
ghost use Rattle.automata_hybrid.specs.Cache.Table.{IsRowId};
ghost use Rattle.automata_hybrid.specs.Known.Steps.{IsStepRun, StepFails};
ghost use Rattle.automata_hybrid.specs.Known.Stores.{known_of};
ghost use Rattle.automata_hybrid.specs.Machines.Machine.{quits_on, unit_class};
ghost use Rattle.automata_hybrid.specs.Private.Cache.Sound.{IsSoundCacheOf};
ghost use Rattle.automata_hybrid.specs.Private.Steps.Steps.{HasTakenStep, KnowsStep};
ghost use Rattle.automata_hybrid.specs.Steps.BySteps.{StepsOn};
ghost use Rattle.automata_hybrid.specs.Steps.Steps.{IsStepAnswer, known_step};

use crate::cache::Cache;
use crate::cache::add::Found;
use crate::dfa::DFA;
use crate::id::LazyStateID;
use automata_config::error::StepError;

impl Cache {
    /// Returns the ID of the state after a byte or the end of the haystack. Dead leads to dead, and quit to quit. If
    /// the transition is cached, this does not allocate.
    #[inline(always)]
    pub(crate) fn next(
        &mut self,
        dfa: &DFA,
        id: LazyStateID,
        unit: Option<u8>,
    ) -> Result<LazyStateID, StepError>
        requires of { IsCacheOf self.old dfa.now }
        requires row { HoldsRow self.old id }
        ensures of { IsCacheOf self.new dfa.now }
        ensures answer { IfOk result (IsStepAnswer dfa.now id unit self.old self.new) }
        ensures refusal { IfErr result (StepFails dfa.now id unit (known_of self.old) (known_of self.new)) }
        ensures run { OnOk result (IsStepRun dfa.now id unit (known_of self.old) (known_of self.new)) }
        ensures stands { IfOk result (StepsOn dfa.now self.old self.new id unit) }
    {
        self.reveal_invariant_of(dfa);
        if id.is_fixed() {
            return Ok(id);
        }
        let class = dfa.unit_class(unit);
        let cell = self.cell(id, class);
        if !cell.is_unknown() {
            return Ok(cell);
        }
        let next = self.compute_next(dfa, id, unit)?;
        Ok(next)
    }

    /// Returns the ID after a unit, which is unknown if the transition is not cached. The given ID may have tags.
    #[inline(always)]
    pub(crate) fn known_step(&self, dfa: &DFA, id: LazyStateID, unit: Option<u8>) -> LazyStateID
        requires sound { IsSoundCacheOf self.now dfa.now }
        requires valid { IsRowId self.now.store.table id }
        ensures value { result ≡ known_step dfa.now self.now.store id unit }
        ensures answer { result < unknown_id → IsStepAnswer dfa.now id unit self.now self.now result }
        ensures quit { quits_on dfa.now unit ≡ true → result ≡ quit_id dfa.now.stride }
        ensures below { unit_class dfa.now unit < dfa.now.stride }
    {
        self.cell(id, dfa.unit_class(unit))
    }

    /// Computes a transition that is not cached.
    #[inline(never)]
    pub(crate) fn compute_next(
        &mut self,
        dfa: &DFA,
        id: LazyStateID,
        unit: Option<u8>,
    ) -> Result<LazyStateID, StepError>
        requires sound { IsSoundCacheOf self.old dfa.now }
        requires valid { IsRowId self.old.store.table id }
        requires clean { quits_on dfa.now unit ≡ false }
        requires unknown { KnowsStep dfa.now self.old.store id unit → ⊥ }
        ensures sound { IsSoundCacheOf self.new dfa.now }
        ensures taken { IfOk result (HasTakenStep dfa.now id unit self.old self.new) }
        ensures refusal { IfErr result (StepFails dfa.now id unit (known_of self.old) (known_of self.new)) }
    {
        let class = dfa.unit_class(unit);
        let key = self.determinize(dfa, id, unit)?;
        match self.resolve(dfa, key)? {
            Found::Known(to) => {
                self.set_next(id, class, to);
                Ok(to)
            }
            Found::New(state) => {
                let (from, to) = self.add_next(dfa, id, state)?;
                self.set_next(from, class, to);
                Ok(to)
            }
        }
    }
}
