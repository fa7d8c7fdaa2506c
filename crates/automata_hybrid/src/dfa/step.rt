//! Steps: the ID of the state after a byte or after the end of the haystack, either cached or determinized now; and the
//! patterns that match at a state.
ghost use Rattle.std.specs.Prelude.{◌≡◌, ◌<◌, None, Some, IfOk, IfErr, OnOk, length, slice_index, true, false};
ghost use Rattle.automata_base.specs.ByteClasses.Classes.{class_in, is_quit};
ghost use Rattle.automata_base.specs.Powersets.Powerset.{Powerset};
ghost use Rattle.automata_determinize.specs.Retraced.Steps.{successor};
ghost use Rattle.automata_config.specs.Options.{match_kind_of};
ghost use Rattle.automata_hybrid.specs.Cache.Caches.{HoldsRow, IsCacheOf};
ghost use Rattle.automata_hybrid.specs.Cache.Ids.{quit_id, unknown_id, offset_limit, HasMatchTag};
ghost use Rattle.automata_hybrid.specs.Cache.Stores.{cell_of};
ghost use Rattle.automata_hybrid.specs.Cache.Table.{Names, Leads, HasItsMatchTag};
ghost use Rattle.automata_hybrid.specs.Known.Steps.{IsStepRun, StepFails};
ghost use Rattle.automata_hybrid.specs.Known.Stores.{known_of};
ghost use Rattle.automata_hybrid.specs.Steps.BySteps.{StepsOn};
ghost use Rattle.automata_hybrid.specs.Steps.Steps.{IsStepAnswer};

use crate::cache::Cache;
use crate::dfa::DFA;
use crate::id::LazyStateID;
use automata_base::util::primitives::PatternID;
use automata_config::error::StepError;

impl DFA {
    /// Returns the ID of the state after a byte. The given ID has to be valid and must not be the unknown one, which
    /// `Cache::is_valid` and `LazyStateID::is_unknown` test. Dead leads to dead, and quit to quit; from any other state
    /// a quit byte leads to quit. If the transition is cached, this does not allocate. It fails if the state does not
    /// fit and the settings do not allow a clear, and if memory runs out; an error changes nothing.
    ///
    /// ```rust
    /// match input.haystack().get(at) {
    ///     Some(byte) => dfa.next_state(cache, id, *byte),
    ///     None => dfa.next_eoi_state(cache, id),
    /// }
    /// ```
    pub fn next_state(
        &self,
        cache: &mut Cache,
        id: LazyStateID,
        byte: u8,
    ) -> Result<LazyStateID, StepError>
        requires of { IsCacheOf cache.old self.now }
        requires row { HoldsRow cache.old id }
        ensures of { IsCacheOf cache.new self.now }
        ensures answer { IfOk result (IsStepAnswer self.now id (Some byte) cache.old cache.new) }
        ensures refusal { IfErr result (StepFails self.now id (Some byte) (known_of cache.old) (known_of cache.new)) }
        ensures run { OnOk result (IsStepRun self.now id (Some byte) (known_of cache.old) (known_of cache.new)) }
        ensures stands { IfOk result (StepsOn self.now cache.old cache.new id (Some byte)) }
    {
        cache.next(self, id, Some(byte))
    }

    /// Returns the ID of the state after the end of the haystack. The given ID has to be valid and must not be the
    /// unknown one, as for `next_state`. Take this step once, after the last byte, since matches are delayed by one
    /// byte. Dead leads to dead, and quit to quit. If the transition is cached, this does not allocate. It fails if the
    /// state does not fit and the settings do not allow a clear, and if memory runs out; an error changes nothing.
    pub fn next_eoi_state(
        &self,
        cache: &mut Cache,
        id: LazyStateID,
    ) -> Result<LazyStateID, StepError>
        requires of { IsCacheOf cache.old self.now }
        requires row { HoldsRow cache.old id }
        ensures of { IsCacheOf cache.new self.now }
        ensures answer { IfOk result (IsStepAnswer self.now id None cache.old cache.new) }
        ensures refusal { IfErr result (StepFails self.now id None (known_of cache.old) (known_of cache.new)) }
        ensures run { OnOk result (IsStepRun self.now id None (known_of cache.old) (known_of cache.new)) }
        ensures stands { IfOk result (StepsOn self.now cache.old cache.new id None) }
    {
        cache.next(self, id, None)
    }

    /// Returns the ID of the state after a byte if the transition is cached; otherwise the unknown ID. This does not
    /// allocate. The given ID has to be valid and must not have a tag, which `Cache::is_valid` and
    /// `LazyStateID::is_tagged` test.
    ///
    /// A loop of your own can follow cached transitions with it. If it returns the unknown ID, take the same step with
    /// `next_state`.
    #[inline(always)]
    pub fn next_state_untagged(&self, cache: &Cache, id: LazyStateID, byte: u8) -> LazyStateID
        requires of { IsCacheOf cache.now self.now }
        requires row { HoldsRow cache.now id }
        requires untagged { id < offset_limit }
        ensures value { result ≡ cell_of cache.now.store id (class_in self.now.classes byte) }
        ensures quit { is_quit self.now.quits byte ≡ true → result ≡ quit_id self.now.stride }
        ensures named { is_quit self.now.quits byte ≡ false → result < unknown_id → (q : Powerset)
            → Names cache.now.store.table id q
            → Leads cache.now.store.table result
            (successor self.now.nfa (match_kind_of self.now.config) q (Some byte)) }
        ensures tag { HasItsMatchTag cache.now.store.table result }
        ensures row { result < unknown_id → HoldsRow cache.now result }
    {
        cache.cell_in_row(id, id.untagged() as usize, self.class_of(byte))
    }

    /// Returns how many patterns match at a match state, which is at least one. The ID has to be valid and have the
    /// match tag, which `Cache::is_valid` and `LazyStateID::is_match` test. `match_pattern` returns each pattern.
    pub fn match_len(&self, cache: &Cache, id: LazyStateID) -> usize
        requires of { IsCacheOf cache.now self.now }
        requires row { HoldsRow cache.now id }
        requires tagged { HasMatchTag id }
        ensures number { (q : Powerset) → Names cache.now.store.table id q → result ≡ length q.patterns }
        ensures some { 0 < result }
    {
        cache.reveal_invariant_of(self);
        cache.match_len(id)
    }

    /// Returns a pattern that matches at a match state, by its index, which has to be less than `match_len`. The ID has
    /// to be one that `match_len` accepts. The patterns are in the order in which the automaton's paths prefer them, so
    /// index 0 is the one that a search reports:
    ///
    /// ```rust
    /// if next.is_match() {
    ///     let pattern = dfa.match_pattern(cache, next, 0);
    ///     return Some(Some(HalfMatch::new(pattern, at)));
    /// }
    /// ```
    pub fn match_pattern(&self, cache: &Cache, id: LazyStateID, index: usize) -> PatternID
        requires of { IsCacheOf cache.now self.now }
        requires row { HoldsRow cache.now id }
        requires tagged { HasMatchTag id }
        requires index { (q : Powerset) → Names cache.now.store.table id q → index < length q.patterns }
        ensures { (q : Powerset) → Names cache.now.store.table id q → result ≡ slice_index q.patterns index }
    {
        cache.reveal_invariant_of(self);
        cache.match_pattern(id, index)
    }
}
