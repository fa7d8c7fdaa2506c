ghost use Rattle.std.specs.Prelude.{◌≡◌, ◌+◌, ◌^◌, ◌-◌, ◌≤◌, IfOk, OnOk, OnErr, min};
ghost use Rattle.std.specs.Borrow.{sem};
ghost use Rattle.automata_hybrid.specs.Cache.Caches.{dfa_of};
ghost use Rattle.automata_hybrid.specs.Known.Events.{usage};
ghost use Rattle.automata_hybrid.specs.Known.Stores.{known_of};
ghost use Rattle.regex_automata.specs.Regexes.Caches.{AreFresh};
ghost use Rattle.regex_automata.specs.Regexes.LentCaches.{LendsBothParts, LendsForward, LendsReverse, StaysSame};

use crate::hybrid::dfa;
use crate::hybrid::regex::Regex;
use automata_hybrid::cache::footprint::Footprint;
use std::alloc::AllocError;

/// The caches of the two lazy DFAs of a regex.
#[derive(Debug)]
pub struct Cache {
    pub(super) forward: dfa::Cache,
    pub(super) reverse: dfa::Cache,
}

// With its own `drop`, the proof of an owner has one step for it instead of one for each part.
impl Drop for Cache {
    fn drop(self) {
        let Self {
            forward: _forward,
            reverse: _reverse,
        } = self;
    }
}

/// A clone has its own rows: changes to one do not show in the other. The only error is out of memory.
impl Clone for Cache {
    ghost is_clone = { λ a b. b ≡ a };

    fn clone(&self) -> Result<Cache, AllocError> {
        let forward = self.forward.clone()?;
        let reverse = self.reverse.clone()?;
        Ok(Cache { forward, reverse })
    }
}

impl Cache {
    /// Returns a new cache for a regex, with no states yet. Use it with this regex only, until it is reset.
    pub fn new(regex: &Regex) -> Result<Cache, AllocError>
        ensures { IfOk result (AreFresh regex.now) }
    {
        let forward = dfa::Cache::new(regex.forward())?;
        let reverse = dfa::Cache::new(regex.reverse())?;
        Ok(Cache { forward, reverse })
    }

    /// Makes this a fresh cache for `regex`, which may be a different regex than before. An error changes neither part.
    pub fn reset(&mut self, regex: &Regex) -> Result<(), AllocError>
        ensures ok { OnOk result (AreFresh regex.now self.new) }
        ensures err { OnErr result (self.new ≡ self.old) }
    {
        *self = Cache::new(regex)?;
        Ok(())
    }

    /// Returns the cache of the forward DFA. Both parts stay unchanged.
    pub fn forward(&mut self) -> &dfa::Cache
        ensures* same { sem 𝓛 (StaysSame self.entry) }
        ensures value { result.now ≡ self.old.forward }
    {
        &self.forward
    }

    /// Returns the cache of the reverse DFA. Both parts stay unchanged.
    pub fn reverse(&mut self) -> &dfa::Cache
        ensures* same { sem 𝓛 (StaysSame self.entry) }
        ensures value { result.now ≡ self.old.reverse }
    {
        &self.reverse
    }

    /// Returns the cache of the forward DFA, mutably.
    pub fn forward_mut(&mut self) -> &mut dfa::Cache
        ensures* writes_back { sem 𝓛 (LendsForward self.entry result) }
        ensures value { result.now ≡ self.old.forward }
    {
        &mut self.forward
    }

    /// Returns the cache of the reverse DFA, mutably.
    pub fn reverse_mut(&mut self) -> &mut dfa::Cache
        ensures* writes_back { sem 𝓛 (LendsReverse self.entry result) }
        ensures value { result.now ≡ self.old.reverse }
    {
        &mut self.reverse
    }

    /// Returns both caches, the forward one first.
    pub fn as_parts(&self) -> (&dfa::Cache, &dfa::Cache)
        ensures forward { result.0.now ≡ self.now.forward }
        ensures reverse { result.1.now ≡ self.now.reverse }
    {
        (&self.forward, &self.reverse)
    }

    /// Returns both caches mutably, the forward one first. An automatic proof follows one lent part at a time: if your
    /// proof needs what was written, call `forward_mut` and then `reverse_mut`.
    pub fn as_parts_mut(&mut self) -> (&mut dfa::Cache, &mut dfa::Cache)
        ensures* writes_back { sem 𝓛 (LendsBothParts self.entry result) }
        ensures forward { result.0.now ≡ self.old.forward }
        ensures reverse { result.1.now ≡ self.old.reverse }
    {
        (&mut self.forward, &mut self.reverse)
    }

    /// Returns the accounted bytes of both caches. The sum saturates at the greatest `usize`.
    pub fn memory_usage(&self) -> usize
        ensures { result ≡ min (usage (dfa_of self.now.forward) (known_of self.now.forward)
            + usage (dfa_of self.now.reverse) (known_of self.now.reverse)) (2 ^ 64 - 1) }
    {
        self.forward
            .memory_usage()
            .saturating_add(self.reverse.memory_usage())
    }

    /// Returns the bytes that the leaps of both caches take now, in addition to the accounted ones. With leaps, a
    /// search over a long text reads a few bytes per step. Each part keeps its accounted bytes and its leaps within its
    /// own capacity.
    pub fn leap_usage(&self) -> usize
        ensures { usage (dfa_of self.now.forward) (known_of self.now.forward)
            + usage (dfa_of self.now.reverse) (known_of self.now.reverse) + result
            ≤ (dfa_of self.now.forward).capacity + (dfa_of self.now.reverse).capacity }
    {
        self.forward
            .leap_usage()
            .saturating_add(self.reverse.leap_usage())
    }

    /// Returns the bytes that both caches take: the accounted ones, those of leaps, and all that they hold from the
    /// allocator. Sums saturate at the greatest `usize`.
    pub fn footprint(&self) -> Footprint
        ensures accounted { result.accounted ≡ min (usage (dfa_of self.now.forward) (known_of self.now.forward)
            + usage (dfa_of self.now.reverse) (known_of self.now.reverse)) (2 ^ 64 - 1) }
        ensures within { result.accounted + result.leaps
            ≤ (dfa_of self.now.forward).capacity + (dfa_of self.now.reverse).capacity }
        ensures held { min (result.accounted + result.leaps) (2 ^ 64 - 1) ≤ result.held }
    {
        let forward = self.forward.footprint();
        let reverse = self.reverse.footprint();
        Footprint {
            accounted: forward.accounted.saturating_add(reverse.accounted),
            leaps: forward.leaps.saturating_add(reverse.leaps),
            held: forward.held.saturating_add(reverse.held),
        }
    }
}
