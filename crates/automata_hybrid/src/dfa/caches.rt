//! The caches of a DFA: making and resetting them.
ghost use Rattle.std.specs.Prelude.{◌≡◌, IfOk, OnOk, OnErr};
ghost use Rattle.automata_hybrid.specs.Cache.Caches.{fresh_cache};

use crate::cache::Cache;
use crate::dfa::DFA;
use std::alloc::AllocError;

impl DFA {
    /// Returns a new cache for searches with this DFA. It serves one search after another. To use it with another DFA,
    /// reset it (`Cache::reset`).
    pub fn create_cache(&self) -> Result<Cache, AllocError>
        ensures { IfOk result (λ c. c ≡ fresh_cache self.now) }
    {
        Cache::new(self)
    }

    /// Resets a cache to a new one for this DFA. An error changes nothing.
    pub fn reset_cache(&self, cache: &mut Cache) -> Result<(), AllocError>
        ensures ok { OnOk result (cache.new ≡ fresh_cache self.now) }
        ensures err { OnErr result (cache.new ≡ cache.old) }
    {
        cache.reset(self)
    }
}
