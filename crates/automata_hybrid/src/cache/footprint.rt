//! How many bytes a cache takes.
ghost use Rattle.std.specs.Prelude.{◌+◌, ◌≡◌, ◌≤◌};
ghost use Rattle.automata_hybrid.specs.Cache.Caches.{dfa_of};
ghost use Rattle.automata_hybrid.specs.Known.Events.{usage};
ghost use Rattle.automata_hybrid.specs.Known.Stores.{known_of};

use crate::cache::Cache;
use std::fmt;

/// The bytes that a cache takes.
#[derive(Clone, Copy, Debug)]
pub struct Footprint {
    /// The accounted bytes, which the capacity limits.
    pub accounted: usize,
    /// The bytes of leaps.
    pub leaps: usize,
    /// All bytes that the cache holds from the allocator: lists by their capacities, the map of its states, the states,
    /// the buffers for determinization, and leaps. An allocation of n bytes counts as n + 8 bytes, rounded up to a
    /// multiple of 16 and at least 32, as glibc's `malloc` takes them. States that a clone shares count for both. Tests
    /// compare this number with what `malloc` holds; it is proved to be at least the sum of the other two.
    pub held: usize,
}

/// Shows how much is in the cache, not its contents.
impl fmt::Debug for Cache {
    fn fmt<W: fmt::Write>(&self, f: &mut fmt::Formatter<W>) -> fmt::Result {
        f.debug_struct("Cache")
            .field("states", &self.store.table.len())
            .field("memory_usage", &self.memory_usage())
            .field("clear_count", &self.clear_count())
            .finish_non_exhaustive()
    }
}

impl Cache {
    /// Returns the number of accounted bytes: rows of cells, states, start slots and the buffers for determinization.
    /// It never exceeds the capacity, or the minimum capacity if the capacity was raised to it.
    ///
    /// ```rust
    /// self.cache.memory_usage()
    /// ```
    pub fn memory_usage(&self) -> usize
        ensures usage { result ≡ usage (dfa_of self.now) (known_of self.now) }
        ensures within { result ≤ (dfa_of self.now).capacity }
    {
        self.store.memory_usage()
    }

    /// Returns the number of bytes that leaps take now, in addition to the accounted bytes. With leaps, a search over a
    /// long haystack reads several bytes per step. Together with the accounted bytes they never exceed the capacity, or
    /// the minimum capacity if the capacity was raised to it. Leaps are made if there is room for them, and dropped
    /// when a state is added or the cache is cleared.
    pub fn leap_usage(&self) -> usize
        ensures { usage (dfa_of self.now) (known_of self.now) + result ≤ (dfa_of self.now).capacity }
    {
        self.reveal_invariant();
        match &self.leaping.leaps {
            Some(leaps) => leaps.shape.bytes(),
            None => 0,
        }
    }

    /// Returns how many bytes the cache takes: the accounted bytes, those of leaps, and all that it holds from the
    /// allocator.
    pub fn footprint(&self) -> Footprint
        ensures accounted { result.accounted ≡ usage (dfa_of self.now) (known_of self.now) }
        ensures within { result.accounted + result.leaps ≤ (dfa_of self.now).capacity }
        ensures held { result.accounted + result.leaps ≤ result.held }
    {
        let _capacity = self.store.capacity();
        let accounted = self.memory_usage();
        let leaps = self.leap_usage();
        let lists = self
            .store
            .heap_usage()
            .saturating_add(self.leaping.heap_usage());
        let held = lists.saturating_add(self.scratch.heap_usage());
        Footprint {
            accounted,
            leaps,
            held: held.max(accounted + leaps),
        }
    }
}
