//! The statistics of a run, for `--stats`.
ghost use Rattle.std.specs.Prelude.{◌≡◌, length};
ghost use Rattle.automata_hybrid.specs.Cache.Caches.{dfa_of};
ghost use Rattle.automata_hybrid.specs.Cache.States.{held_states};
ghost use Rattle.automata_hybrid.specs.Known.Events.{usage};
ghost use Rattle.automata_hybrid.specs.Known.Stores.{known_of};
ghost use Rattle.lgrep.specs.Usages.{usage_sum};

use anyhow::Result;
use regex_automata::hybrid::dfa::Cache;
use std::time::Instant;

/// How many times caches were cleared, how many states they hold, and how many bytes they account for.
#[derive(Clone, Copy)]
pub struct Usage {
    pub clears: usize,
    pub states: usize,
    pub bytes: usize,
}

impl Usage {
    /// Returns how a cache was used.
    pub fn of(cache: &Cache) -> Usage
        ensures clears { result.clears ≡ (known_of cache.now).clears }
        ensures states { result.states ≡ length (held_states cache.now.store.table) }
        ensures bytes { result.bytes ≡ usage (dfa_of cache.now) (known_of cache.now) }
    {
        let bytes = cache.memory_usage();
        Usage {
            clears: cache.clear_count(),
            states: cache.states().count(),
            bytes,
        }
    }

    /// Returns the sum of two usages.
    pub fn and(self, other: Usage) -> Usage
        ensures { result ≡ usage_sum self other }
    {
        Usage {
            clears: self.clears.saturating_add(other.clears),
            states: self.states.saturating_add(other.states),
            bytes: self.bytes.saturating_add(other.bytes),
        }
    }
}

/// How many bytes were read, and how many lines were searched and taken.
#[derive(Clone, Copy)]
pub struct Stats {
    pub bytes: u64,
    pub lines: u64,
    pub taken: u64,
}

impl Stats {
    /// Returns statistics before anything is read.
    pub fn new() -> Stats {
        Stats {
            bytes: 0,
            lines: 0,
            taken: 0,
        }
    }

    /// Adds the statistics of a file.
    pub fn add(&mut self, file: Stats) {
        self.bytes = self.bytes.saturating_add(file.bytes);
        self.lines = self.lines.saturating_add(file.lines);
        self.taken = self.taken.saturating_add(file.taken);
    }

    /// Prints the statistics to standard error, with how the caches were used and how many megabytes per second were
    /// read since a time.
    pub fn print(&self, rt: &HostRuntime, usage: Usage, since: Instant) -> Result<()> {
        let micros = since.elapsed(rt)?.as_micros();
        eprintln!(rt; "bytes read: {}", self.bytes)?;
        eprintln!(rt; "lines: {}", self.lines)?;
        eprintln!(rt; "lines taken: {}", self.taken)?;
        eprintln!(rt; "clears: {}", usage.clears)?;
        eprintln!(rt; "states of caches: {}", usage.states)?;
        eprintln!(rt; "bytes of caches: {}", usage.bytes)?;
        let rate = u128::from(self.bytes) * 10 / micros.max(1);
        Ok(eprintln!(rt; "MB/s: {}.{}", rate / 10, rate % 10)?)
    }
}
