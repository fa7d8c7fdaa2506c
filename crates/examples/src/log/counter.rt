//! How many lines match each pattern of a set.
ghost use Rattle.regex_automata.specs.Promises.{IsCacheOf};

use anyhow::Result;
use patterns::RegexSet;
use regex_automata::hybrid::dfa::Cache;
use regex_automata::util::search::PatternSet;
use std::alloc::Global;
use std::fmt::Write;
use std::fs::File;
use std::io::{BufRead, BufReader};

/// A set of patterns, the cache of its searches, and how many lines matched each pattern so far.
pub struct Counter {
    set: RegexSet,
    cache: Cache,
    counts: Vec<u64>,
    ghost of: { IsCacheOf cache set.dfa },
}

// With this, dropping the value is one call in the proof of a caller, not a step for each field.
impl Drop for Counter {
    fn drop(self) {
        let Self {
            set: _set,
            cache: _cache,
            counts: _counts,
        } = self;
    }
}

/// Returns a zero for each pattern.
fn zeros(alloc: Global, patterns: usize) -> Result<Vec<u64>> {
    let mut counts = Vec::new(alloc);
    for _ in 0..patterns {
        counts.push(0)?;
    }
    Ok(counts)
}

/// Adds one to the count of each pattern that was found.
fn add(found: &PatternSet, counts: &mut Vec<u64>) {
    for pattern in found.iter() {
        if let Some(count) = counts.get_mut(pattern.as_usize()) {
            *count = count.saturating_add(1);
        }
    }
}

impl Counter {
    /// Returns a counter that has not counted any line.
    pub fn new(alloc: Global, set: RegexSet) -> Result<Counter> {
        let cache = set.create_cache()?;
        let counts = zeros(alloc, set.dfa.pattern_len())?;
        Ok(Counter { set, cache, counts })
    }

    /// Counts a line.
    fn count_line(&mut self, alloc: Global, line: &[u8]) -> Result<()> {
        let found = self.set.which(alloc, &mut self.cache, line)?;
        add(&found, &mut self.counts);
        Ok(())
    }

    /// Reads a line into the buffer and counts it, and returns whether there was one.
    fn count_next(
        &mut self,
        alloc: Global,
        log: &mut BufReader<File>,
        line: &mut Vec<u8>,
    ) -> Result<bool> {
        line.clear();
        if log.read_until(b'\n', line)? == 0 {
            return Ok(false);
        }
        if line.last() == Some(&b'\n') {
            line.pop();
        }
        self.count_line(alloc, line.as_slice())?;
        Ok(true)
    }

    /// Counts the lines of a log, and keeps one of them in memory at a time.
    pub fn count_lines(&mut self, alloc: Global, log: &mut BufReader<File>) -> Result<()> {
        let mut line = Vec::new(alloc);
        for _ in 0..u64::MAX {
            if !self.count_next(alloc, log, &mut line)? {
                break;
            }
        }
        Ok(())
    }

    /// Appends how many lines matched each pattern, with the pattern's text.
    pub fn push_counts(&self, texts: &str, shown: &mut String) -> Result<()> {
        for (count, text) in self.counts.iter().zip(texts.lines()) {
            writeln!(shown, "{count}\t{text}")?;
        }
        Ok(())
    }
}
