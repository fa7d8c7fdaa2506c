//! The matches of a line.
ghost use Rattle.std.specs.Prelude.{◌≡◌, ◌++◌, Bool, false, List, None, IfOk, OnOk};
ghost use Rattle.regex_hir.specs.Re.{Re};
ghost use Rattle.regex_automata.specs.Promises.{AreCachesOf};
ghost use Rattle.meaning.specs.Patterns.{left_any};
ghost use Rattle.patterns.specs.Patterns.{IsRegexOf};
ghost use Rattle.lgrep.specs.Lines.{bytewise};
ghost use Rattle.lgrep.specs.Shown.{part_shown, parts_shown};

use crate::show::{Frame, push_after};
use crate::stats::Usage;
use anyhow::Result;
use patterns::Pattern;
use regex_automata::hybrid::regex::Cache;
use std::alloc::Global;

/// A pattern and its caches.
pub struct SpanSearcher {
    pattern: Pattern,
    caches: Cache,
    ghost of: { AreCachesOf caches pattern.regex },
}

// An owner drops this with one call, so that its proof has no step for each field.
impl Drop for SpanSearcher {
    fn drop(self) {
        let Self {
            pattern: _pattern,
            caches: _caches,
        } = self;
    }
}

/// Appends a match that begins at `start` in a line, unless it is empty.
fn push_part(
    alloc: Global,
    prefix: &[u8],
    frame: &Frame,
    start: usize,
    part: &[u8],
    shown: &mut Vec<u8>,
) -> Result<()>
    ensures { OnOk result (shown.new.items ≡ shown.old.items ++ part_shown prefix.now frame.now start part.now) }
{
    if part.is_empty() {
        return Ok(());
    }
    push_after(alloc, prefix, frame, start, part, shown)
}

impl SpanSearcher {
    /// Returns a searcher with new caches for the pattern.
    pub fn new(pattern: Pattern) -> Result<SpanSearcher>
        ensures { IfOk result (λ s. s.pattern ≡ pattern) }
    {
        let caches = pattern.create_cache()?;
        Ok(SpanSearcher { pattern, caches })
    }

    /// Appends each nonempty match of a line, after the prefix and in the frame.
    pub fn push_matches(
        &mut self,
        alloc: Global,
        prefix: &[u8],
        frame: &Frame,
        line: &[u8],
        shown: &mut Vec<u8>,
    ) -> Result<()>
        ensures same { self.new.pattern ≡ self.old.pattern }
        ensures shown { OnOk result ((case_insensitive : Bool) (res : List Re)
            → IsRegexOf (bytewise case_insensitive) res self.old.pattern.regex → shown.new.items
            ≡ shown.old.items ++ parts_shown prefix.now frame.now line.now (left_any false res line.now None)) }
    {
        for found in self.pattern.find_iter(&mut self.caches, line) {
            let found = found?;
            let part = &line[found.start()..found.end()];
            push_part(alloc, prefix, frame, found.start(), part, shown)?;
        }
        Ok(())
    }

    /// Returns how the caches were used.
    pub fn usage(&self) -> Usage {
        let (ends, starts) = self.caches.as_parts();
        Usage::of(ends).and(Usage::of(starts))
    }
}
