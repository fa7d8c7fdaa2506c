//! The numbers of the patterns that match a line.
ghost use Rattle.std.specs.Prelude.{◌≡◌, ◌∷◌, ◌++◌, Bool, List, IfOk, OnOk, false, map, string_bytes, true};
ghost use Rattle.regex_hir.specs.Re.{Re};
ghost use Rattle.automata_base.specs.Haystacks.PatternSet.{members};
ghost use Rattle.regex_automata.specs.Promises.{IsCacheOf};
ghost use Rattle.meaning.specs.Patterns.{is_found};
ghost use Rattle.patterns.specs.Sets.{IsDfaOf};
ghost use Rattle.lgrep.specs.Lines.{bytewise};
ghost use Rattle.lgrep.specs.Shown.{number_after, numbers_listed, which_shown};

use crate::show::{Frame, push_after};
use crate::stats::Usage;
use anyhow::Result;
use patterns::RegexSet;
use regex_automata::hybrid::dfa::Cache;
use regex_automata::util::primitives::PatternID;
use regex_automata::util::search::PatternSet;
use std::alloc::Global;

/// A set of patterns and its cache.
pub struct SetSearcher {
    set: RegexSet,
    cache: Cache,
    ghost of: { IsCacheOf cache set.dfa },
}

// An owner drops this with one call, so that its proof has no step for each field.
impl Drop for SetSearcher {
    fn drop(self) {
        let Self {
            set: _set,
            cache: _cache,
        } = self;
    }
}

/// Returns the number of a pattern, counted from 1, after a comma if it is not the first.
fn number_text(alloc: Global, is_first: bool, pattern: PatternID) -> Result<String>
    ensures { IfOk result (λ text. string_bytes text ≡ number_after is_first pattern) }
{
    let number = pattern.as_usize() + 1;
    if is_first {
        Ok(format!(in alloc; "{number}")?)
    } else {
        Ok(format!(in alloc; ",{number}")?)
    }
}

/// Returns the numbers of the patterns in a set, counted from 1 and separated by commas.
fn numbers_of(alloc: Global, set: &PatternSet) -> Result<String>
    ensures { IfOk result (λ numbers. string_bytes numbers ≡ numbers_listed true (members set.now)) }
{
    let mut numbers = String::new(alloc);
    let mut is_first = true;
    for pattern in set.iter() {
        let text = number_text(alloc, is_first, pattern)?;
        numbers.push_str(text.as_str())?;
        is_first = false;
    }
    Ok(numbers)
}

/// Returns a line after the numbers and a colon.
fn numbered(alloc: Global, numbers: &str, line: &[u8]) -> Result<Vec<u8>>
    ensures { IfOk result (λ bytes. bytes.items ≡ numbers.now ++ 58 ∷ line.now) }
{
    let mut bytes = Vec::from_slice(alloc, numbers.as_bytes())?;
    bytes.push(b':')?;
    bytes.extend_from_slice(line)?;
    Ok(bytes)
}

impl SetSearcher {
    /// Returns a searcher with a new cache for the set.
    pub fn new(set: RegexSet) -> Result<SetSearcher>
        ensures { IfOk result (λ s. s.set ≡ set) }
    {
        let cache = set.create_cache()?;
        Ok(SetSearcher { set, cache })
    }

    /// Appends a line in the frame, after the prefix and the numbers of the patterns that match it.
    pub fn push_which(
        &mut self,
        alloc: Global,
        prefix: &[u8],
        frame: &Frame,
        line: &[u8],
        shown: &mut Vec<u8>,
    ) -> Result<()>
        ensures same { self.new.set ≡ self.old.set }
        ensures shown { OnOk result ((case_insensitive : Bool) (res : List Re)
            → IsDfaOf (bytewise case_insensitive) res self.old.set.dfa → shown.new.items
            ≡ shown.old.items ++ which_shown prefix.now frame.now line.now (map (is_found false line.now) res)) }
    {
        let found = self.set.which(alloc, &mut self.cache, line)?;
        let numbers = numbers_of(alloc, &found)?;
        let bytes = numbered(alloc, numbers.as_str(), line)?;
        push_after(alloc, prefix, frame, 0, bytes.as_slice(), shown)
    }

    /// Returns the number of the last pattern that matches a text, counted from 0, if one does.
    pub fn last(&mut self, alloc: Global, text: &[u8]) -> Result<Option<usize>> {
        let found = self.set.which(alloc, &mut self.cache, text)?;
        let mut last = None;
        for pattern in found.iter() {
            last = Some(pattern.as_usize());
        }
        Ok(last)
    }

    /// Returns how the cache was used.
    pub fn usage(&self) -> Usage {
        Usage::of(&self.cache)
    }
}
