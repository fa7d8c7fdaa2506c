//! Iterations over the matches of an input.
ghost use Rattle.std.specs.Prelude.{◌≡◌, Ok, Some};
ghost use Rattle.lazydfa_c.specs.Batches.{InTurn};
ghost use Rattle.lazydfa_c.specs.Calls.{KeepsUnlessCache, KeepsUnlessOpen, NarrowedNext, OfHandle, OfObject};
ghost use Rattle.lazydfa_c.specs.Calls.{WritesIfDone, iterated, last_of};
ghost use Rattle.lazydfa_c.specs.Requests.{found_from};
ghost use Rattle.lazydfa_c.specs.Statuses.{plain};
ghost use Rattle.lazydfa_c.specs.Words.{FindsNextOf, Iterates};
ghost use Rattle.lazydfa_c.specs.declared.code.Code.TheVariants as code;

use crate::code::Code;
use crate::handle::Handle;
use crate::input::{Found, Request};
use crate::object::{Object, Searcher};
use crate::status::Status;
use regex_automata::{Input, Match};
use std::alloc::Global;

/// An iteration: the input that remains to be searched, the offset, in bytes, where the last match ended if there was
/// one, and whether the iteration has ended.
#[repr(C)]
#[derive(Clone, Copy)]
pub struct Iteration {
    pub left: Request,
    pub last: usize,
    pub has_last: u32,
    pub ended: u32,
}

impl Iteration {
    /// Writes a match, and advances an iteration past it.
    pub(crate) fn give(&mut self, it: Match, found: &mut Found) -> Status
        ensures iterated { self.new ≡ iterated self.old (Ok (Some it)) }
        ensures found { found.new ≡ found_from it }
        ensures status { result ≡ plain code.Done }
    {
        *found = Found::of(it);
        self.left.start = found.end;
        self.last = found.end;
        self.has_last = 1;
        Status::from(Code::Done)
    }

    /// Returns the offset where the last match ended, if there was one.
    pub(crate) fn last(&self) -> Option<usize>
        ensures { result ≡ last_of self.now }
    {
        if self.has_last == 0 {
            None
        } else {
            Some(self.last)
        }
    }
}

impl Searcher {
    /// Searches for the next match of an iteration that has not ended, and writes it. If there is no match, or the
    /// search fails, the iteration ends.
    ///
    /// A match that is found at once is not empty, so it is not an empty match at the end of the last one.
    fn go_on(&mut self, input: &Input<'_>, at: &mut Iteration, found: &mut Found) -> Status
        ensures found { NarrowedNext found.new at.old at.new input.now self.old self.new result }
        ensures written { WritesIfDone found.old found.new result }
    {
        let Some(narrowed) = self.narrow(input) else {
            at.ended = 1;
            return Status::from(Code::Nothing);
        };
        let shared = &self.shared;
        if let Some(it) = shared
            .pattern
            .find_at_once(&mut self.cache, &narrowed, &mut self.misses)
        {
            return at.give(it, found);
        }
        match shared
            .pattern
            .regex
            .next_match(&mut self.cache, &narrowed, at.last())
        {
            Ok(Some(it)) => at.give(it, found),
            Ok(None) => {
                at.ended = 1;
                Status::from(Code::Nothing)
            }
            Err(error) => {
                at.ended = 1;
                Status::from(error)
            }
        }
    }

    /// Searches for the next match of an iteration that has not ended, and writes it. The programs find it where the
    /// DFAs cannot. If there is no match, or the search fails, the iteration ends.
    fn next_of(&mut self, input: &Input<'_>, at: &mut Iteration, found: &mut Found) -> Status
        ensures found { FindsNextOf found.new at.old at.new input.now self.old self.new result }
        ensures written { WritesIfDone found.old found.new result }
    {
        if !self.can_simulate(input) {
            return self.go_on(input, at, found);
        }
        at.mark(input);
        if !at.is_ascii() {
            return self.next_by_programs(input, at, found);
        }
        let marked = *at;
        let status = self.go_on(input, at, found);
        if status.is_failure() {
            *at = marked;
            return self.next_by_programs(input, at, found);
        }
        status
    }

    /// Searches for the next match of an iteration, and writes it. The status is `Code::Nothing` if there is no match
    /// or the iteration has ended, and `Code::Argument` if the remaining span does not lie in the haystack.
    fn next(&mut self, haystack: &[u8], at: &mut Iteration, found: &mut Found) -> Status
        ensures found { Iterates haystack.now found.new at.old at.new self.old self.new result }
        ensures written { WritesIfDone found.old found.new result }
    {
        if at.ended != 0 {
            return Status::from(Code::Nothing);
        }
        match at.left.input(haystack) {
            Some(input) => self.next_of(&input, at, found),
            None => Status::from(Code::Argument),
        }
    }

    /// Writes the next matches of an iteration, as many as there is room for, and counts them. The status is
    /// `Code::Done` if there was no room for more, and otherwise says why the iteration stopped.
    fn next_all(
        &mut self,
        haystack: &[u8],
        at: &mut Iteration,
        out: &mut [Found],
        count: &mut usize,
    ) -> Status
        ensures { InTurn (Iterates haystack.now) out.old out.new count.new at.old at.new self.old self.new result }
    {
        *count = 0;
        for place in out {
            let status = self.next(haystack, at, place);
            if !status.is_done() {
                return status;
            }
            *count = count.saturating_add(1);
        }
        Status::from(Code::Done)
    }
}

/// Searches for the next match of an iteration over a cache, and writes it. The status is `Code::Kind` if the object is
/// not a cache.
fn next_in(object: &mut Object, haystack: &[u8], at: &mut Iteration, found: &mut Found) -> Status
    ensures found { OfObject (Iterates haystack.now found.new at.old at.new) object.old object.new result }
    ensures written { WritesIfDone found.old found.new result }
    ensures kept { KeepsUnlessCache (at.new ≡ at.old) object.old }
{
    match object {
        Object::Searcher(searcher) => searcher.next(haystack, at, found),
        Object::Builder(_) | Object::Regex(_) => Status::from(Code::Kind),
    }
}

/// Writes the next matches of an iteration over a cache, as many as there is room for, and counts them. The status is
/// `Code::Kind` if the object is not a cache.
fn next_all_in(
    object: &mut Object,
    haystack: &[u8],
    at: &mut Iteration,
    found: &mut [Found],
    count: &mut usize,
) -> Status
    ensures found { OfObject (InTurn (Iterates haystack.now) found.old found.new count.new at.old at.new)
        object.old object.new result }
    ensures kept { KeepsUnlessCache ((at.new ≡ at.old) × (found.new ≡ found.old) × (count.new ≡ count.old)) object.old }
{
    match object {
        Object::Searcher(searcher) => searcher.next_all(haystack, at, found, count),
        Object::Builder(_) | Object::Regex(_) => Status::from(Code::Kind),
    }
}

/// Searches for the next match of an iteration over a handle's cache, and writes it.
#[unsafe(no_mangle)]
pub extern "C" fn lazydfa_raw_next(
    alloc: Global,
    cache: &mut Handle,
    haystack: &[u8],
    at: &mut Iteration,
    found: &mut Found,
) -> Status
    ensures found { OfHandle (Iterates haystack.now found.new at.old at.new) cache.old cache.new result }
    ensures written { WritesIfDone found.old found.new result }
    ensures kept { KeepsUnlessOpen (at.new ≡ at.old) cache.old }
{
    let Some(mut object) = cache.take(alloc) else {
        return Status::from(Code::Closed);
    };
    let status = next_in(object.as_mut(), haystack, at, found);
    cache.put(object);
    status
}

/// Writes the next matches of an iteration over a handle's cache, as many as there is room for, and counts them.
#[unsafe(no_mangle)]
pub extern "C" fn lazydfa_raw_next_all(
    alloc: Global,
    cache: &mut Handle,
    haystack: &[u8],
    at: &mut Iteration,
    found: &mut [Found],
    count: &mut usize,
) -> Status
    ensures found { OfHandle (InTurn (Iterates haystack.now) found.old found.new count.new at.old at.new)
        cache.old cache.new result }
    ensures kept { KeepsUnlessOpen ((at.new ≡ at.old) × (found.new ≡ found.old) × (count.new ≡ count.old)) cache.old }
{
    let Some(mut object) = cache.take(alloc) else {
        return Status::from(Code::Closed);
    };
    let status = next_all_in(object.as_mut(), haystack, at, found, count);
    cache.put(object);
    status
}
