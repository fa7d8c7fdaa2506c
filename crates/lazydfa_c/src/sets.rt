//! Overlapping matches, and sets of patterns.
ghost use Rattle.std.specs.Prelude.{◌≡◌, ◌+◌, ◌-◌, ◌^◌, ◌++◌, List, [], ◌∷◌, false, length, min, replicate};
ghost use Rattle.std.specs.Prelude.{IfErr, OnErr, OnOk};
ghost use Rattle.automata_base.specs.Haystacks.PatternSet.{members};
ghost use Rattle.lazydfa_c.specs.Batches.{FindsAllEnds, FindsAllStarts, AreAll, IsWalkStep, NoneListed};
ghost use Rattle.lazydfa_c.specs.Calls.{JoinsPatterns, KeepsUnlessCache, KeepsUnlessOpen, OfHandle, OfInput, OfObject};
ghost use Rattle.lazydfa_c.specs.Caches.{written_over};
ghost use Rattle.lazydfa_c.specs.Requests.{found_half, input_of};
ghost use Rattle.lazydfa_c.specs.Sets.{JoinsFor, Lists};
ghost use Rattle.lazydfa_c.specs.Statuses.{plain};
ghost use Rattle.lazydfa_c.specs.declared.code.Code.TheVariants as code;
ghost use Rattle.regex_automata.specs.Promises.{IsCacheOf, IsWalkOf};
ghost use Rattle.lazydfa_c.specs.declared.input.FoundHalf.{FoundHalf};

use crate::code::Code;
use crate::handle::Handle;
use crate::input::{FoundHalf, Request};
use crate::object::{Object, Searcher};
use crate::status::Status;
use crate::words::has_ascii;
use regex_automata::hybrid::SearchError;
use regex_automata::hybrid::dfa::{Cache, DFA, OverlappingState};
use regex_automata::{Direction, HalfMatch, Input, PatternSet};
use std::alloc::Global;

/// Searches for the next overlapping match in a direction: for its end forward, for its start backward.
fn next_half(
    dfa: &DFA,
    cache: &mut Cache,
    input: &Input<'_>,
    way: Direction,
    walk: &mut OverlappingState,
) -> Result<Option<HalfMatch>, SearchError>
    requires of { IsCacheOf cache.old dfa.now }
    requires walk { IsWalkOf way dfa.now input.now walk.old }
    ensures of { IsCacheOf cache.new dfa.now }
    ensures walk { IsWalkOf way dfa.now input.now walk.new }
    ensures step { IsWalkStep way dfa.now input.now walk.old walk.new cache.old cache.new result }
{
    match dfa.try_search_overlapping(cache, input, way, walk) {
        Ok(()) => Ok(walk.get_match()),
        Err(error) => Err(error),
    }
}

/// Writes a match at index `count`, if there is room, and counts it.
fn write(out: &mut [FoundHalf], count: &mut usize, half: HalfMatch)
    ensures written { (halves : List FoundHalf) (was : List FoundHalf) → count.old ≡ length halves
        → out.old ≡ written_over halves was → out.new ≡ written_over (halves ++ found_half half ∷ []) was }
    ensures count { count.new ≡ min (count.old + 1) (2 ^ 64 - 1) }
{
    let index = *count;
    let found = FoundHalf::of(half);
    if index < out.len() {
        out[index] = found;
    }
    *count = index.saturating_add(1);
}

/// Writes the ends of all overlapping matches, or their starts, as many as there is room for, and counts them all.
fn all_halves(
    dfa: &DFA,
    cache: &mut Cache,
    input: &Input<'_>,
    way: Direction,
    out: &mut [FoundHalf],
    count: &mut usize,
) -> Status
    requires { IsCacheOf cache.old dfa.now }
    ensures of { IsCacheOf cache.new dfa.now }
    ensures all { AreAll way dfa.now input.now out.old out.new count.new cache.old cache.new result }
{
    *count = 0;
    let mut walk = OverlappingState::start();
    for _at in 0..u64::MAX {
        match next_half(dfa, cache, input, way, &mut walk) {
            Ok(Some(half)) => write(out, count, half),
            Ok(None) => return Status::from(Code::Done),
            Err(error) => return Status::from(error),
        }
    }
    Status::from(Code::Done)
}

/// Writes the members of a set, as many as there is room for, and returns how many the set has.
fn write_members(set: &PatternSet, out: &mut [u32]) -> usize
    ensures written { out.new ≡ written_over (members set.now) out.old }
    ensures count { result ≡ length (members set.now) }
{
    let mut at = 0usize;
    for pattern in set.iter() {
        if at < out.len() {
            out[at] = pattern.as_u32();
            at += 1;
        }
    }
    set.len()
}

impl Searcher {
    /// Writes the ends of all overlapping matches of an input, as many as there is room for, and counts them all.
    fn all_ends(&mut self, input: &Input<'_>, out: &mut [FoundHalf], count: &mut usize) -> Status
        ensures { FindsAllEnds out.old out.new count.new input.now self.old self.new result }
    {
        let shared = &self.shared;
        let dfa = shared.pattern.regex.forward();
        all_halves(
            dfa,
            self.cache.forward_mut(),
            input,
            Direction::Forward,
            out,
            count,
        )
    }

    /// Writes the starts of all overlapping matches of an input, as many as there is room for, and counts them all.
    fn all_starts(&mut self, input: &Input<'_>, out: &mut [FoundHalf], count: &mut usize) -> Status
        ensures { FindsAllStarts out.old out.new count.new input.now self.old self.new result }
    {
        let shared = &self.shared;
        let dfa = shared.pattern.regex.reverse();
        all_halves(
            dfa,
            self.cache.reverse_mut(),
            input,
            Direction::Backward,
            out,
            count,
        )
    }

    /// Makes the searcher's set empty, with room for the patterns below a number.
    fn empty_set(&mut self, alloc: Global, below: usize) -> Result<(), Status>
        ensures ok { OnOk result (self.new.patterns ≡ replicate below false) }
        ensures err { IfErr result (λ s. s ≡ plain code.Memory) }
        ensures patterns { OnErr result (self.new.patterns ≡ self.old.patterns) }
        ensures cache { self.new.cache ≡ self.old.cache }
        ensures same { self.new.shared ≡ self.old.shared }
        ensures pieces { self.new.pieces ≡ self.old.pieces }
    {
        if self.patterns.capacity() == below {
            self.patterns.clear();
        } else {
            self.patterns = PatternSet::new(alloc, below)?;
        }
        Ok(())
    }

    /// Adds the patterns that match to the searcher's set.
    fn join(&mut self, input: &Input<'_>) -> Status
        ensures { JoinsPatterns self.old.patterns input.now self.old self.new result }
    {
        let shared = &self.shared;
        let dfa = shared.pattern.regex.forward();
        match dfa.try_which_overlapping_matches(
            self.cache.forward_mut(),
            input,
            &mut self.patterns,
        ) {
            Ok(()) => Status::from(Code::Done),
            Err(error) => Status::from(error),
        }
    }

    /// Adds the patterns that match to the searcher's set, which is empty. The programs find them where the DFA cannot.
    fn join_for(&mut self, input: &Input<'_>) -> Status
        requires { self.old.patterns ≡ replicate (length self.old.patterns) false }
        ensures { JoinsFor self.old.patterns input.now self.old self.new result }
    {
        if !self.can_list(input) {
            return self.join(input);
        }
        if !has_ascii(input) {
            return self.join_by_programs(input);
        }
        let status = self.join(input);
        if status.is_failure() {
            return self.join_by_programs(input);
        }
        status
    }

    /// Writes the patterns below a number that match, as many as there is room for, and counts them all.
    fn which(
        &mut self,
        alloc: Global,
        input: &Input<'_>,
        below: usize,
        out: &mut [u32],
        count: &mut usize,
    ) -> Status
        ensures { Lists below out.old out.new count.new input.now self.old self.new result }
    {
        match self.empty_set(alloc, below) {
            Ok(()) => {
                let status = self.join_for(input);
                *count = write_members(&self.patterns, out);
                status
            }
            Err(status) => {
                *count = 0;
                status
            }
        }
    }
}

/// Writes the patterns below a number that match a request, over a cache, as many as there is room for, and counts them
/// all. The status is `Code::Kind` if the object is not a cache, and `Code::Argument` if the request is not a valid
/// input for the haystack.
fn which_in(
    object: &mut Object,
    alloc: Global,
    haystack: &[u8],
    request: &Request,
    below: usize,
    out: &mut [u32],
    count: &mut usize,
) -> Status
    ensures lists { OfObject (OfInput (Lists below out.old out.new count.new) (input_of haystack.now request.now))
        object.old object.new result }
    ensures none { OfObject (λ s t status. NoneListed (input_of haystack.now request.now) out.old out.new count.new)
        object.old object.new result }
    ensures kept { KeepsUnlessCache ((out.new ≡ out.old) × (count.new ≡ count.old)) object.old }
{
    match object {
        Object::Searcher(searcher) => match request.input(haystack) {
            Some(input) => searcher.which(alloc, &input, below, out, count),
            None => {
                *count = 0;
                Status::from(Code::Argument)
            }
        },
        Object::Builder(_) | Object::Regex(_) => Status::from(Code::Kind),
    }
}

/// Writes the ends of all overlapping matches of a request, over a cache, as many as there is room for, and counts them
/// all. The status is `Code::Kind` if the object is not a cache, and `Code::Argument` if the request is not a valid
/// input for the haystack.
fn all_ends_in(
    object: &mut Object,
    haystack: &[u8],
    request: &Request,
    out: &mut [FoundHalf],
    count: &mut usize,
) -> Status
    ensures all { OfObject (OfInput (FindsAllEnds out.old out.new count.new) (input_of haystack.now request.now))
        object.old object.new result }
    ensures none { OfObject (λ s t status. NoneListed (input_of haystack.now request.now) out.old out.new count.new)
        object.old object.new result }
    ensures kept { KeepsUnlessCache ((out.new ≡ out.old) × (count.new ≡ count.old)) object.old }
{
    match object {
        Object::Searcher(searcher) => match request.input(haystack) {
            Some(input) => searcher.all_ends(&input, out, count),
            None => {
                *count = 0;
                Status::from(Code::Argument)
            }
        },
        Object::Builder(_) | Object::Regex(_) => Status::from(Code::Kind),
    }
}

/// Writes the starts of all overlapping matches of a request, over a cache, as many as there is room for, and counts
/// them all. The status is `Code::Kind` if the object is not a cache, and `Code::Argument` if the request is not a
/// valid input for the haystack.
fn all_starts_in(
    object: &mut Object,
    haystack: &[u8],
    request: &Request,
    out: &mut [FoundHalf],
    count: &mut usize,
) -> Status
    ensures all { OfObject (OfInput (FindsAllStarts out.old out.new count.new) (input_of haystack.now request.now))
        object.old object.new result }
    ensures none { OfObject (λ s t status. NoneListed (input_of haystack.now request.now) out.old out.new count.new)
        object.old object.new result }
    ensures kept { KeepsUnlessCache ((out.new ≡ out.old) × (count.new ≡ count.old)) object.old }
{
    match object {
        Object::Searcher(searcher) => match request.input(haystack) {
            Some(input) => searcher.all_starts(&input, out, count),
            None => {
                *count = 0;
                Status::from(Code::Argument)
            }
        },
        Object::Builder(_) | Object::Regex(_) => Status::from(Code::Kind),
    }
}

/// Writes the ends of all overlapping matches of a request, as many as there is room for, and counts them all.
#[unsafe(no_mangle)]
pub extern "C" fn lazydfa_raw_all_ends(
    alloc: Global,
    cache: &mut Handle,
    haystack: &[u8],
    request: &Request,
    found: &mut [FoundHalf],
    count: &mut usize,
) -> Status
    ensures all { OfHandle (OfInput (FindsAllEnds found.old found.new count.new) (input_of haystack.now request.now))
        cache.old cache.new result }
    ensures none { OfHandle (λ s t status. NoneListed (input_of haystack.now request.now) found.old found.new count.new)
        cache.old cache.new result }
    ensures kept { KeepsUnlessOpen ((found.new ≡ found.old) × (count.new ≡ count.old)) cache.old }
{
    let Some(mut object) = cache.take(alloc) else {
        return Status::from(Code::Closed);
    };
    let status = all_ends_in(object.as_mut(), haystack, request, found, count);
    cache.put(object);
    status
}

/// Writes the starts of all overlapping matches that end at the end of a request's span, as many as there is room for,
/// and counts them all. The search is by the reverse DFA.
#[unsafe(no_mangle)]
pub extern "C" fn lazydfa_raw_all_starts(
    alloc: Global,
    cache: &mut Handle,
    haystack: &[u8],
    request: &Request,
    found: &mut [FoundHalf],
    count: &mut usize,
) -> Status
    ensures all { OfHandle (OfInput (FindsAllStarts found.old found.new count.new) (input_of haystack.now request.now))
        cache.old cache.new result }
    ensures none { OfHandle (λ s t status. NoneListed (input_of haystack.now request.now) found.old found.new count.new)
        cache.old cache.new result }
    ensures kept { KeepsUnlessOpen ((found.new ≡ found.old) × (count.new ≡ count.old)) cache.old }
{
    let Some(mut object) = cache.take(alloc) else {
        return Status::from(Code::Closed);
    };
    let status = all_starts_in(object.as_mut(), haystack, request, found, count);
    cache.put(object);
    status
}

/// Writes the patterns below a number that match a request, overlapping matches included, as many as there is room for,
/// and counts them all.
#[unsafe(no_mangle)]
pub extern "C" fn lazydfa_raw_which(
    alloc: Global,
    cache: &mut Handle,
    haystack: &[u8],
    request: &Request,
    below: usize,
    patterns: &mut [u32],
    count: &mut usize,
) -> Status
    ensures lists { OfHandle (OfInput (Lists below patterns.old patterns.new count.new)
        (input_of haystack.now request.now)) cache.old cache.new result }
    ensures none { OfHandle
        (λ s t status. NoneListed (input_of haystack.now request.now) patterns.old patterns.new count.new)
        cache.old cache.new result }
    ensures kept { KeepsUnlessOpen ((patterns.new ≡ patterns.old) × (count.new ≡ count.old)) cache.old }
{
    let Some(mut object) = cache.take(alloc) else {
        return Status::from(Code::Closed);
    };
    let status = which_in(
        object.as_mut(),
        alloc,
        haystack,
        request,
        below,
        patterns,
        count,
    );
    cache.put(object);
    status
}
