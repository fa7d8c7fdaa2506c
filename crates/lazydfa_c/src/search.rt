//! Searches over a cache: the first match, whether there is one, and its two ends.
ghost use Rattle.patterns.specs.Searches.{IsNarrowed};
ghost use Rattle.lazydfa_c.specs.Calls.{ReportsMatch, FindsEnd, FindsStartBack, OfHandle, OfInput, OfObject, Tests};
ghost use Rattle.lazydfa_c.specs.Calls.{Narrowed, WritesIfDone};
ghost use Rattle.lazydfa_c.specs.Requests.{input_of};
ghost use Rattle.lazydfa_c.specs.Words.{FindsEndOf, FindsMatchOf, TestsFor};

use crate::code::Code;
use crate::handle::Handle;
use crate::input::{Found, FoundHalf, Request};
use crate::object::{Object, Searcher};
use crate::status::Status;
use crate::words::has_ascii;
use regex_automata::Input;
use std::alloc::Global;

impl Searcher {
    /// Returns the input from the first needle of the regex on, or none if no match begins in the span.
    pub fn narrow<'h>(&self, input: &Input<'h>) -> Option<Input<'h>>
        ensures { IsNarrowed self.now.shared.pattern.value input.now result }
    {
        self.shared.pattern.narrow(input)
    }

    /// Searches for the first match by the DFAs, and writes it. The status is `Code::Nothing` if there is none.
    fn find_by_dfas(&mut self, input: &Input<'_>, found: &mut Found) -> Status
        ensures found { Narrowed (ReportsMatch found.new) input.now self.old self.new result }
        ensures written { WritesIfDone found.old found.new result }
    {
        let Some(narrowed) = self.narrow(input) else {
            return Status::from(Code::Nothing);
        };
        let shared = &self.shared;
        match shared.pattern.regex.find(&mut self.cache, &narrowed) {
            Ok(Some(it)) => {
                *found = Found::of(it);
                Status::from(Code::Done)
            }
            Ok(None) => Status::from(Code::Nothing),
            Err(error) => Status::from(error),
        }
    }

    /// Tests by the DFAs whether there is a match. The status is `Code::Done` if there is one, and `Code::Nothing` if
    /// there is none.
    fn test_by_dfas(&mut self, input: &Input<'_>) -> Status
        ensures { Narrowed Tests input.now self.old self.new result }
    {
        let Some(narrowed) = self.narrow(input) else {
            return Status::from(Code::Nothing);
        };
        let shared = &self.shared;
        match shared.pattern.regex.is_match(&mut self.cache, &narrowed) {
            Ok(true) => Status::from(Code::Done),
            Ok(false) => Status::from(Code::Nothing),
            Err(error) => Status::from(error),
        }
    }

    /// Searches for the end of the first match with the forward DFA, and writes it with its pattern. The status is
    /// `Code::Nothing` if there is no match.
    fn find_end_by_dfas(&mut self, input: &Input<'_>, found: &mut FoundHalf) -> Status
        ensures found { Narrowed (FindsEnd found.new) input.now self.old self.new result }
        ensures written { WritesIfDone found.old found.new result }
    {
        let Some(narrowed) = self.narrow(input) else {
            return Status::from(Code::Nothing);
        };
        let shared = &self.shared;
        let dfa = shared.pattern.regex.forward();
        match dfa.try_search_fwd(self.cache.forward_mut(), &narrowed) {
            Ok(Some(half)) => {
                *found = FoundHalf::of(half);
                Status::from(Code::Done)
            }
            Ok(None) => Status::from(Code::Nothing),
            Err(error) => Status::from(error),
        }
    }

    /// Searches with the reverse DFA for the start of a match that ends at the end of the span, and writes it with its
    /// pattern. The status is `Code::Nothing` if there is no match.
    fn find_start(&mut self, input: &Input<'_>, found: &mut FoundHalf) -> Status
        ensures found { FindsStartBack found.new input.now self.old self.new result }
        ensures written { WritesIfDone found.old found.new result }
    {
        let shared = &self.shared;
        let dfa = shared.pattern.regex.reverse();
        match dfa.try_search_rev(self.cache.reverse_mut(), input) {
            Ok(Some(half)) => {
                *found = FoundHalf::of(half);
                Status::from(Code::Done)
            }
            Ok(None) => Status::from(Code::Nothing),
            Err(error) => Status::from(error),
        }
    }
}

impl Searcher {
    /// Searches for the first match, and writes it. The programs find it where the DFAs cannot.
    fn find(&mut self, input: &Input<'_>, found: &mut Found) -> Status
        ensures found { FindsMatchOf found.new input.now self.old self.new result }
        ensures written { WritesIfDone found.old found.new result }
    {
        if !self.can_simulate(input) {
            return self.find_by_dfas(input, found);
        }
        if !has_ascii(input) {
            return self.find_by_programs(input, found);
        }
        let status = self.find_by_dfas(input, found);
        if status.is_failure() {
            return self.find_by_programs(input, found);
        }
        status
    }

    /// Tests whether there is a match. The programs test it where the DFAs cannot.
    fn is_match(&mut self, input: &Input<'_>) -> Status
        ensures { TestsFor input.now self.old self.new result }
    {
        if !self.can_test(input) {
            return self.test_by_dfas(input);
        }
        if !has_ascii(input) {
            return self.test_by_programs(input);
        }
        let status = self.test_by_dfas(input);
        if status.is_failure() {
            return self.test_by_programs(input);
        }
        status
    }

    /// Searches for the end of the first match, and writes it with its pattern. The programs find it where the DFAs
    /// cannot.
    fn find_end(&mut self, input: &Input<'_>, found: &mut FoundHalf) -> Status
        ensures found { FindsEndOf found.new input.now self.old self.new result }
        ensures written { WritesIfDone found.old found.new result }
    {
        if !self.can_simulate(input) {
            return self.find_end_by_dfas(input, found);
        }
        if !has_ascii(input) {
            return self.find_end_by_programs(input, found);
        }
        let status = self.find_end_by_dfas(input, found);
        if status.is_failure() {
            return self.find_end_by_programs(input, found);
        }
        status
    }
}

/// Searches for the first match of a request over a cache. The status is `Code::Kind` if the object is not a cache, and
/// `Code::Argument` if the request is not a valid input for the haystack.
fn find_in(object: &mut Object, haystack: &[u8], request: &Request, found: &mut Found) -> Status
    ensures found { OfObject (OfInput (FindsMatchOf found.new) (input_of haystack.now request.now))
        object.old object.new result }
    ensures written { WritesIfDone found.old found.new result }
{
    match object {
        Object::Searcher(searcher) => match request.input(haystack) {
            Some(input) => searcher.find(&input, found),
            None => Status::from(Code::Argument),
        },
        Object::Builder(_) | Object::Regex(_) => Status::from(Code::Kind),
    }
}

/// Tests whether a request has a match, over a cache. The status is `Code::Kind` if the object is not a cache, and
/// `Code::Argument` if the request is not a valid input for the haystack.
fn is_match_in(object: &mut Object, haystack: &[u8], request: &Request) -> Status
    ensures { OfObject (OfInput TestsFor (input_of haystack.now request.now)) object.old object.new result }
{
    match object {
        Object::Searcher(searcher) => match request.input(haystack) {
            Some(input) => searcher.is_match(&input),
            None => Status::from(Code::Argument),
        },
        Object::Builder(_) | Object::Regex(_) => Status::from(Code::Kind),
    }
}

/// Searches for the end of the first match of a request over a cache. The status is `Code::Kind` if the object is not a
/// cache, and `Code::Argument` if the request is not a valid input for the haystack.
fn find_end_in(
    object: &mut Object,
    haystack: &[u8],
    request: &Request,
    found: &mut FoundHalf,
) -> Status
    ensures found { OfObject (OfInput (FindsEndOf found.new) (input_of haystack.now request.now))
        object.old object.new result }
    ensures written { WritesIfDone found.old found.new result }
{
    match object {
        Object::Searcher(searcher) => match request.input(haystack) {
            Some(input) => searcher.find_end(&input, found),
            None => Status::from(Code::Argument),
        },
        Object::Builder(_) | Object::Regex(_) => Status::from(Code::Kind),
    }
}

/// Searches for the start of a match that ends at the end of a request's span, over a cache. The status is `Code::Kind`
/// if the object is not a cache, and `Code::Argument` if the request is not a valid input for the haystack.
fn find_start_in(
    object: &mut Object,
    haystack: &[u8],
    request: &Request,
    found: &mut FoundHalf,
) -> Status
    ensures found { OfObject (OfInput (FindsStartBack found.new) (input_of haystack.now request.now))
        object.old object.new result }
    ensures written { WritesIfDone found.old found.new result }
{
    match object {
        Object::Searcher(searcher) => match request.input(haystack) {
            Some(input) => searcher.find_start(&input, found),
            None => Status::from(Code::Argument),
        },
        Object::Builder(_) | Object::Regex(_) => Status::from(Code::Kind),
    }
}

/// Searches for the first match of a request over a handle's cache, and writes it.
#[unsafe(no_mangle)]
pub extern "C" fn lazydfa_raw_find(
    alloc: Global,
    cache: &mut Handle,
    haystack: &[u8],
    request: &Request,
    found: &mut Found,
) -> Status
    ensures found { OfHandle (OfInput (FindsMatchOf found.new) (input_of haystack.now request.now))
        cache.old cache.new result }
    ensures written { WritesIfDone found.old found.new result }
{
    let Some(mut object) = cache.take(alloc) else {
        return Status::from(Code::Closed);
    };
    let status = find_in(object.as_mut(), haystack, request, found);
    cache.put(object);
    status
}

/// Tests whether a request has a match, over a handle's cache.
#[unsafe(no_mangle)]
pub extern "C" fn lazydfa_raw_is_match(
    alloc: Global,
    cache: &mut Handle,
    haystack: &[u8],
    request: &Request,
) -> Status
    ensures { OfHandle (OfInput TestsFor (input_of haystack.now request.now)) cache.old cache.new result }
{
    let Some(mut object) = cache.take(alloc) else {
        return Status::from(Code::Closed);
    };
    let status = is_match_in(object.as_mut(), haystack, request);
    cache.put(object);
    status
}

/// Searches for the end of the first match of a request over a handle's cache, and writes it with its pattern.
#[unsafe(no_mangle)]
pub extern "C" fn lazydfa_raw_find_end(
    alloc: Global,
    cache: &mut Handle,
    haystack: &[u8],
    request: &Request,
    found: &mut FoundHalf,
) -> Status
    ensures found { OfHandle (OfInput (FindsEndOf found.new) (input_of haystack.now request.now))
        cache.old cache.new result }
    ensures written { WritesIfDone found.old found.new result }
{
    let Some(mut object) = cache.take(alloc) else {
        return Status::from(Code::Closed);
    };
    let status = find_end_in(object.as_mut(), haystack, request, found);
    cache.put(object);
    status
}

/// Searches for the start of a match that ends at the end of a request's span, over a handle's cache, and writes it
/// with its pattern.
#[unsafe(no_mangle)]
pub extern "C" fn lazydfa_raw_find_start(
    alloc: Global,
    cache: &mut Handle,
    haystack: &[u8],
    request: &Request,
    found: &mut FoundHalf,
) -> Status
    ensures found { OfHandle (OfInput (FindsStartBack found.new) (input_of haystack.now request.now))
        cache.old cache.new result }
    ensures written { WritesIfDone found.old found.new result }
{
    let Some(mut object) = cache.take(alloc) else {
        return Status::from(Code::Closed);
    };
    let status = find_start_in(object.as_mut(), haystack, request, found);
    cache.put(object);
    status
}
