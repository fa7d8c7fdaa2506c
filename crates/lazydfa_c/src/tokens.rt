//! Iterations over the tokens of a haystack.
ghost use Rattle.std.specs.Prelude.{◌≡◌};
ghost use Rattle.regex_automata.specs.Tokens.{match_of as token_match};
ghost use Rattle.lazydfa_c.specs.Batches.{InTurn, Takes};
ghost use Rattle.lazydfa_c.specs.Calls.{KeepsUnlessCache, KeepsUnlessOpen, OfHandle, OfObject, TakesToken};
ghost use Rattle.lazydfa_c.specs.Calls.{WritesIfDone};
ghost use Rattle.lazydfa_c.specs.Requests.{found_from};
ghost use Rattle.lazydfa_c.specs.Tokens.{TakesTokenOf};

use crate::code::Code;
use crate::handle::Handle;
use crate::input::{Found, Request};
use crate::object::{Object, Searcher};
use crate::status::Status;
use regex_automata::Input;
use regex_automata::tokens::Token;
use std::alloc::Global;

impl Found {
    /// Converts a token's pattern and span to the layout of a match in C.
    fn of_token(token: &Token<'_>) -> Found
        ensures { result ≡ found_from (token_match token.now) }
    {
        Found {
            start: token.start(),
            end: token.end(),
            pattern: token.pattern().as_u32(),
            reserved: 0,
        }
    }
}

impl Searcher {
    /// Writes the token at the start of an input's span by the DFA, and moves the start of the remaining span to the
    /// token's end. The status is `Code::Nothing` if the span is empty.
    fn token_by_dfa(&mut self, input: Input<'_>, left: &mut Request, found: &mut Found) -> Status
        ensures found { TakesToken found.new left.old left.new input.entry self.old self.new result }
        ensures written { WritesIfDone found.old found.new result }
    {
        let shared = &self.shared;
        match shared.pattern.regex.tokens(&mut self.cache, input).next() {
            Some(Ok(token)) => {
                *found = Found::of_token(&token);
                left.start = found.end;
                Status::from(Code::Done)
            }
            None => Status::from(Code::Nothing),
            Some(Err(error)) => Status::from(error),
        }
    }

    /// Writes the token at the start of an input's span, and moves the start of the remaining span to the token's end.
    /// The status is `Code::Nothing` if the span is empty. The programs find the token where the DFA cannot.
    fn token(&mut self, input: &Input<'_>, left: &mut Request, found: &mut Found) -> Status
        ensures found { TakesTokenOf found.new left.old left.new input.now self.old self.new result }
        ensures written { WritesIfDone found.old found.new result }
    {
        if !self.can_lex(input) {
            return self.token_by_dfa(input.copied(), left, found);
        }
        left.mark(input);
        if !left.is_ascii() {
            return self.token_by_programs(input, left, found);
        }
        let marked = *left;
        let status = self.token_by_dfa(input.copied(), left, found);
        if status.is_failure() {
            *left = marked;
            return self.token_by_programs(input, left, found);
        }
        status
    }

    /// Writes the token at the start of the remaining span. The status is `Code::Argument` if the remaining span does
    /// not lie in the haystack.
    fn next_token(&mut self, haystack: &[u8], left: &mut Request, found: &mut Found) -> Status
        ensures found { Takes haystack.now found.new left.old left.new self.old self.new result }
        ensures written { WritesIfDone found.old found.new result }
    {
        match left.input(haystack) {
            Some(input) => self.token(&input, left, found),
            None => Status::from(Code::Argument),
        }
    }

    /// Writes the next tokens of the remaining span, as many as there is room for, and counts them. The status is
    /// `Code::Done` if there was no room for more, and otherwise says why no further token was written.
    fn next_tokens(
        &mut self,
        haystack: &[u8],
        left: &mut Request,
        out: &mut [Found],
        count: &mut usize,
    ) -> Status
        ensures { InTurn (Takes haystack.now) out.old out.new count.new left.old left.new self.old self.new result }
    {
        *count = 0;
        for place in out {
            let status = self.next_token(haystack, left, place);
            if !status.is_done() {
                return status;
            }
            *count = count.saturating_add(1);
        }
        Status::from(Code::Done)
    }
}

/// Writes the token at the start of the remaining span, over a cache. The status is `Code::Kind` if the object is not a
/// cache.
fn token_in(object: &mut Object, haystack: &[u8], left: &mut Request, found: &mut Found) -> Status
    ensures found { OfObject (Takes haystack.now found.new left.old left.new) object.old object.new result }
    ensures written { WritesIfDone found.old found.new result }
    ensures kept { KeepsUnlessCache (left.new ≡ left.old) object.old }
{
    match object {
        Object::Searcher(searcher) => searcher.next_token(haystack, left, found),
        Object::Builder(_) | Object::Regex(_) => Status::from(Code::Kind),
    }
}

/// Writes the next tokens of the remaining span, over a cache, as many as there is room for, and counts them. The
/// status is `Code::Kind` if the object is not a cache.
fn tokens_in(
    object: &mut Object,
    haystack: &[u8],
    left: &mut Request,
    found: &mut [Found],
    count: &mut usize,
) -> Status
    ensures found { OfObject (InTurn (Takes haystack.now) found.old found.new count.new left.old left.new)
        object.old object.new result }
    ensures kept { KeepsUnlessCache
        ((left.new ≡ left.old) × (found.new ≡ found.old) × (count.new ≡ count.old)) object.old }
{
    match object {
        Object::Searcher(searcher) => searcher.next_tokens(haystack, left, found, count),
        Object::Builder(_) | Object::Regex(_) => Status::from(Code::Kind),
    }
}

/// Writes the token at the start of the remaining span, over a handle's cache.
#[unsafe(no_mangle)]
pub extern "C" fn lazydfa_raw_token(
    alloc: Global,
    cache: &mut Handle,
    haystack: &[u8],
    left: &mut Request,
    found: &mut Found,
) -> Status
    ensures found { OfHandle (Takes haystack.now found.new left.old left.new) cache.old cache.new result }
    ensures written { WritesIfDone found.old found.new result }
    ensures kept { KeepsUnlessOpen (left.new ≡ left.old) cache.old }
{
    let Some(mut object) = cache.take(alloc) else {
        return Status::from(Code::Closed);
    };
    let status = token_in(object.as_mut(), haystack, left, found);
    cache.put(object);
    status
}

/// Writes the next tokens of the remaining span, over a handle's cache, as many as there is room for, and counts them.
#[unsafe(no_mangle)]
pub extern "C" fn lazydfa_raw_tokens(
    alloc: Global,
    cache: &mut Handle,
    haystack: &[u8],
    left: &mut Request,
    found: &mut [Found],
    count: &mut usize,
) -> Status
    ensures found { OfHandle (InTurn (Takes haystack.now) found.old found.new count.new left.old left.new)
        cache.old cache.new result }
    ensures kept { KeepsUnlessOpen
        ((left.new ≡ left.old) × (found.new ≡ found.old) × (count.new ≡ count.old)) cache.old }
{
    let Some(mut object) = cache.take(alloc) else {
        return Status::from(Code::Closed);
    };
    let status = tokens_in(object.as_mut(), haystack, left, found, count);
    cache.put(object);
    status
}
