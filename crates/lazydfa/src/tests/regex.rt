//! Rows of calls of a regex over one cache, with what they report.

use super::regex_bench::{Ask, Pair, Printed, RegexBench, Row};
use super::reports::reports_all;
use super::{Host, same_of};
use Ask::{
    Both, Counts, Find, Forward, Is, Items, ItemsPrint, Prints, ReplaceByNew, Reset, ResetByCache,
    ResetForward, ResetReverse, Reverse, TokensPrint,
};
use Pair::Of;
use regex_automata::tokens::Token;
use search_script::Entry;

const DATES: &[u8] = b"2018-12-24 2016-10-08";

const WORDS: &[u8] = b"@foo bar";

/// Three times sixteen bytes.
const SIXTEENS: &[u8] = b"aaaaaaaaaaaaaaaaaaaaaaaaaaaaaaaaaaaaaaaaaaaaaaaa";

/// Calls of a cache and of its parts, and the clears, memory and bytes searched that are counted afterwards.
#[rattlefmt::skip]
const PARTS: &[Row] = &[
    ("Cache::reset", Of(Entry::Ab), "", &[ReplaceByNew, Find(b"ab"), Counts, ResetByCache, Counts],
        "-, match 0 0..2, (0, 678, 2) (0, 335, 0), -, (0, 335, 0) (0, 335, 0)"),
    ("the forward part is reset", Of(Entry::Date), "", &[Find(DATES), ResetForward, Counts, Find(DATES), Counts],
        "match 0 0..10, -, (0, 549, 0) (0, 1580, 9), match 0 0..10, (0, 1745, 11) (0, 1580, 18)"),
    ("the reverse part is reset", Of(Entry::Date), "", &[Find(DATES), ResetReverse, Counts, Find(DATES), Counts],
        "match 0 0..10, -, (0, 1745, 11) (0, 549, 0), match 0 0..10, (0, 1745, 22) (0, 1580, 9)"),
    ("each part serves searches of its own", Of(Entry::Words), "", &[Forward(WORDS), Reverse(WORDS), Counts,
        Find(WORDS), Counts],
        "half 1 4, half 1 0, (0, 1082, 5) (0, 1383, 7), match 1 0..4, (0, 1082, 10) (0, 1911, 10)"),
    ("both parts lent for writing at once, and the memory of each", Of(Entry::Words), "", &[Both(WORDS)],
        "(0, 1082, 5) (0, 1383, 7)"),
    ("a part that was lent, once both were looked at", Of(Entry::Words), "", &[Forward(WORDS), Counts, Find(WORDS)],
        "half 1 4, (0, 1082, 5) (0, 577, 0), match 1 0..4"),
    ("a reset", Of(Entry::Date), "", &[Counts, Find(DATES), Counts, Reset, Counts],
        "(0, 549, 0) (0, 549, 0), match 0 0..10, (0, 1745, 11) (0, 1580, 9), -, (0, 549, 0) (0, 549, 0)"),
    ("one clear after another", Of(Entry::A16), "noclasses capacity=37281", &[Items(SIXTEENS), Counts],
        "0 0..16; 0 16..32; 0 32..48, (4, 15084, 1) (0, 6677, 0)"),
    ("one clear is free", Of(Entry::A16), "noclasses capacity=37281 limit=1", &[Items(SIXTEENS), Counts],
        "0 0..16; gaveup 24, (1, 36104, 12) (0, 6677, 0)"),
    ("there is no search back where all are anchored", Of(Entry::Ab), "", &[Find(b"ab"), Items(b"abab"), Counts],
        "match 0 0..2, 0 0..2; 0 2..4, (0, 678, 7) (0, 335, 0)"),
    ("nor where it is asked whether there is a match", Of(Entry::Words), "", &[Is(WORDS), Counts],
        "true, (0, 965, 1) (0, 577, 0)"),
];

/// What `Debug` prints: how much a cache has, and how far an iteration has come.
#[rattlefmt::skip]
const PRINTED: &[Row] = &[
    ("a cache, in one part the states of `ab` and in the other none", Of(Entry::Ab), "", &[Find(b"ab"),
        Prints("Cache { forward: Cache { states: 4, memory_usage: 678, clear_count: 0, .. }, reverse: Cache { states: 0, memory_usage: 335, clear_count: 0, .. } }")],
        "match 0 0..2, true"),
    ("one that was cleared", Of(Entry::A16), "noclasses capacity=37281", &[Items(SIXTEENS),
        Prints("Cache { forward: Cache { states: 4, memory_usage: 15084, clear_count: 4, .. }, reverse: Cache { states: 0, memory_usage: 6677, clear_count: 0, .. } }")],
        "0 0..16; 0 16..32; 0 32..48, true"),
    ("matches, to their end", Of(Entry::Words), "", &[ItemsPrint(WORDS, Printed {
        first: "FindMatches { start: 0, end: 8, last: None, ended: false, .. }",
        second: "FindMatches { start: 4, end: 8, last: Some(4), ended: false, .. }",
        last: "FindMatches { start: 8, end: 8, last: Some(8), ended: true, .. }" })], "true"),
    ("tokens, to an error", Of(Entry::Runs), "", &[TokensPrint(b"ab 1", Printed {
        first: "Tokens { start: 0, end: 4, failed: false, .. }",
        second: "Tokens { start: 2, end: 4, failed: false, .. }",
        last: "Tokens { start: 2, end: 4, failed: true, .. }" })], "true"),
];

/// Caches and their parts, and what `Debug` prints, report their rows.
#[test]
fn regexes_report_their_rows(rt: HostRuntime) {
    reports_all::<RegexBench>(&rt, PARTS);
    reports_all::<RegexBench>(&rt, PRINTED);
}

/// A token outlives the iterator that returned it, its cache and its regex.
#[test]
fn keeps_tokens_behind_their_cache(rt: HostRuntime) {
    let haystack = b"12ab3";
    let token = second_token(&rt, haystack).expect(&rt, "a token");
    let found = (token.pattern().as_usize(), token.range());
    same_of(&rt, &found, &(0, 2..4), &"a kept token");
    same_of(&rt, &token.bytes(), &&haystack[2..4], &"a kept token");
}

/// Returns the second token of a haystack, from a regex that is dropped here.
fn second_token<'h>(rt: &impl Host, haystack: &'h [u8]) -> Option<Token<'h>> {
    let mut bench = RegexBench::new(rt, Of(Entry::Runs).regex(rt, ""));
    bench.second_token(haystack)
}
