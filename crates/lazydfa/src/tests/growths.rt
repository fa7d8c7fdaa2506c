//! Rows of calls whose allocations fail. Each test is a process of its own, so it may use up all memory.

use super::bench::{Bench, Call, On, Over};
use super::plans::Mode;
use super::regex_bench::{Ask, Pair, RegexBench};
use super::reports::{Automaton, ONCE, Refusal, Short, answer_within, refuse_each};
use Automaton::{Chain, Forward, Planned, Reverse};
use Call::{
    Begin, Brief, Copies, Counts, End, Fill, Find, FindIn, Insert, Match, MatchOfCopy, Next,
    Replace, ReplaceByNew, Reset, Room, Start, StartIn, StartOn, Step, Steps, Switch,
};
use Mode::{Every, First, Of};
use Over::{Nothing, Span, Text};
use search_script::Entry;

/// Rows over a lazy DFA and its cache, and over a regex.
type Lazy = Short<On, Call>;

type Regex = Short<Pair, Ask>;

const AB: On = On(Forward(Entry::Ab), Nothing);

const WORDS: On = On(Forward(Entry::Words), Nothing);

const WORDS_BACK: On = On(Reverse(Entry::Words), Nothing);

const A16: On = On(Forward(Entry::A16), Nothing);

/// Sixteen bytes.
const AS: &str = "aaaaaaaaaaaaaaaa";

/// The first call of a turn fails.
const AT_ONCE: &[Refusal] = &[(0, "memory")];

/// Calls that allocate nothing.
#[rattlefmt::skip]
const KNOWN: &[Lazy] = &[
    ("a search over known transitions grows nothing", AB, "limit=0", &[Find("ab")], &[(Find("ab"), "half 0 2"),
        (Counts, "0 678 4"), (Room, "false")], &[]),
    ("nor does a reverse one", On(Reverse(Entry::Ab), Nothing), "limit=0", &[Find("ab")], &[(Find("ab"), "half 0 0"),
        (Room, "false")], &[]),
    ("nor a search over no span, though nothing is known yet", On(Forward(Entry::Always), Nothing), "",
        &[], &[(FindIn("ab", 2, 1), "none"), (Find("ab"), "memory")], &[]),
    ("steps that are known take no memory, and others are refused", AB, "", &[Start(None), Steps("ab"), End],
        &[(Start(None), "-"), (Steps("ab"), "-"), (End, "-"), (Brief, "678m"), (Start(None), "-"),
        (Step(b'x'), "out of memory")], &[]),
    ("copies of the NFA and of the DFA, which share what they are copies of", WORDS, "", &[],
        &[(Copies, "true"), (Room, "false")], &[]),
    ("a start that is known, though the cache is full", A16, "noclasses capacity=37281", &[Find(AS)],
        &[(StartOn(Every, AS), "false"), (Counts, "1 19288 3")], &[]),
];

/// Calls that allocate nothing succeed without memory.
#[test]
fn goes_known_ways_without_memory(rt: HostRuntime) {
    refuse_each::<Bench>(&rt, KNOWN);
}

/// Calls that make a fresh cache of a small NFA.
#[rattlefmt::skip]
const FRESH: &[Lazy] = &[
    ("create_cache", AB, "", &[], &[(Replace, "-"), (Counts, "0 335 0")], &[]),
    ("Cache::new", AB, "", &[], &[(ReplaceByNew, "-"), (Counts, "0 335 0")], &[]),
    ("a reset", AB, "", &[Find("ab")], &[(Reset, "-"), (Counts, "0 335 0")], &[]),
    ("with what determinizes its states", AB, "", &[], &[(Replace, "-"), (Find("ab"), "half 0 2"), (Counts, "0 678 2")],
        &[]),
];

/// How much memory is lent for a fresh cache, in bytes.
const LITTLE: usize = 1 << 13;

/// A fresh cache takes at most a few KB.
#[test]
fn makes_fresh_caches_in_little_memory(rt: HostRuntime) {
    answer_within::<Bench>(&rt, LITTLE, FRESH);
}

const FULL: &str = "noclasses capacity=37281";

#[rattlefmt::skip]
const CALLS: &[Lazy] = &[
    ("a cache", WORDS, "", &[], &[(Replace, "-"), (Find("@foo bar"), "half 1 4")], &[(0, "out of memory")]),
    ("a search", WORDS, "", &[], &[(Find("@foo bar"), "half 1 4"), (Brief, "1082")], AT_ONCE),
    ("a cache of a reverse DFA", WORDS_BACK, "", &[], &[(Replace, "-"), (Find("@foo bar"), "half 0 5")], ONCE),
    ("a reverse search", WORDS_BACK, "", &[], &[(Find("@foo bar"), "half 0 5"), (Brief, "1087")], &[(0, "memory")]),
    ("a start, though it was made before a reset", A16, FULL, &[Start(None), Reset], &[(Counts, "0 6677 0"),
        (Start(None), "-")], &[(1, "out of memory")]),
    ("a reset", A16, FULL, &[Start(None)], &[(Reset, "-"), (Counts, "0 6677 0"), (Start(None), "-")], ONCE),
    ("thirteen steps that fill the cache", A16, FULL, &[Start(None)], &[(Step(b'a'), "-"), (Step(b'a'), "-"),
        (Step(b'a'), "-"), (Step(b'a'), "-"), (Step(b'a'), "-"), (Step(b'a'), "-"), (Step(b'a'), "-"),
        (Step(b'a'), "-"), (Step(b'a'), "-"), (Step(b'a'), "-"), (Step(b'a'), "-"), (Step(b'a'), "-"),
        (Step(b'a'), "-"), (Counts, "0 36105 0")], ONCE),
    ("a step that clears, and two more", A16, FULL, &[Start(None), Steps("aaaaaaaaaaaaa")], &[(Step(b'a'), "-"),
        (Step(b'a'), "-"), (Step(b'a'), "-"), (Counts, "1 17187 0")], ONCE),
    ("a start that clears", On(Chain("LWordAscii:1", 20), Nothing), "noclasses capacity=37645",
        &[Start(None), Steps("aaaaaaaaaaaaa")], &[(Start(Some(b'a')), "-"), (Counts, "1 10965 0")], ONCE),
];

/// Caches, searches and steps answer correctly after each failed allocation.
#[test]
fn calls_after_each_refused_growth(rt: HostRuntime) {
    refuse_each::<Bench>(&rt, CALLS);
}

/// Starts by each call and in each anchored mode, each with a step that leads to the dead state or not. For a pattern
/// that is out of range no call fails.
#[rattlefmt::skip]
const STARTS: &[Lazy] = &[
    ("at each place", WORDS, "starts", &[], &[(StartIn(Every, None), "-"), (Brief, "753"), (Step(b'@'), "-"),
        (Brief, "886")], ONCE),
    ("anchored", WORDS, "starts", &[], &[(StartIn(First, None), "-"), (Brief, "748"), (Step(b'@'), "-"),
        (Brief, "871")], ONCE),
    ("of a pattern", WORDS, "starts", &[], &[(StartIn(Of(0), None), "-"), (Brief, "743"), (Step(b'@'), "-"),
        (Brief, "743d")], ONCE),
    ("of another", WORDS, "starts", &[], &[(StartIn(Of(1), None), "-"), (Brief, "743"), (Step(b'@'), "-"),
        (Brief, "866")], ONCE),
    ("of none", WORDS, "starts", &[], &[(StartIn(Of(2), None), "-"), (Brief, "625d"), (Step(b'@'), "-"),
        (Brief, "625d")], &[]),
    ("by an input, at each place", WORDS, "starts", &[], &[(StartOn(Every, "@"), "false"), (Brief, "753")], ONCE),
    ("by an input, anchored", WORDS, "starts", &[], &[(StartOn(First, "@"), "false"), (Brief, "748")], ONCE),
    ("by an input, of a pattern", WORDS, "starts", &[], &[(StartOn(Of(0), "@"), "false"), (Brief, "743")], ONCE),
    ("by an input, of another", WORDS, "starts", &[], &[(StartOn(Of(1), "@"), "false"), (Brief, "743")], ONCE),
    ("by an input, of none", WORDS, "starts", &[], &[(StartOn(Of(2), "@"), "true"), (Brief, "625d")], &[]),
    ("in reverse, at each place", WORDS_BACK, "starts", &[], &[(StartOn(Every, "@"), "false"), (Brief, "753")], ONCE),
    ("in reverse, anchored", WORDS_BACK, "starts", &[], &[(StartOn(First, "@"), "false"), (Brief, "748")], ONCE),
    ("in reverse, of a pattern", WORDS_BACK, "starts", &[], &[(StartOn(Of(0), "@"), "false"), (Brief, "743")], ONCE),
    ("in reverse, of another", WORDS_BACK, "starts", &[], &[(StartOn(Of(1), "@"), "false"), (Brief, "743")], ONCE),
    ("in reverse, of none", WORDS_BACK, "starts", &[], &[(StartOn(Of(2), "@"), "true"), (Brief, "625d")], &[]),
];

/// Starts are computed correctly after each failed allocation.
#[test]
fn starts_after_each_refused_growth(rt: HostRuntime) {
    refuse_each::<Bench>(&rt, STARTS);
}

const OVER_WORDS: On = On(Forward(Entry::Words), Text("@a b"));

/// The empty string, and eleven bytes `a`, whose match needs more rows than a new cache has room for.
const NONE_OR_ELEVEN: &str =
    "0/0,0,0 E1,2 M1 B61:3 B61:4 B61:5 B61:6 B61:7 B61:8 B61:9 B61:10 B61:11 B61:12 B61:13 M0";

/// If memory runs out, a call reports no match, and the next call reports the one that was due.
#[rattlefmt::skip]
const WALKS: &[Lazy] = &[
    ("over known transitions a walk takes no memory", On(Forward(Entry::Aa), Text("aa")), "all", &[Next, Next,
        Next, Next, Next], &[(Begin, "-"), (Next, "half 0 1"), (Next, "half 1 1"), (Next, "half 0 2"),
        (Next, "half 1 2"), (Next, "none"), (Room, "false")], &[]),
    ("nor does one in reverse", On(Reverse(Entry::Aa), Text("aa")), "all limit=0", &[Next, Next, Next, Next, Next],
        &[(Begin, "-"), (Next, "half 0 1"), (Next, "half 1 1"), (Next, "half 0 0"), (Next, "half 1 0"), (Next, "none"),
        (Room, "false")], &[]),
    ("nor from a state that it holds and that the cache has, else it owes its pair", On(Forward(Entry::Aa),
        Text("aa")), "all", &[Next, Next, Next, Next, Next, Begin, Next, Next], &[(Switch, "-"), (Next, "memory"),
        (Match, "none"), (Next, "memory"), (Switch, "-"), (Next, "half 0 2"), (Next, "half 1 2"), (Next, "none"),
        (Switch, "-"), (Next, "none"), (Match, "none")], &[]),
    ("nor for another pattern of a place", On(Forward(Entry::Aa), Text("aa")), "all", &[Next], &[(Switch, "-"),
        (Next, "half 1 1"), (Next, "memory"), (Match, "none"), (Next, "memory"), (Counts, "0 481 0 open")], &[]),
    ("nor for a copy", On(Forward(Entry::Aa), Text("aa")), "all", &[Next], &[(MatchOfCopy, "half 0 1"),
        (Room, "false")], &[]),
    ("nor over a done span", On(Forward(Entry::Always), Span("ab", 2, 1)), "all", &[], &[(Next, "none"),
        (Next, "none"), (Counts, "0 221 0")], &[]),
    ("over known transitions a search for a set takes none", OVER_WORDS, "all", &[Fill], &[(Fill, "set 11")], &[]),
    ("each call over another cache", OVER_WORDS, "all", &[], &[(Next, "half 1 1"), (Switch, "-"), (Next, "half 1 2"),
        (Switch, "-"), (Next, "half 0 2"), (Switch, "-"), (Next, "half 0 4"), (Switch, "-"), (Next, "half 1 4"),
        (Switch, "-"), (Next, "none")], AT_ONCE),
    ("each call over another cache in reverse", On(Reverse(Entry::Words), Text("@a b")), "all", &[],
        &[(Next, "half 0 3"),
        (Switch, "-"), (Next, "half 1 3"), (Switch, "-"), (Next, "half 0 1"), (Switch, "-"), (Next, "half 1 1"),
        (Switch, "-"), (Next, "half 1 0"), (Switch, "-"), (Next, "none")], AT_ONCE),
    ("across a clear", On(Forward(Entry::A16), Text(AS)), "all noclasses capacity=37281", &[], &[(Next, "half 0 16"),
        (Switch, "-"), (Next, "none")], AT_ONCE),
    ("a set that has a pattern keeps it, and with memory it gets the rest", On(Planned(NONE_OR_ELEVEN), Text(AS)),
        "all", &[Insert(2)], &[(Fill, "set 111")], &[(0, "set 100 memory"), (0, "set 110 memory")]),
];

/// Walks and sets answer correctly after each failed allocation.
#[test]
fn walks_after_each_refused_growth(rt: HostRuntime) {
    refuse_each::<Bench>(&rt, WALKS);
}

const FOO: &[u8] = b"@foo bar";

/// A haystack of which each item needs a new state, and so does the end.
const ITEMS: &[u8] = b"\xE2xaaa\xE2 a";

const ITEMS_REPORTED: &str = "0 0..0; 1 1..2; 0 3..3; 0 4..4; 0 6..6";

/// A haystack of which each token needs a new state. At the last offset there is no token.
const TOKENS: &[u8] = b"1a23bc!";

const TOKENS_REPORTED: &str = "1 0..1; 0 1..2; 1 2..4; 0 4..6; no token at 6";

const PAIR: Pair = Pair::Of(Entry::Words);

const RUNS: Pair = Pair::Of(Entry::Runs);

const SNOWX: Pair = Pair::Of(Entry::Snowx);

#[rattlefmt::skip]
const REGEXES: &[Regex] = &[
    ("searches that are known take no memory", PAIR, "", &[Ask::Find(FOO), Ask::Is(FOO)],
        &[(Ask::Find(FOO), "match 1 0..4"), (Ask::Is(FOO), "true")], &[]),
    ("others are refused", PAIR, "", &[], &[(Ask::Find(FOO), "memory"), (Ask::Is(FOO), "memory"),
        (Ask::Items(FOO), "memory"), (Ask::Reset, "out of memory")], &[]),
    ("the items so far", RUNS, "", &[Ask::Items(b"ab 1")], &[(Ask::Items(b"ab 1_"), "0 0..2; memory"),
        (Ask::Items(b"ab 1"), "0 0..2; 1 3..4")], &[]),
    ("tokens that are known", RUNS, "", &[Ask::Tokens(b"12ab3", 0)],
        &[(Ask::Tokens(b"12ab3", 0), "1 0..2; 0 2..4; 1 4..5")], &[]),
    ("caches", PAIR, "noclasses", &[], &[(Ask::Replace, "-"), (Ask::Find(FOO), "match 1 0..4")], ONCE),
    ("a reset", PAIR, "noclasses", &[Ask::Find(FOO)], &[(Ask::Reset, "-"),
        (Ask::Counts, "(0, 6529, 0) (0, 6529, 0)"), (Ask::Find(FOO), "match 1 0..4")], ONCE),
    ("a clone, which has the states", PAIR, "", &[Ask::Find(FOO)], &[(Ask::ReplaceByClone, "-"),
        (Ask::Find(FOO), "match 1 0..4"), (Ask::Find(b"bar"), "match 0 0..3")], ONCE),
    ("a search", PAIR, "noclasses", &[], &[(Ask::Find(FOO), "match 1 0..4")], AT_ONCE),
    ("a search back", PAIR, "noclasses", &[Ask::Forward(FOO)], &[(Ask::Find(FOO), "match 1 0..4")], AT_ONCE),
    ("whether there is a match", PAIR, "noclasses", &[], &[(Ask::Is(FOO), "true")], &[(0, "memory")]),
    ("the first item", SNOWX, "", &[Ask::Learn(ITEMS, &[], Every)], &[(Ask::Items(ITEMS), ITEMS_REPORTED)],
        &[(0, "memory")]),
    ("the second", SNOWX, "", &[Ask::Learn(ITEMS, &[0], Every)], &[(Ask::Items(ITEMS), ITEMS_REPORTED)],
        &[(0, "0 0..0; memory")]),
    ("the third", SNOWX, "", &[Ask::Learn(ITEMS, &[0, 1], Every)], &[(Ask::Items(ITEMS), ITEMS_REPORTED)],
        &[(0, "0 0..0; 1 1..2; memory")]),
    ("the fourth", SNOWX, "", &[Ask::Learn(ITEMS, &[0, 1, 2], Every)], &[(Ask::Items(ITEMS), ITEMS_REPORTED)],
        &[(0, "0 0..0; 1 1..2; 0 3..3; memory")]),
    ("the fifth", SNOWX, "", &[Ask::Learn(ITEMS, &[0, 1, 2, 3, 4], Every)], &[(Ask::Items(ITEMS), ITEMS_REPORTED)],
        &[(0, "0 0..0; 1 1..2; 0 3..3; 0 4..4; memory")]),
    ("the end of an iteration", SNOWX, "", &[Ask::Learn(ITEMS, &[0, 1, 2, 3, 4, 5], Every)],
        &[(Ask::Items(ITEMS), ITEMS_REPORTED)], &[(0, "0 0..0; 1 1..2; 0 3..3; 0 4..4; 0 6..6; memory")]),
    ("the first token", RUNS, "", &[Ask::Learn(TOKENS, &[], First)], &[(Ask::Tokens(TOKENS, 0), TOKENS_REPORTED)],
        &[(0, "memory")]),
    ("the second", RUNS, "", &[Ask::Learn(TOKENS, &[0], First)], &[(Ask::Tokens(TOKENS, 0), TOKENS_REPORTED)],
        &[(0, "1 0..1; memory")]),
    ("the third", RUNS, "", &[Ask::Learn(TOKENS, &[0, 1], First)], &[(Ask::Tokens(TOKENS, 0), TOKENS_REPORTED)],
        &[(0, "1 0..1; 0 1..2; memory")]),
    ("the fourth", RUNS, "", &[Ask::Learn(TOKENS, &[0, 1, 2], First)], &[(Ask::Tokens(TOKENS, 0), TOKENS_REPORTED)],
        &[(0, "1 0..1; 0 1..2; 1 2..4; memory")]),
];

/// Regexes, iterations and tokens answer correctly after each failed allocation.
#[test]
fn asks_after_each_refused_growth(rt: HostRuntime) {
    refuse_each::<RegexBench>(&rt, REGEXES);
}
