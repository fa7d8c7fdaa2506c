//! Rows of calls of a lazy DFA over one cache, with what they report and count.

use super::Text;
use super::bench::{Bench, Call, On, Over};
use super::reports::{Automaton, RowOf, reports_all};
use Automaton::{Always, Chain, Forward, Never, Planned, Reverse};
use Call::{
    Brief, Counts, End, Find, FindBased, FindEach, FindEarliest, FindIn, FindLetters, FindRepeated,
    Leaps, Reset, ResetByCache, Start, Step, Steps,
};
use Over::Nothing;
use search_script::Entry;

/// A row of calls over an NFA and a cache.
type Row = RowOf<On, Call>;

const AB: On = On(Forward(Entry::Ab), Nothing);

const AB_BACK: On = On(Reverse(Entry::Ab), Nothing);

const WORDS: On = On(Forward(Entry::Words), Nothing);

const WORDS_BACK: On = On(Reverse(Entry::Words), Nothing);

const DATE: On = On(Forward(Entry::Date), Nothing);

const A16: On = On(Forward(Entry::A16), Nothing);

const A16_BACK: On = On(Reverse(Entry::A16), Nothing);

/// Sixteen bytes.
const AS: &str = "aaaaaaaaaaaaaaaa";

/// `(?:\b|%)+`, like the entry of the catalogue, but without kept unions.
const PERCENTS: Text = "0/5,0 E1,2 LWordAscii:3 B25:3 E0,4 M0 E0,6 B00-ff:5";

#[rattlefmt::skip]
const SEARCHED: &[Row] = &[
    ("Cache::reset", AB, "", &[Find("ab"), Counts, ResetByCache, Counts], "half 0 2, 0 678 2, -, 0 335 0"),
    ("try_search_fwd_base, where two places split the character, so that the third one gives the match",
        On(Forward(Entry::Empty), Nothing), "", &[FindBased("\u{2603}", 1, 3)], "0 3 at 3"),
    ("DFA::always_match", On(Always, Nothing), "", DULL, "half 0 1, half 0 1, 0 344 2, half 0 0"),
    ("DFA::never_match", On(Never, Nothing), "", DULL, "none, none, 0 217 0, none"),
    ("paths in another order, over a look cycle whose unions are not kept, so that answers by paths need them",
        On(Planned(PERCENTS), Nothing), "", &[FindIn("z%", 1, 2)], "half 0 2"),
    // For each way in which a search ends: the bytes searched, and that no search is in progress afterwards.
    ("at a quit byte", AB, "quit=63", &[Find("abc"), Counts], "quit 63 2, 0 593 2"),
    ("at a quit byte behind the span", AB, "quit=63", &[FindIn("abc", 0, 2), Counts], "quit 63 2, 0 593 2"),
    ("at the byte behind the span", AB, "", &[FindIn("xabz", 1, 3), Counts], "half 0 3, 0 678 2"),
    ("at the dead state", AB, "", &[Find("abxyz"), Counts], "half 0 2, 0 678 3"),
    ("at the first match", WORDS, "", &[FindEarliest("@foo bar"), Counts], "half 1 1, 0 965 1"),
    ("at a quit byte", AB_BACK, "all quit=61", &[Find("zab"), Counts], "quit 61 1, 0 507 1"),
    ("at a quit byte before the span", AB_BACK, "all quit=63", &[FindIn("cab", 1, 3), Counts], "quit 63 0, 0 593 1"),
    ("at the dead state", AB_BACK, "all", &[Find("zyxab"), Counts], "half 0 3, 0 678 3"),
    ("at the first match", WORDS_BACK, "all", &[FindEarliest("@foo bar"), Counts], "half 0 7, 0 989 1"),
];

/// Searches of two spans, the second inside a character, the counts, and a search of one byte.
const DULL: &[Call] = &[
    FindIn("abc", 1, 2),
    FindIn("\u{2603}", 1, 2),
    Counts,
    Find("a"),
];

/// Reverse searches with `MatchKind::LeftmostFirst`, which no script can request: the start of the first path, and with
/// `earliest` the nearest start.
#[rattlefmt::skip]
const BACK: &[Row] = &[
    ("", On(Reverse(Entry::Crlf), Nothing), "", &[Find("a\r\n"), FindEarliest("a\r\n")], "half 0 3, half 0 3"),
    ("", WORDS_BACK, "", &[Find("@foo bar"), FindEarliest("@foo bar")], "half 0 5, half 0 7"),
    ("", WORDS_BACK, "", &[Find("a!"), FindEarliest("a!")], "half 1 0, half 1 1"),
    ("", On(Reverse(Entry::Abc), Nothing), "", &[Find("abcab"), FindEarliest("abcab")], "half 0 0, half 0 2"),
    ("", On(Reverse(Entry::Runs), Nothing), "", &[Find("12ab 34"), FindEarliest("12ab 34")], "half 1 5, half 1 6"),
    ("", On(Reverse(Entry::Date), Nothing), "", &[Find("x2018-12-24"), FindEarliest("x2018-12-24")],
        "half 0 1, half 0 1"),
    ("", On(Reverse(Entry::Bnum), Nothing), "unicode", &[Find("a 12 b"), FindEarliest("a 12 b")], "half 0 2, half 0 2"),
    ("", On(Reverse(Entry::Wordend), Nothing), "", &[Find("ab cd"), FindEarliest("ab cd")], "half 0 3, half 0 4"),
    ("", On(Reverse(Entry::Snow), Nothing), "", &[Find("a\u{2603}x"), FindEarliest("a\u{2603}x")], "half 0 0, none"),
    ("", On(Reverse(Entry::Snowx), Nothing), "", &[Find("xa\u{2603}x"), FindEarliest("xa\u{2603}x")],
        "half 0 1, half 1 5"),
    ("", On(Reverse(Entry::Empty), Nothing), "", &[Find("a\u{2603}"), FindEarliest("a\u{2603}")], "half 0 4, half 0 4"),
];

/// Any bytes, an `a`, and eleven bytes more. Its states distinguish which of the last twelve bytes were `a`.
const TWELFTH: Text =
    "0/0,0 E1,2 B00-ff:0 B61:3 B00-ff:4 B00-ff:5 B00-ff:6 B00-ff:7 B00-ff:8 B00-ff:9 B00-ff:10 B00-ff:11 B00-ff:12 B00-ff:13 B00-ff:14 M0";

/// The same, and a `c` after it, so that no state matches over letters `a` and `b`.
const TWELFTH_THEN_C: Text =
    "0/0,0 E1,2 B00-ff:0 B61:3 B00-ff:4 B00-ff:5 B00-ff:6 B00-ff:7 B00-ff:8 B00-ff:9 B00-ff:10 B00-ff:11 B00-ff:12 B00-ff:13 B00-ff:14 B63:15 M0";

/// Long haystacks and many states.
#[rattlefmt::skip]
const LONG: &[Row] = &[
    ("three thousand bytes, each with a state of its own", On(Chain("B61:1", 3000), Nothing), "",
        &[FindRepeated("a", 3000), Counts], "half 0 3000, 0 273384 3000"),
    ("a mebibyte of which nearly each byte makes a new state, over a cache of the least capacity",
        On(Planned(TWELFTH), Nothing), "all capacity=0 skip", &[FindLetters, Counts], "half 0 1048574, 62993 1468 7"),
    ("leaps come with a long search, and go with a clear", On(Planned(TWELFTH_THEN_C), Nothing), "all capacity=131072",
        &[FindRepeated("ab", 65536), Leaps, FindLetters, Leaps], "none, true, none, false"),
    ("and with a reset", DATE, "", &[FindRepeated("0 0 ", 65536), Leaps, Reset, Leaps], "none, true, -, false"),
    ("ten thousand dates, each found from the end of the one before", DATE, "",
        &[FindEach("2018-12-24 ", 10_000), Counts], "half 0 109999, 0 1745 119999"),
];

/// The memory at the start, after each byte and at the end, and whether the state is dead, quit or a match.
#[rattlefmt::skip]
const WALKED: &[Row] = &[
    ("all words", WORDS, "all quit=21", &[Start(None), Brief, Step(b'@'), Brief, Step(b'f'), Brief, Step(b'o'), Brief,
        Step(b'o'), Brief, Step(b' '), Brief, Step(b'b'), Brief, End, Brief],
        "-, 705, -, 838, -, 980m, -, 1126m, -, 1126m, -, 1262m, -, 1400, -, 1521m"),
    ("a character and its neighbours", On(Forward(Entry::Snow), Nothing), "quit=21",
        &[Start(None), Brief, Step(b'a'), Brief,
        Step(0xE2), Brief, Step(0x98), Brief, Step(0x83), Brief, Step(b'x'), Brief, End, Brief],
        "-, 970, -, 1167, -, 1364, -, 1550m, -, 1732, -, 1914, -, 2095m"),
    ("a quit byte", On(Forward(Entry::Runs), Nothing), "quit=21",
        &[Start(None), Brief, Step(b'a'), Brief, Step(b'1'), Brief, Step(b'!'), Brief,
        Step(b'b'), Brief, End, Brief], "-, 577, -, 678, -, 763m, -, 763q, -, 763q, -, 763q"),
];

/// A word boundary and nineteen bytes `a`, so that the starts differ by the look-behind byte.
const WORD: On = On(Chain("LWordAscii:1", 20), Nothing);

const TWO_SEARCHES: &[Call] = &[Counts, Find(AS), Counts, Find(AS), Counts];

/// Full caches: clears, memory, and bytes searched.
#[rattlefmt::skip]
const CLEARED: &[Row] = &[
    ("each search clears once", A16, "noclasses capacity=37281", TWO_SEARCHES,
        "0 6677 0, half 0 16, 1 19288 3, half 0 16, 2 29798 8"),
    ("each reverse search clears once", A16_BACK, "all noclasses capacity=37281", TWO_SEARCHES,
        "0 6677 0, half 0 0, 1 19288 2, half 0 0, 2 29798 7"),
    ("where a search gives up, it is still in progress", A16, "noclasses capacity=37281 limit=0", &[Find(AS), Counts],
        "gaveup 13, 0 36105 13 open"),
    ("all states fit into as much as they take", A16, "noclasses capacity=44512", &[Find(AS), Counts],
        "half 0 16, 0 44512 16"),
    ("and not into a byte less", A16, "noclasses capacity=44511", &[Find(AS), Counts], "half 0 16, 1 12982 0"),
    ("the cache has no room for a start, and may not be cleared", WORD, "noclasses capacity=37645 limit=0",
        &[Start(None), Steps("aaaaaaaaaaaaa"), Step(b'a'), Start(Some(b'a')), Counts],
        "-, -, lazy DFA cache has been cleared too many times, error computing start state because of cache inefficiency, 0 36189 0"),
];

/// The counts after a search: no clear, the memory, and the bytes searched. The first row also shows that a second
/// search adds no state, and that a reset drops all states.
#[rattlefmt::skip]
const COUNTED: &[Row] = &[
    ("", AB, "", &[Counts, Find("ab"), Counts, Find("ab"), Counts, Reset, Counts, Find("ab"), Counts],
        "0 335 0, half 0 2, 0 678 2, half 0 2, 0 678 4, -, 0 335 0, half 0 2, 0 678 2"),
    ("", On(Forward(Entry::Always), Nothing), "", &[Find(""), Counts], "half 0 0, 0 344 0"),
    ("", On(Forward(Entry::Never), Nothing), "", &[Find("abc"), Counts], "none, 0 217 0"),
    ("", DATE, "", &[Find("2018-12-24 2016-10-08"), Counts], "half 0 10, 0 1745 11"),
    ("", WORDS, "", &[Find("@foo bar"), Counts], "half 1 4, 0 1082 5"),
    ("", On(Forward(Entry::Runs), Nothing), "", &[Find("123 foobar 4567"), Counts], "half 1 3, 0 858 4"),
    ("", A16, "", &[Find(AS), Counts], "half 0 16, 0 1840 16"),
    ("", AB_BACK, "all", &[Find("ab"), Counts], "half 0 0, 0 678 1"),
    ("", AB_BACK, "all", &[Find(""), Counts], "none, 0 421 0"),
    ("", On(Reverse(Entry::Always), Nothing), "all", &[Find("abc"), Counts], "half 0 3, 0 344 1"),
    ("", On(Reverse(Entry::Never), Nothing), "all", &[Find("abc"), Counts], "none, 0 217 0"),
    ("", On(Reverse(Entry::Date), Nothing), "all", &[Find("2018-12-24 2016-10-08"), Counts], "half 0 0, 0 1850 20"),
    ("", WORDS_BACK, "all", &[Find("@foo bar"), Counts], "half 1 0, 0 1383 7"),
    ("", A16_BACK, "all", &[Find(AS), Counts], "half 0 0, 0 1840 15"),
    ("", On(Reverse(Entry::Snow), Nothing), "all", &[Find("a\u{2603}x"), Counts], "half 0 0, 0 2144 4"),
    ("", On(Reverse(Entry::Crlf), Nothing), "all", &[Find("a\r\n"), Counts], "half 0 1, 0 646 2"),
];

/// Searches with both match kinds, and the counts after them, report their rows.
#[test]
fn searches_report_their_rows(rt: HostRuntime) {
    reports_all::<Bench>(&rt, SEARCHED);
    reports_all::<Bench>(&rt, BACK);
    reports_all::<Bench>(&rt, CLEARED);
    reports_all::<Bench>(&rt, COUNTED);
}

/// Searches of long haystacks report their rows.
#[test]
fn long_searches_report_their_rows(rt: HostRuntime) {
    reports_all::<Bench>(&rt, LONG);
}

/// Single steps, and the memory after each, report their rows.
#[test]
fn steps_report_their_rows(rt: HostRuntime) {
    reports_all::<Bench>(&rt, WALKED);
}
