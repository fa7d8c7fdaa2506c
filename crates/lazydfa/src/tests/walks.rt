//! Overlapping walks: worked rows that no script can show.

use super::bench::{Bench, Call, On, Over};
use super::reports::{Automaton, RowOf, reports_all};
use Automaton::{Forward, Reverse};
use Call::{Counts, Find, Match, Next, Prints, Reset, Switch};
use Over::Text;
use search_script::Entry;

/// A row of calls over a walk.
type Row = RowOf<On, Call>;

/// Sixteen bytes, and nineteen.
const AS: &str = "aaaaaaaaaaaaaaaa";

const MORE: &str = "aaaaaaaaaaaaaaaaaaa";

/// The empty string, or nineteen bytes `a`.
const FORK: Automaton = Automaton::Chain("E1,20", 20);

const OVER_FORK: On = On(FORK, Text(MORE));

const OVER_AS: On = On(Forward(Entry::A16), Text(AS));

const OVER_AA: On = On(Forward(Entry::Aa), Text("aa"));

/// Reverse walks with `MatchKind::LeftmostFirst`, which no script can request.
#[rattlefmt::skip]
const BACK: &[Row] = &[
    ("the chosen path alone", On(Reverse(Entry::Aa), Text("aa")), "", &[Next, Next, Next], "half 0 1, none, none"),
    ("", On(Reverse(Entry::Words), Text("@foo bar")), "", &[Next, Next, Next, Next],
        "half 0 7, half 0 6, half 0 5, none"),
    ("", On(Reverse(Entry::Words), Text("a!")), "", &[Next, Next, Next], "half 1 1, half 1 0, none"),
    ("", On(Reverse(Entry::Abc), Text("abcab")), "", &[Next, Next, Next], "half 0 2, half 0 0, none"),
    ("", On(Reverse(Entry::Runs), Text("12ab 34")), "", &[Next, Next, Next], "half 1 6, half 1 5, none"),
    ("", On(Reverse(Entry::Date), Text("x2018-12-24")), "", &[Next, Next], "half 0 1, none"),
    ("", On(Reverse(Entry::Bnum), Text("a 12 b")), "unicode", &[Next, Next], "half 0 2, none"),
    ("", On(Reverse(Entry::Wordend), Text("ab cd")), "", &[Next, Next, Next], "half 0 4, half 0 3, none"),
    ("", On(Reverse(Entry::Snow), Text("a\u{2603}x")), "", &[Next, Next], "half 0 0, none"),
    ("", On(Reverse(Entry::Snowx), Text("xa\u{2603}x")), "", &[Next, Next, Next], "half 1 5, half 0 1, none"),
    ("", On(Reverse(Entry::Empty), Text("a\u{2603}")), "", &[Next, Next], "half 0 4, none"),
];

/// A walk does not belong to a cache: it can continue over any cache of its DFA, whatever that was used for.
#[rattlefmt::skip]
const CACHES: &[Row] = &[
    ("at the least capacity", OVER_AA, "all capacity=1895", &[Next, Next, Next, Next, Counts, Next],
        "half 0 1, half 1 1, half 0 2, half 1 2, 0 724 1, none"),
    ("and one clear would be free there", OVER_AA, "all capacity=1895 limit=1", &[Next, Next, Next, Next, Counts],
        "half 0 1, half 1 1, half 0 2, half 1 2, 0 724 1"),
    ("with a search before each call", OVER_AA, "all capacity=1895", &[Find("ba"), Next, Find("ba"), Next, Find("ba"),
        Next, Find("ba"), Next, Counts, Find("ba"), Next],
        "half 0 2, half 0 1, half 0 2, half 1 1, half 0 2, half 0 2, half 0 2, half 1 2, 0 724 9, half 0 2, none"),
    ("with a reset between the calls", OVER_AA, "all", &[Next, Reset, Next, Reset, Next, Reset, Next, Reset, Counts,
        Next, Next], "half 0 1, -, half 1 1, -, half 0 2, -, half 1 2, -, 0 383 0, none, none"),
    ("in reverse", On(Reverse(Entry::Words), Text("ab")), "all", &[Next, Switch, Next, Reset, Find("b"), Next,
        Switch, Next, Next], "half 0 1, -, half 1 1, -, half 0 0, half 0 0, -, half 1 0, none"),
    ("with a reset where the walk stands at a place that it has told whole", OVER_AA, "all", &[Next, Next, Reset,
        Counts, Next, Next, Counts, Next], "half 0 1, half 1 1, -, 0 383 0, half 0 2, half 1 2, 0 554 0, none"),
];

/// Walks over full caches.
#[rattlefmt::skip]
const CLEARED: &[Row] = &[
    ("a clear inside a call", OVER_AS, "all noclasses capacity=37281", &[Next, Counts, Next, Counts, Next],
        "half 0 16, 1 19288 3, none, 1 19288 3, none"),
    ("in reverse", On(Reverse(Entry::A16), Text(AS)), "all noclasses capacity=37281", &[Next, Counts, Next, Counts,
        Next], "half 0 0, 1 19288 2, none, 1 19288 2, none"),
    ("no clear is free, so the call gives up, and so does the next", OVER_AS, "all noclasses capacity=37281 limit=0",
        &[Next, Match, Counts, Next, Match, Counts],
        "gaveup 13, none, 0 36105 13 open, gaveup 13, none, 0 36105 26 open"),
    ("in reverse", On(Reverse(Entry::A16), Text(AS)), "all noclasses capacity=37281 limit=0", &[Next, Match,
        Counts, Next, Match, Counts], "gaveup 2, none, 0 36105 13 open, gaveup 2, none, 0 36105 26 open"),
    ("the pair that a call owes is told over another cache", OVER_AS, "all noclasses capacity=37281 limit=1",
        &[Find(AS), Next, Match, Next, Counts, Switch, Next, Match, Counts, Next],
        "half 0 16, gaveup 8, none, gaveup 8, 1 36104 19 open, -, half 0 16, half 0 16, 1 19288 3, none"),
    ("and over the same one after a reset", OVER_AS, "all noclasses capacity=37281 limit=1", &[Find(AS), Next, Match,
        Next, Counts, Reset, Next, Match, Counts, Next],
        "half 0 16, gaveup 8, none, gaveup 8, 1 36104 19 open, -, half 0 16, half 0 16, 1 19288 3, none"),
    ("a clear between two calls forgets the walk's state, and it is put back", OVER_FORK,
        "all noclasses capacity=37649", &[Next, Counts, Find(MORE), Counts, Next, Counts, Next],
        "half 0 0, 0 10978 0, half 0 19, 1 25687 6, half 0 19, 3 17279 2, none"),
    ("it can't be put back, and the call owes its pair", OVER_FORK, "all noclasses capacity=37649 limit=2", &[Next,
        Find(MORE), Find(MORE), Counts, Next, Match, Next, Counts, Switch, Next, Counts, Next],
        "half 0 0, half 0 19, gaveup 17, 2 36198 12 open, gaveup 1, none, gaveup 1, 2 36198 12 open, -, half 0 19, 1 21478 5, none"),
    ("that pair after a reset", OVER_FORK, "all noclasses capacity=37649 limit=2", &[Next, Find(MORE), Find(MORE),
        Counts, Next, Match, Reset, Next, Counts, Next],
        "half 0 0, half 0 19, gaveup 17, 2 36198 12 open, gaveup 1, none, -, half 0 19, 1 21478 5, none"),
    ("a walk that has ended needs nothing", On(FORK, Text("")), "all noclasses capacity=37649 limit=2", &[Next,
        Next, Find(MORE), Find(MORE), Find(MORE), Next, Match, Counts],
        "half 0 0, none, half 0 19, gaveup 16, gaveup 0, none, none, 2 36198 12 open"),
];

/// What `Debug` prints for a walk: the match of its last call.
#[rattlefmt::skip]
const PRINTED: &[Row] = &[
    ("before the first match", OVER_AA, "all", &[Prints("OverlappingState { match: None, .. }")], "true"),
    ("after the third, and after the end", OVER_AA, "all", &[Next, Next, Next,
        Prints("OverlappingState { match: Some(HalfMatch { pattern: PatternID { id: 0 }, offset: 2 }), .. }"), Next,
        Prints("OverlappingState { match: Some(HalfMatch { pattern: PatternID { id: 1 }, offset: 2 }), .. }"), Next,
        Prints("OverlappingState { match: None, .. }")],
        "half 0 1, half 1 1, half 0 2, true, half 1 2, true, none, true"),
];

/// Walks over one cache and over several report their rows.
#[test]
fn walks_report_their_rows(rt: HostRuntime) {
    reports_all::<Bench>(&rt, BACK);
    reports_all::<Bench>(&rt, CACHES);
    reports_all::<Bench>(&rt, CLEARED);
    reports_all::<Bench>(&rt, PRINTED);
}
