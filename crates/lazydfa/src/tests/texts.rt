//! The texts of errors, and what `Debug` prints.

use super::plans::{pattern_id, plan};
use super::reported::prints;
use super::{Host, Text, check, same_of};
use regex_automata::hybrid::regex::RegexBuildError;
use regex_automata::hybrid::{BuildError, CacheError, SearchError, StartError, StepError};
use regex_automata::nfa::thompson;
use regex_automata::nfa::thompson::{NfaError, ReverseError};
use regex_automata::tokens::TokenError;
use regex_automata::util::byte_set::ByteSet;
use regex_automata::util::search::{Anchored, MatchError, PatternSet, PatternSetInsertError};
use search_script::RunError;
use std::fmt::Display;

/// The texts that no reply of a script shows.
#[rattlefmt::skip]
const BUILDS: &[(BuildError, Text)] = &[
    (BuildError::InsufficientStateIDCapacity { attempted: 134217728 },
        "failed to create LazyStateID from 134217728, which exceeds 134217727"),
    (BuildError::OutOfMemory, "out of memory"),
];

/// Why there is no start.
#[rattlefmt::skip]
const STARTS: [(StartError, Text); 4] = [
    (StartError::Cache { err: CacheError }, "error computing start state because of cache inefficiency"),
    (StartError::OutOfMemory, "out of memory"),
    (StartError::UnsupportedAnchored { mode: Anchored::No },
        "error computing start state because unanchored searches are not supported or enabled"),
    (StartError::UnsupportedAnchored { mode: Anchored::Yes },
        "error computing start state because anchored searches are not supported or enabled"),
];

/// Look-behind bytes for which a start fails, and how its text shows them: escaped as in a string literal.
#[rattlefmt::skip]
const QUITS: &[(u8, Text)] = &[
    (0x20, "' '"), (0x09, "\\t"), (0x0A, "\\n"), (0x0D, "\\r"), (0x27, "\\'"), (0x22, "\\\""), (0x5C, "\\\\"),
    (0x41, "A"), (0x21, "!"), (0x7E, "~"), (0x7F, "\\x7F"), (0x00, "\\x00"), (0x0B, "\\x0B"), (0x1B, "\\x1B"),
    (0x80, "\\x80"), (0xB2, "\\xB2"), (0xCE, "\\xCE"), (0xFF, "\\xFF"),
];

const CLEARED: Text = "lazy DFA cache has been cleared too many times";

const STEPS: &[(StepError, Text)] = &[
    (StepError::Cache(CacheError), CLEARED),
    (StepError::OutOfMemory, "out of memory"),
];

#[rattlefmt::skip]
const SEARCHES: [(SearchError, Text); 2] = [
    (SearchError::OutOfMemory, "out of memory"),
    (SearchError::NotAPair, "reverse DFA finds no start for the match of the forward DFA"),
];

const TOKENS: [(TokenError, Text); 2] = [
    (TokenError::NoToken(7), "no token at 7"),
    (
        TokenError::Search(SearchError::OutOfMemory),
        "out of memory",
    ),
];

#[rattlefmt::skip]
const NFAS: &[(NfaError, Text)] = &[
    (NfaError::TooLarge, "too many states, patterns or alternates"),
    (NfaError::OutOfMemory, "out of memory"),
];

#[rattlefmt::skip]
const NFA_BUILDS: &[(thompson::BuildError, Text)] = &[
    (thompson::BuildError::NoPattern, "no pattern was started"),
    (thompson::BuildError::UnfinishedPattern, "a pattern was started and not finished"),
    (thompson::BuildError::StateRange, "the state to be patched is out of range"),
    (thompson::BuildError::SparsePatch, "a sparse state cannot be patched"),
    (thompson::BuildError::TooLarge, "too many states, patterns or groups"),
    (thompson::BuildError::NFA(NfaError::Ranges), "ranges of bytes are not in order"),
    (thompson::BuildError::OutOfMemory, "out of memory"),
];

#[rattlefmt::skip]
const REVERSES: &[(ReverseError, Text)] = &[
    (ReverseError::Starts, "only some of the starts match the empty string, so a reversed NFA would match differently"),
    (ReverseError::TooLarge, "the reversed NFA would be too large"),
    (ReverseError::OutOfMemory, "out of memory"),
];

#[rattlefmt::skip]
const REGEXES: &[(RegexBuildError, Text)] = &[
    (RegexBuildError::TooLarge, "the reversed NFA would be too large"),
    (RegexBuildError::OutOfMemory, "out of memory"),
];

const RUNS: &[(RunError, Text)] = &[
    (RunError::BadLine(17), "line 17: bad line"),
    (RunError::Failed, "input or output failed"),
    (RunError::OutOfMemory, "out of memory"),
];

/// The texts of the errors of DFAs, tokens and scripts.
#[test]
fn prints_errors(rt: HostRuntime) {
    print_all(&rt, BUILDS);
    print_all(&rt, &STARTS);
    print_quits(&rt);
    print_places(&rt);
    print_all(&rt, STEPS);
    print_all(&rt, &[(CacheError, CLEARED)]);
    print_all(&rt, &SEARCHES);
    print_all(&rt, &TOKENS);
    print_all(&rt, RUNS);
}

/// The texts of the errors of NFAs, regexes and sets.
#[test]
fn prints_errors_of_nfas(rt: HostRuntime) {
    print_all(&rt, NFAS);
    print_all(&rt, NFA_BUILDS);
    print_all(&rt, REVERSES);
    print_all(&rt, REGEXES);
    print_misfit(&rt);
}

/// Compares the texts of starts that fail because of the look-behind byte.
fn print_quits(rt: &impl Host) {
    for (byte, shown) in QUITS.iter().copied() {
        let printed = StartError::Quit { byte }
            .to_string(rt.alloc())
            .expect(rt, "memory");
        let text = printed.as_str();
        let text = text.strip_prefix("error computing start state because the look-behind byte ");
        let text = text.unwrap_or("").strip_suffix(" triggered a quit state");
        same_of(rt, &text.unwrap_or(""), &shown, &"a quit byte");
    }
}

/// Compares the text of the error for a pattern that does not fit into a set.
fn print_misfit(rt: &impl Host) {
    match misfit(rt) {
        Err(error) => print(rt, &error, MISFIT),
        Ok(_) => check(rt, false),
    }
}

const MISFIT: Text = "failed to insert pattern 5 into a set of capacity 3";

/// Returns the error for a pattern that is not below a set's capacity. Only a set can make it.
fn misfit(rt: &impl Host) -> Result<bool, PatternSetInsertError> {
    let mut set = PatternSet::new(rt.alloc(), 3).expect(rt, "memory");
    set.try_insert(pattern_id(5))
}

/// A set of bytes is printed as its bytes.
#[test]
fn prints_sets_of_bytes(rt: HostRuntime) {
    let none = ByteSet::empty();
    same_of(&rt, &prints(rt.alloc(), &none, "{}"), &true, &"no byte");
    let some = none.with(255, true).with(0, true).with(b'a', true);
    same_of(
        &rt,
        &prints(rt.alloc(), &some, "{0, 97, 255}"),
        &true,
        &"three bytes",
    );
}

const BYTE: Text =
    "NFA { states: [ByteRange { lo: 97, hi: 97, next: StateID { id: 1 } }, Match { pattern: PatternID { id: 0 } }], start_anchored: StateID { id: 0 }, start_unanchored: StateID { id: 0 }, start_pattern: [StateID { id: 0 }], .. }";

/// An NFA is printed as its states and starts.
#[test]
fn prints_an_nfa(rt: HostRuntime) {
    let nfa = plan(&rt, "0/0,0 B61:1 M0");
    check(&rt, prints(rt.alloc(), &nfa, BYTE));
}

/// Compares the texts of errors that name a byte, an offset or a mode.
fn print_places(rt: &impl Host) {
    let quit = SearchError::Match(MatchError::quit(0x78, 4));
    let text = "quit search after observing byte 0x78 at offset 4";
    print(rt, &TokenError::Search(quit), text);
    let gave_up = SearchError::Match(MatchError::gave_up(24));
    print(
        rt,
        &TokenError::Search(gave_up),
        "gave up searching at offset 24",
    );
    let unsupported = SearchError::Match(MatchError::unsupported_anchored(Anchored::Yes));
    let text = "anchored searches are not supported or enabled";
    print(rt, &unsupported, text);
    let mode = Anchored::Pattern(pattern_id(5));
    let text =
        "error computing start state because anchored searches for a specific pattern (5) are not supported or enabled";
    print(rt, &StartError::UnsupportedAnchored { mode }, text);
}

/// Compares the text of each error.
fn print_all<E: Display>(rt: &impl Host, rows: &[(E, Text)]) {
    for row in rows {
        print(rt, &row.0, row.1);
    }
}

/// Compares the text of an error.
fn print<E: Display>(rt: &impl Host, error: &E, text: &str) {
    let printed = error.to_string(rt.alloc()).expect(rt, "memory");
    same_of(rt, &printed.as_str(), &text, &"an error");
}
