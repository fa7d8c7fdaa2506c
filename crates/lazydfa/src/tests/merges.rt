//! Unions are merged and folded, which no contract promises.

use super::plans::plan;
use super::{Host, Text, same_of};
use regex_automata::nfa::thompson::{NFA, State, merged, reversed};
use std::fmt::Write;

/// NFAs in the form of a script's lines, before and after their unions are merged.
const MERGES: &[(Text, Text)] = &[
    // the words aa, ab, .. ah: their beginnings become one state, and so do their ends
    (
        "0/0,0 U1,2,3,4,5,6,7,8 B61:9 B61:10 B61:11 B61:12 B61:13 B61:14 B61:15 B61:16 \
         B61:17 B62:17 B63:17 B64:17 B65:17 B66:17 B67:17 B68:17 M0",
        "0/0,0 S61:18 B61:9 B61:10 B61:11 B61:12 B61:13 B61:14 B61:15 B61:16 \
         B61:17 B62:17 B63:17 B64:17 B65:17 B66:17 B67:17 B68:17 M0 S61-68:17",
    ),
    // an alternate that reads nothing stays between the words before it and those after it
    (
        "0/0,0 U1,2,3,4,5,6,7,8 B61:9 B61:10 B61:11 C17 B61:13 B61:14 B61:15 B61:16 \
         B61:17 B62:17 B63:17 B64:17 B65:17 B66:17 B67:17 B68:17 M0",
        "0/0,0 U18,4,19 B61:9 B61:10 B61:11 C17 B61:13 B61:14 B61:15 B61:16 \
         B61:17 B62:17 B63:17 B64:17 B65:17 B66:17 B67:17 B68:17 M0 S61:20 S61:21 S61-63:17 S65-68:17",
    ),
    // seven words are not merged
    (
        "0/0,0 U1,2,3,4,5,6,7 B61:8 B61:8 B61:8 B61:8 B61:8 B61:8 B61:8 M0",
        "0/0,0 U1,2,3,4,5,6,7 B61:8 B61:8 B61:8 B61:8 B61:8 B61:8 B61:8 M0",
    ),
    // of these 26 states as many targets are listed as may be: 8, 8 times 256, 8 times 256 and 8 times 25
    (
        "0/0,0 U1,2,3,4,5,6,7,8 B00-ff:9 B00-ff:10 B00-ff:11 B00-ff:12 B00-ff:13 \
         B00-ff:14 B00-ff:15 B00-ff:16 B00-ff:17 B00-ff:18 B00-ff:19 B00-ff:20 B00-ff:21 \
         B00-ff:22 B00-ff:23 B00-ff:24 B00-18:25 B00-18:25 B00-18:25 B00-18:25 B00-18:25 \
         B00-18:25 B00-18:25 B00-18:25 M0",
        "0/0,0 S00-ff:26 B00-ff:9 B00-ff:10 B00-ff:11 B00-ff:12 B00-ff:13 B00-ff:14 \
         B00-ff:15 B00-ff:16 B00-ff:17 B00-ff:18 B00-ff:19 B00-ff:20 B00-ff:21 B00-ff:22 \
         B00-ff:23 B00-ff:24 B00-18:25 B00-18:25 B00-18:25 B00-18:25 B00-18:25 B00-18:25 \
         B00-18:25 B00-18:25 M0 S00-ff:27 S00-18:28 U25,25,25,25,25,25,25,25",
    ),
    // one more is too many
    (
        "0/0,0 U1,2,3,4,5,6,7,8 B00-ff:9 B00-ff:10 B00-ff:11 B00-ff:12 B00-ff:13 \
         B00-ff:14 B00-ff:15 B00-ff:16 B00-ff:17 B00-ff:18 B00-ff:19 B00-ff:20 B00-ff:21 \
         B00-ff:22 B00-ff:23 B00-ff:24 B00-18:25 B00-18:25 B00-18:25 B00-18:25 B00-18:25 \
         B00-18:25 B00-18:25 B00-19:25 M0",
        "0/0,0 U1,2,3,4,5,6,7,8 B00-ff:9 B00-ff:10 B00-ff:11 B00-ff:12 B00-ff:13 \
         B00-ff:14 B00-ff:15 B00-ff:16 B00-ff:17 B00-ff:18 B00-ff:19 B00-ff:20 B00-ff:21 \
         B00-ff:22 B00-ff:23 B00-ff:24 B00-18:25 B00-18:25 B00-18:25 B00-18:25 B00-18:25 \
         B00-18:25 B00-18:25 B00-19:25 M0",
    ),
    // those of states that lead back to themselves would be listed without end
    (
        "0/0,0 U1,2,3,4,5,6,7,8 B61:1 B61:2 B61:3 B61:4 B61:5 B61:6 B61:7 S61:8,62:9 M0",
        "0/0,0 U1,2,3,4,5,6,7,8 B61:1 B61:2 B61:3 B61:4 B61:5 B61:6 B61:7 S61:8,62:9 M0",
    ),
];

/// Returns the NFA as `Debug` prints it.
fn printed(rt: &impl Host, nfa: &NFA) -> String {
    let mut text = String::new(rt.alloc());
    write!(text, "{nfa:?}").expect(rt, "memory");
    text
}

/// The alternates of wide unions are merged into sparse states.
#[test]
fn merges_wide_unions(rt: HostRuntime) {
    for (before, after) in MERGES {
        let merged = merged(&plan(&rt, before)).expect(&rt, "memory");
        same_of(
            &rt,
            &printed(&rt, &merged),
            &printed(&rt, &plan(&rt, after)),
            before,
        );
    }
}

/// Returns the NFA of pairs of bytes: `count` first bytes from 40 on, each before a byte of a range of its own. The first
/// range has the bytes from `lo` to `hi`, and each further one `less` bytes less at both ends.
fn pairs(rt: &impl Host, count: usize, lo: usize, hi: usize, less: usize) -> NFA {
    let mut text = String::new(rt.alloc());
    write!(text, "0/0,0 S").expect(rt, "memory");
    for number in 0..count {
        let comma = if number == 0 { "" } else { "," };
        let byte = number.saturating_add(0x40);
        let state = number.saturating_add(1);
        write!(text, "{comma}{byte:02X}:{state}").expect(rt, "memory");
    }
    for number in 0..count {
        let last = count.saturating_add(1);
        let fewer = number.saturating_mul(less);
        let (lo, hi) = (lo.saturating_add(fewer), hi.saturating_sub(fewer));
        write!(text, " B{lo:02X}-{hi:02X}:{last}").expect(rt, "memory");
    }
    write!(text, " M0").expect(rt, "memory");
    plan(rt, text.as_str())
}

/// Returns how many sparse states the reversed NFA has. An NFA that is reversed edge by edge has none.
fn folded(rt: &impl Host, nfa: &NFA) -> usize {
    let reversed = reversed(nfa).expect(rt, "a reversed NFA");
    let mut count = 0usize;
    for state in reversed.states() {
        if let State::Sparse(_) = state {
            count = count.saturating_add(1);
        }
    }
    count
}

/// A union of 64 ranges is folded in a reversed NFA, and one of 63 is not.
#[test]
fn folds_wide_unions(rt: HostRuntime) {
    same_of(&rt, &folded(&rt, &pairs(&rt, 63, 0x80, 0xBF, 0)), &0, &"63");
    same_of(&rt, &folded(&rt, &pairs(&rt, 64, 0x80, 0xBF, 0)), &1, &"64");
}

/// A union is not folded if that takes more states than the ranges had, or too much room for a closure.
#[test]
fn leaves_costly_unions(rt: HostRuntime) {
    same_of(
        &rt,
        &folded(&rt, &pairs(&rt, 64, 1, 254, 1)),
        &0,
        &"64 ranges of many bytes",
    );
    same_of(
        &rt,
        &folded(&rt, &pairs(&rt, 64, 1, 254, 0)),
        &0,
        &"64 times the same 14 nodes",
    );
}
