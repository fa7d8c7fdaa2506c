//! A long script whose allocations fail in turn. Each test may use up all memory.
//!
//! By the contract of `replay`, each reply is right or an error that its call may return. These tests show that
//! requests run out of memory one by one, and that the others are answered.

use super::regex_bench::Pair;
use super::reports::{Automaton, Turns};
use super::{Host, Text, check, same_of};
use regex_automata::hybrid::regex::Regex;
use replay::{Reply, Request, replay};
use search_script::{Entry, Line, Script};
use std::fmt::Write;

/// `[0-9]{22}`. Twelve digits need more rows than a new cache has room for, and twenty-two need more than these.
const DIGITS: Pair = Pair::Turned(Automaton::Planned(
    "0/23,0 B30-39:1 B30-39:2 B30-39:3 B30-39:4 B30-39:5 B30-39:6 B30-39:7 B30-39:8 B30-39:9 B30-39:10 B30-39:11 B30-39:12 B30-39:13 B30-39:14 B30-39:15 B30-39:16 B30-39:17 B30-39:18 B30-39:19 B30-39:20 B30-39:21 B30-39:22 M0 E0,24 B00-ff:23",
));

/// How many requests come before the one in the middle.
const MIDDLE: usize = 20;

/// Requests of every kind. After them, the cache belongs to regex 0, and has the transitions of `20` in both
/// directions.
#[rattlefmt::skip]
const BEFORE: &[Text] = &[
    "walk fwd 30303030303030303030303030303030303030303030", "walk fwd 303030303030303030303030",
    "walk rev 303030303030303030303030", "fwd 303030303030303030303030", "rev 303030303030303030303030",
    "find 303030303030303030303030", "is 303030303030303030303030", "iter 303030303030303030303030",
    "which 2 303030303030303030303030", "step 1", "step 2", "reset 1", "fwd 303030303030303030303030", "iter 6131",
    "step 1", "walk fwd 6131", "step 3", "reset 0", "fwd 3230", "rev 3230",
];

/// Requests that each need the most memory of all when they are in the middle.
#[rattlefmt::skip]
const NEEDS: &[Text] = &[
    "fwd 30303030303030303030303030303030303030303030", "rev 30303030303030303030303030303030303030303030",
    "find 30303030303030303030303030303030303030303030", "is 30303030303030303030303030303030303030303030",
    "iter 30303030303030303030303030303030303030303030", "which 2 30303030303030303030303030303030303030303030",
    "step 0",
];

/// Requests that need no more memory than those before the middle.
#[rattlefmt::skip]
const BEHIND: &[Text] = &[
    "fwd 303030303030303030303030", "find 3230", "iter 3230", "which 2 3230", "step 2", "reset 1", "iter 6131",
    "rev 6131", "step 3", "reset 0", "is 3230",
];

/// Returns the requests of the script that has this one in its middle.
fn rows_around(middle: Text) -> [Text; 32] {
    let mut rows = [middle; 32];
    put_rows(&mut rows, 0, BEFORE);
    put_rows(&mut rows, MIDDLE + 1, BEHIND);
    rows
}

/// Writes rows from the index `first` on, as far as there is room.
fn put_rows(rows: &mut [Text], first: usize, put: &[Text]) {
    for (number, row) in put.iter().enumerate() {
        if let Some(place) = rows.get_mut(first.saturating_add(number)) {
            *place = *row;
        }
    }
}

/// Returns the script of these requests.
fn script_of(rt: &impl Host, rows: &[Text]) -> Script {
    let mut text = String::new(rt.alloc());
    for row in rows {
        writeln!(text, "{row}").expect(rt, "memory");
    }
    Script::parse(rt.alloc(), text.as_bytes()).expect(rt, "a script")
}

/// The regexes, and the requests of a script.
type Asked<'a> = (&'a [Regex], &'a [Request<'a>]);

/// Whether a request ran out of memory, even if only after a part of its reply.
fn is_refused(rt: &impl Host, reply: &Reply) -> bool {
    let text = format!(in rt.alloc(); "{}", Line(reply)).expect(rt, "memory");
    text.as_str().ends_with("memory")
}

/// What ran out of memory in the turns of a script: the list of the replies, the request in the middle, and only that
/// request.
#[derive(Clone, Copy)]
struct Seen {
    script: bool,
    middle: bool,
    alone: bool,
}

impl Seen {
    /// Records the requests of one turn that ran out of memory, and returns how many there were.
    fn note(&mut self, rt: &impl Host, replies: &[Reply]) -> usize {
        let mut count = 0usize;
        let mut is_middle = false;
        for (number, reply) in replies.iter().enumerate() {
            if is_refused(rt, reply) {
                count = count.saturating_add(1);
                is_middle = is_middle || number == MIDDLE;
            }
        }
        self.middle = self.middle || is_middle;
        self.alone = self.alone || is_middle && count == 1;
        count
    }
}

/// Takes one turn. Returns how many requests ran out of memory, or none if the list of the replies could not be
/// allocated.
fn replay_short(
    rt: &impl Host,
    asked: Asked<'_>,
    turns: &mut Turns,
    seen: &mut Seen,
) -> Option<usize> {
    turns.lend(rt);
    let replies = replay(rt.alloc(), asked.0, asked.1);
    turns.release();
    match replies {
        Ok(replies) => Some(seen.note(rt, replies.as_slice())),
        Err(_) => None,
    }
}

/// Replays in turns, each with `step` bytes more than the previous one, until nothing runs out of memory.
fn refuse_in_turn(rt: &impl Host, asked: Asked<'_>, turns: &mut Turns, step: usize) -> Seen {
    let mut seen = Seen {
        script: false,
        middle: false,
        alone: false,
    };
    for turn in 1..4096usize {
        turns.lend_from(step.saturating_mul(turn));
        match replay_short(rt, asked, turns, &mut seen) {
            Some(0) => return seen,
            Some(_) => {}
            None => seen.script = true,
        }
    }
    check(rt, false);
    seen
}

/// Replays in turns the script that has this request in its middle.
fn refuse(rt: &impl Host, regexes: &[Regex], middle: Text, turns: &mut Turns, step: usize) -> Seen {
    turns.release();
    let script = script_of(rt, &rows_around(middle));
    let requests = script.requests(rt.alloc()).expect(rt, "memory");
    refuse_in_turn(rt, (regexes, requests.as_slice()), turns, step)
}

/// Replays around each request of `NEEDS`, and returns how many of these are the only one to run out of memory in some
/// turn. Each has to run out of memory in some turn, and so does the list of the replies.
fn refuse_each(rt: &impl Host, options: &str, step: usize) -> usize {
    let mut regexes = Vec::new(rt.alloc());
    for pair in [DIGITS, Pair::Of(Entry::Runs)] {
        regexes.push(pair.regex(rt, options)).expect(rt, "memory");
    }
    count_alone(rt, regexes.as_slice(), step)
}

/// Returns how many requests of `NEEDS` are the only one to run out of memory in some turn.
fn count_alone(rt: &impl Host, regexes: &[Regex], step: usize) -> usize {
    let mut turns = Turns::new(rt);
    let mut alone = 0usize;
    for middle in NEEDS.iter().copied() {
        let seen = refuse(rt, regexes, middle, &mut turns, step);
        same_of(rt, &(seen.script, seen.middle), &(true, true), &middle);
        if seen.alone {
            alone = alone.saturating_add(1);
        }
    }
    alone
}

/// Rows are large, so in some turns only the growth of one table fails, and all requests after it are answered.
#[test]
fn replays_around_a_refused_request(rt: HostRuntime) {
    let alone = refuse_each(&rt, "all noclasses", 512);
    check(&rt, alone >= 3);
}

/// Rows are small, and the memory that is lent grows by thirty-two bytes per turn, the least that an allocation takes.
#[test]
fn replays_in_ever_more_memory(rt: HostRuntime) {
    refuse_each(&rt, "all", 32);
}
