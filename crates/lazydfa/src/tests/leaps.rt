//! Leaps whose allocations fail. The test uses up all memory.

use super::bench::repeated;
use super::reports::{Automaton, Turns};
use super::{Host, check, same_of};
use regex_automata::hybrid::dfa::DFA;
use regex_automata::util::search::Input;
use search_script::Entry;

/// A piece whose search caches all transitions that a search of the repeated piece uses.
const PIECE: &str = "0 0 ";

/// Repeated this many times, the piece is long enough for leaps.
const TIMES: usize = 1 << 16;

/// Searches a text in the memory of a turn, over a cache that has all transitions it uses, and returns the bytes of the
/// leaps that were built. The result and the accounted bytes have to be the same in any memory.
fn leaps_in_turn(rt: &impl Host, dfa: &DFA, text: &[u8], turns: &mut Turns) -> usize {
    let mut cache = dfa.create_cache().expect(rt, "a cache");
    let short = dfa.try_search_fwd(&mut cache, &Input::new(PIECE.as_bytes()));
    let usage = cache.memory_usage();
    turns.lend(rt);
    let long = dfa.try_search_fwd(&mut cache, &Input::new(text));
    let leaps = cache.leap_usage();
    turns.release();
    check(rt, short == Ok(None) && long == Ok(None));
    same_of(rt, &cache.memory_usage(), &usage, &"accounted bytes");
    leaps
}

/// Takes turns, the first one without memory, until leaps are built. They have to be built in less than twice the
/// memory that they take.
fn leaps_at_last(rt: &impl Host, dfa: &DFA, text: &[u8], turns: &mut Turns) {
    same_of(
        rt,
        &leaps_in_turn(rt, dfa, text, turns),
        &0,
        &"leaps in no memory",
    );
    for _ in 0..16384u32 {
        turns.lend_more();
        let leaps = leaps_in_turn(rt, dfa, text, turns);
        if leaps > 0 {
            return check(rt, turns.lent() < leaps.saturating_mul(2));
        }
    }
    check(rt, false);
}

/// A search answers the same whichever allocation of its leaps fails, and builds them in less than twice the memory
/// that they take.
#[test]
fn answers_after_each_refused_leap(rt: HostRuntime) {
    let dfa = Automaton::Forward(Entry::Date)
        .build(&rt, "")
        .expect(&rt, "a DFA");
    let text = repeated(rt.alloc(), PIECE, TIMES).expect(&rt, "memory");
    let mut turns = Turns::new(&rt);
    turns.lend_from(0);
    turns.release();
    leaps_at_last(&rt, &dfa, text.as_slice(), &mut turns);
}
