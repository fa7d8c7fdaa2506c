//! The bytes with which matches can begin, and a search for the first of them.
ghost use Rattle.std.specs.Prelude.{◌≡◌, ◌<◌, ◌≤◌, ℕ, Bool, List, IfOk, IfSome, IsTrue, is_some, length, true};
ghost use Rattle.automata_base.specs.Lists.{In};
ghost use Rattle.automata_base.specs.Nfas.Engines.{engine_of};
ghost use Rattle.automata_base.specs.Haystacks.Looks.{within};
ghost use Rattle.automata_base.specs.Nfas.Nfa.{takes_at, takes_in};
ghost use Rattle.automata_base.specs.Nfas.Nodes.{node_of, ranges_of};
ghost use Rattle.automata_base.specs.Retraced.Reach.{node_in};
ghost use Rattle.automata_base.specs.declared.util.search.MatchKind.{MatchKind};
ghost use Rattle.prefilters.specs.FirstBytes.{BeginsAtFirstByte, FindsFirstByte, ReadsFirstBytes};
ghost use Rattle.prefilters.specs.FirstBytes.{count_first_bytes};
ghost use Rattle.prefilters.specs.Bytes.{in_table};

use crate::bytes::add_range;
use automata_base::nfa::thompson::closure::close;
use automata_base::nfa::thompson::reach::{is_match, set_for};
use automata_base::nfa::thompson::reading::target;
use automata_base::nfa::thompson::{NFA, State, Transition};
use automata_base::util::look::LookSet;
use automata_base::util::primitives::StateID;
use std::alloc::AllocError;
use std::marker::Model;

/// The number of bytes after which `FirstBytes::find` gives up.
const NEAR: usize = 32;

/// The bits of every look.
const ALL_LOOKS: u32 = 0x3FFFF;

/// The bytes with which matches of an NFA can begin. A contract sees the table that says for each byte whether it is one
/// of them.
#[derive(Drop)]
pub struct FirstBytes {
    table: [bool; 256],
}

impl Model for FirstBytes {
    ghost Value = { List Bool };

    ghost view = { λ bytes. bytes.table };

    ghost invariant = { λ bytes. length bytes.table ≡ 256 };
}

/// Adds the bytes that a sparse state reads to the table.
fn add_ranges(table: &mut [bool; 256], transitions: &[Transition])
    ensures kept { (byte : ℕ) → in_table table.old byte ≡ true → in_table table.new byte ≡ true }
    ensures added { (byte : ℕ) → is_some (takes_in (ranges_of transitions.now) byte) ≡ true
        → in_table table.new byte ≡ true }
{
    for transition in transitions {
        add_range(table, transition.lo, transition.hi);
    }
}

/// Adds the bytes that a state of any kind reads to the table, by a test of each byte.
fn add_tested(table: &mut [bool; 256], state: &State)
    ensures kept { (byte : ℕ) → in_table table.old byte ≡ true → in_table table.new byte ≡ true }
    ensures added { (byte : ℕ) → byte < 256 → is_some (takes_at (node_of state.now) byte) ≡ true
        → in_table table.new byte ≡ true }
{
    for byte in 0..256usize {
        if target(state, byte as u8).is_some() {
            table[byte] = true;
        }
    }
}

/// Adds the bytes that the state reads to the table.
fn add_bytes(table: &mut [bool; 256], state: &State)
    ensures kept { (byte : ℕ) → in_table table.old byte ≡ true → in_table table.new byte ≡ true }
    ensures added { (byte : ℕ) → byte < 256 → is_some (takes_at (node_of state.now) byte) ≡ true
        → in_table table.new byte ≡ true }
{
    match state {
        State::ByteRange { lo, hi, .. } => add_range(table, *lo, *hi),
        State::Sparse(transitions) => add_ranges(table, transitions),
        _ => add_tested(table, state),
    }
}

/// Adds the bytes that these states read to the table. Returns false, with only some of them added, if one of the states
/// is a match state.
fn add_all(table: &mut [bool; 256], states: &[State], ids: &[StateID]) -> bool
    requires { (q : ℕ) → In q ids.now → q < length states.now }
    ensures { IsTrue result → (q : ℕ) → In q ids.now → ReadsFirstBytes table.new (node_in states.now q) }
{
    for id in ids {
        let state = &states[id.as_usize()];
        if is_match(state) {
            return false;
        }
        add_bytes(table, state);
    }
    true
}

impl FirstBytes {
    /// Returns the bytes with which matches of the NFA can begin, or none if an empty match is possible, or if matches
    /// can begin with every byte. The only error is out of memory. The call takes time linear in the states that
    /// epsilon edges reach from the anchored start, and in their edges.
    pub fn new(nfa: &NFA) -> Result<Option<FirstBytes>, AllocError>
        ensures { IfOk result (λ o. IfSome o (λ bytes.
            (kind : MatchKind) → BeginsAtFirstByte (engine_of nfa.now kind) bytes)) }
    {
        let mut set = set_for(nfa.alloc(), nfa.states())?;
        let mut stack = Vec::with_capacity(nfa.alloc(), nfa.room())?;
        let looks = LookSet::from_bits(ALL_LOOKS);
        close(nfa, &[nfa.start_anchored()], looks, &mut stack, &mut set);
        let mut table = [false; 256];
        if add_all(&mut table, nfa.states(), set.as_slice()) && table.contains(&false) {
            Ok(Some(FirstBytes { table }))
        } else {
            Ok(None)
        }
    }

    /// Returns the number of bytes with which a match can begin.
    pub fn count(&self) -> usize
        ensures { result ≡ count_first_bytes self.now }
    {
        let mut count = 0;
        for byte in 0..256usize {
            if self.table[byte] {
                count += 1;
            }
        }
        count
    }

    /// Returns the first offset of the span `start..end` whose byte is one with which a match can begin. It gives up
    /// after 32 bytes, and then returns none: over longer distances a lazy DFA is as fast.
    #[inline(always)]
    pub fn find(&self, hay: &[u8], start: usize, end: usize) -> Option<usize>
        requires span { start ≤ end }
        requires within { end ≤ length hay.now }
        ensures { FindsFirstByte self.now hay.now start end result }
    {
        let near = end.min(start.saturating_add(NEAR));
        for at in start..near {
            if self.table[usize::from(hay[at])] {
                return Some(at);
            }
        }
        None
    }
}
