//! Classes of bytes that an NFA and a quit set do not distinguish.
ghost use Rattle.std.specs.Prelude.{◌≡◌, ◌+◌, ◌-◌, ◌<◌, ◌≤◌, ◌&&◌, ◌||◌, ℕ, false, eqb, length, IsFalse};
ghost use Rattle.automata_base.specs.ByteClasses.Classes.{bounds, transitions_bound, targets_bound, quits_bound};
ghost use Rattle.automata_base.specs.ByteClasses.Classes.{look_bounds};
ghost use Rattle.automata_base.specs.ByteClasses.Classes.{state_bounds, states_bound, is_boundary, boundary_count};
ghost use Rattle.automata_base.specs.ByteClasses.Classes.{class_in, is_quit};
ghost use Rattle.automata_base.specs.Retraced.Boundaries.{is_marked, Adds};

use crate::nfa::thompson::{NFA, State, Transition};
use crate::util::byte_set::ByteSet;
use crate::util::look::Look;
use crate::util::primitives::StateID;
use std::marker::Model;

/// The classes of the bytes that an NFA and a quit set do not distinguish: each byte has a class, and bytes of one
/// class lead to the same states.
///
/// The end of the input has a class of its own, after the classes of the bytes.
#[derive(Clone, Copy, Debug, PartialEq, Eq)]
pub struct ByteClasses {
    map: [u8; 256],
}

impl Model for ByteClasses {
    ghost use Rattle.std.specs.Prelude.{List, ℕ};
    ghost use Rattle.automata_base.specs.ByteClasses.Classes.{AreClasses};

    ghost Value = { List ℕ };

    ghost view = { λ c. c.map };

    ghost invariant = { λ c. AreClasses c.map };

    ghost inverse = { λ classes. record { map = classes } };
}

impl ByteClasses {
    ghost use Rattle.std.specs.Prelude.{◌≡◌, ◌+◌, ◌<◌, ◌≤◌, ◌^◌, ℕ, false, true, length};
    ghost use Rattle.automata_base.specs.ByteClasses.Classes.{AreClasses, class_of, class_in, eoi_class};
    ghost use Rattle.automata_base.specs.ByteClasses.Classes.{alphabet_length};
    ghost use Rattle.automata_base.specs.ByteClasses.Classes.{stride_of, is_quit};

    /// Returns the byte classes of the NFA with these quit bytes. If `on` is false, each byte is a class of its own.
    pub fn of(nfa: &NFA, quits: &ByteSet, on: bool) -> ByteClasses
        ensures quits { (u v : ℕ)
            → u < 256 → v < 256 → class_in result u ≡ class_in result v
            → is_quit quits.now u ≡ is_quit quits.now v }
        ensures off { on ≡ false → (byte : ℕ) → byte < 256 → class_in result byte ≡ byte }
        ensures same { (byte : ℕ) → byte < 256 → class_in result byte ≡ class_of nfa.now quits.now on byte }
    {
        ByteClasses {
            map: counts(&boundaries(nfa, quits, on)),
        }
    }

    /// Returns the class of a byte.
    pub fn get(&self, byte: u8) -> u8
        ensures class { result ≡ class_in self.now byte }
        ensures below { result < eoi_class self.now }
    {
        self.map[usize::from(byte)]
    }

    /// Returns the number of classes, including the one for the end of the input: 2 to 257. From one byte to the next,
    /// the class stays the same or rises by one.
    pub fn alphabet_len(&self) -> usize
        ensures number { result ≡ alphabet_length self.now }
        ensures many { 2 ≤ result }
        ensures above { (byte : ℕ) → byte < 256 → class_in self.now byte + 1 < result }
        ensures few { result ≤ 257 }
        ensures rising { AreClasses self.now }
    {
        usize::from(self.map[255]) + 2
    }

    /// Returns the class of the end of the input.
    pub fn eoi(&self) -> usize
        ensures class { result ≡ eoi_class self.now }
        ensures below { result < stride_of self.now }
        ensures above { (byte : ℕ) → byte < 256 → class_in self.now byte < result }
    {
        self.alphabet_len() - 1
    }

    /// Returns the binary logarithm of the stride.
    pub fn stride2(&self) -> usize
        ensures power { 2 ^ result ≡ stride_of self.now }
        ensures few { result ≤ 9 }
    {
        (self.alphabet_len() - 1).ilog2() as usize + 1
    }

    /// Returns the stride: the least power of two that is at least the number of classes, 2 to 512.
    pub fn stride(&self) -> usize
        ensures number { result ≡ stride_of self.now }
        ensures few { result ≤ 512 }
    {
        1 << self.stride2()
    }
}

/// Returns the boundaries of the classes: a byte is marked if the NFA or the quit set distinguishes it from the byte
/// before it. If `on` is false, each byte is marked.
fn boundaries(nfa: &NFA, quits: &ByteSet, on: bool) -> [bool; 257]
    ensures { (byte : ℕ) → byte < 256 → is_marked result byte ≡ is_boundary nfa.now quits.now on byte }
{
    if !on {
        return [true; 257];
    }
    let mut marks = [false; 257];
    mark_states(&mut marks, nfa.states(), nfa.flags().line_terminator);
    mark_quits(&mut marks, quits);
    marks
}

/// Returns the class of each byte: the number of marks from byte 1 up to and including it.
fn counts(marks: &[bool; 257]) -> [u8; 256]
    ensures whole { length result ≡ 256 }
    ensures same { (byte : ℕ) → byte < 256 → class_in result byte ≡ boundary_count (is_marked marks.now) byte }
{
    let mut map = [0u8; 256];
    let mut class = 0u8;
    for byte in 1..16 {
        class += u8::from(marks[byte]);
        map[byte] = class;
    }
    for block in 1..16usize {
        let at = 16 * block;
        if has_mark(marks, at) {
            for i in 0..16usize {
                class += u8::from(marks[at + i]);
                map[at + i] = class;
            }
        } else {
            for i in 0..16usize {
                map[at + i] = class;
            }
        }
    }
    map
}

/// Whether one of the sixteen bytes from `at` on is marked. It does not stop at the first mark, so that all sixteen can
/// be read at once.
fn has_mark(marks: &[bool; 257], at: usize) -> bool
    requires { at ≤ 240 }
    ensures { IsFalse result → (i : ℕ) → i < 16 → is_marked marks.now (at + i) ≡ false }
{
    let mut any = false;
    for i in 0..16usize {
        any = either(any, marks[at + i]);
    }
    any
}

/// Marks the byte if `yes` is true. Existing marks stay.
fn mark_if(marks: &mut [bool; 257], byte: usize, yes: bool)
    requires { byte < 257 }
    ensures { Adds marks.old marks.new (λ b. eqb b byte && yes) }
{
    if yes {
        marks[byte] = true;
    }
}

/// Marks the boundaries of a range: its first byte, and the byte after its last.
fn mark_range(marks: &mut [bool; 257], lo: u8, hi: u8)
    ensures { Adds marks.old marks.new (bounds lo hi) }
{
    marks[usize::from(lo)] = true;
    marks[usize::from(hi) + 1] = true;
}

/// Marks the boundaries of the ranges of a sparse state.
fn mark_transitions(marks: &mut [bool; 257], transitions: &[Transition])
    ensures { Adds marks.old marks.new (transitions_bound transitions.now) }
{
    for t in transitions {
        mark_range(marks, t.lo, t.hi);
    }
}

/// Whether a dense state has different targets for this byte and the previous one.
fn are_targets_apart(targets: &[StateID; 256], byte: usize) -> bool
    requires first { 1 ≤ byte }
    requires within { byte < 256 }
    ensures { result ≡ targets_bound targets.now byte }
{
    targets[byte].as_usize() != targets[byte - 1].as_usize()
}

/// Marks each byte for which a dense state has a different target than for the previous byte.
fn mark_targets(marks: &mut [bool; 257], targets: &[StateID; 256])
    ensures { Adds marks.old marks.new (targets_bound targets.now) }
{
    for byte in 1..256 {
        mark_if(marks, byte, are_targets_apart(targets, byte));
    }
}

/// Whether exactly one of this byte and the previous one is a quit byte.
fn are_quits_apart(quits: &ByteSet, byte: usize) -> bool
    requires first { 1 ≤ byte }
    requires within { byte < 256 }
    ensures { result ≡ quits_bound quits.now byte }
{
    quits.contains(byte as u8) != quits.contains((byte - 1) as u8)
}

/// Whether at least one of the two is true.
fn either(a: bool, b: bool) -> bool
    ensures { result ≡ (a || b) }
{
    a || b
}

/// Marks the first byte of each run of quit bytes, and the byte after each run.
fn mark_quits(marks: &mut [bool; 257], quits: &ByteSet)
    ensures { Adds marks.old marks.new (quits_bound quits.now) }
{
    if quits.is_empty() {
        return;
    }
    for byte in 1..256 {
        mark_if(marks, byte, are_quits_apart(quits, byte));
    }
}

/// Marks the boundaries of the bytes that decide whether the look holds. `terminator` is the byte that ends a line.
fn mark_look(marks: &mut [bool; 257], look: Look, terminator: u8)
    ensures { Adds marks.old marks.new (look_bounds terminator look) }
{
    match look {
        Look::Start | Look::End => {}
        Look::StartLF | Look::EndLF => mark_range(marks, terminator, terminator),
        Look::StartCRLF | Look::EndCRLF => {
            mark_range(marks, b'\r', b'\r');
            mark_range(marks, b'\n', b'\n');
        }
        _ => {
            mark_range(marks, b'0', b'9');
            mark_range(marks, b'A', b'Z');
            mark_range(marks, b'_', b'_');
            mark_range(marks, b'a', b'z');
        }
    }
}

/// Marks the boundaries of the bytes that a state distinguishes. `terminator` is the byte that ends a line.
fn mark_state(marks: &mut [bool; 257], state: &State, terminator: u8)
    ensures { Adds marks.old marks.new (state_bounds terminator state.now) }
{
    match state {
        State::ByteRange { lo, hi, .. } => mark_range(marks, *lo, *hi),
        State::Sparse(transitions) => mark_transitions(marks, transitions),
        State::Dense(targets) => mark_targets(marks, targets),
        State::Look { look, .. } => mark_look(marks, *look, terminator),
        State::Union { .. } => {}
        State::BinaryUnion { .. } => {}
        State::Capture { .. } => {}
        State::Fail => {}
        State::Match { .. } => {}
    }
}

/// Marks the boundaries of the bytes that the states distinguish. `terminator` is the byte that ends a line.
fn mark_states(marks: &mut [bool; 257], states: &[State], terminator: u8)
    ensures { Adds marks.old marks.new (states_bound terminator states.now) }
{
    for state in states {
        mark_state(marks, state, terminator);
    }
}
