//! Lists of NFA states: what a powerset state keeps of them, and the patterns that they match.
ghost use Rattle.std.specs.Prelude.{◌≡◌, ◌+◌, ◌<◌, ◌≤◌, [], ◌∷◌, ◌++◌, ℕ, length, take, eqb, Some, None, false, not};
ghost use Rattle.std.specs.Prelude.{vec_capacity, vec_len, cond};
ghost use Rattle.automata_base.specs.Lists.{In};
ghost use Rattle.automata_base.specs.Powersets.Cuts.{cut};
ghost use Rattle.automata_determinize.specs.Powersets.Results.{AreMatched};
ghost use Rattle.automata_base.specs.Powersets.Members.{AreMarks};
ghost use Rattle.automata_base.specs.Nfas.Nodes.{nfa_of};
ghost use Rattle.automata_base.specs.Retraced.Computed.{is_in};

use automata_base::nfa::thompson::NFA;
use automata_base::nfa::thompson::reading::pattern_of;
use automata_base::util::primitives::{PatternID, StateID};
use automata_base::util::sparse_set::SparseSet;

/// Sets `patterns` to the patterns of the match states of a list, each once. `marks` records those that were found; the
/// call clears it before and afterwards.
pub fn read_patterns(
    nfa: &NFA,
    list: &[StateID],
    marks: &mut SparseSet,
    patterns: &mut Vec<PatternID>,
)
    requires below { (q : ℕ) → In q list.now → q < length nfa.now.states }
    requires room { length nfa.now.start_pattern ≤ vec_capacity patterns.old }
    ensures matched { AreMatched nfa.now list.now patterns.new.items }
    ensures room { vec_capacity patterns.old ≤ vec_capacity patterns.new }
    ensures empty { marks.new.items ≡ [] }
    ensures whole { marks.new.capacity ≡ marks.old.capacity }
{
    patterns.clear();
    marks.clear();
    for i in 0..list.len() {
        add_maybe(marks, patterns, pattern_of(nfa.state(list[i])));
    }
    marks.clear();
}

/// Appends the pattern, if there is one and the list does not have it. The list must have room for it.
fn add_maybe(marks: &mut SparseSet, patterns: &mut Vec<PatternID>, pattern: Option<PatternID>)
    requires room { (p : ℕ) → pattern ≡ Some p → is_in p patterns.old.items ≡ false
        → vec_len patterns.old < vec_capacity patterns.old }
    requires marks { AreMarks patterns.old.items marks.old }
    ensures some { (p : ℕ) → pattern ≡ Some p → patterns.new.items
        ≡ patterns.old.items ++ cond (is_in p patterns.old.items) [] (p ∷ []) }
    ensures none { pattern ≡ None → patterns.new.items ≡ patterns.old.items }
    ensures room { vec_capacity patterns.old ≤ vec_capacity patterns.new }
    ensures marks { AreMarks patterns.new.items marks.new }
    ensures whole { marks.new.capacity ≡ marks.old.capacity }
{
    match pattern {
        Some(p) => add_pattern(marks, patterns, p),
        None => {}
    }
}

/// Returns the number of states of a list up to and including its first match state, and sets `patterns` to the pattern
/// of that state. Without a match state, it returns the length of the list, and there are no patterns.
pub fn cut_first(nfa: &NFA, states: &[StateID], patterns: &mut Vec<PatternID>) -> usize
    requires below { (q : ℕ) → In q states.now → q < length nfa.now.states }
    requires room { length nfa.now.start_pattern ≤ vec_capacity patterns.old }
    ensures below { result ≤ length states.now }
    ensures cut { take result states.now ≡ cut (nfa_of nfa.now) states.now }
    ensures matched { AreMatched nfa.now (cut (nfa_of nfa.now) states.now) patterns.new.items }
    ensures room { vec_capacity patterns.old ≤ vec_capacity patterns.new }
{
    patterns.clear();
    for i in 0..states.len() {
        match pattern_of(nfa.state(states[i])) {
            Some(pattern) => {
                patterns.push(pattern).unwrap();
                return i + 1;
            }
            None => {}
        }
    }
    states.len()
}

/// Whether the two patterns are the same.
fn is_same(p: PatternID, q: PatternID) -> bool
    ensures { result ≡ eqb p q }
{
    p.as_usize() == q.as_usize()
}

/// Whether the pattern is in the list.
fn has_pattern(patterns: &[PatternID], p: PatternID) -> bool
    ensures { result ≡ is_in p patterns.now }
{
    for i in 0..patterns.len() {
        if is_same(p, patterns[i]) {
            return true;
        }
    }
    false
}

/// Marks the pattern, and returns whether the list does not have it. A pattern that is out of range for the marks, as
/// only an NFA with fewer states than patterns has it, is looked up in the list.
fn is_new(marks: &mut SparseSet, patterns: &[PatternID], p: PatternID) -> bool
    requires { AreMarks patterns.now marks.old }
    ensures new { result ≡ not (is_in p patterns.now) }
    ensures marks { AreMarks (patterns.now ++ cond (is_in p patterns.now) [] (p ∷ [])) marks.new }
    ensures whole { marks.new.capacity ≡ marks.old.capacity }
{
    if p.as_usize() < marks.capacity() {
        marks.insert(StateID::new_unchecked(p.as_u32()))
    } else {
        !has_pattern(patterns, p)
    }
}

/// Appends the pattern, if the list does not have it. The list must have room for it.
fn add_pattern(marks: &mut SparseSet, patterns: &mut Vec<PatternID>, p: PatternID)
    requires room { (is_in p patterns.old.items ≡ false) → vec_len patterns.old < vec_capacity patterns.old }
    requires marks { AreMarks patterns.old.items marks.old }
    ensures added { patterns.new.items ≡ patterns.old.items ++ cond (is_in p patterns.old.items) [] (p ∷ []) }
    ensures room { vec_capacity patterns.old ≤ vec_capacity patterns.new }
    ensures marks { AreMarks patterns.new.items marks.new }
    ensures whole { marks.new.capacity ≡ marks.old.capacity }
{
    if is_new(marks, patterns.as_slice(), p) {
        patterns.push_reserved(p);
    }
}
