//! The start states and successors of the powerset construction.
ghost use Rattle.std.specs.Prelude.{◌≡◌, ◌<◌, ◌≤◌, [], ◌∷◌, List, ℕ, length, true, false, IsTrue, IsFalse};
ghost use Rattle.std.specs.Prelude.{Option, Some, None, IfSome, ◌&&◌, ◌++◌, eqb, vec_capacity};
ghost use Rattle.automata_base.specs.Retraced.Computed.{any_state};
ghost use Rattle.automata_determinize.specs.Retraced.Computed.{known_looks, is_full};
ghost use Rattle.automata_base.specs.Nfas.Nfa.{any_node, keep};
ghost use Rattle.automata_base.specs.Powersets.Cuts.{cut, cut_for, has_match, is_cut, targets};
ghost use Rattle.automata_base.specs.Nfas.Accepted.{IsChecked};
ghost use Rattle.automata_base.specs.Lists.{In, cons_some, pick, Distinct};
ghost use Rattle.automata_base.specs.declared.util.look.Look.{Look};
ghost use Rattle.automata_base.specs.Haystacks.Looks.{look_index, is_word, is_byte, first_half};
ghost use Rattle.automata_base.specs.Nfas.KeptClosure.{IsKeptClosure};
ghost use Rattle.automata_determinize.specs.Powersets.Results.{AreMatched, IsClosureMade, IsStartMade, IsStepMade};
ghost use Rattle.automata_base.specs.Nfas.Nodes.{nfa_of};
ghost use Rattle.automata_determinize.specs.Powersets.Parts.{powerset_of};
ghost use Rattle.automata_determinize.specs.Powersets.Passes.{IsMake};
ghost use Rattle.automata_base.specs.Powersets.Passes.{is_word_look, is_crlf_look};
ghost use Rattle.automata_base.specs.Paths.Paths.{IsClosure};
ghost use Rattle.automata_base.specs.Powersets.Rooms.{IsClosureRoom};
ghost use Rattle.automata_determinize.specs.Powersets.Rooms.{IsPartsRoom, IsStepRoom};
ghost use Rattle.automata_determinize.specs.Paths.Starts.{IsOf};
ghost use Rattle.automata_base.specs.Haystacks.LookSets.{truth_of};
ghost use Rattle.automata_base.specs.Powersets.Closure.{IsUnderWay};

use crate::determinize::deciding::{first_of, has_news, is_unit, is_word_unit, known_behind, news};
use crate::determinize::kept::{front_of, keep_with};
use crate::determinize::lists::{cut_first, read_patterns};
use crate::determinize::state::{Parts, State};
use automata_base::nfa::thompson::closure::{close, close_all, close_one};
use automata_base::nfa::thompson::keeping::keep_states;
use automata_base::nfa::thompson::kept::KeptClosure;
use automata_base::nfa::thompson::reading::{pattern_of, target};
use automata_base::nfa::thompson::{NFA, state_at};
use automata_base::util::look::LookSet;
use automata_base::util::primitives::{PatternID, StateID};
use automata_base::util::search::{Anchored, MatchKind};
use automata_base::util::sparse_set::SparseSet;

/// Whether the NFA has a word look.
fn has_word(nfa: &NFA) -> bool
    ensures { result ≡ any_node is_word_look (nfa_of nfa.now).nodes }
{
    has_news(nfa.look_set_any(), LookSet::word(), LookSet::empty())
}

/// Whether the NFA has a CRLF look.
fn has_crlf(nfa: &NFA) -> bool
    ensures { result ≡ any_node is_crlf_look (nfa_of nfa.now).nodes }
{
    has_news(nfa.look_set_any(), LookSet::crlf(), LookSet::empty())
}

/// Whether the set is not empty.
pub(crate) fn has_some(looks: LookSet) -> bool
    ensures some { IsTrue result → (look : Look) × (truth_of looks look ≡ true) }
    ensures none { IsFalse result → (look : Look) → truth_of looks look ≡ false }
{
    has_news(looks, looks, LookSet::empty())
}

/// Returns the known looks that a powerset state has: those given if `some` is true, and none otherwise.
fn pick_known(some: bool, known: LookSet) -> LookSet
    ensures { (look : Look) → truth_of result look ≡ (some && truth_of known look) }
{
    if some { known } else { LookSet::empty() }
}

/// Whether a powerset state is marked as after a word byte: `prev` is one, the state has NFA states (`full`), and the
/// NFA has a word look.
fn is_after_word(nfa: &NFA, full: bool, prev: Option<u8>) -> bool
    ensures { result ≡ (full && any_node is_word_look (nfa_of nfa.now).nodes && is_word prev) }
{
    full && has_word(nfa) && is_word_unit(prev)
}

/// Whether a powerset state is marked as halfway through a CRLF: `prev` is the first half, the state has NFA states
/// (`full`), and the NFA has a CRLF look.
fn is_half_way(nfa: &NFA, full: bool, prev: Option<u8>) -> bool
    ensures { result ≡ (full && any_node is_crlf_look (nfa_of nfa.now).nodes
        && is_byte (first_half nfa.now.flags.reverse) prev) }
{
    full && has_crlf(nfa) && is_unit(first_of(nfa.flags().reverse), prev)
}

/// Whether the list is not empty.
fn has_any(list: &[StateID]) -> bool
    ensures { result ≡ is_full list.now }
{
    !list.is_empty()
}

/// Sets `kept` to the states of a list that powerset states keep, and returns the looks among them. If a kept closure
/// is given and the list contains it, what is kept of it is copied.
#[inline(always)]
fn keep_set(
    nfa: &NFA,
    closure: Option<&KeptClosure>,
    states: &[StateID],
    kept: &mut Vec<StateID>,
) -> LookSet
    requires below { (q : ℕ) → In q states.now → q < length nfa.now.states }
    requires closure { IfSome closure (λ c. IsKeptClosure nfa.now c.now) }
    requires room { length states.now ≤ vec_capacity kept.old }
    ensures kept { kept.new.items ≡ pick (keep (nfa_of nfa.now)) states.now }
    ensures few { length kept.new.items ≤ length states.now }
    ensures looks { (other : Look) → truth_of result other
        ≡ any_state (λ look. eqb (look_index look) (look_index other)) (nfa_of nfa.now) kept.new.items }
    ensures capacity { vec_capacity kept.old ≤ vec_capacity kept.new }
{
    match closure {
        Some(closure) => keep_with(nfa, closure, states, kept),
        None => keep_states(nfa, states, kept),
    }
}

/// Sets the parts to the powerset state of a closure. Their patterns must be set already.
#[inline(always)]
fn fill(
    nfa: &NFA,
    closure: Option<&KeptClosure>,
    set: &SparseSet,
    known: LookSet,
    prev: Option<u8>,
    parts: &mut Parts,
)
    requires closure { IfSome closure (λ c. IsKeptClosure nfa.now c.now) }
    requires whole { set.now.capacity ≡ length nfa.now.states }
    requires parts { IsPartsRoom nfa.now parts.old }
    requires known { (look : Look) → truth_of known look ≡ known_looks (nfa_of nfa.now) prev look }
    ensures make { IsMake (nfa_of nfa.now) parts.old.patterns.items set.now.items prev (powerset_of parts.new) }
    ensures below { IsOf nfa.now (powerset_of parts.new) }
    ensures few { length parts.new.nfa.items ≤ length nfa.now.states }
    ensures parts { IsPartsRoom nfa.now parts.new }
{
    let needed = keep_set(nfa, closure, set.as_slice(), &mut parts.nfa);
    let some = has_some(needed);
    let known = pick_known(some, known);
    parts.needed = needed.bits();
    parts.known = known.bits();
    let full = has_any(parts.nfa.as_slice());
    parts.word = is_after_word(nfa, full, prev);
    parts.half = is_half_way(nfa, full, prev);
}

/// Adds to the set the closure of the states that a list leads to on the byte `u`.
fn close_targets(
    nfa: &NFA,
    list: &[StateID],
    u: u8,
    known: LookSet,
    stack: &mut Vec<StateID>,
    set: &mut SparseSet,
)
    requires below { (q : ℕ) → In q list.now → q < length nfa.now.states }
    requires room { IsClosureRoom nfa.now stack.old set.old }
    ensures way { (roots tail : List ℕ) → IsUnderWay (nfa_of nfa.now) (truth_of known) roots
        (targets (nfa_of nfa.now) (Some u) list.now ++ tail) set.old.items
        → IsUnderWay (nfa_of nfa.now) (truth_of known) roots tail set.new.items }
    ensures room { IsClosureRoom nfa.now stack.new set.new }
{
    for i in 0..list.len() {
        close_maybe(nfa, target(nfa.state(list[i]), u), known, stack, set);
    }
}

/// Adds the states that epsilon edges reach from `start` to the set, if there is a start.
fn close_maybe(
    nfa: &NFA,
    start: Option<StateID>,
    looks: LookSet,
    stack: &mut Vec<StateID>,
    set: &mut SparseSet,
)
    requires start { (q : ℕ) → start ≡ Some q → q < length nfa.now.states }
    requires room { IsClosureRoom nfa.now stack.old set.old }
    ensures way { (roots tail : List ℕ)
        → IsUnderWay (nfa_of nfa.now) (truth_of looks) roots (cons_some start tail) set.old.items
        → IsUnderWay (nfa_of nfa.now) (truth_of looks) roots tail set.new.items }
    ensures room { IsClosureRoom nfa.now stack.new set.new }
{
    match start {
        Some(q) => close_one(nfa, q, looks, stack, set),
        None => {}
    }
}

/// Sets the parts to the start state of a search that starts at this NFA state, after the look-behind byte `prev` or
/// after none.
fn start_at(
    nfa: &NFA,
    start: StateID,
    prev: Option<u8>,
    stack: &mut Vec<StateID>,
    set: &mut SparseSet,
    parts: &mut Parts,
)
    requires start { start < length nfa.now.states }
    requires room { IsClosureRoom nfa.now stack.old set.old }
    requires parts { IsPartsRoom nfa.now parts.old }
    ensures made { IsClosureMade nfa.now [] (start ∷ []) prev (powerset_of parts.new) }
    ensures room { IsClosureRoom nfa.now stack.new set.new }
    ensures parts { IsPartsRoom nfa.now parts.new }
{
    let known = known_behind(nfa, prev);
    close(nfa, &[start], known, stack, set);
    parts.patterns.clear();
    fill(nfa, None, set, known, prev, parts);
}

/// Sets the parts to the start state of an anchored mode, after the look-behind byte `prev` or after none. If the mode
/// has no start in the NFA, that is the dead state.
pub fn start_into(
    nfa: &NFA,
    mode: Anchored,
    prev: Option<u8>,
    stack: &mut Vec<StateID>,
    set: &mut SparseSet,
    parts: &mut Parts,
)
    requires checked { IsChecked nfa.now }
    requires room { IsClosureRoom nfa.now stack.old set.old }
    requires parts { IsPartsRoom nfa.now parts.old }
    ensures made { IsStartMade nfa.now mode prev (powerset_of parts.new) }
    ensures distinct { Distinct parts.new.patterns.items }
    ensures room { IsClosureRoom nfa.now stack.new set.new }
    ensures parts { IsPartsRoom nfa.now parts.new }
{
    match nfa.start(mode) {
        Some(q) => start_at(nfa, q, prev, stack, set, parts),
        None => {
            parts.nfa.clear();
            parts.patterns.clear();
            parts.known = 0;
            parts.needed = 0;
            parts.word = false;
            parts.half = false;
        }
    }
}

/// Reads a list up to its first match state, and returns whether it has one. It adds to the set the closure of what the
/// states before that lead to on the byte `u`, and sets `patterns` to the match state's pattern, or to none.
#[inline(always)]
fn read_first(
    nfa: &NFA,
    list: &[StateID],
    u: u8,
    known: LookSet,
    stack: &mut Vec<StateID>,
    set: &mut SparseSet,
    patterns: &mut Vec<PatternID>,
) -> bool
    requires below { (q : ℕ) → In q list.now → q < length nfa.now.states }
    requires room { IsClosureRoom nfa.now stack.old set.old }
    requires patterns { length nfa.now.start_pattern ≤ vec_capacity patterns.old }
    ensures matches { result ≡ has_match (nfa_of nfa.now) list.now }
    ensures matched { AreMatched nfa.now (cut (nfa_of nfa.now) list.now) patterns.new.items }
    ensures way { (roots tail : List ℕ) → IsUnderWay (nfa_of nfa.now) (truth_of known) roots
        (targets (nfa_of nfa.now) (Some u) (cut (nfa_of nfa.now) list.now) ++ tail) set.old.items
        → IsUnderWay (nfa_of nfa.now) (truth_of known) roots tail set.new.items }
    ensures room { IsClosureRoom nfa.now stack.new set.new }
    ensures patterns { vec_capacity patterns.old ≤ vec_capacity patterns.new }
{
    patterns.clear();
    let states = nfa.states();
    for i in 0..list.len() {
        let state = state_at(nfa, states, list[i]);
        match pattern_of(state) {
            Some(pattern) => {
                patterns.push_reserved(pattern);
                return true;
            }
            None => {}
        }
        close_maybe(nfa, target(state, u), known, stack, set);
    }
    false
}

/// Reads the part of a list that counts under the match kind, and returns whether the list was cut, so that what would
/// come after it does not count. It adds to the set the closure of what the part leads to on the byte `u`, and sets
/// `patterns` to the part's patterns.
#[inline(always)]
fn read_kind(
    kind: MatchKind,
    nfa: &NFA,
    list: &[StateID],
    u: u8,
    known: LookSet,
    stack: &mut Vec<StateID>,
    set: &mut SparseSet,
    patterns: &mut Vec<PatternID>,
) -> bool
    requires below { (q : ℕ) → In q list.now → q < length nfa.now.states }
    requires empty { set.old.items ≡ [] }
    requires room { IsClosureRoom nfa.now stack.old set.old }
    requires patterns { length nfa.now.start_pattern ≤ vec_capacity patterns.old }
    ensures cut { result ≡ is_cut kind (nfa_of nfa.now) list.now }
    ensures matched { AreMatched nfa.now (cut_for kind (nfa_of nfa.now) list.now) patterns.new.items }
    ensures way { (roots tail : List ℕ) → IsUnderWay (nfa_of nfa.now) (truth_of known) roots
        (targets (nfa_of nfa.now) (Some u) (cut_for kind (nfa_of nfa.now) list.now) ++ tail) set.old.items
        → IsUnderWay (nfa_of nfa.now) (truth_of known) roots tail set.new.items }
    ensures room { IsClosureRoom nfa.now stack.new set.new }
    ensures patterns { vec_capacity patterns.old ≤ vec_capacity patterns.new }
{
    match kind {
        MatchKind::All => {
            read_patterns(nfa, list, set, patterns);
            close_targets(nfa, list, u, known, stack, set);
            false
        }
        MatchKind::LeftmostFirst => read_first(nfa, list, u, known, stack, set, patterns),
    }
}

/// Reads the part of a list that counts under the match kind, as `read_kind` does. If the list ends with what is kept
/// of the closure, and the closure has rows, these states are not read: the row of the byte says where they lead.
#[inline(never)]
fn read_with(
    kind: MatchKind,
    nfa: &NFA,
    closure: &KeptClosure,
    list: &[StateID],
    u: u8,
    known: LookSet,
    stack: &mut Vec<StateID>,
    set: &mut SparseSet,
    patterns: &mut Vec<PatternID>,
)
    requires below { (q : ℕ) → In q list.now → q < length nfa.now.states }
    requires closure { IsKeptClosure nfa.now closure.now }
    requires empty { set.old.items ≡ [] }
    requires room { IsClosureRoom nfa.now stack.old set.old }
    requires patterns { length nfa.now.start_pattern ≤ vec_capacity patterns.old }
    ensures matched { AreMatched nfa.now (cut_for kind (nfa_of nfa.now) list.now) patterns.new.items }
    ensures way { (roots tail : List ℕ) → IsUnderWay (nfa_of nfa.now) (truth_of known) roots
        (targets (nfa_of nfa.now) (Some u) (cut_for kind (nfa_of nfa.now) list.now) ++ tail) set.old.items
        → IsUnderWay (nfa_of nfa.now) (truth_of known) roots tail set.new.items }
    ensures room { IsClosureRoom nfa.now stack.new set.new }
    ensures patterns { vec_capacity patterns.old ≤ vec_capacity patterns.new }
{
    if let Some(front) = front_of(list, closure.kept.as_slice()) {
        if let Some(row) = closure.row(nfa, u) {
            let _states = nfa.states();
            if !read_kind(kind, nfa, front, u, known, stack, set, patterns) {
                close_all(nfa, row, known, stack, set);
            }
            return;
        }
    }
    let _cut = read_kind(kind, nfa, list, u, known, stack, set, patterns);
}

/// Reads the part of a list that counts under the match kind, with the kept closure if it is given. It adds to the set
/// the closure of what the part leads to on the byte `u`, and sets `patterns` to the part's patterns.
#[inline(always)]
fn read_byte(
    kind: MatchKind,
    nfa: &NFA,
    closure: Option<&KeptClosure>,
    list: &[StateID],
    u: u8,
    known: LookSet,
    stack: &mut Vec<StateID>,
    set: &mut SparseSet,
    patterns: &mut Vec<PatternID>,
)
    requires below { (q : ℕ) → In q list.now → q < length nfa.now.states }
    requires closure { IfSome closure (λ c. IsKeptClosure nfa.now c.now) }
    requires empty { set.old.items ≡ [] }
    requires room { IsClosureRoom nfa.now stack.old set.old }
    requires patterns { length nfa.now.start_pattern ≤ vec_capacity patterns.old }
    ensures matched { AreMatched nfa.now (cut_for kind (nfa_of nfa.now) list.now) patterns.new.items }
    ensures way { (roots tail : List ℕ) → IsUnderWay (nfa_of nfa.now) (truth_of known) roots
        (targets (nfa_of nfa.now) (Some u) (cut_for kind (nfa_of nfa.now) list.now) ++ tail) set.old.items
        → IsUnderWay (nfa_of nfa.now) (truth_of known) roots tail set.new.items }
    ensures room { IsClosureRoom nfa.now stack.new set.new }
    ensures patterns { vec_capacity patterns.old ≤ vec_capacity patterns.new }
{
    match closure {
        Some(closure) => read_with(kind, nfa, closure, list, u, known, stack, set, patterns),
        None => {
            let _cut = read_kind(kind, nfa, list, u, known, stack, set, patterns);
        }
    }
}

/// Sets `patterns` to the patterns of the part of a list that counts under the match kind. The set must be empty, and
/// stays empty.
fn read_end(
    kind: MatchKind,
    nfa: &NFA,
    list: &[StateID],
    set: &mut SparseSet,
    patterns: &mut Vec<PatternID>,
)
    requires below { (q : ℕ) → In q list.now → q < length nfa.now.states }
    requires empty { set.old.items ≡ [] }
    requires room { length nfa.now.start_pattern ≤ vec_capacity patterns.old }
    ensures matched { AreMatched nfa.now (cut_for kind (nfa_of nfa.now) list.now) patterns.new.items }
    ensures room { vec_capacity patterns.old ≤ vec_capacity patterns.new }
    ensures empty { set.new.items ≡ [] }
    ensures whole { set.new.capacity ≡ set.old.capacity }
{
    match kind {
        MatchKind::All => read_patterns(nfa, list, set, patterns),
        MatchKind::LeftmostFirst => {
            let _end = cut_first(nfa, list, patterns);
        }
    }
}

/// Reads the part of a list that counts under the match kind: it sets `patterns` to the part's patterns, and the set to
/// the closure of what the part leads to on the unit. At the end of the haystack, it leads nowhere.
#[inline(always)]
fn read_list(
    kind: MatchKind,
    nfa: &NFA,
    closure: Option<&KeptClosure>,
    list: &[StateID],
    unit: Option<u8>,
    known: LookSet,
    stack: &mut Vec<StateID>,
    set: &mut SparseSet,
    patterns: &mut Vec<PatternID>,
)
    requires below { (q : ℕ) → In q list.now → q < length nfa.now.states }
    requires closure { IfSome closure (λ c. IsKeptClosure nfa.now c.now) }
    requires room { IsClosureRoom nfa.now stack.old set.old }
    requires patterns { length nfa.now.start_pattern ≤ vec_capacity patterns.old }
    ensures matched { AreMatched nfa.now (cut_for kind (nfa_of nfa.now) list.now) patterns.new.items }
    ensures closure { IsClosure (nfa_of nfa.now) (truth_of known)
        (targets (nfa_of nfa.now) unit (cut_for kind (nfa_of nfa.now) list.now)) set.new.items }
    ensures room { IsClosureRoom nfa.now stack.new set.new }
    ensures patterns { vec_capacity patterns.old ≤ vec_capacity patterns.new }
{
    set.clear();
    match unit {
        Some(u) => read_byte(kind, nfa, closure, list, u, known, stack, set, patterns),
        None => read_end(kind, nfa, list, set, patterns),
    }
}

/// Sets the parts to the powerset state that a list of NFA states leads to on the unit. The looks that these states
/// test must be decided already.
#[inline(always)]
fn advance(
    nfa: &NFA,
    kind: MatchKind,
    closure: Option<&KeptClosure>,
    list: &[StateID],
    unit: Option<u8>,
    stack: &mut Vec<StateID>,
    set: &mut SparseSet,
    parts: &mut Parts,
)
    requires below { (q : ℕ) → In q list.now → q < length nfa.now.states }
    requires closure { IfSome closure (λ c. IsKeptClosure nfa.now c.now) }
    requires room { IsClosureRoom nfa.now stack.old set.old }
    requires parts { IsPartsRoom nfa.now parts.old }
    ensures matched { AreMatched nfa.now (cut_for kind (nfa_of nfa.now) list.now) parts.new.patterns.items }
    ensures made { IsClosureMade nfa.now parts.new.patterns.items
        (targets (nfa_of nfa.now) unit (cut_for kind (nfa_of nfa.now) list.now)) unit (powerset_of parts.new) }
    ensures room { IsClosureRoom nfa.now stack.new set.new }
    ensures parts { IsPartsRoom nfa.now parts.new }
{
    let known = known_behind(nfa, unit);
    read_list(
        kind,
        nfa,
        closure,
        list,
        unit,
        known,
        stack,
        set,
        &mut parts.patterns,
    );
    fill(nfa, closure, set, known, unit, parts);
}

/// Sets the parts to the successor of a powerset state on a unit. `list` must be the NFA states of `from`.
#[inline(always)]
pub(crate) fn next_into(
    nfa: &NFA,
    kind: MatchKind,
    closure: Option<&KeptClosure>,
    from: &State,
    list: &[StateID],
    unit: Option<u8>,
    stack: &mut Vec<StateID>,
    one: &mut SparseSet,
    two: &mut SparseSet,
    parts: &mut Parts,
)
    requires checked { IsChecked nfa.now }
    requires is_of { IsOf nfa.now from.now }
    requires list { list.now ≡ from.now.nfa }
    requires closure { IfSome closure (λ c. IsKeptClosure nfa.now c.now) }
    requires room { IsStepRoom nfa.now stack.old one.old two.old parts.old }
    ensures made { IsStepMade nfa.now kind from.now unit (powerset_of parts.new) }
    ensures distinct { Distinct parts.new.patterns.items }
    ensures room { IsStepRoom nfa.now stack.new one.new two.new parts.new }
{
    match news(nfa, from, unit) {
        Some(truth) => {
            close(nfa, list, truth, stack, one);
            advance(nfa, kind, closure, one.as_slice(), unit, stack, two, parts)
        }
        None => advance(nfa, kind, closure, list, unit, stack, two, parts),
    }
}
