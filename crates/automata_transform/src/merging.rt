//! Merging of wide unions, after which a search follows fewer states at once.
//!
//! Consecutive alternates of a wide union that read bytes become one state. Where several of them read the same byte,
//! that state leads to an additional state, which stands for the list of their targets and is merged in the same way.
//! So a union of many words becomes a trie. An alternate that does not read a byte stays, and the order stays the same.
//!
//! Contracts bound the number of states that are made, and do not say what they are: `standing` tests them.
ghost use Rattle.std.specs.Prelude.{◌≡◌, ◌≤◌, ◌+◌, IfOk, IfSome, IsTrue, OnOk, false, length};
ghost use Rattle.automata_transform.specs.Answers.Alike.{AnswerAlike};
ghost use Rattle.automata_base.specs.Nfas.Engines.{engine_of};
ghost use Rattle.automata_base.specs.Nfas.Nfa.{Read};
ghost use Rattle.automata_base.specs.Nfas.Nodes.{dense_from, node_of};
ghost use Rattle.automata_transform.specs.Nfas.MergedNfas.{BeginsAs, IsMergedNfa, KeepsBounds};
ghost use Rattle.automata_transform.specs.Nfas.MergedNfas.{KeepsCaptures, most_merged};
ghost use Rattle.automata_base.specs.declared.util.search.MatchKind.{MatchKind};

use crate::laws::merged_answers_alike;
use crate::standing::{is_merged, is_plain, keeps_captures, stands_for};
use automata_base::nfa::thompson::{NFA, NfaError, State, Transition};
use automata_base::util::id_lists::no_lists;
use automata_base::util::primitives::StateID;
use std::alloc::{AllocError, Global};
use std::mem;

/// The least number of alternates of a union that is merged.
const FEWEST: usize = 8;

/// At most `EACH` targets for each state of the NFA, and `MORE` in addition, may be listed, and as many states added.
const EACH: usize = 8;

const MORE: usize = 4096;

/// The states of a merged NFA: those of the NFA, some of them replaced, followed by additional ones.
#[derive(Drop)]
pub struct MergedStates {
    /// The states.
    pub states: Vec<State>,
    /// For each additional state, the states of the NFA that it stands for.
    pub lists: Vec<Vec<StateID>>,
}

/// The working data of a merge.
#[derive(Drop)]
struct Merging {
    /// The number of states of the NFA.
    count: usize,
    /// The lists that additional states stand for.
    lists: Vec<Vec<StateID>>,
    /// For each byte, the targets of the row of states that is being merged.
    targets: Vec<Vec<StateID>>,
    /// The least byte that has targets, or 255.
    first: u8,
    /// The greatest byte that has targets, or 0.
    last: u8,
    /// The number of targets that may still be listed.
    left: usize,
    /// Whether a limit was exceeded, in which case nothing is merged.
    is_short: bool,
}

/// Returns a copy of a dense state.
fn copy_dense(alloc: Global, targets: &[StateID; 256]) -> Result<State, AllocError>
    ensures { IfOk result (λ state. node_of state ≡ Read (dense_from 0 targets.now)) }
{
    let targets = Box::new(alloc, *targets).map_err(AllocError::from)?;
    Ok(State::Dense(targets))
}

/// Returns a copy of a state.
pub fn copy_of(alloc: Global, state: &State) -> Result<State, AllocError>
    ensures { IfOk result (λ copy. node_of copy ≡ node_of state.now) }
{
    match state {
        State::ByteRange { lo, hi, next } => Ok(State::ByteRange {
            lo: *lo,
            hi: *hi,
            next: *next,
        }),
        State::Sparse(ranges) => Ok(State::Sparse(Vec::from_slice(alloc, ranges)?)),
        State::Dense(targets) => copy_dense(alloc, targets),
        State::Look { look, next } => Ok(State::Look {
            look: *look,
            next: *next,
        }),
        State::Union { alternates } => Ok(State::Union {
            alternates: Vec::from_slice(alloc, alternates)?,
        }),
        State::BinaryUnion { alt1, alt2 } => Ok(State::BinaryUnion {
            alt1: *alt1,
            alt2: *alt2,
        }),
        State::Capture {
            next,
            pattern_id,
            group_index,
            slot,
        } => Ok(State::Capture {
            next: *next,
            pattern_id: *pattern_id,
            group_index: *group_index,
            slot: *slot,
        }),
        State::Fail => Ok(State::Fail),
        State::Match { pattern } => Ok(State::Match { pattern: *pattern }),
    }
}

/// Returns the alternates of a union that is wide enough, or none for any other state.
fn wide(state: &State) -> Option<&[StateID]> {
    match state {
        State::Union { alternates } => {
            if alternates.len() >= FEWEST {
                Some(alternates.as_slice())
            } else {
                None
            }
        }
        _ => None,
    }
}

/// Whether some union is wide enough to be merged.
pub fn has_wide(states: &[State]) -> bool {
    for state in states {
        if wide(state).is_some() {
            return true;
        }
    }
    false
}

/// Adds a target for each byte of a range.
fn push_range(
    targets: &mut Vec<Vec<StateID>>,
    lo: u8,
    hi: u8,
    next: StateID,
) -> Result<(), AllocError> {
    for byte in lo..=hi {
        if let Some(own) = targets.get_mut(usize::from(byte)) {
            own.push(next)?;
        }
    }
    Ok(())
}

impl Merging {
    ghost use Rattle.std.specs.Prelude.{◌≤◌, ◌+◌, OnOk, length};

    /// Takes `targets` from the targets that may still be listed; false if fewer are left.
    fn take(&mut self, targets: usize) -> bool {
        if targets > self.left {
            self.is_short = true;
            return false;
        }
        self.left -= targets;
        true
    }

    /// Lists the target of a range of bytes.
    fn list_range(&mut self, lo: u8, hi: u8, next: StateID) -> Result<(), AllocError> {
        let bytes = (usize::from(hi) + 1).saturating_sub(usize::from(lo));
        if self.take(bytes) {
            self.first = self.first.min(lo);
            self.last = self.last.max(hi);
            push_range(&mut self.targets, lo, hi, next)?;
        }
        Ok(())
    }

    /// Lists the targets of ranges of bytes.
    fn list_ranges(&mut self, ranges: &[Transition]) -> Result<(), AllocError> {
        for range in ranges {
            self.list_range(range.lo, range.hi, range.next)?;
        }
        Ok(())
    }

    /// Lists the targets of a dense state.
    fn list_dense(&mut self, targets: &[StateID; 256]) -> Result<(), AllocError> {
        for byte in 0..=255u8 {
            let next = targets[usize::from(byte)];
            if next.as_usize() != 0 {
                self.list_range(byte, byte, next)?;
            }
        }
        Ok(())
    }

    /// Lists the targets of a state for each byte.
    fn list(&mut self, state: &State) -> Result<(), AllocError> {
        match state {
            State::ByteRange { lo, hi, next } => self.list_range(*lo, *hi, *next),
            State::Sparse(ranges) => self.list_ranges(ranges.as_slice()),
            State::Dense(targets) => self.list_dense(targets),
            _ => Ok(()),
        }
    }

    /// Returns the state that stands for these: the only one, or an additional state.
    fn standing(&mut self, list: Vec<StateID>) -> Result<StateID, AllocError> {
        if let [only] = list.as_slice() {
            return Ok(*only);
        }
        let number = self.count.saturating_add(self.lists.len());
        let Some(id) = StateID::new(number) else {
            self.is_short = true;
            return Ok(StateID::ZERO);
        };
        self.lists.push(list)?;
        Ok(id)
    }

    /// Whether a range ends right before a byte and leads to the state that stands for these targets.
    fn goes_on(&self, last: &Transition, byte: u8, targets: &[StateID]) -> bool {
        usize::from(last.hi) + 1 == usize::from(byte)
            && stands_for(self.lists.as_slice(), self.count, last.next, targets)
    }

    /// Returns the target of one of these ranges that stands for these targets, or none.
    fn known(&self, ranges: &[Transition], targets: &[StateID]) -> Option<StateID> {
        for range in ranges {
            if stands_for(self.lists.as_slice(), self.count, range.next, targets) {
                return Some(range.next);
            }
        }
        None
    }

    /// Extends the ranges of a state, so that a byte leads to these targets.
    fn push_byte(
        &mut self,
        ranges: &mut Vec<Transition>,
        byte: u8,
        targets: Vec<StateID>,
    ) -> Result<(), AllocError> {
        if targets.is_empty() {
            return Ok(());
        }
        if let Some(last) = ranges.last_mut() {
            if self.goes_on(last, byte, targets.as_slice()) {
                last.hi = byte;
                return Ok(());
            }
        }
        let next = match self.known(ranges.as_slice(), targets.as_slice()) {
            Some(next) => next,
            None => self.standing(targets)?,
        };
        let (lo, hi) = (byte, byte);
        ranges.push(Transition { lo, hi, next })?;
        Ok(())
    }

    /// Takes the targets that were listed for each byte, and returns the ranges of a state that leads to them.
    fn ranges(&mut self, alloc: Global) -> Result<Vec<Transition>, AllocError> {
        let mut ranges = Vec::new(alloc);
        for byte in self.first..=self.last {
            if let Some(own) = self.targets.get_mut(usize::from(byte)) {
                let targets = mem::replace(own, Vec::new(alloc));
                self.push_byte(&mut ranges, byte, targets)?;
            }
        }
        self.first = 255;
        self.last = 0;
        Ok(ranges)
    }

    /// Returns the state that leads, on each byte, to the state that stands for the targets of these states, which must
    /// read bytes.
    fn row(&mut self, nfa: &NFA, list: &[StateID]) -> Result<State, AllocError> {
        let states = nfa.states();
        for id in list {
            if let Some(state) = states.get(id.as_usize()) {
                self.list(state)?;
            }
        }
        let ranges = self.ranges(nfa.alloc())?;
        Ok(State::Sparse(ranges))
    }

    /// Ends a row of states that read bytes. If there are any, it adds the alternate that stands for them.
    fn close(
        &mut self,
        alloc: Global,
        row: &mut Vec<StateID>,
        alternates: &mut Vec<StateID>,
    ) -> Result<(), AllocError> {
        let whole = mem::replace(row, Vec::new(alloc));
        if whole.is_empty() {
            return Ok(());
        }
        let id = self.standing(whole)?;
        alternates.push(id)?;
        Ok(())
    }

    /// Returns the union in which one alternate stands for each row of states that read bytes.
    fn rows(&mut self, nfa: &NFA, list: &[StateID]) -> Result<State, AllocError> {
        let alloc = nfa.alloc();
        let mut alternates = Vec::new(alloc);
        let mut row = Vec::new(alloc);
        for id in list {
            if is_plain(nfa, *id) {
                row.push(*id)?;
            } else {
                self.close(alloc, &mut row, &mut alternates)?;
                alternates.push(*id)?;
            }
        }
        self.close(alloc, &mut row, &mut alternates)?;
        Ok(State::Union { alternates })
    }

    /// Returns the state that stands for these: one that reads bytes if all of them do, and otherwise a union.
    fn merge_list(&mut self, nfa: &NFA, list: &[StateID]) -> Result<State, AllocError> {
        for id in list {
            if !is_plain(nfa, *id) {
                return self.rows(nfa, list);
            }
        }
        self.row(nfa, list)
    }

    /// Returns the state that takes the place of a state of the NFA: a merged one if it is a wide union, and otherwise
    /// a copy.
    fn merge_state(&mut self, nfa: &NFA, state: &State) -> Result<State, AllocError> {
        match wide(state) {
            Some(alternates) => {
                if self.take(alternates.len()) {
                    self.merge_list(nfa, alternates)
                } else {
                    Ok(State::Fail)
                }
            }
            None => copy_of(nfa.alloc(), state),
        }
    }

    /// Adds the states that take the place of the NFA's states.
    fn merge_states(&mut self, nfa: &NFA, states: &mut Vec<State>) -> Result<(), AllocError>
        ensures { OnOk result (length states.new.items ≤ length states.old.items + length nfa.now.states) }
    {
        for state in nfa.states() {
            let merged = self.merge_state(nfa, state)?;
            states.push(merged)?;
        }
        Ok(())
    }

    /// Returns the additional state with this number.
    fn merge_further(&mut self, nfa: &NFA, at: usize) -> Result<State, AllocError> {
        let alloc = nfa.alloc();
        let Some(own) = self.lists.get_mut(at) else {
            return Ok(State::Fail);
        };
        let list = mem::replace(own, Vec::new(alloc));
        let state = self.merge_list(nfa, list.as_slice())?;
        if let Some(own) = self.lists.get_mut(at) {
            *own = list;
        }
        Ok(state)
    }

    /// Adds the additional states in order, but at most `most`.
    fn merge_lists(
        &mut self,
        nfa: &NFA,
        states: &mut Vec<State>,
        most: usize,
    ) -> Result<(), AllocError>
        ensures { OnOk result (length states.new.items ≤ length states.old.items + most) }
    {
        for at in 0..most {
            if at >= self.lists.len() || self.is_short {
                return Ok(());
            }
            let merged = self.merge_further(nfa, at)?;
            states.push(merged)?;
        }
        Ok(())
    }
}

/// Returns the states of the merged NFA, or none if a limit was exceeded.
pub fn merge(nfa: &NFA) -> Result<Option<MergedStates>, AllocError>
    ensures { IfOk result (λ some. IfSome some (λ merged. length merged.states.items ≤ most_merged nfa.now)) }
{
    let alloc = nfa.alloc();
    let count = nfa.states().len();
    let most = count.saturating_mul(EACH).saturating_add(MORE);
    let mut merging = Merging {
        count,
        lists: Vec::new(alloc),
        targets: no_lists(alloc, 256)?,
        first: 255,
        last: 0,
        left: most,
        is_short: false,
    };
    let mut states = Vec::with_capacity(alloc, count)?;
    merging.merge_states(nfa, &mut states)?;
    merging.merge_lists(nfa, &mut states, most)?;
    let Merging {
        lists,
        is_short,
        ..
    } = merging;
    if is_short {
        return Ok(None);
    }
    Ok(Some(MergedStates { states, lists }))
}

/// Returns the NFA with its wide unions merged: consecutive alternates that read bytes become one state, which
/// leads on each byte to all their targets, in order. So a lazy DFA of it has smaller states, which are made
/// faster; a set of 1,000 words takes a twentieth of the time and the memory until its states are cached.
///
/// Its searches, walks, spans and sets give the same answers, and its starts and flags are the same. The states
/// keep their IDs, and captures their groups and slots. Additional states come after them: at most eight for each
/// state, and 4,096 more. The result is the NFA itself if no union has eight alternates, if the NFA keeps unions
/// (`NFA::keeping_unions`), if more targets would be listed than eight for each state and 4,096 in addition, or if,
/// after merging, a closure would need more room, a cycle of epsilon transitions would newly pass a look, or
/// unanchored searches would no longer skip lazily. The only error is out of memory. The call takes time linear in
/// the states, their edges and what is listed.
pub fn merged(nfa: &NFA) -> Result<NFA, AllocError>
    ensures alike { IfOk result (λ made. (kind : MatchKind)
        → AnswerAlike (engine_of nfa.now kind) (engine_of made kind)) }
    ensures merged { IfOk result (λ made. IsMergedNfa nfa.now made) }
    ensures bounds { IfOk result (λ made. KeepsBounds nfa.now made) }
    ensures captures { IfOk result (λ made. KeepsCaptures nfa.now made) }
    ensures size { IfOk result (λ made. length made.states ≤ most_merged nfa.now) }
{
    let _states = nfa.states();
    merged_answers_alike();
    merged_if_wide(nfa)
}

/// Returns the NFA with its unions merged, if one of them is wide.
fn merged_if_wide(nfa: &NFA) -> Result<NFA, AllocError>
    ensures merged { IfOk result (λ made. IsMergedNfa nfa.now made) }
    ensures bounds { IfOk result (λ made. KeepsBounds nfa.now made) }
    ensures captures { IfOk result (λ made. KeepsCaptures nfa.now made) }
    ensures size { IfOk result (λ made. length made.states ≤ most_merged nfa.now) }
{
    if nfa.keeps_unions() || !has_wide(nfa.states()) {
        return unmerged(nfa);
    }
    match merge(nfa)? {
        Some(merged) => merged_as(nfa, merged),
        None => unmerged(nfa),
    }
}

/// Returns the NFA, with nothing merged.
fn unmerged(nfa: &NFA) -> Result<NFA, AllocError>
    ensures merged { IfOk result (λ made. IsMergedNfa nfa.now made) }
    ensures bounds { IfOk result (λ made. KeepsBounds nfa.now made) }
    ensures captures { IfOk result (λ made. KeepsCaptures nfa.now made) }
    ensures size { IfOk result (λ made. length made.states ≤ most_merged nfa.now) }
{
    nfa.clone()
}

/// Returns the NFA of these states if it is `nfa` with unions merged, and otherwise `nfa`.
fn merged_as(nfa: &NFA, merged: MergedStates) -> Result<NFA, AllocError>
    requires unions { nfa.now.keeps_unions ≡ false }
    requires few { length merged.states.items ≤ most_merged nfa.now }
    ensures merged { IfOk result (λ made. IsMergedNfa nfa.now made) }
    ensures bounds { IfOk result (λ made. KeepsBounds nfa.now made) }
    ensures captures { IfOk result (λ made. KeepsCaptures nfa.now made) }
    ensures size { IfOk result (λ made. length made.states ≤ most_merged nfa.now) }
{
    let MergedStates { states, lists } = merged;
    match with_states(nfa, states)? {
        Some(made) => if_merged(nfa, made, lists.as_slice()),
        None => unmerged(nfa),
    }
}

/// Returns the NFA of these states with the starts and flags of `nfa`, or none if `NFA::from_states` does not
/// accept them.
pub fn with_states(nfa: &NFA, states: Vec<State>) -> Result<Option<NFA>, AllocError>
    requires { nfa.now.keeps_unions ≡ false }
    ensures begins { IfOk result (λ some. IfSome some (λ made. BeginsAs nfa.now made)) }
    ensures states { IfOk result (λ some. IfSome some (λ made. made.states ≡ states.items)) }
{
    let starts = Vec::from_slice(nfa.alloc(), nfa.pattern_starts())?;
    let (anchored, unanchored) = (nfa.start_anchored(), nfa.start_unanchored());
    match NFA::from_states(
        nfa.alloc(),
        states,
        anchored,
        unanchored,
        starts,
        nfa.flags(),
    ) {
        Ok(made) => Ok(Some(made)),
        Err(NfaError::OutOfMemory) => Err(AllocError),
        Err(_) => Ok(None),
    }
}

/// Returns `made` if it is `nfa` with unions merged and keeps its bounds, and otherwise `nfa`.
fn if_merged(nfa: &NFA, made: NFA, lists: &[Vec<StateID>]) -> Result<NFA, AllocError>
    requires begins { BeginsAs nfa.now made }
    requires few { length made.states ≤ most_merged nfa.now }
    ensures merged { IfOk result (λ m. IsMergedNfa nfa.now m) }
    ensures bounds { IfOk result (λ m. KeepsBounds nfa.now m) }
    ensures captures { IfOk result (λ m. KeepsCaptures nfa.now m) }
    ensures size { IfOk result (λ m. length m.states ≤ most_merged nfa.now) }
{
    if bounds(nfa, &made) && keeps_captures(nfa, &made) && is_merged(nfa, &made, lists)? {
        return Ok(made);
    }
    unmerged(nfa)
}

/// Whether a closure in the other NFA needs no more room than in `nfa`, no cycle of epsilon transitions passes a
/// look there if none does here, and it skips lazily if `nfa` does.
pub fn bounds(nfa: &NFA, other: &NFA) -> bool
    ensures { IsTrue result → KeepsBounds nfa.now other.now }
{
    other.room() <= nfa.room()
        && (!nfa.is_look_acyclic() || other.is_look_acyclic())
        && (!nfa.skips_lazily() || other.skips_lazily())
}
