//! The edges of an NFA, grouped by target, as a reversed NFA needs them.
ghost use Rattle.std.specs.Prelude.{ℕ, Some, ◌≡◌, ◌<◌, ◌≤◌, ◌+◌, ◌^◌, [], ◌∷◌, ◌++◌, true, IfOk, OnOk, Err, length};
ghost use Rattle.std.specs.Prelude.{drop, None, slice_index_or, slice_get};
ghost use Rattle.automata_base.specs.Lists.{all_below};
ghost use Rattle.automata_transform.specs.Nfas.Mirrors.{flip};
ghost use Rattle.automata_base.specs.Nfas.Nodes.{node_of, nodes_of};
ghost use Rattle.automata_base.specs.Nfas.Errors.{transitions_below, state_below, states_below};
ghost use Rattle.automata_transform.specs.Retraced.DenseRuns.{starts_with, run_of, runs_from};
ghost use Rattle.automata_base.specs.Retraced.ReversedEdges.{no_lists};
ghost use Rattle.automata_transform.specs.Retraced.ReversedEdges.{alternates_in, turns_of, turn_free};
ghost use Rattle.automata_transform.specs.Retraced.ReversedEdges.{turn_by, turn_all, turn_ranges};
ghost use Rattle.automata_transform.specs.Retraced.ReversedEdges.{turn_state, turn_states, size, IsHead, AreMade};

use crate::alternates::{Alternates, no_alternates, push_at, put_at, single};
use automata_base::nfa::thompson::{State, Transition};
use automata_base::util::look::Look;
use automata_base::util::primitives::{PatternID, StateID};
use std::alloc::{AllocError, Global};

/// Returns the look that holds if the bytes on the two sides are exchanged and the reverse flag is flipped.
fn flip(look: Look) -> Look
    ensures { result ≡ flip look }
{
    match look {
        Look::Start => Look::End,
        Look::End => Look::Start,
        Look::StartLF => Look::EndLF,
        Look::EndLF => Look::StartLF,
        Look::StartCRLF => Look::EndCRLF,
        Look::EndCRLF => Look::StartCRLF,
        Look::WordAscii => Look::WordAscii,
        Look::WordAsciiNegate => Look::WordAsciiNegate,
        Look::WordUnicode => Look::WordUnicode,
        Look::WordUnicodeNegate => Look::WordUnicodeNegate,
        Look::WordStartAscii => Look::WordEndAscii,
        Look::WordEndAscii => Look::WordStartAscii,
        Look::WordStartUnicode => Look::WordEndUnicode,
        Look::WordEndUnicode => Look::WordStartUnicode,
        Look::WordStartHalfAscii => Look::WordEndHalfAscii,
        Look::WordEndHalfAscii => Look::WordStartHalfAscii,
        Look::WordStartHalfUnicode => Look::WordEndHalfUnicode,
        Look::WordEndHalfUnicode => Look::WordStartHalfUnicode,
    }
}

/// Appends a state to a list.
#[inline(always)]
pub fn push_state(states: &mut Vec<State>, state: State) -> Result<(), AllocError>
    ensures items { OnOk result (states.new.items ≡ states.old.items ++ state ∷ []) }
    ensures nodes { OnOk result (nodes_of states.new.items ≡ nodes_of states.old.items ++ node_of state ∷ []) }
    ensures more { OnOk result (length states.new.items ≡ length states.old.items + 1) }
{
    states.push(state)?;
    Ok(())
}

/// Returns a copy of the state if it reads one range of bytes, tests a look or matches, and none otherwise.
fn same(state: &State) -> Option<State>
    ensures { (other : State) → result ≡ Some other → other ≡ state.now }
{
    match state {
        State::ByteRange { lo, hi, next } => Some(State::ByteRange {
            lo: *lo,
            hi: *hi,
            next: *next,
        }),
        State::Look { look, next } => Some(State::Look {
            look: *look,
            next: *next,
        }),
        State::Match { pattern } => Some(State::Match { pattern: *pattern }),
        _ => None,
    }
}

/// Returns a copy of the helper with this ID, or none if it is not the ID of a helper. The first helper has the ID
/// `first`.
fn helper_of(id: StateID, helpers: &[State], first: usize) -> Option<State>
    ensures { (state : State) → result ≡ Some state
        → (j : ℕ) × (id ≡ first + j) × (slice_get helpers.now j ≡ Some state) }
{
    if id.as_usize() < first {
        return None;
    }
    let at = id.as_usize() - first;
    if at >= helpers.len() {
        return None;
    }
    same(&helpers[at])
}

/// Returns the state of one alternate: a copy of the helper, or a union if it is not a helper. The first helper has the
/// ID `first`.
fn head_of(
    alloc: Global,
    only: StateID,
    helpers: &[State],
    first: usize,
) -> Result<State, AllocError>
    ensures { IfOk result (λ state. IsHead first helpers.now (only ∷ []) state) }
{
    if let Some(state) = helper_of(only, helpers, first) {
        return Ok(state);
    }
    let alternates = single(alloc, only)?;
    Ok(State::Union { alternates })
}

/// Returns the state of these alternates: their union, or a copy of the helper if that is the only one. The first
/// helper has the ID `first`.
fn head(
    alloc: Global,
    alternates: Alternates,
    helpers: &[State],
    first: usize,
) -> Result<State, AllocError>
    ensures { IfOk result (λ state. IsHead first helpers.now (alternates_in alternates) state) }
{
    match alternates {
        Alternates::Empty => Ok(State::Union {
            alternates: Vec::new(alloc),
        }),
        Alternates::One(only) => head_of(alloc, only, helpers, first),
        Alternates::Several(alternates) => Ok(State::Union { alternates }),
    }
}

/// Whether a dense state leads to the same state on this byte and the next one. It is false for byte 255.
fn goes_on(targets: &[StateID; 256], byte: usize) -> bool
    requires { byte < 256 }
    ensures { result ≡ starts_with (slice_index_or targets.now byte 0) (drop (byte + 1) targets.now) }
{
    byte < 255 && targets[byte + 1] == targets[byte]
}

/// Why the states of a reversed NFA cannot be made.
#[derive(Clone, Copy)]
pub enum MakeError {
    /// There would be too many states.
    TooLarge,
    /// An allocation failed.
    OutOfMemory,
}

impl From<AllocError> for MakeError {
    ghost use Rattle.std.specs.Prelude.{◌≡◌};
    ghost use Rattle.automata_transform.specs.declared.turn.MakeError.TheVariants.{OutOfMemory};

    ghost from_gives = { λ _ e. e ≡ OutOfMemory };

    fn from(_e: AllocError) -> MakeError {
        MakeError::OutOfMemory
    }
}

/// For each state, the edges that lead to it, as alternates. An edge that reads and tests nothing is represented by the
/// state where it begins, and any other edge by a helper, a state of its own. The helpers come after the states.
#[derive(Drop)]
pub struct EdgesByTarget {
    alloc: Global,
    lists: Vec<Alternates>,
    helpers: Vec<State>,
}

impl EdgesByTarget {
    /// Returns the reversed edges of an NFA with this number of states, before any edge is reversed.
    pub fn new(alloc: Global, states: usize) -> Result<EdgesByTarget, AllocError>
        ensures none { IfOk result (λ t. turns_of t ≡ record { lists = no_lists states; helpers = [] }) }
        ensures few { IfOk result (λ t. length t.lists.items ≡ states) }
    {
        let lists = no_alternates(alloc, states)?;
        let helpers = Vec::with_capacity(alloc, states)?;
        Ok(EdgesByTarget {
            alloc,
            lists,
            helpers,
        })
    }

    /// Returns the ID of the next helper, or none if there is no ID left.
    fn next_helper(&self) -> Option<StateID>
        ensures some { (id : ℕ) → result ≡ Some id → id ≡ size (turns_of self.now) }
        ensures none { result ≡ None → 2 ^ 27 < size (turns_of self.now) }
    {
        StateID::new(self.lists.len() + self.helpers.len())
    }

    /// Reverses an edge from the state `x` to `to` that reads and tests nothing. The edges of a state are reversed one
    /// after another, so that it does not become an alternate twice.
    fn turn_free(&mut self, x: StateID, to: StateID) -> Result<(), AllocError>
        requires { to < length self.old.lists.items }
        ensures turned { OnOk result (turns_of self.new ≡ turn_free (turns_of self.old) x to) }
        ensures few { OnOk result (length self.new.lists.items ≡ length self.old.lists.items) }
    {
        put_at(self.alloc, &mut self.lists, to.as_usize(), x)?;
        Ok(())
    }

    /// Adds a helper that stands for an edge to `to`, as an alternate of `to`. If there is no ID left, it fails with
    /// `TooLarge`.
    #[inline(always)]
    fn turn_by(&mut self, helper: State, to: StateID) -> Result<(), MakeError>
        requires { to < length self.old.lists.items }
        ensures turned { OnOk result (turns_of self.new ≡ turn_by (turns_of self.old) helper to) }
        ensures few { OnOk result (length self.new.lists.items ≡ length self.old.lists.items) }
        ensures large { result ≡ Err MakeError.TooLarge
            → 2 ^ 27 < size (turn_by (turns_of self.old) helper to) }
    {
        let Some(id) = self.next_helper() else {
            return Err(MakeError::TooLarge);
        };
        push_state(&mut self.helpers, helper)?;
        push_at(self.alloc, &mut self.lists, to.as_usize(), id)?;
        Ok(())
    }

    /// Reverses the edges from a state to its alternates.
    fn turn_all(&mut self, from: StateID, alternates: &[StateID]) -> Result<(), AllocError>
        requires { all_below (length self.old.lists.items) alternates.now ≡ true }
        ensures turned { OnOk result (turns_of self.new ≡ turn_all (turns_of self.old) from alternates.now) }
        ensures few { OnOk result (length self.new.lists.items ≡ length self.old.lists.items) }
    {
        for to in alternates {
            self.turn_free(from, *to)?;
        }
        Ok(())
    }

    /// Reverses the edge of a range of bytes.
    fn turn_range(&mut self, from: StateID, range: &Transition) -> Result<(), MakeError>
        requires { range.now.next < length self.old.lists.items }
        ensures turned { OnOk result (turns_of self.new
            ≡ turn_by (turns_of self.old) (State.ByteRange range.now.lo range.now.hi from) range.now.next) }
        ensures few { OnOk result (length self.new.lists.items ≡ length self.old.lists.items) }
        ensures large { result ≡ Err MakeError.TooLarge
            → 2 ^ 27 < size (turn_by
            (turns_of self.old) (State.ByteRange range.now.lo range.now.hi from) range.now.next) }
    {
        let helper = State::ByteRange {
            lo: range.lo,
            hi: range.hi,
            next: from,
        };
        self.turn_by(helper, range.next)
    }

    /// Reverses the edges of the ranges of a state.
    fn turn_ranges(&mut self, from: StateID, ranges: &[Transition]) -> Result<(), MakeError>
        requires { transitions_below (length self.old.lists.items) ranges.now ≡ true }
        ensures turned { OnOk result (turns_of self.new ≡ turn_ranges (turns_of self.old) from ranges.now) }
        ensures few { OnOk result (length self.new.lists.items ≡ length self.old.lists.items) }
        ensures large { result ≡ Err MakeError.TooLarge
            → 2 ^ 27 < size (turn_ranges (turns_of self.old) from ranges.now) }
    {
        for range in ranges {
            self.turn_range(from, range)?;
        }
        Ok(())
    }

    /// Reverses the edge of the bytes from `lo` to `hi` of a dense state. Target 0 means that there is no edge.
    fn turn_run(&mut self, from: StateID, lo: u8, hi: u8, target: StateID) -> Result<(), MakeError>
        requires { target < length self.old.lists.items }
        ensures turned { OnOk result (turns_of self.new
            ≡ turn_ranges (turns_of self.old) from (run_of lo hi target)) }
        ensures few { OnOk result (length self.new.lists.items ≡ length self.old.lists.items) }
        ensures large { result ≡ Err MakeError.TooLarge
            → 2 ^ 27 < size (turn_ranges (turns_of self.old) from (run_of lo hi target)) }
    {
        if target.as_usize() == 0 {
            return Ok(());
        }
        let helper = State::ByteRange { lo, hi, next: from };
        self.turn_by(helper, target)
    }

    /// Reverses the run of bytes of a dense state that begins at `lo`, if it ends at this byte, and returns where the
    /// run of the next byte begins.
    fn turn_byte(
        &mut self,
        from: StateID,
        targets: &[StateID; 256],
        lo: usize,
        byte: usize,
    ) -> Result<usize, MakeError>
        requires range { all_below (length self.old.lists.items) targets.now ≡ true }
        requires order { lo ≤ byte }
        requires inside { byte < 256 }
        ensures turned { IfOk result (λ next. turn_ranges (turns_of self.new) from
            (runs_from next (byte + 1) (drop (byte + 1) targets.now))
            ≡ turn_ranges (turns_of self.old) from (runs_from lo byte (drop byte targets.now))) }
        ensures order { IfOk result (λ next. next ≤ byte + 1) }
        ensures few { OnOk result (length self.new.lists.items ≡ length self.old.lists.items) }
        ensures large { result ≡ Err MakeError.TooLarge
            → 2 ^ 27 < size (turn_ranges (turns_of self.old) from (runs_from lo byte (drop byte targets.now))) }
    {
        if goes_on(targets, byte) {
            return Ok(lo);
        }
        self.turn_run(from, lo as u8, byte as u8, targets[byte])?;
        Ok(byte + 1)
    }

    /// Reverses the edges of a dense state, one for each run of bytes that lead to the same state.
    fn turn_targets(&mut self, from: StateID, targets: &[StateID; 256]) -> Result<(), MakeError>
        requires { all_below (length self.old.lists.items) targets.now ≡ true }
        ensures turned { OnOk result (turns_of self.new
            ≡ turn_ranges (turns_of self.old) from (runs_from 0 0 targets.now)) }
        ensures few { OnOk result (length self.new.lists.items ≡ length self.old.lists.items) }
        ensures large { result ≡ Err MakeError.TooLarge
            → 2 ^ 27 < size (turn_ranges (turns_of self.old) from (runs_from 0 0 targets.now)) }
    {
        let mut lo = 0;
        for byte in 0..256 {
            lo = self.turn_byte(from, targets, lo, byte)?;
        }
        Ok(())
    }

    /// Reverses the edge of a look, which is flipped.
    fn turn_look(&mut self, from: StateID, look: Look, to: StateID) -> Result<(), MakeError>
        requires { to < length self.old.lists.items }
        ensures turned { OnOk result (turns_of self.new
            ≡ turn_by (turns_of self.old) (State.Look (flip look) from) to) }
        ensures few { OnOk result (length self.new.lists.items ≡ length self.old.lists.items) }
        ensures large { result ≡ Err MakeError.TooLarge
            → 2 ^ 27 < size (turn_by (turns_of self.old) (State.Look (flip look) from) to) }
    {
        let helper = State::Look {
            look: flip(look),
            next: from,
        };
        self.turn_by(helper, to)
    }

    /// Reverses each edge of a state.
    fn turn_state(&mut self, from: StateID, state: &State) -> Result<(), MakeError>
        requires { state_below (length self.old.lists.items) state.now ≡ true }
        ensures turned { OnOk result (turns_of self.new ≡ turn_state (turns_of self.old) from state.now) }
        ensures few { OnOk result (length self.new.lists.items ≡ length self.old.lists.items) }
        ensures large { result ≡ Err MakeError.TooLarge
            → 2 ^ 27 < size (turn_state (turns_of self.old) from state.now) }
    {
        match state {
            State::ByteRange { lo, hi, next } => {
                let helper = State::ByteRange {
                    lo: *lo,
                    hi: *hi,
                    next: from,
                };
                self.turn_by(helper, *next)
            }
            State::Sparse(ranges) => self.turn_ranges(from, ranges),
            State::Dense(targets) => self.turn_targets(from, targets),
            State::Look { look, next } => self.turn_look(from, *look, *next),
            State::Union { alternates } => {
                self.turn_all(from, alternates)?;
                Ok(())
            }
            State::BinaryUnion { alt1, alt2 } => {
                self.turn_free(from, *alt1)?;
                self.turn_free(from, *alt2)?;
                Ok(())
            }
            State::Capture { next, .. } => {
                self.turn_free(from, *next)?;
                Ok(())
            }
            State::Fail => Ok(()),
            State::Match { .. } => Ok(()),
        }
    }

    /// Reverses each edge of these states.
    pub fn turn_states(&mut self, states: &[State], ids: &[StateID]) -> Result<(), MakeError>
        requires whole { length self.old.lists.items ≡ length states.now }
        requires range { states_below (length states.now) states.now ≡ true }
        requires below { all_below (length states.now) ids.now ≡ true }
        ensures turned { OnOk result (turns_of self.new ≡ turn_states (turns_of self.old) states.now ids.now) }
        ensures few { OnOk result (length self.new.lists.items ≡ length states.now) }
        ensures large { result ≡ Err MakeError.TooLarge
            → 2 ^ 27 < size (turn_states (turns_of self.old) states.now ids.now) }
    {
        for id in ids {
            self.turn_state(*id, &states[id.as_usize()])?;
        }
        Ok(())
    }

    /// Adds a match state as an alternate of `first`: backward, paths end where they begin forward.
    pub fn report(&mut self, first: StateID) -> Result<(), MakeError>
        requires { first < length self.old.lists.items }
        ensures turned { OnOk result (turns_of self.new ≡ turn_by (turns_of self.old) (State.Match 0) first) }
        ensures few { OnOk result (length self.new.lists.items ≡ length self.old.lists.items) }
        ensures large { result ≡ Err MakeError.TooLarge
            → 2 ^ 27 < size (turn_by (turns_of self.old) (State.Match 0) first) }
    {
        let helper = State::Match {
            pattern: PatternID::ZERO,
        };
        self.turn_by(helper, first)
    }

    /// Returns the states: one for each list of alternates, and after these the helpers.
    pub fn into_states(self) -> Result<Vec<State>, AllocError>
        ensures { IfOk result (λ states. AreMade (turns_of self) states.items) }
    {
        let EdgesByTarget {
            alloc,
            lists,
            mut helpers,
        } = self;
        let first = lists.len();
        let mut states = Vec::with_capacity(alloc, first + helpers.len())?;
        for alternates in lists {
            let head = head(alloc, alternates, &helpers, first)?;
            states.push(head)?;
        }
        states.append(&mut helpers)?;
        Ok(states)
    }
}
