//! A builder of NFAs, state by state.
use crate::nfa::thompson::NFA;
use crate::nfa::thompson::building::{Added, BuildError, patch, push_states};
use crate::nfa::thompson::state::{Flags, NfaError, Transition};
use crate::util::look::Look;
use crate::util::primitives::{PatternID, StateID};
use std::alloc::Global;
use std::marker::Model;

/// A builder of an NFA. Add states one by one; each call returns the ID of its state, which the NFA keeps. A target may
/// be a state that does not exist yet, and can be patched later. Matches and groups belong to the pattern that was
/// started last. A call that returns an error changes nothing.
#[derive(Debug)]
pub struct Builder {
    alloc: Global,
    states: Vec<Added>,
    pattern: Option<PatternID>,
    starts: Vec<StateID>,
    flags: Flags,
}

// An owner drops this with one call, so that its proof has no step for each field.
impl Drop for Builder {
    fn drop(self) {
        let Self {
            alloc: _alloc,
            states: _states,
            pattern: _pattern,
            starts: _starts,
            flags: _flags,
        } = self;
    }
}

impl Model for Builder {
    ghost use Rattle.std.specs.Prelude.{◌≡◌, ℕ, Some, length};
    ghost use Rattle.automata_base.specs.Nfas.Drafts.{Draft, draft_of};

    ghost Value = { Draft };

    ghost view = { draft_of };

    ghost invariant = { λ b. (p : ℕ) → b.pattern ≡ Some p → p ≡ length b.starts.items };
}

impl Builder {
    ghost use Rattle.std.specs.Prelude.{◌≡◌, ◌⊎◌, ◌+◌, ◌*◌, ◌<◌, ◌≤◌, ◌∷◌, [], ℕ, None, Some, length, set};
    ghost use Rattle.std.specs.Prelude.{IfOk, OnOk, OnErr, IsOk, IsOkUnless, slice_get};
    ghost use Rattle.automata_base.specs.Nfas.Drafts.{blank, default_flags, with_states, with_flags, started, finished};
    ghost use Rattle.automata_base.specs.Nfas.Drafts.{prefix_of};
    ghost use Rattle.automata_base.specs.Nfas.Drafts.{IsAdding, IsAddingOf, draft_error, outline, built};
    ghost use Rattle.automata_base.specs.Nfas.Shapes.{Shape, shape_added, patched, EmptyShape, RangeShape, SparseShape};
    ghost use Rattle.automata_base.specs.Nfas.Shapes.{LookShape, UnionShape, UnionReverseShape, CaptureShape};
    ghost use Rattle.automata_base.specs.Nfas.Shapes.{FailShape};
    ghost use Rattle.automata_base.specs.Nfas.Shapes.{MatchShape};

    /// Returns a builder without states, whose NFA is neither in UTF-8 mode nor reversed, and whose lines end in `\n`.
    pub fn new(alloc: Global) -> Builder
        ensures { result ≡ blank default_flags }
    {
        Builder {
            alloc,
            states: Vec::new(alloc),
            pattern: None,
            starts: Vec::new(alloc),
            flags: Flags::default(),
        }
    }

    /// Removes all states and patterns. The settings stay.
    pub fn clear(&mut self)
        ensures { self.new ≡ blank self.old.flags }
    {
        self.states.clear();
        self.pattern = None;
        self.starts.clear();
    }

    /// Starts a pattern, and returns its ID. Matches and groups belong to it until it is finished.
    pub fn start_pattern(&mut self) -> Result<PatternID, BuildError>
        ensures id { IfOk result (λ p. p ≡ length self.old.starts) }
        ensures started { OnOk result (self.new ≡ started self.old) }
        ensures same { OnErr result (self.new ≡ self.old) }
        ensures unfinished { (p : ℕ) → self.old.pattern ≡ Some p → result ≡ Err BuildError.UnfinishedPattern }
        ensures large { self.old.pattern ≡ None → 2147483646 < length self.old.starts
            → result ≡ Err BuildError.TooLarge }
        ensures few { self.old.pattern ≡ None → length self.old.starts ≤ 2147483646 → IsOk result }
    {
        if self.pattern.is_some() {
            return Err(BuildError::UnfinishedPattern);
        }
        let Some(pattern) = PatternID::new(self.starts.len()) else {
            return Err(BuildError::TooLarge);
        };
        self.pattern = Some(pattern);
        Ok(pattern)
    }

    /// Finishes the pattern that was started, and returns its ID. Searches for the pattern start at `start_id`.
    pub fn finish_pattern(&mut self, start_id: StateID) -> Result<PatternID, BuildError>
        ensures id { IfOk result (λ p. self.old.pattern ≡ Some p) }
        ensures finished { OnOk result (self.new ≡ finished self.old start_id) }
        ensures same { OnErr result (self.new ≡ self.old) }
        ensures none { self.old.pattern ≡ None → result ≡ Err BuildError.NoPattern }
        ensures memory { (p : ℕ) → self.old.pattern ≡ Some p → IsOkUnless result BuildError.OutOfMemory }
    {
        let Some(pattern) = self.pattern else {
            return Err(BuildError::NoPattern);
        };
        match self.starts.push(start_id) {
            Ok(()) => {
                self.pattern = None;
                Ok(pattern)
            }
            Err(_) => Err(BuildError::OutOfMemory),
        }
    }

    /// Adds a state after the others, and returns its ID. If no ID is left for it, the call fails with `TooLarge`.
    fn add(&mut self, added: Added) -> Result<StateID, BuildError>
        ensures { IsAdding self.old self.new result (shape_added added ∷ []) }
    {
        let Some(id) = StateID::new(self.states.len()) else {
            return Err(BuildError::TooLarge);
        };
        match self.states.push(added) {
            Ok(()) => Ok(id),
            Err(_) => Err(BuildError::OutOfMemory),
        }
    }

    /// Adds a state with one epsilon edge, to state 0 until it is patched. It is built as a union of one alternate.
    pub fn add_empty(&mut self) -> Result<StateID, BuildError>
        ensures { IsAdding self.old self.new result (EmptyShape 0 ∷ []) }
    {
        self.add(Added::Empty {
            next: StateID::ZERO,
        })
    }

    /// Adds a union whose first alternate is preferred. A patch adds an alternate after the others.
    pub fn add_union(&mut self, alternates: Vec<StateID>) -> Result<StateID, BuildError>
        ensures { IsAdding self.old self.new result (UnionShape alternates.items ∷ []) }
    {
        self.add(Added::Union { alternates })
    }

    /// Adds a union whose last alternate is preferred. A patch adds an alternate that is preferred to the others.
    pub fn add_union_reverse(&mut self, alternates: Vec<StateID>) -> Result<StateID, BuildError>
        ensures { IsAdding self.old self.new result (UnionReverseShape alternates.items ∷ []) }
    {
        self.add(Added::UnionReverse { alternates })
    }

    /// Adds a state that reads one byte in a range.
    pub fn add_range(&mut self, trans: Transition) -> Result<StateID, BuildError>
        ensures { IsAdding self.old self.new result (RangeShape trans.lo trans.hi trans.next ∷ []) }
    {
        self.add(Added::Range(trans))
    }

    /// Adds a state that reads one byte by the range that contains it. It cannot be patched.
    pub fn add_sparse(&mut self, ranges: Vec<Transition>) -> Result<StateID, BuildError>
        ensures { IsAdding self.old self.new result (SparseShape ranges.items ∷ []) }
    {
        self.add(Added::Sparse(ranges))
    }

    /// Adds a look-around assertion.
    pub fn add_look(&mut self, next: StateID, look: Look) -> Result<StateID, BuildError>
        ensures { IsAdding self.old self.new result (LookShape look next ∷ []) }
    {
        self.add(Added::Look { look, next })
    }

    /// Adds a state without edges.
    pub fn add_fail(&mut self) -> Result<StateID, BuildError>
        ensures { IsAdding self.old self.new result (FailShape ∷ []) }
    {
        self.add(Added::Fail)
    }

    /// Adds a match state of the pattern that was started.
    pub fn add_match(&mut self) -> Result<StateID, BuildError>
        ensures { IsAddingOf self.old self.new result (λ p. MatchShape p) }
    {
        match self.pattern {
            Some(pattern) => self.add(Added::Match { pattern }),
            None => Err(BuildError::NoPattern),
        }
    }

    /// Adds a capture for a group of the pattern that was started, with this slot. If none was started, it fails with
    /// `NoPattern`.
    fn add_capture(
        &mut self,
        next: StateID,
        group_index: u32,
        slot: u32,
    ) -> Result<StateID, BuildError>
        ensures { IsAddingOf self.old self.new result (λ p. CaptureShape next p group_index slot) }
    {
        match self.pattern {
            Some(pattern_id) => self.add(Added::Capture {
                next,
                pattern_id,
                group_index,
                slot,
            }),
            None => Err(BuildError::NoPattern),
        }
    }

    /// Adds the start of a group of the pattern that was started. Its slot is twice the group's index.
    pub fn add_capture_start(
        &mut self,
        next: StateID,
        group_index: u32,
    ) -> Result<StateID, BuildError>
        ensures added { group_index ≤ 2147483646
            → IsAddingOf self.old self.new result (λ p. CaptureShape next p group_index (2 * group_index)) }
        ensures large { 2147483646 < group_index → (result ≡ Err BuildError.TooLarge) × (self.new ≡ self.old) }
    {
        if group_index > 2147483646 {
            return Err(BuildError::TooLarge);
        }
        self.add_capture(next, group_index, 2 * group_index)
    }

    /// Adds the end of a group of the pattern that was started. Its slot is the one after the start's.
    pub fn add_capture_end(
        &mut self,
        next: StateID,
        group_index: u32,
    ) -> Result<StateID, BuildError>
        ensures added { group_index ≤ 2147483646
            → IsAddingOf self.old self.new result (λ p. CaptureShape next p group_index (2 * group_index + 1)) }
        ensures large { 2147483646 < group_index → (result ≡ Err BuildError.TooLarge) × (self.new ≡ self.old) }
    {
        if group_index > 2147483646 {
            return Err(BuildError::TooLarge);
        }
        self.add_capture(next, group_index, 2 * group_index + 1)
    }

    /// Adds an alternate to a union, or changes the target of a state that has one. Fail and match states are
    /// unchanged. A sparse state cannot be patched: each of its ranges has its own target.
    pub fn patch(&mut self, from: StateID, to: StateID) -> Result<(), BuildError>
        ensures patched { OnOk result ((old shape : Shape) → slice_get self.old.states from ≡ Some old
            → patched old to ≡ Some shape → self.new ≡ with_states self.old (set self.old.states from shape)) }
        ensures same { OnErr result (self.new ≡ self.old) }
        ensures range { length self.old.states ≤ from → result ≡ Err BuildError.StateRange }
        ensures sparse { (old : Shape) → slice_get self.old.states from ≡ Some old → patched old to ≡ None
            → result ≡ Err BuildError.SparsePatch }
        ensures memory { (old shape : Shape) → slice_get self.old.states from ≡ Some old → patched old to ≡ Some shape
            → IsOkUnless result BuildError.OutOfMemory }
    {
        if from.as_usize() >= self.states.len() {
            return Err(BuildError::StateRange);
        }
        patch(&mut self.states[from.as_usize()], to)
    }

    /// Sets whether the NFA omits empty matches that split a UTF-8 encoded character.
    pub fn set_utf8(&mut self, yes: bool)
        ensures { self.new ≡ with_flags self.old (record self.old.flags { utf8 = yes }) }
    {
        self.flags.utf8 = yes;
    }

    /// Sets whether the NFA matches reversed text.
    pub fn set_reverse(&mut self, yes: bool)
        ensures { self.new ≡ with_flags self.old (record self.old.flags { reverse = yes }) }
    {
        self.flags.reverse = yes;
    }

    /// Sets the byte that ends a line, for the looks at lines.
    pub fn set_line_terminator(&mut self, byte: u8)
        ensures { self.new ≡ with_flags self.old (record self.old.flags { line_terminator = byte }) }
    {
        self.flags.line_terminator = byte;
    }

    /// Adds a lazy loop over any bytes before a start, and returns its ID: an unanchored search that starts there finds
    /// matches at any offset. The loop has two states, a union that prefers the start, and a state that reads any byte.
    /// If no earlier state leads to it, an NFA that starts there skips lazily.
    pub fn add_unanchored_prefix(&mut self, start: StateID) -> Result<StateID, BuildError>
        ensures { IsAdding self.old self.new result (prefix_of self.old start) }
    {
        let Some(skip) = StateID::new(self.states.len() + 1) else {
            return Err(BuildError::TooLarge);
        };
        let Ok(alternates) = Vec::from_slice(self.alloc, &[start, skip]) else {
            return Err(BuildError::OutOfMemory);
        };
        let union = self.add_union(alternates)?;
        let any = Transition {
            lo: 0,
            hi: 255,
            next: union,
        };
        if let Err(error) = self.add_range(any) {
            self.states.pop();
            return Err(error);
        }
        Ok(union)
    }

    /// Builds the NFA of the states that were added, with these two starts. It fails if a pattern is not finished, or
    /// if `NFA::from_states` fails.
    pub fn build(
        &self,
        start_anchored: StateID,
        start_unanchored: StateID,
    ) -> Result<NFA, BuildError>
        ensures same { IfOk result (λ nfa. outline nfa ≡ built self.now start_anchored start_unanchored) }
        ensures unfinished { (p : ℕ) → self.now.pattern ≡ Some p → result ≡ Err BuildError.UnfinishedPattern }
        ensures refused { (error : NfaError) → self.now.pattern ≡ None
            → draft_error self.now start_anchored start_unanchored ≡ Some error
            → (result ≡ Err (BuildError.NFA error)) ⊎ (result ≡ Err BuildError.OutOfMemory) }
        ensures memory { self.now.pattern ≡ None → draft_error self.now start_anchored start_unanchored ≡ None
            → IsOkUnless result BuildError.OutOfMemory }
    {
        if self.pattern.is_some() {
            return Err(BuildError::UnfinishedPattern);
        }
        let Ok(mut states) = Vec::with_capacity(self.alloc, self.states.len()) else {
            return Err(BuildError::OutOfMemory);
        };
        let Ok(()) = push_states(self.alloc, &mut states, self.states.as_slice()) else {
            return Err(BuildError::OutOfMemory);
        };
        let Ok(starts) = Vec::from_slice(self.alloc, self.starts.as_slice()) else {
            return Err(BuildError::OutOfMemory);
        };
        let nfa = NFA::from_states(
            self.alloc,
            states,
            start_anchored,
            start_unanchored,
            starts,
            self.flags,
        );
        match nfa {
            Ok(nfa) => Ok(nfa),
            Err(error) => Err(BuildError::from(error)),
        }
    }
}
