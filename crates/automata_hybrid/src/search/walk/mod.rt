//! The state of an overlapping search, and what it holds between calls. `advance` takes it to the next match,
//! `overlapping` makes one call, and `which` collects the patterns of all matches.
ghost use Rattle.std.specs.Prelude.{◌≡◌, ◌+◌, ◌<◌, ◌≤◌, ◌^◌, IfOk, OnOk, OnErr, length, true, false, None};
ghost use Rattle.automata_base.specs.Powersets.Powerset.{Powerset};
ghost use Rattle.automata_hybrid.specs.Cache.Table.{IsRowId, Names};
ghost use Rattle.automata_hybrid.specs.Walks.State.{At, Ended, Fresh, States, fresh_walk, without_match};
ghost use Rattle.automata_hybrid.specs.Private.Walks.State.{ended_walk, keeping_of, Holds, HoldsNone, IsHeldItself};
ghost use Rattle.automata_hybrid.specs.Private.Walks.State.{with_match};

mod advance;
pub(crate) mod overlapping;
mod which;

use crate::cache::Cache;
use crate::cache::handle::Handle;
use crate::id::LazyStateID;
use automata_base::util::search::HalfMatch;
use automata_determinize::determinize::State;
use std::alloc::AllocError;
use std::fmt;
use std::marker::Model;
use std::snapshot::Snapshot;

/// What a walk holds of its powerset state: the state itself, or the ID of its row in a walk that lasts for only one
/// call. It is `None` before the walk begins.
#[derive(Drop)]
pub(crate) enum Held {
    State(Option<Handle>),
    Row(Option<LazyStateID>),
}

impl Held {
    /// Returns a copy of what is held: the powerset state is shared, and an ID is copied.
    fn share(&self) -> Result<Held, AllocError>
        ensures keeping { IfOk result (λ held. keeping_of held ≡ keeping_of self.now) }
        ensures none { IfOk result (λ held. HoldsNone self.now → HoldsNone held) }
        ensures itself { IfOk result
            (λ held. (q : Powerset) → IsHeldItself (At q) self.now → IsHeldItself (At q) held) }
    {
        match self {
            Held::State(Some(handle)) => {
                let again = Handle::of(&handle.state)?;
                Ok(Held::State(Some(again)))
            }
            Held::State(None) => Ok(Held::State(None)),
            Held::Row(id) => Ok(Held::Row(*id)),
        }
    }

    /// Drops the state, if the walk has ended.
    pub(crate) fn release(&mut self, walk: &Cursor)
        requires { IsHeldItself walk.now.stage self.old }
        ensures { IsHeldItself walk.now.stage self.new }
    {
        if walk.has_ended() {
            *self = Held::State(None);
        }
    }

    /// Replaces the held state by the state of a row, held in the same way. An error changes nothing.
    #[inline(always)]
    pub(crate) fn move_to(&mut self, cache: &Cache, id: LazyStateID) -> Result<(), AllocError>
        requires { IsRowId cache.now.store.table id }
        ensures holds { OnOk result ((q : Powerset) → Names cache.now.store.table id q
            → Holds cache.now.store.table self.new q) }
        ensures keeping { OnOk result (keeping_of self.new ≡ keeping_of self.old) }
        ensures refused { OnErr result (keeping_of self.old ≡ States) }
        ensures err { OnErr result (self.new ≡ self.old) }
    {
        match self {
            Held::Row(row) => {
                *row = Some(id);
                Ok(())
            }
            Held::State(held) => {
                let handle = cache.handle(id)?;
                *held = Some(handle);
                Ok(())
            }
        }
    }
}

/// The stage of a walk. Only contracts know the state in it.
#[derive(Drop)]
enum Stage {
    Fresh,
    At(Snapshot<State>),
    Ended,
}

/// The progress of a walk, without what it holds.
#[derive(Drop)]
pub(crate) struct Cursor {
    stage: Stage,
    units: usize,
    /// The number of patterns of its current state, or 0 if it has no current state.
    patterns: usize,
    reported: usize,
    found: Option<HalfMatch>,
}

impl Model for Cursor {
    ghost use Rattle.automata_hybrid.specs.Walks.State.{Walk};
    ghost use Rattle.automata_hybrid.specs.Private.Walks.State.{HasItsCount, stage_of, walk_of};

    ghost Value = { Walk };

    ghost view = { walk_of };

    ghost invariant = { λ s. HasItsCount (stage_of s.stage) s.patterns };
}

impl Cursor {
    /// Returns a walk that has not begun.
    pub(crate) fn start() -> Cursor
        ensures { result ≡ fresh_walk }
    {
        Cursor {
            stage: Stage::Fresh,
            units: 0,
            patterns: 0,
            reported: 0,
            found: None,
        }
    }

    /// Returns the match that the last call found.
    pub(crate) fn get_match(&self) -> Option<HalfMatch>
        ensures { result ≡ self.now.found }
    {
        self.found
    }

    /// Returns how many units the walk has read: bytes, and the end of the haystack.
    pub(crate) fn units(&self) -> usize
        ensures { result ≡ self.now.units }
    {
        self.units
    }

    /// Whether its current state has a pattern that it has not reported yet.
    pub(crate) fn has_more(&self) -> bool
        ensures yes { result ≡ true → (q : Powerset) × (self.now.stage ≡ At q)
            × (self.now.reported < length q.patterns) }
        ensures room { result ≡ true → self.now.reported + 1 < 2 ^ 64 }
        ensures no { result ≡ false → (q : Powerset) → self.now.stage ≡ At q → length q.patterns ≤ self.now.reported }
    {
        self.reported < self.patterns
    }

    /// Returns how many patterns of its current state it has reported.
    pub(crate) fn reported(&self) -> usize
        ensures { result ≡ self.now.reported }
    {
        self.reported
    }

    /// Whether the walk has not begun.
    pub(crate) fn is_fresh(&self) -> bool
        ensures yes { result ≡ true → self.now.stage ≡ Fresh }
        ensures no { result ≡ false → self.now.stage ≡ Fresh → ⊥ }
    {
        match &self.stage {
            Stage::Fresh => true,
            Stage::At(_) | Stage::Ended => false,
        }
    }

    /// Whether the walk has ended.
    pub(crate) fn has_ended(&self) -> bool
        ensures yes { result ≡ true → self.now.stage ≡ Ended }
        ensures no { result ≡ false → self.now.stage ≡ Ended → ⊥ }
    {
        match &self.stage {
            Stage::Ended => true,
            Stage::At(_) | Stage::Fresh => false,
        }
    }

    /// Drops the match that the last call found.
    pub(crate) fn forget_match(&mut self)
        ensures { self.new ≡ without_match self.old }
    {
        self.found = None;
    }

    /// Reports a match, which has the next pattern of the current state.
    pub(crate) fn report(&mut self, half: HalfMatch)
        requires { self.old.reported + 1 < 2 ^ 64 }
        ensures { self.new ≡ with_match self.old half }
    {
        self.reported += 1;
        self.found = Some(half);
    }

    /// Moves the walk to a state, of whose patterns it has reported none yet.
    pub(crate) fn go_to(&mut self, state: Snapshot<State>, patterns: usize, units: usize)
        requires { patterns ≡ length state.value.patterns }
        ensures { self.new ≡ record { stage = At state.value; units = units; reported = 0; found = None } }
    {
        self.stage = Stage::At(state);
        self.units = units;
        self.patterns = patterns;
        self.reported = 0;
        self.found = None;
    }

    /// Ends the walk after `units` units.
    pub(crate) fn end(&mut self, units: usize)
        ensures { self.new ≡ ended_walk self.old units }
    {
        self.stage = Stage::Ended;
        self.units = units;
        self.patterns = 0;
        self.reported = 0;
        self.found = None;
    }

    /// Returns a copy. `held` has to be what the walk holds of its state.
    fn copy(&self, held: &Held) -> Cursor
        requires { IsHeldItself self.now.stage held.now }
        ensures { result ≡ self.now }
    {
        let stage = match &self.stage {
            Stage::Fresh => Stage::Fresh,
            Stage::Ended => Stage::Ended,
            Stage::At(_) => match held {
                Held::State(Some(handle)) => Stage::At(Snapshot::of(&handle.state)),
                Held::State(None) | Held::Row(_) => Stage::Ended,
            },
        };
        Cursor {
            stage,
            units: self.units,
            patterns: self.patterns,
            reported: self.reported,
            found: self.found,
        }
    }
}

/// The state of an overlapping search. It belongs to one DFA, one input and one direction, and continues with any cache
/// of that DFA, since it holds its powerset state, which a clear cannot drop.
///
/// Each call of the search continues from it, and stores the next match in it:
///
/// ```rust
/// let mut state = OverlappingState::start();
/// self.dfa
///     .try_search_overlapping_fwd(&mut self.cache, &input, &mut state)?;
/// Ok(state.get_match())
/// ```
pub struct OverlappingState {
    pub(crate) cursor: Cursor,
    pub(crate) held: Held,
}

// An owner drops this with one call, so that its proof has no step for each field.
impl Drop for OverlappingState {
    fn drop(self) {
        let Self {
            cursor: _cursor,
            held: _held,
        } = self;
    }
}

impl Model for OverlappingState {
    ghost use Rattle.automata_hybrid.specs.Walks.State.{Walk};
    ghost use Rattle.automata_hybrid.specs.Private.Walks.State.{IsHeldItself};

    ghost Value = { Walk };

    ghost view = { λ s. s.cursor };

    ghost invariant = { λ s. IsHeldItself s.cursor.stage s.held };
}

impl OverlappingState {
    /// Returns the state of a search that has not begun.
    pub fn start() -> OverlappingState
        ensures { result ≡ fresh_walk }
    {
        OverlappingState {
            cursor: Cursor::start(),
            held: Held::State(None),
        }
    }

    /// Returns the match that the last call found. It is `None` before the first call, after an error, and once no
    /// match is left.
    pub fn get_match(&self) -> Option<HalfMatch>
        ensures { result ≡ self.now.found }
    {
        self.cursor.get_match()
    }
}

/// Shows the match that the last call found, but not the powerset state.
impl fmt::Debug for OverlappingState {
    fn fmt<W: fmt::Write>(&self, f: &mut fmt::Formatter<W>) -> fmt::Result {
        f.debug_struct("OverlappingState")
            .field("match", &self.get_match())
            .finish_non_exhaustive()
    }
}

impl Clone for OverlappingState {
    ghost is_clone = { λ a b. b ≡ a };

    /// Returns a clone, which shares the powerset state, so this does not allocate. It fails only if the state cannot
    /// be shared once more.
    fn clone(&self) -> Result<OverlappingState, AllocError> {
        let held = self.held.share()?;
        Ok(OverlappingState {
            cursor: self.cursor.copy(&held),
            held,
        })
    }
}
