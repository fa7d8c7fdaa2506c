//! The buffers that determinization works in, allocated once for an NFA.
ghost use Rattle.std.specs.Prelude.{◌≡◌, ◌+◌, ◌≤◌, IfOk, IfSome, None, vec_capacity};
ghost use Rattle.automata_determinize.specs.Powersets.Results.{IsStartMade, IsStepMade};
ghost use Rattle.automata_base.specs.Lists.{Distinct};
ghost use Rattle.automata_base.specs.Nfas.KeptClosure.{IsRestCode, IsKeptClosure};
ghost use Rattle.automata_determinize.specs.Powersets.Key.{ListsItsStates};
ghost use Rattle.automata_determinize.specs.Powersets.Parts.{powerset_of};
ghost use Rattle.automata_determinize.specs.Paths.Starts.{IsOf};

use crate::determinize::construct::{next_into, start_into};
use crate::determinize::count::Count;
use crate::determinize::key::Key;
use crate::determinize::made::MadeState;
use crate::determinize::state::{Parts, State};
use automata_base::nfa::thompson::NFA;
use automata_base::nfa::thompson::kept::KeptClosure;
use automata_base::util::heap::array;
use automata_base::util::primitives::StateID;
use automata_base::util::search::{Anchored, MatchKind};
use automata_base::util::sparse_set::SparseSet;
use automata_base::util::subject::Subject;
use std::alloc::{AllocError, Global};
use std::marker::Model;
use std::mem;

/// The buffers of determinization, for an NFA: two sets of its states, the stack of a closure, the parts of a powerset
/// state, and the last state that was made. A cache accounts for all of them but that last state, which takes its bytes
/// and four bytes for each NFA state that its list has room for. Contracts also see a count: how often the buffers were
/// used.
pub struct Scratch {
    of: Subject<NFA>,
    alloc: Global,
    one: SparseSet,
    two: SparseSet,
    stack: Vec<StateID>,
    parts: Parts,
    made: Option<Box<MadeState>>,
    count: Count,
}

// An owner drops this with one call, so that its proof has no step for each field.
impl Drop for Scratch {
    fn drop(self) {
        let Self {
            of: _of,
            alloc: _alloc,
            one: _one,
            two: _two,
            stack: _stack,
            parts: _parts,
            made: _made,
            count: _count,
        } = self;
    }
}

impl Model for Scratch {
    ghost use Rattle.automata_determinize.specs.Powersets.Scratch.{ScratchView, view_of, IsScratch};

    ghost Value = { ScratchView };

    ghost view = { view_of };

    ghost invariant = { IsScratch };
}

impl Clone for Scratch {
    ghost is_clone = { λ a b. b ≡ a };

    /// Returns a copy with its own buffers, which have the same room, and without a last state.
    fn clone(&self) -> Result<Scratch, AllocError> {
        let alloc = self.alloc;
        Ok(Scratch {
            of: self.of.again(),
            alloc,
            one: self.one.emptied(alloc)?,
            two: self.two.emptied(alloc)?,
            stack: Vec::with_capacity(alloc, self.stack.capacity())?,
            parts: self.parts.emptied(alloc)?,
            made: None,
            count: self.count.again(),
        })
    }
}

impl Scratch {
    /// Allocates the buffers for an NFA. Those of the last state are allocated with the first key. The only error is
    /// out of memory.
    pub fn new(nfa: &NFA) -> Result<Scratch, AllocError>
        ensures of { IfOk result (λ s. s.of ≡ nfa.now) }
        ensures count { IfOk result (λ s. s.count ≡ 0) }
    {
        let alloc = nfa.alloc();
        let n = nfa.states().len();
        let one = SparseSet::new(alloc, n as u32)?;
        let two = SparseSet::new(alloc, n as u32)?;
        let stack = Vec::with_capacity(alloc, nfa.room())?;
        let parts = Parts {
            nfa: Vec::with_capacity(alloc, n)?,
            patterns: Vec::with_capacity(alloc, nfa.pattern_starts().len())?,
            known: 0,
            needed: 0,
            word: false,
            half: false,
        };
        Ok(Scratch {
            of: Subject::of(nfa),
            alloc,
            one,
            two,
            stack,
            parts,
            made: None,
            count: Count::zero(),
        })
    }

    /// Returns the memory, in bytes, that the buffers take from the allocator, by their capacities.
    pub fn heap_usage(&self) -> usize {
        let sets = self.one.heap_usage().saturating_add(self.two.heap_usage());
        let lists = array(self.stack.capacity(), 4).saturating_add(self.parts.heap_usage());
        let made = match &self.made {
            Some(made) => made.heap_usage(),
            None => 0,
        };
        sets.saturating_add(lists).saturating_add(made)
    }

    /// Takes back the state that a key holds, if it holds one. The next key reuses its buffers, and a step from this
    /// state does not decode it.
    pub fn recycle(&mut self, key: Key)
        ensures { self.new ≡ self.old }
    {
        self.made = key.into_made();
    }
}

/// Takes the last state that was made, or allocates the buffers of one for an NFA of `len` states if its key was not
/// given back.
#[inline(always)]
fn take_made(
    alloc: Global,
    len: usize,
    made: &mut Option<Box<MadeState>>,
) -> Result<Box<MadeState>, AllocError>
    requires { IfSome made.old (λ m. ListsItsStates m.value) }
    ensures made { IfOk result (λ m. ListsItsStates m.value) }
    ensures none { made.new ≡ None }
{
    match mem::replace(made, None) {
        Some(made) => Ok(made),
        None => MadeState::room(alloc, len),
    }
}

/// Returns a key for the powerset state of these parts, for an NFA of `len` states.
#[inline(always)]
fn key_of(
    made: Box<MadeState>,
    closure: Option<&KeptClosure>,
    parts: &mut Parts,
    len: usize,
) -> Result<Key, AllocError>
    requires closure { IfSome closure (λ c. IsRestCode c.now.kept.items c.now.code.items) }
    requires distinct { Distinct parts.old.patterns.items }
    requires room { len ≤ vec_capacity parts.old.nfa }
    ensures key { IfOk result (λ key. key ≡ powerset_of parts.old) }
    ensures room { len ≤ vec_capacity parts.new.nfa }
    ensures patterns { parts.new.patterns ≡ parts.old.patterns }
{
    let mut made = made;
    made.set(closure, parts, len)?;
    Ok(Key::own(made))
}

/// Computes the start state of an anchored mode after the look-behind byte `prev`, or after none, as a key to look it
/// up by.
pub fn start_key(
    nfa: &NFA,
    scratch: &mut Scratch,
    mode: Anchored,
    prev: Option<u8>,
) -> Result<Key, AllocError>
    requires of { scratch.old.of ≡ nfa.now }
    ensures made { IfOk result (IsStartMade nfa.now mode prev) }
    ensures of { scratch.new.of ≡ scratch.old.of }
    ensures count { scratch.new.count ≡ scratch.old.count + 1 }
{
    scratch.count.tick();
    let len = nfa.states().len();
    let made = take_made(scratch.alloc, len, &mut scratch.made)?;
    start_into(
        nfa,
        mode,
        prev,
        &mut scratch.stack,
        &mut scratch.one,
        &mut scratch.parts,
    );
    let key = key_of(made, None, &mut scratch.parts, len)?;
    Ok(key)
}

/// Computes the successor of a powerset state on a unit, as `next_key` does, with the NFA's kept closure if it is
/// given.
#[inline(always)]
fn next_key_of(
    nfa: &NFA,
    closure: Option<&KeptClosure>,
    scratch: &mut Scratch,
    kind: MatchKind,
    from: &State,
    unit: Option<u8>,
) -> Result<Key, AllocError>
    requires of { scratch.old.of ≡ nfa.now }
    requires is_of { IsOf nfa.now from.now }
    requires closure { IfSome closure (λ c. IsKeptClosure nfa.now c.now) }
    ensures made { IfOk result (IsStepMade nfa.now kind from.now unit) }
    ensures of { scratch.new.of ≡ scratch.old.of }
    ensures count { scratch.new.count ≡ scratch.old.count + 1 }
{
    scratch.count.tick();
    let len = nfa.states().len();
    let mut made = take_made(scratch.alloc, len, &mut scratch.made)?;
    made.list_states(from)?;
    next_into(
        nfa,
        kind,
        closure,
        from,
        made.nfa.as_slice(),
        unit,
        &mut scratch.stack,
        &mut scratch.one,
        &mut scratch.two,
        &mut scratch.parts,
    );
    let key = key_of(made, closure, &mut scratch.parts, len)?;
    Ok(key)
}

/// Computes the successor of a powerset state on a unit, as `next_key` does, for an NFA that keeps a closure.
#[inline(never)]
fn next_key_with(
    nfa: &NFA,
    closure: &KeptClosure,
    scratch: &mut Scratch,
    kind: MatchKind,
    from: &State,
    unit: Option<u8>,
) -> Result<Key, AllocError>
    requires of { scratch.old.of ≡ nfa.now }
    requires is_of { IsOf nfa.now from.now }
    requires closure { IsKeptClosure nfa.now closure.now }
    ensures made { IfOk result (IsStepMade nfa.now kind from.now unit) }
    ensures of { scratch.new.of ≡ scratch.old.of }
    ensures count { scratch.new.count ≡ scratch.old.count + 1 }
{
    next_key_of(nfa, Some(closure), scratch, kind, from, unit)
}

/// Computes the successor of a powerset state on a byte, or at the end of the haystack if `unit` is none, as a key to
/// look it up by.
pub fn next_key(
    nfa: &NFA,
    scratch: &mut Scratch,
    kind: MatchKind,
    from: &State,
    unit: Option<u8>,
) -> Result<Key, AllocError>
    requires of { scratch.old.of ≡ nfa.now }
    requires is_of { IsOf nfa.now from.now }
    ensures made { IfOk result (IsStepMade nfa.now kind from.now unit) }
    ensures of { scratch.new.of ≡ scratch.old.of }
    ensures count { scratch.new.count ≡ scratch.old.count + 1 }
{
    match nfa.kept_closure() {
        Some(closure) => next_key_with(nfa, closure, scratch, kind, from, unit),
        None => next_key_of(nfa, None, scratch, kind, from, unit),
    }
}
