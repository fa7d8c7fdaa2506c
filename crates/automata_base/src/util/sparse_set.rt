//! Sets of NFA states that are cleared in constant time.
ghost use Rattle.std.specs.Prelude.{◌≡◌, ◌<◌, ◌≤◌, [], ◌∷◌, ◌++◌, IfOk, IsTrue, IsFalse};
ghost use Rattle.std.specs.Prelude.{ℕ, length, take, ◌+◌};
ghost use Rattle.automata_base.specs.Lists.{In, Distinct};
ghost use Rattle.automata_base.specs.Retraced.ReversedEdges.{place_in};

use crate::util::heap::array;
use crate::util::primitives::StateID;
use std::alloc::{AllocError, Global};
use std::marker::Model;

/// A set of numbers below its capacity, which keeps the order in which they were added.
#[derive(Debug, Drop)]
pub struct SparseSet {
    len: usize,
    dense: Vec<StateID>,
    sparse: Vec<u32>,
}

impl Model for SparseSet {
    ghost use Rattle.automata_base.specs.Powersets.Members.{Members};

    ghost Value = { Members };

    ghost use Rattle.automata_base.specs.Powersets.SparseSet.{members_of, IsSparse};

    ghost view = { members_of };

    ghost invariant = { IsSparse };
}

/// Overwrites the elements of `out` from the index `start` on with those of `list`.
#[inline(always)]
fn put_from(out: &mut Vec<StateID>, start: usize, list: &[StateID])
    requires { start + length list.now ≤ length out.old.items }
    ensures taken { take (start + length list.now) out.new.items ≡ take start out.old.items ++ list.now }
    ensures long { length out.new.items ≡ length out.old.items }
{
    out[start..start + list.len()].copy_from_slice(list);
}

impl SparseSet {
    /// Returns an empty set with room for the numbers below `capacity`.
    pub fn new(alloc: Global, capacity: u32) -> Result<Self, AllocError>
        ensures empty { IfOk result (λ set. set.items ≡ []) }
        ensures capacity { IfOk result (λ set. set.capacity ≡ capacity) }
    {
        let dense = vec![in alloc; StateID::ZERO; capacity as usize]?;
        let sparse = vec![in alloc; 0; capacity as usize]?;
        Ok(SparseSet {
            len: 0,
            dense,
            sparse,
        })
    }

    /// Returns an empty set with room for the same numbers.
    pub fn emptied(&self, alloc: Global) -> Result<SparseSet, AllocError>
        ensures empty { IfOk result (λ set. set.items ≡ []) }
        ensures capacity { IfOk result (λ set. set.capacity ≡ self.now.capacity) }
    {
        let capacity = self.dense.len();
        let dense = vec![in alloc; StateID::ZERO; capacity]?;
        let sparse = vec![in alloc; 0; capacity]?;
        Ok(SparseSet {
            len: 0,
            dense,
            sparse,
        })
    }

    /// Returns the memory, in bytes, that the two lists of the set take from the allocator.
    pub fn heap_usage(&self) -> usize {
        let dense = array(self.dense.capacity(), 4);
        dense.saturating_add(array(self.sparse.capacity(), 4))
    }

    /// Removes all numbers, in constant time.
    pub fn clear(&mut self)
        ensures empty { self.new.items ≡ [] }
        ensures capacity { self.new.capacity ≡ self.old.capacity }
    {
        self.len = 0;
    }

    /// Returns the capacity of the set, which has room for the numbers below it.
    #[inline(always)]
    pub fn capacity(&self) -> usize
        ensures { result ≡ self.now.capacity }
    {
        self.dense.len()
    }

    /// Returns the numbers of the set, in the order in which they were added.
    pub fn as_slice(&self) -> &[StateID]
        ensures items { result.now ≡ self.now.items }
        ensures below { (q : ℕ) → In q self.now.items → q < self.now.capacity }
        ensures few { length self.now.items ≤ self.now.capacity }
        ensures distinct { Distinct self.now.items }
    {
        &self.dense[..self.len]
    }

    /// Whether a number is in the set.
    pub fn contains(&self, id: StateID) -> bool
        requires { id < self.now.capacity }
        ensures had { IsTrue result → In id self.now.items }
        ensures new { IsFalse result → In id self.now.items → ⊥ }
    {
        let i = self.sparse[id.as_usize()] as usize;
        i < self.len && self.dense[i] == id
    }

    /// Returns the index of a member, in the order in which the numbers were added.
    pub fn place(&self, id: StateID) -> usize
        requires { In id self.now.items }
        ensures place { result ≡ place_in self.now.items id }
        ensures few { result < length self.now.items }
    {
        self.sparse[id.as_usize()] as usize
    }

    /// Adds a number after the others, and returns whether it is new. A number that is already a member keeps its
    /// index.
    pub fn insert(&mut self, id: StateID) -> bool
        requires { id < self.old.capacity }
        ensures new { IsTrue result → In id self.old.items → ⊥ }
        ensures added { IsTrue result → self.new.items ≡ self.old.items ++ id ∷ [] }
        ensures had { IsFalse result → In id self.old.items }
        ensures unchanged { IsFalse result → self.new.items ≡ self.old.items }
        ensures capacity { self.new.capacity ≡ self.old.capacity }
    {
        if self.contains(id) {
            return false;
        }
        self.push(id);
        true
    }

    /// Adds a number, which must not be a member, after the others.
    #[inline(always)]
    pub fn push(&mut self, id: StateID)
        requires below { id < self.old.capacity }
        requires new { In id self.old.items → ⊥ }
        ensures added { self.new.items ≡ self.old.items ++ id ∷ [] }
        ensures capacity { self.new.capacity ≡ self.old.capacity }
    {
        let i = self.len;
        self.dense[i] = id;
        self.sparse[id.as_usize()] = i as u32;
        self.len = i + 1;
    }
    /// Adds numbers, none of which may be a member or repeat, after the others.
    pub fn append(&mut self, list: &[StateID])
        requires below { (q : ℕ) → In q list.now → q < self.old.capacity }
        requires distinct { Distinct list.now }
        requires new { (q : ℕ) → In q list.now → In q self.old.items → ⊥ }
        ensures added { self.new.items ≡ self.old.items ++ list.now }
        ensures capacity { self.new.capacity ≡ self.old.capacity }
    {
        let start = self.len;
        let end = start + list.len();
        put_from(&mut self.dense, start, list);
        for i in start..end {
            let id = self.dense[i];
            self.sparse[id.as_usize()] = i as u32;
        }
        self.len = end;
    }
}
