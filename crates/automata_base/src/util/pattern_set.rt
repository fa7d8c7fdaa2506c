//! Sets of patterns.
use crate::util::primitives::PatternID;
use std::alloc::{AllocError, Global};
use std::marker::Model;
use thiserror::Error;

/// The error of inserting a pattern that is not below the capacity of the set.
#[derive(Clone, Copy, Debug, PartialEq, Eq, Error)]
#[error("failed to insert pattern {} into a set of capacity {capacity}", attempted.as_usize())]
pub struct PatternSetInsertError {
    attempted: PatternID,
    capacity: usize,
}

impl Model for PatternSetInsertError {
    ghost use Rattle.automata_base.specs.Haystacks.PatternSet.{Misfit};

    ghost Value = { Misfit };

    ghost view = { λ e. record { attempted = e.attempted; capacity = e.capacity } };

    ghost inverse = { λ v. record { attempted = v.attempted; capacity = v.capacity } };
}

/// A set of the patterns below a fixed capacity.
#[derive(Debug)]
pub struct PatternSet {
    len: usize,
    which: Vec<bool>,
}

// An owner drops this with one call, so that its proof has no step for each field.
impl Drop for PatternSet {
    fn drop(self) {
        let Self {
            len: _len,
            which: _which,
        } = self;
    }
}

impl Model for PatternSet {
    ghost use Rattle.std.specs.Prelude.{List, Bool};
    ghost use Rattle.automata_base.specs.Haystacks.PatternSet.{IsCounted};

    ghost Value = { List Bool };

    ghost view = { λ s. s.which.items };

    ghost invariant = { λ s. IsCounted s.which.items s.len };
}

impl PatternSet {
    ghost use Rattle.std.specs.Prelude.{◌≡◌, ◌<◌, ◌≤◌, ◌↔◌, [], false, true, not, length, IfOk, IfErr, OnErr, IsErr};
    ghost use Rattle.std.specs.Prelude.{IsTrue, replicate, slice_set};
    ghost use Rattle.automata_base.specs.Haystacks.PatternSet.{has, members, AreSmall};

    /// Returns an empty set with room for the patterns below `capacity`.
    pub fn new(alloc: Global, capacity: usize) -> Result<PatternSet, AllocError>
        ensures capacity { IfOk result (λ set. set ≡ replicate capacity false) }
        ensures empty { IfOk result (λ set. members set ≡ []) }
    {
        let which = vec![in alloc; false; capacity]?;
        Ok(PatternSet { len: 0, which })
    }

    /// Inserts a pattern, and returns whether it is new. If the pattern is not below the capacity, the call fails and
    /// the set is unchanged.
    pub fn try_insert(&mut self, pattern: PatternID) -> Result<bool, PatternSetInsertError>
        ensures refused { IsErr result ↔ (length self.old ≤ pattern) }
        ensures error { IfErr result (λ e. e ≡ record { attempted = pattern; capacity = length self.old }) }
        ensures is_new { IfOk result (λ new. new ≡ not (has self.old pattern)) }
        ensures inserted { self.new ≡ slice_set self.old pattern true }
        ensures unchanged { OnErr result (self.new ≡ self.old) }
    {
        let capacity = self.which.len();
        let index = pattern.as_usize();
        if index >= capacity {
            return Err(PatternSetInsertError {
                attempted: pattern,
                capacity,
            });
        }
        if self.which[index] {
            return Ok(false);
        }
        self.len += 1;
        self.which[index] = true;
        Ok(true)
    }

    /// Removes all patterns. The capacity stays. It reads the flags up to the last member.
    pub fn clear(&mut self)
        ensures { self.new ≡ replicate (length self.old) false }
    {
        let mut at = 0;
        while self.len > 0 {
            if self.which[at] {
                self.which[at] = false;
                self.len -= 1;
            }
            at += 1;
        }
    }

    /// Whether a pattern is in the set. It is false for a pattern that is not below the capacity.
    pub fn contains(&self, pattern: PatternID) -> bool
        ensures { result ≡ has self.now pattern }
    {
        self.which.get(pattern.as_usize()).copied().unwrap_or(false)
    }

    /// Whether the set is empty.
    pub fn is_empty(&self) -> bool
        ensures { IsTrue result ↔ (members self.now ≡ []) }
    {
        self.len == 0
    }

    /// Whether each pattern below the capacity is in the set.
    pub fn is_full(&self) -> bool
        ensures { IsTrue result ↔ (length (members self.now) ≡ length self.now) }
    {
        self.len == self.capacity()
    }

    /// Returns the number of patterns in the set.
    pub fn len(&self) -> usize
        ensures { result ≡ length (members self.now) }
    {
        self.len
    }

    /// Returns the capacity of the set: it can hold the patterns below this number.
    pub fn capacity(&self) -> usize
        ensures { result ≡ length self.now }
    {
        self.which.len()
    }

    /// Returns an iterator over the members, in increasing order. It reads the flags up to the last member.
    pub fn iter(&self) -> PatternSetIter<'_>
        ensures { result ≡ members self.now }
    {
        PatternSetIter {
            which: self.which.as_slice(),
            at: 0,
            left: self.len,
        }
    }
}

/// An iterator over the members of a set, in increasing order.
#[derive(Debug, Drop)]
pub struct PatternSetIter<'a> {
    which: &'a [bool],
    at: usize,
    left: usize,
}

impl<'a> Model for PatternSetIter<'a> {
    ghost use Rattle.std.specs.Prelude.{List, ℕ, drop};
    ghost use Rattle.automata_base.specs.Haystacks.PatternSet.{members_from, AreLeft};

    ghost Value = { List ℕ };

    ghost view = { λ i. members_from i.at (drop i.at i.which.now) };

    ghost invariant = { λ i. AreLeft i.which.now i.at i.left };
}

impl<'a> Iterator for PatternSetIter<'a> {
    ghost use Rattle.std.specs.Iterator.{YieldsFirst, item_count};

    type Item = PatternID;

    ghost next_gives = { YieldsFirst (λ rest. rest) };

    ghost remaining = { item_count (λ rest. rest) };

    fn next(&mut self) -> Option<PatternID> {
        while self.left > 0 {
            let at = self.at;
            self.at += 1;
            if self.which[at] {
                self.left -= 1;
                return PatternID::new(at);
            }
        }
        None
    }
}
