//! The NFA states of a powerset state, decoded one by one from its bytes.
ghost use Rattle.automata_base.specs.Lists.{all_below};
ghost use Rattle.std.specs.Prelude.{◌≡◌, OnOk};
ghost use Rattle.std.specs.Iterator.{YieldsFirst, item_count};

use crate::determinize::read::{id_from, number_in};
use automata_base::util::primitives::StateID;
use std::alloc::AllocError;
use std::marker::Model;

/// An iterator over the NFA states of a powerset state: those that remain.
#[derive(Drop)]
pub struct Ids<'a> {
    rest: &'a [u8],
    before: u32,
}

impl<'a> Model for Ids<'a> {
    ghost use Rattle.std.specs.Prelude.{List, ℕ};
    ghost use Rattle.automata_determinize.specs.Powersets.Code.{ids_of, numbers, AreIds};

    ghost Value = { List ℕ };

    ghost view = { λ s. ids_of s.before (numbers s.rest.now) };

    ghost invariant = { λ s. AreIds s.before s.rest.now };
}

impl<'a> Iterator for Ids<'a> {
    type Item = StateID;

    ghost next_gives = { YieldsFirst (λ s. s) };

    ghost remaining = { item_count (λ s. s) };

    fn next(&mut self) -> Option<StateID> {
        if self.rest.is_empty() {
            return None;
        }
        let (difference, rest) = number_in(self.rest);
        let id = id_from(self.before, difference);
        self.rest = rest;
        self.before = id;
        Some(StateID::new_unchecked(id))
    }
}

impl<'a> Ids<'a> {
    ghost use Rattle.std.specs.Prelude.{length, ◌≤◌};
    ghost use Rattle.automata_determinize.specs.Powersets.Code.{ids_of, numbers, AreIds};

    /// Returns an iterator over the NFA states that these bytes encode.
    pub fn new(bytes: &'a [u8]) -> Ids<'a>
        requires { AreIds 0 bytes.now }
        ensures { result ≡ ids_of 0 (numbers bytes.now) }
    {
        Ids {
            rest: bytes,
            before: 0,
        }
    }

    /// Returns an upper bound on the number of remaining NFA states: each takes at least one byte.
    fn at_most(&self) -> usize
        ensures { length self.now ≤ result }
    {
        self.rest.len()
    }
}

/// Sets the list to these NFA states.
pub fn read_ids(ids: Ids<'_>, out: &mut Vec<StateID>) -> Result<(), AllocError>
    ensures ok { OnOk result (out.new.items ≡ ids.entry) }
{
    out.clear();
    for id in ids {
        out.push(id)?;
    }
    Ok(())
}

/// Sets the list to these NFA states. It reserves room for all of them first, so that adding one does not allocate.
pub(crate) fn list_ids(ids: Ids<'_>, out: &mut Vec<StateID>) -> Result<(), AllocError>
    ensures ok { OnOk result (out.new.items ≡ ids.entry) }
{
    out.clear();
    out.reserve(ids.at_most())?;
    for id in ids {
        out.push_reserved(id);
    }
    Ok(())
}

/// Whether each NFA state is below `len`.
pub(crate) fn are_below(ids: Ids<'_>, len: usize) -> bool
    ensures { result ≡ all_below len ids.entry }
{
    let mut rest = ids;
    'rest: while let Some(id) = rest.next() {
        if id.as_usize() >= len {
            return false;
        }
    }
    true
}
