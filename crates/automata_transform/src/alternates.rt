//! The states that a state leads to once edges are reversed.
ghost use Rattle.std.specs.Prelude.{◌≡◌, ◌<◌, ◌++◌, [], ◌∷◌, IfOk, OnOk, length};
ghost use Rattle.automata_base.specs.Retraced.ReversedEdges.{push_at, no_lists};
ghost use Rattle.automata_transform.specs.Retraced.ReversedEdges.{alternates_in, alternate_lists, ends_in, put, put_at};

use automata_base::util::primitives::StateID;
use std::alloc::{AllocError, Global};

/// Alternates of a state, the preferred ones first. Most reversed states have one, which takes no allocation.
#[derive(Drop)]
pub enum Alternates {
    /// There is none.
    Empty,
    /// There is one.
    One(StateID),
    /// There are several.
    Several(Vec<StateID>),
}

/// Returns a list of one state.
pub fn single(alloc: Global, only: StateID) -> Result<Vec<StateID>, AllocError>
    ensures { IfOk result (λ v. v.items ≡ only ∷ []) }
{
    let mut ids = Vec::with_capacity(alloc, 1)?;
    ids.push(only)?;
    Ok(ids)
}

/// Returns a list of two states, with room for six more.
fn pair(alloc: Global, first: StateID, second: StateID) -> Result<Vec<StateID>, AllocError>
    ensures { IfOk result (λ v. v.items ≡ first ∷ second ∷ []) }
{
    let mut ids = Vec::with_capacity(alloc, 8)?;
    ids.push(first)?;
    ids.push(second)?;
    Ok(ids)
}

/// Whether the state is the last of these.
fn ends_in(ids: &[StateID], id: StateID) -> bool
    ensures { result ≡ ends_in ids.now id }
{
    match ids.last() {
        Some(last) => *last == id,
        None => false,
    }
}

impl Alternates {
    /// Whether the state is the last of these.
    fn end_in(&self, id: StateID) -> bool
        ensures { result ≡ ends_in (alternates_in self.now) id }
    {
        match self {
            Alternates::Empty => false,
            Alternates::One(only) => *only == id,
            Alternates::Several(ids) => ends_in(ids.as_slice(), id),
        }
    }

    /// Appends a state.
    #[inline(always)]
    fn push(&mut self, alloc: Global, id: StateID) -> Result<(), AllocError>
        ensures { OnOk result (alternates_in self.new ≡ alternates_in self.old ++ id ∷ []) }
    {
        match self {
            Alternates::Empty => *self = Alternates::One(id),
            Alternates::One(only) => {
                let both = pair(alloc, *only, id)?;
                *self = Alternates::Several(both);
            }
            Alternates::Several(ids) => ids.push(id)?,
        }
        Ok(())
    }

    /// Appends a state, unless it is the last of these already.
    #[inline(always)]
    fn put(&mut self, alloc: Global, id: StateID) -> Result<(), AllocError>
        ensures { OnOk result (alternates_in self.new ≡ put (alternates_in self.old) id) }
    {
        if self.end_in(id) {
            return Ok(());
        }
        self.push(alloc, id)?;
        Ok(())
    }
}

/// Returns the alternates of `count` states, of which there are none yet.
pub fn no_alternates(alloc: Global, count: usize) -> Result<Vec<Alternates>, AllocError>
    ensures none { IfOk result (λ v. alternate_lists v.items ≡ no_lists count) }
    ensures few { IfOk result (λ v. length v.items ≡ count) }
{
    let mut lists = Vec::with_capacity(alloc, count)?;
    for i in 0..count {
        lists.push(Alternates::Empty)?;
    }
    Ok(lists)
}

/// Appends a state to the alternates at an index.
#[inline(always)]
pub fn push_at(
    alloc: Global,
    lists: &mut Vec<Alternates>,
    at: usize,
    id: StateID,
) -> Result<(), AllocError>
    requires { at < length lists.old.items }
    ensures pushed { OnOk result (alternate_lists lists.new.items ≡ push_at (alternate_lists lists.old.items) at id) }
    ensures few { OnOk result (length lists.new.items ≡ length lists.old.items) }
{
    lists[at].push(alloc, id)?;
    Ok(())
}

/// Appends a state to the alternates at an index, unless it is the last of them already.
#[inline(always)]
pub fn put_at(
    alloc: Global,
    lists: &mut Vec<Alternates>,
    at: usize,
    id: StateID,
) -> Result<(), AllocError>
    requires { at < length lists.old.items }
    ensures put { OnOk result (alternate_lists lists.new.items ≡ put_at (alternate_lists lists.old.items) at id) }
    ensures few { OnOk result (length lists.new.items ≡ length lists.old.items) }
{
    lists[at].put(alloc, id)?;
    Ok(())
}
