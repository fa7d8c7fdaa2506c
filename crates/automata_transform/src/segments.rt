//! A segment tree of byte ranges that lead to states. It gives, for a byte, the states of all ranges that contain it.
ghost use Rattle.std.specs.Prelude.{ℕ, ◌≡◌, ◌<◌, ◌≤◌, ◌+◌, ◌⊎◌, ◌↔◌, IfOk, OnOk, length};
ghost use Rattle.automata_base.specs.Retraced.ReversedEdges.{lists_of, no_lists};
ghost use Rattle.automata_transform.specs.Retraced.Segments.{IsOnWay, IsPutFirst, IsPutLast};

use automata_base::util::id_lists::{no_lists, push_at};
use automata_base::util::primitives::StateID;
use std::alloc::{AllocError, Global};

/// The number of nodes of the tree, including node 0, which is not used.
pub const NODES: usize = 512;

/// The number of leaves of the tree, one for each byte.
pub const LEAVES: usize = 256;

/// The number of states that a node has room for at first.
const FIRST: usize = 16;

/// Returns the lists of an empty segment tree over the bytes. The list of a node is for the states that all bytes below
/// it lead to. Node 1 is the root, the children of node k are 2k and 2k + 1, and the leaf of byte u is node 256 + u.
pub fn no_segments(alloc: Global) -> Result<Vec<Vec<StateID>>, AllocError>
    ensures none { IfOk result (λ v. lists_of v.items ≡ no_lists 512) }
    ensures few { IfOk result (λ v. length v.items ≡ 512) }
{
    no_lists(alloc, NODES)
}

/// Reserves room for some states at a node whose list is empty.
fn make_room(lists: &mut Vec<Vec<StateID>>, node: usize) -> Result<(), AllocError>
    requires { node < length lists.old.items }
    ensures same { OnOk result (lists_of lists.new.items ≡ lists_of lists.old.items) }
    ensures few { OnOk result (length lists.new.items ≡ length lists.old.items) }
{
    if lists[node].is_empty() {
        lists[node].reserve(FIRST)?;
    }
    Ok(())
}

/// Adds the state to the first node of a row of nodes, if it is not the first child of its parent, and returns the node
/// where the rest of the row begins.
fn put_first(lists: &mut Vec<Vec<StateID>>, left: usize, next: StateID) -> Result<usize, AllocError>
    requires { left < length lists.old.items }
    ensures put { IfOk result
        (λ first. IsPutFirst (lists_of lists.old.items) (lists_of lists.new.items) left next first) }
    ensures few { OnOk result (length lists.new.items ≡ length lists.old.items) }
{
    if left % 2 == 0 {
        return Ok(left);
    }
    make_room(lists, left)?;
    push_at(lists, left, next)?;
    Ok(left + 1)
}

/// Adds the state to the last node of a row of nodes, if it is the first child of its parent, and returns where the
/// rest of the row ends: the node after its last one.
fn put_last(lists: &mut Vec<Vec<StateID>>, end: usize, next: StateID) -> Result<usize, AllocError>
    requires few { end ≤ length lists.old.items }
    ensures put { IfOk result (λ last. IsPutLast (lists_of lists.old.items) (lists_of lists.new.items) end next last) }
    ensures few { OnOk result (length lists.new.items ≡ length lists.old.items) }
{
    if end % 2 == 0 {
        return Ok(end);
    }
    make_room(lists, end - 1)?;
    push_at(lists, end - 1, next)?;
    Ok(end - 1)
}

/// Adds a state for the bytes from `lo` to `hi`, to at most sixteen nodes: those that have no other bytes below them,
/// and whose parents do.
pub fn put_range(
    lists: &mut Vec<Vec<StateID>>,
    lo: u8,
    hi: u8,
    next: StateID,
) -> Result<(), AllocError>
    requires { length lists.old.items ≡ 512 }
    ensures put { OnOk result ((u t : ℕ) → u < 256 → IsOnWay (lists_of lists.new.items) (u + 256) t
        ↔ (IsOnWay (lists_of lists.old.items) (u + 256) t ⊎ ((t ≡ next) × (lo ≤ u) × (u ≤ hi)))) }
    ensures few { OnOk result (length lists.new.items ≡ 512) }
    ensures low { hi < 256 }
{
    let mut left = usize::from(lo) + LEAVES;
    let mut end = usize::from(hi) + LEAVES + 1;
    while left < end {
        let first = put_first(lists, left, next)?;
        let last = put_last(lists, end, next)?;
        left = first / 2;
        end = last / 2;
    }
    Ok(())
}
