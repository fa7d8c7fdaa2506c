//! Lists of state IDs by index.
ghost use Rattle.std.specs.Prelude.{◌≡◌, ◌<◌, IfOk, OnOk, length};
ghost use Rattle.automata_base.specs.Retraced.ReversedEdges.{lists_of, push_at, no_lists};

use crate::util::primitives::StateID;
use std::alloc::{AllocError, Global};

/// Returns `count` empty lists.
pub fn no_lists(alloc: Global, count: usize) -> Result<Vec<Vec<StateID>>, AllocError>
    ensures none { IfOk result (λ v. lists_of v.items ≡ no_lists count) }
    ensures few { IfOk result (λ v. length v.items ≡ count) }
{
    let mut lists = Vec::new(alloc);
    for i in 0..count {
        lists.push(Vec::new(alloc))?;
    }
    Ok(lists)
}

/// Appends a state to the list at an index.
pub fn push_at(lists: &mut Vec<Vec<StateID>>, at: usize, id: StateID) -> Result<(), AllocError>
    requires { at < length lists.old.items }
    ensures pushed { OnOk result (lists_of lists.new.items ≡ push_at (lists_of lists.old.items) at id) }
    ensures few { OnOk result (length lists.new.items ≡ length lists.old.items) }
{
    lists[at].push(id)?;
    Ok(())
}
