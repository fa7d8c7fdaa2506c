//! A powerset state that is held outside the rows of caches.
ghost use Rattle.std.specs.Prelude.{IfOk};
ghost use Rattle.automata_hybrid.specs.Private.Walks.State.{IsHandle};

use automata_determinize::determinize::{Key, State};
use std::alloc::AllocError;

/// A powerset state, shared with the rows of caches, and its key in their maps.
#[derive(Drop)]
pub(crate) struct Handle {
    pub(crate) state: State,
    pub(crate) key: Key,
}

impl Handle {
    /// Returns a handle on a state. This does not allocate; it fails only if the state cannot be shared once more.
    pub(crate) fn of(state: &State) -> Result<Handle, AllocError>
        ensures { IfOk result (λ handle. IsHandle handle state.now) }
    {
        let key = state.key()?;
        let state = state.clone()?;
        Ok(Handle { state, key })
    }
}
