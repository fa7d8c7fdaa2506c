//! The powerset construction: the states of a lazy DFA, computed one unit at a time.
ghost use Rattle.std.specs.Prelude.{◌≡◌, ◌+◌, IfOk};
ghost use Rattle.automata_determinize.specs.Powersets.Results.{IsStartMade, IsStepMade};
ghost use Rattle.automata_determinize.specs.Paths.Starts.{IsOf};

mod construct;
mod count;
mod deciding;
mod ids;
mod kept;
mod key;
pub mod laws;
mod lists;
mod made;
mod read;
mod scratch;
mod shared;
mod state;
mod valid;
mod write;

use automata_base::nfa::thompson::NFA;
use automata_base::util::search::{Anchored, MatchKind};
pub use key::Key;
pub use scratch::{Scratch, next_key, start_key};
pub use state::{Parts, State};
use std::alloc::AllocError;

/// Computes the start state of an anchored mode after the look-behind byte `prev`, or after none. For a pattern that
/// the NFA does not have, it is the dead state. The only error is out of memory. The call counts as one
/// determinization, even if it fails.
pub fn start(
    nfa: &NFA,
    scratch: &mut Scratch,
    mode: Anchored,
    prev: Option<u8>,
) -> Result<State, AllocError>
    requires of { scratch.old.of ≡ nfa.now }
    ensures made { IfOk result (IsStartMade nfa.now mode prev) }
    ensures of { scratch.new.of ≡ scratch.old.of }
    ensures count { scratch.new.count ≡ scratch.old.count + 1 }
{
    let key = start_key(nfa, scratch, mode, prev)?;
    let state = key.to_state(nfa.alloc())?;
    scratch.recycle(key);
    Ok(state)
}

/// Computes the powerset state that `from` leads to on a byte, or at the end of the haystack if `unit` is none. `from`
/// must be a state of the NFA; `State::is_of` tests that. The patterns of the result are patterns of the NFA. The only
/// error is out of memory. The call counts as one determinization, even if it fails.
pub fn next(
    nfa: &NFA,
    scratch: &mut Scratch,
    kind: MatchKind,
    from: &State,
    unit: Option<u8>,
) -> Result<State, AllocError>
    requires of { scratch.old.of ≡ nfa.now }
    requires is_of { IsOf nfa.now from.now }
    ensures made { IfOk result (IsStepMade nfa.now kind from.now unit) }
    ensures of { scratch.new.of ≡ scratch.old.of }
    ensures count { scratch.new.count ≡ scratch.old.count + 1 }
{
    let key = next_key(nfa, scratch, kind, from, unit)?;
    let state = key.to_state(nfa.alloc())?;
    scratch.recycle(key);
    Ok(state)
}
