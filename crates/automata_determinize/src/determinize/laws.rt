//! Laws about the encoding of powerset states.
ghost use Rattle.std.specs.Prelude.{◌≡◌, ◌≤◌, ◌↔◌, IfOk, length};
ghost use Rattle.automata_base.specs.Lists.{Distinct};
ghost use Rattle.automata_determinize.specs.Powersets.Code.{code, decoded};
ghost use Rattle.automata_determinize.specs.Powersets.Parts.{powerset_of};
ghost use Rattle.automata_base.specs.Powersets.Powerset.{Powerset, IsPowerset, cost};

use crate::determinize::state::{Parts, State};
use std::alloc::{AllocError, Global};

/// Encodes the parts of a powerset state and decodes them, which gives the same powerset state.
pub fn round_trip(alloc: Global, parts: &Parts) -> Result<Parts, AllocError>
    requires { Distinct parts.now.patterns.items }
    ensures { IfOk result (λ decoded. powerset_of decoded ≡ powerset_of parts.now) }
{
    let state = State::encode(alloc, parts)?;
    state.decode(alloc)
}

/// Decoding the encoding of a state gives that state.
pub fn code_is_read()
    ensures { (q : Powerset) → IsPowerset q → decoded (code q) ≡ q }
{}

/// The encodings of two states are equal exactly if the states are.
pub fn one_code()
    ensures { (a b : Powerset) → IsPowerset a → IsPowerset b → (code a ≡ code b) ↔ (a ≡ b) }
{}

/// The encoding of a state has at most as many bytes as are accounted for the state.
pub fn code_within_cost()
    ensures { (q : Powerset) → length (code q) ≤ cost q }
{}
