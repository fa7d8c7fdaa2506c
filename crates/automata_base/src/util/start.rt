//! What a start state depends on.
ghost use Rattle.std.specs.Prelude.{◌≡◌, slice_get};

use crate::util::search::{Anchored, Input};
use std::marker::Model;

/// The configuration that determines a start state: the look-behind byte and the anchored mode.
#[derive(Clone, Copy, Debug)]
pub struct Config {
    look_behind: Option<u8>,
    anchored: Anchored,
}

impl Model for Config {
    ghost use Rattle.automata_base.specs.Haystacks.StartConfig.{StartConfig};

    ghost Value = { StartConfig };

    ghost view = { λ c. record { look_behind = c.look_behind; anchored = c.anchored } };

    ghost inverse = { λ v. record { look_behind = v.look_behind; anchored = v.anchored } };
}

impl Config {
    ghost use Rattle.std.specs.Prelude.{◌≡◌, None};
    ghost use Rattle.automata_base.specs.Haystacks.Tapes.{byte_before};

    /// Returns the configuration of an unanchored search that has no look-behind byte.
    pub fn new() -> Config
        ensures { result ≡ record { look_behind = None; anchored = Anchored.No } }
    {
        Config {
            look_behind: None,
            anchored: Anchored::No,
        }
    }

    /// Returns the configuration of a forward search. The look-behind byte is the one before the span, in the haystack.
    pub fn from_input_forward(input: &Input<'_>) -> Config
        ensures { result ≡ record {
          look_behind = byte_before input.now.haystack input.now.start;
          anchored = input.now.anchored;
        } }
    {
        let start = input.start();
        let look_behind = if start == 0 {
            None
        } else {
            byte_at(input.haystack(), start - 1)
        };
        Config {
            look_behind,
            anchored: input.get_anchored(),
        }
    }

    /// Returns the configuration of a reverse search. The look-behind byte is the one at the span's end, in the
    /// haystack.
    pub fn from_input_reverse(input: &Input<'_>) -> Config
        ensures { result ≡ record {
          look_behind = slice_get input.now.haystack input.now.end;
          anchored = input.now.anchored;
        } }
    {
        Config {
            look_behind: byte_at(input.haystack(), input.end()),
            anchored: input.get_anchored(),
        }
    }

    /// Sets the look-behind byte, or none at the haystack's edge.
    pub fn look_behind(self, byte: Option<u8>) -> Config
        ensures { result ≡ record self { look_behind = byte } }
    {
        Config {
            look_behind: byte,
            ..self
        }
    }

    /// Sets the anchored mode.
    pub fn anchored(self, mode: Anchored) -> Config
        ensures { result ≡ record self { anchored = mode } }
    {
        Config {
            anchored: mode,
            ..self
        }
    }

    /// Returns the look-behind byte: the one before the span's start in a forward search, the one at the span's end in
    /// a reverse search.
    pub fn get_look_behind(&self) -> Option<u8>
        ensures { result ≡ self.now.look_behind }
    {
        self.look_behind
    }

    /// Returns the anchored mode.
    pub fn get_anchored(&self) -> Anchored
        ensures { result ≡ self.now.anchored }
    {
        self.anchored
    }
}

/// Returns the byte of the haystack at an offset, or none if the offset is at the haystack's end or after it.
fn byte_at(haystack: &[u8], offset: usize) -> Option<u8>
    ensures { result ≡ slice_get haystack.now offset }
{
    haystack.get(offset).copied()
}
