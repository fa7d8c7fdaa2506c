//! Inputs and matches, as C lays them out.
ghost use Rattle.std.specs.Prelude.{◌≡◌};
ghost use Rattle.lazydfa_c.specs.Requests.{beside_of, found_from, found_half, input_of, mode_of, start_of};

use regex_automata::util::start;
use regex_automata::{Anchored, HalfMatch, Input, Match, PatternID};

/// A span by its offsets in bytes, an anchored mode (0 no, 1 yes, 2 this pattern), and whether the search may stop at
/// the first match that it sees.
#[repr(C)]
#[derive(Clone, Copy)]
pub struct Request {
    pub start: usize,
    pub end: usize,
    pub anchored: u32,
    pub pattern: u32,
    pub earliest: u32,
    pub reserved: u32,
}

/// A match: its span, by its offsets in bytes, and its pattern.
#[repr(C)]
#[derive(Clone, Copy)]
pub struct Found {
    pub start: usize,
    pub end: usize,
    pub pattern: u32,
    pub reserved: u32,
}

/// The pattern and one end of a match, by its offset in bytes.
#[repr(C)]
#[derive(Clone, Copy)]
pub struct FoundHalf {
    pub offset: usize,
    pub pattern: u32,
    pub reserved: u32,
}

/// Returns the anchored mode of two numbers: 0 is unanchored, 1 is anchored, 2 is anchored to the pattern. Returns
/// `None` for any other number, and for a pattern that is not a valid ID.
fn mode_of(anchored: u32, pattern: u32) -> Option<Anchored>
    ensures { result ≡ mode_of anchored pattern }
{
    match anchored {
        0 => Some(Anchored::No),
        1 => Some(Anchored::Yes),
        2 => match PatternID::new(pattern as usize) {
            Some(pattern) => Some(Anchored::Pattern(pattern)),
            None => None,
        },
        _ => None,
    }
}

/// Returns the byte before or after the pieces of a haystack that a number encodes: that byte, or `Some(None)` for -1
/// as an unsigned number, which means that there is none. Returns `None` for any other number.
pub fn beside_of(number: u32) -> Option<Option<u8>>
    ensures { result ≡ beside_of number }
{
    if number <= 255 {
        return Some(Some(number as u8));
    }
    if number == u32::MAX {
        return Some(None);
    }
    None
}

/// Returns the configuration of the start state of a search in pieces, or `None` if a number does not encode an
/// anchored mode or the byte before the pieces.
pub fn start_of(anchored: u32, pattern: u32, behind: u32) -> Option<start::Config>
    ensures { result ≡ start_of anchored pattern behind }
{
    let mode = mode_of(anchored, pattern)?;
    let behind = beside_of(behind)?;
    Some(start::Config::new().look_behind(behind).anchored(mode))
}

impl Request {
    /// Returns the input of a request, or `None` if its anchored mode is not valid or its span does not lie in the
    /// haystack.
    pub fn input<'h>(&self, haystack: &'h [u8]) -> Option<Input<'h>>
        ensures { result ≡ input_of haystack.now self.now }
    {
        let mode = mode_of(self.anchored, self.pattern)?;
        let input = Input::new(haystack);
        if !input.allows(self.start, self.end) {
            return None;
        }
        let range = self.start..self.end;
        Some(
            input
                .range(range)
                .anchored(mode)
                .earliest(self.earliest != 0),
        )
    }
}

impl Found {
    /// Converts a match to its layout in C.
    pub fn of(found: Match) -> Found
        ensures { result ≡ found_from found }
    {
        Found {
            start: found.start(),
            end: found.end(),
            pattern: found.pattern().as_u32(),
            reserved: 0,
        }
    }
}

impl FoundHalf {
    /// Converts a half match to its layout in C.
    pub fn of(found: HalfMatch) -> FoundHalf
        ensures { result ≡ found_half found }
    {
        FoundHalf {
            offset: found.offset(),
            pattern: found.pattern().as_u32(),
            reserved: 0,
        }
    }
}
