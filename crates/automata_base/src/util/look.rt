//! Look-around assertions, and sets of them.
ghost use Rattle.std.specs.Prelude.{◌≡◌, ◌<◌, ◌||◌, eqb};
ghost use Rattle.automata_base.specs.Haystacks.LookSets.{truth_of, nth_look, IsLookSet};
ghost use Rattle.automata_base.specs.Haystacks.Looks.{Look};
ghost use Rattle.automata_base.specs.Haystacks.Looks.{look_index};
ghost use Rattle.automata_base.specs.Powersets.Passes.{is_crlf_look, is_word_look};

use std::marker::Model;

/// A look-around assertion: a test of the bytes beside an offset. Before and after are in the direction of the search.
/// Word bytes are `0-9`, `A-Z`, `_` and `a-z`.
#[derive(Clone, Copy, Debug, PartialEq, Eq)]
pub enum Look {
    /// No byte is before the offset.
    Start,
    /// No byte is after the offset.
    End,
    /// No byte or a line terminator is before the offset.
    StartLF,
    /// No byte or a line terminator is after the offset.
    EndLF,
    /// No byte or a `\r`, `\n` or `\r\n` is before the offset. It never holds between the two bytes of `\r\n`.
    StartCRLF,
    /// No byte or a `\r`, `\n` or `\r\n` is after the offset. It never holds between the two bytes of `\r\n`.
    EndCRLF,
    /// A word boundary: a word byte is on exactly one side.
    WordAscii,
    /// Not a word boundary.
    WordAsciiNegate,
    /// As `WordAscii`. For this and the other Unicode looks, a DFA needs every byte from 0x80 on to be a quit byte.
    WordUnicode,
    /// As `WordAsciiNegate`.
    WordUnicodeNegate,
    /// A word begins: a word byte is after the offset, and none before.
    WordStartAscii,
    /// A word ends: a word byte is before the offset, and none after.
    WordEndAscii,
    /// As `WordStartAscii`.
    WordStartUnicode,
    /// As `WordEndAscii`.
    WordEndUnicode,
    /// No word byte is before the offset.
    WordStartHalfAscii,
    /// No word byte is after the offset.
    WordEndHalfAscii,
    /// As `WordStartHalfAscii`.
    WordStartHalfUnicode,
    /// As `WordEndHalfAscii`.
    WordEndHalfUnicode,
}

/// A set of looks. Bit k is set if look k is in it.
#[derive(Clone, Copy, Debug, PartialEq, Eq)]
pub struct LookSet {
    bits: u32,
}

impl Model for LookSet {
    ghost use Rattle.std.specs.Prelude.{ℕ};
    ghost use Rattle.automata_base.specs.Haystacks.LookSets.{IsLookSet};

    ghost Value = { ℕ };

    ghost view = { λ a. a.bits };

    ghost invariant = { λ a. IsLookSet a.bits };

    ghost inverse = { λ n. record { bits = n } };
}

impl Look {
    /// Returns the number of the look, from 0 to 17.
    pub fn index(self) -> u32
        ensures number { result ≡ look_index self }
        ensures below { result < 18 }
    {
        match self {
            Look::Start => 0,
            Look::End => 1,
            Look::StartLF => 2,
            Look::EndLF => 3,
            Look::StartCRLF => 4,
            Look::EndCRLF => 5,
            Look::WordAscii => 6,
            Look::WordAsciiNegate => 7,
            Look::WordUnicode => 8,
            Look::WordUnicodeNegate => 9,
            Look::WordStartAscii => 10,
            Look::WordEndAscii => 11,
            Look::WordStartUnicode => 12,
            Look::WordEndUnicode => 13,
            Look::WordStartHalfAscii => 14,
            Look::WordEndHalfAscii => 15,
            Look::WordStartHalfUnicode => 16,
            Look::WordEndHalfUnicode => 17,
        }
    }

    /// Returns the look with this number, which must be below 18.
    pub fn from_index(index: u32) -> Look
        requires { index < 18 }
        ensures { result ≡ nth_look index }
    {
        match index {
            0 => Look::Start,
            1 => Look::End,
            2 => Look::StartLF,
            3 => Look::EndLF,
            4 => Look::StartCRLF,
            5 => Look::EndCRLF,
            6 => Look::WordAscii,
            7 => Look::WordAsciiNegate,
            8 => Look::WordUnicode,
            9 => Look::WordUnicodeNegate,
            10 => Look::WordStartAscii,
            11 => Look::WordEndAscii,
            12 => Look::WordStartUnicode,
            13 => Look::WordEndUnicode,
            14 => Look::WordStartHalfAscii,
            15 => Look::WordEndHalfAscii,
            16 => Look::WordStartHalfUnicode,
            _ => Look::WordEndHalfUnicode,
        }
    }
}

impl LookSet {
    /// Returns the empty set.
    pub fn empty() -> LookSet
        ensures { result ≡ 0 }
    {
        LookSet { bits: 0 }
    }

    /// Returns the set of all word looks.
    pub fn word() -> LookSet
        ensures { (look : Look) → truth_of result look ≡ is_word_look look }
    {
        LookSet { bits: 262080 }
    }

    /// Returns the set of both CRLF looks.
    pub fn crlf() -> LookSet
        ensures { (look : Look) → truth_of result look ≡ is_crlf_look look }
    {
        LookSet { bits: 48 }
    }

    /// Returns the set with these bits. Bits above bit 17 are ignored.
    pub fn from_bits(bits: u32) -> LookSet
        ensures { (look : Look) → truth_of result look ≡ truth_of bits look }
    {
        LookSet {
            bits: bits & 0x3FFFF,
        }
    }

    /// Returns the bits of the set. Bit k is set if look k is in it.
    pub fn bits(self) -> u32
        ensures value { result ≡ self }
        ensures small { IsLookSet result }
    {
        self.bits
    }

    /// Whether the set is empty.
    pub fn is_empty(self) -> bool
        ensures { result ≡ eqb self 0 }
    {
        self.bits == 0
    }

    /// Whether a look is in the set.
    pub fn contains(self, look: Look) -> bool
        ensures { result ≡ truth_of self look }
    {
        self.bits >> look.index() & 1 == 1
    }

    /// Returns the set with a look added.
    pub fn insert(self, look: Look) -> LookSet
        ensures { (other : Look) → truth_of result other
            ≡ (eqb (look_index other) (look_index look) || truth_of self other) }
    {
        LookSet {
            bits: self.bits | 1 << look.index(),
        }
    }
}
