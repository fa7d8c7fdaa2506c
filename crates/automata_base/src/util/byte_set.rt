ghost use Rattle.std.specs.Prelude.{◌≡◌, ◌<◌, ℕ, length, replicate, slice_set, eqb, false, unwrap_or, IsTrue};
ghost use Rattle.std.specs.Int.{bit_at};
ghost use Rattle.automata_base.specs.ByteClasses.Classes.{is_quit};

use std::fmt;
use std::marker::Model;

/// A set of bytes, in 256 bits. In contracts it is the list that says for each byte whether it is in the set.
#[derive(Clone, Copy)]
pub struct ByteSet {
    words: [u64; 4],
}

impl Model for ByteSet {
    ghost use Rattle.std.specs.Prelude.{List, Bool};
    ghost use Rattle.automata_base.specs.ByteClasses.ByteSets.{IsByteSet, truths_of, words_of};
    ghost use Rattle.automata_base.specs.ByteClasses.WordsBack.{words_back};

    ghost Value = { List Bool };

    ghost view = { λ s. truths_of s.words };

    ghost invariant = { λ s. IsByteSet s.words };

    ghost inverse = { λ truths. record { words = words_of truths } };

    ghost inverse_ok = { λ s h i. record { words = words_back s.words h i } };
}

impl ByteSet {
    /// Returns the empty set.
    pub fn empty() -> ByteSet
        ensures { result ≡ replicate 256 false }
    {
        ByteSet { words: [0; 4] }
    }

    /// Returns the set, or the empty one if there is none.
    pub fn or_empty(set: Option<ByteSet>) -> ByteSet
        ensures same { result ≡ unwrap_or set (replicate 256 false) }
        ensures whole { length result ≡ 256 }
    {
        match set {
            Some(set) => {
                let words = set.words;
                ByteSet { words }
            }
            None => ByteSet::empty(),
        }
    }

    /// Whether the set is empty.
    pub fn is_empty(&self) -> bool
        ensures yes { IsTrue result → (byte : ℕ) → byte < 256 → is_quit self.now byte ≡ false }
        ensures no { ((byte : ℕ) → byte < 256 → is_quit self.now byte ≡ false) → IsTrue result }
    {
        self.words[0] | self.words[1] | self.words[2] | self.words[3] == 0
    }

    /// Whether a byte is in the set.
    #[inline(always)]
    pub fn contains(&self, byte: u8) -> bool
        ensures { result ≡ is_quit self.now byte }
    {
        self.words[usize::from(byte / 64)] >> (byte % 64) & 1 == 1
    }

    /// Returns the set with the byte added if `yes` is true, and removed otherwise.
    pub fn with(self, byte: u8, yes: bool) -> ByteSet
        ensures { result ≡ slice_set self byte yes }
    {
        let index = usize::from(byte / 64);
        let mut words = self.words;
        words[index] = with_bit(words[index], byte % 64, yes);
        ByteSet { words }
    }
}

/// Prints the bytes as a set.
impl fmt::Debug for ByteSet {
    fn fmt<W: fmt::Write>(&self, f: &mut fmt::Formatter<W>) -> fmt::Result {
        let mut set = f.debug_set();
        for byte in 0..256usize {
            if self.contains(byte as u8) {
                set.entry(&byte);
            }
        }
        set.finish()
    }
}

/// Returns the word with the bit set if `yes` is true, and cleared otherwise.
fn with_bit(word: u64, bit: u8, yes: bool) -> u64
    requires { bit < 64 }
    ensures same { eqb (bit_at result bit) 1 ≡ yes }
    ensures others { (i : ℕ) → i < 64 → (i ≡ bit → ⊥) → bit_at result i ≡ bit_at word i }
{
    if yes {
        word | 1u64 << bit
    } else {
        word & !(1u64 << bit)
    }
}
