//! Reads single words of a script.

ghost use Rattle.std.specs.Prelude.{◌<◌, IfSome};

use std::alloc::AllocError;

/// Why a line could not be read.
#[derive(Clone, Copy, Debug)]
pub enum LineError {
    Bad,
    OutOfMemory,
}

impl From<AllocError> for LineError {
    fn from(_error: AllocError) -> LineError {
        LineError::OutOfMemory
    }
}

/// Returns the number that is the only word of a line.
pub fn only_number(words: &[&[u8]]) -> Result<usize, LineError> {
    match words {
        [word] => number(*word).ok_or(LineError::Bad),
        _ => Err(LineError::Bad),
    }
}

/// Splits a word at its first `separator`, which is in neither part. Returns none if there is no such byte.
pub fn split_once(word: &[u8], separator: u8) -> Option<(&[u8], &[u8])> {
    let at = word.iter().position(|byte| *byte == separator)?;
    Some((&word[..at], &word[at + 1..]))
}

/// Returns the number that 1 to 20 decimal digits spell, if it fits a `usize`.
pub fn number(word: &[u8]) -> Option<usize> {
    if word.is_empty() || word.len() > 20 {
        return None;
    }
    let mut value = 0usize;
    for byte in word {
        let digit = digit_of(*byte).filter(|digit| *digit < 10)?;
        value = value.checked_mul(10)?.checked_add(usize::from(digit))?;
    }
    Some(value)
}

/// Returns the byte that two hexadecimal digits spell.
pub fn hexadecimal_byte(word: &[u8]) -> Option<u8> {
    match word {
        [high, low] => Some(digit_of(*high)? * 16 + digit_of(*low)?),
        _ => None,
    }
}

/// Returns the value of a hexadecimal digit, in upper or lower case.
fn digit_of(byte: u8) -> Option<u8>
    ensures { IfSome result (λ digit. digit < 16) }
{
    match byte {
        b'0'..=b'9' => Some(byte - b'0'),
        b'a'..=b'f' => Some(byte - b'a' + 10),
        b'A'..=b'F' => Some(byte - b'A' + 10),
        _ => None,
    }
}
