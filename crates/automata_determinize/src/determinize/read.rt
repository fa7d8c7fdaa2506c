//! Decoding the bytes of a powerset state.
ghost use Rattle.std.specs.Prelude.{◌≡◌, ◌+◌, ◌<◌, ◌≤◌, ◌^◌, ℕ, List, length};
ghost use Rattle.std.specs.Prelude.{slice_index, OnOk, nat_lt};
ghost use Rattle.automata_determinize.specs.Powersets.Code.{IsFront, IsCode, number_at, id_at, is_set, patterns_of};
ghost use Rattle.automata_determinize.specs.Powersets.Code.{ids_bytes};
ghost use Rattle.automata_determinize.specs.Powersets.Code.{numbers};
ghost use Rattle.automata_base.specs.Powersets.Code.{bit};

use automata_base::util::primitives::PatternID;
use std::alloc::AllocError;

/// Returns the number in the four bytes at an index, the least significant first.
pub fn u32_at(bytes: &[u8], place: usize) -> u32
    requires { place + 4 ≤ length bytes.now }
    ensures { result ≡ number_at bytes.now place }
{
    u32::from_le_bytes([
        bytes[place],
        bytes[place + 1],
        bytes[place + 2],
        bytes[place + 3],
    ])
}

/// Reads the varint at the front, group by group. Returns its number, and the bytes after it.
fn groups_in(bytes: &[u8]) -> (u64, &[u8])
    requires { (n : ℕ) × (tail : List ℕ) × IsFront bytes.now n tail }
    ensures { (n : ℕ) (tail : List ℕ) → IsFront bytes.now n tail → (result.0 ≡ n) × (result.1.now ≡ tail) }
{
    match bytes {
        [] => (0, bytes),
        [first, rest @ ..] => {
            if *first < 128 {
                return (u64::from(*first), rest);
            }
            let (high, rest) = groups_in(rest);
            (u64::from(*first) - 128 + 128 * high, rest)
        }
    }
}

/// Returns the number of the varint at the front.
#[inline(never)]
fn long_number(bytes: &[u8]) -> u64
    requires { (n : ℕ) × (tail : List ℕ) × IsFront bytes.now n tail }
    ensures { (n : ℕ) (tail : List ℕ) → IsFront bytes.now n tail → result ≡ n }
{
    let (number, _) = groups_in(bytes);
    number
}

/// Returns the bytes after the varint at the front.
#[inline(never)]
fn after_long(bytes: &[u8]) -> &[u8]
    requires { (n : ℕ) × (tail : List ℕ) × IsFront bytes.now n tail }
    ensures { (n : ℕ) (tail : List ℕ) → IsFront bytes.now n tail → result.now ≡ tail }
{
    let (_, rest) = groups_in(bytes);
    rest
}

/// Reads the varint at the front. Returns its number, and the bytes after it. A varint of one byte is read inline. For
/// a longer one, two calls return their results in registers: a single call would return a pair in memory, and that
/// memory would be prepared for every number.
#[inline(always)]
pub fn number_in(bytes: &[u8]) -> (u64, &[u8])
    requires { (n : ℕ) × (tail : List ℕ) × IsFront bytes.now n tail }
    ensures { (n : ℕ) (tail : List ℕ) → IsFront bytes.now n tail → (result.0 ≡ n) × (result.1.now ≡ tail) }
{
    if let [first, rest @ ..] = bytes {
        if *first < 128 {
            return (u64::from(*first), rest);
        }
    }
    (long_number(bytes), after_long(bytes))
}

/// Returns 1 for the last byte of a varint, and 0 for any other byte.
fn last_count(byte: u8) -> usize
    ensures value { result ≡ bit (nat_lt byte 128) }
    ensures few { result ≤ 1 }
{
    if byte < 128 { 1 } else { 0 }
}

/// Returns the number of varints in the bytes. Each has one last byte, by which it is counted.
pub fn number_count(bytes: &[u8]) -> usize
    ensures { result ≡ length (numbers bytes.now) }
{
    let mut count = 0usize;
    for byte in bytes {
        count += last_count(*byte);
    }
    count
}

/// Returns the NFA state with this difference from the previous one.
pub fn id_from(before: u32, difference: u64) -> u32
    requires bound { difference < 2 ^ 35 }
    requires fits { id_at before difference < 2 ^ 32 }
    ensures { result ≡ id_at before difference }
{
    let before = u64::from(before);
    if difference % 2 == 0 {
        (before + difference / 2) as u32
    } else {
        before.saturating_sub((difference + 1) / 2) as u32
    }
}

/// Whether the powerset state of these bytes has patterns.
fn has_patterns(bytes: &[u8]) -> bool
    requires { 0 < length bytes.now }
    ensures { result ≡ is_set 1 bytes.now }
{
    bytes[0] % 2 == 1
}

/// Whether the powerset state of these bytes lists its patterns.
fn lists_patterns(bytes: &[u8]) -> bool
    requires { 0 < length bytes.now }
    ensures { result ≡ is_set 2 bytes.now }
{
    bytes[0] / 2 % 2 == 1
}

/// Returns the number of patterns of the powerset state of these bytes.
pub fn pattern_count(bytes: &[u8]) -> usize
    requires { IsCode bytes.now }
    ensures { result ≡ length (patterns_of bytes.now) }
{
    if lists_patterns(bytes) {
        u32_at(bytes, 9) as usize
    } else if has_patterns(bytes) {
        1
    } else {
        0
    }
}

/// Returns the pattern at an index of the powerset state of these bytes.
pub fn pattern_at(bytes: &[u8], index: usize) -> PatternID
    requires code { IsCode bytes.now }
    requires index_in { index < length (patterns_of bytes.now) }
    ensures { result ≡ slice_index (patterns_of bytes.now) index }
{
    if lists_patterns(bytes) {
        PatternID::new_unchecked(u32_at(bytes, 13 + 4 * index))
    } else {
        PatternID::new_unchecked(0)
    }
}

/// Returns the bytes after the patterns, which encode the NFA states of the powerset state.
pub fn ids_in(bytes: &[u8]) -> &[u8]
    requires { IsCode bytes.now }
    ensures { result.now ≡ ids_bytes bytes.now }
{
    if lists_patterns(bytes) {
        let count = u32_at(bytes, 9) as usize;
        &bytes[13 + 4 * count..]
    } else {
        &bytes[9..]
    }
}

/// Sets the list to the patterns of the powerset state of these bytes.
pub fn read_patterns(bytes: &[u8], out: &mut Vec<PatternID>) -> Result<(), AllocError>
    requires { IsCode bytes.now }
    ensures ok { OnOk result (out.new.items ≡ patterns_of bytes.now) }
{
    out.clear();
    for i in 0..pattern_count(bytes) {
        out.push(pattern_at(bytes, i))?;
    }
    Ok(())
}
