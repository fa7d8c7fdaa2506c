//! Heads, the parts of matches before a needle in them, and the bytes of which they consist.
ghost use Rattle.std.specs.Prelude.{◌≡◌, ◌<◌, ◌≤◌, ℕ, All, length, map, slice_index, true};
ghost use Rattle.regex_hir.specs.Meaning.{cat_all, meaning};
ghost use Rattle.prefilters.specs.Bytes.{KeepsBytes, in_table};
ghost use Rattle.prefilters.specs.Heads.{ConsistsOf, HasCharacters, HasBytesInRange, IsHeadOf, StartsRun};

use crate::bytes::add_range;
use regex_class::ClassRange;
use regex_hir::Hir;

/// What is known of the part of a match before a needle in it.
#[derive(Clone, Copy)]
pub enum Head {
    /// It has at most this many bytes.
    Within(usize),
    /// It has only bytes of this table.
    Of([bool; 256]),
    /// Nothing.
    Any,
}

/// Adds the bytes from `lo` to `hi`, but none above `most`, to the table.
fn add_up_to(table: &mut [bool; 256], lo: u32, hi: u32, most: u8)
    ensures kept { KeepsBytes table.old table.new }
    ensures added { (byte : ℕ) → lo ≤ byte → byte ≤ hi → byte ≤ most → in_table table.new byte ≡ true }
{
    if lo <= u32::from(most) {
        let end = hi.min(u32::from(most));
        add_range(table, lo as u8, end as u8);
    }
}

/// Adds the bytes of a class of bytes to the table.
fn add_byte_class(table: &mut [bool; 256], ranges: &[ClassRange])
    ensures kept { KeepsBytes table.old table.new }
    ensures added { All (HasBytesInRange table.new) ranges.now }
{
    for range in ranges {
        add_up_to(table, range.0, range.1, 0xFF);
    }
}

/// Adds the bytes that encode characters from `lo` to `hi` to the table: all bytes beyond ASCII, if one of them is
/// beyond.
fn add_characters(table: &mut [bool; 256], lo: u32, hi: u32)
    ensures kept { KeepsBytes table.old table.new }
    ensures added { HasCharacters table.new (lo, hi) }
{
    add_up_to(table, lo, hi, 0x7F);
    if hi > 0x7F {
        add_range(table, 0x80, 0xFF);
    }
}

/// Adds the bytes that encode the characters of a class to the table.
fn add_character_class(table: &mut [bool; 256], ranges: &[ClassRange])
    ensures kept { KeepsBytes table.old table.new }
    ensures added { All (HasCharacters table.new) ranges.now }
{
    for range in ranges {
        add_characters(table, range.0, range.1);
    }
}

/// Adds the bytes of a literal to the table.
fn add_literal(table: &mut [bool; 256], bytes: &[u8])
    ensures kept { KeepsBytes table.old table.new }
    ensures added { All (λ byte. in_table table.new byte ≡ true) bytes.now }
{
    for byte in bytes {
        table[usize::from(*byte)] = true;
    }
}

/// Adds the bytes of which matches of a tree can consist to the table.
#[cycle(trees)]
fn add_tree(table: &mut [bool; 256], hir: &Hir)
    ensures kept { KeepsBytes table.old table.new }
    ensures added { ConsistsOf (meaning hir.now) table.new }
{
    match hir {
        Hir::Empty | Hir::Look(_) => {}
        Hir::Literal(bytes) => add_literal(table, bytes),
        Hir::Bytes(class) => add_byte_class(table, &class.ranges),
        Hir::Chars(class) => add_character_class(table, &class.ranges),
        Hir::Repetition { sub, .. } => add_tree(table, sub),
        Hir::Capture { sub, .. } => add_tree(table, sub),
        Hir::Concat(subs) => add_trees(table, subs),
        Hir::Alternation(subs) => add_trees(table, subs),
    }
}

/// Adds the bytes of which matches of several trees can consist to the table.
#[cycle(trees)]
fn add_trees(table: &mut [bool; 256], subs: &[Hir])
    ensures kept { KeepsBytes table.old table.new }
    ensures added { All (λ hir. ConsistsOf (meaning hir) table.new) subs.now }
{
    for i in 0..subs.len() {
        add_tree(table, &subs[i]);
    }
}

impl Head {
    /// Returns what is known of matches of a sequence of trees: the bytes of which they consist or, if a space is one of
    /// these, nothing, since in most texts such bytes are everywhere.
    pub fn of_sequence(parts: &[Hir]) -> Head
        ensures { IsHeadOf (cat_all (map meaning parts.now)) result }
    {
        let mut table = [false; 256];
        add_trees(&mut table, parts);
        if table[usize::from(b' ')] {
            Head::Any
        } else {
            Head::Of(table)
        }
    }
}

/// Returns the first offset, back to `start`, from which on the haystack has only bytes of the table to before `at`.
pub(crate) fn run_start(table: &[bool; 256], hay: &[u8], start: usize, at: usize) -> usize
    requires order { start ≤ at }
    requires within { at ≤ length hay.now }
    ensures { StartsRun table.now hay.now start at result }
{
    let mut first = at;
    while first > start {
        if !table[usize::from(hay[first - 1])] {
            return first;
        }
        first -= 1;
    }
    first
}
