//! Ranges of bytes on which a row has a cached self-loop: found around a byte, and tested class by class.
ghost use Rattle.std.specs.Prelude.{◌<◌, ◌≤◌, ℕ, IsTrue};
ghost use Rattle.automata_hybrid.specs.Cache.Ids.{fixed_from};
ghost use Rattle.automata_hybrid.specs.Private.Cache.Sound.{IsSoundCacheOf};
ghost use Rattle.automata_hybrid.specs.Private.Fast.SelfLoops.{IsLoopRange, LoopsOn};
ghost use Rattle.automata_hybrid.specs.Cache.Table.{IsRowId};

use crate::cache::Cache;
use crate::cache::self_loops::LoopRange;
use crate::dfa::DFA;
use crate::id::LazyStateID;

/// Whether a row has a cached self-loop on each byte from `from` up to, but not including, `to`. It tests each class of
/// these bytes.
fn loops_between(dfa: &DFA, cache: &Cache, id: LazyStateID, from: usize, to: usize) -> bool
    requires sound { IsSoundCacheOf cache.now dfa.now }
    requires valid { IsRowId cache.now.store.table id }
    requires plain { id < fixed_from }
    requires within { to ≤ 256 }
    ensures { IsTrue result → (byte : ℕ) → from ≤ byte → byte < to → LoopsOn dfa.now cache.now.store id byte }
{
    if from >= to {
        return true;
    }
    let first = dfa.class_of(from as u8);
    let last = dfa.class_of((to - 1) as u8);
    for class in first..last + 1 {
        if cache.cell(id, class) != id {
            return false;
        }
    }
    true
}

/// Whether a row has a cached self-loop on each byte of a range.
pub(crate) fn loops_on_range(dfa: &DFA, cache: &Cache, id: LazyStateID, range: LoopRange) -> bool
    requires sound { IsSoundCacheOf cache.now dfa.now }
    requires valid { IsRowId cache.now.store.table id }
    requires plain { id < fixed_from }
    ensures { IsTrue result → IsLoopRange dfa.now cache.now.store id range }
{
    let from = usize::from(range.low);
    let to = from + usize::from(range.size);
    if to <= 256 {
        return loops_between(dfa, cache, id, from, to);
    }
    loops_between(dfa, cache, id, from, 256) && loops_between(dfa, cache, id, 0, to - 256)
}

/// Returns the first byte whose class is not below the given one; 0 if there is none.
fn first_byte(dfa: &DFA, class: usize) -> u8 {
    let mut first = 0u8;
    for half in [128u8, 64, 32, 16, 8, 4, 2, 1, 1] {
        let after = first.wrapping_add(half);
        if dfa.class_of(after.wrapping_sub(1)) < class {
            first = after;
        }
    }
    first
}

/// Returns the first of the consecutive classes up to `class` on which a row has a self-loop, and how many these are.
/// There are `end` classes of bytes, and the class of byte 255 comes before the class of byte 0.
#[inline(always)]
fn classes_upto(cache: &Cache, id: LazyStateID, class: usize, end: usize) -> (usize, u16)
    requires valid { IsRowId cache.now.store.table id }
    requires class { class < cache.now.store.table.of.stride }
    requires end { end < cache.now.store.table.of.stride }
    ensures { result.0 < cache.now.store.table.of.stride }
{
    let mut first = class;
    let mut count = 1u16;
    'down: for _ in 1..end {
        let before = if first == 0 { end - 1 } else { first - 1 };
        if cache.cell(id, before) != id {
            break;
        }
        first = before;
        count = count.saturating_add(1);
    }
    (first, count)
}

/// Returns the class after the last of the consecutive classes from `class` on which a row has a self-loop, and
/// `before` plus the number of those after `class`. There are `end` classes of bytes, and the class of byte 0 comes
/// after the class of byte 255.
#[inline(always)]
fn classes_from(
    cache: &Cache,
    id: LazyStateID,
    class: usize,
    end: usize,
    before: u16,
) -> (usize, u16)
    requires valid { IsRowId cache.now.store.table id }
    requires class { class < cache.now.store.table.of.stride }
    requires end { end < cache.now.store.table.of.stride }
    requires small { cache.now.store.table.of.stride ≤ 512 }
{
    let mut count = before;
    let mut after = if class + 1 >= end { 0 } else { class + 1 };
    'up: for _ in usize::from(count)..end {
        if cache.cell(id, after) != id {
            break;
        }
        after = if after + 1 >= end { 0 } else { after + 1 };
        count = count.saturating_add(1);
    }
    (after, count)
}

/// Returns the consecutive classes around `class` on which a row has a self-loop: the first, the one after the last,
/// and how many there are. The class of byte 0 follows the class of byte 255.
fn classes_around(dfa: &DFA, cache: &Cache, id: LazyStateID, class: usize) -> (usize, usize, u16)
    requires sound { IsSoundCacheOf cache.now dfa.now }
    requires valid { IsRowId cache.now.store.table id }
    requires class { class < dfa.now.stride }
{
    let end = dfa.end_class();
    let (first, below) = classes_upto(cache, id, class, end);
    let (after, count) = classes_from(cache, id, class, end, below);
    (first, after, count)
}

/// Returns a range around a byte on which a row has a cached self-loop, or an empty one if the test of the range fails.
pub(crate) fn range_around(dfa: &DFA, cache: &Cache, id: LazyStateID, byte: u8) -> LoopRange
    requires sound { IsSoundCacheOf cache.now dfa.now }
    requires valid { IsRowId cache.now.store.table id }
    requires plain { id < fixed_from }
    ensures { IsLoopRange dfa.now cache.now.store id result }
{
    let (first, after, classes) = classes_around(dfa, cache, id, dfa.class_of(byte));
    let low = first_byte(dfa, first);
    // All 256 bytes would have size 0, so one of them is left out.
    let size = match first_byte(dfa, after).wrapping_sub(low) {
        0 => 255,
        size => size,
    };
    let range = LoopRange { low, size, classes };
    if loops_on_range(dfa, cache, id, range) {
        return range;
    }
    LoopRange::none()
}
