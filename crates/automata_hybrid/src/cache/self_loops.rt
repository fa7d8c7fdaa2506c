//! What a cache keeps about the self-loop of a row: two ranges of bytes on which the row was seen to lead back to
//! itself. Searches find these ranges, and test them before use, so that no answer depends on them.
ghost use Rattle.std.specs.Prelude.{◌≡◌};

use crate::id::LazyStateID;

/// How many bytes to read before looking for ranges again, after they had too many classes or missed too often.
pub(crate) const AGAIN: usize = 2048;

/// Ranges with more classes than this are not kept for the next run, which would have to test each class.
const CLASSES: u16 = 8;

/// A range of bytes: `size` bytes from `low` on, where 0 follows 255, and the number of their classes.
#[derive(Clone, Copy, Default)]
pub(crate) struct LoopRange {
    pub(crate) low: u8,
    pub(crate) size: u8,
    pub(crate) classes: u16,
}

impl LoopRange {
    /// Returns an empty range.
    pub(crate) fn none() -> LoopRange
        ensures { result.size ≡ 0 }
    {
        LoopRange {
            low: 0,
            size: 0,
            classes: 0,
        }
    }

    /// Whether the range is empty.
    pub(crate) fn is_empty(&self) -> bool {
        self.size == 0
    }
}

/// The ranges found for a row's self-loop.
#[derive(Clone, Copy, Default)]
pub(crate) struct KnownLoop {
    pub(crate) id: LazyStateID,
    pub(crate) first: LoopRange,
    pub(crate) second: LoopRange,
    /// How many more bytes are followed, eight at a time, before ranges are looked for.
    pub(crate) wait: usize,
}

impl KnownLoop {
    /// Returns a self-loop with no known range.
    pub(crate) fn new(id: LazyStateID, wait: usize) -> KnownLoop {
        KnownLoop {
            id,
            first: LoopRange::none(),
            second: LoopRange::none(),
            wait,
        }
    }

    /// Returns what is kept of two ranges for the next run: both, or neither if they have too many classes.
    pub(crate) fn kept(id: LazyStateID, first: LoopRange, second: LoopRange) -> KnownLoop {
        if first.classes.saturating_add(second.classes) > CLASSES {
            return KnownLoop::new(id, AGAIN);
        }
        KnownLoop {
            id,
            first,
            second,
            wait: 0,
        }
    }
}
