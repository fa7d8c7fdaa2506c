//! The accounted bytes of a cache, and the minimum capacity that it needs.
ghost use Rattle.std.specs.Prelude.{◌≡◌, ◌≤◌, ◌+◌, ◌*◌, ◌^◌, length};
ghost use Rattle.automata_determinize.specs.Powersets.Accounting as bytes;

use automata_base::nfa::thompson::NFA;

/// The accounted bytes of a powerset state without its lists.
pub const HEAD_COST: usize = 13;

/// The accounted bytes of each pattern of a powerset state.
pub const PATTERN_COST: usize = 4;

/// The accounted bytes of each NFA state in a powerset state.
pub const ID_COST: usize = 5;

/// The size, in bytes, of an ID: of a table cell or a start slot.
pub const CELL_SIZE: usize = 4;

/// The size, in bytes, of a row in the list of rows, without its cells.
pub const ROW_SIZE: usize = 16;

/// The size, in bytes, of a row's entry in the map.
pub const ENTRY_SIZE: usize = 20;

/// The cost, in accounted bytes, of the states of the three rows that every table begins with.
pub const FIXED_ROWS_COST: usize = 39;

/// The size of the two sets of NFA states that determinization uses, in bytes for each state of the NFA.
const SETS_COST: usize = 16;

/// The size, in bytes, of an entry on the stack of a closure.
const PLACE_COST: usize = 4;

/// Returns the greatest cost of a powerset state of the NFA, in accounted bytes.
pub fn max_cost(nfa: &NFA) -> usize
    ensures cost { result ≡ bytes.max_cost nfa.now }
    ensures few { result ≤ 2 ^ 31 }
{
    HEAD_COST + PATTERN_COST * pattern_count(nfa) + ID_COST * nfa.states().len()
}

/// Returns the accounted bytes that every cache needs for determinization.
pub fn fixed_cost(nfa: &NFA) -> usize
    ensures cost { result ≡ bytes.fixed_cost nfa.now }
    ensures few { result ≤ 2 ^ 34 }
{
    SETS_COST * nfa.states().len() + PLACE_COST * nfa.room() + max_cost(nfa)
}

/// Returns the number of start slots of a cache: twelve, and six more for each pattern if `each_pattern` is true.
pub fn start_slots(nfa: &NFA, each_pattern: bool) -> usize
    ensures number { result ≡ bytes.start_slots nfa.now each_pattern }
    ensures few { result ≤ 2 ^ 30 }
{
    if each_pattern {
        12 + 6 * pattern_count(nfa)
    } else {
        12
    }
}

/// Returns the number of patterns of the NFA, at most 2^27.
fn pattern_count(nfa: &NFA) -> usize
    ensures number { result ≡ length nfa.now.start_pattern }
    ensures few { result ≤ 2 ^ 27 }
{
    nfa.pattern_starts().len()
}

/// Returns the minimum capacity, in bytes: room for a state in each start slot and for two more, each of the greatest
/// cost.
pub(crate) fn minimum_capacity(stride: usize, slots: usize, greatest: usize, fixed: usize) -> usize
    requires stride { stride ≤ 512 }
    requires slots { slots ≤ 2 ^ 30 }
    requires greatest { greatest ≤ 2 ^ 31 }
    requires fixed { fixed ≤ 2 ^ 34 }
    ensures { result ≡ bytes.minimum_capacity stride slots greatest fixed }
{
    let cells = product(5 + slots, stride);
    let costs = product(2 + slots, greatest);
    CELL_SIZE * cells
        + CELL_SIZE * slots
        + ROW_SIZE * (5 + slots)
        + ENTRY_SIZE * (3 + slots)
        + FIXED_ROWS_COST
        + costs
        + fixed
}

/// Returns the greatest offset of a row, in cells, in the table of a cache that has the minimum capacity.
pub(crate) fn greatest_offset(stride: usize, slots: usize) -> usize
    requires stride { stride ≤ 512 }
    requires slots { slots ≤ 2 ^ 30 }
    ensures { result ≡ (4 + slots) * stride }
{
    product(4 + slots, stride)
}

/// Returns the product of two numbers that are at most 2^31 each.
fn product(a: usize, b: usize) -> usize
    requires few { a ≤ 2 ^ 31 }
    requires many { b ≤ 2 ^ 31 }
    ensures product { result ≡ a * b }
    ensures bound { result ≤ 2 ^ 62 }
{
    a * b
}
