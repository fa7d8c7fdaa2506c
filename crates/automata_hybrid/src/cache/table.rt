//! The transition table: a row of cells for each state, after the three fixed rows (unknown, dead and quit), and the
//! map from states to the IDs of their rows. An ID has the offset of its row, so that a step adds a class and loads
//! one cell. The cell is unknown until the step has been taken once.
ghost use Rattle.std.specs.Prelude.{ℕ, ◌≡◌, ◌+◌, ◌-◌, ◌*◌, ◌/◌, ◌%◌, ◌^◌, ◌<◌, ◌≤◌, IfOk, IsTrue, ◌↔◌};
ghost use Rattle.std.specs.Prelude.{OnErr, OnOk, length, slice_index, slice_set, sum_by, false, cond};
ghost use Rattle.automata_base.specs.Powersets.Powerset.{Powerset, cost, dead};
ghost use Rattle.automata_base.specs.ByteClasses.Classes.{eoi_class, stride_for};
ghost use Rattle.automata_hybrid.specs.Cache.Ids.{unknown_id, offset_limit};
ghost use Rattle.automata_hybrid.specs.Machines.Machine.{marked};
ghost use Rattle.automata_hybrid.specs.Private.Machines.Machine.{IsTemplate};
ghost use Rattle.automata_hybrid.specs.Cache.Table.{id_of, fresh, Names, row_cost, IsRowId, cell_at};
ghost use Rattle.automata_hybrid.specs.Cache.Table.{HasItsMatchTag, IsRowState};
ghost use Rattle.automata_hybrid.specs.Machines.OwnStates.{IsOwn};
ghost use Rattle.automata_hybrid.specs.Private.Cache.Table.{LeadsByClass, HasState, IsNewState};
ghost use Rattle.automata_hybrid.specs.Private.Cache.Table.{HasNewRow, IsCopiedRow, RowsFitCells};
ghost use Rattle.automata_hybrid.specs.Private.Cache.Table.{IsSoundTable, IsCell, with_cell};
ghost use Rattle.automata_hybrid.specs.Private.Cache.Leaps.{LeadsToRow};
ghost use Rattle.automata_hybrid.specs.Cache.States.{held_states};

use crate::cache::row;
use crate::cache::row::Row;
use crate::cache::states::States;
use crate::dfa::DFA;
use crate::id::LazyStateID;
use automata_base::util::alphabet::ByteClasses;
use automata_base::util::byte_set::ByteSet;
use automata_base::util::heap::array;
use automata_base::util::subject::Subject;
use automata_config::accounting::{CELL_SIZE, ROW_SIZE};
use automata_determinize::determinize::{Key, State};
use std::alloc::{AllocError, AllocFailed, Global};
use std::collections::HashMap;
use std::marker::Model;

/// The size, in bytes, of a key of the map.
const KEY_SIZE: usize = 16;

/// The size, in bytes, of what the map keeps to find an entry: its hash and its index.
const PLACE_SIZE: usize = 8;

/// The number of entries per group in a full map.
const GROUP: usize = 9;

/// The size, in bytes, of a group.
const GROUP_SIZE: usize = 64;

/// The minimum number of groups that a map has room for.
const LEAST_GROUPS: usize = 4;

/// The rows of a lazy DFA, and the map from states to them.
#[derive(Drop)]
pub struct Table {
    of: Subject<DFA>,
    stride: usize,
    template: Vec<LazyStateID>,
    cells: Vec<LazyStateID>,
    rows: Vec<Row>,
    map: HashMap<Key, LazyStateID>,
    costs: usize,
    /// The bytes that the allocations of the rows' states take. No contract covers them.
    blocks: usize,
}

impl Model for Table {
    ghost use Rattle.automata_hybrid.specs.Cache.Table.{Rows};
    ghost use Rattle.automata_hybrid.specs.Private.Cache.Table.{IsHeld};

    ghost Value = { Rows };

    ghost view = { λ t. record { of = t.of.value; cells = t.cells.items; rows = t.rows.items } };

    ghost invariant = { λ t. IsHeld (record { of = t.of.value; cells = t.cells.items; rows = t.rows.items }) t.stride
        t.template.items t.map t.costs };
}

impl Clone for Table {
    ghost is_clone = { λ a b. b ≡ a };

    fn clone(&self) -> Result<Table, AllocError> {
        let template = self.template.clone()?;
        let cells = self.cells.clone()?;
        let rows = self.rows.clone()?;
        let map = self.map.clone()?;
        Ok(Table {
            of: self.of.again(),
            stride: self.stride,
            template,
            cells,
            rows,
            map,
            costs: self.costs,
            blocks: self.blocks,
        })
    }
}

/// Returns the number of rows before an offset. The stride is a power of two, and a shift is much faster than a
/// division.
fn rows_before(offset: usize, stride: usize) -> usize
    requires positive { 0 < stride }
    requires power { (len : ℕ) × (stride ≡ stride_for len) }
    ensures { result ≡ offset / stride }
{
    offset >> stride.ilog2()
}

/// Returns the number of bytes that a map with room for `capacity` entries takes from the allocator. It has four lists:
/// keys, values, the hash and index of each entry, and groups of nine entries.
fn map_usage(capacity: usize) -> usize {
    if capacity == 0 {
        return 0;
    }
    let entries = array(capacity, KEY_SIZE).saturating_add(array(capacity, CELL_SIZE));
    let groups = array(capacity.div_ceil(GROUP).max(LEAST_GROUPS), GROUP_SIZE);
    entries
        .saturating_add(array(capacity, PLACE_SIZE))
        .saturating_add(groups)
}

impl Table {
    /// Returns the ID of a state, if the table has a row for it.
    #[inline(always)]
    pub fn get(&self, state: &Key) -> Option<LazyStateID>
        ensures { result ≡ id_of self.now state.now }
    {
        self.map.get(state).copied()
    }

    /// Returns the number of rows after the fixed ones.
    pub fn len(&self) -> usize
        ensures value { result ≡ length self.now.rows }
        ensures whole { length self.now.cells ≡ (length self.now.rows + 3) * self.now.of.stride }
    {
        self.rows.len()
    }

    /// Reveals the invariant of a table to a proof. It does nothing.
    pub fn reveal_invariant(&self)
        ensures { IsSoundTable self.now }
    {
        let _rows = &self.rows;
    }

    /// Returns the number of cells in a row.
    pub fn stride(&self) -> usize
        ensures value { result ≡ self.now.of.stride }
        ensures template { IsTemplate self.now.of.stride self.now.of.template }
    {
        self.stride
    }

    /// Returns the number of cells in all rows, the fixed ones included.
    pub fn cell_count(&self) -> usize
        ensures { result ≡ (length self.now.rows + 3) * self.now.of.stride }
    {
        self.cells.len()
    }

    /// Returns the states of all rows after the fixed ones.
    pub fn states(&self) -> States<'_>
        ensures value { result ≡ held_states self.now }
        ensures rows { RowsFitCells self.now }
    {
        let fixed = 3 * self.stride;
        States::new(&self.rows, &self.cells[fixed..], self.stride, fixed)
    }

    /// Returns the state that an ID names.
    pub fn state(&self, id: LazyStateID) -> &State
        requires { IsRowId self.now id }
        ensures named { (q : Powerset) → Names self.now id q → result.now ≡ q }
        ensures row { IsRowState self.now.of result.now }
    {
        let index = self.row_index(id);
        let row = &self.rows[index];
        &row.state
    }

    /// Returns the accounted bytes of all rows' states.
    pub fn costs(&self) -> usize
        ensures value { result ≡ sum_by row_cost self.now.rows }
        ensures most { sum_by row_cost self.now.rows ≤ length self.now.rows * self.now.of.greatest }
    {
        self.costs
    }

    /// Returns the number of bytes that the table takes from the allocator, including the states of its rows, which a
    /// clone shares.
    pub fn heap_usage(&self) -> usize {
        let cells = array(self.cells.capacity(), CELL_SIZE);
        let row = array(self.template.capacity(), CELL_SIZE);
        let rows = array(self.rows.capacity(), ROW_SIZE).saturating_add(self.blocks);
        cells
            .saturating_add(row)
            .saturating_add(rows)
            .saturating_add(map_usage(self.map.capacity()))
    }

    /// Adds a row for a state that the table does not have, and returns its ID. `bytes` is the number of accounted
    /// bytes of the state. An error changes nothing.
    #[inline(always)]
    pub fn add(
        &mut self,
        state: State,
        started: bool,
        bytes: usize,
    ) -> Result<LazyStateID, AllocError>
        requires new { IsNewState self.old state }
        requires bytes { bytes ≡ cost state }
        requires fits { length self.old.cells < offset_limit }
        requires costs { sum_by row_cost self.old.rows + cost state < 2 ^ 64 }
        ensures added { IfOk result (HasNewRow self.old (record { state = state; started = started }) self.new) }
        ensures sound { OnOk result (IsSoundTable self.new) }
        ensures err { OnErr result (self.new ≡ self.old) }
    {
        self.cells.reserve(self.stride)?;
        self.rows.reserve(1)?;
        self.map.reserve(1)?;
        let block = state.heap_usage();
        let key = state.key()?;
        let matches = row::has_patterns(&state);
        let offset = self.cells.len();
        let id = LazyStateID::of_row(offset as u32, started, matches);
        let grown: Result<(), AllocError> = self.cells.extend_from_slice(&self.template);
        grown.unwrap();
        let pushed: Result<(), AllocFailed<Row>> = self.rows.push(Row { state, started });
        pushed.unwrap();
        let inserted: Result<Option<LazyStateID>, AllocFailed<(Key, LazyStateID)>> = self
            .map
            .insert(key, id);
        let _ = inserted.unwrap();
        self.costs += bytes;
        self.blocks = self.blocks.saturating_add(block);
        Ok(id)
    }

    /// Returns a table with only the fixed rows, and with room for `room` more.
    #[inline(always)]
    pub fn fresh(
        dfa: &DFA,
        stride: usize,
        template: Vec<LazyStateID>,
        room: usize,
    ) -> Result<Table, AllocError>
        requires whole { IsTemplate stride template.items }
        requires stride { stride ≡ dfa.now.stride }
        requires template { template.items ≡ dfa.now.template }
        requires room { (room + 3) * stride < 2 ^ 64 }
        ensures empty { IfOk result (λ t. t ≡ fresh dfa.now) }
        ensures sound { IfOk result IsSoundTable }
    {
        let alloc = dfa.get_nfa().alloc();
        let mut cells = Vec::with_capacity(alloc, (room + 3) * stride)?;
        cells.resize(stride, LazyStateID::UNKNOWN)?;
        cells.resize(2 * stride, LazyStateID::dead(stride as u32))?;
        cells.resize(3 * stride, LazyStateID::quit(stride as u32))?;
        let mut map = HashMap::new(alloc);
        map.reserve(room)?;
        Ok(Table {
            of: Subject::of(dfa),
            stride,
            template,
            cells,
            rows: Vec::with_capacity(alloc, room)?,
            map,
            costs: 0,
            blocks: 0,
        })
    }

    /// Returns a table of the same shape with only the fixed rows, and with room for as many rows as this one has, so
    /// that a cache that clears often does not have to grow again each time.
    pub fn emptied(&self, dfa: &DFA) -> Result<Table, AllocError>
        requires { dfa.now ≡ self.now.of }
        ensures empty { IfOk result (λ t. t ≡ fresh self.now.of) }
        ensures sound { IfOk result IsSoundTable }
    {
        let template = Vec::from_slice(dfa.get_nfa().alloc(), &self.template)?;
        Table::fresh(dfa, self.stride, template, self.rows.len())
    }

    /// Returns the index of the row that has this ID.
    pub fn row_index(&self, id: LazyStateID) -> usize
        requires { IsRowId self.now id }
        ensures value { result ≡ (id % offset_limit) / self.now.of.stride - 3 }
        ensures row { (q : Powerset) → Names self.now id q → HasState self.now result q }
        ensures within { result < length self.now.rows }
    {
        rows_before(id.offset() as usize, self.stride) - 3
    }

    /// Whether a row after the fixed ones has exactly this ID, tags included.
    pub fn has_row(&self, id: LazyStateID) -> bool
        ensures { IsTrue result ↔ IsRowId self.now id }
    {
        let offset = id.offset();
        let index = rows_before(offset as usize, self.stride);
        if index < 3 || self.rows.len() + 3 <= index {
            return false;
        }
        let row = &self.rows[index - 3];
        if index * self.stride != offset as usize {
            return false;
        }
        id == row.id(offset)
    }

    /// Returns the cell of a row at a class. The caller passes the row's offset, so that no tags have to be masked. The
    /// column is sliced first, so that there is only one load between one row and the next.
    #[inline(always)]
    pub fn cell_in_row(&self, id: LazyStateID, row: usize, class: usize) -> LazyStateID
        requires row { IsRowId self.now id }
        requires class { class < self.now.of.stride }
        requires offset { row ≡ id % offset_limit }
        ensures value { result ≡ slice_index self.now.cells (cell_at id class) }
        ensures named { (q : Powerset) → Names self.now id q → IsCell self.now q class result }
        ensures tag { HasItsMatchTag self.now result }
        ensures own { (q : Powerset) → Names self.now id q → IsOwn self.now.of.nfa q }
        ensures stride { self.now.of.stride ≤ 512 }
    {
        let cells = self.cells.as_slice();
        let column = &cells[class..];
        column[row]
    }

    /// Writes a transition to the cell of a row at a class.
    pub fn set_cell(&mut self, id: LazyStateID, class: usize, next: LazyStateID)
        requires row { IsRowId self.old id }
        requires class { class < self.old.of.stride }
        requires free { slice_index self.old.of.template class ≡ unknown_id }
        requires next { (q : Powerset) × Names self.old id q × LeadsByClass self.old next q class }
        ensures value { self.new ≡ with_cell self.old id class next }
        ensures sound { IsSoundTable self.new }
    {
        self.cells[id.offset() as usize + class] = next;
    }

    /// Returns the index of the row that a transition leads to, if it is cached and its ID has no tag; otherwise the
    /// number of rows.
    pub fn row_after(&self, row: usize, class: usize) -> usize
        requires row { row < length self.now.rows }
        requires class { class < self.now.of.stride }
        ensures upto { result ≤ length self.now.rows }
        ensures leads { result < length self.now.rows → LeadsToRow self.now row class result }
    {
        let rows = self.rows.len();
        let offset = self.cells[(row + 3) * self.stride + class].offset_by(0);
        let index = rows_before(offset, self.stride);
        if index < 3 || rows + 3 <= index || index * self.stride != offset {
            return rows;
        }
        index - 3
    }

    /// Returns the ID of a row, without tags.
    pub fn row_at(&self, index: usize) -> LazyStateID
        requires { index < length self.now.rows }
        ensures { result ≡ (index + 3) * self.now.of.stride }
    {
        let stride = self.stride;
        LazyStateID::at_offset((index + 3) * stride, 0)
    }

    /// Returns a copy of a row: its state, and whether its ID has the start tag.
    pub fn copied_row(&self, row: usize) -> Result<Row, AllocError>
        requires { row < length self.now.rows }
        ensures { IfOk result (IsCopiedRow self.now row) }
    {
        let row = &self.rows[row];
        let copy = row.clone()?;
        Ok(copy)
    }
}

/// Sets the cell of a class to the quit ID, if its byte is a quit byte.
fn mark(cells: &mut Vec<LazyStateID>, class: usize, quit: LazyStateID, quits: bool)
    requires { class < length cells.old.items }
    ensures { cells.new.items ≡ cond quits (slice_set cells.old.items class quit) cells.old.items }
{
    if quits {
        cells[class] = quit;
    }
}

/// Returns the cells of a new row: quit at the classes of quit bytes, and unknown at all others.
pub fn new_row(
    alloc: Global,
    classes: &ByteClasses,
    quits: &ByteSet,
    stride: usize,
) -> Result<Vec<LazyStateID>, AllocError>
    requires classes { eoi_class classes.now < stride }
    requires stride { stride ≤ 512 }
    ensures { IfOk result (λ v. v.items ≡ marked classes.now quits.now stride 256) }
{
    let mut cells = Vec::with_capacity(alloc, stride)?;
    cells.resize(stride, LazyStateID::UNKNOWN)?;
    if quits.is_empty() {
        return Ok(cells);
    }
    let quit = LazyStateID::quit(stride as u32);
    for byte in 0..256usize {
        let class = classes.get(byte as u8);
        let quits_at = quits.contains(byte as u8);
        mark(&mut cells, usize::from(class), quit, quits_at);
    }
    Ok(cells)
}
