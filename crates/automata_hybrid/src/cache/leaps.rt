//! Leaps: where cached transitions lead from a row over a few bytes, found in one look-up. They are built from the
//! transition table, for all rows that it has, by the classes of bytes. A cell has the row after these bytes if each
//! transition on the way is cached and leads to an ID without a tag; otherwise it has a mark, and the bytes are
//! followed one by one. So leaps contain nothing that the transition table does not contain, and no contract of a
//! search mentions them.
ghost use Rattle.std.specs.Prelude.{ℕ, suc, ◌≡◌, true, false, ◌+◌, ◌*◌, ◌^◌, ◌<◌, ◌≤◌, IfOk, IfSome, None, OnOk};
ghost use Rattle.std.specs.Prelude.{length, slice_index};
ghost use Rattle.automata_hybrid.specs.Private.Cache.Leaps.{AreLeaps, AreLeapSteps, IsLevel, IsShape, IsShapeOf};
ghost use Rattle.automata_hybrid.specs.Private.Cache.Leaps.{first_cell, leaps_bytes, making_bytes};

use crate::cache::progress::Searched;
use crate::cache::table::Table;
use automata_base::util::heap::{array, block};
use std::alloc::{AllocError, Global};

/// The mark: the value of a cell whose bytes have to be followed one by one.
pub(crate) const MARK: u32 = u32::MAX;

/// The largest number of rows for which leaps are built.
const MOST: usize = 1 << 18;

/// The number of bytes that leaps take in addition to their cells.
const SIZE: usize = 64;

/// The minimum number of bytes that are searched before leaps are made.
const FIRST: usize = 4096;

/// The number of bytes that are searched, for each cell, before leaps are made.
const PRICE: usize = 16;

/// The number of bytes that a leap reads, and the number of cells.
#[derive(Clone, Copy)]
pub(crate) struct Shape {
    /// The number of bytes that a leap reads.
    pub(crate) reach: usize,
    /// The number of byte classes.
    pub(crate) classes: usize,
    /// The number of rows that have leaps.
    pub(crate) rows: usize,
    /// The number of cells of a row: one for each sequence of `reach` classes.
    pub(crate) width: usize,
}

/// The leaps of the rows that a table had when they were made.
#[derive(Drop)]
pub(crate) struct Leaps {
    pub(crate) shape: Shape,
    /// The index of the first cell of the next row, or the mark.
    pub(crate) cells: Vec<u32>,
}

/// The leaps of a cache, if there are any, and when it considers making them.
#[derive(Drop)]
pub(crate) struct Leaping {
    pub(crate) leaps: Option<Box<Leaps>>,
    /// The number of bytes searched since the last clear after which the cache next considers making leaps.
    pub(crate) due: usize,
}

impl Leaping {
    /// Returns the state in a new cache and after a clear: no leaps yet.
    pub(crate) fn new() -> Leaping
        ensures { result.leaps ≡ None }
    {
        Leaping {
            leaps: None,
            due: FIRST,
        }
    }

    /// Returns the number of bytes that leaps take from the allocator.
    pub(crate) fn heap_usage(&self) -> usize {
        match &self.leaps {
            Some(leaps) => {
                let cells = array(leaps.cells.capacity(), 4);
                cells.saturating_add(block(SIZE))
            }
            None => 0,
        }
    }

    /// Returns a state with no leaps until the next clear.
    pub(crate) fn none() -> Leaping
        ensures { result.leaps ≡ None }
    {
        Leaping {
            leaps: None,
            due: usize::MAX,
        }
    }

    /// Drops the leaps, if there are any, since the rows are about to change.
    #[inline(always)]
    pub(crate) fn drop_leaps(&mut self, searched: &Searched)
        ensures { self.new.leaps ≡ None }
    {
        if self.leaps.is_some() {
            self.end(searched.total_len());
        }
    }

    /// Drops the leaps if the cell to be written was not unknown.
    pub(crate) fn keep_if(&mut self, unknown: bool, searched: &Searched)
        ensures kept { unknown ≡ true → self.new.leaps ≡ self.old.leaps }
        ensures dropped { unknown ≡ false → self.new.leaps ≡ None }
    {
        if !unknown {
            self.drop_leaps(searched);
        }
    }

    /// Drops the leaps. They are rebuilt only after as many bytes are searched as before they were made.
    #[inline(never)]
    fn end(&mut self, searched: usize)
        ensures { self.new.leaps ≡ None }
    {
        let price = match &self.leaps {
            Some(leaps) => leaps.shape.price(),
            None => 0,
        };
        self.leaps = None;
        self.due = searched.saturating_add(price);
    }
}

/// Returns how many bytes a leap reads, by the number of classes: 0 if there are too many classes for leaps.
fn reach_for(classes: usize) -> usize
    ensures short { result ≤ 4 }
    ensures narrow { 0 < result → classes ^ result ≤ 2 ^ 10 }
    ensures few { 0 < result → classes ≤ 32 }
{
    if classes <= 5 {
        4
    } else if classes <= 10 {
        3
    } else if classes <= 32 {
        2
    } else {
        0
    }
}

impl Shape {
    /// Returns the shape of leaps for these numbers of classes and rows, unless they are too large.
    pub(crate) fn of(classes: usize, rows: usize) -> Option<Shape>
        ensures shape { IfSome result IsShape }
        ensures classes { IfSome result (λ s. s.classes ≡ classes) }
        ensures rows { IfSome result (λ s. s.rows ≡ rows) }
    {
        let reach = reach_for(classes);
        if reach == 0 || rows > MOST {
            return None;
        }
        let width = classes.pow(reach as u32);
        Some(Shape {
            reach,
            classes,
            rows,
            width,
        })
    }

    /// Returns how many bytes leaps of this shape take.
    pub(crate) fn bytes(self) -> usize
        requires { IsShape self }
        ensures { result ≡ leaps_bytes (self.rows * self.width) }
    {
        SIZE + 4 * (self.rows * self.width)
    }

    /// Returns how many bytes it takes to build leaps of this shape: those of the leaps, of the rows after one byte,
    /// and of the rows after all bytes of a leap but the last.
    pub(crate) fn making(self) -> usize
        requires { IsShape self }
        ensures { result ≡ making_bytes self }
    {
        let steps = (self.rows + 1) * self.classes;
        let level = self.rows * (self.width / self.classes.max(1));
        self.bytes() + 4 * (steps + level)
    }

    /// Returns how many bytes are searched before leaps of this shape are made.
    pub(crate) fn price(self) -> usize {
        PRICE.saturating_mul(self.rows.saturating_mul(self.width))
    }
}

/// Adds the rows that the transitions of a row lead to, class by class. The number of rows stands for "no row".
fn add_steps(
    steps: &mut Vec<u32>,
    table: &Table,
    classes: usize,
    row: usize,
) -> Result<(), AllocError>
    requires row { row < length table.now.rows }
    requires rows { length table.now.rows ≤ 2 ^ 18 }
    requires classes { classes ≤ table.now.of.stride }
    requires place { length steps.old.items ≡ row * classes }
    requires steps { AreLeapSteps table.now classes steps.old.items }
    ensures place { OnOk result (length steps.new.items ≡ (row + 1) * classes) }
    ensures steps { OnOk result (AreLeapSteps table.now classes steps.new.items) }
{
    for class in 0..classes {
        steps.push(table.row_after(row, class) as u32)?;
    }
    Ok(())
}

/// Returns the rows after one byte, for each row and class. The last entries are for "no row", which every class leads
/// back to.
fn steps_of(alloc: Global, table: &Table, classes: usize) -> Result<Vec<u32>, AllocError>
    requires rows { length table.now.rows ≤ 2 ^ 18 }
    requires classes { classes ≤ table.now.of.stride }
    requires few { classes ≤ 32 }
    ensures long { IfOk result (λ v. length v.items ≡ (length table.now.rows + 1) * classes) }
    ensures steps { IfOk result (λ v. AreLeapSteps table.now classes v.items) }
{
    let rows = table.len();
    let mut steps = Vec::with_capacity(alloc, (rows + 1) * classes)?;
    for row in 0..rows {
        add_steps(&mut steps, table, classes, row)?;
    }
    steps.resize((rows + 1) * classes, rows as u32)?;
    Ok(steps)
}

/// Returns the rows after one more byte, for each row of `level` and each class. Only the contract needs the table.
fn next_level(
    alloc: Global,
    _table: &Table,
    steps: &[u32],
    classes: usize,
    level: &[u32],
) -> Result<Vec<u32>, AllocError>
    requires long { length steps.now ≡ (length _table.now.rows + 1) * classes }
    requires steps { AreLeapSteps _table.now classes steps.now }
    requires room { length level.now * classes < 2 ^ 64 }
    requires level { (count : ℕ) × IsLevel _table.now classes count level.now }
    ensures long { IfOk result (λ v. length v.items ≡ length level.now * classes) }
    ensures level { IfOk result (λ v. (count : ℕ) → IsLevel _table.now classes count level.now
        → IsLevel _table.now classes (suc count) v.items) }
{
    let mut next = Vec::with_capacity(alloc, level.len() * classes)?;
    for row in level {
        let from = *row as usize * classes;
        next.extend_from_slice(&steps[from..from + classes])?;
    }
    Ok(next)
}

/// Returns the rows after the bytes of a leap, for each row and sequence of classes.
fn last_level(
    alloc: Global,
    table: &Table,
    steps: &[u32],
    shape: Shape,
) -> Result<Vec<u32>, AllocError>
    requires shape { IsShape shape }
    requires rows { shape.rows ≡ length table.now.rows }
    requires long { length steps.now ≡ (length table.now.rows + 1) * shape.classes }
    requires steps { AreLeapSteps table.now shape.classes steps.now }
    ensures long { IfOk result (λ v. length v.items ≡ shape.rows * shape.width) }
    ensures level { IfOk result (λ v. IsLevel table.now shape.classes shape.reach v.items) }
{
    let mut level = Vec::from_slice(alloc, &steps[..shape.rows * shape.classes])?;
    for _ in 1..shape.reach {
        level = next_level(alloc, table, steps, shape.classes, level.as_slice())?;
    }
    Ok(level)
}

/// Replaces row indices by the indices of the rows' first cells, and "no row" by the mark.
fn scale(cells: &mut Vec<u32>, rows: usize, width: usize)
    requires rows { rows ≤ 2 ^ 18 }
    requires width { width ≤ 2 ^ 10 }
    ensures long { length cells.new.items ≡ length cells.old.items }
    ensures cells { (k : ℕ) → k < length cells.old.items
        → slice_index cells.new.items k ≡ first_cell rows width (slice_index cells.old.items k) }
{
    for k in 0..cells.len() {
        let row = cells[k] as usize;
        cells[k] = if row < rows {
            (row * width) as u32
        } else {
            MARK
        };
    }
}

impl Leaps {
    /// Builds the leaps of all rows of a table.
    pub(crate) fn of_table(alloc: Global, table: &Table, shape: Shape) -> Result<Leaps, AllocError>
        requires of { IsShapeOf table.now shape }
        requires rows { shape.rows ≡ length table.now.rows }
        requires stride { shape.classes ≤ table.now.of.stride }
        ensures leaps { IfOk result (AreLeaps table.now) }
        ensures shape { IfOk result (λ l. l.shape ≡ shape) }
    {
        let steps = steps_of(alloc, table, shape.classes)?;
        let mut cells = last_level(alloc, table, steps.as_slice(), shape)?;
        scale(&mut cells, shape.rows, shape.width);
        Ok(Leaps { shape, cells })
    }

    /// Returns the cell at a column of a row, given the index of the row's first cell. The column is sliced first, so
    /// that there is only one load between one row and the next.
    #[inline(always)]
    pub(crate) fn cell(&self, row: u32, column: usize) -> u32
        requires { row + column < length self.now.cells.items }
        ensures { result ≡ slice_index self.now.cells.items (row + column) }
    {
        let cells = &self.cells.as_slice()[column..];
        cells[row as usize]
    }
}
