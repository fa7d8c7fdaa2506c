//! The lines around those that are taken.
ghost use Rattle.std.specs.Prelude.{◌≡◌, ◌≤◌, ◌<◌, ◌++◌, ◌∷◌, [], Bool, List, OnOk, ℕ, false, length, map, true};
ghost use Rattle.regex_hir.specs.Re.{Re};
ghost use Rattle.lgrep.specs.Around.{after_gap, held_line, near_lines, separator};
ghost use Rattle.lgrep.specs.Lines.{found_line};
ghost use Rattle.lgrep.specs.Shown.{found_shown, near_shown};
ghost use Rattle.lgrep.specs.declared.around.Last.TheVariants as last;
ghost use Rattle.lgrep.specs.declared.position.Position.{Position};
ghost use Rattle.lgrep.specs.declared.show.Show as show;

use crate::lines::Line;
use crate::position::Position;
use crate::show::{Around, How, Show, frame_of, prefix, push_after};
use anyhow::Result;
use std::alloc::Global;
use std::collections::VecDeque;

/// What precedes the next line that is shown.
#[derive(Clone, Copy)]
pub enum Last {
    /// Nothing was shown.
    Nothing,
    /// The line before it was shown.
    Line,
    /// Lines were shown, but not the one before it.
    Gap,
}

/// A line that is shown if one of the next lines is taken.
pub struct Held {
    position: Position,
    bytes: Vec<u8>,
}

// An owner drops this with one call, so that its proof has no step for each field.
impl Drop for Held {
    fn drop(self) {
        let Self {
            position: _position,
            bytes: _bytes,
        } = self;
    }
}

impl Held {
    /// Returns the room of its bytes, which is empty.
    fn room(self) -> Vec<u8>
        ensures { result.items ≡ [] }
    {
        let Self {
            position: _position,
            bytes: mut bytes,
        } = self;
        bytes.clear();
        bytes
    }
}

/// The lines of a file that precede the next line, as far as it matters what is shown around that line.
pub struct Context {
    pub around: Around,
    /// The last lines, none of which is taken or shown.
    held: VecDeque<Held>,
    /// How many of the next lines are shown because they follow a line that is taken.
    left: u64,
    last: Last,
    ghost few: { length held.items ≤ around.before },
    ghost one_side: { 0 < left → held.items ≡ [] },
}

// An owner drops this with one call, so that its proof has no step for each field.
impl Drop for Context {
    fn drop(self) {
        let Self {
            around: _around,
            held: _held,
            left: _left,
            last: _last,
        } = self;
    }
}

/// Returns what precedes the next line that is shown, after a line that is not shown.
fn after_gap(last: Last) -> Last
    ensures { result ≡ after_gap last }
{
    match last {
        Last::Nothing => Last::Nothing,
        Last::Line | Last::Gap => Last::Gap,
    }
}

/// Appends `--` and a line feed after a gap.
fn push_separator(last: Last, shown: &mut Vec<u8>) -> Result<()>
    ensures { OnOk result (shown.new.items ≡ shown.old.items ++ separator last) }
{
    match last {
        Last::Gap => Ok(shown.extend_from_slice(b"--\n")?),
        Last::Nothing | Last::Line => Ok(()),
    }
}

/// Appends a line that is near one that is taken. With `-o` it is not shown.
fn push_near(alloc: Global, show: &Show, line: &Line<'_>, shown: &mut Vec<u8>) -> Result<()>
    ensures { OnOk result (shown.new.items ≡ shown.old.items ++ near_shown show.now (found_line line.now)) }
{
    if matches!(show.flags.how, How::Matches | How::Replacements) {
        return Ok(());
    }
    let prefix = prefix(alloc, show, false, line.position.number())?;
    let frame = frame_of(show, false, line.position);
    push_after(alloc, prefix.as_bytes(), &frame, 0, line.bytes, shown)
}

/// Appends lines that are near one that is taken.
fn push_held(alloc: Global, show: &Show, held: &VecDeque<Held>, shown: &mut Vec<u8>) -> Result<()>
    ensures { OnOk result (shown.new.items ≡ shown.old.items ++ near_lines show.now (map held_line held.now.items)) }
{
    for line in held.iter() {
        let line = Line {
            position: line.position,
            bytes: line.bytes.as_slice(),
        };
        push_near(alloc, show, &line, shown)?;
    }
    Ok(())
}

impl Context {
    ghost use Rattle.lgrep.specs.Contexts.{IsFileStart, shown_in};

    /// Returns the context of the first line of the first file.
    pub fn new(alloc: Global, around: Around) -> Context
        ensures { IsFileStart around last.Nothing result }
    {
        Context {
            around,
            held: VecDeque::new(alloc),
            left: 0,
            last: Last::Nothing,
        }
    }

    /// Begins a file.
    pub fn begin(&mut self)
        ensures { IsFileStart self.old.around (after_gap self.old.last) self.new }
    {
        self.held.clear();
        self.left = 0;
        self.last = after_gap(self.last);
    }

    /// Whether the next line is shown even if it is not taken.
    pub fn shows_next(&self) -> bool {
        self.left > 0
    }

    /// Appends what is shown before the next line, which is taken.
    pub fn show_before(&mut self, alloc: Global, show: &Show, shown: &mut Vec<u8>) -> Result<()>
        ensures around { self.new.around ≡ self.old.around }
        ensures shown { OnOk result ((res : List Re) (line : Position × List ℕ)
            (lines : List ((Position × List ℕ) × Bool))
            → shown.new.items ++ found_shown show.now res line ++ shown_in show.now res self.new lines
            ≡ shown.old.items ++ shown_in show.now res self.old ((line, true) ∷ lines)) }
    {
        push_separator(self.last, shown)?;
        push_held(alloc, show, &self.held, shown)?;
        self.held.clear();
        self.left = self.around.after;
        self.last = Last::Line;
        Ok(())
    }

    /// Appends the next line, which is not taken, and follows one that is.
    fn show_next(
        &mut self,
        alloc: Global,
        show: &Show,
        line: &Line<'_>,
        shown: &mut Vec<u8>,
    ) -> Result<()>
        requires { 0 < self.old.left }
        ensures around { self.new.around ≡ self.old.around }
        ensures shown { OnOk result ((res : List Re) (lines : List ((Position × List ℕ) × Bool))
            → shown.new.items ++ shown_in show.now res self.new lines
            ≡ shown.old.items ++ shown_in show.now res self.old ((found_line line.now, false) ∷ lines)) }
    {
        push_separator(self.last, shown)?;
        push_near(alloc, show, line, shown)?;
        self.left = self.left.saturating_sub(1);
        self.last = Last::Line;
        Ok(())
    }

    /// Leaves out the oldest line that is held, if no more can be held. Returns room for the bytes of a line.
    fn make_room(&mut self, alloc: Global) -> Vec<u8>
        requires none_left { self.old.left ≡ 0 }
        requires some { 0 < self.old.around.before }
        ensures around { self.new.around ≡ self.old.around }
        ensures left { self.new.left ≡ 0 }
        ensures room { result.items ≡ [] }
        ensures fits { length self.new.held.items < self.new.around.before }
        ensures shown { (show : show.Show) (res : List Re) (line : Position × List ℕ)
            (lines : List ((Position × List ℕ) × Bool))
            → shown_in show res self.new ((line, false) ∷ lines) ≡ shown_in show res self.old ((line, false) ∷ lines) }
    {
        if (self.held.len() as u64) < self.around.before {
            return Vec::new(alloc);
        }
        self.last = after_gap(self.last);
        match self.held.pop_front() {
            Some(oldest) => oldest.room(),
            None => Vec::new(alloc),
        }
    }

    /// Holds the next line, which is not taken.
    fn hold(&mut self, alloc: Global, line: &Line<'_>) -> Result<()>
        requires none_left { self.old.left ≡ 0 }
        requires some { 0 < self.old.around.before }
        ensures around { self.new.around ≡ self.old.around }
        ensures shown { OnOk result ((show : show.Show) (res : List Re) (lines : List ((Position × List ℕ) × Bool))
            → shown_in show res self.new lines ≡ shown_in show res self.old ((found_line line.now, false) ∷ lines)) }
    {
        let mut bytes = self.make_room(alloc);
        bytes.extend_from_slice(line.bytes)?;
        self.held.push_back(Held {
            position: line.position,
            bytes,
        })?;
        Ok(())
    }

    /// Passes the next line, which is not taken, and appends it if it follows one that is.
    pub fn pass(
        &mut self,
        alloc: Global,
        show: &Show,
        line: &Line<'_>,
        shown: &mut Vec<u8>,
    ) -> Result<()>
        ensures around { self.new.around ≡ self.old.around }
        ensures shown { OnOk result ((res : List Re) (lines : List ((Position × List ℕ) × Bool))
            → shown.new.items ++ shown_in show.now res self.new lines
            ≡ shown.old.items ++ shown_in show.now res self.old ((found_line line.now, false) ∷ lines)) }
    {
        if self.left > 0 {
            return self.show_next(alloc, show, line, shown);
        }
        if self.around.before > 0 {
            return self.hold(alloc, line);
        }
        self.last = after_gap(self.last);
        Ok(())
    }
}
