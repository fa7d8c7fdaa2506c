//! Searches the lines of a file, and prints what is found in them.
ghost use Rattle.std.specs.Prelude.{◌≡◌, ◌++◌, ◌∷◌, ℕ, [], Bool, false, List, IfOk, OnOk, map, true};
ghost use Rattle.regex_hir.specs.Re.{Re};
ghost use Rattle.lgrep.specs.Around.{after_gap};
ghost use Rattle.lgrep.specs.Contexts.{IsFileStart, shown_in};
ghost use Rattle.lgrep.specs.Lines.{count_after, found_line, marked_line, one_more, taken_lines};
ghost use Rattle.lgrep.specs.Greps.{IsGrepFor, KeepsView, ShowsAround, ShowsLines, shows_around};
ghost use Rattle.lgrep.specs.declared.position.Position.{Position};
ghost use Rattle.lgrep.specs.Shown.{end_shown, found_shown, lines_shown};

use crate::around::Context;
use crate::blocks::{BinaryFiles, Blocks};
use crate::lines::{Line, LineSearcher, Marked, first_lines, is_full};
use crate::show::{Show, end_of, frame_of, is_silent, prefix};
use crate::stats::{Stats, Usage};
use crate::view::View;
use anyhow::{Error, Result};
use std::alloc::Global;
use std::io::{ErrorKind, Read, Write};

/// Whether lines around those that are taken are shown.
fn shows_around(show: &Show) -> bool
    ensures { result ≡ shows_around show.now }
{
    show.flags.around.is_some() && !is_silent(show)
}

/// The searchers, and what they found in a file.
pub struct Grep {
    alloc: Global,
    show: Show,
    lines: LineSearcher,
    view: View,
    /// What precedes the next line, if lines around those that are taken are shown.
    context: Context,
    shown: Vec<u8>,
    count: u64,
    /// How many bytes of the file were read.
    bytes: u64,
    /// How many lines were taken before the file turned out to be binary.
    plain: u64,
    /// The error after which nothing more can be written, if any.
    output_error: Option<ErrorKind>,
}

// An owner drops this with one call, so that its proof has no step for each field.
impl Drop for Grep {
    fn drop(self) {
        let Self {
            alloc: _alloc,
            show: _show,
            lines: _lines,
            view: _view,
            context: _context,
            shown: _shown,
            count: _count,
            bytes: _bytes,
            plain: _plain,
            output_error: _output_error,
        } = self;
    }
}

impl Grep {
    /// Returns a grep that has found nothing yet.
    pub fn new(alloc: Global, show: Show, lines: LineSearcher, view: View, context: Context) -> Grep
        ensures show { result.show ≡ show }
        ensures lines { result.lines ≡ lines }
        ensures view { result.view ≡ view }
        ensures context { result.context ≡ context }
        ensures shown { result.shown.items ≡ [] }
        ensures count { result.count ≡ 0 }
    {
        Grep {
            alloc,
            show,
            lines,
            view,
            context,
            shown: Vec::new(alloc),
            count: 0,
            bytes: 0,
            plain: 0,
            output_error: None,
        }
    }

    /// Begins a file with this name, of which nothing has been read or searched.
    pub fn begin(&mut self, name: String)
        ensures show { self.new.show ≡ record self.old.show { name = name; binary = false } }
        ensures dfa { self.new.lines.dfa ≡ self.old.lines.dfa }
        ensures next { self.new.lines.next ≡ record { lines = 0; bytes = 0 } }
        ensures view { self.new.view ≡ self.old.view }
        ensures shown { self.new.shown.items ≡ [] }
        ensures count { self.new.count ≡ 0 }
        ensures context { IsFileStart self.old.context.around (after_gap self.old.context.last) self.new.context }
    {
        self.show.name = name;
        self.show.binary = false;
        self.lines.begin();
        self.context.begin();
        self.shown.clear();
        self.count = 0;
        self.bytes = 0;
        self.plain = 0;
    }

    /// Shows the names of files from now on.
    pub fn show_names(&mut self) {
        self.show.flags.named = true;
    }

    /// Returns how many lines of the file were taken.
    pub fn count(&self) -> u64
        ensures { result ≡ self.now.count }
    {
        self.count
    }

    /// Returns how much of the file was read, searched and taken.
    pub fn stats(&self) -> Stats {
        Stats {
            bytes: self.bytes,
            lines: self.lines.searched(),
            taken: self.count,
        }
    }

    /// Returns how the caches were used.
    pub fn usage(&self) -> Usage {
        self.lines.usage().and(self.view.usage())
    }

    /// Returns the error after which nothing more can be written, if any.
    pub fn output_error(&self) -> Option<ErrorKind> {
        self.output_error
    }

    /// Whether lines are written, and not only their count, a file name or nothing.
    pub fn shows_lines(&self) -> bool {
        !is_silent(&self.show)
    }

    /// Whether a line was taken that is not shown because the file is binary.
    pub fn has_hidden(&self) -> bool {
        let flags = &self.show.flags;
        let is_asked = !(flags.count || flags.names || flags.missing || flags.quiet);
        self.show.binary && is_asked && self.count > self.plain
    }

    /// Counts a line that is taken, and appends what is shown of it.
    fn push_line(&mut self, line: &Line<'_>) -> Result<()>
        ensures same { OnOk result ((self.new.show ≡ self.old.show) × (self.new.lines ≡ self.old.lines)) }
        ensures context { OnOk result (self.new.context ≡ self.old.context) }
        ensures view { OnOk result (KeepsView self.old.view self.new.view) }
        ensures count { OnOk result (self.new.count ≡ one_more self.old.count) }
        ensures shown { OnOk result ((case_insensitive : Bool) (res : List Re)
            → IsGrepFor case_insensitive res self.old → self.new.shown.items ≡ self.old.shown.items
            ++ found_shown self.old.show res (found_line line.now)) }
    {
        self.count = self.count.saturating_add(1);
        if is_silent(&self.show) {
            return Ok(());
        }
        let prefix = prefix(self.alloc, &self.show, true, line.position.number())?;
        let frame = frame_of(&self.show, true, line.position);
        let bytes = prefix.as_bytes();
        self.view.push(
            self.alloc,
            &self.show.replacements,
            bytes,
            &frame,
            line.bytes,
            &mut self.shown,
        )
    }

    /// Counts lines that are taken, and appends what is shown of them.
    fn push_lines(&mut self, lines: &[Line<'_>]) -> Result<()>
        ensures same { OnOk result ((self.new.show ≡ self.old.show) × (self.new.lines ≡ self.old.lines)) }
        ensures view { OnOk result (KeepsView self.old.view self.new.view) }
        ensures count { OnOk result (self.new.count ≡ count_after self.old.count (map found_line lines.now)) }
        ensures shown { OnOk result ((case_insensitive : Bool) (res : List Re)
            → IsGrepFor case_insensitive res self.old → self.new.shown.items ≡ self.old.shown.items
            ++ lines_shown self.old.show res (map found_line lines.now)) }
    {
        for line in lines {
            self.push_line(line)?;
        }
        Ok(())
    }

    /// Searches the lines of a text, and appends what is shown of those that are taken: with a limit, only of the first
    /// ones.
    fn search_alone(&mut self, text: &[u8]) -> Result<()>
        ensures { OnOk result ((case_insensitive : Bool) (res : List Re) → IsGrepFor case_insensitive res self.old
            → IsGrepFor case_insensitive res self.new × ShowsLines res text.now self.old self.new) }
    {
        let flags = self.show.flags;
        let found = self
            .lines
            .matching(self.alloc, text, flags.end, flags.invert)?;
        let first = first_lines(found.as_slice(), flags.max, self.count);
        self.push_lines(first)?;
        Ok(())
    }

    /// Appends what is shown of a line, and before it if it is taken.
    fn push_marked(&mut self, marked: &Marked<'_>) -> Result<()>
        ensures same { OnOk result ((self.new.show ≡ self.old.show) × (self.new.lines ≡ self.old.lines)) }
        ensures view { OnOk result (KeepsView self.old.view self.new.view) }
        ensures count { OnOk result (self.new.count
            ≡ count_after self.old.count (taken_lines (marked_line marked.now ∷ []))) }
        ensures shown { OnOk result ((case_insensitive : Bool) (res : List Re)
            (lines : List ((Position × List ℕ) × Bool)) → IsGrepFor case_insensitive res self.old
            → self.new.shown.items ++ shown_in self.old.show res self.new.context lines
            ≡ self.old.shown.items ++ shown_in self.old.show res self.old.context (marked_line marked.now ∷ lines)) }
    {
        let alloc = self.alloc;
        if marked.is_taken {
            self.context
                .show_before(alloc, &self.show, &mut self.shown)?;
            return self.push_line(&marked.line);
        }
        self.context
            .pass(alloc, &self.show, &marked.line, &mut self.shown)
    }

    /// Appends what is shown of lines.
    fn push_all(&mut self, lines: &[Marked<'_>]) -> Result<()>
        ensures same { OnOk result ((self.new.show ≡ self.old.show) × (self.new.lines ≡ self.old.lines)) }
        ensures view { OnOk result (KeepsView self.old.view self.new.view) }
        ensures count { OnOk result (self.new.count
            ≡ count_after self.old.count (taken_lines (map marked_line lines.now))) }
        ensures shown { OnOk result ((case_insensitive : Bool) (res : List Re)
            (rest : List ((Position × List ℕ) × Bool)) → IsGrepFor case_insensitive res self.old
            → self.new.shown.items ++ shown_in self.old.show res self.new.context rest
            ≡ self.old.shown.items ++ shown_in self.old.show res self.old.context (map marked_line lines.now ++ rest)) }
    {
        for line in lines {
            self.push_marked(line)?;
        }
        Ok(())
    }

    /// Searches the lines of a text, and appends what is shown of those that are taken, and of lines around them.
    fn search_around(&mut self, text: &[u8]) -> Result<()>
        ensures { OnOk result ((case_insensitive : Bool) (res : List Re) → IsGrepFor case_insensitive res self.old
            → IsGrepFor case_insensitive res self.new × ShowsAround res text.now self.old self.new) }
    {
        let flags = self.show.flags;
        let marked = self
            .lines
            .marked(self.alloc, text, flags.end, &flags, self.count)?;
        self.push_all(marked.as_slice())?;
        Ok(())
    }

    /// Searches the lines of a text, and appends what is shown of it.
    fn search(&mut self, text: &[u8]) -> Result<()>
        ensures alone { OnOk result (shows_around self.old.show ≡ false → (case_insensitive : Bool) (res : List Re)
            → IsGrepFor case_insensitive res self.old
            → IsGrepFor case_insensitive res self.new × ShowsLines res text.now self.old self.new) }
        ensures around { OnOk result (shows_around self.old.show ≡ true → (case_insensitive : Bool) (res : List Re)
            → IsGrepFor case_insensitive res self.old
            → IsGrepFor case_insensitive res self.new × ShowsAround res text.now self.old self.new) }
    {
        if shows_around(&self.show) {
            self.search_around(text)
        } else {
            self.search_alone(text)
        }
    }

    /// Appends what is shown at the end of a file: its name, or the count if that is asked for.
    fn push_end(&mut self) -> Result<()>
        ensures { OnOk result (self.new.shown.items ≡ self.old.shown.items ++ end_shown self.old.show self.old.count) }
    {
        let end = end_of(self.alloc, &self.show, self.count)?;
        Ok(self.shown.extend_from_slice(end.as_bytes())?)
    }

    /// Writes what was appended so far, and notes the error if that fails.
    fn write<W: Write>(&mut self, output: &mut W) -> Result<()> {
        if let Err(error) = output.write_all(self.shown.as_slice()) {
            self.output_error = Some(error.kind());
            return Err(Error::from(error));
        }
        self.shown.clear();
        Ok(())
    }

    /// Notes that the file is binary.
    fn note_binary(&mut self) {
        if !self.show.binary {
            self.show.binary = true;
            self.plain = self.count;
        }
    }

    /// Whether no further line of the file is taken or shown, because of a limit.
    fn is_full(&self) -> bool {
        is_full(self.show.flags.max, self.count)
            && (!self.context.shows_next() || is_silent(&self.show))
    }

    /// Whether the remaining lines do not matter: no further line is taken, or a line was taken and it is only asked
    /// whether there is one.
    fn is_decided(&self) -> bool {
        let flags = &self.show.flags;
        let is_listed = flags.names || flags.missing || flags.quiet;
        let is_asked = is_listed || self.show.binary && !flags.count;
        self.is_full() || is_asked && self.count > self.plain
    }

    /// Searches the lines of a text, and writes what is shown of those that are taken.
    fn search_and_write<W: Write>(&mut self, text: &[u8], output: &mut W) -> Result<()> {
        self.search(text)?;
        self.write(output)
    }

    /// Reads a block, and searches the lines that are complete. Returns whether to continue.
    fn turn<R: Read, W: Write>(
        &mut self,
        blocks: &mut Blocks,
        input: &mut R,
        output: &mut W,
    ) -> Result<bool> {
        let read = blocks.read(input)?;
        self.bytes = self.bytes.saturating_add(read as u64);
        if blocks.is_unmatched() {
            return Ok(false);
        }
        if blocks.is_binary() {
            self.note_binary();
        }
        if let Some(text) = blocks.take_ended(self.alloc)? {
            self.search_and_write(text.as_slice(), output)?;
        }
        Ok(read > 0 && !self.is_decided())
    }

    /// Writes what is shown at the end of a file.
    pub fn end<W: Write>(&mut self, output: &mut W) -> Result<()> {
        self.push_end()?;
        self.write(output)?;
        Ok(output.flush()?)
    }

    /// Searches the lines that are left at the end of a file. If it is binary and therefore has no match, no line of it
    /// counts.
    fn search_last<W: Write>(&mut self, blocks: &mut Blocks, output: &mut W) -> Result<()> {
        if blocks.is_unmatched() {
            self.count = 0;
            return Ok(());
        }
        match blocks.take_last(self.alloc) {
            Some(text) => self.search_and_write(text.as_slice(), output),
            None => Ok(()),
        }
    }

    /// Searches the lines of a file, block by block, until its end or until the remaining lines do not matter.
    pub fn run<R: Read, W: Write>(
        &mut self,
        input: &mut R,
        output: &mut W,
        binary_files: BinaryFiles,
    ) -> Result<()> {
        let mut blocks = Blocks::new(self.alloc, binary_files, self.show.flags.end)?;
        for _ in 0..u64::MAX {
            if !self.turn(&mut blocks, input, output)? {
                break;
            }
        }
        self.search_last(&mut blocks, output)?;
        self.end(output)
    }
}
