//! What is printed of the lines that are taken, and at the end of a file.
ghost use Rattle.std.specs.Prelude.{◌≡◌, ◌++◌, Bool, IfOk, OnOk, string_bytes};
ghost use Rattle.lgrep.specs.Shown.{count_shown, end_shown, file_shown, frame_of, is_silent, name_of, number_shown};
ghost use Rattle.lgrep.specs.Shown.{offset_shown, prefix_shown, shown_after, tab_shown};

use crate::position::Position;
use crate::template::Replacement;
use anyhow::Result;
use std::alloc::Global;

/// What is printed of a line that is taken.
#[derive(Clone, Copy)]
pub enum How {
    /// The line.
    Whole,
    /// Only its matches, each on a line of its own.
    Matches,
    /// The numbers of the patterns that match it, and the line.
    Which,
    /// The line, with each match replaced.
    Replaced,
    /// Only what its matches are replaced by, each on a line of its own.
    Replacements,
}

/// How many lines are shown before and after each line that is taken.
#[derive(Clone, Copy)]
pub struct Around {
    pub before: u64,
    pub after: u64,
}

/// What to print of the lines that are taken.
#[derive(Clone, Copy)]
pub struct Flags {
    /// Whether the lines without a match are taken, instead of those with one.
    pub invert: bool,
    /// How many lines of a file are taken at most, if there is a limit.
    pub max: Option<u64>,
    /// Whether only their number is printed.
    pub count: bool,
    /// Whether only the name of the file is printed, if it has such a line.
    pub names: bool,
    /// Whether only the name of the file is printed, if it has no such line.
    pub missing: bool,
    /// Whether nothing is printed.
    pub quiet: bool,
    /// What is printed of each line.
    pub how: How,
    /// Whether line numbers are printed, too.
    pub numbers: bool,
    /// Whether the name of the file is printed, too.
    pub named: bool,
    /// Whether a NUL follows the name of a file, instead of a colon or a line feed.
    pub null: bool,
    /// Whether the offsets of lines, or of matches, are printed, too.
    pub offsets: bool,
    /// Whether a tab precedes a line after a name, a number or an offset.
    pub tab: bool,
    /// How many lines around those that are taken are printed, if this is asked for.
    pub around: Option<Around>,
    /// The byte that ends each line, a line feed or a NUL.
    pub end: u8,
}

/// What to print of the lines of a file.
pub struct Show {
    pub flags: Flags,
    pub name: String,
    /// Whether the file is binary, so that no line is printed.
    pub binary: bool,
    /// What the matches of each pattern are replaced by, if they are.
    pub replacements: Vec<Replacement>,
}

// An owner drops this with one call, so that its proof has no step for each field.
impl Drop for Show {
    fn drop(self) {
        let Self {
            flags: _flags,
            name: _name,
            binary: _binary,
            replacements: _replacements,
        } = self;
    }
}

/// Whether no line is printed.
pub fn is_silent(show: &Show) -> bool
    ensures { result ≡ is_silent show.now }
{
    show.flags.count || show.flags.names || show.flags.missing || show.flags.quiet || show.binary
}

/// What surrounds the bytes that are printed of a line, after its prefix.
#[derive(Clone, Copy)]
pub struct Frame {
    /// The offset of the line in the file, if offsets are printed.
    pub offset: Option<u64>,
    /// The byte after an offset.
    pub mark: u8,
    /// Whether a tab precedes the bytes, unless there are none.
    pub tab: bool,
    /// The byte that ends what is printed.
    pub end: u8,
}

/// Returns the frame of a line at this position.
pub fn frame_of(show: &Show, is_taken: bool, position: Position) -> Frame
    ensures { result ≡ frame_of show.now is_taken position }
{
    let flags = &show.flags;
    Frame {
        offset: if flags.offsets {
            Some(position.bytes)
        } else {
            None
        },
        mark: if is_taken { b':' } else { b'-' },
        tab: flags.tab && (flags.named || flags.numbers || flags.offsets),
        end: flags.end,
    }
}

/// Returns the name of the file and a colon, a `-` or a NUL, or nothing if names are not asked for.
fn name_of(alloc: Global, show: &Show, is_taken: bool) -> Result<String>
    ensures { IfOk result (λ name. string_bytes name ≡ name_of show.now is_taken) }
{
    if !show.flags.named {
        return Ok(String::new(alloc));
    }
    let name = &show.name;
    if show.flags.null {
        return Ok(format!(in alloc; "{name}\0")?);
    }
    if is_taken {
        return Ok(format!(in alloc; "{name}:")?);
    }
    Ok(format!(in alloc; "{name}-")?)
}

/// Returns the number of a line and a colon or a `-`, or nothing if numbers are not asked for.
fn number_of(alloc: Global, numbers: bool, is_taken: bool, number: u64) -> Result<String>
    ensures { IfOk result (λ shown. string_bytes shown ≡ number_shown numbers is_taken number) }
{
    if !numbers {
        return Ok(String::new(alloc));
    }
    if is_taken {
        return Ok(format!(in alloc; "{number}:")?);
    }
    Ok(format!(in alloc; "{number}-")?)
}

/// Returns what precedes the bytes of a line and its offset.
pub fn prefix(alloc: Global, show: &Show, is_taken: bool, number: u64) -> Result<String>
    ensures { IfOk result (λ prefix. string_bytes prefix ≡ prefix_shown show.now is_taken number) }
{
    let name = name_of(alloc, show, is_taken)?;
    let number = number_of(alloc, show.flags.numbers, is_taken, number)?;
    Ok(format!(in alloc; "{name}{number}")?)
}

/// Appends the offset of what begins at `start` in a line, and the byte after it, if offsets are printed.
fn push_offset(alloc: Global, frame: &Frame, start: usize, shown: &mut Vec<u8>) -> Result<()>
    ensures { OnOk result (shown.new.items ≡ shown.old.items ++ offset_shown frame.now.offset frame.now.mark start) }
{
    match frame.offset {
        Some(offset) => {
            let sum = offset.saturating_add(start as u64);
            let text = format!(in alloc; "{sum}")?;
            shown.extend_from_slice(text.as_bytes())?;
            Ok(shown.push(frame.mark)?)
        }
        None => Ok(()),
    }
}

/// Appends a tab, if one precedes these bytes.
fn push_tab(frame: &Frame, bytes: &[u8], shown: &mut Vec<u8>) -> Result<()>
    ensures { OnOk result (shown.new.items ≡ shown.old.items ++ tab_shown frame.now.tab bytes.now) }
{
    if frame.tab && !bytes.is_empty() {
        shown.push(b'\t')?;
    }
    Ok(())
}

/// Appends bytes that begin at `start` in a line, after the prefix and in the frame.
pub fn push_after(
    alloc: Global,
    prefix: &[u8],
    frame: &Frame,
    start: usize,
    bytes: &[u8],
    shown: &mut Vec<u8>,
) -> Result<()>
    ensures { OnOk result (shown.new.items ≡ shown.old.items ++ shown_after prefix.now frame.now start bytes.now) }
{
    shown.extend_from_slice(prefix)?;
    push_offset(alloc, frame, start, shown)?;
    push_tab(frame, bytes, shown)?;
    shown.extend_from_slice(bytes)?;
    Ok(shown.push(frame.end)?)
}

/// Returns the name of the file and a line feed or a NUL, or nothing if it is not wanted.
fn file_end(alloc: Global, show: &Show, is_wanted: bool) -> Result<String>
    ensures { IfOk result (λ shown. string_bytes shown ≡ file_shown show.now is_wanted) }
{
    if !is_wanted {
        return Ok(String::new(alloc));
    }
    let name = &show.name;
    if show.flags.null {
        return Ok(format!(in alloc; "{name}\0")?);
    }
    Ok(format!(in alloc; "{name}\n")?)
}

/// Returns the count, or nothing if it is not asked for.
fn count_end(alloc: Global, show: &Show, count: u64) -> Result<String>
    ensures { IfOk result (λ shown. string_bytes shown ≡ count_shown show.now count) }
{
    if !show.flags.count {
        return Ok(String::new(alloc));
    }
    let name = name_of(alloc, show, true)?;
    Ok(format!(in alloc; "{name}{count}\n")?)
}

/// Returns what is printed at the end of a file: nothing, its name, or the count.
pub fn end_of(alloc: Global, show: &Show, count: u64) -> Result<String>
    ensures { IfOk result (λ shown. string_bytes shown ≡ end_shown show.now count) }
{
    if show.flags.quiet {
        Ok(String::new(alloc))
    } else if show.flags.names {
        file_end(alloc, show, count != 0)
    } else if show.flags.missing {
        file_end(alloc, show, count == 0)
    } else {
        count_end(alloc, show, count)
    }
}
