//! Reads a file in blocks, and splits off the complete lines.
ghost use Rattle.std.specs.Prelude.{◌≡◌, [], IfOk, map, option_map};
ghost use Rattle.lgrep.specs.Blocks.{TakesLines, TakesRest, line_ends};

use anyhow::{Result, bail};
use memchr::{memchr, memrchr};
use std::alloc::Global;
use std::io::Read;
use std::mem;

const BLOCK: usize = 1 << 18;

/// How a file with a NUL is searched.
#[derive(Clone, Copy)]
pub enum BinaryFiles {
    /// As a binary file, in which a NUL ends a line.
    Split,
    /// As text.
    Text,
    /// Not at all, as if it had no match.
    Unmatched,
}

/// The bytes that were read and not yet searched.
pub struct Blocks {
    block: Vec<u8>,
    text: Vec<u8>,
    binary_files: BinaryFiles,
    /// The byte that ends each line.
    end: u8,
    /// Whether a NUL was read that has an effect.
    binary: bool,
}

// An owner drops this with one call, so that its proof has no step for each field.
impl Drop for Blocks {
    fn drop(self) {
        let Self {
            block: _block,
            text: _text,
            binary_files: _binary_files,
            end: _end,
            binary: _binary,
        } = self;
    }
}

/// Returns the byte that a byte of a binary file is searched as.
fn line_end(byte: u8) -> u8
    ensures { result ≡ line_ends byte }
{
    if byte == 0 { b'\n' } else { byte }
}

/// Replaces each NUL by a line feed.
fn end_lines(bytes: &mut [u8])
    ensures { bytes.new ≡ map line_ends bytes.old }
{
    for byte in bytes.iter_mut() {
        *byte = line_end(*byte);
    }
}

impl Blocks {
    /// Allocates a block, before anything is read. The byte ends each line.
    pub fn new(alloc: Global, binary_files: BinaryFiles, end: u8) -> Result<Blocks> {
        let block = vec![in alloc; 0; BLOCK]?;
        Ok(Blocks {
            block,
            text: Vec::new(alloc),
            binary_files,
            end,
            binary: false,
        })
    }

    /// Whether the file is binary, because a NUL was read that has an effect.
    pub fn is_binary(&self) -> bool {
        self.binary
    }

    /// Whether the file has no match, because it is binary.
    pub fn is_unmatched(&self) -> bool {
        self.binary && matches!(self.binary_files, BinaryFiles::Unmatched)
    }

    /// Whether a NUL makes the file binary: not if it ends each line.
    fn splits_binary(&self) -> bool {
        self.end != 0 && !matches!(self.binary_files, BinaryFiles::Text)
    }

    /// Reads a block, and returns how many bytes it has, which is 0 at the end of the input. In a binary file a NUL
    /// ends a line, as a line feed does.
    pub fn read<R: Read>(&mut self, input: &mut R) -> Result<usize> {
        let read = input.read(self.block.as_mut_slice())?;
        let read = read.min(self.block.len());
        let is_split = self.splits_binary();
        let bytes = &mut self.block[..read];
        if is_split && memchr(0, bytes).is_some() {
            self.binary = true;
            end_lines(bytes);
        }
        if self.text.extend_from_slice(bytes).is_err() {
            bail!("a line does not fit into the memory");
        }
        Ok(read)
    }

    /// Takes all complete lines, without the byte that ends the last one; returns `None` if no line is complete.
    pub fn take_ended(&mut self, alloc: Global) -> Result<Option<Vec<u8>>>
        ensures { IfOk result (λ ended. TakesLines self.old.end self.old.text.items
            (option_map (λ lines. lines.items) ended) self.new.text.items) }
    {
        match memrchr(self.end, self.text.as_slice()) {
            Some(end) => {
                let rest = Vec::from_slice(alloc, &self.text[end + 1..])?;
                let mut ended = mem::replace(&mut self.text, rest);
                ended.truncate(end);
                Ok(Some(ended))
            }
            None => Ok(None),
        }
    }

    /// Takes the remaining bytes, which are a last line that has no end; returns `None` if there are none.
    pub fn take_last(&mut self, alloc: Global) -> Option<Vec<u8>>
        ensures taken { TakesRest self.old.text.items (option_map (λ rest. rest.items) result) }
        ensures left { self.new.text.items ≡ [] }
    {
        if self.text.is_empty() {
            return None;
        }
        Some(mem::replace(&mut self.text, Vec::new(alloc)))
    }
}
