//! Tests of what no contract promises: the results of worked examples, texts, and how a script runs.

use std::alloc::Global;
use std::fmt::Debug;
use std::io::{Read, Write};
use std::process::Abort;
use std::{io, mem};

mod bench;
mod growths;
mod leaps;
mod made;
mod memory;
mod merges;
mod plans;
mod regex;
mod regex_bench;
mod replay_turns;
mod reported;
mod reports;
mod rows;
mod scripts;
mod texts;
mod walks;

/// A text in a row of a table.
type Text = &'static str;

/// What the helpers need: ending the process if something fails, and allocation.
trait Host: Abort + AllocGlobal {}

impl<R: Abort + AllocGlobal> Host for R {}

/// A reader over memory that reads a few bytes per call and fails at a chosen call, counted from 1.
#[derive(Drop)]
struct Source<'a> {
    rest: &'a [u8],
    most: usize,
    calls: usize,
    fails_at: usize,
}

impl<'a> Source<'a> {
    /// Returns a reader of three bytes per call that never fails.
    fn new(text: &'a [u8]) -> Source<'a> {
        Source {
            rest: text,
            most: 3,
            calls: 0,
            fails_at: 0,
        }
    }
}

impl<'a> Read for Source<'a> {
    fn read(&mut self, buf: &mut [u8]) -> io::Result<usize> {
        self.calls = self.calls.saturating_add(1);
        if self.calls == self.fails_at {
            return Err(io::Error::other("refused"));
        }
        let count = self.rest.len().min(buf.len()).min(self.most);
        buf[..count].copy_from_slice(&self.rest[..count]);
        self.rest = &self.rest[count..];
        Ok(count)
    }
}

/// A writer to memory that takes a few bytes per call and fails at a chosen call, counted from 1. A flush is a call
/// too.
#[derive(Drop)]
struct Sink {
    bytes: Vec<u8>,
    most: usize,
    calls: usize,
    fails_at: usize,
}

impl Sink {
    /// Returns a writer of five bytes per call that never fails.
    fn new(alloc: Global) -> Sink {
        Sink {
            bytes: Vec::new(alloc),
            most: 5,
            calls: 0,
            fails_at: 0,
        }
    }
}

impl Write for Sink {
    fn write(&mut self, buf: &[u8]) -> io::Result<usize> {
        self.calls = self.calls.saturating_add(1);
        if self.calls == self.fails_at {
            return Err(io::Error::other("refused"));
        }
        let count = buf.len().min(self.most);
        self.bytes.extend_from_slice(&buf[..count])?;
        Ok(count)
    }

    fn flush(&mut self) -> io::Result<()> {
        self.calls = self.calls.saturating_add(1);
        if self.calls == self.fails_at {
            return Err(io::Error::other("refused"));
        }
        Ok(())
    }
}

/// Stops the test unless `found` is equal to `expected`. The message has `of`, which says what the values belong to.
fn same_of<T: PartialEq + Debug, D: Debug>(rt: &impl Host, found: &T, expected: &T, of: &D) {
    assert_eq!(rt; found, expected, "{of:?}");
}

/// Stops the test unless this holds.
fn check(rt: &impl Host, is_right: bool) {
    assert!(rt; is_right, "another answer");
}

/// Takes all remaining memory and keeps it, so that each later allocation fails.
fn exhaust(alloc: Global) {
    let mut size = 1usize << 46;
    for _ in 0..u64::MAX {
        if size == 0 {
            return;
        }
        match Vec::<u8>::with_capacity(alloc, size) {
            Ok(block) => mem::forget(block),
            Err(_) => size /= 2,
        }
    }
}
