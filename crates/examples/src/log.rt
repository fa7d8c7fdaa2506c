//! Counts, for each pattern of a file, how many lines of logs match it:
//!
//!     log PATTERNS LOG..
//!
//! PATTERNS has a pattern on each line. A log is read line by line, and all patterns are searched at once, so the
//! program needs memory for the longest line and the cache, however long a log is. A line may have any bytes: a byte
//! that is not part of a UTF-8 encoded character matches `(?-u:[\x80-\xFF])`, but not `.`. The log `/dev/stdin` is
//! standard input.
//!
//! `RegexSet::which` promises which patterns match a line. Of reading and counting lines only safety is proved.
#![tactic(auto)]

mod counter;

use self::counter::Counter;
use anyhow::{Result, bail};
use patterns::{Options, RegexSet};
use std::alloc::Global;
use std::env::{self, Args};
use std::fs::{self, File};
use std::io::BufReader;

/// Returns the set of the patterns of a text, one on each line. They search bytes, not UTF-8.
fn set_of(alloc: Global, text: &str) -> Result<RegexSet> {
    let mut patterns = Vec::new(alloc);
    for line in text.lines() {
        patterns.push(line)?;
    }
    let options = Options {
        utf8: false,
        ..Options::default()
    };
    Ok(RegexSet::new(alloc, patterns.as_slice(), &options)?)
}

/// Counts the lines of one log.
fn count(rt: &HostRuntime, counter: &mut Counter, path: &str) -> Result<()> {
    let mut log = BufReader::new(rt.alloc(), File::open(rt, path)?)?;
    counter.count_lines(rt.alloc(), &mut log)
}

/// Prints how many lines of the logs that the arguments name match each pattern.
pub fn run(rt: &HostRuntime, mut args: Args) -> Result<()> {
    let Some(patterns) = args.next() else {
        bail!("usage: log PATTERNS LOG..");
    };
    let text = fs::read_to_string(rt, patterns)?;
    let mut counter = Counter::new(rt.alloc(), set_of(rt.alloc(), text.as_str())?)?;
    for path in args {
        count(rt, &mut counter, path.as_str())?;
    }
    let mut shown = String::new(rt.alloc());
    counter.push_counts(text.as_str(), &mut shown)?;
    print!(rt; "{shown}")?;
    Ok(())
}

/// Runs the example as a program of its own, with the arguments after the program's name.
pub fn main(rt: HostRuntime) -> Result<()> {
    let mut args = env::args(&rt)?;
    let _program = args.next();
    run(&rt, args)
}
