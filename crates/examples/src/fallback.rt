//! Prints where the first match in each line of standard input begins and ends, in bytes, or `none`, in little memory:
//!
//!     fallback PATTERN < LINES
//!
//! The lazy DFA has caches of 64 KiB. It gives up when a cache that was already cleared twice is full again, and few
//! bytes were read for each state that was added. Such a line is searched by a simulation of the NFA, which caches no
//! states: its time depends only on the pattern and the line. The last line of the output says how many lines were
//! searched that way.
//!
//! It is proved that the match of each line is what the pattern's text means, whichever engine finds it
//! (`Finder::find`).
#![tactic(auto)]

mod finder;

use self::finder::{Finder, Found};
use anyhow::{Result, bail};
use std::alloc::Global;
use std::env::{self, Args};
use std::fmt::Write;
use std::io::Read;

/// Appends the output for a line.
fn push_found(found: &Found, shown: &mut String) -> Result<()> {
    match found.span {
        Some((start, end)) => writeln!(shown, "{start}..{end}")?,
        None => writeln!(shown, "none")?,
    }
    Ok(())
}

/// Returns what the program prints for a pattern and the lines of a text.
fn report(alloc: Global, pattern: &str, lines: &str) -> Result<String> {
    let mut shown = String::new(alloc);
    let mut finder = Finder::new(alloc, pattern)?;
    let mut simulated = 0u64;
    let mut all = 0u64;
    for line in lines.lines() {
        let found = finder.find(line.as_bytes())?;
        push_found(&found, &mut shown)?;
        simulated = simulated.saturating_add(u64::from(found.simulated));
        all = all.saturating_add(1);
    }
    writeln!(shown, "simulated: {simulated} of {all}")?;
    Ok(shown)
}

/// Prints where the first match of a pattern, the argument, begins and ends in each line of standard input.
pub fn run(rt: &HostRuntime, mut args: Args) -> Result<()> {
    let Some(pattern) = args.next() else {
        bail!("usage: fallback PATTERN < LINES");
    };
    let mut lines = String::new(rt.alloc());
    rt.reader().read_to_string(&mut lines)?;
    let shown = report(rt.alloc(), pattern.as_str(), lines.as_str())?;
    print!(rt; "{shown}")?;
    Ok(())
}

/// Runs the example as a program of its own, with the arguments after the program's name.
pub fn main(rt: HostRuntime) -> Result<()> {
    let mut args = env::args(&rt)?;
    let _program = args.next();
    run(&rt, args)
}
