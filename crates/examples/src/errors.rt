//! Prints the errors in lists of patterns.
//!
//! Each line of standard input is a list: how many bytes the tables of all its patterns may take, and the patterns,
//! separated by spaces. For a list with an error, the program prints the number of the pattern at fault, counted from
//! 0, and the error, with a caret below each character that it is about.
#![tactic(auto)]

use anyhow::Result;
use patterns::{Options, nfa_of};
use std::alloc::Global;
use std::fmt::Write;
use std::io::Read;

/// Appends the error in patterns whose tables may take `size_limit` bytes, or that there is none.
fn push_error(alloc: Global, size_limit: usize, texts: &[&str], shown: &mut String) -> Result<()> {
    let defaults = Options::default();
    let options = Options {
        size_limit,
        ..defaults
    };
    match nfa_of(alloc, texts, &options) {
        Ok(_) => writeln!(shown, "no error")?,
        Err(error) => {
            let text = texts.get(error.number).copied().unwrap_or("");
            writeln!(shown, "{error}\n{}", error.show(alloc, text, &options)?)?;
        }
    }
    Ok(())
}

/// Appends the error in the list of a line, or that there is none.
fn push_list(alloc: Global, line: &str, shown: &mut String) -> Result<()> {
    let mut words = line.split(' ');
    let size_limit = words.next().unwrap_or("").parse::<usize>()?;
    let mut texts = Vec::new(alloc);
    for text in words {
        texts.push(text)?;
    }
    push_error(alloc, size_limit, texts.as_slice(), shown)
}

/// Prints the error in each list of standard input.
pub fn main(rt: HostRuntime) -> Result<()> {
    let mut lists = String::new(rt.alloc());
    rt.reader().read_to_string(&mut lists)?;
    let mut shown = String::new(rt.alloc());
    for line in lists.lines() {
        writeln!(shown, "> {line}")?;
        push_list(rt.alloc(), line, &mut shown)?;
    }
    print!(rt; "{shown}")?;
    Ok(())
}
