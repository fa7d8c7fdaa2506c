//! Splits a program of a small language, on standard input, into tokens.
//!
//! It prints a line for each token, with its line and column, its span in bytes, its kind, and its text. The last line
//! says where the text ends, or which byte is the first at which no token begins. `kinds.rt` has a pattern for each
//! kind: names and whitespace of any language, numbers, strings with escapes, comments and operators.
//!
//! It is proved that the tokens tile the text: each begins where the previous one ended and is what the search there
//! finds, up to the end, or to the offset that is reported, at which there is no token (`Lexer::lex`). Of the loop that
//! counts lines and columns only safety is proved.
#![tactic(auto)]

mod kinds;
mod place;
mod tokens;

use self::kinds::{kind_name, kinds_nfa};
use self::place::Place;
use self::tokens::{Lexed, Lexer};
use anyhow::Result;
use regex_automata::hybrid::regex::Regex;
use std::alloc::Global;
use std::fmt::Write;
use std::io::Read;

/// Returns a lexer for the kinds of tokens.
fn lexer(alloc: Global) -> Result<Lexer> {
    let regex = Regex::builder().build_from_nfa(kinds_nfa(alloc)?)?;
    Ok(Lexer::new(regex)?)
}

/// Appends the output for the tokens of a text, and for its end.
fn push_tokens(alloc: Global, text: &[u8], lexed: &Lexed<'_>, shown: &mut String) -> Result<()> {
    let mut place = Place::start();
    for token in &lexed.tokens {
        let kind = kind_name(token.pattern().as_usize());
        let (start, end) = (token.start(), token.end());
        let bytes = String::from_utf8_lossy(alloc, token.bytes())?;
        writeln!(shown, "{place} {start}..{end} {kind} {bytes:?}")?;
        place = place.after_all(token.bytes());
    }
    match text.get(lexed.end) {
        Some(byte) => writeln!(shown, "{place} no token begins with the byte {byte:#04x}")?,
        None => writeln!(shown, "{place} end")?,
    }
    Ok(())
}

/// Prints the tokens of standard input.
pub fn main(rt: HostRuntime) -> Result<()> {
    let mut text = Vec::new(rt.alloc());
    rt.reader().read_to_end(&mut text)?;
    let mut lexer = lexer(rt.alloc())?;
    let lexed = lexer.lex(rt.alloc(), text.as_slice())?;
    let mut shown = String::new(rt.alloc());
    push_tokens(rt.alloc(), text.as_slice(), &lexed, &mut shown)?;
    print!(rt; "{shown}")?;
    Ok(())
}
