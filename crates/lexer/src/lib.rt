//! Lexers with named rules.
//!
//! A `Lexer` splits a haystack into tokens, each of which begins where the previous one ended. Its rules have a name and
//! a pattern. Where several match, the token is that of the first rule, or the longest one as in flex (`Prefer`).
#![tactic(auto)]

mod lex;
mod rules;
#[cfg(test)]
mod tests;
mod tokens;

pub use lex::Lexer;
pub use rules::{Prefer, Rule};
pub use tokens::Tokens;
