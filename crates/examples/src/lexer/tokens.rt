//! The tokens of a text.
ghost use Rattle.std.specs.Prelude.{◌≡◌, IfOk};
ghost use Rattle.regex_automata.specs.Promises.{AreCachesOf};
ghost use Rattle.regex_automata.specs.declared.tokens.TokenError.TheVariants.{NoToken};
ghost use Rattle.examples.specs.Tokens.{AreTokensOf};

use regex_automata::hybrid::SearchError;
use regex_automata::hybrid::regex::{Cache, Regex};
use regex_automata::tokens::{Token, TokenError};
use regex_automata::util::search::Input;
use std::alloc::{AllocError, Global};

/// A regex, whose patterns are the kinds of tokens, and its caches.
pub struct Lexer {
    regex: Regex,
    caches: Cache,
    ghost of: { AreCachesOf caches regex },
}

// With this, dropping the value is one call in the proof of a caller, not a step for each field.
impl Drop for Lexer {
    fn drop(self) {
        let Self {
            regex: _regex,
            caches: _caches,
        } = self;
    }
}

/// The tokens from the start of a text on, and where they end.
#[derive(Drop)]
pub struct Lexed<'t> {
    pub tokens: Vec<Token<'t>>,
    pub end: usize,
}

/// Returns the offset, in bytes, at which there is no token. The error of a search is returned unchanged.
fn missing(error: TokenError) -> Result<usize, SearchError>
    ensures { IfOk result (λ at. error ≡ NoToken at) }
{
    match error {
        TokenError::NoToken(at) => Ok(at),
        TokenError::Search(error) => Err(error),
    }
}

impl Lexer {
    /// Returns a lexer over fresh caches of the regex.
    pub fn new(regex: Regex) -> Result<Lexer, AllocError>
        ensures { IfOk result (λ lexer. lexer.regex ≡ regex) }
    {
        let caches = regex.create_cache()?;
        Ok(Lexer { regex, caches })
    }

    /// Returns the tokens of a text, up to its end or to the first offset at which there is none.
    pub fn lex<'t>(&mut self, alloc: Global, text: &'t [u8]) -> Result<Lexed<'t>, SearchError>
        ensures same { self.new.regex ≡ self.old.regex }
        ensures tokens { IfOk result (λ lexed.
            AreTokensOf self.old.regex.forward text.now lexed.tokens.items lexed.end) }
    {
        let mut tokens = Vec::new(alloc);
        for item in self.regex.tokens(&mut self.caches, Input::new(text)) {
            match item {
                Ok(token) => tokens.push(token)?,
                Err(error) => {
                    let end = missing(error)?;
                    return Ok(Lexed { tokens, end });
                }
            }
        }
        let end = text.len();
        Ok(Lexed { tokens, end })
    }
}
