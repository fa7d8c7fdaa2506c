//! The tokens of a haystack, one after another.
ghost use Rattle.std.specs.Prelude.{◌≡◌, ◌<◌, ◌≤◌, false, length, true};
ghost use Rattle.std.specs.Iterator.{at_most};
ghost use Rattle.regex_automata.specs.Promises.{IsCacheOf};
ghost use Rattle.lexer.specs.Iteration.{GivesLexed, IsLexedRun, most_lexed};
ghost use Rattle.lexer.specs.Tokens.{EndsCharacter};

use crate::lex::{Lexer, token_at};
use regex_automata::hybrid::dfa::{Cache, DFA};
use regex_automata::tokens::TokenError;
use regex_automata::util::search::{Input, Match};

/// An iterator over the remaining tokens of a haystack. After the last item each call returns none.
#[derive(Drop)]
pub struct Tokens<'l, 'c, 'h> {
    dfa: &'l DFA,
    cache: &'c mut Cache,
    haystack: &'h [u8],
    offset: usize,
    skips: bool,
    ended: bool,
    ghost within: { offset ≤ length haystack.now },
    ghost of: { IsCacheOf cache.now dfa.now },
}

/// Returns where the character at an offset ends. Without UTF-8 mode each byte is a character.
fn character_end(utf8: bool, haystack: &[u8], offset: usize) -> usize
    requires { offset < length haystack.now }
    ensures { EndsCharacter utf8 haystack.now offset result }
{
    if !utf8 {
        return offset + 1;
    }
    let input = Input::new(haystack);
    for end in offset + 1..haystack.len() {
        if input.is_char_boundary(end) {
            return end;
        }
    }
    haystack.len()
}

impl<'r> Lexer<'r> {
    /// Returns an iterator over the tokens of the haystack. Each begins where the previous one ended.
    ///
    /// At an offset where no rule has a token, the last item is the error `TokenError::NoToken`. If a search fails, its
    /// error is the last item. Afterwards the cache serves other searches as before.
    pub fn tokens<'l, 'c, 'h>(
        &'l self,
        cache: &'c mut Cache,
        haystack: &'h [u8],
    ) -> Tokens<'l, 'c, 'h>
        requires { IsCacheOf cache.old self.now.dfa }
        ensures same_cache { result.cache.ghost_name ≡ cache.entry.ghost_name }
        ensures cache { result.cache.now ≡ cache.old }
        ensures dfa { result.dfa.now ≡ self.now.dfa }
        ensures haystack { result.haystack.now ≡ haystack.now }
        ensures offset { result.offset ≡ 0 }
        ensures skips { result.skips ≡ false }
        ensures ended { result.ended ≡ false }
    {
        Tokens {
            dfa: &self.dfa,
            cache,
            haystack,
            offset: 0,
            skips: false,
            ended: false,
        }
    }

    /// Returns an iterator as `tokens` does, which goes on after an error `TokenError::NoToken`: at the next character,
    /// or without UTF-8 mode at the next byte. So it splits the whole haystack into tokens and single characters, as
    /// flex does.
    pub fn tokens_and_gaps<'l, 'c, 'h>(
        &'l self,
        cache: &'c mut Cache,
        haystack: &'h [u8],
    ) -> Tokens<'l, 'c, 'h>
        requires { IsCacheOf cache.old self.now.dfa }
        ensures same_cache { result.cache.ghost_name ≡ cache.entry.ghost_name }
        ensures cache { result.cache.now ≡ cache.old }
        ensures dfa { result.dfa.now ≡ self.now.dfa }
        ensures haystack { result.haystack.now ≡ haystack.now }
        ensures offset { result.offset ≡ 0 }
        ensures skips { result.skips ≡ true }
        ensures ended { result.ended ≡ false }
    {
        Tokens {
            dfa: &self.dfa,
            cache,
            haystack,
            offset: 0,
            skips: true,
            ended: false,
        }
    }
}

impl<'l, 'c, 'h> Iterator for Tokens<'l, 'c, 'h> {
    type Item = Result<Match, TokenError>;

    ghost next_gives = { λ s r t.
        GivesLexed s.skips s.dfa.now s.haystack.now r s.offset t.offset s.ended t.ended
        × (t.dfa.now ≡ s.dfa.now) × (t.haystack.now ≡ s.haystack.now) × (t.skips ≡ s.skips)
        × (t.cache.ghost_name ≡ s.cache.ghost_name)
        × IsLexedRun s.dfa.now s.haystack.now s.offset s.cache.now t.cache.now r };

    ghost remaining = { λ s. at_most (most_lexed s.ended s.haystack.now s.offset) };

    fn next(&mut self) -> Option<Result<Match, TokenError>> {
        if self.ended || self.offset >= self.haystack.len() {
            return None;
        }
        match token_at(self.dfa, self.cache, self.haystack, self.offset) {
            Ok(Some(token)) => {
                self.offset = token.end();
                Some(Ok(token))
            }
            Ok(None) if self.skips => {
                let at = self.offset;
                let utf8 = self.dfa.get_nfa().is_utf8();
                self.offset = character_end(utf8, self.haystack, at);
                Some(Err(TokenError::NoToken(at)))
            }
            Ok(None) => {
                self.ended = true;
                Some(Err(TokenError::NoToken(self.offset)))
            }
            Err(error) => {
                self.ended = true;
                Some(Err(TokenError::Search(error)))
            }
        }
    }
}
