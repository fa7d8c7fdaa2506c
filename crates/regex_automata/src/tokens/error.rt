use automata_config::error::SearchError;
use thiserror::Error;

/// Why there is no next token.
#[derive(Clone, Copy, Debug, PartialEq, Eq, Error)]
pub enum TokenError {
    /// At this offset no pattern matches, or the match is empty.
    #[error("no token at {0}")]
    NoToken(usize),
    /// The search for the token failed.
    #[error("{0}")]
    Search(SearchError),
}

impl From<SearchError> for TokenError {
    ghost use Rattle.std.specs.Prelude.{◌≡◌};
    ghost use Rattle.regex_automata.specs.declared.tokens.error.TokenError.TheVariants.{Search};

    ghost from_gives = { λ error e. e ≡ Search error };

    fn from(error: SearchError) -> TokenError {
        TokenError::Search(error)
    }
}
