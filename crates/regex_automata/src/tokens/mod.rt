//! A tokenizer: it returns the matches of a regex one after another, each anchored where the previous one ended, so
//! that they leave no gap.

mod error;
mod iterate;
mod token;

pub use error::TokenError;
pub use iterate::Tokens;
pub use token::Token;
