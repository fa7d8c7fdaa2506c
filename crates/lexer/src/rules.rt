//! The rules of a lexer.

/// A rule: the name of its tokens, and the text of the pattern that they match.
#[derive(Clone, Copy, Debug)]
pub struct Rule<'r> {
    /// The name of the tokens. It may be any text, and several rules may have the same.
    pub name: &'r str,
    /// The text of the pattern.
    pub pattern: &'r str,
}

/// Which rule is preferred where several match.
#[derive(Clone, Copy, Debug, PartialEq, Eq)]
pub enum Prefer {
    /// The first rule that matches, with the match that its pattern prefers, as in an alternation. If that match is
    /// empty there is no token, even if a later rule matches more.
    First,
    /// The rule whose match is the longest, in whatever way it matches, as in flex; of several such rules the first one.
    Longest,
}
