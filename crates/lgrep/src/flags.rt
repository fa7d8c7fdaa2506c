//! The flags, and how they are spelled.

/// A flag without a value.
#[derive(Clone, Copy)]
pub enum Switch {
    BinaryUnmatched,
    Count,
    Fixed,
    Help,
    IgnoreCase,
    Invert,
    Lines,
    MatchCase,
    Matches,
    Missing,
    Named,
    Names,
    /// A flag that has no effect.
    Nothing,
    Null,
    Numbers,
    Offsets,
    Quiet,
    Recursive,
    Silent,
    Stats,
    Syntax,
    Tab,
    Text,
    Unnamed,
    Version,
    Which,
    Words,
    /// Lines end in a NUL.
    ZeroEnds,
}

/// The kind of value that a flag takes.
#[derive(Clone, Copy)]
pub enum Value {
    After,
    Before,
    BinaryFiles,
    Cache,
    Color,
    Context,
    Exclude,
    ExcludeDirectory,
    Include,
    Maximum,
    Pattern,
    PatternFile,
    Template,
}

/// Returns the flag without a value that is this letter.
pub fn switch_of_letter(letter: char) -> Option<Switch> {
    let switch = match letter {
        'a' => Switch::Text,
        'b' => Switch::Offsets,
        'c' => Switch::Count,
        'E' | 'P' => Switch::Syntax,
        'F' => Switch::Fixed,
        'H' => Switch::Named,
        'h' => Switch::Unnamed,
        'I' => Switch::BinaryUnmatched,
        'i' | 'y' => Switch::IgnoreCase,
        'L' => Switch::Missing,
        'l' => Switch::Names,
        'n' => Switch::Numbers,
        'o' => Switch::Matches,
        'q' => Switch::Quiet,
        'R' | 'r' => Switch::Recursive,
        's' => Switch::Silent,
        'T' => Switch::Tab,
        'U' => Switch::Nothing,
        'V' => Switch::Version,
        'v' => Switch::Invert,
        'w' => Switch::Words,
        'x' => Switch::Lines,
        'Z' => Switch::Null,
        'z' => Switch::ZeroEnds,
        _ => return None,
    };
    Some(switch)
}

/// Returns the kind of value of the flag that is this letter, if it takes one.
pub fn value_of_letter(letter: char) -> Option<Value> {
    match letter {
        'A' => Some(Value::After),
        'B' => Some(Value::Before),
        'C' => Some(Value::Context),
        'e' => Some(Value::Pattern),
        'f' => Some(Value::PatternFile),
        'm' => Some(Value::Maximum),
        _ => None,
    }
}

/// Returns the flag without a value that is this word.
pub fn switch_of_word(word: &str) -> Option<Switch> {
    let switch = match word {
        "text" => Switch::Text,
        "byte-offset" => Switch::Offsets,
        "count" => Switch::Count,
        "extended-regexp" | "perl-regexp" => Switch::Syntax,
        "fixed-strings" => Switch::Fixed,
        "with-filename" => Switch::Named,
        "no-filename" => Switch::Unnamed,
        "initial-tab" => Switch::Tab,
        "ignore-case" => Switch::IgnoreCase,
        "no-ignore-case" => Switch::MatchCase,
        "files-without-match" => Switch::Missing,
        "files-with-matches" => Switch::Names,
        "line-number" => Switch::Numbers,
        "only-matching" => Switch::Matches,
        "quiet" | "silent" => Switch::Quiet,
        "recursive" | "dereference-recursive" => Switch::Recursive,
        "no-messages" => Switch::Silent,
        "binary" | "line-buffered" => Switch::Nothing,
        "invert-match" => Switch::Invert,
        "word-regexp" => Switch::Words,
        "line-regexp" => Switch::Lines,
        "null" => Switch::Null,
        "null-data" => Switch::ZeroEnds,
        "help" => Switch::Help,
        "stats" => Switch::Stats,
        "version" => Switch::Version,
        "which" => Switch::Which,
        _ => return None,
    };
    Some(switch)
}

/// Returns the kind of value of the flag that is this word, if it takes one.
pub fn value_of_word(word: &str) -> Option<Value> {
    match word {
        "after-context" => Some(Value::After),
        "before-context" => Some(Value::Before),
        "binary-files" => Some(Value::BinaryFiles),
        "cache" => Some(Value::Cache),
        "color" | "colour" => Some(Value::Color),
        "context" => Some(Value::Context),
        "exclude" => Some(Value::Exclude),
        "exclude-dir" => Some(Value::ExcludeDirectory),
        "file" => Some(Value::PatternFile),
        "include" => Some(Value::Include),
        "max-count" => Some(Value::Maximum),
        "regexp" => Some(Value::Pattern),
        "replace" => Some(Value::Template),
        _ => None,
    }
}
