//! Shows the errors of patterns.

use crate::compile::Options;
use crate::error::{Fault, PatternError, is_about_all};
use regex_syntax::{ErrorKind, Span};
use std::alloc::{AllocError, Global};
use std::fmt::Write;

impl PatternError {
    /// Formats what is wrong. If it is a limit of these options, with which the pattern was compiled, the value of the
    /// limit and the name of the option follow. If it is about one pattern, so do the pattern's text, and below it a
    /// caret for each character that the error is about.
    pub fn show(&self, alloc: Global, text: &str, options: &Options) -> Result<String, AllocError> {
        let mut shown = String::new(alloc);
        let fault = self.fault;
        write!(shown, "{fault}")?;
        push_limit(&mut shown, &fault, options)?;
        if !is_about_all(&fault) {
            push_text(&mut shown, text, self.span())?;
        }
        Ok(shown)
    }
}

/// Appends the value and the name of the option that the fault exceeds, if there is one.
fn push_limit(shown: &mut String, fault: &Fault, options: &Options) -> Result<(), AllocError> {
    match fault {
        Fault::Syntax(error) if error.kind == ErrorKind::NestLimitExceeded => {
            let limit = options.nest_limit;
            write!(shown, ": {limit} levels (nest_limit)")
        }
        Fault::TooLarge => {
            let limit = options.size_limit;
            write!(
                shown,
                ": up to this one their tables take more than {limit} bytes; raise size_limit"
            )
        }
        _ => Ok(()),
    }
}

/// Appends the pattern's text on a line of its own, and below it a caret for each character in the span.
fn push_text(shown: &mut String, text: &str, span: Option<Span>) -> Result<(), AllocError> {
    write!(shown, "\n  {text}")?;
    if let Some(span) = span {
        shown.push_str("\n  ")?;
        push_carets(shown, text, span)?;
    }
    Ok(())
}

/// Appends a space for each character before the span, and a caret for each character in it, at least one.
fn push_carets(shown: &mut String, text: &str, span: Span) -> Result<(), AllocError> {
    let mut carets = 0;
    for (offset, _) in text.char_indices() {
        if offset < span.start {
            shown.push(' ')?;
        } else if offset < span.end {
            shown.push('^')?;
            carets = 1;
        }
    }
    if carets == 0 {
        shown.push('^')?;
    }
    Ok(())
}
