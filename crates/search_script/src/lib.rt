//! Scripts of searches, with a line for each NFA, regex and request, and the replies to them.
//!
//! `run` reads a script, checks all lines, builds the NFAs and regexes, has `replay` answer the requests over one
//! cache, and writes a line for each of them. The other items read and print parts of a script, for callers that search
//! by themselves.
#![tactic(auto)]

mod answer;
mod catalogue;
mod error;
mod keyword;
mod reply;
mod script;
mod states;
mod words;

pub use answer::run;
pub use catalogue::Entry;
pub use error::RunError;
pub use reply::Line;
pub use script::{Script, configured};
pub use states::Outline;
pub use words::LineError;
