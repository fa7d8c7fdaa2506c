//! The C library. `bindings/c/include/lazydfa.h` declares each export and says what a C program must ensure.
//!
//! Builders, regexes and caches are owned by handles, which all have one type. A call takes the object out of its
//! handle, works on it, and puts it back. The returned status reports every error of the library, and a handle that is
//! closed, already open, or of another kind.
#![tactic(auto)]

mod builder;
mod closing;
mod code;
mod explain;
mod facts;
mod forward;
mod groups;
mod handle;
mod input;
mod iterate;
pub mod laws;
mod limits;
mod loose;
mod names;
mod object;
mod output;
mod pieces;
mod regex;
mod search;
mod sets;
mod settings;
mod status;
mod stream;
mod tables;
mod text;
mod threads;
mod tokens;
mod usage;
mod walk;
mod walks;
mod word_tokens;
mod words;

pub use handle::Handle;
