//! The example programs: the first argument names one, and the others are passed to it.
//!
//!     examples NAME [ARGUMENT..]
//!
//! To start a program of your own from an example, copy its file as `src/main.rt`, and the files of its folder, if it
//! has one, beside that. Its `main` passes the arguments of your program to `run`, as this one passes those after NAME.
#![tactic(auto)]

mod errors;
mod fallback;
mod lexer;
mod log;
mod picture;
mod rules;
mod sets;
mod steps;
mod words;

use anyhow::{Result, bail};
use std::env;

/// Runs the example that the first argument names, with the arguments after it.
fn main(rt: HostRuntime) -> Result<()> {
    let mut args = env::args(&rt)?;
    let _program = args.next();
    let Some(name) = args.next() else {
        bail!("usage: examples NAME [ARGUMENT..]");
    };
    match name.as_str() {
        "errors" => errors::main(rt),
        "fallback" => fallback::run(&rt, args),
        "lexer" => lexer::main(rt),
        "log" => log::run(&rt, args),
        "picture" => picture::run(&rt, args),
        "rules" => rules::run(&rt, args),
        "sets" => sets::run(&rt, args),
        "steps" => steps::main(rt),
        "words" => words::main(rt),
        _ => bail!("there is no example {name}"),
    }
}
