//! Answers a script of searches: reads it from standard input, and writes the replies to standard output.
#![tactic(auto)]

use search_script::run;
use std::io;
use std::process::ExitCode;

#[cfg(test)]
mod tests;

/// Answers the script on standard input. An error is written to standard error, and determines the exit status.
fn main(rt: HostRuntime) -> ExitCode {
    match run(rt.alloc(), &mut rt.reader(), &mut io::writer(&rt)) {
        Ok(()) => ExitCode::SUCCESS,
        Err(fault) => {
            let _ = eprintln!(rt; "lazydfa: {fault}");
            fault.status()
        }
    }
}
