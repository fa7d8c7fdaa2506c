//! Scripts whose allocations fail. The test uses up all memory.

use super::reported::Reported;
use super::reports::{Caller, Short, refuse_each};
use super::{Host, Sink, Source};
use regex_automata::hybrid::BuildError;
use search_script::{RunError, run};
use std::alloc::Global;

/// A script, and an output that has room for what it writes.
#[derive(Drop)]
struct Runner {
    script: &'static str,
    output: Sink,
}

/// Outputs, and what is reported for each.
#[rattlefmt::skip]
const HEARD: &[(&str, &str)] = &[
    ("refused out of memory\n", "regex memory"), ("regex 0\nmemory\n", "request memory"),
    ("regex 0\n", "regex 0"), ("regex 0\nhalf 0 10\n", "half 0 10"), ("regex 0\nhalf 0 0\n", "half 0 0"),
];

impl Caller for Runner {
    type Of = &'static str;

    type Call = ();

    fn make(rt: &impl Host, script: &'static str, _options: &str) -> Result<Runner, BuildError> {
        let mut output = Sink::new(rt.alloc());
        output.bytes.reserve(1 << 10).expect(rt, "memory");
        output.most = 1 << 10;
        Ok(Runner { script, output })
    }

    /// Runs the script.
    fn answer(&mut self, alloc: Global, _call: ()) -> Reported {
        self.output.bytes.clear();
        let mut input = Source::new(self.script.as_bytes());
        if let Err(error) = run(alloc, &mut input, &mut self.output) {
            let is_refused = error == RunError::OutOfMemory && self.output.bytes.is_empty();
            return Reported::Word(if is_refused {
                "run memory"
            } else {
                "another error"
            });
        }
        for (output, reported) in HEARD {
            if output.as_bytes() == self.output.bytes.as_slice() {
                return Reported::Word(*reported);
            }
        }
        Reported::Word("another output")
    }
}

/// A failed allocation is an error of the run, or of the regex or the request in which it failed; no other reply
/// changes. The regex that cannot be built has a script without requests, so that the memory which it frees does not
/// help one.
#[rattlefmt::skip]
const RUNS: &[Short<&'static str, ()>] = &[
    ("forward", "regex date\nfwd 323031382D31322D3234\n", "", &[], &[((), "half 0 10")],
        &[(0, "run memory"), (0, "request memory")]),
    ("in reverse", "regex date\nrev 323031382D31322D3234\n", "", &[], &[((), "half 0 0")],
        &[(0, "run memory"), (0, "request memory")]),
    ("a regex", "regex words\n", "", &[], &[((), "regex 0")], &[(0, "run memory"), (0, "regex memory")]),
];

/// Each failed allocation is reported.
#[test]
fn reports_each_refused_growth(rt: HostRuntime) {
    refuse_each::<Runner>(&rt, RUNS);
}
