//! Scripts whose reader or writer fails.

use super::{Host, Sink, Source, same_of};
use search_script::{RunError, run};

/// The error of a run, if it failed.
type Fault = Option<RunError>;

/// Runs a script whose reader and writer fail at these calls, counted from 1, or never for 0. Returns the output and
/// the error.
fn fail_at(rt: &impl Host, script: &str, (read, write): (usize, usize)) -> (Vec<u8>, Fault) {
    let mut input = Source::new(script.as_bytes());
    input.fails_at = read;
    let mut output = Sink::new(rt.alloc());
    output.fails_at = write;
    let fault = run(rt.alloc(), &mut input, &mut output).err();
    (output.bytes, fault)
}

/// Returns `Failed` if `call` is at most `calls`, and otherwise none.
fn failed_upto(calls: usize, call: usize) -> Fault {
    if call > calls {
        None
    } else {
        Some(RunError::Failed)
    }
}

/// Scripts, and how many calls read each, three bytes per call.
#[rattlefmt::skip]
const READ: &[(&str, usize)] = &[("regex ab\n", 4), ("regex ab\nwalk fwd 6162\nstep 0\nreset 0", 14)];

/// Each failed read is reported.
#[test]
fn reports_failed_reads(rt: HostRuntime) {
    fail_reads(&rt, READ);
}

/// Makes each read of each script fail in turn.
fn fail_reads(rt: &impl Host, rows: &[(&'static str, usize)]) {
    for row in rows {
        for call in 1..row.1.saturating_add(2) {
            fails_to_read(rt, row.0, call, failed_upto(row.1, call));
        }
    }
}

/// Checks that nothing is written if a read fails.
fn fails_to_read(rt: &impl Host, script: &str, call: usize, expected: Fault) {
    let (written, fault) = fail_at(rt, script, (call, 0));
    let found = (fault, written.is_empty());
    same_of(rt, &found, &(expected, expected.is_some()), &call);
}

/// A script, its output, and how many calls write that: five bytes per call, and a flush.
type Written = (&'static str, &'static str, usize);

#[rattlefmt::skip]
const WRITTEN: &[Written] = &[
    ("regex ab\nfwd 6162", "regex 0\nhalf 0 2\n", 5),
    ("regex ab\nwalk fwd 6162\nstep 0\nreset 0\n", "regex 0\nwalk 0\nhalf 0 2\nok\n", 7),
];

/// Each failed write is reported, and so is a failed flush.
#[test]
fn reports_failed_writes(rt: HostRuntime) {
    fail_writes(&rt, WRITTEN);
}

/// Makes each write for each script fail in turn.
fn fail_writes(rt: &impl Host, rows: &[Written]) {
    for row in rows {
        for call in 1..row.2.saturating_add(2) {
            fails_to_write(rt, *row, call, failed_upto(row.2, call));
        }
    }
}

/// Checks that a beginning of the output was written if a write fails.
fn fails_to_write(rt: &impl Host, row: Written, call: usize, expected: Fault) {
    let (written, fault) = fail_at(rt, row.0, (0, call));
    let is_beginning = row.1.as_bytes().starts_with(written.as_slice());
    same_of(rt, &(fault, is_beginning), &(expected, true), &call);
}

/// A bad line is reported before a failed write, and a failed read before a bad line.
#[test]
fn reports_faults_in_order(rt: HostRuntime) {
    writes_nothing(&rt, (0, 1), RunError::BadLine(1));
    writes_nothing(&rt, (2, 1), RunError::Failed);
}

/// Checks that a bad script writes nothing.
fn writes_nothing(rt: &impl Host, fails: (usize, usize), expected: RunError) {
    let (written, fault) = fail_at(rt, "bad\n", fails);
    let found = (fault, written.is_empty());
    same_of(rt, &found, &(Some(expected), true), &fails);
}
