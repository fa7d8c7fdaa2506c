use std::alloc::AllocError;
use std::io;
use std::process::ExitCode;
use thiserror::Error;

/// Why a script could not be answered.
#[derive(Clone, Copy, Debug, PartialEq, Eq, Error)]
pub enum RunError {
    /// The number of the first bad line, counted from 1.
    #[error("line {0}: bad line")]
    BadLine(usize),
    #[error("input or output failed")]
    Failed,
    #[error("out of memory")]
    OutOfMemory,
}

impl RunError {
    /// Returns the error of a script whose input cannot be read, or whose output cannot be written.
    pub(crate) fn of_io(error: io::Error) -> RunError {
        match error.kind() {
            io::ErrorKind::OutOfMemory => RunError::OutOfMemory,
            _ => RunError::Failed,
        }
    }

    /// Returns the exit status of the process: 2 for a bad line, 1 for any other error.
    pub fn status(self) -> ExitCode {
        match self {
            RunError::BadLine(_) => ExitCode::from(2),
            RunError::Failed | RunError::OutOfMemory => ExitCode::FAILURE,
        }
    }
}

impl From<AllocError> for RunError {
    fn from(_error: AllocError) -> RunError {
        RunError::OutOfMemory
    }
}
