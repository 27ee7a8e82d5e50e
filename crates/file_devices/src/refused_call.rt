//! Why a device on a file refused a call, for the text of the refusal.

use std::{fmt, io};
use thiserror::Error;

/// Why a device on a file refused a call. As text it is the cause alone.
#[derive(Clone, Copy, Debug, Error)]
pub enum CallCause {
    /// The system refused the call.
    #[error("{0}")]
    System(#[from] io::Error),
    /// The file has become shorter than its device.
    #[error("the file has become shorter")]
    Shorter,
}

/// A call of a device on a file. As text it is the call with its byte place.
#[derive(Clone, Copy, Debug, PartialEq, Eq)]
pub enum FileCall {
    /// A read from this byte place on.
    Read(u64),
    /// A write from this byte place on.
    Write(u64),
    /// A flush.
    Flush,
}

impl fmt::Display for FileCall {
    fn fmt<W: fmt::Write>(&self, f: &mut fmt::Formatter<W>) -> fmt::Result {
        match self {
            FileCall::Read(at) => write!(f, "read at byte {at}"),
            FileCall::Write(at) => write!(f, "write at byte {at}"),
            FileCall::Flush => write!(f, "flush"),
        }
    }
}

/// A call that a device on a file refused, and why. As text: `write at byte 4096: No space left on device (os error
/// 28)`.
#[derive(Clone, Copy, Debug, Error)]
#[error("{call}: {cause}")]
pub struct RefusedCall {
    /// The call.
    pub call: FileCall,
    /// Why it was refused.
    pub cause: CallCause,
}
