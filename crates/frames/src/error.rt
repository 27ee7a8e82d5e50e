//! Why bytes are refused as a frame.

use std::alloc::{AllocError, AllocFailed};
use thiserror::Error;

/// Why bytes are refused as a frame. The frame is refused whole: none of its requests is made.
#[derive(Clone, Copy, Debug, Error)]
pub enum FrameError {
    /// There is no memory for the frame.
    #[error("there is no memory for the frame")]
    NoMemory,
    /// The bytes end within the head or within a request.
    #[error("the bytes end before the frame does")]
    CutOff,
    /// The length that the frame says is not that of the bytes, or is above [`MAX_FRAME`](crate::MAX_FRAME).
    #[error("the frame's length is not that of its bytes, or is above 4194304")]
    BadLength,
    /// The frame is of another version.
    #[error("the frame is of another version")]
    BadVersion,
    /// The frame is not one of requests.
    #[error("the frame is not one of requests")]
    BadKind,
    /// No call has the number that a request says.
    #[error("no call has this number")]
    BadCall,
    /// What a transaction is to do is no log record.
    #[error("what a transaction is to do is no log record")]
    BadRecord,
    /// Bytes stand after the last request.
    #[error("bytes stand after the last request")]
    Surplus,
    /// The answers to the requests could be longer than a frame.
    #[error("the answers could be longer than a frame")]
    AnswersTooLong,
}

impl From<AllocError> for FrameError {
    ghost use Rattle.std.specs.Prelude.{◌≡◌};
    ghost use Rattle.frames.specs.declared.error.FrameError.TheVariants.{NoMemory};

    ghost from_gives = { λ _ e. e ≡ NoMemory };

    fn from(_error: AllocError) -> FrameError {
        FrameError::NoMemory
    }
}

impl<T: Drop> From<AllocFailed<T>> for FrameError {
    ghost use Rattle.std.specs.Prelude.{◌≡◌};
    ghost use Rattle.frames.specs.declared.error.FrameError.TheVariants.{NoMemory};

    ghost from_gives = { λ _ e. e ≡ NoMemory };

    fn from(_failed: AllocFailed<T>) -> FrameError {
        FrameError::NoMemory
    }
}

impl FrameError {
    ghost use Rattle.std.specs.Prelude.{◌≡◌};
    ghost use Rattle.frames.specs.Answers.{number_of_frame_error};

    /// The number of the refusal, from 1 to 9.
    pub fn number(&self) -> u8
        ensures { result ≡ number_of_frame_error self.now }
    {
        match self {
            FrameError::NoMemory => 1,
            FrameError::CutOff => 2,
            FrameError::BadLength => 3,
            FrameError::BadVersion => 4,
            FrameError::BadKind => 5,
            FrameError::BadCall => 6,
            FrameError::BadRecord => 7,
            FrameError::Surplus => 8,
            FrameError::AnswersTooLong => 9,
        }
    }
}
