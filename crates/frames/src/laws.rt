//! What holds of frames: each function's contract is a law, and its body does nothing.

ghost use Rattle.frames.specs.Laws.{FramesAgree, FramesReadBack};

/// What is spelled of requests within their limits is read as these requests.
pub fn frames_read_back()
    ensures { FramesReadBack }
{}

/// Bytes are the frame of one list of requests at most, so each list of requests has one spelling.
pub fn frames_agree()
    ensures { FramesAgree }
{}
