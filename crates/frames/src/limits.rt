//! The fixed numbers of frames.

/// The version of these frames.
pub const FRAME_VERSION: u16 = 1;

/// The most bytes of a frame: 4 MiB.
pub const MAX_FRAME: u64 = 4_194_304;

/// The bytes of a frame before its requests or its answers.
pub const FRAME_HEAD: usize = 12;

/// The kinds of frames: of requests, of answers, the refusal of a frame, a pool that is open, and one that isn't.
pub(crate) const REQUESTS: u16 = 1;

pub(crate) const ANSWERS: u16 = 2;

pub(crate) const REFUSAL: u16 = 3;

pub(crate) const OPENED: u16 = 4;

pub(crate) const UNOPENED: u16 = 5;

/// The most bytes of the cause for which a pool isn't open.
pub(crate) const MAX_CAUSE: usize = 4_194_268;

/// The bytes that are kept for an answer, besides bytes that are read and objects that are listed.
pub(crate) const LEAST_ROOM: u64 = 80;

/// The bytes of an object that is listed.
pub(crate) const LISTED_SIZE: u64 = 12;
