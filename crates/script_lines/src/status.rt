//! The exit statuses of a script and of the program's commands. Status 0 is that all was done, and 2 that a line or a
//! word is none.

/// The exit status if the engine refused what was asked for.
pub const REFUSED: u8 = 1;

/// The exit status if a file can't be used, input can't be read, or output can't be written.
pub const FAILED: u8 = 3;
