//! What each call answers: how it went.

/// All is done.
pub(crate) const DONE: u8 = 0;

/// A question met a fault, or a graph was not accepted.
pub(crate) const FAULT: u8 = 1;

/// The text or the rows are not in order; nothing was asked.
pub(crate) const BAD_INPUT: u8 = 2;

/// There was no memory.
pub(crate) const NO_MEMORY: u8 = 4;

/// The buffer is too small: nothing was written to it.
pub(crate) const NO_ROOM: u8 = 5;

/// The session is open where it must not be, or not open.
pub(crate) const WRONG_STATE: u8 = 6;

/// There is no such goal, node, name, form or verdict.
pub(crate) const UNKNOWN: u8 = 7;
