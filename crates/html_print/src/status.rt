//! How the program ends.

/// The status where all was done.
pub const DONE: u8 = 0;

/// The status where the page was refused, or memory.
pub const REFUSED: u8 = 1;

/// The status where the words are no job.
pub const WRONG_WORDS: u8 = 2;

/// The status where a file or a stream failed.
pub const FILE_FAULT: u8 = 3;
