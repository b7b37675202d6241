// How many words and fields a line has at most, for the code. specs/Limits has the same numbers for contracts.

/// The most words after the first in a line of a script: those of `source S timer START EVERY on T`, and of
/// `block B count V F FROM LEN`.
pub const MAX_WORDS: usize = 6;

/// The most fields in a line of a journal: those of `misuse W R I Mk`.
pub const MAX_FIELDS: usize = 5;
