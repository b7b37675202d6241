//! Lines, words, fields and numbers: what the readers of this project's texts share (this project's own rules).
//!
//! | call | answer |
//! |---|---|
//! | `next_line` | the first line of a text and what follows it (`lines_of`): a last line may lack its end; None at the end of the text |
//! | `cut_at` | what stands before the first such byte, and what follows it; None where the text has no such byte |
//! | `printable` | a line as text (`is_printable`); None where it has a byte other than 32 to 126 |
//! | `first_word` | the first word of a line (`words_of`: one or more spaces separate words) and what follows it; None where there is none |
//! | `words` | the words of a line; None where there are more than `MAX_WORDS` |
//! | `fields` | the fields of a line (`fields_of`): exactly one space separates them; None where there are more than `MAX_FIELDS` |
//! | `number` | the number below 10^10 that a word writes in decimal, with no sign and no leading zero; None where there is none |
//!
//! The model is a text as a list of bytes. No call takes memory, and the time of each is in proportion to what it reads.
//! `proofs/FirstLines` has lemmas on lines for readers above.
#![tactic(auto)]

mod cuts;
mod limits;
mod lines;
mod numbers;

pub use cuts::{cut_at, fields};
pub use limits::{MAX_FIELDS, MAX_WORDS};
pub use lines::{first_word, next_line, printable, words};
pub use numbers::number;
