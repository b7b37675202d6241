// What others have chosen, as a sentence shows it.

use std::fmt;

// How many characters of a word are shown.
const SHOWN: usize = 60;

/// A path in a sentence. A control character, which would break the line, is shown as `?`.
#[derive(Clone, Copy)]
pub struct Shown<'a>(pub &'a str);

impl<'a> fmt::Display for Shown<'a> {
    fn fmt<W: fmt::Write>(&self, f: &mut fmt::Formatter<W>) -> fmt::Result {
        write_chars(f, self.0, usize::MAX)
    }
}

/// A word in a sentence. It is shown as a path is, and cut if it is long.
#[derive(Clone, Copy)]
pub struct Word<'a>(pub &'a str);

impl<'a> fmt::Display for Word<'a> {
    fn fmt<W: fmt::Write>(&self, f: &mut fmt::Formatter<W>) -> fmt::Result {
        write_chars(f, self.0, SHOWN)
    }
}

// The first characters of a text, at most so many, and `..` for the others.
fn write_chars<W: fmt::Write>(f: &mut fmt::Formatter<W>, text: &str, most: usize) -> fmt::Result {
    let mut left = most;
    for c in text.chars() {
        if left == 0 {
            return f.write_str("..");
        }
        left = left.saturating_sub(1);
        let shown = if c.is_control() { '?' } else { c };
        write!(f, "{shown}")?;
    }
    Ok(())
}

/// A word between quotes, and what stands before and after it.
pub fn write_quoted<W: fmt::Write>(
    f: &mut fmt::Formatter<W>,
    before: &str,
    word: &str,
    after: &str,
) -> fmt::Result {
    let word = Word(word);
    write!(f, "{before}'{word}'{after}")
}

/// What is said of the word at that place of a line, from 1.
pub fn write_at_place<W: fmt::Write>(
    f: &mut fmt::Formatter<W>,
    word: &str,
    after: &str,
    place: u8,
) -> fmt::Result {
    let word = Word(word);
    write!(f, "'{word}'{after} (word {place})")
}

/// That something else is expected at the place of the word.
pub fn write_expected<W: fmt::Write>(
    f: &mut fmt::Formatter<W>,
    expected: &str,
    word: &str,
    place: u8,
) -> fmt::Result {
    let word = Word(word);
    write!(f, "expected {expected}, found '{word}' (word {place})")
}

// The first bytes of a text whose editor marks it as UTF-8.
const BYTE_ORDER_MARK: &[u8] = b"\xef\xbb\xbf";

// What the first byte of the rest of a line is, if a line may not hold it.
fn bad_byte(rest: &[u8]) -> Option<&'static str> {
    match *rest.first()? {
        b' '..=b'~' => None,
        b'\t' => Some("a tab"),
        b'\r' => Some("a carriage return"),
        0..=31 | 127 => Some("a control character"),
        _ if rest.starts_with(BYTE_ORDER_MARK) => Some("a byte-order mark"),
        _ => Some("a character that is not ASCII"),
    }
}

/// What stands in the first column of a line, from 1, whose byte a line may not hold, and what is said of it.
pub fn write_bad_byte<W: fmt::Write>(
    f: &mut fmt::Formatter<W>,
    line: &[u8],
    after: &str,
) -> fmt::Result {
    for at in 0..line.len() {
        if let Some(what) = bad_byte(&line[at..]) {
            let column = at + 1;
            return write!(f, "column {column} holds {what}{after}");
        }
    }
    Ok(())
}
