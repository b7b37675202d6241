// The lines of a text, and the words of a line.
ghost use Rattle.std.specs.Prelude.{length};
ghost use Rattle.std.specs.Iterator.{at_most};

use gcd_text::{MAX_WORDS, first_word, next_line, printable, words};

/// The lines of a text, from the first on: each with its number, from 1, and without its end.
#[derive(Drop)]
pub struct Lines<'a> {
    rest: &'a [u8],
    number: u32,
}

impl<'a> Lines<'a> {
    /// All lines of the text.
    pub fn of(rest: &'a [u8]) -> Lines<'a> {
        Lines { rest, number: 0 }
    }
}

impl<'a> Iterator for Lines<'a> {
    type Item = (u32, &'a [u8]);

    ghost remaining = { λ s. at_most (length s.rest.now) };

    fn next(&mut self) -> Option<(u32, &'a [u8])> {
        let (line, rest) = next_line(self.rest)?;
        self.rest = rest;
        self.number = self.number.saturating_add(1);
        Some((self.number, line))
    }
}

/// The line of this number, from 1; empty where the text has fewer.
pub fn line_at(text: &[u8], number: u32) -> &[u8] {
    let found = Lines::of(text).find(|line| line.0 == number);
    found.map_or(&[], |line| line.1)
}

/// The words of a line: the first, and those after it. `after` holds the first [`MAX_WORDS`] of them, and `more` says that there
/// are more.
#[derive(Clone, Copy)]
pub struct Words<'a> {
    pub first: &'a str,
    pub after: [&'a str; MAX_WORDS],
    pub count: usize,
    pub more: bool,
}

impl<'a> Words<'a> {
    /// A word with none after it.
    pub fn alone(first: &'a str) -> Words<'a> {
        Words {
            first,
            after: [""; MAX_WORDS],
            count: 0,
            more: false,
        }
    }

    /// The words of a line; None where it has a byte other than 32 to 126, or is skipped.
    pub fn of(line: &'a [u8]) -> Option<Words<'a>> {
        let (first, rest) = first_word(printable(line)?)?;
        if first.starts_with('#') {
            return None;
        }
        let mut made = Words::alone(first);
        let Some(found) = words(rest) else {
            made.count = MAX_WORDS;
            made.more = true;
            return Some(made);
        };
        for (place, word) in made.after.iter_mut().zip(found.as_slice()) {
            *place = *word;
        }
        made.count = found.len();
        Some(made)
    }

    /// The word at this place, from 1, the first word; empty where there is none.
    pub fn at(self, place: u8) -> &'a str {
        match place.checked_sub(2) {
            Some(after) => self.get(after as usize),
            None => self.first,
        }
    }

    /// The word after the first of this number, from 0; empty where there is none.
    pub fn get(self, place: usize) -> &'a str {
        self.after.get(place).copied().unwrap_or("")
    }
}
