// Why a text is no journal, in words.

use crate::pick::pick;
use crate::shown::{Word, write_bad_byte, write_expected, write_quoted};
use gcd_journal::{Field, JournalCause};
use gcd_text::{cut_at, printable};
use std::fmt;

/// Why a text is no journal at a line: the cause that was told, the line, and how many events it may have.
#[derive(Clone, Copy)]
pub struct JournalWords<'a> {
    cause: JournalCause,
    most: u32,
    number: u32,
    // The line and its end, and what follows.
    rest: &'a [u8],
}

// What follows so many lines that have their end.
fn rest_after(text: &[u8], lines: u32) -> &[u8] {
    let mut rest = text;
    for _ in 0..lines {
        match cut_at(rest, b'\n') {
            Some((_, more)) => rest = more,
            None => return &[],
        }
    }
    rest
}

/// Returns why the text is no journal of at most `most` events at that line, with the cause that the reader or the loading told.
pub fn cause_of_journal<'a>(
    text: &'a [u8],
    most: u32,
    number: u32,
    cause: JournalCause,
) -> JournalWords<'a> {
    JournalWords {
        cause,
        most,
        number,
        rest: rest_after(text, number.saturating_sub(1)),
    }
}

// The forms of lines: the first word, and how the others are written.
static SHAPES: [(&str, &str); 15] = [
    ("start", " W B"),
    ("act", " W R I"),
    ("wake", " W B"),
    ("end", " W B"),
    ("deliver", " W S"),
    ("deliver_end", " W S"),
    ("tick", " T"),
    ("ready", " S N"),
    ("feed_end", " S"),
    ("misuse", " W R I Mk"),
    ("halt", ""),
    ("expire", " B"),
    ("accept", " B S"),
    ("shut", ""),
    ("events", " N"),
];

// What is expected, in words.
fn expected_words(field: Field) -> &'static str {
    match field {
        Field::Worker => "a worker, 0 to 63",
        Field::Block => "a block of the plan",
        Field::OtherBlock => "a block of the plan other than main",
        Field::Source => "a source of the plan",
        Field::Run => "a block or source of the plan",
        Field::Index => "an index, 0 to 65534",
        Field::Sender => "a sender, 0 to 63",
        Field::Time => "a time, 1 to 86400000",
        Field::Bytes => "a number of bytes, 1 to 2147483647",
        Field::Code => "a code, M1 to M8",
    }
}

impl<'a> JournalWords<'a> {
    // Why the fields of the line are no event's.
    fn write_form<W: fmt::Write>(&self, f: &mut fmt::Formatter<W>, line: &str) -> fmt::Result {
        let first = line.split(' ').next().unwrap_or("");
        let Some(shape) = pick(&SHAPES, first) else {
            return write_quoted(f, "no line of a journal begins with ", first, "");
        };
        if first == "events" && line.split(' ').count() == 2 {
            let (events, line) = (self.number.saturating_sub(1), Word(line));
            return write!(f, "expected 'events {events}', found '{line}'");
        }
        write!(
            f,
            "the line is not '{first}{shape}', with one space between its words and none at its ends"
        )
    }

    // Why a line that has its end is refused.
    fn write_line<W: fmt::Write>(&self, f: &mut fmt::Formatter<W>, line: &str) -> fmt::Result {
        if line.is_empty() {
            return f.write_str("the line is empty");
        }
        match self.cause {
            JournalCause::Misfit { place, expected } => {
                let word = line.split(' ').nth((place as usize).saturating_sub(1));
                write_expected(f, expected_words(expected), word.unwrap_or(""), place)
            }
            JournalCause::TooMany => {
                let (most, plural) = (self.most, if self.most == 1 { "" } else { "s" });
                write!(f, "a journal has at most {most} event{plural}")
            }
            JournalCause::NoForm | JournalCause::NoEnd | JournalCause::TooLong => {
                self.write_form(f, line)
            }
        }
    }
}

impl<'a> fmt::Display for JournalWords<'a> {
    fn fmt<W: fmt::Write>(&self, f: &mut fmt::Formatter<W>) -> fmt::Result {
        if let JournalCause::TooLong = self.cause {
            return f.write_str("the journal has more than 16777216 bytes");
        }
        if self.rest.is_empty() {
            let events = self.number.saturating_sub(1);
            return write!(
                f,
                "the journal ends, and no line 'events {events}' stands after its events"
            );
        }
        match cut_at(self.rest, b'\n') {
            None => f.write_str("the line lacks its end, the byte 10"),
            Some((line, _)) => match printable(line) {
                Some(line) => self.write_line(f, line),
                None => write_bad_byte(f, line, ""),
            },
        }
    }
}
