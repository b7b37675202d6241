// Why a script is refused, in words.

use crate::another::{Found, declared_by, other_line, submitted_by};
use crate::lines::{Words, line_at};
use crate::shapes::{is_first, write_fitting};
use crate::shown::{Shown, Word, write_at_place, write_bad_byte, write_expected, write_quoted};
use gcd_plan::{MAX_ACTS, MAX_BLOCKS, MAX_FILES, MAX_OBJECTS, MAX_STRIPS};
use gcd_script::{Amount, Asked, Cause, Choice, Limit};
use std::fmt;

/// Why a script is refused at a line: the cause that the parser told, the line, and another line that the cause is about, or line 0.
#[derive(Clone, Copy)]
pub struct ScriptCause<'a> {
    cause: Cause,
    bytes: &'a [u8],
    words: Words<'a>,
    other: Found<'a>,
}

/// Returns why the script is refused at that line, with the cause that the parser or the loading of its files told.
pub fn cause_of_script<'a>(text: &'a [u8], line: u32, cause: Cause) -> ScriptCause<'a> {
    let bytes = line_at(text, line);
    let words = Words::of(bytes).unwrap_or(Words::alone(""));
    let nothing = Found {
        line: 0,
        words: Words::alone(""),
    };
    ScriptCause {
        cause,
        bytes,
        words,
        other: other_line(text, line, cause, words).unwrap_or(nothing),
    }
}

const BYTES: &str = ": a line, a comment too, holds only bytes from 32 to 126";

const NO_BODY: &str =
    " is outside every body: no line 'block', 'handler' or 'main' is open above it";

const BAD_NAME: &str =
    " is not a valid name: 1 to 32 lower-case letters, digits and _, the first a letter";

const RESERVED: &str = " is predefined and cannot be declared";

const UNDECLARED: &str = " is not declared on an earlier line";

const BAD_NUMBER: &str = " is not a valid number: digits only, without a leading zero";

// The words that a form spells out.
fn choice_words(choice: Choice) -> &'static str {
    match choice {
        Choice::On => "'on'",
        Choice::Inactive => "'inactive'",
        Choice::Read => "'read'",
        Choice::Timer => "'timer'",
        Choice::Count => "'count'",
        Choice::QueueKind => "'serial' or 'concurrent'",
        Choice::MergeKind => "'add', 'or' or 'replace'",
        Choice::Work => "'bytes', 'lines', 'words' or 'sum'",
    }
}

// Such an object.
fn object_words(asked: Asked) -> &'static str {
    match asked {
        Asked::Queue => "a queue",
        Asked::Node => "a queue other than root, or a source",
        Asked::Group => "a group",
        Asked::Semaphore => "a semaphore",
        Asked::Source => "a source",
        Asked::MergeSource => "a source of merged values",
        Asked::Any => "an object other than root",
    }
}

// Whether a word that is not empty writes a number of any size.
fn is_decimal(word: &str) -> bool {
    let has_zero = word.len() > 1 && word.starts_with('0');
    !has_zero && word.as_bytes().iter().all(|c| c.is_ascii_digit())
}

impl<'a> ScriptCause<'a> {
    // What the other line declares.
    fn other_words(&self) -> &'static str {
        declared_by(self.other.words).unwrap_or("a name")
    }

    // How many words the line has, where its first word has no form of so many.
    fn write_count<W: fmt::Write>(&self, f: &mut fmt::Formatter<W>) -> fmt::Result {
        let first = self.words.first;
        if !is_first(first) {
            return write_quoted(f, "no line begins with ", first, "");
        }
        let (count, more) = (self.words.count, self.words.more);
        let about = if more { "more than " } else { "" };
        let plural = if count == 1 { "" } else { "s" };
        write!(
            f,
            "'{first}' has {about}{count} word{plural} after it here, and may be: "
        )?;
        write_fitting(f, "", &self.words, 1)
    }

    // That the form spells out another word at that place.
    fn write_misplaced<W: fmt::Write>(
        &self,
        f: &mut fmt::Formatter<W>,
        place: u8,
        expected: Choice,
    ) -> fmt::Result {
        write_expected(f, choice_words(expected), self.words.at(place), place)?;
        write_fitting(f, "; the forms that fit are: ", &self.words, place)
    }

    // That the path at that place is too long.
    fn write_long<W: fmt::Write>(&self, f: &mut fmt::Formatter<W>, place: u8) -> fmt::Result {
        let bytes = self.words.at(place).len();
        write!(
            f,
            "the path has {bytes} bytes, and a path has at most 255 (word {place})"
        )
    }

    // That an earlier line declares the name.
    fn write_taken<W: fmt::Write>(&self, f: &mut fmt::Formatter<W>) -> fmt::Result {
        let (name, line, what) = (self.words.get(0), self.other.line, self.other_words());
        write!(f, "'{name}' is taken: line {line} declares it as {what}")
    }

    // That an earlier line begins with the word too, which only one line may.
    fn write_second<W: fmt::Write>(&self, f: &mut fmt::Formatter<W>) -> fmt::Result {
        let (first, line) = (self.words.first, self.other.line);
        write!(f, "a second '{first}': line {line} has the first")
    }

    // Why the name at that place is unknown.
    fn write_unknown<W: fmt::Write>(&self, f: &mut fmt::Formatter<W>, place: u8) -> fmt::Result {
        let name = self.words.at(place);
        if name == "main" {
            return write_at_place(f, name, " cannot be used as a name", place);
        }
        let line = self.other.line;
        if line == 0 {
            return write_at_place(f, name, UNDECLARED, place);
        }
        write!(
            f,
            "'{name}' is not declared on an earlier line, but on line {line} (word {place})"
        )
    }

    // That the name at that place is of another kind.
    fn write_kind<W: fmt::Write>(
        &self,
        f: &mut fmt::Formatter<W>,
        place: u8,
        expected: &str,
    ) -> fmt::Result {
        let name = self.words.at(place);
        if name == "root" {
            return write_expected(f, expected, name, place);
        }
        let (line, what) = (self.other.line, self.other_words());
        write!(
            f,
            "expected {expected}, found '{name}' (word {place}): line {line} declares it as {what}"
        )
    }

    // Why the number at that place does not fit.
    fn write_number<W: fmt::Write>(
        &self,
        f: &mut fmt::Formatter<W>,
        place: u8,
        amount: Amount,
    ) -> fmt::Result {
        let word = self.words.at(place);
        if !is_decimal(word) {
            return write_at_place(f, word, BAD_NUMBER, place);
        }
        let (least, most, word) = (amount.least(), amount.most(), Word(word));
        write!(
            f,
            "{word} is out of its range, {least} to {most} (word {place})"
        )
    }

    // That an earlier line does it to that name.
    fn write_done<W: fmt::Write>(
        &self,
        f: &mut fmt::Formatter<W>,
        does: &str,
        name: &str,
    ) -> fmt::Result {
        write!(f, "line {} {does} '{name}' already", self.other.line)
    }

    // That an earlier line gives the source such a thing.
    fn write_given<W: fmt::Write>(&self, f: &mut fmt::Formatter<W>, what: &str) -> fmt::Result {
        let (source, line) = (self.words.get(0), self.other.line);
        write!(f, "'{source}' has a {what} already, on line {line}")
    }

    // That the act may not be in a handler.
    fn write_in_handler<W: fmt::Write>(&self, f: &mut fmt::Formatter<W>) -> fmt::Result {
        let (act, source) = (self.words.first, self.other.words.get(0));
        write!(
            f,
            "'{act}' may not be in a handler, and that of '{source}' is open: a handler submits no block and waits for nothing"
        )
    }

    // What there is no room for.
    fn write_past<W: fmt::Write>(&self, f: &mut fmt::Formatter<W>, limit: Limit) -> fmt::Result {
        let (what, most) = match limit {
            Limit::Files => ("file", MAX_FILES),
            Limit::Objects => ("object", MAX_OBJECTS - 1),
            Limit::Blocks => ("block", MAX_BLOCKS - 1),
            Limit::Strips => ("strip", MAX_STRIPS),
            Limit::Acts => ("act", MAX_ACTS),
            Limit::Script => return f.write_str("the script has more than 1048576 bytes"),
            Limit::File => {
                let (name, path) = (self.words.get(0), Shown(self.words.get(1)));
                return write!(f, "{path}, the file '{name}', has more than 16777216 bytes");
            }
        };
        write!(f, "one {what} too many: a script has at most {most}")
    }
}

impl<'a> fmt::Display for ScriptCause<'a> {
    fn fmt<W: fmt::Write>(&self, f: &mut fmt::Formatter<W>) -> fmt::Result {
        let words = self.words;
        match self.cause {
            Cause::BadByte => write_bad_byte(f, self.bytes, BYTES),
            Cause::UnknownFirst | Cause::WordCount => self.write_count(f),
            Cause::Misplaced { place, expected } => self.write_misplaced(f, place, expected),
            Cause::LongPath { place } => self.write_long(f, place),
            Cause::OutsideBody => write_quoted(f, "", words.first, NO_BODY),
            Cause::SecondUntil | Cause::SecondIntake | Cause::SecondMain => self.write_second(f),
            Cause::IllFormedName => write_quoted(f, "", words.get(0), BAD_NAME),
            Cause::ReservedName => write_quoted(f, "", words.get(0), RESERVED),
            Cause::TakenName => self.write_taken(f),
            Cause::UnknownName { place } => self.write_unknown(f, place),
            Cause::NotFile { place } => self.write_kind(f, place, "a file"),
            Cause::NotBlock { place } => self.write_kind(f, place, "a block"),
            Cause::NotStrip { place } => self.write_kind(f, place, "a strip"),
            Cause::NotObject { place, asked } => self.write_kind(f, place, object_words(asked)),
            Cause::BadNumber { place, amount } => self.write_number(f, place, amount),
            Cause::SubmittedTwice => {
                self.write_done(f, "submits", submitted_by(words).unwrap_or(""))
            }
            Cause::AppliedTwice => self.write_done(f, "applies", words.get(1)),
            Cause::SecondHandler => self.write_given(f, "handler"),
            Cause::SecondCancel => self.write_given(f, "cancellation block"),
            Cause::InHandler => self.write_in_handler(f),
            Cause::PastLimit(limit) => self.write_past(f, limit),
            Cause::NoMain => f.write_str("the script ends, and no line is 'main'"),
        }
    }
}
