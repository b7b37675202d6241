// Why words name no command.

use crate::pick::pick;
use crate::shown::{Shown, write_quoted};
use gcd_plan::{MAX_BLOCKS, MAX_EVENTS, MAX_WORKERS};
use std::fmt;

/// Why words name no command.
#[derive(Clone, Copy)]
pub enum WordsCause<'a> {
    /// A call for help.
    Help,
    /// A call for the version.
    Version,
    /// There is no word.
    NoWord,
    /// The first word is none of the commands.
    UnknownCommand(&'a str),
    /// An option stands before the command.
    EarlyOption(&'a str),
    /// The command has no such option.
    UnknownOption {
        command: &'a str,
        word: &'a str,
    },
    /// The option stands twice.
    Twice(&'a str),
    /// The option takes a value, and none follows.
    NoValue(&'a str),
    /// The option takes no value.
    WithValue(&'a str),
    /// The word is no number in the range.
    NoNumber {
        what: &'static str,
        word: &'a str,
        high: u32,
    },
    /// One word too many.
    TooMany {
        command: &'a str,
        word: &'a str,
    },
    /// A word is missing.
    Missing {
        command: &'a str,
        what: &'static str,
    },
    /// It is not known which word is at fault.
    Unclear,
}

const HELP: &str =
    "gcd run SCRIPT [--workers N] [--journal] [--most N] [--listen ADDR]: runs the queue script under the path SCRIPT\n\
    \x20 --workers N: by at most N workers, 1 to 64; 1 where it is absent\n\
    \x20 --journal: the run's journal is written before the report\n\
    \x20 --most N: the run ends after N events, 1 to 4294967295; 4294967295 where it is absent\n\
    \x20 --listen ADDR: connections for feeds with the path tcp are accepted at this address, as 127.0.0.1:8080; port 0 takes a free one\n\
    gcd check SCRIPT JOURNAL: judges the journal under the path JOURNAL as a run of the script\n\
    gcd big N [--workers W]: runs the large script with N blocks, 1 to 16384\n\
    gcd front SCRIPT SENDERS: runs the script, and so many threads, 1 to 8, send jobs for its intake beside it\n\
    gcd --help, gcd --version: this text; the version";

const NO_COMMAND: &str = "gcd: no command is named: run, check, big or front";

const UNKNOWN_COMMAND: &str = " is no command: run, check, big or front";

const EARLY_OPTION: &str = " stands before the command: run, check, big or front comes first";

impl<'a> fmt::Display for WordsCause<'a> {
    fn fmt<W: fmt::Write>(&self, f: &mut fmt::Formatter<W>) -> fmt::Result {
        match *self {
            WordsCause::Help => f.write_str(HELP),
            WordsCause::Version => f.write_str("gcd 1"),
            WordsCause::NoWord => f.write_str(NO_COMMAND),
            WordsCause::UnknownCommand(word) => write_quoted(f, "gcd: ", word, UNKNOWN_COMMAND),
            WordsCause::EarlyOption(word) => write_quoted(f, "gcd: ", word, EARLY_OPTION),
            WordsCause::UnknownOption { command, word } => {
                write!(
                    f,
                    "gcd: '{}' has no option '{}'",
                    Shown(command),
                    Shown(word)
                )
            }
            WordsCause::Twice(word) => write_quoted(f, "gcd: ", word, " stands twice"),
            WordsCause::NoValue(word) => write_quoted(f, "gcd: no value follows ", word, ""),
            WordsCause::WithValue(word) => write_quoted(f, "gcd: ", word, " takes no value"),
            WordsCause::NoNumber { what, word, high } => {
                let word = Shown(word);
                write!(f, "gcd: '{word}' is no {what}: a number from 1 to {high}")
            }
            WordsCause::TooMany { command, word } => {
                let (word, command) = (Shown(word), Shown(command));
                write!(f, "gcd: '{word}' is one word too many after '{command}'")
            }
            WordsCause::Missing { command, what } => write!(f, "gcd: '{command}' lacks its {what}"),
            WordsCause::Unclear => f.write_str("gcd: the words name no command"),
        }
    }
}

// The most senders of jobs beside a run.
const MAX_FRONT_SENDERS: u32 = 8;

// What a word must be: nothing at all, any text, or a number of what it counts, from 1 to the greatest.
#[derive(Clone, Copy)]
enum Value {
    Nothing,
    Text,
    Number(&'static str, u32),
}

impl Value {
    // What is at fault with the word, if anything is. A number is one as the reader of the words takes it.
    fn check<'a>(self, word: &'a str) -> Result<(), WordsCause<'a>> {
        let Value::Number(what, high) = self else {
            return Ok(());
        };
        match word.parse::<u32>() {
            Ok(number) if 1 <= number && number <= high => Ok(()),
            _ => Err(WordsCause::NoNumber { what, word, high }),
        }
    }
}

const SCRIPT: (&str, Value) = ("SCRIPT", Value::Text);

const JOURNAL: (&str, Value) = ("JOURNAL", Value::Text);

const BLOCKS: (&str, Value) = ("N", Value::Number("number of blocks", MAX_BLOCKS - 1));

const SENDERS: (&str, Value) = (
    "SENDERS",
    Value::Number("number of senders", MAX_FRONT_SENDERS),
);

// What a command takes beside options, and how many of the options it has, of the first.
type Command = (&'static [(&'static str, Value)], usize);

static COMMANDS: [(&str, Command); 4] = [
    ("run", (&[SCRIPT], 4)),
    ("check", (&[SCRIPT, JOURNAL], 0)),
    ("big", (&[BLOCKS], 1)),
    ("front", (&[SCRIPT, SENDERS], 0)),
];

// The options, each with its place and its value.
static OPTIONS: [(&str, (usize, Value)); 4] = [
    (
        "--workers",
        (0, Value::Number("number of workers", MAX_WORKERS)),
    ),
    ("--journal", (1, Value::Nothing)),
    ("--most", (2, Value::Number("number of events", MAX_EVENTS))),
    ("--listen", (3, Value::Text)),
];

// Whether the word is a number below zero.
fn is_below_zero(word: &str) -> bool {
    match word.strip_prefix('-') {
        Some(digits) => !digits.is_empty() && digits.bytes().all(|digit| digit.is_ascii_digit()),
        None => false,
    }
}

// The words after the command, as far as they are read.
#[derive(Clone, Copy)]
struct Reading<'a> {
    command: &'a str,
    known: Command,
    taken: usize,
    owed: Option<(&'a str, Value)>,
    has: [bool; 4],
}

impl<'a> Reading<'a> {
    // Notes the option of that place; false if it stands already.
    fn notes(&mut self, place: usize) -> bool {
        match self.has.get_mut(place) {
            Some(has) => !std::mem::replace(has, true),
            None => true,
        }
    }

    // An option, with what stands after its `=`.
    fn option(&mut self, word: &'a str, after: Option<&'a str>) -> Result<(), WordsCause<'a>> {
        let command = self.command;
        let (place, value) = match pick(&OPTIONS, word) {
            Some(found) if found.0 < self.known.1 => found,
            _ => return Err(WordsCause::UnknownOption { command, word }),
        };
        if !self.notes(place) {
            return Err(WordsCause::Twice(word));
        }
        match (value, after) {
            (Value::Nothing, Some(_)) => Err(WordsCause::WithValue(word)),
            (Value::Nothing, None) => Ok(()),
            (_, Some(after)) => value.check(after),
            (_, None) => {
                self.owed = Some((word, value));
                Ok(())
            }
        }
    }

    // A word that is no option.
    fn plain(&mut self, word: &'a str) -> Result<(), WordsCause<'a>> {
        let command = self.command;
        let Some((_, value)) = self.known.0.get(self.taken) else {
            return Err(WordsCause::TooMany { command, word });
        };
        self.taken = self.taken.saturating_add(1);
        value.check(word)
    }

    // One word more.
    fn take(&mut self, word: &'a str) -> Result<(), WordsCause<'a>> {
        if let Some((option, value)) = self.owed {
            let checked = value.check(word);
            if word.starts_with('-') && !(is_below_zero(word) && checked.is_err()) {
                return Err(WordsCause::NoValue(option));
            }
            self.owed = None;
            return checked;
        }
        if !word.starts_with('-') {
            return self.plain(word);
        }
        match word.split_once('=') {
            Some((option, value)) => self.option(option, Some(value)),
            None => self.option(word, None),
        }
    }

    // All words after the command.
    fn take_all(&mut self, words: &[&'a str]) -> Result<(), WordsCause<'a>> {
        for word in words {
            self.take(*word)?;
        }
        if let Some((option, _)) = self.owed {
            return Err(WordsCause::NoValue(option));
        }
        let command = self.command;
        match self.known.0.get(self.taken).copied() {
            Some((what, _)) => Err(WordsCause::Missing { command, what }),
            None => Ok(()),
        }
    }
}

/// Why the words after the program's name name no command, where they name none: the first word at fault. A call for help or for
/// the version is one too.
pub fn why_words<'a>(words: &[&'a str]) -> WordsCause<'a> {
    let Some((command, after)) = words.split_first() else {
        return WordsCause::NoWord;
    };
    if *command == "help" || words.contains(&"--help") || words.contains(&"-h") {
        return WordsCause::Help;
    }
    if words.contains(&"--version") || words.contains(&"-V") {
        return WordsCause::Version;
    }
    if command.starts_with('-') {
        return WordsCause::EarlyOption(*command);
    }
    let Some(known) = pick(&COMMANDS, *command) else {
        return WordsCause::UnknownCommand(*command);
    };
    let mut reading = Reading {
        command: *command,
        known,
        taken: 0,
        owed: None,
        has: [false; 4],
    };
    match reading.take_all(after) {
        Ok(()) => WordsCause::Unclear,
        Err(cause) => cause,
    }
}
