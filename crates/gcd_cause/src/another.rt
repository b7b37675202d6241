// Another line of a script, which the refusal of a line is about.

use crate::lines::{Lines, Words};
use crate::pick::pick;
use gcd_script::Cause;

/// A line of a script: its number, from 1, and its words.
#[derive(Clone, Copy)]
pub struct Found<'a> {
    pub line: u32,
    pub words: Words<'a>,
}

// What the lines that declare a name declare.
static DECLARED: [(&str, &str); 7] = [
    ("file", "a file"),
    ("queue", "a queue"),
    ("group", "a group"),
    ("semaphore", "a semaphore"),
    ("source", "a source of merged values"),
    ("block", "a block"),
    ("strip", "a strip"),
];

static SOURCES: [(&str, &str); 2] = [("timer", "a timer"), ("read", "a read source")];

/// What a line of these words declares. None if it declares no name.
pub fn declared_by(words: Words) -> Option<&'static str> {
    let declared = pick(&DECLARED, words.first);
    if words.first == "source" {
        return pick(&SOURCES, words.get(1)).or(declared);
    }
    declared
}

// Which word after the first, from 0, names the block that a line of that first word submits.
static SUBMITTED: [(&str, usize); 8] = [
    ("group_async", 2),
    ("notify", 2),
    ("notify_block", 2),
    ("async", 1),
    ("barrier", 1),
    ("sync", 1),
    ("barrier_sync", 1),
    ("cancelled", 1),
];

/// The block that a line of these words submits.
pub fn submitted_by<'a>(words: Words<'a>) -> Option<&'a str> {
    let place = pick(&SUBMITTED, words.first)?;
    Some(words.get(place))
}

// The first line whose words are such.
fn first_line<'a, F: Fn(Words) -> bool>(text: &'a [u8], is_met: F) -> Option<Found<'a>>
    requires { F.IsAlwaysCallable is_met }
{
    for (line, bytes) in Lines::of(text) {
        if let Some(words) = Words::of(bytes) {
            if is_met(words) {
                return Some(Found { line, words });
            }
        }
    }
    None
}

// The last line above that number which opens a handler.
fn open_handler<'a>(text: &'a [u8], below: u32) -> Option<Found<'a>> {
    let mut found = None;
    for (line, bytes) in Lines::of(text) {
        if line >= below {
            break;
        }
        match Words::of(bytes) {
            Some(words) if words.first == "handler" => found = Some(Found { line, words }),
            _ => {}
        }
    }
    found
}

// The first line that declares the name.
fn declaring<'a>(text: &'a [u8], name: &str) -> Option<Found<'a>> {
    first_line(
        text,
        |words| words.get(0) == name && declared_by(words).is_some(),
    )
}

// The first line that begins with the first word, and has the name at that place after it, from 0.
fn naming<'a>(text: &'a [u8], first: &str, place: usize, name: &str) -> Option<Found<'a>> {
    first_line(
        text,
        |words| words.first == first && words.get(place) == name,
    )
}

/// The line that the cause is about beside the refused line, which has these words: that which declares its name, submits its block,
/// or opens the handler.
pub fn other_line<'a>(
    text: &'a [u8],
    line: u32,
    cause: Cause,
    refused: Words<'a>,
) -> Option<Found<'a>> {
    match cause {
        Cause::SecondUntil | Cause::SecondIntake | Cause::SecondMain => {
            first_line(text, |words| words.first == refused.first)
        }
        Cause::TakenName => declaring(text, refused.get(0)),
        Cause::UnknownName { place }
        | Cause::NotFile { place }
        | Cause::NotBlock { place }
        | Cause::NotStrip { place }
        | Cause::NotObject { place, .. } => declaring(text, refused.at(place)),
        Cause::SubmittedTwice => {
            let block = submitted_by(refused)?;
            first_line(text, |words| submitted_by(words) == Some(block))
        }
        Cause::AppliedTwice => naming(text, "apply", 1, refused.get(1)),
        Cause::SecondHandler => naming(text, "handler", 0, refused.get(0)),
        Cause::SecondCancel => naming(text, "cancelled", 0, refused.get(0)),
        Cause::InHandler => open_handler(text, line),
        _ => None,
    }
}
