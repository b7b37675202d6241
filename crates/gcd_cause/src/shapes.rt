// How the lines of a script are written.

use crate::lines::Words;
use std::fmt;

// Each form of line: its first word, and how the words after it are written. Those of one first word are neighbours.
static SHAPES: [(&str, &str); 46] = [
    ("file", "F PATH"),
    ("queue", "Q K"),
    ("queue", "Q K inactive"),
    ("queue", "Q K on T"),
    ("queue", "Q K on T inactive"),
    ("group", "G"),
    ("semaphore", "S N"),
    ("source", "S add on T"),
    ("source", "S read PATH on T"),
    ("source", "S timer START EVERY on T"),
    ("cancelled", "S B"),
    ("until", "MS"),
    ("block", "B"),
    ("block", "B W F"),
    ("block", "B count V F"),
    ("block", "B W F FROM LEN"),
    ("block", "B count V F FROM LEN"),
    ("handler", "S"),
    ("main", ""),
    ("intake", "Q N"),
    ("strip", "A W F LEN N"),
    ("async", "Q B"),
    ("barrier", "Q B"),
    ("sync", "Q B"),
    ("barrier_sync", "Q B"),
    ("group_async", "G Q B"),
    ("notify", "G Q B"),
    ("enter", "G"),
    ("leave", "G"),
    ("group_wait", "G"),
    ("group_wait_for", "G MS"),
    ("signal", "S"),
    ("wait", "S"),
    ("wait_for", "S MS"),
    ("suspend", "O"),
    ("resume", "O"),
    ("activate", "O"),
    ("target", "O T"),
    ("merge", "S N"),
    ("cancel", "S"),
    ("retain", "O"),
    ("release", "O"),
    ("apply", "Q A"),
    ("cancel_block", "B"),
    ("wait_block", "B"),
    ("notify_block", "B Q C"),
];

/// Whether a line may begin with the word.
pub fn is_first(word: &str) -> bool {
    SHAPES.as_slice().iter().any(|(first, _)| *first == word)
}

// Whether a word may be what the form has in its place. A name, a path and a number may be any word.
fn is_met(asked: &str, word: &str) -> bool {
    match asked {
        "K" => ["serial", "concurrent"].contains(&word),
        "W" => ["bytes", "lines", "words", "sum"].contains(&word),
        "add" => ["add", "or", "replace"].contains(&word),
        "count" | "inactive" | "on" | "read" | "timer" => asked == word,
        _ => true,
    }
}

// Whether the words of a line fit a form up to that place, from 1, the first word.
fn fits(shape: &str, words: &Words, place: u8) -> bool {
    let mut left = place.saturating_sub(1);
    for (asked, word) in shape.split(' ').zip(words.after.as_slice()) {
        if left == 0 {
            return true;
        }
        if !is_met(asked, *word) {
            return false;
        }
        left = left.saturating_sub(1);
    }
    left == 0
}

/// The forms of the first word of a line that its words fit up to that place, from 1, after what introduces them; all forms of the first
/// word, where that is the place. Nothing if there is none.
pub fn write_fitting<W: fmt::Write>(
    f: &mut fmt::Formatter<W>,
    before: &str,
    words: &Words,
    place: u8,
) -> fmt::Result {
    let mut is_first = true;
    for (first, shape) in SHAPES.as_slice() {
        if *first == words.first && fits(*shape, words, place) {
            let between = if is_first { before } else { "; " };
            let space = if shape.is_empty() { "" } else { " " };
            write!(f, "{between}{first}{space}{shape}")?;
            is_first = false;
        }
    }
    Ok(())
}
