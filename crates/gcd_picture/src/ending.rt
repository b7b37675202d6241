// How a run ended, in words beneath its lanes.

use crate::drawing::Drawing;
use crate::escape::push_xml;
use crate::frame::LETTER;
use std::alloc::{AllocError, Global};
use std::fmt::Write;

// The height of a line.
const LINE: u64 = 15;

// Where a text begins, and where its further lines do.
const MARGIN: u64 = 12;

const SET_IN: u64 = 33;

// Adds a line of text from this column on, and gives the height of the next one.
fn push_line(
    into: &mut String,
    class: &str,
    text: &str,
    x: u64,
    y: u64,
) -> Result<u64, AllocError> {
    write!(into, "<text class=\"{class}\" x=\"{x}\" y=\"{y}\">")?;
    push_xml(into, text)?;
    into.push_str("</text>\n")?;
    Ok(y.saturating_add(LINE))
}

// Adds a text in lines of at most so many letters, those after the first set in.
fn push_wrapped(
    alloc: Global,
    into: &mut String,
    text: &str,
    letters: usize,
    y: u64,
) -> Result<u64, AllocError> {
    let mut line = String::new(alloc);
    let (mut x, mut y) = (MARGIN, y);
    for word in text.split_whitespace() {
        let length = line.len().saturating_add(word.len());
        if !line.is_empty() && length >= letters {
            y = push_line(into, "note", line.as_str(), x, y)?;
            x = SET_IN;
            line.clear();
        }
        if !line.is_empty() {
            line.push_str(" ")?;
        }
        line.push_str(word)?;
    }
    push_line(into, "note", line.as_str(), x, y)
}

/// Adds the state to which the run has come and why it has come to it, from this height on, and gives the height beneath: nothing
/// where nothing is to be said of it.
pub fn push_ending(
    alloc: Global,
    into: &mut String,
    drawing: Drawing,
    top: u64,
) -> Result<u64, AllocError> {
    let left_out = drawing.parking.left_out();
    if drawing.showing.notes.is_empty() && left_out == 0 {
        return Ok(top);
    }
    let letters = (drawing.frame.texts() / LETTER).saturating_sub(6) as usize;
    let mut y = push_line(into, "state", drawing.showing.state, MARGIN, top)?;
    for note in drawing.showing.notes {
        let (line, text) = (note.line, note.text);
        let said = if line > 0 {
            format!(in alloc; "line {line}: {text}")?
        } else {
            String::from_str(alloc, text)?
        };
        y = push_wrapped(alloc, into, said.as_str(), letters, y)?;
    }
    if left_out > 0 {
        let times = if left_out == 1 { "time" } else { "times" };
        let said = format!(in alloc;
            "not drawn: {left_out} parked {times}, of lanes with more than 24 at once"
        )?;
        y = push_line(into, "note", said.as_str(), MARGIN, y)?;
    }
    Ok(y.saturating_add(12))
}
