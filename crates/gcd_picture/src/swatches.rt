// Swatches with words beside them, in lines.

use crate::escape::push_xml;
use crate::frame::LETTER;
use std::alloc::AllocError;
use std::fmt::Write;

/// Where the next swatch and its words go.
#[derive(Clone, Copy)]
pub struct Pen {
    /// How far to the right.
    pub x: u64,
    /// How far down.
    pub y: u64,
}

// Where a line begins.
const MARGIN: u64 = 12;

impl Pen {
    /// A pen at the begin of a line at this height.
    pub fn at(y: u64) -> Pen {
        Pen { x: MARGIN, y }
    }

    /// Goes on to the next line, unless nothing is on this one.
    pub fn end_line(&mut self) {
        if self.x > MARGIN {
            *self = Pen::at(self.y.saturating_add(22));
        }
    }
}

// Takes room for a swatch and so many letters, on this line or, if the page is not as wide, on the next one.
fn advance(pen: &mut Pen, letters: usize, width: u64) -> u64 {
    let room = (letters as u64).saturating_mul(LETTER).saturating_add(40);
    if pen.x.saturating_add(room) > width {
        pen.end_line();
    }
    let x = pen.x;
    pen.x = x.saturating_add(room);
    x
}

/// Adds a swatch of this look, and its words, on a page of that width.
pub fn push_entry(
    into: &mut String,
    pen: &mut Pen,
    width: u64,
    swatch: &str,
    words: &str,
) -> Result<(), AllocError> {
    let x = advance(pen, words.len(), width);
    let (y, text_x, text_y) = (pen.y, x.saturating_add(26), pen.y.saturating_add(12));
    write!(
        into,
        "<g transform=\"translate({x} {y})\">{swatch}</g><text x=\"{text_x}\" y=\"{text_y}\">"
    )?;
    push_xml(into, words)?;
    into.push_str("</text>\n")
}
