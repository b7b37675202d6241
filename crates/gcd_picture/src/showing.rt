// What is shown.

use crate::script_lines::ScriptLines;
use gcd_event::Entry;
use gcd_plan::Plan;
use gcd_timeline::{Mark, Standing};

/// A sentence on how a run ended, and the line of the script that it is about, from 1; 0 is none.
#[derive(Clone, Copy)]
pub struct Note<'a> {
    /// The line; 0 where there is none.
    pub line: u32,
    /// The sentence.
    pub text: &'a str,
}

/// A journal to be shown: the events with their marks ([`gcd_timeline::marks`]), how the blocks stand after them
/// ([`gcd_timeline::standings`]), the state to which they have come, and the lines of the script.
#[derive(Clone, Copy)]
pub struct Showing<'a> {
    /// The plan of the journal.
    pub plan: &'a Plan,
    /// The marks of the events.
    pub marks: &'a [Mark],
    /// The events, from the first on.
    pub events: &'a [Entry],
    /// How each block stands after the events, by number.
    pub standings: &'a [Standing],
    /// The state to which they have come, in a word.
    pub state: &'a str,
    /// Why they have come to it.
    pub notes: &'a [Note<'a>],
    /// Where the blocks and acts stand in the script.
    pub lines: &'a ScriptLines,
}
