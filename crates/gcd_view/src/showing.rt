// What is shown of a run, and what is said beside it.
ghost use Rattle.std.specs.Prelude.{◌≤◌, length};
ghost use Rattle.gcd_plan.specs.Limits.{max_events};
ghost use Rattle.gcd_history.specs.History.{IsLawful};

use crate::loading::{Loaded, load_run};
use crate::request::Request;
use crate::stop::Stop;
use gcd_outer::Shelf;
use gcd_picture::{Note, ScriptLines, Showing, state_word, svg, trace};
use gcd_plan::MAX_EVENTS;
use gcd_timeline::{marks, standings};
use gcd_why::{RunEnd, Sentence, why_ended};
use std::alloc::{AllocError, Global};

/// The picture or the trace of a run, and why the run has come to its state.
#[derive(Drop)]
pub struct Shown<'a> {
    /// The picture or the trace.
    pub text: String,
    /// The sentences of `gcd check` on the run.
    pub said: Vec<Sentence<'a>>,
}

// The sentences as notes of a picture.
fn notes_of<'a>(alloc: Global, said: &'a [Sentence]) -> Result<Vec<Note<'a>>, AllocError> {
    let mut notes = Vec::with_capacity(alloc, said.len())?;
    for sentence in said {
        notes.push(Note {
            line: sentence.line,
            text: sentence.text.as_str(),
        })?;
    }
    Ok(notes)
}

// The picture or the trace of a journal of which this is said.
fn picture(
    alloc: Global,
    loaded: &Loaded,
    said: &[Sentence],
    is_trace: bool,
) -> Result<String, AllocError>
    requires lawful { IsLawful loaded.now.plan loaded.now.events.items }
    requires few { length loaded.now.events.items ≤ max_events }
{
    let (plan, events) = (&loaded.plan, loaded.events.as_slice());
    let marks = marks(alloc, plan, events)?;
    let standings = standings(alloc, plan, events)?;
    let lines = ScriptLines::of(alloc, plan, loaded.script.as_slice())?;
    let notes = notes_of(alloc, said)?;
    let showing = Showing {
        plan,
        marks: marks.as_slice(),
        events,
        standings: standings.as_slice(),
        state: state_word(loaded.machine.state()),
        notes: notes.as_slice(),
        lines: &lines,
    };
    if is_trace {
        trace(alloc, showing)
    } else {
        svg(alloc, showing)
    }
}

/// Shows the journal of the script, or says why there is nothing to be shown.
pub fn show<'a, S: Shelf>(
    alloc: Global,
    shelf: &mut S,
    request: Request<'a>,
) -> Result<Shown<'a>, Stop<'a>> {
    let loaded = load_run(alloc, shelf, request)?;
    let end = RunEnd {
        plan: &loaded.plan,
        machine: &loaded.machine,
        events: loaded.events.as_slice(),
        most: MAX_EVENTS,
    };
    let said = why_ended(alloc, end, request.script, loaded.script.as_slice())?;
    let text = picture(alloc, &loaded, &said, request.is_trace)?;
    Ok(Shown { text, said })
}
