// Writes a journal.
ghost use Rattle.std.specs.Prelude.{◌≡◌, ◌++◌, take, length, OnErr, OnOk};
ghost use Rattle.gcd_history.specs.JournalText.{event_line, count_line, journal_text};
ghost use Rattle.gcd_journal.specs.Spoken.{AreSpoken, IsNamed};

use crate::lines::{push_count, push_event};
use gcd_event::{Entry, Event};
use gcd_plan::Plan;
use std::alloc::{AllocError, Global};

// Adds the event's line, which is first made in `line`; where memory runs out nothing is added.
fn add_event(
    line: &mut Vec<u8>,
    plan: &Plan,
    e: Event,
    into: &mut Vec<u8>,
) -> Result<(), AllocError>
    requires { IsNamed plan.now e }
    ensures ok { OnOk result (into.new.items ≡ into.old.items ++ event_line plan.now e) }
    ensures err { OnErr result (into.new.items ≡ into.old.items) }
{
    line.clear();
    push_event(line, plan, e)?;
    into.extend_from_slice(line)
}

// Adds the line `events N`, in the same way.
fn add_count(line: &mut Vec<u8>, count: usize, into: &mut Vec<u8>) -> Result<(), AllocError>
    ensures ok { OnOk result (into.new.items ≡ into.old.items ++ count_line count) }
    ensures err { OnErr result (into.new.items ≡ into.old.items) }
{
    line.clear();
    push_count(line, count)?;
    into.extend_from_slice(line)
}

/// Adds the journal of the events to the text: a line for each event, in order, and then `events N` with their number. Where
/// memory runs out the text is as before. Conditions: each event has a line (`IsSpoken`), as the events of lawful histories
/// and of journals that were read have. It takes memory for one line beside the text.
pub fn write_journal(
    alloc: Global,
    plan: &Plan,
    events: &[Entry],
    into: &mut Vec<u8>,
) -> Result<(), AllocError>
    requires { AreSpoken plan.now events.now }
    ensures ok { OnOk result (into.new.items ≡ into.old.items ++ journal_text plan.now events.now) }
    ensures err { OnErr result (into.new.items ≡ into.old.items) }
{
    let was = into.len();
    let written = add_journal(alloc, plan, events, into);
    if written.is_err() {
        into.truncate(was);
    }
    written
}

// The same; where memory runs out the text has its former bytes at its front.
fn add_journal(
    alloc: Global,
    plan: &Plan,
    events: &[Entry],
    into: &mut Vec<u8>,
) -> Result<(), AllocError>
    requires { AreSpoken plan.now events.now }
    ensures ok { OnOk result (into.new.items ≡ into.old.items ++ journal_text plan.now events.now) }
    ensures err { take (length into.old.items) into.new.items ≡ into.old.items }
{
    let mut line = Vec::with_capacity(alloc, 64)?;
    for e in events {
        add_event(&mut line, plan, e.event(), into)?;
    }
    add_count(&mut line, events.len(), into)
}
