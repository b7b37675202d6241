// Reads a journal.
ghost use Rattle.std.specs.Prelude.{◌≡◌, ◌≢◌, ◌∷◌, ◌++◌, [], codes, IfErr, IfOk, OnOk, MatchBool};
ghost use Rattle.std.specs.Fmt.{decimal};
ghost use Rattle.gcd_event.specs.Fits.{IsFitting};
ghost use Rattle.gcd_text.specs.Fields.{IsWithout};
ghost use Rattle.gcd_journal.specs.Causes.{IsCaused};
ghost use Rattle.gcd_journal.specs.Journals.{IsJournal, IsNear, IsRefusal};
ghost use Rattle.gcd_journal.specs.Named.{look_of};
ghost use Rattle.gcd_journal.specs.NextLine.{IsNext};

use crate::cause::JournalCause;
use crate::names::Names;
use crate::spelling::event_in;
use gcd_event::{Entry, Event};
use gcd_plan::Plan;
use gcd_text::cut_at;
use itoa::Buffer;
use std::alloc::{AllocError, Global};
use std::fmt;

/// Why a text is not read.
#[derive(Clone, Copy)]
pub enum JournalFault {
    /// The line, from 1, is the first at fault: it is neither one event's line more nor the line `events N` with the number
    /// of events before it. It is one of 64 bits, since 2 ^ 32 - 1 events may stand before it. The cause says what is wrong with it.
    Refused { line: u64, cause: JournalCause },
    /// Memory ran out.
    Memory,
}

// The cause is left out.
impl fmt::Debug for JournalFault {
    fn fmt<W: fmt::Write>(&self, f: &mut fmt::Formatter<W>) -> fmt::Result {
        match *self {
            JournalFault::Refused { line, .. } => write!(f, "line {line}"),
            JournalFault::Memory => f.write_str("out of memory"),
        }
    }
}

impl From<AllocError> for JournalFault {
    ghost use Rattle.gcd_journal.specs.declared.reader.JournalFault.TheVariants.{Memory};

    ghost from_gives = { λ _ fault. fault ≡ Memory };

    fn from(_: AllocError) -> JournalFault {
        JournalFault::Memory
    }
}

// What stands next in a text.
enum Line<'a> {
    // The line of an event, and what follows it.
    Spoken(Event, &'a [u8]),
    // The line `events N`, with the number of events before it.
    Count,
    // Neither, for this cause.
    Fault(JournalCause),
}

// Whether the line is `events N` with this number.
fn is_count(line: &[u8], count: usize) -> bool
    ensures { MatchBool result (line.now ≡ codes "events " ++ decimal count) (line.now ≢ codes "events " ++ decimal count) }
{
    match line.strip_prefix(b"events ".as_slice()) {
        None => false,
        Some(rest) => rest == Buffer::new().format(count).as_bytes(),
    }
}

// What a line is, after so many events of the most that a journal may have, and what follows its end.
fn line_of<'a>(names: &Names, line: &[u8], rest: &'a [u8], count: usize, most: u32) -> Line<'a>
    requires { IsWithout 10 line.now }
    ensures { IsNext most (look_of names.now.runs) (line.now ++ 10 ∷ rest.now) count result }
{
    match event_in(names, line) {
        Ok(e) => {
            if count < most as usize {
                Line::Spoken(e, rest)
            } else {
                Line::Fault(JournalCause::TooMany)
            }
        }
        Err(cause) => {
            if is_count(line, count) {
                Line::Count
            } else {
                Line::Fault(cause)
            }
        }
    }
}

// What stands next in a text, after so many events of the most that a journal may have.
fn next_line<'a>(names: &Names, text: &'a [u8], count: usize, most: u32) -> Line<'a>
    ensures { IsNext most (look_of names.now.runs) text.now count result }
{
    match cut_at(text, b'\n') {
        None => Line::Fault(JournalCause::NoEnd),
        Some((line, rest)) => line_of(names, line, rest, count, most),
    }
}

// One event more.
fn add(events: &mut Vec<Entry>, e: Event) -> Result<(), AllocError>
    requires { IsFitting e }
    ensures { OnOk result (events.new.items ≡ events.old.items ++ e ∷ []) }
{
    events.push(Entry::of(e))?;
    Ok(())
}

/// The events of a journal of the plan, at most `most`: those of the text's front up to its line `events N`, after which nothing is read.
/// `Refused` names exactly the first line at fault: one that is no event's line with fitting fields and names of the plan, a
/// line `events N` with another number, an event more than `most`, a line that lacks its end, or the line after the last. The cause is
/// that of this line. The line is at most one past the text's bytes. `Memory` comes only where memory runs out. A name costs one look-up.
pub fn read_journal(
    alloc: Global,
    plan: &Plan,
    most: u32,
    bytes: &[u8],
) -> Result<Vec<Entry>, JournalFault>
    ensures journal { IfOk result (λ events. IsJournal most plan.now bytes.now events.items) }
    ensures fault { IfErr result (IsRefusal most plan.now bytes.now) }
    ensures cause { IfErr result (IsCaused most plan.now bytes.now) }
    ensures near { IfErr result (IsNear bytes.now) }
{
    let names = Names::new(alloc, plan)?;
    let mut events = Vec::new(alloc);
    let mut rest = bytes;
    'lines: loop {
        match next_line(&names, rest, events.len(), most) {
            Line::Spoken(e, more) => {
                add(&mut events, e)?;
                rest = more;
            }
            Line::Count => return Ok(events),
            Line::Fault(cause) => {
                let line = events.len() as u64 + 1;
                return Err(JournalFault::Refused { line, cause });
            }
        }
    }
}
