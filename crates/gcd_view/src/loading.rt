// The plan of a script, and a lawful journal of it.
ghost use Rattle.std.specs.Prelude.{◌≡◌, ◌≤◌, length, IfOk, IfSome};
ghost use Rattle.gcd_plan.specs.Limits.{max_events, max_script_bytes};
ghost use Rattle.gcd_history.specs.History.{IsLawful};
ghost use Rattle.gcd_machine.specs.Stands.{StandsFor};
ghost use Rattle.gcd_view.specs.Loads.{IsLoaded, IsScript, IsJournalAt};

use crate::request::Request;
use crate::stop::Stop;
use gcd_event::Entry;
use gcd_journal::{JournalCause, JournalFault, judge, read_journal};
use gcd_machine::Machine;
use gcd_outer::{LoadFault, Shelf};
use gcd_plan::{MAX_EVENTS, MAX_FILE_BYTES, MAX_SCRIPT_BYTES, Plan};
use gcd_script::{Cause, Limit, ParseFault, parse};
use gcd_why::{Judged, why_event, why_journal, why_script};
use std::alloc::{AllocError, Global};

/// A journal to be shown: the script's text and its plan, the events, and the machine that stands for them.
#[derive(Drop)]
pub struct Loaded {
    /// The script's text.
    pub script: Vec<u8>,
    /// The plan that the script declares.
    pub plan: Plan,
    /// The events of the journal.
    pub events: Vec<Entry>,
    /// The machine that stands for them.
    pub machine: Machine,
}

// What is under the name, whole. None if it has more than `most` bytes.
fn load_whole<'a, S: Shelf>(
    alloc: Global,
    shelf: &mut S,
    name: &'a str,
    most: u32,
) -> Result<Option<Vec<u8>>, Stop<'a>>
    ensures loaded { IfOk result (λ found. IfSome found (λ bytes. IsLoaded S.tells (S.state shelf.old).content name.now most bytes.items)) }
    ensures same { (S.state shelf.new).content ≡ (S.state shelf.old).content }
{
    let mut bytes = Vec::new(alloc);
    match shelf.load(name, most as usize, &mut bytes) {
        Ok(()) => Ok(Some(bytes)),
        Err(LoadFault::Failed) => Err(Stop::Unread { path: name }),
        Err(LoadFault::Missing) => Err(Stop::Unread { path: name }),
        Err(LoadFault::TooLong(_)) => Ok(None),
        Err(LoadFault::Memory) => Err(Stop::Memory),
    }
}

// That the script is refused at that line with that cause.
fn refused_script<'a>(
    alloc: Global,
    name: &'a str,
    text: &[u8],
    line: u32,
    cause: Cause,
) -> Stop<'a> {
    match why_script(alloc, name, text, line, cause) {
        Ok(sentence) => Stop::Script(sentence),
        Err(AllocError) => Stop::Memory,
    }
}

// That the journal is refused at that line with that cause.
fn refused_journal<'a>(
    alloc: Global,
    name: &'a str,
    text: &[u8],
    line: u32,
    cause: JournalCause,
) -> Stop<'a> {
    match why_journal(alloc, MAX_EVENTS, name, text, line, cause) {
        Ok(sentence) => Stop::Journal(sentence),
        Err(AllocError) => Stop::Memory,
    }
}

// That the event of the journal at the index is not permitted.
fn refused_event<'a>(alloc: Global, judged: Judged, name: &'a str) -> Stop<'a> {
    match why_event(alloc, judged, name) {
        Ok(Some(said)) => Stop::Journal(said.sentence),
        Ok(None) | Err(AllocError) => Stop::Memory,
    }
}

// The text of the script under this name, and the plan that it declares.
fn load_plan<'a, S: Shelf>(
    alloc: Global,
    shelf: &mut S,
    name: &'a str,
) -> Result<(Vec<u8>, Plan), Stop<'a>>
    ensures script { IfOk result (λ r. IsScript S.tells (S.state shelf.old).content name.now r.0.items r.1) }
    ensures same { (S.state shelf.new).content ≡ (S.state shelf.old).content }
{
    let Some(script) = load_whole(alloc, shelf, name, MAX_SCRIPT_BYTES)? else {
        let cause = Cause::PastLimit(Limit::Script);
        return Err(refused_script(alloc, name, b"".as_slice(), 0, cause));
    };
    match parse(alloc, &script) {
        Ok(plan) => Ok((script, plan)),
        Err(ParseFault::Refused { line, cause, .. }) => {
            Err(refused_script(alloc, name, &script, line, cause))
        }
        Err(ParseFault::Memory) => Err(Stop::Memory),
    }
}

// The events of the journal under this name.
fn load_journal<'a, S: Shelf>(
    alloc: Global,
    plan: &Plan,
    shelf: &mut S,
    name: &'a str,
) -> Result<Vec<Entry>, Stop<'a>>
    ensures journal { IfOk result (λ events. IsJournalAt S.tells (S.state shelf.old).content name.now plan.now events.items) }
    ensures few { IfOk result (λ events. length events.items ≤ max_events) }
{
    let Some(text) = load_whole(alloc, shelf, name, MAX_FILE_BYTES)? else {
        return Err(refused_journal(alloc, name, b"".as_slice(), 0, JournalCause::TooLong));
    };
    match read_journal(alloc, plan, MAX_EVENTS, &text) {
        Ok(events) => Ok(events),
        Err(JournalFault::Refused { line, cause }) => {
            Err(refused_journal(alloc, name, &text, line as u32, cause))
        }
        Err(JournalFault::Memory) => Err(Stop::Memory),
    }
}

// The machine that stands for the events, where each is permitted where it stands.
fn judge_events<'a>(
    alloc: Global,
    plan: &Plan,
    name: &'a str,
    events: &[Entry],
) -> Result<Machine, Stop<'a>>
    requires { length events.now ≤ max_events }
    ensures lawful { IfOk result (λ machine. IsLawful plan.now events.now) }
    ensures stands { IfOk result (λ machine. StandsFor machine plan.now events.now) }
{
    let Ok(mut machine) = Machine::new(alloc, plan) else {
        return Err(Stop::Memory);
    };
    match judge(plan, &mut machine, events) {
        None => Ok(machine),
        Some(index) => {
            let judged = Judged {
                plan,
                machine: &machine,
                events,
                index,
            };
            Err(refused_event(alloc, judged, name))
        }
    }
}

/// Loads the script and reads its plan, and then loads the journal, reads it and judges its events. The plan is the one that the
/// script's text declares, the events are those of the journal's text, and lawful in the plan, and the machine stands for them; the two
/// texts are what stands under the two names of the request, where the shelf tells what it holds. Else it says why it stopped at one
/// of these steps, in the words of `gcd check`.
pub fn load_run<'a, S: Shelf>(
    alloc: Global,
    shelf: &mut S,
    request: Request<'a>,
) -> Result<Loaded, Stop<'a>>
    ensures script { IfOk result (λ r. IsScript S.tells (S.state shelf.old).content request.entry.script.now r.script.items r.plan) }
    ensures journal { IfOk result (λ r. IsJournalAt S.tells (S.state shelf.old).content request.entry.journal.now r.plan r.events.items) }
    ensures lawful { IfOk result (λ r. IsLawful r.plan r.events.items) }
    ensures stands { IfOk result (λ r. StandsFor r.machine r.plan r.events.items) }
    ensures few { IfOk result (λ r. length r.events.items ≤ max_events) }
{
    let (script, plan) = load_plan(alloc, shelf, request.script)?;
    let events = load_journal(alloc, &plan, shelf, request.journal)?;
    let machine = judge_events(alloc, &plan, request.journal, &events)?;
    Ok(Loaded {
        script,
        plan,
        events,
        machine,
    })
}
