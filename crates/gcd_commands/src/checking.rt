// The command that judges a journal.
ghost use Rattle.std.specs.Prelude.{◌≤◌, length, IfOk, IfErr, OnErr};
ghost use Rattle.gcd_plan.specs.Limits.{max_events};
ghost use Rattle.gcd_outer.specs.Outside.{seen};
ghost use Rattle.gcd_commands.specs.Calls.{MadeLoads};
ghost use Rattle.gcd_commands.specs.Checks.{IsCheckCount, IsJournalAt, IsJudged, StopsJournal};
ghost use Rattle.gcd_commands.specs.Commands.{CheckHands, CheckStops, CheckTells};
ghost use Rattle.gcd_commands.specs.Hands.{IsJudgeOf};
ghost use Rattle.gcd_commands.specs.Loads.{SomeLoads};
ghost use Rattle.gcd_commands.specs.Stories.{end_of};

use crate::found::Found;
use crate::load::{load_plan, load_whole};
use crate::stop::Stop;
use crate::story::Story;
use gcd_event::Entry;
use gcd_journal::{JournalCause, JournalFault, judge, read_journal};
use gcd_machine::Machine;
use gcd_outer::Shelf;
use gcd_plan::{MAX_EVENTS, MAX_FILE_BYTES, Plan};
use gcd_words::CheckRequest;
use std::alloc::{AllocError, Global};

// The journal's text is loaded and read.
fn load_journal<S: Shelf>(
    alloc: Global,
    plan: &Plan,
    shelf: &mut S,
    name: &str,
) -> Result<Vec<Entry>, Stop>
    ensures read { IfOk result (λ h. IsJournalAt (seen S.tells S.state shelf.old shelf.new) name.now plan.now h.items) }
    ensures stopped { IfErr result (StopsJournal (seen S.tells S.state shelf.old shelf.new) name.now plan.now) }
    ensures loads { MadeLoads (seen S.tells S.state shelf.old shelf.new) 1 }
    ensures faults { (S.state shelf.old).faults ≤ (S.state shelf.new).faults }
{
    let too_long = Stop::Journal {
        line: 0,
        cause: JournalCause::TooLong,
    };
    let text = load_whole(alloc, shelf, name, MAX_FILE_BYTES, 0, too_long)?;
    match read_journal(alloc, plan, MAX_EVENTS, &text) {
        Ok(journal) => Ok(journal),
        Err(JournalFault::Refused { line, cause }) => Err(Stop::Journal {
            line: line as u32,
            cause,
        }),
        Err(JournalFault::Memory) => Err(Stop::Memory),
    }
}

// Judges the events, and hands on the plan and the machine that took those that are permitted. Returns `Err` if memory runs out.
fn judge_journal(alloc: Global, plan: Plan, journal: Vec<Entry>) -> Result<Story, AllocError>
    requires few { length journal.items ≤ max_events }
    ensures judged { IfOk result (λ s. IsJudged plan journal.items (end_of s)) }
    ensures found { IfOk result (λ s. IsJudgeOf plan (end_of s) s.found) }
{
    let mut machine = Machine::new(alloc, &plan)?;
    match judge(&plan, &mut machine, &journal) {
        None => {
            let state = machine.state();
            Story::lawful(alloc, journal, state, Found::Run { plan, machine })
        }
        Some(index) => Story::unlawful(alloc, journal, index, Found::Run { plan, machine }),
    }
}

// `check SCRIPT JOURNAL`: the script is loaded and read, then the journal, and then its events are judged.
fn check_journal<S: Shelf>(
    alloc: Global,
    request: CheckRequest,
    shelf: &mut S,
) -> Result<Story, Stop>
    ensures reported { IfOk result (λ s. CheckTells (seen S.tells S.state shelf.old shelf.new) request.entry (end_of s)) }
    ensures found { IfOk result (λ s. CheckHands (seen S.tells S.state shelf.old shelf.new) request.entry (end_of s) s.found) }
    ensures stopped { IfErr result (CheckStops (seen S.tells S.state shelf.old shelf.new) request.entry) }
{
    let plan = load_plan(alloc, shelf, request.script)?;
    let journal = load_journal(alloc, &plan, shelf, request.journal)?;
    match judge_journal(alloc, plan, journal) {
        Ok(story) => Ok(story),
        Err(AllocError) => Err(Stop::Memory),
    }
}

/// Does `check SCRIPT JOURNAL`: loads the script and then the journal, each by one load, and judges the journal's events, of which there
/// are at most as many as a run can have. No file of the script is loaded. The story has the journal that was read.
/// It hands on the plan and the machine that stands for the events before the first that is not permitted, or for all of them; and of a
/// refused script or journal the cause.
///
/// | status | cause |
/// |---|---|
/// | `Drained` | each event is permitted at its place; the text tells their number and their state |
/// | `ScriptRefused` | the script is no script, or it is too long; no journal was loaded, and `at` has the line, from 1, and the code |
/// | `JournalRefused` | the text is no journal of the plan or is too long, and `at` has the line, from 1 (0 is the journal as a whole), and 1; or an event is the first that is not permitted, and `at` has its index, from 0, and 2 |
/// | `Unread` | the script or the journal cannot be read |
///
/// Returns `Err` if memory runs out, after one load or two.
pub fn tell_check<S: Shelf>(
    alloc: Global,
    request: CheckRequest,
    shelf: &mut S,
) -> Result<Story, AllocError>
    ensures reported { IfOk result (λ s. CheckTells (seen S.tells S.state shelf.old shelf.new) request.entry (end_of s)) }
    ensures found { IfOk result (λ s. CheckHands (seen S.tells S.state shelf.old shelf.new) request.entry (end_of s) s.found) }
    ensures wanting { OnErr result (SomeLoads (seen S.tells S.state shelf.old shelf.new) IsCheckCount) }
{
    match check_journal(alloc, request, shelf) {
        Ok(story) => Ok(story),
        Err(stop) => Story::stopped(alloc, stop),
    }
}
