// The command that runs a script.
ghost use Rattle.std.specs.Prelude.{◌≡◌, ◌++◌, ◌+◌, ◌≤◌, ◌<◌, ℕ, List, true, false, length, map, option_map, slice_get, Some, if◌then◌else◌, [], IfOk, IfErr, OnOk, OnErr};
ghost use Rattle.gcd_history.specs.History.{IsLawful};
ghost use Rattle.gcd_plan.specs.Limits.{max_events, max_workers};
ghost use Rattle.gcd_plan.specs.Validity.{IsPlan};
ghost use Rattle.gcd_history.specs.JournalText.{journal_text};
ghost use Rattle.gcd_history.specs.Ends.{HasState};
ghost use Rattle.gcd_history.specs.Values.{value_of};
ghost use Rattle.gcd_jobs.specs.BlockValues.{has_given};
ghost use Rattle.gcd_history.specs.declared.state.State.{State};
ghost use Rattle.gcd_history.specs.Intake.{AcceptsNone};
ghost use Rattle.gcd_machine.specs.Stands.{StandsFor};
ghost use Rattle.gcd_outer.specs.Outside.{seen};
ghost use Rattle.gcd_turn.specs.Asked.{KeepsListens};
ghost use Rattle.gcd_commands.specs.Calls.{inputs};
ghost use Rattle.gcd_commands.specs.Commands.{RunBegins, RunHands, RunStops, RunTells};
ghost use Rattle.gcd_commands.specs.Listens.{FailsToListen, Listened};
ghost use Rattle.gcd_commands.specs.End.{ran_end, run_text};
ghost use Rattle.gcd_commands.specs.Runs.{TellsRun};
ghost use Rattle.gcd_commands.specs.Hands.{IsRunOf};
ghost use Rattle.gcd_commands.specs.Stories.{end_of};
ghost use Rattle.gcd_commands.specs.declared.found.Found.TheVariants.{Run};

use crate::engine::run_by;
use crate::found::Found;
use crate::load::load_all;
use crate::stop::Stop;
use crate::story::Story;
use gcd_event::Entry;
use gcd_journal::{write_journal, write_report_by};
use gcd_outer::{Clock, Poller, Shelf};
use gcd_plan::Plan;
use gcd_words::RunRequest;
use gcd_workers::{Outcome, Over};
use std::alloc::{AllocError, Global};
use std::sync::Wait;
use std::thread::Threads;

// Connections are accepted at the address, if there is one.
fn listen_at<P: Poller>(poller: &mut P, address: Option<&str>) -> Result<(), Stop>
    ensures listened { OnOk result (Listened (seen P.tells P.state poller.old poller.new) (option_map (λ a. a.now) address.entry)) }
    ensures failed { IfErr result (FailsToListen (seen P.tells P.state poller.old poller.new) (option_map (λ a. a.now) address.entry)) }
    ensures unwatched { (feed : ℕ) → (P.state poller.new).watched feed ≡ (P.state poller.old).watched feed }
{
    match address {
        None => Ok(()),
        Some(address) => match poller.listen(address) {
            Ok(()) => Ok(()),
            Err(_) => Err(Stop::Unread { line: 0 }),
        },
    }
}

// Adds the journal's text if the call asks for it.
fn add_journal(
    alloc: Global,
    plan: &Plan,
    journal: &[Entry],
    with_journal: bool,
    text: &mut Vec<u8>,
) -> Result<(), AllocError>
    requires valid { IsPlan plan.now }
    requires lawful { IsLawful plan.now journal.now }
    ensures { OnOk result (text.new.items ≡ text.old.items ++ (if with_journal then journal_text plan.now journal.now else [])) }
{
    if !with_journal {
        return Ok(());
    }
    write_journal(alloc, plan, journal, text)
}

// Makes the text of a run: its journal, if the call asks for it, and its report.
fn text_of(
    alloc: Global,
    plan: &Plan,
    run: &Outcome,
    with_journal: bool,
) -> Result<Vec<u8>, AllocError>
    requires valid { IsPlan plan.now }
    requires lawful { IsLawful plan.now run.now.journal.items }
    requires few { length run.now.journal.items ≤ max_events }
    requires count { length run.now.values.items ≡ length plan.now.blocks }
    requires stands { StandsFor run.now.machine plan.now run.now.journal.items }
    ensures { (contents : List (List ℕ)) (state : State) → HasState plan.now run.now.journal.items state
        → ((b : ℕ) → has_given plan.now run.now.journal.items b ≡ true → slice_get run.now.values.items b ≡ Some (value_of plan.now contents b))
        → IfOk result (λ text. text.items ≡ run_text with_journal plan.now contents state run.now.journal.items) }
{
    let mut text = Vec::new(alloc);
    add_journal(alloc, plan, &run.journal, with_journal, &mut text)?;
    write_report_by(
        alloc,
        plan,
        &run.machine,
        &run.values,
        &run.journal,
        &mut text,
    )?;
    Ok(text)
}

// Tells a run, and hands on its plan and its machine. Returns `Err` if memory runs out.
fn story_of(
    alloc: Global,
    plan: Plan,
    run: Outcome,
    with_journal: bool,
) -> Result<Story, AllocError>
    requires valid { IsPlan plan }
    requires lawful { IsLawful plan run.journal.items }
    requires few { length run.journal.items ≤ max_events }
    requires count { length run.values.items ≡ length plan.blocks }
    requires stands { StandsFor run.machine plan run.journal.items }
    ensures told { (contents : List (List ℕ)) → HasState plan run.journal.items run.state
        → ((b : ℕ) → has_given plan run.journal.items b ≡ true → slice_get run.values.items b ≡ Some (value_of plan contents b))
        → IfOk result (λ s. end_of s ≡ ran_end run.state run.journal.items (run_text with_journal plan contents run.state run.journal.items)) }
    ensures found { IfOk result (λ s. s.found ≡ Run plan run.machine) }
{
    let text = text_of(alloc, &plan, &run, with_journal);
    let Outcome {
        journal,
        values: _,
        state,
        machine,
    } = run;
    Story::ran(state, journal, text, Found::Run { plan, machine })
}

// The plan runs over its files, with at most so many events. An `Err` comes where memory runs out.
fn run_plan<R: Threads + Wait + Sync, P: Poller, C: Clock>(
    rt: &R,
    alloc: Global,
    plan: Plan,
    files: &[Vec<u8>],
    request: RunRequest,
    poller: &mut P,
    clock: &mut C,
) -> Result<Story, AllocError>
    requires valid { IsPlan plan }
    requires files { length files.now ≡ length plan.files }
    requires workers { (0 < request.workers) × (request.workers ≤ max_workers) }
    requires most { (0 < request.most) × (request.most ≤ max_events) }
    requires unwatched { (feed : ℕ) → (P.state poller.old).watched feed ≡ false }
    ensures reported { IfOk result (λ s. TellsRun (seen P.tells P.state poller.old poller.new) (seen C.tells C.state clock.old clock.new) plan request.entry.workers request.entry.most AcceptsNone (run_text request.entry.journal plan (map (λ f. f.items) files.now)) (end_of s)) }
    ensures found { IfOk result (λ s. IsRunOf plan s.journal.items s.found) }
    ensures kept { KeepsListens P.tells (P.state poller.old) (P.state poller.new) }
{
    let over = Over {
        plan: &plan,
        files,
        most: request.most,
    };
    let run = run_by(rt, alloc, over, request.workers, poller, clock)?;
    let story = story_of(alloc, plan, run, request.journal)?;
    Ok(story)
}

// `run SCRIPT`: the script and its files are loaded, the poller listens, where an address is given, and the plan runs.
fn run_script<R: Threads + Wait + Sync, S: Shelf, P: Poller, C: Clock>(
    rt: &R,
    alloc: Global,
    request: RunRequest,
    shelf: &mut S,
    poller: &mut P,
    clock: &mut C,
) -> Result<Story, Stop>
    requires unwatched { (feed : ℕ) → (P.state poller.old).watched feed ≡ false }
    requires workers { (0 < request.workers) × (request.workers ≤ max_workers) }
    requires most { (0 < request.most) × (request.most ≤ max_events) }
    ensures reported { IfOk result (λ s. RunTells (inputs S.Shelf shelf.old shelf.new P.Poller poller.old poller.new C.Clock clock.old clock.new) request.entry (end_of s)) }
    ensures found { IfOk result (λ s. RunHands (inputs S.Shelf shelf.old shelf.new P.Poller poller.old poller.new C.Clock clock.old clock.new) request.entry (end_of s) s.found) }
    ensures stopped { IfErr result (RunStops (inputs S.Shelf shelf.old shelf.new P.Poller poller.old poller.new C.Clock clock.old clock.new) request.entry) }
{
    let (plan, files) = load_all(alloc, shelf, request.script)?;
    listen_at(poller, request.listen)?;
    match run_plan(rt, alloc, plan, &files, request, poller, clock) {
        Ok(story) => Ok(story),
        Err(AllocError) => Err(Stop::Memory),
    }
}

/// Does `run SCRIPT`: loads the script and then each file of its plan, in order, each by one load; listens at the address, if one is
/// given; and runs the plan by at most `workers` workers, from 1 to 64, up to `most` events. The story has the status of the state to
/// which the run has come, the run's journal, and as its text the report, after the journal's text if the request asks for that. It hands
/// on the plan and the machine that stands for the journal.
///
/// If a step cannot be taken, no later step is tried, and the story has no journal and this status:
///
/// | status | cause |
/// |---|---|
/// | `ScriptRefused` | the script is no script, or it or a file of it is longer than its limit; `at` has the line, from 1, and the code, and line 0 is the script as a whole |
/// | `Unread` | the script or a file of it cannot be read, or the poller cannot listen at the address |
///
/// Returns `Err` if memory runs out, or if the system makes no thread for a worker of a long run: at any step, so loads, a listen
/// and a run may have been made by then. The caller watches no feed of the poller yet.
pub fn tell_run<R: Threads + Wait + Sync, S: Shelf, P: Poller, C: Clock>(
    rt: &R,
    alloc: Global,
    request: RunRequest,
    shelf: &mut S,
    poller: &mut P,
    clock: &mut C,
) -> Result<Story, AllocError>
    requires unwatched { (feed : ℕ) → (P.state poller.old).watched feed ≡ false }
    requires workers { (0 < request.workers) × (request.workers ≤ max_workers) }
    requires most { (0 < request.most) × (request.most ≤ max_events) }
    ensures reported { IfOk result (λ s. RunTells (inputs S.Shelf shelf.old shelf.new P.Poller poller.old poller.new C.Clock clock.old clock.new) request.entry (end_of s)) }
    ensures found { IfOk result (λ s. RunHands (inputs S.Shelf shelf.old shelf.new P.Poller poller.old poller.new C.Clock clock.old clock.new) request.entry (end_of s) s.found) }
    ensures wanting { OnErr result (RunBegins (inputs S.Shelf shelf.old shelf.new P.Poller poller.old poller.new C.Clock clock.old clock.new) request.entry) }
{
    match run_script(rt, alloc, request, shelf, poller, clock) {
        Ok(story) => Ok(story),
        Err(stop) => Story::stopped(alloc, stop),
    }
}
