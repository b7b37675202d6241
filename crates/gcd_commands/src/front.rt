// The command that runs a script beside senders of jobs for its intake.
ghost use Rattle.std.specs.Prelude.{◌≡◌, ◌<◌, ◌≤◌, ◌++◌, ℕ, List, Some, false, length, map, sum, codes, IfOk, IfErr, OnOk, OnErr};
ghost use Rattle.std.specs.Fmt.{decimal};
ghost use Rattle.gcd_plan.specs.Limits.{max_blocks, max_events};
ghost use Rattle.gcd_plan.specs.PlanView.{IntakeView};
ghost use Rattle.gcd_plan.specs.Validity.{IsPlan};
ghost use Rattle.gcd_history.specs.History.{is_ended};
ghost use Rattle.gcd_history.specs.Intake.{accepted_of, blocks_of_sender};
ghost use Rattle.gcd_history.specs.Report.{front_text, line_end};
ghost use Rattle.gcd_journal.specs.Spoken.{AreSpoken};
ghost use Rattle.gcd_outer.specs.Outside.{seen};
ghost use Rattle.gcd_turn.specs.Asked.{KeepsListens};
ghost use Rattle.gcd_words.specs.CommandLine.{max_front_senders};
ghost use Rattle.gcd_commands.specs.End.{ran_end};
ghost use Rattle.gcd_commands.specs.Calls.{inputs};
ghost use Rattle.gcd_commands.specs.Commands.{FrontBegins, FrontHands, FrontStops, FrontTells};
ghost use Rattle.gcd_commands.specs.Fronts.{HasIntake, RanBeside, TellsFront, sender_text, value_or_0, values_at};
ghost use Rattle.gcd_commands.specs.Hands.{IsRunOf};
ghost use Rattle.gcd_commands.specs.Stories.{end_of};
ghost use Rattle.gcd_machine.specs.Stands.{StandsFor};
ghost use Rattle.gcd_commands.specs.declared.found.Found.TheVariants.{Run};

use crate::found::Found;
use crate::front_job::front_jobs;
use crate::large::total;
use crate::load::load_front;
use crate::senders::{Senders, Shares};
use crate::stop::Stop;
use crate::story::Story;
use gcd_event::{Entry, Event};
use gcd_history::State;
use gcd_journal::write_last_line;
use gcd_outer::{Clock, Poller, Shelf};
use gcd_plan::{Blk, MAX_EVENTS, Plan};
use gcd_words::FrontRequest;
use gcd_workers::{JobsInput, Over, Ran};
use std::alloc::{AllocError, Global};
use std::sync::Wait;
use std::thread::Threads;

// How many workers run the plan.
const WORKERS: u8 = 4;

// The plan runs beside the senders, each of which hands in its share of the intake's blocks. Returns `Err` if memory runs out, or the
// system makes no thread for a worker.
fn run_beside_senders<R: Threads + Wait + Sync, P: Poller + Send, C: Clock + Send>(
    rt: &R,
    alloc: Global,
    over: Over,
    senders: Senders,
    poller: &mut P,
    clock: &mut C,
) -> Result<Ran, AllocError>
    requires valid { IsPlan over.plan.now }
    requires intake { HasIntake over.plan.now senders.blocks }
    requires most { over.most ≡ max_events }
    requires senders { (0 < senders.count) × (senders.count ≤ max_front_senders) }
    requires unwatched { (feed : ℕ) → (P.state poller.old).watched feed ≡ false }
    ensures ran { IfOk result (RanBeside over.entry.plan.now senders.blocks senders.count (seen P.tells P.state poller.old poller.new) (seen C.tells C.state clock.old clock.new)) }
    ensures stands { IfOk result (λ run. StandsFor run.machine over.entry.plan.now run.journal.items) }
    ensures kept { KeepsListens P.tells (P.state poller.old) (P.state poller.new) }
{
    let given = JobsInput {
        plan: over.plan,
        workers: WORKERS,
        most: over.most,
        jobs: front_jobs(alloc, over.plan, over.files)?,
    };
    let mut shares = Shares {
        share: (senders.blocks / u32::from(senders.count)) as u16,
    };
    let ran = given.run_beside(rt, alloc, senders.count, &mut shares, poller, clock)?;
    Ok(ran)
}

// The block that the event accepts of this sender.
fn accepted_of(event: Event, sender: u8) -> Option<Blk>
    ensures { result ≡ accepted_of sender event }
{
    match event {
        Event::Accept { blk, sender: by } => { if by == sender { Some(blk) } else { None } }
        _ => None,
    }
}

// The value of a block; 0 where it has none.
fn value_of(values: &[Option<u64>], b: Blk) -> u64
    ensures { result ≡ value_or_0 values.now b.0 }
{
    match values.get(b.0 as usize) {
        Some(Some(value)) => *value,
        Some(None) => 0,
        None => 0,
    }
}

// Adds the value of the block that the event accepts of this sender, where it accepts one.
fn add_value(
    event: &Entry,
    values: &[Option<u64>],
    sender: u8,
    made: &mut Vec<u64>,
) -> Result<(), AllocError>
    ensures { OnOk result (made.new.items ≡ made.old.items ++ values_at values.now sender event.now) }
{
    match accepted_of(event.event(), sender) {
        None => Ok(()),
        Some(b) => {
            made.push(value_of(values, b))?;
            Ok(())
        }
    }
}

// The values of the blocks that were accepted of this sender, in order.
fn values_of_sender(
    alloc: Global,
    journal: &[Entry],
    values: &[Option<u64>],
    sender: u8,
) -> Result<Vec<u64>, AllocError>
    ensures { IfOk result (λ made. made.items ≡ map (λ b. value_or_0 values.now b.0) (blocks_of_sender journal.now sender)) }
{
    let mut made = Vec::new(alloc);
    for event in journal {
        add_value(event, values, sender, &mut made)?;
    }
    Ok(made)
}

// Adds a sender's line: how many of its jobs were accepted, and their values in one.
fn add_sender(
    alloc: Global,
    journal: &[Entry],
    values: &[Option<u64>],
    sender: u8,
    text: &mut Vec<u8>,
) -> Result<(), AllocError>
    requires few { length (blocks_of_sender journal.now sender) ≤ max_blocks }
    ensures { OnOk result (text.new.items ≡ text.old.items ++ sender_text values.now journal.now sender) }
{
    let given = values_of_sender(alloc, journal, values, sender)?;
    let count = given.len();
    let total = total(&given);
    let line = format!(in alloc; "sender {sender} accepted {count} total {total}\n")?;
    text.extend_from_slice(line.as_bytes())
}

// A line for each sender, and then the report's last line.
fn text_of(
    alloc: Global,
    plan: &Plan,
    state: State,
    journal: &[Entry],
    values: &[Option<u64>],
    senders: u8,
) -> Result<Vec<u8>, AllocError>
    requires few { (s : ℕ) → length (blocks_of_sender journal.now s) ≤ max_blocks }
    requires others { (b : ℕ) → is_ended journal.now b ≡ false → value_or_0 values.now b ≡ 0 }
    requires spoken { AreSpoken plan.now journal.now }
    ensures { IfOk result (λ text. text.items ≡ front_text plan.now senders (value_or_0 values.now) state journal.now) }
{
    let mut text = Vec::new(alloc);
    for sender in 0..senders {
        add_sender(alloc, journal, values, sender, &mut text)?;
    }
    write_last_line(alloc, plan, state, journal, &mut text)?;
    Ok(text)
}

// Tells a run, and hands on its plan and its machine. Returns `Err` if memory runs out.
fn story_of(alloc: Global, plan: Plan, run: Ran, senders: u8) -> Result<Story, AllocError>
    requires few { (s : ℕ) → length (blocks_of_sender run.journal.items s) ≤ max_blocks }
    requires others { (b : ℕ) → is_ended run.journal.items b ≡ false → value_or_0 run.values.items b ≡ 0 }
    requires spoken { AreSpoken plan run.journal.items }
    ensures told { IfOk result (λ s. end_of s ≡ ran_end run.state run.journal.items (front_text plan senders (value_or_0 run.values.items) run.state run.journal.items)) }
    ensures found { IfOk result (λ s. s.found ≡ Run plan run.machine) }
{
    let text = text_of(alloc, &plan, run.state, &run.journal, &run.values, senders);
    let Ran {
        journal,
        values: _,
        state,
        machine,
    } = run;
    Story::ran(state, journal, text, Found::Run { plan, machine })
}

// The plan runs beside the senders. Returns `Err` if memory runs out.
fn run_plan<R: Threads + Wait + Sync, P: Poller + Send, C: Clock + Send>(
    rt: &R,
    alloc: Global,
    plan: Plan,
    files: &[Vec<u8>],
    senders: Senders,
    poller: &mut P,
    clock: &mut C,
) -> Result<Story, AllocError>
    requires valid { IsPlan plan }
    requires intake { HasIntake plan senders.blocks }
    requires senders { (0 < senders.count) × (senders.count ≤ max_front_senders) }
    requires unwatched { (feed : ℕ) → (P.state poller.old).watched feed ≡ false }
    ensures told { IfOk result (λ s. (intake : IntakeView) → plan.intake ≡ Some intake → TellsFront (seen P.tells P.state poller.old poller.new) (seen C.tells C.state clock.old clock.new) plan intake senders.count (end_of s)) }
    ensures found { IfOk result (λ s. IsRunOf plan s.journal.items s.found) }
    ensures kept { KeepsListens P.tells (P.state poller.old) (P.state poller.new) }
{
    let over = Over {
        plan: &plan,
        files,
        most: MAX_EVENTS,
    };
    let run = run_beside_senders(rt, alloc, over, senders, poller, clock)?;
    let story = story_of(alloc, plan, run, senders.count)?;
    Ok(story)
}

// `front SCRIPT SENDERS`: the script and its files are loaded, and the plan runs beside the senders.
fn front_script<R: Threads + Wait + Sync, S: Shelf, P: Poller + Send, C: Clock + Send>(
    rt: &R,
    alloc: Global,
    request: FrontRequest,
    shelf: &mut S,
    poller: &mut P,
    clock: &mut C,
) -> Result<Story, Stop>
    requires senders { (0 < request.senders) × (request.senders ≤ max_front_senders) }
    requires unwatched { (feed : ℕ) → (P.state poller.old).watched feed ≡ false }
    ensures told { IfOk result (λ s. FrontTells (inputs S.Shelf shelf.old shelf.new P.Poller poller.old poller.new C.Clock clock.old clock.new) request.entry (end_of s)) }
    ensures found { IfOk result (λ s. FrontHands (seen S.tells S.state shelf.old shelf.new) request.entry (end_of s) s.found) }
    ensures stopped { IfErr result (FrontStops (seen S.tells S.state shelf.old shelf.new) request.entry) }
    ensures kept { KeepsListens P.tells (P.state poller.old) (P.state poller.new) }
{
    let (plan, files, blocks) = load_front(alloc, shelf, request.script)?;
    let senders = Senders {
        count: request.senders,
        blocks,
    };
    match run_plan(rt, alloc, plan, &files, senders, poller, clock) {
        Ok(story) => Ok(story),
        Err(AllocError) => Err(Stop::Memory),
    }
}

/// Does `front SCRIPT SENDERS`: loads the script and, if its plan has an intake, each file, in order, each by one load. Then four workers
/// run the plan, up to as many events as a run can have, beside `senders` threads, from 1 to 8, that are no workers. Sender s, from 0,
/// hands in its share of jobs for the blocks of the intake, which give 1000 s + 1, 1000 s + 2 and so on: each again until it is accepted,
/// in order, as callers of dispatch_async(3) do. Then it shuts its mouth. A share is the number of those blocks divided by `senders`,
/// rounded down. The story has the status of the state to which the run has come, the run's journal, and as its text a line for each
/// sender and the report's last line. It hands on the plan and the machine
/// that stands for the journal.
///
/// If a step cannot be taken, no later step is tried, and the story has no journal and this status:
///
/// | status | cause |
/// |---|---|
/// | `ScriptRefused` | the script is no script, or it or a file of it is longer than its limit; `at` has the line, from 1, and the code, and line 0 is the script as a whole |
/// | `NoIntake` | the plan has no intake; no file is loaded |
/// | `Unread` | the script or a file of it cannot be read |
///
/// Returns `Err` if memory runs out, or if the system makes no thread for a worker of a long run: at any step, so loads and a run may
/// have been made by then. Nobody listens, and the caller watches no feed of the poller yet. The call waits for the senders' threads.
pub fn tell_front<R: Threads + Wait + Sync, S: Shelf, P: Poller + Send, C: Clock + Send>(
    rt: &R,
    alloc: Global,
    request: FrontRequest,
    shelf: &mut S,
    poller: &mut P,
    clock: &mut C,
) -> Result<Story, AllocError>
    requires senders { (0 < request.senders) × (request.senders ≤ max_front_senders) }
    requires unwatched { (feed : ℕ) → (P.state poller.old).watched feed ≡ false }
    ensures told { IfOk result (λ s. FrontTells (inputs S.Shelf shelf.old shelf.new P.Poller poller.old poller.new C.Clock clock.old clock.new) request.entry (end_of s)) }
    ensures found { IfOk result (λ s. FrontHands (seen S.tells S.state shelf.old shelf.new) request.entry (end_of s) s.found) }
    ensures wanting { OnErr result (FrontBegins (seen S.tells S.state shelf.old shelf.new) request.entry) }
    ensures kept { KeepsListens P.tells (P.state poller.old) (P.state poller.new) }
{
    match front_script(rt, alloc, request, shelf, poller, clock) {
        Ok(story) => Ok(story),
        Err(stop) => Story::stopped(alloc, stop),
    }
}
