// The command that runs the large script.
ghost use Rattle.std.specs.Prelude.{◌≡◌, ◌<◌, ◌≤◌, ◌++◌, ℕ, List, true, false, length, map, slice_get, sum, Some, codes, IfOk};
ghost use Rattle.std.specs.Fmt.{decimal};
ghost use Rattle.gcd_plan.specs.Limits.{max_blocks, max_workers};
ghost use Rattle.gcd_plan.specs.PlanView.{PlanView};
ghost use Rattle.gcd_plan.specs.Validity.{IsPlan};
ghost use Rattle.gcd_history.specs.Report.{last_line, line_end};
ghost use Rattle.gcd_journal.specs.Spoken.{AreSpoken};
ghost use Rattle.gcd_turn.specs.Asked.{KeepsListens};
ghost use Rattle.gcd_outer.specs.Outside.{seen};
ghost use Rattle.gcd_commands.specs.End.{large_file, ran_end};
ghost use Rattle.gcd_commands.specs.Runs.{BigEnds, IsLargeScript};
ghost use Rattle.gcd_commands.specs.Hands.{HandsOfBig};
ghost use Rattle.gcd_commands.specs.Stories.{end_of};
ghost use Rattle.gcd_commands.specs.declared.found.Found.TheVariants.{Run};

use crate::engine::run_by;
use crate::found::Found;
use crate::story::{Story, bytes_of};
use gcd_journal::write_last_line;
use gcd_outer::{Clock, Poller};
use gcd_plan::{MAX_EVENTS, Plan};
use gcd_script::{ParseFault, big_text, parse};
use gcd_words::BigRequest;
use gcd_workers::{Outcome, Over};
use std::alloc::{AllocError, Global};
use std::sync::Wait;
use std::thread::Threads;

// How many bytes the large script's file has.
const LARGE_FILE_BYTES: u32 = 4096;

// The large script with so many blocks, as a plan.
#[tactic(auto, unfolding(crate::specs::Runs::IsLargeScript))]
fn large_plan(alloc: Global, count: u32) -> Result<Plan, AllocError>
    requires some { 0 < count }
    requires few { count < max_blocks }
    ensures valid { IfOk result (λ plan. IsPlan plan) }
    ensures script { IfOk result (IsLargeScript count) }
{
    let script = big_text(alloc, count)?;
    match parse(alloc, &script) {
        Ok(plan) => Ok(plan),
        Err(ParseFault::Memory) => Err(AllocError),
        Err(ParseFault::Refused { .. }) => unreachable!(),
    }
}

// The file of the large script.
#[tactic(auto, using(crate::proofs::Totals::one_byte_more))]
fn large_bytes(alloc: Global) -> Result<Vec<u8>, AllocError>
    ensures { IfOk result (λ bytes. bytes.items ≡ large_file) }
{
    let mut bytes = Vec::with_capacity(alloc, LARGE_FILE_BYTES as usize)?;
    for i in 0..LARGE_FILE_BYTES {
        bytes.push(((7 * i + 3) % 256) as u8)?;
    }
    Ok(bytes)
}

// The contents of the plan's files: each is the large script's.
fn large_files(alloc: Global, plan: &Plan) -> Result<Vec<Vec<u8>>, AllocError>
    ensures { IfOk result (λ files. map (λ f. f.items) files.items ≡ map (λ file. large_file) plan.now.files) }
{
    let mut files = Vec::new(alloc);
    for _ in 0..plan.files().len() {
        files.push(large_bytes(alloc)?)?;
    }
    Ok(files)
}

/// The values, added up.
pub fn total(values: &[u64]) -> u128
    requires { length values.now ≤ max_blocks }
    ensures { result ≡ sum values.now }
{
    values.iter().map(|value| u128::from(*value)).sum()
}

// `blocks N` and `total S`, and then the report's last line.
fn text_of(alloc: Global, plan: &Plan, run: &Outcome, count: u16) -> Result<Vec<u8>, AllocError>
    requires few { length run.now.values.items ≤ max_blocks }
    requires spoken { AreSpoken plan.now run.now.journal.items }
    ensures { IfOk result (λ text. text.items ≡ codes "blocks " ++ (decimal count ++ (line_end
        ++ (codes "total " ++ (decimal (sum run.now.values.items) ++ (line_end ++ last_line plan.now run.now.state run.now.journal.items)))))) }
{
    let total = total(&run.values);
    let front = format!(in alloc; "blocks {count}\ntotal {total}\n")?;
    let mut text = bytes_of(alloc, front.as_str())?;
    write_last_line(alloc, plan, run.state, &run.journal, &mut text)?;
    Ok(text)
}

// Tells a run of the large script, and hands on its plan and its machine. Returns `Err` if memory runs out.
fn story_of(alloc: Global, plan: Plan, run: Outcome, count: u16) -> Result<Story, AllocError>
    requires few { length run.values.items ≤ max_blocks }
    requires spoken { AreSpoken plan run.journal.items }
    ensures told { IfOk result (λ s. end_of s ≡ ran_end run.state run.journal.items (codes "blocks " ++ (decimal count ++ (line_end
        ++ (codes "total " ++ (decimal (sum run.values.items) ++ (line_end ++ last_line plan run.state run.journal.items))))))) }
    ensures found { IfOk result (λ s. s.found ≡ Run plan run.machine) }
{
    let text = text_of(alloc, &plan, &run, count);
    let Outcome {
        journal,
        values: _,
        state,
        machine,
    } = run;
    Story::ran(state, journal, text, Found::Run { plan, machine })
}

/// Does `big N`: makes the large script of `count` blocks and the bytes of its file, and runs its plan by at most `workers` workers, from 1
/// to 64, up to as many events as a run can have. Nothing is loaded, and nobody listens. The story has the status of the state to which
/// the run has come, the run's journal, and as its text the number of blocks, the total of their values and the report's last line. It
/// hands on the plan and the machine that stands for the journal.
///
/// Returns `Err` if memory runs out, before the run or in it, or if the system makes no thread for a worker of a long run. The caller
/// watches no feed of the poller yet.
pub fn tell_large<R: Threads + Wait + Sync, P: Poller, C: Clock>(
    rt: &R,
    alloc: Global,
    request: BigRequest,
    poller: &mut P,
    clock: &mut C,
) -> Result<Story, AllocError>
    requires unwatched { (feed : ℕ) → (P.state poller.old).watched feed ≡ false }
    requires count { (0 < request.count) × (request.count < max_blocks) }
    requires workers { (0 < request.workers) × (request.workers ≤ max_workers) }
    ensures reported { IfOk result (λ s. BigEnds (seen P.tells P.state poller.old poller.new) (seen C.tells C.state clock.old clock.new) request.count request.workers (end_of s)) }
    ensures found { IfOk result (λ s. HandsOfBig request.count (end_of s) s.found) }
    ensures kept { KeepsListens P.tells (P.state poller.old) (P.state poller.new) }
{
    let plan = large_plan(alloc, u32::from(request.count))?;
    let files = large_files(alloc, &plan)?;
    let over = Over {
        plan: &plan,
        files: &files,
        most: MAX_EVENTS,
    };
    let run = run_by(rt, alloc, over, request.workers, poller, clock)?;
    let story = story_of(alloc, plan, run, request.count)?;
    Ok(story)
}
