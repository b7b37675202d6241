// The lines of a journal.
ghost use Rattle.std.specs.Prelude.{◌≡◌, ◌++◌, codes, IsTrue, OnOk};
ghost use Rattle.std.specs.Fmt.{decimal};
ghost use Rattle.gcd_history.specs.Report.{name_of_run, line_end};
ghost use Rattle.gcd_history.specs.JournalText.{event_line, count_line};
ghost use Rattle.gcd_history.specs.Permitted.{is_run_of};
ghost use Rattle.gcd_journal.specs.Spoken.{IsNamed};

use gcd_event::Event;
use gcd_plan::{Plan, Run};
use itoa::Buffer;
use std::alloc::AllocError;

/// Adds the number in decimal digits.
pub fn push_number(line: &mut Vec<u8>, number: u64) -> Result<(), AllocError>
    ensures { OnOk result (line.new.items ≡ line.old.items ++ decimal number) }
{
    let mut digits = Buffer::new();
    line.extend_from_slice(digits.format(number).as_bytes())
}

/// The name of the run's block or source.
pub fn name_of(plan: &Plan, run: Run) -> &str
    requires { IsTrue (is_run_of plan.now run) }
    ensures { result.now ≡ name_of_run plan.now run }
{
    match run {
        Run::Block(b) => plan.name_of_blk(b),
        Run::Source(s) => plan.name_of_obj(s),
    }
}

// Adds the kind, the worker and the name, with no end.
fn push_turn(line: &mut Vec<u8>, kind: &[u8], worker: u8, name: &str) -> Result<(), AllocError>
    ensures { OnOk result (line.new.items ≡ line.old.items ++ (kind.now ++ (decimal worker ++ (codes " " ++ name.now)))) }
{
    line.extend_from_slice(kind)?;
    push_number(line, u64::from(worker))?;
    line.extend_from_slice(b" ")?;
    line.extend_from_slice(name.as_bytes())
}

// Adds a line with these words.
fn push_turn_line(line: &mut Vec<u8>, kind: &[u8], worker: u8, name: &str) -> Result<(), AllocError>
    ensures { OnOk result (line.new.items ≡ line.old.items ++ (kind.now ++ (decimal worker ++ (codes " " ++ (name.now ++ line_end))))) }
{
    push_turn(line, kind, worker, name)?;
    line.extend_from_slice(b"\n")
}

// Adds the line of an act.
fn push_act(line: &mut Vec<u8>, worker: u8, name: &str, index: u32) -> Result<(), AllocError>
    ensures { OnOk result (line.new.items ≡ line.old.items ++ (codes "act " ++ (decimal worker ++ (codes " " ++ (name.now ++ (codes " " ++ (decimal index ++ line_end))))))) }
{
    push_turn(line, b"act ", worker, name)?;
    line.extend_from_slice(b" ")?;
    push_number(line, u64::from(index))?;
    line.extend_from_slice(b"\n")
}

// Adds the line of a misuse.
fn push_misuse(
    line: &mut Vec<u8>,
    worker: u8,
    name: &str,
    index: u32,
    code: u8,
) -> Result<(), AllocError>
    ensures { OnOk result (line.new.items ≡ line.old.items
        ++ (codes "misuse " ++ (decimal worker ++ (codes " " ++ (name.now ++ (codes " " ++ (decimal index ++ (codes " M" ++ (decimal code ++ line_end))))))))) }
{
    push_turn(line, b"misuse ", worker, name)?;
    line.extend_from_slice(b" ")?;
    push_number(line, u64::from(index))?;
    line.extend_from_slice(b" M")?;
    push_number(line, u64::from(code))?;
    line.extend_from_slice(b"\n")
}

// Adds the line of bytes that came.
fn push_ready(line: &mut Vec<u8>, name: &str, bytes: u32) -> Result<(), AllocError>
    ensures { OnOk result (line.new.items ≡ line.old.items ++ (codes "ready " ++ (name.now ++ (codes " " ++ (decimal bytes ++ line_end))))) }
{
    line.extend_from_slice(b"ready ")?;
    line.extend_from_slice(name.as_bytes())?;
    line.extend_from_slice(b" ")?;
    push_number(line, u64::from(bytes))?;
    line.extend_from_slice(b"\n")
}

// Adds the line of a feed's end.
fn push_feed_end(line: &mut Vec<u8>, name: &str) -> Result<(), AllocError>
    ensures { OnOk result (line.new.items ≡ line.old.items ++ (codes "feed_end " ++ (name.now ++ line_end))) }
{
    line.extend_from_slice(b"feed_end ")?;
    line.extend_from_slice(name.as_bytes())?;
    line.extend_from_slice(b"\n")
}

// Adds the line of a wait that has expired.
fn push_expire(line: &mut Vec<u8>, name: &str) -> Result<(), AllocError>
    ensures { OnOk result (line.new.items ≡ line.old.items ++ (codes "expire " ++ (name.now ++ line_end))) }
{
    line.extend_from_slice(b"expire ")?;
    line.extend_from_slice(name.as_bytes())?;
    line.extend_from_slice(b"\n")
}

// Adds the line of a block that is accepted of a sender.
fn push_accept(line: &mut Vec<u8>, name: &str, sender: u8) -> Result<(), AllocError>
    ensures { OnOk result (line.new.items ≡ line.old.items ++ (codes "accept " ++ (name.now ++ (codes " " ++ (decimal sender ++ line_end))))) }
{
    line.extend_from_slice(b"accept ")?;
    line.extend_from_slice(name.as_bytes())?;
    line.extend_from_slice(b" ")?;
    push_number(line, u64::from(sender))?;
    line.extend_from_slice(b"\n")
}

// Adds a line of one word and a number.
fn push_number_line(line: &mut Vec<u8>, kind: &[u8], number: u64) -> Result<(), AllocError>
    ensures { OnOk result (line.new.items ≡ line.old.items ++ (kind.now ++ (decimal number ++ line_end))) }
{
    line.extend_from_slice(kind)?;
    push_number(line, number)?;
    line.extend_from_slice(b"\n")
}

/// Adds the line of the event.
pub fn push_event(line: &mut Vec<u8>, plan: &Plan, e: Event) -> Result<(), AllocError>
    requires { IsNamed plan.now e }
    ensures { OnOk result (line.new.items ≡ line.old.items ++ event_line plan.now e) }
{
    match e {
        Event::Start { worker, blk } => {
            push_turn_line(line, b"start ", worker, plan.name_of_blk(blk))
        }
        Event::Act { worker, run, index } => push_act(line, worker, name_of(plan, run), index),
        Event::Wake { worker, blk } => {
            push_turn_line(line, b"wake ", worker, plan.name_of_blk(blk))
        }
        Event::End { worker, blk } => push_turn_line(line, b"end ", worker, plan.name_of_blk(blk)),
        Event::Deliver { worker, src } => {
            push_turn_line(line, b"deliver ", worker, plan.name_of_obj(src))
        }
        Event::DeliverEnd { worker, src } => {
            push_turn_line(line, b"deliver_end ", worker, plan.name_of_obj(src))
        }
        Event::Tick { at } => push_number_line(line, b"tick ", u64::from(at)),
        Event::Ready { src, bytes } => push_ready(line, plan.name_of_obj(src), bytes),
        Event::FeedEnd { src } => push_feed_end(line, plan.name_of_obj(src)),
        Event::Misuse {
            worker,
            run,
            index,
            code,
        } => push_misuse(line, worker, name_of(plan, run), index, code),
        Event::Halt => line.extend_from_slice(b"halt\n"),
        Event::Expire { blk } => push_expire(line, plan.name_of_blk(blk)),
        Event::Accept { blk, sender } => push_accept(line, plan.name_of_blk(blk), sender),
        Event::Shut => line.extend_from_slice(b"shut\n"),
    }
}

/// Adds the line `events N`.
pub fn push_count(line: &mut Vec<u8>, count: usize) -> Result<(), AllocError>
    ensures { OnOk result (line.new.items ≡ line.old.items ++ count_line count) }
{
    push_number_line(line, b"events ", count as u64)
}
