//! Callers from outside: this thread, which is no worker, hands the lines of standard input to a queue that four workers run
//! (`run_callers` of `gcd_workers`; dispatch_async(3)), and writes the number of bytes of each, in their order. Proved: the first 4,096
//! lines are sent, in their order, a job gives the number of its bytes, and the values are those of the jobs taken, in order. Which lines
//! are read, and what is written, is tested.
#![tactic(auto)]

ghost use Rattle.std.specs.Prelude.{◌≡◌, ◌+◌, ◌<◌, ◌^◌, [], length, string_len, take};
ghost use Rattle.gcd_front.specs.Fronts.{IsMouthOf};
ghost use Rattle.gcd_front.specs.Views.{mouth_of, with_job};

use gcd_front::{Front, Mouth, Sent};
use gcd_workers::{Callers, run_callers};
use std::collections::VecDeque;
use std::io::{Eprint, Input};
use std::sync::Wait;

// A queue, and as many lines for it as an intake can have blocks.
const SCRIPT: &[u8] = b"queue lines concurrent\nintake lines 4096\nmain\n";

const MOST: usize = 4_096;

#[derive(Drop)]
struct Line(String);

impl Sent for Line {
    ghost gives = { λ line value. value ≡ string_len line.0 };

    fn call(self) -> u64 {
        self.0.len() as u64
    }
}

// Lines to send, in order.
#[derive(Drop)]
struct Lines(VecDeque<Line>);

// Sends the line again until it is accepted.
fn send<R: Wait>(rt: &R, front: &Front<Line>, mouth: &mut Mouth<Line>, line: Line)
    requires mouth { IsMouthOf front.now mouth.old }
    requires count { length mouth.old.sent + 1 < 2 ^ 32 }
    ensures { mouth.new ≡ with_job mouth.old line }
{
    let mut job = line;
    for _ in rt.forever() {
        match mouth.send(rt, front, job) {
            Ok(_) => return,
            Err(back) => job = back,
        }
    }
    unreachable!()
}

// Sends the first lines, in order: as many as the intake has blocks, so the front has room for each.
fn send_all<R: Wait>(
    rt: &R,
    front: &Front<Line>,
    mouth: &mut Mouth<Line>,
    lines: &mut VecDeque<Line>,
)
    requires mouth { IsMouthOf front.now mouth.old }
    requires none { mouth.old.sent ≡ [] }
    ensures { mouth.new ≡ mouth_of mouth.old.front mouth.old.sender (take 4096 lines.old.items) }
{
    for _ in 0..MOST {
        let Some(line) = lines.pop_front() else {
            return;
        };
        send(rt, front, mouth, line);
    }
}

impl Callers<Line> for Lines {
    ghost use Rattle.std.specs.Prelude.{◌≡◌, [], All, IfSome, drop, slice_get, take};

    // The first 4,096 lines went through the first mouth, in order, and nothing through any other.
    ghost called = { λ was is mouths. IfSome (slice_get mouths 0) (λ m. m.sent ≡ take 4096 was.0.items) × All (λ m. m.sent ≡ []) (drop 1 mouths) };

    fn call<R: Wait>(&mut self, rt: &R, front: &Front<Line>, mouths: &mut [Mouth<Line>]) {
        if let Some(mouth) = mouths.first_mut() {
            send_all(rt, front, mouth, &mut self.0);
        }
    }
}

// Reads lines until they end, one is not text, or there are too many.
fn read_lines(rt: &HostRuntime) -> anyhow::Result<VecDeque<Line>> {
    let mut lines = VecDeque::new(rt.alloc());
    for line in rt.lines(rt.alloc()) {
        let Ok(text) = line else { return Ok(lines) };
        if lines.len() == MOST {
            eprintln!(rt; "the lines after {MOST} are left unread").ok();
            return Ok(lines);
        }
        lines.push_back(Line(text))?;
    }
    Ok(lines)
}

fn main(rt: HostRuntime) -> anyhow::Result<()> {
    let Ok(plan) = gcd_script::parse(rt.alloc(), SCRIPT) else {
        anyhow::bail!("no plan")
    };
    let mut lines = Lines(read_lines(&rt)?);
    let run = run_callers(&rt, rt.alloc(), &plan, 4, 1, &mut lines)?;
    // Behind the value of `main` lie those of the lines.
    for value in run.values.iter().skip(1).flatten() {
        println!(rt; "{value}")?;
    }
    Ok(())
}
