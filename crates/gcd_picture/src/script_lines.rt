// On which line of a script a block, a handler or an act stands.
ghost use Rattle.std.specs.Prelude.{length};
ghost use Rattle.std.specs.Iterator.{at_most};

use gcd_plan::{MAX_BLOCKS, Obj, Plan, Run};
use gcd_text::{first_word, next_line, number, printable};
use std::alloc::{AllocError, Global};

// The lines of a text, from the first on, each without its end.
#[derive(Drop)]
struct Lines<'a>(&'a [u8]);

impl<'a> Iterator for Lines<'a> {
    type Item = &'a [u8];

    ghost remaining = { λ s. at_most (length s.0.now) };

    fn next(&mut self) -> Option<&'a [u8]> {
        let (line, rest) = next_line(self.0)?;
        self.0 = rest;
        Some(line)
    }
}

// Where a body stands: the line that opens it, 0 where there is none, and how many acts stand above it.
#[derive(Clone, Copy)]
struct Body {
    line: u32,
    above: usize,
}

const NONE: Body = Body { line: 0, above: 0 };

// The words that begin a line which is no act.
static DECLARATIONS: [&str; 12] = [
    "file",
    "queue",
    "group",
    "semaphore",
    "source",
    "cancelled",
    "until",
    "block",
    "handler",
    "main",
    "intake",
    "strip",
];

/// The lines of a script's blocks, handlers and acts, from 1; that of a block of an intake or a strip is theirs.
#[derive(Drop)]
pub struct ScriptLines {
    blocks: Vec<Body>,
    sources: Vec<Body>,
    acts: Vec<u32>,
}

// The object of this name.
fn object_named(plan: &Plan, name: &str) -> Option<usize> {
    for o in 0..plan.objects() {
        if plan.name_of_obj(Obj(o)) == name {
            return Some(o as usize);
        }
    }
    None
}

fn put(bodies: &mut [Body], place: usize, body: Body) {
    if let Some(entry) = bodies.get_mut(place) {
        *entry = body;
    }
}

// The first word of a line, and what follows it; None where the line is skipped.
fn words_of(line: &[u8]) -> Option<(&str, &str)> {
    let (first, rest) = first_word(printable(line)?)?;
    if first.starts_with('#') {
        None
    } else {
        Some((first, rest))
    }
}

// The word of a line behind its first one, at this place from 0; empty where it has fewer.
fn word_at(rest: &str, place: usize) -> &str {
    rest.split_whitespace().nth(place).unwrap_or("")
}

// How many blocks a line of these words makes: one, or those of an intake or a strip.
fn blocks_made(first: &str, rest: &str) -> usize {
    if first == "block" {
        return 1;
    }
    let count = if first == "intake" {
        word_at(rest, 1)
    } else if first == "strip" {
        word_at(rest, 4)
    } else {
        "0"
    };
    match number(count.as_bytes()) {
        Some(made) => made.min(u64::from(MAX_BLOCKS)) as usize,
        None => 0,
    }
}

impl ScriptLines {
    /// The lines of no script: each is 0.
    pub fn none(alloc: Global) -> ScriptLines {
        ScriptLines {
            blocks: Vec::new(alloc),
            sources: Vec::new(alloc),
            acts: Vec::new(alloc),
        }
    }

    /// The lines of the plan's script; of another text they mean nothing. An `Err` comes only where memory runs out.
    pub fn of(alloc: Global, plan: &Plan, text: &[u8]) -> Result<ScriptLines, AllocError> {
        let mut lines = ScriptLines {
            blocks: vec![in alloc; NONE; plan.blocks() as usize]?,
            sources: vec![in alloc; NONE; plan.objects() as usize]?,
            acts: Vec::new(alloc),
        };
        let (mut at, mut blocks) = (0u32, 0usize);
        for line in Lines(text) {
            at = at.saturating_add(1);
            if let Some((first, rest)) = words_of(line) {
                let made = blocks_made(first, rest);
                for _ in 0..made {
                    blocks = blocks.saturating_add(1);
                    let body = lines.body_at(at);
                    put(&mut lines.blocks, blocks, body);
                }
                lines.take(plan, at, first, rest)?;
            }
        }
        Ok(lines)
    }

    // A body that this line opens.
    fn body_at(&self, line: u32) -> Body {
        Body {
            line,
            above: self.acts.len(),
        }
    }

    // Takes a line of these words, whose blocks are taken already.
    fn take(&mut self, plan: &Plan, line: u32, first: &str, rest: &str) -> Result<(), AllocError> {
        let body = self.body_at(line);
        if first == "main" {
            put(&mut self.blocks, 0, body);
        } else if first == "handler" {
            if let Some((name, _)) = first_word(rest) {
                if let Some(place) = object_named(plan, name) {
                    put(&mut self.sources, place, body);
                }
            }
        } else if !DECLARATIONS.iter().any(|word| *word == first) {
            self.acts.push(line)?;
        }
        Ok(())
    }

    // The body of a run.
    fn body_of(&self, run: Run) -> Body {
        let found = match run {
            Run::Block(b) => self.blocks.get(b.0 as usize),
            Run::Source(s) => self.sources.get(s.0 as usize),
        };
        found.copied().unwrap_or(NONE)
    }

    /// The line that opens what a run does; 0 where there is none.
    pub fn of_run(&self, run: Run) -> u32 {
        self.body_of(run).line
    }

    /// The line of an act of a run, by its index from 0; 0 where there is none.
    pub fn of_act(&self, run: Run, index: u32) -> u32 {
        let body = self.body_of(run);
        if body.line == 0 {
            return 0;
        }
        let place = body.above.saturating_add(index as usize);
        self.acts.get(place).copied().unwrap_or(0)
    }
}
