// On which line of a script an act stands.

use crate::another::declared_by;
use crate::lines::{Lines, Words};
use crate::naming::block_name;
use crate::scene::Place;
use gcd_plan::{Blk, Obj, Plan, Run};
use std::alloc::{AllocError, Global};

/// The lines of a script's acts.
#[derive(Drop)]
pub struct Places {
    acts: Vec<(Place, u32)>,
    objects: Vec<u32>,
    intake: u32,
}

// The first words of lines that are no acts and declare no name. An act stays in the open body.
static NAMELESS: [&str; 5] = ["cancelled", "until", "handler", "main", "intake"];

static OBJECTS: [&str; 4] = ["queue", "group", "semaphore", "source"];

// A body that is open, how many of its acts stand above, and the number of the next block that a line may declare.
#[derive(Clone, Copy)]
struct Reading {
    body: Option<Run>,
    acts: u32,
    next: u32,
}

impl Reading {
    // A line of these words declares something, and opens a body or closes the open one.
    fn declare(&mut self, plan: &Plan, words: Words) {
        self.acts = 0;
        self.body = match words.first {
            "block" => self.block(plan, words.get(0)),
            "main" => Some(Run::Block(Blk(0))),
            "handler" => plan.object_named(words.get(0)).map(|o| Run::Source(o)),
            _ => None,
        };
    }

    // The block of this name, which comes after those of the lines above.
    fn block(&mut self, plan: &Plan, name: &str) -> Option<Run> {
        let found = (self.next..plan.blocks()).find(|b| block_name(plan, Blk(*b)) == name)?;
        self.next = found.saturating_add(1);
        Some(Run::Block(Blk(found)))
    }

    // The place of an act that stands next in the open body; None if no body is open.
    fn act(&mut self) -> Option<Place> {
        let (run, index) = (self.body?, self.acts);
        self.acts = index.saturating_add(1);
        Some(Place { run, index })
    }
}

impl Places {
    /// The lines of the acts and objects of a plan's script; none where the text is another. An `Err` comes only where memory runs
    /// out.
    pub fn of(alloc: Global, plan: &Plan, text: &[u8]) -> Result<Places, AllocError> {
        let mut places = Places {
            acts: Vec::new(alloc),
            objects: vec![in alloc; 0u32]?,
            intake: 0,
        };
        let mut reading = Reading {
            body: None,
            acts: 0,
            next: 1,
        };
        for (at, line) in Lines::of(text) {
            let Some(words) = Words::of(line) else {
                continue;
            };
            if OBJECTS.contains(&words.first) {
                places.objects.push(at)?;
            }
            if words.first == "intake" {
                places.intake = at;
            }
            if declared_by(words).is_some() || NAMELESS.contains(&words.first) {
                reading.declare(plan, words);
            } else if let Some(place) = reading.act() {
                places.acts.push((place, at))?;
            }
        }
        Ok(places)
    }

    /// The line of an act; 0 where there is none.
    pub fn line_of(&self, place: Option<Place>) -> u32 {
        let found = self.acts.iter().find(|act| Some(act.0) == place);
        found.map_or(0, |act| act.1)
    }

    /// The line that declares the intake; 0 where there is none.
    pub fn line_of_intake(&self) -> u32 {
        self.intake
    }

    /// The line that declares an object; 0 where there is none.
    pub fn line_of_object(&self, o: Obj) -> u32 {
        self.objects.get(o.0 as usize).copied().unwrap_or(0)
    }
}
