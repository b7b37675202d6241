// Why a run ended as it did.

use crate::noting::{Left, MAX_SAID, may_have_notes, notes};
use crate::sentence::Sentence;
use gcd_cause::{ActWords, Blame, Place, Places, Scene, Sight, act_at, code_name, misuse_words};
use gcd_event::{Entry, Event};
use gcd_history::State;
use gcd_machine::Machine;
use gcd_plan::{Blk, MAX_EVENTS, Plan, Run};
use std::alloc::{AllocError, Global};

/// A run that is over.
#[derive(Clone, Copy)]
pub struct RunEnd<'a> {
    pub plan: &'a Plan,
    /// The machine that stands for the events.
    pub machine: &'a Machine,
    /// All events, in order.
    pub events: &'a [Entry],
    /// The most events that the run may have.
    pub most: u32,
}

// What is said so far of a run.
#[derive(Drop)]
struct Saying<'a> {
    alloc: Global,
    most: u32,
    file: &'a str,
    places: Places,
    blame: Blame,
    said: Vec<Sentence<'a>>,
}

impl<'a> Saying<'a> {
    // One sentence more, on that line, but none past the most.
    fn add(&mut self, line: u32, text: String) -> Result<(), AllocError> {
        if self.said.len() < MAX_SAID {
            let sentence = Sentence {
                file: self.file,
                line,
                text,
            };
            self.said.push(sentence)?;
        }
        Ok(())
    }

    fn is_full(&self) -> bool {
        self.said.len() >= MAX_SAID
    }

    // The line of the act by which a block is parked, or was submitted; of the intake, where it came from outside.
    fn line_of_block(&self, sight: Sight, b: Blk) -> u32 {
        let now = sight.scene.block(b);
        if sight.awaited(b).is_some() {
            return self.places.line_of(Some(Place {
                run: Run::Block(b),
                index: now.made.saturating_sub(1),
            }));
        }
        if sight.is_of_intake(b) {
            return self.places.line_of_intake();
        }
        self.places.line_of(now.by)
    }

    // What a block waits for, unless it is in a cycle that was told.
    fn waiting(&mut self, sight: Sight, b: Blk) -> Result<(), AllocError> {
        let Some(text) = self.blame.chain(sight, b)? else {
            return Ok(());
        };
        let line = self.line_of_block(sight, b);
        self.add(line, text)
    }

    // What a block waits for, where it is parked.
    fn parked(&mut self, sight: Sight, b: Blk) -> Result<(), AllocError> {
        if sight.awaited(b).is_none() {
            return Ok(());
        }
        self.waiting(sight, b)
    }

    // What a block waits for, where it is submitted and has not started.
    fn unstarted(&mut self, sight: Sight, b: Blk) -> Result<(), AllocError> {
        if sight.is_started(b) || !sight.is_submitted(b) {
            return Ok(());
        }
        self.waiting(sight, b)
    }

    // What each parked block waits for, and then each that has not started.
    fn stuck(&mut self, sight: Sight) -> Result<(), AllocError> {
        for b in 0..sight.plan.blocks() {
            if self.is_full() {
                return Ok(());
            }
            self.parked(sight, Blk(b))?;
        }
        for b in 0..sight.plan.blocks() {
            if self.is_full() {
                return Ok(());
            }
            self.unstarted(sight, Blk(b))?;
        }
        Ok(())
    }

    // The notes on what is left undone.
    fn notes(&mut self, sight: Sight, text: &[u8], is_stuck: bool) -> Result<(), AllocError> {
        if !may_have_notes(sight.plan, sight.machine) {
            return Ok(());
        }
        let left = Left {
            file: self.file,
            text,
            places: &self.places,
            sight,
            is_stuck,
        };
        for note in notes(self.alloc, left)? {
            self.add(note.line, note.text)?;
        }
        Ok(())
    }

    // The act that ended the run, and the rule that it breaks.
    fn misused(&mut self, sight: Sight, run: Run, index: u32, code: u8) -> Result<(), AllocError> {
        let rule = misuse_words(self.alloc, sight, Place { run, index }, code)?;
        let (name, rule_name) = (sight.name_of(run), code_name(code));
        let text = match act_at(sight.plan, run, index) {
            Some(act) => {
                let words = ActWords {
                    plan: sight.plan,
                    act,
                };
                format!(in self.alloc;
                    "{words} in {name} is a misuse: {rule} (M{code}, {rule_name})"
                )?
            }
            None => format!(in self.alloc; "{name} has no such act (M{code}, {rule_name})")?,
        };
        let line = self.places.line_of(Some(Place { run, index }));
        self.add(line, text)
    }

    // How far a run came that has as many events as it may have.
    fn full(&mut self, sight: Sight) -> Result<(), AllocError> {
        let (mut ended, mut open, mut left) = (0u32, 0u32, 0u32);
        for b in 0..sight.plan.blocks() {
            if sight.is_ended(Blk(b)) {
                ended = ended.saturating_add(1);
            } else if sight.is_started(Blk(b)) {
                open = open.saturating_add(1);
            } else if sight.is_submitted(Blk(b)) {
                left = left.saturating_add(1);
            }
        }
        let (most, time) = (self.most, sight.scene.time);
        let more = more_words(most);
        let text = format!(in self.alloc;
            "the run has as many events as it may have (--most {most}), and goes on; blocks ended: {ended}, open: {open}, not started: {left}; time: {time} ms{more}"
        )?;
        self.add(0, text)
    }
}

// How to let a run have more events than these, where one may.
fn more_words(most: u32) -> &'static str {
    if most < MAX_EVENTS {
        "; a greater --most lets it go on"
    } else {
        ""
    }
}

// What is said of a run that has come to this state.
fn say_state(
    saying: &mut Saying,
    sight: Sight,
    state: State,
    text: &[u8],
    events: &[Entry],
) -> Result<(), AllocError> {
    match state {
        State::Drained => saying.notes(sight, text, false),
        State::Stuck => {
            saying.stuck(sight)?;
            saying.notes(sight, text, true)
        }
        State::Misused => {
            let Some(last) = events.last() else {
                return Ok(());
            };
            let Event::Misuse {
                run,
                index,
                code,
                ..
            } = last.event()
            else {
                return Ok(());
            };
            saying.misused(sight, run, index, code)
        }
        State::Halted => Ok(()),
        State::Live => {
            if events.len() < saying.most as usize {
                Ok(())
            } else {
                saying.full(sight)
            }
        }
    }
}

impl RunEnd<'_> {
    // Whether anything may be said of it.
    fn has_sentences(self) -> bool {
        match self.machine.state() {
            State::Drained => may_have_notes(self.plan, self.machine),
            State::Stuck => true,
            State::Misused => true,
            State::Halted => false,
            State::Live => self.events.len() >= self.most as usize,
        }
    }

    // What is said of it, by what its events have made.
    fn said<'a>(
        self,
        alloc: Global,
        file: &'a str,
        text: &[u8],
        scene: &Scene,
    ) -> Result<Vec<Sentence<'a>>, AllocError> {
        let mut saying = Saying {
            alloc,
            most: self.most,
            file,
            places: Places::of(alloc, self.plan, text)?,
            blame: Blame::new(alloc),
            said: Vec::new(alloc),
        };
        let sight = Sight {
            plan: self.plan,
            machine: self.machine,
            scene,
        };
        say_state(&mut saying, sight, self.machine.state(), text, self.events)?;
        let Saying {
            alloc: _,
            most: _,
            file: _,
            places: _,
            blame: _,
            said,
        } = saying;
        Ok(said)
    }
}

/// Says why a run ended as it did; the script's name and text give the lines. Of a stuck run it says what each parked block, and each
/// block that is submitted and has not started, waits for, down to the cause, and it tells each cycle once. Of a stuck or drained run it
/// also notes what was left undone. Of a misuse it says the act and the rule that the act breaks. Of a run that has as many events as it
/// may have, and goes on, it says how far the run came, and that a greater `--most` lets it go on. It says no more than 200 sentences.
///
/// If nothing is to be said, it looks once at each block and object of the plan, and not at the events. Returns `Err` only if memory runs out.
pub fn why_ended<'a>(
    alloc: Global,
    end: RunEnd,
    file: &'a str,
    text: &[u8],
) -> Result<Vec<Sentence<'a>>, AllocError> {
    if !end.has_sentences() {
        return Ok(Vec::new(alloc));
    }
    let mut scene = Scene::new(alloc, end.plan)?;
    for e in end.events {
        scene.take(end.plan, e.event())?;
    }
    end.said(alloc, file, text, &scene)
}
