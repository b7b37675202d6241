// Why an event of a journal is refused.
ghost use Rattle.std.specs.Prelude.{◌≡◌, take, IfOk, option_map};
ghost use Rattle.gcd_machine.specs.Stands.{StandsFor};
ghost use Rattle.gcd_why.specs.Barred.{Bars};

use crate::barred::{Barred, Judged};
use crate::sentence::Sentence;
use gcd_cause::{EventWords, Scene, Sight, in_the_way};
use gcd_event::{Entry, Event};
use std::alloc::{AllocError, Global};

/// A sentence on an event that is not permitted, and what it says: the index, the event and the reason.
#[derive(Drop)]
pub struct EventSentence<'a> {
    pub barred: Barred,
    pub sentence: Sentence<'a>,
}

// The event that stands before it.
fn before(events: &[Entry], index: u32) -> Option<Event> {
    let place = (index as usize).checked_sub(1)?;
    Some(events.get(place)?.event())
}

// What the events before the index have made.
fn scene_before(alloc: Global, judged: Judged) -> Result<Scene, AllocError> {
    let mut scene = Scene::new(alloc, judged.plan)?;
    for (index, e) in judged.events.iter().enumerate() {
        if index >= judged.index as usize {
            return Ok(scene);
        }
        scene.take(judged.plan, e.event())?;
    }
    Ok(scene)
}

// The sentence of the event, at its place.
fn say<'a>(
    alloc: Global,
    file: &'a str,
    judged: Judged,
    barred: Barred,
) -> Result<Sentence<'a>, AllocError>
    ensures file { IfOk result (λ s. s.file.now ≡ file.now) }
{
    let scene = scene_before(alloc, judged)?;
    let sight = Sight {
        plan: judged.plan,
        machine: judged.machine,
        scene: &scene,
    };
    let last = before(judged.events, barred.index);
    let way = in_the_way(alloc, sight, barred.event, barred.reason, last)?;
    let event = EventWords {
        plan: judged.plan,
        event: barred.event,
    };
    let (index, reason) = (barred.index, barred.reason);
    let text = format!(in alloc; "event {index}, {event}, may not come here: {way} ({reason:?})")?;
    Sentence::of(alloc, file, index.saturating_add(1), text)
}

/// Says why an event of a journal may not come: on its line of the journal, which is one more than its index, with the reason that
/// the definitions give it at that place (`why`), and what is in the way. None exactly where the journal has no such event, or where it
/// is permitted. The machine takes no step. An `Err` comes only where memory runs out.
pub fn why_event<'a>(
    alloc: Global,
    judged: Judged,
    file: &'a str,
) -> Result<Option<EventSentence<'a>>, AllocError>
    ensures { StandsFor judged.entry.machine.now judged.entry.plan.now (take judged.entry.index judged.entry.events.now)
        → IfOk result (λ said. Bars judged.entry.plan.now judged.entry.events.now judged.entry.index (option_map (λ s. s.barred) said)) }
{
    let Some(barred) = judged.barred() else {
        return Ok(None);
    };
    let sentence = say(alloc, file, judged, barred)?;
    Ok(Some(EventSentence { barred, sentence }))
}
