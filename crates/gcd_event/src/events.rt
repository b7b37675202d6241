// The events of a journal.
ghost use Rattle.std.specs.Prelude.{◌≡◌, IfOk};

use crate::entry::Entry;
use crate::event::Event;
use std::alloc::{AllocError, Global};

/// The events of a journal, in order, for callers that want a list of them. Returns `Err` if memory runs out.
pub fn events_of(alloc: Global, journal: &[Entry]) -> Result<Vec<Event>, AllocError>
    ensures { IfOk result (λ events. events.items ≡ journal.now) }
{
    let mut events = Vec::new(alloc);
    for entry in journal {
        events.push(entry.event())?;
    }
    Ok(events)
}
