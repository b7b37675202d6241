// The front, and how it is made.
ghost use Rattle.std.specs.Prelude.{◌≡◌, ◌≤◌, ◌<◌, ◌+◌, None, [], All, IfOk};
ghost use Rattle.crossbeam_queue.specs.Passes.{view, IsPassOf};
ghost use Rattle.gcd_front.specs.Fronts.{IsMouthOf, IsIntakeOf, first_mouths, new_mouths};
ghost use Rattle.gcd_front.specs.Limits.{max_senders};
ghost use Rattle.gcd_front.specs.Notes.{listening};
ghost use Rattle.gcd_front.specs.Queue.{opening};
ghost use Rattle.gcd_front.specs.Views.{new_intake};

use crate::bell::Bell;
use crate::intake::Intake;
use crate::mouth::{Mouth, new_mouth};
use crate::notes::{NoteSeat, Notes, make_sender, open_notes};
use crate::queue::{JobQueue, QueuePass, make_mouth, open_queue};
use std::alloc::{AllocError, Global};
use std::marker::Model;
use std::sync::Wait;
use std::time::Duration;

/// The queue by which threads that are no workers hand in jobs. Threads share it by `&`.
pub struct Front<S: Drop> {
    pub(crate) queue: JobQueue<S>,
    pub(crate) notes: Notes<S>,
    pub(crate) senders: u8,
    pub(crate) bell: Bell,
}

impl<S: Drop> Model for Front<S> {
    ghost use Rattle.gcd_front.specs.Views.{FrontView};

    ghost Value = { FrontView };

    ghost use Rattle.gcd_front.specs.Shapes.{front_view, IsFront};

    ghost view = { front_view };

    ghost invariant = { IsFront };
}

// One call drops all that it has: so a crate that drops fronts proves nothing of their parts.
impl<S: Drop> Drop for Front<S> {
    fn drop(self) {
        let Front {
            queue: _,
            notes: _,
            senders: _,
            bell: _,
        } = self;
    }
}

// The mouths of so many senders, by number, and the intake.
fn open_mouths<S: Drop>(
    alloc: Global,
    queue: &JobQueue<S>,
    mut pass: QueuePass<S>,
    notes: &Notes<S>,
    mut seat: NoteSeat<S>,
    senders: u8,
) -> Result<(Vec<Mouth<S>>, Intake<S>), AllocError>
    requires pass { IsPassOf queue.now pass × (view pass ≡ opening) }
    requires seat { (seat.table_id ≡ notes.now.shared.table_id) × (seat.me ≡ (listening seat.me.0.queue 0 0 [] None, [])) }
    requires queue { seat.me.0.queue.table_id ≡ queue.now.table.shared.table_id }
    requires words { notes.now.shared.table_id.words ≡ notes.now.shared.table_id.slots + 1 }
    requires slots { notes.now.shared.table_id.slots ≡ senders }
    ensures mouths { IfOk result (λ r. r.0.items ≡ first_mouths (record { queue = queue.now.table.shared.table_id; notes = notes.now.shared.table_id }) senders) }
    ensures intake { IfOk result (λ r. r.1 ≡ new_intake (record { queue = queue.now.table.shared.table_id; notes = notes.now.shared.table_id })) }
{
    let mut mouths = Vec::with_capacity(alloc, senders as usize)?;
    for sender in 0..senders {
        let (intake, own) = make_sender(notes, seat, sender);
        seat = intake;
        let made = make_mouth(queue, &mut pass);
        mouths.push(new_mouth(sender, made, own))?;
    }
    Ok((
        mouths,
        Intake {
            pass,
            seat,
            heard: 0,
        },
    ))
}

impl<S: Drop> Front<S> {
    /// A front whose queue has room for `room` jobs, at least 1; a mouth for each of `senders` senders, at most
    /// [`crate::MAX_SENDERS`], by their numbers from 0; and the intake. Nothing was sent or taken.
    ///
    /// The only refusal is out of memory, and then nothing is kept. No other call takes memory.
    pub fn new(
        alloc: Global,
        room: u32,
        senders: u8,
    ) -> Result<(Front<S>, Vec<Mouth<S>>, Intake<S>), AllocError>
        requires room { 0 < room }
        requires senders { senders ≤ max_senders }
        ensures front { IfOk result (λ r. (r.0.room ≡ room) × (r.0.senders ≡ senders)) }
        ensures mouths { IfOk result (λ r. r.1.items ≡ new_mouths r.0) }
        ensures intake { IfOk result (λ r. r.2 ≡ new_intake r.0.id) }
        ensures of_front { IfOk result (λ r. All (λ m. IsMouthOf r.0 m) r.1.items × IsIntakeOf r.0 r.2) }
    {
        let (queue, pass) = open_queue(alloc, room)?;
        let (notes, seat) = open_notes(alloc, senders, &pass)?;
        let (mouths, intake) = open_mouths(alloc, &queue, pass, &notes, seat, senders)?;
        let front = Front {
            queue,
            notes,
            senders,
            bell: Bell::new(),
        };
        Ok((front, mouths, intake))
    }

    /// How many senders it has, at most [`crate::MAX_SENDERS`].
    pub fn senders(&self) -> u8
        ensures count { result ≡ self.now.senders }
        ensures few { result ≤ max_senders }
    {
        self.senders
    }

    /// From now on each job that is accepted, and each mouth that is shut, ends the [`Front::sleep`] that is under way, or the next
    /// one. Who takes the jobs listens first, then takes what there is, and then sleeps: so nothing that comes is slept through.
    /// While nobody listens a sender has one load more to make; else it may have a sleeper to wake.
    pub fn listen(&self) {
        self.bell.listen();
    }

    /// Nobody sleeps any more: no sender has to wake who takes the jobs.
    pub fn ignore(&self) {
        self.bell.ignore();
    }

    /// Sleeps for at most so long, and no longer than until a job is accepted or a mouth is shut, where the caller listens. It may
    /// return early, so it tells nothing: [`Intake::take`] tells whether there is a job. At most one thread sleeps at a time.
    pub fn sleep<R: Wait>(&self, rt: &R, longest: Duration) {
        self.bell.sleep(rt, longest);
    }
}
