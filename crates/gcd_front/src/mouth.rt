// The mouth of a sender.
ghost use Rattle.std.specs.Prelude.{◌≡◌, ◌+◌, ◌<◌, ◌^◌, None, [], ◌∷◌, length, IfOk, IfErr};
ghost use Rattle.crossbeam_queue.specs.Passes.{view};
ghost use Rattle.gcd_front.specs.Fronts.{IsMouthOf, WasFull};
ghost use Rattle.gcd_front.specs.Notes.{open_mouth};
ghost use Rattle.gcd_front.specs.Queue.{sending};
ghost use Rattle.gcd_front.specs.Views.{mouth_of, with_job, left_of};

use crate::front::Front;
use crate::left::Left;
use crate::notes::{NoteSeat, lay_note};
use crate::queue::{QueuePass, push_job, shut_pass};
use std::marker::Model;
use std::sync::Wait;

/// By what one sender hands in its jobs. It can't be copied, and may go to a thread of its own.
pub struct Mouth<S: Drop> {
    sender: u8,
    // How many of its jobs were accepted.
    sent: u32,
    pass: QueuePass<S>,
    seat: NoteSeat<S>,
}

impl<S: Drop> Model for Mouth<S> {
    ghost use Rattle.gcd_front.specs.Views.{MouthView};

    ghost Value = { MouthView S };

    ghost use Rattle.gcd_front.specs.Shapes.{mouth_view, IsMouth};

    ghost view = { mouth_view };

    ghost invariant = { IsMouth };
}

// One call drops all that it has: so a crate that drops mouths proves nothing of their parts.
impl<S: Drop> Drop for Mouth<S> {
    fn drop(self) {
        let Mouth {
            sender: _,
            sent: _,
            pass: _,
            seat: _,
        } = self;
    }
}

impl<S: Drop> Mouth<S> {
    /// Its sender, from 0: its place in the list that [`Front::new`] gave.
    pub fn sender(&self) -> u8
        ensures { result ≡ self.now.sender }
    {
        self.sender
    }

    /// How many of its jobs were accepted.
    pub fn sent(&self) -> u32
        ensures { result ≡ length self.now.sent }
    {
        self.sent
    }

    /// Sends a job. Ok(k): it is the k-th of this sender's that was accepted, from 1.
    ///
    /// Err only where the queue held as many jobs as it has room for at a moment of the call: the job comes back, and nothing
    /// has changed. It may wait for others that are within a call, and what it promises holds if it returns. Conditions: the
    /// mouth is of this front, and fewer than 2^32 - 1 of its jobs were accepted, which [`Mouth::sent`] tells.
    pub fn send<R: Wait>(&mut self, rt: &R, front: &Front<S>, job: S) -> Result<u32, S>
        requires mouth { IsMouthOf front.now self.old }
        requires count { length self.old.sent + 1 < 2 ^ 32 }
        ensures accepted { IfOk result (λ k. self.new ≡ with_job self.old job) }
        ensures number { IfOk result (λ k. k ≡ length self.new.sent) }
        ensures refused { IfErr result (λ back. (back ≡ job) × (self.new ≡ self.old)) }
        ensures full { IfErr result (λ _. WasFull front.now self.old) }
    {
        let number = self.sent + 1;
        match push_job(rt, &front.queue, &mut self.pass, self.sender, number, job) {
            Ok(()) => {
                self.sent = number;
                front.bell.ring();
                Ok(number)
            }
            Err(job) => Err(job),
        }
    }

    /// Shuts the mouth, for good. Of its account one part lies where the intake finds it, the other is what is left.
    /// Condition: the mouth is of this front.
    pub fn shut(self, front: &Front<S>) -> Left<S>
        requires mouth { IsMouthOf front.now self }
        ensures left { result ≡ left_of self }
    {
        let Mouth {
            sender,
            sent: _,
            mut pass,
            seat,
        } = self;
        let note = shut_pass(&front.queue, &mut pass);
        lay_note(&front.notes, seat, sender, note);
        front.bell.ring();
        Left { sender, pass }
    }
}

// A mouth of the next sender.
pub(crate) fn new_mouth<S: Drop>(sender: u8, pass: QueuePass<S>, seat: NoteSeat<S>) -> Mouth<S>
    requires pass { (pass.me.1 ≡ []) × (view pass ≡ sending sender []) }
    requires seat { seat.me ≡ (open_mouth seat.me.0.queue sender, (sender, None) ∷ []) }
    requires notes { seat.me.0.queue.table_id ≡ pass.table_id }
    requires few { sender < seat.table_id.slots }
    ensures { result ≡ mouth_of (record { queue = pass.table_id; notes = seat.table_id }) sender [] }
{
    Mouth {
        sender,
        sent: 0,
        pass,
        seat,
    }
}
