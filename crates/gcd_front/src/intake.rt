// Who takes the jobs.
ghost use Rattle.std.specs.Prelude.{◌≡◌, ◌+◌, ◌<◌, ◌++◌, List, IfSome, IfNone, IsTrue, IsFalse};
ghost use Rattle.gcd_front.specs.Fronts.{IsIntakeOf, IsLeftOf, WasEmpty, TakesNext, KnowsAccount, KnowsAll, KnowsOnly, TookAll, LearnsMore, FoundOpen};
ghost use Rattle.gcd_front.specs.Queue.{parcel, jobs_of};
ghost use Rattle.gcd_front.specs.Views.{with_account};

use crate::front::Front;
use crate::left::Left;
use crate::notes::{NoteSeat, take_note};
use crate::queue::{QueuePass, hear_note, pop_job, settle_pass};
use std::marker::Model;
use std::sync::Wait;

/// By what the jobs of all senders are taken. A front has one, which can't be copied.
pub struct Intake<S: Drop> {
    pub(crate) pass: QueuePass<S>,
    pub(crate) seat: NoteSeat<S>,
    // Of how many senders, from the first on, it took the note.
    pub(crate) heard: u8,
}

impl<S: Drop> Model for Intake<S> {
    ghost use Rattle.gcd_front.specs.Views.{IntakeView};

    ghost Value = { IntakeView S };

    ghost use Rattle.gcd_front.specs.Shapes.{intake_view, IsIntake};

    ghost view = { intake_view };

    ghost invariant = { IsIntake };
}

// One call drops all that it has: so a crate that drops intakes proves nothing of their parts.
impl<S: Drop> Drop for Intake<S> {
    fn drop(self) {
        let Intake {
            pass: _,
            seat: _,
            heard: _,
        } = self;
    }
}

impl<S: Drop> Intake<S> {
    /// Takes the first job that lies in the queue, with its sender and its number among that sender's, from 1.
    ///
    /// None only where the queue was empty at a moment of the call: nothing has changed then, and all was taken that was
    /// accepted of the senders whose accounts the intake knows. It may wait for others that are within a call, and what it
    /// promises holds if it returns. Condition: the intake is of this front.
    pub fn take<R: Wait>(&mut self, rt: &R, front: &Front<S>) -> Option<(u8, u32, S)>
        requires intake { IsIntakeOf front.now self.old }
        ensures taken { IfSome result (λ r. TakesNext front.now self.old (parcel r.0 r.1 r.2) self.new) }
        ensures same { IfNone result (self.new ≡ self.old) }
        ensures empty { IfNone result (WasEmpty front.now self.old) }
        ensures all { IfNone result (TookAll self.old) }
    {
        pop_job(rt, &front.queue, &mut self.pass)
    }

    // Whether the mouth of the first sender that it has not heard of is shut. It takes the note then.
    fn hear_next(&mut self, front: &Front<S>) -> bool
        requires intake { IsIntakeOf front.now self.old }
        requires next { self.old.heard < front.now.senders }
        ensures more { LearnsMore self.old self.new }
        ensures shut { IsTrue result → (self.new.heard ≡ self.old.heard + 1) × (self.new.opens ≡ self.old.opens) }
        ensures known { IsTrue result → KnowsAccount self.old.heard self.new }
        ensures found_open { IsFalse result → FoundOpen front.now self.old self.new }
    {
        match take_note(&front.notes, &mut self.seat, self.heard) {
            None => false,
            Some(note) => {
                hear_note(&front.queue, &mut self.pass, note);
                self.heard += 1;
                true
            }
        }
    }

    /// Takes in the accounts of shut mouths, by the numbers of their senders, up to the first that is not shut.
    ///
    /// True only where every mouth was shut: the intake knows the account of each then, so a later [`Intake::take`] that gives
    /// None has left nothing. False only where a mouth was found open at a look of the call. A look that finds one shut is made
    /// once, so the call makes one look more than it finds shut. Condition: the intake is of this front.
    pub fn all_shut(&mut self, front: &Front<S>) -> bool
        requires intake { IsIntakeOf front.now self.old }
        ensures more { LearnsMore self.old self.new }
        ensures known { IsTrue result → KnowsAll front.now self.new }
        ensures found_open { IsFalse result → FoundOpen front.now self.old self.new }
    {
        for _sender in self.heard..front.senders {
            if !self.hear_next(front) {
                return false;
            }
        }
        true
    }

    /// Holds what is left of a mouth against what was taken: what was taken of its sender is how its accepted jobs begin, and
    /// all of them where a [`Intake::take`] gave None while the intake knew that sender's account. An account of the sender that
    /// the intake knew before is the same. The intake knows the account from then on. Conditions: intake and what is left are of
    /// this front.
    pub fn settle(&mut self, front: &Front<S>, left: &mut Left<S>)
        requires intake { IsIntakeOf front.now self.old }
        requires left { IsLeftOf front.now left.old }
        ensures intake { self.new ≡ with_account self.old left.old }
        ensures left { left.new ≡ left.old }
        ensures begins { (rest : List S) × (left.old.sent ≡ jobs_of left.old.sender self.old.taken ++ rest) }
        ensures only { KnowsOnly left.old self.old }
        ensures all { TookAll self.old → KnowsAccount left.old.sender self.old
            → left.old.sent ≡ jobs_of left.old.sender self.old.taken }
        ensures still { TookAll self.old → KnowsAccount left.old.sender self.old → TookAll self.new }
    {
        settle_pass(&front.queue, &mut self.pass, &mut left.pass);
    }
}
