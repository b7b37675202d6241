// The blocks of the intake, which are accepted from outside one after the other (this project's own rule).
ghost use Rattle.std.specs.Prelude.{◌≡◌, option_map};
ghost use Rattle.gcd_plan.specs.Made.{is_of_intake, is_within};
ghost use Rattle.gcd_refinement.specs.Ties.{next_in};
ghost use Rattle.gcd_machine.specs.Steps.{accepted, accepted_one};
ghost use Rattle.gcd_machine.specs.Conditions.{CanAccept};
ghost use Rattle.gcd_machine.specs.Judged.{is_intake_open_at};
ghost use Rattle.gcd_machine.specs.Stands.{IsShaped};

use super::Registers;
use gcd_plan::{Blk, Obj};

// Whether the number is one of so many from the first on.
fn is_within(b: u32, first: u32, count: u32) -> bool
    ensures { result ≡ is_within b (record { first = first; count = count }) }
{
    first <= b && u64::from(b) < u64::from(first) + u64::from(count)
}

impl Registers {
    /// Whether the plan has an intake that is not shut.
    #[inline(always)]
    pub fn intake_open(&self) -> bool
        ensures { result ≡ is_intake_open_at self.now }
    {
        self.plan.intake().is_some() && !self.shut
    }

    /// The next block of the intake; None exactly where the intake is not open, or each of its blocks is accepted.
    pub fn next_intake(&self) -> Option<Blk>
        requires { IsShaped self.now }
        ensures { result ≡ next_in self.now.plan self.now }
    {
        let (_, first, count) = self.plan.intake()?;
        if self.shut {
            None
        } else if self.accepted < count {
            Some(Blk(first + self.accepted))
        } else {
            None
        }
    }

    // Whether the block is one of the intake's.
    pub fn is_made_by_intake(&self, blk: Blk) -> bool
        ensures { result ≡ is_of_intake self.now.plan blk.0 }
    {
        match self.plan.intake() {
            Some((_, first, count)) => is_within(blk.0, first, count),
            None => false,
        }
    }

    // The queue of the intake.
    fn intake_queue(&self) -> Option<Obj>
        ensures { result ≡ option_map (λ i. i.queue) self.now.plan.intake }
    {
        match self.plan.intake() {
            Some((queue, _, _)) => Some(queue),
            None => None,
        }
    }

    // The block of the intake is accepted: it waits on the intake's queue behind all others.
    pub fn accept(&mut self, blk: Blk)
        requires { CanAccept self.old blk }
        ensures { self.new ≡ accepted_one self.old blk }
    {
        self.accepted += 1;
        match self.intake_queue() {
            Some(queue) => self.submit(queue, blk, false),
            None => {}
        }
    }
}
