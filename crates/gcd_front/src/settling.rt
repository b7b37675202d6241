// Compares the accounts of shut mouths with the jobs that were taken.
ghost use Rattle.std.specs.Prelude.{◌≡◌, All};
ghost use Rattle.gcd_front.specs.Fronts.{AreSettled, IsIntakeOf, IsLeftOf};
ghost use Rattle.gcd_front.specs.Views.{with_accounts};

use crate::front::Front;
use crate::intake::Intake;
use crate::left::Left;

impl<S: Drop> Intake<S> {
    /// Holds what is left of each of these mouths against what was taken, as [`Intake::settle`] does: each once, in this order. The intake
    /// knows their accounts from then on. Conditions: intake and what is left are of this front.
    pub fn settle_all(&mut self, front: &Front<S>, lefts: &mut [Left<S>])
        requires intake { IsIntakeOf front.now self.old }
        requires lefts { All (IsLeftOf front.now) lefts.old }
        ensures intake { self.new ≡ with_accounts self.old lefts.old }
        ensures lefts { lefts.new ≡ lefts.old }
        ensures settled { AreSettled self.old lefts.old }
    {
        for place in 0..lefts.len() {
            self.settle(front, &mut lefts[place]);
        }
    }
}
