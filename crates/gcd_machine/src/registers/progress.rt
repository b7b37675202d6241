// How far the run has come.
ghost use Rattle.std.specs.Prelude.{◌≡◌};
ghost use Rattle.gcd_machine.specs.Calm.{is_calm_at};
ghost use Rattle.gcd_machine.specs.Chosen.{is_quiescent_at, state_by};
ghost use Rattle.gcd_machine.specs.Stands.{IsShaped};

use super::Registers;
use gcd_history::State;

impl Registers {
    /// Whether nothing can come of poller, clock or outside callers.
    #[inline(always)]
    pub fn is_calm(&self) -> bool
        requires { IsShaped self.now }
        ensures { result ≡ is_calm_at self.now }
    {
        !self.intake_open()
            && self.live.is_empty()
            && self.ripe.is_empty()
            && self.next_due().is_none()
    }

    /// Whether nothing but a halt can come any more, and the run is not over.
    pub fn is_quiescent(&self) -> bool
        requires { IsShaped self.now }
        ensures { result ≡ is_quiescent_at self.now }
    {
        if self.is_over() {
            return false;
        }
        if self.intake_open() {
            return false;
        }
        if self.running > 0 {
            return false;
        }
        if !self.live.is_empty() {
            return false;
        }
        if !self.ripe.is_empty() {
            return false;
        }
        if self.next_due().is_some() {
            return false;
        }
        self.choice(0, 0).is_none()
    }

    /// How far the run has come; where nothing can come any more, and no block is left, it is drained, and else stuck.
    pub fn state(&self) -> State
        requires { IsShaped self.now }
        ensures { result ≡ state_by self.now }
    {
        if self.misused {
            State::Misused
        } else if self.halted {
            State::Halted
        } else if !self.is_quiescent() {
            State::Live
        } else if self.left == 0 {
            State::Drained
        } else {
            State::Stuck
        }
    }
}
