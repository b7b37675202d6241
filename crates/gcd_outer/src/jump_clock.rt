// A clock in memory, which tells its present.
ghost use Rattle.std.specs.Prelude.{◌≡◌, ◌≤◌, ◌+◌, true, min, max};

use crate::clock::Clock;

/// A clock in memory: each answer moves its present on by a step, and a wait moves it to its end. It
/// starts at 0. Sums of times stop at 2^64 - 1. It tells its present and the greatest moment that was
/// waited for.
#[derive(Drop)]
pub struct JumpClock {
    step: u64,
    present: u64,
    waited: u64,
}

impl JumpClock {
    ghost use Rattle.gcd_outer.specs.InMemory.{step_of};

    /// A clock at 0 with a step of so many milliseconds.
    pub fn new(step: u64) -> Self
        ensures present { (⟦<JumpClock as Clock>⟧.state result).present ≡ 0 }
        ensures waited { (⟦<JumpClock as Clock>⟧.state result).waited ≡ 0 }
        ensures step { step_of result ≡ step }
    {
        JumpClock {
            step,
            present: 0,
            waited: 0,
        }
    }
}

impl Clock for JumpClock {
    ghost use Rattle.std.specs.Prelude.{◌≡◌, ◌≤◌, ◌+◌, true, min, max};
    ghost use Rattle.gcd_outer.specs.InMemory.{clock_state, step_of};

    ghost tells = { true };

    ghost state = { clock_state };

    // Besides what each clock promises, the present goes on by the step and no more.
    fn now(&mut self) -> u64
        ensures not_before { (⟦<JumpClock as Clock>⟧.state self.old).present ≤ result }
        ensures goes_on { result ≤ (⟦<JumpClock as Clock>⟧.state self.new).present }
        ensures told { result ≡ (⟦<JumpClock as Clock>⟧.state self.old).present }
        ensures waited { (⟦<JumpClock as Clock>⟧.state self.new).waited ≡ (⟦<JumpClock as Clock>⟧.state self.old).waited }
        ensures steps { (⟦<JumpClock as Clock>⟧.state self.new).present
            ≡ min ((⟦<JumpClock as Clock>⟧.state self.old).present + step_of self.old) 18446744073709551615 }
        ensures step { step_of self.new ≡ step_of self.old }
    {
        let now = self.present;
        self.present = now.saturating_add(self.step);
        now
    }

    // Besides what each clock promises, the present goes on to the moment waited for and no more.
    fn wait_until(&mut self, t: u64)
        ensures reached { t ≤ (⟦<JumpClock as Clock>⟧.state self.new).present }
        ensures goes_on { (⟦<JumpClock as Clock>⟧.state self.old).present ≤ (⟦<JumpClock as Clock>⟧.state self.new).present }
        ensures waited { (⟦<JumpClock as Clock>⟧.state self.new).waited
            ≡ max ((⟦<JumpClock as Clock>⟧.state self.old).waited) t }
        ensures jumps { (⟦<JumpClock as Clock>⟧.state self.new).present
            ≡ max ((⟦<JumpClock as Clock>⟧.state self.old).present) t }
        ensures step { step_of self.new ≡ step_of self.old }
    {
        self.present = self.present.max(t);
        self.waited = self.waited.max(t);
    }
}
