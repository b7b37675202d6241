// Which timers have a due time that no delivery took.
ghost use Rattle.std.specs.Prelude.{◌≡◌, ◌<◌, length};
ghost use Rattle.gcd_refinement.specs.After.{has_due};
ghost use Rattle.gcd_machine.specs.Steps.{come_to};
ghost use Rattle.gcd_machine.specs.Conditions.{CanTick};

use super::Registers;
use gcd_plan::Obj;

impl Registers {
    // The time has come to `at`, in milliseconds: each timer of which a due time comes has to be looked at, and each wait whose
    // limit comes may expire.
    pub fn tick(&mut self, at: u32)
        requires { CanTick self.old at }
        ensures { self.new ≡ come_to self.old at }
    {
        self.timers.tick_marked(at, &mut self.busy);
        self.ripen(at);
    }

    /// Whether the source is a timer with a due time that no delivery took (dispatch_source_set_timer(3)).
    pub fn has_due(&self, timer: Obj) -> bool
        requires handler { timer.0 < length self.now.handlers }
        requires known { timer.0 < length self.now.timers.kinds }
        ensures { result ≡ has_due self.now.timers self.now.handlers timer.0 }
    {
        self.handlers[timer.0 as usize].taken < self.timers.due_count(timer)
    }
}
