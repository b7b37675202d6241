// What the plan says of runs.
ghost use Rattle.std.specs.Prelude.{◌≡◌};
ghost use Rattle.gcd_history.specs.Runs.{act_at};

use super::Registers;
use gcd_plan::{Act, Run};

impl Registers {
    // The act at a place of what the run does.
    #[inline(always)]
    pub fn act_at(&self, run: Run, index: u32) -> Option<Act>
        ensures { result ≡ act_at self.now.plan run index }
    {
        let known = match run {
            Run::Block(b) => b.0 < self.plan.blocks(),
            Run::Source(s) => s.0 < self.plan.objects(),
        };
        if known {
            self.plan.acts(run).get(index as usize).copied()
        } else {
            None
        }
    }
}
