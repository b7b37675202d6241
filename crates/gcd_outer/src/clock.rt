// The time.
ghost use Rattle.std.specs.Prelude.{◌≡◌, ◌≤◌, Bool, true, max};
ghost use Rattle.gcd_outer.specs.Outside.{ClockState};

/// What is due at the moment that a clock waits for.
#[derive(Clone, Copy)]
pub enum Due<'a> {
    /// The timer of this name has a due time then (dispatch_source_set_timer(3)).
    Timer(&'a str),
    /// The wait of the block of this name has its limit then (dispatch_semaphore_wait(3), dispatch_group_wait(3)).
    Wait(&'a str),
}

/// The time, in milliseconds from a start of its own. It never goes back. It has no fault.
pub trait Clock {
    /// Whether it tells the present and the greatest moment waited for. Where it doesn't, `waited` of its state
    /// claims nothing.
    ghost tells: { Bool };

    /// Its present, and the greatest moment waited for.
    ghost state: { Self → ClockState };

    /// The present time, never below an earlier answer.
    fn now(&mut self) -> u64
        ensures not_before { (state self.old).present ≤ result }
        ensures goes_on { result ≤ (state self.new).present }
        ensures told { tells ≡ true → result ≡ (state self.old).present }
        ensures waited { tells ≡ true → (state self.new).waited ≡ (state self.old).waited };

    /// Waits until the present is at least `t`. It is one of the calls that wait for others.
    fn wait_until(&mut self, t: u64)
        ensures reached { t ≤ (state self.new).present }
        ensures goes_on { (state self.old).present ≤ (state self.new).present }
        ensures waited { tells ≡ true → (state self.new).waited ≡ max ((state self.old).waited) t };

    /// Waits as [`Clock::wait_until`] does, and is told what is due then. A clock that tells people of its waits has a body of its
    /// own; any other does not look at what is due.
    fn wait_for(&mut self, t: u64, _due: Due<'_>)
        ensures reached { t ≤ (state self.new).present }
        ensures goes_on { (state self.old).present ≤ (state self.new).present }
        ensures waited { tells ≡ true → (state self.new).waited ≡ max ((state self.old).waited) t }
    {
        self.wait_until(t);
    }
}
