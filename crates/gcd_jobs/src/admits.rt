// A job made of what a caller from outside sent.
ghost use Rattle.std.specs.Prelude.{ℕ};

use crate::Job;
use gcd_front::Sent;

/// A job that may be made of what a caller from outside sent (dispatch_async(3)), to be the job of a block.
pub trait Admits<S: Sent>: Job + Sized {
    /// The job that runs what was sent: at 0, the input of a block's job, it may give only what that may give.
    fn admit(sent: S) -> Self
        ensures { (value : ℕ) → Self.gives result 0 value → S.gives sent value };
}
