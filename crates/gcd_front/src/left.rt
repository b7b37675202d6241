// What is left of a mouth.
ghost use Rattle.std.specs.Prelude.{◌≡◌};

use crate::queue::QueuePass;
use std::marker::Model;

/// What is left of a mouth that was shut: which sender's it was, and the account of what was accepted of it, which
/// [`crate::Intake::settle`] holds against what was taken.
pub struct Left<S: Drop> {
    pub(crate) sender: u8,
    pub(crate) pass: QueuePass<S>,
}

impl<S: Drop> Model for Left<S> {
    ghost use Rattle.gcd_front.specs.Views.{LeftView};

    ghost Value = { LeftView S };

    ghost use Rattle.gcd_front.specs.Shapes.{left_view, IsLeft};

    ghost view = { left_view };

    ghost invariant = { IsLeft };
}

// One call drops all that it has: so a crate that drops it proves nothing of its parts.
impl<S: Drop> Drop for Left<S> {
    fn drop(self) {
        let Left { sender: _, pass: _ } = self;
    }
}

impl<S: Drop> Left<S> {
    /// Its sender, as [`crate::Mouth::sender`] said it.
    pub fn sender(&self) -> u8
        ensures { result ≡ self.now.sender }
    {
        self.sender
    }
}
