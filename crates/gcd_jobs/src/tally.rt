// The handler that counts and folds.
ghost use Rattle.std.specs.Prelude.{◌≡◌};

use crate::Handler;
use gcd_plan::Kind;

/// A handler that counts its deliveries and folds their values (dispatch_source_create(3)): by bitwise or where its
/// source is an or source, to the newest where it is a replace source, and else by addition.
#[derive(PartialEq, Eq, Drop)]
pub struct Tally {
    /// The kind of its source.
    pub kind: Kind,
    /// How many values it took.
    pub times: u32,
    /// These values in one.
    pub total: u64,
}

impl Tally {
    /// The handler of a source of this kind before its first delivery.
    pub fn new(kind: Kind) -> Tally
        ensures { result ≡ record { kind = kind; times = 0; total = 0 } }
    {
        Tally {
            kind,
            times: 0,
            total: 0,
        }
    }
}

impl Handler for Tally {
    ghost kind = { λ t. t.kind };

    ghost times = { λ t. t.times };

    ghost total = { λ t. t.total };

    fn take(&mut self, value: u64) {
        self.times += 1;
        let folded = self.kind.folded(u128::from(self.total), u128::from(value));
        self.total = folded as u64;
    }
}
