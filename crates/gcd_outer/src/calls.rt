// The calls of one kind on something in memory: how many there were, and which are to fail.
ghost use Rattle.std.specs.Prelude.{◌≡◌, ◌++◌, ◌∷◌, [], ◌↔◌, Contains, IsTrue, OnOk, OnErr};
ghost use Rattle.gcd_outer.specs.Outside.{next_count};

use std::alloc::{AllocError, Global};
use std::marker::Model;

#[derive(Drop)]
pub(crate) struct Calls {
    failing: Vec<u64>,
    made: u64,
}

impl Model for Calls {
    ghost use Rattle.gcd_outer.specs.Planned.{Planned};

    ghost Value = { Planned };

    ghost view = { λ c. record { made = c.made; failing = c.failing.items } };
}

impl Calls {
    // No call was made, and none is to fail.
    pub(crate) fn new(alloc: Global) -> Self
        ensures made { result.made ≡ 0 }
        ensures failing { result.failing ≡ [] }
    {
        Calls {
            failing: Vec::new(alloc),
            made: 0,
        }
    }

    // The call of this number, counted from 0, is to fail.
    pub(crate) fn fail(&mut self, call: u64) -> Result<(), AllocError>
        ensures made { self.new.made ≡ self.old.made }
        ensures ok { OnOk result (self.new.failing ≡ self.old.failing ++ call ∷ []) }
        ensures err { OnErr result (self.new.failing ≡ self.old.failing) }
    {
        self.failing.push(call)?;
        Ok(())
    }

    // One more call is made: is it to fail?
    pub(crate) fn next(&mut self) -> bool
        ensures fails { IsTrue result ↔ Contains self.old.failing self.old.made }
        ensures made { self.new.made ≡ next_count self.old.made }
        ensures failing { self.new.failing ≡ self.old.failing }
    {
        let call = self.made;
        self.made = call.saturating_add(1);
        self.failing.contains(&call)
    }
}
