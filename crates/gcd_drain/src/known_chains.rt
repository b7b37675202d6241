// What is known of chains.
ghost use Rattle.std.specs.Prelude.{◌≡◌, ◌≢◌, ◌<◌, ℕ, None, Some};
ghost use Rattle.gcd_plan.specs.Limits.{max_objects};
ghost use Rattle.gcd_tree.specs.TreeView.{TreeView};
ghost use Rattle.gcd_hold.specs.HoldsView.{HoldsView};
ghost use Rattle.gcd_drain.specs.DrainsView.{DrainsView};
ghost use Rattle.gcd_drain.specs.Shut.{answer_of, AreSound};

use gcd_plan::Obj;
use gcd_sets::SmallSet;
use std::marker::Model;

/// Which chains are known to be shut, and which to be open. It takes no memory, and serves while the parts stay as they are:
/// within one choice, say. Contracts see two sets in words of bits (`KnownChainsView`).
#[derive(Drop)]
pub struct KnownChains {
    known: SmallSet,
    shut: SmallSet,
}

impl Model for KnownChains {
    ghost use Rattle.gcd_drain.specs.Shut.{KnownChainsView};

    ghost Value = { KnownChainsView };

    ghost view = { λ m. record { known = m.known; shut = m.shut } };
}

impl KnownChains {
    /// Nothing is known, so what is known is so.
    #[tactic(auto, using(crate::proofs::ShutChains::nothing_known))]
    pub fn new() -> KnownChains
        ensures unknown { (o : ℕ) → answer_of result o ≡ None }
        ensures sound { (drains : DrainsView) (tree : TreeView) (holds : HoldsView) → AreSound drains tree holds result }
    {
        KnownChains {
            known: SmallSet::new(),
            shut: SmallSet::new(),
        }
    }

    /// Whether the chain of the object is known to be shut, or to be open; None where nothing is known.
    pub fn answer(&self, o: Obj) -> Option<bool>
        requires { o.0 < max_objects }
        ensures { result ≡ answer_of self.now o.0 }
    {
        if self.known.has(o.0) {
            Some(self.shut.has(o.0))
        } else {
            None
        }
    }

    /// The chain of the object is known to be shut, or to be open, from now on.
    pub fn mark(&mut self, o: Obj, shut: bool)
        requires { o.0 < max_objects }
        ensures there { answer_of self.new o.0 ≡ Some shut }
        ensures others { (k : ℕ) → k ≢ o.0 → answer_of self.new k ≡ answer_of self.old k }
    {
        self.known.set(o.0);
        if shut {
            self.shut.set(o.0);
        } else {
            self.shut.clear(o.0);
        }
    }
}
