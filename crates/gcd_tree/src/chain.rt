// The chain of an object.
ghost use Rattle.std.specs.Prelude.{◌≡◌, ◌<◌, ◌≤◌, length, All};
ghost use Rattle.std.specs.Iterator.{YieldsFirstBy, item_count};
ghost use Rattle.gcd_plan.specs.Chains.{chain_by};
ghost use Rattle.gcd_tree.specs.TreeView.{target_in};
ghost use Rattle.gcd_tree.specs.IsTree.{TargetsFit};

use gcd_plan::Obj;
use std::marker::Model;

/// The chain of an object: the object, its target and so on to `root` (dispatch_queue_create(3)). Contracts see it as the
/// list of the numbers of the objects that are left, and `next` gives the first of them.
#[derive(Drop)]
pub struct Chain<'a> {
    targets: &'a [Obj],
    at: Obj,
    // At most how many objects are left.
    left: usize,
}

impl<'a> Model for Chain<'a> {
    ghost use Rattle.std.specs.Prelude.{ℕ, ◌<◌, List, length};
    ghost use Rattle.gcd_plan.specs.Chains.{chain_by};
    ghost use Rattle.gcd_tree.specs.TreeView.{target_in};
    ghost use Rattle.gcd_tree.specs.IsTree.{TargetsFit};

    ghost Value = { List ℕ };

    ghost view = { λ c. chain_by (target_in c.targets.now) c.left c.at.0 };

    ghost invariant = { λ c. TargetsFit c.targets.now × (c.at.0 < length c.targets.now) };
}

impl<'a> Chain<'a> {
    // The chain of the object under these targets.
    #[tactic(auto, using(crate::proofs::Walks::All_chain_by, crate::proofs::Walks::length_chain_by))]
    pub(crate) fn along(targets: &'a [Obj], o: Obj) -> Chain<'a>
        requires fit { TargetsFit targets.now }
        requires object { o.0 < length targets.now }
        ensures chain { result ≡ chain_by (target_in targets.now) (length targets.now) o.0 }
        ensures in_range { All (λ x. x < length targets.now) result }
        ensures no_longer { length result ≤ length targets.now }
    {
        Chain {
            targets,
            at: o,
            left: targets.len(),
        }
    }
}

impl<'a> Iterator for Chain<'a> {
    type Item = Obj;

    ghost next_gives = { YieldsFirstBy (λ o. o.0) (λ rest. rest) };

    ghost remaining = { item_count (λ rest. rest) };

    fn next(&mut self) -> Option<Obj> {
        if self.left == 0 {
            return None;
        }
        let o = self.at;
        if o.0 == 0 {
            self.left = 0;
        } else {
            self.left -= 1;
            self.at = self.targets[o.0 as usize];
        }
        Some(o)
    }
}
